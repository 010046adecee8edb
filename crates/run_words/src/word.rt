// The form of a word before `--`.
ghost use Rattle.std.specs.Prelude.{◌≡◌, ◌≤◌, ◌==◌, cond, get_or, not, length};
ghost use Rattle.std.specs.List.{prefix_len};
ghost use Rattle.c_lexer.specs.Words.{is_in};
ghost use Rattle.run_words.specs.Forms as forms;
ghost use Rattle.run_words.specs.Forms.{shown_form};
ghost use Rattle.run_words.specs.Parts as spec;
ghost use Rattle.run_words.specs.Parts.{Awaits, Bare, Unknown};

/// The form of a word before `--`.
#[derive(Clone, Copy)]
pub enum Form<'a> {
    /// It ends the options.
    End,
    /// An option of this name, whose value is the next word.
    Awaits(&'a [u8]),
    /// An option of this name, with its value or without need of one.
    Named(&'a [u8]),
    /// Not an option.
    Plain,
    /// An option that doesn't exist.
    Unknown,
}

/// Whether the word begins with `-` and is longer than one byte.
pub fn is_option(word: &[u8]) -> bool
    ensures { result ≡ spec.is_option word.now }
{
    if word.len() < 2 {
        return false;
    }
    word[0] == b'-'
}

/// Whether an option of this name takes a value.
fn is_valued(name: &[u8]) -> bool
    ensures { result ≡ is_in spec.valued_options name.now }
{
    name == b"sp-file".as_slice()
        || name == b"iso-file".as_slice()
        || name == b"define".as_slice()
        || name == b"jobs".as_slice()
        || name == b"generate".as_slice()
        || name == b"functions".as_slice()
        || name == b"unread".as_slice()
}

/// Whether this is the name of an option that takes no value.
fn is_flag(name: &[u8]) -> bool
    ensures { result ≡ is_in spec.flag_options name.now }
{
    name == b"witnesses".as_slice()
        || name == b"in-place".as_slice()
        || name == b"check".as_slice()
        || name == b"quiet".as_slice()
        || name == b"tidy".as_slice()
        || name == b"help".as_slice()
        || name == b"version".as_slice()
}

/// Returns the position of the first `=` in a text, or of its end.
fn equals_sign(text: &[u8]) -> usize
    ensures within { result ≤ length text.now }
    ensures first { result ≡ prefix_len (λ b. not (b == 61)) text.now }
{
    text.iter().take_while(|b| **b != b'=').count()
}

/// Returns the form of an option with a value.
fn with_value<'a>(name: &'a [u8]) -> Form<'a>
    ensures { shown_form result ≡ cond (is_in spec.valued_options name.now) (Bare name.now) Unknown }
{
    if is_valued(name) {
        return Form::Named(name);
    }
    Form::Unknown
}

/// Returns the form of an option without a value.
fn without_value<'a>(name: &'a [u8]) -> Form<'a>
    ensures { shown_form result
        ≡ cond (is_in spec.valued_options name.now) (Awaits name.now) (cond (is_in spec.flag_options name.now) (Bare name.now) Unknown) }
{
    if is_valued(name) {
        return Form::Awaits(name);
    }
    if is_flag(name) {
        return Form::Named(name);
    }
    Form::Unknown
}

/// Returns the form of an option by what follows `--`.
fn named<'a>(text: &'a [u8]) -> Form<'a>
    ensures { shown_form result ≡ forms.without_value (spec.named (spec.name_part text.now) (spec.value_part text.now)) }
{
    let end = equals_sign(text);
    let name = &text[..end];
    if end < text.len() {
        return with_value(name);
    }
    without_value(name)
}

/// Whether the second byte is `-`.
fn is_long(word: &[u8]) -> bool
    requires { 2 ≤ length word.now }
    ensures { result ≡ (get_or word.now 1 0 == 45) }
{
    word[1] == b'-'
}

/// Returns the form of an option.
fn option_form<'a>(word: &'a [u8]) -> Form<'a>
    requires { 2 ≤ length word.now }
    ensures { shown_form result ≡ forms.without_value (spec.option_word word.now) }
{
    if !is_long(word) {
        return Form::Unknown;
    }
    let text = &word[2..];
    if text.is_empty() {
        return Form::End;
    }
    named(text)
}

/// Returns the form of a word. Linear.
pub fn form_of<'a>(word: &'a [u8]) -> Form<'a>
    ensures { shown_form result ≡ forms.without_value (spec.word_of word.now) }
{
    if !is_option(word) {
        return Form::Plain;
    }
    option_form(word)
}
