// The tokens that determine what is shown and where items end.
ghost use Rattle.std.specs.Prelude.{◌≡◌, ◌∷◌, [], codes};
ghost use Rattle.c_lexer.specs.Words.{is_in};
ghost use Rattle.cpp_lines.specs.Signs.{markers, sign_of, sign_of_byte};

/// A kind of bracket.
#[derive(Clone, Copy, Debug, PartialEq, Eq)]
pub enum Bracket {
    /// `(` and `)`
    Paren,
    /// `[` and `]`
    Square,
    /// `{` and `}`
    Brace,
}

/// The role of a token in bracket groups and items.
#[derive(Clone, Copy, Debug, PartialEq, Eq)]
pub enum Sign {
    Opening(Bracket),
    Closing(Bracket),
    /// `;`
    Semicolon,
    /// `__attribute__`
    Attribute,
    /// A name that marks a declaration, such as `__init`
    Marker,
    Other,
}

/// Returns the sign of a token with this text.
pub fn sign_of(text: &[u8]) -> Sign
    ensures { result ≡ sign_of text.now }
{
    if text.is_empty() {
        return Sign::Other;
    }
    if text.len() == 1 {
        return sign_of_byte(text[0]);
    }
    if text == b"__attribute__".as_slice() {
        return Sign::Attribute;
    }
    if is_marker(text) {
        return Sign::Marker;
    }
    Sign::Other
}

fn sign_of_byte(b: u8) -> Sign
    ensures { result ≡ sign_of_byte b }
{
    if b == b'(' {
        Sign::Opening(Bracket::Paren)
    } else if b == b')' {
        Sign::Closing(Bracket::Paren)
    } else if b == b'[' {
        Sign::Opening(Bracket::Square)
    } else if b == b']' {
        Sign::Closing(Bracket::Square)
    } else if b == b'{' {
        Sign::Opening(Bracket::Brace)
    } else if b == b'}' {
        Sign::Closing(Bracket::Brace)
    } else if b == b';' {
        Sign::Semicolon
    } else {
        Sign::Other
    }
}

fn is_marker(text: &[u8]) -> bool
    ensures { result ≡ is_in markers text.now }
{
    if text.is_empty() {
        return false;
    }
    match text[0] {
        b'_' => is_section_marker(text) || is_check_marker(text) || is_inline_marker(text),
        b'a' => text == b"asmlinkage".as_slice(),
        b'n' => text == b"noinline".as_slice(),
        _ => false,
    }
}

fn is_section_marker(text: &[u8]) -> bool
    ensures { result ≡ is_in
        (codes "__init" ∷ codes "__exit" ∷ codes "__initdata" ∷ codes "__exitdata" ∷ codes "__user" ∷ codes "__iomem" ∷ codes "__kernel" ∷ codes "__force" ∷ codes "__percpu" ∷ codes "__rcu" ∷ []) text.now }
{
    text == b"__init".as_slice()
        || text == b"__exit".as_slice()
        || text == b"__initdata".as_slice()
        || text == b"__exitdata".as_slice()
        || text == b"__user".as_slice()
        || text == b"__iomem".as_slice()
        || text == b"__kernel".as_slice()
        || text == b"__force".as_slice()
        || text == b"__percpu".as_slice()
        || text == b"__rcu".as_slice()
}

fn is_check_marker(text: &[u8]) -> bool
    ensures { result ≡ is_in
        (codes "__must_check" ∷ codes "__maybe_unused" ∷ codes "__always_inline" ∷ codes "__read_mostly" ∷ codes "__packed" ∷ codes "__cold" ∷ codes "__weak" ∷ []) text.now }
{
    text == b"__must_check".as_slice()
        || text == b"__maybe_unused".as_slice()
        || text == b"__always_inline".as_slice()
        || text == b"__read_mostly".as_slice()
        || text == b"__packed".as_slice()
        || text == b"__cold".as_slice()
        || text == b"__weak".as_slice()
}

fn is_inline_marker(text: &[u8]) -> bool
    ensures { result ≡ is_in
        (codes "__inline" ∷ codes "__inline__" ∷ codes "__extension__" ∷ codes "__restrict" ∷ codes "__restrict__" ∷ []) text.now }
{
    text == b"__inline".as_slice()
        || text == b"__inline__".as_slice()
        || text == b"__extension__".as_slice()
        || text == b"__restrict".as_slice()
        || text == b"__restrict__".as_slice()
}
