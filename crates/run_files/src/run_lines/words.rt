// The lines about words that are no command, and the texts about the program.
ghost use Rattle.std.specs.Prelude.{◌≡◌, ◌++◌, IfOk, OnOk};
ghost use Rattle.outer_io.specs.EscapedNames.Escapes.{escaped_name};
ghost use Rattle.run_words.specs.OptionNames.{option_text};
ghost use Rattle.run_files.specs.RunLines.Words as spec;

use c_terms::NoMemory;
use outer_io::escaped_name;
use run_words::{Need, OptionName, Saying, WordFault};
use std::alloc::Global;
use wit_print::TextBuffer;

const USAGE: &str =
    "spatch: usage: spatch --sp-file P [--iso-file I] [--define a,b] [--jobs n] [--witnesses] [--tidy] [--in-place] FILE...\n";

const VERSION: &str = "spatch (Rollgorge) 0.1.0\n";

const HELP: &str = concat!(
    "usage: spatch --sp-file P [OPTION]... FILE...\n",
    "       spatch --generate S --functions K [--sp-file P [--jobs n]]\n",
    "\n",
    "Applies the semantic patch P to C files. Without an option the edited text of\n",
    "each FILE is printed, and no file is changed.\n",
    "\n",
    "  --sp-file P       the patch (needed)\n",
    "  --in-place        store each file that changes; its text isn't printed\n",
    "  --tidy            edit as for a commit: emptied lines go, and braces come\n",
    "                    where they are needed\n",
    "  --witnesses       print what each rule finds, in place of the text\n",
    "  --check           print the names of files in which something is found;\n",
    "                    status 8 if there is one\n",
    "  --quiet           leave out the lines that say more, which begin with two\n",
    "                    blanks\n",
    "  --unread V        which items that can't be read are told of: all, as if not\n",
    "                    given; needed, those that have all words of a rule that\n",
    "                    ran; or none. With the last two, files in which each rule\n",
    "                    lacks a word may be passed over\n",
    "  --iso-file I      isomorphisms; examples/standard.iso has the usual ones\n",
    "  --define a,b      the virtual names that hold\n",
    "  --jobs n          match n items at a time, 1 to 64; the answer is the same\n",
    "  --generate S      in place of files, a text made from the seed S\n",
    "  --functions K     of K functions, 1 to 100000\n",
    "  --help, --version\n",
    "\n",
    "Options and FILEs come in any order. A value is the next word, or stands\n",
    "after =. All words after -- are FILEs.\n",
    "\n",
    "Status: 0 all done; 1 wrong words; 2 the patch is refused; 3 the isomorphisms\n",
    "are; 4 some file is; 5 something can't be read; 6 or written; 7 no memory;\n",
    "8 something is found, under --check.\n",
    "Lines on standard error: docs/REFUSALS.md. Patches: docs/LANGUAGE.md.\n",
);

/// Returns the usage line.
fn usage() -> &'static str
    ensures bytes { result.now ≡ spec.usage }
{
    USAGE
}

/// Returns a text about the program: how to call it, or its name and version.
pub fn said(saying: Saying) -> &'static str
    ensures bytes { result.now ≡ spec.said saying }
{
    match saying {
        Saying::Help => HELP,
        Saying::Version => VERSION,
    }
}

fn need_text(need: Need) -> &'static [u8]
    ensures { result.now ≡ spec.need_text need }
{
    match need {
        Need::Patch => b"--sp-file P",
        Need::File => b"a FILE",
        Need::Functions => b"--functions K",
    }
}

/// Appends the option that was meant, if one was.
fn put_meant(line: &mut TextBuffer, meant: Option<OptionName>) -> Result<(), NoMemory>
    ensures { OnOk result (line.new ≡ line.old ++ spec.meant_text meant) }
{
    match meant {
        None => Ok(()),
        Some(option) => {
            line.put(b"; is it ")?;
            line.put(option.text().as_bytes())?;
            line.put(b"?")
        }
    }
}

/// Appends a word as it is shown, and a text.
fn put_word(alloc: Global, line: &mut TextBuffer, word: &[u8], text: &[u8]) -> Result<(), NoMemory>
    ensures { OnOk result (line.new ≡ line.old ++ (escaped_name word.now ++ text.now)) }
{
    line.put(&escaped_name(alloc, word)?)?;
    line.put(text)
}

/// Appends that two things don't go together.
fn put_apart(line: &mut TextBuffer, one: OptionName, other: &[u8]) -> Result<(), NoMemory>
    ensures { OnOk result (line.new ≡ line.old ++ (option_text one ++ spec.apart_text other.now)) }
{
    line.put(one.text().as_bytes())?;
    line.put(b" and ")?;
    line.put(other)?;
    line.put(b" don't go together")
}

/// Appends what is wrong with words.
fn put_word_fault(alloc: Global, line: &mut TextBuffer, fault: &WordFault) -> Result<(), NoMemory>
    ensures { OnOk result (line.new ≡ line.old ++ spec.word_fault_text fault.now) }
{
    match fault {
        WordFault::NotText(place) => {
            line.put_numbered(b"word ", *place as u64)?;
            line.put(b" isn't UTF-8")
        }
        WordFault::NoSuchOption(word, meant) => {
            put_word(alloc, line, word.as_bytes(), b": no such option")?;
            put_meant(line, *meant)
        }
        WordFault::ValueAbsent(word) => {
            put_word(alloc, line, word.as_bytes(), b": its value is absent")
        }
        WordFault::TakesNone(word) => put_word(alloc, line, word.as_bytes(), b": takes no value"),
        WordFault::StandsTwice(word) => put_word(alloc, line, word.as_bytes(), b": stands twice"),
        WordFault::BadValue(option, value) => {
            line.put(option.text().as_bytes())?;
            line.put(b": ")?;
            put_word(alloc, line, value.as_bytes(), b" is no value for it")
        }
        WordFault::Needed(need) => {
            line.put(need_text(*need))?;
            line.put(b" is needed")
        }
        WordFault::Apart(one, other) => put_apart(line, *one, other.text().as_bytes()),
        WordFault::ApartFromFiles(one) => put_apart(line, *one, b"a FILE"),
    }
}

/// Appends the line that says what is wrong with words.
fn put_word_line(alloc: Global, line: &mut TextBuffer, fault: &WordFault) -> Result<(), NoMemory>
    ensures { OnOk result (line.new ≡ line.old ++ spec.word_fault_line fault.now) }
{
    line.put(b"  spatch: ")?;
    put_word_fault(alloc, line, fault)?;
    line.put(b" (--help says more)\n")
}

/// Returns the usage line and, if something is known to be wrong with the words, the line `  spatch: WHAT (--help says more)`.
///
/// Linear in what the fault names. Fails only when out of memory. The format is the project's own.
pub fn refused_words(alloc: Global, fault: Option<WordFault>) -> Result<Vec<u8>, NoMemory>
    ensures bytes { IfOk result (λ line. line.items ≡ spec.refused_words fault) }
{
    let mut line = TextBuffer::new(alloc);
    line.put(usage().as_bytes())?;
    match fault {
        None => Ok(line.finish()),
        Some(fault) => {
            put_word_line(alloc, &mut line, &fault)?;
            Ok(line.finish())
        }
    }
}
