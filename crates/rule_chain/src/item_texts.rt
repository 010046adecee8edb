// The texts of an item's tokens, to look words up in.
ghost use Rattle.std.specs.Prelude.{◌≡◌, ◌||◌, [], ℕ, List, IfOk, OnOk};
ghost use Rattle.c_terms.specs.Names.{has_name, with_name};
ghost use Rattle.rule_chain.specs.RuleRun.Needed as needed;

use c_file::CFile;
use c_lexer::Lexed;
use c_terms::NoMemory;
use cpp_lines::ItemSpan;
use indexmap::IndexSet;
use std::alloc::Global;
use std::marker::Model;

/// Texts, each once. One look-up finds a text.
#[derive(Drop)]
pub struct TextSet {
    set: IndexSet<Vec<u8>>,
}

impl Model for TextSet {
    ghost use Rattle.std.specs.Prelude.{List, ℕ, map};

    ghost Value = { List (List ℕ) };

    ghost view = { λ texts. map (λ text. text.items) texts.set.keys };
}

impl TextSet {
    fn new(alloc: Global) -> TextSet
        ensures { result ≡ [] }
    {
        TextSet {
            set: IndexSet::new(alloc),
        }
    }

    /// Whether the text is there. Takes one look-up, and no memory.
    pub fn has(&self, text: &[u8]) -> bool
        ensures { result ≡ has_name self.now text.now }
    {
        self.set.contains(text)
    }

    /// Adds a new text. A known one changes nothing. Linear in the text.
    fn add(&mut self, alloc: Global, text: &[u8]) -> Result<(), NoMemory>
        ensures { OnOk result (self.new ≡ with_name self.old text.now) }
    {
        if self.has(text) {
            return Ok(());
        }
        let key = Vec::from_slice(alloc, text)?;
        self.set.insert(key)?;
        Ok(())
    }
}

/// Adds the text of the piece with this number, if there is one.
fn add_piece(
    alloc: Global,
    lexed: &Lexed,
    texts: &mut TextSet,
    number: usize,
) -> Result<(), NoMemory>
    ensures { OnOk result ((w : List ℕ) → has_name texts.new w
        ≡ (has_name texts.old w || needed.is_word_at lexed.now w number)) }
{
    if number >= lexed.count() {
        return Ok(());
    }
    let piece = lexed.piece(number);
    let text = &lexed.bytes()[piece.start as usize..piece.end as usize];
    texts.add(alloc, text)?;
    Ok(())
}

/// Returns the texts of an item's visible tokens. Linear in the item if no hashes of texts collide.
pub fn item_texts(alloc: Global, file: &CFile, span: ItemSpan) -> Result<TextSet, NoMemory>
    ensures { IfOk result (λ texts. (w : List ℕ) → has_name texts w ≡ needed.holds_word file.now span w) }
{
    let mut texts = TextSet::new(alloc);
    let shown = file.shown();
    let end = (span.last as usize).min(shown.len());
    for place in span.first as usize..end {
        add_piece(alloc, file.lexed(), &mut texts, shown[place] as usize)?;
    }
    Ok(texts)
}
