// Helpers of the tests: tokens from words, names, and trees as text.
use c_expr::ParseFault;
use c_terms::{MetaKind, Names, NoMemory, Text, Token, TokenKind, Tree};
use std::alloc::Global;

fn token(alloc: Global, kind: TokenKind, text: &[u8], id: u64) -> Result<Token, NoMemory> {
    let text = Text::from_bytes(alloc, text)?;
    Ok(Token { kind, text, id })
}

/// Returns the kind of token that a word before `:` names.
fn named_kind(word: &str) -> Option<TokenKind> {
    match word {
        "expr" => Some(TokenKind::Meta(MetaKind::Expr)),
        "list" => Some(TokenKind::Meta(MetaKind::ExprList)),
        "ident" => Some(TokenKind::Meta(MetaKind::Ident)),
        "const" => Some(TokenKind::Meta(MetaKind::Constant)),
        "type" => Some(TokenKind::Meta(MetaKind::Typ)),
        "stmt" => Some(TokenKind::Meta(MetaKind::Stmt)),
        "params" => Some(TokenKind::Meta(MetaKind::Params)),
        "dots" => Some(TokenKind::Dots),
        _ => None,
    }
}

const KEYWORDS: [&str; 24] = [
    "int", "void", "unsigned", "long", "struct", "enum", "const", "static", "sizeof", "_Alignof",
    "if", "else", "while", "do", "for", "switch", "case", "default", "return", "goto", "break",
    "continue", "asm", "typedef",
];

fn kind_of(word: &str) -> TokenKind {
    for keyword in KEYWORDS {
        if word == keyword {
            return TokenKind::Keyword;
        }
    }
    match word.as_bytes() {
        [b'"', ..] => TokenKind::Str,
        [b'\'', ..] => TokenKind::Char,
        [b'\\', ..] => TokenKind::Pat,
        [b'<', b'.', ..] => TokenKind::Pat,
        [b'.', .., b'>'] => TokenKind::Pat,
        [first, ..] if first.is_ascii_alphabetic() => TokenKind::Name,
        [first, ..] if first.is_ascii_digit() => TokenKind::Number,
        _ => TokenKind::Punct,
    }
}

/// Appends the word's token to the others. Its id is its index.
fn put(alloc: Global, tokens: &mut Vec<Token>, word: &str) -> Result<(), NoMemory> {
    let mut text = word;
    let mut kind = kind_of(word);
    if let Some((before, after)) = word.split_once(":") {
        if let Some(named) = named_kind(before) {
            kind = named;
            text = after;
        }
    }
    let id = tokens.len() as u64;
    tokens.push(token(alloc, kind, text.as_bytes(), id)?)?;
    Ok(())
}

/// Returns the tokens of words that are separated by blanks. `dots:...` and `expr:e` are tokens of a pattern.
pub fn tokens_of(alloc: Global, words: &str) -> Result<Vec<Token>, NoMemory> {
    let mut tokens = Vec::new(alloc);
    for word in words.split(' ') {
        put(alloc, &mut tokens, word)?;
    }
    Ok(tokens)
}

/// Returns the listed names and `t`.
pub fn names_with_t(alloc: Global) -> Result<Names, NoMemory> {
    let mut names = Names::listed(alloc)?;
    names.add(alloc, Text::from_bytes(alloc, b"t")?)?;
    Ok(names)
}

/// Appends the tree as text: a branch is its label and its children in brackets, a leaf its text. Appends each leaf's id to
/// the ids.
fn put_tree(
    alloc: Global,
    out: &mut String,
    ids: &mut Vec<u64>,
    tree: &Tree,
) -> Result<(), NoMemory> {
    match tree {
        Tree::Leaf(token) => {
            ids.push(token.id)?;
            for byte in token.text.as_bytes() {
                out.push(*byte as char)?;
            }
            Ok(())
        }
        Tree::Branch(label, children) => {
            let name = format!(in alloc; "({label:?}")?;
            out.push_str(name.as_str())?;
            for child in children.as_slice() {
                out.push_str(" ")?;
                put_tree(alloc, out, ids, child)?;
            }
            out.push_str(")")?;
            Ok(())
        }
    }
}

/// Returns an answer as text, the tree or the fault. The text says so if the leaves' ids aren't those of this many tokens,
/// in order.
pub fn shown(
    alloc: Global,
    answer: Result<Tree, ParseFault>,
    count: usize,
) -> Result<String, NoMemory> {
    let mut out = String::new(alloc);
    let mut ids = Vec::new(alloc);
    match answer {
        Ok(tree) => {
            put_tree(alloc, &mut out, &mut ids, &tree)?;
            if ids.len() != count || !(0..count).all(|i| ids.get(i) == Some(&(i as u64))) {
                out.push_str(" with other ids")?;
            }
        }
        Err(ParseFault::NoTree) => out.push_str("no tree")?,
        Err(ParseFault::TooDeep) => out.push_str("too deep")?,
        Err(ParseFault::NoMemory) => return Err(NoMemory),
    }
    Ok(out)
}
