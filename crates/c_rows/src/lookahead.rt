// The class of the front of a list of tokens: what it is, given the tokens after it.
ghost use Rattle.std.specs.Prelude.{◌≡◌};
ghost use Rattle.c_rows.specs.Look as ahead;

use crate::Class;
use crate::brackets::{alignof, at_name, at_sign, at_string, bracket, sizeof};
use crate::branches::pattern;
use crate::names::name;
use crate::texts::{keyword_class, sign_class};
use crate::words::{is_named, is_sign};
use c_terms::{MetaKind, Names, Token, TokenKind};

/// Whether members follow the keyword of a tag.
fn has_members(rest: &[Token]) -> bool
    ensures { result ≡ ahead.has_members rest.now }
{
    match rest {
        [] => false,
        [token, after @ ..] => is_sign(token, b"{") || is_named(token) && at_sign(after, b"{"),
    }
}

/// The class of a storage word, given the class that follows it.
fn storage(next: Class) -> Class
    ensures { result ≡ ahead.storage next }
{
    match next {
        Class::StorageOfMacro | Class::NameOfCall | Class::NameOfIterator => Class::StorageOfMacro,
        _ => Class::Storage,
    }
}

/// The class of a keyword, given the tokens after it and their class.
fn keyword(names: &Names, text: &[u8], rest: &[Token], next: Class) -> Class
    ensures { result ≡ ahead.keyword names.now text.now rest.now next }
{
    match keyword_class(text) {
        Class::Storage => storage(next),
        Class::Struct if has_members(rest) => Class::StructBody,
        Class::Enum if has_members(rest) => Class::EnumBody,
        Class::SizeofExpr => sizeof(names, rest),
        Class::SizeofType => alignof(names, rest),
        class => class,
    }
}

/// The class of a string, given the tokens after it.
fn string(rest: &[Token]) -> Class
    ensures { result ≡ ahead.string rest.now }
{
    if at_string(rest) || at_name(rest) {
        Class::StrOfString
    } else {
        Class::Str
    }
}

/// The class of a metavariable for a type, given the tokens after it.
fn typ(rest: &[Token]) -> Class
    ensures { result ≡ ahead.typ rest.now }
{
    if at_sign(rest, b"*") || at_sign(rest, b"(") || at_sign(rest, b"[") {
        Class::TypOfDeclarator
    } else {
        Class::Typ
    }
}

/// The class of a `?`, given the tokens after it.
fn question(rest: &[Token]) -> Class
    ensures { result ≡ ahead.question rest.now }
{
    if at_sign(rest, b":") {
        Class::ShortQuestion
    } else {
        Class::Question
    }
}

/// The class of a punctuator, given the tokens after it.
fn sign(names: &Names, text: &[u8], rest: &[Token]) -> Class
    ensures { result ≡ ahead.sign names.now text.now rest.now }
{
    match sign_class(text) {
        Class::ParenNest => bracket(names, rest),
        Class::Question => question(rest),
        class => class,
    }
}

/// The class of a metavariable, given the tokens after it.
fn metavariable(names: &Names, kind: MetaKind, text: &[u8], rest: &[Token]) -> Class
    ensures { result ≡ ahead.metavariable names.now kind text.now rest.now }
{
    match kind {
        MetaKind::Expr => Class::Operand,
        MetaKind::Constant => Class::Operand,
        MetaKind::ExprList => Class::ExprList,
        MetaKind::Ident => name(names, text, rest),
        MetaKind::Typ => typ(rest),
        MetaKind::Params => Class::ParamList,
        MetaKind::Stmt => Class::Stmt,
    }
}

/// Returns the class of the list that begins with `token` and continues with `rest`, given the class `next` of `rest`
/// and whether the first branch of `rest` has a `;` outside groups (`semicolon`). Looks at up to three tokens after
/// `token`, four after `sizeof`; at the run of `*` after a name, with or without a bracket; and after a bracket that
/// begins a type or follows a name, at what it encloses and the token after that.
pub fn look(names: &Names, token: &Token, rest: &[Token], next: Class, semicolon: bool) -> Class
    requires { semicolon ≡ ahead.has_semicolon 0 rest.now }
    ensures value { result ≡ ahead.class_of names.now token.now.kind token.now.text rest.now next }
{
    let text = token.text.as_bytes();
    match token.kind {
        TokenKind::Name => name(names, text, rest),
        TokenKind::Keyword => keyword(names, text, rest, next),
        TokenKind::Number => Class::Operand,
        TokenKind::Char => Class::Operand,
        TokenKind::Str => string(rest),
        TokenKind::Punct => sign(names, text, rest),
        TokenKind::Stray => Class::Other,
        TokenKind::Meta(kind) => metavariable(names, kind, text, rest),
        TokenKind::Dots => Class::Dots,
        TokenKind::Pat => pattern(text, semicolon, next),
    }
}
