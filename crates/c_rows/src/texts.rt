// Keywords and signs: the class that each has by itself.
ghost use Rattle.std.specs.Prelude.{◌≡◌};
ghost use Rattle.c_rows.specs.Texts as texts;

use crate::Class;
use crate::words::is;

/// The class of a keyword of statements.
fn statement_keyword(text: &[u8]) -> Class
    ensures { result ≡ texts.class_in texts.statement_keywords text.now }
{
    if is(text, b"if") {
        Class::If
    } else if is(text, b"else") {
        Class::Else
    } else if is(text, b"while") {
        Class::While
    } else if is(text, b"do") {
        Class::Do
    } else if is(text, b"for") {
        Class::For
    } else if is(text, b"switch") {
        Class::Switch
    } else if is(text, b"case") {
        Class::Case
    } else if is(text, b"default") {
        Class::Default
    } else if is(text, b"return") {
        Class::Return
    } else if is(text, b"goto") {
        Class::Goto
    } else if is(text, b"break") {
        Class::Break
    } else if is(text, b"continue") {
        Class::Continue
    } else {
        Class::Other
    }
}

/// The class of a keyword of types that is not a basic type.
fn type_keyword(text: &[u8]) -> Class
    ensures { result ≡ texts.class_in texts.type_keywords text.now }
{
    if is(text, b"const") {
        Class::Qualifier
    } else if is(text, b"volatile") {
        Class::Qualifier
    } else if is(text, b"restrict") {
        Class::Qualifier
    } else if is(text, b"static") {
        Class::Storage
    } else if is(text, b"extern") {
        Class::Storage
    } else if is(text, b"typedef") {
        Class::Storage
    } else if is(text, b"register") {
        Class::Storage
    } else if is(text, b"auto") {
        Class::Storage
    } else if is(text, b"_Thread_local") {
        Class::Storage
    } else if is(text, b"inline") {
        Class::Function
    } else if is(text, b"_Noreturn") {
        Class::Function
    } else if is(text, b"struct") {
        Class::Struct
    } else if is(text, b"union") {
        Class::Struct
    } else if is(text, b"enum") {
        Class::Enum
    } else if is(text, b"sizeof") {
        Class::SizeofExpr
    } else if is(text, b"_Alignof") {
        Class::SizeofType
    } else {
        statement_keyword(text)
    }
}

/// Returns the class of a keyword, if nothing that follows changes it.
pub fn keyword_class(text: &[u8]) -> Class
    ensures value { result ≡ texts.class_in texts.keywords text.now }
{
    if is(text, b"int") {
        Class::Basic
    } else if is(text, b"void") {
        Class::Basic
    } else if is(text, b"char") {
        Class::Basic
    } else if is(text, b"unsigned") {
        Class::Basic
    } else if is(text, b"long") {
        Class::Basic
    } else if is(text, b"short") {
        Class::Basic
    } else if is(text, b"signed") {
        Class::Basic
    } else if is(text, b"float") {
        Class::Basic
    } else if is(text, b"double") {
        Class::Basic
    } else if is(text, b"_Bool") {
        Class::Basic
    } else if is(text, b"_Complex") {
        Class::Basic
    } else {
        type_keyword(text)
    }
}

/// Returns the class of a punctuator, if nothing that follows changes it.
pub fn sign_class(text: &[u8]) -> Class
    ensures value { result ≡ texts.class_in texts.signs text.now }
{
    match text {
        b"(" => Class::ParenNest,
        b")" => Class::Close,
        b"," => Class::Comma,
        b";" => Class::Semicolon,
        b"->" => Class::Arrow,
        b"." => Class::Dot,
        b"=" => Class::Equal,
        b"[" => Class::LeftBracket,
        b"]" => Class::RightBracket,
        b"{" => Class::LeftBrace,
        b"}" => Class::RightBrace,
        b"*" => Class::Star,
        b"&" => Class::And,
        b"+" => Class::Plus,
        b"-" => Class::Plus,
        b"!" => Class::Not,
        b"~" => Class::Not,
        b"?" => Class::Question,
        b":" => Class::Colon,
        b"..." => Class::Ellipsis,
        b"++" => Class::Step,
        b"--" => Class::Step,
        b"==" => Class::Equality,
        b"!=" => Class::Equality,
        b"<" => Class::Order,
        b">" => Class::Order,
        b"<=" => Class::Order,
        b">=" => Class::Order,
        b"&&" => Class::AndAnd,
        b"||" => Class::OrOr,
        b"|" => Class::Or,
        b"^" => Class::Xor,
        b"/" => Class::Slash,
        b"%" => Class::Slash,
        b"<<" => Class::Shift,
        b">>" => Class::Shift,
        b"*=" => Class::Assign,
        b"/=" => Class::Assign,
        b"%=" => Class::Assign,
        b"+=" => Class::Assign,
        b"-=" => Class::Assign,
        b"<<=" => Class::Assign,
        b">>=" => Class::Assign,
        b"&=" => Class::Assign,
        b"^=" => Class::Assign,
        b"|=" => Class::Assign,
        _ => Class::Other,
    }
}

/// Returns the class of a sign of patterns before expressions.
pub fn pattern_class(text: &[u8]) -> Class
    ensures value { result ≡ texts.class_in texts.pattern_signs text.now }
{
    match text {
        b"\\(" => Class::PatOpen,
        b"\\|" => Class::PatBar,
        b"\\&" => Class::PatAmp,
        b"\\)" => Class::PatClose,
        b"<..." => Class::PatNestOfExpression,
        b"<+..." => Class::PatNestOfExpression,
        b"...>" => Class::PatNestClose,
        b"...+>" => Class::PatNestClose,
        _ => Class::Other,
    }
}
