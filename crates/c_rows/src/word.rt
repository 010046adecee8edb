// The words of rows: sets of classes, and single classes.

ghost use Rattle.std.specs.Prelude.{◌≡◌};
ghost use Rattle.c_rows.specs.Words as words;

use crate::Class;

/// A part of a row that is one token: of a set of classes, or of one class.
#[derive(Clone, Copy)]
pub enum Word {
    /// A name
    Name,
    /// A name that begins an iterator
    IteratorName,
    /// A string
    Str,
    /// `(` of an expression in brackets
    ParenOpen,
    /// `(` of a cast
    CastOpen,
    /// `(` of a compound literal
    LiteralOpen,
    /// `(` that begins a declarator in brackets
    NestOpen,
    /// `(` that begins the parameters of a function without a name
    ListOpen,
    /// `(` after a part that is complete
    AnyOpen,
    /// `&`, `*`, `+`, `-`, `~`, `!`
    Prefix,
    /// `*`, `/`, `%`
    Times,
    /// `=`, `*=` and the other assignments
    Assign,
    /// A storage word, a qualifier, `inline` or `_Noreturn`
    Modifier,
    /// A word of a basic type, or a modifier
    BasicOrModifier,
    /// `static` and the other storage words
    Storage,
    /// `...` of a pattern, a metavariable for a list of expressions
    ArgRun,
    /// `...` of a pattern, a metavariable for a list of parameters
    ParamRun,
    /// One class
    One(Class),
}

/// Whether the two classes are the same.
pub fn same_class(a: Class, b: Class) -> bool
    ensures value { result ≡ words.same_class a b }
{
    a as u8 == b as u8
}

/// Whether a token of this class is a token of the word.
pub fn fits(word: Word, class: Class) -> bool
    ensures value { result ≡ words.fits word class }
{
    match word {
        Word::Name => matches!(
            class,
            Class::Name
                | Class::NameOfString
                | Class::NameOfCall
                | Class::NameOfLabel
                | Class::NameOfDecl
                | Class::NameOfIterator
                | Class::NameOfStarIterator
        ),
        Word::IteratorName => matches!(class, Class::NameOfIterator | Class::NameOfStarIterator),
        Word::Str => matches!(class, Class::Str | Class::StrOfString),
        Word::ParenOpen => matches!(class, Class::ParenNest | Class::ParenList),
        Word::CastOpen => matches!(class, Class::CastNest | Class::CastList),
        Word::LiteralOpen => matches!(class, Class::LiteralNest | Class::LiteralList),
        Word::NestOpen => matches!(
            class,
            Class::ParenNest | Class::CastNest | Class::LiteralNest
        ),
        Word::ListOpen => matches!(
            class,
            Class::ParenList | Class::CastList | Class::LiteralList
        ),
        Word::AnyOpen => matches!(
            class,
            Class::ParenNest
                | Class::ParenList
                | Class::CastNest
                | Class::CastList
                | Class::LiteralNest
                | Class::LiteralList
        ),
        Word::Prefix => matches!(class, Class::And | Class::Star | Class::Plus | Class::Not),
        Word::Times => matches!(class, Class::Star | Class::Slash),
        Word::Assign => matches!(class, Class::Equal | Class::Assign),
        Word::Modifier => matches!(
            class,
            Class::Storage | Class::StorageOfMacro | Class::Qualifier | Class::Function
        ),
        Word::BasicOrModifier => matches!(
            class,
            Class::Basic
                | Class::Storage
                | Class::StorageOfMacro
                | Class::Qualifier
                | Class::Function
        ),
        Word::Storage => matches!(class, Class::Storage | Class::StorageOfMacro),
        Word::ArgRun => matches!(class, Class::Dots | Class::ExprList),
        Word::ParamRun => matches!(class, Class::Dots | Class::ParamList),
        Word::One(one) => same_class(one, class),
    }
}
