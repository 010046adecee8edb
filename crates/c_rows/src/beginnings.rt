// The classes with which trees may begin, and those before which some trees end.
ghost use Rattle.std.specs.Prelude.{◌≡◌};
ghost use Rattle.c_rows.specs.Choice as choice;
ghost use Rattle.c_rows.specs.Words as words;

use crate::{Class, Family, Word, begins_declaration, begins_dots, begins_macro, fits, same_class};

/// Whether an expression may begin with this class.
pub fn begins_expression(class: Class) -> bool
    ensures value { result ≡ choice.begins_expression class }
{
    match class {
        Class::Name
        | Class::NameOfString
        | Class::NameOfCall
        | Class::NameOfLabel
        | Class::NameOfDecl
        | Class::NameOfIterator
        | Class::NameOfStarIterator
        | Class::Operand
        | Class::Str
        | Class::StrOfString => true,
        Class::SizeofExpr | Class::SizeofType | Class::PatOpen => true,
        _ => fits(Word::AnyOpen, class)
            || same_class(Class::Step, class)
            || fits(Word::Prefix, class),
    }
}

/// Whether a tag may begin with this class.
pub fn begins_tag(class: Class) -> bool
    ensures value { result ≡ words.begins_tag class }
{
    matches!(
        class,
        Class::Struct | Class::StructBody | Class::Enum | Class::EnumBody
    )
}

/// Whether a type may begin with this class.
pub fn begins_specs(class: Class) -> bool
    ensures value { result ≡ words.begins_specs class }
{
    match class {
        Class::Typ | Class::TypOfDeclarator => true,
        _ => fits(Word::BasicOrModifier, class) || fits(Word::Name, class) || begins_tag(class),
    }
}

/// Whether this is the class of a keyword with which a statement begins.
pub fn begins_by_keyword(class: Class) -> bool
    ensures value { result ≡ words.begins_by_keyword class }
{
    matches!(
        class,
        Class::If
            | Class::While
            | Class::Do
            | Class::For
            | Class::Switch
            | Class::Case
            | Class::Default
            | Class::Return
            | Class::Goto
            | Class::Break
            | Class::Continue
    )
}

/// Whether a statement other than a declaration may begin with this class.
fn begins_statement(class: Class) -> bool
    ensures { result ≡ choice.begins_statement class }
{
    match class {
        Class::Semicolon | Class::LeftBrace | Class::Stmt | Class::PatOpenOfStatements => true,
        _ => begins_by_keyword(class) || begins_dots(class) || begins_expression(class),
    }
}

/// Whether a declarator may begin with this class.
pub fn begins_declarator(class: Class) -> bool
    ensures value { result ≡ choice.begins_declarator class }
{
    match class {
        Class::Star | Class::LeftBracket => true,
        _ => fits(Word::Name, class) || fits(Word::AnyOpen, class),
    }
}

/// Whether a tree of the family may begin with this class. If such a tree may have no tokens, this includes the classes
/// that may follow it.
pub fn first(family: Family, class: Class) -> bool
    ensures value { result ≡ choice.first family class }
{
    match family {
        Family::Expression => begins_expression(class),
        Family::Args => {
            begins_expression(class)
                || begins_specs(class)
                || fits(Word::ArgRun, class)
                || same_class(Class::Close, class)
        }
        Family::TypeArg | Family::TypeName | Family::Specs | Family::Param => begins_specs(class),
        Family::Tag => begins_tag(class),
        Family::Field => begins_specs(class) && !begins_macro(class),
        Family::MacroItem => begins_macro(class),
        Family::NamelessBits => same_class(Class::Colon, class),
        Family::Declarator => begins_declarator(class),
        Family::Params => {
            begins_specs(class)
                || fits(Word::ParamRun, class)
                || same_class(Class::Ellipsis, class)
                || same_class(Class::Close, class)
        }
        Family::InitList => same_class(Class::LeftBrace, class),
        Family::InitItem | Family::Designator => matches!(class, Class::Dot | Class::LeftBracket),
        Family::Enumerator => fits(Word::Name, class),
        Family::Decl => begins_specs(class),
        Family::Statement => begins_statement(class),
        Family::StmtList => {
            begins_statement(class) || begins_declaration(class) || ends_list(class)
        }
        Family::External => {
            begins_specs(class) || begins_macro(class) || same_class(Class::Semicolon, class)
        }
    }
}

/// Whether a member of an argument list ends before this class.
pub fn ends_member(class: Class) -> bool
    ensures value { result ≡ words.ends_member class }
{
    matches!(class, Class::Comma | Class::Close)
}

/// Whether a list of statements ends before this class.
pub fn ends_list(class: Class) -> bool
    ensures value { result ≡ choice.ends_list class }
{
    matches!(
        class,
        Class::End | Class::PatBar | Class::PatAmp | Class::PatClose
    )
}
