// The kinds of trees, and which of them include which.

ghost use Rattle.std.specs.Prelude.{◌≡◌};
ghost use Rattle.c_rows.specs.Kinds as kinds;
ghost use Rattle.c_rows.specs.Choice as choice;

use crate::{Class, Word, fits};

/// The kinds of trees that a part of a row may have. A kind of expressions also includes the expressions of all tighter
/// kinds.
#[derive(Clone, Copy)]
pub enum Kind {
    /// `a`, `f(x)`, `a[i]`, `(T){ 1 }`
    Post,
    /// `++a`, `-a`, `sizeof a`
    Un,
    /// `(T)a`
    CastLevel,
    /// `a * b`
    Product,
    /// `a + b`
    Sum,
    /// `a << b`
    Shift,
    /// `a < b`
    Order,
    /// `a == b`
    Equality,
    /// `a & b`
    And,
    /// `a ^ b`
    Xor,
    /// `a | b`
    Or,
    /// `a && b`
    AndAnd,
    /// `a || b`
    OrOr,
    /// `a ? b : c`
    CondLevel,
    /// `a = b`
    AssignLevel,
    /// `a, b`
    Expr,

    /// What is between the brackets of a call
    Args,
    /// A type as a member of such a list
    TypeArg,
    /// `int *`
    TypeName,
    /// `static const int`
    Specs,
    /// `struct s`, `enum e { A }`
    Tag,
    /// `int x, y : 3;`
    Field,
    /// `MACRO(x);`
    MacroItem,
    /// `: 3`, bits without a name
    NamelessBits,

    /// `d`, `(d)`, `d[3]`, `d(int x)`
    Direct,
    /// `*d`
    Declarator,
    /// `d : 3`
    FieldDeclarator,
    /// `d = 1`
    InitDeclarator,
    /// What is between the brackets of a function's declarator
    Params,
    /// `int x`
    Param,

    /// `{ 1, 2 }`
    InitList,
    /// `.x = 1`
    InitItem,
    /// `.x`, `[2]`
    Designator,
    /// `A`
    EnumName,
    /// `A = 1`
    Enumerator,

    /// `int x = 1;`
    Decl,
    /// `<... f(); ...>`. As a part of a row, it begins with one of its signs
    PatNest,
    /// `{ f(); }`. As a part of a row, it begins with `{`
    Block,
    /// `f();`, `if (c) f();`, `{ f(); }`: what the body of a statement may be
    Body,
    /// `out:`, `case 1:`, and what a body may be
    Statement,
    /// `f(); g();`
    StmtList,
    /// `int f(void) { }`, `int x;`
    External,
}

/// A group of kinds in which wider kinds include tighter ones.
#[derive(Clone, Copy)]
pub enum Family {
    /// Expressions, from Post to Expr
    Expression,
    /// [`Kind::Args`]
    Args,
    /// [`Kind::TypeArg`]
    TypeArg,
    /// [`Kind::TypeName`]
    TypeName,
    /// [`Kind::Specs`]
    Specs,
    /// [`Kind::Tag`]
    Tag,
    /// [`Kind::Field`]
    Field,
    /// [`Kind::MacroItem`]
    MacroItem,
    /// [`Kind::NamelessBits`]
    NamelessBits,
    /// Declarators, from Direct to FieldDeclarator and InitDeclarator
    Declarator,
    /// [`Kind::Params`]
    Params,
    /// [`Kind::Param`]
    Param,
    /// [`Kind::InitList`]
    InitList,
    /// [`Kind::InitItem`]
    InitItem,
    /// [`Kind::Designator`]
    Designator,
    /// Enumerators, from EnumName to Enumerator
    Enumerator,
    /// [`Kind::Decl`]
    Decl,
    /// Statements other than declarations, from PatNest to Statement
    Statement,
    /// [`Kind::StmtList`]
    StmtList,
    /// [`Kind::External`]
    External,
}

/// Returns the family of the kind.
pub fn family_of(kind: Kind) -> Family
    ensures value { result ≡ kinds.family_of kind }
{
    match kind {
        Kind::Args => Family::Args,
        Kind::TypeArg => Family::TypeArg,
        Kind::TypeName => Family::TypeName,
        Kind::Specs => Family::Specs,
        Kind::Tag => Family::Tag,
        Kind::Field => Family::Field,
        Kind::MacroItem => Family::MacroItem,
        Kind::NamelessBits => Family::NamelessBits,
        Kind::Direct | Kind::Declarator | Kind::FieldDeclarator | Kind::InitDeclarator =>
            Family::Declarator,
        Kind::Params => Family::Params,
        Kind::Param => Family::Param,
        Kind::InitList => Family::InitList,
        Kind::InitItem => Family::InitItem,
        Kind::Designator => Family::Designator,
        Kind::EnumName | Kind::Enumerator => Family::Enumerator,
        Kind::Decl => Family::Decl,
        Kind::PatNest | Kind::Block | Kind::Body | Kind::Statement => Family::Statement,
        Kind::StmtList => Family::StmtList,
        Kind::External => Family::External,
        _ => Family::Expression,
    }
}

/// Returns the place of a kind in its family, tightest first.
pub fn rank(kind: Kind) -> u8
    ensures value { result ≡ kinds.rank kind }
{
    match kind {
        Kind::Post => 0,
        Kind::Un => 1,
        Kind::CastLevel => 2,
        Kind::Product => 3,
        Kind::Sum => 4,
        Kind::Shift => 5,
        Kind::Order => 6,
        Kind::Equality => 7,
        Kind::And => 8,
        Kind::Xor => 9,
        Kind::Or => 10,
        Kind::AndAnd => 11,
        Kind::OrOr => 12,
        Kind::CondLevel => 13,
        Kind::AssignLevel => 14,
        Kind::Expr => 15,
        Kind::Direct => 0,
        Kind::Declarator => 1,
        Kind::FieldDeclarator => 2,
        Kind::InitDeclarator => 3,
        Kind::EnumName => 0,
        Kind::Enumerator => 1,
        Kind::PatNest => 0,
        Kind::Block => 1,
        Kind::Body => 2,
        Kind::Statement => 3,
        _ => 0,
    }
}

/// Returns 1 for bits and 0 for any other kind: bits and declarators with an initialiser don't include each other.
pub fn side(kind: Kind) -> u8
    ensures value { result ≡ kinds.side kind }
{
    match kind {
        Kind::FieldDeclarator => 1,
        _ => 0,
    }
}

/// Whether the two families are the same.
pub fn same_family(a: Family, b: Family) -> bool
    ensures value { result ≡ kinds.same_family a b }
{
    match a {
        Family::Expression => matches!(b, Family::Expression),
        Family::Args => matches!(b, Family::Args),
        Family::TypeArg => matches!(b, Family::TypeArg),
        Family::TypeName => matches!(b, Family::TypeName),
        Family::Specs => matches!(b, Family::Specs),
        Family::Tag => matches!(b, Family::Tag),
        Family::Field => matches!(b, Family::Field),
        Family::MacroItem => matches!(b, Family::MacroItem),
        Family::NamelessBits => matches!(b, Family::NamelessBits),
        Family::Declarator => matches!(b, Family::Declarator),
        Family::Params => matches!(b, Family::Params),
        Family::Param => matches!(b, Family::Param),
        Family::InitList => matches!(b, Family::InitList),
        Family::InitItem => matches!(b, Family::InitItem),
        Family::Designator => matches!(b, Family::Designator),
        Family::Enumerator => matches!(b, Family::Enumerator),
        Family::Decl => matches!(b, Family::Decl),
        Family::Statement => matches!(b, Family::Statement),
        Family::StmtList => matches!(b, Family::StmtList),
        Family::External => matches!(b, Family::External),
    }
}

/// Whether every tree of `kind` is also one of `limit`.
pub fn within(kind: Kind, limit: Kind) -> bool
    ensures value { result ≡ kinds.within kind limit }
{
    same_family(family_of(kind), family_of(limit))
        && rank(kind) <= rank(limit)
        && side(kind) <= side(limit)
}

/// Whether a token of this class is by itself a tree of the family's tightest kind.
pub fn has_leaf(family: Family, class: Class) -> bool
    ensures value { result ≡ kinds.has_leaf family class }
{
    match family {
        Family::Expression => matches!(
            class,
            Class::Name
                | Class::NameOfCall
                | Class::NameOfLabel
                | Class::NameOfDecl
                | Class::NameOfIterator
                | Class::NameOfStarIterator
                | Class::Operand
                | Class::Str
        ),
        Family::TypeName => matches!(class, Class::Typ),
        Family::Specs => matches!(class, Class::Typ | Class::TypOfDeclarator),
        Family::Declarator | Family::Enumerator => fits(Word::Name, class),
        Family::Statement => matches!(class, Class::Dots | Class::Stmt),
        _ => false,
    }
}

/// Returns the tightest kind of a family, to which its leaves belong.
pub fn bottom(family: Family) -> Kind
    ensures value { result ≡ choice.bottom family }
{
    match family {
        Family::Expression => Kind::Post,
        Family::Args => Kind::Args,
        Family::TypeArg => Kind::TypeArg,
        Family::TypeName => Kind::TypeName,
        Family::Specs => Kind::Specs,
        Family::Tag => Kind::Tag,
        Family::Field => Kind::Field,
        Family::MacroItem => Kind::MacroItem,
        Family::NamelessBits => Kind::NamelessBits,
        Family::Declarator => Kind::Direct,
        Family::Params => Kind::Params,
        Family::Param => Kind::Param,
        Family::InitList => Kind::InitList,
        Family::InitItem => Kind::InitItem,
        Family::Designator => Kind::Designator,
        Family::Enumerator => Kind::EnumName,
        Family::Decl => Kind::Decl,
        Family::Statement => Kind::PatNest,
        Family::StmtList => Kind::StmtList,
        Family::External => Kind::External,
    }
}
