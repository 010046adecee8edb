// Guards: what a branch requires of its parts together, and where the tokens that follow let a branch or a way begin.
ghost use Rattle.std.specs.Prelude.{◌≡◌};
ghost use Rattle.c_terms.specs.declared.tree.Tree.{out-Tree};
ghost use Rattle.c_rows.specs.Labels.{labelled};
ghost use Rattle.c_rows.specs.Branches as branches;
ghost use Rattle.c_rows.specs.declared.kind.Kind.TheVariants as kinds;

use crate::{
    Class, Fork, Kind, Rule, Symbol, Word, begins_tag, declares_function, fits, is_block,
    is_plain_type, same_class,
};
use c_terms::{Label, Tree};

/// Whether the tree is an expression with a comma or an assignment outside brackets.
fn is_loose(tree: &Tree) -> bool
    ensures { result ≡ labelled branches.is_loose_label (out-Tree tree.now) }
{
    match tree {
        Tree::Leaf(_) => false,
        Tree::Branch(label, _) => matches!(label, Label::Comma | Label::Assign),
    }
}

/// Whether the first expression is of Cond level, if the branch is a CaseRange.
fn is_case(children: &[Tree]) -> bool
    ensures { result ≡ branches.is_case children.now }
{
    match children {
        [_, _, _] => true,
        [_, first, ..] => !is_loose(first),
        _ => true,
    }
}

/// Whether the declarator declares a function, if the branch is a FunDef.
fn is_external(children: &[Tree]) -> bool
    ensures { result ≡ branches.is_external children.now }
{
    match children {
        [_, declarator, last] => !is_block(last) || declares_function(declarator),
        _ => true,
    }
}

/// Whether the rule's row allows these parts together.
pub fn allows(rule: Rule, children: &[Tree]) -> bool
    ensures value { result ≡ branches.allows rule children.now }
{
    match rule {
        Rule::TypeName => is_plain_type(children),
        Rule::Case => is_case(children),
        Rule::External => is_external(children),
        _ => true,
    }
}

/// Whether a macro's item begins with this class.
pub fn begins_macro(class: Class) -> bool
    ensures value { result ≡ branches.begins_macro class }
{
    matches!(
        class,
        Class::StorageOfMacro | Class::NameOfCall | Class::NameOfIterator
    )
}

/// Whether a declaration begins with this class, at the start of a statement and after the `(` of a `for`.
pub fn begins_declaration(class: Class) -> bool
    ensures value { result ≡ branches.begins_declaration class }
{
    match class {
        Class::NameOfDecl | Class::Typ | Class::TypOfDeclarator => true,
        _ => fits(Word::BasicOrModifier, class) || begins_tag(class),
    }
}

/// Whether `...` or a PatNest begins with this class.
pub fn begins_dots(class: Class) -> bool
    ensures value { result ≡ branches.begins_dots class }
{
    matches!(
        class,
        Class::Dots | Class::PatNestOfExpression | Class::PatNestOfStatements
    )
}

/// Whether an expression may begin with this class at the start of a statement: what begins a label, an iterator or a
/// declaration there begins no expression.
fn begins_expr_stat(class: Class) -> bool
    ensures { result ≡ branches.begins_expr_stat class }
{
    !begins_declaration(class)
        && !matches!(
            class,
            Class::NameOfLabel | Class::NameOfIterator | Class::NameOfStarIterator
        )
}

/// Whether a branch of the rule may begin at this class.
pub fn begins(rule: Rule, class: Class) -> bool
    ensures value { result ≡ branches.begins rule class }
{
    match rule {
        Rule::Strings => matches!(class, Class::StrOfString | Class::NameOfString),
        Rule::TypeName => !matches!(class, Class::Typ),
        Rule::Field => !begins_macro(class),
        Rule::MacroItem => begins_macro(class),
        Rule::ExprStat => begins_expr_stat(class),
        Rule::External => !begins_macro(class),
        Rule::ExternalMacro => begins_macro(class),
        _ => true,
    }
}

/// Whether the row may end at the fork before this class.
fn may_end(fork: Fork, class: Class) -> bool
    ensures { result ≡ branches.may_end fork class }
{
    match fork {
        Fork::ElseOrNot => !same_class(Class::Else, class),
        _ => true,
    }
}

/// Whether the row may continue at the fork with an expression at this class.
fn may_be_expression(fork: Fork, class: Class) -> bool
    ensures { result ≡ branches.may_stand fork kinds.Expr class }
{
    match fork {
        Fork::ForInit => !begins_declaration(class),
        _ => true,
    }
}

/// Whether the row may continue at the fork with a part of this kind at this class.
fn may_stand(fork: Fork, kind: Kind, class: Class) -> bool
    ensures { result ≡ branches.may_stand fork kind class }
{
    match kind {
        Kind::Expr => may_be_expression(fork, class),
        Kind::Decl => begins_declaration(class),
        Kind::PatNest => begins_dots(class) && !same_class(Class::Dots, class),
        Kind::Block => same_class(Class::LeftBrace, class),
        Kind::Statement => !begins_declaration(class) && !begins_dots(class),
        _ => true,
    }
}

/// Whether the row may continue at the fork in this way at this class.
pub fn may_go(fork: Fork, way: &[Symbol], class: Class) -> bool
    ensures value { result ≡ branches.may_go fork way.now class }
{
    match way {
        [] => may_end(fork, class),
        [Symbol::Child(kind), ..] => may_stand(fork, *kind, class),
        [_, ..] => true,
    }
}
