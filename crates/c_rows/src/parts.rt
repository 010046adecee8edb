// The facts of trees, computed from those of their parts.
ghost use Rattle.std.specs.Prelude.{◌≡◌, map};
ghost use Rattle.std.specs.List.{list_all};
ghost use Rattle.c_rows.specs.Branches.{any_of, first_of, declares_at, function_at};
ghost use Rattle.c_rows.specs.Facts.{leaf_facts, branch_facts, allows_type, allows_case, allows_external, allows_facts};

use crate::words::{is_named, is_storage};
use crate::{Facts, Rule, label_of};
use c_terms::{Label, Token, Tree};

/// Returns the facts of a token by itself. Allocates no memory.
pub fn leaf_facts(token: &Token) -> Facts
    ensures value { result ≡ leaf_facts token.now }
{
    Facts {
        plain: !is_storage(token),
        plain_parts: true,
        names: is_named(token),
        functions: false,
        loose: false,
        block: false,
    }
}

/// Whether each part may be one of the type words of a type name.
fn all_plain(parts: &[Facts]) -> bool
    ensures { result ≡ list_all (λ f. f.plain) parts.now }
{
    parts.iter().all(|part| part.plain)
}

fn any_names(parts: &[Facts]) -> bool
    ensures { result ≡ any_of (map (λ f. f.names) parts.now) }
{
    for part in parts {
        if part.names {
            return true;
        }
    }
    false
}

fn any_functions(parts: &[Facts]) -> bool
    ensures { result ≡ any_of (map (λ f. f.functions) parts.now) }
{
    for part in parts {
        if part.functions {
            return true;
        }
    }
    false
}

/// Whether a declarator with this label and these parts has a name at its core.
fn names_at(label: Label, parts: &[Facts]) -> bool
    ensures { result ≡ declares_at label (map (λ f. f.names) parts.now) }
{
    match label {
        Label::Pointer | Label::DParen => any_names(parts),
        Label::DArray | Label::DFun => match parts {
            [inner, ..] => inner.names,
            [] => false,
        },
        _ => false,
    }
}

/// Whether a declarator with this label and these parts has a DFun on the path to its name.
fn functions_at(label: Label, parts: &[Facts]) -> bool
    ensures { result ≡ function_at label (map (λ f. f.functions) parts.now) }
{
    match label {
        Label::DFun => true,
        Label::Pointer | Label::DParen => any_functions(parts),
        Label::DArray => match parts {
            [inner, ..] => inner.functions,
            [] => false,
        },
        _ => false,
    }
}

/// Returns the facts of a branch of the rule whose parts have these facts. Allocates no memory.
pub fn branch_facts(rule: Rule, parts: &[Facts]) -> Facts
    ensures value { result ≡ branch_facts rule parts.now }
{
    let none: &[Tree] = &[];
    let label = label_of(rule, none);
    Facts {
        plain: !matches!(label, Label::StructDef | Label::EnumDef),
        plain_parts: all_plain(parts),
        names: names_at(label, parts),
        functions: functions_at(label, parts),
        loose: matches!(label, Label::Comma | Label::Assign),
        block: matches!(label, Label::Block),
    }
}

fn allows_type(parts: &[Facts]) -> bool
    ensures { result ≡ allows_type parts.now }
{
    match parts {
        [specs] => specs.plain_parts,
        [specs, declarator] => specs.plain_parts && !declarator.names,
        _ => false,
    }
}

fn allows_case(parts: &[Facts]) -> bool
    ensures { result ≡ allows_case parts.now }
{
    match parts {
        [_, _, _] => true,
        [_, first, ..] => !first.loose,
        _ => true,
    }
}

fn allows_external(parts: &[Facts]) -> bool
    ensures { result ≡ allows_external parts.now }
{
    match parts {
        [_, declarator, last] => !last.block || declarator.functions,
        _ => true,
    }
}

/// Whether the rule's row allows parts with these facts together: what [`allows`](crate::allows) answers for parts that
/// have them.
pub fn allows_facts(rule: Rule, parts: &[Facts]) -> bool
    ensures value { result ≡ allows_facts rule parts.now }
{
    match rule {
        Rule::TypeName => allows_type(parts),
        Rule::Case => allows_case(parts),
        Rule::External => allows_external(parts),
        _ => true,
    }
}
