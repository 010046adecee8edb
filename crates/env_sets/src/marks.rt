// Marks of entries and values, which quickly rule out that one entry covers another.
use crate::bounds::Bound;
use crate::entries::Entry;
use c_terms::Tree;
use smpl_terms::{Value, Var};

/// The properties of an entry that are compared before its bounds.
#[derive(Clone, Copy)]
pub struct Mark {
    /// One of 64 bits for each variable, by its name.
    vars: u64,
    /// The number of variables that have a value.
    fixed: usize,
    /// The number of excluded values.
    excluded: usize,
    /// One of 64 bits for each excluded value.
    bits: u64,
    /// The number of bounds.
    bounds: usize,
}

/// Returns the mark of an entry. Linear in the length of its variables' names, and takes no memory.
pub fn mark_of(e: &Entry) -> Mark {
    let mut mark = Mark {
        vars: 0,
        fixed: 0,
        excluded: 0,
        bits: 0,
        bounds: e.pairs().len(),
    };
    for p in e.pairs() {
        mark.vars |= bit_of(&p.0);
        match &p.1 {
            Bound::Is(_) => mark.fixed = mark.fixed.saturating_add(1),
            Bound::Not(values) => {
                mark.excluded = mark.excluded.saturating_add(values.count());
                mark.bits |= values.mark();
            }
        }
    }
    mark
}

fn bit_of(x: &Var) -> u64 {
    1u64 << (var_mark(x) % 64)
}

/// Returns a number that is equal for equal variables.
fn var_mark(x: &Var) -> u64 {
    let mut mark = u64::from(x.rule);
    for byte in x.name.as_bytes() {
        mark = mark.wrapping_mul(31).wrapping_add(u64::from(*byte));
    }
    mark
}

/// Returns the key of a variable fixed at a value: equal for the same variable and the same value.
pub fn fixed_key(x: &Var, v: &Value) -> u64 {
    mixed(mixed(5, var_mark(x)), value_mark(v))
}

/// Returns the key of a variable for which a value is excluded.
pub fn excluded_key(x: &Var, v: &Value) -> u64 {
    mixed(mixed(7, var_mark(x)), value_mark(v))
}

/// Returns the key of a variable for which some values are excluded.
pub fn open_key(x: &Var) -> u64 {
    mixed(11, var_mark(x))
}

/// Whether an entry with the first mark may cover another with the second. An entry that covers another bounds no other
/// variables, and fixes no more of them; if it fixes as many, it excludes no other values. If two entries agree in all of this
/// and one covers the other, they are the same, and neighbours in a sorted list.
pub fn may_cover(a: &Mark, b: &Mark) -> bool {
    if a.vars & b.vars != a.vars || a.fixed > b.fixed {
        return false;
    }
    if a.fixed < b.fixed {
        return true;
    }
    if a.bits & b.bits != a.bits {
        return false;
    }
    if a.excluded < b.excluded {
        return true;
    }
    a.excluded == b.excluded && a.bounds < b.bounds
}

/// Returns one of 64 bits for each value.
pub fn bits_of(items: &[Value]) -> u64 {
    let mut bits: u64 = 0;
    for v in items {
        bits |= 1u64 << (value_mark(v) % 64);
    }
    bits
}

/// Returns a number that is equal for values that are the same.
fn value_mark(v: &Value) -> u64 {
    match v {
        Value::Term(tree) => term_mark(tree.get(), 3),
        Value::Place(at) => mixed(1, *at),
    }
}

fn term_mark(tree: &Tree, mark: u64) -> u64 {
    match tree {
        Tree::Leaf(token) => text_mark(token.text.as_bytes(), mark),
        Tree::Branch(_, children) => {
            let mut mark = mixed(mark, 2);
            for child in children.as_slice() {
                mark = term_mark(child, mark);
            }
            mark
        }
    }
}

fn text_mark(bytes: &[u8], mark: u64) -> u64 {
    let mut mark = mark;
    for byte in bytes {
        mark = mixed(mark, u64::from(*byte));
    }
    mark
}

fn mixed(mark: u64, more: u64) -> u64 {
    (mark ^ more)
        .wrapping_mul(0x9e37_79b9_7f4a_7c15)
        .rotate_left(23)
}
