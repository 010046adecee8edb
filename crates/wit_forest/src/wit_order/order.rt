// The order of trees of witnesses.
ghost use Rattle.std.specs.Prelude.{◌≡◌};
ghost use Rattle.std.specs.Cmp.Lexicographic.{slice_cmp};
ghost use Rattle.std.specs.Ordering.{nat_cmp, ordering_then};
ghost use Rattle.smpl_terms.specs.Values.{value_order};
ghost use Rattle.wit_forest.specs.WitOrder.Order as spec;

use c_terms::TreePath;
use smpl_patch::{VarDecl, Witness};
use smpl_terms::{Value, Var, same_var, value_order, var_order};
use std::cmp::Ordering;

/// Returns how many declarations come before that of the variable.
fn rank(decls: &[VarDecl], x: &Var) -> usize
    ensures { result ≡ spec.rank decls.now x.now }
{
    for (i, d) in decls.iter().enumerate() {
        if same_var(&d.var, x) {
            return i;
        }
    }
    decls.len()
}

/// Compares two variables in the order of their declarations. Variables that are not declared come after those that are, in
/// the order of variables. Linear in the declarations.
pub fn declared_order(decls: &[VarDecl], x: &Var, y: &Var) -> Ordering
    ensures value { result ≡ spec.declared_order decls.now x.now y.now }
{
    match rank(decls, x).cmp(&rank(decls, y)) {
        Ordering::Equal => var_order(x, y),
        unequal => unequal,
    }
}

fn order_of_paths(p: &TreePath, q: &TreePath) -> Ordering
    ensures { result ≡ slice_cmp nat_cmp p.now q.now }
{
    p.steps().cmp(q.steps())
}

/// Compares two touches by atom, then by place.
fn order_of_touches(a: u32, p: &TreePath, b: u32, q: &TreePath) -> Ordering
    ensures { result ≡ ordering_then (nat_cmp a b) (slice_cmp nat_cmp p.now q.now) }
{
    match a.cmp(&b) {
        Ordering::Equal => order_of_paths(p, q),
        unequal => unequal,
    }
}

/// Compares two binds by variable, then by value.
fn order_of_values(decls: &[VarDecl], x: &Var, v: &Value, y: &Var, u: &Value) -> Ordering
    ensures { result ≡ ordering_then (spec.declared_order decls.now x.now y.now) (value_order v.now u.now) }
{
    match declared_order(decls, x, y) {
        Ordering::Equal => value_order(v, u),
        unequal => unequal,
    }
}

/// Compares two trees by node, with a touch before a bind; touches by atom, then by place; binds by variable, then by value,
/// then by the trees under them. Stops at the first difference, takes no memory, and recurses once per level.
#[cycle(order)]
pub fn witness_order(decls: &[VarDecl], a: &Witness, b: &Witness) -> Ordering
    ensures value { result ≡ spec.witness_order decls.now a.now b.now }
{
    match a {
        Witness::Touch(n, i, p) => match b {
            Witness::Touch(m, j, q) => match n.cmp(m) {
                Ordering::Equal => order_of_touches(*i, p, *j, q),
                unequal => unequal,
            },
            Witness::Bind(m, _, _, _) => match n.cmp(m) {
                Ordering::Equal => Ordering::Less,
                unequal => unequal,
            },
        },
        Witness::Bind(n, x, v, fs) => match b {
            Witness::Touch(m, _, _) => match n.cmp(m) {
                Ordering::Equal => Ordering::Greater,
                unequal => unequal,
            },
            Witness::Bind(m, y, u, us) => match n.cmp(m) {
                Ordering::Equal => match order_of_values(decls, x, v, y, u) {
                    Ordering::Equal => order_of_forests(decls, fs.as_slice(), us.as_slice()),
                    unequal => unequal,
                },
                unequal => unequal,
            },
        },
    }
}

#[cycle(order)]
fn order_of_forests(decls: &[VarDecl], xs: &[Witness], ys: &[Witness]) -> Ordering
    ensures { result ≡ slice_cmp (spec.witness_order decls.now) xs.now ys.now }
{
    let common = xs.len().min(ys.len());
    for i in 0..common {
        match witness_order(decls, &xs[i], &ys[i]) {
            Ordering::Equal => {}
            unequal => return unequal,
        }
    }
    xs.len().cmp(&ys.len())
}
