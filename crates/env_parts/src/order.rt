// The order of environments.
ghost use Rattle.std.specs.Prelude.{◌≡◌, min, drop, length};
ghost use Rattle.std.specs.Cmp.{IsTotalOrder};
ghost use Rattle.std.specs.Ordering.{is_eq};
ghost use Rattle.env_parts.specs.Parts as spec;

use smpl_terms::{Env, Value, Var, value_order, var_order};
use std::cmp::Ordering;

fn pair_order(a: &(Var, Value), b: &(Var, Value)) -> Ordering
    ensures { result ≡ spec.pair_order a.now b.now }
{
    match var_order(&a.0, &b.0) {
        Ordering::Equal => value_order(&a.1, &b.1),
        unequal => unequal,
    }
}

fn pairs_order(a: &[(Var, Value)], b: &[(Var, Value)]) -> Ordering
    ensures { result ≡ spec.env_order a.now b.now }
{
    let shorter = a.len().min(b.len());
    for i in 0..shorter {
        let order = pair_order(&a[i], &b[i]);
        if order.is_ne() {
            return order;
        }
    }
    a.len().cmp(&b.len())
}

/// Compares two environments pair by pair, by variable and then by value, ids aside; a proper prefix is first. Stops at the
/// first difference, and takes no memory.
pub fn env_order(a: &Env, b: &Env) -> Ordering
    ensures value { result ≡ spec.env_order a.now b.now }
{
    pairs_order(a.pairs(), b.pairs())
}

/// The order of environments is total, and two compare as equal exactly if they are the same.
pub fn environments_are_ordered()
    ensures total { IsTotalOrder spec.env_order }
    ensures equal { (a b : spec.Pairs) → is_eq (spec.env_order a b) ≡ spec.same_env a b }
{}
