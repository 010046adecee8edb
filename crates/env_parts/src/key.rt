// Environments as keys of a search tree.
ghost use Rattle.std.specs.Prelude.{Some, refl};
ghost use Rattle.std.specs.Cmp.{partial_order_from_agreeing_total, partial_equiv_from_equiv};
ghost use Rattle.std.specs.Ordering.{is_eq};
ghost use Rattle.std.proofs.lemmas.Cmp.{eq_by_cmp_equiv, on_total};
ghost use Rattle.env_parts.specs.Parts as spec;
ghost use Rattle.env_parts.specs.Ordered.{env_order_total};

use crate::order::env_order;
use smpl_terms::Env;
use std::cmp::Ordering;

/// An environment, compared as [`env_order`] does.
#[derive(Drop)]
pub struct Key {
    pub env: Env,
}

impl PartialEq for Key {
    ghost eq = { λ a b. is_eq (spec.env_order a.env b.env) };

    ghost laws = { partial_equiv_from_equiv (eq_by_cmp_equiv (on_total (λ k. k.env) env_order_total)) };

    fn eq(&self, other: &Key) -> bool {
        env_order(&self.env, &other.env).is_eq()
    }
}

impl Eq for Key {
    ghost laws = { eq_by_cmp_equiv (on_total (λ k. k.env) env_order_total) };
}

impl PartialOrd for Key {
    ghost partial_cmp = { λ a b. Some (spec.env_order a.env b.env) };

    ghost laws = { partial_order_from_agreeing_total (λ a b. spec.env_order a.env b.env) (on_total (λ k. k.env) env_order_total) (λ a b. refl) (λ a b. refl) };

    fn partial_cmp(&self, other: &Key) -> Option<Ordering> {
        Some(self.cmp(other))
    }
}

impl Ord for Key {
    ghost cmp = { λ a b. spec.env_order a.env b.env };

    ghost total = { on_total (λ k. k.env) env_order_total };

    ghost matches_partial_cmp = { λ a b. refl };

    ghost matches_eq = { λ a b. refl };

    fn cmp(&self, other: &Key) -> Ordering {
        env_order(&self.env, &other.env)
    }
}
