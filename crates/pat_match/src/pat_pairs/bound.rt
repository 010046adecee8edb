// The context of patterns under one environment.
use crate::context::PatternContext;
use smpl_terms::Env;

/// The context of a rule's patterns, and the environment under which they are matched.
#[derive(Clone, Copy)]
pub struct BoundContext<'p> {
    pub context: &'p PatternContext<'p>,
    pub env: &'p Env,
}
