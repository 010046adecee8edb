// What is needed to read patterns.
use crate::Decls;
use smpl_patch::PatToken;

/// What is needed to read patterns: a rule's declarations and its tokens.
#[derive(Clone, Copy)]
pub struct Reader<'a> {
    pub decls: &'a Decls,
    pub tokens: &'a [PatToken],
}
