// Names in declarations: `x` and `r.x`.
ghost use Rattle.std.specs.Prelude.{◌≡◌, IfOk};
ghost use Rattle.smpl_meta.specs.Forms as spec;

use crate::item::Named;
use c_terms::{NoMemory, TokenKind};
use smpl_lexer::{PatchToken, is_name, is_sign};
use std::alloc::Global;

/// Whether the token is a keyword.
pub fn is_keyword(t: &PatchToken) -> bool
    ensures { result ≡ spec.is_keyword t.now }
{
    matches!(t.token.kind, TokenKind::Keyword)
}

/// Whether the token is the keyword with this text.
pub fn is_keyword_of(t: &PatchToken, text: &[u8]) -> bool
    ensures { result ≡ spec.is_keyword_of text.now t.now }
{
    is_keyword(t) && t.token.text.as_bytes() == text
}

/// Whether the token has the form of a name, even if it is a keyword.
pub fn is_wordish(t: &PatchToken) -> bool
    ensures { result ≡ spec.is_wordish t.now }
{
    is_name(t) || is_keyword(t)
}

/// Reads `x`.
pub fn plain_of(alloc: Global, x: &PatchToken) -> Result<Option<Named>, NoMemory>
    ensures { IfOk result (λ o. o ≡ spec.plain_of x.now) }
{
    if !is_wordish(x) {
        return Ok(None);
    }
    Ok(Some(Named {
        from: None,
        name: x.copy(alloc)?,
    }))
}

/// Reads `r.x`.
pub fn member_of(
    alloc: Global,
    r: &PatchToken,
    dot: &PatchToken,
    x: &PatchToken,
) -> Result<Option<Named>, NoMemory>
    ensures { IfOk result (λ o. o ≡ spec.member_of r.now dot.now x.now) }
{
    if !(is_wordish(r) && is_sign(dot, b".") && is_wordish(x)) {
        return Ok(None);
    }
    Ok(Some(Named {
        from: Some(r.copy(alloc)?),
        name: x.copy(alloc)?,
    }))
}

/// Reads `x` or `r.x`.
pub fn named_of(alloc: Global, tokens: &[PatchToken]) -> Result<Option<Named>, NoMemory>
    ensures { IfOk result (λ o. o ≡ spec.named_of tokens.now) }
{
    match tokens {
        [x] => plain_of(alloc, x),
        [r, dot, x] => member_of(alloc, r, dot, x),
        _ => Ok(None),
    }
}
