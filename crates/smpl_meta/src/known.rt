// Kinds of variables.
ghost use Rattle.std.specs.Prelude.{◌≡◌};
ghost use Rattle.smpl_meta.specs.Known as known;

use smpl_patch::VarKind;

/// Returns the kind's place in the order of kinds.
pub fn kind_number(kind: VarKind) -> u8
    ensures { result ≡ known.kind_number kind }
{
    match kind {
        VarKind::Meta(meta) => meta.number(),
        VarKind::Position => 7,
    }
}
