// One reading of a text.
ghost use Rattle.std.specs.Prelude.{◌≤◌, ◌^◌};

use c_file::CFile;

/// One reading of a text, while rules run over it.
#[derive(Clone, Copy)]
pub struct Reading<'f> {
    pub file: &'f CFile,
    /// An id such that neither it nor a larger one has been used in the file.
    pub next: u64,
    pub ghost fresh: { next ≤ 2 ^ 62 },
}
