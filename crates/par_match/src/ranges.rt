// How jobs are divided among ranges.
ghost use Rattle.std.specs.Prelude.{◌<◌};

/// How many jobs there are, and how many of them are in a range. The last range may have fewer.
#[derive(Clone, Copy)]
pub(crate) struct Ranges {
    pub(crate) n: usize,
    pub(crate) size: usize,
    pub(crate) ghost some: { 0 < size },
}
