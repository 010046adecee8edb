// What a run works on outside itself.

/// What a run works on outside itself: a shelf of files, an output and an error output.
#[derive(Drop)]
pub struct Outside<'s, 'o, 'e, S, O, E> {
    pub shelf: &'s mut S,
    pub out: &'o mut O,
    pub err: &'e mut E,
}
