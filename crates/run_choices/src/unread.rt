// Which of the items that can't be read are told of.

/// Which of the items that can't be read are told of.
#[derive(Clone, Copy, Debug, PartialEq, Eq)]
pub enum Unread {
    /// `all`: each of them.
    All,
    /// `needed`: those in which a place may be missed, since they have all words that some rule needs.
    Needed,
    /// `none`: none of them.
    None,
}
