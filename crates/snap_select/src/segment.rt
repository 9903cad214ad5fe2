//! One step of a selector.
use snap_content::Lent;

/// One step of a selector, from a tree to a part of it.
#[derive(Debug, Drop, PartialEq, Eq)]
pub enum Segment<'a> {
    /// Any number of steps, but one at least.
    DeepWildcard,
    /// Any step.
    Wildcard,
    /// The value under a text key, or the field of that name.
    Key(Lent<'a>),
    /// The item of a list at that position, or the value under a key that is that number.
    Index(u64),
    /// The items of a list from one position up to another; a position below zero counts from the end.
    Range(Option<i64>, Option<i64>),
}
