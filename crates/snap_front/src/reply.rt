//! What is replied to commands.
use snap_content::{Content, List, Text};

/// What is replied to a command. All but `Done`, `Tree` and `Printed` say why nothing was done; then nothing has changed.
#[derive(Debug, Drop)]
pub enum Reply {
    /// It is done.
    Done,
    /// A text was put that has no header: it doesn't begin with a fence, or no second one follows.
    NotFront,
    /// A header was put that reads as no tree.
    BadHeader,
    /// A header was put that is no map, or another value was to be set in the place of a whole header.
    NotMap,
    /// What stands at the end of the path, or what was removed there.
    Tree(Content),
    /// Nothing stands at the end of the path.
    Absent,
    /// A step of the path leads to nothing, and it is not the last one, or its place is past the next one of a list.
    NoParent,
    /// The whole header was to be removed.
    Root,
    /// No document has that name.
    NoName,
    /// The text of the document.
    Printed(Text),
}

/// The replies to commands, in their order.
pub type Replies = List<Reply>;
