//! Why a command did nothing.
use crate::reply::Reply;

/// Why a command did nothing.
#[derive(Clone, Copy, Debug, PartialEq, Eq)]
pub(crate) enum Refusal {
    NotFront,
    BadHeader,
    NotMap,
    Absent,
    NoParent,
    Root,
    NoName,
}

impl Refusal {
    ghost use Rattle.std.specs.Prelude.{◌≡◌};
    ghost use Rattle.snap_front.specs.Commands.{refusal_of, reply_of};

    /// The reply that says so.
    pub(crate) fn reply(self) -> Reply
        ensures { reply_of result ≡ refusal_of self }
    {
        match self {
            Refusal::NotFront => Reply::NotFront,
            Refusal::BadHeader => Reply::BadHeader,
            Refusal::NotMap => Reply::NotMap,
            Refusal::Absent => Reply::Absent,
            Refusal::NoParent => Reply::NoParent,
            Refusal::Root => Reply::Root,
            Refusal::NoName => Reply::NoName,
        }
    }
}
