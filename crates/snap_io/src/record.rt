//! A list of calls that only clauses read. It takes no memory, and its methods do nothing at run time.
ghost use Rattle.std.specs.Prelude.{◌≡◌, [], ◌∷◌};
ghost use Rattle.std.specs.Borrow.{ftrue};
ghost use Rattle.snap_io.specs.Calls.{History};

use crate::call::{Answer, Asked};
use std::marker::Model;

/// The calls so far, the last one first. What it says is worth what its writer is: `Disk` alone writes one.
#[derive(Drop)]
pub struct Record {
    pub ghost calls: { History },
}

impl Model for Record {
    ghost also_owns = { λ _. ftrue };
}

impl Record {
    pub(crate) fn new() -> Record
        ensures { result.calls ≡ [] }
    {
        Record {}
    }

    /// The record with one call more. A rename has the new path in place of bytes.
    pub(crate) fn with(
        _before: &Record,
        _asked: &Asked,
        _answer: &Answer,
        _path: &str,
        _bytes: &[u8],
    ) -> Record
        ensures { result.calls
            ≡ (_asked.now, _answer.now, _path.now, _bytes.now) ∷ _before.now.calls }
    {
        Record {}
    }
}
