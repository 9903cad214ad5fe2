//! Copies of redactions.
ghost use Rattle.std.specs.Prelude.{◌≡◌, IfOk};
ghost use Rattle.std.specs.List.{list_any};
ghost use Rattle.snap_assert_settings.specs.Copies.{CloneEnd, calls, is_called, shown_of, shown_redactions};

use crate::redactions::Redactions;
use snap_content::OutOfMemory;
use snap_select::Redaction;
use std::alloc::Global;
use thiserror::Error;

/// Why settings were not copied.
#[derive(Clone, Copy, Debug, PartialEq, Eq, Error)]
pub enum CloneError {
    /// A redaction calls an object or a function, which can't be copied.
    #[error("HasDynamic")]
    HasDynamic,
    #[error("OutOfMemory")]
    OutOfMemory,
}

impl From<OutOfMemory> for CloneError {
    ghost use Rattle.std.specs.Prelude.{◌≡◌};
    ghost use Rattle.snap_assert_settings.specs.declared.copies.CloneError.TheVariants.{OutOfMemory as NoMemory};

    ghost from_gives = { λ _ e. e ≡ NoMemory };

    fn from(_error: OutOfMemory) -> CloneError {
        CloneError::OutOfMemory
    }
}

impl Redactions {
    ghost use Rattle.snap_assert_settings.specs.Redactions.{redactions_of};

    /// The same redactions, which are refused exactly where one calls an object or a function.
    pub(crate) fn try_clone(&self) -> Result<Redactions, CloneError>
        ensures equal { IfOk result (λ copy.
            shown_redactions (redactions_of copy) ≡ shown_redactions (redactions_of self.now)) }
        ensures end { CloneEnd (list_any calls (redactions_of self.now)) result }
    {
        let alloc = self.allocator();
        let mut copies = Redactions::new(alloc);
        for (selector, redaction) in self.as_slice() {
            let own = selector.try_clone(alloc)?;
            let copy = copied(alloc, redaction)?;
            copies.push(own, copy)?;
        }
        Ok(copies)
    }
}

/// A redaction that puts the same, where it calls nothing.
fn copied(alloc: Global, redaction: &Redaction) -> Result<Redaction, CloneError>
    ensures equal { IfOk result (λ copy. shown_of copy ≡ shown_of redaction.now) }
    ensures end { CloneEnd (is_called redaction.now) result }
{
    match redaction {
        Redaction::Static(content) => Ok(Redaction::Static(content.try_clone(alloc)?)),
        Redaction::Sorted => Ok(Redaction::Sorted),
        Redaction::Dynamic(_) | Redaction::Function(_) => Err(CloneError::HasDynamic),
    }
}
