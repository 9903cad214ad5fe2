//! Why the reading of a selector stops.
use crate::fault::SelectFault;
use snap_content::OutOfMemory;
use std::alloc::AllocFailed;

/// A fault, with the text from there on, or out of memory.
#[derive(Debug, Drop)]
pub enum Stop<'a> {
    Fault(SelectFault, &'a str),
    OutOfMemory,
}

impl From<OutOfMemory> for Stop<'_> {
    ghost use Rattle.std.specs.Prelude.{◌≡◌};
    ghost use Rattle.snap_select.specs.declared.stop.Stop.TheVariants.{OutOfMemory};

    ghost from_gives = { λ _ e. e ≡ OutOfMemory };

    fn from(_error: OutOfMemory) -> Self {
        Stop::OutOfMemory
    }
}

impl<T: Drop> From<AllocFailed<T>> for Stop<'_> {
    ghost use Rattle.std.specs.Prelude.{◌≡◌};
    ghost use Rattle.snap_select.specs.declared.stop.Stop.TheVariants.{OutOfMemory};

    ghost from_gives = { λ _ e. e ≡ OutOfMemory };

    fn from(_error: AllocFailed<T>) -> Self {
        Stop::OutOfMemory
    }
}
