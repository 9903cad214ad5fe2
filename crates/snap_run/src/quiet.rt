//! A sink that keeps nothing.
use snap_io::{Fault, Sink};

/// Takes all and tells nothing; it never fails.
#[derive(Clone, Copy, Debug)]
pub(crate) struct Quiet;

impl Sink for Quiet {
    ghost use Rattle.std.specs.Prelude.{None};

    ghost written = { λ _. None };

    ghost faults = { λ _. 0 };

    fn write(&mut self, bytes: &[u8]) -> Result<usize, Fault> {
        Ok(bytes.len())
    }
}
