//! The finding of a line, written.
ghost use Rattle.std.specs.Prelude.{◌≡◌, List, ℕ, Some, IfOk, string_bytes};
ghost use Rattle.snap_io.specs.Causes.{Counted};
ghost use Rattle.snap_assert_settings.specs.Replaced.{ReplacementView};
ghost use Rattle.snap_mask.specs.Rules.{AreRules};
ghost use Rattle.snap_explain.specs.Words.{finding_text};
ghost use Rattle.snap_explain.specs.Findings.{LineEnds, Writes, is_write_fault};

use crate::cause::fault_in;
use crate::fault::LineFault;
use snap_assert_settings::redactions::Redactions;
use snap_content::OutOfMemory;
use snap_io::{Fault, Sink};
use snap_io_streams::streams::write_all;
use std::alloc::Global;

/// Why a finding was not written.
#[derive(Clone, Copy, Debug, PartialEq, Eq)]
pub enum SayError {
    WriteFault,
    OutOfMemory,
}

impl From<OutOfMemory> for SayError {
    ghost use Rattle.std.specs.Prelude.{◌≡◌};
    ghost use Rattle.snap_explain.specs.declared.saying.SayError.TheVariants.{OutOfMemory};

    ghost from_gives = { λ _ e. e ≡ OutOfMemory };

    fn from(_: OutOfMemory) -> Self {
        SayError::OutOfMemory
    }
}

impl From<Fault> for SayError {
    ghost use Rattle.std.specs.Prelude.{◌≡◌};
    ghost use Rattle.snap_explain.specs.declared.saying.SayError.TheVariants.{WriteFault};

    ghost from_gives = { λ _ e. e ≡ WriteFault };

    fn from(_: Fault) -> Self {
        SayError::WriteFault
    }
}

/// What is said of a line with this number, as a line.
fn finding(alloc: Global, number: u64, fault: &LineFault) -> Result<String, OutOfMemory>
    ensures { IfOk result (λ text. string_bytes text ≡ finding_text number fault.now) }
{
    Ok(format!(in alloc; "line {number}{fault}\n")?)
}

/// Writes what is said of a line with this number.
pub(crate) fn say<K: Sink>(
    alloc: Global,
    number: u64,
    fault: &LineFault,
    sink: &mut K,
) -> Result<(), SayError>
    ensures said { (w : List ℕ) → K.written sink.old ≡ Some w
        → Writes (finding_text number fault.now) w (K.written sink.new) result }
    ensures cause { Counted is_write_fault (K.faults sink.old) (K.faults sink.new) result }
{
    let text = finding(alloc, number, fault)?;
    write_all(sink, text.as_bytes())?;
    Ok(())
}

/// Says why a line has no record, where the filter's own reader refuses it. Whether it was said.
pub(crate) fn say_line<K: Sink>(
    alloc: Global,
    rules: &Redactions,
    number: u64,
    sink: &mut K,
    line: &[u8],
) -> Result<bool, SayError>
    ensures said { (views : List ReplacementView) (w : List ℕ) → AreRules rules.now views
        → K.written sink.old ≡ Some w
        → LineEnds views number line.now w (K.written sink.new) result }
    ensures cause { Counted is_write_fault (K.faults sink.old) (K.faults sink.new) result }
{
    if line.is_empty() {
        return Ok(false);
    }
    match fault_in(alloc, rules, line)? {
        None => Ok(false),
        Some(fault) => {
            say(alloc, number, &fault, sink)?;
            Ok(true)
        }
    }
}
