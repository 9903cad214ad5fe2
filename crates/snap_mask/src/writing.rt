//! The record of a line, written.
ghost use Rattle.std.specs.Prelude.{◌≡◌, ◌++◌, ◌∷◌, [], List, ℕ, Some, IfOk, IfErr};
ghost use Rattle.snap_io.specs.Causes.{Counted};
ghost use Rattle.snap_assert_settings.specs.Replaced.{ReplacementView};
ghost use Rattle.snap_mask.specs.Records.{IsRecordOf, RefusesFor};
ghost use Rattle.snap_mask.specs.Rules.{AreRules};
ghost use Rattle.snap_mask.specs.Written.{RecordEnds, RefusesRecord, is_write_fault};

use crate::record::{RecordError, record_of};
use snap_assert_settings::redactions::Redactions;
use snap_content::Text;
use snap_io::{Fault, Sink};
use snap_io_streams::streams::write_all;
use std::alloc::Global;

/// Why a record was not written.
#[derive(Clone, Copy, Debug, PartialEq, Eq)]
pub enum RecordStop {
    BadLine,
    FloatLine,
    JsonKey,
    WriteFault,
    OutOfMemory,
}

impl From<RecordError> for RecordStop {
    ghost use Rattle.std.specs.Prelude.{◌≡◌};
    ghost use Rattle.snap_mask.specs.Written.{stop_for};

    ghost from_gives = { λ error e. e ≡ stop_for error };

    fn from(error: RecordError) -> Self {
        match error {
            RecordError::BadLine => RecordStop::BadLine,
            RecordError::FloatLine => RecordStop::FloatLine,
            RecordError::JsonKey => RecordStop::JsonKey,
            RecordError::OutOfMemory => RecordStop::OutOfMemory,
        }
    }
}

impl From<Fault> for RecordStop {
    ghost use Rattle.std.specs.Prelude.{◌≡◌};
    ghost use Rattle.snap_mask.specs.declared.writing.RecordStop.TheVariants.{WriteFault};

    ghost from_gives = { λ _ e. e ≡ WriteFault };

    fn from(_: Fault) -> Self {
        RecordStop::WriteFault
    }
}

/// The record of a line with a line's end.
fn ended_record(alloc: Global, rules: &Redactions, line: &[u8]) -> Result<Text, RecordError>
    ensures given { (views : List ReplacementView) → AreRules rules.now views
        → IfOk result (λ made. (given : List ℕ) × IsRecordOf views line.now given
        × (made ≡ given ++ 10 ∷ [])) }
    ensures why { (views : List ReplacementView) → AreRules rules.now views
        → IfErr result (λ error. RefusesFor views error line.now) }
{
    let mut record = record_of(alloc, rules, line)?;
    record.push(alloc, '\n')?;
    Ok(record)
}

/// Writes the record of a line that isn't empty.
pub fn write_record<K: Sink>(
    alloc: Global,
    rules: &Redactions,
    sink: &mut K,
    line: &[u8],
) -> Result<(), RecordStop>
    ensures written { (views : List ReplacementView) (w : List ℕ) → AreRules rules.now views
        → K.written sink.old ≡ Some w
        → RecordEnds views line.now w (K.written sink.new) result }
    ensures refused { (views : List ReplacementView) → AreRules rules.now views
        → IfErr result (λ stop. RefusesRecord views stop line.now) }
    ensures cause { Counted is_write_fault (K.faults sink.old) (K.faults sink.new) result }
{
    if line.is_empty() {
        return Ok(());
    }
    let record = ended_record(alloc, rules, line)?;
    write_all(sink, record.as_str().as_bytes())?;
    Ok(())
}
