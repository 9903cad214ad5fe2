//! A whole input, line by line.
ghost use Rattle.std.specs.Prelude.{◌≡◌, ◌||◌, List, ℕ, Some};
ghost use Rattle.snap_io.specs.Causes.{CountedIf};
ghost use Rattle.snap_assert_settings.specs.Replaced.{ReplacementView};
ghost use Rattle.snap_mask.specs.Rules.{AreRules};
ghost use Rattle.snap_explain.specs.Runs.{RunLeavesOf, RunLength, run_at, run_of, run_read_fault, run_write_fault};

use crate::saying::{SayError, say_line};
use snap_assert_settings::redactions::Redactions;
use snap_io::{Sink, Source};
use snap_io_lines::{Held, LineEnd, LineError, MAX_INPUT};
use snap_mask::masking::line_read;
use std::alloc::Global;

/// How the lines of an input ended.
#[derive(Clone, Copy, Debug, PartialEq, Eq)]
pub enum Run {
    /// All were read; whether something was said.
    Done { found: bool },
    /// The line has more bytes than a line may have.
    TooLong { line: u64 },
    ReadFault,
    WriteFault,
    OutOfMemory,
    /// The source gave more bytes than an input may have.
    InputTooLong,
}

fn run_at(error: LineError, line: u64) -> Run
    ensures { result ≡ run_at error line }
{
    match error {
        LineError::Fault => Run::ReadFault,
        LineError::LineTooLong => Run::TooLong { line },
        LineError::InputTooLong => Run::InputTooLong,
        LineError::OutOfMemory => Run::OutOfMemory,
    }
}

fn run_of(error: SayError) -> Run
    ensures { result ≡ run_of error }
{
    match error {
        SayError::WriteFault => Run::WriteFault,
        SayError::OutOfMemory => Run::OutOfMemory,
    }
}

fn either(one: bool, other: bool) -> bool
    ensures { result ≡ (one || other) }
{
    one || other
}

/// Says of each line, one by one, why it has no record.
pub(crate) fn say_lines<S: Source, K: Sink>(
    alloc: Global,
    rules: &Redactions,
    source: &mut S,
    sink: &mut K,
) -> Run
    ensures leaves { (views : List ReplacementView) → AreRules rules.now views
        → RunLeavesOf views result (S.left source.old) (K.written sink.old) (K.written sink.new) }
    ensures length { RunLength result (S.left source.old) (S.left source.new) }
    ensures read { CountedIf (run_read_fault result) (S.faults source.old) (S.faults source.new) }
    ensures write { CountedIf (run_write_fault result) (K.faults sink.old) (K.faults sink.new) }
{
    let mut held = Held::new(alloc);
    let mut line = Vec::new(alloc);
    let mut budget = MAX_INPUT + 1;
    let mut number: u64 = 0;
    let mut found = false;
    'lines: loop {
        match held.next_line(source, &mut budget, &mut line) {
            Err(error) => return run_at(error, number + 1),
            Ok(end) => {
                number += 1;
                match say_line(alloc, rules, number, sink, line_read(end, line.as_slice())) {
                    Err(error) => return run_of(error),
                    Ok(said) => found = either(found, said),
                }
                match end {
                    LineEnd::Last => return Run::Done { found },
                    LineEnd::Ended => {}
                }
            }
        }
    }
}
