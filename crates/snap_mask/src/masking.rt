//! A whole input, line by line.
ghost use Rattle.std.specs.Prelude.{◌≡◌, List, ℕ, None, Some};
ghost use Rattle.snap_io.specs.Causes.{CountedIf};
ghost use Rattle.snap_assert_settings.specs.Replaced.{ReplacementView, replacements_of};
ghost use Rattle.snap_mask.specs.Lined.{line_read, status_of, refusal_of};
ghost use Rattle.snap_mask.specs.Masked.{LeavesOf, LengthCause, ReadCause, says_read_fault, says_write_fault};
ghost use Rattle.snap_mask.specs.Program.{EndsWell, IsProper, IsSteady, IsTold, RulesCause, WordsCause, asked_of};
ghost use Rattle.snap_mask.specs.Rules.{AreMasking, AreRules, rules_in};

use crate::rules::rules_of;
use crate::status::MaskStatus;
use crate::usage::{USAGE, VERSION, tell};
use crate::writing::{RecordStop, write_record};
use snap_assert_settings::redactions::{Redactions, Replacements};
use snap_content::Text;
use snap_io::{Sink, Source};
use snap_io_lines::{Held, LineEnd, LineError, MAX_INPUT};
use snap_io_words::text_in;
use std::alloc::Global;

/// The line without one return, where a line's end followed it.
pub fn line_read(end: LineEnd, line: &[u8]) -> &[u8]
    ensures { result.now ≡ line_read end line.now }
{
    match end {
        LineEnd::Last => line,
        LineEnd::Ended => match line.split_last() {
            None => line,
            Some((last, front)) => { if *last == b'\r' { front } else { line } }
        },
    }
}

fn status_of(error: LineError, line: u64) -> MaskStatus
    ensures { result ≡ status_of error line }
{
    match error {
        LineError::Fault => MaskStatus::ReadFault,
        LineError::LineTooLong => MaskStatus::LineTooLong { line },
        LineError::InputTooLong => MaskStatus::InputTooLong,
        LineError::OutOfMemory => MaskStatus::OutOfMemory,
    }
}

fn refusal_of(stop: RecordStop, line: u64) -> MaskStatus
    ensures { result ≡ refusal_of stop line }
{
    match stop {
        RecordStop::BadLine => MaskStatus::BadLine { line },
        RecordStop::FloatLine => MaskStatus::FloatLine { line },
        RecordStop::JsonKey => MaskStatus::JsonKey { line },
        RecordStop::WriteFault => MaskStatus::WriteFault,
        RecordStop::OutOfMemory => MaskStatus::OutOfMemory,
    }
}

/// Writes the record of each line, one by one.
fn mask_lines<S: Source, K: Sink>(
    alloc: Global,
    rules: &Redactions,
    source: &mut S,
    sink: &mut K,
) -> MaskStatus
    ensures words { result ≡ MaskStatus.BadWords → ⊥ }
    ensures leaves { (views : List ReplacementView) → AreRules rules.now views
        → LeavesOf views result (S.left source.old) (K.written sink.old) (K.written sink.new) }
    ensures length { LengthCause result (S.left source.old) (S.left source.new) }
    ensures end { ReadCause result (S.left source.old) (S.left source.new) }
    ensures read { CountedIf (says_read_fault result) (S.faults source.old) (S.faults source.new) }
    ensures write { CountedIf (says_write_fault result) (K.faults sink.old) (K.faults sink.new) }
{
    let mut held = Held::new(alloc);
    let mut line = Vec::new(alloc);
    let mut budget = MAX_INPUT + 1;
    let mut number: u64 = 0;
    'lines: loop {
        match held.next_line(source, &mut budget, &mut line) {
            Err(error) => return status_of(error, number + 1),
            Ok(end) => {
                number += 1;
                match write_record(alloc, rules, sink, line_read(end, line.as_slice())) {
                    Err(stop) => return refusal_of(stop, number),
                    Ok(()) => {}
                }
                match end {
                    LineEnd::Last => return MaskStatus::Done,
                    LineEnd::Ended => {}
                }
            }
        }
    }
}

/// Writes the records by these rules.
fn mask_by<S: Source, K: Sink>(
    alloc: Global,
    rules: Replacements,
    source: &mut S,
    sink: &mut K,
) -> MaskStatus
    ensures words { result ≡ MaskStatus.BadWords → ⊥ }
    ensures leaves { AreMasking (replacements_of rules.entry.items)
        → LeavesOf (replacements_of rules.entry.items) result (S.left source.old)
        (K.written sink.old) (K.written sink.new) }
    ensures length { LengthCause result (S.left source.old) (S.left source.new) }
    ensures end { ReadCause result (S.left source.old) (S.left source.new) }
    ensures read { CountedIf (says_read_fault result) (S.faults source.old) (S.faults source.new) }
    ensures write { CountedIf (says_write_fault result) (K.faults sink.old) (K.faults sink.new) }
{
    match Redactions::from_replacements(alloc, rules) {
        Err(_) => MaskStatus::OutOfMemory,
        Ok(rules) => mask_lines(alloc, &rules, source, sink),
    }
}

/// What `mask` does with words that ask for no text.
fn mask_words<S: Source, K: Sink>(
    alloc: Global,
    words: &[Text],
    source: &mut S,
    sink: &mut K,
) -> MaskStatus
    ensures words { RulesCause words.now result }
    ensures refused { result ≡ MaskStatus.BadWords
        → (source.new ≡ source.old) × (sink.new ≡ sink.old) }
    ensures leaves { (rules : List ReplacementView) → rules_in words.now ≡ Some rules
        → LeavesOf rules result (S.left source.old) (K.written sink.old) (K.written sink.new) }
    ensures length { LengthCause result (S.left source.old) (S.left source.new) }
    ensures end { ReadCause result (S.left source.old) (S.left source.new) }
    ensures read { CountedIf (says_read_fault result) (S.faults source.old) (S.faults source.new) }
    ensures write { CountedIf (says_write_fault result) (K.faults sink.old) (K.faults sink.new) }
{
    match rules_of(alloc, words) {
        Err(_) => MaskStatus::OutOfMemory,
        Ok(None) => MaskStatus::BadWords,
        Ok(Some(rules)) => mask_by(alloc, rules, source, sink),
    }
}

/// Reads JSON lines from the source, masks each by the rules that the words spell, and writes it.
///
/// The words are those of the command line, without the program's name: any number of `--put SELECTOR TEXT` and `--sort SELECTOR`,
/// applied in turn. No words are no rules. A record is written before the next line is read; the first line that is refused ends
/// the run, and nothing of it is written.
///
/// `--help` and `--version`, each alone, write a text; then nothing is read.
pub fn mask<S: Source, K: Sink>(
    alloc: Global,
    words: &[Text],
    source: &mut S,
    sink: &mut K,
) -> MaskStatus
    ensures words { WordsCause words.now result }
    ensures told { (text : List ℕ) → asked_of words.now ≡ Some text
        → IsTold text result (K.written sink.old) (K.written sink.new) }
    ensures untouched { (text : List ℕ) → asked_of words.now ≡ Some text
        → source.new ≡ source.old }
    ensures refused { result ≡ MaskStatus.BadWords
        → (source.new ≡ source.old) × (sink.new ≡ sink.old) }
    ensures leaves { (rules : List ReplacementView) → asked_of words.now ≡ None
        → rules_in words.now ≡ Some rules
        → LeavesOf rules result (S.left source.old) (K.written sink.old) (K.written sink.new) }
    ensures length { LengthCause result (S.left source.old) (S.left source.new) }
    ensures end { asked_of words.now ≡ None
        → ReadCause result (S.left source.old) (S.left source.new) }
    ensures read { CountedIf (says_read_fault result) (S.faults source.old) (S.faults source.new) }
    ensures write { CountedIf (says_write_fault result) (K.faults sink.old) (K.faults sink.new) }
    // Without faults, a run of rules over a proper input ends well.
    ensures complete { (rules : List ReplacementView) (input w : List ℕ)
        → asked_of words.now ≡ None → rules_in words.now ≡ Some rules
        → S.left source.old ≡ Some input → K.written sink.old ≡ Some w → IsProper input
        → IsSteady (S.faults source.old) (S.faults source.new)
        → IsSteady (K.faults sink.old) (K.faults sink.new)
        → EndsWell result }
{
    match text_in(words, USAGE, VERSION) {
        Some(text) => tell(text, sink),
        None => mask_words(alloc, words, source, sink),
    }
}
