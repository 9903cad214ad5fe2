//! What the filter of JSON lines refuses, and why.
ghost use Rattle.std.specs.Prelude.{◌≡◌, false, List, ℕ, None, Some, IfOk, option_map};
ghost use Rattle.snap_io.specs.Causes.{CountedIf};
ghost use Rattle.snap_assert_settings.specs.Replaced.{ReplacementView, replacements_of};
ghost use Rattle.snap_mask.specs.Rules.{AreMasking};
ghost use Rattle.snap_explain.specs.Findings.{Leaves, LeavesOf, LengthCause, is_input_too_long, says_read_fault, says_write_fault, says_file_fault};
ghost use Rattle.snap_explain.specs.Program.{RulesCause, mask_rules};
ghost use Rattle.snap_explain.specs.Runs.{RunLeaves, SaidBefore, is_long_run, run_read_fault, run_write_fault};

use crate::fault::LineFault;
use crate::lines::{Run, say_lines};
use crate::saying::{SayError, say};
use crate::status::ExplainStatus;
use snap_assert_settings::redactions::{Redactions, Replacements};
use snap_content::characters::is_same;
use snap_content::{OutOfMemory, Text};
use snap_io::{Sink, Source};
use snap_mask::rules::rules_of;
use std::alloc::Global;

/// The rules that the words spell after the tool's name; none where that is another, or they spell no rules.
fn mask_rules(alloc: Global, words: &[Text]) -> Result<Option<Replacements>, OutOfMemory>
    ensures { IfOk result (λ found. option_map (λ held. replacements_of held.items) found
        ≡ mask_rules words.now) }
{
    match words {
        [tool, rules @ ..] => {
            if is_same(tool.as_str(), "mask") {
                rules_of(alloc, rules)
            } else {
                Ok(None)
            }
        }
        [] => Ok(None),
    }
}

/// Says of a line that is too long that it is, which is the last finding.
fn say_long<K: Sink>(alloc: Global, line: u64, sink: &mut K) -> ExplainStatus
    ensures words { result ≡ ExplainStatus.BadWords → ⊥ }
    ensures leaves { (rules : List ReplacementView) (input w : List ℕ)
        → SaidBefore rules line input w (K.written sink.old)
        → Leaves rules result input w (K.written sink.new) }
    ensures length { is_input_too_long result ≡ false }
    ensures read { says_read_fault result ≡ false }
    ensures write { CountedIf (says_write_fault result) (K.faults sink.old) (K.faults sink.new) }
    ensures file { says_file_fault result ≡ false }
{
    match say(alloc, line, &LineFault::TooLong, sink) {
        Ok(()) => ExplainStatus::Found,
        Err(SayError::WriteFault) => ExplainStatus::WriteFault,
        Err(SayError::OutOfMemory) => ExplainStatus::OutOfMemory,
    }
}

/// How a run ended whose lines ended so.
fn ended<K: Sink>(alloc: Global, run: Run, sink: &mut K) -> ExplainStatus
    ensures words { result ≡ ExplainStatus.BadWords → ⊥ }
    ensures leaves { (rules : List ReplacementView) (input w : List ℕ)
        → RunLeaves rules run input w (K.written sink.old)
        → Leaves rules result input w (K.written sink.new) }
    ensures length { is_input_too_long result ≡ is_long_run run }
    ensures read { says_read_fault result ≡ run_read_fault run }
    ensures write { (before : ℕ) → CountedIf (run_write_fault run) before (K.faults sink.old)
        → CountedIf (says_write_fault result) before (K.faults sink.new) }
    ensures file { says_file_fault result ≡ false }
{
    match run {
        Run::Done { found } => {
            if found {
                ExplainStatus::Found
            } else {
                ExplainStatus::Nothing
            }
        }
        Run::TooLong { line } => say_long(alloc, line, sink),
        Run::ReadFault => ExplainStatus::ReadFault,
        Run::WriteFault => ExplainStatus::WriteFault,
        Run::OutOfMemory => ExplainStatus::OutOfMemory,
        Run::InputTooLong => ExplainStatus::InputTooLong,
    }
}

/// Says what is refused by these rules.
fn explain_by<S: Source, K: Sink>(
    alloc: Global,
    rules: Replacements,
    source: &mut S,
    sink: &mut K,
) -> ExplainStatus
    ensures words { result ≡ ExplainStatus.BadWords → ⊥ }
    ensures leaves { AreMasking (replacements_of rules.entry.items)
        → LeavesOf (replacements_of rules.entry.items) result (S.left source.old)
        (K.written sink.old) (K.written sink.new) }
    ensures length { LengthCause result (S.left source.old) (S.left source.new) }
    ensures read { CountedIf (says_read_fault result) (S.faults source.old) (S.faults source.new) }
    ensures write { CountedIf (says_write_fault result) (K.faults sink.old) (K.faults sink.new) }
    ensures file { says_file_fault result ≡ false }
{
    match Redactions::from_replacements(alloc, rules) {
        Err(_) => ExplainStatus::OutOfMemory,
        Ok(rules) => {
            let run = say_lines(alloc, &rules, source, sink);
            ended(alloc, run, sink)
        }
    }
}

/// Says why lines are refused, where the words spell rules after the tool's name.
pub(crate) fn explain_lines<S: Source, K: Sink>(
    alloc: Global,
    words: &[Text],
    source: &mut S,
    sink: &mut K,
) -> ExplainStatus
    ensures words { RulesCause words.now result }
    ensures refused { result ≡ ExplainStatus.BadWords
        → (source.new ≡ source.old) × (sink.new ≡ sink.old) }
    ensures leaves { (rules : List ReplacementView) → mask_rules words.now ≡ Some rules
        → LeavesOf rules result (S.left source.old) (K.written sink.old) (K.written sink.new) }
    ensures length { LengthCause result (S.left source.old) (S.left source.new) }
    ensures read { CountedIf (says_read_fault result) (S.faults source.old) (S.faults source.new) }
    ensures write { CountedIf (says_write_fault result) (K.faults sink.old) (K.faults sink.new) }
    ensures file { says_file_fault result ≡ false }
{
    match mask_rules(alloc, words) {
        Err(_) => ExplainStatus::OutOfMemory,
        Ok(None) => ExplainStatus::BadWords,
        Ok(Some(rules)) => explain_by(alloc, rules, source, sink),
    }
}
