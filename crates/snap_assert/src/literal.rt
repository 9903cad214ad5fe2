//! One assertion of a literal over a store, by any comparator.
ghost use Rattle.std.specs.Prelude.{◌≡◌, ◌&&◌, ℕ, List, Option, Err, not, IfOk, IfErr, OnOk};
ghost use Rattle.snap_content.specs.List.{items_of};
ghost use Rattle.snap_io.specs.Outside.{Becomes};
ghost use Rattle.snap_assert_settings.specs.Settings.{settings_of};
ghost use Rattle.snap_assert_place.specs.Place.{place_of};
ghost use Rattle.snap_assert_place.specs.SnapshotPath.{records_path};
ghost use Rattle.snap_assert.specs.Kept.{NamesOnly};
ghost use Rattle.snap_assert.specs.LiteralCourses.{LiteralRefused, literal_course_of};
ghost use Rattle.snap_assert.specs.LiteralHalts.{IsLiteralHalted, JudgedHalts, LiteralHalts, RecordsHalt};
ghost use Rattle.snap_assert.specs.LiteralOutcomes.{AreLiterals, ChangesOnly, IsLiteralDone, IsLiteralJudged, IsLiteralLeft, IsLiteralStopped, LiteralAnswered, LiteralStops, RecordStops, literal_said};
ghost use Rattle.snap_assert.specs.Literals.{LiteralAssertion, literal_assertion_of, literal_mode, literal_verdict, settled, with_line_if};
ghost use Rattle.snap_assert.specs.Outcomes.{AssertCause, WorkCause};
ghost use Rattle.snap_assert.specs.Relations.{asked_relation};
ghost use Rattle.snap_assert.specs.Session.{session_of};
ghost use Rattle.snap_assert.specs.Steps.{is_failure};

use crate::comparator::Comparator;
use crate::engine::{fails, verdict};
use crate::error::AssertError;
use crate::judge::{Judged, judge, passes_by_older_forms};
use crate::literals::{Literals, begin_literal};
use crate::outcome::{Outcome, Warning, Warnings};
use crate::record::{leaves_out, line_due, settle_literal};
use crate::session::Session;
use snap_assert_place::place::Place;
use snap_assert_settings::config::{Config, Update};
use snap_assert_settings::settings::Settings;
use snap_content::{OutOfMemory, Text};
use snap_io::Store;
use snap_text::literal_is_open;
use std::alloc::Global;

/// The mode of a literal, which is never written in place.
fn literal_mode(mode: Update) -> Update
    ensures { result ≡ literal_mode mode }
{
    match mode {
        Update::InPlace | Update::NewFile => Update::NewFile,
        Update::NoUpdate => Update::NoUpdate,
    }
}

/// What is to be said of a literal.
fn literal_warnings(
    alloc: Global,
    older: bool,
    opens: bool,
    left_out: bool,
) -> Result<Warnings, OutOfMemory>
    ensures { IfOk result (λ warnings. items_of warnings ≡ literal_said older opens left_out) }
{
    let mut warnings = Warnings::new(alloc);
    if older {
        warnings.push(Warning::LegacyContents)?;
    }
    if opens {
        warnings.push(Warning::OpenLiteral)?;
    }
    if left_out {
        warnings.push(Warning::InlineInDoctest)?;
    }
    Ok(warnings)
}

/// Whether the new snapshot passes against the one in the source, and what is to be said of the literal.
fn judge_literal<C: Comparator>(
    alloc: Global,
    config: &Config,
    comparator: &C,
    place: &Place,
    reference: &Text,
    literals: &Literals,
) -> Result<Judged, OutOfMemory>
    ensures { IfOk result (λ judged. (a : LiteralAssertion) (name : Option (List ℕ))
        → AreLiterals a (place_of place.now) reference.now name literals.now
        → IsLiteralJudged (asked_relation (C.agrees comparator.now) (C.agrees_fully comparator.now)
        config.now.require_full_match) config.now a name judged) }
{
    let fully = config.require_full_match;
    let passed = judge(alloc, comparator, fully, Some(&literals.old), &literals.new)?;
    let older = passes_by_older_forms(
        alloc,
        passed,
        literals.old.contents(),
        literals.new.contents(),
    )?;
    let opens = literal_is_open(reference.as_str());
    let warnings = literal_warnings(alloc, older, opens, leaves_out(config, place, passed))?;
    Ok(Judged { passed, warnings })
}

/// Leaves the records as is due, and answers.
fn answer<S: Store>(
    alloc: Global,
    store: &mut S,
    config: &Config,
    place: &Place,
    path: Text,
    judged: Judged,
    line: Option<Text>,
) -> Result<Outcome, AssertError>
    requires { path ≡ records_path (place_of place.now) }
    ensures verdict { IfOk result (λ outcome. outcome.verdict
        ≡ literal_verdict config.now.update judged.passed) }
    ensures path { IfOk result (λ outcome. outcome.path ≡ path) }
    ensures fails { IfOk result (λ outcome. outcome.fails
        ≡ (is_failure outcome.verdict && not config.now.force_pass)) }
    ensures warnings { IfOk result (λ outcome. outcome.warnings ≡ judged.warnings) }
    ensures stands { OnOk result (Becomes (S.files store.old) (S.files store.new)
        (λ m. with_line_if line (place_of place.now)
        (settled config.now.run_id (place_of place.now) judged.passed m))) }
    ensures kept { ChangesOnly path (S.files store.old) (S.files store.new) }
    ensures named { NamesOnly path result }
    ensures halted { IfErr result (λ e. RecordsHalt config.now.run_id (place_of place.now)
        judged.passed line e (S.files store.old) (S.files store.new)) }
    ensures cause { WorkCause (S.faults store.old) (S.faults store.new) result }
{
    settle_literal(alloc, store, config, place, &path, judged.passed, &line)?;
    let verdict = verdict(literal_mode(config.update), judged.passed);
    Ok(Outcome {
        verdict,
        path,
        warnings: judged.warnings,
        fails: fails(verdict, config.force_pass),
    })
}

/// Prints the line that is due, and then leaves the records so.
fn assert_judged<S: Store>(
    alloc: Global,
    store: &mut S,
    config: &Config,
    place: &Place,
    literals: Literals,
    judged: Judged,
) -> Result<Outcome, AssertError>
    requires { literals.path ≡ records_path (place_of place.now) }
    ensures left { IfOk result (λ outcome. (a : LiteralAssertion) (reference : List ℕ)
        (name : Option (List ℕ)) → AreLiterals a (place_of place.now) reference name literals
        → IsLiteralLeft config.now a name judged.passed outcome (S.files store.old)
        (S.files store.new)) }
    ensures warnings { IfOk result (λ outcome. outcome.warnings ≡ judged.warnings) }
    ensures stopped { IfErr result (λ e. (a : LiteralAssertion) (reference : List ℕ)
        (name : Option (List ℕ)) → AreLiterals a (place_of place.now) reference name literals
        → RecordStops config.now a name judged.passed (S.files store.old) (S.files store.new) e) }
    ensures kept { ChangesOnly literals.path (S.files store.old) (S.files store.new) }
    ensures named { NamesOnly literals.path result }
    ensures halted { IfErr result (λ e. (a : LiteralAssertion) (reference : List ℕ)
        (name : Option (List ℕ)) → AreLiterals a (place_of place.now) reference name literals
        → JudgedHalts config.now a name judged.passed e (S.files store.old) (S.files store.new)) }
    ensures cause { AssertCause (S.faults store.old) (S.faults store.new) result }
{
    let Literals { path, old, new } = literals;
    match line_due(alloc, config, place, old, new, judged.passed) {
        Ok(line) => answer(alloc, store, config, place, path, judged, line),
        Err(error) => Err(error),
    }
}

/// Compares, prints the line that is due, and then leaves the records so.
fn assert_begun<S: Store, C: Comparator>(
    alloc: Global,
    store: &mut S,
    config: &Config,
    comparator: &C,
    place: &Place,
    reference: &Text,
    literals: Literals,
) -> Result<Outcome, AssertError>
    requires { literals.path ≡ records_path (place_of place.now) }
    ensures done { IfOk result (λ outcome. (a : LiteralAssertion) (name : Option (List ℕ))
        → AreLiterals a (place_of place.now) reference.now name literals
        → IsLiteralDone (asked_relation (C.agrees comparator.now) (C.agrees_fully comparator.now)
        config.now.require_full_match) config.now a name outcome (S.files store.old)
        (S.files store.new)) }
    ensures stopped { IfErr result (λ e. (a : LiteralAssertion) (name : Option (List ℕ))
        → AreLiterals a (place_of place.now) reference.now name literals
        → LiteralStops (asked_relation (C.agrees comparator.now) (C.agrees_fully comparator.now)
        config.now.require_full_match) config.now a name (S.files store.old) (S.files store.new) e) }
    ensures kept { ChangesOnly literals.path (S.files store.old) (S.files store.new) }
    ensures named { NamesOnly literals.path result }
    ensures halted { IfErr result (λ e. (a : LiteralAssertion) (name : Option (List ℕ))
        → AreLiterals a (place_of place.now) reference.now name literals
        → LiteralHalts (asked_relation (C.agrees comparator.now) (C.agrees_fully comparator.now)
        config.now.require_full_match) config.now a name e (S.files store.old) (S.files store.new)) }
    ensures cause { AssertCause (S.faults store.old) (S.faults store.new) result }
{
    match judge_literal(alloc, config, comparator, place, reference, &literals) {
        Ok(judged) => assert_judged(alloc, store, config, place, literals, judged),
        Err(_) => {
            drop(literals);
            Err(AssertError::OutOfMemory)
        }
    }
}

/// Asserts that a literal stands for the text. `reference` is what the literal reads as.
///
/// The literal takes the name of its function, from the second use on with a number; in a doctest it has none. It passes where the comparator says
/// so of the snapshot in the source, which has neither a name nor metadata, and of the new one; where the configuration requires a full
/// match, the comparator's second member is asked. Nothing is written in place: what did not pass, and with `force_update` what did, is
/// added as a record to the file of records beside the source, in both modes that write; in a doctest it is left out, with the warning
/// `InlineInDoctest`. On a pass a record without snapshots is added first, where the file of records is there. The path that
/// is returned is that of this file.
///
/// `InlineDuplicate`: no block of duplicates is open, and the literal was met before. `NameClash` and `NamesExhausted`: the name can't be
/// taken. `DuplicateDiffers`: the innermost block keeps other contents for the literal. After these four no file is changed. `JsonKey`: a
/// record is to be written that has a key which JSON refuses; it is printed before anything is written, so that no file is changed then
/// either. `FileIo`: the store failed on the file of records. No other file is changed, whatever is returned.
pub fn assert_literal<S: Store, C: Comparator>(
    alloc: Global,
    session: &mut Session,
    store: &mut S,
    config: &Config,
    settings: &Settings,
    comparator: &C,
    place: &Place,
    reference: &Text,
    content: Text,
) -> Result<Outcome, AssertError>
    ensures answered { IfOk result (λ outcome. LiteralAnswered
        (asked_relation (C.agrees comparator.now) (C.agrees_fully comparator.now)
        config.now.require_full_match) config.now
        (literal_assertion_of (settings_of settings.now) (place_of place.now) reference.now content)
        outcome (S.files store.old) (S.files store.new) (session_of session.old)
        (session_of session.new)) }
    ensures stopped { IfErr result (λ e. IsLiteralStopped
        (asked_relation (C.agrees comparator.now) (C.agrees_fully comparator.now)
        config.now.require_full_match) config.now
        (literal_assertion_of (settings_of settings.now) (place_of place.now) reference.now content)
        e (S.files store.old) (S.files store.new) (session_of session.old)
        (session_of session.new)) }
    ensures untouched { (refused : LiteralRefused) → literal_course_of
        (literal_assertion_of (settings_of settings.now) (place_of place.now) reference.now content)
        (session_of session.old) ≡ Err refused → store.new ≡ store.old }
    ensures kept { ChangesOnly (records_path (place_of place.now)) (S.files store.old)
        (S.files store.new) }
    ensures named { NamesOnly (records_path (place_of place.now)) result }
    // After a fault, and out of memory: of the changes those before one are done, and none behind it was begun.
    ensures halted { IfErr result (λ e. IsLiteralHalted (asked_relation (C.agrees comparator.now) (C.agrees_fully comparator.now)
        config.now.require_full_match) config.now
        (literal_assertion_of (settings_of settings.now) (place_of place.now) reference.now content)
        e (S.files store.old) (S.files store.new) (session_of session.old)) }
    ensures cause { AssertCause (S.faults store.old) (S.faults store.new) result }
{
    match begin_literal(alloc, session, settings, place, reference, content) {
        Ok(literals) => assert_begun(alloc, store, config, comparator, place, reference, literals),
        Err(error) => Err(error),
    }
}
