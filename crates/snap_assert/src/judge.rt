//! Whether a new snapshot passes by what the file of the old one holds, and what is to be said of that file.
ghost use Rattle.std.specs.Prelude.{◌≡◌, ◌↔◌, [], ◌∷◌, false, IfErr, IfOk, IsTrue, option_map};
ghost use Rattle.snap_io.specs.Outside.{Given};
ghost use Rattle.snap_assert.specs.Outcomes.{WorkCause, said};
ghost use Rattle.snap_assert.specs.Relations.{asked_relation, PassesBy};
ghost use Rattle.snap_assert.specs.Steps.{Asked};
ghost use Rattle.snap_assert.specs.Prepared.{IsPrepared, IsJudged, NoPass, RefusedEnd, OlderTexts, OlderPair, OlderAs, IsCompared};
ghost use Rattle.snap_assert.specs.Halts.{FaultIsLook};
ghost use Rattle.snap_assert.specs.Kept.{NamesRead};
ghost use Rattle.snap_store.specs.Views.{snapshot_of};
ghost use Rattle.snap_content.specs.List.{items_of};

use crate::comparator::Comparator;
use crate::error::AssertError;
use crate::outcome::{Warning, Warnings};
use crate::prepare::Prepared;
use snap_content::{Error, OutOfMemory};
use snap_io::Store;
use snap_store::{Snapshot, SnapshotContents};
use snap_text::TextSnapshotContents;
use std::alloc::Global;

/// Whether it passes, and what is to be said of the file.
#[derive(Drop)]
pub struct Judged {
    pub passed: bool,
    pub warnings: Warnings,
}

fn no_pass(alloc: Global) -> Judged
    ensures passed { result.passed ≡ false }
    ensures warnings { items_of result.warnings ≡ [] }
{
    Judged {
        passed: false,
        warnings: Warnings::new(alloc),
    }
}

fn no_pass_but(alloc: Global, warning: Warning) -> Result<Judged, AssertError>
    ensures { NoPass (warning ∷ []) result }
{
    let mut warnings = Warnings::new(alloc);
    warnings.push(warning)?;
    Ok(Judged {
        passed: false,
        warnings,
    })
}

/// What a file that is refused comes to: no pass, and a warning where the file is there.
fn refused(alloc: Global, error: Error) -> Result<Judged, AssertError>
    ensures { RefusedEnd error result }
{
    match error {
        Error::NoFile(_) => Ok(no_pass(alloc)),
        Error::FileIo(path) => Err(AssertError::FileIo(path)),
        Error::OutOfMemory => Err(AssertError::OutOfMemory),
        Error::NotText(path) => no_pass_but(alloc, Warning::Unreadable(Error::NotText(path))),
        Error::FailedParsingYaml(path) => {
            no_pass_but(alloc, Warning::Unreadable(Error::FailedParsingYaml(path)))
        }
        Error::UnexpectedDataType => {
            no_pass_but(alloc, Warning::Unreadable(Error::UnexpectedDataType))
        }
        Error::MissingField => no_pass_but(alloc, Warning::Unreadable(Error::MissingField)),
        Error::FloatText(path) => no_pass_but(alloc, Warning::Unreadable(Error::FloatText(path))),
        Error::JsonKey => no_pass_but(alloc, Warning::Unreadable(Error::JsonKey)),
    }
}

/// Whether both texts match by their older forms alone.
fn are_older(
    alloc: Global,
    old: &TextSnapshotContents,
    new: &TextSnapshotContents,
) -> Result<bool, OutOfMemory>
    ensures { IfOk result (λ older. OlderTexts older old.now new.now) }
{
    if old.matches_latest(alloc, new)? {
        return Ok(false);
    }
    old.matches_legacy(alloc, new)
}

/// Whether both are texts that match by their older forms alone.
fn match_by_older_forms(
    alloc: Global,
    old: &SnapshotContents,
    new: &SnapshotContents,
) -> Result<bool, OutOfMemory>
    ensures { IfOk result (λ older. OlderPair older old.now new.now) }
{
    match (old.as_text(), new.as_text()) {
        (Some(old), Some(new)) => are_older(alloc, old, new),
        _ => Ok(false),
    }
}

/// Whether the pass is one by the older forms alone, which no comparator tells by itself.
pub fn passes_by_older_forms(
    alloc: Global,
    passed: bool,
    old: &SnapshotContents,
    new: &SnapshotContents,
) -> Result<bool, OutOfMemory>
    ensures { IfOk result (λ older. OlderAs passed older old.now new.now) }
{
    if !passed {
        return Ok(false);
    }
    match_by_older_forms(alloc, old, new)
}

/// What is to be said of a file that was read.
fn file_warnings(
    alloc: Global,
    was_legacy: bool,
    number_as_text: bool,
    older: bool,
) -> Result<Warnings, OutOfMemory>
    ensures { IfOk result (λ warnings.
        items_of warnings ≡ said was_legacy number_as_text older) }
{
    let mut warnings = Warnings::new(alloc);
    if was_legacy {
        warnings.push(Warning::LegacyFile)?;
    }
    if number_as_text {
        warnings.push(Warning::NumberAsText)?;
    }
    if older {
        warnings.push(Warning::LegacyContents)?;
    }
    Ok(warnings)
}

/// Whether the new snapshot matches the old one, fully where that is asked.
fn do_match<C: Comparator>(
    alloc: Global,
    comparator: &C,
    fully: bool,
    old: &Snapshot,
    new: &Snapshot,
) -> Result<bool, OutOfMemory>
    ensures { IfOk result (λ same. IsTrue same
        ↔ asked_relation (C.agrees comparator.now) (C.agrees_fully comparator.now) fully
        (snapshot_of old.now) (snapshot_of new.now)) }
{
    if fully {
        comparator.matches_fully(alloc, old, new)
    } else {
        comparator.matches(alloc, old, new)
    }
}

/// Whether the new snapshot passes: where there is an old one, it matches that, fully where that is asked.
pub fn judge<C: Comparator>(
    alloc: Global,
    comparator: &C,
    fully: bool,
    old: Option<&Snapshot>,
    new: &Snapshot,
) -> Result<bool, OutOfMemory>
    ensures { IfOk result (λ passed. PassesBy
        (asked_relation (C.agrees comparator.now) (C.agrees_fully comparator.now) fully)
        (option_map (λ held. snapshot_of held.now) old.entry) (snapshot_of new.now) passed) }
{
    match old {
        None => Ok(false),
        Some(old) => do_match(alloc, comparator, fully, old, new),
    }
}

/// What a file that was read comes to: a pass by the comparator, and what is said of it.
fn compare<C: Comparator>(
    alloc: Global,
    comparator: &C,
    fully: bool,
    old: &Snapshot,
    new: &Snapshot,
) -> Result<Judged, OutOfMemory>
    ensures { IfOk result (λ judged. IsCompared
        (asked_relation (C.agrees comparator.now) (C.agrees_fully comparator.now) fully)
        (snapshot_of old.now) (snapshot_of new.now) judged.passed (items_of judged.warnings)) }
{
    let passed = judge(alloc, comparator, fully, Some(old), new)?;
    let older = passes_by_older_forms(alloc, passed, old.contents(), new.contents())?;
    let warnings = file_warnings(alloc, old.was_legacy(), old.has_number_text(), older)?;
    Ok(Judged { passed, warnings })
}

/// Reads the snapshot, with its payload where its file says binary, and compares. Nothing is changed.
pub fn judge_file<S: Store, C: Comparator>(
    alloc: Global,
    store: &mut S,
    comparator: &C,
    fully: bool,
    prepared: &Prepared,
) -> Result<Judged, AssertError>
    ensures judged { IfOk result (λ judged. (asked : Asked) → IsPrepared asked prepared.now
        → Given (S.files store.old) (λ m. IsJudged
        (asked_relation (C.agrees comparator.now) (C.agrees_fully comparator.now) fully)
        asked m judged)) }
    ensures same { S.files store.new ≡ S.files store.old }
    ensures named { NamesRead prepared.now.path result }
    ensures looked { IfErr result (λ e. FaultIsLook prepared.now.path (S.files store.old) e) }
    ensures cause { WorkCause (S.faults store.old) (S.faults store.new) result }
{
    match Snapshot::from_file(alloc, store, &prepared.path) {
        Ok(old) => {
            let judged = compare(alloc, comparator, fully, &old, &prepared.snapshot);
            drop(old);
            Ok(judged?)
        }
        Err(error) => refused(alloc, error),
    }
}
