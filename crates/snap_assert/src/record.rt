//! What an assertion of a literal leaves of the records.
ghost use Rattle.std.specs.Prelude.{◌≡◌, ◌∷◌, [], ℕ, Bool, List, Option, true, false, Some, is_some, IfOk, IfErr, OnOk, encode_utf8_all};
ghost use Rattle.std.specs.FinMap.{get};
ghost use Rattle.snap_content.specs.declared.error.Error.{Error as ErrorSeen};
ghost use Rattle.snap_io.specs.Changes.{all_changed};
ghost use Rattle.snap_io.specs.Files.{Files, appended};
ghost use Rattle.snap_io.specs.Outside.{Becomes};
ghost use Rattle.snap_io.specs.StandsAfter.{StandsAfter};
ghost use Rattle.snap_pending.specs.Pending.{pending_of};
ghost use Rattle.snap_pending.specs.Record.{is_refused, record_line};
ghost use Rattle.snap_pending.specs.Saved.{adds};
ghost use Rattle.snap_store.specs.Views.{snapshot_of};
ghost use Rattle.snap_assert_place.specs.Place.{place_of};
ghost use Rattle.snap_assert_place.specs.SnapshotPath.{records_path};
ghost use Rattle.snap_assert.specs.Halts.{named_by};
ghost use Rattle.snap_assert.specs.Kept.{NamesOnly};
ghost use Rattle.snap_assert.specs.LiteralHalts.{IsThere, RecordsHalt, line_added, pass_added};
ghost use Rattle.snap_assert.specs.LiteralOutcomes.{ChangesOnly, IsNotDue, unprinted};
ghost use Rattle.snap_assert.specs.Literals.{calls_for_record, has_record, leaves_out, line_if, nothing_record, record_at, settled, with_line_if, writes};
ghost use Rattle.snap_assert.specs.Outcomes.{WorkCause};

use crate::error::AssertError;
use snap_assert_place::paths::is_doctest_function;
use snap_assert_place::place::Place;
use snap_assert_settings::config::{Config, Update};
use snap_content::{Error, Text};
use snap_io::Store;
use snap_pending::PendingInlineSnapshot;
use snap_store::{Snapshot, named};
use std::alloc::Global;

/// Whether something is written in this mode.
fn writes(mode: Update) -> bool
    ensures { result ≡ writes mode }
{
    match mode {
        Update::NoUpdate => false,
        Update::InPlace | Update::NewFile => true,
    }
}

/// Whether a record is called for.
fn calls_for_record(config: &Config, passed: bool) -> bool
    ensures { result ≡ calls_for_record config.now passed }
{
    writes(config.update) && (config.force_update || !passed)
}

/// Whether a record is written.
fn has_record(config: &Config, place: &Place, passed: bool) -> bool
    ensures { result ≡ has_record config.now (place_of place.now) passed }
{
    calls_for_record(config, passed) && !is_doctest_function(place.function().as_str())
}

/// Whether a record is left out, since the literal stands in a doctest.
pub fn leaves_out(config: &Config, place: &Place, passed: bool) -> bool
    ensures { result ≡ leaves_out config.now (place_of place.now) passed }
{
    calls_for_record(config, passed) && is_doctest_function(place.function().as_str())
}

/// What a record that is not printed comes to.
fn unprinted(error: Error) -> AssertError
    ensures { result ≡ unprinted error }
{
    match error {
        Error::JsonKey => AssertError::JsonKey,
        _ => AssertError::OutOfMemory,
    }
}

/// The line of a record.
fn printed(alloc: Global, pending: &PendingInlineSnapshot) -> Result<Text, AssertError>
    ensures line { IfOk result (λ line. line ≡ record_line (pending_of pending.now)) }
    ensures taken { IfOk result (λ _. is_refused (pending_of pending.now) ≡ false) }
    ensures refused { IfErr result (λ e. IsNotDue true (is_refused (pending_of pending.now)) e) }
{
    match pending.record_line(alloc) {
        Ok(line) => Ok(line),
        Err(error) => Err(unprinted(error)),
    }
}

/// The line of the record of both snapshots.
fn literal_line(
    alloc: Global,
    config: &Config,
    place: &Place,
    old: Snapshot,
    new: Snapshot,
) -> Result<Text, AssertError>
    ensures line { IfOk result (λ line. line ≡ record_line (record_at config.now.run_id
        (place_of place.now) (Some (snapshot_of new)) (Some (snapshot_of old)))) }
    ensures taken { IfOk result (λ _. is_refused (record_at config.now.run_id (place_of place.now)
        (Some (snapshot_of new)) (Some (snapshot_of old))) ≡ false) }
    ensures refused { IfErr result (λ e. IsNotDue true (is_refused (record_at config.now.run_id
        (place_of place.now) (Some (snapshot_of new)) (Some (snapshot_of old)))) e) }
{
    match config.run_id.try_clone(alloc) {
        Ok(run_id) => {
            let pending = PendingInlineSnapshot::new(run_id, Some(new), Some(old), place.line());
            let line = printed(alloc, &pending);
            drop(pending);
            line
        }
        Err(_) => {
            drop(old);
            drop(new);
            Err(AssertError::OutOfMemory)
        }
    }
}

/// The line of the record that is to be written, where one is, printed before anything is written.
pub fn line_due(
    alloc: Global,
    config: &Config,
    place: &Place,
    old: Snapshot,
    new: Snapshot,
    passed: bool,
) -> Result<Option<Text>, AssertError>
    ensures line { IfOk result (λ line. line ≡ line_if
        (has_record config.now (place_of place.now) passed)
        (record_at config.now.run_id (place_of place.now) (Some (snapshot_of new))
        (Some (snapshot_of old)))) }
    ensures taken { IfOk result (λ _. has_record config.now (place_of place.now) passed ≡ true
        → is_refused (record_at config.now.run_id (place_of place.now) (Some (snapshot_of new))
        (Some (snapshot_of old))) ≡ false) }
    ensures refused { IfErr result (λ e. IsNotDue
        (has_record config.now (place_of place.now) passed)
        (is_refused (record_at config.now.run_id (place_of place.now) (Some (snapshot_of new))
        (Some (snapshot_of old)))) e) }
{
    if !has_record(config, place, passed) {
        drop(old);
        drop(new);
        return Ok(None);
    }
    match literal_line(alloc, config, place, old, new) {
        Ok(line) => Ok(Some(line)),
        Err(error) => Err(error),
    }
}

/// The line of the record that holds no snapshot.
fn nothing_line(alloc: Global, config: &Config, place: &Place) -> Result<Text, Error>
    ensures line { IfOk result (λ line. line
        ≡ record_line (nothing_record config.now.run_id (place_of place.now))) }
    ensures memory { IfErr result (λ e. e ≡ ErrorSeen.OutOfMemory) }
{
    let run_id = config.run_id.try_clone(alloc)?;
    let pending = PendingInlineSnapshot::new(run_id, None, None, place.line());
    pending.record_line(alloc)
}

/// Adds the record that holds no snapshot after what the file of records holds.
fn add_nothing<S: Store>(
    alloc: Global,
    store: &mut S,
    config: &Config,
    place: &Place,
    path: &Text,
) -> Result<(), AssertError>
    ensures ok { OnOk result (Becomes (S.files store.old) (S.files store.new)
        (λ m. appended m path.now
        (encode_utf8_all (record_line (nothing_record config.now.run_id (place_of place.now)))))) }
    ensures kept { ChangesOnly path.now (S.files store.old) (S.files store.new) }
    ensures named { NamesOnly path.now result }
    ensures halted { IfErr result (λ e. StandsAfter (adds path.now
        (record_line (nothing_record config.now.run_id (place_of place.now))) ∷ []) (named_by e)
        (S.files store.old) (S.files store.new)) }
    ensures cause { WorkCause (S.faults store.old) (S.faults store.new) result }
{
    let line = nothing_line(alloc, config, place)?;
    add_line(alloc, store, path, &line)
}

/// Adds a line after what the file of records holds.
fn add_line<S: Store>(
    alloc: Global,
    store: &mut S,
    path: &Text,
    line: &Text,
) -> Result<(), AssertError>
    ensures ok { OnOk result (Becomes (S.files store.old) (S.files store.new)
        (λ m. appended m path.now (encode_utf8_all line.now))) }
    ensures kept { ChangesOnly path.now (S.files store.old) (S.files store.new) }
    ensures named { NamesOnly path.now result }
    ensures halted { IfErr result (λ e. StandsAfter (adds path.now line.now ∷ []) (named_by e)
        (S.files store.old) (S.files store.new)) }
    ensures cause { WorkCause (S.faults store.old) (S.faults store.new) result }
{
    PendingInlineSnapshot::append_line(alloc, store, path, line)?;
    Ok(())
}

/// Whether the file of records is there.
fn has_records<S: Store>(alloc: Global, store: &mut S, path: &Text) -> Result<bool, AssertError>
    ensures there { IfOk result (λ there. (m : Files) → S.files store.old ≡ Some m
        → there ≡ is_some (get m path.now)) }
    ensures same { S.files store.new ≡ S.files store.old }
    ensures named { NamesOnly path.now result }
    ensures cause { WorkCause (S.faults store.old) (S.faults store.new) result }
{
    let found = named::read(alloc, store, path)?;
    Ok(found.is_some())
}

/// On a pass adds the record that holds no snapshot, where the file of records is there.
fn settle_passed<S: Store>(
    alloc: Global,
    store: &mut S,
    config: &Config,
    place: &Place,
    path: &Text,
    passed: bool,
) -> Result<(), AssertError>
    requires { path.now ≡ records_path (place_of place.now) }
    ensures ok { OnOk result (Becomes (S.files store.old) (S.files store.new)
        (settled config.now.run_id (place_of place.now) passed)) }
    ensures kept { ChangesOnly path.now (S.files store.old) (S.files store.new) }
    ensures named { NamesOnly path.now result }
    ensures there { IfOk result (λ _. (there : Bool)
        × IsThere (place_of place.now) passed there (S.files store.old)
        × Becomes (S.files store.old) (S.files store.new)
        (all_changed (pass_added config.now.run_id (place_of place.now) passed there))) }
    ensures halted { IfErr result (λ e. (line : Option (List ℕ)) → RecordsHalt config.now.run_id
        (place_of place.now) passed line e (S.files store.old) (S.files store.new)) }
    ensures cause { WorkCause (S.faults store.old) (S.faults store.new) result }
{
    if !passed {
        return Ok(());
    }
    if !has_records(alloc, store, path)? {
        return Ok(());
    }
    add_nothing(alloc, store, config, place, path)
}

/// Adds the line that is to be written, where there is one.
fn settle_line<S: Store>(
    alloc: Global,
    store: &mut S,
    place: &Place,
    path: &Text,
    line: &Option<Text>,
) -> Result<(), AssertError>
    requires { path.now ≡ records_path (place_of place.now) }
    ensures ok { OnOk result (Becomes (S.files store.old) (S.files store.new)
        (with_line_if line.now (place_of place.now))) }
    ensures kept { ChangesOnly path.now (S.files store.old) (S.files store.new) }
    ensures named { NamesOnly path.now result }
    ensures halted { IfErr result (λ e. StandsAfter (line_added (place_of place.now) line.now)
        (named_by e) (S.files store.old) (S.files store.new)) }
    ensures cause { WorkCause (S.faults store.old) (S.faults store.new) result }
{
    match line {
        None => Ok(()),
        Some(line) => add_line(alloc, store, path, line),
    }
}

/// Leaves the records as an assertion does: on a pass with the record that holds no snapshot, where the file of records is there, and then
/// with the line that is to be written. No other file is changed.
pub fn settle_literal<S: Store>(
    alloc: Global,
    store: &mut S,
    config: &Config,
    place: &Place,
    path: &Text,
    passed: bool,
    line: &Option<Text>,
) -> Result<(), AssertError>
    requires { path.now ≡ records_path (place_of place.now) }
    ensures ok { OnOk result (Becomes (S.files store.old) (S.files store.new)
        (λ m. with_line_if line.now (place_of place.now)
        (settled config.now.run_id (place_of place.now) passed m))) }
    ensures kept { ChangesOnly path.now (S.files store.old) (S.files store.new) }
    ensures named { NamesOnly path.now result }
    ensures halted { IfErr result (λ e. RecordsHalt config.now.run_id (place_of place.now) passed
        line.now e (S.files store.old) (S.files store.new)) }
    ensures cause { WorkCause (S.faults store.old) (S.faults store.new) result }
{
    settle_passed(alloc, store, config, place, path, passed)?;
    settle_line(alloc, store, place, path, line)
}
