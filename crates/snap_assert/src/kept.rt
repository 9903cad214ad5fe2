//! What the innermost block of duplicates keeps.
ghost use Rattle.std.specs.Prelude.{◌≡◌, Ok, Some, IfOk, IfErr, OnOk, OnErr};
ghost use Rattle.snap_assert_place.specs.Place.{place_of};
ghost use Rattle.snap_assert.specs.Session.{SessionView, session_of};
ghost use Rattle.snap_assert.specs.Blocks.{do_agree, parts_of, keep_by, keep_step};
ghost use Rattle.snap_assert.specs.Names.{RefusedAs};
ghost use Rattle.snap_assert.specs.LiteralCourses.{inline_key};
ghost use Rattle.snap_assert.specs.declared.error.DuplicateKey.TheVariants.{Named};

use crate::error::{AssertError, DuplicateKey};
use crate::session::Session;
use snap_assert_place::place::Place;
use snap_content::{OutOfMemory, Text};
use snap_store::SnapshotContents;
use std::alloc::Global;

/// The key as it is kept in a block.
fn parts(alloc: Global, key: &DuplicateKey) -> Result<(Text, Text, Option<u32>), OutOfMemory>
    ensures { IfOk result (λ parts. parts ≡ parts_of key.now) }
{
    match key {
        DuplicateKey::Named(module_name, name) => {
            let module_name = module_name.try_clone(alloc)?;
            let name = name.try_clone(alloc)?;
            Ok((module_name, name, None))
        }
        DuplicateKey::Inline(function, file, line) => {
            let function = function.try_clone(alloc)?;
            let file = file.try_clone(alloc)?;
            Ok((function, file, Some(*line)))
        }
    }
}

/// Whether the contents agree.
fn do_agree(
    alloc: Global,
    kept: &SnapshotContents,
    new: &SnapshotContents,
) -> Result<bool, OutOfMemory>
    ensures { IfOk result (λ same. same ≡ do_agree kept.now new.now) }
{
    kept.agrees(alloc, new)
}

/// The error of contents that differ from those that a block keeps.
fn differing(
    alloc: Global,
    key: DuplicateKey,
    kept: &SnapshotContents,
    new: &SnapshotContents,
) -> Result<AssertError, OutOfMemory>
    ensures { IfOk result (λ e. e
        ≡ AssertError.DuplicateDiffers key kept.now new.now) }
{
    let kept = kept.try_clone(alloc)?;
    let new = new.try_clone(alloc)?;
    Ok(AssertError::DuplicateDiffers { key, kept, new })
}

/// Refuses contents that differ from those that a block keeps for the key.
fn compare_kept(
    alloc: Global,
    key: DuplicateKey,
    kept: &SnapshotContents,
    new: &SnapshotContents,
) -> Result<(), AssertError>
    ensures ok { OnOk result ((s : SessionView) → keep_by key new.now s (Some kept.now) ≡ Ok s) }
    ensures err { IfErr result (λ e. (s : SessionView)
        → RefusedAs e (keep_by key new.now s (Some kept.now))) }
{
    if do_agree(alloc, kept, new)? {
        return Ok(());
    }
    Err(differing(alloc, key, kept, new)?)
}

/// Keeps the contents in the innermost block, where it keeps none for the key; refused where it keeps others.
/// After a refusal and after running out of memory the session is as it was.
fn keep_in_block(
    alloc: Global,
    session: &mut Session,
    key: DuplicateKey,
    new: &SnapshotContents,
) -> Result<(), AssertError>
    ensures ok { OnOk result (keep_step key new.now (session_of session.old)
        ≡ Ok (session_of session.new)) }
    ensures err { IfErr result (λ e. RefusedAs e (keep_step key new.now (session_of session.old))) }
    ensures same { OnErr result (session_of session.new ≡ session_of session.old) }
{
    let parts = parts(alloc, &key)?;
    match session.kept_for(&parts) {
        Some(kept) => compare_kept(alloc, key, kept, new),
        None => {
            let new = new.try_clone(alloc)?;
            session.put_kept(parts, new)?;
            Ok(())
        }
    }
}

/// The key of a name.
fn named_key(alloc: Global, place: &Place, name: &Text) -> Result<DuplicateKey, OutOfMemory>
    ensures { IfOk result (λ key. key ≡ Named (place_of place.now).module_name name.now) }
{
    let module_name = place.module_name().try_clone(alloc)?;
    let name = name.try_clone(alloc)?;
    Ok(DuplicateKey::Named(module_name, name))
}

/// Asks the innermost block of duplicates, where one is open: it keeps the contents that are asserted first under the module and the name, and refuses
/// others. After a refusal and after running out of memory the session is as it was.
pub fn keep(
    alloc: Global,
    session: &mut Session,
    place: &Place,
    name: &Text,
    new: &SnapshotContents,
) -> Result<(), AssertError>
    ensures ok { OnOk result (keep_step (Named (place_of place.now).module_name name.now) new.now
        (session_of session.old) ≡ Ok (session_of session.new)) }
    ensures err { IfErr result (λ e. RefusedAs e (keep_step
        (Named (place_of place.now).module_name name.now) new.now (session_of session.old))) }
    ensures same { OnErr result (session_of session.new ≡ session_of session.old) }
{
    if !session.is_open() {
        return Ok(());
    }
    let key = named_key(alloc, place, name)?;
    keep_in_block(alloc, session, key, new)
}

/// The key of a literal.
fn inline_key(alloc: Global, place: &Place) -> Result<DuplicateKey, OutOfMemory>
    ensures { IfOk result (λ key. key ≡ inline_key (place_of place.now)) }
{
    let function = place.function().try_clone(alloc)?;
    let file = place.file().try_clone(alloc)?;
    Ok(DuplicateKey::Inline(function, file, place.line()))
}

/// The same of a literal: the block keeps the contents that are asserted first under its function, file and line, and refuses others.
pub fn keep_literal(
    alloc: Global,
    session: &mut Session,
    place: &Place,
    new: &SnapshotContents,
) -> Result<(), AssertError>
    ensures ok { OnOk result (keep_step (inline_key (place_of place.now)) new.now
        (session_of session.old) ≡ Ok (session_of session.new)) }
    ensures err { IfErr result (λ e. RefusedAs e (keep_step (inline_key (place_of place.now)) new.now
        (session_of session.old))) }
    ensures same { OnErr result (session_of session.new ≡ session_of session.old) }
{
    if !session.is_open() {
        return Ok(());
    }
    let key = inline_key(alloc, place)?;
    keep_in_block(alloc, session, key, new)
}
