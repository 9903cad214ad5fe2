//! What an assertion leaves in the store.
ghost use Rattle.std.specs.Prelude.{◌≡◌, ◌∷◌, [], Some, IfErr, OnOk};
ghost use Rattle.std.specs.FinMap.{remove};
ghost use Rattle.snap_io.specs.Files.{Files};
ghost use Rattle.snap_io.specs.Changes.{Change.removes};
ghost use Rattle.snap_io.specs.Outside.{Becomes};
ghost use Rattle.snap_io.specs.StandsAfter.{StandsAfter};
ghost use Rattle.snap_assert.specs.Outcomes.{WorkCause};
ghost use Rattle.snap_assert.specs.Halts.{named_by};
ghost use Rattle.snap_assert.specs.Kept.{KeptWith, IsTakenAlone, NamesOwn, NamesOnly};
ghost use Rattle.snap_assert.specs.Settling.{leaving, writing};
ghost use Rattle.snap_assert.specs.Steps.{Asked, cleared, step, written};
ghost use Rattle.snap_assert.specs.Subjects.{extension_in};
ghost use Rattle.snap_assert.specs.Prepared.{IsPrepared};
ghost use Rattle.snap_assert_settings.specs.declared.config.Update.TheVariants.{InPlace, NewFile};

use crate::error::AssertError;
use crate::prepare::Prepared;
use snap_assert_settings::config::{Config, Update};
use snap_io::Store;
use snap_store::named;
use std::alloc::Global;

/// Removes the pending snapshot of the tree that now passed.
fn approve<S: Store>(alloc: Global, store: &mut S, prepared: &Prepared) -> Result<(), AssertError>
    ensures ok { OnOk result (Becomes (S.files store.old) (S.files store.new)
        (λ m. remove m prepared.now.pending)) }
    ensures kept { IsTakenAlone prepared.now.pending (S.files store.old) (S.files store.new) }
    ensures named { NamesOnly prepared.now.pending result }
    ensures halted { IfErr result (λ e. StandsAfter (removes prepared.now.pending ∷ [])
        (named_by e) (S.files store.old) (S.files store.new)) }
    ensures cause { WorkCause (S.faults store.old) (S.faults store.new) result }
{
    named::remove(alloc, store, &prepared.pending)?;
    Ok(())
}

/// Writes the snapshot as the approved one.
fn update<S: Store>(alloc: Global, store: &mut S, prepared: &Prepared) -> Result<(), AssertError>
    ensures ok { OnOk result ((asked : Asked) → IsPrepared asked prepared.now
        → Becomes (S.files store.old) (S.files store.new) (written InPlace asked)) }
    ensures kept { (asked : Asked) → IsPrepared asked prepared.now
        → KeptWith (extension_in asked.subject) InPlace asked.path (S.files store.old)
        (S.files store.new) }
    ensures named { (asked : Asked) → IsPrepared asked prepared.now
        → NamesOwn InPlace asked.path result }
    ensures halted { IfErr result (λ e. (asked : Asked) → IsPrepared asked prepared.now
        → StandsAfter (writing InPlace asked) (named_by e) (S.files store.old)
        (S.files store.new)) }
    ensures cause { WorkCause (S.faults store.old) (S.faults store.new) result }
{
    prepared.snapshot.save(alloc, store, &prepared.path)?;
    Ok(())
}

/// Writes the snapshot beside the approved one, as the pending one.
fn postpone<S: Store>(alloc: Global, store: &mut S, prepared: &Prepared) -> Result<(), AssertError>
    ensures ok { OnOk result ((asked : Asked) → IsPrepared asked prepared.now
        → Becomes (S.files store.old) (S.files store.new) (written NewFile asked)) }
    ensures kept { (asked : Asked) → IsPrepared asked prepared.now
        → KeptWith (extension_in asked.subject) NewFile asked.path (S.files store.old)
        (S.files store.new) }
    ensures named { (asked : Asked) → IsPrepared asked prepared.now
        → NamesOwn NewFile asked.path result }
    ensures halted { IfErr result (λ e. (asked : Asked) → IsPrepared asked prepared.now
        → StandsAfter (writing NewFile asked) (named_by e) (S.files store.old)
        (S.files store.new)) }
    ensures cause { WorkCause (S.faults store.old) (S.faults store.new) result }
{
    prepared.snapshot.save_new(alloc, store, &prepared.path)?;
    Ok(())
}

/// Writes the snapshot where the mode says, and nowhere else.
fn write_by<S: Store>(
    alloc: Global,
    store: &mut S,
    mode: Update,
    prepared: &Prepared,
) -> Result<(), AssertError>
    ensures ok { OnOk result ((asked : Asked) → IsPrepared asked prepared.now
        → Becomes (S.files store.old) (S.files store.new) (written mode asked)) }
    ensures kept { (asked : Asked) → IsPrepared asked prepared.now
        → KeptWith (extension_in asked.subject) mode asked.path (S.files store.old)
        (S.files store.new) }
    ensures named { (asked : Asked) → IsPrepared asked prepared.now
        → NamesOwn mode asked.path result }
    ensures halted { IfErr result (λ e. (asked : Asked) → IsPrepared asked prepared.now
        → StandsAfter (writing mode asked) (named_by e) (S.files store.old)
        (S.files store.new)) }
    ensures cause { WorkCause (S.faults store.old) (S.faults store.new) result }
{
    match mode {
        Update::InPlace => update(alloc, store, prepared),
        Update::NewFile => postpone(alloc, store, prepared),
        Update::NoUpdate => Ok(()),
    }
}

/// Leaves the store as the mode says, once the strays are gone. On a pass the pending snapshot goes; where the tree did not pass, and
/// on a pass that is forced, it is written as the mode says. Whatever is returned, no other file is written, and none removed but what
/// is pending.
pub fn settle<S: Store>(
    alloc: Global,
    store: &mut S,
    config: &Config,
    prepared: &Prepared,
    passed: bool,
) -> Result<(), AssertError>
    ensures ok { OnOk result ((asked : Asked) (m : Files) → IsPrepared asked prepared.now
        → S.files store.old ≡ Some (cleared asked.path m)
        → S.files store.new
        ≡ Some (step config.now.update config.now.force_update asked passed m)) }
    ensures kept { (asked : Asked) → IsPrepared asked prepared.now
        → KeptWith (extension_in asked.subject) config.now.update asked.path (S.files store.old)
        (S.files store.new) }
    ensures named { (asked : Asked) → IsPrepared asked prepared.now
        → NamesOwn config.now.update asked.path result }
    ensures halted { IfErr result (λ e. (asked : Asked) → IsPrepared asked prepared.now
        → StandsAfter (leaving config.now.update config.now.force_update asked passed) (named_by e)
        (S.files store.old) (S.files store.new)) }
    ensures cause { WorkCause (S.faults store.old) (S.faults store.new) result }
{
    if !passed {
        return write_by(alloc, store, config.update, prepared);
    }
    approve(alloc, store, prepared)?;
    if config.force_update {
        write_by(alloc, store, config.update, prepared)
    } else {
        Ok(())
    }
}
