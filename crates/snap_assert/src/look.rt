//! What stands in the store: whether the tree passes, and what is to go.
ghost use Rattle.std.specs.Prelude.{◌≡◌, Option, Some, IfErr, IfOk, OnOk, List, ℕ, map};
ghost use Rattle.snap_io.specs.Files.{Files};
ghost use Rattle.snap_io.specs.Changes.{all_changed, Change.removes};
ghost use Rattle.snap_io.specs.Outside.{Given, Becomes};
ghost use Rattle.snap_assert.specs.Halts.{FaultIsLook, HaltsBy, PassesAgainst};
ghost use Rattle.snap_assert.specs.Outcomes.{WorkCause};
ghost use Rattle.snap_assert.specs.Steps.{Asked, cleared};
ghost use Rattle.snap_assert.specs.Relations.{asked_relation};
ghost use Rattle.snap_assert.specs.Prepared.{IsPrepared, IsJudged, IsSeen};
ghost use Rattle.snap_assert.specs.Kept.{KeptWith, NamesOwn};
ghost use Rattle.snap_assert.specs.Listed.{IsCovered, IsCoveredAt, IsKnown};
ghost use Rattle.snap_assert.specs.Strays.{AllStray, AreStrays};
ghost use Rattle.snap_assert.specs.Subjects.{extension_in};
ghost use Rattle.snap_assert_settings.specs.declared.config.Config.{Config};
ghost use Rattle.snap_assert_settings.specs.declared.config.Update.{Update};

use crate::comparator::Comparator;
use crate::error::AssertError;
use crate::judge::{Judged, judge_file};
use crate::listed::Listed;
use crate::prepare::Prepared;
use crate::removal::clear;
use snap_content::Text;
use snap_io::Store;
use std::alloc::Global;

/// Whether the tree passes, what is to be said of the file, and the paths that are to go.
#[derive(Drop)]
pub struct Seen {
    pub judged: Judged,
    pub strays: Vec<Text>,
}

/// Reads the file of the snapshot, compares by the comparator, and lists its folder, where that was not done before. Nothing is changed.
fn look<S: Store, C: Comparator>(
    alloc: Global,
    listed: &mut Listed,
    store: &mut S,
    comparator: &C,
    fully: bool,
    prepared: &Prepared,
) -> Result<Seen, AssertError>
    ensures seen { IfOk result (λ seen. (asked : Asked) → IsPrepared asked prepared.now
        → Given (S.files store.old) (λ m. IsCovered m listed.old → IsSeen
        (asked_relation (C.agrees comparator.now) (C.agrees_fully comparator.now) fully)
        asked m seen)) }
    ensures covered { OnOk result (Given (S.files store.old)
        (λ m. IsCovered m listed.old → IsCovered m listed.new)) }
    ensures strays { IfOk result (λ seen. (asked : Asked) → IsPrepared asked prepared.now
        → AllStray asked.path seen.strays.items) }
    ensures same { S.files store.new ≡ S.files store.old }
    ensures named { (asked : Asked) (mode : Update) → IsPrepared asked prepared.now
        → NamesOwn mode asked.path result }
    ensures looked { IfErr result (λ e. (asked : Asked) → IsPrepared asked prepared.now
        → FaultIsLook asked.path (S.files store.old) e) }
    ensures cause { WorkCause (S.faults store.old) (S.faults store.new) result }
{
    let judged = judge_file(alloc, store, comparator, fully, prepared)?;
    let strays = listed.stray_paths(store, &prepared.folder, &prepared.path)?;
    Ok(Seen { judged, strays })
}

/// Reads the file of the snapshot and compares by the comparator, and then removes the strays. No file is written, and none removed but strays.
pub fn look_and_clear<S: Store, C: Comparator>(
    alloc: Global,
    listed: &mut Listed,
    store: &mut S,
    comparator: &C,
    fully: bool,
    prepared: &Prepared,
) -> Result<Judged, AssertError>
    ensures judged { IfOk result (λ judged. (asked : Asked) → IsPrepared asked prepared.now
        → Given (S.files store.old) (λ m. IsCovered m listed.old → IsJudged
        (asked_relation (C.agrees comparator.now) (C.agrees_fully comparator.now) fully)
        asked m judged)) }
    ensures cleared { OnOk result ((asked : Asked) → IsPrepared asked prepared.now → (m : Files)
        → S.files store.old ≡ Some m → IsCovered m listed.old
        → S.files store.new ≡ Some (cleared asked.path m)) }
    ensures covered { OnOk result ((asked : Asked) → IsPrepared asked prepared.now
        → Given (S.files store.old) (λ m. IsCovered m listed.old
        → IsCoveredAt asked.path (cleared asked.path m) listed.new)) }
    ensures kept { (asked : Asked) (mode : Update) → IsPrepared asked prepared.now
        → KeptWith (extension_in asked.subject) mode asked.path (S.files store.old)
        (S.files store.new) }
    ensures named { (asked : Asked) (mode : Update) → IsPrepared asked prepared.now
        → NamesOwn mode asked.path result }
    ensures gone { IfOk result (λ judged. (strays : List (List ℕ))
        × ((asked : Asked) → IsPrepared asked prepared.now → AllStray asked.path strays)
        × ((asked : Asked) → IsPrepared asked prepared.now → Given (S.files store.old)
        (λ m. IsCovered m listed.old → AreStrays asked.path m strays))
        × Becomes (S.files store.old) (S.files store.new) (all_changed (map removes strays))) }
    ensures halted { IfErr result (λ e. (asked : Asked) → IsPrepared asked prepared.now
        → (config : Config) (known : Option Files) → IsKnown known (S.files store.old) listed.old
        → HaltsBy (PassesAgainst
        (asked_relation (C.agrees comparator.now) (C.agrees_fully comparator.now) fully) asked)
        config asked e known (S.files store.new)) }
    ensures cause { WorkCause (S.faults store.old) (S.faults store.new) result }
{
    let seen = look(alloc, listed, store, comparator, fully, prepared)?;
    clear(alloc, listed, store, prepared, &seen.strays)?;
    Ok(seen.judged)
}
