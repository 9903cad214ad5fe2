//! One assertion over a store.
ghost use Rattle.std.specs.Prelude.{◌≡◌, ◌⊎◌, ◌&&◌, not, Ok, Err, None, Some, Option, IfOk, IfErr, OnOk, option_copied};
ghost use Rattle.snap_content.specs.Tree.{Tree};
ghost use Rattle.snap_content.specs.View.{tree};
ghost use Rattle.snap_assert.specs.Outcomes.{IsAnswered, IsStopped, IsUnprinted, AssertCause};
ghost use Rattle.snap_assert.specs.Assertions.{assertion_of, assertion_about, key_under, new_contents};
ghost use Rattle.snap_assert.specs.Blocks.{keep_step};
ghost use Rattle.snap_assert.specs.Halts.{HaltsBy, IsHalted, IsHaltedBy, IsUnbegun, PassesAgainst, named_by};
ghost use Rattle.snap_assert.specs.Kept.{KeptBy, KeptWith, NamesOwn};
ghost use Rattle.snap_assert.specs.Listed.{IsCovered, IsKnown, StaysCovered};
ghost use Rattle.snap_assert.specs.Names.{Named, name_step};
ghost use Rattle.snap_assert.specs.Session.{session_of};
ghost use Rattle.snap_assert.specs.Settling.{leaving};
ghost use Rattle.snap_assert_settings.specs.Settings.{settings_of, PrintsAs};
ghost use Rattle.snap_assert_place.specs.Place.{place_of};
ghost use Rattle.snap_assert_place.specs.SnapshotPath.{path_of};
ghost use Rattle.snap_io.specs.Files.{Files};
ghost use Rattle.snap_io.specs.Outside.{Given, Becomes};
ghost use Rattle.snap_io.specs.StandsAfter.{StandsAfter};
ghost use Rattle.snap_print.specs.Blocks.{blocks_if};
ghost use Rattle.snap_store.specs.Views.{contents_in};
ghost use Rattle.snap_assert.specs.Compared.{IsDoneBy, IsAnsweredBy};
ghost use Rattle.snap_assert.specs.Relations.{asked_relation};
ghost use Rattle.snap_assert.specs.Prepared.{IsPrepared, IsSettled, KeepStops};
ghost use Rattle.snap_assert.specs.Steps.{Asked, asked_for, cleared, step, verdict_of, is_failure};
ghost use Rattle.snap_assert.specs.Subjects.{Subject, contents_of, extension_in, IsHeld};
ghost use Rattle.snap_assert.specs.declared.error.AssertError.{AssertError};

use crate::comparator::Comparator;
use crate::default::DefaultComparator;
use crate::error::AssertError;
use crate::judge::Judged;
use crate::kept::keep;
use crate::listed::Listed;
use crate::look::look_and_clear;
use crate::names::take_name;
use crate::outcome::{Outcome, Verdict};
use crate::prepare::{Asserted, Prepared, asserted_tree, prepare};
use crate::session::Session;
use crate::settle::settle;
use snap_assert_place::place::Place;
use snap_assert_settings::config::{Config, Update};
use snap_assert_settings::settings::Settings;
use snap_content::{Content, Text};
use snap_io::Store;
use snap_select::Redactor;
use std::alloc::Global;

/// The verdict of an assertion.
pub(crate) fn verdict(mode: Update, passed: bool) -> Verdict
    ensures { result ≡ verdict_of mode passed }
{
    if passed {
        return Verdict::Passed;
    }
    match mode {
        Update::InPlace => Verdict::Updated,
        Update::NewFile => Verdict::Pending,
        Update::NoUpdate => Verdict::Rejected,
    }
}

/// Whether the verdict fails a run.
pub(crate) fn fails(verdict: Verdict, force_pass: bool) -> bool
    ensures { result ≡ (is_failure verdict && not force_pass) }
{
    match verdict {
        Verdict::Passed | Verdict::Updated => false,
        Verdict::Pending | Verdict::Rejected => !force_pass,
    }
}

/// Asks the innermost block of duplicates, and then leaves the store as the mode says.
fn keep_and_settle<S: Store>(
    alloc: Global,
    session: &mut Session,
    store: &mut S,
    config: &Config,
    place: &Place,
    name: &Text,
    prepared: &Prepared,
    passed: bool,
) -> Result<(), AssertError>
    ensures ok { OnOk result ((asked : Asked) (m : Files) → IsPrepared asked prepared.now
        → S.files store.old ≡ Some (cleared asked.path m)
        → S.files store.new
        ≡ Some (step config.now.update config.now.force_update asked passed m)) }
    ensures remembered { OnOk result (keep_step (key_under (place_of place.now) name.now)
        (contents_in prepared.now.snapshot) (session_of session.old)
        ≡ Ok (session_of session.new)) }
    ensures stopped { IfErr result (λ e. KeepStops (S.files store.new ≡ S.files store.old)
        (keep_step (key_under (place_of place.now) name.now) (contents_in prepared.now.snapshot)
        (session_of session.old)) (session_of session.old) (session_of session.new) e) }
    ensures kept { (asked : Asked) → IsPrepared asked prepared.now
        → KeptWith (extension_in asked.subject) config.now.update asked.path (S.files store.old) (S.files store.new) }
    ensures named { (asked : Asked) → IsPrepared asked prepared.now
        → NamesOwn config.now.update asked.path result }
    ensures halted { IfErr result (λ e. (asked : Asked) → IsPrepared asked prepared.now
        → StandsAfter (leaving config.now.update config.now.force_update asked passed) (named_by e)
        (S.files store.old) (S.files store.new)) }
    ensures cause { AssertCause (S.faults store.old) (S.faults store.new) result }
{
    keep(alloc, session, place, name, prepared.snapshot.contents())?;
    settle(alloc, store, config, prepared, passed)
}

/// Reads, lists and compares, removes the strays, asks the innermost block of duplicates, and then leaves the store as the mode says.
fn assert_prepared<S: Store, C: Comparator>(
    alloc: Global,
    session: &mut Session,
    listed: &mut Listed,
    store: &mut S,
    config: &Config,
    comparator: &C,
    place: &Place,
    name: &Text,
    prepared: &Prepared,
) -> Result<Judged, AssertError>
    ensures settled { IfOk result (λ judged. (asked : Asked) → IsPrepared asked prepared.now
        → Given (S.files store.old) (λ m. IsCovered m listed.old
        → IsSettled (asked_relation (C.agrees comparator.now) (C.agrees_fully comparator.now)
        config.now.require_full_match) config.now asked m judged (S.files store.new))) }
    ensures covered { OnOk result ((asked : Asked) → IsPrepared asked prepared.now
        → extension_in asked.subject ≡ None → StaysCovered (S.files store.old) (S.files store.new) listed.old listed.new) }
    ensures remembered { OnOk result ((asked : Asked) → IsPrepared asked prepared.now
        → keep_step (key_under (place_of place.now) name.now) (new_contents asked)
        (session_of session.old)
        ≡ Ok (session_of session.new)) }
    ensures stopped { IfErr result (λ e. (asked : Asked) → IsPrepared asked prepared.now
        → (known : Option Files) → IsKnown known (S.files store.old) listed.old
        → KeepStops (Becomes known (S.files store.new) (cleared asked.path))
        (keep_step (key_under (place_of place.now) name.now) (new_contents asked)
        (session_of session.old)) (session_of session.old) (session_of session.new) e) }
    ensures kept { (asked : Asked) → IsPrepared asked prepared.now
        → KeptWith (extension_in asked.subject) config.now.update asked.path (S.files store.old) (S.files store.new) }
    ensures named { (asked : Asked) → IsPrepared asked prepared.now
        → NamesOwn config.now.update asked.path result }
    ensures halted { IfErr result (λ e. (asked : Asked) → IsPrepared asked prepared.now
        → (known : Option Files) → IsKnown known (S.files store.old) listed.old
        → HaltsBy (PassesAgainst (asked_relation (C.agrees comparator.now) (C.agrees_fully comparator.now)
        config.now.require_full_match) asked) config.now asked e known (S.files store.new)) }
    ensures cause { AssertCause (S.faults store.old) (S.faults store.new) result }
{
    let judged = look_and_clear(
        alloc,
        listed,
        store,
        comparator,
        config.require_full_match,
        prepared,
    )?;
    keep_and_settle(
        alloc,
        session,
        store,
        config,
        place,
        name,
        prepared,
        judged.passed,
    )?;
    Ok(judged)
}

/// Asserts it under the name that is taken, with all that is written ready before the store is touched.
fn assert_named<S: Store, C: Comparator>(
    alloc: Global,
    session: &mut Session,
    listed: &mut Listed,
    store: &mut S,
    config: &Config,
    comparator: &C,
    settings: &Settings,
    place: &Place,
    name: &Text,
    asserted: Asserted,
) -> Result<Outcome, AssertError>
    ensures done { IfOk result (λ outcome. (subject : Subject) → IsHeld subject asserted
        → (known : Option Files) → IsKnown known (S.files store.old) listed.old → IsDoneBy
        (asked_relation (C.agrees comparator.now) (C.agrees_fully comparator.now)
        config.now.require_full_match) config.now
        (asked_for (settings_of settings.now) (place_of place.now) name.now subject) outcome
        known (S.files store.new)) }
    ensures covered { OnOk result ((subject : Subject) → IsHeld subject asserted
        → extension_in subject ≡ None → StaysCovered (S.files store.old) (S.files store.new) listed.old listed.new) }
    ensures remembered { OnOk result ((subject : Subject) → IsHeld subject asserted
        → keep_step (key_under (place_of place.now) name.now) (contents_of subject)
        (session_of session.old)
        ≡ Ok (session_of session.new)) }
    ensures stopped { IfErr result (λ e. (subject : Subject) → IsHeld subject asserted
        → (known : Option Files) → IsKnown known (S.files store.old) listed.old → KeepStops
        (Becomes known (S.files store.new)
        (cleared (path_of (settings_of settings.now) (place_of place.now) name.now)))
        (keep_step (key_under (place_of place.now) name.now) (contents_of subject)
        (session_of session.old)) (session_of session.old) (session_of session.new) e) }
    ensures kept { (subject : Subject) → IsHeld subject asserted → KeptWith (extension_in subject) config.now.update
        (path_of (settings_of settings.now) (place_of place.now) name.now)
        (S.files store.old) (S.files store.new) }
    ensures named { (subject : Subject) → IsHeld subject asserted → NamesOwn config.now.update
        (path_of (settings_of settings.now) (place_of place.now) name.now) result }
    ensures halted { IfErr result (λ e. (subject : Subject) → IsHeld subject asserted
        → (known : Option Files) → IsKnown known (S.files store.old) listed.old
        → HaltsBy (PassesAgainst (asked_relation (C.agrees comparator.now) (C.agrees_fully comparator.now)
        config.now.require_full_match)
        (asked_for (settings_of settings.now) (place_of place.now) name.now subject)) config.now
        (asked_for (settings_of settings.now) (place_of place.now) name.now subject) e known
        (S.files store.new)) }
    ensures cause { AssertCause (S.faults store.old) (S.faults store.new) result }
{
    let prepared = prepare(alloc, settings, place, name, asserted)?;
    let judged = assert_prepared(
        alloc, session, listed, store, config, comparator, place, name, &prepared,
    );
    let path = prepared.into_path();
    let judged = judged?;
    let verdict = verdict(config.update, judged.passed);
    Ok(Outcome {
        verdict,
        path,
        warnings: judged.warnings,
        fails: fails(verdict, config.force_pass),
    })
}

/// Takes the name, and asserts it under that.
pub(crate) fn assert_any<S: Store, C: Comparator>(
    alloc: Global,
    session: &mut Session,
    listed: &mut Listed,
    store: &mut S,
    config: &Config,
    comparator: &C,
    settings: &Settings,
    place: &Place,
    given: Option<&Text>,
    asserted: Asserted,
) -> Result<Outcome, AssertError>
    ensures answered { IfOk result (λ outcome. (subject : Subject) → IsHeld subject asserted
        → (known : Option Files) → IsKnown known (S.files store.old) listed.old → IsAnsweredBy
        (asked_relation (C.agrees comparator.now) (C.agrees_fully comparator.now)
        config.now.require_full_match) config.now
        (assertion_about (settings_of settings.now) (place_of place.now)
        (option_copied given.entry) subject) outcome
        known (S.files store.new) (session_of session.old) (session_of session.new)) }
    ensures stopped { IfErr result (λ e. (subject : Subject) → IsHeld subject asserted
        → (known : Option Files) → IsKnown known (S.files store.old) listed.old → IsStopped
        (assertion_about (settings_of settings.now) (place_of place.now)
        (option_copied given.entry) subject) e
        known (S.files store.new) (session_of session.old) (session_of session.new)) }
    ensures covered { OnOk result ((subject : Subject) → IsHeld subject asserted
        → extension_in subject ≡ None → StaysCovered (S.files store.old) (S.files store.new) listed.old listed.new) }
    ensures kept { (subject : Subject) → IsHeld subject asserted → (named : Named)
        → name_step (settings_of settings.now) (place_of place.now)
        (option_copied given.entry) (session_of session.old) ≡ Ok named
        → KeptWith (extension_in subject) config.now.update
        (path_of (settings_of settings.now) (place_of place.now) named.name)
        (S.files store.old) (S.files store.new) }
    ensures named { (subject : Subject) → IsHeld subject asserted → (named : Named)
        → name_step (settings_of settings.now) (place_of place.now)
        (option_copied given.entry) (session_of session.old) ≡ Ok named
        → NamesOwn config.now.update
        (path_of (settings_of settings.now) (place_of place.now) named.name) result }
    ensures untouched { (error : AssertError) → name_step (settings_of settings.now)
        (place_of place.now) (option_copied given.entry) (session_of session.old) ≡ Err error
        → store.new ≡ store.old }
    ensures halted { IfErr result (λ e. (subject : Subject) → IsHeld subject asserted
        → (known : Option Files) → IsKnown known (S.files store.old) listed.old
        → IsHaltedBy (asked_relation (C.agrees comparator.now) (C.agrees_fully comparator.now)
        config.now.require_full_match) config.now
        (assertion_about (settings_of settings.now) (place_of place.now)
        (option_copied given.entry) subject) e known (S.files store.new) (session_of session.old)) }
    ensures cause { AssertCause (S.faults store.old) (S.faults store.new) result }
{
    match take_name(alloc, session, settings, place, given) {
        Ok(name) => {
            let outcome = assert_named(
                alloc, session, listed, store, config, comparator, settings, place, &name, asserted,
            );
            drop(name);
            outcome
        }
        Err(error) => {
            drop(asserted);
            Err(error)
        }
    }
}

/// Asserts the tree by the comparator, as the settings print it.
pub(crate) fn assert_sorted<S: Store, C: Comparator>(
    alloc: Global,
    session: &mut Session,
    listed: &mut Listed,
    store: &mut S,
    config: &Config,
    comparator: &C,
    settings: &Settings,
    place: &Place,
    name: Option<&Text>,
    content: Content,
) -> Result<Outcome, AssertError>
    ensures answered { IfOk result (λ outcome. (printed : Tree)
        × PrintsAs (λ v. (⟦<dyn Redactor as Redactor>⟧ v).allows) settings.now (tree content) printed
        × ((known : Option Files) → IsKnown known (S.files store.old) listed.old
        → IsAnsweredBy
        (asked_relation (C.agrees comparator.now) (C.agrees_fully comparator.now)
        config.now.require_full_match) config.now (assertion_of (blocks_if config.now.literal)
        (settings_of settings.now) (place_of place.now) (option_copied name.entry) printed) outcome
        known (S.files store.new) (session_of session.old) (session_of session.new))) }
    ensures stopped { IfErr result (λ e. IsUnprinted e (session_of session.old)
        (session_of session.new) ⊎ ((printed : Tree)
        × PrintsAs (λ v. (⟦<dyn Redactor as Redactor>⟧ v).allows) settings.now (tree content) printed
        × ((known : Option Files) → IsKnown known (S.files store.old) listed.old
        → IsStopped (assertion_of (blocks_if config.now.literal) (settings_of settings.now)
        (place_of place.now) (option_copied name.entry) printed) e
        known (S.files store.new) (session_of session.old) (session_of session.new)))) }
    // What is known of the store's folders goes on with the files of the step.
    ensures covered { OnOk result (StaysCovered (S.files store.old) (S.files store.new) listed.old
        listed.new) }
    // Whatever is returned: no file is written but the one of the mode, so the approved one only in place.
    ensures kept { (named : Named) → name_step (settings_of settings.now) (place_of place.now)
        (option_copied name.entry) (session_of session.old) ≡ Ok named
        → KeptBy config.now.update
        (path_of (settings_of settings.now) (place_of place.now) named.name)
        (S.files store.old) (S.files store.new) }
    ensures named { (named : Named) → name_step (settings_of settings.now) (place_of place.now)
        (option_copied name.entry) (session_of session.old) ≡ Ok named
        → NamesOwn config.now.update
        (path_of (settings_of settings.now) (place_of place.now) named.name) result }
    ensures untouched { (error : AssertError) → name_step (settings_of settings.now)
        (place_of place.now) (option_copied name.entry) (session_of session.old) ≡ Err error
        → store.new ≡ store.old }
    // After a fault, and out of memory: of the changes those before one are done, and none behind it was begun.
    ensures halted { IfErr result (λ e. IsUnbegun e (S.files store.old) (S.files store.new)
        ⊎ ((printed : Tree)
        × PrintsAs (λ v. (⟦<dyn Redactor as Redactor>⟧ v).allows) settings.now (tree content) printed
        × ((known : Option Files) → IsKnown known (S.files store.old) listed.old
        → IsHaltedBy (asked_relation (C.agrees comparator.now) (C.agrees_fully comparator.now)
        config.now.require_full_match) config.now
        (assertion_of (blocks_if config.now.literal)
        (settings_of settings.now) (place_of place.now) (option_copied name.entry) printed) e
        known (S.files store.new) (session_of session.old)))) }
    ensures cause { AssertCause (S.faults store.old) (S.faults store.new) result }
{
    match asserted_tree(alloc, settings, content, config.literal) {
        Ok(asserted) => assert_any(
            alloc, session, listed, store, config, comparator, settings, place, name, asserted,
        ),
        Err(_) => Err(AssertError::OutOfMemory),
    }
}

/// Asserts as `assert_content` does, for a caller that keeps what is known of the store from one assertion to the next: a folder that
/// was listed is not listed again.
///
/// That serves where nothing but these calls changes the store's files in between. Where something else may, `assert_content` lists anew.
/// After an error what is known is of no use: a caller that goes on begins with a new one.
pub fn assert_listed<S: Store>(
    alloc: Global,
    session: &mut Session,
    listed: &mut Listed,
    store: &mut S,
    config: &Config,
    settings: &Settings,
    place: &Place,
    name: Option<&Text>,
    content: Content,
) -> Result<Outcome, AssertError>
    ensures answered { IfOk result (λ outcome. (printed : Tree)
        × PrintsAs (λ v. (⟦<dyn Redactor as Redactor>⟧ v).allows) settings.now (tree content) printed
        × ((known : Option Files) → IsKnown known (S.files store.old) listed.old
        → IsAnswered config.now (assertion_of (blocks_if config.now.literal)
        (settings_of settings.now) (place_of place.now) (option_copied name.entry) printed) outcome
        known (S.files store.new) (session_of session.old) (session_of session.new))) }
    ensures stopped { IfErr result (λ e. IsUnprinted e (session_of session.old)
        (session_of session.new) ⊎ ((printed : Tree)
        × PrintsAs (λ v. (⟦<dyn Redactor as Redactor>⟧ v).allows) settings.now (tree content) printed
        × ((known : Option Files) → IsKnown known (S.files store.old) listed.old
        → IsStopped (assertion_of (blocks_if config.now.literal) (settings_of settings.now)
        (place_of place.now) (option_copied name.entry) printed) e
        known (S.files store.new) (session_of session.old) (session_of session.new)))) }
    // What is known of the store's folders goes on with the files of the step.
    ensures covered { OnOk result (StaysCovered (S.files store.old) (S.files store.new) listed.old
        listed.new) }
    // Whatever is returned: no file is written but the one of the mode, so the approved one only in place.
    ensures kept { (named : Named) → name_step (settings_of settings.now) (place_of place.now)
        (option_copied name.entry) (session_of session.old) ≡ Ok named
        → KeptBy config.now.update
        (path_of (settings_of settings.now) (place_of place.now) named.name)
        (S.files store.old) (S.files store.new) }
    ensures named { (named : Named) → name_step (settings_of settings.now) (place_of place.now)
        (option_copied name.entry) (session_of session.old) ≡ Ok named
        → NamesOwn config.now.update
        (path_of (settings_of settings.now) (place_of place.now) named.name) result }
    ensures untouched { (error : AssertError) → name_step (settings_of settings.now)
        (place_of place.now) (option_copied name.entry) (session_of session.old) ≡ Err error
        → store.new ≡ store.old }
    // After a fault, and out of memory: of the changes those before one are done, and none behind it was begun.
    ensures halted { IfErr result (λ e. IsUnbegun e (S.files store.old) (S.files store.new)
        ⊎ ((printed : Tree)
        × PrintsAs (λ v. (⟦<dyn Redactor as Redactor>⟧ v).allows) settings.now (tree content) printed
        × ((known : Option Files) → IsKnown known (S.files store.old) listed.old
        → IsHalted config.now (assertion_of (blocks_if config.now.literal)
        (settings_of settings.now) (place_of place.now) (option_copied name.entry) printed) e
        known (S.files store.new) (session_of session.old)))) }
    ensures cause { AssertCause (S.faults store.old) (S.faults store.new) result }
{
    assert_sorted(
        alloc,
        session,
        listed,
        store,
        config,
        &DefaultComparator,
        settings,
        place,
        name,
        content,
    )
}

/// Asserts that the tree, redacted, is that of the snapshot of its name, by what the file of that holds.
///
/// A given name gets the suffix of the settings. Without one the name is that of the function, from its second use on with a number; in a
/// doctest that is refused. Where a block of duplicates is open, contents that differ from those that the innermost block keeps for the module and the name are
/// refused. Texts of several lines are printed as literal blocks where the configuration asks for it.
/// Where it requires a full match, the default comparator's is asked: the metadata count too.
///
/// Whatever is returned, the approved file is written in place alone, and the pending one in the mode `new` alone;
/// what was pending may be gone. Where no name is taken, neither the session nor the store is changed.
///
/// After `FileIo`, and out of memory, nothing is changed, or of the changes (each stray removed, in the order of their bytes, on a pass the
/// pending snapshot removed, and then what the mode writes) those before one are done, that one is in doubt, and none behind it was
/// begun. A fault names what it stopped at.
pub fn assert_content<S: Store>(
    alloc: Global,
    session: &mut Session,
    store: &mut S,
    config: &Config,
    settings: &Settings,
    place: &Place,
    name: Option<&Text>,
    content: Content,
) -> Result<Outcome, AssertError>
    ensures answered { IfOk result (λ outcome. (printed : Tree)
        × PrintsAs (λ v. (⟦<dyn Redactor as Redactor>⟧ v).allows) settings.now (tree content) printed
        × IsAnswered config.now (assertion_of (blocks_if config.now.literal)
        (settings_of settings.now) (place_of place.now) (option_copied name.entry) printed) outcome
        (S.files store.old) (S.files store.new) (session_of session.old) (session_of session.new)) }
    ensures stopped { IfErr result (λ e. IsUnprinted e (session_of session.old)
        (session_of session.new) ⊎ ((printed : Tree)
        × PrintsAs (λ v. (⟦<dyn Redactor as Redactor>⟧ v).allows) settings.now (tree content) printed
        × IsStopped (assertion_of (blocks_if config.now.literal) (settings_of settings.now)
        (place_of place.now) (option_copied name.entry) printed) e
        (S.files store.old) (S.files store.new) (session_of session.old) (session_of session.new))) }
    // Whatever is returned: no file is written but the one of the mode, so the approved one only in place.
    ensures kept { (named : Named) → name_step (settings_of settings.now) (place_of place.now)
        (option_copied name.entry) (session_of session.old) ≡ Ok named
        → KeptBy config.now.update
        (path_of (settings_of settings.now) (place_of place.now) named.name)
        (S.files store.old) (S.files store.new) }
    ensures named { (named : Named) → name_step (settings_of settings.now) (place_of place.now)
        (option_copied name.entry) (session_of session.old) ≡ Ok named
        → NamesOwn config.now.update
        (path_of (settings_of settings.now) (place_of place.now) named.name) result }
    ensures untouched { (error : AssertError) → name_step (settings_of settings.now)
        (place_of place.now) (option_copied name.entry) (session_of session.old) ≡ Err error
        → store.new ≡ store.old }
    // After a fault, and out of memory: of the changes those before one are done, and none behind it was begun.
    ensures halted { IfErr result (λ e. IsUnbegun e (S.files store.old) (S.files store.new)
        ⊎ ((printed : Tree)
        × PrintsAs (λ v. (⟦<dyn Redactor as Redactor>⟧ v).allows) settings.now (tree content) printed
        × IsHalted config.now (assertion_of (blocks_if config.now.literal)
        (settings_of settings.now) (place_of place.now) (option_copied name.entry) printed) e
        (S.files store.old) (S.files store.new) (session_of session.old))) }
    ensures cause { AssertCause (S.faults store.old) (S.faults store.new) result }
{
    let mut listed = Listed::new(alloc);
    let outcome = assert_listed(
        alloc,
        session,
        &mut listed,
        store,
        config,
        settings,
        place,
        name,
        content,
    );
    drop(listed);
    outcome
}
