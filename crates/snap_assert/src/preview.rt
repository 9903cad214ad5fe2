//! What an assertion would answer. No file is touched.
ghost use Rattle.std.specs.Prelude.{◌≡◌, ◌⊎◌, Ok, IfOk, IfErr, OnOk, option_copied};
ghost use Rattle.snap_content.specs.Tree.{Tree};
ghost use Rattle.snap_content.specs.View.{tree};
ghost use Rattle.snap_io.specs.Outside.{Given};
ghost use Rattle.snap_print.specs.Blocks.{blocks_if};
ghost use Rattle.snap_store.specs.Views.{contents_in};
ghost use Rattle.snap_assert.specs.Assertions.{assertion_of, assertion_about, key_under};
ghost use Rattle.snap_assert.specs.Default.{default_relation};
ghost use Rattle.snap_assert.specs.Blocks.{keep_step};
ghost use Rattle.snap_assert.specs.Outcomes.{AssertCause, IsUnprinted};
ghost use Rattle.snap_assert.specs.Prepared.{IsPrepared, IsJudged, KeepStops};
ghost use Rattle.snap_assert.specs.Previews.{IsForeseen, IsPreviewed, IsStoppedBefore};
ghost use Rattle.snap_assert.specs.Session.{session_of};
ghost use Rattle.snap_assert.specs.Steps.{Asked, asked_for};
ghost use Rattle.snap_assert.specs.Subjects.{Subject, contents_of, IsHeld};
ghost use Rattle.snap_assert_settings.specs.Settings.{settings_of, PrintsAs};
ghost use Rattle.snap_assert_place.specs.Place.{place_of};

use crate::default::DefaultComparator;
use crate::error::AssertError;
use crate::judge::{Judged, judge_file};
use crate::kept::keep;
use crate::names::take_name;
use crate::prepare::{Asserted, Prepared, asserted_tree, prepare};
use crate::session::Session;
use snap_assert_place::place::Place;
use snap_assert_settings::config::Config;
use snap_assert_settings::settings::Settings;
use snap_content::{Content, Text};
use snap_io::Store;
use snap_select::Redactor;
use snap_store::Snapshot;
use std::alloc::Global;

/// What an assertion would answer.
#[derive(Drop)]
pub struct Preview {
    /// The path of the snapshot.
    pub path: Text,
    /// The snapshot that would be written where the tree didn't pass.
    pub snapshot: Snapshot,
    /// Whether the tree would pass, and what is to be said of the file.
    pub judged: Judged,
}

/// What was prepared, and how the file was judged, as one answer.
fn preview_of(
    prepared: Prepared,
    judged: Result<Judged, AssertError>,
) -> Result<Preview, AssertError>
    ensures path { IfOk result (λ preview. preview.path ≡ prepared.path) }
    ensures contents { IfOk result (λ preview. contents_in preview.snapshot
        ≡ contents_in prepared.snapshot) }
    ensures judged { IfOk result (λ preview. judged ≡ Ok preview.judged) }
    ensures stopped { IfErr result (λ e. judged ≡ Err e) }
{
    let Prepared {
        path,
        folder,
        pending,
        snapshot,
    } = prepared;
    drop(folder);
    drop(pending);
    match judged {
        Ok(judged) => Ok(Preview {
            path,
            snapshot,
            judged,
        }),
        Err(error) => {
            drop(path);
            drop(snapshot);
            Err(error)
        }
    }
}

/// Asks the innermost block of duplicates, and then reads the file and compares. No file is touched.
fn keep_and_judge<S: Store>(
    alloc: Global,
    session: &mut Session,
    store: &mut S,
    fully: bool,
    place: &Place,
    name: &Text,
    prepared: &Prepared,
) -> Result<Judged, AssertError>
    ensures judged { IfOk result (λ judged. (asked : Asked) → IsPrepared asked prepared.now
        → Given (S.files store.old) (λ m. IsJudged (default_relation fully) asked m judged)) }
    ensures remembered { OnOk result (keep_step (key_under (place_of place.now) name.now)
        (contents_in prepared.now.snapshot) (session_of session.old)
        ≡ Ok (session_of session.new)) }
    ensures stopped { IfErr result (λ e. KeepStops (Unit {0})
        (keep_step (key_under (place_of place.now) name.now) (contents_in prepared.now.snapshot)
        (session_of session.old)) (session_of session.old) (session_of session.new) e) }
    ensures same { S.files store.new ≡ S.files store.old }
    ensures cause { AssertCause (S.faults store.old) (S.faults store.new) result }
{
    keep(alloc, session, place, name, prepared.snapshot.contents())?;
    judge_file(alloc, store, &DefaultComparator, fully, prepared)
}

/// What an assertion would answer under the name that is taken.
fn preview_named<S: Store>(
    alloc: Global,
    session: &mut Session,
    store: &mut S,
    config: &Config,
    settings: &Settings,
    place: &Place,
    name: &Text,
    asserted: Asserted,
) -> Result<Preview, AssertError>
    ensures foreseen { IfOk result (λ preview. (subject : Subject) → IsHeld subject asserted
        → IsForeseen config.now.require_full_match
        (asked_for (settings_of settings.now) (place_of place.now) name.now subject) preview
        (S.files store.old)) }
    ensures remembered { OnOk result ((subject : Subject) → IsHeld subject asserted
        → keep_step (key_under (place_of place.now) name.now) (contents_of subject)
        (session_of session.old)
        ≡ Ok (session_of session.new)) }
    ensures stopped { IfErr result (λ e. (subject : Subject) → IsHeld subject asserted
        → KeepStops (Unit {0})
        (keep_step (key_under (place_of place.now) name.now) (contents_of subject)
        (session_of session.old)) (session_of session.old) (session_of session.new) e) }
    ensures same { S.files store.new ≡ S.files store.old }
    ensures cause { AssertCause (S.faults store.old) (S.faults store.new) result }
{
    let prepared = prepare(alloc, settings, place, name, asserted)?;
    let judged = keep_and_judge(
        alloc,
        session,
        store,
        config.require_full_match,
        place,
        name,
        &prepared,
    );
    preview_of(prepared, judged)
}

/// Takes the name, and tells what an assertion would answer under it.
fn preview_any<S: Store>(
    alloc: Global,
    session: &mut Session,
    store: &mut S,
    config: &Config,
    settings: &Settings,
    place: &Place,
    given: Option<&Text>,
    asserted: Asserted,
) -> Result<Preview, AssertError>
    ensures previewed { IfOk result (λ preview. (subject : Subject) → IsHeld subject asserted
        → IsPreviewed config.now.require_full_match
        (assertion_about (settings_of settings.now) (place_of place.now)
        (option_copied given.entry) subject) preview
        (S.files store.old) (session_of session.old) (session_of session.new)) }
    ensures stopped { IfErr result (λ e. (subject : Subject) → IsHeld subject asserted
        → IsStoppedBefore
        (assertion_about (settings_of settings.now) (place_of place.now)
        (option_copied given.entry) subject) e
        (session_of session.old) (session_of session.new)) }
    ensures same { S.files store.new ≡ S.files store.old }
    ensures cause { AssertCause (S.faults store.old) (S.faults store.new) result }
{
    match take_name(alloc, session, settings, place, given) {
        Ok(name) => {
            let preview = preview_named(
                alloc, session, store, config, settings, place, &name, asserted,
            );
            drop(name);
            preview
        }
        Err(error) => {
            drop(asserted);
            Err(error)
        }
    }
}

/// Tells what `assert_content` would answer, and remembers what it would: the name is taken, an open block is asked, and the file is read and
/// compared. No file is touched, so nothing is listed, and what is pending stays.
pub fn preview_content<S: Store>(
    alloc: Global,
    session: &mut Session,
    store: &mut S,
    config: &Config,
    settings: &Settings,
    place: &Place,
    name: Option<&Text>,
    content: Content,
) -> Result<Preview, AssertError>
    ensures previewed { IfOk result (λ preview. (printed : Tree)
        × PrintsAs (λ v. (⟦<dyn Redactor as Redactor>⟧ v).allows) settings.now (tree content) printed
        × IsPreviewed config.now.require_full_match (assertion_of (blocks_if config.now.literal) (settings_of settings.now)
        (place_of place.now) (option_copied name.entry) printed) preview (S.files store.old)
        (session_of session.old) (session_of session.new)) }
    ensures stopped { IfErr result (λ e. IsUnprinted e (session_of session.old)
        (session_of session.new) ⊎ ((printed : Tree)
        × PrintsAs (λ v. (⟦<dyn Redactor as Redactor>⟧ v).allows) settings.now (tree content) printed
        × IsStoppedBefore (assertion_of (blocks_if config.now.literal) (settings_of settings.now)
        (place_of place.now) (option_copied name.entry) printed) e (session_of session.old)
        (session_of session.new))) }
    // Whatever is returned, the files are as they were.
    ensures same { S.files store.new ≡ S.files store.old }
    ensures cause { AssertCause (S.faults store.old) (S.faults store.new) result }
{
    match asserted_tree(alloc, settings, content, config.literal) {
        Ok(asserted) => preview_any(
            alloc, session, store, config, settings, place, name, asserted,
        ),
        Err(_) => Err(AssertError::OutOfMemory),
    }
}
