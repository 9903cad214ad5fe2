//! One assertion over a store, by a comparator of the caller's.
ghost use Rattle.std.specs.Prelude.{◌≡◌, ◌⊎◌, Ok, Err, IfOk, IfErr, option_copied};
ghost use Rattle.snap_content.specs.Tree.{Tree};
ghost use Rattle.snap_content.specs.View.{tree};
ghost use Rattle.snap_assert.specs.Outcomes.{IsStopped, IsUnprinted, AssertCause};
ghost use Rattle.snap_assert.specs.Assertions.{assertion_of};
ghost use Rattle.snap_assert.specs.Compared.{IsAnsweredBy};
ghost use Rattle.snap_assert.specs.Halts.{IsHaltedBy, IsUnbegun};
ghost use Rattle.snap_assert.specs.Kept.{KeptBy, NamesOwn};
ghost use Rattle.snap_assert.specs.Names.{Named, name_step};
ghost use Rattle.snap_assert.specs.Relations.{asked_relation};
ghost use Rattle.snap_assert.specs.Session.{session_of};
ghost use Rattle.snap_assert_settings.specs.Settings.{settings_of, PrintsAs};
ghost use Rattle.snap_assert_place.specs.Place.{place_of};
ghost use Rattle.snap_assert_place.specs.SnapshotPath.{path_of};
ghost use Rattle.snap_print.specs.Blocks.{blocks_if};
ghost use Rattle.snap_assert.specs.declared.error.AssertError.{AssertError};

use crate::comparator::Comparator;
use crate::engine::assert_sorted;
use crate::error::AssertError;
use crate::listed::Listed;
use crate::outcome::Outcome;
use crate::session::Session;
use snap_assert_place::place::Place;
use snap_assert_settings::config::Config;
use snap_assert_settings::settings::Settings;
use snap_content::{Content, Text};
use snap_io::Store;
use snap_select::Redactor;
use std::alloc::Global;

/// Asserts as `assert_content` does, by a comparator of the caller's: the tree passes exactly where the file of the snapshot is
/// understood, and the comparator's relation holds of the snapshot there and the new one, the full one where the configuration
/// requires a full match. That a pass is one by the rule of the oldest format is said where the texts tell it.
pub fn assert_content_by<S: Store, C: Comparator>(
    alloc: Global,
    session: &mut Session,
    store: &mut S,
    config: &Config,
    comparator: &C,
    settings: &Settings,
    place: &Place,
    name: Option<&Text>,
    content: Content,
) -> Result<Outcome, AssertError>
    ensures answered { IfOk result (λ outcome. (printed : Tree)
        × PrintsAs (λ v. (⟦<dyn Redactor as Redactor>⟧ v).allows) settings.now (tree content) printed
        × IsAnsweredBy
        (asked_relation (C.agrees comparator.now) (C.agrees_fully comparator.now)
        config.now.require_full_match) config.now (assertion_of (blocks_if config.now.literal)
        (settings_of settings.now) (place_of place.now) (option_copied name.entry) printed) outcome
        (S.files store.old) (S.files store.new) (session_of session.old) (session_of session.new)) }
    ensures stopped { IfErr result (λ e. IsUnprinted e (session_of session.old)
        (session_of session.new) ⊎ ((printed : Tree)
        × PrintsAs (λ v. (⟦<dyn Redactor as Redactor>⟧ v).allows) settings.now (tree content) printed
        × IsStopped (assertion_of (blocks_if config.now.literal) (settings_of settings.now)
        (place_of place.now) (option_copied name.entry) printed) e
        (S.files store.old) (S.files store.new) (session_of session.old) (session_of session.new))) }
    // Whatever is returned: no file is written but the one of the mode, so the approved one only in place.
    ensures kept { (named : Named) → name_step (settings_of settings.now) (place_of place.now)
        (option_copied name.entry) (session_of session.old) ≡ Ok named
        → KeptBy config.now.update
        (path_of (settings_of settings.now) (place_of place.now) named.name)
        (S.files store.old) (S.files store.new) }
    ensures named { (named : Named) → name_step (settings_of settings.now) (place_of place.now)
        (option_copied name.entry) (session_of session.old) ≡ Ok named
        → NamesOwn config.now.update
        (path_of (settings_of settings.now) (place_of place.now) named.name) result }
    ensures untouched { (error : AssertError) → name_step (settings_of settings.now)
        (place_of place.now) (option_copied name.entry) (session_of session.old) ≡ Err error
        → store.new ≡ store.old }
    // After a fault, and out of memory: of the changes those before one are done, and none behind it was begun.
    ensures halted { IfErr result (λ e. IsUnbegun e (S.files store.old) (S.files store.new)
        ⊎ ((printed : Tree)
        × PrintsAs (λ v. (⟦<dyn Redactor as Redactor>⟧ v).allows) settings.now (tree content) printed
        × IsHaltedBy (asked_relation (C.agrees comparator.now) (C.agrees_fully comparator.now)
        config.now.require_full_match) config.now
        (assertion_of (blocks_if config.now.literal)
        (settings_of settings.now) (place_of place.now) (option_copied name.entry) printed) e
        (S.files store.old) (S.files store.new) (session_of session.old))) }
    ensures cause { AssertCause (S.faults store.old) (S.faults store.new) result }
{
    let mut listed = Listed::new(alloc);
    let outcome = assert_sorted(
        alloc,
        session,
        &mut listed,
        store,
        config,
        comparator,
        settings,
        place,
        name,
        content,
    );
    drop(listed);
    outcome
}
