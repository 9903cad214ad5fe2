//! One assertion of a text for a file, by a comparator of the caller's.
ghost use Rattle.std.specs.Prelude.{◌≡◌, Ok, Err, IfOk, IfErr, option_copied};
ghost use Rattle.snap_assert.specs.Outcomes.{IsStopped, AssertCause};
ghost use Rattle.snap_assert.specs.Assertions.{text_assertion_of};
ghost use Rattle.snap_assert.specs.Compared.{IsAnsweredBy};
ghost use Rattle.snap_assert.specs.Halts.{IsHaltedBy};
ghost use Rattle.snap_assert.specs.Kept.{KeptBy, NamesOwn};
ghost use Rattle.snap_assert.specs.Names.{Named, name_step};
ghost use Rattle.snap_assert.specs.Relations.{asked_relation};
ghost use Rattle.snap_assert.specs.Session.{session_of};
ghost use Rattle.snap_assert_settings.specs.Settings.{settings_of};
ghost use Rattle.snap_assert_place.specs.Place.{place_of};
ghost use Rattle.snap_assert_place.specs.SnapshotPath.{path_of};
ghost use Rattle.snap_assert.specs.declared.error.AssertError.{AssertError};

use crate::comparator::Comparator;
use crate::engine::assert_any;
use crate::error::AssertError;
use crate::listed::Listed;
use crate::outcome::Outcome;
use crate::prepare::asserted_text;
use crate::session::Session;
use snap_assert_place::place::Place;
use snap_assert_settings::config::Config;
use snap_assert_settings::settings::Settings;
use snap_content::Text;
use snap_io::Store;
use std::alloc::Global;

/// Asserts that the text is that of the snapshot of its name, by what the file of that holds.
///
/// The name is taken, an open block of duplicates is asked, and the files are left as `assert_content` says. The text passes exactly
/// where the file is understood and the comparator's relation holds of the snapshot there and the new one, the full one where the
/// configuration requires a full match. What is written is the header of the metadata, and the normal form of the text with a line's
/// end. No redaction and no sorting is done: a text has no parts.
///
/// The errors are those of `assert_content`.
pub fn assert_file<S: Store, C: Comparator>(
    alloc: Global,
    session: &mut Session,
    store: &mut S,
    config: &Config,
    settings: &Settings,
    comparator: &C,
    place: &Place,
    name: Option<&Text>,
    content: Text,
) -> Result<Outcome, AssertError>
    ensures answered { IfOk result (λ outcome. IsAnsweredBy
        (asked_relation (C.agrees comparator.now) (C.agrees_fully comparator.now)
        config.now.require_full_match) config.now
        (text_assertion_of (settings_of settings.now) (place_of place.now)
        (option_copied name.entry) content) outcome
        (S.files store.old) (S.files store.new) (session_of session.old) (session_of session.new)) }
    ensures stopped { IfErr result (λ e. IsStopped
        (text_assertion_of (settings_of settings.now) (place_of place.now)
        (option_copied name.entry) content) e
        (S.files store.old) (S.files store.new) (session_of session.old) (session_of session.new)) }
    // Whatever is returned: no file is written but the one of the mode, so the approved one only in place.
    ensures kept { (named : Named) → name_step (settings_of settings.now) (place_of place.now)
        (option_copied name.entry) (session_of session.old) ≡ Ok named
        → KeptBy config.now.update
        (path_of (settings_of settings.now) (place_of place.now) named.name)
        (S.files store.old) (S.files store.new) }
    ensures named { (named : Named) → name_step (settings_of settings.now) (place_of place.now)
        (option_copied name.entry) (session_of session.old) ≡ Ok named
        → NamesOwn config.now.update
        (path_of (settings_of settings.now) (place_of place.now) named.name) result }
    ensures untouched { (error : AssertError) → name_step (settings_of settings.now)
        (place_of place.now) (option_copied name.entry) (session_of session.old) ≡ Err error
        → store.new ≡ store.old }
    // After a fault, and out of memory: of the changes those before one are done, and none behind it was begun.
    ensures halted { IfErr result (λ e. IsHaltedBy (asked_relation (C.agrees comparator.now) (C.agrees_fully comparator.now)
        config.now.require_full_match) config.now
        (text_assertion_of (settings_of settings.now) (place_of place.now)
        (option_copied name.entry) content) e
        (S.files store.old) (S.files store.new) (session_of session.old)) }
    ensures cause { AssertCause (S.faults store.old) (S.faults store.new) result }
{
    let mut listed = Listed::new(alloc);
    let outcome = assert_any(
        alloc,
        session,
        &mut listed,
        store,
        config,
        comparator,
        settings,
        place,
        name,
        asserted_text(content),
    );
    drop(listed);
    outcome
}
