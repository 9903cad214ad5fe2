//! One assertion of any value, by a comparator of the caller's.
ghost use Rattle.std.specs.Prelude.{◌≡◌, ◌⊎◌, true, Ok, Err, IfOk, IfErr, option_copied};
ghost use Rattle.snap_assert_place.specs.SnapshotPath.{path_of};
ghost use Rattle.snap_assert.specs.Kept.{KeptWith, NamesOwn};
ghost use Rattle.snap_assert.specs.Names.{Named, name_step};
ghost use Rattle.snap_assert.specs.Payloads.{is_bad_extension};
ghost use Rattle.snap_assert.specs.declared.error.AssertError.{AssertError};
ghost use Rattle.snap_assert.specs.Outcomes.{AssertCause};
ghost use Rattle.snap_assert.specs.Relations.{asked_relation};
ghost use Rattle.snap_assert.specs.Session.{session_of};
ghost use Rattle.snap_assert.specs.Values.{PayloadAnswered, PayloadHalted, PayloadStops, ValueAnswered, ValueHalted, ValueIsRefused, ValueKeeps, ValueNames, ValueStopped};
ghost use Rattle.snap_assert_settings.specs.Settings.{settings_of};
ghost use Rattle.snap_assert_place.specs.Place.{place_of};

use crate::comparator::Comparator;
use crate::error::AssertError;
use crate::file::assert_file;
use crate::literal::assert_literal;
use crate::outcome::Outcome;
use crate::payload::assert_payload;
use crate::session::Session;
use crate::value::{SnapshotValue, good_extension};
use snap_assert_place::place::Place;
use snap_assert_settings::config::Config;
use snap_assert_settings::settings::Settings;
use snap_content::{Blob, Text};
use snap_io::Store;
use std::alloc::Global;

/// The name, where one is given.
fn given_name(name: &Option<Text>) -> Option<&Text>
    ensures { option_copied result ≡ name.now }
{
    match name {
        None => None,
        Some(name) => Some(name),
    }
}

/// Asserts a payload: one whose extension is refused is so before anything else.
fn assert_binary<S: Store, C: Comparator>(
    alloc: Global,
    session: &mut Session,
    store: &mut S,
    config: &Config,
    settings: &Settings,
    comparator: &C,
    place: &Place,
    name: &Option<Text>,
    content: Blob,
    extension: Option<Text>,
) -> Result<Outcome, AssertError>
    ensures answered { IfOk result (λ outcome. PayloadAnswered
        (asked_relation (C.agrees comparator.now) (C.agrees_fully comparator.now)
        config.now.require_full_match) config.now (settings_of settings.now) (place_of place.now)
        name.now content extension outcome (S.files store.old) (S.files store.new)
        (session_of session.old) (session_of session.new)) }
    ensures stopped { IfErr result (λ e. PayloadStops (settings_of settings.now)
        (place_of place.now) name.now content extension e (S.files store.old) (S.files store.new)
        (session_of session.old) (session_of session.new)) }
    ensures untouched { ((is_bad_extension extension ≡ true)
        ⊎ ((error : AssertError) × (name_step (settings_of settings.now) (place_of place.now)
        name.now (session_of session.old) ≡ Err error))) → store.new ≡ store.old }
    ensures kept { (named : Named) → name_step (settings_of settings.now) (place_of place.now)
        name.now (session_of session.old) ≡ Ok named
        → KeptWith extension config.now.update
        (path_of (settings_of settings.now) (place_of place.now) named.name)
        (S.files store.old) (S.files store.new) }
    ensures named { (named : Named) → name_step (settings_of settings.now) (place_of place.now)
        name.now (session_of session.old) ≡ Ok named
        → NamesOwn config.now.update
        (path_of (settings_of settings.now) (place_of place.now) named.name) result }
    ensures halted { IfErr result (λ e. PayloadHalted (asked_relation (C.agrees comparator.now) (C.agrees_fully comparator.now)
        config.now.require_full_match) config.now (settings_of settings.now)
        (place_of place.now) name.now content extension e (S.files store.old) (S.files store.new)
        (session_of session.old)) }
    ensures cause { AssertCause (S.faults store.old) (S.faults store.new) result }
{
    match good_extension(extension) {
        None => {
            drop(content);
            Err(AssertError::BadExtension)
        }
        Some(extension) => {
            let given = given_name(name);
            assert_payload(
                alloc, session, store, config, settings, comparator, place, given, content,
                extension,
            )
        }
    }
}

/// Asserts the value: a text for a file as `assert_file` does, one that a literal stands for as `assert_literal` does, and a payload as a
/// text for a file is, each with its errors. What a payload is is kept in a file of its own beside that of its snapshot, at the same path, a
/// dot and its extension; with an extension that is not there, is `new`, begins with `new.` or holds a slash it is refused first of all,
/// with `BadExtension`.
pub fn assert_snapshot<S: Store, C: Comparator>(
    alloc: Global,
    session: &mut Session,
    store: &mut S,
    config: &Config,
    settings: &Settings,
    comparator: &C,
    place: &Place,
    value: SnapshotValue,
) -> Result<Outcome, AssertError>
    ensures answered { IfOk result (λ outcome. ValueAnswered
        (asked_relation (C.agrees comparator.now) (C.agrees_fully comparator.now)
        config.now.require_full_match) config.now (settings_of settings.now) (place_of place.now)
        value outcome (S.files store.old) (S.files store.new) (session_of session.old)
        (session_of session.new)) }
    ensures stopped { IfErr result (λ e. ValueStopped
        (asked_relation (C.agrees comparator.now) (C.agrees_fully comparator.now)
        config.now.require_full_match) config.now (settings_of settings.now) (place_of place.now)
        value e (S.files store.old) (S.files store.new) (session_of session.old)
        (session_of session.new)) }
    ensures untouched { ValueIsRefused (settings_of settings.now) (place_of place.now) value
        (session_of session.old) → store.new ≡ store.old }
    // Whatever is returned: for a file no file is written but the one of the mode, and for a literal none but that of the records.
    ensures kept { ValueKeeps config.now.update (settings_of settings.now) (place_of place.now)
        value (session_of session.old) (S.files store.old) (S.files store.new) }
    ensures named { ValueNames config.now.update (settings_of settings.now) (place_of place.now)
        value (session_of session.old) result }
    // After a fault, and out of memory: of the changes those before one are done, and none behind it was begun.
    ensures halted { IfErr result (λ e. ValueHalted (asked_relation (C.agrees comparator.now) (C.agrees_fully comparator.now)
        config.now.require_full_match) config.now (settings_of settings.now)
        (place_of place.now) value e (S.files store.old) (S.files store.new)
        (session_of session.old)) }
    ensures cause { AssertCause (S.faults store.old) (S.faults store.new) result }
{
    match value {
        SnapshotValue::FileText { name, content } => {
            let given = given_name(&name);
            let outcome = assert_file(
                alloc, session, store, config, settings, comparator, place, given, content,
            );
            drop(name);
            outcome
        }
        SnapshotValue::InlineText {
            reference_content,
            content,
        } => {
            let reference = &reference_content;
            let outcome = assert_literal(
                alloc, session, store, config, settings, comparator, place, reference, content,
            );
            drop(reference_content);
            outcome
        }
        SnapshotValue::Binary {
            name,
            content,
            extension,
        } => {
            let outcome = assert_binary(
                alloc, session, store, config, settings, comparator, place, &name, content,
                extension,
            );
            drop(name);
            outcome
        }
    }
}
