//! The name that an assertion of a literal takes.
ghost use Rattle.std.specs.Prelude.{◌≡◌, Ok, IfOk, IfErr, OnErr};
ghost use Rattle.snap_assert_settings.specs.Settings.{settings_of};
ghost use Rattle.snap_assert_place.specs.Place.{place_of};
ghost use Rattle.snap_assert.specs.Session.{session_of};
ghost use Rattle.snap_assert.specs.Names.{RefusedAs};
ghost use Rattle.snap_assert.specs.LiteralNames.{literal_key, literal_use_step, literal_name_step};

use crate::error::AssertError;
use crate::names::take_function_name;
use crate::session::Session;
use snap_assert_place::paths::is_doctest_function;
use snap_assert_place::place::Place;
use snap_assert_settings::settings::Settings;
use snap_content::{OutOfMemory, Text};
use std::alloc::Global;

/// As what the literal is remembered.
fn literal_key(alloc: Global, place: &Place) -> Result<(Text, Text, u32), OutOfMemory>
    ensures { IfOk result (λ key. key ≡ literal_key (place_of place.now)) }
{
    let function = place.function().try_clone(alloc)?;
    let file = place.file().try_clone(alloc)?;
    Ok((function, file, place.line()))
}

/// The name of the literal's function, and none in a doctest. After a refusal and after running out of memory the session is as it was.
fn take_use(
    alloc: Global,
    session: &mut Session,
    settings: &Settings,
    place: &Place,
) -> Result<Option<Text>, AssertError>
    ensures ok { IfOk result (λ name.
        literal_use_step (settings_of settings.now) (place_of place.now) (session_of session.old)
        ≡ Ok (record { name = name; session = session_of session.new })) }
    ensures err { IfErr result (λ e. RefusedAs e
        (literal_use_step (settings_of settings.now) (place_of place.now) (session_of session.old))) }
    ensures same { OnErr result (session_of session.new ≡ session_of session.old) }
{
    if is_doctest_function(place.function().as_str()) {
        return Ok(None);
    }
    match take_function_name(alloc, session, settings, place) {
        Ok(name) => Ok(Some(name)),
        Err(error) => Err(error),
    }
}

/// The name that a literal takes: that of its function, and none in a doctest. Where no block of duplicates is open, a literal that was
/// met is refused, and any other is remembered. After a refusal and after running out of memory the session is as it was: the literal is
/// forgotten again where its name is refused or finds no memory.
pub fn take_literal_name(
    alloc: Global,
    session: &mut Session,
    settings: &Settings,
    place: &Place,
) -> Result<Option<Text>, AssertError>
    ensures ok { IfOk result (λ name.
        literal_name_step (settings_of settings.now) (place_of place.now) (session_of session.old)
        ≡ Ok (record { name = name; session = session_of session.new })) }
    ensures err { IfErr result (λ e. RefusedAs e
        (literal_name_step (settings_of settings.now) (place_of place.now)
        (session_of session.old))) }
    ensures same { OnErr result (session_of session.new ≡ session_of session.old) }
{
    if session.is_open() {
        return take_use(alloc, session, settings, place);
    }
    let key = literal_key(alloc, place)?;
    if session.is_met(&key) {
        return Err(AssertError::InlineDuplicate);
    }
    let met = literal_key(alloc, place)?;
    session.meet(met)?;
    match take_use(alloc, session, settings, place) {
        Ok(name) => Ok(name),
        Err(error) => {
            session.forget(&key);
            Err(error)
        }
    }
}
