//! The name that an assertion takes.
ghost use Rattle.std.specs.Prelude.{◌≡◌, Ok, IfOk, IfErr, OnErr, option_copied};
ghost use Rattle.snap_assert_settings.specs.Settings.{settings_of};
ghost use Rattle.snap_assert_place.specs.Names.{last_name, is_test, key_of};
ghost use Rattle.snap_assert_place.specs.Place.{place_of};
ghost use Rattle.std.specs.Str.{chars};
ghost use Rattle.snap_assert.specs.Session.{session_of};
ghost use Rattle.snap_assert.specs.Names.{next_use, counted, numbered, counted_step, function_step, automatic_step, name_step, clashes, RefusedAs};

use crate::error::AssertError;
use crate::session::{Session, Use};
use snap_assert_place::names::{is_test_function, name_key, suffixed_name};
use snap_assert_place::paths::is_doctest_function;
use snap_assert_place::place::Place;
use snap_assert_settings::settings::Settings;
use snap_content::{OutOfMemory, Text};
use std::alloc::Global;

/// Whether one function that the name comes from begins with `test_`, and another doesn't.
fn clashes(was: Option<bool>, is_test: bool) -> bool
    ensures { result ≡ clashes was is_test }
{
    match was {
        None => false,
        Some(true) => !is_test,
        Some(false) => is_test,
    }
}

/// What is remembered of a name that was used so often, and is used again.
fn counted(is_open: bool, is_test: bool, count: u64) -> Result<Use, AssertError>
    ensures { result ≡ counted is_open is_test count }
{
    let prefixed = Some(is_test);
    if is_open {
        return Ok(Use { prefixed, count });
    }
    if count == u64::MAX {
        return Err(AssertError::NamesExhausted);
    }
    Ok(Use {
        prefixed,
        count: count + 1,
    })
}

/// The same of a name with what is held of it, which may clash.
fn next_use(is_open: bool, is_test: bool, held: Option<Use>) -> Result<Use, AssertError>
    ensures { result ≡ next_use is_open is_test held }
{
    let held = held.unwrap_or(Use {
        prefixed: None,
        count: 0,
    });
    if clashes(held.prefixed, is_test) {
        return Err(AssertError::NameClash);
    }
    counted(is_open, is_test, held.count)
}

/// The name with its number.
fn numbered(alloc: Global, is_open: bool, base: &Text, count: u64) -> Result<Text, OutOfMemory>
    ensures { IfOk result (λ name. name ≡ numbered is_open base.now count) }
{
    let mut name = base.try_clone(alloc)?;
    if is_open || count == 1 {
        return Ok(name);
    }
    name.push_ascii(alloc, "-")?;
    let digits = format!(in alloc; "{count}")?;
    name.push_ascii(alloc, digits.as_str())?;
    Ok(name)
}

/// Takes the next use of the name under the key. After a refusal and after running out of memory the session is as it was.
fn take_counted(
    alloc: Global,
    session: &mut Session,
    key: (Text, Text),
    is_test: bool,
) -> Result<Text, AssertError>
    ensures ok { IfOk result (λ name. counted_step key is_test (session_of session.old)
        ≡ Ok (record { name = name; session = session_of session.new })) }
    ensures err { IfErr result (λ e. RefusedAs e (counted_step key is_test (session_of session.old))) }
    ensures same { OnErr result (session_of session.new ≡ session_of session.old) }
{
    let is_open = session.is_open();
    let next = match next_use(is_open, is_test, session.use_of(&key)) {
        Ok(next) => next,
        Err(error) => return Err(error),
    };
    let name = numbered(alloc, is_open, &key.1, next.count)?;
    session.put_use(key, next)?;
    Ok(name)
}

/// The name that comes from the function. After a refusal and after running out of memory the session is as it was.
pub fn take_function_name(
    alloc: Global,
    session: &mut Session,
    settings: &Settings,
    place: &Place,
) -> Result<Text, AssertError>
    ensures ok { IfOk result (λ name.
        function_step (settings_of settings.now) (place_of place.now) (session_of session.old)
        ≡ Ok (record { name = name; session = session_of session.new })) }
    ensures err { IfErr result (λ e. RefusedAs e
        (function_step (settings_of settings.now) (place_of place.now) (session_of session.old))) }
    ensures same { OnErr result (session_of session.new ≡ session_of session.old) }
{
    let key = name_key(alloc, settings, place)?;
    take_counted(
        alloc,
        session,
        key,
        is_test_function(place.function().as_str()),
    )
}

/// The name of an assertion for which none is given, which comes from its function.
fn take_automatic(
    alloc: Global,
    session: &mut Session,
    settings: &Settings,
    place: &Place,
) -> Result<Text, AssertError>
    ensures ok { IfOk result (λ name.
        automatic_step (settings_of settings.now) (place_of place.now) (session_of session.old)
        ≡ Ok (record { name = name; session = session_of session.new })) }
    ensures err { IfErr result (λ e. RefusedAs e
        (automatic_step (settings_of settings.now) (place_of place.now) (session_of session.old))) }
    ensures same { OnErr result (session_of session.new ≡ session_of session.old) }
{
    if is_doctest_function(place.function().as_str()) {
        return Err(AssertError::DoctestNeedsName);
    }
    take_function_name(alloc, session, settings, place)
}

/// The name that an assertion takes: a given one gets the suffix of the settings, and any other comes from its function, from its second use on with a
/// number. After a refusal and after running out of memory the session is as it was.
pub fn take_name(
    alloc: Global,
    session: &mut Session,
    settings: &Settings,
    place: &Place,
    given: Option<&Text>,
) -> Result<Text, AssertError>
    ensures ok { IfOk result (λ name. name_step (settings_of settings.now) (place_of place.now)
        (option_copied given.entry) (session_of session.old)
        ≡ Ok (record { name = name; session = session_of session.new })) }
    ensures err { IfErr result (λ e. RefusedAs e (name_step (settings_of settings.now)
        (place_of place.now) (option_copied given.entry) (session_of session.old))) }
    ensures same { OnErr result (session_of session.new ≡ session_of session.old) }
{
    match given {
        None => take_automatic(alloc, session, settings, place),
        Some(given) => Ok(suffixed_name(alloc, settings, given)?),
    }
}
