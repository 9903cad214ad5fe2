//! The names that assertions take from the functions that they stand in.
ghost use Rattle.std.specs.Prelude.{◌≡◌, IfOk, option_map, unwrap_or};
ghost use Rattle.std.specs.Str.{chars};
ghost use Rattle.snap_assert_settings.specs.Settings.{settings_of};
ghost use Rattle.snap_assert_place.specs.Place.{place_of};
ghost use Rattle.snap_assert_place.specs.SnapshotPath.{flat_module};
ghost use Rattle.snap_assert_place.specs.Names.{past_colons, last_name, is_test, without_test, suffixed, base_of, key_of};

use crate::front::behind_ascii;
use crate::paths::{module_text, push_module};
use crate::place::Place;
use snap_assert_settings::settings::Settings;
use snap_content::characters::split_first;
use snap_content::{OutOfMemory, Text};
use std::alloc::Global;

/// What follows `::` where the text begins with it, and else what was found before.
fn past_colons_or<'a>(text: &'a str, found: &'a str) -> &'a str
    ensures { chars result.now ≡ unwrap_or (past_colons (chars text.now)) (chars found.now) }
{
    match behind_ascii(text, "::") {
        Some(name) => name,
        None => found,
    }
}

/// What stands after the last `::`.
fn last_name_of(function: &str) -> &str
    ensures { chars result.now ≡ last_name (chars function.now) }
{
    let mut last = function;
    let mut rest = function;
    while let Some((_, next)) = split_first(rest) {
        last = past_colons_or(rest, last);
        rest = next;
    }
    last
}

/// Whether the function's own name, after the last `::`, begins with `test_`.
pub fn is_test_function(function: &str) -> bool
    ensures { result ≡ is_test (last_name (chars function.now)) }
{
    behind_ascii(last_name_of(function), "test_").is_some()
}

/// The function's own name, after the last `::`, without one `test_` in front.
fn bare_name(function: &str) -> &str
    ensures { chars result.now ≡ without_test (last_name (chars function.now)) }
{
    let name = last_name_of(function);
    match behind_ascii(name, "test_") {
        Some(bare) => bare,
        None => name,
    }
}

/// The name with an `@` and the suffix, where there is one.
fn with_suffix(alloc: Global, name: &str, suffix: Option<&str>) -> Result<Text, OutOfMemory>
    ensures { IfOk result (λ text. text
        ≡ suffixed (chars name.now) (option_map (λ text. chars text.now) suffix.entry)) }
{
    let mut text = Text::from_str(alloc, name)?;
    if let Some(suffix) = suffix {
        text.push(alloc, '@')?;
        text.push_str(alloc, suffix)?;
    }
    Ok(text)
}

/// A given name with the suffix of the settings.
pub fn suffixed_name(alloc: Global, settings: &Settings, name: &Text) -> Result<Text, OutOfMemory>
    ensures { IfOk result (λ text. text ≡ suffixed name.now (settings_of settings.now).suffix) }
{
    with_suffix(alloc, name.as_str(), settings.snapshot_suffix())
}

/// The name of an assertion for which none is given, but for the number of its use: that of its function, without `test_` in front,
/// and with the suffix of the settings.
pub fn base_name(alloc: Global, settings: &Settings, place: &Place) -> Result<Text, OutOfMemory>
    ensures { IfOk result (λ text. text
        ≡ base_of (settings_of settings.now) (place_of place.now)) }
{
    let name = bare_name(place.function().as_str());
    with_suffix(alloc, name, settings.snapshot_suffix())
}

/// Under what the uses of that name are counted: the module, with `__` for each `::`, and the name.
pub fn name_key(
    alloc: Global,
    settings: &Settings,
    place: &Place,
) -> Result<(Text, Text), OutOfMemory>
    ensures { IfOk result (λ key. key ≡ key_of (settings_of settings.now) (place_of place.now)) }
{
    let module_name = module_text(alloc, place)?;
    let name = base_name(alloc, settings, place)?;
    Ok((module_name, name))
}

/// A module with `__` for each `::`.
pub fn flat_module_text(alloc: Global, module_name: &str) -> Result<Text, OutOfMemory>
    ensures { IfOk result (λ text. text ≡ flat_module (chars module_name.now)) }
{
    let mut text = Text::empty();
    push_module(&mut text, alloc, module_name)?;
    Ok(text)
}
