//! The path of a snapshot.
ghost use Rattle.std.specs.Prelude.{◌≡◌, ◌++◌, [], IfOk, OnOk, codes, unwrap_or};
ghost use Rattle.snap_path.specs.Paths.{name_of};
ghost use Rattle.std.specs.Str.{chars};
ghost use Rattle.std.specs.List.{flat_map};
ghost use Rattle.snap_assert_settings.specs.Settings.{settings_of};
ghost use Rattle.snap_assert_place.specs.Place.{place_of};
ghost use Rattle.snap_assert_place.specs.SnapshotPath.{flat_character, dotless_character, flat_module, is_doctest, file_of_doctest, place_prefix, file_prefix, file_name, path_of, records_name, records_path};

use crate::below::path_below;
use crate::front::behind_ascii;
use crate::place::Place;
use snap_assert_settings::settings::Settings;
use snap_content::characters::split_first;
use snap_content::{OutOfMemory, Text};
use snap_path::{path_join, path_name, path_parent};
use std::alloc::Global;

/// Adds a name without its slashes and backslashes.
fn push_flat(out: &mut Text, alloc: Global, name: &str) -> Result<(), OutOfMemory>
    ensures { OnOk result (out.new ≡ out.old ++ flat_map flat_character (chars name.now)) }
{
    let mut rest = name;
    while let Some((c, next)) = split_first(rest) {
        if c == '/' || c == '\\' {
            out.push_ascii(alloc, "__")?;
        } else {
            out.push(alloc, c)?;
        }
        rest = next;
    }
    Ok(())
}

/// Adds a name without its dots.
fn push_dotless(out: &mut Text, alloc: Global, name: &str) -> Result<(), OutOfMemory>
    ensures { OnOk result (out.new ≡ out.old ++ flat_map dotless_character (chars name.now)) }
{
    let mut rest = name;
    while let Some((c, next)) = split_first(rest) {
        if c == '.' {
            out.push_ascii(alloc, "_")?;
        } else {
            out.push(alloc, c)?;
        }
        rest = next;
    }
    Ok(())
}

/// Adds a module with `__` for each `::`.
pub(crate) fn push_module(out: &mut Text, alloc: Global, name: &str) -> Result<(), OutOfMemory>
    ensures { OnOk result (out.new ≡ out.old ++ flat_module (chars name.now)) }
{
    let mut rest = name;
    while let Some((c, next)) = split_first(rest) {
        match split_first(next) {
            Some((':', later)) if c == ':' => {
                out.push_ascii(alloc, "__")?;
                rest = later;
            }
            _ => {
                out.push(alloc, c)?;
                rest = next;
            }
        }
    }
    Ok(())
}

/// Whether the function is that of a doctest.
pub fn is_doctest_function(function: &str) -> bool
    ensures { result ≡ is_doctest (chars function.now) }
{
    behind_ascii(function, "rust_out::main::_doctest").is_some()
}

/// The name of the assertion's file.
fn name_of_file(place: &Place) -> &str
    ensures { chars result.now ≡ unwrap_or (name_of (place_of place.now).file) [] }
{
    match path_name(place.file()) {
        Some(name) => name,
        None => "",
    }
}

/// What stands before the name in a doctest: the name of its file.
fn doctest_prefix(alloc: Global, place: &Place) -> Result<Text, OutOfMemory>
    ensures { IfOk result (λ text. text ≡ file_of_doctest (place_of place.now)) }
{
    let mut text = Text::from_ascii(alloc, "doctest_")?;
    push_dotless(&mut text, alloc, name_of_file(place))?;
    text.push_ascii(alloc, "__")?;
    Ok(text)
}

/// The module as a part of a file's name.
pub fn module_text(alloc: Global, place: &Place) -> Result<Text, OutOfMemory>
    ensures { IfOk result (λ text. text ≡ flat_module (place_of place.now).module_name) }
{
    let mut text = Text::empty();
    push_module(&mut text, alloc, place.module_name().as_str())?;
    Ok(text)
}

/// What stands before the name elsewhere: the module.
fn module_prefix(alloc: Global, place: &Place) -> Result<Text, OutOfMemory>
    ensures { IfOk result (λ text. text ≡ flat_module (place_of place.now).module_name
        ++ codes "__") }
{
    let mut text = module_text(alloc, place)?;
    text.push_ascii(alloc, "__")?;
    Ok(text)
}

/// What stands before the name in the name of the file, where the module is prepended.
fn place_prefix(alloc: Global, place: &Place) -> Result<Text, OutOfMemory>
    ensures { IfOk result (λ text. text ≡ place_prefix (place_of place.now)) }
{
    if is_doctest_function(place.function().as_str()) {
        doctest_prefix(alloc, place)
    } else {
        module_prefix(alloc, place)
    }
}

/// What stands before the name in the name of the file.
fn file_prefix(alloc: Global, settings: &Settings, place: &Place) -> Result<Text, OutOfMemory>
    ensures { IfOk result (λ text. text
        ≡ file_prefix (settings_of settings.now) (place_of place.now)) }
{
    if settings.prepend_module_to_snapshot() {
        place_prefix(alloc, place)
    } else {
        Ok(Text::empty())
    }
}

/// The name of the snapshot's file.
fn snapshot_file_name(
    alloc: Global,
    settings: &Settings,
    place: &Place,
    name: &Text,
) -> Result<Text, OutOfMemory>
    ensures { IfOk result (λ text. text ≡ file_name (settings_of settings.now)
        (place_of place.now) name.now) }
{
    let mut text = file_prefix(alloc, settings, place)?;
    push_flat(&mut text, alloc, name.as_str())?;
    text.push_ascii(alloc, ".snap")?;
    Ok(text)
}

/// The path of the snapshot: below the workspace, in the folder of snapshots beside the assertion's file.
pub fn snapshot_path(
    alloc: Global,
    settings: &Settings,
    place: &Place,
    name: &Text,
) -> Result<Text, OutOfMemory>
    ensures { IfOk result (λ path. path ≡ path_of (settings_of settings.now)
        (place_of place.now) name.now) }
{
    let folder = path_parent(alloc, place.file())?;
    let file = snapshot_file_name(alloc, settings, place, name)?;
    path_below(
        alloc,
        place.workspace(),
        &folder,
        settings.snapshot_folder(),
        &file,
    )
}

/// The name of the file that keeps the records of the literals of the assertion's file.
fn records_file_name(alloc: Global, place: &Place) -> Result<Text, OutOfMemory>
    ensures { IfOk result (λ name. name
        ≡ records_name (unwrap_or (name_of (place_of place.now).file) [])) }
{
    let mut name = Text::from_ascii(alloc, ".")?;
    name.push_str(alloc, name_of_file(place))?;
    name.push_ascii(alloc, ".pending-snap")?;
    Ok(name)
}

/// The path of the file that keeps the records of the literals of the assertion's file: beside that file, below the workspace. The one
/// error is out of memory.
pub fn records_path(alloc: Global, place: &Place) -> Result<Text, OutOfMemory>
    ensures { IfOk result (λ path. path ≡ records_path (place_of place.now)) }
{
    let file = path_join(alloc, place.workspace(), place.file())?;
    let folder = path_parent(alloc, &file)?;
    let name = records_file_name(alloc, place)?;
    path_join(alloc, &folder, &name)
}
