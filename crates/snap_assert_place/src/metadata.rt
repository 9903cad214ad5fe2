//! The metadata of a new snapshot.
ghost use Rattle.std.specs.Prelude.{◌≡◌, None, Some, IfOk, option_map};
ghost use Rattle.snap_content.specs.View.{tree};
ghost use Rattle.snap_store.specs.Views.{meta_of};
ghost use Rattle.snap_assert_settings.specs.Settings.{settings_of};
ghost use Rattle.snap_assert_place.specs.Place.{place_of};
ghost use Rattle.snap_assert_place.specs.SnapshotPath.{input_seen, shown_expression, new_meta};

use crate::below::seen_below;
use crate::place::Place;
use snap_assert_settings::settings::Settings;
use snap_content::{Content, OutOfMemory, Text};
use snap_path::path_join;
use snap_store::MetaData;
use snap_store::relative::path_within;
use std::alloc::Global;

/// The description that the settings give.
fn description(alloc: Global, settings: &Settings) -> Result<Option<Text>, OutOfMemory>
    ensures { IfOk result (λ made. made ≡ (settings_of settings.now).description) }
{
    match settings.description() {
        None => Ok(None),
        Some(text) => Ok(Some(Text::from_str(alloc, text)?)),
    }
}

/// The expression, where the settings don't leave it out.
fn expression(
    alloc: Global,
    settings: &Settings,
    place: &Place,
) -> Result<Option<Text>, OutOfMemory>
    ensures { IfOk result (λ made. made
        ≡ shown_expression (settings_of settings.now) (place_of place.now)) }
{
    if settings.omit_expression() {
        Ok(None)
    } else {
        Ok(Some(place.expr().try_clone(alloc)?))
    }
}

/// The input file, as it is seen from the workspace; none where it isn't below that.
fn input_file(
    alloc: Global,
    settings: &Settings,
    place: &Place,
) -> Result<Option<Text>, OutOfMemory>
    ensures { IfOk result (λ seen. seen
        ≡ input_seen (place_of place.now) (settings_of settings.now).input_file) }
{
    match settings.input_path() {
        None => Ok(None),
        Some(file) => {
            let whole = path_join(alloc, place.workspace(), file)?;
            path_within(alloc, &whole, place.workspace())
        }
    }
}

/// The tree that the settings give.
fn info(alloc: Global, settings: &Settings) -> Result<Option<Content>, OutOfMemory>
    ensures { IfOk result (λ made. option_map tree made ≡ (settings_of settings.now).info) }
{
    match settings.info() {
        None => Ok(None),
        Some(info) => Ok(Some(info.try_clone(alloc)?)),
    }
}

/// The metadata of a new snapshot. The one error is out of memory.
pub fn new_metadata(
    alloc: Global,
    settings: &Settings,
    place: &Place,
) -> Result<MetaData, OutOfMemory>
    ensures { IfOk result (λ made. meta_of made
        ≡ new_meta (settings_of settings.now) (place_of place.now)) }
{
    let source = seen_below(alloc, place.workspace(), place.file())?;
    let description = description(alloc, settings)?;
    let expression = expression(alloc, settings, place)?;
    let input_file = input_file(alloc, settings, place)?;
    let info = info(alloc, settings)?;
    let mut metadata = MetaData::empty();
    metadata.set_source(Some(source));
    metadata.set_assertion_line(Some(place.line()));
    metadata.set_description(description);
    metadata.set_expression(expression);
    metadata.set_input_file(input_file);
    metadata.set_info(info);
    Ok(metadata)
}
