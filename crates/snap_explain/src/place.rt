//! Where a number stands in a value that is no whole number of 128 bits.
use crate::fault::{NumberKind, NumberPlace};
use snap_content::{OutOfMemory, Text};
use snap_parse::{Array, Hash, Yaml, YamlLoader};
use snap_print::integers::is_integer;
use std::alloc::Global;

/// What kind of number a text is, where it is a number and no whole number of 128 bits.
pub(crate) fn kind_of(text: &str) -> Option<NumberKind> {
    if !is_integer(text) {
        return Some(fraction_or_exponent(text));
    }
    if text.parse::<u128>().is_ok() || text.parse::<i128>().is_ok() {
        return None;
    }
    Some(NumberKind::Wide)
}

fn fraction_or_exponent(text: &str) -> NumberKind {
    if text.contains(['e', 'E']) {
        NumberKind::Exponent
    } else {
        NumberKind::Fraction
    }
}

/// Whether a key is written after a dot in a selector as it is.
fn is_plain_key(key: &str) -> bool {
    !key.is_empty()
        && key.chars().all(|c| c.is_ascii_lowercase() || c.is_ascii_uppercase() || c == '_')
}

/// Whether the text has a character that would end the line, or move on it.
pub(crate) fn has_control(key: &str) -> bool {
    key.chars().any(|c| c < ' ')
}

/// The step of a selector to what is under a key: any key, where it is no text that stands on a line.
fn key_step(alloc: Global, key: &Yaml) -> Result<Text, OutOfMemory> {
    match key {
        Yaml::String(name) if !has_control(name.as_str()) => named_step(alloc, name.as_str()),
        _ => Text::from_ascii(alloc, ".*"),
    }
}

pub(crate) fn named_step(alloc: Global, name: &str) -> Result<Text, OutOfMemory> {
    let mut step = Text::empty();
    if is_plain_key(name) {
        step.push(alloc, '.')?;
        step.push_str(alloc, name)?;
        return Ok(step);
    }
    step.push_ascii(alloc, "[\"")?;
    for character in name.chars() {
        if character == '"' || character == '\\' {
            step.push(alloc, '\\')?;
        }
        step.push(alloc, character)?;
    }
    step.push_ascii(alloc, "\"]")?;
    Ok(step)
}

/// The place that is under a step.
fn under(
    alloc: Global,
    mut step: Text,
    place: NumberPlace,
) -> Result<Option<NumberPlace>, OutOfMemory> {
    step.push_text(alloc, &place.path)?;
    Ok(Some(NumberPlace {
        kind: place.kind,
        path: step,
    }))
}

/// The place of the first such number in a value, if one stands there.
#[cycle(place)]
fn place_in(alloc: Global, value: &Yaml) -> Result<Option<NumberPlace>, OutOfMemory> {
    match value {
        Yaml::Real(text) => Ok(match kind_of(text.as_str()) {
            None => None,
            Some(kind) => Some(NumberPlace {
                kind,
                path: Text::empty(),
            }),
        }),
        Yaml::Array(items) => place_in_items(alloc, items),
        Yaml::Hash(pairs) => place_in_pairs(alloc, pairs),
        _ => Ok(None),
    }
}

#[cycle(place)]
fn place_in_items(alloc: Global, items: &Array) -> Result<Option<NumberPlace>, OutOfMemory> {
    let mut index: u64 = 0;
    for item in items.as_slice() {
        if let Some(place) = place_in(alloc, item)? {
            let step = Text::from_str(alloc, format!(in alloc; "[{index}]")?.as_str())?;
            return under(alloc, step, place);
        }
        index = index.saturating_add(1);
    }
    Ok(None)
}

#[cycle(place)]
fn place_in_pairs(alloc: Global, pairs: &Hash) -> Result<Option<NumberPlace>, OutOfMemory> {
    for (key, value) in pairs.as_slice() {
        if let Some(place) = place_in(alloc, key)? {
            return under(alloc, Text::from_ascii(alloc, ".$key")?, place);
        }
        if let Some(place) = place_in(alloc, value)? {
            return under(alloc, key_step(alloc, key)?, place);
        }
    }
    Ok(None)
}

/// The place of the first such number in a text, whose values are those of its documents. Where it is not found, which never was seen,
/// it is told as a wide number of the whole value.
pub(crate) fn number_place(alloc: Global, text: &str) -> Result<NumberPlace, OutOfMemory> {
    match found_place(alloc, text)? {
        Some(place) if !place.path.as_str().is_empty() => Ok(place),
        Some(place) => whole_value(alloc, place.kind),
        None => whole_value(alloc, NumberKind::Wide),
    }
}

/// The place of a number that is the whole value.
pub(crate) fn whole_value(alloc: Global, kind: NumberKind) -> Result<NumberPlace, OutOfMemory> {
    let path = Text::from_ascii(alloc, "the top")?;
    Ok(NumberPlace { kind, path })
}

/// The place of the first such number in the first value of a text.
fn found_place(alloc: Global, text: &str) -> Result<Option<NumberPlace>, OutOfMemory> {
    match YamlLoader::load_from_str(alloc, text) {
        Err(_) => Ok(None),
        Ok(values) => {
            let found = place_in_first(alloc, &values);
            drop(values);
            found
        }
    }
}

/// The same of the first value.
fn place_in_first(alloc: Global, values: &Array) -> Result<Option<NumberPlace>, OutOfMemory> {
    match values.as_slice() {
        [value, ..] => place_in(alloc, value),
        [] => Ok(None),
    }
}
