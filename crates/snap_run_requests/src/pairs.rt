//! The keys of a map, and what stands at them.
ghost use Rattle.std.specs.Prelude.{◌≡◌, ◌≤◌, ◌||◌, Some, is_some, option_map, MatchOption, MatchResult, true, false};
ghost use Rattle.std.specs.List.{list_all};
ghost use Rattle.std.specs.Str.{chars};
ghost use Rattle.snap_content.specs.View.{tree, pair_trees};
ghost use Rattle.snap_fields.specs.Fields.{text_at, line_at};
ghost use Rattle.snap_run_requests.specs.Keys.{Table, name_of, keys_in, value_at, times, is_one_of, IsKeyed, assertion_table, has_name};
ghost use Rattle.snap_run_requests.specs.Faults.{IsUnknownAt, IsKeyFault, NeedsText, TakesText};
ghost use Rattle.snap_run_requests.specs.Requests.{sorted_by, text_if, text_or_empty};
ghost use Rattle.snap_run_requests.specs.declared.key.Key.TheVariants.{Line, Name, Function, Sort};

use crate::fault::KeyFault;
use crate::key::Key;
use snap_content::Content;
use snap_fields::fields::{is_named, line_of, value_named};

/// Whether it is written as one of the keys.
fn is_one_of(written: &Content, keys: &[Key]) -> bool
    ensures { result ≡ is_one_of keys.now (tree written.now) }
{
    keys.iter().any(|key| is_named(written, key.name()))
}

/// The place of the first pair with another key.
fn unknown_place(pairs: &[(Content, Content)], keys: &[Key]) -> Option<usize>
    ensures { MatchOption result
        (list_all (is_one_of keys.now) (keys_in (pair_trees pairs.now)) ≡ true)
        (λ place. IsUnknownAt keys.now (pair_trees pairs.now) place) }
{
    for (place, pair) in pairs.iter().enumerate() {
        if !is_one_of(&pair.0, keys) {
            return Some(place);
        }
    }
    None
}

/// How many pairs have this key.
fn times(pairs: &[(Content, Content)], key: Key) -> usize
    ensures { result ≡ times key (pair_trees pairs.now) }
{
    pairs
        .iter()
        .filter(|pair| is_named(&pair.0, key.name()))
        .count()
}

/// The first key that stands twice.
fn key_twice(pairs: &[(Content, Content)]) -> Option<Key>
    ensures { MatchOption result
        ((key : Key) → times key (pair_trees pairs.now) ≤ 1)
        (λ key. 2 ≤ times key (pair_trees pairs.now)) }
{
    for key in Key::ALL {
        if times(pairs, key) > 1 {
            return Some(key);
        }
    }
    None
}

/// What is wrong with the keys of the pairs, where one is none of these or stands twice.
pub(crate) fn keys_fault(pairs: &[(Content, Content)], keys: &[Key]) -> Option<KeyFault>
    ensures { MatchOption result (IsKeyed keys.now (pair_trees pairs.now))
        (λ fault. (table : Table) → table.keys ≡ keys.now
        → IsKeyFault table (pair_trees pairs.now) fault) }
{
    match unknown_place(pairs, keys) {
        Some(place) => Some(KeyFault::Unknown { place }),
        None => match key_twice(pairs) {
            Some(key) => Some(KeyFault::Twice(key)),
            None => None,
        },
    }
}

/// The text at a key that is needed.
pub(crate) fn text_at<'a>(pairs: &'a [(Content, Content)], key: Key) -> Result<&'a str, KeyFault>
    ensures { MatchResult result
        (λ text. text_at (name_of key) (pair_trees pairs.now) ≡ Some (chars text.now))
        (λ fault. (table : Table) → NeedsText table (pair_trees pairs.now) key
        → IsKeyFault table (pair_trees pairs.now) fault) }
{
    match value_named(pairs, key.name()) {
        None => Err(KeyFault::Missing(key)),
        Some(value) => match value.as_str() {
            None => Err(KeyFault::WrongKind(key)),
            Some(text) => Ok(text),
        },
    }
}

/// The text at a key that may be missing.
pub(crate) fn text_if_there<'a>(
    pairs: &'a [(Content, Content)],
    key: Key,
) -> Result<Option<&'a str>, KeyFault>
    ensures { MatchResult result
        (λ text. text_if (value_at key (pair_trees pairs.now))
        ≡ Some (option_map (λ t. chars t.now) text))
        (λ fault. (table : Table) → TakesText table key
        → IsKeyFault table (pair_trees pairs.now) fault) }
{
    match value_named(pairs, key.name()) {
        None => Ok(None),
        Some(value) => match value.as_str() {
            None => Err(KeyFault::WrongKind(key)),
            Some(text) => Ok(Some(text)),
        },
    }
}

/// The text at a key, and an empty one where it is missing.
pub(crate) fn text_or_empty<'a>(
    pairs: &'a [(Content, Content)],
    key: Key,
) -> Result<&'a str, KeyFault>
    ensures { MatchResult result
        (λ text. text_or_empty (value_at key (pair_trees pairs.now)) ≡ Some (chars text.now))
        (λ fault. (table : Table) → TakesText table key
        → IsKeyFault table (pair_trees pairs.now) fault) }
{
    match value_named(pairs, key.name()) {
        None => Ok(""),
        Some(value) => match value.as_str() {
            None => Err(KeyFault::WrongKind(key)),
            Some(text) => Ok(text),
        },
    }
}

/// Whether a name or a function stands there; that is needed.
pub(crate) fn called(pairs: &[(Content, Content)]) -> Result<(), KeyFault>
    ensures { MatchResult result
        (λ _. has_name (pair_trees pairs.now) || is_some (value_at Function (pair_trees pairs.now)) ≡ true)
        (λ fault. IsKeyFault assertion_table (pair_trees pairs.now) fault) }
{
    let name = value_named(pairs, Key::Name.name());
    let function = value_named(pairs, Key::Function.name());
    if name.is_some() || function.is_some() {
        Ok(())
    } else {
        Err(KeyFault::Missing(Key::Function))
    }
}

/// The line's number, which is below 2^32.
pub(crate) fn line_at(pairs: &[(Content, Content)]) -> Result<u32, KeyFault>
    ensures { MatchResult result
        (λ line. line_at (name_of Line) (pair_trees pairs.now) ≡ Some line)
        (λ fault. IsKeyFault assertion_table (pair_trees pairs.now) fault) }
{
    match value_named(pairs, Key::Line.name()) {
        None => Err(KeyFault::Missing(Key::Line)),
        Some(value) => match line_of(value) {
            None => Err(KeyFault::WrongKind(Key::Line)),
            Some(line) => Ok(line),
        },
    }
}

/// Whether the pairs of a request say that maps are sorted.
pub(crate) fn sort_at(pairs: &[(Content, Content)]) -> Result<bool, KeyFault>
    ensures { MatchResult result
        (λ sort. sorted_by (value_at Sort (pair_trees pairs.now)) ≡ Some sort)
        (λ fault. IsKeyFault assertion_table (pair_trees pairs.now) fault) }
{
    match value_named(pairs, Key::Sort.name()) {
        None => Ok(false),
        Some(value) => match value.as_bool() {
            None => Err(KeyFault::WrongKind(Key::Sort)),
            Some(sort) => Ok(sort),
        },
    }
}
