//! What the pairs of a map tell under a name. Each function says it of any pairs, and of those that a reader made of entries.
ghost use Rattle.std.specs.Prelude.{◌≡◌, ◌&&◌, not, IsTrue, Some, None, option_map, if◌then◌else◌};
ghost use Rattle.std.specs.Char.{is_ascii};
ghost use Rattle.std.specs.List.{list_all};
ghost use Rattle.std.specs.Str.{chars};
ghost use Rattle.snap_content.specs.Plain.{Entries, content_of, pairs_made};
ghost use Rattle.snap_content.specs.View.{tree, pair_trees};
ghost use Rattle.snap_fields.specs.Fields.{is_key, is_nil, last_in, last_filled_in, text_at, line_at, tree_line};
ghost use Rattle.snap_fields.specs.Made.{last_value, last_filled, text_value, line_value};

use snap_content::Content;
use snap_content::characters::is_same;

/// The value of the last pair of this name.
pub fn value_named<'a>(pairs: &'a [(Content, Content)], name: &str) -> Option<&'a Content>
    requires { IsTrue (list_all is_ascii name.now) }
    ensures tree { option_map (λ value. tree value.now) result
        ≡ last_in name.now (pair_trees pairs.now) }
    ensures made { (entries : Entries) → pair_trees pairs.now ≡ pairs_made entries
        → option_map (λ value. tree value.now) result
        ≡ option_map content_of (last_value name.now entries) }
{
    let mut left = pairs;
    while let Some((pair, front)) = left.split_last() {
        match value_if_named(pair, name) {
            Some(value) => return Some(value),
            None => left = front,
        }
    }
    None
}

/// The value of the pair, where it has this name.
fn value_if_named<'a>(pair: &'a (Content, Content), name: &str) -> Option<&'a Content>
    requires { IsTrue (list_all is_ascii name.now) }
    ensures { option_map (λ value. tree value.now) result
        ≡ (if is_key name.now (tree pair.now.0) then Some (tree pair.now.1) else None) }
{
    let (key, value) = pair;
    if is_named(key, name) {
        Some(value)
    } else {
        None
    }
}

/// The same, taken out of the pairs.
pub fn value_taken(pairs: Vec<(Content, Content)>, name: &str) -> Option<Content>
    requires { IsTrue (list_all is_ascii name.now) }
    ensures tree { option_map tree result ≡ last_in name.now (pair_trees pairs.items) }
    ensures made { (entries : Entries) → pair_trees pairs.items ≡ pairs_made entries
        → option_map tree result ≡ option_map content_of (last_value name.now entries) }
{
    let mut left = pairs;
    while let Some(pair) = left.pop() {
        match taken_if_named(pair, name) {
            Some(value) => return Some(value),
            None => {}
        }
    }
    None
}

/// The value of the pair, where it has this name, taken out of it.
fn taken_if_named(pair: (Content, Content), name: &str) -> Option<Content>
    requires { IsTrue (list_all is_ascii name.now) }
    ensures { option_map tree result
        ≡ (if is_key name.now (tree pair.0) then Some (tree pair.1) else None) }
{
    let (key, value) = pair;
    let is_named = is_named(&key, name);
    drop(key);
    if is_named {
        Some(value)
    } else {
        drop(value);
        None
    }
}

/// The value of the last pair of this name, where a pair with a nil value is as if it were not there.
pub fn filled_named<'a>(pairs: &'a [(Content, Content)], name: &str) -> Option<&'a Content>
    requires { IsTrue (list_all is_ascii name.now) }
    ensures tree { option_map (λ value. tree value.now) result
        ≡ last_filled_in name.now (pair_trees pairs.now) }
    ensures made { (entries : Entries) → pair_trees pairs.now ≡ pairs_made entries
        → option_map (λ value. tree value.now) result
        ≡ option_map content_of (last_filled name.now entries) }
{
    let mut left = pairs;
    while let Some((pair, before)) = left.split_last() {
        match value_if_filled(pair, name) {
            Some(value) => return Some(value),
            None => left = before,
        }
    }
    None
}

/// The value of the pair, where it has this name and is not nil.
fn value_if_filled<'a>(pair: &'a (Content, Content), name: &str) -> Option<&'a Content>
    requires { IsTrue (list_all is_ascii name.now) }
    ensures { option_map (λ value. tree value.now) result
        ≡ (if is_key name.now (tree pair.now.0) && not (is_nil (tree pair.now.1))
        then Some (tree pair.now.1) else None) }
{
    let (key, value) = pair;
    if is_named(key, name) && !value.is_nil() {
        Some(value)
    } else {
        None
    }
}

/// The text of the last pair of this name.
pub fn text_named<'a>(pairs: &'a [(Content, Content)], name: &str) -> Option<&'a str>
    requires { IsTrue (list_all is_ascii name.now) }
    ensures tree { option_map (λ text. chars text.now) result
        ≡ text_at name.now (pair_trees pairs.now) }
    ensures made { (entries : Entries) → pair_trees pairs.now ≡ pairs_made entries
        → option_map (λ text. chars text.now) result ≡ text_value (last_value name.now entries) }
{
    match value_named(pairs, name) {
        None => None,
        Some(value) => value.as_str(),
    }
}

/// The line's number, below 2^32, that is the value of the last pair of this name.
pub fn line_named(pairs: &[(Content, Content)], name: &str) -> Option<u32>
    requires { IsTrue (list_all is_ascii name.now) }
    ensures tree { result ≡ line_at name.now (pair_trees pairs.now) }
    ensures made { (entries : Entries) → pair_trees pairs.now ≡ pairs_made entries
        → result ≡ line_value (last_value name.now entries) }
{
    match value_named(pairs, name) {
        None => None,
        Some(value) => line_of(value),
    }
}

/// The line's number, below 2^32, that a tree is.
pub fn line_of(value: &Content) -> Option<u32>
    ensures { result ≡ tree_line (tree value.now) }
{
    match value.as_u64() {
        None => None,
        Some(number) => u32::try_from(number).ok(),
    }
}

/// Whether the key is the text of this name.
pub fn is_named(key: &Content, name: &str) -> bool
    requires { IsTrue (list_all is_ascii name.now) }
    ensures { result ≡ is_key name.now (tree key.now) }
{
    match key.as_str() {
        None => false,
        Some(text) => is_same(text, name),
    }
}
