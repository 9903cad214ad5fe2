//! Truths, nulls and signs.
ghost use Rattle.std.specs.Prelude.{◌≡◌};
ghost use Rattle.std.specs.Str.{chars};
ghost use Rattle.snap_explain_scalars.specs.Words.{begins_word, is_answer, is_null, is_switch, is_true_or_false, word_elsewhere};

use crate::otherwise::Otherwise;
use snap_content::characters::{is_same, split_first};

/// Whether the text is `yes` or `no`, in one of three spellings.
fn is_answer(text: &str) -> bool
    ensures { result ≡ is_answer (chars text.now) }
{
    is_same(text, "yes")
        || is_same(text, "Yes")
        || is_same(text, "YES")
        || is_same(text, "no")
        || is_same(text, "No")
        || is_same(text, "NO")
}

/// Whether the text is `on` or `off`, in one of three spellings.
fn is_switch(text: &str) -> bool
    ensures { result ≡ is_switch (chars text.now) }
{
    is_same(text, "on")
        || is_same(text, "On")
        || is_same(text, "ON")
        || is_same(text, "off")
        || is_same(text, "Off")
        || is_same(text, "OFF")
}

/// Whether the text is `true` or `false` in another spelling than these.
fn is_true_or_false(text: &str) -> bool
    ensures { result ≡ is_true_or_false (chars text.now) }
{
    is_same(text, "True")
        || is_same(text, "TRUE")
        || is_same(text, "False")
        || is_same(text, "FALSE")
}

/// Whether the text is `null` in another spelling than this.
fn is_null(text: &str) -> bool
    ensures { result ≡ is_null (chars text.now) }
{
    is_same(text, "Null") || is_same(text, "NULL")
}

/// Whether a text that begins so may be one of the words. Most texts begin with another character.
fn begins_word(text: &str) -> bool
    ensures { result ≡ begins_word (chars text.now) }
{
    match split_first(text) {
        None => false,
        Some((first, _)) => matches!(
            first,
            'y' | 'Y' | 'n' | 'N' | 'o' | 'O' | 'T' | 'F' | '.' | '<' | '='
        ),
    }
}

/// How others take one of the words.
fn meaning_elsewhere(text: &str) -> Option<Otherwise>
    ensures { result ≡ word_elsewhere (chars text.now) }
{
    if is_answer(text) || is_switch(text) || is_true_or_false(text) {
        return Some(Otherwise::Truth);
    }
    if is_null(text) {
        return Some(Otherwise::Null);
    }
    if is_same(text, ".NaN") {
        return Some(Otherwise::Number);
    }
    if is_same(text, "<<") {
        return Some(Otherwise::MergeKey);
    }
    if is_same(text, "=") {
        return Some(Otherwise::DefaultKey);
    }
    None
}

/// How others take a scalar that begins otherwise than a number.
pub(crate) fn word_elsewhere(text: &str) -> Option<Otherwise>
    ensures { result ≡ word_elsewhere (chars text.now) }
{
    if !begins_word(text) {
        return None;
    }
    meaning_elsewhere(text)
}
