//! How other readers take a scalar.
ghost use Rattle.std.specs.Prelude.{◌≡◌};
ghost use Rattle.std.specs.Str.{chars};
ghost use Rattle.snap_explain_scalars.specs.Elsewhere.{begins_number, read_elsewhere};

use crate::numbers::number_elsewhere;
use crate::otherwise::Otherwise;
use crate::words::word_elsewhere;
use snap_content::characters::split_first;

/// Whether the text begins with a digit or a sign.
fn begins_number(text: &str) -> bool
    ensures { result ≡ begins_number (chars text.now) }
{
    match split_first(text) {
        None => false,
        Some((first, _)) => first.is_ascii_digit() || first == '+' || first == '-',
    }
}

/// How other readers take a plain scalar of this text, where they take it otherwise.
pub fn read_elsewhere(text: &str) -> Option<Otherwise>
    ensures { result ≡ read_elsewhere (chars text.now) }
{
    if begins_number(text) {
        number_elsewhere(text)
    } else {
        word_elsewhere(text)
    }
}
