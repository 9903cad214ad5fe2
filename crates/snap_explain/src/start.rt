//! What a line begins with that no JSON text begins with.
ghost use Rattle.std.specs.Prelude.{◌≡◌, ◌++◌};
ghost use Rattle.std.specs.Str.{chars};
ghost use Rattle.snap_explain.specs.Starts.{blanks, after_blanks, start_of};

use crate::fault::Start;
use snap_content::characters::split_first;

fn skip_blanks(text: &str) -> &str
    ensures { chars result.now ≡ after_blanks (chars text.now) }
{
    let mut rest = text;
    'blanks: loop {
        match split_first(rest) {
            None => return rest,
            Some((' ', more)) => rest = more,
            Some(_) => return rest,
        }
    }
}

/// The text after its blanks.
pub(crate) fn after_blanks(text: &str) -> &str
    ensures rest { chars result.now ≡ after_blanks (chars text.now) }
    ensures front { chars text.now ≡ blanks (chars text.now) ++ chars result.now }
{
    skip_blanks(text)
}

/// What a text without blanks in front begins with.
pub(crate) fn start_of(text: &str) -> Start
    ensures { result ≡ start_of (chars text.now) }
{
    match split_first(text) {
        None => Start::Nothing,
        Some(('\t', _)) => Start::Tab,
        Some(('\u{feff}', _)) => Start::Mark,
        Some(_) => Start::Other,
    }
}
