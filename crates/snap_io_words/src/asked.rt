//! What a program says of itself, where its only word asks for that.
ghost use Rattle.std.specs.Prelude.{◌≡◌, None, Some, MatchOption};
ghost use Rattle.snap_io_words.specs.Asked.{text_asked};

use snap_content::Text;
use snap_content::characters::is_same;

/// The text that the words ask for: the usage where `--help` is the only word, and the version where `--version` is.
pub fn text_in<'a>(words: &[Text], usage: &'a str, version: &'a str) -> Option<&'a str>
    ensures { MatchOption result (text_asked usage.now version.now words.now ≡ None)
        (λ text. text_asked usage.now version.now words.now ≡ Some text.now) }
{
    match words {
        [word] => {
            if is_same(word.as_str(), "--help") {
                Some(usage)
            } else if is_same(word.as_str(), "--version") {
                Some(version)
            } else {
                None
            }
        }
        _ => None,
    }
}
