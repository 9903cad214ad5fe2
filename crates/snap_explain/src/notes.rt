//! What is to be said of a request that passes, in words.
ghost use Rattle.std.specs.Prelude.{◌≡◌};
ghost use Rattle.std.specs.List.{list_any};
ghost use Rattle.snap_explain.specs.Notes.{has_file_word, has_word, is_number, is_older, is_oldest, notes_by, word_if};

use snap_assert::outcome::Warning;
use std::fmt;

/// What is to be said of a request that passes.
#[derive(Clone, Copy, Debug, PartialEq, Eq)]
pub struct Notes {
    /// A pending snapshot waits beside the file.
    pub pending: bool,
    /// The file is of the oldest format.
    pub oldest: bool,
    /// The header of the file keeps a number as a text.
    pub number: bool,
    /// It passes by an older form alone.
    pub older: bool,
    /// The earlier document that asks for the same path first, while no block of duplicates is open.
    pub earlier: Option<u64>,
    /// The path leaves the workspace.
    pub outside: bool,
}

fn is_oldest(warning: &Warning) -> bool
    ensures { result ≡ is_oldest warning.now }
{
    matches!(warning, Warning::LegacyFile)
}

fn is_number(warning: &Warning) -> bool
    ensures { result ≡ is_number warning.now }
{
    matches!(warning, Warning::NumberAsText)
}

fn is_older(warning: &Warning) -> bool
    ensures { result ≡ is_older warning.now }
{
    matches!(warning, Warning::LegacyContents)
}

fn has_oldest(warnings: &[Warning]) -> bool
    ensures { result ≡ list_any is_oldest warnings.now }
{
    warnings.iter().any(|warning| is_oldest(warning))
}

fn has_number(warnings: &[Warning]) -> bool
    ensures { result ≡ list_any is_number warnings.now }
{
    warnings.iter().any(|warning| is_number(warning))
}

fn has_older(warnings: &[Warning]) -> bool
    ensures { result ≡ list_any is_older warnings.now }
{
    warnings.iter().any(|warning| is_older(warning))
}

/// What is to be said, by whether a pending snapshot waits, by what the comparison warns of, by the earlier document that asks for the
/// path, and by whether that leaves the workspace.
pub fn notes_by(pending: bool, warnings: &[Warning], earlier: Option<u64>, outside: bool) -> Notes
    ensures { result ≡ notes_by pending warnings.now earlier outside }
{
    Notes {
        pending,
        oldest: has_oldest(warnings),
        number: has_number(warnings),
        older: has_older(warnings),
        earlier,
        outside,
    }
}

impl Notes {
    /// Whether something is to be said of the file.
    pub fn has_file_word(&self) -> bool
        ensures { result ≡ has_file_word self.now }
    {
        self.pending || self.oldest || self.number || self.older
    }

    /// Whether something is to be said.
    pub fn has_word(&self) -> bool
        ensures { result ≡ has_word self.now }
    {
        self.has_file_word() || self.earlier.is_some() || self.outside
    }
}

/// The word, where it holds.
fn word_if(holds: bool, word: &'static str) -> &'static str
    ensures { result.now ≡ word_if holds word.now }
{
    if holds { word } else { "" }
}

/// The words on the file, after what kind of finding it is.
impl fmt::Display for Notes {
    ghost use Rattle.std.specs.Prelude.{Some};
    ghost use Rattle.snap_explain.specs.Notes.{notes_text};

    ghost output = { λ notes. Some (notes_text notes) };

    fn fmt<W: fmt::Write>(&self, f: &mut fmt::Formatter<W>) -> fmt::Result {
        let pending = word_if(self.pending, "; a pending snapshot waits beside it");
        let oldest = word_if(self.oldest, "; it is of the oldest format");
        let number = word_if(self.number, "; its header keeps a number as a text");
        let older = word_if(self.older, "; it agrees by an older form alone");
        write!(f, "passes{pending}{oldest}{number}{older}")
    }
}
