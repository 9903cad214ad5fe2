//! The words of the command line.
ghost use Rattle.std.specs.Prelude.{◌≡◌, None, Some, MatchOption};
ghost use Rattle.snap_run.specs.Answers.{mode_of, with_flag, flags_mean, words_mean, words_at};

use snap_assert_settings::config::{Flags, Update};
use snap_content::Text;
use snap_content::characters::is_same;

/// What the words of a run say.
#[derive(Clone, Copy, Debug)]
pub struct Said<'a> {
    pub workspace: &'a Text,
    pub update: Update,
    pub flags: Flags,
}

fn mode_in(word: &Text) -> Option<Update>
    ensures { result ≡ mode_of word.now }
{
    if is_same(word.as_str(), "inplace") {
        Some(Update::InPlace)
    } else if is_same(word.as_str(), "new") {
        Some(Update::NewFile)
    } else if is_same(word.as_str(), "no") {
        Some(Update::NoUpdate)
    } else {
        None
    }
}

/// The flags and one more, where the word is one that is not set yet.
fn with_flag(word: &Text, flags: Flags) -> Option<Flags>
    ensures { result ≡ with_flag word.now flags }
{
    if is_same(word.as_str(), "--force") && !flags.force_update {
        Some(Flags {
            force_update: true,
            ..flags
        })
    } else if is_same(word.as_str(), "--force-pass") && !flags.force_pass {
        Some(Flags {
            force_pass: true,
            ..flags
        })
    } else if is_same(word.as_str(), "--full") && !flags.full {
        Some(Flags {
            full: true,
            ..flags
        })
    } else if is_same(word.as_str(), "--literal") && !flags.literal {
        Some(Flags {
            literal: true,
            ..flags
        })
    } else {
        None
    }
}

/// Each flag stands at most once, in any order.
fn flags_in(words: &[Text]) -> Option<Flags>
    ensures { result ≡ flags_mean words.now }
{
    let mut flags = Flags {
        force_update: false,
        force_pass: false,
        full: false,
        literal: false,
    };
    for word in words {
        flags = with_flag(word, flags)?;
    }
    Some(flags)
}

/// What the words `run MODE WORKSPACE FLAG*` say.
pub fn said_in(words: &[Text]) -> Option<Said<'_>>
    ensures { MatchOption result (words_mean words.now ≡ None)
        (λ said. words_mean words.now ≡ Some (words_at said.workspace.now said.update said.flags)) }
{
    match words {
        [command, mode, workspace, flags @ ..] => {
            if !is_same(command.as_str(), "run") {
                return None;
            }
            let update = mode_in(mode)?;
            let flags = flags_in(flags)?;
            Some(Said {
                workspace,
                update,
                flags,
            })
        }
        _ => None,
    }
}
