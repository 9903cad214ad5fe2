//! The older form of a text, which has no breaks and no fence at its front.
ghost use Rattle.std.specs.Prelude.{◌≡◌, ◌∷◌, ℕ, List, IfOk, MatchOption};
ghost use Rattle.std.specs.Str.{chars};
ghost use Rattle.snap_text_literals.specs.Legacy.{without_breaks, without_fence, legacy};

use crate::normal::normal_text;
use snap_content::characters::{after_character, split_first};
use snap_content::{OutOfMemory, Text};
use std::alloc::Global;

/// The text without the returns and the line ends at its front.
pub(crate) fn without_breaks(text: &str) -> &str
    ensures { chars result.now ≡ without_breaks (chars text.now) }
{
    let mut rest = text;
    while let Some((c, next)) = split_first(rest) {
        if c != '\r' && c != '\n' {
            return rest;
        }
        rest = next;
    }
    rest
}

/// What follows `---` and a line's end, where the text begins so.
fn after_fence(text: &str) -> Option<&str>
    ensures { MatchOption result ((cs : List ℕ) → chars text.now ≡ 45 ∷ 45 ∷ 45 ∷ 10 ∷ cs → ⊥)
        (λ rest. chars text.now ≡ 45 ∷ 45 ∷ 45 ∷ 10 ∷ chars rest.now) }
{
    let text = after_character(text, '-')?;
    let text = after_character(text, '-')?;
    let text = after_character(text, '-')?;
    after_character(text, '\n')
}

/// The text without one such fence at its front.
pub(crate) fn without_fence(text: &str) -> &str
    ensures { chars result.now ≡ without_fence (chars text.now) }
{
    match after_fence(text) {
        Some(rest) => rest,
        None => text,
    }
}

/// The older form: the normal form without breaks and then without one fence at its front.
/// The one error is out of memory.
pub fn legacy_text(alloc: Global, text: &str) -> Result<Text, OutOfMemory>
    ensures { IfOk result (λ made. made ≡ legacy (chars text.now)) }
{
    let normal = normal_text(alloc, text)?;
    Text::from_str(alloc, without_fence(without_breaks(normal.as_str())))
}
