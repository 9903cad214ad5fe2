//! A source with new literals in place of old ones.
ghost use Rattle.std.specs.Prelude.{◌≡◌, ◌++◌, ◌<◌, List, ℕ, Some, IfOk, IfErr, MatchOption, MatchResult, IsTrue, ◌↔◌};
ghost use Rattle.std.specs.Str.{chars};
ghost use Rattle.snap_text_literals.specs.Inline.{inline_normal};
ghost use Rattle.snap_text_literals.specs.Literal.{literal_reads};
ghost use Rattle.snap_text_literals.specs.OfLiteral.{of_literal};
ghost use Rattle.snap_text_literals.specs.Fronts.{IsBehind};
ghost use Rattle.snap_review.specs.Places.{from_line, IsMarked};
ghost use Rattle.snap_review.specs.Patched.{IsStable, StandsFor, IsFresh, IsStale, IsTaken, Puts, Stops, PatchEnd, FreshEnd};

use crate::places::{first_marked, from_line};
use snap_content::characters::before_rest;
use snap_content::{OutOfMemory, Text};
use snap_text_literals::inline::inline_normal_text;
use snap_text_literals::laws::one_text;
use snap_text_literals::lines::lead;
use snap_text_literals::literal::{from_inline_literal, to_inline};
use snap_text_literals::{LiteralError, read_literal};
use std::alloc::Global;

/// What is to be put in place of the first literal from a line on.
#[derive(Debug, Drop)]
pub struct NewLiteral {
    pub line: u32,
    /// The text that the new literal stands for.
    pub text: Text,
    /// The text that the old literal stands for, where it is known.
    pub old: Option<Text>,
}

/// Why a source is not patched.
#[derive(Clone, Copy, Debug, PartialEq, Eq)]
pub enum Refusal {
    NotStable { line: u32 },
    NoLiteral { line: u32 },
    Stale { line: u32 },
    SameLiteral { line: u32 },
    OutOfMemory,
}

impl From<OutOfMemory> for Refusal {
    ghost use Rattle.std.specs.Prelude.{◌≡◌};
    ghost use Rattle.snap_review.specs.declared.patching.Refusal.TheVariants.{OutOfMemory};

    ghost from_gives = { λ _ e. e ≡ OutOfMemory };

    fn from(_: OutOfMemory) -> Self {
        Refusal::OutOfMemory
    }
}

/// Whether a text is its own normal form.
fn is_stable(alloc: Global, text: &Text) -> Result<bool, OutOfMemory>
    ensures { IfOk result (λ same. IsTrue same ↔ IsStable text.now) }
{
    let normal = inline_normal_text(alloc, text.as_str())?;
    Ok(normal == *text)
}

/// Whether the inline text of a literal that reads as this text has this normal form.
fn is_normal_of(alloc: Global, text: &Text, normal: &Text) -> Result<bool, OutOfMemory>
    ensures { IfOk result (λ same. IsTrue same
        ↔ (inline_normal (of_literal text.now) ≡ normal.now)) }
{
    let made = from_inline_literal(alloc, text.as_str())?;
    let known = inline_normal_text(alloc, made.as_str())?;
    Ok(known == *normal)
}

/// Whether the literal with which the text begins, in front of what stands behind it, stands for this normal form.
fn stands_for(alloc: Global, here: &str, behind: &str, normal: &Text) -> Result<bool, OutOfMemory>
    requires { IsBehind literal_reads (chars here.now) (chars behind.now) }
    ensures { IfOk result (λ same. IsTrue same
        ↔ StandsFor (chars here.now) (chars behind.now) normal.now) }
{
    let literal = before_rest(here, behind);
    // A literal is read, so the one error is want of memory.
    let Ok(text) = read_literal(alloc, literal) else {
        return Err(OutOfMemory);
    };
    one_text();
    match is_normal_of(alloc, &text, normal) {
        Ok(same) => Ok(same),
        Err(error) => Err(error),
    }
}

/// Whether the old text, where it is known, is that for which the literal stands.
fn is_fresh(
    alloc: Global,
    old: &Option<Text>,
    here: &str,
    behind: &str,
) -> Result<bool, OutOfMemory>
    requires { IsBehind literal_reads (chars here.now) (chars behind.now) }
    ensures { IfOk result (λ fresh. FreshEnd fresh old.now (chars here.now) (chars behind.now)) }
{
    match old {
        None => Ok(true),
        Some(old) => match stands_for(alloc, here, behind, old) {
            Ok(same) => Ok(same),
            Err(error) => Err(error),
        },
    }
}

/// What stands in the rest of a source before another rest of it; none where that is the longer one.
fn gap_before<'a>(source: &str, rest: &'a str, here: &str) -> Option<&'a str>
    requires rest { (a : List ℕ) × (chars source.now ≡ a ++ chars rest.now) }
    requires here { (a : List ℕ) × (chars source.now ≡ a ++ chars here.now) }
    ensures { MatchOption result (IsTaken (chars rest.now) (chars here.now))
        (λ gap. chars rest.now ≡ chars gap.now ++ chars here.now) }
{
    if rest.len() < here.len() {
        return None;
    }
    Some(before_rest(rest, here))
}

/// Adds what stands before the old literal, and the new one. What stands behind the old one.
fn put_literal<'a>(
    alloc: Global,
    source: &str,
    from: &'a str,
    rest: &'a str,
    change: &NewLiteral,
    made: &mut Text,
) -> Result<&'a str, Refusal>
    requires line { from_line change.now.line (chars source.now) ≡ Some (chars from.now) }
    requires stable { IsStable change.now.text }
    requires rest { (a : List ℕ) × (chars source.now ≡ a ++ chars rest.now) }
    ensures ok { IfOk result (λ behind. (put : List ℕ)
        × Puts (chars source.now) (chars rest.now) change.now put (chars behind.now)
        × (made.new ≡ made.old ++ put)) }
    ensures err { IfErr result (λ refusal.
        Stops (chars source.now) (chars rest.now) change.now refusal) }
{
    let line = change.line;
    let Some((here, behind)) = first_marked(from) else {
        return Err(Refusal::NoLiteral { line });
    };
    let fresh = is_fresh(alloc, &change.old, here, behind)?;
    if fresh {
        let Some(gap) = gap_before(source, rest, here) else {
            return Err(Refusal::SameLiteral { line });
        };
        made.push_str(alloc, gap)?;
        let literal = to_inline(alloc, change.text.as_str(), lead(from))?;
        made.push_str(alloc, literal.as_str())?;
        Ok(behind)
    } else {
        Err(Refusal::Stale { line })
    }
}

/// Does that for the first literal from the change's line on. The text from that line on, and what stands behind the old literal.
fn put_change<'a>(
    alloc: Global,
    source: &'a str,
    at: u32,
    ahead: &'a str,
    rest: &'a str,
    change: &NewLiteral,
    made: &mut Text,
) -> Result<(&'a str, &'a str), Refusal>
    requires line { from_line at (chars source.now) ≡ Some (chars ahead.now) }
    requires rest { (a : List ℕ) × (chars source.now ≡ a ++ chars rest.now) }
    ensures line { IfOk result (λ p. from_line change.now.line (chars source.now)
        ≡ Some (chars p.0.now)) }
    ensures ok { IfOk result (λ p. (put : List ℕ)
        × Puts (chars source.now) (chars rest.now) change.now put (chars p.1.now)
        × (made.new ≡ made.old ++ put)) }
    ensures err { IfErr result (λ refusal.
        Stops (chars source.now) (chars rest.now) change.now refusal) }
{
    let line = change.line;
    let stable = is_stable(alloc, &change.text)?;
    if stable {
        match from_line(source, at, ahead, line) {
            None => Err(Refusal::NoLiteral { line }),
            Some(from) => match put_literal(alloc, source, from, rest, change, made) {
                Err(refusal) => Err(refusal),
                Ok(behind) => Ok((from, behind)),
            },
        }
    } else {
        Err(Refusal::NotStable { line })
    }
}

/// The source with each literal put in place of the first one from its line on. All lines are those of the source before.
pub fn patched(alloc: Global, source: &str, changes: &[NewLiteral]) -> Result<Text, Refusal>
    ensures { PatchEnd (chars source.now) (chars source.now) changes.now result }
{
    let mut made = Text::empty();
    let mut rest = source;
    let mut at = 1;
    let mut ahead = source;
    for change in changes {
        match put_change(alloc, source, at, ahead, rest, change, &mut made) {
            Err(refusal) => return Err(refusal),
            Ok((from, behind)) => {
                rest = behind;
                at = change.line;
                ahead = from;
            }
        }
    }
    match made.push_str(alloc, rest) {
        Ok(()) => Ok(made),
        Err(_) => Err(Refusal::OutOfMemory),
    }
}
