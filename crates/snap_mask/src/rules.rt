//! The rules that the words of a command line spell.
ghost use Rattle.std.specs.Prelude.{◌≡◌, ◌<◌, ◌∷◌, List, ℕ, None, length, IfOk, IfSome, MatchOption, option_map};
ghost use Rattle.std.specs.Str.{chars};
ghost use Rattle.snap_content.specs.Tree.{string};
ghost use Rattle.snap_content.specs.View.{tree};
ghost use Rattle.snap_select.specs.Replacements.{put_of};
ghost use Rattle.snap_select.specs.Selected.{selected};
ghost use Rattle.snap_select.specs.Selectors.{parts_of};
ghost use Rattle.snap_assert_settings.specs.Replaced.{ReplacementView, replacements_of, redacted_by};
ghost use Rattle.snap_mask.specs.Rules.{AreRules, IsFirst, rules_in, puts_in, sorts_in};

use snap_assert_settings::redactions::{Redactions, Replacements};
use snap_content::characters::is_same;
use snap_content::{Content, OutOfMemory, Text};
use snap_select::{Replacement, SelectError, Selector};
use std::alloc::Global;

/// A selector, and what is put in place of what it reaches.
type Rule = (Selector<'static>, Replacement);

/// The rules that the words spell, in their order; none where the words spell no rules.
/// `--put SELECTOR TEXT` puts the text in place of what the selector reaches, and `--sort SELECTOR` puts the list that it reaches in order.
pub fn rules_of(alloc: Global, words: &[Text]) -> Result<Option<Replacements>, OutOfMemory>
    ensures { IfOk result (λ found. option_map (λ held. replacements_of held.items) found
        ≡ rules_in words.now) }
{
    let mut rules = Vec::new(alloc);
    let mut rest = words;
    'rules: while !rest.is_empty() {
        let Some((rule, more)) = first_rule(alloc, rest)? else {
            return Ok(None);
        };
        rules.push(rule)?;
        rest = more;
    }
    Ok(Some(rules))
}

/// What the rules make of a value, each in turn.
pub fn masked(alloc: Global, rules: &Redactions, value: Content) -> Result<Content, OutOfMemory>
    ensures { (views : List ReplacementView) → AreRules rules.now views
        → IfOk result (λ made. tree made ≡ redacted_by views (tree value)) }
{
    Ok(rules.apply(alloc, value)?)
}

/// The rule that the words begin with, and the words after it.
fn first_rule<'a>(
    alloc: Global,
    words: &'a [Text],
) -> Result<Option<(Rule, &'a [Text])>, OutOfMemory>
    requires { 0 < length words.now }
    ensures rule { IfOk result (λ found. MatchOption found (rules_in words.now ≡ None)
        (λ first. IsFirst (rules_in words.now) first.0 first.1.now)) }
    ensures shorter { IfOk result (λ found. IfSome found
        (λ first. length first.1.now < length words.now)) }
{
    match words {
        [] => Ok(None),
        [option, rest @ ..] => {
            if is_same(option.as_str(), "--put") {
                put_rule(alloc, rest)
            } else if is_same(option.as_str(), "--sort") {
                sort_rule(alloc, rest)
            } else {
                Ok(None)
            }
        }
    }
}

/// A selector, the text that is put in place of what it reaches, and the words after them.
fn put_rule<'a>(alloc: Global, words: &'a [Text]) -> Result<Option<(Rule, &'a [Text])>, OutOfMemory>
    ensures rule { IfOk result (λ found. MatchOption found (puts_in words.now ≡ None)
        (λ first. IsFirst (puts_in words.now) first.0 first.1.now)) }
    ensures shorter { IfOk result (λ found. IfSome found
        (λ first. length first.1.now < length words.now)) }
{
    match words {
        [selector, rest @ ..] => put_at(alloc, selector, rest),
        [] => Ok(None),
    }
}

/// The text that is put in place of what the selector reaches, and the words after it.
fn put_at<'a>(
    alloc: Global,
    selector: &Text,
    words: &'a [Text],
) -> Result<Option<(Rule, &'a [Text])>, OutOfMemory>
    ensures rule { IfOk result (λ found.
        MatchOption found (puts_in (selector.now ∷ words.now) ≡ None)
        (λ first. IsFirst (puts_in (selector.now ∷ words.now)) first.0 first.1.now)) }
    ensures shorter { IfOk result (λ found. IfSome found
        (λ first. length first.1.now < length words.now)) }
{
    match words {
        [text, rest @ ..] => {
            let Some(selector) = read_selector(alloc, selector.as_str())? else {
                return Ok(None);
            };
            Ok(Some(((selector, put_text(alloc, text)?), rest)))
        }
        [] => Ok(None),
    }
}

/// A text in place of whatever stands there. It is not read as YAML.
fn put_text(alloc: Global, text: &Text) -> Result<Replacement, OutOfMemory>
    ensures { IfOk result (λ made. put_of made ≡ (λ _. string text.now)) }
{
    let text = text.try_clone(alloc)?;
    Ok(Replacement::from_content(Content::String(text)))
}

/// A selector of lists that are put in order, and the words after it.
fn sort_rule<'a>(
    alloc: Global,
    words: &'a [Text],
) -> Result<Option<(Rule, &'a [Text])>, OutOfMemory>
    ensures rule { IfOk result (λ found. MatchOption found (sorts_in words.now ≡ None)
        (λ first. IsFirst (sorts_in words.now) first.0 first.1.now)) }
    ensures shorter { IfOk result (λ found. IfSome found
        (λ first. length first.1.now < length words.now)) }
{
    match words {
        [selector, rest @ ..] => {
            let Some(selector) = read_selector(alloc, selector.as_str())? else {
                return Ok(None);
            };
            Ok(Some(((selector, Replacement::Sorted), rest)))
        }
        [] => Ok(None),
    }
}

/// The selector that a text is, if it is one.
fn read_selector(alloc: Global, text: &str) -> Result<Option<Selector<'static>>, OutOfMemory>
    ensures { IfOk result (λ found. option_map parts_of found ≡ selected (chars text.now)) }
{
    match Selector::parse(alloc, text) {
        Ok(selector) => Ok(Some(selector.make_static(alloc)?)),
        Err(SelectError::Parse(_)) => Ok(None),
        Err(SelectError::OutOfMemory) => Err(OutOfMemory),
    }
}
