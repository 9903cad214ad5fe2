//! The redactions of a request.
ghost use Rattle.std.specs.Prelude.{◌≡◌, Some, MatchResult};
ghost use Rattle.std.specs.Str.{chars};
ghost use Rattle.snap_content.specs.Tree.{map};
ghost use Rattle.snap_content.specs.View.{tree, item_trees, pair_trees};
ghost use Rattle.snap_select.specs.Grammar.{IsSelector};
ghost use Rattle.snap_select.specs.Replacements.{put_of};
ghost use Rattle.snap_select.specs.Selectors.{parts_of};
ghost use Rattle.snap_assert_settings.specs.Replaced.{replacement_of, replacements_of};
ghost use Rattle.snap_run_requests.specs.Keys.{value_at};
ghost use Rattle.snap_run_requests.specs.Requests.{IsRedaction, AreRedactions, AreRedactionsAt, SelectsAt, put_by};
ghost use Rattle.snap_run_requests.specs.Faults.{IsAssertionEnd, IsItemsEnd, IsRedactionEnd, IsSelectorEnd, end_at};

use crate::fault::{KeyFault, Reason, RedactionFault, RequestError};
use crate::key::Key;
use crate::pairs::{keys_fault, text_at};
use snap_assert_settings::redactions::Replacements;
use snap_content::{Content, OutOfMemory};
use snap_fields::fields::value_named;
use snap_select::{Replacement, SelectError, Selector};
use std::alloc::Global;

/// Why an item is not read as a redaction.
#[derive(Clone, Copy, Debug)]
pub(crate) enum Stop {
    Fault(RedactionFault),
    OutOfMemory,
}

impl From<OutOfMemory> for Stop {
    ghost use Rattle.std.specs.Prelude.{◌≡◌};
    ghost use Rattle.snap_run_requests.specs.declared.redaction_items.Stop.TheVariants.{OutOfMemory as NoMemory};

    ghost from_gives = { λ _ e. e ≡ NoMemory };

    fn from(_error: OutOfMemory) -> Stop {
        Stop::OutOfMemory
    }
}

impl From<KeyFault> for Stop {
    ghost use Rattle.std.specs.Prelude.{◌≡◌};
    ghost use Rattle.snap_run_requests.specs.declared.fault.RedactionFault.TheVariants.{Key as OfKey};
    ghost use Rattle.snap_run_requests.specs.declared.redaction_items.Stop.TheVariants.{Fault};

    ghost from_gives = { λ fault e. e ≡ Fault (OfKey fault) };

    fn from(fault: KeyFault) -> Stop {
        Stop::Fault(RedactionFault::Key(fault))
    }
}

/// The redactions that the pairs of a request hold.
pub(crate) fn redactions_of_pairs(
    alloc: Global,
    pairs: &[(Content, Content)],
) -> Result<Replacements, RequestError>
    ensures { MatchResult result
        (λ held. AreRedactionsAt (value_at Key.Redactions (pair_trees pairs.now))
        (replacements_of held.items))
        (λ error. IsAssertionEnd (pair_trees pairs.now) error) }
{
    let Some(value) = value_named(pairs, Key::Redactions.name()) else {
        return Ok(Vec::new(alloc));
    };
    match value.as_slice() {
        None => Err(RequestError::NoRequest(Reason::Key(KeyFault::WrongKind(Key::Redactions)))),
        Some(items) => read_redactions(alloc, items),
    }
}

/// The redactions that trees are.
fn read_redactions(alloc: Global, items: &[Content]) -> Result<Replacements, RequestError>
    ensures { MatchResult result
        (λ held. AreRedactions (item_trees items.now) (replacements_of held.items))
        (λ error. IsItemsEnd (item_trees items.now) error) }
{
    let mut redactions = Vec::new(alloc);
    for (place, item) in items.iter().enumerate() {
        match read_redaction(alloc, item) {
            Ok(redaction) => redactions.push(redaction)?,
            Err(stop) => return Err(stopped_at(place, stop)),
        }
    }
    Ok(redactions)
}

/// What the list comes to, where its item at this place is not read.
fn stopped_at(place: usize, stop: Stop) -> RequestError
    ensures { result ≡ end_at place stop }
{
    match stop {
        Stop::Fault(fault) => RequestError::NoRequest(Reason::NoRedaction { place, fault }),
        Stop::OutOfMemory => RequestError::OutOfMemory,
    }
}

/// The redaction that a tree is.
fn read_redaction(
    alloc: Global,
    content: &Content,
) -> Result<(Selector<'static>, Replacement), Stop>
    ensures { MatchResult result
        (λ redaction. IsRedaction (tree content.now) (replacement_of redaction))
        (λ stop. IsRedactionEnd (tree content.now) stop) }
{
    match content {
        Content::Map(pairs) => redaction_of_pairs(alloc, pairs.as_slice()),
        _ => Err(Stop::Fault(RedactionFault::NoMap)),
    }
}

/// The redaction that a map of these pairs is.
fn redaction_of_pairs(
    alloc: Global,
    pairs: &[(Content, Content)],
) -> Result<(Selector<'static>, Replacement), Stop>
    ensures { MatchResult result
        (λ redaction. IsRedaction (map (pair_trees pairs.now)) (replacement_of redaction))
        (λ stop. IsRedactionEnd (map (pair_trees pairs.now)) stop) }
{
    if let Some(fault) = keys_fault(pairs, &Key::OF_REDACTION) {
        return Err(Stop::Fault(RedactionFault::Key(fault)));
    }
    let selector = selector_at(alloc, pairs)?;
    let replacement = read_put(alloc, pairs)?;
    Ok((selector, replacement))
}

/// The selector that stands at `at`.
fn selector_at(alloc: Global, pairs: &[(Content, Content)]) -> Result<Selector<'static>, Stop>
    ensures { MatchResult result (λ selector. SelectsAt (pair_trees pairs.now) (parts_of selector))
        (λ stop. IsRedactionEnd (map (pair_trees pairs.now)) stop) }
{
    let at = text_at(pairs, Key::At)?;
    read_selector(alloc, at)
}

/// The selector that a text is.
fn read_selector(alloc: Global, text: &str) -> Result<Selector<'static>, Stop>
    ensures { MatchResult result (λ selector. IsSelector (chars text.now) (parts_of selector))
        (λ stop. IsSelectorEnd (chars text.now) stop) }
{
    match Selector::parse(alloc, text) {
        Ok(selector) => Ok(selector.make_static(alloc)?),
        Err(SelectError::Parse(error)) => Err(Stop::Fault(RedactionFault::NoSelector(error))),
        Err(SelectError::OutOfMemory) => Err(Stop::OutOfMemory),
    }
}

/// What stands in place of a value: the tree at `put`, or, where `sort` is true, the value with its list in order.
fn read_put(alloc: Global, pairs: &[(Content, Content)]) -> Result<Replacement, Stop>
    ensures { MatchResult result
        (λ replacement. put_by (value_at Key.Put (pair_trees pairs.now))
        (value_at Key.Sort (pair_trees pairs.now)) ≡ Some (put_of replacement))
        (λ stop. IsRedactionEnd (map (pair_trees pairs.now)) stop) }
{
    let put = value_named(pairs, Key::Put.name());
    let sort = value_named(pairs, Key::Sort.name());
    match (put, sort) {
        (Some(put), None) => Ok(Replacement::from_content(put.try_clone(alloc)?)),
        (Some(_), Some(_)) => Err(Stop::Fault(RedactionFault::PutAndSort)),
        (None, Some(sort)) => match sort.as_bool() {
            Some(true) => Ok(Replacement::Sorted),
            Some(false) => Err(Stop::Fault(RedactionFault::NothingPut)),
            None => Err(Stop::Fault(RedactionFault::Key(KeyFault::WrongKind(Key::Sort)))),
        },
        (None, None) => Err(Stop::Fault(RedactionFault::NothingPut)),
    }
}
