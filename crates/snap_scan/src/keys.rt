//! Simple keys: held tokens that a `:` may still make a key, at most one for each flow level.
ghost use Rattle.std.specs.Prelude.{◌≡◌, if◌then◌else◌, IfErr, OnOk, None, Some, length, map};
ghost use Rattle.std.specs.List.{list_any};
ghost use Rattle.snap_scan_tokens.specs.declared.info.ScanError.TheVariants.{OutOfMemory as WantOfMemory};
ghost use Rattle.snap_scan.specs.Keys.{is_past, fresh, is_overdue, is_required, names_first, lowered, no_keys, has_levels, any_overdue, still_fresh, any_names_first, all_lowered, deeper, shallower};

use snap_scan_tokens::{Marker, ScanError};
use std::alloc::Global;
use std::marker::Model;

/// A held token that a `:` may still make a key.
#[derive(Clone, Copy, Debug, PartialEq, Eq)]
pub struct SimpleKey {
    /// How many held tokens stand before it.
    pub place: usize,
    /// Whether it must become one: in flow, at the column of the innermost block.
    pub required: bool,
    /// Where its token begins.
    pub mark: Marker,
}

/// The possible keys of all flow levels.
#[derive(Debug, Drop)]
pub struct Keys {
    /// That of the innermost level.
    key: Option<SimpleKey>,
    /// Those of the levels outside, the outermost first.
    outer: Vec<Option<SimpleKey>>,
}

impl Model for Keys {
    ghost use Rattle.snap_scan.specs.Keys.{Keys as KeysSeen};

    ghost Value = { KeysSeen };

    ghost view = { λ keys. record { key = keys.key; outer = keys.outer.items } };
}

impl Keys {
    pub fn new(alloc: Global) -> Keys
        ensures { result ≡ no_keys }
    {
        Keys {
            key: None,
            outer: Vec::new(alloc),
        }
    }

    /// Whether a flow collection is open.
    pub fn in_flow(&self) -> bool
        ensures { result ≡ has_levels self.now.outer }
    {
        !self.outer.is_empty()
    }

    /// How many flow collections are open.
    pub fn depth(&self) -> usize
        ensures { result ≡ length self.now.outer }
    {
        self.outer.len()
    }

    /// The possible key of the innermost level.
    pub fn innermost(&self) -> Option<SimpleKey>
        ensures { result ≡ self.now.key }
    {
        self.key
    }

    /// Whether the key of the innermost level must become one.
    pub fn is_required(&self) -> bool
        ensures { result ≡ is_required self.now.key }
    {
        match self.key {
            None => false,
            Some(key) => key.required,
        }
    }

    /// Makes a token the possible key of the innermost level.
    pub fn save(&mut self, key: SimpleKey)
        ensures { self.new ≡ record self.old { key = Some key } }
    {
        self.key = Some(key);
    }

    /// Gives up the key of the innermost level.
    pub fn remove(&mut self)
        ensures { self.new ≡ record self.old { key = None } }
    {
        self.key = None;
    }

    /// Opens a flow level.
    pub fn deepen(&mut self) -> Result<(), ScanError>
        ensures ok { OnOk result (self.new ≡ deeper self.old) }
        ensures memory { IfErr result (λ e. e ≡ WantOfMemory) }
    {
        self.outer.push(self.key)?;
        self.key = None;
        Ok(())
    }

    /// Closes a flow level, if one is open.
    pub fn leave(&mut self)
        ensures { self.new ≡ shallower self.old }
    {
        if let Some(key) = self.outer.pop() {
            self.key = key;
        }
    }

    /// Whether a key that must become one can be none at this place.
    pub fn any_overdue(&self, mark: Marker) -> bool
        ensures { result ≡ any_overdue mark self.now }
    {
        is_overdue(&self.key, mark) || one_is_overdue(&self.outer, mark)
    }

    /// Gives up the keys that can be none at this place.
    pub fn give_up_stale(&mut self, mark: Marker)
        ensures { self.new ≡ still_fresh mark self.old }
    {
        give_up_if_stale(&mut self.key, mark);
        give_up_all_stale(&mut self.outer, mark);
    }

    /// Whether the first held token may still become a key.
    pub fn any_names_first(&self) -> bool
        ensures { result ≡ any_names_first self.now }
    {
        names_first(&self.key) || one_names_first(&self.outer)
    }

    /// Follows the giving of the first held token.
    pub fn lower(&mut self)
        ensures { self.new ≡ all_lowered self.old }
    {
        lower(&mut self.key);
        lower_all(&mut self.outer);
    }
}

/// Whether a place is on a later line than a key, or more than 1,024 characters after its first.
fn is_past(key: &SimpleKey, mark: Marker) -> bool
    ensures { result ≡ is_past mark key.now }
{
    key.mark.line() < mark.line() || 1024 < mark.index().saturating_sub(key.mark.index())
}

fn is_overdue(key: &Option<SimpleKey>, mark: Marker) -> bool
    ensures { result ≡ is_overdue mark key.now }
{
    match key {
        None => false,
        Some(key) => key.required && is_past(key, mark),
    }
}

/// Whether there is a key, and it can be none at this place.
fn is_stale(key: &Option<SimpleKey>, mark: Marker) -> bool
    ensures { fresh mark key.now ≡ (if result then None else key.now) }
{
    match key {
        None => false,
        Some(key) => is_past(key, mark),
    }
}

fn give_up_if_stale(key: &mut Option<SimpleKey>, mark: Marker)
    ensures { key.new ≡ fresh mark key.old }
{
    if is_stale(key, mark) {
        *key = None;
    }
}

fn names_first(key: &Option<SimpleKey>) -> bool
    ensures { result ≡ names_first key.now }
{
    match key {
        None => false,
        Some(key) => key.place == 0,
    }
}

fn lower(key: &mut Option<SimpleKey>)
    ensures { key.new ≡ lowered key.old }
{
    if let Some(held) = key {
        held.place = held.place.saturating_sub(1);
    }
}

fn one_is_overdue(keys: &[Option<SimpleKey>], mark: Marker) -> bool
    ensures { result ≡ list_any (is_overdue mark) keys.now }
{
    keys.iter().any(|key| is_overdue(key, mark))
}

fn one_names_first(keys: &[Option<SimpleKey>]) -> bool
    ensures { result ≡ list_any names_first keys.now }
{
    keys.iter().any(|key| names_first(key))
}

fn give_up_all_stale(keys: &mut [Option<SimpleKey>], mark: Marker)
    ensures { keys.new ≡ map (fresh mark) keys.old }
{
    for key in keys.iter_mut() {
        give_up_if_stale(key, mark);
    }
}

fn lower_all(keys: &mut [Option<SimpleKey>])
    ensures { keys.new ≡ map lowered keys.old }
{
    for key in keys.iter_mut() {
        lower(key);
    }
}
