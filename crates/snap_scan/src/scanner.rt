//! The public calls.
ghost use Rattle.std.specs.Prelude.{◌≡◌, ◌+◌, ◌*◌, ◌≤◌, OnOk, IfErr, MatchOption, ⊤, Some, None, true, false, length};
ghost use Rattle.std.specs.Str.{chars};
ghost use Rattle.snap_scan_tokens.specs.Place.{before_nul, mark_of};
ghost use Rattle.snap_scan_tokens.specs.declared.info.ScanError.{ScanError};
ghost use Rattle.snap_scan.specs.Sound.{IsShown, IsFounded};
ghost use Rattle.snap_scan.specs.Scan.{start_scan, left, Fails, IsKept, Keeps, GivesAtEnd, Pays, IsNoneAtEnd, HasStopped, IsGiven, IsNext, GivesNext, KeepsOrder};
ghost use Rattle.snap_scan.specs.Owed.{GivesOwed, OwesStill, NextOwed};
ghost use Rattle.snap_scan.specs.State.{has_ended};

use crate::fetcher::{Fetcher, ScanResult};
use snap_scan_tokens::{Marker, ScanError, Token, keep};
use std::alloc::Global;
use std::marker::Model;

/// A scanner: the tokens of a text, one by one. The text ends at its first NUL.
/// After its first failure each call that can answer an error answers the same one for good, out of memory too.
#[derive(Debug, Drop)]
pub struct Scanner<'a> {
    source: &'a str,
    fetcher: Fetcher<'a>,
    error: Option<ScanError>,
}

impl<'a> Model for Scanner<'a> {
    ghost use Rattle.std.specs.Str.{chars};
    ghost use Rattle.snap_scan_tokens.specs.Place.{before_nul};
    ghost use Rattle.snap_scan.specs.Scan.{Scan};

    ghost Value = { Scan };

    ghost use Rattle.std.specs.Prelude.{◌≡◌, length};
    ghost use Rattle.snap_scan.specs.State.{state_of, extent};
    ghost use Rattle.snap_scan.specs.Scan.{IsWholeWhile};

    ghost view = { λ s. record { source = before_nul (chars s.source.now); state = state_of s.fetcher; error = s.error } };

    ghost invariant = { λ s. IsWholeWhile s.error (before_nul (chars s.source.now)) (state_of s.fetcher) × (extent (state_of s.fetcher) ≡ length (before_nul (chars s.source.now))) };
}

impl<'a> Scanner<'a> {
    /// A scanner at the beginning of a text. It takes no memory.
    pub fn new(alloc: Global, source: &'a str) -> Scanner<'a>
        ensures start { result ≡ start_scan (before_nul (chars source.now)) }
        ensures law { left result ≡ 4 * length (before_nul (chars source.now)) + 2 }
    {
        Scanner {
            source,
            fetcher: Fetcher::new(alloc, source),
            error: None,
        }
    }

    /// The next token; none once StreamEnd was given.
    pub fn next_token(&mut self) -> Result<Option<Token<'a>>, ScanError>
        ensures sticky { (e : ScanError) → self.old.error ≡ Some e → Fails result e }
        ensures same { IsKept self.old self.new }
        ensures kept { Keeps result self.new }
        ensures none { IsNoneAtEnd result self.old.state self.new.state }
        ensures next { GivesNext self.old.source result self.old.state self.new.state }
        ensures ended { GivesAtEnd self.old result None self.new }
        ensures owed { GivesOwed self.old result self.new }
        ensures cause { IfErr result (λ e. IsFounded self.old.source e) }
        ensures law { Pays result (left self.old) (left self.new) }
        ensures failed { left self.new ≤ left self.old }
        ensures source { self.new.source ≡ self.old.source }
    {
        if let Some(failure) = &self.error {
            return Err(*failure);
        }
        match self.fetcher.next_token() {
            Ok(token) => Ok(token),
            Err(error) => Err(keep(&mut self.error, &error)),
        }
    }

    /// Puts the token that stands next into the queue. Once StreamEnd was made it does nothing.
    pub fn fetch_next_token(&mut self) -> ScanResult
        ensures sticky { (e : ScanError) → self.old.error ≡ Some e → Fails result e }
        ensures same { IsKept self.old self.new }
        ensures kept { Keeps result self.new }
        ensures order { KeepsOrder result self.old.state self.new.state }
        ensures ended { GivesAtEnd self.old result tt self.new }
        ensures owed { OwesStill self.old result self.new }
        ensures cause { IfErr result (λ e. IsFounded self.old.source e) }
        ensures law { left self.new ≤ left self.old }
        ensures source { self.new.source ≡ self.old.source }
    {
        if let Some(error) = &self.error {
            return Err(*error);
        }
        match self.fetcher.fetch_next_token() {
            Ok(()) => Ok(()),
            Err(error) => Err(keep(&mut self.error, &error)),
        }
    }

    /// Puts tokens into the queue until the first can be given.
    pub fn fetch_more_tokens(&mut self) -> ScanResult
        ensures sticky { (e : ScanError) → self.old.error ≡ Some e → Fails result e }
        ensures same { IsKept self.old self.new }
        ensures kept { Keeps result self.new }
        ensures order { KeepsOrder result self.old.state self.new.state }
        ensures ended { GivesAtEnd self.old result tt self.new }
        ensures owed { OwesStill self.old result self.new }
        ensures cause { IfErr result (λ e. IsFounded self.old.source e) }
        ensures law { left self.new ≤ left self.old }
        ensures source { self.new.source ≡ self.old.source }
    {
        if let Some(error) = &self.error {
            return Err(*error);
        }
        match self.fetcher.fetch_more_tokens() {
            Ok(()) => Ok(()),
            Err(error) => Err(keep(&mut self.error, &error)),
        }
    }

    /// The next token; none once StreamEnd was given, and from the first failure on.
    pub fn next(&mut self) -> Option<Token<'a>>
        ensures same { IsKept self.old self.new }
        ensures none { MatchOption result (HasStopped self.old self.new)
            (λ _. IsGiven self.old self.new) }
        ensures ended { has_ended self.old.state ≡ true → (result ≡ None) × (self.new ≡ self.old) }
        ensures next { MatchOption result ⊤ (λ token. IsNext token self.old.state self.new.state) }
        ensures owed { NextOwed self.old result self.new }
        ensures shown { MatchOption result ⊤ (λ token. IsShown self.old.source token) }
        ensures law { MatchOption result (left self.new ≤ left self.old)
            (λ _. left self.new + 1 ≤ left self.old) }
        ensures source { self.new.source ≡ self.old.source }
    {
        match self.next_token() {
            Ok(token) => token,
            Err(_) => None,
        }
    }

    /// The place that the scanner has come to; after the end that of the end.
    pub fn mark(&self) -> Marker
        ensures place { result ≡ mark_of self.now.state.place }
        ensures inside { result.index ≤ length self.now.source }
    {
        self.fetcher.cursor.mark()
    }

    /// The failure that ended the scanning.
    pub fn get_error(&self) -> Option<ScanError>
        ensures error { result ≡ self.now.error }
        ensures cause { MatchOption result ⊤ (λ e. IsFounded self.now.source e) }
    {
        self.error
    }

    /// Whether StreamStart was made, though it may still be held.
    pub fn stream_started(&self) -> bool
        ensures { result ≡ self.now.state.started }
    {
        self.fetcher.started
    }

    /// Whether StreamEnd was given.
    pub fn stream_ended(&self) -> bool
        ensures { result ≡ has_ended self.now.state }
    {
        self.fetcher.has_ended()
    }
}
