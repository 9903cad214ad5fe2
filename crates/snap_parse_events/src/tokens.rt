//! The tokens of a text, the next of which may be looked at.
ghost use Rattle.std.specs.Prelude.{◌≡◌, ◌≤◌, ◌+◌, ℕ, List, IfOk, OnOk, true, ◌∷◌, false, None, Some, Ok};
ghost use Rattle.std.specs.Str.{chars};
ghost use Rattle.snap_scan_tokens.specs.Place.{before_nul, mark_of};
ghost use Rattle.snap_scan.specs.Sound.{is_start};
ghost use Rattle.snap_scan_tokens.specs.declared.token.Token.{Token as TokenSeen};
ghost use Rattle.snap_scan_tokens.specs.declared.token.TokenType.{TokenType as Kind};
ghost use Rattle.snap_scan.specs.Owed.{type_of};
ghost use Rattle.snap_parse_events.specs.Ends.{is_document_end, is_directive};
ghost use Rattle.snap_parse_events.specs.Taking.{WillTake, TakesFirst, StillTakes};
ghost use Rattle.snap_parse_events.specs.Feed.{start_tokens, tokens_left, starts, Feeds, Took, Takes, FeedsOn};

use snap_scan::Scanner;
use snap_scan_tokens::{Marker, ScanError, ScanInfo, Token, TokenType};
use std::alloc::Global;

/// A scanner, and a token that was taken from it and put back.
#[derive(Debug, Drop)]
pub struct Tokens<'a> {
    pub(crate) scanner: Scanner<'a>,
    pub(crate) held: Option<Token<'a>>,
}

impl<'a> Tokens<'a> {
    pub(crate) fn new(alloc: Global, source: &'a str) -> Tokens<'a>
        ensures { result ≡ start_tokens (before_nul (chars source.now)) }
    {
        Tokens {
            scanner: Scanner::new(alloc, source),
            held: None,
        }
    }

    /// The next token.
    pub(crate) fn take(&mut self) -> Result<Token<'a>, ScanError>
        ensures sound { (source : List ℕ) → Feeds source self.old → Takes source result self.new }
        ensures left { OnOk result (tokens_left self.new + 1 ≤ tokens_left self.old) }
        ensures start { starts self.old ≡ true → IfOk result (λ t. is_start t.1 ≡ true) }
        ensures takes { (ts : List Kind) → WillTake self.old ts → TakesFirst result self.new ts }
        ensures free { self.new.held ≡ None }
        ensures held { (token : TokenSeen) → self.old.held ≡ Some token → result ≡ Ok token }
    {
        if let Some(token) = self.held.take() {
            return Ok(token);
        }
        match self.scanner.next_token()? {
            Some(token) => Ok(token),
            None => Err(ScanError::Syntax(self.scanner.mark(), ScanInfo::P9)),
        }
    }

    /// Puts the token back that was taken last.
    pub(crate) fn put_back(&mut self, token: Token<'a>)
        ensures sound { (source : List ℕ) → Took source token.entry self.old → Feeds source self.new }
        ensures left { tokens_left self.new ≤ tokens_left self.old + 1 }
        ensures takes { (ts : List Kind) → self.old.held ≡ None → WillTake self.old ts
            → WillTake self.new (type_of token.entry ∷ ts) }
        ensures held { self.new.held ≡ Some token.entry }
    {
        self.held = Some(token);
    }

    /// Passes the ends of documents over.
    pub(crate) fn skip_document_ends(&mut self) -> Result<(), ScanError>
        ensures sound { (source : List ℕ) → Feeds source self.old → FeedsOn source result self.new }
        ensures left { OnOk result (tokens_left self.new ≤ tokens_left self.old) }
        ensures takes { (t : Kind) (ts : List Kind) → is_document_end t ≡ false
            → WillTake self.old (t ∷ ts) → StillTakes result self.new (t ∷ ts) }
        ensures held { (token : TokenSeen) → self.old.held ≡ Some token
            → is_document_end token.1 ≡ false → OnOk result (self.new.held ≡ Some token) }
    {
        'ends: loop {
            match self.take()? {
                Token(_, TokenType::DocumentEnd) => {}
                token => {
                    self.put_back(token);
                    return Ok(());
                }
            }
        }
    }

    /// Passes directives over. They have no effect.
    pub(crate) fn skip_directives(&mut self) -> Result<(), ScanError>
        ensures sound { (source : List ℕ) → Feeds source self.old → FeedsOn source result self.new }
        ensures left { OnOk result (tokens_left self.new ≤ tokens_left self.old) }
        ensures takes { (t : Kind) (ts : List Kind) → is_directive t ≡ false
            → WillTake self.old (t ∷ ts) → StillTakes result self.new (t ∷ ts) }
        ensures held { (token : TokenSeen) → self.old.held ≡ Some token
            → is_directive token.1 ≡ false → OnOk result (self.new.held ≡ Some token) }
    {
        'directives: loop {
            match self.take()? {
                Token(_, TokenType::VersionDirective(..)) => {}
                Token(_, TokenType::TagDirective(..)) => {}
                token => {
                    self.put_back(token);
                    return Ok(());
                }
            }
        }
    }

    /// The place that the scanner has come to.
    pub(crate) fn mark(&self) -> Marker
        ensures { result ≡ mark_of self.now.scanner.state.place }
    {
        self.scanner.mark()
    }
}

/// What is wrong where a token stands that cannot stand there.
pub(crate) fn unexpected(token: Token<'_>, info: ScanInfo) -> ScanError
    ensures { result ≡ ScanError.Syntax token.entry.0 info }
{
    ScanError::Syntax(token.0, info)
}
