//! Fetching until the first held token can be given, and giving it.
ghost use Rattle.std.specs.Prelude.{◌≡◌, ◌≤◌, OnOk, IfOk, MatchOption, Ok, None, [], ◌∷◌, true, false};
ghost use Rattle.snap_scan.specs.State.{state_of, extent, work, left_of, has_ended, given, IsReady};
ghost use Rattle.snap_scan.specs.Sound.{KeepsSound, GivesOfSound};
ghost use Rattle.snap_scan.specs.Owed.{IsFirstSure, KeepsOwed, GivesOfOwed};
ghost use Rattle.snap_scan.specs.Scan.{Pays, IsNoneAtEnd};

use crate::fetcher::{Fetcher, ScanResult};
use snap_scan_tokens::{ScanError, Token};

impl<'a> Fetcher<'a> {
    /// Whether StreamEnd was made, and is held no longer.
    pub(crate) fn has_ended(&self) -> bool
        ensures { result ≡ has_ended (state_of self.now) }
    {
        self.ended && self.tokens.is_empty()
    }

    /// Whether nothing is to be fetched before a token is given: the first held one can be none of a key, or StreamEnd was made.
    /// Where tokens are held it gives up stale keys.
    fn is_ready(&mut self) -> Result<bool, ScanError>
        ensures ready { IfOk result (λ ready. ready ≡ true → IsReady (state_of self.new)) }
        ensures ahead { IfOk result (λ ready. ready ≡ false → self.new.ended ≡ false) }
        ensures same { OnOk result (has_ended (state_of self.new) ≡ has_ended (state_of self.old)) }
        ensures law { OnOk result (left_of (state_of self.new) ≡ left_of (state_of self.old)) }
        ensures work { OnOk result (work (state_of self.new) ≡ work (state_of self.old)) }
        ensures sound { KeepsSound result (state_of self.old) (state_of self.new) }
        ensures first { IfOk result (λ ready. ready ≡ true → IsFirstSure (state_of self.new)) }
        ensures owed { KeepsOwed result (state_of self.old) (state_of self.new) }
        ensures extent { extent (state_of self.new) ≡ extent (state_of self.old) }
    {
        if self.tokens.is_empty() {
            return Ok(self.ended);
        }
        self.stale_simple_keys()?;
        Ok(self.ended || !self.keys.any_names_first())
    }

    /// Fetches until the first held token can be given.
    pub(crate) fn fetch_more_tokens(&mut self) -> ScanResult
        ensures ready { OnOk result (IsReady (state_of self.new)) }
        ensures done { has_ended (state_of self.old) ≡ true
            → state_of self.new ≡ state_of self.old }
        ensures over { has_ended (state_of self.old) ≡ true → result ≡ Ok tt }
        ensures fresh { has_ended (state_of self.old) ≡ false
            → OnOk result (has_ended (state_of self.new) ≡ false) }
        ensures law { OnOk result (left_of (state_of self.new) ≤ left_of (state_of self.old)) }
        ensures sound { KeepsSound result (state_of self.old) (state_of self.new) }
        ensures first { OnOk result (IsFirstSure (state_of self.new)) }
        ensures owed { KeepsOwed result (state_of self.old) (state_of self.new) }
        ensures extent { extent (state_of self.new) ≡ extent (state_of self.old) }
    {
        if self.has_ended() {
            return Ok(());
        }
        'fetching: loop {
            if self.is_ready()? {
                return Ok(());
            }
            self.fetch_next_token()?;
        }
    }

    /// Takes the first held token out.
    fn take_first(&mut self) -> Option<Token<'a>>
        ensures taken { MatchOption result (((state_of self.old).held ≡ [])
            × (state_of self.new ≡ state_of self.old))
            (λ token. ((state_of self.old).held ≡ token ∷ (state_of self.new).held)
            × (state_of self.new ≡ given (state_of self.old))) }
        ensures extent { extent (state_of self.new) ≡ extent (state_of self.old) }
    {
        match self.tokens.pop_front() {
            None => None,
            Some(token) => {
                self.keys.lower();
                Some(token)
            }
        }
    }

    /// The next token; none once StreamEnd was given.
    pub(crate) fn next_token(&mut self) -> Result<Option<Token<'a>>, ScanError>
        ensures none { IsNoneAtEnd result (state_of self.old) (state_of self.new) }
        ensures over { has_ended (state_of self.old) ≡ true
            → (result ≡ Ok None) × (state_of self.new ≡ state_of self.old) }
        ensures law { Pays result (left_of (state_of self.old)) (left_of (state_of self.new)) }
        ensures sound { GivesOfSound result (state_of self.old) (state_of self.new) }
        ensures owed { GivesOfOwed result (state_of self.old) (state_of self.new) }
        ensures extent { extent (state_of self.new) ≡ extent (state_of self.old) }
    {
        self.fetch_more_tokens()?;
        Ok(self.take_first())
    }
}
