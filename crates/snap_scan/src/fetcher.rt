//! The queue of held tokens, and what all fetches work with.
ghost use Rattle.std.specs.Prelude.{◌≡◌, ◌≢◌, ◌+◌, ◌≤◌, OnOk, MatchResult, true, false, slice_index};
ghost use Rattle.std.specs.Str.{chars};
ghost use Rattle.snap_scan_tokens.specs.declared.info.ScanError.TheVariants.{Syntax};
ghost use Rattle.snap_scan_tokens.specs.declared.info.ScanInfo.TheVariants.{S2};
ghost use Rattle.snap_scan_tokens.specs.Place.{before_nul, mark_of};
ghost use Rattle.snap_scan.specs.State.{state_of, extent, start_state, spent, work, Gives, at, in_flow, pushed, inserted, advanced, allowing, unrolled, rolled, keyless, saved, is_key_owed, is_innermost, is_right_of};
ghost use Rattle.snap_scan.specs.Keys.{is_required};

use crate::columns::Columns;
use crate::keys::{Keys, SimpleKey};
use snap_scan_tokens::{Cursor, Marker, ScanError, ScanInfo, Token, TokenType};
use std::alloc::Global;
use std::collections::VecDeque;

pub type ScanResult = Result<(), ScanError>;

/// What fetches tokens into a queue, where they wait while the first may still become a key.
#[derive(Debug, Drop)]
pub struct Fetcher<'a> {
    pub(crate) alloc: Global,
    pub(crate) cursor: Cursor<'a>,
    pub(crate) tokens: VecDeque<Token<'a>>,
    /// Whether StreamStart was made.
    pub(crate) started: bool,
    /// Whether StreamEnd was made.
    pub(crate) ended: bool,
    pub(crate) simple_key_allowed: bool,
    /// The index at which a `:` stands right after a quoted scalar.
    pub(crate) adjacent_value_allowed_at: usize,
    pub(crate) keys: Keys,
    pub(crate) columns: Columns,
}

impl<'a> Fetcher<'a> {
    pub fn new(alloc: Global, source: &'a str) -> Fetcher<'a>
        ensures { state_of result ≡ start_state (before_nul (chars source.now)) }
    {
        Fetcher {
            alloc,
            cursor: Cursor::new(source),
            tokens: VecDeque::new(alloc),
            started: false,
            ended: false,
            simple_key_allowed: true,
            adjacent_value_allowed_at: 0,
            keys: Keys::new(alloc),
            columns: Columns::new(alloc),
        }
    }

    pub(crate) fn in_flow(&self) -> bool
        ensures { result ≡ in_flow (state_of self.now) }
    {
        self.keys.in_flow()
    }

    pub(crate) fn push_token(&mut self, mark: Marker, kind: TokenType<'a>) -> ScanResult
        ensures value { Gives result (state_of self.new)
            (pushed (at mark kind.entry) (state_of self.old)) }
        ensures still { self.new.ended ≡ self.old.ended }
        ensures cost { OnOk result (spent (state_of self.new) ≡ spent (state_of self.old) + 1) }
        ensures work { OnOk result (work (state_of self.new) ≡ work (state_of self.old)) }
        ensures extent { extent (state_of self.new) ≡ extent (state_of self.old) }
    {
        self.tokens.push_back(Token(mark, kind))?;
        Ok(())
    }

    pub(crate) fn insert_token(
        &mut self,
        place: usize,
        mark: Marker,
        kind: TokenType<'a>,
    ) -> ScanResult
        ensures value { Gives result (state_of self.new)
            (inserted place (at mark kind.entry) (state_of self.old)) }
        ensures cost { OnOk result (spent (state_of self.new) ≡ spent (state_of self.old) + 1) }
        ensures work { OnOk result (work (state_of self.new) ≡ work (state_of self.old)) }
        ensures extent { extent (state_of self.new) ≡ extent (state_of self.old) }
    {
        let place = place.min(self.tokens.len());
        self.tokens.insert(place, Token(mark, kind))?;
        Ok(())
    }

    /// Passes one character.
    pub(crate) fn skip(&mut self)
        ensures value { state_of self.new ≡ advanced (state_of self.old) }
        ensures still { self.new.ended ≡ self.old.ended }
        ensures no_cost { spent (state_of self.new) ≤ spent (state_of self.old) }
        ensures no_work { work (state_of self.new) ≤ work (state_of self.old) }
        ensures cost { slice_index (state_of self.old).place.left 0 ≢ 0
            → spent (state_of self.new) + 4 ≤ spent (state_of self.old) }
        ensures work { slice_index (state_of self.old).place.left 0 ≢ 0
            → work (state_of self.new) + 1 ≤ work (state_of self.old) }
        ensures extent { extent (state_of self.new) ≡ extent (state_of self.old) }
    {
        self.cursor.skip();
    }

    pub(crate) fn allow_simple_key(&mut self, allowed: bool)
        ensures value { state_of self.new ≡ allowing allowed (state_of self.old) }
        ensures cost { spent (state_of self.new) ≡ spent (state_of self.old) }
        ensures work { work (state_of self.new) ≡ work (state_of self.old) }
        ensures extent { extent (state_of self.new) ≡ extent (state_of self.old) }
    {
        self.simple_key_allowed = allowed;
    }

    /// Closes the blocks that begin right of a column, or all.
    pub(crate) fn unroll_indent(&mut self, col: Option<usize>) -> ScanResult
        ensures value { Gives result (state_of self.new) (unrolled col (state_of self.old)) }
        ensures still { OnOk result (self.new.ended ≡ self.old.ended) }
        ensures cost { OnOk result (spent (state_of self.new) ≡ spent (state_of self.old)) }
        ensures work { OnOk result (work (state_of self.new) ≡ work (state_of self.old)) }
        ensures extent { extent (state_of self.new) ≡ extent (state_of self.old) }
    {
        if self.in_flow() {
            return Ok(());
        }
        while let Some(column) = self.columns.innermost() {
            if !is_right_of(column, col) {
                return Ok(());
            }
            let mark = self.cursor.mark();
            self.push_token(mark, TokenType::BlockEnd)?;
            self.columns.pop();
        }
        Ok(())
    }

    /// A block begins at a column, if that is deeper than the blocks that are open.
    pub(crate) fn roll_indent(
        &mut self,
        col: usize,
        place: Option<usize>,
        mark: Marker,
        kind: TokenType<'a>,
    ) -> ScanResult
        ensures value { Gives result (state_of self.new)
            (rolled col place (at mark kind.entry) (state_of self.old)) }
        ensures cost { OnOk result (spent (state_of self.new) ≤ spent (state_of self.old) + 2) }
        ensures work { OnOk result (work (state_of self.new) ≡ work (state_of self.old)) }
        ensures extent { extent (state_of self.new) ≡ extent (state_of self.old) }
    {
        if self.in_flow() {
            return Ok(());
        }
        if let Some(column) = self.columns.innermost() {
            if col <= column {
                return Ok(());
            }
        }
        self.columns.push(col)?;
        match place {
            Some(place) => self.insert_token(place, mark, kind),
            None => self.push_token(mark, kind),
        }
    }

    /// Gives up the possible key; one that must become a key is a fault.
    pub(crate) fn remove_simple_key(&mut self) -> ScanResult
        ensures value { MatchResult result
            (λ _. (is_required (state_of self.old).keys.key ≡ false)
            × (state_of self.new ≡ keyless (state_of self.old)))
            (λ e. (is_required (state_of self.old).keys.key ≡ true)
            × (e ≡ Syntax (mark_of (state_of self.old).place) S2)) }
        ensures cost { OnOk result (spent (state_of self.new) ≡ spent (state_of self.old)) }
        ensures work { OnOk result (work (state_of self.new) ≡ work (state_of self.old)) }
        ensures extent { extent (state_of self.new) ≡ extent (state_of self.old) }
    {
        if self.keys.is_required() {
            return Err(ScanError::Syntax(self.cursor.mark(), ScanInfo::S2));
        }
        self.keys.remove();
        Ok(())
    }

    /// Makes the next token a possible key, where one may begin.
    pub(crate) fn save_simple_key(&mut self) -> ScanResult
        ensures value { MatchResult result
            (λ _. (is_key_owed (state_of self.old) ≡ false)
            × (state_of self.new ≡ saved (state_of self.old)))
            (λ e. (is_key_owed (state_of self.old) ≡ true)
            × (e ≡ Syntax (mark_of (state_of self.old).place) S2)) }
        ensures cost { OnOk result (spent (state_of self.new) ≡ spent (state_of self.old)) }
        ensures work { OnOk result (work (state_of self.new) ≡ work (state_of self.old)) }
        ensures extent { extent (state_of self.new) ≡ extent (state_of self.old) }
    {
        if self.simple_key_allowed {
            let mark = self.cursor.mark();
            let required = self.in_flow() && self.is_innermost_at(mark.col());
            self.remove_simple_key()?;
            self.keys.save(SimpleKey {
                place: self.tokens.len(),
                required,
                mark,
            });
        }
        Ok(())
    }

    /// Whether the innermost block stands at a column.
    fn is_innermost_at(&self, col: usize) -> bool
        ensures { result ≡ is_innermost col (state_of self.now).columns }
    {
        match self.columns.innermost() {
            None => false,
            Some(column) => column == col,
        }
    }
}

/// Whether a column is right of another one, or of none.
fn is_right_of(column: usize, col: Option<usize>) -> bool
    ensures { result ≡ is_right_of col column }
{
    match col {
        None => true,
        Some(col) => col < column,
    }
}
