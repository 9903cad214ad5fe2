//! One fetch: what stands next is put into the queue.
ghost use Rattle.std.specs.Prelude.{◌≡◌, ◌<◌, ◌≤◌, OnOk, MatchResult, Ok, true, false, length, slice_index};
ghost use Rattle.snap_scan_tokens.specs.declared.info.ScanError.TheVariants.{Syntax};
ghost use Rattle.snap_scan_tokens.specs.declared.info.ScanInfo.TheVariants.{S1};
ghost use Rattle.snap_scan_tokens.specs.Place.{mark_of};
ghost use Rattle.snap_scan.specs.Keys.{any_overdue};
ghost use Rattle.snap_scan.specs.Kinds.{Begins};
ghost use Rattle.snap_scan.specs.State.{state_of, extent, spent, left_of, work, stale};
ghost use Rattle.snap_scan.specs.Fetching.{Does, token_step, kind_step, step};

use crate::fetcher::{Fetcher, ScanResult};
use crate::kind::{TokenKind, kind_here};
use snap_scan_tokens::{Quotes, ScanError, ScanInfo, TokenType};

impl<'a> Fetcher<'a> {
    /// Gives up the keys that can be none here; one that must become a key is a fault.
    pub(crate) fn stale_simple_keys(&mut self) -> ScanResult
        ensures value { MatchResult result
            (λ _. (any_overdue (mark_of (state_of self.old).place) (state_of self.old).keys ≡ false)
            × (state_of self.new ≡ stale (state_of self.old)))
            (λ e. (any_overdue (mark_of (state_of self.old).place) (state_of self.old).keys ≡ true)
            × (e ≡ Syntax (mark_of (state_of self.old).place) S1)) }
        ensures still { OnOk result (self.new.ended ≡ self.old.ended) }
        ensures cost { OnOk result (spent (state_of self.new) ≡ spent (state_of self.old)) }
        ensures work { OnOk result (work (state_of self.new) ≡ work (state_of self.old)) }
        ensures extent { extent (state_of self.new) ≡ extent (state_of self.old) }
    {
        let mark = self.cursor.mark();
        if self.keys.any_overdue(mark) {
            return Err(ScanError::Syntax(mark, ScanInfo::S1));
        }
        self.keys.give_up_stale(mark);
        Ok(())
    }

    /// Fetches a token of the kind that begins here.
    fn fetch_kind(&mut self, kind: TokenKind) -> ScanResult
        requires still { self.old.ended ≡ false }
        requires begins { Begins kind (slice_index (state_of self.old).place.left 0) }
        ensures value { Does (kind_step kind (state_of self.old)) result (state_of self.new) }
        ensures cost { OnOk result (spent (state_of self.new) ≤ spent (state_of self.old)) }
        ensures work { OnOk result (work (state_of self.new) < work (state_of self.old)) }
        ensures extent { extent (state_of self.new) ≡ extent (state_of self.old) }
    {
        match kind {
            TokenKind::StreamEnd => self.fetch_stream_end(),
            TokenKind::Directive => self.fetch_directive(),
            TokenKind::DocumentStart => self.fetch_document_indicator(TokenType::DocumentStart),
            TokenKind::DocumentEnd => self.fetch_document_indicator(TokenType::DocumentEnd),
            TokenKind::FlowSequenceStart => self.fetch_flow_collection_start(
                TokenType::FlowSequenceStart,
            ),
            TokenKind::FlowMappingStart => self.fetch_flow_collection_start(
                TokenType::FlowMappingStart,
            ),
            TokenKind::FlowSequenceEnd => self.fetch_flow_collection_end(
                TokenType::FlowSequenceEnd,
            ),
            TokenKind::FlowMappingEnd => self.fetch_flow_collection_end(TokenType::FlowMappingEnd),
            TokenKind::FlowEntry => self.fetch_flow_entry(),
            TokenKind::BlockEntry => self.fetch_block_entry(),
            TokenKind::Key => self.fetch_key(),
            TokenKind::Value => self.fetch_value(),
            TokenKind::Alias => self.fetch_alias(),
            TokenKind::Anchor => self.fetch_anchor(),
            TokenKind::Tag => self.fetch_tag(),
            TokenKind::Literal => self.fetch_block_scalar(true),
            TokenKind::Folded => self.fetch_block_scalar(false),
            TokenKind::SingleQuoted => self.fetch_quoted(Quotes::Single),
            TokenKind::DoubleQuoted => self.fetch_quoted(Quotes::Double),
            TokenKind::Plain => self.fetch_plain_scalar(),
            TokenKind::Refused(info) => Err(ScanError::Syntax(self.cursor.mark(), info)),
        }
    }

    /// Fetches the token that stands here, and closes the blocks that end before it.
    fn fetch_token(&mut self) -> ScanResult
        requires still { self.old.ended ≡ false }
        ensures value { Does (token_step (state_of self.old)) result (state_of self.new) }
        ensures cost { OnOk result (spent (state_of self.new) ≤ spent (state_of self.old)) }
        ensures work { OnOk result (work (state_of self.new) < work (state_of self.old)) }
        ensures extent { extent (state_of self.new) ≡ extent (state_of self.old) }
    {
        self.stale_simple_keys()?;
        let mark = self.cursor.mark();
        self.unroll_indent(Some(mark.col()))?;
        let kind = kind_here(&self.cursor, self.in_flow(), self.adjacent_value_allowed_at);
        self.fetch_kind(kind)
    }

    /// Fetches what stands next. Once StreamEnd was made it does nothing.
    pub(crate) fn fetch_next_token(&mut self) -> ScanResult
        ensures value { Does (step (state_of self.old)) result (state_of self.new) }
        ensures over { self.old.ended ≡ true
            → (result ≡ Ok tt) × (state_of self.new ≡ state_of self.old) }
        ensures law { OnOk result (left_of (state_of self.new) ≤ left_of (state_of self.old)) }
        ensures work { self.old.ended ≡ false
            → OnOk result (work (state_of self.new) < work (state_of self.old)) }
        ensures more { self.old.ended ≡ false → OnOk result (1 ≤ length (state_of self.new).held) }
        ensures extent { extent (state_of self.new) ≡ extent (state_of self.old) }
    {
        if self.ended {
            return Ok(());
        }
        if !self.started {
            return self.fetch_stream_start();
        }
        self.skip_to_next_token();
        self.fetch_token()
    }
}
