//! The stream and its documents.
ghost use Rattle.std.specs.Prelude.{◌≡◌, ◌+◌, ◌*◌, ◌≤◌, ℕ, List, [], IfOk, OnOk, Some, true, false};
ghost use Rattle.snap_parse_events.specs.Meaning.{ahead, open_in, after};
ghost use Rattle.snap_parse_events.specs.Feed.{tokens_left, starts};

use crate::event::Event;
use crate::machine::{Machine, ParseResult};
use crate::state::{Context, Ends, Stage, State};
use crate::tokens::unexpected;
use snap_scan_tokens::{ScanInfo, Token, TokenType};

impl<'a> Machine<'a> {
    ghost use Rattle.snap_parse_events.specs.PutBack.{AnchoredBy, MarkedBy, Suffices, SufficesAt, TaggedBy};
    ghost use Rattle.snap_parse_events.specs.Ends.{is_directive};
    ghost use Rattle.snap_parse_events.specs.Machine.{spot_of, meaning_now, events_now, IsSoundAhead, StaysSound, KeepsSoundIn, GivesIn, PaysIn, KeepsNames, StaysOnError};
    ghost use Rattle.snap_parse_events.specs.Twin.{Follows, document_end_step, document_step, first_document_step, start_step, state_step, stream_step};

    pub(crate) fn stream_start(&mut self) -> ParseResult<'a>
        ensures event { IfOk result (λ given. after given.0 ahead ≡ Some (meaning_now self.new)) }
        ensures left { OnOk result (events_now self.new + 1 ≤ 4 * tokens_left self.old.tokens) }
        ensures names { KeepsNames result self.old self.new }
        ensures same { StaysOnError result self.old self.new }
        ensures sound { (source : List ℕ) → IsSoundAhead source self.old.tokens self.old.outer.items
            → StaysSound source result self.new.tokens (spot_of self.new) }
        ensures twin { Follows (stream_step self.old.outer.items) result self.old self.new }
        ensures mark { MarkedBy (SufficesAt Stage.Ahead) result self.old.tokens }
    {
        match self.tokens.take()? {
            Token(mark, TokenType::StreamStart(_)) => {
                self.stage = Stage::Open(State::ImplicitDocumentStart);
                Ok((Event::StreamStart, mark))
            }
            token => Err(unexpected(token, ScanInfo::P1)),
        }
    }

    /// The start of the first document, which needs no mark, or the stream's end.
    pub(crate) fn implicit_document_start(&mut self) -> ParseResult<'a>
        ensures event { GivesIn State.ImplicitDocumentStart result self.old self.new }
        ensures left { PaysIn State.ImplicitDocumentStart result self.old self.new }
        ensures names { KeepsNames result self.old self.new }
        ensures same { StaysOnError result self.old self.new }
        ensures sound { KeepsSoundIn State.ImplicitDocumentStart result self.old self.new }
        ensures twin { Follows (first_document_step self.old.outer.items)
            result self.old self.new }
        ensures mark { MarkedBy (Suffices State.ImplicitDocumentStart) result self.old.tokens }
    {
        match self.tokens.take()? {
            Token(mark, TokenType::StreamEnd) => {
                self.stage = Stage::Ended;
                Ok((Event::StreamEnd, mark))
            }
            Token(mark, TokenType::DocumentStart) => {
                self.stage = Stage::Open(State::DocumentContent);
                Ok((Event::DocumentStart, mark))
            }
            Token(_, TokenType::VersionDirective(..)) => self.explicit_document_start(),
            Token(_, TokenType::TagDirective(..)) => self.explicit_document_start(),
            token => {
                let mark = token.0;
                self.tokens.put_back(token);
                self.stage = Stage::Open(State::BlockNode);
                Ok((Event::DocumentStart, mark))
            }
        }
    }

    /// The start of a further document, or the stream's end.
    pub(crate) fn document_start(&mut self) -> ParseResult<'a>
        ensures event { GivesIn State.DocumentStart result self.old self.new }
        ensures left { PaysIn State.DocumentStart result self.old self.new }
        ensures names { KeepsNames result self.old self.new }
        ensures same { StaysOnError result self.old self.new }
        ensures sound { KeepsSoundIn State.DocumentStart result self.old self.new }
        ensures twin { Follows (document_step self.old.outer.items) result self.old self.new }
        ensures mark { MarkedBy (Suffices State.DocumentStart) result self.old.tokens }
    {
        self.tokens.skip_document_ends()?;
        match self.tokens.take()? {
            Token(mark, TokenType::StreamEnd) => {
                self.stage = Stage::Ended;
                Ok((Event::StreamEnd, mark))
            }
            token => {
                self.tokens.put_back(token);
                self.explicit_document_start()
            }
        }
    }

    /// A document's start that is written, after its directives.
    fn explicit_document_start(&mut self) -> ParseResult<'a>
        ensures event { GivesIn State.DocumentStart result self.old self.new }
        ensures left { PaysIn State.DocumentStart result self.old self.new }
        ensures names { KeepsNames result self.old self.new }
        ensures same { StaysOnError result self.old self.new }
        ensures sound { KeepsSoundIn State.DocumentStart result self.old self.new }
        ensures twin { Follows (start_step self.old.outer.items) result self.old self.new }
        ensures mark { MarkedBy (λ t. is_directive t ≡ false) result self.old.tokens }
    {
        self.tokens.skip_directives()?;
        match self.tokens.take()? {
            Token(mark, TokenType::DocumentStart) => {
                self.stage = Stage::Open(State::DocumentContent);
                Ok((Event::DocumentStart, mark))
            }
            token => Err(unexpected(token, ScanInfo::P2)),
        }
    }

    pub(crate) fn document_content(&mut self) -> ParseResult<'a>
        ensures event { GivesIn State.DocumentContent result self.old self.new }
        ensures left { PaysIn State.DocumentContent result self.old self.new }
        ensures names { KeepsNames result self.old self.new }
        ensures same { StaysOnError result self.old self.new }
        ensures sound { KeepsSoundIn State.DocumentContent result self.old self.new }
        ensures twin { Follows (state_step State.DocumentContent self.old.outer.items)
            result self.old self.new }
        ensures mark { MarkedBy (Suffices State.DocumentContent) result self.old.tokens }
        ensures tagged { TaggedBy result self.old.tokens }
        ensures anchored { AnchoredBy self.old.anchors.next result self.old.tokens }
    {
        self.parse_filled(Ends::Document, Context::Block, State::DocumentEnd)
    }

    /// The end of a document, which may be written.
    pub(crate) fn document_end(&mut self) -> ParseResult<'a>
        ensures event { GivesIn State.DocumentEnd result self.old self.new }
        ensures left { PaysIn State.DocumentEnd result self.old self.new }
        ensures names { KeepsNames result self.old self.new }
        ensures same { StaysOnError result self.old self.new }
        ensures sound { KeepsSoundIn State.DocumentEnd result self.old self.new }
        ensures twin { Follows (document_end_step self.old.outer.items) result self.old self.new }
        ensures mark { MarkedBy (Suffices State.DocumentEnd) result self.old.tokens }
    {
        match self.tokens.take()? {
            Token(mark, TokenType::DocumentEnd) => {
                self.stage = Stage::Open(State::DocumentStart);
                Ok((Event::DocumentEnd, mark))
            }
            token => {
                let mark = token.0;
                self.tokens.put_back(token);
                self.stage = Stage::Open(State::DocumentStart);
                Ok((Event::DocumentEnd, mark))
            }
        }
    }
}
