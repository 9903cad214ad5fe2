//! Sequences and mappings in flow.
ghost use Rattle.std.specs.Prelude.{◌≡◌, ◌+◌, ◌≤◌, false, OnOk, IfOk, Some, None, if◌then◌else◌};
ghost use Rattle.snap_parse_events.specs.Feed.{tokens_left};

use crate::event::Event;
use crate::machine::{Machine, ParseResult};
use crate::state::{Context, Ends, Stage, State};
use crate::tokens::unexpected;
use snap_scan_tokens::{Marker, ScanInfo, Token, TokenType};

impl<'a> Machine<'a> {
    ghost use Rattle.snap_parse_events.specs.PutBack.{is_prefix, AnchoredBy, MarkedBy, Suffices, TaggedBy};
    ghost use Rattle.snap_parse_events.specs.Ends.{ends_at};
    ghost use Rattle.snap_scan_tokens.specs.Mark.{Mark};
    ghost use Rattle.snap_scan_tokens.specs.Place.{mark_of};
    ghost use Rattle.snap_scan_tokens.specs.declared.token.Token.{Token as TokenSeen};
    ghost use Rattle.snap_scan_tokens.specs.declared.token.TokenType.{TokenType as Kind};
    ghost use Rattle.snap_parse_events.specs.Machine.{events_now, events_before, KeepsSoundIn, GivesIn, GivesNode, PaysIn, KeepsNames, StaysOnError};
    ghost use Rattle.snap_parse_events.specs.Twin.{Follows, filled_step, flow_entry_step, flow_first_key_step, flow_first_step, flow_key_step, flow_value_step};

    /// What stands after `[` or a comma.
    pub(crate) fn flow_sequence_item(&mut self) -> ParseResult<'a>
        ensures event { GivesIn State.FlowSequenceFirstEntry result self.old self.new }
        ensures left { PaysIn State.FlowSequenceFirstEntry result self.old self.new }
        ensures names { KeepsNames result self.old self.new }
        ensures same { StaysOnError result self.old self.new }
        ensures sound { KeepsSoundIn State.FlowSequenceFirstEntry result self.old self.new }
        ensures twin { Follows (flow_first_step self.old.outer.items) result self.old self.new }
        ensures mark { MarkedBy (Suffices State.FlowSequenceFirstEntry) result self.old.tokens }
        ensures tagged { TaggedBy result self.old.tokens }
        ensures anchored { AnchoredBy self.old.anchors.next result self.old.tokens }
    {
        match self.tokens.take()? {
            Token(mark, TokenType::FlowSequenceEnd) => {
                self.leave();
                Ok((Event::SequenceEnd, mark))
            }
            Token(mark, TokenType::Key) => {
                self.stage = Stage::Open(State::FlowSequenceEntryMappingKey);
                Ok((Event::MappingStart(0), mark))
            }
            token => self.parse_node_from(token, Context::Flow, State::FlowSequenceEntry),
        }
    }

    pub(crate) fn flow_sequence_entry(&mut self) -> ParseResult<'a>
        ensures event { GivesIn State.FlowSequenceEntry result self.old self.new }
        ensures left { PaysIn State.FlowSequenceEntry result self.old self.new }
        ensures names { KeepsNames result self.old self.new }
        ensures same { StaysOnError result self.old self.new }
        ensures sound { KeepsSoundIn State.FlowSequenceEntry result self.old self.new }
        ensures twin { Follows (flow_entry_step self.old.outer.items) result self.old self.new }
        ensures mark { MarkedBy (Suffices State.FlowSequenceEntry) result self.old.tokens }
    {
        match self.tokens.take()? {
            Token(mark, TokenType::FlowSequenceEnd) => {
                self.leave();
                Ok((Event::SequenceEnd, mark))
            }
            Token(_, TokenType::FlowEntry) => self.flow_sequence_item(),
            token => Err(unexpected(token, ScanInfo::P7)),
        }
    }

    /// The key of a mapping of one pair. A token before which it is empty is passed over.
    pub(crate) fn flow_sequence_entry_mapping_key(&mut self) -> ParseResult<'a>
        ensures event { GivesIn State.FlowSequenceEntryMappingKey result self.old self.new }
        ensures left { PaysIn State.FlowSequenceEntryMappingKey result self.old self.new }
        ensures names { KeepsNames result self.old self.new }
        ensures same { StaysOnError result self.old self.new }
        ensures sound { KeepsSoundIn State.FlowSequenceEntryMappingKey result self.old self.new }
        ensures mark { MarkedBy (Suffices State.FlowSequenceEntryMappingKey) result self.old.tokens }
        ensures tagged { TaggedBy result self.old.tokens }
        ensures anchored { AnchoredBy self.old.anchors.next result self.old.tokens }
    {
        match self.tokens.take()? {
            Token(mark, TokenType::Value) => {
                self.give_empty(mark, State::FlowSequenceEntryMappingValue)
            }
            Token(mark, TokenType::FlowEntry) => {
                self.give_empty(mark, State::FlowSequenceEntryMappingValue)
            }
            Token(mark, TokenType::FlowSequenceEnd) => {
                self.give_empty(mark, State::FlowSequenceEntryMappingValue)
            }
            token => self.parse_node_from(
                token,
                Context::Flow,
                State::FlowSequenceEntryMappingValue,
            ),
        }
    }

    pub(crate) fn flow_sequence_entry_mapping_value(&mut self) -> ParseResult<'a>
        ensures event { GivesIn State.FlowSequenceEntryMappingValue result self.old self.new }
        ensures left { PaysIn State.FlowSequenceEntryMappingValue result self.old self.new }
        ensures names { KeepsNames result self.old self.new }
        ensures same { StaysOnError result self.old self.new }
        ensures sound { KeepsSoundIn State.FlowSequenceEntryMappingValue result self.old self.new }
        ensures mark { MarkedBy (Suffices State.FlowSequenceEntryMappingValue) result self.old.tokens }
    {
        match self.tokens.take()? {
            Token(_, TokenType::Value) => {
                self.parse_filled(
                    Ends::FlowPairValue,
                    Context::Flow,
                    State::FlowSequenceEntryMappingEnd,
                )
            }
            token => {
                let mark = token.0;
                self.tokens.put_back(token);
                self.give_empty(mark, State::FlowSequenceEntryMappingEnd)
            }
        }
    }

    pub(crate) fn flow_sequence_entry_mapping_end(&mut self) -> ParseResult<'a>
        ensures event { GivesIn State.FlowSequenceEntryMappingEnd result self.old self.new }
        ensures left { PaysIn State.FlowSequenceEntryMappingEnd result self.old self.new }
        ensures names { KeepsNames result self.old self.new }
        ensures same { StaysOnError result self.old self.new }
        ensures sound { KeepsSoundIn State.FlowSequenceEntryMappingEnd result self.old self.new }
        ensures mark { IfOk result (λ given.
            given.1 ≡ mark_of self.old.tokens.scanner.state.place) }
    {
        self.stage = Stage::Open(State::FlowSequenceEntry);
        Ok((Event::MappingEnd, self.tokens.mark()))
    }

    /// What stands after `{` or a comma. After a comma the mapping's end has the comma's place.
    pub(crate) fn flow_mapping_item(&mut self, comma: Option<Marker>) -> ParseResult<'a>
        ensures event { GivesIn State.FlowMappingFirstKey result self.old self.new }
        ensures left { PaysIn State.FlowMappingFirstKey result self.old self.new }
        ensures names { KeepsNames result self.old self.new }
        ensures same { StaysOnError result self.old self.new }
        ensures sound { KeepsSoundIn State.FlowMappingFirstKey result self.old self.new }
        ensures twin { Follows (flow_first_key_step self.old.outer.items)
            result self.old self.new }
        ensures mark { comma ≡ None → MarkedBy (Suffices State.FlowMappingFirstKey) result self.old.tokens }
        ensures comma { (token : TokenSeen) (mark : Mark) → self.old.tokens.held ≡ Some token
            → token.1 ≡ Kind.FlowMappingEnd → comma ≡ Some mark
            → IfOk result (λ given. given.1 ≡ mark) }
        ensures tagged { TaggedBy result self.old.tokens }
        ensures anchored { AnchoredBy self.old.anchors.next result self.old.tokens }
    {
        match self.tokens.take()? {
            Token(mark, TokenType::FlowMappingEnd) => {
                self.leave();
                Ok((Event::MappingEnd, comma.unwrap_or(mark)))
            }
            Token(_, TokenType::Key) => {
                self.parse_filled(Ends::FlowKey, Context::Flow, State::FlowMappingValue)
            }
            Token(mark, TokenType::Value) => {
                self.tokens.put_back(Token(mark, TokenType::Value));
                self.give_empty(mark, State::FlowMappingValue)
            }
            token => self.parse_node_from(token, Context::Flow, State::FlowMappingEmptyValue),
        }
    }

    pub(crate) fn flow_mapping_key(&mut self) -> ParseResult<'a>
        ensures event { GivesIn State.FlowMappingKey result self.old self.new }
        ensures left { PaysIn State.FlowMappingKey result self.old self.new }
        ensures names { KeepsNames result self.old self.new }
        ensures same { StaysOnError result self.old self.new }
        ensures sound { KeepsSoundIn State.FlowMappingKey result self.old self.new }
        ensures twin { Follows (flow_key_step self.old.outer.items) result self.old self.new }
        ensures mark { MarkedBy (Suffices State.FlowMappingKey) result self.old.tokens }
    {
        match self.tokens.take()? {
            Token(mark, TokenType::FlowMappingEnd) => {
                self.leave();
                Ok((Event::MappingEnd, mark))
            }
            Token(mark, TokenType::FlowEntry) => self.flow_mapping_item(Some(mark)),
            token => Err(unexpected(token, ScanInfo::P6)),
        }
    }

    /// A value. After its `:` an empty one has the place of the `:`.
    pub(crate) fn flow_mapping_value(&mut self) -> ParseResult<'a>
        ensures event { GivesIn State.FlowMappingValue result self.old self.new }
        ensures left { PaysIn State.FlowMappingValue result self.old self.new }
        ensures names { KeepsNames result self.old self.new }
        ensures same { StaysOnError result self.old self.new }
        ensures sound { KeepsSoundIn State.FlowMappingValue result self.old self.new }
        ensures twin { Follows (flow_value_step self.old.outer.items) result self.old self.new }
        ensures mark { MarkedBy (Suffices State.FlowMappingValue) result self.old.tokens }
    {
        match self.tokens.take()? {
            Token(mark, TokenType::Value) => self.parse_flow_value(mark),
            token => {
                let mark = token.0;
                self.tokens.put_back(token);
                self.give_empty(mark, State::FlowMappingKey)
            }
        }
    }

    /// A value after its `:`, which has this place.
    fn parse_flow_value(&mut self, mark: Marker) -> ParseResult<'a>
        ensures event { GivesNode State.FlowMappingKey result self.old self.new }
        ensures left { OnOk result (events_now self.new
            ≤ events_before (tokens_left self.old.tokens) State.FlowMappingKey self.old + 1) }
        ensures names { KeepsNames result self.old self.new }
        ensures same { StaysOnError result self.old self.new }
        ensures sound { KeepsSoundIn State.FlowMappingKey result self.old self.new }
        ensures twin { Follows
            (filled_step Ends.FlowValue Context.Flow State.FlowMappingKey self.old.outer.items)
            result self.old self.new }
        ensures mark { (token : TokenSeen) → self.old.tokens.held ≡ Some token
            → is_prefix token.1 ≡ false → IfOk result (λ given.
            given.1 ≡ (if ends_at Ends.FlowValue token.1 then mark else token.0)) }
    {
        let token = self.tokens.take()?;
        if !Ends::FlowValue.has(&token.1) {
            return self.parse_node_from(token, Context::Flow, State::FlowMappingKey);
        }
        self.tokens.put_back(token);
        self.give_empty(mark, State::FlowMappingKey)
    }

    pub(crate) fn flow_mapping_empty_value(&mut self) -> ParseResult<'a>
        ensures event { GivesIn State.FlowMappingEmptyValue result self.old self.new }
        ensures left { PaysIn State.FlowMappingEmptyValue result self.old self.new }
        ensures names { KeepsNames result self.old self.new }
        ensures same { StaysOnError result self.old self.new }
        ensures sound { KeepsSoundIn State.FlowMappingEmptyValue result self.old self.new }
        ensures mark { MarkedBy (Suffices State.FlowMappingEmptyValue) result self.old.tokens }
    {
        let token = self.tokens.take()?;
        let mark = token.0;
        self.tokens.put_back(token);
        self.give_empty(mark, State::FlowMappingKey)
    }
}
