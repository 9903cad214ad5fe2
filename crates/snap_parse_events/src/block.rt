//! Sequences and mappings in blocks.
ghost use Rattle.std.specs.Prelude.{true};

use crate::event::Event;
use crate::machine::{Machine, ParseResult};
use crate::state::{Context, Ends, Stage, State};
use crate::tokens::unexpected;
use snap_scan_tokens::{ScanInfo, Token, TokenType};

impl<'a> Machine<'a> {
    ghost use Rattle.snap_parse_events.specs.PutBack.{AnchoredBy, MarkedBy, Suffices, TaggedBy};
    ghost use Rattle.snap_parse_events.specs.Machine.{KeepsSoundIn, GivesIn, PaysIn, KeepsNames, StaysOnError};
    ghost use Rattle.snap_parse_events.specs.Twin.{Follows, entry_step, filled_step, indentless_step, key_step, value_step};

    pub(crate) fn block_sequence_entry(&mut self) -> ParseResult<'a>
        ensures event { GivesIn State.BlockSequenceEntry result self.old self.new }
        ensures left { PaysIn State.BlockSequenceEntry result self.old self.new }
        ensures names { KeepsNames result self.old self.new }
        ensures same { StaysOnError result self.old self.new }
        ensures sound { KeepsSoundIn State.BlockSequenceEntry result self.old self.new }
        ensures twin { Follows (entry_step self.old.outer.items) result self.old self.new }
        ensures mark { MarkedBy (Suffices State.BlockSequenceEntry) result self.old.tokens }
    {
        match self.tokens.take()? {
            Token(mark, TokenType::BlockEnd) => {
                self.leave();
                Ok((Event::SequenceEnd, mark))
            }
            Token(_, TokenType::BlockEntry) => {
                self.parse_filled(Ends::BlockEntry, Context::Block, State::BlockSequenceEntry)
            }
            token => Err(unexpected(token, ScanInfo::P8)),
        }
    }

    /// An entry of a sequence at its mapping's column, which has no tokens for its start and its end.
    pub(crate) fn indentless_sequence_entry(&mut self) -> ParseResult<'a>
        ensures event { GivesIn State.IndentlessSequenceEntry result self.old self.new }
        ensures left { PaysIn State.IndentlessSequenceEntry result self.old self.new }
        ensures names { KeepsNames result self.old self.new }
        ensures same { StaysOnError result self.old self.new }
        ensures sound { KeepsSoundIn State.IndentlessSequenceEntry result self.old self.new }
        ensures twin { Follows (indentless_step self.old.outer.items) result self.old self.new }
        ensures mark { MarkedBy (Suffices State.IndentlessSequenceEntry) result self.old.tokens }
    {
        match self.tokens.take()? {
            Token(_, TokenType::BlockEntry) => {
                self.parse_filled(
                    Ends::IndentlessEntry,
                    Context::Block,
                    State::IndentlessSequenceEntry,
                )
            }
            token => {
                let mark = token.0;
                self.tokens.put_back(token);
                self.leave();
                Ok((Event::SequenceEnd, mark))
            }
        }
    }

    pub(crate) fn block_mapping_key(&mut self) -> ParseResult<'a>
        ensures event { GivesIn State.BlockMappingKey result self.old self.new }
        ensures left { PaysIn State.BlockMappingKey result self.old self.new }
        ensures names { KeepsNames result self.old self.new }
        ensures same { StaysOnError result self.old self.new }
        ensures sound { KeepsSoundIn State.BlockMappingKey result self.old self.new }
        ensures twin { Follows (key_step self.old.outer.items) result self.old self.new }
        ensures mark { MarkedBy (Suffices State.BlockMappingKey) result self.old.tokens }
    {
        match self.tokens.take()? {
            Token(mark, TokenType::BlockEnd) => {
                self.leave();
                Ok((Event::MappingEnd, mark))
            }
            Token(_, TokenType::Key) => {
                self.parse_filled(
                    Ends::BlockPair,
                    Context::Indentless,
                    State::BlockMappingValue,
                )
            }
            Token(mark, TokenType::Value) => self.give_empty(mark, State::BlockMappingContent),
            token => Err(unexpected(token, ScanInfo::P5)),
        }
    }

    pub(crate) fn block_mapping_value(&mut self) -> ParseResult<'a>
        ensures event { GivesIn State.BlockMappingValue result self.old self.new }
        ensures left { PaysIn State.BlockMappingValue result self.old self.new }
        ensures names { KeepsNames result self.old self.new }
        ensures same { StaysOnError result self.old self.new }
        ensures sound { KeepsSoundIn State.BlockMappingValue result self.old self.new }
        ensures twin { Follows (value_step self.old.outer.items) result self.old self.new }
        ensures mark { MarkedBy (Suffices State.BlockMappingValue) result self.old.tokens }
    {
        match self.tokens.take()? {
            Token(_, TokenType::Value) => self.block_mapping_content(),
            token => {
                let mark = token.0;
                self.tokens.put_back(token);
                self.give_empty(mark, State::BlockMappingKey)
            }
        }
    }

    /// A value after its `:`.
    pub(crate) fn block_mapping_content(&mut self) -> ParseResult<'a>
        ensures event { GivesIn State.BlockMappingContent result self.old self.new }
        ensures left { PaysIn State.BlockMappingContent result self.old self.new }
        ensures names { KeepsNames result self.old self.new }
        ensures same { StaysOnError result self.old self.new }
        ensures sound { KeepsSoundIn State.BlockMappingContent result self.old self.new }
        ensures twin { Follows (filled_step Ends.BlockPair Context.Indentless State.BlockMappingKey self.old.outer.items)
            result self.old self.new }
        ensures mark { MarkedBy (Suffices State.BlockMappingContent) result self.old.tokens }
        ensures tagged { TaggedBy result self.old.tokens }
        ensures anchored { AnchoredBy self.old.anchors.next result self.old.tokens }
    {
        self.parse_filled(Ends::BlockPair, Context::Indentless, State::BlockMappingKey)
    }
}
