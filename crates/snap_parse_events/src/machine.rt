//! What all states of a parser share.
ghost use Rattle.std.specs.Prelude.{◌≡◌, ◌≢◌, ◌+◌, ◌≤◌, ℕ, List, [], ◌∷◌, IfOk, OnOk, OnErr, IfErr, IsOkAnd, Some, All, true};
ghost use Rattle.std.specs.Str.{chars};
ghost use Rattle.snap_scan_tokens.specs.Place.{before_nul, mark_of};
ghost use Rattle.snap_parse_events.specs.Meaning.{open_in, after, is_inside};
ghost use Rattle.snap_parse_events.specs.Feed.{start_tokens, Feeds};
ghost use Rattle.snap_parse_events.specs.Names.{no_names, Naming};
ghost use Rattle.snap_parse_events.specs.Place.{below, weight_below, pending, start_spot};

use crate::anchors::Anchors;
use crate::event::Event;
use crate::state::{Context, Stage, State};
use crate::tokens::Tokens;
use snap_content::{Lent, Text};
use snap_scan_tokens::{Marker, ScanError, TScalarStyle};
use std::alloc::Global;
use std::collections::VecDeque;

/// An event and its place, or what is wrong.
pub type ParseResult<'a> = Result<(Event<'a>, Marker), ScanError>;

/// A parser, but for the error that it keeps.
#[derive(Debug, Drop)]
pub struct Machine<'a> {
    pub(crate) tokens: Tokens<'a>,
    pub(crate) anchors: Anchors,
    pub(crate) stage: Stage,
    /// Where the parser goes on once what is open ends, the innermost first; after the last stands the document's end.
    pub(crate) outer: VecDeque<State>,
}

impl<'a> Machine<'a> {
    ghost use Rattle.snap_parse_events.specs.PutBack.{begins_node, begins_node_at, is_pair_end, is_pair_end_at, AnchoredBy, MarkedBy, Suffices, SufficesAt, TaggedBy};
    ghost use Rattle.snap_parse_events.specs.Machine.{spot_of, meaning_now, events_now, HasSigns, IsSound, IsSoundIn, StaysSound, KeepsSoundIn, GivesIn, GivesNode, PaysIn, KeepsNames, StaysOnError};
    ghost use Rattle.snap_parse_events.specs.Twin.{left_spot, empty_scalar, Follows, parse_step, state_step};

    pub(crate) fn new(alloc: Global, source: &'a str) -> Machine<'a>
        ensures tokens { result.tokens ≡ start_tokens (before_nul (chars source.now)) }
        ensures spot { spot_of result ≡ start_spot }
        ensures names { result.anchors ≡ no_names }
    {
        Machine {
            tokens: Tokens::new(alloc, source),
            anchors: Anchors::new(alloc),
            stage: Stage::Ahead,
            outer: VecDeque::new(alloc),
        }
    }

    /// Begins a sequence or a mapping, after which the parser goes on as it is told.
    pub(crate) fn begin(&mut self, state: State, behind: State) -> Result<(), ScanError>
        ensures spot { OnOk result (spot_of self.new
            ≡ record { stage = Stage.Open state; outer = behind ∷ self.old.outer.items }) }
        ensures same { OnErr result (spot_of self.new ≡ spot_of self.old) }
        ensures memory { IfErr result (λ e. e ≡ ScanError.OutOfMemory) }
        ensures tokens { self.new.tokens ≡ self.old.tokens }
        ensures names { self.new.anchors ≡ self.old.anchors }
        ensures sound { (source : List ℕ) → IsSoundIn source self.old.tokens state self.old.outer.items
            → HasSigns source behind → StaysSound source result self.new.tokens (spot_of self.new) }
    {
        self.outer.push_front(behind)?;
        self.stage = Stage::Open(state);
        Ok(())
    }

    /// A sequence or a mapping has ended.
    pub(crate) fn leave(&mut self)
        ensures meaning { meaning_now self.new ≡ open_in (below self.old.outer.items) }
        ensures left { pending (spot_of self.new) ≡ weight_below self.old.outer.items }
        ensures tokens { self.new.tokens ≡ self.old.tokens }
        ensures names { self.new.anchors ≡ self.old.anchors }
        ensures sound { (source : List ℕ) → Feeds source self.old.tokens
            → All (HasSigns source) self.old.outer.items
            → IsSound source self.new.tokens (spot_of self.new) }
        ensures spot { spot_of self.new ≡ left_spot self.old.outer.items }
    {
        match self.outer.pop_front() {
            None => self.stage = Stage::Open(State::DocumentEnd),
            Some(state) => self.stage = Stage::Open(state),
        }
    }

    /// The scalar `~`, for a node that isn't written.
    pub(crate) fn give_empty(&mut self, mark: Marker, behind: State) -> ParseResult<'a>
        ensures event { GivesNode behind result self.old self.new }
        ensures spot { spot_of self.new
            ≡ record { stage = Stage.Open behind; outer = self.old.outer.items } }
        ensures ok { IsOkAnd result (λ given. given.1 ≡ mark) }
        ensures tokens { self.new.tokens ≡ self.old.tokens }
        ensures names { KeepsNames result self.old self.new }
        ensures sound { KeepsSoundIn behind result self.old self.new }
        ensures given { IfOk result (λ given. given.0 ≡ empty_scalar) }
    {
        self.stage = Stage::Open(behind);
        let event = Event::Scalar(Lent::borrowed("~"), TScalarStyle::Plain, 0, None);
        Ok((event, mark))
    }

    /// The next event, where the stream is open.
    fn next_in(&mut self, state: State) -> ParseResult<'a>
        ensures event { GivesIn state result self.old self.new }
        ensures left { PaysIn state result self.old self.new }
        ensures names { KeepsNames result self.old self.new }
        ensures same { StaysOnError result self.old self.new }
        ensures sound { KeepsSoundIn state result self.old self.new }
        ensures twin { Follows (state_step state self.old.outer.items) result self.old self.new }
        ensures mark { MarkedBy (Suffices state) result self.old.tokens }
        ensures pair_end { is_pair_end state ≡ true → IfOk result (λ given.
            given.1 ≡ mark_of self.old.tokens.scanner.state.place) }
        ensures tagged { begins_node state ≡ true → TaggedBy result self.old.tokens }
        ensures anchored { begins_node state ≡ true
            → AnchoredBy self.old.anchors.next result self.old.tokens }
    {
        match state {
            State::ImplicitDocumentStart => self.implicit_document_start(),
            State::DocumentStart => self.document_start(),
            State::DocumentContent => self.document_content(),
            State::BlockNode => self.parse_node(Context::Block, State::DocumentEnd),
            State::DocumentEnd => self.document_end(),
            State::BlockSequenceEntry => self.block_sequence_entry(),
            State::IndentlessSequenceEntry => self.indentless_sequence_entry(),
            State::BlockMappingKey => self.block_mapping_key(),
            State::BlockMappingValue => self.block_mapping_value(),
            State::BlockMappingContent => self.block_mapping_content(),
            State::FlowSequenceFirstEntry => self.flow_sequence_item(),
            State::FlowSequenceEntry => self.flow_sequence_entry(),
            State::FlowSequenceEntryMappingKey => self.flow_sequence_entry_mapping_key(),
            State::FlowSequenceEntryMappingValue => self.flow_sequence_entry_mapping_value(),
            State::FlowSequenceEntryMappingEnd => self.flow_sequence_entry_mapping_end(),
            State::FlowMappingFirstKey => self.flow_mapping_item(None),
            State::FlowMappingKey => self.flow_mapping_key(),
            State::FlowMappingValue => self.flow_mapping_value(),
            State::FlowMappingEmptyValue => self.flow_mapping_empty_value(),
        }
    }

    /// The next event.
    pub(crate) fn next(&mut self) -> ParseResult<'a>
        ensures event { IfOk result (λ given. after given.0 (meaning_now self.old)
            ≡ Some (meaning_now self.new)) }
        ensures left { self.old.stage ≢ Stage.Ended
            → OnOk result (events_now self.new + 1 ≤ events_now self.old) }
        ensures names { KeepsNames result self.old self.new }
        ensures same { StaysOnError result self.old self.new }
        ensures ended { self.old.stage ≡ Stage.Ended → IsOkAnd result (λ given.
            (given.0 ≡ Event.StreamEnd)
            × (given.1 ≡ mark_of self.old.tokens.scanner.state.place)
            × (self.new ≡ self.old)) }
        ensures sound { (source : List ℕ) → IsSound source self.old.tokens (spot_of self.old)
            → StaysSound source result self.new.tokens (spot_of self.new) }
        ensures twin { Follows (parse_step (spot_of self.old)) result self.old self.new }
        ensures mark { MarkedBy (SufficesAt self.old.stage) result self.old.tokens }
        ensures pair_end { is_pair_end_at self.old.stage ≡ true → IfOk result (λ given.
            given.1 ≡ mark_of self.old.tokens.scanner.state.place) }
        ensures tagged { begins_node_at self.old.stage ≡ true → TaggedBy result self.old.tokens }
        ensures anchored { begins_node_at self.old.stage ≡ true
            → AnchoredBy self.old.anchors.next result self.old.tokens }
    {
        match self.stage {
            Stage::Ahead => self.stream_start(),
            Stage::Open(state) => self.next_in(state),
            Stage::Ended => Ok((Event::StreamEnd, self.tokens.mark())),
        }
    }

    /// Whether a document has begun whose end is to come.
    pub(crate) fn is_inside_document(&self) -> bool
        ensures { result ≡ is_inside (meaning_now self.now) }
    {
        match self.stage {
            Stage::Ahead | Stage::Ended => false,
            Stage::Open(State::ImplicitDocumentStart | State::DocumentStart) => false,
            Stage::Open(_) => true,
        }
    }
}
