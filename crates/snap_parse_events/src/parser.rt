//! The parser, and its events one by one.
ghost use Rattle.std.specs.Prelude.{◌≡◌, ◌≢◌, ◌<◌, List, IfOk, OnOk, OnErr, IfErr, IsOkAnd, Err, Some, None, true, false};
ghost use Rattle.std.specs.Str.{chars};
ghost use Rattle.snap_scan_tokens.specs.Place.{before_nul, mark_of};
ghost use Rattle.snap_scan_tokens.specs.declared.info.ScanError.{ScanError};
ghost use Rattle.snap_scan_tokens.specs.declared.token.TokenType.{TokenType as Kind};
ghost use Rattle.snap_scan.specs.Owed.{Owes};
ghost use Rattle.snap_scan.specs.Scan.{start_scan};
ghost use Rattle.snap_scan.specs.Sound.{IsFounded};
ghost use Rattle.snap_parse_events.specs.declared.event.Event.{Event as EventSeen};
ghost use Rattle.snap_parse_events.specs.Meaning.{ended, is_inside, is_stream_end};
ghost use Rattle.snap_parse_events.specs.Names.{forgotten};
ghost use Rattle.snap_parse_events.specs.Parsing.{start_parsing, source, meaning, events_left, WillGive, IsNext, Fails, KeepsError};
ghost use Rattle.snap_parse_events.specs.Place.{start_spot};
ghost use Rattle.snap_parse_events.specs.PutBack.{begins_node_at, is_pair_end_at, AnchoredBy, MarkedBy, SufficesAt, TaggedBy};
ghost use Rattle.snap_parse_events.specs.Twin.{Yields};

use crate::event::Event;
use crate::machine::Machine;
pub use crate::machine::ParseResult;
use snap_scan_tokens::{ScanError, keep};
use std::alloc::Global;
use std::marker::Model;

/// A parser: the events of a text, one by one. The text ends at its first NUL.
/// After its first failure each call returns the same error for good, out of memory too.
#[derive(Debug, Drop)]
pub struct Parser<'a> {
    pub(crate) machine: Machine<'a>,
    pub(crate) error: Option<ScanError>,
}

impl<'a> Model for Parser<'a> {
    ghost use Rattle.snap_parse_events.specs.Parsing.{Parsing};

    ghost Value = { Parsing };

    ghost use Rattle.snap_parse_events.specs.Machine.{spot_of};
    ghost use Rattle.snap_parse_events.specs.Parsing.{IsWholeWhile};

    ghost view = { λ p. record { tokens = p.machine.tokens; spot = spot_of p.machine; names = p.machine.anchors; error = p.error } };

    ghost invariant = { λ p. IsWholeWhile p.error p.machine.tokens (spot_of p.machine) };
}

impl<'a> Parser<'a> {
    /// A parser at the beginning of a text. It takes no memory.
    pub fn new(alloc: Global, source: &'a str) -> Parser<'a>
        ensures start { result ≡ start_parsing (before_nul (chars source.now)) }
        ensures gives { (tokens : List Kind) (events : List EventSeen)
            → Owes (start_scan (before_nul (chars source.now))).state tokens
            → Yields start_spot tokens events → WillGive result events }
    {
        Parser {
            machine: Machine::new(alloc, source),
            error: None,
        }
    }

    /// The next event and its place; StreamEnd again once it was given.
    pub fn next(&mut self) -> ParseResult<'a>
        ensures next { IfOk result (λ given. IsNext given.0 self.old self.new) }
        ensures left { meaning self.old ≢ ended
            → OnOk result (events_left self.new < events_left self.old) }
        ensures goes { IfOk result (λ given. is_stream_end given.0 ≡ false
            → events_left self.new < events_left self.old) }
        ensures end { self.old.error ≡ None → meaning self.old ≡ ended → IsOkAnd result (λ given.
            (given.0 ≡ Event.StreamEnd)
            × (given.1 ≡ mark_of self.old.tokens.scanner.state.place)
            × (self.new ≡ self.old)) }
        ensures sticky { (e : ScanError) → self.old.error ≡ Some e
            → (result ≡ Err e) × (self.new ≡ self.old) }
        ensures kept { KeepsError result self.new }
        ensures fails { IfErr result (λ e. Fails e self.old self.new) }
        ensures same { OnErr result (meaning self.new ≡ meaning self.old) }
        ensures memory { (events : List EventSeen) → WillGive self.old events
            → IfErr result (λ e. e ≡ ScanError.OutOfMemory) }
        ensures cause { IfErr result (λ e. IsFounded (source self.old) e) }
        ensures source { source self.new ≡ source self.old }
        ensures mark { MarkedBy (SufficesAt self.old.spot.stage) result self.old.tokens }
        ensures pair_end { is_pair_end_at self.old.spot.stage ≡ true → IfOk result (λ given.
            given.1 ≡ mark_of self.old.tokens.scanner.state.place) }
        ensures tagged { begins_node_at self.old.spot.stage ≡ true
            → TaggedBy result self.old.tokens }
        ensures anchored { begins_node_at self.old.spot.stage ≡ true
            → AnchoredBy self.old.names.next result self.old.tokens }
    {
        if let Some(error) = &self.error {
            return Err(*error);
        }
        match self.machine.next() {
            Ok(given) => Ok(given),
            Err(error) => Err(keep(&mut self.error, &error)),
        }
    }

    /// Whether a document has begun whose end is to come.
    pub(crate) fn is_inside_document(&self) -> bool
        ensures { result ≡ is_inside (meaning self.now) }
    {
        self.machine.is_inside_document()
    }

    /// Forgets all names.
    pub(crate) fn forget_names(&mut self)
        ensures { self.new ≡ record self.old { names = forgotten self.old.names } }
    {
        self.machine.anchors.forget();
    }
}
