//! Events handed on to a receiver.
ghost use Rattle.std.specs.Prelude.{◌≡◌, ◌≢◌, ◌<◌, List, ◌∷◌, Err, None, Some, IfOk, OnOk, OnErr, IfErr, true, false};
ghost use Rattle.snap_parse_events.specs.declared.event.Event.{Event as EventSeen};
ghost use Rattle.snap_parse_events.specs.Meaning.{ahead, is_inside, is_stream_end};
ghost use Rattle.snap_scan_tokens.specs.declared.info.ScanError.{ScanError as ScanErrorSeen};
ghost use Rattle.snap_parse_events.specs.Errors.{load_error, IsLoadFounded};
ghost use Rattle.snap_parse_events.specs.Parsing.{source, meaning, events_left, WillGive};
ghost use Rattle.snap_parse_events.specs.Runs.{Steps, passed_of, stops, GetsMore, HandsOn, LoadsUpTo, LoadsPart, TellsStream, Refuses, Breaks, Leaves};

use crate::error::LoadError;
use crate::event::Event;
use crate::parser::Parser;
use crate::receiver::MarkedEventReceiver;
use snap_scan_tokens::Marker;

/// What kind of event was handed on, as far as loading has to know.
#[derive(Clone, Copy, Debug, PartialEq, Eq)]
pub enum Passed {
    StreamEnd,
    DocumentEnd,
    Other,
}

impl Passed {
    fn of(event: &Event<'_>) -> Passed
        ensures { result ≡ passed_of event.now }
    {
        match event {
            Event::StreamEnd => Passed::StreamEnd,
            Event::DocumentEnd => Passed::DocumentEnd,
            _ => Passed::Other,
        }
    }

    /// Whether loading stops after it.
    fn stops(self, multi: bool) -> bool
        ensures { result ≡ stops multi self }
    {
        match self {
            Passed::StreamEnd => true,
            Passed::DocumentEnd => !multi,
            Passed::Other => false,
        }
    }
}

impl<'a> Parser<'a> {
    /// The next event. At a document's start all names are forgotten.
    fn next_forgetting(&mut self) -> Result<(Event<'a>, Marker), LoadError>
        ensures ok { IfOk result (λ given. Steps given.0 self.old self.new) }
        ensures goes { IfOk result (λ given. is_stream_end given.0 ≡ false
            → events_left self.new < events_left self.old) }
        ensures inside { IfErr result (λ e. e ≢ LoadError.InsideDocument) }
        ensures memory { (events : List EventSeen) → WillGive self.old events
            → IfErr result (λ e. e ≡ LoadError.OutOfMemory) }
        ensures cause { IfErr result (λ e. IsLoadFounded (source self.old) e) }
        ensures source { source self.new ≡ source self.old }
        ensures well { OnOk result (self.new.error ≡ None) }
        ensures fails { IfErr result (λ e. Refuses e self.old self.new) }
        ensures sticky { (why : ScanErrorSeen) → self.old.error ≡ Some why
            → (result ≡ Err (load_error why)) × (self.new ≡ self.old) }
    {
        let (event, mark) = self.next()?;
        if let Event::DocumentStart = event {
            self.forget_names();
        }
        Ok((event, mark))
    }

    /// Hands one event on.
    fn hand_on<R: MarkedEventReceiver>(&mut self, receiver: &mut R) -> Result<Passed, LoadError>
        ensures ok { IfOk result (λ kind.
            HandsOn R.told receiver.old receiver.new self.old self.new kind) }
        ensures goes { IfOk result (λ kind. kind ≢ Passed.StreamEnd
            → events_left self.new < events_left self.old) }
        ensures err { (events : List EventSeen) → R.told receiver.old events
            → OnErr result (R.told receiver.new events) }
        ensures inside { IfErr result (λ e. e ≢ LoadError.InsideDocument) }
        ensures memory { (events : List EventSeen) → WillGive self.old events
            → IfErr result (λ e. e ≡ LoadError.OutOfMemory) }
        ensures cause { IfErr result (λ e. IsLoadFounded (source self.old) e) }
        ensures source { source self.new ≡ source self.old }
        ensures well { OnOk result (self.new.error ≡ None) }
        ensures breaks { IfErr result (λ e. Breaks e self.old self.new) }
        ensures sticky { (why : ScanErrorSeen) → self.old.error ≡ Some why
            → (result ≡ Err (load_error why)) × (self.new ≡ self.old)
            × (receiver.new ≡ receiver.old) }
    {
        let (event, mark) = self.next_forgetting()?;
        let passed = Passed::of(&event);
        receiver.on_event(event, mark)?;
        Ok(passed)
    }

    /// Hands events on, each document without the names of the one before: with `multi` all that are to come, else those of
    /// one document, or StreamEnd where none is left. Inside a document it does nothing.
    ///
    /// After `Scan` the receiver has got the events before the error, which each later call returns again. After `OutOfMemory`
    /// the same is so where the parser had no memory; where the receiver had none for an event, a later call goes on after it.
    pub fn load<R: MarkedEventReceiver>(
        &mut self,
        receiver: &mut R,
        multi: bool,
    ) -> Result<(), LoadError>
        ensures inside { is_inside (meaning self.old) ≡ true → (result ≡ Err LoadError.InsideDocument)
            × (self.new ≡ self.old) × (receiver.new ≡ receiver.old) }
        ensures outside { is_inside (meaning self.old) ≡ false
            → IfErr result (λ e. e ≢ LoadError.InsideDocument) }
        ensures ok { OnOk result
            (LoadsUpTo R.told multi receiver.old receiver.new self.old self.new) }
        ensures stream { multi ≡ true → meaning self.old ≡ ahead
            → OnOk result (TellsStream R.told receiver.old receiver.new) }
        ensures gives { (event : EventSeen) (events : List EventSeen) → multi ≡ true
            → WillGive self.old (event ∷ events)
            → OnOk result (GetsMore R.told receiver.old receiver.new (event ∷ events)) }
        ensures closed { OnOk result (is_inside (meaning self.new) ≡ false) }
        ensures err { is_inside (meaning self.old) ≡ false → IfErr result (λ e.
            LoadsPart R.told multi e receiver.old receiver.new self.old self.new) }
        ensures well { OnOk result (self.new.error ≡ None) }
        ensures leaves { IfErr result (λ e. Leaves e self.old self.new) }
        ensures sticky { (why : ScanErrorSeen) → is_inside (meaning self.old) ≡ false
            → self.old.error ≡ Some why → (result ≡ Err (load_error why))
            × (self.new ≡ self.old) × (receiver.new ≡ receiver.old) }
        ensures memory { (events : List EventSeen) → is_inside (meaning self.old) ≡ false
            → WillGive self.old events → IfErr result (λ e. e ≡ LoadError.OutOfMemory) }
        ensures cause { IfErr result (λ e. IsLoadFounded (source self.old) e) }
        ensures source { source self.new ≡ source self.old }
    {
        if self.is_inside_document() {
            return Err(LoadError::InsideDocument);
        }
        'events: loop {
            let passed = self.hand_on(receiver)?;
            if passed.stops(multi) {
                return Ok(());
            }
        }
    }
}
