//! What gets events, one by one.
ghost use Rattle.std.specs.Prelude.{List, [], ◌∷◌, ◌++◌, OnOk, OnErr};
ghost use Rattle.snap_parse_events.specs.declared.event.Event.{Event as EventSeen};

use crate::event::Event;
use snap_content::OutOfMemory;
use snap_scan_tokens::Marker;

/// Gets events, with the places where they begin.
pub trait MarkedEventReceiver {
    /// These are the events that it got. A receiver that doesn't tell them leaves this as it is.
    ghost told: { Self → List EventSeen → Type 0 } = { λ _ _. Unit {0} };

    /// Takes one event more. After out of memory it is as if the event hadn't come.
    fn on_event(&mut self, ev: Event<'_>, mark: Marker) -> Result<(), OutOfMemory>
        ensures ok { (events : List EventSeen) → told self.old events
            → OnOk result (told self.new (events ++ ev.entry ∷ [])) }
        ensures err { (events : List EventSeen) → told self.old events
            → OnErr result (told self.new events) };
}

/// Gets events. It is a receiver of marked events too, one that ignores the marks.
pub trait EventReceiver {
    /// These are the events that it got. A receiver that doesn't tell them leaves this as it is.
    ghost told: { Self → List EventSeen → Type 0 } = { λ _ _. Unit {0} };

    /// Takes one event more. After out of memory it is as if the event hadn't come.
    fn on_event(&mut self, ev: Event<'_>) -> Result<(), OutOfMemory>
        ensures ok { (events : List EventSeen) → told self.old events
            → OnOk result (told self.new (events ++ ev.entry ∷ [])) }
        ensures err { (events : List EventSeen) → told self.old events
            → OnErr result (told self.new events) };
}

impl<R: EventReceiver> MarkedEventReceiver for R {
    ghost told = { R.EventReceiver.told };

    fn on_event(&mut self, ev: Event<'_>, _mark: Marker) -> Result<(), OutOfMemory> {
        EventReceiver::on_event(self, ev)
    }
}
