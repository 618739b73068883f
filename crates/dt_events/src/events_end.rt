//! Why there are no events.

ghost use Rattle.std.specs.Prelude.{◌≡◌};
ghost use Rattle.dt_events.specs.declared.events_end.EventsEnd.TheVariants as end;

use dt_base::NoMemory;
use std::alloc::AllocFailed;

/// A plan has more than 1,048,576 events, or memory runs out.
#[derive(Clone, Copy, Debug, PartialEq, Eq)]
pub enum EventsEnd {
    TooManyEvents,
    NoMemory,
}

impl<T: Drop> From<AllocFailed<T>> for EventsEnd {
    ghost from_gives = { λ _ stop. stop ≡ end.NoMemory };

    fn from(_error: AllocFailed<T>) -> EventsEnd {
        EventsEnd::NoMemory
    }
}

impl From<NoMemory> for EventsEnd {
    ghost from_gives = { λ _ stop. stop ≡ end.NoMemory };

    fn from(_error: NoMemory) -> EventsEnd {
        EventsEnd::NoMemory
    }
}
