//! Laws of what the listing of a job and its other orders leave.

ghost use Rattle.dt_events.specs.ListingRuns.{AllowedListsRun, AllowedTurnsAreDefined, CompleteListsLeaveTheNumbers, ListingsRun, ReadyListsAreOrdered, TurnsAreDefined};

/// The listing of a job whose parts have no workspaces is defined at every unit: each word that a task reads is held at its turn.
/// It leaves every home with the numbers after all parts, modulo 2^64, and nothing else.
pub fn listings_run()
    ensures run { ListingsRun }
    ensures turns { TurnsAreDefined }
    ensures ordered { ReadyListsAreOrdered }
{}

/// Every list of units that the events allow is defined at every unit. A complete one leaves what the listing leaves: every home
/// with the numbers after all parts.
pub fn orders_leave_the_numbers()
    ensures defined { AllowedListsRun }
    ensures turns { AllowedTurnsAreDefined }
    ensures ends { CompleteListsLeaveTheNumbers }
{}
