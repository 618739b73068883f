//! Laws of the orders of a job.

ghost use Rattle.dt_events.specs.JobLaws.{JobConflictsAreThePlans, JobOrdersAreDefined, JobOrdersEndAlike, JobTurnsAreAlike, JobsAreOrdered, JobsHaveFrames};

/// A job's list of operations meets what the argument asks, but that the listing is defined: its units have frames, each operation
/// has a unit, conflicts are those of the plan, and each conflicting pair is joined by a chain of events.
pub fn jobs_meet_the_facts()
    ensures conflicts { JobConflictsAreThePlans }
    ensures frames { JobsHaveFrames }
    ensures ordered { JobsAreOrdered }
{}

/// Where the listing is defined, every order that the events allow is, complete or not, and its counts alone decide the state. A
/// complete one ends as the listing does. What an operation reads or writes at a turn is what it is at that turn in the listing.
pub fn every_order_of_a_job()
    ensures defined { JobOrdersAreDefined }
    ensures ends { JobOrdersEndAlike }
    ensures turns { JobTurnsAreAlike }
{}
