//! Laws of the units of operations: what each one touches, and which pairs change places.

ghost use Rattle.dt_events.specs.StateLaws.{ListsHaveFrames, UnitsAreFramed, UnmetAreApart};

/// Each unit of an operation keeps to the operation's footprints: whether it is defined depends on which of these cells are present,
/// nothing else changes, what it writes depends on what it reads and writes, and what it folds grows by such an amount. The
/// operation is read by its own fields, whatever list it stands in.
pub fn units_keep_to_footprints()
    ensures { UnitsAreFramed }
{}

/// Operations without a conflict clash at no cell, in any list, with any events.
pub fn lists_have_frames()
    ensures apart { UnmetAreApart }
    ensures lists { ListsHaveFrames }
{}
