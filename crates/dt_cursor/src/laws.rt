//! Laws of cursors.

ghost use Rattle.dt_cursor.specs.CursorLaws.{AnswersStay, CursorsFollowOrders, UnitsAreAllowed};

/// After any units that it answered a cursor answers what the order asks for after them. An answer that is no unit stays. A unit
/// that is asked for may go on.
pub fn cursors_follow_orders()
    ensures follow { CursorsFollowOrders }
    ensures stay { AnswersStay }
    ensures allowed { UnitsAreAllowed }
{}
