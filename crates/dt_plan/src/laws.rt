//! Laws of the list of operations.

ghost use Rattle.dt_plan.specs.OpsOf.{OpsAreOfLayout};
ghost use Rattle.dt_plan.specs.ListingLaws.{ListAscends, ListHasNamed, ListIsBrackets, ListIsOrdered, OpsHaveUnits};

/// The operations of a job are brackets along the nests of its statements, one statement after another.
pub fn list_is_brackets()
    ensures { ListIsBrackets }
{}

/// The operations of a job are those that its statements name, each of them once.
pub fn list_has_named()
    ensures { ListHasNamed }
{}

/// The operations of a job ascend strictly by their keys.
pub fn list_ascends()
    ensures { ListAscends }
{}

/// They ascend by what these keys are made of, one after the other: statement, zeros first, node, path with its end, kind,
/// tensor, other node.
pub fn list_is_ordered()
    ensures { ListIsOrdered }
{}

/// Each operation has as many units as its kind, words and visits ask for.
pub fn operations_have_units()
    ensures { OpsHaveUnits }
{}

/// Each operation is on nodes of the machine and of one of the statements, and the path of a task is one of its statement's.
pub fn operations_are_of_layout()
    ensures { OpsAreOfLayout }
{}
