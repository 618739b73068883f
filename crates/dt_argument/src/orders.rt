//! Laws of the orders that the events allow.

ghost use Rattle.dt_argument.specs.Laws.{CountsDecideTheState, EveryOrderIsDefined, FramedUnitsCommute, LongOrdersAreComplete, NeverStuck, NewUnitMovesBack, OrdersEndAsTheListing, OrdersGoOn, OrdersKeepCounts, OrdersTurnAsTheListing, TheListingIsAnOrder, TheListingRunsInTurn, TurnsAreAlike};

/// Two units whose operations meet at no cell commute.
pub fn framed_units_commute<C>()
    ensures { FramedUnitsCommute C }
{}

/// The order of the list itself is one of the orders. Its run is defined exactly where each unit is defined at its turn.
pub fn the_listing_is_an_order<C>()
    ensures order { TheListingIsAnOrder C }
    ensures turns { TheListingRunsInTurn C }
{}

/// A unit that may come next is defined and moves back to its place in the list, and what it finds is what it finds there.
pub fn new_unit_moves_back<C>()
    ensures moves { NewUnitMovesBack C }
    ensures alike { TurnsAreAlike C }
{}

/// Every order that the events allow, complete or not, is defined, and its counts alone decide the state. A complete one ends as
/// the list does. What an operation reads or writes is at each turn what it is at that turn in the list.
pub fn every_order<C>()
    ensures defined { EveryOrderIsDefined C }
    ensures counts { CountsDecideTheState C }
    ensures ends { OrdersEndAsTheListing C }
    ensures turns { OrdersTurnAsTheListing C }
{}

/// How orders grow, unit by unit.
pub fn orders_go_on<C>()
    ensures on { OrdersGoOn C }
    ensures counts { OrdersKeepCounts C }
{}

/// No order is stuck, and one of as many units as there are is complete.
pub fn never_stuck<C>()
    ensures stuck { NeverStuck C }
    ensures complete { LongOrdersAreComplete C }
{}
