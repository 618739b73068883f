//! The definitions on a list of four operations, by hand, and what the laws say of it.

ghost use Rattle.std.specs.Prelude.{◌≡◌, ℕ, List, [], ◌∷◌, length, Some, map};
ghost use Rattle.dt_base.specs.Ranges.{below};
ghost use Rattle.dt_argument.specs.Events.{events_among};
ghost use Rattle.dt_argument.specs.Frames.{StateOf};
ghost use Rattle.dt_argument.specs.Facts.{HasFrames, IsOrdered};
ghost use Rattle.dt_argument.specs.Orders.{IsAllowed, IsEnabled, counts_of, listing_order, run_along};
ghost use Rattle.dt_argument.specs.Worked.{worked_cells, worked_conflict, worked_list};

use crate::{every_order, never_stuck};
use std::test::Fail;

/// The scratch is opened before it is written, and written before it is read; the two folds have no event.
fn events_by_hand()
    ensures { events_among worked_conflict 4 ≡ (0, 1) ∷ (1, 2) ∷ [] }
{}

/// The list's own order, and other orders, cut ones and ones that are not allowed.
fn orders_by_hand()
    ensures order { listing_order worked_list ≡ 0 ∷ 1 ∷ 2 ∷ 2 ∷ 3 ∷ [] }
    ensures counts { map (counts_of (0 ∷ 1 ∷ 2 ∷ 2 ∷ 3 ∷ [])) (below 4) ≡ 1 ∷ 1 ∷ 2 ∷ 1 ∷ [] }
    ensures cells { map worked_cells ((0 ∷ 1 ∷ 2 ∷ 2 ∷ 3 ∷ []) ∷ (3 ∷ 0 ∷ 1 ∷ 2 ∷ 2 ∷ []) ∷ (0 ∷ 1 ∷ 2 ∷ 3 ∷ []) ∷ (0 ∷ 2 ∷ []) ∷ (3 ∷ 1 ∷ []) ∷ [])
        ≡ (Some 5 ∷ Some 5 ∷ Some 25 ∷ []) ∷ (Some 5 ∷ Some 5 ∷ Some 25 ∷ []) ∷ (Some 5 ∷ Some 5 ∷ Some 20 ∷ []) ∷ (Some 5 ∷ Some 0 ∷ Some 10 ∷ []) ∷ [] ∷ [] }
{}

/// The list meets what the argument asks.
fn the_list_meets_the_facts()
    ensures frames { HasFrames worked_list }
    ensures ordered { IsOrdered worked_list }
{}

/// So every order of five units that the events allow leaves 25 in the home.
fn every_order_leaves_25()
    ensures { (u : List ℕ) → IsAllowed worked_list u → length u ≡ 5 → worked_cells u ≡ Some 5 ∷ Some 5 ∷ Some 25 ∷ [] }
{
    the_list_meets_the_facts();
    never_stuck::<u32>();
    every_order::<u32>();
}

/// The scratch has the source's number at each unit that adds it into the home, whatever ran before.
fn the_scratch_has_5_at_its_turns()
    ensures { (u : List ℕ) → IsAllowed worked_list u → IsEnabled worked_list (counts_of u) 2
        → (s : StateOf ℕ) → run_along worked_list u ≡ Some s → s 1 ≡ Some 5 }
{
    the_list_meets_the_facts();
    every_order::<u32>();
}

#[test]
fn a_list_of_four_operations(rt: HostRuntime) -> Result<(), Fail> {
    events_by_hand();
    orders_by_hand();
    the_list_meets_the_facts();
    every_order_leaves_25();
    the_scratch_has_5_at_its_turns();
    Ok(())
}
