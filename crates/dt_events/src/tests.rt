//! What the laws say of a matrix product on one node.

ghost use Rattle.std.specs.Prelude.{◌≡◌, ◌⊎◌, ℕ, ◌≤◌, List, [], ◌∷◌, length, Some};
ghost use Rattle.dt_argument.specs.Facts.{HasFrames, IsOrdered};
ghost use Rattle.dt_argument.specs.Frames.{AreApart, IsFramed};
ghost use Rattle.dt_argument.specs.Orders.{IsAllowed, IsComplete, counts_of, listing_order};
ghost use Rattle.dt_plan.specs.Bounds.{bound_of};
ghost use Rattle.dt_plan.specs.Operations.{ops_of};
ghost use Rattle.dt_plan.specs.declared.touches.Buffer.TheVariants.{Scratch};
ghost use Rattle.dt_plan.specs.Footprints.{footprints_of};
ghost use Rattle.dt_events.specs.JobLaws.{IsListingDefined};
ghost use Rattle.dt_events.specs.Jobs.{at_of, listing_of, op_at, run_of, state_of};
ghost use Rattle.dt_events.specs.ListingRuns.{IsReady};
ghost use Rattle.dt_events.specs.LiveWords.{live_of};
ghost use Rattle.dt_events.specs.Placed.{AreNumbers, numbers_after_all};
ghost use Rattle.dt_events.specs.PresenceLaws.{IsClosed, IsOpen};
ghost use Rattle.dt_events.specs.State.{State, touches_at};
ghost use Rattle.dt_events.specs.StateLaws.{AreRunnable};
ghost use Rattle.dt_events.specs.Units.{can_do, next_of};
ghost use Rattle.dt_events.specs.Worked.{given_numbers, product_layout, result_of};

use crate::{
    buffers_are_opened_whole, every_order_of_a_job, jobs_meet_the_facts, listings_run,
    lists_have_frames, live_words_are_bounded, orders_leave_the_numbers, units_keep_to_footprints,
};
use std::test::Fail;

/// The plan meets what the laws ask.
fn the_product_is_runnable()
    ensures runnable { AreRunnable product_layout }
    ensures defined { IsListingDefined product_layout given_numbers }
{}

/// The visits of the task keep to its footprints.
fn the_task_is_framed()
    ensures { (i : ℕ) → IsFramed (touches_at (footprints_of product_layout (op_at (ops_of product_layout) 6))) (can_do product_layout (op_at (ops_of product_layout) 6) i) (next_of product_layout (op_at (ops_of product_layout) 6) i) }
{
    the_product_is_runnable();
    units_keep_to_footprints();
}

/// The copies of B and of C clash at no cell.
fn the_copies_are_apart()
    ensures { AreApart (touches_at (footprints_of product_layout (op_at (ops_of product_layout) 4))) (touches_at (footprints_of product_layout (op_at (ops_of product_layout) 5))) }
{
    lists_have_frames();
}

/// The list meets what the argument asks.
fn the_product_meets_the_facts()
    ensures frames { HasFrames (listing_of product_layout given_numbers) }
    ensures ordered { IsOrdered (listing_of product_layout given_numbers) }
{
    the_product_is_runnable();
    jobs_meet_the_facts();
}

/// Every order that the events allow is defined, and every complete one leaves 19 22 43 50 in the home of A.
fn every_order_leaves_the_product()
    ensures defined { (u : List ℕ) → IsAllowed (listing_of product_layout given_numbers) u
        → run_of product_layout given_numbers u ≡ Some (at_of product_layout given_numbers (counts_of u)) }
    ensures result { (u : List ℕ) → IsAllowed (listing_of product_layout given_numbers) u → IsComplete (listing_of product_layout given_numbers) (counts_of u)
        → result_of (run_of product_layout given_numbers u) ≡ Some 19 ∷ Some 22 ∷ Some 43 ∷ Some 50 ∷ [] }
{
    the_product_is_runnable();
    every_order_of_a_job();
}

/// The plan finds what it needs, so that its listing runs and owes the argument nothing.
fn the_product_is_ready()
    ensures ready { IsReady product_layout }
    ensures numbers { AreNumbers product_layout given_numbers }
    ensures runs { run_of product_layout given_numbers (listing_order (listing_of product_layout given_numbers)) ≡ Some (state_of product_layout (numbers_after_all product_layout.stored product_layout.parts given_numbers)) }
    ensures ordered { IsOrdered (listing_of product_layout given_numbers) }
{
    listings_run();
}

/// Every complete order leaves the homes with the product of the given numbers.
fn every_order_leaves_the_numbers()
    ensures { (u : List ℕ) → IsAllowed (listing_of product_layout given_numbers) u → IsComplete (listing_of product_layout given_numbers) (counts_of u)
        → run_of product_layout given_numbers u ≡ Some (state_of product_layout (numbers_after_all product_layout.stored product_layout.parts given_numbers)) }
{
    the_product_is_ready();
    orders_leave_the_numbers();
}

/// The scratch of B is absent, or has the words of its alloc, whatever numbers of units are done.
fn the_scratch_is_opened_whole()
    ensures { (done : ℕ → ℕ) → IsClosed (at_of product_layout given_numbers done) 0 (Scratch 0 1)
        ⊎ IsOpen product_layout (ops_of product_layout) (length (ops_of product_layout)) (at_of product_layout given_numbers done) 0 (Scratch 0 1) }
{
    buffers_are_opened_whole();
}

/// The homes of A, B and C have 12 words, and as many have their scratches: no order passes 24.
fn no_order_passes_the_bound()
    ensures opening { live_of product_layout 0 (state_of product_layout given_numbers) ≡ 12 }
    ensures bound { bound_of product_layout 0 ≡ 24 }
    ensures orders { (u : List ℕ) (s : State) → IsAllowed (listing_of product_layout given_numbers) u → run_of product_layout given_numbers u ≡ Some s → live_of product_layout 0 s ≤ 24 }
{
    the_product_is_ready();
    live_words_are_bounded();
}

#[test]
fn a_product_in_every_order(rt: HostRuntime) -> Result<(), Fail> {
    the_product_is_runnable();
    the_task_is_framed();
    the_copies_are_apart();
    the_product_meets_the_facts();
    every_order_leaves_the_product();
    the_product_is_ready();
    every_order_leaves_the_numbers();
    the_scratch_is_opened_whole();
    no_order_passes_the_bound();
    Ok(())
}
