//! The events of plans, by hand.

use crate::jobs::{CANNON_2, FOUR_NODES, JOHNSON, ONE_NODE, TWO_STATEMENTS, UNEQUAL};
use crate::plans::made;
use dt_base::{Bytes, NoMemory};
use dt_events::{Events, events_of};
use dt_plan::Plan;
use std::alloc::Global;
use std::test::Fail;

/// A job, a node, and then how many events the plan has and which of them begin at an operation of this node.
const ROWS: [(&str, u32, &str); 8] = [
    (ONE_NODE, 0, "10: 0-7 1-6 2-4 3-5 4-6 5-6 6-7 6-9 6-10 7-8"),
    (
        FOUR_NODES,
        0,
        "80: 0-19 4-9 4-16 5-7 6-8 7-9 8-9 9-10 9-11 9-19 10-12 11-13 12-14 13-15 14-16 15-16 16-17 16-18 16-19 19-20",
    ),
    (
        FOUR_NODES,
        3,
        "80: 3-70 55-60 55-67 56-58 57-59 58-60 59-60 60-61 60-62 60-70 61-63 62-64 63-65 64-66 65-67 66-67 67-68 67-69 67-70 70-71",
    ),
    (
        CANNON_2,
        1,
        "80: 1-36 21-26 21-33 22-24 23-25 24-26 25-26 26-27 26-28 26-36 27-29 28-30 29-31 30-32 31-33 32-33 33-34 33-35 33-36 36-37",
    ),
    (
        JOHNSON,
        0,
        "80: 0-7 0-17 0-27 0-37 0-47 0-57 0-67 0-77 1-6 2-4 3-5 4-6 5-6 6-7 6-9 6-10 7-8",
    ),
    (UNEQUAL, 2, "21: 2-21 17-20 18-19 19-20 20-21 20-23 21-22"),
    (UNEQUAL, 3, "21:"),
    (
        TWO_STATEMENTS,
        0,
        "15: 0-5 1-4 2-3 3-4 4-5 4-7 5-6 5-11 8-13 9-11 10-12 11-12 12-13 12-14 13-15",
    ),
];

/// Puts the number of events, and those that begin at an operation of the node.
fn put_events(out: &mut Bytes, plan: &Plan, events: &Events, node: u32) -> Result<(), NoMemory> {
    out.append_number(events.pairs().len())?;
    out.append(b":")?;
    for (first, second) in events.pairs() {
        if is_on(plan, *first, node) {
            out.append(b" ")?;
            out.append_number(*first)?;
            out.append(b"-")?;
            out.append_number(*second)?;
        }
    }
    Ok(())
}

/// Whether an operation is there, and on this node.
fn is_on(plan: &Plan, number: u32, node: u32) -> bool {
    match plan.ops().get(number as usize) {
        None => false,
        Some(op) => op.node == node,
    }
}

/// What is said of the events of a job.
fn said_of(alloc: Global, lines: &str, node: u32) -> Result<Bytes, Fail> {
    let (_job, plan) = made(alloc, lines)?;
    let events = events_of(alloc, &plan)?;
    let mut out = Bytes::new(alloc);
    put_events(&mut out, &plan, &events, node)?;
    Ok(out)
}

#[test]
fn operations_wait_for_those_before_them_that_conflict(rt: HostRuntime) -> Result<(), Fail> {
    for (lines, node, wanted) in ROWS {
        let said = said_of(rt.alloc(), lines, node)?;
        assert!(rt; said.as_slice() == wanted.as_bytes(), "at {wanted}");
    }
    Ok(())
}
