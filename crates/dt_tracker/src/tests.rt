//! The product on one node by hand: zero, three allocs, two copies of 4 units, the task of 8, the fold of 4, three frees.

use crate::{Step, Tracker};
use std::test::Fail;

const UNITS: [u32; 11] = [1, 1, 1, 1, 4, 4, 8, 4, 1, 1, 1];

const EVENTS: [(u32, u32); 10] = [
    (0, 7),
    (1, 6),
    (2, 4),
    (3, 5),
    (4, 6),
    (5, 6),
    (6, 7),
    (6, 9),
    (6, 10),
    (7, 8),
];

#[test]
fn the_product_is_tracked(rt: HostRuntime) -> Result<(), Fail> {
    let alloc = rt.alloc();
    let mut tracker = Tracker::new(alloc, &UNITS, &EVENTS)?;
    let opening = (
        tracker.answer(6),
        tracker.answer(u32::MAX),
        tracker.enabled_count(),
    );
    for op in [0, 2, 4, 4, 4, 4, 1] {
        tracker.take(op);
    }
    let waits = (tracker.take(6), tracker.take(4), tracker.enabled_count());
    for op in [3, 5, 5, 5, 5, 6] {
        tracker.take(op);
    }
    let said = format!(in alloc;
        "{:?} {:?} {}; {:?} {:?} {}; {:?} {:?}",
        opening.0,
        opening.1,
        opening.2,
        waits.0,
        waits.1,
        waits.2,
        tracker.answer(7),
        tracker.first_left()
    )?;
    assert_eq!(rt;
        said.as_str(),
        "Waits(1) Unknown 4; Waits(5) Finished 1; Waits(6) Some(6)"
    );
    Ok(())
}
