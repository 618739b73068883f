//! The schedule with a walked loop, a precompute node and a substituted loop, and its visits, by hand.

use crate::item_texts::items_text;
use crate::row_schedules::row_schedule;
use crate::row_tensors::row_tensors;
use dt_base::Bytes;
use dt_bounds::is_path;
use dt_nest::put_nest;
use std::alloc::Global;
use std::test::Fail;

/// The loop over stored rows, and in it the producer and the consumer.
const NEST: &str = "[A,B,C] i:3~B where W { jow:2 jiw:3 leaf } { jo:2 ji:3 leaf:dot }";

#[test]
fn the_nest_is_printed(rt: HostRuntime) -> Result<(), Fail> {
    let alloc = rt.alloc();
    let sched = row_schedule(alloc)?;
    let mut text = Bytes::new(alloc);
    put_nest(alloc, &mut text, &sched)?;
    assert!(rt; text.as_slice() == NEST.as_bytes());
    Ok(())
}

/// The visits under a path, where it is one.
fn visits_under(alloc: Global, path: &[u32]) -> Result<Bytes, Fail> {
    let sched = row_schedule(alloc)?;
    let tensors = row_tensors(alloc)?;
    if !is_path(&sched, path) {
        return Ok(Bytes::from_slice(alloc, b"no path")?);
    }
    Ok(items_text(alloc, &sched, &tensors, path)?)
}

/// All visits: of the rows 0 and 2, since nothing is stored in row 1. W is cleared, and takes B(i,j) at jow = j / 3 and
/// jiw = j % 3. The value 4 of j, at jo 1 and ji 1, is none of either branch. Then each jo has one visit, at which ji has its
/// valid values.
const VISITS: &str = " reset 0; W00 B00; W01 B01; W02 B02; W10 B03; \
0: A0 W00 C0 1: A0 W01 C1 2: A0 W02 C2; 0: A0 W10 C3; \
reset 0; W00 B20; W01 B21; W02 B22; W10 B23; \
0: A2 W00 C0 1: A2 W01 C1 2: A2 W02 C2; 0: A2 W10 C3;";

#[test]
fn stored_rows_are_filled_and_then_summed(rt: HostRuntime) -> Result<(), Fail> {
    let text = visits_under(rt.alloc(), &[])?;
    assert!(rt; text.as_slice() == VISITS.as_bytes());
    Ok(())
}

/// The visits of row 2 alone.
const LAST_ROW: &str = " reset 0; W00 B20; W01 B21; W02 B22; W10 B23; \
0: A2 W00 C0 1: A2 W01 C1 2: A2 W02 C2; 0: A2 W10 C3;";

#[test]
fn a_path_has_the_visits_of_its_row(rt: HostRuntime) -> Result<(), Fail> {
    let text = visits_under(rt.alloc(), &[2])?;
    assert!(rt; text.as_slice() == LAST_ROW.as_bytes());
    let text = visits_under(rt.alloc(), &[1])?;
    assert!(rt; text.is_empty());
    Ok(())
}
