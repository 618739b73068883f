use super::*;
use std::test::Fail;

// An interval with so many numbers before it.
fn interval(first: u32, end: u32, before: u32) -> Interval {
    Interval { first, end, before }
}

#[test]
fn finds_places(rt: HostRuntime) -> Result<(), Fail> {
    let runs = Runs::from_sorted(rt.alloc(), &[0, 1, 4, 5])?;
    assert_eq!(rt;
        runs.intervals(),
        [interval(0, 2, 0), interval(4, 6, 2)].as_slice()
    );
    assert_eq!(rt; runs.count(), 4);
    let rows = [
        (0, Some(0), Some(0)),
        (1, Some(1), Some(1)),
        (2, Some(4), None),
        (3, Some(5), None),
        (4, None, Some(2)),
        (5, None, Some(3)),
        (6, None, None),
    ];
    for (n, at, rank) in rows {
        assert_eq!(rt; runs.at(n), at);
        assert_eq!(rt; runs.rank(n), rank);
    }
    let none = Runs::empty(rt.alloc());
    assert_eq!(rt; none.at(0), None);
    assert_eq!(rt; none.rank(0), None);
    Ok(())
}

#[test]
fn combines_two_sets(rt: HostRuntime) -> Result<(), Fail> {
    let alloc = rt.alloc();
    let low = Runs::from_sorted(alloc, &[0, 1])?;
    let middle = Runs::from_sorted(alloc, &[1, 2, 3, 4])?;
    let high = Runs::from_sorted(alloc, &[2, 3, 4])?;
    let all = low.union(alloc, &middle)?;
    assert_eq!(rt; all.intervals(), [interval(0, 5, 0)].as_slice());
    assert!(rt; all.is_same(&low.union(alloc, &high)?));
    assert!(rt; high.is_same(&middle.minus(alloc, &low)?));
    let first = Runs::from_sorted(alloc, &[0, 1, 2, 3])?;
    assert_eq!(rt;
        middle.minus(alloc, &first)?.intervals(),
        [interval(4, 5, 0)].as_slice()
    );
    assert_eq!(rt;
        low.meet(alloc, &middle)?.intervals(),
        [interval(1, 2, 0)].as_slice()
    );
    assert_eq!(rt; low.meet(alloc, &high)?.count(), 0);
    assert!(rt; low.touches(&middle));
    assert!(rt; !low.touches(&high));
    Ok(())
}

#[test]
fn takes_the_rows_of_a_box(rt: HostRuntime) -> Result<(), Fail> {
    let alloc = rt.alloc();
    let joined = Runs::of_box(alloc, &[4, 4], &[1, 0], &[3, 4])?;
    assert_eq!(rt; joined.intervals(), [interval(4, 12, 0)].as_slice());
    let apart = Runs::of_box(alloc, &[4, 4], &[0, 2], &[2, 4])?;
    assert_eq!(rt;
        apart.intervals(),
        [interval(2, 4, 0), interval(6, 8, 2)].as_slice()
    );
    let whole = Runs::of_box(alloc, &[2, 3, 4], &[0, 0, 0], &[2, 3, 4])?;
    assert_eq!(rt; whole.intervals(), [interval(0, 24, 0)].as_slice());
    let empty = Runs::of_box(alloc, &[4, 4], &[0, 2], &[4, 2])?;
    assert_eq!(rt; empty.count(), 0);
    let point = Runs::of_box(alloc, &[], &[], &[])?;
    assert_eq!(rt; point.intervals(), [interval(0, 1, 0)].as_slice());
    Ok(())
}

#[test]
fn has_the_last_numbers(rt: HostRuntime) -> Result<(), Fail> {
    let alloc = rt.alloc();
    let listed = Runs::from_sorted(alloc, &[4_294_967_293, 4_294_967_294])?;
    assert_eq!(rt;
        listed.intervals(),
        [interval(4_294_967_293, 4_294_967_295, 0)].as_slice()
    );
    let corner = Runs::of_box(
        alloc,
        &[65_535, 65_537],
        &[65_534, 65_535],
        &[65_535, 65_537],
    )?;
    assert!(rt; listed.is_same(&corner));
    assert_eq!(rt; listed.rank(4_294_967_294), Some(1));
    Ok(())
}

#[test]
fn finds_places_near(rt: HostRuntime) -> Result<(), Fail> {
    let runs = Runs::from_sorted(rt.alloc(), &[0, 1, 4, 5, 8])?;
    let rows = [
        (5, 1, Some(3), 1),
        (8, 1, Some(4), 2),
        (0, 2, Some(0), 0),
        (4, 4_294_967_295, Some(2), 1),
        (3, 1, None, 1),
    ];
    for (x, before, rank, after) in rows {
        let mut near = before;
        assert_eq!(rt; runs.rank_near(x, &mut near), rank);
        assert_eq!(rt; near, after);
    }
    Ok(())
}

#[test]
fn measures_stretches(rt: HostRuntime) -> Result<(), Fail> {
    let runs = Runs::from_sorted(rt.alloc(), &[0, 1, 4, 5])?;
    for (x, stretch) in [(0, 2), (1, 1), (2, 0), (3, 0), (4, 2), (6, 0)] {
        assert_eq!(rt; runs.stretch(x), stretch);
    }
    let copy = runs.copied(rt.alloc())?;
    assert!(rt; copy.is_same(&runs));
    assert_eq!(rt; copy.count(), 4);
    Ok(())
}

// A comb in a table of expected ones.
fn comb(low: u32, len: u32, dist: u32) -> Option<Comb> {
    Some(Comb { low, len, dist })
}

#[test]
fn finds_combs(rt: HostRuntime) -> Result<(), Fail> {
    let alloc = rt.alloc();
    steps_in_combs();
    let rows = [
        ([1, 2, 3, 4], comb(1, 4, 4)),
        ([0, 1, 4, 5], comb(0, 2, 4)),
        ([1, 3, 5, 7], comb(1, 1, 2)),
        ([0, 2, 4, 7], None),
        ([0, 1, 3, 5], None),
        ([0, 2, 3, 5], None),
    ];
    for (numbers, expected) in rows {
        let runs = Runs::from_sorted(alloc, &numbers)?;
        assert_eq!(rt; runs.comb(), expected);
    }
    let square = Runs::of_box(alloc, &[4, 4], &[1, 1], &[3, 3])?;
    assert_eq!(rt; square.comb(), comb(5, 2, 4));
    assert_eq!(rt; Runs::empty(alloc).comb(), None);
    Ok(())
}
