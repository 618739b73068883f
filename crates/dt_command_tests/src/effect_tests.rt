//! What commands make of the loops of a matrix product, worked out by hand.

use crate::fixtures::{Command, How, Wanted, after, answered, product};
use dt_base::NoMemory;
use std::alloc::Global;
use std::process::Abort;
use std::test::Fail;

/// Where a number does not divide the extent, where it is 1, where it is the extent, and where it is more.
#[test]
fn a_cut_loop_has_pieces_and_a_guard(rt: HostRuntime) -> Result<(), Fail> {
    let rows = [
        (Command::Split(b'i', *b"xy", 2), [(b'x', 3), (b'y', 2)], 2),
        (Command::Split(b'i', *b"xy", 1), [(b'x', 5), (b'y', 1)], 1),
        (Command::Split(b'i', *b"xy", 5), [(b'x', 1), (b'y', 5)], 5),
        (Command::Split(b'i', *b"xy", 7), [(b'x', 1), (b'y', 7)], 7),
        (Command::Divide(b'i', *b"xy", 2), [(b'x', 2), (b'y', 3)], 3),
        (Command::Divide(b'i', *b"xy", 4), [(b'x', 4), (b'y', 2)], 2),
        (Command::Divide(b'i', *b"xy", 1), [(b'x', 1), (b'y', 5)], 5),
        (Command::Divide(b'i', *b"xy", 5), [(b'x', 5), (b'y', 1)], 1),
        (Command::Divide(b'i', *b"xy", 7), [(b'x', 7), (b'y', 1)], 1),
    ];
    for (command, [outer, inner], factor) in rows {
        let first = product(rt.alloc(), [5, 2, 3])?;
        let sched = after(&rt, rt.alloc(), &[command], first)?;
        let wanted = Wanted {
            loops: &[outer, inner, (b'j', 2), (b'k', 3)],
            guards: b"i",
            derived: &[(b'i', How::Split(b'x', b'y', factor))],
            distributed: 0,
        };
        assert!(rt; wanted.is_met(sched.parts()));
    }
    Ok(())
}

/// Loops of extents 1 and 3, each cut by 3.
#[test]
fn a_split_may_reach_past_the_extent(rt: HostRuntime) -> Result<(), Fail> {
    let commands = [
        Command::Split(b'i', *b"ax", 3),
        Command::Split(b'j', *b"by", 3),
    ];
    let first = product(rt.alloc(), [1, 3, 2])?;
    let sched = after(&rt, rt.alloc(), &commands, first)?;
    let wanted = Wanted {
        loops: &[(b'a', 1), (b'x', 3), (b'b', 1), (b'y', 3), (b'k', 2)],
        guards: b"ij",
        derived: &[
            (b'i', How::Split(b'a', b'x', 3)),
            (b'j', How::Split(b'b', b'y', 3)),
        ],
        distributed: 0,
    };
    assert!(rt; wanted.is_met(sched.parts()));
    Ok(())
}

#[test]
fn reordered_loops_stand_in_the_named_order(rt: HostRuntime) -> Result<(), Fail> {
    let (i, j, k) = ((b'i', 5), (b'j', 2), (b'k', 3));
    let rows = [
        (b"kij".as_slice(), [k, i, j]),
        (b"kji".as_slice(), [k, j, i]),
        (b"ijk".as_slice(), [i, j, k]),
        (b"ji".as_slice(), [j, i, k]),
        (b"kj".as_slice(), [i, k, j]),
        (b"k".as_slice(), [i, j, k]),
    ];
    for (order, [outer, middle, inner]) in rows {
        let first = product(rt.alloc(), [5, 2, 3])?;
        let sched = after(&rt, rt.alloc(), &[Command::Reorder(order)], first)?;
        let wanted = Wanted {
            loops: &[outer, middle, inner],
            guards: b"",
            derived: &[],
            distributed: 0,
        };
        assert!(rt; wanted.is_met(sched.parts()));
    }
    Ok(())
}

#[test]
fn a_fused_loop_has_each_pair_of_values(rt: HostRuntime) -> Result<(), Fail> {
    let rows = [
        (b'i', b'j', [(b'f', 10), (b'k', 3)], 2),
        (b'j', b'k', [(b'i', 5), (b'f', 6)], 3),
    ];
    for (outer, inner, [first_loop, last_loop], by) in rows {
        let first = product(rt.alloc(), [5, 2, 3])?;
        let command = Command::Collapse(outer, inner, b'f');
        let sched = after(&rt, rt.alloc(), &[command], first)?;
        let wanted = Wanted {
            loops: &[first_loop, last_loop],
            guards: b"",
            derived: &[
                (outer, How::Quotient(b'f', by)),
                (inner, How::Rest(b'f', by)),
            ],
            distributed: 0,
        };
        assert!(rt; wanted.is_met(sched.parts()));
    }
    Ok(())
}

/// By one loop, by two in either order, and by one of them twice.
#[test]
fn a_rotated_loop_adds_loops_around_it(rt: HostRuntime) -> Result<(), Fail> {
    let (i, j, k) = ((b'i', 5), (b'j', 2), (b'k', 3));
    let rows = [
        (b'j', b"i".as_slice(), [i, (b'r', 2), k], 2),
        (b'k', b"j".as_slice(), [i, j, (b'r', 3)], 3),
        (b'k', b"ij".as_slice(), [i, j, (b'r', 3)], 3),
        (b'k', b"ji".as_slice(), [i, j, (b'r', 3)], 3),
        (b'k', b"ii".as_slice(), [i, j, (b'r', 3)], 3),
    ];
    for (var, by, [outer, middle, inner], extent) in rows {
        let first = product(rt.alloc(), [5, 2, 3])?;
        let sched = after(&rt, rt.alloc(), &[Command::Rotate(var, by, b'r')], first)?;
        let wanted = Wanted {
            loops: &[outer, middle, inner],
            guards: b"",
            derived: &[(var, How::Rotate(b'r', by, extent))],
            distributed: 0,
        };
        assert!(rt; wanted.is_met(sched.parts()));
    }
    Ok(())
}

#[test]
fn distributed_loops_stay_where_they_stand(rt: HostRuntime) -> Result<(), Fail> {
    let rows = [
        (b"i".as_slice(), [5].as_slice(), 1),
        (b"ij".as_slice(), [5, 2].as_slice(), 2),
        (b"ijk".as_slice(), [5, 2, 3].as_slice(), 3),
    ];
    for (vars, grid, distributed) in rows {
        let first = product(rt.alloc(), [5, 2, 3])?;
        let sched = after(&rt, rt.alloc(), &[Command::Distribute(vars, grid)], first)?;
        let wanted = Wanted {
            loops: &[(b'i', 5), (b'j', 2), (b'k', 3)],
            guards: b"",
            derived: &[],
            distributed,
        };
        assert!(rt; wanted.is_met(sched.parts()));
    }
    Ok(())
}

/// An outer piece is cut again, a fused loop is cut, and a rotated loop is fused.
#[test]
fn a_new_loop_takes_commands_too(rt: HostRuntime) -> Result<(), Fail> {
    let rows = [
        (
            Command::Split(b'i', *b"xy", 2),
            Command::Divide(b'x', *b"zw", 2),
            Wanted {
                loops: &[(b'z', 2), (b'w', 2), (b'y', 2), (b'j', 2), (b'k', 3)],
                guards: b"ix",
                derived: &[
                    (b'i', How::Split(b'x', b'y', 2)),
                    (b'x', How::Split(b'z', b'w', 2)),
                ],
                distributed: 0,
            },
        ),
        (
            Command::Collapse(b'i', b'j', b'f'),
            Command::Split(b'f', *b"xy", 4),
            Wanted {
                loops: &[(b'x', 3), (b'y', 4), (b'k', 3)],
                guards: b"f",
                derived: &[
                    (b'i', How::Quotient(b'f', 2)),
                    (b'j', How::Rest(b'f', 2)),
                    (b'f', How::Split(b'x', b'y', 4)),
                ],
                distributed: 0,
            },
        ),
        (
            Command::Rotate(b'j', b"i", b'r'),
            Command::Collapse(b'i', b'r', b'f'),
            Wanted {
                loops: &[(b'f', 10), (b'k', 3)],
                guards: b"",
                derived: &[
                    (b'j', How::Rotate(b'r', b"i", 2)),
                    (b'i', How::Quotient(b'f', 2)),
                    (b'r', How::Rest(b'f', 2)),
                ],
                distributed: 0,
            },
        ),
    ];
    for (one, other, wanted) in rows {
        let first = product(rt.alloc(), [5, 2, 3])?;
        let sched = after(&rt, rt.alloc(), &[one, other], first)?;
        assert!(rt; wanted.is_met(sched.parts()));
    }
    Ok(())
}

/// The tiles of Cannon's algorithm: 4x4 matrices on 2x2 nodes, the tiles along k turned by the node's row and column.
#[test]
fn tiles_are_turned_and_distributed(rt: HostRuntime) -> Result<(), Fail> {
    let commands = [
        Command::Divide(b'i', *b"ab", 2),
        Command::Divide(b'j', *b"cd", 2),
        Command::Reorder(b"acbd"),
        Command::Divide(b'k', *b"ef", 2),
        Command::Reorder(b"ebd"),
        Command::Rotate(b'e', b"ac", b'r'),
        Command::Distribute(b"ac", &[2, 2]),
    ];
    let first = product(rt.alloc(), [4, 4, 4])?;
    let sched = after(&rt, rt.alloc(), &commands, first)?;
    let wanted = Wanted {
        loops: &[
            (b'a', 2),
            (b'c', 2),
            (b'r', 2),
            (b'b', 2),
            (b'd', 2),
            (b'f', 2),
        ],
        guards: b"ijk",
        derived: &[
            (b'i', How::Split(b'a', b'b', 2)),
            (b'j', How::Split(b'c', b'd', 2)),
            (b'k', How::Split(b'e', b'f', 2)),
            (b'e', How::Rotate(b'r', b"ac", 2)),
        ],
        distributed: 2,
    };
    assert!(rt; wanted.is_met(sched.parts()));
    Ok(())
}

/// After `before`, a refused command is given twice, and loop k is then split into p and q: whether both answers are
/// as wanted, and the split is that of the schedule before.
fn is_handed_back(
    rt: &impl Abort,
    alloc: Global,
    before: &[Command<'_>],
    refused: Command<'_>,
    wanted: (&[u8], Wanted<'_>),
) -> Result<bool, NoMemory> {
    let first = product(alloc, [5, 2, 3])?;
    let sched = after(rt, alloc, before, first)?;
    let (sched, once) = answered(rt, alloc, refused, sched)?;
    let (sched, twice) = answered(rt, alloc, refused, sched)?;
    assert_eq!(rt; once.as_slice(), wanted.0);
    assert_eq!(rt; twice.as_slice(), wanted.0);
    let split = Command::Split(b'k', *b"pq", 2);
    let sched = after(rt, alloc, &[split], sched)?;
    Ok(wanted.1.is_met(sched.parts()))
}

#[test]
fn a_refusal_hands_the_first_schedule_back(rt: HostRuntime) -> Result<(), Fail> {
    let wanted = Wanted {
        loops: &[(b'i', 5), (b'j', 2), (b'p', 2), (b'q', 2)],
        guards: b"k",
        derived: &[(b'k', How::Split(b'p', b'q', 2))],
        distributed: 0,
    };
    let rows = [
        (Command::Split(b'i', *b"jy", 2), b"NameTaken j".as_slice()),
        (Command::Divide(b'i', *b"xy", 0), b"BadNumber".as_slice()),
        (Command::Reorder(b"ik"), b"NotOneChain".as_slice()),
        (Command::Reorder(b"jj"), b"BadLoops".as_slice()),
        (
            Command::Collapse(b'i', b'k', b'f'),
            b"NotAdjacent".as_slice(),
        ),
        (Command::Rotate(b'i', b"k", b'r'), b"NotOuter k".as_slice()),
        (Command::Distribute(b"i", &[5, 2]), b"WrongCount".as_slice()),
        (
            Command::Distribute(b"j", &[2]),
            b"NotOutermost j".as_slice(),
        ),
        (
            Command::Distribute(b"ij", &[5, 4]),
            b"WrongExtent j 2 4".as_slice(),
        ),
    ];
    for (refused, answer) in rows {
        assert!(rt; is_handed_back(&rt, rt.alloc(), &[], refused, (answer, wanted))?);
    }
    Ok(())
}

/// A loop that was replaced is unknown, the outer loop of a divide has another extent than the machine, and a new loop
/// is rotated by none that isn't around it.
#[test]
fn a_refusal_keeps_what_commands_made(rt: HostRuntime) -> Result<(), Fail> {
    let pieces = Wanted {
        loops: &[(b'x', 2), (b'y', 3), (b'j', 2), (b'p', 2), (b'q', 2)],
        guards: b"ik",
        derived: &[
            (b'i', How::Split(b'x', b'y', 3)),
            (b'k', How::Split(b'p', b'q', 2)),
        ],
        distributed: 0,
    };
    let fused = Wanted {
        loops: &[(b'f', 10), (b'p', 2), (b'q', 2)],
        guards: b"k",
        derived: &[
            (b'i', How::Quotient(b'f', 2)),
            (b'j', How::Rest(b'f', 2)),
            (b'k', How::Split(b'p', b'q', 2)),
        ],
        distributed: 0,
    };
    let turned = Wanted {
        loops: &[(b'i', 5), (b'r', 2), (b'p', 2), (b'q', 2)],
        guards: b"k",
        derived: &[
            (b'j', How::Rotate(b'r', b"i", 2)),
            (b'k', How::Split(b'p', b'q', 2)),
        ],
        distributed: 0,
    };
    let rows = [
        (
            Command::Split(b'i', *b"xy", 3),
            Command::Divide(b'i', *b"zw", 0),
            (b"UnknownLoop i".as_slice(), pieces),
        ),
        (
            Command::Divide(b'i', *b"xy", 2),
            Command::Distribute(b"x", &[3]),
            (b"WrongExtent x 2 3".as_slice(), pieces),
        ),
        (
            Command::Collapse(b'i', b'j', b'f'),
            Command::Reorder(b"jk"),
            (b"UnknownLoop j".as_slice(), fused),
        ),
        (
            Command::Rotate(b'j', b"i", b'r'),
            Command::Rotate(b'r', b"ik", b's'),
            (b"NotOuter k".as_slice(), turned),
        ),
    ];
    for (before, refused, wanted) in rows {
        assert!(rt; is_handed_back(&rt, rt.alloc(), &[before], refused, wanted)?);
    }
    Ok(())
}

#[test]
fn a_distributed_loop_is_not_free(rt: HostRuntime) -> Result<(), Fail> {
    let wanted = Wanted {
        loops: &[(b'i', 5), (b'j', 2), (b'p', 2), (b'q', 2)],
        guards: b"k",
        derived: &[(b'k', How::Split(b'p', b'q', 2))],
        distributed: 1,
    };
    let before = [Command::Distribute(b"i", &[5])];
    let rows = [
        Command::Split(b'i', *b"xy", 2),
        Command::Reorder(b"ji"),
        Command::Collapse(b'i', b'j', b'f'),
        Command::Distribute(b"ij", &[5, 2]),
    ];
    for refused in rows {
        let answer = b"Distributed i".as_slice();
        assert!(rt; is_handed_back(&rt, rt.alloc(), &before, refused, (answer, wanted))?);
    }
    Ok(())
}

#[test]
fn a_fused_loop_has_a_largest_extent(rt: HostRuntime) -> Result<(), Fail> {
    let rows = [
        ([4096, 4096, 1], b"ok".as_slice()),
        ([4097, 4096, 1], b"TooLarge".as_slice()),
        ([u32::MAX, u32::MAX, 1], b"TooLarge".as_slice()),
    ];
    for (extents, wanted) in rows {
        let sched = product(rt.alloc(), extents)?;
        let command = Command::Collapse(b'i', b'j', b'f');
        let (_, answer) = answered(&rt, rt.alloc(), command, sched)?;
        assert_eq!(rt; answer.as_slice(), wanted);
    }
    Ok(())
}

/// Each split adds a loop to the three of the product.
#[test]
fn a_nest_has_at_most_sixteen_loops(rt: HostRuntime) -> Result<(), Fail> {
    let mut sched = product(rt.alloc(), [5, 2, 3])?;
    let mut last = b'i';
    for n in 0u8..13 {
        let split = Command::Split(last, [b'A' + n, b'N' + n], 1);
        sched = after(&rt, rt.alloc(), &[split], sched)?;
        last = b'N' + n;
    }
    let split = Command::Split(last, *b"xy", 1);
    let (_, answer) = answered(&rt, rt.alloc(), split, sched)?;
    assert_eq!(rt; answer.as_slice(), b"TooManyLoops".as_slice());
    Ok(())
}
