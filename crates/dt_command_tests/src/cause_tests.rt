//! Causes against commands on the nest of a matrix product.

ghost use Rattle.std.specs.Prelude.{◌≤◌, IfOk};
ghost use Rattle.dt_nest.specs.Tree.{loop_count};
ghost use Rattle.dt_nest.specs.Schedule.{seen};

use crate::fixtures::{name, product, told};
use dt_base::{Extents, NoMemory, Vars};
use dt_nest::{Moved, Rewrite, SchedParts};
use dt_rewrite::{Collapse, Distribute, Divide, Reorder, Rotate, Split};
use std::alloc::Global;
use std::test::Fail;

/// The loops i, j and k of extent 2, so many of them distributed; h is a name that is no loop.
fn parts_of(alloc: Global, distributed: u32) -> Result<SchedParts, NoMemory>
    ensures { IfOk result (λ p. loop_count (seen p).nest ≤ 16) }
{
    let mut parts = product(alloc, [2, 2, 2])?.into_parts();
    parts.distributed = distributed;
    parts.names.push(name(b'h'))?;
    Ok(parts)
}

fn split(var: u32, outer: u8, inner: u8, factor: u32) -> Split {
    Split {
        var,
        outer: name(outer),
        inner: name(inner),
        factor,
    }
}

#[test]
fn splits_and_divides_have_one_row_of_tests(rt: HostRuntime) -> Result<(), Fail> {
    let parts = parts_of(rt.alloc(), 1)?;
    let rows = [
        (1, b'x', b'y', 2, b"ok".as_slice()),
        (1, b'x', b'y', 65536, b"ok".as_slice()),
        (3, b'x', b'y', 0, b"UnknownLoop h".as_slice()),
        (1, b'i', b'y', 0, b"BadNumber".as_slice()),
        (1, b'i', b'y', 65537, b"BadNumber".as_slice()),
        (0, b'h', b'y', 1, b"NameTaken h".as_slice()),
        (0, b'x', b'x', 1, b"NameTaken x".as_slice()),
        (0, b'x', b'y', 1, b"Distributed i".as_slice()),
    ];
    for (var, outer, inner, number, wanted) in rows {
        let split = split(var, outer, inner, number);
        let cause = split.first_cause(&parts);
        assert_eq!(rt; told(&cause).as_slice(), wanted);
        let divide = Divide {
            var,
            outer: name(outer),
            inner: name(inner),
            pieces: number,
        };
        let cause = divide.first_cause(&parts);
        assert_eq!(rt; told(&cause).as_slice(), wanted);
    }
    Ok(())
}

#[test]
fn reordered_loops_differ_and_are_consecutive(rt: HostRuntime) -> Result<(), Fail> {
    let alloc = rt.alloc();
    let mut parts = parts_of(alloc, 0)?;
    parts.moved.push(Moved { tensor: 0, at: 1 })?;
    let rows = [
        ([0, 0, 0].as_slice(), b"BadLoops".as_slice()),
        ([0, 3, 0].as_slice(), b"UnknownLoop h".as_slice()),
        ([2, 0].as_slice(), b"NotOneChain".as_slice()),
        ([2, 1].as_slice(), b"Communicated j".as_slice()),
        ([2].as_slice(), b"ok".as_slice()),
        ([].as_slice(), b"ok".as_slice()),
    ];
    for (vars, wanted) in rows {
        let reorder = Reorder {
            vars: Vars::from_slice(alloc, vars)?,
        };
        let cause = reorder.first_cause(&parts);
        assert_eq!(rt; told(&cause).as_slice(), wanted);
    }
    Ok(())
}

#[test]
fn a_collapse_takes_a_loop_and_its_body(rt: HostRuntime) -> Result<(), Fail> {
    let parts = parts_of(rt.alloc(), 0)?;
    let rows = [
        (0, 1, b'f', b"ok".as_slice()),
        (3, 1, b'f', b"UnknownLoop h".as_slice()),
        (0, 1, b'k', b"NameTaken k".as_slice()),
        (0, 2, b'f', b"NotAdjacent".as_slice()),
        (1, 0, b'f', b"NotAdjacent".as_slice()),
        (0, 0, b'f', b"NotAdjacent".as_slice()),
    ];
    for (outer, inner, fused, wanted) in rows {
        let collapse = Collapse {
            outer,
            inner,
            fused: name(fused),
        };
        let cause = collapse.first_cause(&parts);
        assert_eq!(rt; told(&cause).as_slice(), wanted);
    }
    Ok(())
}

#[test]
fn a_loop_is_rotated_by_loops_around_it(rt: HostRuntime) -> Result<(), Fail> {
    let alloc = rt.alloc();
    let parts = parts_of(alloc, 0)?;
    let rows = [
        (2, [0, 1].as_slice(), b"ok".as_slice()),
        (2, [0, 0].as_slice(), b"ok".as_slice()),
        (0, [2].as_slice(), b"NotOuter k".as_slice()),
        (1, [0, 1].as_slice(), b"NotOuter j".as_slice()),
        (1, [3].as_slice(), b"UnknownLoop h".as_slice()),
    ];
    for (var, by, wanted) in rows {
        let rotate = Rotate {
            var,
            by: Vars::from_slice(alloc, by)?,
            fresh: name(b'r'),
        };
        let cause = rotate.first_cause(&parts);
        assert_eq!(rt; told(&cause).as_slice(), wanted);
    }
    Ok(())
}

#[test]
fn the_outermost_loops_are_distributed(rt: HostRuntime) -> Result<(), Fail> {
    let alloc = rt.alloc();
    let rows = [
        (0, [0, 1].as_slice(), [2, 2].as_slice(), b"ok".as_slice()),
        (
            0,
            [3].as_slice(),
            [2, 2].as_slice(),
            b"UnknownLoop h".as_slice(),
        ),
        (
            1,
            [0].as_slice(),
            [2, 2].as_slice(),
            b"WrongCount".as_slice(),
        ),
        (
            1,
            [1].as_slice(),
            [2].as_slice(),
            b"Distributed j".as_slice(),
        ),
        (
            0,
            [1].as_slice(),
            [2].as_slice(),
            b"NotOutermost j".as_slice(),
        ),
        (
            0,
            [0, 0].as_slice(),
            [2, 2].as_slice(),
            b"NotOutermost i".as_slice(),
        ),
        (
            0,
            [0, 1].as_slice(),
            [2, 4].as_slice(),
            b"WrongExtent j 2 4".as_slice(),
        ),
    ];
    for (distributed, vars, grid, wanted) in rows {
        let parts = parts_of(alloc, distributed)?;
        let distribute = Distribute {
            vars: Vars::from_slice(alloc, vars)?,
            grid: Extents::from_slice(alloc, grid)?,
        };
        let cause = distribute.first_cause(&parts);
        assert_eq!(rt; told(&cause).as_slice(), wanted);
    }
    Ok(())
}
