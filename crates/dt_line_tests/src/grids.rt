//! Nodes, blocks and first holders, with answers by hand.

ghost use Rattle.std.specs.Prelude.{◌<◌, ◌^◌, ◌-◌, length};

use dt_base::NoMemory;
use dt_place::{Machine, block, first_holder, parse_machine};
use dt_runs::Runs;
use std::alloc::Global;
use std::test::Fail;

fn machine(alloc: Global, text: &[u8]) -> Result<Machine, NoMemory>
    requires { length text.now < 2 ^ 32 - 1 }
{
    match parse_machine(alloc, text) {
        Ok(machine) => Ok(machine),
        Err(_) => Err(NoMemory),
    }
}

#[test]
fn nodes_are_row_major(rt: HostRuntime) -> Result<(), Fail> {
    let machine = machine(rt.alloc(), b" 2x3")?;
    assert_eq!(rt; machine.dims(), [2, 3].as_slice());
    assert!(rt; machine.nodes() == 6);
    assert_eq!(rt; machine.coords(4), [1, 1, 0, 0, 0, 0]);
    assert_eq!(rt; machine.coords(2), [0, 2, 0, 0, 0, 0]);
    let cases: [(&[u32], Option<u32>); 5] = [
        (&[1, 1], Some(4)),
        (&[0, 2], Some(2)),
        (&[1, 3], None),
        (&[2, 0], None),
        (&[1], None),
    ];
    for (c, node) in cases {
        assert_eq!(rt; machine.number(c), node);
    }
    assert!(rt; machine.same_group(4, 4));
    assert!(rt; !machine.same_group(3, 4));
    Ok(())
}

#[test]
fn blocks_are_rounded_up(rt: HostRuntime) {
    let cases = [
        ((5, 4, 0), (0, 2)),
        ((5, 4, 1), (2, 4)),
        ((5, 4, 2), (4, 5)),
        ((5, 4, 3), (5, 5)),
        ((6, 3, 2), (4, 6)),
        ((0, 3, 1), (0, 0)),
        ((4294967295, 64, 63), (4227858432, 4294967295)),
    ];
    for ((n, p, q), piece) in cases {
        assert!(rt; q < p);
        assert_eq!(rt; block(n, p, q), piece);
    }
}

#[test]
fn the_least_holder_is_first(rt: HostRuntime) -> Result<(), Fail> {
    let alloc = rt.alloc();
    let homes = [
        Runs::from_sorted(alloc, &[0, 1, 2, 3])?,
        Runs::from_sorted(alloc, &[2, 3, 4, 5])?,
        Runs::empty(alloc),
    ];
    let cases = [(0, Some(0)), (2, Some(0)), (4, Some(1)), (6, None)];
    for (pos, node) in cases {
        assert_eq!(rt; first_holder(homes.as_slice(), pos), node);
    }
    Ok(())
}
