//! The homes of tensors, with answers by hand.

ghost use Rattle.std.specs.Prelude.{◌<◌, ◌^◌, ◌-◌, length, IfOk};
ghost use Rattle.dt_place.specs.Placements.{IsPlacement};

use crate::matrices::sparse_matrix;
use dt_base::NoMemory;
use dt_model::Shape;
use dt_place::{Machine, Placement, homes_on, parse_machine, parse_place};
use dt_tensor::{Tensor, Tensors};
use std::alloc::Global;
use std::test::Fail;

fn machine(alloc: Global, text: &[u8]) -> Result<Machine, NoMemory>
    requires { length text.now < 2 ^ 32 - 1 }
{
    match parse_machine(alloc, text) {
        Ok(machine) => Ok(machine),
        Err(_) => Err(NoMemory),
    }
}

/// The placement of a matrix that a line gives.
fn placement(alloc: Global, text: &[u8], machine: &Machine) -> Result<Placement, NoMemory>
    requires { length text.now < 2 ^ 32 - 1 }
    ensures { IfOk result (λ p. IsPlacement p machine.now) }
{
    match parse_place(alloc, text, 2, machine) {
        Ok(placement) => Ok(placement),
        Err(_) => Err(NoMemory),
    }
}

/// A tensor with these extents and each number 0.
fn zeros(alloc: Global, extents: &[u32]) -> Result<Tensors, Fail> {
    let shape = Shape::from_extents(extents).ok_or("no shape")?;
    let count = shape.count();
    if count > 1048576 {
        return Err("too many")?;
    }
    let values = vec![in alloc; 0u64; count as usize]?;
    Ok(Tensors::from_list(vec![in alloc; Tensor::dense(shape, values)]?))
}

/// The homes of the first tensor, a line for each node: each interval from its first number up to, not
/// including, its end.
fn homes_text(
    alloc: Global,
    placement: &Placement,
    machine: &Machine,
    tensors: &Tensors,
) -> Result<String, Fail>
    requires { IsPlacement placement.now machine.now }
{
    let mut text = String::new(alloc);
    if tensors.len() == 0 {
        return Ok(text);
    }
    let homes = homes_on(alloc, placement, machine, tensors, 0)?;
    for home in homes.as_slice() {
        for interval in home.intervals() {
            let piece = format!(in alloc; "{}..{} ", interval.first, interval.end)?;
            text.push_str(piece.as_str())?;
        }
        text.push_str("\n")?;
    }
    Ok(text)
}

#[test]
fn matrices_lie_in_blocks(rt: HostRuntime) -> Result<(), Fail> {
    let alloc = rt.alloc();
    let rows: [(&[u8], &[u8], &[u32], &str); 3] = [
        (
            b" 2x2",
            b" B xy -> xy",
            &[4, 4],
            "0..2 4..6 \n2..4 6..8 \n8..10 12..14 \n10..12 14..16 \n",
        ),
        (
            b" 2x2",
            b" B xy -> yx",
            &[3, 2],
            "0..1 2..3 \n4..5 \n1..2 3..4 \n5..6 \n",
        ),
        (
            b" 4",
            b" B xy -> x",
            &[5, 5],
            "0..10 \n10..20 \n20..25 \n\n",
        ),
    ];
    for (level, line, extents, homes) in rows {
        assert!(rt; level.len() < 100 && line.len() < 100);
        let machine = machine(alloc, level)?;
        let placement = placement(alloc, line, &machine)?;
        let tensors = zeros(alloc, extents)?;
        let text = homes_text(alloc, &placement, &machine, &tensors)?;
        assert_eq!(rt; text.as_str(), homes);
    }
    Ok(())
}

#[test]
fn other_tensors_lie_in_blocks_of_positions_or_on_node_0(rt: HostRuntime) -> Result<(), Fail> {
    let alloc = rt.alloc();
    let machine = machine(alloc, b" 2x2")?;
    let tensors = zeros(alloc, &[5, 5])?;
    let blocks = homes_text(alloc, &Placement::ByPositions, &machine, &tensors)?;
    assert_eq!(rt; blocks.as_str(), "0..7 \n7..14 \n14..21 \n21..25 \n");
    let whole = homes_text(alloc, &Placement::first_node(), &machine, &tensors)?;
    assert_eq!(rt; whole.as_str(), "0..25 \n\n\n\n");
    Ok(())
}

#[test]
fn stored_numbers_lie_in_blocks_of_positions(rt: HostRuntime) -> Result<(), Fail> {
    let alloc = rt.alloc();
    let machine = machine(alloc, b" 3")?;
    let tensors = Tensors::from_list(vec![in alloc; sparse_matrix(alloc)?]?);
    let text = homes_text(alloc, &Placement::ByPositions, &machine, &tensors)?;
    assert_eq!(rt; text.as_str(), "0..2 \n2..4 \n\n");
    Ok(())
}

/// Homes of the matrix with compressed columns, whose positions are those of its stored numbers: a level of the machine, a
/// line, and the homes.
const SPARSE_HOMES: [(&[u8], &[u8], &str); 3] = [
    (b" 2x2", b" B xy -> xy", "0..1 \n1..2 \n2..3 \n3..4 \n"),
    (b" 4", b" B xy -> x", "0..2 \n\n2..3 \n3..4 \n"),
    (b" 4", b" B xy -> y", "2..3 \n0..1 \n\n1..2 3..4 \n"),
];

#[test]
fn stored_numbers_lie_in_blocks(rt: HostRuntime) -> Result<(), Fail> {
    let alloc = rt.alloc();
    let tensors = Tensors::from_list(vec![in alloc; sparse_matrix(alloc)?]?);
    for (level, line, homes) in SPARSE_HOMES {
        assert!(rt; level.len() < 100 && line.len() < 100);
        let machine = machine(alloc, level)?;
        let placement = placement(alloc, line, &machine)?;
        let text = homes_text(alloc, &placement, &machine, &tensors)?;
        assert_eq!(rt; text.as_str(), homes);
    }
    Ok(())
}
