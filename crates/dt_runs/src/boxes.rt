//! The rows of a box.

ghost use Rattle.dt_base.specs.Rows.{product};
ghost use Rattle.dt_runs.specs.Boxes.{AreCorners, box_numbers, has_empty_side};
ghost use Rattle.std.specs.Prelude.{◌≡◌, ◌+◌, ◌*◌, ◌^◌, ◌<◌, ◌++◌, All, OnOk, false, map};

use crate::runs::Runs;
use dt_base::NoMemory;

/// Whether a side of the box has no coordinate.
pub(crate) fn is_empty_box(los: &[u32], his: &[u32]) -> bool
    ensures { result ≡ has_empty_side los.now his.now }
{
    los.iter().zip(his).any(|(lo, hi)| *hi <= *lo)
}

/// Puts the numbers of a box behind those that are there, a row at a time. The box is part of a larger one, whose
/// outer coordinates have the row-major number `outer`.
pub(crate) fn push_box(
    runs: &mut Runs,
    extents: &[u32],
    los: &[u32],
    his: &[u32],
    outer: u32,
) -> Result<(), NoMemory>
    requires corners { AreCorners extents.now los.now his.now }
    requires filled { has_empty_side los.now his.now ≡ false }
    requires small { (outer + 1) * product extents.now < 2 ^ 32 }
    requires behind { All (λ x. x < outer * product extents.now) runs.old }
    ensures ok { OnOk result (runs.new ≡ runs.old
        ++ map (λ k. outer * product extents.now + k) (box_numbers extents.now los.now his.now)) }
    ensures behind { OnOk result (All (λ x. x < (outer + 1) * product extents.now) runs.new) }
{
    if extents.is_empty() {
        runs.push_range(outer, outer + 1)?;
        return Ok(());
    }
    let first = outer * extents[0];
    if extents.len() == 1 {
        runs.push_range(first + los[0], first + his[0])?;
        return Ok(());
    }
    for x in los[0]..his[0] {
        push_box(runs, &extents[1..], &los[1..], &his[1..], first + x)?;
    }
    Ok(())
}
