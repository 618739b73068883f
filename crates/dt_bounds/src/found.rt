//! Positions as they are found, and the set that they make.

ghost use Rattle.std.specs.Prelude.{◌≡◌, ℕ, ◌<◌, ◌||◌, All, IfOk, OnOk};
ghost use Rattle.std.specs.List.Sorted.{IsStrictlyIncreasing};
ghost use Rattle.dt_runs.specs.Sets.{contains};
ghost use Rattle.dt_bounds.specs.Found.{Adds, is_at};

use dt_base::NoMemory;
use dt_runs::Runs;
use std::alloc::Global;

/// Puts a position behind those that are there, unless it is the last of them.
pub fn push_position(positions: &mut Vec<u32>, position: Option<u32>) -> Result<(), NoMemory>
    ensures { OnOk result ((x : ℕ) → contains positions.new.items x ≡ (contains positions.old.items x || is_at position x)) }
{
    match position {
        None => Ok(()),
        Some(position) => push_new(positions, position),
    }
}

fn push_new(positions: &mut Vec<u32>, position: u32) -> Result<(), NoMemory>
    ensures { OnOk result ((x : ℕ) → contains positions.new.items x ≡ (contains positions.old.items x || is_at (Some position) x)) }
{
    let count = positions.len();
    if count > 0 && positions[count - 1] == position {
        return Ok(());
    }
    positions.push(position)?;
    Ok(())
}

/// The set of the positions, which may stand in any order and more than once.
pub fn set_of(alloc: Global, positions: Vec<u32>) -> Result<Runs, NoMemory>
    requires { All (λ x. x < 4294967295) positions.items }
    ensures ascending { IfOk result (λ runs. IsStrictlyIncreasing runs) }
    ensures members { IfOk result (λ runs. (x : ℕ) → contains runs x ≡ contains positions.items x) }
{
    let mut sorted = positions;
    sorted.sort_unstable();
    sorted.dedup();
    Runs::from_sorted(alloc, sorted.as_slice())
}
