//! What derivations make of numbers.

ghost use Rattle.std.specs.Prelude.{◌≡◌, ◌<◌, ◌+◌, ◌*◌, ◌%◌, ◌/◌, Some, length, slice_index};
ghost use Rattle.dt_nest.specs.World.{coordinate_at};
ghost use Rattle.dt_nest.specs.Values.{bounded};

use crate::parts::SchedParts;
use dt_model::Locator;

/// A number of a list, and 0 past its end.
pub(crate) fn number_at(list: &[u32], at: u32) -> u32
    ensures { result ≡ slice_index list.now at }
{
    let at = at as usize;
    if at < list.len() { list[at] } else { 0 }
}

/// The coordinate of a tensor's position at a level, and 0 where there is none.
pub(crate) fn coordinate<L: Locator>(loc: &L, tensor: u32, level: u8, p: u32) -> u32
    requires { tensor < length (L.tensors loc.now) }
    ensures { result ≡ coordinate_at (L.tensors loc.now) tensor level p }
{
    if p >= loc.count(tensor) {
        return 0;
    }
    let c = loc.coords(tensor, p);
    number_at(c.as_slice(), level as u32)
}

/// The value of a variable of a split, and none where it is not below its extent.
pub(crate) fn split_value(
    parts: &SchedParts,
    v: u32,
    outer: u32,
    inner: u32,
    factor: u32,
) -> Option<u32>
    ensures { result ≡ bounded (slice_index parts.now.extents v) (Some (outer * factor + inner)) }
{
    let sum = u64::from(outer) * u64::from(factor) + u64::from(inner);
    if sum < u64::from(number_at(parts.extents.as_slice(), v)) {
        Some(sum as u32)
    } else {
        None
    }
}

/// The quotient, which is 0 for the divisor 0.
#[tactic(auto)]
pub(crate) fn quotient(x: u32, by: u32) -> u32
    ensures { result ≡ x / by }
{
    if by == 0 { 0 } else { x / by }
}

/// What is left of a division, which is the number itself for the divisor 0.
#[tactic(auto)]
pub(crate) fn rest_of(x: u32, by: u32) -> u32
    ensures { result ≡ x % by }
{
    if by == 0 { x } else { x % by }
}
