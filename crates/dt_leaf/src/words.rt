//! The words of tensors and workspaces.

ghost use Rattle.std.specs.Prelude.{◌≡◌, ◌+◌, ◌*◌, ◌%◌, ◌^◌, ◌≤◌, None, length, nat_lt, option_map, if◌then◌else◌};
ghost use Rattle.dt_base.specs.Rows.{product, row_major};
ghost use Rattle.dt_nest.specs.Unit.{word_of};

use dt_model::Locator;
use dt_nest::Sched;

/// The row-major number of coordinates, and the product of the extents, both modulo 2^64.
#[derive(Clone, Copy)]
struct Row {
    number: Option<u64>,
    size: u64,
}

/// The row-major number with one coordinate more in front, and none where that is out of range.
fn with_front(extent: u32, x: u32, inner: Row) -> Option<u64>
    ensures { result ≡ option_map (λ k. (x * inner.size % 2 ^ 64 + k) % 2 ^ 64) (if nat_lt x extent then inner.number else None) }
{
    if x < extent {
        match inner.number {
            None => None,
            Some(k) => Some(u64::from(x).wrapping_mul(inner.size).wrapping_add(k)),
        }
    } else {
        None
    }
}

/// The row-major number of coordinates, and none where their count differs or one is out of range.
fn row_of(extents: &[u32], coords: &[u32]) -> Row
    ensures number { result.number ≡ option_map (λ k. k % 2 ^ 64) (row_major extents.now coords.now) }
    ensures size { result.size ≡ product extents.now % 2 ^ 64 }
{
    match extents.split_first() {
        None => Row {
            number: if coords.is_empty() { Some(0) } else { None },
            size: 1,
        },
        Some((extent, more)) => match coords.split_first() {
            None => Row {
                number: None,
                size: u64::from(*extent).wrapping_mul(row_of(more, coords).size),
            },
            Some((x, rest)) => {
                let inner = row_of(more, rest);
                Row {
                    number: with_front(*extent, *x, inner),
                    size: u64::from(*extent).wrapping_mul(inner.size),
                }
            }
        },
    }
}

/// The word of a workspace with these extents, of at most 2^20 words.
fn work_word(extents: &[u32], coords: &[u32]) -> Option<u32>
    requires { product extents.now ≤ 1048576 }
    ensures { result ≡ row_major extents.now coords.now }
{
    match row_of(extents, coords).number {
        None => None,
        Some(number) => Some(number as u32),
    }
}

/// The word of a tensor or workspace at these coordinates, and none where there is none: the position of stored
/// coordinates, or the row-major number in the workspace.
pub fn word_at<L: Locator>(sched: &Sched, loc: &L, tensor: u32, coords: &[u32]) -> Option<u32>
    requires { length (L.tensors loc.now) ≡ length sched.now.tensors }
    ensures { result ≡ word_of (L.tensors loc.now) sched.now tensor coords.now }
{
    let parts = sched.parts();
    let tensors = parts.tensors.as_slice().len();
    let at = tensor as usize;
    if at < tensors {
        return loc.place(tensor, coords);
    }
    match parts.works.as_slice().get(at - tensors) {
        None => None,
        Some(work) => work_word(work.extents.as_slice(), coords),
    }
}
