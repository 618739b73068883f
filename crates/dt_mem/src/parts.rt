//! Parts of a list of values.

ghost use Rattle.std.specs.Prelude.{◌≡◌, ℕ, ◌+◌, ◌%◌, ◌^◌, ◌≤◌, drop, length, sum_by, take};
ghost use Rattle.dt_mem.specs.Rooms.{cleared};

/// Makes `count` values from `from` on 0.
pub(crate) fn clear(values: &mut Vec<u64>, from: usize, count: usize)
    requires { from + count ≤ length values.old.items }
    ensures { values.new.items ≡ cleared from count values.old.items }
{
    values[from..from + count].fill(0);
}

/// The sum of `count` values from `from` on, modulo 2^64.
pub(crate) fn part_sum(values: &[u64], from: usize, count: usize) -> u64
    requires { from + count ≤ length values.now }
    ensures { result ≡ sum_by (λ (v : ℕ). v) (take count (drop from values.now)) % 2 ^ 64 }
{
    ring_sum(&values[from..from + count])
}

/// The sum of values, modulo 2^64.
fn ring_sum(values: &[u64]) -> u64
    ensures { result ≡ sum_by (λ (v : ℕ). v) values.now % 2 ^ 64 }
{
    let mut total: u64 = 0;
    for value in values {
        total = total.wrapping_add(*value);
    }
    total
}

/// The sum, modulo 2^64, when one of its values is replaced.
pub(crate) fn replaced(sum: u64, old: u64, new: u64) -> u64
    ensures { (s t : ℕ) → sum ≡ s % 2 ^ 64 → t + old ≡ s + new → result ≡ t % 2 ^ 64 }
{
    sum.wrapping_sub(old).wrapping_add(new)
}
