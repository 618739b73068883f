//! Searches by halves among ascending numbers.

ghost use Rattle.std.specs.Prelude.{◌≡◌, ◌≤◌, ◌==◌, length, position, nat_le};
ghost use Rattle.std.specs.List.{position_or_len};
ghost use Rattle.std.specs.List.Sorted.{IsStrictlyIncreasing};

/// How many of the numbers are less than `x`: the place of the first that is not.
pub(crate) fn count_below(numbers: &[u32], x: u32) -> usize
    requires { IsStrictlyIncreasing numbers.now }
    ensures place { result ≡ position_or_len (λ y. nat_le x y) numbers.now }
    ensures bound { result ≤ length numbers.now }
{
    numbers.partition_point(|y| *y < x)
}

/// The place of `x`.
pub(crate) fn place_of(numbers: &[u32], x: u32) -> Option<usize>
    requires { IsStrictlyIncreasing numbers.now }
    ensures { result ≡ position (λ y. y == x) numbers.now }
{
    let k = count_below(numbers, x);
    if k < numbers.len() && numbers[k] == x {
        Some(k)
    } else {
        None
    }
}
