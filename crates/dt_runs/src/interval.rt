//! One interval of numbers.

/// The numbers from `first` up to, not including, `end`. In a set's intervals `before` is how many numbers the
/// intervals before this one have.
#[derive(Clone, Copy, Debug, PartialEq, Eq)]
pub struct Interval {
    pub first: u32,
    pub end: u32,
    pub before: u32,
}
