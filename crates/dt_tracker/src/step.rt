//! What an operation answers that is asked for a unit.

/// What happens where a unit of an operation is asked for.
#[derive(Clone, Copy, Debug, PartialEq, Eq)]
pub enum Step {
    /// The unit is done.
    Stepped,
    /// There is no such operation.
    Unknown,
    /// The least operation that has to be finished before.
    Waits(u32),
    /// No unit is left.
    Finished,
}
