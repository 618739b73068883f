//! The kinds of operations.

/// What an operation does. At one path the kinds follow each other in this order, and all zeros of a statement come first.
#[derive(Clone, Copy, Debug, PartialEq, Eq)]
pub enum Kind {
    /// Makes a home of the left tensor 0.
    Zero,
    /// Opens the scratch of a tensor, or a workspace, with words that are 0.
    Alloc,
    /// Brings words from a home into scratch.
    Copy,
    /// Does the visits under a path.
    Task,
    /// Adds words of scratch to a home.
    Fold,
    /// Closes what an alloc opened.
    Free,
}
