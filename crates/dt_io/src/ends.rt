//! How a call may end besides well.

/// The source or the sink failed.
#[derive(Clone, Copy, Debug, PartialEq, Eq)]
pub struct Failed;

/// Why a source wasn't read to its end.
#[derive(Clone, Copy, Debug, PartialEq, Eq)]
pub enum ReadEnd {
    Failed,
    TooLong,
    NoMemory,
}

/// Why a file wasn't fetched.
#[derive(Clone, Copy, Debug, PartialEq, Eq)]
pub enum FetchEnd {
    Failed,
    TooLong,
    NoMemory,
}

/// Why a file wasn't put.
#[derive(Clone, Copy, Debug, PartialEq, Eq)]
pub enum PutEnd {
    Failed,
    NoMemory,
}
