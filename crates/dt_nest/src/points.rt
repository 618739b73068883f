//! The points of a visit, with the values of all variables there.

/// A point of a visit, the visit itself or one value of its substituted loop, with the values of all variables there.
#[derive(Clone, Copy, Debug)]
pub struct Point<'p> {
    pub lane: Option<u32>,
    pub values: &'p [Option<u32>],
}
