//! The parts of a `place` line.

use dt_base::{Bytes, Lines, Name};

/// The tensor's name, the letters of its dimensions, none for a scalar, and for each level of the machine one symbol
/// for each dimension.
#[derive(Debug, Drop)]
pub struct PlaceForm {
    pub name: Name,
    pub letters: Bytes,
    pub levels: Lines,
}
