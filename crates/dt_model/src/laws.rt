//! Laws of what a statement means, and of the places of words.

ghost use Rattle.dt_model.specs.PositionLaws.{PositionsFollowCoordinates};
ghost use Rattle.dt_model.specs.RingValue.{ValueIsARingSum};

/// Exact sums and products, with one modulus at the end, are the ring's sums and products at every step.
pub fn value_is_a_ring_sum()
    ensures { ValueIsARingSum }
{}

/// The position of stored coordinates and the coordinates at a position are inverse, and positions ascend as their
/// coordinates do lexicographically, whichever levels are compressed.
pub fn positions_follow_coordinates()
    ensures { PositionsFollowCoordinates }
{}
