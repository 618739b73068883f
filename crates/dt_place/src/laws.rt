//! Laws of machines, blocks and homes.

ghost use Rattle.dt_place.specs.Blocks.{BlocksCover};
ghost use Rattle.dt_place.specs.HomeLaws.{EveryPositionHasAHome, HomesCover};
ghost use Rattle.dt_place.specs.MachineLaws.{NumbersFollowCoordinates};

/// The blocks of an extent ascend, and each number of the extent is in one of them.
pub fn blocks_cover()
    ensures { BlocksCover }
{}

/// The number of a node and its coordinates lead to each other.
pub fn numbers_follow_coordinates()
    ensures { NumbersFollowCoordinates }
{}

/// Each position of a tensor is in some node's home, under each placement that fits the machine.
pub fn every_position_has_a_home()
    ensures { EveryPositionHasAHome }
{}

/// The homes on all nodes cover a tensor: each of its positions is in one of them, and they have nothing else.
pub fn homes_cover()
    ensures { HomesCover }
{}
