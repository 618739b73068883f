//! Laws of pieces and shares.

ghost use Rattle.dt_copy.specs.Serving.{PiecesServe, SharesReachHomes};

/// What a node copies by its pieces is needed, is where it is copied from, and is all that it needs of what is stored.
pub fn pieces_serve()
    ensures { PiecesServe }
{}

/// What is folded by shares is needed and is where it is folded into, and each home gets each of its words once.
pub fn shares_reach_homes()
    ensures { SharesReachHomes }
{}
