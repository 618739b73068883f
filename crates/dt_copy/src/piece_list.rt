//! Pieces of a set of words, by nodes.

use dt_runs::Runs;
use std::marker::Model;

/// Words that are copied from one node, or folded into its home.
#[derive(Debug, Drop)]
pub struct Piece {
    pub node: u32,
    pub words: Runs,
}

/// Pieces, their nodes ascending.
#[derive(Debug, Drop)]
pub struct Pieces {
    pub items: Vec<Piece>,
}

impl Model for Pieces {
    ghost use Rattle.std.specs.Prelude.{List};
    ghost use Rattle.dt_copy.specs.declared.piece_list.Piece.{Piece};

    ghost Value = { List Piece };

    ghost view = { λ l. l.items.items };
}

impl Pieces {
    ghost use Rattle.std.specs.Prelude.{◌≡◌};

    pub fn as_slice(&self) -> &[Piece]
        ensures { result.now ≡ self.now }
    {
        self.items.as_slice()
    }
}
