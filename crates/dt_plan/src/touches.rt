//! What operations touch.

use dt_runs::Runs;
use std::marker::Model;

/// A list of words on a node.
#[derive(Clone, Copy, Debug, PartialEq, Eq)]
pub enum Buffer {
    /// The home of a tensor.
    Home(u32),
    /// The scratch of a statement's tensor, by both numbers.
    Scratch(u32, u32),
    /// A workspace of a statement, by both numbers.
    Work(u32, u32),
}

/// What an operation does with the words that it touches. Two folds into a word may come in either order, as two reads may.
#[derive(Clone, Copy, Debug, PartialEq, Eq)]
pub enum Mode {
    Read,
    Write,
    Fold,
}

/// Words of a buffer that an operation touches. `whole` is the buffer itself with all its words, as it is opened or closed;
/// `words` then has none.
#[derive(Debug, Drop)]
pub struct Touch {
    pub node: u32,
    pub buffer: Buffer,
    pub whole: bool,
    pub words: Runs,
    pub mode: Mode,
}

/// What one operation touches.
#[derive(Debug, Drop)]
pub struct Touches {
    pub items: Vec<Touch>,
}

impl Model for Touches {
    ghost use Rattle.std.specs.Prelude.{List};
    ghost use Rattle.dt_plan.specs.declared.touches.Touch.{Touch};

    ghost Value = { List Touch };

    ghost view = { λ l. l.items.items };
}

impl Touches {
    ghost use Rattle.std.specs.Prelude.{◌≡◌};

    pub fn as_slice(&self) -> &[Touch]
        ensures { result.now ≡ self.now }
    {
        self.items.as_slice()
    }
}
