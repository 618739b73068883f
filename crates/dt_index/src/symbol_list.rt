//! Symbols of a statement, and lists of them.

ghost use Rattle.std.specs.Prelude.{◌≡◌, [], ◌∷◌, ◌++◌, OnOk, OnErr};

use dt_base::{Name, NoMemory};
use std::alloc::Global;
use std::marker::Model;

/// A symbol of a statement's text. A number has no value where its digits are more than 20, or reach 2^64.
#[derive(Debug, Drop)]
pub enum Symbol {
    Name(Name),
    Number(Option<u64>),
    Open,
    Close,
    Comma,
    Times,
    Plus,
    Minus,
    Equals,
    PlusEquals,
}

/// The symbols of a text, in order.
#[derive(Debug, Drop)]
pub struct Symbols {
    pub items: Vec<Symbol>,
}

impl Model for Symbols {
    ghost use Rattle.std.specs.Prelude.{List};
    ghost use Rattle.dt_index.specs.declared.symbol_list.Symbol.{Symbol};

    ghost Value = { List Symbol };

    ghost view = { λ l. l.items.items };
}

impl Symbols {
    pub fn new(alloc: Global) -> Symbols
        ensures { result ≡ [] }
    {
        Symbols {
            items: Vec::new(alloc),
        }
    }

    pub fn as_slice(&self) -> &[Symbol]
        ensures { result.now ≡ self.now }
    {
        self.items.as_slice()
    }

    /// Puts one symbol at the end.
    pub fn push(&mut self, symbol: Symbol) -> Result<(), NoMemory>
        ensures ok { OnOk result (self.new ≡ self.old ++ symbol ∷ []) }
        ensures err { OnErr result (self.new ≡ self.old) }
    {
        self.items.push(symbol)?;
        Ok(())
    }
}
