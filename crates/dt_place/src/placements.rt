//! Placements of tensors.

ghost use Rattle.std.specs.Prelude.{◌≡◌, [], ◌∷◌, ◌++◌, OnOk, OnErr};
ghost use Rattle.dt_place.specs.declared.placements.Placement.TheVariants.{FirstNode};

use dt_base::NoMemory;
use std::alloc::Global;
use std::marker::Model;

/// What one dimension of the machine does with a tensor.
#[derive(Clone, Copy, Debug, PartialEq, Eq)]
pub enum Symbol {
    /// It cuts the tensor's dimension with this number into blocks.
    Along(u8),
    /// Only the nodes with this coordinate hold the tensor.
    At(u8),
    /// Each of its coordinates holds the same.
    Every,
}

/// One symbol for each dimension of the machine, over all its levels in order.
#[derive(Debug, Drop)]
pub struct Symbols {
    pub items: Vec<Symbol>,
}

impl Model for Symbols {
    ghost use Rattle.std.specs.Prelude.{List};
    ghost use Rattle.dt_place.specs.declared.placements.Symbol.{Symbol};

    ghost Value = { List Symbol };

    ghost view = { λ l. l.items.items };
}

impl Symbols {
    pub fn new(alloc: Global) -> Symbols
        ensures { result ≡ [] }
    {
        Symbols {
            items: Vec::new(alloc),
        }
    }

    pub fn as_slice(&self) -> &[Symbol]
        ensures { result.now ≡ self.now }
    {
        self.items.as_slice()
    }

    /// Puts one symbol at the end.
    pub fn push(&mut self, symbol: Symbol) -> Result<(), NoMemory>
        ensures ok { OnOk result (self.new ≡ self.old ++ symbol ∷ []) }
        ensures err { OnErr result (self.new ≡ self.old) }
    {
        self.items.push(symbol)?;
        Ok(())
    }

    /// Puts more symbols at the end.
    pub fn append(&mut self, more: &[Symbol]) -> Result<(), NoMemory>
        ensures ok { OnOk result (self.new ≡ self.old ++ more.now) }
        ensures err { OnErr result (self.new ≡ self.old) }
    {
        self.items.extend_from_slice(more)?;
        Ok(())
    }
}

/// Which node is home to which words of a tensor.
#[derive(Debug, Drop)]
pub enum Placement {
    /// Node 0 holds the whole tensor.
    FirstNode,
    /// Each node holds the words whose coordinates lie in its blocks.
    ByNames(Symbols),
    /// The node n holds the n-th block of the positions.
    ByPositions,
}

impl Placement {
    /// The placement of a tensor that no line places.
    pub fn first_node() -> Placement
        ensures { result ≡ FirstNode }
    {
        Placement::FirstNode
    }
}

/// Placements of tensors, in order.
#[derive(Debug, Drop)]
pub struct Places {
    pub items: Vec<Placement>,
}

impl Model for Places {
    ghost use Rattle.std.specs.Prelude.{List};
    ghost use Rattle.dt_place.specs.declared.placements.Placement.{Placement};

    ghost Value = { List Placement };

    ghost view = { λ l. l.items.items };
}

impl Places {
    pub fn new(alloc: Global) -> Places
        ensures { result ≡ [] }
    {
        Places {
            items: Vec::new(alloc),
        }
    }

    /// The list with these placements.
    pub fn from_vec(items: Vec<Placement>) -> Places
        ensures { result ≡ items.items }
    {
        Places { items }
    }

    pub fn as_slice(&self) -> &[Placement]
        ensures { result.now ≡ self.now }
    {
        self.items.as_slice()
    }

    /// Puts one placement at the end.
    pub fn push(&mut self, placement: Placement) -> Result<(), NoMemory>
        ensures ok { OnOk result (self.new ≡ self.old ++ placement ∷ []) }
        ensures err { OnErr result (self.new ≡ self.old) }
    {
        self.items.push(placement)?;
        Ok(())
    }
}
