//! The sides of a block of a tensor.

ghost use Rattle.std.specs.Prelude.{◌≡◌, ◌≤◌, ◌<◌, IfOk, length};
ghost use Rattle.std.specs.List.{AllByRecursion};
ghost use Rattle.dt_place.specs.Homes.{cut_of, cuts, piece_of, side_of, sides_of, whole_side};

use crate::placements::Symbol;
use dt_base::NoMemory;
use std::alloc::Global;

/// The coordinates of one dimension of a tensor from `from` up to, not including, `to`. Later levels of the machine
/// divide `size` coordinates, counted from the first.
#[derive(Clone, Copy, Debug, PartialEq, Eq)]
pub struct Side {
    pub size: u32,
    pub from: u32,
    pub to: u32,
}

impl Side {
    fn whole(extent: u32) -> Side
        ensures { result ≡ whole_side extent }
    {
        Side {
            size: extent,
            from: 0,
            to: extent,
        }
    }

    /// The piece `q` of `p`.
    fn piece(self, p: u32, q: u32) -> Side
        requires { 0 < p }
        ensures { result ≡ piece_of self p q }
    {
        let size = self.size.div_ceil(p);
        let start = u64::from(self.from) + u64::from(q) * u64::from(size);
        let end = start + u64::from(size);
        Side {
            size,
            from: start.min(u64::from(self.to)) as u32,
            to: end.min(u64::from(self.to)) as u32,
        }
    }

    /// What a dimension of the machine with `p` coordinates leaves at the coordinate `q`.
    fn cut(self, symbol: Symbol, dimension: u8, p: u32, q: u32) -> Side
        requires { 0 < p }
        ensures { result ≡ cut_of symbol dimension p q self }
    {
        if symbol.cuts(dimension) {
            self.piece(p, q)
        } else {
            self
        }
    }
}

impl Symbol {
    fn cuts(self, dimension: u8) -> bool
        ensures { result ≡ cuts self dimension }
    {
        match self {
            Symbol::Along(cut) => cut == dimension,
            Symbol::At(_) => false,
            Symbol::Every => false,
        }
    }
}

/// What the machine's dimensions leave of each dimension of a tensor at these coordinates of a node.
pub fn sides_at(
    alloc: Global,
    extents: &[u32],
    symbols: &[Symbol],
    dims: &[u32],
    node: &[u32],
) -> Result<Vec<Side>, NoMemory>
    requires few { length extents.now ≤ 4 }
    requires symbols { length symbols.now ≡ length dims.now }
    requires node { length node.now ≡ length dims.now }
    requires each { AllByRecursion (λ n. 1 ≤ n) dims.now }
    ensures { IfOk result (λ v. v.items ≡ sides_of extents.now symbols.now dims.now node.now) }
{
    let mut sides = Vec::new(alloc);
    for (d, extent) in extents.iter().enumerate() {
        sides.push(side_at(*extent, d as u8, symbols, dims, node))?;
    }
    Ok(sides)
}

/// What the machine's dimensions leave of a dimension of a tensor at these coordinates of a node.
fn side_at(extent: u32, dimension: u8, symbols: &[Symbol], dims: &[u32], node: &[u32]) -> Side
    requires symbols { length symbols.now ≡ length dims.now }
    requires node { length node.now ≡ length dims.now }
    requires each { AllByRecursion (λ n. 1 ≤ n) dims.now }
    ensures { result ≡ side_of dimension symbols.now dims.now node.now (whole_side extent) }
{
    let mut side = Side::whole(extent);
    for (i, symbol) in symbols.iter().enumerate() {
        side = side.cut(*symbol, dimension, dims[i], node[i]);
    }
    side
}
