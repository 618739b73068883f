//! Where the words of a tensor lie of whose levels some are compressed.

ghost use Rattle.std.specs.Prelude.{◌≡◌, ◌-◌, ◌≤◌, ◌<◌, ◌&&◌, length, take, drop, count_by, nat_le, nat_lt, true, find, slice_index, Some, IfSome};
ghost use Rattle.dt_base.specs.Rows.{product, row_major};
ghost use Rattle.dt_level.specs.Levels.{children_of, find_child};
ghost use Rattle.dt_model.specs.Positions.{IsStored};
ghost use Rattle.dt_model.specs.Shape.{are_extents, dims, IsShape};
ghost use Rattle.dt_tensor.specs.Packed.{depth_of, levels_with, IsCut};

use crate::dense::{are_below, coordinates};
use dt_base::Coords;
use dt_level::{Compressed, Level};
use dt_model::Shape;
use std::alloc::Global;
use std::marker::Model;

/// The levels of a tensor of which one at least is compressed. The stored fronts, with a coordinate for each level up
/// to the last compressed one, are the children of one parent at a compressed level, by their row-major numbers. Behind
/// each of them every index of the later extents is stored.
#[derive(Debug, Drop)]
pub struct PackedLevels {
    shape: Shape,
    compressed: [bool; 4],
    depth: usize,
    size: u32,
    fronts: Compressed,
}

impl Model for PackedLevels {
    ghost use Rattle.std.specs.Prelude.{take};
    ghost use Rattle.dt_level.specs.Levels.{children_of};
    ghost use Rattle.dt_model.specs.Positions.{StoredTensor};
    ghost use Rattle.dt_model.specs.Shape.{dims, IsShape};
    ghost use Rattle.dt_tensor.specs.Packed.{levels_with, IsCut};

    ghost Value = { StoredTensor };

    ghost view = { λ l. levels_with (dims l.shape) (take l.shape.order l.compressed) (children_of l.fronts 0) };

    ghost invariant = { λ l. IsShape l.shape × IsCut (dims l.shape) (take l.shape.order l.compressed) l.depth l.size l.fronts };
}

impl PackedLevels {
    ghost use Rattle.dt_model.specs.Positions.{IsStored, place_in, coords_at, is_stored_prefix, next_child_of, cost_of};
    ghost use Rattle.dt_tensor.specs.Packed.{index_at, levels_with, IsCut};

    /// The levels with these fronts.
    pub(crate) fn new(
        shape: Shape,
        compressed: [bool; 4],
        depth: usize,
        size: u32,
        fronts: Compressed,
    ) -> PackedLevels
        requires shape { IsShape shape }
        requires cut { IsCut (dims shape) (take shape.order compressed) depth size fronts }
        ensures { result ≡ levels_with (dims shape) (take shape.order compressed) (children_of fronts 0) }
    {
        PackedLevels {
            shape,
            compressed,
            depth,
            size,
            fronts,
        }
    }

    /// The position of the index with this row-major number, and none where it is not stored. The front of the position
    /// `near` and the one before it are tried first.
    pub(crate) fn position_of(&self, near: Option<u32>, number: u32) -> Option<u32>
        requires { number < product self.now.extents }
        ensures { result ≡ place_in self.now (index_at self.now.extents number) }
    {
        match front_from(&self.fronts, near, self.size, number / self.size) {
            None => None,
            Some(front) => Some(front * self.size + number % self.size),
        }
    }

    /// The row-major number of the index at a position.
    pub(crate) fn number_at(&self, pos: u32) -> u32
        requires { pos < length self.now.coords }
        ensures index { index_at self.now.extents result ≡ coords_at self.now pos }
        ensures within { result < product self.now.extents }
    {
        let (front, _) = self.fronts.child(0, pos / self.size);
        front * self.size + pos % self.size
    }

    /// The position of the coordinates, and none where they are not stored.
    pub fn place(&self, c: &[u32]) -> Option<u32>
        ensures { result ≡ place_in self.now c.now }
    {
        self.place_near(None, c)
    }

    /// The same, where the front of the position `near` and the one before it are tried first.
    pub(crate) fn place_near(&self, near: Option<u32>, c: &[u32]) -> Option<u32>
        ensures { result ≡ place_in self.now c.now }
    {
        match self.shape.index(c) {
            None => None,
            Some(number) => self.position_of(near, number),
        }
    }

    /// The coordinates of a position.
    pub fn coords(&self, alloc: Global, pos: u32) -> Coords
        requires { pos < length self.now.coords }
        ensures { result ≡ coords_at self.now pos }
    {
        let all = coordinates(&self.shape, self.number_at(pos));
        Coords::of_few(alloc, &all[..self.shape.order as usize])
    }

    /// How many positions there are.
    pub fn count(&self) -> u32
        ensures count { result ≡ length self.now.coords }
        ensures few { result ≤ 1048576 }
    {
        self.fronts.children(0) * self.size
    }

    /// Whether the coordinates are a stored prefix.
    pub fn has_prefix(&self, c: &[u32]) -> bool
        ensures { result ≡ is_stored_prefix self.now c.now }
    {
        if !are_below(c, self.shape.dims()) {
            return false;
        }
        let depth = depth_of(&self.compressed[..c.len()]);
        if depth == 0 {
            return true;
        }
        match self.prefix_number(&c[..depth]) {
            None => false,
            Some(number) => {
                let size = self.level_size(depth);
                front_within(&self.fronts, number * size, (number + 1) * size).is_some()
            }
        }
    }

    /// The row-major number of the prefix, where it is some of the first extents.
    fn prefix_number(&self, c: &[u32]) -> Option<u32>
        requires { length c.now ≤ length self.now.extents }
        ensures { result ≡ row_major (take (length c.now) self.now.extents) c.now }
    {
        row_number(&self.shape.dims()[..c.len()], c)
    }

    /// How many indices the levels have from this one up to the last compressed one.
    fn level_size(&self, level: usize) -> u32
        requires { level ≤ depth_of self.now.compressed }
        ensures { result ≡ product (take (depth_of self.now.compressed - level) (drop level self.now.extents)) }
    {
        row_count(&self.shape.dims()[level..self.depth])
    }

    pub fn shape(&self) -> Shape
        ensures lawful { IsShape result }
        ensures dims { dims result ≡ self.now.extents }
        ensures stored { IsStored self.now }
    {
        self.shape
    }

    /// The words of memory that one position costs.
    pub fn cost(&self) -> u32
        ensures { result ≡ cost_of self.now }
    {
        1 + count_compressed(&self.compressed[..self.shape.order as usize])
    }

    /// The least coordinate, at least `from`, by which the prefix becomes a longer stored prefix.
    pub fn next_child(&self, prefix: &[u32], from: u32) -> Option<u32>
        requires { length prefix.now < length self.now.extents }
        ensures { result ≡ next_child_of self.now prefix.now from }
    {
        let level = prefix.len();
        let extent = self.shape.dims()[level];
        if from >= extent {
            return None;
        }
        if !self.compressed[level] {
            return if self.has_prefix(prefix) {
                Some(from)
            } else {
                None
            };
        }
        match self.prefix_number(prefix) {
            None => None,
            Some(number) => {
                let size = self.level_size(level + 1);
                let first = (number * extent + from) * size;
                let end = (number + 1) * extent * size;
                match front_within(&self.fronts, first, end) {
                    None => None,
                    Some(front) => Some(front / size - number * extent),
                }
            }
        }
    }
}

/// How many levels there are up to the last compressed one.
pub(crate) fn depth_of(compressed: &[bool]) -> usize
    requires { length compressed.now ≤ 4 }
    ensures { result ≡ depth_of compressed.now }
{
    let mut depth = 0;
    for (i, is_compressed) in compressed.iter().enumerate() {
        if *is_compressed {
            depth = i + 1;
        }
    }
    depth
}

/// How many of these levels are compressed.
fn count_compressed(compressed: &[bool]) -> u32
    requires { length compressed.now ≤ 4 }
    ensures count { result ≡ count_by (λ b. b) compressed.now }
    ensures few { result ≤ 4 }
{
    let mut count = 0;
    for is_compressed in compressed {
        if *is_compressed {
            count += 1;
        }
    }
    count
}

/// The shape with these extents.
fn shape_of(extents: &[u32]) -> Shape
    requires { are_extents extents.now ≡ true }
    ensures lawful { IsShape result }
    ensures dims { dims result ≡ extents.now }
{
    Shape::from_extents(extents).unwrap()
}

/// How many indices these extents have.
pub(crate) fn row_count(extents: &[u32]) -> u32
    requires { are_extents extents.now ≡ true }
    ensures { result ≡ product extents.now }
{
    shape_of(extents).count()
}

/// The row-major number of the coordinates, where they are some of these extents.
fn row_number(extents: &[u32], c: &[u32]) -> Option<u32>
    requires { are_extents extents.now ≡ true }
    ensures { result ≡ row_major extents.now c.now }
{
    shape_of(extents).index(c)
}

/// The number of a stored front. So many indices are behind each. Where a position is given, its front and the one before it
/// are tried first.
fn front_from(fronts: &Compressed, near: Option<u32>, size: u32, front: u32) -> Option<u32>
    requires root { length fronts.now ≡ 1 }
    requires some { 0 < size }
    ensures { result ≡ find_child fronts.now 0 front }
{
    match near {
        None => fronts.find(0, front),
        Some(pos) => front_near(fronts, pos / size, front),
    }
}

/// The same where the child `k` and the one before it are tried first.
fn front_near(fronts: &Compressed, k: u32, front: u32) -> Option<u32>
    requires { length fronts.now ≡ 1 }
    ensures { result ≡ find_child fronts.now 0 front }
{
    if let Some(number) = child_at(fronts, k, front) {
        return Some(number);
    }
    if let Some(number) = child_at(fronts, k.saturating_sub(1), front) {
        return Some(number);
    }
    fronts.find(0, front)
}

/// The number of the child `k`, if it is this front.
fn child_at(fronts: &Compressed, k: u32, front: u32) -> Option<u32>
    requires { length fronts.now ≡ 1 }
    ensures { IfSome result (λ n. find_child fronts.now 0 front ≡ Some n) }
{
    if k >= fronts.children(0) {
        return None;
    }
    let (x, number) = fronts.child(0, k);
    if x == front { Some(number) } else { None }
}

/// The least front that is stored of those numbered from `first` up to `end`.
fn front_within(fronts: &Compressed, first: u32, end: u32) -> Option<u32>
    requires { length fronts.now ≡ 1 }
    ensures { result ≡ find (λ f. nat_le first f && nat_lt f end) (children_of fronts.now 0) }
{
    let k = fronts.at_least(0, first);
    if k >= fronts.children(0) {
        return None;
    }
    let (front, _) = fronts.child(0, k);
    if front < end { Some(front) } else { None }
}
