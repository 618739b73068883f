//! Packing entries into a tensor.

ghost use Rattle.std.specs.Prelude.{◌≡◌, ◌-◌, ◌*◌, ◌/◌, ◌≤◌, ◌<◌, ◌^◌, ◌==◌, ℕ, [], ◌∷◌, ◌++◌, None, Some, true, nat_lt, length, take, drop, map, option_map, option_to_list, position, IfOk, OnOk, IsSome, All};
ghost use Rattle.std.specs.List.Sorted.{IsSorted, IsStrictlyIncreasing};
ghost use Rattle.std.specs.Ordering.{nat_cmp};
ghost use Rattle.dt_base.specs.Rows.{product, row_major};
ghost use Rattle.dt_model.specs.Positions.{IsStored};
ghost use Rattle.dt_model.specs.Shape.{dims, IsShape};
ghost use Rattle.dt_runs.specs.Sets.{contains};
ghost use Rattle.dt_tensor.specs.Packed.{depth_of, whole_of};
ghost use Rattle.dt_tensor.specs.Packing.{given_at, given_whole, first_offence, pack_of, AreGiven, StoreGiven, IsPack};

use crate::dense::DenseLevels;
use crate::entry::{Entries, Given};
use crate::packed_levels::{PackedLevels, depth_of, row_count};
use crate::tensor::Tensor;
use crate::tensor_levels::TensorLevels;
use dt_base::{NoMemory, Words};
use dt_level::Compressed;
use dt_model::Shape;
use std::alloc::Global;

/// How many coordinates a tensor may store.
const MOST_STORED: u32 = 1_048_576;

/// Why entries give no tensor. An entry's number counts from 1.
#[derive(Debug, Clone, Copy, PartialEq, Eq)]
pub enum PackEnd {
    /// An entry's coordinates are no index of the shape.
    OutOfShape(u32),
    /// An entry has the coordinates of one before it.
    Repeated(u32),
    /// More than 1,048,576 coordinates are stored.
    TooManyStored,
    NoMemory,
}

/// The tensor of these entries. The first entry that is out of the shape or repeats one before it is told before the
/// number of stored coordinates is tested. It takes time and memory by the entries and the stored coordinates, however
/// large the shape is.
pub fn pack(
    alloc: Global,
    shape: Shape,
    compressed: [bool; 4],
    entries: &Entries,
) -> Result<Tensor, PackEnd>
    requires shape { IsShape shape }
    requires few { length entries.now < 2 ^ 32 - 1 }
    ensures packed { IsPack result (pack_of (dims shape) (take shape.order compressed) entries.now) }
    ensures whole { IfOk result (λ t. whole_of t ≡ given_whole (dims shape) entries.now) }
{
    let list = entries.as_slice();
    let numbers = match numbers_of(alloc, &shape, list) {
        Err(_) => return Err(PackEnd::NoMemory),
        Ok(numbers) => numbers,
    };
    match offence_in(alloc, &shape, numbers.as_slice(), list) {
        Err(_) => return Err(PackEnd::NoMemory),
        Ok(Some(end)) => return Err(end),
        Ok(None) => {}
    }
    match levels_for(alloc, shape, compressed, numbers) {
        Err(_) => Err(PackEnd::NoMemory),
        Ok(None) => Err(PackEnd::TooManyStored),
        Ok(Some(levels)) => match given_values(alloc, &levels, list) {
            Err(_) => Err(PackEnd::NoMemory),
            Ok(values) => Ok(Tensor::with_levels(levels, values)),
        },
    }
}

/// The row-major numbers of the entries that lie in the shape, each once, ascending.
fn numbers_of(alloc: Global, shape: &Shape, entries: &[Given]) -> Result<Vec<u32>, NoMemory>
    requires { IsShape shape.now }
    ensures ascending { IfOk result (λ v. IsStrictlyIncreasing v.items) }
    ensures given { IfOk result (λ v. AreGiven (dims shape.now) entries.now v.items) }
{
    let mut numbers = Vec::with_capacity(alloc, entries.len())?;
    for entry in entries {
        push_some(&mut numbers, shape.index(entry.at.as_slice()))?;
    }
    Ok(in_order(numbers))
}

/// Puts a number at the end, if there is one.
fn push_some(numbers: &mut Vec<u32>, number: Option<u32>) -> Result<(), NoMemory>
    ensures { OnOk result (numbers.new.items ≡ numbers.old.items ++ option_to_list number) }
{
    match number {
        None => Ok(()),
        Some(number) => {
            numbers.push(number)?;
            Ok(())
        }
    }
}

/// The first thing that is wrong with an entry. A mark for each number that is given tells repeats.
fn offence_in(
    alloc: Global,
    shape: &Shape,
    numbers: &[u32],
    entries: &[Given],
) -> Result<Option<PackEnd>, NoMemory>
    requires shape { IsShape shape.now }
    requires few { length entries.now < 2 ^ 32 - 1 }
    requires ascending { IsStrictlyIncreasing numbers.now }
    requires given { AreGiven (dims shape.now) entries.now numbers.now }
    ensures offence { IfOk result (λ end. end ≡ first_offence (dims shape.now) entries.now) }
    ensures inside { IfOk result (λ end. end ≡ None → All (λ e. IsSome (row_major (dims shape.now) e.at)) entries.now) }
{
    let mut seen = vec![in alloc; false; numbers.len()]?;
    let mut near = 0;
    for (i, entry) in entries.iter().enumerate() {
        match shape.index(entry.at.as_slice()) {
            None => return Ok(Some(PackEnd::OutOfShape(i as u32 + 1))),
            Some(number) => {
                let place = place_of(numbers, near, number);
                if seen.as_slice()[place] {
                    return Ok(Some(PackEnd::Repeated(i as u32 + 1)));
                }
                seen.as_mut_slice()[place] = true;
                near = place.saturating_add(1);
            }
        }
    }
    Ok(None)
}

/// The levels that store the entries with these numbers, and none where they would have too many positions.
fn levels_for(
    alloc: Global,
    shape: Shape,
    compressed: [bool; 4],
    numbers: Vec<u32>,
) -> Result<Option<TensorLevels>, NoMemory>
    requires shape { IsShape shape }
    requires ascending { IsStrictlyIncreasing numbers.items }
    requires within { All (λ n. n < product (dims shape)) numbers.items }
    ensures { IfOk result (λ l. StoreGiven l (dims shape) (take shape.order compressed) numbers.items) }
{
    let depth = depth_of(&compressed[..shape.order as usize]);
    if depth > 0 {
        return front_levels(alloc, shape, compressed, depth, numbers);
    }
    if shape.count() > MOST_STORED {
        return Ok(None);
    }
    Ok(Some(TensorLevels::dense(DenseLevels::new(shape))))
}

/// The same where the level before `depth` is the last compressed one.
fn front_levels(
    alloc: Global,
    shape: Shape,
    compressed: [bool; 4],
    depth: usize,
    numbers: Vec<u32>,
) -> Result<Option<TensorLevels>, NoMemory>
    requires shape { IsShape shape }
    requires ascending { IsStrictlyIncreasing numbers.items }
    requires within { All (λ n. n < product (dims shape)) numbers.items }
    requires depth { depth ≡ depth_of (take shape.order compressed) }
    requires deep { 0 < depth }
    ensures { IfOk result (λ l. StoreGiven l (dims shape) (take shape.order compressed) numbers.items) }
{
    let size = size_behind(&shape, depth);
    let fronts = fronts_of(alloc, numbers, size)?;
    if is_over(fronts.as_slice(), size) {
        return Ok(None);
    }
    let level = level_of(alloc, fronts)?;
    Ok(Some(TensorLevels::packed(PackedLevels::new(shape, compressed, depth, size, level))))
}

/// How many indices there are behind each front of so many coordinates.
fn size_behind(shape: &Shape, depth: usize) -> u32
    requires shape { IsShape shape.now }
    requires within { depth ≤ length (dims shape.now) }
    ensures size { result ≡ product (drop depth (dims shape.now)) }
    ensures some { 0 < result }
{
    shape.count() / row_count(&shape.dims()[..depth])
}

/// Whether there are too many positions behind these fronts.
fn is_over(fronts: &[u32], size: u32) -> bool
    requires { 0 < size }
    ensures { result ≡ nat_lt 1048576 (length fronts.now * size) }
{
    fronts.len() > (MOST_STORED / size) as usize
}

/// The fronts of ascending numbers, each once, ascending. So many indices are behind each front.
fn fronts_of(alloc: Global, numbers: Vec<u32>, size: u32) -> Result<Vec<u32>, NoMemory>
    requires some { 0 < size }
    requires numbers { IsStrictlyIncreasing numbers.items }
    ensures ascending { IfOk result (λ v. IsStrictlyIncreasing v.items) }
    ensures fronts { IfOk result (λ v. (f : ℕ) → contains v.items f ≡ contains (map (λ n. n / size) numbers.items) f) }
{
    if size == 1 {
        return Ok(numbers);
    }
    let mut fronts = Vec::new(alloc);
    for number in numbers.as_slice() {
        fronts.push(*number / size)?;
    }
    Ok(once(fronts))
}

/// The numbers in order, each once.
fn in_order(mut numbers: Vec<u32>) -> Vec<u32>
    ensures ascending { IsStrictlyIncreasing result.items }
    ensures same { (x : ℕ) → contains result.items x ≡ contains numbers.items x }
{
    numbers.sort_unstable();
    once(numbers)
}

/// The numbers, which are in order, each once.
fn once(mut numbers: Vec<u32>) -> Vec<u32>
    requires { IsSorted nat_cmp numbers.items }
    ensures ascending { IsStrictlyIncreasing result.items }
    ensures same { (x : ℕ) → contains result.items x ≡ contains numbers.items x }
{
    numbers.dedup();
    numbers
}

/// The level whose one parent has these children.
fn level_of(alloc: Global, fronts: Vec<u32>) -> Result<Compressed, NoMemory>
    requires ascending { IsStrictlyIncreasing fronts.items }
    requires few { length fronts.items < 2 ^ 32 }
    ensures { IfOk result (λ l. l ≡ fronts.items ∷ []) }
{
    let pos = Words::from_slice(alloc, &[0, fronts.as_slice().len() as u32])?;
    Ok(Compressed::from_parts(pos, Words::from_vec(fronts)).unwrap())
}

/// The place of a number that is among these. The place `near` is tried first.
fn place_of(numbers: &[u32], near: usize, x: u32) -> usize
    requires ascending { IsStrictlyIncreasing numbers.now }
    requires among { contains numbers.now x ≡ true }
    ensures { position (λ y. y == x) numbers.now ≡ Some result }
{
    if near < numbers.len() && numbers[near] == x {
        return near;
    }
    numbers.partition_point(|y| *y < x)
}

/// The number that is given at each position, the first where entries repeat, and 0 where none is.
fn given_values(
    alloc: Global,
    levels: &TensorLevels,
    entries: &[Given],
) -> Result<Vec<u64>, NoMemory>
    requires { IsStored levels.now }
    ensures { IfOk result (λ v. v.items ≡ map (given_at entries.now) levels.now.coords) }
{
    let mut values = vec![in alloc; 0u64; levels.count() as usize]?;
    let mut near = 0;
    // From the last entry on, so that the first of those that repeat stays.
    for i in (0..entries.len()).rev() {
        let entry = &entries[i];
        match levels.place_near(Some(near), entry.at.as_slice()) {
            None => {}
            Some(pos) => {
                values.as_mut_slice()[pos as usize] = entry.value;
                near = pos;
            }
        }
    }
    Ok(values)
}
