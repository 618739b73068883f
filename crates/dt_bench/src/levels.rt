//! A tensor that is packed from entries in order, and the calls on its levels.

ghost use Rattle.std.specs.Prelude.{◌≡◌, ◌≤◌, ◌<◌, IfOk, IfSome, length};
ghost use Rattle.dt_model.specs.Shape.{IsShape};

use crate::case_end::CaseEnd;
use dt_base::{Coords, NoMemory};
use dt_model::Shape;
use dt_tensor::{Entries, Given, Tensor, TensorLevels, pack};
use std::alloc::Global;

/// The most entries.
pub const MOST_ENTRIES: u32 = 1_000_000;

/// What is done with the entries.
#[derive(Clone, Copy)]
pub enum LevelCall {
    /// They are made.
    Given,
    /// And packed.
    Pack,
    /// And the place of each is found.
    Place,
    /// And the coordinates of each position.
    Coords,
}

/// The levels of a tensor with this side in each dimension, and how many indices lie from an entry to the next.
#[derive(Clone, Copy)]
pub struct Mix {
    compressed: [bool; 4],
    order: u8,
    side: u32,
    step: u32,
}

impl Mix {
    /// Dense levels as `d`, compressed ones as `c`. Entries are apart where the last level is compressed.
    fn from_word(word: &str) -> Option<Mix> {
        match word {
            "dd" => Some(Mix::matrix([false; 4], 1024, 1)),
            "cd" => Some(Mix::matrix([true, false, false, false], 1024, 1)),
            "dc" => Some(Mix::matrix([false, true, false, false], 4096, 16)),
            "cc" => Some(Mix::matrix([true, true, false, false], 4096, 16)),
            "ddc" => Some(Mix {
                compressed: [false, false, true, false],
                order: 3,
                side: 256,
                step: 16,
            }),
            _ => None,
        }
    }

    fn matrix(compressed: [bool; 4], side: u32, step: u32) -> Mix {
        Mix {
            compressed,
            order: 2,
            side,
            step,
        }
    }

    /// The coordinates of entry `k`.
    fn at(&self, alloc: Global, k: u32) -> Coords
        requires { k < MOST_ENTRIES }
    {
        let number = k.wrapping_mul(self.step);
        let side = self.side.max(1);
        let row = number / side;
        let column = number % side;
        if self.order == 2 {
            return Coords::of_few(alloc, &[row, column]);
        }
        Coords::of_few(alloc, &[row / side, row % side, column])
    }

    fn shape(&self) -> Option<Shape>
        ensures { IfSome result IsShape }
    {
        let extents = [self.side; 3];
        if self.order == 2 {
            return Shape::from_extents(&extents[..2]);
        }
        Shape::from_extents(&extents)
    }
}

/// The call and the levels of a case, as `pack-dc`.
pub fn levels_case(word: &str) -> Option<(LevelCall, Mix)> {
    let (call, mix) = word.split_once('-')?;
    let call = match call {
        "given" => LevelCall::Given,
        "pack" => LevelCall::Pack,
        "place" => LevelCall::Place,
        "coords" => LevelCall::Coords,
        _ => return None,
    };
    Some((call, Mix::from_word(mix)?))
}

/// Does the call with so many entries, and mixes what was found.
pub fn levels(alloc: Global, call: LevelCall, mix: Mix, count: u32) -> Result<u32, CaseEnd>
    requires { count ≤ MOST_ENTRIES }
{
    let entries = entries(alloc, mix, count)?;
    match call {
        LevelCall::Given => Ok(entries.as_slice().len() as u32),
        LevelCall::Pack => Ok(packed(alloc, mix, &entries)?.stored()),
        LevelCall::Place => Ok(places(packed(alloc, mix, &entries)?.levels(), &entries)),
        LevelCall::Coords => Ok(coordinates(alloc, packed(alloc, mix, &entries)?.levels())),
    }
}

/// The tensor of these entries.
fn packed(alloc: Global, mix: Mix, entries: &Entries) -> Result<Tensor, CaseEnd>
    requires { length entries.now ≤ MOST_ENTRIES }
{
    let Some(shape) = mix.shape() else {
        return Err(CaseEnd::Refused);
    };
    match pack(alloc, shape, mix.compressed, entries) {
        Err(_) => Err(CaseEnd::Refused),
        Ok(tensor) => Ok(tensor),
    }
}

/// A matrix that stores so many numbers, its columns compressed.
pub fn matrix(alloc: Global, count: u32) -> Result<Tensor, CaseEnd>
    requires { count ≤ MOST_ENTRIES }
{
    let mix = Mix::matrix([false, true, false, false], 4096, 16);
    let entries = entries(alloc, mix, count)?;
    packed(alloc, mix, &entries)
}

/// The entries, in order.
fn entries(alloc: Global, mix: Mix, count: u32) -> Result<Entries, NoMemory>
    requires { count ≤ MOST_ENTRIES }
    ensures { IfOk result (λ e. length e ≡ count) }
{
    let mut entries = Entries::new(alloc);
    for k in 0..count {
        entries.push(Given {
            at: mix.at(alloc, k),
            value: u64::from(k),
        })?;
    }
    Ok(entries)
}

/// The places of all entries, mixed.
fn places(levels: &TensorLevels, entries: &Entries) -> u32 {
    let mut mixed = 0;
    for entry in entries.as_slice() {
        mixed ^= levels.place(entry.at.as_slice()).unwrap_or(0);
    }
    mixed
}

/// The first coordinates of all positions, mixed.
fn coordinates(alloc: Global, levels: &TensorLevels) -> u32 {
    let mut mixed = 0;
    for pos in 0..levels.count() {
        let at = levels.coords(alloc, pos);
        mixed ^= at.as_slice().first().copied().unwrap_or(0);
    }
    mixed
}
