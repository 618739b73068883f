//! Flags, and which of them are set.

ghost use Rattle.std.specs.Prelude.{◌≡◌, ◌<◌, false, true, IfOk, length, replicate, slice_index, slice_index_or, slice_set};
ghost use Rattle.dt_flags.specs.Flags.{set_ones};

use crate::sums::Sums;
use dt_base::NoMemory;
use std::alloc::Global;
use std::marker::Model;

/// Flags by number. A flag changes, and the k-th of those that are set is found, in the logarithm of their number.
#[derive(Drop)]
pub struct Flags {
    bits: Vec<bool>,
    sums: Sums,
    count: u32,
}

impl Model for Flags {
    ghost use Rattle.std.specs.Prelude.{List, Bool};
    ghost use Rattle.dt_flags.specs.Flags.{AreCounted};

    ghost Value = { List Bool };

    ghost view = { λ f. f.bits.items };

    ghost invariant = { λ f. AreCounted f.bits.items f.sums f.count };
}

impl Flags {
    /// So many flags, none of them set.
    pub fn new(alloc: Global, count: u32) -> Result<Flags, NoMemory>
        ensures { IfOk result (λ f. f ≡ replicate count false) }
    {
        let bits = vec![in alloc; false; count as usize]?;
        let sums = Sums::zeros(alloc, count)?;
        Ok(Flags {
            bits,
            sums,
            count: 0,
        })
    }

    /// Whether a flag is set.
    pub fn has(&self, place: u32) -> bool
        requires { place < length self.now }
        ensures { result ≡ slice_index_or self.now place false }
    {
        self.bits[place as usize]
    }

    /// A flag is set.
    pub fn set(&mut self, place: u32)
        requires { place < length self.old }
        ensures { self.new ≡ slice_set self.old place true }
    {
        if !self.bits[place as usize] {
            self.bits[place as usize] = true;
            self.sums.put(place, 1);
            self.count += 1;
        }
    }

    /// A flag is cleared.
    pub fn clear(&mut self, place: u32)
        requires { place < length self.old }
        ensures { self.new ≡ slice_set self.old place false }
    {
        if self.bits[place as usize] {
            self.bits[place as usize] = false;
            self.sums.put(place, 0);
            self.count -= 1;
        }
    }

    /// How many are set.
    pub fn count(&self) -> u32
        ensures { result ≡ length (set_ones self.now) }
    {
        self.count
    }

    /// One of those that are set, by its number among them, ascending from 0.
    pub fn at(&self, k: u32) -> u32
        requires { k < length (set_ones self.now) }
        ensures { result ≡ slice_index (set_ones self.now) k }
    {
        self.sums.find(k)
    }
}
