//! Levels that store some coordinates.

ghost use Rattle.std.specs.Prelude.{◌≡◌, ◌+◌, ◌^◌, ◌<◌, IfSome, is_some, length};
ghost use Rattle.std.specs.List.Sorted.{IsStrictlyIncreasing};
ghost use Rattle.dt_level.specs.Levels.{IsLevel, children_of, first_child};
ghost use Rattle.dt_level.specs.Segments.{are_parts, segments};

use crate::levels::Level;
use crate::parts::are_parts;
use crate::searches::{count_below, place_of};
use dt_base::Words;
use std::marker::Model;

/// A level at which each parent has children for the coordinates of its segment. The numbers `crd` are the
/// coordinates of all children, one segment behind the other, and `pos` are the places in it at which the segments
/// begin, with its length behind.
#[derive(Debug, Drop)]
pub struct Compressed {
    pos: Words,
    crd: Words,
}

impl Model for Compressed {
    ghost use Rattle.std.specs.Prelude.{◌≡◌, ◌<◌, ◌^◌, List, ℕ, length, true};
    ghost use Rattle.dt_level.specs.Segments.{are_parts, segments};

    ghost Value = { List (List ℕ) };

    ghost view = { λ c. segments c.pos c.crd };

    ghost invariant = { λ c. (are_parts c.pos c.crd ≡ true) × (length c.crd < 2 ^ 32) };
}

impl Compressed {
    /// The level with these segments. It is none exactly where `pos` is empty, does not begin with 0, falls, or does
    /// not end with the length of `crd`, or where the coordinates of a segment do not ascend.
    pub fn from_parts(pos: Words, crd: Words) -> Option<Compressed>
        ensures level { IfSome result (λ level. level ≡ segments pos crd) }
        ensures exact { is_some result ≡ are_parts pos crd }
    {
        if !are_parts(pos.as_slice(), crd.as_slice()) {
            return None;
        }
        Some(Compressed { pos, crd })
    }

    /// The place in `crd` at which the parent's segment begins, and the one at which it ends.
    fn ends(&self, parent: u32) -> (u32, u32)
        requires { parent < length self.now }
        ensures from { result.0 ≡ first_child self.now parent }
        ensures to { result.1 ≡ first_child self.now parent + length (children_of self.now parent) }
        ensures lawful { IsLevel self.now }
    {
        let pos = self.pos.as_slice();
        let parent = parent as usize;
        (pos[parent], pos[parent + 1])
    }

    /// The coordinates of the parent's children.
    fn segment(&self, parent: u32) -> &[u32]
        requires { parent < length self.now }
        ensures children { result.now ≡ children_of self.now parent }
        ensures ascending { IsStrictlyIncreasing result.now }
        ensures few { length result.now < 2 ^ 32 }
    {
        let (from, to) = self.ends(parent);
        &self.crd.as_slice()[from as usize..to as usize]
    }
}

impl Level for Compressed {
    ghost level = { λ l. l };

    fn children(&self, parent: u32) -> u32 {
        let (from, to) = self.ends(parent);
        to - from
    }

    fn child(&self, parent: u32, k: u32) -> (u32, u32) {
        let (from, _) = self.ends(parent);
        (self.segment(parent)[k as usize], from + k)
    }

    fn find(&self, parent: u32, x: u32) -> Option<u32> {
        let k = place_of(self.segment(parent), x)?;
        let (from, _) = self.ends(parent);
        Some(from + k as u32)
    }

    fn at_least(&self, parent: u32, x: u32) -> u32 {
        count_below(self.segment(parent), x) as u32
    }
}
