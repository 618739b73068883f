//! The rooms of buffers in a node's reserved values.

ghost use Rattle.std.specs.Prelude.{◌≡◌, ◌==◌, ◌+◌, ◌<◌, ◌^◌, length, option_map, position};
ghost use Rattle.dt_mem.specs.Rooms.{IsLaid, before, capacity, place_at};

use dt_runs::Runs;
use std::cell::Cell;

/// A buffer of a node: the most words that it has at once, and what each of them costs.
#[derive(Clone, Copy, Debug)]
pub struct BufSpec {
    pub words: u32,
    pub cost: u32,
}

/// A buffer's part of the values: where it begins, how many words fit, and the words that it has while the buffer is present.
#[derive(Debug, Drop)]
pub(crate) struct Room<'p> {
    pub(crate) base: usize,
    pub(crate) room: u32,
    pub(crate) cost: u32,
    pub(crate) words: Option<&'p Runs>,
}

/// The rank of a word, sought first in the interval that had the last one, whose number is kept, and in the next one.
fn rank_near(words: &Runs, pos: u32, near: Option<&Cell<u32>>) -> Option<u32>
    ensures { result ≡ position (λ y. y == pos) words.now }
{
    match near {
        None => words.rank(pos),
        Some(near) => {
            let mut interval = near.get();
            let rank = words.rank_near(pos, &mut interval);
            near.set(interval);
            rank
        }
    }
}

/// The place of a buffer's word among the values, and none where the buffer is absent or doesn't have the word. `nears` has the
/// interval of each buffer that had the last word.
pub(crate) fn find(rooms: &[Room<'_>], nears: &[Cell<u32>], buf: u32, pos: u32) -> Option<usize>
    requires exists { buf < length rooms.now }
    requires laid { IsLaid 0 rooms.now }
    requires small { capacity rooms.now < 2 ^ 64 }
    ensures { result ≡ option_map (λ k. before rooms.now buf + k) (place_at rooms.now buf pos) }
{
    let room = &rooms[buf as usize];
    match room.words {
        None => None,
        Some(words) => match rank_near(words, pos, nears.get(buf as usize)) {
            None => None,
            Some(rank) => Some(room.base + rank as usize),
        },
    }
}
