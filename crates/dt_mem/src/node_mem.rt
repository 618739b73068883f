//! The memory of a node.

use crate::parts::{clear, part_sum, replaced};
use crate::rooms::{BufSpec, Room, find};
use dt_base::NoMemory;
use dt_runs::Runs;
use std::alloc::Global;
use std::cell::Cell;
use std::marker::Model;

/// The buffers of one node, by number, and the values of the words that they have. All of it is reserved when it is made. For
/// each buffer the interval is kept that had the last word, so a buffer that is walked is not searched.
#[derive(Debug, Drop)]
pub struct NodeMem<'p> {
    rooms: Vec<Room<'p>>,
    values: Vec<u64>,
    nears: Vec<Cell<u32>>,
    live: u64,
    sum: u64,
}

impl<'p> Model for NodeMem<'p> {
    ghost use Rattle.std.specs.Prelude.{List};
    ghost use Rattle.dt_mem.specs.Memory.{Slot};
    ghost use Rattle.dt_mem.specs.Rooms.{AreRooms, slots_of};

    ghost Value = { List Slot };

    ghost view = { λ m. slots_of m.rooms.items m.values.items };

    ghost invariant = { λ m. AreRooms m.rooms.items m.values.items m.live m.sum };
}

impl<'p> NodeMem<'p> {
    ghost use Rattle.std.specs.Prelude.{◌≡◌, ◌*◌, ◌<◌, ◌^◌, ◌≤◌, IfOk, None, Some, is_some, length, map, option_map, sum_by, true};
    ghost use Rattle.dt_mem.specs.Memory.{changed, ended, folded, held_at, live_of, opened, room_at, slot_of, sum_of, value_at, words_at, written};
    ghost use Rattle.dt_mem.specs.declared.rooms.BufSpec.{BufSpec};

    /// The memory for buffers with these numbers of words, all absent.
    pub fn new(alloc: Global, specs: &[BufSpec]) -> Result<NodeMem<'p>, NoMemory>
        requires fits { sum_by (λ (s : BufSpec). s.words * s.cost) specs.now < 2 ^ 64 }
        ensures { IfOk result (λ mem. mem ≡ map slot_of specs.now) }
    {
        let mut rooms = Vec::new(alloc);
        let mut nears = Vec::with_capacity(alloc, specs.len())?;
        let mut total: usize = 0;
        for spec in specs {
            rooms.push(Room {
                base: total,
                room: spec.words,
                cost: spec.cost,
                words: None,
            })?;
            nears.push(Cell::new(0))?;
            total = match total.checked_add(spec.words as usize) {
                Some(total) => total,
                None => return Err(NoMemory),
            };
        }
        let values = vec![in alloc; 0u64; total]?;
        Ok(NodeMem {
            rooms,
            values,
            nears,
            live: 0,
            sum: 0,
        })
    }

    /// A buffer begins: it has these words, each 0.
    pub fn begin(&mut self, buf: u32, words: &'p Runs)
        requires exists { buf < length self.old }
        requires absent { held_at self.old buf ≡ None }
        requires fits { length words.now ≤ room_at self.old buf }
        ensures { self.new ≡ changed (opened words.now) buf self.old }
    {
        let count = words.count();
        let room = &mut self.rooms[buf as usize];
        clear(&mut self.values, room.base, count as usize);
        self.live += u64::from(room.cost) * u64::from(count);
        room.words = Some(words);
    }

    /// A buffer ends: it is absent.
    pub fn end(&mut self, buf: u32)
        requires exists { buf < length self.old }
        requires present { is_some (held_at self.old buf) ≡ true }
        ensures { self.new ≡ changed ended buf self.old }
    {
        let room = &mut self.rooms[buf as usize];
        let count = room.words.unwrap().count();
        let dropped = part_sum(self.values.as_slice(), room.base, count as usize);
        self.live -= u64::from(room.cost) * u64::from(count);
        self.sum = self.sum.wrapping_sub(dropped);
        room.words = None;
    }

    /// The words of a buffer, and none where it is absent.
    pub fn words(&self, buf: u32) -> Option<&Runs>
        requires exists { buf < length self.now }
        ensures { option_map (λ r. r.now) result ≡ words_at self.now buf }
    {
        self.rooms[buf as usize].words
    }

    /// Whether a buffer is present and has the word.
    pub fn holds(&self, buf: u32, pos: u32) -> bool
        requires exists { buf < length self.now }
        ensures { result ≡ is_some (value_at self.now buf pos) }
    {
        find(self.rooms.as_slice(), self.nears.as_slice(), buf, pos).is_some()
    }

    /// The value of a word.
    pub fn read(&self, buf: u32, pos: u32) -> u64
        requires exists { buf < length self.now }
        requires held { is_some (value_at self.now buf pos) ≡ true }
        ensures { value_at self.now buf pos ≡ Some result }
    {
        let place = find(self.rooms.as_slice(), self.nears.as_slice(), buf, pos).unwrap();
        self.values[place]
    }

    /// Gives a word a value.
    pub fn write(&mut self, buf: u32, pos: u32, value: u64)
        requires exists { buf < length self.old }
        requires held { is_some (value_at self.old buf pos) ≡ true }
        ensures { self.new ≡ changed (written pos value) buf self.old }
    {
        let place = find(self.rooms.as_slice(), self.nears.as_slice(), buf, pos).unwrap();
        let old = self.values[place];
        self.sum = replaced(self.sum, old, value);
        self.values[place] = value;
    }

    /// Adds to the value of a word, modulo 2^64.
    pub fn fold(&mut self, buf: u32, pos: u32, amount: u64)
        requires exists { buf < length self.old }
        requires held { is_some (value_at self.old buf pos) ≡ true }
        ensures { self.new ≡ changed (folded pos amount) buf self.old }
    {
        let place = find(self.rooms.as_slice(), self.nears.as_slice(), buf, pos).unwrap();
        let old = self.values[place];
        self.sum = self.sum.wrapping_add(amount);
        self.values[place] = old.wrapping_add(amount);
    }

    /// The words that the present buffers have, each times its cost.
    pub fn live(&self) -> u64
        ensures { result ≡ live_of self.now }
    {
        self.live
    }

    /// The sum of all values, modulo 2^64.
    pub fn sum(&self) -> u64
        ensures { result ≡ sum_of self.now }
    {
        self.sum
    }
}
