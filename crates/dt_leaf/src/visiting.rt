//! One item of a run on a node's memory.

ghost use Rattle.std.specs.Prelude.{◌≡◌, ℕ, ◌+◌, ◌%◌, ◌^◌, ◌<◌, [], ◌∷◌, is_some, length, slice_get, slice_index, true};
ghost use Rattle.dt_leaf.specs.Clearing.{Clears, buffer_words};
ghost use Rattle.dt_nest.specs.Run.{IsAtLeaf};
ghost use Rattle.dt_nest.specs.Unit.{Sign, can_do, cleared_at, grown_at, is_held, unit_of};
ghost use Rattle.dt_nest.specs.Visits.{IsVisit};
ghost use Rattle.dt_nest.specs.Point.{visit_of};
ghost use Rattle.dt_leaf.specs.AtVisit.{IsShortLeaf};
ghost use Rattle.dt_leaf.specs.NodeWords.{AreApart, CanDoLast, GoesOver, LeavesRest, after_last, cells_in};

use crate::at_visit::{coordinates, visit_number};
use crate::node_words::NodeWords;
use crate::words::word_at;
use dt_mem::NodeMem;
use dt_model::Locator;
use dt_nest::{Nest, Sched, Visit, Visits};

/// The extents of a schedule's loops and variables, each below 2^32.
pub fn extents_of(sched: &Sched) -> &[u32]
    ensures below { (u : ℕ) → slice_index sched.now.extents u < 2 ^ 32 }
    ensures values { result.now ≡ sched.now.extents }
{
    let extents = sched.parts().extents.as_slice();
    extents
}

/// Adds a number to a word of a tensor or workspace, where there is one.
fn add_at(mem: &mut NodeMem<'_>, slots: &[u32], tensor: u32, word: Option<u32>, number: u64)
    requires held { is_held (cells_in mem.old slots.now) tensor word ≡ true }
    requires apart { AreApart slots.now }
    ensures cells { (d : ℕ) → number ≡ d % 2 ^ 64 → cells_in mem.new slots.now ≡ grown_at (cells_in mem.old slots.now) tensor word d }
    ensures rest { LeavesRest slots.now mem.old mem.new }
{
    match word {
        None => {}
        Some(word) => mem.fold(slots[tensor as usize], word, number),
    }
}

/// Adds what the last visit of a run adds to the word that it writes.
fn add_visit<L: Locator>(
    mem: &mut NodeMem<'_>,
    sched: &Sched,
    loc: &L,
    at: &Visits<L>,
    slots: &[u32],
    values: &mut [Option<u32>],
)
    requires over { GoesOver at.now sched.now (L.tensors loc.now) }
    requires leaf { IsAtLeaf at.now }
    requires can { can_do (L.tensors loc.now) sched.now (IsVisit (visit_of at.now)) (cells_in mem.old slots.now) ≡ true }
    requires short { IsShortLeaf (visit_of at.now) }
    requires apart { AreApart slots.now }
    requires room { length values.old ≡ length sched.now.names }
    ensures cells { cells_in mem.new slots.now ≡ unit_of (L.tensors loc.now) sched.now (IsVisit (visit_of at.now)) (cells_in mem.old slots.now) }
    ensures rest { LeavesRest slots.now mem.old mem.new }
    ensures room { length values.new ≡ length values.old }
{
    let _extents = extents_of(sched);
    if let Nest::Leaf { lhs, terms, .. } = at.leaf() {
        let words = NodeWords {
            mem: &*mem,
            sched,
            loc,
            slots,
        };
        let number = visit_number(at, terms.as_slice(), &words, values);
        let vars = lhs.vars.as_slice();
        let coords = coordinates(at, &at.point(), vars);
        let word = word_at(sched, loc, lhs.tensor, &coords[..vars.len()]);
        add_at(mem, slots, lhs.tensor, word, number);
    }
}

/// Makes one word of a buffer 0, where the buffer has it.
fn clear_word(mem: &mut NodeMem<'_>, buf: u32, word: u32)
    requires { buf < length mem.old }
    ensures { Clears buf (word ∷ []) mem.old mem.new }
{
    if mem.holds(buf, word) {
        mem.write(buf, word, 0);
    }
}

/// The word with this number among a buffer's words, and none behind the last.
fn word_in(mem: &NodeMem<'_>, buf: u32, k: u32) -> Option<u32>
    requires { buf < length mem.now }
    ensures { result ≡ slice_get (buffer_words mem.now buf) k }
{
    match mem.words(buf) {
        None => None,
        Some(words) => words.at(k),
    }
}

/// How many words a buffer has, and 0 where it is absent.
fn count_words(mem: &NodeMem<'_>, buf: u32) -> u32
    requires { buf < length mem.now }
    ensures { result ≡ length (buffer_words mem.now buf) }
{
    match mem.words(buf) {
        None => 0,
        Some(words) => words.count(),
    }
}

/// Makes each word of a buffer 0.
fn clear(mem: &mut NodeMem<'_>, buf: u32)
    requires { buf < length mem.old }
    ensures { Clears buf (buffer_words mem.old buf) mem.old mem.new }
{
    let count = count_words(mem, buf);
    for k in 0..count {
        match word_in(mem, buf, k) {
            None => {}
            Some(word) => clear_word(mem, buf, word),
        }
    }
}

/// Makes each word of a workspace 0.
fn reset(mem: &mut NodeMem<'_>, sched: &Sched, slots: &[u32], work: u32)
    requires present { is_some (cells_in mem.old slots.now (Sign (length sched.now.tensors + work))) ≡ true }
    requires apart { AreApart slots.now }
    ensures cells { cells_in mem.new slots.now ≡ cleared_at (cells_in mem.old slots.now) (length sched.now.tensors + work) }
    ensures rest { LeavesRest slots.now mem.old mem.new }
{
    let tensors = sched.parts().tensors.as_slice().len();
    clear(mem, slots[tensors + work as usize]);
}

/// Does the last item of a run on a node's memory, where `slots` has the buffer of each tensor and workspace: a visit adds
/// the sum of its terms to the word that it writes, modulo 2^64, and a reset makes each word of its workspace 0. Coordinates
/// that have no word read as 0, and nothing is written there. Every other word, and every buffer that no slot names, stays as
/// it was. `values` is room for the values of all variables at a value of a substituted loop. It takes no memory.
pub fn visit<L: Locator>(
    mem: &mut NodeMem<'_>,
    sched: &Sched,
    loc: &L,
    at: &Visits<L>,
    slots: &[u32],
    values: &mut [Option<u32>],
)
    requires over { GoesOver at.now sched.now (L.tensors loc.now) }
    requires can { CanDoLast (L.tensors loc.now) sched.now (cells_in mem.old slots.now) at.now.last }
    requires apart { AreApart slots.now }
    requires room { length values.old ≡ length sched.now.names }
    ensures cells { cells_in mem.new slots.now ≡ after_last (L.tensors loc.now) sched.now at.now.last (cells_in mem.old slots.now) }
    ensures rest { LeavesRest slots.now mem.old mem.new }
    ensures room { length values.new ≡ length values.old }
{
    match at.last() {
        None => {}
        Some(Visit::Reset(work)) => reset(mem, sched, slots, work),
        Some(Visit::Leaf) => add_visit(mem, sched, loc, at, slots, values),
    }
}
