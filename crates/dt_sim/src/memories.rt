//! Buffers and words, by their node.

ghost use Rattle.std.specs.Prelude.{◌≡◌, ◌<◌, ◌≤◌, [], ◌∷◌, None, Some, is_some, length, true};
ghost use Rattle.dt_mem.specs.Memory.{ended, folded, held_at, opened, room_at, value_at, written};
ghost use Rattle.dt_sim.specs.Memories.{changed_on, memory_at};
ghost use Rattle.dt_sim.specs.UnitsDone.{Zeroes};

use dt_mem::NodeMem;
use dt_runs::Runs;

/// A buffer begins on a node.
pub(crate) fn begin_on<'p>(mems: &mut Vec<NodeMem<'p>>, node: u32, buf: u32, words: &'p Runs)
    requires node { node < length mems.old.items }
    requires exists { buf < length (memory_at mems.old.items node) }
    requires absent { held_at (memory_at mems.old.items node) buf ≡ None }
    requires fits { length words.now ≤ room_at (memory_at mems.old.items node) buf }
    ensures { mems.new.items ≡ changed_on (opened words.now) node buf mems.old.items }
{
    let mem = &mut mems[node as usize];
    mem.begin(buf, words);
}

/// A buffer ends on a node.
pub(crate) fn end_on(mems: &mut Vec<NodeMem<'_>>, node: u32, buf: u32)
    requires { is_some (held_at (memory_at mems.old.items node) buf) ≡ true }
    ensures { mems.new.items ≡ changed_on ended node buf mems.old.items }
{
    let mem = &mut mems[node as usize];
    mem.end(buf);
}

/// The value of a word on a node.
pub(crate) fn read_on(mems: &[NodeMem<'_>], node: u32, buf: u32, word: u32) -> u64
    requires { is_some (value_at (memory_at mems.now node) buf word) ≡ true }
    ensures { value_at (memory_at mems.now node) buf word ≡ Some result }
{
    mems[node as usize].read(buf, word)
}

/// Gives a word on a node a value.
pub(crate) fn write_on(mems: &mut Vec<NodeMem<'_>>, node: u32, buf: u32, word: u32, value: u64)
    requires { is_some (value_at (memory_at mems.old.items node) buf word) ≡ true }
    ensures { mems.new.items ≡ changed_on (written word value) node buf mems.old.items }
{
    let mem = &mut mems[node as usize];
    mem.write(buf, word, value);
}

/// Adds to the value of a word on a node.
pub(crate) fn fold_on(mems: &mut Vec<NodeMem<'_>>, node: u32, buf: u32, word: u32, amount: u64)
    requires { is_some (value_at (memory_at mems.old.items node) buf word) ≡ true }
    ensures { mems.new.items ≡ changed_on (folded word amount) node buf mems.old.items }
{
    let mem = &mut mems[node as usize];
    mem.fold(buf, word, amount);
}

/// Whether a buffer of a node is present and has the word.
pub(crate) fn holds_on(mems: &[NodeMem<'_>], node: u32, buf: u32, word: u32) -> bool
    requires { buf < length (memory_at mems.now node) }
    ensures { result ≡ is_some (value_at (memory_at mems.now node) buf word) }
{
    mems[node as usize].holds(buf, word)
}

/// Makes one word of a buffer of a node 0, where the buffer has it.
pub(crate) fn zero_word(mems: &mut Vec<NodeMem<'_>>, node: u32, buf: u32, word: u32)
    requires { buf < length (memory_at mems.old.items node) }
    ensures { Zeroes node buf (word ∷ []) mems.old.items mems.new.items }
{
    let holds = holds_on(mems.as_slice(), node, buf, word);
    if holds {
        write_on(mems, node, buf, word, 0);
    }
}

/// Makes words of a buffer of a node 0, those that the buffer has.
pub(crate) fn zero_words(mems: &mut Vec<NodeMem<'_>>, node: u32, buf: u32, words: &Runs)
    requires { buf < length (memory_at mems.old.items node) }
    ensures { Zeroes node buf words.now mems.old.items mems.new.items }
{
    for k in 0..words.count() {
        match words.at(k) {
            None => {}
            Some(word) => zero_word(mems, node, buf, word),
        }
    }
}
