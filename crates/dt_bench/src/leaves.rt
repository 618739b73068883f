//! All visits of a product on the memory of one node.

ghost use Rattle.std.specs.Prelude.{◌≡◌, ◌<◌, length, map};
ghost use Rattle.dt_nest.specs.FitsStored.{FitsStored};
ghost use Rattle.dt_tensor.specs.Packed.{stored_of};

use crate::case_end::CaseEnd;
use crate::jobs::job_of_size;
use dt_base::NoMemory;
use dt_mem::{BufSpec, NodeMem};
use dt_model::Locator;
use dt_nest::Sched;
use dt_node::{holds_all, run_on_node};
use dt_runs::Runs;
use dt_tensor::Tensors;
use std::alloc::Global;

/// The largest extent.
pub const LARGEST_EXTENT: u32 = 64;

/// The product of two matrices, its three loops cut by splits of 8.
const PRODUCT: &[u8] = b"distal 1
machine 1
tensor A #x#
tensor B #x#
tensor C #x#
stmt A(i,j) = B(i,k) * C(k,j)
split i io ii 8
split j jo ji 8
split k ko ki 8
reorder io jo ko ii ji ki
end
";

/// The buffers of the three tensors.
const SLOTS: &[u32] = &[0, 1, 2];

/// How far a case goes.
#[derive(Clone, Copy)]
pub enum NodeStep {
    /// The job is read.
    Read,
    /// The node has all words.
    Made,
    /// All visits are done.
    Visited,
}

impl NodeStep {
    pub(crate) fn from_word(word: &str) -> Option<NodeStep> {
        match word {
            "node-job" => Some(NodeStep::Read),
            "node-memory" => Some(NodeStep::Made),
            "node-visits" => Some(NodeStep::Visited),
            _ => None,
        }
    }
}

/// The sum of the numbers on the node, modulo a prime.
pub(crate) fn node(alloc: Global, step: NodeStep, size: u32) -> Result<u32, CaseEnd> {
    let job = job_of_size(alloc, PRODUCT, size)?;
    match job.parts.as_slice() {
        [] => Err(CaseEnd::Refused),
        [part, ..] => match step {
            NodeStep::Read => Ok(0),
            _ => on_node(alloc, &part.sched, &job.tensors, step),
        },
    }
}

/// All words of a tensor, and none where there is no such tensor.
fn words_of(alloc: Global, tensors: &Tensors, tensor: u32) -> Result<Runs, NoMemory> {
    if tensor as usize >= tensors.len() {
        return Ok(Runs::empty(alloc));
    }
    let count = tensors.count(tensor);
    Runs::of_box(alloc, &[count], &[0], &[count])
}

/// The sum of the numbers in three buffers that have all words of the tensors, after all visits where they are done.
fn on_node(alloc: Global, sched: &Sched, tensors: &Tensors, step: NodeStep) -> Result<u32, CaseEnd>
    requires { FitsStored (map stored_of tensors.now) sched.now }
{
    let left = words_of(alloc, tensors, 0)?;
    let first = words_of(alloc, tensors, 1)?;
    let second = words_of(alloc, tensors, 2)?;
    let specs = [spec_of(&left), spec_of(&first), spec_of(&second)];
    let mut mem = NodeMem::new(alloc, &specs)?;
    mem.begin(0, &left);
    mem.begin(1, &first);
    mem.begin(2, &second);
    number(&mut mem, 1, &first);
    number(&mut mem, 2, &second);
    if !holds_all(&mem, sched, tensors, SLOTS) {
        return Err(CaseEnd::Refused);
    }
    if let NodeStep::Visited = step {
        run_on_node(alloc, &mut mem, sched, tensors, SLOTS)?;
    }
    Ok((mem.sum() % 1_000_000_007) as u32)
}

/// Room for these words, each of which costs one.
fn spec_of(words: &Runs) -> BufSpec
    ensures words { result.words ≡ length words.now }
    ensures cost { result.cost ≡ 1 }
{
    BufSpec {
        words: words.count(),
        cost: 1,
    }
}

/// Gives each of the words that a buffer has its number, and one more.
fn number(mem: &mut NodeMem<'_>, buf: u32, words: &Runs)
    requires { buf < length mem.old }
    ensures { length mem.new ≡ length mem.old }
{
    for interval in words.intervals() {
        for pos in interval.first..interval.end {
            number_word(mem, buf, pos);
        }
    }
}

/// Gives a word its number, and one more, where the buffer has it.
fn number_word(mem: &mut NodeMem<'_>, buf: u32, pos: u32)
    requires { buf < length mem.old }
    ensures { length mem.new ≡ length mem.old }
{
    if !mem.holds(buf, pos) {
        return;
    }
    mem.write(buf, pos, u64::from(pos) + 1);
}
