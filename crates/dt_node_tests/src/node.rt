//! A node with the words of three tensors, or all but one of them.

ghost use Rattle.std.specs.Prelude.{◌≡◌, ◌<◌, ◌≤◌, IfOk, length, map};
ghost use Rattle.dt_nest.specs.FitsStored.{FitsStored};
ghost use Rattle.dt_tensor.specs.Packed.{stored_of};

use dt_base::NoMemory;
use dt_mem::{BufSpec, NodeMem};
use dt_model::Locator;
use dt_nest::Sched;
use dt_node::{holds_all, run_next, run_on_node, visits_on_node};
use dt_runs::Runs;
use dt_tensor::Tensors;
use std::alloc::{AllocError, Global};
use std::test::Fail;

/// A word of a buffer.
#[derive(Clone, Copy)]
pub struct Spot {
    pub buf: u32,
    pub word: u32,
}

/// The buffers of the three tensors.
const SLOTS: &[u32] = &[0, 1, 2];

/// What is said of a node that lacks a word.
const LACKS: &str = "a word is missing";

/// All words of a tensor but the one that is lacking.
fn words_of(
    alloc: Global,
    tensors: &Tensors,
    tensor: u32,
    lack: Option<Spot>,
) -> Result<Runs, NoMemory>
    requires { tensor < length tensors.now }
{
    let count = tensors.count(tensor);
    let all = Runs::of_box(alloc, &[count], &[0], &[count])?;
    match lack {
        None => Ok(all),
        Some(spot) => {
            if spot.buf != tensor || spot.word >= count {
                return Ok(all);
            }
            let one = Runs::of_box(alloc, &[count], &[spot.word], &[spot.word + 1])?;
            all.minus(alloc, &one)
        }
    }
}

/// Room for these words.
fn spec_of(words: &Runs) -> BufSpec
    ensures words { result.words ≡ length words.now }
    ensures cost { result.cost ≡ 1 }
{
    BufSpec {
        words: words.count(),
        cost: 1,
    }
}

/// Gives each word of a tensor's buffer the tensor's number.
fn fill(mem: &mut NodeMem<'_>, tensors: &Tensors, tensor: u32)
    requires tensor { tensor < length tensors.now }
    requires buffer { tensor < length mem.old }
    ensures { length mem.new ≡ length mem.old }
{
    let numbers = tensors.get(tensor);
    for pos in 0..numbers.stored() {
        put(mem, tensor, pos, numbers.value(pos));
    }
}

/// Gives a word a number, where the buffer has it.
fn put(mem: &mut NodeMem<'_>, buf: u32, pos: u32, number: u64)
    requires { buf < length mem.old }
    ensures { length mem.new ≡ length mem.old }
{
    if !mem.holds(buf, pos) {
        return;
    }
    mem.write(buf, pos, number);
}

/// Adds the numbers of the first buffer to a text.
fn add_numbers(text: &mut String, alloc: Global, mem: &NodeMem<'_>) -> Result<(), AllocError>
    requires { 0 < length mem.now }
{
    if let Some(words) = mem.words(0) {
        for k in 0..words.count() {
            let pos = words.at(k).unwrap_or(0);
            if mem.holds(0, pos) {
                let number = format!(in alloc; " {}", mem.read(0, pos))?;
                text.push_str(number.as_str())?;
            }
        }
    }
    text.push_str(";")
}

/// The numbers of the left tensor after each visit.
fn each_visit(
    alloc: Global,
    mem: &mut NodeMem<'_>,
    sched: &Sched,
    tensors: &Tensors,
) -> Result<String, Fail>
    requires fits { FitsStored (map stored_of tensors.now) sched.now }
    requires buffers { length mem.old ≡ 3 }
{
    let mut text = String::new(alloc);
    match visits_on_node(alloc, mem, sched, tensors, SLOTS)? {
        None => text.push_str(LACKS)?,
        Some(mut visits) => {
            let mut room = visits.lane_room(alloc)?;
            let values = room.as_mut_slice();
            'visits: while run_next(mem, sched, tensors, &mut visits, SLOTS, values) {
                add_numbers(&mut text, alloc, mem)?;
            }
        }
    }
    Ok(text)
}

/// The numbers of the left tensor after all visits.
fn all_visits(
    alloc: Global,
    mem: &mut NodeMem<'_>,
    sched: &Sched,
    tensors: &Tensors,
) -> Result<String, Fail>
    requires fits { FitsStored (map stored_of tensors.now) sched.now }
    requires buffers { length mem.old ≡ 3 }
{
    let mut text = String::new(alloc);
    if !holds_all(mem, sched, tensors, SLOTS) {
        text.push_str(LACKS)?;
        return Ok(text);
    }
    run_on_node(alloc, mem, sched, tensors, SLOTS)?;
    add_numbers(&mut text, alloc, mem)?;
    Ok(text)
}

/// The numbers of the left tensor on a node that has each tensor in a buffer of its own, all but the word that is lacking:
/// after each visit, or after all of them.
pub fn numbers_on_node(
    alloc: Global,
    sched: &Sched,
    tensors: &Tensors,
    lack: Option<Spot>,
    each: bool,
) -> Result<String, Fail>
    requires { FitsStored (map stored_of tensors.now) sched.now }
{
    if tensors.len() != 3 {
        return Err("not three tensors")?;
    }
    let left = words_of(alloc, tensors, 0, lack)?;
    let first = words_of(alloc, tensors, 1, lack)?;
    let second = words_of(alloc, tensors, 2, lack)?;
    let specs = [spec_of(&left), spec_of(&first), spec_of(&second)];
    let mut mem = NodeMem::new(alloc, &specs)?;
    mem.begin(0, &left);
    mem.begin(1, &first);
    mem.begin(2, &second);
    fill(&mut mem, tensors, 1);
    fill(&mut mem, tensors, 2);
    if each {
        each_visit(alloc, &mut mem, sched, tensors)
    } else {
        all_visits(alloc, &mut mem, sched, tensors)
    }
}
