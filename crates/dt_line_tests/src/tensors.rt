//! Entries packed by levels, with answers by hand: what is stored, what is wrong with entries, and where the words lie.

ghost use Rattle.std.specs.Prelude.{◌<◌, length};

use dt_base::{Bytes, Coords};
use dt_model::{Locator, Shape};
use dt_tensor::{Entries, Given, PackEnd, Tensor, Tensors, pack};
use std::alloc::Global;
use std::test::Fail;

/// A row has extents, mixes of levels (`d` dense, `c` compressed), entries, and what is stored with each of the mixes.
const PACKED: &str = "|-||=0
|-|=5|=5
|-|=5 =6|Repeated 2
3|d|2=7|0=0 1=0 2=7
3|c||
3|c|1=0|1=0
3|c|2=7 0=5|0=5 2=7
4x4|dc cc|0,1=2 0,3=1 2,0=3 3,3=4|0,1=2 0,3=1 2,0=3 3,3=4
2x2|dd|1,0=3|0,0=0 0,1=0 1,0=3 1,1=0
4x4|cd|0,1=2 3,3=4|0,0=0 0,1=2 0,2=0 0,3=0 3,0=0 3,1=0 3,2=0 3,3=4
2x2x2|ddc dcc cdc ccc|1,1,0=7 0,1,0=5|0,1,0=5 1,1,0=7
2x2x2|dcd ccd|1,1,0=7 0,1,0=5|0,1,0=5 0,1,1=0 1,1,0=7 1,1,1=0
2x2x1|cdd|1,0,0=7|1,0,0=7 1,1,0=0
2x1x2|ddd|1,0,1=7|0,0,0=0 0,0,1=0 1,0,0=0 1,0,1=7
3x2x2x2|dddc ddcc dcdc dccc cddc cdcc ccdc cccc|2,1,1,0=7 0,1,0,1=5|0,1,0,1=5 2,1,1,0=7
3x2x2x2|ddcd dccd cdcd cccd|2,1,1,0=7 0,1,0,1=5|0,1,0,0=0 0,1,0,1=5 2,1,1,0=7 2,1,1,1=0
3x2x2x2|dcdd ccdd|2,1,1,0=7 0,1,0,1=5|0,1,0,0=0 0,1,0,1=5 0,1,1,0=0 0,1,1,1=0 2,1,0,0=0 2,1,0,1=0 2,1,1,0=7 2,1,1,1=0
2x1x1x3|cddd|1,0,0,2=7|1,0,0,0=0 1,0,0,1=0 1,0,0,2=7
2x1x1x3|dddd|1,0,0,2=7|0,0,0,0=0 0,0,0,1=0 0,0,0,2=0 1,0,0,0=0 1,0,0,1=0 1,0,0,2=7
4096x4096|dc cc cd||
4096x4096|dd||TooManyStored
4096x4096x1|ddc dcc|4095,4095,0=3 7,9,0=2 0,1,0=1|0,1,0=1 7,9,0=2 4095,4095,0=3
256x4096|dd||1048576 stored
257x4096|dd||TooManyStored
257x4096|cd|256,7=1 0,0=1|8192 stored
4096x4096|dd dc|9,4096=1 0,0=1 0,0=1|OutOfShape 1
2x3|dc|0,1=5 2,0=1 0,1=5|OutOfShape 2
2x3|dc cc|4294967295,0=1|OutOfShape 1
2x3|cc|0=1|OutOfShape 1
4x4|dc dd|3,3=4 0,1=2 3,3=9 0,1=5 9,9=1|Repeated 3";

#[test]
fn levels_say_what_is_stored(rt: HostRuntime) -> Result<(), Fail> {
    for row in PACKED.lines() {
        let mut cells = row.split('|');
        let extents = numbers(rt.alloc(), cells.next().unwrap_or(""), 'x')?;
        let mixes = cells.next().unwrap_or("");
        let entries = entries(rt.alloc(), cells.next().unwrap_or(""))?;
        let wanted = cells.next().unwrap_or("no cell");
        for mix in mixes.split(' ') {
            let said = match packed(rt.alloc(), extents.as_slice(), mix, &entries)? {
                Ok(tensor) => stored(rt.alloc(), &tensor)?,
                Err(end) => named(rt.alloc(), end)?,
            };
            assert_eq!(rt; said.as_slice(), wanted.as_bytes(), "{mix} of {row}");
        }
    }
    Ok(())
}

/// The matrix `0 2 0 1`, `0 0 0 0`, `3 0 0 0`, `0 0 0 4`: its rows are dense, its columns compressed. A row has a call
/// on it and the answer.
const CALLS: &str = "place 0,1|0
place 0,3|1
place 3,3|3
place 1,1|-
place 0,4|-
place 0|-
prefix -|yes
prefix 1|yes
prefix 4|no
prefix 2,0|yes
prefix 2,1|no
next - 3|3
next - 4|-
next 0 0|1
next 0 2|3
next 1 0|-
next 3 4|-
next 4 0|-
coords 2|2,0
count|4
cost|2
whole|0,2,0,1,0,0,0,0,3,0,0,0,0,0,0,4";

#[test]
fn words_lie_where_they_are_stored(rt: HostRuntime) -> Result<(), Fail> {
    let entries = entries(rt.alloc(), "0,1=2 0,3=1 2,0=3 3,3=4")?;
    let tensor = packed(rt.alloc(), &[4, 4], "dc", &entries)?.map_err(|_| "not packed")?;
    let tensors = Tensors::from_list(vec![in rt.alloc(); tensor]?);
    assert!(rt; tensors.len() == 1);
    for row in CALLS.lines() {
        let (call, wanted) = row.split_once('|').unwrap_or((row, "no cell"));
        let said = answer(rt.alloc(), &tensors, call)?;
        assert_eq!(rt; said.as_slice(), wanted.as_bytes(), "at {row}");
    }
    Ok(())
}

/// What a call on the first tensor answers.
fn answer(alloc: Global, tensors: &Tensors, call: &str) -> Result<Bytes, Fail>
    requires { 0 < length tensors.now }
{
    let mut words = call.split(' ');
    let word = words.next().unwrap_or("");
    let list = numbers(alloc, words.next().unwrap_or(""), ',')?;
    let list = list.as_slice();
    let from = number(words.next().unwrap_or("0"))?;
    match word {
        "place" => option_text(alloc, tensors.place(0, list)),
        "prefix" => {
            let is_stored = tensors.has_prefix(0, list);
            Ok(Bytes::from_slice(alloc, if is_stored { b"yes" } else { b"no" })?)
        }
        "next" if list.len() < tensors.shape(0).dims().len() => {
            option_text(alloc, tensors.next_child(0, list, from))
        }
        "coords" => match list {
            [pos] if *pos < tensors.count(0) => {
                joined(alloc, tensors.coords(0, *pos).as_slice())
            }
            _ => Err("no position")?,
        },
        "count" => option_text(alloc, Some(tensors.count(0))),
        "cost" => option_text(alloc, Some(tensors.cost(0))),
        "whole" => {
            let whole = tensors.get(0).to_whole(alloc)?;
            let mut text = Bytes::new(alloc);
            text.append_joined(whole.values(), b',')?;
            Ok(text)
        }
        _ => Err("no call")?,
    }
}

/// A number, and `-` for none.
fn option_text(alloc: Global, number: Option<u32>) -> Result<Bytes, Fail> {
    match number {
        None => Ok(Bytes::from_slice(alloc, b"-")?),
        Some(number) => joined(alloc, &[number]),
    }
}

/// The numbers with commas between.
fn joined(alloc: Global, numbers: &[u32]) -> Result<Bytes, Fail> {
    let mut text = Bytes::new(alloc);
    text.append_joined(numbers, b',')?;
    Ok(text)
}

fn number(text: &str) -> Result<u32, Fail> {
    Ok(text.parse::<u32>().map_err(|_| "no number")?)
}

/// The numbers of a text, and none of `-` or of nothing.
fn numbers(alloc: Global, text: &str, between: char) -> Result<Vec<u32>, Fail> {
    let mut numbers = Vec::new(alloc);
    for part in text.split(between) {
        if part != "" && part != "-" {
            numbers.push(number(part)?)?;
        }
    }
    Ok(numbers)
}

/// Entries as `0,1=2 0,3=1`.
fn entries(alloc: Global, text: &str) -> Result<Entries, Fail> {
    let mut entries = Entries::new(alloc);
    for word in text.split(' ') {
        let Some((at, value)) = word.split_once('=') else {
            continue;
        };
        let at = numbers(alloc, at, ',')?;
        if at.len() > 4 {
            return Err("many coordinates")?;
        }
        entries.push(Given {
            at: Coords::of_few(alloc, at.as_slice()),
            value: u64::from(number(value)?),
        })?;
    }
    Ok(entries)
}

/// The entries packed into a tensor of these extents and levels.
fn packed(
    alloc: Global,
    extents: &[u32],
    mix: &str,
    entries: &Entries,
) -> Result<Result<Tensor, PackEnd>, Fail> {
    let shape = Shape::from_extents(extents).ok_or("no shape")?;
    let mut compressed = [false; 4];
    for (i, letter) in mix.bytes().enumerate() {
        if i < 4 {
            compressed[i] = letter == b'c';
        }
    }
    if entries.as_slice().len() > 100 {
        return Err("many entries")?;
    }
    Ok(pack(alloc, shape, compressed, entries))
}

/// The stored coordinates with their numbers, or how many there are if that is more than thirty.
fn stored(alloc: Global, tensor: &Tensor) -> Result<Bytes, Fail> {
    let mut text = Bytes::new(alloc);
    if tensor.stored() > 30 {
        text.append_number(tensor.stored())?;
        text.append(b" stored")?;
        return Ok(text);
    }
    for pos in 0..tensor.stored() {
        if pos > 0 {
            text.append(b" ")?;
        }
        for level in 0..4u8 {
            if (level as usize) < tensor.shape().dims().len() {
                if level > 0 {
                    text.append(b",")?;
                }
                text.append_number(tensor.coord(pos, level))?;
            }
        }
        text.append(b"=")?;
        text.append_number(tensor.value(pos))?;
    }
    Ok(text)
}

fn named(alloc: Global, end: PackEnd) -> Result<Bytes, Fail> {
    let mut text = Bytes::new(alloc);
    match end {
        PackEnd::OutOfShape(entry) => {
            text.append(b"OutOfShape ")?;
            text.append_number(entry)?;
        }
        PackEnd::Repeated(entry) => {
            text.append(b"Repeated ")?;
            text.append_number(entry)?;
        }
        PackEnd::TooManyStored => text.append(b"TooManyStored")?,
        PackEnd::NoMemory => return Err("no memory")?,
    }
    Ok(text)
}
