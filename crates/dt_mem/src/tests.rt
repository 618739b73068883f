//! A home and a scratch, worked by hand.

ghost use Rattle.std.specs.Prelude.{◌≡◌, length};

use crate::{BufSpec, NodeMem};
use dt_base::NoMemory;
use dt_runs::Runs;
use std::alloc::{AllocError, Global};
use std::test::Fail;

/// Adds the words of a buffer with their values, and `-` where it is absent.
fn add_buffer(
    text: &mut String,
    alloc: Global,
    mem: &NodeMem<'_>,
    buf: u32,
) -> Result<(), AllocError>
    requires { length mem.now ≡ 2 }
{
    if buf >= 2 {
        return Ok(());
    }
    match mem.words(buf) {
        None => text.push_str("-")?,
        Some(words) => {
            for k in 0..words.count() {
                let pos = words.at(k).unwrap_or(0);
                if mem.holds(buf, pos) {
                    let word = format!(in alloc; "{pos}={} ", mem.read(buf, pos))?;
                    text.push_str(word.as_str())?;
                }
            }
        }
    }
    text.push_str("|")
}

/// Adds what a memory of two buffers has: the words of each, what is live, and the sum of the values.
fn add_line(text: &mut String, alloc: Global, mem: &NodeMem<'_>) -> Result<(), AllocError>
    requires { length mem.now ≡ 2 }
{
    add_buffer(text, alloc, mem, 0)?;
    add_buffer(text, alloc, mem, 1)?;
    let totals = format!(in alloc; "{} {};", mem.live(), mem.sum())?;
    text.push_str(totals.as_str())
}

#[test]
fn a_scratch_is_added_to_a_home(rt: HostRuntime) -> Result<(), Fail> {
    let alloc = rt.alloc();
    let home = Runs::from_sorted(alloc, &[0, 1, 5, 6])?;
    let need = Runs::from_sorted(alloc, &[1, 5])?;
    let specs = [BufSpec { words: 4, cost: 1 }, BufSpec { words: 3, cost: 2 }];
    let mut mem = NodeMem::new(alloc, &specs)?;
    let mut text = String::new(alloc);
    mem.begin(0, &home);
    mem.write(0, 5, 7);
    add_line(&mut text, alloc, &mem)?;
    mem.begin(1, &need);
    mem.write(1, 5, u64::MAX);
    add_line(&mut text, alloc, &mem)?;
    mem.fold(0, 5, u64::MAX);
    add_line(&mut text, alloc, &mem)?;
    mem.end(1);
    add_line(&mut text, alloc, &mem)?;
    assert_eq!(rt;
        text.as_str(),
        "0=0 1=0 5=7 6=0 |-|4 7;\
0=0 1=0 5=7 6=0 |1=0 5=18446744073709551615 |8 6;\
0=0 1=0 5=6 6=0 |1=0 5=18446744073709551615 |8 5;\
0=0 1=0 5=6 6=0 |-|4 6;"
    );
    Ok(())
}

#[test]
fn buffers_are_absent_empty_or_begin_again(rt: HostRuntime) -> Result<(), Fail> {
    let alloc = rt.alloc();
    let none = Runs::from_sorted(alloc, &[])?;
    let first = Runs::from_sorted(alloc, &[2, 3])?;
    let second = Runs::from_sorted(alloc, &[3])?;
    let specs = [BufSpec { words: 0, cost: 9 }, BufSpec { words: 3, cost: 2 }];
    let mut mem = NodeMem::new(alloc, &specs)?;
    let mut text = String::new(alloc);
    add_line(&mut text, alloc, &mem)?;
    mem.begin(0, &none);
    mem.begin(1, &first);
    mem.write(1, 3, 8);
    add_line(&mut text, alloc, &mem)?;
    mem.end(1);
    mem.begin(1, &second);
    add_line(&mut text, alloc, &mem)?;
    mem.end(0);
    add_line(&mut text, alloc, &mem)?;
    assert_eq!(rt;
        text.as_str(),
        "-|-|0 0;|2=0 3=8 |4 8;|3=0 |2 0;-|3=0 |2 0;"
    );
    Ok(())
}
