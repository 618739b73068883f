//! Order lines: the order that each states, or what it is refused for.

ghost use Rattle.std.specs.Prelude.{◌<◌, length};

use crate::fixtures::said;
use dt_base::{Bytes, NoMemory};
use dt_order::{Entry, Order, parse_order};
use std::alloc::Global;
use std::test::Fail;

/// A row: what stands behind the first word of a line, and the order or the first cause.
const ANSWERS: &str =
    " listing|listing\n seed 7|seed 7\n seed 007|seed 7\n seed 18446744073709551615|seed 18446744073709551615\n steps 0 11-20 1-10 21-80|steps 0-0 11-20 1-10 21-80\n steps 3*2 5 03-04|steps 3*2 5-5 3-4\n steps 4294967295 4294967295*4294967295|steps 4294967295-4294967295 4294967295*4294967295\n|Syntax\n Listing|Syntax\n random|Syntax\n listing 1|Syntax\n seed|Syntax\n seed x|Syntax\n seed -1|Syntax\n seed 1 2|Syntax\n seed 18446744073709551616|BadNumber\n seed 000000000000000000001|BadNumber\n steps|Syntax\n steps x|Syntax\n steps 1-|Syntax\n steps -1|Syntax\n steps *1|Syntax\n steps 1*2*3|Syntax\n steps 1-2-3|Syntax\n steps 1*2-3|Syntax\n steps 1 * 2|Syntax\n steps 18446744073709551616 x|Syntax\n steps 2*0|Syntax\n steps 5-4|Syntax\n steps 5-4 18446744073709551616|BadNumber\n steps 4294967296 2*0|Syntax\n steps 4294967296 5-4|Syntax\n steps 4294967296|BadNumber\n steps 1-4294967296|BadNumber\n steps 1*4294967296|BadNumber";

/// Puts an order at the end as it is written.
fn put_order(out: &mut Bytes, order: &Order) -> Result<(), NoMemory> {
    match order {
        Order::Listing => out.append(b"listing"),
        Order::Seed(seed) => {
            out.append(b"seed ")?;
            out.append_number(*seed)
        }
        Order::Steps(entries) => {
            out.append(b"steps")?;
            for entry in entries.as_slice() {
                put_entry(out, *entry)?;
            }
            Ok(())
        }
    }
}

fn put_entry(out: &mut Bytes, entry: Entry) -> Result<(), NoMemory> {
    let (first, between, second): (u32, &[u8], u32) = match entry {
        Entry::Count(op, count) => (op, b"*", count),
        Entry::Range(first, last) => (first, b"-", last),
    };
    out.append(b" ")?;
    out.append_number(first)?;
    out.append(between)?;
    out.append_number(second)
}

/// The order of a line, or its first cause.
fn answer(alloc: Global, text: &[u8]) -> Result<Bytes, NoMemory>
    requires { length text.now < 100 }
{
    let mut out = Bytes::new(alloc);
    match parse_order(alloc, text) {
        Ok(order) => put_order(&mut out, &order)?,
        Err(end) => out.append(said(Some(end)).as_slice())?,
    }
    Ok(out)
}

#[test]
fn a_line_states_its_order_or_its_first_cause(rt: HostRuntime) -> Result<(), Fail> {
    for row in ANSWERS.lines() {
        let mut parts = row.split('|');
        let text = parts.next().unwrap_or("");
        let wanted = parts.next().unwrap_or("");
        assert!(rt; text.len() < 100);
        let answer = answer(rt.alloc(), text.as_bytes())?;
        assert_eq!(rt; answer.as_slice(), wanted.as_bytes(), "at {row}");
    }
    Ok(())
}
