//! What orders ask for, unit after unit, over the product's plan on one node.

ghost use Rattle.std.specs.Prelude.{◌≡◌, ◌<◌, length, true};
ghost use Rattle.dt_cursor.specs.Asked.{AreFew};

use dt_base::{Bytes, NoMemory};
use dt_cursor::{Cursor, Next};
use dt_order::{Order, parse_order};
use dt_tracker::{Step, Tracker};
use std::alloc::Global;
use std::test::Fail;

/// Zero, three allocs, two copies of 4 units, the task of 8, the fold of 4, three frees.
const UNITS: [u32; 11] = [1, 1, 1, 1, 4, 4, 8, 4, 1, 1, 1];

const EVENTS: [(u32, u32); 10] = [
    (0, 7),
    (1, 6),
    (2, 4),
    (3, 5),
    (4, 6),
    (5, 6),
    (6, 7),
    (6, 9),
    (6, 10),
    (7, 8),
];

/// A row: what stands behind the first word of an order line, and the operations of the units that it asks for, with what comes
/// behind the last unit.
const ANSWERS: &str = "\
 listing|0 1 2 3 4 4 4 4 5 5 5 5 6 6 6 6 6 6 6 6 7 7 7 7 8 9 10 End
 steps 0-10|0 1 2 3 4 4 4 4 5 5 5 5 6 6 6 6 6 6 6 6 7 7 7 7 8 9 10 End
 steps 3 2 1 5*3 4-5 6-7 0|3 2 1 5 5 5 4 4 4 4 5 6 6 6 6 6 6 6 6 Refused(6, Waits(0))
 steps 0 1 2 3|0 1 2 3 Short(4)
 steps 2 4*5|2 4 4 4 4 Refused(2, Finished)
 steps 0*2|0 Refused(1, Finished)
 steps 0 0-1|0 Refused(2, Finished)
 steps 3*2 1|3 Refused(1, Finished)
 steps 6|Refused(1, Waits(1))
 steps 7|Refused(1, Waits(0))
 steps 11|Refused(1, Unknown)
 steps 4294967295|Refused(1, Unknown)
 seed 7|2 4 1 4 3 5 4 0 5 4 5 5 6 6 6 6 6 6 6 6 9 10 7 7 7 7 8 End
 seed 0|3 0 2 4 5 5 5 5 1 4 4 4 6 6 6 6 6 6 6 6 9 10 7 7 7 7 8 End";

/// The units that an order asks for, each of which is done, and the first answer that is no unit, if it comes twice.
fn answers(alloc: Global, order: &Order) -> Result<Bytes, NoMemory>
    requires { AreFew order.now }
{
    let mut out = Bytes::new(alloc);
    let mut tracker = Tracker::new(alloc, &UNITS, &EVENTS)?;
    let mut cursor = Cursor::new(order);
    for _call in 0..28 {
        let next = cursor.next(&tracker);
        if let Next::Unit(op) = next {
            out.append_number(op)?;
            out.append(b" ")?;
            tracker.take(op);
        } else {
            let again = cursor.next(&tracker);
            if next == again {
                let said = format!(in alloc; "{:?}", next)?;
                out.append(said.as_bytes())?;
            }
            break;
        }
    }
    Ok(out)
}

/// Whether an order has fewer than a hundred entries.
fn is_short(order: &Order) -> bool
    ensures { result ≡ true → AreFew order.now }
{
    match order {
        Order::Listing => true,
        Order::Seed(_) => true,
        Order::Steps(entries) => entries.as_slice().len() < 100,
    }
}

#[test]
fn an_order_asks_for_units_until_one_may_not_be_done(rt: HostRuntime) -> Result<(), Fail> {
    for row in ANSWERS.lines() {
        let mut parts = row.split('|');
        let text = parts.next().unwrap_or("");
        let wanted = parts.next().unwrap_or("");
        assert!(rt; text.len() < 100);
        let order = parse_order(rt.alloc(), text.as_bytes())
            .ok()
            .ok_or("no order")?;
        assert!(rt; is_short(&order));
        let answers = answers(rt.alloc(), &order)?;
        assert_eq!(rt; answers.as_slice(), wanted.as_bytes(), "at {row}");
    }
    Ok(())
}
