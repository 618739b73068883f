//! Why an order is refused.

ghost use Rattle.std.specs.Prelude.{◌≡◌, ◌≤◌, ◌+◌, ◌++◌, length};
ghost use Rattle.dt_refusal.specs.OrderCauses.{order_cause_text, unit_fault_text};

use crate::numbers::append_argument;
use dt_base::ShortText;

/// Why the unit that an entry asks for may not run.
#[derive(Clone, Copy, Debug, PartialEq, Eq)]
pub enum UnitFault {
    /// There is no operation with this number.
    Unknown(u32),
    /// The operation waits for others, of which this one is the least.
    Waits(u32),
    /// This operation has no unit left.
    Finished(u32),
}

/// Why an order is refused.
#[derive(Clone, Copy, Debug, PartialEq, Eq)]
pub enum OrderCause {
    /// The entry with this number, from 1, asks for a unit that may not run.
    OrderRefused(u32, UnitFault),
    /// The entries are used up, and this operation is the least that has units left.
    OrderShort(u32),
}

impl OrderCause {
    /// The cause's name and its arguments, each after a blank, as `OrderRefused 5 Waits 5`.
    pub fn text(&self) -> ShortText
        ensures text { result ≡ order_cause_text self.now }
        ensures short { length result ≤ 63 }
    {
        let mut text = ShortText::new();
        match self {
            OrderCause::OrderRefused(entry, fault) => {
                text.append(b"OrderRefused");
                append_argument(&mut text, u64::from(*entry));
                append_fault(&mut text, fault);
            }
            OrderCause::OrderShort(op) => {
                text.append(b"OrderShort");
                append_argument(&mut text, u64::from(*op));
            }
        }
        text
    }
}

fn append_fault(text: &mut ShortText, fault: &UnitFault)
    requires { length text.old ≤ 33 }
    ensures text { text.new ≡ text.old ++ unit_fault_text fault.now }
    ensures short { length text.new ≤ length text.old + 30 }
{
    match fault {
        UnitFault::Unknown(op) => {
            text.append(b" Unknown");
            append_argument(text, u64::from(*op));
        }
        UnitFault::Waits(op) => {
            text.append(b" Waits");
            append_argument(text, u64::from(*op));
        }
        UnitFault::Finished(op) => {
            text.append(b" Finished");
            append_argument(text, u64::from(*op));
        }
    }
}
