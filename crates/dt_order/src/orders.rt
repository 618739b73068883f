//! Orders and their entries.

use std::marker::Model;

/// What one entry asks for: so many units of one operation, or one unit of each operation of a range.
#[derive(Clone, Copy, Debug, PartialEq, Eq)]
pub enum Entry {
    /// An operation, and how many of its units: `K*C`.
    Count(u32, u32),
    /// The first and the last operation: `A-B`, or `K` for one alone.
    Range(u32, u32),
}

/// Entries, in the order of the line.
#[derive(Debug, Drop)]
pub struct EntryList {
    pub items: Vec<Entry>,
}

impl Model for EntryList {
    ghost use Rattle.std.specs.Prelude.{List};
    ghost use Rattle.dt_order.specs.declared.orders.Entry.{Entry};

    ghost Value = { List Entry };

    ghost view = { λ l. l.items.items };
}

impl EntryList {
    ghost use Rattle.std.specs.Prelude.{◌≡◌};

    pub fn as_slice(&self) -> &[Entry]
        ensures { result.now ≡ self.now }
    {
        self.items.as_slice()
    }
}

/// The order in which the units of a plan run.
#[derive(Debug, Drop)]
pub enum Order {
    /// Operation after operation, as they are listed.
    Listing,
    /// Each unit is of an operation that may go on, drawn by numbers from this seed.
    Seed(u64),
    /// Units as the entries ask for them.
    Steps(EntryList),
}
