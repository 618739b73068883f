//! Where a run over visits is: the slots of loops and the values of variables, by their names.

ghost use Rattle.std.specs.Prelude.{◌≡◌, IfOk, length, replicate};

use dt_base::NoMemory;
use std::alloc::Global;

/// For each name the slot of its loop, with 0 where that is not entered, and the value of its variable, where it was made.
#[derive(Drop)]
pub struct Cursor {
    pub slots: Vec<u32>,
    pub values: Vec<Option<u32>>,
}

impl Cursor {
    /// No loop is entered, and no value was made.
    pub fn of(alloc: Global, names: usize) -> Result<Cursor, NoMemory>
        ensures slots { IfOk result (λ cursor. cursor.slots.items ≡ replicate names 0) }
        ensures values { IfOk result (λ cursor. length cursor.values.items ≡ names) }
    {
        let slots = vec![in alloc; 0u32; names]?;
        let values = no_values(alloc, names)?;
        Ok(Cursor { slots, values })
    }
}

/// So many values, each none.
pub fn no_values(alloc: Global, count: usize) -> Result<Vec<Option<u32>>, NoMemory>
    ensures { IfOk result (λ values. length values.items ≡ count) }
{
    let values = vec![in alloc; None; count]?;
    Ok(values)
}
