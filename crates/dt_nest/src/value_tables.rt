//! The values of all variables at a place, in one list.

ghost use Rattle.std.specs.Prelude.{◌≡◌, ◌<◌, ◌%◌, ℕ, List, Some, length, option_map, slice_index, slice_set};
ghost use Rattle.dt_nest.specs.Schedule.{seen};
ghost use Rattle.dt_nest.specs.World.{world_of};
ghost use Rattle.dt_nest.specs.Lawful.{AreNamed, IsBounded};
ghost use Rattle.dt_nest.specs.Values.{derived_inside, sum_inside};
ghost use Rattle.dt_nest.specs.Cursor.{HasRoom};
ghost use Rattle.dt_nest.specs.ValueTables.{IsTable, named, refilled, tabled};

use crate::conditions::Conditions;
use crate::cursor::Cursor;
use crate::derivations::{Derive, Derived};
use crate::derived_values::{coordinate, quotient, rest_of, split_value};
use crate::naming::{Renaming, Unrenamed};
use crate::parts::SchedParts;
use dt_model::Locator;

/// The value under a name, and 0 past the last.
pub fn tabled(values: &[Option<u32>], name: u32) -> Option<u32>
    ensures { result ≡ tabled values.now name }
{
    let at = name as usize;
    if at < values.len() {
        values[at]
    } else {
        Some(0)
    }
}

/// The values of variables, by their names at a place.
#[derive(Drop)]
pub struct Table<'a, N: Renaming> {
    pub names: &'a N,
    pub values: &'a [Option<u32>],
}

impl<N: Renaming> Table<'_, N> {
    /// The value of a variable, and none where a variable of a split on the way to it is not below its extent.
    pub fn value_at(&self, u: u32) -> Option<u32>
        ensures { result ≡ named self.now.values.now (N.names self.now.names.now) u }
    {
        tabled(self.values, self.names.name_of(u))
    }
}

/// The value that a derivation gives, from the values of what it names.
#[tactic(auto, using(crate::proofs::Rotated::sums))]
fn derived_from<L: Locator, N: Renaming>(
    how: &Derive,
    v: u32,
    parts: &SchedParts,
    loc: &L,
    known: &Table<N>,
) -> Option<u32>
    requires bounded { IsBounded (seen parts.now) v how.now }
    requires tensors { length (L.tensors loc.now) ≡ length parts.now.tensors }
    ensures { result ≡ derived_inside (world_of (L.tensors loc.now) (seen parts.now)) v how.now (named known.now.values.now (N.names known.now.names.now)) }
{
    match how {
        Derive::Split {
            outer,
            inner,
            factor,
        } => {
            let x = known.value_at(*outer)?;
            let y = known.value_at(*inner)?;
            split_value(parts, v, x, y, *factor)
        }
        Derive::Quotient { fused, by } => {
            let x = known.value_at(*fused)?;
            Some(quotient(x, *by))
        }
        Derive::Rest { fused, by } => {
            let x = known.value_at(*fused)?;
            Some(rest_of(x, *by))
        }
        Derive::Rotate { base, by, extent } => {
            let x = known.value_at(*base)?;
            rotated_from(x, by.as_slice(), (*extent).max(1), known)
        }
        Derive::Pos {
            tensor,
            level,
            base,
        } => {
            let x = known.value_at(*base)?;
            Some(coordinate(loc, *tensor, *level, x))
        }
    }
}

/// The sum of a number and the values of loops modulo an extent.
fn rotated_from<N: Renaming>(start: u32, by: &[u32], extent: u32, known: &Table<N>) -> Option<u32>
    requires { 0 < extent }
    ensures { result ≡ option_map (λ x. x % extent) (sum_inside (named known.now.values.now (N.names known.now.names.now)) (Some start) by.now) }
{
    let mut sum = start % extent;
    for u in by {
        match known.value_at(*u) {
            None => return None,
            Some(x) => sum = ((u64::from(sum) + u64::from(x)) % u64::from(extent)) as u32,
        }
    }
    Some(sum)
}

/// Gives each name of a table the number in its slot.
fn fill_slots(slots: &[u32], values: &mut [Option<u32>])
    requires { length values.old ≡ length slots.now }
    ensures values { (u : ℕ) → tabled values.new u ≡ Some (slice_index slots.now u) }
    ensures length { length values.new ≡ length values.old }
{
    for u in 0..values.len() {
        values[u] = Some(slots[u]);
    }
}

/// Gives the derived variables of a table their values, where it has the numbers in some slots. The last derivation is the
/// first to be done: what a derivation names is replaced by a later one.
fn fill_derived<L: Locator, N: Renaming>(
    derived: &[Derived],
    parts: &SchedParts,
    loc: &L,
    names: &N,
    values: &mut [Option<u32>],
)
    requires named { AreNamed (seen parts.now) derived.now }
    requires tensors { length (L.tensors loc.now) ≡ length parts.now.tensors }
    requires room { length values.old ≡ length parts.now.names }
    ensures table { (slots : List ℕ) → ((u : ℕ) → tabled values.old u ≡ Some (slice_index slots u)) → IsTable (world_of (L.tensors loc.now) (seen parts.now)) derived.now (N.names names.now) slots values.new }
    ensures length { length values.new ≡ length values.old }
{
    let mut k = derived.len();
    while k > 0 {
        k -= 1;
        let d = &derived[k];
        let at = d.var as usize;
        let known = Table { names, values };
        let value = derived_from(&d.how, d.var, parts, loc, &known);
        values[at] = value;
    }
}

/// Makes the values of some derived variables, one after another.
pub fn refill<L: Locator>(
    derived: &[Derived],
    parts: &SchedParts,
    loc: &L,
    values: &mut [Option<u32>],
)
    requires named { AreNamed (seen parts.now) derived.now }
    requires tensors { length (L.tensors loc.now) ≡ length parts.now.tensors }
    requires room { length values.old ≡ length parts.now.names }
    ensures values { values.new ≡ refilled (world_of (L.tensors loc.now) (seen parts.now)) derived.now values.old }
    ensures length { length values.new ≡ length values.old }
{
    for d in derived {
        let names = &Unrenamed;
        let value = derived_from(&d.how, d.var, parts, loc, &Table { names, values });
        values[d.var as usize] = value;
    }
}

/// Makes the values of all variables where a cursor is.
pub fn tabulate_cursor<L: Locator, N: Renaming>(
    conditions: &Conditions<L>,
    names: &N,
    cursor: &mut Cursor,
)
    requires named { AreNamed (seen conditions.now.parts.now) conditions.now.parts.now.derived }
    requires tensors { length (L.tensors conditions.now.loc.now) ≡ length conditions.now.parts.now.tensors }
    requires size { HasRoom cursor.old (length conditions.now.parts.now.names) }
    ensures table { IsTable (world_of (L.tensors conditions.now.loc.now) (seen conditions.now.parts.now)) conditions.now.parts.now.derived (N.names names.now) cursor.old.slots.items cursor.new.values.items }
    ensures slots { cursor.new.slots.items ≡ cursor.old.slots.items }
    ensures size { HasRoom cursor.new (length conditions.now.parts.now.names) }
{
    let parts = conditions.parts;
    let values = cursor.values.as_mut_slice();
    fill_slots(cursor.slots.as_slice(), values);
    fill_derived(
        parts.derived.as_slice(),
        parts,
        conditions.loc,
        names,
        values,
    );
}

/// A substituted loop with one of its values.
#[derive(Clone, Copy, Debug)]
pub struct Lane {
    pub var: u32,
    pub value: u32,
}

/// Makes the values of all variables, from the slots and one value of a substituted loop.
pub fn tabulate_lane<L: Locator, N: Renaming>(
    conditions: &Conditions<L>,
    names: &N,
    slots: &[u32],
    lane: Lane,
    values: &mut [Option<u32>],
)
    requires named { AreNamed (seen conditions.now.parts.now) conditions.now.parts.now.derived }
    requires tensors { length (L.tensors conditions.now.loc.now) ≡ length conditions.now.parts.now.tensors }
    requires room { length slots.now ≡ length conditions.now.parts.now.names }
    requires lane { lane.var < length slots.now }
    requires values { length values.old ≡ length conditions.now.parts.now.names }
    ensures table { IsTable (world_of (L.tensors conditions.now.loc.now) (seen conditions.now.parts.now)) conditions.now.parts.now.derived (N.names names.now) (slice_set slots.now lane.var lane.value) values.new }
    ensures values { length values.new ≡ length values.old }
{
    let parts = conditions.parts;
    fill_slots(slots, values);
    values[lane.var as usize] = Some(lane.value);
    fill_derived(
        parts.derived.as_slice(),
        parts,
        conditions.loc,
        names,
        values,
    );
}
