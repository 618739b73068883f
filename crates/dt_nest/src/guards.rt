//! The tests of a nest's visits, from the values of variables.

ghost use Rattle.std.specs.Prelude.{◌≡◌, ◌+◌, ◌≤◌, Some, nat_eq, length, slice_index};
ghost use Rattle.std.specs.List.{list_all};
ghost use Rattle.dt_nest.specs.Schedule.{seen};
ghost use Rattle.dt_nest.specs.Meaning.{renamed, take_through};
ghost use Rattle.dt_nest.specs.World.{world_of};
ghost use Rattle.dt_nest.specs.Naming.{pairs_in};
ghost use Rattle.dt_nest.specs.ValueTables.{named};
ghost use Rattle.dt_nest.specs.Values.{all_inside, is_below, takes_inside};
ghost use Rattle.dt_nest.specs.Prefix.{Filled};

use crate::derived_values::number_at;
use crate::loops::Walk;
use crate::naming::{Naming, Renaming};
use crate::parts::SchedParts;
use crate::value_tables::Table;
use dt_model::Locator;

/// Puts the values of the variables of a walked access up to its loop into an array, from a place on. The answer is the
/// place behind them, and none where a variable is outside.
fn prefix(
    vars: &[u32],
    var: u32,
    known: &Table<Naming>,
    at: usize,
    coords: &mut [u32],
) -> Option<usize>
    requires room { at + length vars.now ≤ length coords.old }
    ensures { Filled (all_inside (named known.now.values.now (renamed (pairs_in known.now.names.now))) (take_through (λ u. nat_eq (renamed (pairs_in known.now.names.now) u) var) vars.now)) at coords.old coords.new result }
{
    match vars.split_first() {
        None => Some(at),
        Some((u, rest)) => match known.value_at(*u) {
            None => None,
            Some(x) => {
                coords[at] = x;
                if known.names.name(*u) == var {
                    return Some(at + 1);
                }
                prefix(rest, var, known, at + 1, coords)
            }
        },
    }
}

/// Whether a walked loop takes its value.
pub fn takes_stored<L: Locator>(
    walk: &Walk,
    var: u32,
    parts: &SchedParts,
    loc: &L,
    known: &Table<Naming>,
) -> bool
    requires { length (L.tensors loc.now) ≡ length parts.now.tensors }
    ensures { result ≡ takes_inside (world_of (L.tensors loc.now) (seen parts.now)) (Some walk.now) var (renamed (pairs_in known.now.names.now)) (named known.now.values.now (renamed (pairs_in known.now.names.now))) }
{
    let vars = walk.vars.as_slice();
    if walk.tensor as usize >= parts.tensors.as_slice().len() || vars.len() > 4 {
        return false;
    }
    let mut coords = [0u32; 4];
    match prefix(vars, var, known, 0, &mut coords) {
        None => false,
        Some(count) => loc.has_prefix(walk.tensor, &coords[..count]),
    }
}

/// Whether there is a number below a bound.
fn is_below(bound: u32, value: Option<u32>) -> bool
    ensures { result ≡ is_below bound value }
{
    match value {
        None => false,
        Some(x) => x < bound,
    }
}

/// Whether guards are below their extents, and no variable on the way to them outside.
pub fn hold<N: Renaming>(guards: &[u32], extents: &[u32], known: &Table<N>) -> bool
    ensures { result ≡ list_all (λ g. is_below (slice_index extents.now g) (named known.now.values.now (N.names known.now.names.now) g)) guards.now }
{
    for guard in guards {
        if !is_below(number_at(extents, *guard), known.value_at(*guard)) {
            return false;
        }
    }
    true
}
