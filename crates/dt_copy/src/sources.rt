//! The pieces of a need, by sources and by homes.

ghost use Rattle.std.specs.Prelude.{◌≡◌, ◌<◌, ◌^◌, ◌++◌, length, IfOk, OnOk, OnErr, if◌then◌else◌};
ghost use Rattle.dt_copy.specs.Sources.{piece_of, pieces_of, shares_of, EachWordOnce};

use crate::piece_list::{Piece, Pieces};
use dt_base::NoMemory;
use dt_runs::Runs;
use std::alloc::Global;

/// The pieces in which a node gets the words that it needs, by the number of the node that each comes from. A word
/// comes from the node itself where its home has it, else from the least node whose home has it.
pub fn pieces(alloc: Global, need: &Runs, homes: &[Runs], node: u32) -> Result<Pieces, NoMemory>
    requires few { length homes.now < 2 ^ 32 }
    requires node { node < length homes.now }
    ensures sources { IfOk result (λ pieces. pieces ≡ pieces_of need.now homes.now node) }
    ensures once { IfOk result (λ pieces. EachWordOnce need.now homes.now pieces) }
{
    let own = &homes[node as usize];
    let mut rest = need.minus(alloc, own)?;
    let mut items = Vec::new(alloc);
    for m in 0..homes.len() {
        let home = &homes[m];
        let from = left_for(m == node as usize, need, &rest);
        push(&mut items, m as u32, from.meet(alloc, home)?)?;
        rest = rest.minus(alloc, home)?;
    }
    Ok(Pieces { items })
}

/// The pieces that a set of words has in common with the homes, by their nodes.
pub fn shares(alloc: Global, need: &Runs, homes: &[Runs]) -> Result<Pieces, NoMemory>
    requires few { length homes.now < 2 ^ 32 }
    ensures { IfOk result (λ pieces. pieces ≡ shares_of need.now homes.now) }
{
    let mut items = Vec::new(alloc);
    for m in 0..homes.len() {
        push(&mut items, m as u32, need.meet(alloc, &homes[m])?)?;
    }
    Ok(Pieces { items })
}

/// The words among which a home is searched: all that are needed for the node's own, else those that are left.
fn left_for<'a>(is_own: bool, need: &'a Runs, rest: &'a Runs) -> &'a Runs
    ensures { result.now ≡ (if is_own then need.now else rest.now) }
{
    if is_own { need } else { rest }
}

/// Puts the piece of these words at the end, if there are any.
fn push(items: &mut Vec<Piece>, node: u32, words: Runs) -> Result<(), NoMemory>
    ensures ok { OnOk result (items.new.items ≡ items.old.items ++ piece_of node words) }
    ensures err { OnErr result (items.new.items ≡ items.old.items) }
{
    if words.count() > 0 {
        items.push(Piece { node, words })?;
    }
    Ok(())
}
