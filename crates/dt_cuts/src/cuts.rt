//! Cuts: consecutive loops of a nest go, and others come in their place.

ghost use Rattle.std.specs.Prelude.{◌≡◌, ◌<◌, ◌+◌, ◌^◌, ◌++◌, IfOk, IfErr, OnOk, OnErr, length, take};
ghost use Rattle.dt_nest.specs.Schedule.{seen};
ghost use Rattle.dt_cuts.specs.Cutting.{cut_by};

use crate::in_place::cut_nest;
use dt_base::{Extents, Names, NoMemory, Vars};
use dt_nest::{Derivations, SchedParts};
use std::alloc::Global;
use std::marker::Model;

/// A loop that is neither walked nor substituted.
#[derive(Clone, Copy, Debug)]
pub struct Head {
    pub var: u32,
    pub extent: u32,
}

/// Such loops, from the outside in.
#[derive(Debug, Drop)]
pub struct Heads {
    pub items: Vec<Head>,
}

impl Model for Heads {
    ghost use Rattle.std.specs.Prelude.{List};
    ghost use Rattle.dt_cuts.specs.declared.cuts.Head.{Head};

    ghost Value = { List Head };

    ghost view = { λ l. l.items.items };
}

impl Heads {
    /// A copy of the loops.
    pub fn from_slice(alloc: Global, items: &[Head]) -> Result<Heads, NoMemory>
        ensures { IfOk result (λ l. l ≡ items.now) }
    {
        let items = Vec::from_slice(alloc, items)?;
        Ok(Heads { items })
    }

    pub fn from_vec(items: Vec<Head>) -> Heads
        ensures { result ≡ items.items }
    {
        Heads { items }
    }

    pub fn as_slice(&self) -> &[Head]
        ensures { result.now ≡ self.now }
    {
        self.items.as_slice()
    }
}

/// The loops that go and those that come, the guards that the leaves below get, how what was replaced follows, and
/// the names and extents of the loops that are new. New loops have the next numbers, in the order of their names.
#[derive(Debug, Drop)]
pub struct Cut {
    pub old: Heads,
    pub heads: Heads,
    pub guards: Vars,
    pub derived: Derivations,
    pub names: Names,
    pub extents: Extents,
}

impl Cut {
    /// The parts after the cut, with what is new behind what is there. No loop or leaf is copied. Where memory runs out,
    /// the parts come back as they were.
    pub fn applied(self, alloc: Global, parts: SchedParts) -> Result<SchedParts, SchedParts>
        requires { length (seen parts).names + length self.names < 2 ^ 32 }
        ensures ok { IfOk result (λ p. seen p ≡ cut_by self (seen parts)) }
        ensures few { IfOk result (λ p. length (seen p).names < 2 ^ 32) }
        ensures err { IfErr result (λ p. seen p ≡ seen parts) }
    {
        let mut cut = self;
        let mut parts = parts;
        match cut_parts(alloc, &mut parts, &mut cut) {
            Ok(()) => Ok(parts),
            Err(_) => Err(parts),
        }
    }
}

/// Does the cut to the parts, or leaves them as they were.
#[tactic(auto, using(crate::proofs::InPlace::take_front))]
fn cut_parts(alloc: Global, parts: &mut SchedParts, cut: &mut Cut) -> Result<(), NoMemory>
    ensures ok { OnOk result (seen parts.new ≡ cut_by cut.entry.now (seen parts.old)) }
    ensures err { OnErr result (seen parts.new ≡ seen parts.old) }
{
    let derived = parts.derived.items.len();
    let names = parts.names.as_slice().len();
    let extents = parts.extents.items.len();
    grow(parts, cut)?;
    match cut_nest(alloc, &mut parts.nest, cut) {
        Ok(()) => Ok(()),
        Err(end) => {
            shrink(parts, derived, names, extents);
            Err(end)
        }
    }
}

/// Keeps so many derivations, names and extents, the first ones.
fn shrink(parts: &mut SchedParts, derived: usize, names: usize, extents: usize)
    ensures { seen parts.new ≡ record (seen parts.old) { derived = take derived (seen parts.old).derived; names = take names (seen parts.old).names; extents = take extents (seen parts.old).extents } }
{
    parts.derived.items.truncate(derived);
    parts.names.truncate(names);
    parts.extents.items.truncate(extents);
}

/// Puts the derivations, names and extents of the cut behind those of the parts, or leaves them as they were.
fn grow(parts: &mut SchedParts, cut: &mut Cut) -> Result<(), NoMemory>
    ensures ok { OnOk result (seen parts.new ≡ record (seen parts.old) { derived = (seen parts.old).derived ++ cut.entry.now.derived; names = (seen parts.old).names ++ cut.entry.now.names; extents = (seen parts.old).extents ++ cut.entry.now.extents }) }
    ensures loops { (cut.exit.now.old ≡ cut.entry.now.old) × (cut.exit.now.heads ≡ cut.entry.now.heads) × (cut.exit.now.guards ≡ cut.entry.now.guards) }
    ensures err { OnErr result (seen parts.new ≡ seen parts.old) }
{
    let derivation_count = parts.derived.items.len();
    let name_count = parts.names.as_slice().len();
    parts.derived.items.append(&mut cut.derived.items)?;
    if parts.names.append(cut.names.as_slice()).is_err() {
        parts.derived.items.truncate(derivation_count);
        return Err(NoMemory);
    }
    if parts.extents.items.append(&mut cut.extents.items).is_err() {
        parts.names.truncate(name_count);
        parts.derived.items.truncate(derivation_count);
        return Err(NoMemory);
    }
    Ok(())
}
