//! How the variables that commands replaced follow from others.

ghost use Rattle.std.specs.Prelude.{◌≡◌, IfOk, OnOk, OnErr, [], ◌∷◌, ◌++◌};

use crate::copies::vars_copied;
use dt_base::{NoMemory, Vars};
use std::alloc::Global;
use std::marker::Model;

/// How a variable's value follows from others: `outer * factor + inner`, `fused / by`, `fused % by`,
/// the sum of `base` and the loops `by` modulo `extent`, or the coordinate at a level of a tensor's stored
/// position `base`.
#[derive(Debug, Drop)]
pub enum Derive {
    Split { outer: u32, inner: u32, factor: u32 },
    Quotient { fused: u32, by: u32 },
    Rest { fused: u32, by: u32 },
    Rotate { base: u32, by: Vars, extent: u32 },
    Pos { tensor: u32, level: u8, base: u32 },
}

/// A variable that was replaced, and how its value follows.
#[derive(Debug, Drop)]
pub struct Derived {
    pub var: u32,
    pub how: Derive,
}

/// Derivations, in the order of the commands.
#[derive(Debug, Drop)]
pub struct Derivations {
    pub items: Vec<Derived>,
}

impl Model for Derivations {
    ghost use Rattle.std.specs.Prelude.{List};
    ghost use Rattle.dt_nest.specs.declared.derivations.Derived.{Derived};

    ghost Value = { List Derived };

    ghost view = { λ l. l.items.items };
}

impl Derive {
    pub fn copied(&self, alloc: Global) -> Result<Derive, NoMemory>
        ensures { IfOk result (λ d. d ≡ self.now) }
    {
        match self {
            Derive::Split {
                outer,
                inner,
                factor,
            } => Ok(Derive::Split {
                outer: *outer,
                inner: *inner,
                factor: *factor,
            }),
            Derive::Quotient { fused, by } => Ok(Derive::Quotient {
                fused: *fused,
                by: *by,
            }),
            Derive::Rest { fused, by } => Ok(Derive::Rest {
                fused: *fused,
                by: *by,
            }),
            Derive::Rotate { base, by, extent } => {
                let by = vars_copied(alloc, by)?;
                Ok(Derive::Rotate {
                    base: *base,
                    by,
                    extent: *extent,
                })
            }
            Derive::Pos {
                tensor,
                level,
                base,
            } => Ok(Derive::Pos {
                tensor: *tensor,
                level: *level,
                base: *base,
            }),
        }
    }
}

impl Derived {
    pub fn copied(&self, alloc: Global) -> Result<Derived, NoMemory>
        ensures { IfOk result (λ d. d ≡ self.now) }
    {
        let how = self.how.copied(alloc)?;
        Ok(Derived { var: self.var, how })
    }
}

fn copy_derived(alloc: Global, list: &[Derived]) -> Result<Vec<Derived>, NoMemory>
    ensures { IfOk result (λ v. v.items ≡ list.now) }
{
    let mut items = Vec::new(alloc);
    for derived in list {
        items.push(derived.copied(alloc)?)?;
    }
    Ok(items)
}

impl Derivations {
    pub fn new(alloc: Global) -> Derivations
        ensures { result ≡ [] }
    {
        Derivations {
            items: Vec::new(alloc),
        }
    }

    pub fn as_slice(&self) -> &[Derived]
        ensures { result.now ≡ self.now }
    {
        self.items.as_slice()
    }

    pub fn copied(&self, alloc: Global) -> Result<Derivations, NoMemory>
        ensures { IfOk result (λ l. l ≡ self.now) }
    {
        let items = copy_derived(alloc, self.items.as_slice())?;
        Ok(Derivations { items })
    }

    /// Puts one derivation at the end.
    pub fn push(&mut self, derived: Derived) -> Result<(), NoMemory>
        ensures ok { OnOk result (self.new ≡ self.old ++ derived ∷ []) }
        ensures err { OnErr result (self.new ≡ self.old) }
    {
        self.items.push(derived)?;
        Ok(())
    }
}
