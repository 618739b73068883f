//! The loop tree.

ghost use Rattle.std.specs.Prelude.{◌≡◌, IfOk};
ghost use Rattle.dt_nest.specs.Tree.{tree_of};

use crate::copies::{access_copied, terms_copied, vars_copied};
use dt_base::{NoMemory, Vars};
use dt_model::{Access, Terms};
use std::alloc::Global;
use std::marker::Model;

/// What does a leaf's products: the loops themselves, or a stored kernel of two or three factors.
#[derive(Clone, Copy, Debug, PartialEq, Eq)]
pub enum Kernel {
    Plain,
    Dot,
    Dot3,
}

/// The access whose stored prefixes a loop takes.
#[derive(Debug, Drop)]
pub struct Walk {
    pub tensor: u32,
    pub vars: Vars,
}

/// A loop of a workspace, and the name that it has in the producer.
#[derive(Clone, Copy, Debug)]
pub struct Pair {
    pub from: u32,
    pub to: u32,
}

/// Loops of a workspace with their new names, from the outside in.
#[derive(Debug, Drop)]
pub struct Pairs {
    pub items: Vec<Pair>,
}

impl Model for Pairs {
    ghost use Rattle.std.specs.Prelude.{List};
    ghost use Rattle.dt_nest.specs.declared.loops.Pair.{Pair};

    ghost Value = { List Pair };

    ghost view = { λ l. l.items.items };
}

impl Pairs {
    pub fn from_vec(items: Vec<Pair>) -> Pairs
        ensures { result ≡ items.items }
    {
        Pairs { items }
    }

    pub fn as_slice(&self) -> &[Pair]
        ensures { result.now ≡ self.now }
    {
        self.items.as_slice()
    }

    pub fn copied(&self, alloc: Global) -> Result<Pairs, NoMemory>
        ensures { IfOk result (λ l. l ≡ self.now) }
    {
        let items = Vec::from_slice(alloc, self.items.as_slice())?;
        Ok(Pairs { items })
    }
}

/// A loop around a nest, a precompute node, or a leaf. Loops and variables have one numbering, and wherever the
/// number of a tensor stands, a workspace has the number of tensors plus its own.
#[derive(Debug, Drop)]
pub enum Nest {
    Loop {
        var: u32,
        extent: u32,
        walk: Option<Walk>,
        body: Box<Nest>,
    },
    Pre {
        work: u32,
        pairs: Pairs,
        producer: Box<Nest>,
        consumer: Box<Nest>,
    },
    Leaf {
        lhs: Access,
        terms: Terms,
        guards: Vars,
        kernel: Kernel,
    },
}

impl Walk {
    pub fn copied(&self, alloc: Global) -> Result<Walk, NoMemory>
        ensures { IfOk result (λ w. w ≡ self.now) }
    {
        let vars = vars_copied(alloc, &self.vars)?;
        Ok(Walk {
            tensor: self.tensor,
            vars,
        })
    }
}

pub fn walk_copied(alloc: Global, walk: &Option<Walk>) -> Result<Option<Walk>, NoMemory>
    ensures { IfOk result (λ w. w ≡ walk.now) }
{
    match walk {
        None => Ok(None),
        Some(walk) => {
            let walk = walk.copied(alloc)?;
            Ok(Some(walk))
        }
    }
}

impl Nest {
    /// The same tree again.
    pub fn copied(&self, alloc: Global) -> Result<Nest, NoMemory>
        ensures { IfOk result (λ n. tree_of n ≡ tree_of self.now) }
    {
        match self {
            Nest::Loop {
                var,
                extent,
                walk,
                body,
            } => {
                let inner = body.copied(alloc)?;
                Ok(Nest::Loop {
                    var: *var,
                    extent: *extent,
                    walk: walk_copied(alloc, walk)?,
                    body: Box::new(alloc, inner)?,
                })
            }
            Nest::Pre {
                work,
                pairs,
                producer,
                consumer,
            } => {
                let first = producer.copied(alloc)?;
                let second = consumer.copied(alloc)?;
                Ok(Nest::Pre {
                    work: *work,
                    pairs: pairs.copied(alloc)?,
                    producer: Box::new(alloc, first)?,
                    consumer: Box::new(alloc, second)?,
                })
            }
            Nest::Leaf {
                lhs,
                terms,
                guards,
                kernel,
            } => Ok(Nest::Leaf {
                lhs: access_copied(alloc, lhs)?,
                terms: terms_copied(alloc, terms)?,
                guards: vars_copied(alloc, guards)?,
                kernel: *kernel,
            }),
        }
    }
}
