//! The form of a statement: names and numbers as they are written.

ghost use Rattle.std.specs.Prelude.{◌≡◌, [], ◌∷◌, ◌++◌, OnOk, OnErr};

use dt_base::{Name, Names, NoMemory};
use std::alloc::Global;
use std::marker::Model;

/// An access as it is written: the names of a tensor and of variables, none for a scalar.
#[derive(Debug, Drop)]
pub struct NamedAccess {
    pub tensor: Name,
    pub vars: Names,
}

/// A factor as it is written. A literal has no value where its digits are more than 20, or reach 2^64.
#[derive(Debug, Drop)]
pub enum NamedFactor {
    Read(NamedAccess),
    Literal(Option<u64>),
}

/// A term as it is written. `minus` tells `-` from `+`.
#[derive(Debug, Drop)]
pub struct NamedTerm {
    pub minus: bool,
    pub factors: NamedFactors,
}

/// A statement as it is written. `adds` tells `+=` from `=`.
#[derive(Debug, Drop)]
pub struct Form {
    pub lhs: NamedAccess,
    pub adds: bool,
    pub terms: NamedTerms,
}

/// The factors of a term, in order.
#[derive(Debug, Drop)]
pub struct NamedFactors {
    pub items: Vec<NamedFactor>,
}

impl Model for NamedFactors {
    ghost use Rattle.std.specs.Prelude.{List};
    ghost use Rattle.dt_index.specs.declared.form.NamedFactor.{NamedFactor};

    ghost Value = { List NamedFactor };

    ghost view = { λ l. l.items.items };
}

impl NamedFactors {
    pub fn new(alloc: Global) -> NamedFactors
        ensures { result ≡ [] }
    {
        NamedFactors {
            items: Vec::new(alloc),
        }
    }

    pub fn as_slice(&self) -> &[NamedFactor]
        ensures { result.now ≡ self.now }
    {
        self.items.as_slice()
    }

    /// Puts one factor at the end.
    pub fn push(&mut self, factor: NamedFactor) -> Result<(), NoMemory>
        ensures ok { OnOk result (self.new ≡ self.old ++ factor ∷ []) }
        ensures err { OnErr result (self.new ≡ self.old) }
    {
        self.items.push(factor)?;
        Ok(())
    }
}

/// The terms of a statement, in order.
#[derive(Debug, Drop)]
pub struct NamedTerms {
    pub items: Vec<NamedTerm>,
}

impl Model for NamedTerms {
    ghost use Rattle.std.specs.Prelude.{List};
    ghost use Rattle.dt_index.specs.declared.form.NamedTerm.{NamedTerm};

    ghost Value = { List NamedTerm };

    ghost view = { λ l. l.items.items };
}

impl NamedTerms {
    pub fn new(alloc: Global) -> NamedTerms
        ensures { result ≡ [] }
    {
        NamedTerms {
            items: Vec::new(alloc),
        }
    }

    pub fn as_slice(&self) -> &[NamedTerm]
        ensures { result.now ≡ self.now }
    {
        self.items.as_slice()
    }

    /// Puts one term at the end.
    pub fn push(&mut self, term: NamedTerm) -> Result<(), NoMemory>
        ensures ok { OnOk result (self.new ≡ self.old ++ term ∷ []) }
        ensures err { OnErr result (self.new ≡ self.old) }
    {
        self.items.push(term)?;
        Ok(())
    }
}
