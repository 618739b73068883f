//! A statement: a left access, `=` or `+=`, and signed terms.

ghost use Rattle.std.specs.Prelude.{◌≡◌, [], ◌∷◌, ◌++◌, OnOk, OnErr};

use dt_base::{Extents, NoMemory, Vars};
use std::alloc::Global;
use std::marker::Model;

/// A tensor, by its number, at the coordinates that the variables have.
#[derive(Debug, Drop)]
pub struct Access {
    pub tensor: u32,
    pub vars: Vars,
}

/// A number that a term multiplies.
#[derive(Debug, Drop)]
pub enum Factor {
    Read(Access),
    Literal(u64),
}

/// A signed product. Its sum goes over all reduction variables of the statement.
#[derive(Debug, Drop)]
pub struct Term {
    pub minus: bool,
    pub factors: Factors,
}

/// A statement. `adds` tells `+=` from `=`. Variables are numbered by first occurrence, the left side first, and
/// `extents` has one extent per variable; those that the left access lacks are the reduction variables.
#[derive(Debug, Drop)]
pub struct Stmt {
    pub lhs: Access,
    pub adds: bool,
    pub terms: Terms,
    pub extents: Extents,
}

/// The factors of a term, in order.
#[derive(Debug, Drop)]
pub struct Factors {
    pub items: Vec<Factor>,
}

impl Model for Factors {
    ghost use Rattle.std.specs.Prelude.{List};
    ghost use Rattle.dt_model.specs.declared.stmt.Factor.{Factor};

    ghost Value = { List Factor };

    ghost view = { λ l. l.items.items };
}

impl Factors {
    pub fn new(alloc: Global) -> Factors
        ensures { result ≡ [] }
    {
        Factors {
            items: Vec::new(alloc),
        }
    }

    pub fn from_vec(items: Vec<Factor>) -> Factors
        ensures { result ≡ items.items }
    {
        Factors { items }
    }

    pub fn into_vec(self) -> Vec<Factor>
        ensures { result.items ≡ self }
    {
        let Factors { items } = self;
        items
    }

    pub fn as_slice(&self) -> &[Factor]
        ensures { result.now ≡ self.now }
    {
        self.items.as_slice()
    }

    /// Puts one factor at the end.
    pub fn push(&mut self, factor: Factor) -> Result<(), NoMemory>
        ensures ok { OnOk result (self.new ≡ self.old ++ factor ∷ []) }
        ensures err { OnErr result (self.new ≡ self.old) }
    {
        self.items.push(factor)?;
        Ok(())
    }
}

/// The terms of a statement, in order.
#[derive(Debug, Drop)]
pub struct Terms {
    pub items: Vec<Term>,
}

impl Model for Terms {
    ghost use Rattle.std.specs.Prelude.{List};
    ghost use Rattle.dt_model.specs.declared.stmt.Term.{Term};

    ghost Value = { List Term };

    ghost view = { λ l. l.items.items };
}

impl Terms {
    pub fn new(alloc: Global) -> Terms
        ensures { result ≡ [] }
    {
        Terms {
            items: Vec::new(alloc),
        }
    }

    pub fn from_vec(items: Vec<Term>) -> Terms
        ensures { result ≡ items.items }
    {
        Terms { items }
    }

    pub fn into_vec(self) -> Vec<Term>
        ensures { result.items ≡ self }
    {
        let Terms { items } = self;
        items
    }

    pub fn as_slice(&self) -> &[Term]
        ensures { result.now ≡ self.now }
    {
        self.items.as_slice()
    }

    /// Puts one term at the end.
    pub fn push(&mut self, term: Term) -> Result<(), NoMemory>
        ensures ok { OnOk result (self.new ≡ self.old ++ term ∷ []) }
        ensures err { OnErr result (self.new ≡ self.old) }
    {
        self.items.push(term)?;
        Ok(())
    }
}

/// Statements, in order.
#[derive(Debug, Drop)]
pub struct Stmts {
    pub items: Vec<Stmt>,
}

impl Model for Stmts {
    ghost use Rattle.std.specs.Prelude.{List};
    ghost use Rattle.dt_model.specs.declared.stmt.Stmt.{Stmt};

    ghost Value = { List Stmt };

    ghost view = { λ l. l.items.items };
}

impl Stmts {
    pub fn new(alloc: Global) -> Stmts
        ensures { result ≡ [] }
    {
        Stmts {
            items: Vec::new(alloc),
        }
    }

    pub fn from_vec(items: Vec<Stmt>) -> Stmts
        ensures { result ≡ items.items }
    {
        Stmts { items }
    }

    pub fn into_vec(self) -> Vec<Stmt>
        ensures { result.items ≡ self }
    {
        let Stmts { items } = self;
        items
    }

    pub fn as_slice(&self) -> &[Stmt]
        ensures { result.now ≡ self.now }
    {
        self.items.as_slice()
    }

    /// Puts one stmt at the end.
    pub fn push(&mut self, stmt: Stmt) -> Result<(), NoMemory>
        ensures ok { OnOk result (self.new ≡ self.old ++ stmt ∷ []) }
        ensures err { OnErr result (self.new ≡ self.old) }
    {
        self.items.push(stmt)?;
        Ok(())
    }
}
