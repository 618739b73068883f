//! Names by their numbers.

ghost use Rattle.std.specs.Prelude.{◌≡◌, ◌<◌, [], ◌∷◌, ◌++◌, IfOk, IfSome, OnOk, OnErr, length, position, take};
ghost use Rattle.std.specs.List.{list_any};
ghost use Rattle.std.specs.Str.{bytes_eq};
ghost use Rattle.dt_nest.specs.NameTables.{number_at};

use dt_base::{Name, Names, NoMemory};
use indexmap::IndexMap;
use std::alloc::Global;
use std::fmt::{self, Debug, Formatter};
use std::marker::Model;

/// Names in order. A name's number is where it first is, and is found by its hash.
#[derive(Drop)]
pub struct NameTable {
    names: Names,
    // A name that was cut off may still have a number, at which it isn't any more.
    numbers: IndexMap<Name, usize>,
}

impl Model for NameTable {
    ghost use Rattle.std.specs.Prelude.{List, ℕ};
    ghost use Rattle.dt_nest.specs.NameTables.{AreNumbered};

    ghost Value = { List (List ℕ) };

    ghost view = { λ t. t.names };

    ghost invariant = { λ t. AreNumbered t.names t.numbers.entries };
}

/// The number, where it is the name's.
fn number_at(names: &[Name], number: Option<usize>, name: &Name) -> Option<usize>
    ensures { result ≡ number_at names.now number name.now }
{
    let number = number?;
    if names.get(number)?.as_slice() == name.as_slice() {
        return Some(number);
    }
    None
}

/// Keeps the first `len` names.
fn cut_off(names: &mut Names, len: usize)
    ensures { names.new ≡ take len names.old }
{
    names.items.truncate(len);
}

impl Debug for NameTable {
    fn fmt<W: fmt::Write>(&self, f: &mut Formatter<W>) -> fmt::Result {
        self.names.fmt(f)
    }
}

impl NameTable {
    pub fn new(alloc: Global) -> NameTable
        ensures { result ≡ [] }
    {
        NameTable {
            names: Names::new(alloc),
            numbers: IndexMap::new(alloc),
        }
    }

    /// The same names.
    pub fn of(alloc: Global, names: &Names) -> Result<NameTable, NoMemory>
        ensures { IfOk result (λ t. t ≡ names.now) }
    {
        let mut table = NameTable::new(alloc);
        table.append(names.as_slice())?;
        Ok(table)
    }

    pub fn as_slice(&self) -> &[Name]
        ensures { result.now ≡ self.now }
    {
        self.names.as_slice()
    }

    /// The number of the name, none where it isn't among these.
    pub fn number_of(&self, name: &Name) -> Option<usize>
        ensures number { result ≡ position (λ n. bytes_eq n name.now) self.now }
        ensures within { IfSome result (λ k. k < length self.now) }
    {
        number_at(self.names.as_slice(), self.numbers.get(name).copied(), name)
    }

    /// Whether the name is among these.
    pub fn has(&self, name: &Name) -> bool
        ensures { result ≡ list_any (bytes_eq name.now) self.now }
    {
        self.number_of(name).is_some()
    }

    /// Puts one name at the end.
    pub fn push(&mut self, name: Name) -> Result<(), NoMemory>
        ensures ok { OnOk result (self.new ≡ self.old ++ name ∷ []) }
        ensures err { OnErr result (self.new ≡ self.old) }
    {
        match self.number_of(&name) {
            Some(_) => self.names.push(name),
            None => {
                let number = self.names.as_slice().len();
                self.numbers.insert(name.copied(), number)?;
                self.names.push(name)
            }
        }
    }

    /// Keeps the first `len` names.
    pub fn truncate(&mut self, len: usize)
        ensures { self.new ≡ take len self.old }
    {
        cut_off(&mut self.names, len);
    }

    /// Puts more names at the end.
    pub fn append(&mut self, more: &[Name]) -> Result<(), NoMemory>
        ensures ok { OnOk result (self.new ≡ self.old ++ more.now) }
        ensures err { OnErr result (self.new ≡ self.old) }
    {
        let len = self.as_slice().len();
        for name in more {
            if self.push(name.copied()).is_err() {
                self.truncate(len);
                return Err(NoMemory);
            }
        }
        Ok(())
    }
}
