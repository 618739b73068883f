//! Names, and lists of them.

ghost use Rattle.std.specs.Prelude.{◌≡◌, ◌≤◌, ◌↔◌, [], ◌∷◌, ◌++◌, IsTrue, length, nat_eq, OnOk, OnErr};
ghost use Rattle.std.specs.Cmp.{partial_equiv_from_equiv};
ghost use Rattle.std.specs.Cmp.Lexicographic.{pointwise, nat_list_eq_equiv};
ghost use Rattle.std.specs.Cmp.Rules.{hashing};
ghost use Rattle.std.specs.Hash as fed;
ghost use Rattle.std.proofs.Common.{rules};

use crate::no_memory::NoMemory;
use arrayvec::ArrayVec;
use std::alloc::Global;
use std::hash::{Hash, Hasher};
use std::marker::Model;

/// A short text: the name of a tensor, a variable, a loop or a file, or a letter. It has at most 64 bytes and
/// takes no memory.
#[derive(Clone, Debug, Drop)]
pub struct Name {
    pub items: ArrayVec<u8, 64>,
}

impl Model for Name {
    ghost use Rattle.std.specs.Prelude.{List, ℕ};

    ghost Value = { List ℕ };

    ghost view = { λ n. n.items.items };
}

impl Name {
    pub fn from_slice(bytes: &[u8]) -> Name
        requires { length bytes.now ≤ 64 }
        ensures { result ≡ bytes.now }
    {
        let mut items = ArrayVec::new();
        for b in bytes {
            items.push(*b);
        }
        Name { items }
    }

    pub fn as_slice(&self) -> &[u8]
        ensures bytes { result.now ≡ self.now }
        ensures few { length self.now ≤ 64 }
    {
        self.items.as_slice()
    }

    /// The same name again. It takes no memory.
    pub fn copied(&self) -> Name
        ensures { result ≡ self.now }
    {
        Name::from_slice(self.items.as_slice())
    }

    pub fn is(&self, bytes: &[u8]) -> bool
        ensures { IsTrue result ↔ (self.now ≡ bytes.now) }
    {
        self.items.as_slice() == bytes
    }
}

impl PartialEq for Name {
    ghost eq = { pointwise nat_eq };

    ghost laws = { partial_equiv_from_equiv nat_list_eq_equiv };

    fn eq(&self, other: &Name) -> bool {
        self.as_slice() == other.as_slice()
    }
}

impl Eq for Name {
    ghost laws = { nat_list_eq_equiv };
}

impl Hash for Name {
    ghost hash_input = { fed.slice fed.u8 };

    ghost respects_eq = { Prim.search (hashing, rules) };

    fn hash<H: Hasher>(&self, state: &mut H) {
        self.as_slice().hash(state);
    }
}

/// Names, in order.
#[derive(Debug, Drop)]
pub struct Names {
    pub items: Vec<Name>,
}

impl Model for Names {
    ghost use Rattle.std.specs.Prelude.{List, ℕ};

    ghost Value = { List (List ℕ) };

    ghost view = { λ n. n.items.items };
}

impl Names {
    pub fn new(alloc: Global) -> Names
        ensures { result ≡ [] }
    {
        Names {
            items: Vec::new(alloc),
        }
    }

    pub fn from_vec(items: Vec<Name>) -> Names
        ensures { result ≡ items.items }
    {
        Names { items }
    }

    pub fn into_vec(self) -> Vec<Name>
        ensures { result.items ≡ self }
    {
        let Names { items } = self;
        items
    }

    pub fn as_slice(&self) -> &[Name]
        ensures { result.now ≡ self.now }
    {
        self.items.as_slice()
    }

    /// Puts one name at the end.
    pub fn push(&mut self, name: Name) -> Result<(), NoMemory>
        ensures ok { OnOk result (self.new ≡ self.old ++ name ∷ []) }
        ensures err { OnErr result (self.new ≡ self.old) }
    {
        self.items.push(name)?;
        Ok(())
    }
}
