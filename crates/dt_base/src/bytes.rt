//! Bytes, and lists of them.

ghost use Rattle.std.specs.Prelude.{◌≡◌, ◌==◌, [], ◌∷◌, ◌++◌, length, map, IfOk, OnOk, OnErr};
ghost use Rattle.std.specs.List.{flat_map, join_with_byte};
ghost use Rattle.dt_base.specs.Fronts.{IsFrontOf};

use crate::no_memory::NoMemory;
use itoa::{Buffer, Integer};
use std::alloc::Global;
use std::marker::Model;

/// The bytes of a text, in order.
#[derive(Debug, Drop)]
pub struct Bytes {
    pub items: Vec<u8>,
}

impl Model for Bytes {
    ghost use Rattle.std.specs.Prelude.{List, ℕ};

    ghost Value = { List ℕ };

    ghost view = { λ b. b.items.items };
}

impl Bytes {
    pub fn new(alloc: Global) -> Bytes
        ensures { result ≡ [] }
    {
        Bytes {
            items: Vec::new(alloc),
        }
    }

    /// A copy of the bytes.
    pub fn from_slice(alloc: Global, bytes: &[u8]) -> Result<Bytes, NoMemory>
        ensures { IfOk result (λ b. b ≡ bytes.now) }
    {
        let items = Vec::from_slice(alloc, bytes)?;
        Ok(Bytes { items })
    }

    pub fn from_vec(items: Vec<u8>) -> Bytes
        ensures { result ≡ items.items }
    {
        Bytes { items }
    }

    pub fn into_vec(self) -> Vec<u8>
        ensures { result.items ≡ self }
    {
        let Bytes { items } = self;
        items
    }

    pub fn as_slice(&self) -> &[u8]
        ensures { result.now ≡ self.now }
    {
        self.items.as_slice()
    }

    pub fn len(&self) -> usize
        ensures { result ≡ length self.now }
    {
        self.items.len()
    }

    pub fn is_empty(&self) -> bool
        ensures { result ≡ (length self.now == 0) }
    {
        self.items.is_empty()
    }

    /// Puts more bytes at the end.
    pub fn append(&mut self, more: &[u8]) -> Result<(), NoMemory>
        ensures ok { OnOk result (self.new ≡ self.old ++ more.now) }
        ensures err { OnErr result (self.new ≡ self.old) }
    {
        self.items.extend_from_slice(more)?;
        Ok(())
    }

    /// Puts a number in decimal at the end.
    pub fn append_number<I: Integer>(&mut self, n: I) -> Result<(), NoMemory>
        ensures ok { OnOk result (self.new ≡ self.old ++ I.text n) }
        ensures err { OnErr result (self.new ≡ self.old) }
    {
        let mut buffer = Buffer::new();
        self.append(buffer.format(n).as_bytes())
    }

    /// Puts the numbers in decimal at the end, with the byte between each two.
    pub fn append_joined<I: Integer>(&mut self, numbers: &[I], between: u8) -> Result<(), NoMemory>
        ensures ok { OnOk result (self.new ≡ self.old ++ join_with_byte between (map I.text numbers.now)) }
        ensures err { OnErr result (IsFrontOf self.old self.new) }
    {
        match numbers {
            [] => Ok(()),
            [first, rest @ ..] => {
                self.append_number(*first)?;
                self.append_each(rest, between)
            }
        }
    }

    /// Puts the numbers in decimal at the end, the byte before each.
    fn append_each<I: Integer>(&mut self, numbers: &[I], before: u8) -> Result<(), NoMemory>
        ensures ok { OnOk result (self.new ≡ self.old ++ flat_map (λ n. before ∷ I.text n) numbers.now) }
        ensures err { OnErr result (IsFrontOf self.old self.new) }
    {
        for n in numbers {
            self.append(&[before])?;
            self.append_number(*n)?;
        }
        Ok(())
    }
}

/// Texts, in order, as the lines of a file or the heads of statements.
#[derive(Debug, Drop)]
pub struct Lines {
    pub items: Vec<Bytes>,
}

impl Model for Lines {
    ghost use Rattle.std.specs.Prelude.{List, ℕ};

    ghost Value = { List (List ℕ) };

    ghost view = { λ l. l.items.items };
}

impl Lines {
    pub fn new(alloc: Global) -> Lines
        ensures { result ≡ [] }
    {
        Lines {
            items: Vec::new(alloc),
        }
    }

    pub fn from_vec(items: Vec<Bytes>) -> Lines
        ensures { result ≡ items.items }
    {
        Lines { items }
    }

    pub fn into_vec(self) -> Vec<Bytes>
        ensures { result.items ≡ self }
    {
        let Lines { items } = self;
        items
    }

    pub fn as_slice(&self) -> &[Bytes]
        ensures { result.now ≡ self.now }
    {
        self.items.as_slice()
    }

    /// Puts one text at the end.
    pub fn push(&mut self, text: Bytes) -> Result<(), NoMemory>
        ensures ok { OnOk result (self.new ≡ self.old ++ text ∷ []) }
        ensures err { OnErr result (self.new ≡ self.old) }
    {
        self.items.push(text)?;
        Ok(())
    }
}
