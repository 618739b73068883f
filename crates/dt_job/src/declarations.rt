//! The tensors that a job declares, by name.

ghost use Rattle.std.specs.Prelude.{◌≡◌, ◌∷◌, ◌++◌, [], None, OnOk, OnErr};
ghost use Rattle.std.specs.List.{IsDistinct};
ghost use Rattle.std.specs.Str.{bytes_eq};
ghost use Rattle.dt_index.specs.Known.{place_of};
ghost use Rattle.dt_job.specs.Contents.{known_of, names_of};

use crate::declaration::Declared;
use crate::keys::Key;
use dt_base::{Coords, Name, Names, NoMemory};
use dt_index::Lookup;
use dt_model::{Locator, Shape};
use dt_place::Placement;
use dt_tensor::{Tensor, TensorLevels};
use indexmap::IndexMap;
use std::alloc::Global;
use std::marker::Model;

/// At most 32 tensors, in order of declaration.
#[derive(Drop)]
pub struct Declarations {
    // The tensors' names again, in order, for the calls that take a list.
    names: Names,
    tensors: IndexMap<Name, Declared>,
}

impl Model for Declarations {
    ghost use Rattle.std.specs.Prelude.{◌≡◌, ◌≤◌, length};
    ghost use Rattle.dt_job.specs.Contents.{Contents, names_of};

    ghost Value = { Contents };

    ghost view = { λ d. d.tensors.entries };

    ghost invariant = { λ d. (d.names ≡ names_of d.tensors.entries) × (length d.tensors.entries ≤ 32) };
}

impl Declarations {
    ghost use Rattle.std.specs.Prelude.{◌≡◌, ◌≤◌, ◌<◌, ◌∷◌, ◌++◌, [], length, IfSome, None, OnOk, OnErr, slice_get, Some, false, option_map};
    ghost use Rattle.std.specs.List.{IsDistinct};
    ghost use Rattle.std.specs.Str.{bytes_eq};
    ghost use Rattle.dt_model.specs.Positions.{tensor_at};
    ghost use Rattle.dt_index.specs.Known.{place_of};
    ghost use Rattle.dt_job.specs.Contents.{is_given, is_placed, known_of, names_of, order_of, position_count_of, stored_of_all, with_placement, with_values};
    ghost use Rattle.dt_job.specs.JobTensors.{IsJobTensor};

    pub fn new(alloc: Global) -> Declarations
        ensures { result ≡ [] }
    {
        Declarations {
            names: Names::new(alloc),
            tensors: IndexMap::new(alloc),
        }
    }

    /// How many tensors there are.
    pub fn len(&self) -> usize
        ensures count { result ≡ length self.now }
        ensures few { length self.now ≤ 32 }
    {
        self.tensors.len()
    }

    /// The tensors' names.
    pub fn names(&self) -> &Names
        ensures { result.now ≡ names_of self.now }
    {
        &self.names
    }

    /// The number of the tensor with this name.
    pub fn number_of(&self, name: &[u8]) -> Option<u32>
        ensures number { result ≡ place_of name.now (known_of self.now) }
        ensures within { IfSome result (λ k. k < length self.now) }
    {
        match self.tensors.get_index_of(Key(name)) {
            None => None,
            Some(at) => Some(at as u32),
        }
    }

    fn tensor(&self, at: u32) -> &Declared
        requires { at < length self.now }
        ensures { option_map (λ t. t.1) (slice_get self.now at) ≡ Some result.now }
    {
        &self.tensors[at as usize]
    }

    /// Where the tensor's words lie.
    fn levels(&self, at: u32) -> &TensorLevels
        requires { at < length self.now }
        ensures { result.now ≡ tensor_at (stored_of_all self.now) at }
    {
        self.tensor(at).levels()
    }

    /// Whether a line has given the tensor's numbers.
    pub fn is_given(&self, at: u32) -> bool
        requires { at < length self.now }
        ensures { result ≡ is_given self.now at }
    {
        self.tensor(at).is_given()
    }

    /// Whether a line has placed the tensor.
    pub fn is_placed(&self, at: u32) -> bool
        requires { at < length self.now }
        ensures { result ≡ is_placed self.now at }
    {
        self.tensor(at).is_placed()
    }

    /// How many dimensions the tensor has.
    pub fn order(&self, at: u32) -> u8
        requires { at < length self.now }
        ensures { result ≡ order_of self.now at }
    {
        self.tensor(at).order()
    }

    /// How many positions the tensor has.
    pub fn position_count(&self, at: u32) -> u32
        requires { at < length self.now }
        ensures { result ≡ position_count_of self.now at }
    {
        self.tensor(at).position_count()
    }

    /// One more tensor, whose numbers no line has given and which no line places.
    pub fn add(&mut self, name: Name, tensor: Tensor) -> Result<(), NoMemory>
        requires new { place_of name (known_of self.old) ≡ None }
        requires few { length self.old < 32 }
        requires lawful { IsJobTensor tensor }
        ensures ok { OnOk result (self.new ≡ self.old ++ (name, record { packed = tensor; given = false; placement = None }) ∷ []) }
        ensures differ { OnOk result (IsDistinct bytes_eq (names_of self.new)) }
        ensures err { OnErr result (self.new ≡ self.old) }
    {
        add(
            &mut self.names,
            &mut self.tensors,
            name,
            Declared::new(tensor),
        )?;
        Ok(())
    }

    /// The numbers of a tensor, in order of position.
    pub fn give(&mut self, at: u32, values: Vec<u64>)
        requires tensor { at < length self.old }
        requires count { length values.items ≡ position_count_of self.old at }
        ensures { self.new ≡ with_values self.old at values.items }
    {
        self.tensors[at as usize].give(values);
    }

    /// The placement of a tensor.
    pub fn place(&mut self, at: u32, placement: Placement)
        requires { at < length self.old }
        ensures { self.new ≡ with_placement self.old at placement }
    {
        self.tensors[at as usize].place(placement);
    }

    /// The tensors with their names, and the names again.
    pub fn into_parts(self) -> (Names, IndexMap<Name, Declared>)
        ensures names { result.0 ≡ names_of self }
        ensures tensors { result.1.entries ≡ self }
    {
        let Declarations { names, tensors } = self;
        (names, tensors)
    }
}

/// One more tensor, with its name in both places, or none in either.
fn add(
    names: &mut Names,
    tensors: &mut IndexMap<Name, Declared>,
    name: Name,
    declared: Declared,
) -> Result<(), NoMemory>
    requires { place_of name (known_of tensors.old.entries) ≡ None }
    ensures names { OnOk result (names.new ≡ names.old ++ name ∷ []) }
    ensures tensors { OnOk result (tensors.new.entries ≡ tensors.old.entries ++ (name, declared) ∷ []) }
    ensures differ { OnOk result (IsDistinct bytes_eq (names_of tensors.new.entries)) }
    ensures err_names { OnErr result (names.new ≡ names.old) }
    ensures err_tensors { OnErr result (tensors.new.entries ≡ tensors.old.entries) }
{
    names.items.reserve(1)?;
    tensors.insert(name.copied(), declared)?;
    names.items.push_reserved(name);
    Ok(())
}

impl Lookup for Declarations {
    ghost use Rattle.dt_job.specs.Contents.{known_of};

    ghost tensors = { λ d. known_of d };

    fn find(&self, name: &[u8]) -> Option<u32> {
        self.number_of(name)
    }

    fn shape(&self, tensor: u32) -> Shape {
        self.tensor(tensor).shape()
    }

    fn dense(&self, tensor: u32) -> bool {
        self.tensor(tensor).is_dense()
    }
}

impl Locator for Declarations {
    ghost use Rattle.dt_job.specs.Contents.{stored_of_all};

    ghost tensors = { λ d. stored_of_all d };

    fn place(&self, tensor: u32, c: &[u32]) -> Option<u32> {
        self.levels(tensor).place(c)
    }

    fn coords(&self, tensor: u32, pos: u32) -> Coords {
        self.levels(tensor)
            .coords(*self.names.items.allocator(), pos)
    }

    fn count(&self, tensor: u32) -> u32 {
        self.levels(tensor).count()
    }

    fn has_prefix(&self, tensor: u32, c: &[u32]) -> bool {
        self.levels(tensor).has_prefix(c)
    }

    fn shape(&self, tensor: u32) -> Shape {
        self.levels(tensor).shape()
    }

    fn cost(&self, tensor: u32) -> u32 {
        self.levels(tensor).cost()
    }

    fn next_child(&self, tensor: u32, prefix: &[u32], from: u32) -> Option<u32> {
        self.levels(tensor).next_child(prefix, from)
    }
}
