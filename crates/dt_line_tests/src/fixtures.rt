//! The tensors of the statements.

ghost use Rattle.std.specs.Prelude.{◌≡◌, ◌∷◌, []};

use dt_base::{Name, Names, ShortText};
use dt_index::Lookup;
use dt_model::{LineEnd, Shape, Whole};
use std::alloc::Global;
use std::test::Fail;

/// The matrices A (2x4), B (2x3), C (3x4), the scalar s, E (1x1x1x1), and the scalar b2. All but A are dense.
#[derive(Drop)]
pub struct Tensors {
    a: Whole,
    b: Whole,
    c: Whole,
    s: Whole,
    e: Whole,
    b2: Whole,
    a_is_dense: bool,
}

impl Lookup for Tensors {
    ghost use Rattle.std.specs.Prelude.{List, [], ◌∷◌, true};
    ghost use Rattle.dt_index.specs.Known.{Known};

    ghost tensors = { λ t. record { name = 65 ∷ []; extents = t.a.extents; dense = t.a_is_dense } ∷ record { name = 66 ∷ []; extents = t.b.extents; dense = true } ∷ record { name = 67 ∷ []; extents = t.c.extents; dense = true } ∷ record { name = 115 ∷ []; extents = t.s.extents; dense = true } ∷ record { name = 69 ∷ []; extents = t.e.extents; dense = true } ∷ record { name = 98 ∷ 50 ∷ []; extents = t.b2.extents; dense = true } ∷ [] };

    fn find(&self, name: &[u8]) -> Option<u32> {
        if b"A".as_slice() == name {
            Some(0)
        } else if b"B".as_slice() == name {
            Some(1)
        } else if b"C".as_slice() == name {
            Some(2)
        } else if b"s".as_slice() == name {
            Some(3)
        } else if b"E".as_slice() == name {
            Some(4)
        } else if b"b2".as_slice() == name {
            Some(5)
        } else {
            None
        }
    }

    fn shape(&self, tensor: u32) -> Shape {
        match tensor {
            0 => self.a.shape(),
            1 => self.b.shape(),
            2 => self.c.shape(),
            3 => self.s.shape(),
            4 => self.e.shape(),
            _ => self.b2.shape(),
        }
    }

    fn dense(&self, tensor: u32) -> bool {
        tensor != 0 || self.a_is_dense
    }
}

pub(crate) fn zeros(alloc: Global, a_is_dense: bool) -> Result<Tensors, Fail> {
    Ok(Tensors {
        a: zero(alloc, &[2, 4])?,
        b: zero(alloc, &[2, 3])?,
        c: zero(alloc, &[3, 4])?,
        s: zero(alloc, &[])?,
        e: zero(alloc, &[1, 1, 1, 1])?,
        b2: zero(alloc, &[])?,
        a_is_dense,
    })
}

fn zero(alloc: Global, extents: &[u32]) -> Result<Whole, Fail> {
    let shape = Shape::from_extents(extents).ok_or("no shape")?;
    Ok(Whole::zero(alloc, shape)?)
}

/// Their names.
pub(crate) fn names(alloc: Global) -> Result<Names, Fail> {
    let mut names = Names::new(alloc);
    let all: [&[u8]; 6] = [b"A", b"B", b"C", b"s", b"E", b"b2"];
    for name in all {
        if name.len() > 64 {
            return Err("a long name")?;
        }
        names.push(Name::from_slice(name))?;
    }
    Ok(names)
}

/// Their numbers: 0 in A, 1 to 6 in B, 1 to 12 in C, 7 in s, 9 in E and 2 in b2.
pub(crate) fn numbers(alloc: Global) -> Result<Vec<Whole>, Fail> {
    let numbers: [(&[u32], &[u64]); 6] = [
        (&[2, 4], &[0, 0, 0, 0, 0, 0, 0, 0]),
        (&[2, 3], &[1, 2, 3, 4, 5, 6]),
        (&[3, 4], &[1, 2, 3, 4, 5, 6, 7, 8, 9, 10, 11, 12]),
        (&[], &[7]),
        (&[1, 1, 1, 1], &[9]),
        (&[], &[2]),
    ];
    let mut all = Vec::new(alloc);
    for (extents, values) in numbers {
        all.push(whole(alloc, extents, values)?)?;
    }
    Ok(all)
}

fn whole(alloc: Global, extents: &[u32], values: &[u64]) -> Result<Whole, Fail> {
    let shape = Shape::from_extents(extents).ok_or("no shape")?;
    if values.len() != shape.count() as usize {
        return Err("another count")?;
    }
    Ok(Whole::from_values(shape, Vec::from_slice(alloc, values)?))
}

/// What a line was refused for, and `ok` where it was not.
pub(crate) fn said(end: Option<LineEnd>) -> ShortText {
    let mut text = ShortText::new();
    match end {
        None => text.append(b"ok"),
        Some(LineEnd::NoMemory) => text.append(b"no memory"),
        Some(LineEnd::Refused(cause)) => text.append(cause.text().as_slice()),
    }
    text
}
