//! The nests and derivations of the tutorial's steps and of the examples, as they are printed.

use dt_base::{Bytes, NoMemory};
use dt_job::read_job;
use dt_nest::{Sched, put_derived, put_nest};
use std::alloc::Global;
use std::test::Fail;

const PRODUCT: &[u8] = b"stmt A(i,j) = B(i,k) * C(k,j)\n";

/// The commands of the tutorial in order, each with the nest after it.
const TUTORIAL: [(&[u8], &[u8]); 9] = [
    (b"", b"[A,B,C] i:4 j:4 k:4 leaf"),
    (b"split i io ii 2\n", b"[A,B,C] io:2 ii:2 j:4 k:4 leaf"),
    (
        b"split j jo ji 2\n",
        b"[A,B,C] io:2 ii:2 jo:2 ji:2 k:4 leaf",
    ),
    (
        b"reorder io jo ii ji\n",
        b"[A,B,C] io:2 jo:2 ii:2 ji:2 k:4 leaf",
    ),
    (
        b"distribute io jo\n",
        b"io:2! jo:2![A,B,C] ii:2 ji:2 k:4 leaf",
    ),
    (
        b"split k ko ki 2\n",
        b"io:2! jo:2![A,B,C] ii:2 ji:2 ko:2 ki:2 leaf",
    ),
    (
        b"reorder ko ii ji\n",
        b"io:2! jo:2![A,B,C] ko:2 ii:2 ji:2 ki:2 leaf",
    ),
    (
        b"rotate ko io jo kos\n",
        b"io:2! jo:2![A,B,C] kos:2 ii:2 ji:2 ki:2 leaf",
    ),
    (
        b"collapse ii ji t\n",
        b"io:2! jo:2![A,B,C] kos:2 t:4 ki:2 leaf",
    ),
];

/// How the variables follow after all of them.
const TUTORIAL_FORMS: &[u8] =
    b"i = io*2+ii;j = jo*2+ji;k = ko*2+ki;ko = (kos+io+jo) mod 2;ii = t div 2;ji = t mod 2;";

/// Three tensors on a grid, the statement and its commands; the nest and the derivations after them.
#[derive(Drop)]
struct Row {
    grid: &'static [u8],
    shapes: [&'static [u8]; 3],
    commands: &'static [u8],
    nest: &'static [u8],
    forms: &'static [u8],
}

const EXAMPLES: [Row; 7] = [
    Row {
        grid: b"2x2",
        shapes: [b"4x4", b"4x4", b"4x4"],
        commands: b"divide i io ii 2\ndivide j jo ji 2\nreorder io jo ii ji\nsplit k ko ki 2\nreorder ko ii ji\ndistribute io jo\ncommunicate jo A\ncommunicate ko B C\n",
        nest: b"io:2! jo:2![A] ko:2[B,C] ii:2 ji:2 ki:2 leaf",
        forms: b"i = io*2+ii;j = jo*2+ji;k = ko*2+ki;",
    },
    Row {
        grid: b"2x2",
        shapes: [b"4x4", b"4x4", b"4x4"],
        commands: b"divide i io ii 2\ndivide j jo ji 2\nreorder io jo ii ji\ndivide k ko ki 2\nreorder ko ii ji\nrotate ko io kos\ndistribute io jo\ncommunicate jo A\ncommunicate kos B C\n",
        nest: b"io:2! jo:2![A] kos:2[B,C] ii:2 ji:2 ki:2 leaf",
        forms: b"i = io*2+ii;j = jo*2+ji;k = ko*2+ki;ko = (kos+io) mod 2;",
    },
    Row {
        grid: b"3x3",
        shapes: [b"3x3", b"3x3", b"3x3"],
        commands: b"divide i io ii 3\ndivide j jo ji 3\nreorder io jo ii ji\ndivide k ko ki 3\nreorder ko ii ji\nrotate ko io jo kos\ndistribute io jo\ncommunicate jo A\ncommunicate kos B C\n",
        nest: b"io:3! jo:3![A] kos:3[B,C] ii:1 ji:1 ki:1 leaf",
        forms: b"i = io*1+ii;j = jo*1+ji;k = ko*1+ki;ko = (kos+io+jo) mod 3;",
    },
    Row {
        grid: b"1",
        shapes: [b"3x3", b"3x4", b"4x3"],
        commands: b"",
        nest: b"[A,B,C] i:3 j:3 k:4 leaf",
        forms: b"",
    },
    Row {
        grid: b"1",
        shapes: [b"3x3", b"3x4", b"4x3"],
        commands: b"split i io ii 2\nsplit j jo ji 2\nreorder io jo ii ji\n",
        nest: b"[A,B,C] io:2 jo:2 ii:2 ji:2 k:4 leaf",
        forms: b"i = io*2+ii;j = jo*2+ji;",
    },
    Row {
        grid: b"1",
        shapes: [b"3x3", b"3x4", b"4x3"],
        commands: b"reorder k j\nrotate k i r\n",
        nest: b"[A,B,C] i:3 r:4 j:3 leaf",
        forms: b"k = (r+i) mod 4;",
    },
    Row {
        grid: b"1",
        shapes: [b"3x3", b"3x4", b"4x3"],
        commands: b"collapse i j f\n",
        nest: b"[A,B,C] f:9 k:4 leaf",
        forms: b"i = f div 3;j = f mod 3;",
    },
];

/// The lines before a statement over tensors A, B and C.
fn head(out: &mut Bytes, grid: &[u8], shapes: &[&[u8]]) -> Result<(), NoMemory> {
    out.append(b"distal 1\nmachine ")?;
    out.append(grid)?;
    let names: [&[u8]; 3] = [b"A ", b"B ", b"C "];
    for (name, shape) in names.iter().zip(shapes.iter()) {
        out.append(b"\ntensor ")?;
        out.append(name)?;
        out.append(shape)?;
    }
    out.append(b"\n")
}

/// The nest, and its derivations with a `;` behind each.
fn texts_of(alloc: Global, sched: &Sched) -> Result<(Bytes, Bytes), NoMemory> {
    let mut nest = Bytes::new(alloc);
    put_nest(alloc, &mut nest, sched)?;
    let mut forms = Bytes::new(alloc);
    for derived in sched.parts().derived.as_slice() {
        put_derived(&mut forms, sched, derived)?;
        forms.append(b";")?;
    }
    Ok((nest, forms))
}

/// The texts of the product's nest on a grid, after these commands.
fn texts_after(
    alloc: Global,
    grid: &[u8],
    shapes: &[&[u8]],
    commands: &[u8],
) -> Result<(Bytes, Bytes), Fail> {
    let mut text = Bytes::new(alloc);
    head(&mut text, grid, shapes)?;
    text.append(PRODUCT)?;
    text.append(commands)?;
    text.append(b"end\n")?;
    if text.len() > 10_000 {
        return Err("too long")?;
    }
    let Ok(job) = read_job(alloc, text.as_slice()) else {
        return Err("no job")?;
    };
    match job.parts.as_slice() {
        [] => Err("no part")?,
        [part, ..] => Ok(texts_of(alloc, &part.sched)?),
    }
}

#[test]
fn the_nests_of_the_tutorial_are_printed(rt: HostRuntime) -> Result<(), Fail> {
    let shapes: [&[u8]; 3] = [b"4x4", b"4x4", b"4x4"];
    let mut commands = Bytes::new(rt.alloc());
    let mut last = Bytes::new(rt.alloc());
    for (command, wanted) in TUTORIAL {
        commands.append(command)?;
        let (nest, forms) = texts_after(rt.alloc(), b"2x2", &shapes, commands.as_slice())?;
        assert!(rt; nest.as_slice() == wanted);
        last = forms;
    }
    assert!(rt; last.as_slice() == TUTORIAL_FORMS);
    Ok(())
}

#[test]
fn the_nests_of_the_examples_are_printed(rt: HostRuntime) -> Result<(), Fail> {
    for row in EXAMPLES {
        let (nest, forms) = texts_after(rt.alloc(), row.grid, &row.shapes, row.commands)?;
        assert!(rt; nest.as_slice() == row.nest);
        assert!(rt; forms.as_slice() == row.forms);
    }
    Ok(())
}
