//! For tests: the loops of a matrix product, commands by letters, and what they have to make of a schedule.

ghost use Rattle.std.specs.Prelude.{◌≡◌, ◌+◌, ◌<◌, [], ◌∷◌, IfOk, length};
ghost use Rattle.std.specs.List.{AllByRecursion};
ghost use Rattle.std.specs.Bool.{OnTrue};

use dt_base::{Extents, Name, Names, NoMemory, ShortText, Vars};
use dt_model::{Access, Cause, Stmt, Terms};
use dt_nest::{Derive, Derived, Moved, Nest, Rewrite, RewriteEnd, Sched, SchedParts, name_of};
use dt_rewrite::{Collapse, Communicate, Distribute, Divide, Reorder, Rotate, Split};
use std::alloc::Global;
use std::process::Abort;

/// The text of a cause, or `ok`.
pub(crate) fn told(cause: &Option<Cause>) -> ShortText {
    match cause {
        None => ok(),
        Some(cause) => cause.text(),
    }
}

fn ok() -> ShortText {
    let mut text = ShortText::new();
    text.append(b"ok");
    text
}

pub(crate) fn letter(name: &Name) -> u8 {
    match name.as_slice() {
        [letter] => *letter,
        _ => b'?',
    }
}

pub(crate) fn name(letter: u8) -> Name {
    Name::from_slice(&[letter])
}

fn loop_names(alloc: Global) -> Result<Names, NoMemory>
    ensures { IfOk result (λ names. names ≡ (105 ∷ []) ∷ (106 ∷ []) ∷ (107 ∷ []) ∷ []) }
{
    let mut names = Names::new(alloc);
    names.push(Name::from_slice(b"i"))?;
    names.push(Name::from_slice(b"j"))?;
    names.push(Name::from_slice(b"k"))?;
    Ok(names)
}

fn tensor_names(alloc: Global) -> Result<Names, NoMemory>
    ensures { IfOk result (λ names. names ≡ (65 ∷ []) ∷ (66 ∷ []) ∷ []) }
{
    let mut names = Names::new(alloc);
    names.push(Name::from_slice(b"A"))?;
    names.push(Name::from_slice(b"B"))?;
    Ok(names)
}

/// The schedule of a sum into A, which accesses no B: the loops i, j and k with these extents.
pub(crate) fn product(alloc: Global, [i, j, k]: [u32; 3]) -> Result<Sched, NoMemory> {
    let vars = Vars::from_slice(alloc, &[0, 1])?;
    let stmt = Stmt {
        lhs: Access { tensor: 0, vars },
        adds: true,
        terms: Terms::new(alloc),
        extents: Extents::from_slice(alloc, &[i, j, k])?,
    };
    let variables = loop_names(alloc)?;
    let tensors = tensor_names(alloc)?;
    Sched::of_stmt(alloc, &stmt, &variables, &tensors)
}

/// A command, with a letter for each loop.
#[derive(Clone, Copy)]
pub(crate) enum Command<'a> {
    Split(u8, [u8; 2], u32),
    Divide(u8, [u8; 2], u32),
    Reorder(&'a [u8]),
    Collapse(u8, u8, u8),
    Rotate(u8, &'a [u8], u8),
    Distribute(&'a [u8], &'a [u32]),
    Communicate(u8, &'a [u8]),
}

/// The number of the loop or variable with this letter.
fn number(rt: &impl Abort, sched: &Sched, wanted: u8) -> u32
    ensures { result < length sched.now.names }
{
    let names = sched.parts().names.as_slice();
    let place = names.iter().position(|n| letter(n) == wanted);
    let at = place.expect(rt, "a loop or variable has the letter");
    assert!(rt; at <= u32::MAX as usize);
    at as u32
}

fn knows_all(sched: &Sched, vars: &[u32]) -> bool
    ensures { OnTrue result (AllByRecursion (λ v. v < length sched.now.names) vars.now) }
{
    match vars.split_first() {
        None => true,
        Some((v, rest)) => {
            (*v as usize) < sched.parts().names.as_slice().len() && knows_all(sched, rest)
        }
    }
}

fn numbers(
    rt: &impl Abort,
    alloc: Global,
    sched: &Sched,
    letters: &[u8],
) -> Result<Vars, NoMemory> {
    let mut vars = Vars::new(alloc);
    for letter in letters {
        vars.push(number(rt, sched, *letter))?;
    }
    Ok(vars)
}

/// The answer to a command, and the schedule after it.
pub(crate) fn answered(
    rt: &impl Abort,
    alloc: Global,
    command: Command<'_>,
    sched: Sched,
) -> Result<(Sched, ShortText), NoMemory> {
    match applied(rt, alloc, command, sched)? {
        Ok(sched) => Ok((sched, ok())),
        Err(RewriteEnd::Illegal(sched, cause)) => Ok((sched, cause.text())),
        Err(RewriteEnd::NoMemory(_)) => Err(NoMemory),
    }
}

/// The schedule after commands that are all legal.
pub(crate) fn after(
    rt: &impl Abort,
    alloc: Global,
    commands: &[Command<'_>],
    first: Sched,
) -> Result<Sched, NoMemory> {
    let mut sched = first;
    for command in commands {
        let (next, answer) = answered(rt, alloc, *command, sched)?;
        assert_eq!(rt; answer.as_slice(), b"ok".as_slice());
        sched = next;
    }
    Ok(sched)
}

fn applied(
    rt: &impl Abort,
    alloc: Global,
    command: Command<'_>,
    sched: Sched,
) -> Result<Result<Sched, RewriteEnd>, NoMemory> {
    match command {
        Command::Split(var, new, factor) => Ok(split(rt, alloc, sched, var, new, factor)),
        Command::Divide(var, new, pieces) => Ok(divide(rt, alloc, sched, var, new, pieces)),
        Command::Reorder(vars) => reorder(rt, alloc, sched, vars),
        Command::Collapse(outer, inner, fused) => {
            Ok(collapse(rt, alloc, sched, outer, inner, fused))
        }
        Command::Rotate(var, by, fresh) => rotate(rt, alloc, sched, var, by, fresh),
        Command::Distribute(vars, grid) => distribute(rt, alloc, sched, vars, grid),
        Command::Communicate(var, tensors) => communicate(rt, alloc, sched, var, tensors),
    }
}

fn split(
    rt: &impl Abort,
    alloc: Global,
    sched: Sched,
    var: u8,
    [outer, inner]: [u8; 2],
    factor: u32,
) -> Result<Sched, RewriteEnd> {
    let split = Split {
        var: number(rt, &sched, var),
        outer: name(outer),
        inner: name(inner),
        factor,
    };
    split.apply(alloc, sched)
}

fn divide(
    rt: &impl Abort,
    alloc: Global,
    sched: Sched,
    var: u8,
    [outer, inner]: [u8; 2],
    pieces: u32,
) -> Result<Sched, RewriteEnd> {
    let divide = Divide {
        var: number(rt, &sched, var),
        outer: name(outer),
        inner: name(inner),
        pieces,
    };
    divide.apply(alloc, sched)
}

fn reorder(
    rt: &impl Abort,
    alloc: Global,
    sched: Sched,
    vars: &[u8],
) -> Result<Result<Sched, RewriteEnd>, NoMemory> {
    let vars = numbers(rt, alloc, &sched, vars)?;
    assert!(rt; knows_all(&sched, vars.as_slice()));
    Ok(Reorder { vars }.apply(alloc, sched))
}

fn collapse(
    rt: &impl Abort,
    alloc: Global,
    sched: Sched,
    outer: u8,
    inner: u8,
    fused: u8,
) -> Result<Sched, RewriteEnd> {
    let collapse = Collapse {
        outer: number(rt, &sched, outer),
        inner: number(rt, &sched, inner),
        fused: name(fused),
    };
    collapse.apply(alloc, sched)
}

fn rotate(
    rt: &impl Abort,
    alloc: Global,
    sched: Sched,
    var: u8,
    by: &[u8],
    fresh: u8,
) -> Result<Result<Sched, RewriteEnd>, NoMemory> {
    let var = number(rt, &sched, var);
    let by = numbers(rt, alloc, &sched, by)?;
    let fresh = name(fresh);
    assert!(rt; knows_all(&sched, by.as_slice()));
    Ok(Rotate { var, by, fresh }.apply(alloc, sched))
}

fn distribute(
    rt: &impl Abort,
    alloc: Global,
    sched: Sched,
    vars: &[u8],
    grid: &[u32],
) -> Result<Result<Sched, RewriteEnd>, NoMemory> {
    let vars = numbers(rt, alloc, &sched, vars)?;
    let grid = Extents::from_slice(alloc, grid)?;
    assert!(rt; knows_all(&sched, vars.as_slice()));
    Ok(Distribute { vars, grid }.apply(alloc, sched))
}

/// The number of the tensor with this letter.
pub(crate) fn tensor(rt: &impl Abort, sched: &Sched, wanted: u8) -> u32
    ensures { result < length sched.now.tensors }
{
    let names = sched.parts().tensors.as_slice();
    let place = names.iter().position(|n| letter(n) == wanted);
    let at = place.expect(rt, "a tensor has the letter");
    assert!(rt; at <= u32::MAX as usize);
    at as u32
}

fn tensors(rt: &impl Abort, alloc: Global, sched: &Sched, letters: &[u8]) -> Result<Vars, NoMemory>
    ensures { IfOk result (λ ts. AllByRecursion (λ t. t < length sched.now.tensors + length sched.now.works) ts) }
{
    let mut found = Vars::new(alloc);
    for letter in letters {
        found.push(tensor(rt, sched, *letter))?;
    }
    Ok(found)
}

fn communicate(
    rt: &impl Abort,
    alloc: Global,
    sched: Sched,
    var: u8,
    letters: &[u8],
) -> Result<Result<Sched, RewriteEnd>, NoMemory> {
    let var = number(rt, &sched, var);
    let tensors = tensors(rt, alloc, &sched, letters)?;
    Ok(Communicate { var, tensors }.apply(alloc, sched))
}

/// How a loop's value follows, with a letter for each loop.
#[derive(Clone, Copy)]
pub(crate) enum How<'a> {
    Split(u8, u8, u32),
    Quotient(u8, u32),
    Rest(u8, u32),
    Rotate(u8, &'a [u8], u32),
}

/// What a schedule has to be: its loops with their extents from the outside in, the leaf's guards, how replaced loops
/// follow, and how many loops are distributed.
#[derive(Clone, Copy)]
pub(crate) struct Wanted<'a> {
    pub loops: &'a [(u8, u32)],
    pub guards: &'a [u8],
    pub derived: &'a [(u8, How<'a>)],
    pub distributed: u32,
}

impl Wanted<'_> {
    pub(crate) fn is_met(&self, parts: &SchedParts) -> bool {
        is_nest(parts, &parts.nest, self.loops, self.guards)
            && are_derived(parts, parts.derived.as_slice(), self.derived)
            && parts.distributed == self.distributed
    }
}

fn is_called(parts: &SchedParts, v: u32, wanted: u8) -> bool {
    letter(&name_of(parts, v)) == wanted
}

fn are_called(parts: &SchedParts, vars: &[u32], letters: &[u8]) -> bool {
    vars.len() == letters.len()
        && vars
            .iter()
            .zip(letters)
            .all(|(v, l)| is_called(parts, *v, *l))
}

fn is_nest(parts: &SchedParts, nest: &Nest, loops: &[(u8, u32)], wanted: &[u8]) -> bool {
    match nest {
        Nest::Loop {
            var,
            extent,
            walk,
            body,
        } => match loops.split_first() {
            None => false,
            Some(((letter, n), rest)) => {
                is_called(parts, *var, *letter)
                    && *extent == *n
                    && walk.is_none()
                    && is_nest(parts, body, rest, wanted)
            }
        },
        Nest::Pre { .. } => false,
        Nest::Leaf { guards, .. } => {
            loops.is_empty() && are_called(parts, guards.as_slice(), wanted)
        }
    }
}

fn are_derived(parts: &SchedParts, derived: &[Derived], wanted: &[(u8, How<'_>)]) -> bool {
    derived.len() == wanted.len()
        && derived.iter().zip(wanted).all(|(d, (letter, how))| is_called(parts, d.var, *letter)
            && follows(parts, &d.how, how))
}

fn follows(parts: &SchedParts, how: &Derive, wanted: &How<'_>) -> bool {
    match (how, wanted) {
        (
            Derive::Split {
                outer,
                inner,
                factor,
            },
            How::Split(o, i, f),
        ) => is_called(parts, *outer, *o) && is_called(parts, *inner, *i) && *factor == *f,
        (Derive::Quotient { fused, by }, How::Quotient(f, n)) => {
            is_called(parts, *fused, *f) && *by == *n
        }
        (Derive::Rest { fused, by }, How::Rest(f, n)) => is_called(parts, *fused, *f) && *by == *n,
        (Derive::Rotate { base, by, extent }, How::Rotate(b, loops, n)) => {
            is_called(parts, *base, *b) && are_called(parts, by.as_slice(), loops) && *extent == *n
        }
        _ => false,
    }
}

/// Whether these tensors are moved at these loops, with a letter for each.
pub(crate) fn are_moved(parts: &SchedParts, wanted: &[(u8, u8)]) -> bool {
    let moved = parts.moved.as_slice();
    moved.len() == wanted.len()
        && moved
            .iter()
            .zip(wanted)
            .all(|(m, (t, v))| is_move(parts, m, *t, *v))
}

fn is_move(parts: &SchedParts, moved: &Moved, tensor: u8, at: u8) -> bool {
    let names = parts.tensors.as_slice();
    let named = match names.get(moved.tensor as usize) {
        Some(name) => letter(name) == tensor,
        None => false,
    };
    named && is_called(parts, moved.at, at)
}
