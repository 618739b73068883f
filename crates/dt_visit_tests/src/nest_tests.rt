//! The first schedule of a matrix product, and a nest that is copied.

ghost use Rattle.std.specs.Prelude.{◌≡◌, ◌≤◌, IfOk, [], ◌∷◌, length};

use dt_base::{Extents, Name, Names, NoMemory, Vars};
use dt_model::{Access, Cause, Stmt, Terms};
use dt_nest::{Kernel, Nest, Rewrite, Sched, SchedParts, rewritten};
use std::alloc::Global;
use std::test::Fail;

fn access(alloc: Global, tensor: u32, vars: &[u32]) -> Result<Access, NoMemory> {
    let vars = Vars::from_slice(alloc, vars)?;
    Ok(Access { tensor, vars })
}

/// The loops of a nest around its leaf, from the outside in.
fn depth(nest: &Nest) -> u32 {
    match nest {
        Nest::Loop { body, .. } => depth(body).saturating_add(1),
        Nest::Pre { .. } => 0,
        Nest::Leaf { .. } => 0,
    }
}

#[test]
fn kernels_are_told_apart(rt: HostRuntime) -> Result<(), Fail> {
    assert_eq!(rt; Kernel::Dot, Kernel::Dot);
    assert_ne!(rt; Kernel::Dot, Kernel::Dot3);
    let alloc = rt.alloc();
    let leaf = Nest::Leaf {
        lhs: access(alloc, 0, &[0])?,
        terms: Terms::new(alloc),
        guards: Vars::new(alloc),
        kernel: Kernel::Plain,
    };
    let nest = Nest::Loop {
        var: 0,
        extent: 4,
        walk: None,
        body: Box::new(alloc, leaf)?,
    };
    assert_eq!(rt; depth(&nest), 1);
    assert_eq!(rt; depth(&nest.copied(alloc)?), 1);
    Ok(())
}

fn one_name(alloc: Global, name: &[u8]) -> Result<Names, NoMemory>
    requires { length name.now ≤ 64 }
    ensures { IfOk result (λ names. names ≡ name.now ∷ []) }
{
    let mut names = Names::new(alloc);
    names.push(Name::from_slice(name))?;
    Ok(names)
}

/// The schedule of a statement over two values of one variable, with no term.
fn empty_sum(alloc: Global) -> Result<Sched, NoMemory> {
    let vars = Vars::from_slice(alloc, &[0])?;
    let stmt = Stmt {
        lhs: Access { tensor: 0, vars },
        adds: true,
        terms: Terms::new(alloc),
        extents: Extents::from_slice(alloc, &[2])?,
    };
    let variables = one_name(alloc, b"i")?;
    let tensors = one_name(alloc, b"A")?;
    Sched::of_stmt(alloc, &stmt, &variables, &tensors)
}

/// A command that changes nothing.
#[derive(Drop)]
struct Nothing;

impl Rewrite for Nothing {
    ghost use Rattle.std.specs.Prelude.{None, refl};

    ghost rule = { λ c. record { can = λ s. Unit {0}; cause = λ s. None; effect = λ s. s; suits = λ stored s. Unit {0}; serves = λ dims. Unit {0} } };

    fn first_cause(&self, _parts: &SchedParts) -> Option<Cause> {
        None
    }

    fn applied(self, _alloc: Global, parts: SchedParts) -> Result<SchedParts, SchedParts> {
        Ok(parts)
    }

    ghost keeps = { λ c s l a e. record {
      lawful = λ few. l;
      sum = record { fits = λ stored tensors f. f; sums = λ stored tensors i f. refl };
      accesses = record { tensors = refl; accesses = λ a l. (λ h. h, λ h. h); reads = λ a l. (λ h. h, λ h. h); output = refl; unread = λ u. u };
      fit = λ stored suits f. f;
      grid = λ dims serves g. g;
    } };
}

#[test]
fn a_statement_has_a_loop_for_each_variable(rt: HostRuntime) -> Result<(), Fail> {
    let alloc = rt.alloc();
    let sched = empty_sum(alloc)?;
    assert_eq!(rt; depth(&sched.parts().nest), 1);
    match rewritten(Nothing, alloc, sched) {
        Ok(sched) => assert_eq!(rt; depth(&sched.parts().nest), 1),
        Err(_) => assert!(rt; false),
    }
    Ok(())
}
