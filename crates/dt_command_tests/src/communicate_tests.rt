//! Tensors at loops of a sum into A: which loop takes them, and where those are that no command names.

ghost use Rattle.std.specs.Prelude.{◌≡◌, ◌≤◌, IfOk};
ghost use Rattle.dt_nest.specs.Tree.{loop_count, tree_of};

use crate::fixtures::{Command, after, answered, are_moved, letter, product, tensor, told};
use dt_base::{NoMemory, ShortText, Vars};
use dt_model::{Access, Terms};
use dt_nest::{Kernel, Nest, Pairs, Rewrite, Walk, communicate_loop, name_of};
use dt_rewrite::Communicate;
use std::alloc::Global;
use std::test::Fail;

/// Each answer with the tensors that are moved then, and where.
#[test]
fn a_communicate_has_its_first_cause(rt: HostRuntime) -> Result<(), Fail> {
    let tasks = Command::Distribute(b"ij", &[5, 2]);
    let cut = Command::Split(b'k', *b"xy", 2);
    let named = Command::Communicate(b'k', b"A");
    let rows: [(&[Command<'_>], (u8, &[u8]), &[u8], &[(u8, u8)]); 10] = [
        (&[], (b'i', b"A"), b"ok".as_slice(), &[(b'A', b'i')]),
        (&[tasks], (b'j', b"A"), b"ok".as_slice(), &[(b'A', b'j')]),
        (&[cut], (b'x', b"A"), b"ok".as_slice(), &[(b'A', b'x')]),
        (&[cut], (b'k', b"B"), b"UnknownLoop k".as_slice(), &[]),
        (&[tasks], (b'i', b"AAB"), b"UnknownTensor B".as_slice(), &[]),
        (&[tasks], (b'i', b"AA"), b"Communicated A".as_slice(), &[]),
        (
            &[named],
            (b'k', b"A"),
            b"Communicated A".as_slice(),
            &[(b'A', b'k')],
        ),
        (
            &[named],
            (b'i', b"A"),
            b"Communicated A".as_slice(),
            &[(b'A', b'k')],
        ),
        (&[tasks], (b'i', b"A"), b"NotBelowTask i".as_slice(), &[]),
        (&[tasks], (b'k', b"A"), b"ok".as_slice(), &[(b'A', b'k')]),
    ];
    for (before, (var, tensors), wanted, moved) in rows {
        let sched = after(&rt, rt.alloc(), before, product(rt.alloc(), [5, 2, 3])?)?;
        let command = Command::Communicate(var, tensors);
        let (sched, answer) = answered(&rt, rt.alloc(), command, sched)?;
        assert_eq!(rt; answer.as_slice(), wanted);
        assert!(rt; are_moved(sched.parts(), moved));
    }
    Ok(())
}

/// The cause against moving A at loop k of a nest.
fn cause_at_k(alloc: Global, nest: Nest) -> Result<ShortText, NoMemory>
    requires { loop_count (tree_of nest) ≤ 16 }
{
    let mut parts = product(alloc, [5, 2, 3])?.into_parts();
    parts.nest = nest;
    let tensors = Vars::from_slice(alloc, &[0])?;
    let communicate = Communicate { var: 2, tensors };
    Ok(told(&communicate.first_cause(&parts)))
}

fn leaf(alloc: Global) -> Result<Nest, NoMemory>
    ensures { IfOk result (λ n. loop_count (tree_of n) ≡ 0) }
{
    let vars = Vars::from_slice(alloc, &[0, 1])?;
    Ok(Nest::Leaf {
        lhs: Access { tensor: 0, vars },
        terms: Terms::new(alloc),
        guards: Vars::new(alloc),
        kernel: Kernel::Plain,
    })
}

fn loop_k(alloc: Global, walk: Option<Walk>) -> Result<Nest, NoMemory>
    ensures { IfOk result (λ n. loop_count (tree_of n) ≡ 1) }
{
    let body = Box::new(alloc, leaf(alloc)?)?;
    Ok(Nest::Loop {
        var: 2,
        extent: 3,
        walk,
        body,
    })
}

/// Loop k in the consumer of a precompute node.
fn consumer_loop_k(alloc: Global) -> Result<Nest, NoMemory>
    ensures { IfOk result (λ n. loop_count (tree_of n) ≡ 1) }
{
    let producer = Box::new(alloc, leaf(alloc)?)?;
    let consumer = Box::new(alloc, loop_k(alloc, None)?)?;
    Ok(Nest::Pre {
        work: 0,
        pairs: Pairs::from_vec(Vec::new(alloc)),
        producer,
        consumer,
    })
}

#[test]
fn a_walked_loop_or_one_of_a_consumer_takes_no_tensor(rt: HostRuntime) -> Result<(), Fail> {
    let alloc = rt.alloc();
    let plain = loop_k(alloc, None)?;
    assert_eq!(rt; cause_at_k(alloc, plain)?.as_slice(), b"ok".as_slice());
    let vars = Vars::from_slice(alloc, &[2])?;
    let walked = loop_k(alloc, Some(Walk { tensor: 0, vars }))?;
    assert_eq!(rt;
        cause_at_k(alloc, walked)?.as_slice(),
        b"Fixed k".as_slice()
    );
    let inside = consumer_loop_k(alloc)?;
    assert_eq!(rt;
        cause_at_k(alloc, inside)?.as_slice(),
        b"BelowPre k".as_slice()
    );
    Ok(())
}

#[test]
fn other_tensors_are_moved_at_the_last_distributed_loop(rt: HostRuntime) -> Result<(), Fail> {
    let row = Command::Distribute(b"i", &[5]);
    let tiles = Command::Distribute(b"ij", &[5, 2]);
    let named = Command::Communicate(b'k', b"A");
    let rows: [(&[Command<'_>], u8, Option<u8>); 7] = [
        (&[], b'A', None),
        (&[row], b'A', Some(b'i')),
        (&[tiles], b'A', Some(b'j')),
        (&[named], b'A', Some(b'k')),
        (&[tiles, named], b'A', Some(b'k')),
        (&[tiles, named], b'B', Some(b'j')),
        (&[named], b'B', None),
    ];
    for (commands, moved, wanted) in rows {
        let sched = after(&rt, rt.alloc(), commands, product(rt.alloc(), [5, 2, 3])?)?;
        let at = communicate_loop(&sched, tensor(&rt, &sched, moved));
        let named = match at {
            Some(v) => Some(letter(&name_of(sched.parts(), v))),
            None => None,
        };
        assert_eq!(rt; named, wanted);
    }
    Ok(())
}
