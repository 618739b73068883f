//! The sizes of plans, and their operations line after line, by hand.

use crate::jobs::{CANNON_2, CANNON_3, FOUR_NODES, JOHNSON, ONE_NODE, TWO_STATEMENTS, UNEQUAL};
use crate::plans::{made, put_counts, put_words};
use dt_base::{Bytes, NoMemory};
use dt_job::Job;
use dt_plan::{Kind, Op, Plan};
use dt_report::put_op;
use std::alloc::Global;
use std::test::Fail;

/// One statement without a factor.
const LITERAL: &str = "machine 1;tensor s scalar;stmt s = 5;end";

/// A statement that adds to its left tensor, so that nothing is set to 0 before.
const ADDS: &str = "machine 1;tensor a 2;tensor b 2;stmt a(i) += b(i);end";

/// No statement, and a tensor whose home is the first of two nodes.
const NO_STATEMENT: &str = "machine 2;tensor a 2";

/// One word of each of two tensors.
const SCALARS: &str = "machine 1;tensor s scalar;tensor b scalar;stmt s = b * 2;end";

/// A vector of four in blocks of 2, 2 and 0, and a statement that the first node does alone.
const EMPTY_HOME: &str = "\
machine 3;tensor a 4;tensor b 4;place a x -> x;place b x -> x;stmt a(i) = b(i);end";

/// Matrices of 8 by 8 on 2 by 2 nodes, with k in tiles of 4.
const SUMMA_8: &str = "\
machine 2x2;tensor A 8x8;tensor B 8x8;tensor C 8x8;place A xy -> xy;place B xy -> xy;place C xy -> xy;\
stmt A(i,j) = B(i,k) * C(k,j);divide i io ii 2;divide j jo ji 2;reorder io jo ii ji;split k ko ki 4;reorder ko ii ji;\
distribute io jo;communicate jo A;communicate ko B C;end";

/// What a plan has, in one line.
fn sizes(alloc: Global, lines: &str) -> Result<Bytes, Fail> {
    let (_job, plan) = made(alloc, lines)?;
    let mut out = Bytes::new(alloc);
    put_counts(&mut out, &plan)?;
    put_words(&mut out, &plan)?;
    Ok(out)
}

#[test]
fn plans_have_their_sizes(rt: HostRuntime) -> Result<(), Fail> {
    let rows = [
        (
            ONE_NODE,
            "ops 11 units 27 bounds 24 local 12 group 0 across 0",
        ),
        (
            FOUR_NODES,
            "ops 72 units 188 bounds 24 24 24 24 local 48 group 0 across 32",
        ),
        (
            SUMMA_8,
            "ops 72 units 876 bounds 96 96 96 96 local 192 group 0 across 128",
        ),
        (
            CANNON_3,
            "ops 225 units 225 bounds 6 6 6 6 6 6 6 6 6 local 27 group 0 across 36",
        ),
        (
            CANNON_2,
            "ops 72 units 188 bounds 24 24 24 24 local 48 group 0 across 32",
        ),
        (
            JOHNSON,
            "ops 81 units 81 bounds 15 3 3 3 3 3 3 3 local 3 group 0 across 21",
        ),
        (
            UNEQUAL,
            "ops 24 units 30 bounds 8 8 4 0 local 10 group 0 across 0",
        ),
        (
            TWO_STATEMENTS,
            "ops 16 units 22 bounds 14 local 8 group 0 across 0",
        ),
        (SCALARS, "ops 8 units 8 bounds 4 local 2 group 0 across 0"),
        (LITERAL, "ops 5 units 5 bounds 2 local 1 group 0 across 0"),
        (ADDS, "ops 7 units 10 bounds 8 local 4 group 0 across 0"),
        (
            NO_STATEMENT,
            "ops 0 units 0 bounds 2 0 local 0 group 0 across 0",
        ),
        (
            EMPTY_HOME,
            "ops 11 units 18 bounds 12 4 0 local 4 group 0 across 4",
        ),
    ];
    for (lines, wanted) in rows {
        let said = sizes(rt.alloc(), lines)?;
        assert!(rt; said.as_slice() == wanted.as_bytes(), "at {wanted}");
    }
    Ok(())
}

const ONE_NODE_OPS: &str = "\
op 0 0 0 - zero A 0-3
op 1 0 0 - alloc A 0-3
op 2 0 0 - alloc B 0-3
op 3 0 0 - alloc C 0-3
op 4 0 0 - copy B from 0 0-3
op 5 0 0 - copy C from 0 0-3
op 6 0 0 - task 8
op 7 0 0 - fold A to 0 0-3
op 8 0 0 - free A 0-3
op 9 0 0 - free B 0-3
op 10 0 0 - free C 0-3
";

const FOUR_NODES_OPS: &str = "\
op 0 0 0 - zero A 0-1,4-5
op 1 0 1 - zero A 2-3,6-7
op 2 0 2 - zero A 8-9,12-13
op 3 0 3 - zero A 10-11,14-15
op 4 0 0 0.0 alloc A 0-1,4-5
op 5 0 0 0.0.0 alloc B 0-1,4-5
op 6 0 0 0.0.0 alloc C 0-1,4-5
op 7 0 0 0.0.0 copy B from 0 0-1,4-5
op 8 0 0 0.0.0 copy C from 0 0-1,4-5
op 9 0 0 0.0.0 task 8
op 10 0 0 0.0.0 free B 0-1,4-5
op 11 0 0 0.0.0 free C 0-1,4-5
op 12 0 0 0.0.1 alloc B 2-3,6-7
op 13 0 0 0.0.1 alloc C 8-9,12-13
op 14 0 0 0.0.1 copy B from 1 2-3,6-7
op 15 0 0 0.0.1 copy C from 2 8-9,12-13
op 16 0 0 0.0.1 task 8
op 17 0 0 0.0.1 free B 2-3,6-7
op 18 0 0 0.0.1 free C 8-9,12-13
op 19 0 0 0.0 fold A to 0 0-1,4-5
op 20 0 0 0.0 free A 0-1,4-5
op 21 0 1 0.1 alloc A 2-3,6-7
op 22 0 1 0.1.0 alloc B 0-1,4-5
op 23 0 1 0.1.0 alloc C 2-3,6-7
op 24 0 1 0.1.0 copy B from 0 0-1,4-5
op 25 0 1 0.1.0 copy C from 1 2-3,6-7
op 26 0 1 0.1.0 task 8
op 27 0 1 0.1.0 free B 0-1,4-5
op 28 0 1 0.1.0 free C 2-3,6-7
op 29 0 1 0.1.1 alloc B 2-3,6-7
op 30 0 1 0.1.1 alloc C 10-11,14-15
op 31 0 1 0.1.1 copy B from 1 2-3,6-7
op 32 0 1 0.1.1 copy C from 3 10-11,14-15
op 33 0 1 0.1.1 task 8
op 34 0 1 0.1.1 free B 2-3,6-7
op 35 0 1 0.1.1 free C 10-11,14-15
op 36 0 1 0.1 fold A to 1 2-3,6-7
op 37 0 1 0.1 free A 2-3,6-7
op 38 0 2 1.0 alloc A 8-9,12-13
op 39 0 2 1.0.0 alloc B 8-9,12-13
op 40 0 2 1.0.0 alloc C 0-1,4-5
op 41 0 2 1.0.0 copy B from 2 8-9,12-13
op 42 0 2 1.0.0 copy C from 0 0-1,4-5
op 43 0 2 1.0.0 task 8
op 44 0 2 1.0.0 free B 8-9,12-13
op 45 0 2 1.0.0 free C 0-1,4-5
op 46 0 2 1.0.1 alloc B 10-11,14-15
op 47 0 2 1.0.1 alloc C 8-9,12-13
op 48 0 2 1.0.1 copy B from 3 10-11,14-15
op 49 0 2 1.0.1 copy C from 2 8-9,12-13
op 50 0 2 1.0.1 task 8
op 51 0 2 1.0.1 free B 10-11,14-15
op 52 0 2 1.0.1 free C 8-9,12-13
op 53 0 2 1.0 fold A to 2 8-9,12-13
op 54 0 2 1.0 free A 8-9,12-13
op 55 0 3 1.1 alloc A 10-11,14-15
op 56 0 3 1.1.0 alloc B 8-9,12-13
op 57 0 3 1.1.0 alloc C 2-3,6-7
op 58 0 3 1.1.0 copy B from 2 8-9,12-13
op 59 0 3 1.1.0 copy C from 1 2-3,6-7
op 60 0 3 1.1.0 task 8
op 61 0 3 1.1.0 free B 8-9,12-13
op 62 0 3 1.1.0 free C 2-3,6-7
op 63 0 3 1.1.1 alloc B 10-11,14-15
op 64 0 3 1.1.1 alloc C 10-11,14-15
op 65 0 3 1.1.1 copy B from 3 10-11,14-15
op 66 0 3 1.1.1 copy C from 3 10-11,14-15
op 67 0 3 1.1.1 task 8
op 68 0 3 1.1.1 free B 10-11,14-15
op 69 0 3 1.1.1 free C 10-11,14-15
op 70 0 3 1.1 fold A to 3 10-11,14-15
op 71 0 3 1.1 free A 10-11,14-15
";

const EMPTY_HOME_OPS: &str = "\
op 0 0 0 - zero a 0-1
op 1 0 1 - zero a 2-3
op 2 0 0 - alloc a 0-3
op 3 0 0 - alloc b 0-3
op 4 0 0 - copy b from 0 0-1
op 5 0 0 - copy b from 1 2-3
op 6 0 0 - task 4
op 7 0 0 - fold a to 0 0-1
op 8 0 0 - fold a to 1 2-3
op 9 0 0 - free a 0-3
op 10 0 0 - free b 0-3
";

const ADDS_OPS: &str = "\
op 0 0 0 - alloc a 0-1
op 1 0 0 - alloc b 0-1
op 2 0 0 - copy b from 0 0-1
op 3 0 0 - task 2
op 4 0 0 - fold a to 0 0-1
op 5 0 0 - free a 0-1
op 6 0 0 - free b 0-1
";

const LITERAL_OPS: &str = "\
op 0 0 0 - zero s 0
op 1 0 0 - alloc s 0
op 2 0 0 - task 1
op 3 0 0 - fold s to 0 0
op 4 0 0 - free s 0
";

/// Puts the line of an operation, under its statement's schedule.
fn put_line(out: &mut Bytes, job: &Job, number: usize, op: &Op) -> Result<(), NoMemory> {
    match job.parts.as_slice().get(op.stmt as usize) {
        None => Ok(()),
        Some(part) => put_op(out, &part.sched, number, op),
    }
}

/// The operations of a job, line after line.
fn operations(alloc: Global, lines: &str) -> Result<Bytes, Fail> {
    let (job, plan) = made(alloc, lines)?;
    let mut out = Bytes::new(alloc);
    for (number, op) in plan.ops().iter().enumerate() {
        put_line(&mut out, &job, number, op)?;
    }
    Ok(out)
}

#[test]
fn operations_stand_in_the_order_of_the_listing(rt: HostRuntime) -> Result<(), Fail> {
    let rows = [
        (ONE_NODE, ONE_NODE_OPS),
        (FOUR_NODES, FOUR_NODES_OPS),
        (EMPTY_HOME, EMPTY_HOME_OPS),
        (ADDS, ADDS_OPS),
        (LITERAL, LITERAL_OPS),
        (NO_STATEMENT, ""),
    ];
    for (lines, wanted) in rows {
        let said = operations(rt.alloc(), lines)?;
        assert!(rt; said.as_slice() == wanted.as_bytes(), "at {lines}");
    }
    Ok(())
}

/// Puts the lines of the operations of a node that copy.
fn put_copies(out: &mut Bytes, job: &Job, plan: &Plan, node: u32) -> Result<(), NoMemory> {
    for (number, op) in plan.ops().iter().enumerate() {
        if op.node == node && op.kind == Kind::Copy {
            put_line(out, job, number, op)?;
        }
    }
    Ok(())
}

const CANNON_NODE_5: &str = "\
op 132 0 5 1.2.0 copy B from 3 3
op 133 0 5 1.2.0 copy C from 2 2
op 139 0 5 1.2.1 copy B from 4 4
op 140 0 5 1.2.1 copy C from 5 5
op 146 0 5 1.2.2 copy B from 5 5
op 147 0 5 1.2.2 copy C from 8 8
";

const CANNON_NODE_1: &str = "\
op 36 0 1 0.1.0 copy B from 1 1
op 37 0 1 0.1.0 copy C from 4 4
op 43 0 1 0.1.1 copy B from 2 2
op 44 0 1 0.1.1 copy C from 7 7
op 50 0 1 0.1.2 copy B from 0 0
op 51 0 1 0.1.2 copy C from 1 1
";

const CANNON_2_NODE_1: &str = "\
op 24 0 1 0.1.0 copy B from 1 2-3,6-7
op 25 0 1 0.1.0 copy C from 3 10-11,14-15
op 31 0 1 0.1.1 copy B from 0 0-1,4-5
op 32 0 1 0.1.1 copy C from 1 2-3,6-7
";

#[test]
fn nodes_copy_from_the_first_home_that_has_the_words(rt: HostRuntime) -> Result<(), Fail> {
    let rows = [
        (CANNON_3, 5, CANNON_NODE_5),
        (CANNON_3, 1, CANNON_NODE_1),
        (CANNON_2, 1, CANNON_2_NODE_1),
        (UNEQUAL, 3, ""),
    ];
    for (lines, node, wanted) in rows {
        let (job, plan) = made(rt.alloc(), lines)?;
        let mut said = Bytes::new(rt.alloc());
        put_copies(&mut said, &job, &plan, node)?;
        assert!(rt; said.as_slice() == wanted.as_bytes(), "at {wanted}");
    }
    Ok(())
}
