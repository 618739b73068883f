//! The search for the next visit of a nest. It goes down the tree anew each time, and takes no memory.

ghost use Rattle.std.specs.Prelude.{◌≡◌, ℕ, ◌≤◌, ◌<◌, ◌+◌, ◌-◌, ◌^◌, ◌&&◌, length, slice_index, drop};
ghost use Rattle.std.specs.List.{list_any, range_with_len};
ghost use Rattle.dt_nest.specs.Tree.{Loop, Pre, tree_of, leaf_count, is_kernel_leaf};
ghost use Rattle.dt_nest.specs.Naming.{pairs_in};
ghost use Rattle.dt_nest.specs.Visits.{Tests, is_valid, IsPathIn};
ghost use Rattle.dt_nest.specs.Cursor.{HasRoom};
ghost use Rattle.dt_nest.specs.Search.{AreZero, HaveSlots, IsAt, end_on, node_of, Finds, Enters, FindsFrom, Steps};

use crate::cursor::Cursor;
use crate::loops::{Kernel, Nest, Pair, Walk};
use crate::naming::Naming;

/// A place in a run over the visits: a leaf, by its number from the left, and how many of the workspaces around it were
/// reset before.
#[derive(Clone, Copy, Debug)]
pub struct Stand {
    pub leaf: u32,
    pub past: u32,
}

/// What a run over visits asks of values: whether a loop takes its value, and whether a leaf is visited.
pub trait Testing {
    ghost use Rattle.std.specs.Prelude.{ℕ};
    ghost use Rattle.dt_nest.specs.Visits.{Tests};
    ghost use Rattle.dt_nest.specs.Cursor.{HasRoom};

    ghost tests: { Self → Tests };

    /// When the tests may be asked.
    ghost ready: { Self → Type 0 };

    /// How many names there are.
    ghost room: { Self → ℕ };

    fn takes(&self, walk: &Option<Walk>, var: u32, naming: &Naming, cursor: &mut Cursor) -> bool
        requires ready { ready self.now }
        requires size { HasRoom cursor.old (room self.now) }
        ensures takes { result ≡ (tests self.now).takes walk.now var (pairs_in naming.now) cursor.old.slots.items }
        ensures slots { cursor.new.slots.items ≡ cursor.old.slots.items }
        ensures size { HasRoom cursor.new (room self.now) };

    fn holds(&self, leaf: &Nest, naming: &Naming, cursor: &mut Cursor) -> bool
        requires ready { ready self.now }
        requires size { HasRoom cursor.old (room self.now) }
        ensures holds { result ≡ (tests self.now).holds (node_of (tree_of leaf.now)) (pairs_in naming.now) cursor.old.slots.items }
        ensures slots { cursor.new.slots.items ≡ cursor.old.slots.items }
        ensures size { HasRoom cursor.new (room self.now) };
}

/// The number of leaves.
pub fn leaves(nest: &Nest) -> u32
    requires { leaf_count (tree_of nest.now) < 2 ^ 32 }
    ensures { result ≡ leaf_count (tree_of nest.now) }
{
    match nest {
        Nest::Loop { body, .. } => leaves(body),
        Nest::Pre {
            producer,
            consumer,
            ..
        } => leaves(producer) + leaves(consumer),
        Nest::Leaf { .. } => 1,
    }
}

/// Whether the nest is a leaf with a stored kernel.
pub fn has_kernel(nest: &Nest) -> bool
    ensures { result ≡ is_kernel_leaf (tree_of nest.now) }
{
    match nest {
        Nest::Loop { .. } => false,
        Nest::Pre { .. } => false,
        Nest::Leaf { kernel, .. } => match kernel {
            Kernel::Plain => false,
            Kernel::Dot => true,
            Kernel::Dot3 => true,
        },
    }
}

/// The head of a loop: its name, its walk, and what it goes around.
#[derive(Drop)]
struct Head<'a> {
    var: u32,
    walk: &'a Option<Walk>,
    body: &'a Nest,
}

/// The two branches of a precompute node, and the new names of loops in the producer.
#[derive(Drop)]
struct Branches<'a> {
    pairs: &'a [Pair],
    producer: &'a Nest,
    consumer: &'a Nest,
}

/// What a search keeps to: the tests that it asks, the names where it is, and the path.
#[derive(Drop)]
pub struct Route<'a, T: Testing> {
    pub tests: &'a T,
    pub naming: &'a Naming<'a>,
    pub path: &'a [u32],
}

/// Whether a substituted loop over a leaf has the value in its slot as a valid one.
fn is_lane<T: Testing>(head: &Head, route: &Route<T>, cursor: &mut Cursor) -> bool
    requires ready { T.ready route.now.tests.now }
    requires size { HasRoom cursor.old (T.room route.now.tests.now) }
    ensures valid { result ≡ ((T.tests route.now.tests.now).takes head.now.walk.now head.now.var (pairs_in route.now.naming.now) cursor.old.slots.items && (T.tests route.now.tests.now).holds (node_of (tree_of head.now.body.now)) (pairs_in route.now.naming.now) cursor.old.slots.items) }
    ensures slots { cursor.new.slots.items ≡ cursor.old.slots.items }
    ensures size { HasRoom cursor.new (T.room route.now.tests.now) }
{
    route.tests.takes(head.walk, head.var, route.naming, cursor)
        && route.tests.holds(head.body, route.naming, cursor)
}

/// Whether a substituted loop has a valid value. The slots stay.
fn has_lane<T: Testing>(head: &Head, extent: u32, route: &Route<T>, cursor: &mut Cursor) -> bool
    requires ready { T.ready route.now.tests.now }
    requires room { head.now.var < length cursor.old.slots.items }
    requires zero { slice_index cursor.old.slots.items head.now.var ≡ 0 }
    requires size { HasRoom cursor.old (T.room route.now.tests.now) }
    ensures found { result ≡ list_any (is_valid (T.tests route.now.tests.now) head.now.walk.now head.now.var (node_of (tree_of head.now.body.now)) (pairs_in route.now.naming.now) cursor.old.slots.items) (range_with_len 0 extent) }
    ensures slots { cursor.new.slots.items ≡ cursor.old.slots.items }
    ensures size { HasRoom cursor.new (T.room route.now.tests.now) }
{
    let at = head.var as usize;
    for x in 0..extent {
        cursor.slots[at] = x;
        let valid = is_lane(head, route, cursor);
        cursor.slots[at] = 0;
        if valid {
            return true;
        }
    }
    false
}

/// Goes to the first visit of a nest on a path, or leaves the slots as they are.
#[cycle(first)]
pub fn first<T: Testing>(nest: &Nest, route: &Route<T>, cursor: &mut Cursor) -> Option<u32>
    requires ready { T.ready route.now.tests.now }
    requires few { leaf_count (tree_of nest.now) < 2 ^ 32 }
    requires room { HaveSlots (tree_of nest.now) (length cursor.old.slots.items) }
    requires zero { AreZero (tree_of nest.now) cursor.old.slots.items }
    requires path { IsPathIn (tree_of nest.now) route.now.path.now }
    requires size { HasRoom cursor.old (T.room route.now.tests.now) }
    ensures finds { Finds (T.tests route.now.tests.now) (tree_of nest.now) (pairs_in route.now.naming.now) route.now.path.now cursor.old.slots.items cursor.new.slots.items result }
    ensures size { HasRoom cursor.new (T.room route.now.tests.now) }
{
    match nest {
        Nest::Loop {
            var,
            extent,
            walk,
            body,
        } => {
            let head = Head {
                var: *var,
                walk,
                body: &**body,
            };
            first_in_loop(&head, *extent, route, cursor)
        }
        Nest::Pre {
            pairs,
            producer,
            consumer,
            ..
        } => {
            let branches = Branches {
                pairs: pairs.as_slice(),
                producer: &**producer,
                consumer: &**consumer,
            };
            first_in_branches(&branches, route, cursor)
        }
        Nest::Leaf { .. } => if route.tests.holds(nest, route.naming, cursor) {
            Some(0)
        } else {
            None
        },
    }
}

/// Goes to the first visit of a loop.
#[cycle(first)]
fn first_in_loop<T: Testing>(
    head: &Head,
    extent: u32,
    route: &Route<T>,
    cursor: &mut Cursor,
) -> Option<u32>
    requires ready { T.ready route.now.tests.now }
    requires few { leaf_count (tree_of head.now.body.now) < 2 ^ 32 }
    requires room { HaveSlots (Loop head.now.var extent head.now.walk.now (tree_of head.now.body.now)) (length cursor.old.slots.items) }
    requires zero { AreZero (Loop head.now.var extent head.now.walk.now (tree_of head.now.body.now)) cursor.old.slots.items }
    requires path { IsPathIn (Loop head.now.var extent head.now.walk.now (tree_of head.now.body.now)) route.now.path.now }
    requires size { HasRoom cursor.old (T.room route.now.tests.now) }
    ensures finds { Finds (T.tests route.now.tests.now) (Loop head.now.var extent head.now.walk.now (tree_of head.now.body.now)) (pairs_in route.now.naming.now) route.now.path.now cursor.old.slots.items cursor.new.slots.items result }
    ensures size { HasRoom cursor.new (T.room route.now.tests.now) }
{
    if has_kernel(head.body) {
        return if has_lane(head, extent, route, cursor) {
            Some(0)
        } else {
            None
        };
    }
    match route.path.split_first() {
        None => first_from(head, route, 0, extent, cursor),
        Some((x, rest)) => {
            let below = Route {
                tests: route.tests,
                naming: route.naming,
                path: rest,
            };
            first_from(head, &below, *x, *x + 1, cursor)
        }
    }
}

/// Goes to the first visit of a precompute node.
#[cycle(first)]
fn first_in_branches<T: Testing>(
    branches: &Branches,
    route: &Route<T>,
    cursor: &mut Cursor,
) -> Option<u32>
    requires ready { T.ready route.now.tests.now }
    requires few { leaf_count (tree_of branches.now.producer.now) + leaf_count (tree_of branches.now.consumer.now) < 2 ^ 32 }
    requires room { HaveSlots (Pre 0 branches.now.pairs.now (tree_of branches.now.producer.now) (tree_of branches.now.consumer.now)) (length cursor.old.slots.items) }
    requires zero { AreZero (Pre 0 branches.now.pairs.now (tree_of branches.now.producer.now) (tree_of branches.now.consumer.now)) cursor.old.slots.items }
    requires size { HasRoom cursor.old (T.room route.now.tests.now) }
    ensures finds { (work : ℕ) → Finds (T.tests route.now.tests.now) (Pre work branches.now.pairs.now (tree_of branches.now.producer.now) (tree_of branches.now.consumer.now)) (pairs_in route.now.naming.now) route.now.path.now cursor.old.slots.items cursor.new.slots.items result }
    ensures size { HasRoom cursor.new (T.room route.now.tests.now) }
{
    let inner = Naming::Under(branches.pairs, route.naming);
    let inside = Route {
        tests: route.tests,
        naming: &inner,
        path: &[],
    };
    if let Some(leaf) = first(branches.producer, &inside, cursor) {
        return Some(leaf);
    }
    let outside = Route {
        tests: route.tests,
        naming: route.naming,
        path: &[],
    };
    match first(branches.consumer, &outside, cursor) {
        None => None,
        Some(leaf) => Some(leaves(branches.producer) + leaf),
    }
}

/// Goes to the first visit at the value that a loop's slot has, or leaves the slots as they are.
#[cycle(first)]
fn enter<T: Testing>(head: &Head, route: &Route<T>, cursor: &mut Cursor) -> Option<u32>
    requires ready { T.ready route.now.tests.now }
    requires few { leaf_count (tree_of head.now.body.now) < 2 ^ 32 }
    requires room { HaveSlots (tree_of head.now.body.now) (length cursor.old.slots.items) }
    requires zero { AreZero (tree_of head.now.body.now) cursor.old.slots.items }
    requires path { IsPathIn (tree_of head.now.body.now) route.now.path.now }
    requires size { HasRoom cursor.old (T.room route.now.tests.now) }
    ensures enters { Enters (T.tests route.now.tests.now) head.now.walk.now head.now.var (tree_of head.now.body.now) (pairs_in route.now.naming.now) route.now.path.now cursor.old.slots.items cursor.new.slots.items result }
    ensures size { HasRoom cursor.new (T.room route.now.tests.now) }
{
    if route.tests.takes(head.walk, head.var, route.naming, cursor) {
        first(head.body, route, cursor)
    } else {
        None
    }
}

/// Goes to the first visit of a loop's values from one number up to another.
#[cycle(first)]
fn first_from<T: Testing>(
    head: &Head,
    route: &Route<T>,
    from: u32,
    to: u32,
    cursor: &mut Cursor,
) -> Option<u32>
    requires ready { T.ready route.now.tests.now }
    requires few { leaf_count (tree_of head.now.body.now) < 2 ^ 32 }
    requires room { HaveSlots (Loop head.now.var to head.now.walk.now (tree_of head.now.body.now)) (length cursor.old.slots.items) }
    requires zero { AreZero (Loop head.now.var to head.now.walk.now (tree_of head.now.body.now)) cursor.old.slots.items }
    requires path { IsPathIn (tree_of head.now.body.now) route.now.path.now }
    requires size { HasRoom cursor.old (T.room route.now.tests.now) }
    ensures finds { FindsFrom (T.tests route.now.tests.now) head.now.walk.now head.now.var (tree_of head.now.body.now) (pairs_in route.now.naming.now) route.now.path.now from to cursor.old.slots.items cursor.new.slots.items result }
    ensures size { HasRoom cursor.new (T.room route.now.tests.now) }
{
    let at = head.var as usize;
    for i in from..to {
        cursor.slots[at] = i;
        if let Some(leaf) = enter(head, route, cursor) {
            return Some(leaf);
        }
        cursor.slots[at] = 0;
    }
    None
}

/// A path below its first loop.
fn below_first(path: &[u32]) -> &[u32]
    ensures { result.now ≡ drop 1 path.now }
{
    match path.split_first() {
        None => path,
        Some((_, rest)) => rest,
    }
}

/// The end of the values that a loop goes through from `x` on: its extent, or `x` alone on a path.
fn end_of(path: &[u32], extent: u32, x: u32) -> u32
    requires { x < extent }
    ensures { result ≡ end_on path.now extent x }
{
    match path.split_first() {
        None => extent,
        Some(_) => x + 1,
    }
}

/// Goes from the visit of a leaf to the next visit on a path, or sets the slots of the nest to 0.
#[cycle(next_visit)]
pub fn next_visit<T: Testing>(
    nest: &Nest,
    route: &Route<T>,
    leaf: u32,
    cursor: &mut Cursor,
) -> Option<Stand>
    requires ready { T.ready route.now.tests.now }
    requires few { leaf_count (tree_of nest.now) < 2 ^ 32 }
    requires room { HaveSlots (tree_of nest.now) (length cursor.old.slots.items) }
    requires stands { IsAt (tree_of nest.now) cursor.old.slots.items leaf }
    requires path { IsPathIn (tree_of nest.now) route.now.path.now }
    requires size { HasRoom cursor.old (T.room route.now.tests.now) }
    ensures steps { Steps (T.tests route.now.tests.now) (tree_of nest.now) (pairs_in route.now.naming.now) route.now.path.now leaf cursor.old.slots.items cursor.new.slots.items result }
    ensures size { HasRoom cursor.new (T.room route.now.tests.now) }
{
    match nest {
        Nest::Loop {
            var,
            extent,
            walk,
            body,
        } => {
            let head = Head {
                var: *var,
                walk,
                body: &**body,
            };
            next_in_loop(&head, *extent, route, leaf, cursor)
        }
        Nest::Pre {
            pairs,
            producer,
            consumer,
            ..
        } => {
            let branches = Branches {
                pairs: pairs.as_slice(),
                producer: &**producer,
                consumer: &**consumer,
            };
            if leaf < leaves(branches.producer) {
                next_in_producer(&branches, route, leaf, cursor)
            } else {
                next_in_consumer(&branches, route, leaf, cursor)
            }
        }
        Nest::Leaf { .. } => None,
    }
}

/// Goes from the visit of a leaf in a loop to the next one in it.
#[cycle(next_visit)]
fn next_in_loop<T: Testing>(
    head: &Head,
    extent: u32,
    route: &Route<T>,
    leaf: u32,
    cursor: &mut Cursor,
) -> Option<Stand>
    requires ready { T.ready route.now.tests.now }
    requires few { leaf_count (tree_of head.now.body.now) < 2 ^ 32 }
    requires room { HaveSlots (Loop head.now.var extent head.now.walk.now (tree_of head.now.body.now)) (length cursor.old.slots.items) }
    requires stands { IsAt (Loop head.now.var extent head.now.walk.now (tree_of head.now.body.now)) cursor.old.slots.items leaf }
    requires path { IsPathIn (Loop head.now.var extent head.now.walk.now (tree_of head.now.body.now)) route.now.path.now }
    requires size { HasRoom cursor.old (T.room route.now.tests.now) }
    ensures steps { Steps (T.tests route.now.tests.now) (Loop head.now.var extent head.now.walk.now (tree_of head.now.body.now)) (pairs_in route.now.naming.now) route.now.path.now leaf cursor.old.slots.items cursor.new.slots.items result }
    ensures size { HasRoom cursor.new (T.room route.now.tests.now) }
{
    if has_kernel(head.body) {
        return None;
    }
    let x = cursor.slots[head.var as usize];
    let below = Route {
        tests: route.tests,
        naming: route.naming,
        path: below_first(route.path),
    };
    if let Some(stand) = next_visit(head.body, &below, leaf, cursor) {
        return Some(stand);
    }
    cursor.slots[head.var as usize] = 0;
    let to = end_of(route.path, extent, x);
    match first_from(head, &below, x + 1, to, cursor) {
        None => None,
        Some(leaf) => Some(Stand { leaf, past: 0 }),
    }
}

/// Goes from the visit of a leaf in a producer to the next one there, or to the first one of the consumer.
#[cycle(next_visit)]
fn next_in_producer<T: Testing>(
    branches: &Branches,
    route: &Route<T>,
    leaf: u32,
    cursor: &mut Cursor,
) -> Option<Stand>
    requires ready { T.ready route.now.tests.now }
    requires few { leaf_count (tree_of branches.now.producer.now) + leaf_count (tree_of branches.now.consumer.now) < 2 ^ 32 }
    requires room { HaveSlots (Pre 0 branches.now.pairs.now (tree_of branches.now.producer.now) (tree_of branches.now.consumer.now)) (length cursor.old.slots.items) }
    requires stands { IsAt (Pre 0 branches.now.pairs.now (tree_of branches.now.producer.now) (tree_of branches.now.consumer.now)) cursor.old.slots.items leaf }
    requires inside { leaf < leaf_count (tree_of branches.now.producer.now) }
    requires size { HasRoom cursor.old (T.room route.now.tests.now) }
    ensures steps { (work : ℕ) → Steps (T.tests route.now.tests.now) (Pre work branches.now.pairs.now (tree_of branches.now.producer.now) (tree_of branches.now.consumer.now)) (pairs_in route.now.naming.now) route.now.path.now leaf cursor.old.slots.items cursor.new.slots.items result }
    ensures size { HasRoom cursor.new (T.room route.now.tests.now) }
{
    let inner = Naming::Under(branches.pairs, route.naming);
    let inside = Route {
        tests: route.tests,
        naming: &inner,
        path: &[],
    };
    if let Some(stand) = next_visit(branches.producer, &inside, leaf, cursor) {
        return Some(Stand {
            leaf: stand.leaf,
            past: stand.past + 1,
        });
    }
    let outside = Route {
        tests: route.tests,
        naming: route.naming,
        path: &[],
    };
    match first(branches.consumer, &outside, cursor) {
        None => None,
        Some(leaf) => Some(Stand {
            leaf: leaves(branches.producer) + leaf,
            past: 1,
        }),
    }
}

/// Goes from the visit of a leaf in a consumer to the next one there.
#[cycle(next_visit)]
fn next_in_consumer<T: Testing>(
    branches: &Branches,
    route: &Route<T>,
    leaf: u32,
    cursor: &mut Cursor,
) -> Option<Stand>
    requires ready { T.ready route.now.tests.now }
    requires few { leaf_count (tree_of branches.now.producer.now) + leaf_count (tree_of branches.now.consumer.now) < 2 ^ 32 }
    requires room { HaveSlots (Pre 0 branches.now.pairs.now (tree_of branches.now.producer.now) (tree_of branches.now.consumer.now)) (length cursor.old.slots.items) }
    requires stands { IsAt (Pre 0 branches.now.pairs.now (tree_of branches.now.producer.now) (tree_of branches.now.consumer.now)) cursor.old.slots.items leaf }
    requires inside { leaf_count (tree_of branches.now.producer.now) ≤ leaf }
    requires size { HasRoom cursor.old (T.room route.now.tests.now) }
    ensures steps { (work : ℕ) → Steps (T.tests route.now.tests.now) (Pre work branches.now.pairs.now (tree_of branches.now.producer.now) (tree_of branches.now.consumer.now)) (pairs_in route.now.naming.now) route.now.path.now leaf cursor.old.slots.items cursor.new.slots.items result }
    ensures size { HasRoom cursor.new (T.room route.now.tests.now) }
{
    let count = leaves(branches.producer);
    let outside = Route {
        tests: route.tests,
        naming: route.naming,
        path: &[],
    };
    match next_visit(branches.consumer, &outside, leaf - count, cursor) {
        None => None,
        Some(stand) => Some(Stand {
            leaf: count + stand.leaf,
            past: stand.past + 1,
        }),
    }
}
