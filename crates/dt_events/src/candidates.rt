//! The later operations that an operation is compared with.

ghost use Rattle.std.specs.Prelude.{◌≡◌, ◌<◌, ◌≤◌, ℕ, ◌++◌, [], IfOk, OnOk, ◌&&◌, false, length, map, nat_lt, slice_index_or};
ghost use Rattle.std.specs.List.{All, list_any};
ghost use Rattle.std.specs.List.Sorted.{IsNonDecreasing};
ghost use Rattle.dt_base.specs.Ranges.{below};
ghost use Rattle.dt_runs.specs.Sets.{contains};
ghost use Rattle.dt_plan.specs.declared.touches.Touch.{Touch};
ghost use Rattle.dt_events.specs.Candidates.{AreCandidates, IsNext, bucket_count, bucket_of, bucket_pairs, is_candidate, is_one_segment, share_bucket, sooner};
ghost use Rattle.dt_events.specs.Conflicts.{HasSegments};

use crate::conflicts::{op_count, segment_of};
use dt_base::{NoMemory, Numbers};
use dt_plan::{Buffer, Plan, Touch};
use dt_tracker::rows_of;
use std::alloc::Global;

/// How many buckets there are.
const BUCKET_COUNT: u64 = 8_191;

/// Operations by what they touch: a table that is hashed by node and buffer. A bucket has operations that touch one of its buffers,
/// ascending.
#[derive(Drop)]
pub(crate) struct Candidates {
    pub(crate) buckets: Vec<Numbers>,
    pub(crate) is_one_segment: bool,
}

/// The bucket of a footprint's buffer and node.
fn bucket_of(touch: &Touch) -> u32
    ensures bucket { result ≡ bucket_of touch.now }
    ensures within { result < bucket_count }
{
    let by_buffer = match touch.buffer {
        Buffer::Home(t) => 104_729 * u64::from(t),
        Buffer::Scratch(k, t) => 104_729 * u64::from(t) + 1_299_709 * (2 * u64::from(k) + 1),
        Buffer::Work(k, w) => 104_729 * u64::from(w) + 1_299_709 * (2 * u64::from(k) + 2),
    };
    ((7_919 * u64::from(touch.node) + by_buffer) % BUCKET_COUNT) as u32
}

/// Puts the bucket of each footprint at the end, with the operation.
fn push_buckets(pairs: &mut Vec<(u32, u32)>, op: u32, touches: &[Touch]) -> Result<(), NoMemory>
    ensures { OnOk result (pairs.new.items ≡ pairs.old.items ++ map (λ (f : Touch). (bucket_of f, op)) touches.now) }
{
    for touch in touches {
        pairs.push((bucket_of(touch), op))?;
    }
    Ok(())
}

/// The bucket of each footprint of a plan, with its operation.
fn bucket_pairs(alloc: Global, plan: &Plan) -> Result<Vec<(u32, u32)>, NoMemory>
    ensures { IfOk result (λ pairs. pairs.items ≡ bucket_pairs plan.now.touches (length plan.now.ops)) }
{
    let mut pairs = Vec::new(alloc);
    for op in 0..op_count(plan) {
        push_buckets(&mut pairs, op, plan.touches(op))?;
    }
    Ok(pairs)
}

/// Whether all operations of a plan are of one segment.
fn is_one_segment(plan: &Plan) -> bool
    requires { HasSegments plan.now }
    ensures { result ≡ is_one_segment plan.now }
{
    for op in 0..op_count(plan) {
        if segment_of(plan, op) != segment_of(plan, 0) {
            return false;
        }
    }
    true
}

/// The operations of a plan by what they touch.
pub(crate) fn candidates_of(alloc: Global, plan: &Plan) -> Result<Candidates, NoMemory>
    requires { HasSegments plan.now }
    ensures { IfOk result (λ candidates. AreCandidates plan.now candidates) }
{
    let pairs = bucket_pairs(alloc, plan)?;
    let buckets = rows_of(alloc, BUCKET_COUNT as u32, pairs.as_slice())?;
    Ok(Candidates {
        buckets,
        is_one_segment: is_one_segment(plan),
    })
}

/// The least number of a list above one.
fn next_in(numbers: &[u32], last: u32) -> Option<u32>
    requires up { IsNonDecreasing numbers.now }
    requires last { last < 4294967295 }
    ensures { IsNext (contains numbers.now) last result }
{
    match numbers.binary_search(&(last + 1)) {
        Ok(_) => Some(last + 1),
        Err(place) => {
            if place < numbers.len() {
                Some(numbers[place])
            } else {
                None
            }
        }
    }
}

/// The lesser of two numbers, where there are any.
fn sooner(a: Option<u32>, b: Option<u32>) -> Option<u32>
    ensures { result ≡ sooner a b }
{
    match (a, b) {
        (None, other) => other,
        (one, None) => one,
        (Some(a), Some(b)) => Some(if a < b { a } else { b }),
    }
}

/// The least operation above `last` that shares a bucket with an operation.
fn next_sharing(plan: &Plan, candidates: &Candidates, op: u32, last: u32) -> Option<u32>
    requires candidates { AreCandidates plan.now candidates.now }
    requires op { op < length plan.now.ops }
    requires last { last < 4294967295 }
    ensures { IsNext (λ x. nat_lt x (length plan.now.ops) && share_bucket (slice_index_or plan.now.touches op []) (slice_index_or plan.now.touches x [])) last result }
{
    let mut next = None;
    for touch in plan.touches(op) {
        let bucket = &candidates.buckets[bucket_of(touch) as usize];
        next = sooner(next, next_in(bucket.items.as_slice(), last));
    }
    next
}

/// The least operation above `last` that an operation is compared with.
pub(crate) fn next_candidate(
    plan: &Plan,
    candidates: &Candidates,
    op: u32,
    last: u32,
) -> Option<u32>
    requires candidates { AreCandidates plan.now candidates.now }
    requires op { op < length plan.now.ops }
    requires last { last < length plan.now.ops }
    ensures { IsNext (is_candidate plan.now op) last result }
{
    let count = op_count(plan);
    if candidates.is_one_segment {
        return next_sharing(plan, candidates, op, last);
    }
    let next = last + 1;
    if next < count { Some(next) } else { None }
}
