//! Numbers of words by node, none of them counted past the first number that is too great.

ghost use Rattle.std.specs.Prelude.{◌≡◌, ◌≤◌, ◌<◌, ◌+◌, [], ◌∷◌, length, map, max, min, slice_index, slice_set, sum, IfOk};
ghost use Rattle.std.specs.List.{AllByRecursion};
ghost use Rattle.dt_base.specs.Ranges.{below};
ghost use Rattle.dt_plan.specs.NodeWords.{capped, row_of, word_limit};

use dt_base::NoMemory;
use std::alloc::Global;

/// The most words of a plan, over all nodes.
pub(crate) const WORD_LIMIT: u64 = 16_777_216;

/// The words, or the first number past the limit.
pub(crate) fn capped(words: u64) -> u64
    ensures words { result ≡ capped words }
    ensures within { result ≤ word_limit + 1 }
{
    words.min(WORD_LIMIT + 1)
}

/// No words on any node.
pub(crate) fn no_words(alloc: Global, nodes: u32) -> Result<Vec<u64>, NoMemory>
    ensures { IfOk result (λ row. row.items ≡ row_of nodes (λ n. 0)) }
{
    let mut row = Vec::new(alloc);
    for _node in 0..nodes {
        row.push(0u64)?;
    }
    Ok(row)
}

/// The sums of the numbers of two rows.
pub(crate) fn summed(alloc: Global, left: &[u64], right: &[u64]) -> Result<Vec<u64>, NoMemory>
    requires { length left.now ≡ length right.now }
    ensures { IfOk result (λ row. row.items ≡ map (λ n. capped (capped (slice_index left.now n) + capped (slice_index right.now n))) (below (length left.now))) }
{
    let mut row = Vec::new(alloc);
    for (node, words) in left.iter().enumerate() {
        row.push(capped(capped(*words) + capped(right[node])))?;
    }
    Ok(row)
}

/// The greater numbers of two rows.
pub(crate) fn greater(alloc: Global, left: &[u64], right: &[u64]) -> Result<Vec<u64>, NoMemory>
    requires { length left.now ≡ length right.now }
    ensures { IfOk result (λ row. row.items ≡ map (λ n. max (slice_index left.now n) (slice_index right.now n)) (below (length left.now))) }
{
    let mut row = Vec::new(alloc);
    for (node, words) in left.iter().enumerate() {
        row.push((*words).max(right[node]))?;
    }
    Ok(row)
}

/// Raises the number of a node to these words, if they are more.
pub(crate) fn raise(row: &mut Vec<u64>, node: u32, words: u64)
    requires { node < length row.old.items }
    ensures { row.new.items ≡ slice_set row.old.items node (max (slice_index row.old.items node) (capped words)) }
{
    row[node as usize] = row[node as usize].max(capped(words));
}

/// The sum of a row, or the first number past the limit.
pub(crate) fn sum_of(row: &[u64]) -> u64
    ensures { result ≡ capped (sum row.now) }
{
    let mut total = 0u64;
    for words in row {
        total = capped(total + capped(*words));
    }
    total
}
