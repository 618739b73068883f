//! The pieces of needs from homes, replicas and empty ones among them.

use crate::{Pieces, pieces, shares};
use dt_base::NoMemory;
use dt_runs::Runs;
use std::alloc::Global;
use std::test::Fail;

fn set(alloc: Global, from: u32, end: u32) -> Result<Runs, NoMemory> {
    let mut all = Runs::empty(alloc);
    for x in from.min(64)..end.min(64) {
        let one = Runs::from_sorted(alloc, &[x])?;
        all = all.union(alloc, &one)?;
    }
    Ok(all)
}

/// Whether the pieces have these nodes with these words, each from its first up to, not including, its last.
fn are(alloc: Global, found: &Pieces, wanted: &[(u32, u32, u32)]) -> Result<bool, NoMemory> {
    let found = found.as_slice();
    if found.len() != wanted.len() {
        return Ok(false);
    }
    for (piece, (node, from, end)) in found.iter().zip(wanted) {
        let words = set(alloc, *from, *end)?;
        if piece.node != *node || !piece.words.is_same(&words) {
            return Ok(false);
        }
    }
    Ok(true)
}

#[test]
fn words_come_from_the_node_itself_or_the_least_holder(rt: HostRuntime) -> Result<(), Fail> {
    let alloc = rt.alloc();
    let homes = vec![in alloc; set(alloc, 0, 4)?, set(alloc, 2, 6)?, set(alloc, 0, 0)?]?;
    let rows: [(u32, u32, u32, &[(u32, u32, u32)]); 6] = [
        (1, 5, 2, &[(0, 1, 4), (1, 4, 5)]),
        (1, 5, 1, &[(0, 1, 2), (1, 2, 5)]),
        (1, 5, 0, &[(0, 1, 4), (1, 4, 5)]),
        (4, 6, 0, &[(1, 4, 6)]),
        (3, 3, 0, &[]),
        (6, 8, 2, &[]),
    ];
    for (from, end, node, wanted) in rows {
        let need = set(alloc, from, end)?;
        let found = pieces(alloc, &need, homes.as_slice(), node.min(2))?;
        assert!(rt; are(alloc, &found, wanted)?);
    }
    Ok(())
}

#[test]
fn shares_are_the_words_in_common(rt: HostRuntime) -> Result<(), Fail> {
    let alloc = rt.alloc();
    let homes = vec![in alloc; set(alloc, 0, 4)?, set(alloc, 2, 6)?, set(alloc, 0, 0)?]?;
    let rows: [(u32, u32, &[(u32, u32, u32)]); 3] = [
        (1, 5, &[(0, 1, 4), (1, 2, 5)]),
        (0, 2, &[(0, 0, 2)]),
        (6, 9, &[]),
    ];
    for (from, end, wanted) in rows {
        let need = set(alloc, from, end)?;
        let found = shares(alloc, &need, homes.as_slice())?;
        assert!(rt; are(alloc, &found, wanted)?);
    }
    Ok(())
}
