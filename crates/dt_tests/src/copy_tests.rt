//! Jobs after published algorithms: which words each step needs, and which nodes have them.

use crate::copies::copies;
use dt_job::read_job;
use dt_runs::Runs;
use std::alloc::Global;
use std::test::Fail;

/// After SUMMA: 4x4 matrices on 2x2 nodes, k in chunks of 2.
const SUMMA: &[u8] = b"distal 1
machine 2x2
tensor A 4x4
tensor B 4x4
tensor C 4x4
place A xy -> xy
place B xy -> xy
place C xy -> xy
fill B ramp
fill C ramp
stmt A(i,j) = B(i,k) * C(k,j)
divide i io ii 2
divide j jo ji 2
reorder io jo ii ji
split k ko ki 2
reorder ko ii ji
distribute io jo
communicate jo A
communicate ko B C
end
print A
";

/// After Cannon: 3x3 matrices on 3x3 nodes.
const CANNON: &[u8] = b"distal 1
machine 3x3
tensor A 3x3
tensor B 3x3
tensor C 3x3
place A xy -> xy
place B xy -> xy
place C xy -> xy
fill B ramp
fill C ramp
stmt A(i,j) = B(i,k) * C(k,j)
divide i io ii 3
divide j jo ji 3
reorder io jo ii ji
divide k ko ki 3
reorder ko ii ji
rotate ko io jo kos
distribute io jo
communicate jo A
communicate kos B C
end
print A
";

const A: u32 = 0;

const B: u32 = 1;

const C: u32 = 2;

/// A tensor, a path, the path's node, the words that are needed, and the one node that they come from.
type Row<'a> = (u32, &'a [u32], u32, &'a [u32], u32);

/// Whether the set has these numbers, which ascend.
fn has(runs: &Runs, numbers: &[u32]) -> bool {
    let mut place = 0;
    for x in numbers {
        if runs.at(place) != Some(*x) {
            return false;
        }
        place = place.saturating_add(1);
    }
    runs.count() == place
}

/// Whether what each row needs comes from its node, all of it.
fn agree(alloc: Global, text: &[u8], rows: &[Row]) -> Result<bool, Fail> {
    if text.len() > 10_000 {
        return Err("too long")?;
    }
    let Ok(job) = read_job(alloc, text) else {
        return Err("no job")?;
    };
    for (tensor, path, node, words, from) in rows {
        let found = copies(alloc, &job, *tensor, *path, *node)?.ok_or("no copies")?;
        if !has(&found.need, *words) {
            return Ok(false);
        }
        match found.pieces.as_slice() {
            [piece] => {
                if piece.node != *from || !has(&piece.words, *words) {
                    return Ok(false);
                }
            }
            _ => return Ok(false),
        }
    }
    Ok(true)
}

#[test]
fn each_step_of_summa_needs_a_block_of_its_row_and_one_of_its_column(
    rt: HostRuntime,
) -> Result<(), Fail> {
    let rows: [Row; 7] = [
        (A, &[0, 0], 0, &[0, 1, 4, 5], 0),
        (B, &[0, 0, 0], 0, &[0, 1, 4, 5], 0),
        (C, &[0, 0, 0], 0, &[0, 1, 4, 5], 0),
        (B, &[0, 0, 1], 0, &[2, 3, 6, 7], 1),
        (C, &[0, 0, 1], 0, &[8, 9, 12, 13], 2),
        (B, &[1, 1, 0], 3, &[8, 9, 12, 13], 2),
        (C, &[1, 1, 0], 3, &[2, 3, 6, 7], 1),
    ];
    assert!(rt; agree(rt.alloc(), SUMMA, &rows)?);
    Ok(())
}

#[test]
fn each_step_of_cannon_takes_another_block(rt: HostRuntime) -> Result<(), Fail> {
    // Node 5 is (1, 2), node 1 is (0, 1). A block is one word here, numbered as its node.
    let rows: [Row; 9] = [
        (B, &[1, 2, 0], 5, &[3], 3),
        (B, &[1, 2, 1], 5, &[4], 4),
        (B, &[1, 2, 2], 5, &[5], 5),
        (C, &[1, 2, 0], 5, &[2], 2),
        (C, &[1, 2, 1], 5, &[5], 5),
        (C, &[1, 2, 2], 5, &[8], 8),
        (B, &[0, 1, 0], 1, &[1], 1),
        (B, &[0, 1, 1], 1, &[2], 2),
        (B, &[0, 1, 2], 1, &[0], 0),
    ];
    assert!(rt; agree(rt.alloc(), CANNON, &rows)?);
    Ok(())
}
