//! Products of the matrices `1 2`, `3 4` and `5 6`, `7 8`, and of `0 2`, `3 0` and the latter.

use crate::node::Spot;
use crate::products::{of_few, of_job};
use std::alloc::Global;
use std::test::Fail;

/// Its loops are in the order of the statement.
const PLAIN: &[u8] = b"distal 1
machine 1
tensor A 2x2
tensor B 2x2
tensor C 2x2
data B 1 2 3 4
data C 5 6 7 8
stmt A(i,j) = B(i,k) * C(k,j)
end
";

/// Its loops are cut, and the middle ones go past the extents.
const CUT: &[u8] = b"distal 1
machine 1
tensor A 2x2
tensor B 2x2
tensor C 2x2
data B 1 2 3 4
data C 5 6 7 8
stmt A(i,j) = B(i,k) * C(k,j)
split i io ii 2
split j jo ji 3
split k ko ki 1
reorder ko io jo ki ii ji
end
";

#[test]
fn each_visit_adds_one_summand(rt: HostRuntime) -> Result<(), Fail> {
    let alloc = rt.alloc();
    let rows: [(&[u8], &str); 2] = [
        (
            PLAIN,
            " 5 0 0 0; 19 0 0 0; 19 6 0 0; 19 22 0 0; 19 22 15 0; 19 22 43 0; 19 22 43 18; 19 22 43 50;",
        ),
        (
            CUT,
            " 5 0 0 0; 5 6 0 0; 5 6 15 0; 5 6 15 18; 19 6 15 18; 19 22 15 18; 19 22 43 18; 19 22 43 50;",
        ),
    ];
    for (text, wanted) in rows {
        assert_eq!(rt; of_job(alloc, text, None, true)?.as_str(), wanted);
        assert_eq!(rt; of_job(alloc, text, None, false)?.as_str(), " 19 22 43 50;");
    }
    Ok(())
}

#[test]
fn a_number_that_is_not_stored_is_0(rt: HostRuntime) -> Result<(), Fail> {
    let alloc = rt.alloc();
    assert_eq!(rt;
        of_few(alloc, None, true)?.as_str(),
        " 0 0 0 0; 14 0 0 0; 14 0 0 0; 14 16 0 0; 14 16 15 0; 14 16 15 0; 14 16 15 18; 14 16 15 18;"
    );
    assert_eq!(rt; of_few(alloc, None, false)?.as_str(), " 14 16 15 18;");
    Ok(())
}

/// A letter for each word of three buffers: `l` where a node that lacks it says so, `h` where it goes on.
fn answers(alloc: Global, stored: u32) -> Result<String, Fail> {
    let mut text = String::new(alloc);
    for buf in 0..3 {
        for word in 0..4 {
            let lack = Some(Spot { buf, word });
            let said = if stored == 4 {
                of_job(alloc, PLAIN, lack, false)?
            } else {
                of_few(alloc, lack, true)?
            };
            text.push_str(if said.as_str() == "a word is missing" {
                "l"
            } else {
                "h"
            })?;
        }
    }
    Ok(text)
}

#[test]
fn a_node_that_lacks_a_word_does_no_visit(rt: HostRuntime) -> Result<(), Fail> {
    let alloc = rt.alloc();
    assert_eq!(rt; answers(alloc, 4)?.as_str(), "llllllllllll");
    // Two numbers of B are stored, so it has no words 2 and 3.
    assert_eq!(rt; answers(alloc, 2)?.as_str(), "llllllhhllll");
    Ok(())
}
