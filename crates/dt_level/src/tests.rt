//! Levels by hand: rows of four columns with entries at 1 and 3, nowhere, at 0, and everywhere.

ghost use Rattle.std.specs.Prelude.{◌<◌, length};

use crate::{Compressed, Dense, Level};
use dt_base::Words;
use std::alloc::Global;
use std::test::Fail;

/// What a level says of a parent: each child's coordinate and number, then the child that is found at each coordinate
/// up to 4, and the first child from it on.
fn said<L: Level>(alloc: Global, level: &L, parent: u32) -> Result<String, Fail>
    requires { parent < length (L.level level.now) }
{
    let mut text = String::new(alloc);
    for k in 0..level.children(parent) {
        let (x, number) = level.child(parent, k);
        text.push_str(format!(in alloc; "{x}:{number} ")?.as_str())?;
    }
    for x in 0..5 {
        let found = level.find(parent, x);
        let first = level.at_least(parent, x);
        text.push_str(format!(in alloc; "{found:?}/{first} ")?.as_str())?;
    }
    Ok(text)
}

const COMPRESSED: [&str; 4] = [
    "1:0 3:1 None/0 Some(0)/0 None/1 Some(1)/1 None/2 ",
    "None/0 None/0 None/0 None/0 None/0 ",
    "0:2 Some(2)/0 None/1 None/1 None/1 None/1 ",
    "0:3 1:4 2:5 3:6 Some(3)/0 Some(4)/1 Some(5)/2 Some(6)/3 None/4 ",
];

const DENSE: [&str; 2] = [
    "0:0 1:1 2:2 Some(0)/0 Some(1)/1 Some(2)/2 None/3 None/3 ",
    "0:3 1:4 2:5 Some(3)/0 Some(4)/1 Some(5)/2 None/3 None/3 ",
];

#[test]
fn levels_answer_by_their_children(rt: HostRuntime) -> Result<(), Fail> {
    let alloc = rt.alloc();
    let pos = Words::from_slice(alloc, &[0, 2, 2, 3, 7])?;
    let crd = Words::from_slice(alloc, &[1, 3, 0, 0, 1, 2, 3])?;
    let level = Compressed::from_parts(pos, crd);
    assert!(rt; level.is_some());
    if let Some(level) = level {
        for parent in 0..4 {
            assert_eq!(rt;
                said(alloc, &level, parent)?.as_str(),
                COMPRESSED[parent as usize]
            );
        }
    }
    let level = Dense::new(3, 2);
    for parent in 0..2 {
        assert_eq!(rt;
            said(alloc, &level, parent)?.as_str(),
            DENSE[parent as usize]
        );
    }
    Ok(())
}

/// No number, a first one that is not 0, numbers that fall, a last one that is not the count, and segments that stay
/// or fall.
const REFUSED: [(&[u32], &[u32]); 6] = [
    (&[], &[]),
    (&[1, 1], &[5]),
    (&[0, 2, 1], &[0]),
    (&[0, 1], &[3, 4]),
    (&[0, 2], &[3, 3]),
    (&[0, 2], &[4, 3]),
];

#[test]
fn numbers_that_make_no_level_are_refused(rt: HostRuntime) -> Result<(), Fail> {
    for (pos, crd) in REFUSED {
        let pos = Words::from_slice(rt.alloc(), pos)?;
        let crd = Words::from_slice(rt.alloc(), crd)?;
        assert!(rt; Compressed::from_parts(pos, crd).is_none());
    }
    Ok(())
}
