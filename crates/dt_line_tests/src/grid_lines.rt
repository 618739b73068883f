//! Machine lines and place lines: what they are refused for.

ghost use Rattle.std.specs.Prelude.{◌<◌, length};

use crate::fixtures::said;
use dt_base::ShortText;
use dt_place::{Machine, parse_machine, parse_place};
use std::alloc::Global;
use std::test::Fail;

/// A row: `m`, or the order of a tensor on the machine 2x2; what stands behind the first word of a line; what is said to it.
const ANSWERS: &str =
    "m| 1|ok\nm| 01x2|ok\nm| 4x4x4|ok\nm| 1x1x1x1x1x2|ok\nm| 65|BadDim\nm| 8x9|BadDim\nm| 2x0|BadDim\nm| 1x1x1x1x1x1x1|BadDim\nm| 4294967296x4294967296|BadDim\nm||Syntax\nm| 2x|Syntax\nm| x2|Syntax\nm| 2X2|Syntax\nm| 2 2|Syntax\nm| 2 / 2|Syntax\nm| 2 memory 8|Syntax\nm| 0x18446744073709551616|BadNumber\nm| 18446744073709551616x-|Syntax\n2| B xy -> xy|ok\n2| B xy -> yx|ok\n2| B x -> xy|WrongOrder B\n2| B - -> xy|WrongOrder B\n2| B xyx -> xxx|WrongOrder B\n2| B xx -> z|NameTwice x\n2| B xy -> x|WrongDims\n2| B xy -> zzz|WrongDims\n2| B xy -> zy|UnknownName z\n2| B xy -> xz|UnknownName z\n2| B xy -> xx|NameTwiceInLevel x\n2| B xy -> x*|Syntax\n2| B xy -> 0y|Syntax\n2| B nz -> nz|Syntax\n2| B xy -> x / y|Syntax\n2| B xy xy ->|Syntax\n2| B Xy -> xy|Syntax\n2| 9 xy -> xy|Syntax\n4| B yxxy -> xy|NameTwice x\n0| s - -> xy|UnknownName x";

#[test]
fn the_first_cause_answers(rt: HostRuntime) -> Result<(), Fail> {
    let machine = parse_machine(rt.alloc(), b" 2x2")?;
    for row in ANSWERS.lines() {
        let mut parts = row.split('|');
        let kind = parts.next().unwrap_or("");
        let text = parts.next().unwrap_or("");
        let wanted = parts.next().unwrap_or("");
        assert!(rt; text.len() < 100);
        let answer = answer(rt.alloc(), kind, text.as_bytes(), &machine);
        assert_eq!(rt; answer.as_slice(), wanted.as_bytes(), "at {row}");
    }
    Ok(())
}

fn answer(alloc: Global, kind: &str, text: &[u8], machine: &Machine) -> ShortText
    requires { length text.now < 100 }
{
    match kind.as_bytes() {
        [b'0'] => said(parse_place(alloc, text, 0, machine).err()),
        [b'2'] => said(parse_place(alloc, text, 2, machine).err()),
        [b'4'] => said(parse_place(alloc, text, 4, machine).err()),
        _ => said(parse_machine(alloc, text).err()),
    }
}
