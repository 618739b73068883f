//! Flags by hand.

use crate::Flags;
use std::test::Fail;

#[test]
fn flags_are_found_in_order(rt: HostRuntime) -> Result<(), Fail> {
    let alloc = rt.alloc();
    let mut flags = Flags::new(alloc, 5)?;
    flags.set(4);
    flags.set(1);
    flags.set(2);
    flags.set(2);
    flags.clear(1);
    flags.clear(3);
    let none = Flags::new(alloc, 0)?;
    let said = format!(in alloc;
        "{} {} {} {} {} {}",
        flags.count(),
        flags.at(0),
        flags.at(1),
        flags.has(1),
        flags.has(4),
        none.count()
    )?;
    assert_eq!(rt; said.as_str(), "2 2 4 false true 0");
    Ok(())
}
