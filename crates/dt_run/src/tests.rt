//! Texts of tensors.

use crate::tensor_text::put_tensor;
use dt_base::{Bytes, Name};
use dt_model::Shape;
use std::alloc::Global;
use std::test::Fail;

fn prints(alloc: Global, extents: &[u32], values: &[u64], text: &[u8]) -> Result<bool, Fail> {
    let shape = Shape::from_extents(extents).ok_or("no shape")?;
    if values.len() != shape.count() as usize {
        return Err("another count")?;
    }
    let mut out = Bytes::new(alloc);
    put_tensor(&mut out, &Name::from_slice(b"A"), &shape, values)?;
    Ok(out.as_slice() == text)
}

#[test]
fn prints_a_row_for_each_last_extent(rt: HostRuntime) -> Result<(), Fail> {
    let alloc = rt.alloc();
    assert!(rt;
        prints(
            alloc,
            &[2, 2],
            &[19, 22, 43, 50],
            b"tensor A 2x2\n19 22\n43 50\n"
        )?
    );
    assert!(rt; prints(alloc, &[3], &[7, 0, 10], b"tensor A 3\n7 0 10\n")?);
    assert!(rt;
        prints(
            alloc,
            &[],
            &[u64::MAX - 1],
            b"tensor A scalar\n18446744073709551614\n"
        )?
    );
    assert!(rt;
        prints(
            alloc,
            &[2, 1, 3],
            &[1, 2, 3, 4, 5, 6],
            b"tensor A 2x1x3\n1 2 3\n4 5 6\n"
        )?
    );
    Ok(())
}
