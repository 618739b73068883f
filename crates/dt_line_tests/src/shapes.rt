//! Shapes, whole tensors, and the lists of a statement.

use dt_model::{
    Factor, Factors, Shape, Stmts, Terms, Whole, positions_follow_coordinates, value_is_a_ring_sum,
};
use std::test::Fail;

#[test]
fn shapes_have_limits(rt: HostRuntime) {
    // 97 * 257 * 673 is 16,777,217
    let cases: [(&[u32], bool); 9] = [
        (&[], true),
        (&[1, 1, 1, 1], true),
        (&[1, 1, 1, 1, 1], false),
        (&[0], false),
        (&[3, 0], false),
        (&[4096], true),
        (&[4097], false),
        (&[4096, 4096], true),
        (&[97, 257, 673], false),
    ];
    for (extents, stands) in cases {
        assert_eq!(rt; Shape::from_extents(extents).is_some(), stands);
    }
}

#[test]
fn indices_have_row_major_numbers(rt: HostRuntime) -> Result<(), Fail> {
    let shape = Shape::from_extents(&[3, 2]).ok_or("no shape")?;
    assert_eq!(rt; shape.dims(), [3, 2].as_slice());
    let numbers = (shape.count(), shape.index(&[2, 0]), shape.index(&[2, 2]));
    assert_eq!(rt;
        (numbers, shape.index(&[2, 0, 0])),
        ((6, Some(4), None), None)
    );
    Ok(())
}

#[test]
fn tensors_keep_numbers_at_indices(rt: HostRuntime) -> Result<(), Fail> {
    let shape = Shape::from_extents(&[3, 2]).ok_or("no shape")?;
    let mut t = Whole::zero(rt.alloc(), shape)?;
    assert!(rt; t.set(&[2, 0], 7) && !t.set(&[3, 0], 8) && !t.set(&[1], 8));
    assert_eq!(rt; t.values(), [0, 0, 0, 0, 7, 0].as_slice());
    assert_eq!(rt; (t.get(&[2, 0]), t.get(&[0, 2])), (Some(7), None));
    Ok(())
}

#[test]
fn lists_give_back_what_they_are_made_of(rt: HostRuntime) -> Result<(), Fail> {
    let factors = Factors::from_vec(vec![in rt.alloc(); Factor::Literal(3)]?);
    assert!(rt; matches!(factors.as_slice(), [Factor::Literal(3)]));
    let factors = factors.into_vec().len();
    let terms = Terms::from_vec(Terms::new(rt.alloc()).into_vec());
    let stmts = Stmts::from_vec(Stmts::new(rt.alloc()).into_vec());
    let lengths = (factors, terms.as_slice().len(), stmts.as_slice().len());
    assert_eq!(rt; lengths, (1, 0, 0));
    Ok(())
}

#[test]
fn laws_are_facts_alone() {
    value_is_a_ring_sum();
    positions_follow_coordinates();
}
