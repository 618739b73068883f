//! Packing and positions, worked out by hand.

use crate::entry::{Entries, Given};
use crate::packing::{PackEnd, pack};
use crate::tensor::Tensor;
use crate::tensors::Tensors;
use dt_base::{Coords, NoMemory};
use dt_model::{Locator, Shape};
use std::alloc::Global;
use std::test::Fail;

/// An entry of a tensor of order 2: its coordinates and its number.
type Entry = (u32, u32, u64);

fn given(alloc: Global, list: &[Entry]) -> Result<Entries, NoMemory> {
    let mut entries = Entries::new(alloc);
    for (row, column, value) in list {
        entries.push(Given {
            at: Coords::of_few(alloc, &[*row, *column]),
            value: *value,
        })?;
    }
    Ok(entries)
}

#[test]
fn entries_are_packed(rt: HostRuntime) -> Result<(), Fail> {
    let shape = Shape::from_extents(&[2, 3]).ok_or("no shape")?;
    let entries = given(rt.alloc(), &[(1, 2, 7), (0, 1, 5), (1, 0, 0)])?;
    assert!(rt; shape.order == 2 && entries.as_slice().len() == 3);
    let tensor = pack(rt.alloc(), shape, [false; 4], &entries).map_err(|_| "not packed")?;
    assert_eq!(rt; tensor.stored(), 6);
    assert_eq!(rt; tensor.values(), [0, 5, 0, 0, 0, 7].as_slice());
    assert_eq!(rt; tensor.value(5), 7);
    assert_eq!(rt; tensor.coord(5, 0), 1);
    assert_eq!(rt; tensor.coord(5, 1), 2);
    assert_eq!(rt; tensor.shape().dims(), [2, 3].as_slice());
    let whole = tensor.to_whole(rt.alloc())?;
    assert_eq!(rt; whole.get(&[0, 1]), Some(5));
    Ok(())
}

#[test]
fn numbers_are_moved(rt: HostRuntime) -> Result<(), Fail> {
    let shape = Shape::from_extents(&[2, 3]).ok_or("no shape")?;
    let entries = given(rt.alloc(), &[(1, 2, 7)])?;
    assert!(rt; shape.order == 2 && entries.as_slice().len() == 1);
    let mut list = Vec::new(rt.alloc());
    list.push(pack(rt.alloc(), shape, [false; 4], &entries).map_err(|_| "not packed")?)?;
    let (levels, wholes) = Tensors::from_list(list).into_wholes(rt.alloc())?;
    assert_eq!(rt; levels.place(0, &[1, 2]), Some(5));
    for whole in wholes.as_slice() {
        assert_eq!(rt; whole.values(), [0, 0, 0, 0, 0, 7].as_slice());
    }
    Ok(())
}

#[test]
fn wrong_entries_are_told(rt: HostRuntime) -> Result<(), Fail> {
    let cases: [([u32; 2], &[Entry], PackEnd); 5] = [
        (
            [2, 3],
            &[(0, 1, 5), (2, 0, 1), (0, 1, 5)],
            PackEnd::OutOfShape(2),
        ),
        (
            [2, 3],
            &[(0, 1, 5), (1, 1, 1), (0, 1, 5), (0, 9, 1)],
            PackEnd::Repeated(3),
        ),
        ([1, 1], &[(0, 0, 5), (0, 1, 5)], PackEnd::OutOfShape(2)),
        ([1024, 1025], &[(0, 1024, 1)], PackEnd::TooManyStored),
        (
            [1024, 1025],
            &[(0, 1024, 1), (0, 1024, 1)],
            PackEnd::Repeated(2),
        ),
    ];
    for (extents, list, end) in cases {
        let shape = Shape::from_extents(extents.as_slice()).ok_or("no shape")?;
        let entries = given(rt.alloc(), list)?;
        assert!(rt; shape.order == 2 && entries.as_slice().len() == list.len() && list.len() < 9);
        assert_eq!(rt;
            pack(rt.alloc(), shape, [false; 4], &entries).err(),
            Some(end)
        );
    }
    Ok(())
}

#[test]
fn positions_are_row_major(rt: HostRuntime) -> Result<(), Fail> {
    let shape = Shape::from_extents(&[2, 3, 2]).ok_or("no shape")?;
    let values = vec![in rt.alloc(); 4u64; shape.count() as usize]?;
    let tensors = Tensors::from_list(vec![in rt.alloc(); Tensor::dense(shape, values)]?);
    assert!(rt; tensors.len() == 1);
    assert_eq!(rt; tensors.get(0).value(3), 4);
    assert_eq!(rt; tensors.count(0), 12);
    assert_eq!(rt; tensors.cost(0), 1);
    assert_eq!(rt; tensors.shape(0).dims(), [2, 3, 2].as_slice());
    assert_eq!(rt; tensors.coords(0, 7).as_slice(), [1, 0, 1].as_slice());
    let places: [(&[u32], Option<u32>); 5] = [
        (&[0, 0, 0], Some(0)),
        (&[0, 2, 1], Some(5)),
        (&[1, 0, 1], Some(7)),
        (&[1, 3, 0], None),
        (&[1, 0], None),
    ];
    for (c, place) in places {
        assert_eq!(rt; tensors.place(0, c), place);
    }
    Ok(())
}

#[test]
fn prefixes_go_on_to_the_extent(rt: HostRuntime) -> Result<(), Fail> {
    let shape = Shape::from_extents(&[2, 3, 2]).ok_or("no shape")?;
    let values = vec![in rt.alloc(); 4u64; shape.count() as usize]?;
    let tensors = Tensors::from_list(vec![in rt.alloc(); Tensor::dense(shape, values)]?);
    let prefixes: [(&[u32], bool); 6] = [
        (&[], true),
        (&[1], true),
        (&[2], false),
        (&[1, 2, 1], true),
        (&[1, 2, 2], false),
        (&[1, 2, 1, 0], false),
    ];
    for (c, stands) in prefixes {
        assert_eq!(rt; tensors.has_prefix(0, c), stands);
    }
    let children: [(&[u32], u32, Option<u32>); 5] = [
        (&[], 0, Some(0)),
        (&[1], 2, Some(2)),
        (&[1], 3, None),
        (&[2], 0, None),
        (&[0, 2], 1, Some(1)),
    ];
    for (c, from, next) in children {
        assert!(rt; c.len() < 3);
        assert_eq!(rt; tensors.next_child(0, c, from), next);
    }
    Ok(())
}
