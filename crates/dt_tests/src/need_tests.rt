//! Needed words of statements' schedules, worked out by hand.

use crate::matrices::sparse_matrix;
use crate::statements::needed_in;
use crate::written::{Part, Written, statement, zero, zeros};
use dt_runs::Runs;
use dt_tensor::Tensors;
use std::alloc::Global;
use std::test::Fail;

/// A path, a tensor, and the positions that are needed of it in the visits that extend the path.
type Row<'a> = (&'a [u32], u32, &'a [u32]);

/// Whether the set has these numbers, which ascend.
fn has(runs: &Runs, positions: &[u32]) -> bool {
    let mut place = 0;
    for x in positions {
        if runs.at(place) != Some(*x) {
            return false;
        }
        place = place.saturating_add(1);
    }
    runs.count() == place
}

/// Whether the needed words are those of the rows.
fn agree(alloc: Global, written: &Written, rows: &[Row]) -> Result<bool, Fail> {
    let tensors = zeros(alloc, written.shapes)?;
    agree_over(alloc, written, &tensors, rows)
}

/// The same over these tensors.
fn agree_over(
    alloc: Global,
    written: &Written,
    tensors: &Tensors,
    rows: &[Row],
) -> Result<bool, Fail> {
    let stmt = statement(alloc, written)?;
    for (path, tensor, positions) in rows {
        let runs = needed_in(alloc, &stmt, tensors, *tensor, *path)?.ok_or("no words")?;
        if !has(&runs, *positions) {
            return Ok(false);
        }
    }
    Ok(true)
}

const A: u32 = 0;

const B: u32 = 1;

const C: u32 = 2;

const ALL: [u32; 16] = [0, 1, 2, 3, 4, 5, 6, 7, 8, 9, 10, 11, 12, 13, 14, 15];

/// A(i,j) = B(i,k) * C(k,j) on 4x4 matrices.
const PRODUCT: Written = Written {
    extents: &[4, 4, 4],
    shapes: &[&[4, 4], &[4, 4], &[4, 4]],
    left: (A, &[0, 1]),
    adds: false,
    terms: &[&[Part::At(B, &[0, 2]), Part::At(C, &[2, 1])]],
};

const PRODUCT_WORDS: [Row; 9] = [
    (&[], B, &ALL),
    (&[1], B, &[4, 5, 6, 7]),
    (&[1, 2], B, &[4, 5, 6, 7]),
    (&[1, 2, 3], B, &[7]),
    (&[1], C, &ALL),
    (&[1, 2], C, &[2, 6, 10, 14]),
    (&[1, 2, 3], C, &[14]),
    (&[1], A, &[4, 5, 6, 7]),
    (&[1, 2], A, &[6]),
];

/// A(i,j) = B(i,j) * B(j,i) on 3x3 matrices.
const TWICE: Written = Written {
    extents: &[3, 3],
    shapes: &[&[3, 3], &[3, 3]],
    left: (A, &[0, 1]),
    adds: false,
    terms: &[&[Part::At(B, &[0, 1]), Part::At(B, &[1, 0])]],
};

const TWICE_WORDS: [Row; 5] = [
    (&[], B, &[0, 1, 2, 3, 4, 5, 6, 7, 8]),
    (&[1], B, &[1, 3, 4, 5, 7]),
    (&[0, 2], B, &[2, 6]),
    (&[2, 2], B, &[8]),
    (&[0, 2], A, &[2]),
];

/// A() += 3 * B(i) + C() over four numbers.
const SCALARS: Written = Written {
    extents: &[4],
    shapes: &[&[], &[4], &[], &[4]],
    left: (A, &[]),
    adds: true,
    terms: &[&[Part::Number(3), Part::At(B, &[0])], &[Part::At(C, &[])]],
};

const SCALAR_WORDS: [Row; 5] = [
    (&[], A, &[0]),
    (&[2], A, &[0]),
    (&[2], B, &[2]),
    (&[2], C, &[0]),
    (&[2], 3, &[]),
];

/// A(i) = B(i,j) * C(j), where B has compressed columns.
const SPMV: Written = Written {
    extents: &[4, 4],
    shapes: &[&[4], &[4, 4], &[4]],
    left: (A, &[0]),
    adds: false,
    terms: &[&[Part::At(B, &[0, 1]), Part::At(C, &[1])]],
};

const SPMV_WORDS: [Row; 9] = [
    (&[], B, &[0, 1, 2, 3]),
    (&[0], B, &[0, 1]),
    (&[1], B, &[]),
    (&[2], B, &[2]),
    (&[3], B, &[3]),
    (&[0, 2], B, &[]),
    (&[0, 3], B, &[1]),
    (&[1], C, &[0, 1, 2, 3]),
    (&[1], A, &[1]),
];

#[test]
fn words_of_compressed_levels_are_stored_numbers(rt: HostRuntime) -> Result<(), Fail> {
    let alloc = rt.alloc();
    let mut list = Vec::new(alloc);
    list.push(zero(alloc, &[4])?)?;
    list.push(sparse_matrix(alloc)?)?;
    list.push(zero(alloc, &[4])?)?;
    let tensors = Tensors::from_list(list);
    assert!(rt; agree_over(alloc, &SPMV, &tensors, &SPMV_WORDS)?);
    Ok(())
}

#[test]
fn a_path_has_values_of_the_outermost_loops(rt: HostRuntime) -> Result<(), Fail> {
    let alloc = rt.alloc();
    let stmt = statement(alloc, &PRODUCT)?;
    let tensors = zeros(alloc, PRODUCT.shapes)?;
    let cases: [(&[u32], bool); 6] = [
        (&[], true),
        (&[3], true),
        (&[3, 0, 3], true),
        (&[4], false),
        (&[0, 4], false),
        (&[0, 0, 0, 0], false),
    ];
    for (path, is_path) in cases {
        assert_eq!(rt;
            needed_in(alloc, &stmt, &tensors, B, path)?.is_some(),
            is_path
        );
    }
    Ok(())
}

#[test]
fn words_are_those_of_the_visits(rt: HostRuntime) -> Result<(), Fail> {
    assert!(rt; agree(rt.alloc(), &PRODUCT, &PRODUCT_WORDS)?);
    assert!(rt; agree(rt.alloc(), &TWICE, &TWICE_WORDS)?);
    assert!(rt; agree(rt.alloc(), &SCALARS, &SCALAR_WORDS)?);
    Ok(())
}
