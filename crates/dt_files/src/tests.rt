//! Files that are read and written, with answers by hand.

use crate::{RowsEnd, read_rows, write_rows};
use dt_base::Bytes;
use dt_model::Shape;
use dt_tensor::{Entries, pack};
use std::alloc::Global;
use std::test::Fail;

/// The order, the bytes of a file, and its entries as they are written again, in order, or what is wrong.
const ROWS: [(u8, &[u8], &str); 20] = [
    (1, b"0,1\n1,2\n", "0,1;1,2;"),
    (1, b"", ""),
    (1, b"0", "BadRow 1"),
    (1, b"0,1\r\n1,2", "0,1;1,2;"),
    (1, b"\xef\xbb\xbf0,1\n", "0,1;"),
    (1, b"0,1\n\xef\xbb\xbf1,2\n", "BadRow 2"),
    (1, b"\n\n0,1\n\n\n", "0,1;"),
    (1, b"\"0\",\"1\"\n", "0,1;"),
    (1, b"\"0\n\",1\n", "BadRow 1"),
    (1, b"0, 1\n", "BadRow 1"),
    (1, b"0,1,\n", "BadRow 1"),
    (1, b"0,-1\n", "BadRow 1"),
    (1, b"0,\xff\n", "BadRow 1"),
    (0, b"7\n8\n", "7;8;"),
    (
        2,
        b"4294967295,00,18446744073709551615\n",
        "4294967295,0,18446744073709551615;",
    ),
    (2, b"4294967296,0,1\n", "BadRow 1"),
    (2, b"0,0,18446744073709551616\n", "BadRow 1"),
    (3, b"1,2,3,4\n", "1,2,3,4;"),
    (4, b"1,2,3,4,5\n", "1,2,3,4,5;"),
    (4, b"1,2,3,4,5\n1,2,3,4\n0\n", "BadRow 2"),
];

#[test]
fn records_give_entries_or_the_first_that_gives_none(rt: HostRuntime) -> Result<(), Fail> {
    for (order, bytes, wanted) in ROWS {
        assert!(rt; order <= 4);
        let said = match read_rows(rt.alloc(), bytes, order) {
            Ok(entries) => text_of(rt.alloc(), &entries)?,
            Err(RowsEnd::NoMemory) => Err("no memory")?,
            Err(RowsEnd::BadRow(number)) => {
                let mut text = Bytes::from_slice(rt.alloc(), b"BadRow ")?;
                text.append_number(number)?;
                text
            }
        };
        assert_eq!(rt; said.as_slice(), wanted.as_bytes(), "order {order}");
    }
    Ok(())
}

/// Each entry: its coordinates and its number, with commas between.
fn text_of(alloc: Global, entries: &Entries) -> Result<Bytes, Fail> {
    let mut text = Bytes::new(alloc);
    for entry in entries.as_slice() {
        for x in entry.at.as_slice() {
            text.append_number(*x)?;
            text.append(b",")?;
        }
        text.append_number(entry.value)?;
        text.append(b";")?;
    }
    Ok(text)
}

#[test]
fn stored_entries_are_written_in_order(rt: HostRuntime) -> Result<(), Fail> {
    let rows: [(&[u32], &[u8], &str); 5] = [
        (&[2], b"0,1\n1,2\n", "0,1\n1,2\n"),
        (&[], b"", "0\n"),
        (&[3, 3], b"2,1,7\n0,2,5\n", "0,2,5\n2,1,7\n"),
        (&[2, 1, 3], b"1,0,2,9\n", "1,0,2,9\n"),
        (&[2, 1, 1, 2], b"1,0,0,1,9\n", "1,0,0,1,9\n"),
    ];
    for (extents, bytes, wanted) in rows {
        assert!(rt; extents.len() <= 4);
        let entries = read_rows(rt.alloc(), bytes, extents.len() as u8).map_err(|_| "no rows")?;
        assert!(rt; entries.as_slice().len() < 9);
        let shape = Shape::from_extents(extents).ok_or("no shape")?;
        let tensor = pack(rt.alloc(), shape, [extents.len() > 1; 4], &entries);
        let text = write_rows(rt.alloc(), &tensor.map_err(|_| "not packed")?)?;
        assert_eq!(rt; text.as_slice(), wanted.as_bytes());
    }
    Ok(())
}
