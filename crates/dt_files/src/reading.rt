//! Entries from the records of a file.

ghost use Rattle.std.specs.Prelude.{◌≡◌, ◌≤◌, ◌<◌, [], length, slice_index_or};
ghost use Rattle.csv.specs.Records.{fields_of};
ghost use Rattle.dt_files.specs.Rows.{coordinate_of, entry_of, rows_read, IsRead};

use crate::ends::RowsEnd;
use csv::{ByteRecord, ReaderBuilder};
use dt_base::Coords;
use dt_tensor::{Entries, Given};
use dt_text::number;
use std::alloc::Global;

/// The entries of a tensor of this order that the records of a file give, in order, or the first record that gives none.
/// There is no header, records may have any length, and nothing is trimmed. A byte order mark at the front, and empty
/// lines, are no records.
pub fn read_rows(alloc: Global, bytes: &[u8], order: u8) -> Result<Entries, RowsEnd>
    requires { order ≤ 4 }
    ensures { IsRead result (rows_read order bytes.now) }
{
    let reader = ReaderBuilder::new()
        .has_headers(false)
        .flexible(true)
        .from_reader(alloc, bytes);
    let mut entries = Entries::new(alloc);
    let mut number = 0u32;
    for row in reader.into_byte_records() {
        number = number.saturating_add(1);
        // The bytes are in memory and records may have any length, so nothing else is refused.
        let Ok(row) = row else {
            return Err(RowsEnd::NoMemory);
        };
        let entry = match entry_at(alloc, &row, order as usize) {
            None => return Err(RowsEnd::BadRow(number)),
            Some(entry) => entry,
        };
        match entries.push(entry) {
            Err(_) => return Err(RowsEnd::NoMemory),
            Ok(()) => {}
        }
    }
    Ok(entries)
}

/// The entry that a record gives.
fn entry_at(alloc: Global, row: &ByteRecord, order: usize) -> Option<Given>
    requires { order ≤ 4 }
    ensures { result ≡ entry_of order (fields_of row.now) }
{
    if row.len() != order + 1 {
        return None;
    }
    let mut at = [0u32; 4];
    for i in 0..order {
        at[i] = coordinate(field(row, i))?;
    }
    let value = number(field(row, order))?;
    Some(Given {
        at: Coords::of_few(alloc, &at[..order]),
        value,
    })
}

/// The bytes of a field.
fn field(row: &ByteRecord, i: usize) -> &[u8]
    requires { i < length (fields_of row.now) }
    ensures { result.now ≡ slice_index_or (fields_of row.now) i [] }
{
    row.get(i).unwrap()
}

/// The coordinate that a field has.
fn coordinate(field: &[u8]) -> Option<u32>
    ensures { result ≡ coordinate_of field.now }
{
    u32::try_from(number(field)?).ok()
}
