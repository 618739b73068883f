//! Why a file gives no entries.

/// Why no entries were read. A record's number counts from 1; records behind number 2^32 - 1 have that number.
#[derive(Debug, Clone, Copy, PartialEq, Eq)]
pub enum RowsEnd {
    /// A record has another number of fields than coordinates and one number, or a field that is no number, or a
    /// coordinate of 2^32 or more.
    BadRow(u32),
    NoMemory,
}
