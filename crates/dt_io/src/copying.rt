//! What a source and a sink in memory share.

ghost use Rattle.std.specs.Prelude.{◌≡◌, ◌↔◌, ◌++◌, Contains, IsTrue, length, min, take, drop};

use dt_base::Numbers;

/// Whether the call of this number is among those that are to fail.
pub fn is_listed(fails: &Numbers, call: u64) -> bool
    ensures { IsTrue result ↔ Contains fails.now call }
{
    fails
        .as_slice()
        .iter()
        .any(|number| u64::from(*number) == call)
}

/// Copies a front of the bytes, at most so many, to the front of the buffer.
pub fn copy_front(buf: &mut [u8], bytes: &[u8], most: usize) -> usize
    ensures count { result ≡ min most (min (length buf.old) (length bytes.now)) }
    ensures buffer { buf.new ≡ take result bytes.now ++ drop result buf.old }
{
    let count = most.min(buf.len()).min(bytes.len());
    let (front, _) = bytes.split_at(count);
    buf[..count].copy_from_slice(front);
    count
}
