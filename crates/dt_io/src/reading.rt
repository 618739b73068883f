//! A source to its end.

ghost use Rattle.std.specs.Prelude.{◌≤◌, IsErrOf};
ghost use Rattle.dt_io.specs.Faults.{Rose};
ghost use Rattle.dt_io.specs.Takes.{Takes};

use crate::ends::ReadEnd;
use crate::traits::Source;
use dt_base::Bytes;
use std::alloc::Global;

/// All bytes to the end, of which there are at most `limit`.
pub fn read_all<R: Source>(alloc: Global, src: &mut R, limit: u32) -> Result<Bytes, ReadEnd>
    ensures taken { Takes limit (R.left src.old) (R.left src.new) result }
    ensures failed { IsErrOf result ReadEnd.Failed → Rose (R.faults src.old) (R.faults src.new) }
    ensures later { R.faults src.old ≤ R.faults src.new }
{
    let mut all = Bytes::new(alloc);
    let mut buf = [0u8; 4096];
    let limit = limit as usize;
    loop {
        // One byte more than may come, so that a longer input shows.
        let room = limit + 1 - all.len();
        let piece = room.min(4096);
        let count = match src.read(&mut buf[..piece]) {
            Ok(count) => count,
            Err(_) => return Err(ReadEnd::Failed),
        };
        if count == 0 {
            return Ok(all);
        }
        if count == room {
            return Err(ReadEnd::TooLong);
        }
        if all.append(&buf[..count]).is_err() {
            return Err(ReadEnd::NoMemory);
        }
    }
}
