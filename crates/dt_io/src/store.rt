//! A store of files, by its faults and by what its files have.

ghost use Rattle.std.specs.Prelude.{◌≡◌, ◌≤◌, ℕ, Option, IsErrOf};
ghost use Rattle.dt_io.specs.Faults.{Rose};
ghost use Rattle.dt_io.specs.Files.{Files, FetchesTold, PutsTold};

use crate::ends::{FetchEnd, PutEnd};
use dt_base::Bytes;
use std::alloc::Global;

/// Where files are kept by name.
pub trait Store {
    /// The files, where the store tells them.
    ghost told: { Self → Option Files };

    /// How often it failed, up to the counter's last value.
    ghost faults: { Self → ℕ };

    /// The bytes of the file with this name, of which there are at most `limit`, and none where there is no such file.
    fn fetch(&mut self, alloc: Global, name: &str, limit: u32) -> Result<Option<Bytes>, FetchEnd>
        ensures file { FetchesTold (told self.old) name.now limit result }
        ensures kept { told self.new ≡ told self.old }
        ensures failed { IsErrOf result FetchEnd.Failed → Rose (faults self.old) (faults self.new) }
        ensures later { faults self.old ≤ faults self.new };

    /// Makes the file with this name, or sets its bytes. After an error it has its old bytes or these.
    fn put(&mut self, alloc: Global, name: &str, bytes: &[u8]) -> Result<(), PutEnd>
        ensures file { PutsTold (told self.old) (told self.new) name.now bytes.now result }
        ensures failed { IsErrOf result PutEnd.Failed → Rose (faults self.old) (faults self.new) }
        ensures later { faults self.old ≤ faults self.new };
}
