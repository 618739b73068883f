//! Files with their names.

ghost use Rattle.std.specs.Prelude.{◌≡◌, [], ◌∷◌, ◌++◌, OnOk, OnErr};

use dt_base::{Bytes, NoMemory};
use std::alloc::Global;
use std::marker::Model;

/// A file: its name and its bytes.
#[derive(Debug, Drop)]
pub struct NamedFile {
    pub name: Bytes,
    pub bytes: Bytes,
}

/// Files in order. Where several have one name, the first counts.
#[derive(Debug, Drop)]
pub struct FileList {
    pub items: Vec<NamedFile>,
}

impl Model for FileList {
    ghost use Rattle.std.specs.Prelude.{List};
    ghost use Rattle.dt_io.specs.declared.files.NamedFile.{NamedFile};

    ghost Value = { List NamedFile };

    ghost view = { λ l. l.items.items };
}

impl FileList {
    pub fn new(alloc: Global) -> FileList
        ensures { result ≡ [] }
    {
        FileList {
            items: Vec::new(alloc),
        }
    }

    /// Puts one file at the end.
    pub fn push(&mut self, file: NamedFile) -> Result<(), NoMemory>
        ensures ok { OnOk result (self.new ≡ self.old ++ file ∷ []) }
        ensures err { OnErr result (self.new ≡ self.old) }
    {
        self.items.push(file)?;
        Ok(())
    }
}
