//! Files that are held in memory, by their names.

ghost use Rattle.std.specs.Prelude.{◌≡◌, ◌↔◌, [], ◌∷◌, OnOk, OnErr, IsErrOf, string_bytes};
ghost use Rattle.std.specs.Option.{option_copied};
ghost use Rattle.p10_world.specs.Files.{file_of, Lacks, GrowsByFile, GrowsAtMost};

use crate::FileFault;
use std::alloc::{AllocError, Global};

/// A file that is held in memory.
#[derive(Drop)]
pub struct HeldFile {
    name: String,
    bytes: Vec<u8>,
}

/// Files that are held in memory. Of two files of one name the one added last is found.
#[derive(Drop)]
pub struct HeldFiles {
    files: Vec<HeldFile>,
}

impl HeldFiles {
    ghost use Rattle.p10_world.specs.HeldFiles.{files_of};

    /// No files.
    pub fn new(alloc: Global) -> HeldFiles
        ensures { files_of result ≡ [] }
    {
        HeldFiles {
            files: Vec::new(alloc),
        }
    }

    /// Adds a file, which stands before an older one of its name.
    ///
    /// # Errors
    ///
    /// Out of memory; the files are then as before.
    pub fn add(&mut self, name: String, bytes: Vec<u8>) -> Result<(), AllocError>
        ensures added { OnOk result (files_of self.new ≡ record { name = string_bytes name; bytes = bytes.items } ∷ files_of self.old) }
        ensures refused { OnErr result (files_of self.new ≡ files_of self.old) }
    {
        self.files.insert(0, HeldFile { name, bytes })?;
        Ok(())
    }

    /// The bytes of the file of that name.
    fn find(&self, name: &str) -> Option<&[u8]>
        ensures { option_copied result ≡ file_of name.now (files_of self.now) }
    {
        let mut rest = self.files.as_slice();
        while let [file, others @ ..] = rest {
            if file.name.as_str() == name {
                return Some(file.bytes.as_slice());
            }
            rest = others;
        }
        None
    }

    /// Appends the first `limit` bytes of the file of that name to `into`, or all of them if it is
    /// shorter. On a refusal `into` is as before.
    pub fn read(&self, name: &str, limit: u64, into: &mut Vec<u8>) -> Result<(), FileFault>
        ensures read { OnOk result (GrowsByFile (Some (files_of self.now)) name.now limit into.old.items into.new.items) }
        ensures most { OnOk result (GrowsAtMost limit into.old.items into.new.items) }
        ensures absent { IsErrOf result FileFault.Absent ↔ Lacks (Some (files_of self.now)) name.now }
        ensures never { ¬ (IsErrOf result FileFault.Failed) }
        ensures refused { OnErr result (into.new.items ≡ into.old.items) }
    {
        let Some(bytes) = self.find(name) else {
            return Err(FileFault::Absent);
        };
        let count = limit.min(bytes.len() as u64) as usize;
        match into.extend_from_slice(&bytes[..count]) {
            Ok(()) => Ok(()),
            Err(_) => Err(FileFault::Memory),
        }
    }
}
