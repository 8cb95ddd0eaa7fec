//! Forms of the outside that never fail.

ghost use Rattle.std.specs.Prelude.{◌≡◌, [], ◌∷◌, None, Some, OnOk, OnErr, string_bytes};

use crate::given::Given;
use crate::held_files::HeldFiles;
use crate::{Failed, FileFault, Files, Sink, SinkFault, Source};
use std::alloc::{AllocError, Global};

/// Files in memory whose reads never fail. Of two files of one name the one added last is read.
#[derive(Drop)]
pub struct SureFiles {
    held: HeldFiles,
}

impl SureFiles {
    ghost use Rattle.p10_world.specs.Sure.{held_of};

    /// No files.
    pub fn new(alloc: Global) -> SureFiles
        ensures { held_of result ≡ [] }
    {
        SureFiles {
            held: HeldFiles::new(alloc),
        }
    }

    /// Adds a file, which stands before an older one of its name.
    ///
    /// # Errors
    ///
    /// Out of memory; the files are then as before.
    pub fn add(&mut self, name: String, bytes: Vec<u8>) -> Result<(), AllocError>
        ensures added { OnOk result (held_of self.new ≡ record { name = string_bytes name; bytes = bytes.items } ∷ held_of self.old) }
        ensures refused { OnErr result (held_of self.new ≡ held_of self.old) }
    {
        self.held.add(name, bytes)
    }
}

impl Files for SureFiles {
    ghost use Rattle.p10_world.specs.Sure.{held_of};

    ghost held = { λ sure. Some (held_of sure) };

    ghost faults = { λ _. 0 };

    fn read(
        &mut self,
        _alloc: Global,
        name: &str,
        limit: u64,
        into: &mut Vec<u8>,
    ) -> Result<(), FileFault> {
        self.held.read(name, limit, into)
    }
}

/// A source in memory that never fails.
#[derive(Drop)]
pub struct SureSource {
    bytes: Given,
}

impl SureSource {
    ghost use Rattle.p10_world.specs.Sure.{left_of};

    /// All of `bytes` are left.
    pub fn new(bytes: Vec<u8>) -> SureSource
        ensures { left_of result ≡ bytes.items }
    {
        SureSource {
            bytes: Given::new(bytes),
        }
    }
}

impl Source for SureSource {
    ghost use Rattle.p10_world.specs.Sure.{left_of};

    ghost left = { λ sure. Some (left_of sure) };

    ghost faults = { λ _. 0 };

    fn piece(&mut self, buf: &mut [u8]) -> Result<usize, Failed> {
        Ok(self.bytes.piece(buf))
    }
}

/// A sink that takes all bytes, keeps none of them and never fails.
#[derive(Drop)]
pub struct SureSink;

impl SureSink {
    /// A sink of no state.
    pub fn new() -> SureSink {
        SureSink
    }
}

impl Sink for SureSink {
    ghost taken = { λ _. None };

    ghost faults = { λ _. 0 };

    fn put(&mut self, _bytes: &[u8]) -> Result<(), SinkFault> {
        Ok(())
    }
}
