//! The outside of `p10`: files that are read by their names, a source of bytes and a sink of bytes.
//!
//! Entry points: the traits [`Files`], [`Source`] and [`Sink`]. Each tells what it holds, where it
//! can, and a count of its faults. Invariant: no count of faults falls, and a call answers a fault
//! only where the count rose in that call. [`MemFiles`], [`MemSource`] and [`MemSink`] stand over
//! memory and fail where they are told to; [`SureFiles`], [`SureSource`] and [`SureSink`] never
//! fail; [`HostFiles`], [`HostSource`] and [`HostSink`] stand over the host's files and streams,
//! which tell nothing of what they hold. What the bytes mean is left to the crates above.
#![tactic(auto)]

ghost use Rattle.std.specs.Prelude.{◌≡◌, ℕ, ◌≤◌, List, length, Option, IfOk, IfErr, OnOk, OnErr, IsErrOf};
ghost use Rattle.std.specs.Io.KnownBytes.{Appends, Keeps};
ghost use Rattle.p10_world.specs.Faults.{Rose};
ghost use Rattle.p10_world.specs.Files.{Named, Lacks, GrowsByFile, GrowsAtMost};
ghost use Rattle.p10_world.specs.Source.{GivesNext, EndsAtZero};
ghost use Rattle.p10_world.specs.Sink.{TakesFront, TakesPart};

use std::alloc::Global;

mod given;
mod held_files;
mod host_files;
mod host_streams;
mod mem_files;
mod mem_sink;
mod mem_source;
mod plan;
mod sure;

pub use host_files::HostFiles;
pub use host_streams::{HostSink, HostSource};
pub use mem_files::MemFiles;
pub use mem_sink::MemSink;
pub use mem_source::MemSource;
pub use sure::{SureFiles, SureSink, SureSource};

/// Files that are read by their names.
pub trait Files {
    // The files held, where they are told.
    ghost held: { Self → Option (List Named) };

    // How many reads failed.
    ghost faults: { Self → ℕ };

    /// Appends the first `limit` bytes of the file `name` to `into`, or all of them if it is shorter.
    /// On every refusal `into` is as before.
    ///
    /// # Errors
    ///
    /// [`FileFault::Absent`] only where no such file is held, [`FileFault::Failed`] only where the
    /// count of faults rose, and [`FileFault::Memory`] where memory is out.
    fn read(
        &mut self,
        alloc: Global,
        name: &str,
        limit: u64,
        into: &mut Vec<u8>,
    ) -> Result<(), FileFault>
        ensures held { held self.new ≡ held self.old }
        ensures read { OnOk result (GrowsByFile (held self.old) name.now limit into.old.items into.new.items) }
        ensures most { OnOk result (GrowsAtMost limit into.old.items into.new.items) }
        ensures absent { IsErrOf result FileFault.Absent → Lacks (held self.old) name.now }
        ensures failed { IsErrOf result FileFault.Failed → Rose (faults self.old) (faults self.new) }
        ensures count { faults self.old ≤ faults self.new }
        ensures refused { OnErr result (into.new.items ≡ into.old.items) };
}

/// Why a file was not read.
#[derive(Clone, Copy, Debug, PartialEq, Eq)]
pub enum FileFault {
    /// There is no such file.
    Absent,
    /// The read failed.
    Failed,
    /// Out of memory.
    Memory,
}

/// A source of bytes.
pub trait Source {
    // The bytes left, where they are told.
    ghost left: { Self → Option (List ℕ) };

    // How many calls failed.
    ghost faults: { Self → ℕ };

    /// Takes the next bytes into the beginning of `buf`, and gives how many, at most `buf.len()`. For a
    /// `buf` that is not empty 0 means the end.
    ///
    /// # Errors
    ///
    /// [`Failed`] only where the count of faults rose; what is left and `buf` are then as before.
    fn piece(&mut self, buf: &mut [u8]) -> Result<usize, Failed>
        ensures bound { IfOk result (λ count. count ≤ length buf.old) }
        ensures given { IfOk result (λ count. GivesNext (left self.old) (left self.new) count buf.new) }
        ensures end { IfOk result (λ count. EndsAtZero (left self.new) count buf.new) }
        ensures kept { OnErr result (Keeps (left self.old) (left self.new)) }
        ensures untouched { OnErr result (buf.new ≡ buf.old) }
        ensures failed { OnErr result (Rose (faults self.old) (faults self.new)) }
        ensures count { faults self.old ≤ faults self.new };
}

/// A source's fault.
#[derive(Clone, Copy, Debug, PartialEq, Eq)]
pub struct Failed;

/// A sink of bytes.
pub trait Sink {
    // The bytes taken so far, where they are told.
    ghost taken: { Self → Option (List ℕ) };

    // How many calls failed.
    ghost faults: { Self → ℕ };

    /// Appends all of `bytes` to what was taken.
    ///
    /// # Errors
    ///
    /// [`SinkFault`] only where the count of faults rose; its first `wrote` bytes were then appended,
    /// fewer than all.
    fn put(&mut self, bytes: &[u8]) -> Result<(), SinkFault>
        ensures ok { OnOk result (Appends (taken self.old) (taken self.new) bytes.now) }
        ensures part { IfErr result (λ fault. TakesPart (taken self.old) (taken self.new) bytes.now fault.wrote) }
        ensures front { OnErr result (TakesFront (taken self.old) (taken self.new) bytes.now) }
        ensures failed { OnErr result (Rose (faults self.old) (faults self.new)) }
        ensures count { faults self.old ≤ faults self.new };
}

/// A sink's fault.
#[derive(Clone, Copy, Debug, PartialEq, Eq)]
pub struct SinkFault {
    /// How many of the bytes were taken before the fault.
    pub wrote: usize,
}
