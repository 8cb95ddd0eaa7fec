//! The host's files.

ghost use Rattle.std.specs.Prelude.{◌≡◌, ◌≤◌, ◌+◌, ◌++◌, None, IfSome, IsErrOf, OnErr, OnOk, take, vec_len};
ghost use Rattle.p10_world.specs.Faults.{Rose};
ghost use Rattle.p10_world.specs.Files.{GrowsAtMost};

use crate::{FileFault, Files};
use std::alloc::Global;
use std::io::{ErrorKind, Read};
use std::{fs, rt};

// How many bytes one turn of a read asks for at most.
const PIECE: usize = 4096;

/// The host's files. A name is a path. Only a file of which the host says that there is none is absent;
/// permission that is denied, a directory of which a byte is asked for, and each other refusal of the host
/// is a fault. What the files hold isn't told.
#[derive(Drop)]
pub struct HostFiles<R> {
    runtime: R,
    faults: u64,
}

impl<R: rt::Files + Drop> HostFiles<R> {
    ghost use Rattle.p10_world.specs.Host.{files_faults_of};

    /// The files of that runtime, and no fault yet.
    pub fn new(runtime: R) -> HostFiles<R>
        ensures { files_faults_of result ≡ 0 }
    {
        HostFiles { runtime, faults: 0 }
    }
}

impl<R: rt::Files + Drop> Files for HostFiles<R> {
    ghost use Rattle.p10_world.specs.Host.{files_faults_of};

    ghost held = { λ _. None };

    ghost faults = { λ host. files_faults_of host };

    fn read(
        &mut self,
        _alloc: Global,
        name: &str,
        limit: u64,
        into: &mut Vec<u8>,
    ) -> Result<(), FileFault>
        ensures most { OnOk result (GrowsAtMost limit into.old.items into.new.items) }
        ensures failed { IsErrOf result FileFault.Failed → Rose (files_faults_of self.old) (files_faults_of self.new) }
        ensures count { files_faults_of self.old ≤ files_faults_of self.new }
        ensures steady { OnOk result (files_faults_of self.new ≡ files_faults_of self.old) }
        ensures refused { OnErr result (into.new.items ≡ into.old.items) }
    {
        let before = into.len();
        let outcome = append_file(&self.runtime, name, limit, into);
        if let Err(fault) = outcome {
            into.truncate(before);
            if fault == FileFault::Failed {
                self.faults = self.faults.saturating_add(1);
            }
        }
        outcome
    }
}

// Appends the first `limit` bytes of the file to `into`; after a refusal some of them may stand there.
fn append_file<R: rt::Files>(
    runtime: &R,
    name: &str,
    limit: u64,
    into: &mut Vec<u8>,
) -> Result<(), FileFault>
    ensures begins { take (vec_len into.old) into.new.items ≡ into.old.items }
    ensures grows { vec_len into.new ≤ vec_len into.old + limit }
{
    match fs::open(runtime, name) {
        Ok(mut file) => append_bytes(&mut file, limit, into),
        Err(error) => {
            if error.kind() == ErrorKind::NotFound {
                Err(FileFault::Absent)
            } else {
                Err(FileFault::Failed)
            }
        }
    }
}

// Appends the next `limit` bytes of a reader to `into`, or all if there are fewer.
fn append_bytes<F: Read>(file: &mut F, limit: u64, into: &mut Vec<u8>) -> Result<(), FileFault>
    ensures whole { OnOk result (IfSome (F.remaining file.old) (λ bytes. into.new.items ≡ into.old.items ++ take limit bytes)) }
    ensures begins { take (vec_len into.old) into.new.items ≡ into.old.items }
    ensures grows { vec_len into.new ≤ vec_len into.old + limit }
{
    let mut buffer = [0u8; PIECE];
    let mut left = limit;
    while left > 0 {
        let most = left.min(PIECE as u64) as usize;
        match file.read(&mut buffer[..most]) {
            Ok(0) => break,
            Ok(count) => {
                if into.extend_from_slice(&buffer[..count]).is_err() {
                    return Err(FileFault::Memory);
                }
                left -= count as u64;
            }
            Err(_) => return Err(FileFault::Failed),
        }
    }
    Ok(())
}
