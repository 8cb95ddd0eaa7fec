//! A sink in memory, which fails where its room ends.

ghost use Rattle.std.specs.Prelude.{◌≡◌, ◌↔◌, ◌≤◌, ◌-◌, [], ◌++◌, Some, length, vec_len, vec_capacity, nat_le, if◌then◌else◌, IfOk, IfErr, IsOk, OnOk, OnErr};
ghost use Rattle.p10_world.specs.Faults.{Rose};
ghost use Rattle.p10_world.specs.Plan.{next_count};
ghost use Rattle.p10_world.specs.Sink.{TakesFront, TakesPart};

use crate::{Sink, SinkFault};
use std::alloc::{AllocError, Global};

/// A sink in memory. A put that does not fit takes what fits and is a fault.
#[derive(Drop)]
pub struct MemSink {
    bytes: Vec<u8>,
    room: usize,
    faults: u64,
    ghost reserved: { room ≤ vec_capacity bytes },
    ghost within: { vec_len bytes ≤ room },
}

impl MemSink {
    ghost use Rattle.p10_world.specs.MemSink.{faults_of, room_for, room_of, taken_of};

    /// A sink that has taken nothing, with memory for `capacity` bytes. It takes that many bytes
    /// at most, or `fail_after` where that is given and less; the put that brings more fails.
    ///
    /// # Errors
    ///
    /// Out of memory for `capacity` bytes.
    pub fn new(
        alloc: Global,
        capacity: usize,
        fail_after: Option<u64>,
    ) -> Result<MemSink, AllocError>
        ensures empty { IfOk result (λ sink. taken_of sink ≡ []) }
        ensures room { IfOk result (λ sink. room_of sink ≡ room_for capacity fail_after) }
        ensures faults { IfOk result (λ sink. faults_of sink ≡ 0) }
    {
        let bytes = Vec::with_capacity(alloc, capacity)?;
        let room = match fail_after {
            Some(count) => count.min(capacity as u64) as usize,
            None => capacity,
        };
        Ok(MemSink {
            bytes,
            room,
            faults: 0,
        })
    }

    /// What was taken.
    pub fn taken(&self) -> &[u8]
        ensures { result.now ≡ taken_of self.now }
    {
        self.bytes.as_slice()
    }
}

impl Sink for MemSink {
    ghost use Rattle.p10_world.specs.MemSink.{faults_of, room_of, taken_of};

    ghost taken = { λ memory. Some (taken_of memory) };

    ghost faults = { λ memory. faults_of memory };

    // The room was made by the constructor, so no call takes memory.
    fn put(&mut self, bytes: &[u8]) -> Result<(), SinkFault>
        ensures ok { OnOk result (taken_of self.new ≡ taken_of self.old ++ bytes.now) }
        ensures fits { IsOk result ↔ (length bytes.now ≤ room_of self.old) }
        ensures part { IfErr result (λ fault. TakesPart (Some (taken_of self.old)) (Some (taken_of self.new)) bytes.now fault.wrote) }
        ensures front { OnErr result (TakesFront (Some (taken_of self.old)) (Some (taken_of self.new)) bytes.now) }
        ensures wrote { IfErr result (λ fault. fault.wrote ≡ room_of self.old) }
        ensures room { room_of self.new ≡ room_of self.old - length bytes.now }
        ensures counted { faults_of self.new ≡ (if nat_le (length bytes.now) (room_of self.old) then faults_of self.old else next_count (faults_of self.old)) }
        ensures failed { OnErr result (Rose (faults_of self.old) (faults_of self.new)) }
        ensures count { faults_of self.old ≤ faults_of self.new }
    {
        let room = self.room - self.bytes.len();
        let count = room.min(bytes.len());
        let taken = self.bytes.extend_from_slice(&bytes[..count]);
        prove!(taken.is_ok());
        if count < bytes.len() {
            self.faults = self.faults.saturating_add(1);
            return Err(SinkFault { wrote: count });
        }
        Ok(())
    }
}
