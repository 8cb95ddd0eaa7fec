//! The host's streams.

ghost use Rattle.std.specs.Prelude.{◌≡◌, ◌≤◌, length, IfOk, IfErr, OnOk, OnErr};
ghost use Rattle.std.specs.Io.KnownBytes.{Appends, Keeps};
ghost use Rattle.p10_world.specs.Faults.{Rose};
ghost use Rattle.p10_world.specs.Source.{GivesNext, EndsAtZero};
ghost use Rattle.p10_world.specs.Sink.{TakesFront, TakesPart};

use crate::{Failed, Sink, SinkFault, Source};
use std::io::{Read, Write};

/// How many bytes one call of a source takes at most.
const PIECE: usize = 4096;

/// A source over a stream of the host, as its standard input. What is left is told where the stream
/// tells it, and no stream of the host does.
#[derive(Drop)]
pub struct HostSource<R> {
    stream: R,
    faults: u64,
}

impl<R: Read + Drop> HostSource<R> {
    ghost use Rattle.p10_world.specs.Host.{source_of, source_faults_of};

    /// The bytes of that stream, and no fault yet.
    pub fn new(stream: R) -> HostSource<R>
        ensures stream { source_of result ≡ stream }
        ensures faults { source_faults_of result ≡ 0 }
    {
        HostSource { stream, faults: 0 }
    }
}

impl<R: Read + Drop> Source for HostSource<R> {
    ghost use Rattle.p10_world.specs.Host.{source_of, source_faults_of};

    ghost left = { λ host. R.remaining (source_of host) };

    ghost faults = { λ host. source_faults_of host };

    fn piece(&mut self, buf: &mut [u8]) -> Result<usize, Failed>
        ensures bound { IfOk result (λ count. count ≤ length buf.old) }
        ensures given { IfOk result (λ count. GivesNext (R.remaining (source_of self.old)) (R.remaining (source_of self.new)) count buf.new) }
        ensures end { IfOk result (λ count. EndsAtZero (R.remaining (source_of self.new)) count buf.new) }
        ensures kept { OnErr result (Keeps (R.remaining (source_of self.old)) (R.remaining (source_of self.new))) }
        ensures untouched { OnErr result (buf.new ≡ buf.old) }
        ensures failed { OnErr result (Rose (source_faults_of self.old) (source_faults_of self.new)) }
        ensures count { source_faults_of self.old ≤ source_faults_of self.new }
        ensures steady { OnOk result (source_faults_of self.new ≡ source_faults_of self.old) }
    {
        // A read that fails may have put bytes into the buffer, and `buf` is to stay as it is then.
        let mut piece = [0u8; PIECE];
        let most = buf.len().min(PIECE);
        match self.stream.read(&mut piece[..most]) {
            Ok(count) => {
                buf[..count].copy_from_slice(&piece[..count]);
                Ok(count)
            }
            Err(_) => {
                self.faults = self.faults.saturating_add(1);
                Err(Failed)
            }
        }
    }
}

/// A sink over a stream of the host, as its standard output. What was taken is told where the stream
/// tells it, and no stream of the host does. A write that takes nothing is a fault.
#[derive(Drop)]
pub struct HostSink<W> {
    stream: W,
    faults: u64,
}

impl<W: Write + Drop> HostSink<W> {
    ghost use Rattle.p10_world.specs.Host.{sink_of, sink_faults_of};

    /// A sink to that stream, and no fault yet.
    pub fn new(stream: W) -> HostSink<W>
        ensures stream { sink_of result ≡ stream }
        ensures faults { sink_faults_of result ≡ 0 }
    {
        HostSink { stream, faults: 0 }
    }
}

impl<W: Write + Drop> Sink for HostSink<W> {
    ghost use Rattle.p10_world.specs.Host.{sink_of, sink_faults_of};

    ghost taken = { λ host. W.contents (sink_of host) };

    ghost faults = { λ host. sink_faults_of host };

    fn put(&mut self, bytes: &[u8]) -> Result<(), SinkFault>
        ensures ok { OnOk result (Appends (W.contents (sink_of self.old)) (W.contents (sink_of self.new)) bytes.now) }
        ensures part { IfErr result (λ fault. TakesPart (W.contents (sink_of self.old)) (W.contents (sink_of self.new)) bytes.now fault.wrote) }
        ensures front { OnErr result (TakesFront (W.contents (sink_of self.old)) (W.contents (sink_of self.new)) bytes.now) }
        ensures failed { OnErr result (Rose (sink_faults_of self.old) (sink_faults_of self.new)) }
        ensures count { sink_faults_of self.old ≤ sink_faults_of self.new }
        ensures steady { OnOk result (sink_faults_of self.new ≡ sink_faults_of self.old) }
    {
        let mut wrote = 0;
        while wrote < bytes.len() {
            match self.stream.write(&bytes[wrote..]) {
                Ok(0) | Err(_) => {
                    self.faults = self.faults.saturating_add(1);
                    return Err(SinkFault { wrote });
                }
                Ok(count) => wrote += count,
            }
        }
        Ok(())
    }
}
