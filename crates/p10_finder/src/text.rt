//! The length of a certificate's text.

ghost use Rattle.std.specs.Prelude.{◌≡◌, [], length, IfOk};
ghost use Rattle.p10_cert.specs.Claims.{claims_of};
ghost use Rattle.p10_cert.specs.Certificate.{certificate_text};

use p10_cert::{Cert, write};
use p10_world::{Sink, SinkFault};
use std::alloc::{AllocError, Global};

/// How many bytes the text of a certificate has. It fails only where memory doesn't hold them.
pub(crate) fn text_length(alloc: Global, certificate: &Cert) -> Result<usize, AllocError>
    ensures { IfOk result (λ bytes. bytes ≡ length (certificate_text (claims_of certificate.now))) }
{
    let mut sink = TextSink::new(alloc);
    match write(certificate, &mut sink) {
        Ok(()) => Ok(sink.len()),
        Err(_) => Err(AllocError),
    }
}

/// A sink that keeps all bytes, and fails only where memory runs out.
#[derive(Drop)]
struct TextSink {
    bytes: Vec<u8>,
    faults: u64,
}

impl TextSink {
    ghost use Rattle.p10_finder.specs.private.Texts.{bytes_of};

    /// A sink that has taken nothing.
    fn new(alloc: Global) -> TextSink
        ensures { bytes_of result ≡ [] }
    {
        TextSink {
            bytes: Vec::new(alloc),
            faults: 0,
        }
    }

    /// How many bytes it took.
    fn len(&self) -> usize
        ensures { result ≡ length (bytes_of self.now) }
    {
        self.bytes.len()
    }
}

impl Sink for TextSink {
    ghost use Rattle.std.specs.Prelude.{Some};
    ghost use Rattle.p10_finder.specs.private.Texts.{bytes_of, faults_of};

    ghost taken = { λ sink. Some (bytes_of sink) };

    ghost faults = { λ sink. faults_of sink };

    fn put(&mut self, bytes: &[u8]) -> Result<(), SinkFault> {
        if bytes.is_empty() {
            return Ok(());
        }
        match self.bytes.extend_from_slice(bytes) {
            Ok(()) => Ok(()),
            Err(_) => {
                self.faults = self.faults.saturating_add(1);
                Err(SinkFault { wrote: 0 })
            }
        }
    }
}
