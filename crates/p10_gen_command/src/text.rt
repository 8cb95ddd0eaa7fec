//! The text of a certificate, in memory.

ghost use Rattle.std.specs.Prelude.{◌≡◌, [], IfOk};
ghost use Rattle.p10_cert.specs.Claims.{claims_of};
ghost use Rattle.p10_cert.specs.Certificate.{certificate_text};

use p10_cert::{Cert, write};
use p10_world::{Sink, SinkFault};
use std::alloc::{AllocError, Global};

/// The text of a certificate.
///
/// # Errors
///
/// Out of memory.
pub fn certificate_text(alloc: Global, certificate: &Cert) -> Result<Vec<u8>, AllocError>
    ensures { IfOk result (λ bytes. bytes.items ≡ certificate_text (claims_of certificate.now)) }
{
    let mut text = GrowingText::new(alloc);
    match write(certificate, &mut text) {
        Ok(()) => Ok(text.bytes),
        Err(_) => Err(AllocError),
    }
}

/// A sink in memory that grows by what it takes. It fails only where memory runs out.
#[derive(Drop)]
struct GrowingText {
    bytes: Vec<u8>,
    faults: u64,
}

impl GrowingText {
    /// A sink that has taken nothing.
    fn new(alloc: Global) -> GrowingText
        ensures { result.bytes.items ≡ [] }
    {
        GrowingText {
            bytes: Vec::new(alloc),
            faults: 0,
        }
    }
}

impl Sink for GrowingText {
    ghost use Rattle.std.specs.Prelude.{Some};

    ghost taken = { λ text. Some text.bytes.items };

    ghost faults = { λ text. text.faults };

    fn put(&mut self, bytes: &[u8]) -> Result<(), SinkFault> {
        match self.bytes.extend_from_slice(bytes) {
            Ok(()) => Ok(()),
            Err(_) => {
                self.faults = self.faults.saturating_add(1);
                Err(SinkFault { wrote: 0 })
            }
        }
    }
}
