//! The text of claims with digests.

ghost use Rattle.std.specs.Prelude.{◌≡◌, [], length, map, IfOk};
ghost use Rattle.p10_cert.specs.Claims.{claims_of};
ghost use Rattle.p10_cert.specs.Sealed.{HasDigests, section_of, statement_of};
ghost use Rattle.p10_cert.specs.Statements.{statement_text};
ghost use Rattle.p10_front.specs.Digests.{plain_digests};
ghost use Rattle.p10_seal.specs.Sealing.{sealed_with, sealed_text, within_limit};

use p10_base::{Digests, Limit, ListBuf};
use p10_cert::{Cert, Cert2, Section, write2};
use p10_world::{Sink, SinkFault};
use std::alloc::{AllocError, Global};

/// The text of the certificate of version 2 with these claims and digests and without sections, of which each function has one;
/// `None` where it is longer than limit M10 allows.
///
/// # Errors
///
/// Out of memory.
pub fn sealed_text(
    alloc: Global,
    claims: Cert,
    digests: Digests,
) -> Result<Option<ListBuf<u8>>, AllocError>
    requires { length digests.funcs ≡ length claims.funcs }
    ensures { IfOk result (λ found. found ≡ within_limit (sealed_text (claims_of claims) (plain_digests digests))) }
{
    let none = ListBuf::of(Vec::new(alloc));
    sealed_text_with(alloc, claims, digests, none)
}

/// The same with these sections.
///
/// # Errors
///
/// Out of memory.
pub fn sealed_text_with(
    alloc: Global,
    claims: Cert,
    digests: Digests,
    sections: ListBuf<Section>,
) -> Result<Option<ListBuf<u8>>, AllocError>
    requires { length digests.funcs ≡ length claims.funcs }
    ensures { IfOk result (λ found. found ≡ within_limit (statement_text (sealed_with (claims_of claims) (plain_digests digests) (map section_of sections)))) }
{
    let certificate = sealed_with(claims, digests, sections);
    let mut text = GrowingText::new(alloc);
    match write2(&certificate, &mut text) {
        Ok(()) => Ok(within_limit(text.bytes)),
        Err(_) => Err(AllocError),
    }
}

/// The certificate of version 2 with these claims, digests and sections.
fn sealed_with(claims: Cert, digests: Digests, sections: ListBuf<Section>) -> Cert2
    requires { length digests.funcs ≡ length claims.funcs }
    ensures same { statement_of result ≡ sealed_with (claims_of claims) (plain_digests digests) (map section_of sections) }
    ensures each { HasDigests result }
{
    Cert2 {
        base: claims,
        digests: digests.funcs,
        outside: digests.outside,
        sections,
    }
}

/// A text, unless it is longer than a certificate may be.
fn within_limit(text: Vec<u8>) -> Option<ListBuf<u8>>
    ensures { result ≡ within_limit text.items }
{
    if text.len() as u64 <= Limit::MOST_CERTIFICATE_BYTES {
        Some(ListBuf::of(text))
    } else {
        None
    }
}

/// A sink in memory that grows by what it takes. It fails only where memory runs out.
#[derive(Drop)]
struct GrowingText {
    bytes: Vec<u8>,
    faults: u64,
}

impl GrowingText {
    /// A sink that has taken nothing.
    fn new(alloc: Global) -> GrowingText
        ensures { result.bytes.items ≡ [] }
    {
        GrowingText {
            bytes: Vec::new(alloc),
            faults: 0,
        }
    }
}

impl Sink for GrowingText {
    ghost use Rattle.std.specs.Prelude.{Some};

    ghost taken = { λ text. Some text.bytes.items };

    ghost faults = { λ text. text.faults };

    fn put(&mut self, bytes: &[u8]) -> Result<(), SinkFault> {
        match self.bytes.extend_from_slice(bytes) {
            Ok(()) => Ok(()),
            Err(_) => {
                self.faults = self.faults.saturating_add(1);
                Err(SinkFault { wrote: 0 })
            }
        }
    }
}
