//! A certificate's text is read: one function after the other, or all at once.

ghost use Rattle.std.specs.Prelude.{◌≡◌, ◌∷◌, [], ◌++◌, Bool, true, map, option_map, codes, IfOk, OnOk};
ghost use Rattle.p10_cert.specs.Claims.{func_of};
ghost use Rattle.p10_cert.specs.Reading.{Fits, ReadsAs, ReadsAsSealed, begins_with, version_of};
ghost use Rattle.p10_cert.specs.Records.{at_start};
ghost use Rattle.p10_cert.specs.Sealed.{bytes_of};
ghost use Rattle.p10_cert.specs.Statements.{Entry, IsEntry, entry_text};
ghost use Rattle.p10_cert.specs.private.Whole.{seal_of, IsWhole, IsWholeFirst};

use crate::building::Partial;
use crate::claims::{Cert, FuncClaim};
use crate::fault::CertFault;
use crate::line::Row;
use crate::reader::Records;
use crate::record::FuncRecord;
use crate::sealed::Cert2;
use p10_base::{Digest, Limit, ListBuf};
use std::alloc::{AllocError, Global};

/// The certificate of version 1 whose text this is.
///
/// # Errors
///
/// [`CertFault::Over`] with M10 exactly for more than 8,388,608 bytes, and else [`CertFault::Line`] exactly where
/// the text is that of no certificate of version 1, but for [`CertFault::Memory`].
pub fn read(alloc: Global, bytes: &[u8]) -> Result<Cert, CertFault>
    ensures { ReadsAs bytes.now result }
{
    if bytes.len() as u64 > Limit::MOST_CERTIFICATE_BYTES {
        return Err(CertFault::Over(Limit::CERTIFICATE_BYTES));
    }
    read_first(alloc, bytes)
}

/// The same of a text that isn't too long.
fn read_first(alloc: Global, bytes: &[u8]) -> Result<Cert, CertFault>
    requires { Fits bytes.now }
    ensures { ReadsAs bytes.now result }
{
    if !is_first_version(bytes) {
        return Err(CertFault::Line(1));
    }
    let mut records = Records::new(bytes);
    let mut funcs = ListBuf::of(Vec::new(alloc));
    loop {
        match records.next() {
            Ok(next) => match next {
                Some(record) => {
                    if let Err(_) = push_claim(alloc, &mut funcs, &record) {
                        return Err(CertFault::Memory);
                    }
                }
                None => return plain(funcs, &records),
            },
            Err(bad) => return Err(CertFault::Line(bad.line)),
        }
    }
}

/// The certificate of version 2 whose text this is.
///
/// # Errors
///
/// [`CertFault::Over`] with M10 exactly for more than 8,388,608 bytes, and else [`CertFault::Line`] exactly where
/// the text is that of no certificate of version 2, but for [`CertFault::Memory`].
pub fn read2(alloc: Global, bytes: &[u8]) -> Result<Cert2, CertFault>
    ensures { ReadsAsSealed bytes.now result }
{
    if bytes.len() as u64 > Limit::MOST_CERTIFICATE_BYTES {
        return Err(CertFault::Over(Limit::CERTIFICATE_BYTES));
    }
    read_second(alloc, bytes)
}

/// The same of a text that isn't too long.
fn read_second(alloc: Global, bytes: &[u8]) -> Result<Cert2, CertFault>
    requires { Fits bytes.now }
    ensures { ReadsAsSealed bytes.now result }
{
    if !is_second_version(bytes) {
        return Err(CertFault::Line(1));
    }
    let mut records = Records::new(bytes);
    let mut funcs = ListBuf::of(Vec::new(alloc));
    let mut digests = ListBuf::of(Vec::new(alloc));
    loop {
        match records.next() {
            Ok(next) => match next {
                Some(record) => {
                    if let Err(_) = push_sealed(alloc, &mut funcs, &mut digests, &record) {
                        return Err(CertFault::Memory);
                    }
                }
                None => return sealed(alloc, funcs, digests, &records),
            },
            Err(bad) => return Err(CertFault::Line(bad.line)),
        }
    }
}

/// The version that the first line of a text tells.
#[tactic(auto, unfolding(crate::specs::Reading::version_of))]
pub fn version(bytes: &[u8]) -> Option<u8>
    ensures { result ≡ version_of bytes.now }
{
    if is_first_version(bytes) {
        Some(1)
    } else if is_second_version(bytes) {
        Some(2)
    } else {
        None
    }
}

/// Whether a text has the first line of version 1.
fn is_first_version(bytes: &[u8]) -> bool
    ensures { result ≡ begins_with (codes "p10cert 1\n") bytes.now }
{
    bytes.starts_with(b"p10cert 1\n")
}

/// Whether a text has the first line of version 2.
fn is_second_version(bytes: &[u8]) -> bool
    ensures { result ≡ begins_with (codes "p10cert 2\n") bytes.now }
{
    bytes.starts_with(b"p10cert 2\n")
}

/// The reader of the functions of a text, of which it has given none. It takes no memory.
pub fn records<'c>(bytes: &'c [u8]) -> Records<'c>
    ensures { result ≡ at_start bytes.now }
{
    Records::new(bytes)
}

/// What the lines of a record claim: of a record that the reader gave, its function.
///
/// # Errors
///
/// Out of memory.
pub fn claim(alloc: Global, r: &FuncRecord<'_>) -> Result<FuncClaim, AllocError>
    ensures { IfOk result (λ claim. (e : Entry) (sealed : Bool) → IsEntry sealed e → r.now.text.now ≡ entry_text e → func_of claim ≡ e.func) }
{
    let (func, _) = claim_and_digest(alloc, r)?;
    Ok(func)
}

/// What the lines of a record claim, and the digest that they tell, if they tell one.
fn claim_and_digest(
    alloc: Global,
    r: &FuncRecord<'_>,
) -> Result<(FuncClaim, Option<Digest>), AllocError>
    ensures { IfOk result (λ told. (e : Entry) (sealed : Bool) → IsEntry sealed e → r.now.text.now ≡ entry_text e → (func_of told.0 ≡ e.func) × (option_map bytes_of told.1 ≡ e.digest)) }
{
    let mut partial = Partial::new(alloc);
    let mut rest = r.text;
    while let Some((line, after)) = Row::read(rest) {
        partial.take(alloc, line)?;
        rest = after;
    }
    let told = partial.digest();
    let func = partial.finish(alloc)?;
    Ok((func, told))
}

/// Puts what a record claims at the end of the functions.
fn push_claim(
    alloc: Global,
    funcs: &mut ListBuf<FuncClaim>,
    r: &FuncRecord<'_>,
) -> Result<(), AllocError>
    ensures { OnOk result ((e : Entry) (sealed : Bool) → IsEntry sealed e → r.now.text.now ≡ entry_text e → map func_of funcs.new ≡ map func_of funcs.old ++ e.func ∷ []) }
{
    let func = claim(alloc, r)?;
    funcs.push(func)
}

/// Puts what a record of version 2 claims at the end of the functions, and its digest at the end of the digests.
fn push_sealed(
    alloc: Global,
    funcs: &mut ListBuf<FuncClaim>,
    digests: &mut ListBuf<Digest>,
    r: &FuncRecord<'_>,
) -> Result<(), AllocError>
    ensures claims { OnOk result ((e : Entry) → IsEntry true e → r.now.text.now ≡ entry_text e → map func_of funcs.new ≡ map func_of funcs.old ++ e.func ∷ []) }
    ensures digests { OnOk result ((e : Entry) → IsEntry true e → r.now.text.now ≡ entry_text e → map seal_of digests.new ≡ map seal_of digests.old ++ e.digest ∷ []) }
{
    let (func, digest) = claim_and_digest(alloc, r)?;
    funcs.push(func)?;
    push_digest(digests, digest)
}

/// Puts a digest that a record of version 2 tells at the end of the digests.
fn push_digest(digests: &mut ListBuf<Digest>, digest: Option<Digest>) -> Result<(), AllocError>
    ensures { OnOk result ((e : Entry) → IsEntry true e → option_map bytes_of digest ≡ e.digest → map seal_of digests.new ≡ map seal_of digests.old ++ e.digest ∷ []) }
{
    match digest {
        Some(digest) => digests.push(digest),
        None => Ok(()),
    }
}

/// The certificate of version 1 of what was read, once all was.
fn plain(funcs: ListBuf<FuncClaim>, records: &Records<'_>) -> Result<Cert, CertFault>
    requires { IsWholeFirst records.now funcs }
    ensures { ReadsAs records.now.text result }
{
    let total = records.total().unwrap();
    Ok(Cert { funcs, total })
}

/// The certificate of version 2 of what was read, once all was.
fn sealed(
    alloc: Global,
    funcs: ListBuf<FuncClaim>,
    digests: ListBuf<Digest>,
    records: &Records<'_>,
) -> Result<Cert2, CertFault>
    requires { IsWhole records.now funcs digests }
    ensures { ReadsAsSealed records.now.text result }
{
    let sections = match records.sections(alloc) {
        Ok(found) => found.unwrap(),
        Err(_) => return Err(CertFault::Memory),
    };
    let total = records.total().unwrap();
    let outside = records.outside().unwrap();
    Ok(Cert2 {
        base: Cert { funcs, total },
        digests,
        outside,
        sections,
    })
}
