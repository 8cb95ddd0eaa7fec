//! What a certificate of either version claims, and the digests that it keeps.

ghost use Rattle.std.specs.Prelude.{◌≡◌, [], ◌∷◌, ◌++◌, Bool, map, IfOk, OnOk};
ghost use Rattle.p10_cert.specs.Claims.{claims_of, func_of};
ghost use Rattle.p10_cert.specs.Statements.{Entry, IsEntry, entry_text};
ghost use Rattle.p10_judge.specs.Kept.{kept_of, IsReadFrom, IsWhole};

use crate::ranks::{Ranks, ranks_at_end};
use p10_base::{Digest, ListBuf};
use p10_cert::{Cert, FuncClaim, FuncRecord, Records, claim, records};
use p10_diff_evidence::DiffEvidence;
use std::alloc::{AllocError, Global};

/// What is read of a text.
#[derive(Drop)]
pub enum Text {
    /// The first line that no certificate has, or that isn't one of ranks in their section.
    Bad(u64),
    /// The claims of a certificate, the digest that it keeps of each function, none in version 1, and the ranks of its section, if it
    /// has one.
    Whole(Cert, ListBuf<Option<Digest>>, Option<DiffEvidence>),
}

/// What the text of a certificate of either version claims, and which digests it keeps.
///
/// # Errors
///
/// Out of memory.
pub fn read(alloc: Global, bytes: &[u8]) -> Result<Text, AllocError>
    ensures { IfOk result (IsReadFrom bytes.now) }
{
    let mut reader = records(bytes);
    let mut funcs = ListBuf::of(Vec::new(alloc));
    let mut kept = ListBuf::of(Vec::new(alloc));
    loop {
        match reader.next() {
            Ok(next) => match next {
                Some(lines) => push(alloc, &mut funcs, &mut kept, &lines)?,
                None => return whole(alloc, bytes, funcs, kept, &reader),
            },
            Err(bad) => return Ok(Text::Bad(bad.line)),
        }
    }
}

/// Puts what a record claims at the end of the functions, and the digest that it keeps at the end of the digests.
fn push(
    alloc: Global,
    funcs: &mut ListBuf<FuncClaim>,
    kept: &mut ListBuf<Option<Digest>>,
    lines: &FuncRecord<'_>,
) -> Result<(), AllocError>
    ensures claims { OnOk result ((e : Entry) (sealed : Bool) → IsEntry sealed e → lines.now.text.now ≡ entry_text e → map func_of funcs.new ≡ map func_of funcs.old ++ e.func ∷ []) }
    ensures digests { OnOk result ((e : Entry) (sealed : Bool) → IsEntry sealed e → lines.now.text.now ≡ entry_text e → map kept_of kept.new ≡ map kept_of kept.old ++ e.digest ∷ []) }
{
    push_claim(alloc, funcs, lines)?;
    push_kept(kept, lines)
}

/// Puts what a record claims at the end of the functions.
fn push_claim(
    alloc: Global,
    funcs: &mut ListBuf<FuncClaim>,
    lines: &FuncRecord<'_>,
) -> Result<(), AllocError>
    ensures { OnOk result ((e : Entry) (sealed : Bool) → IsEntry sealed e → lines.now.text.now ≡ entry_text e → map func_of funcs.new ≡ map func_of funcs.old ++ e.func ∷ []) }
{
    let func = claim(alloc, lines)?;
    funcs.push(func)
}

/// Puts the digest that a record keeps at the end of the digests.
fn push_kept(kept: &mut ListBuf<Option<Digest>>, lines: &FuncRecord<'_>) -> Result<(), AllocError>
    ensures { OnOk result ((e : Entry) (sealed : Bool) → IsEntry sealed e → lines.now.text.now ≡ entry_text e → map kept_of kept.new ≡ map kept_of kept.old ++ e.digest ∷ []) }
{
    kept.push(lines.digest())
}

/// The certificate of what was read, once all was.
///
/// # Errors
///
/// Out of memory.
fn whole(
    alloc: Global,
    bytes: &[u8],
    funcs: ListBuf<FuncClaim>,
    kept: ListBuf<Option<Digest>>,
    records: &Records<'_>,
) -> Result<Text, AllocError>
    requires whole { IsWhole records.now funcs kept }
    requires text { records.now.text ≡ bytes.now }
    ensures { IfOk result (IsReadFrom bytes.now) }
{
    let total = records.total().unwrap();
    match ranks_at_end(alloc, records, bytes)? {
        Ranks::Bad(line) => Ok(Text::Bad(line)),
        Ranks::Absent => Ok(Text::Whole(Cert { funcs, total }, kept, None)),
        Ranks::Listed(evidence) => Ok(Text::Whole(Cert { funcs, total }, kept, Some(evidence))),
    }
}
