//! The reading of a certificate's text: what is tried of each claim while it is whole.

ghost use Rattle.std.specs.Prelude.{◌≡◌, ℕ, Bool, List, [], ◌∷◌, ◌++◌, Some, IfOk, OnOk, bytes_eq, map, option_copied, option_map, slice_get};
ghost use Rattle.p10_core.specs.Typed.{PlainProgram};
ghost use Rattle.p10_core.specs.Views.{plain_program};
ghost use Rattle.p10_cert.specs.Claims.{func_of, loop_of};
ghost use Rattle.p10_cert.specs.Sealed.{bytes_of};
ghost use Rattle.p10_cert.specs.Statements.{Entry, IsEntry, entry_text};
ghost use Rattle.p10_check.specs.Texts.{differing_digests, digests_of};
ghost use Rattle.p10_check.specs.private.ShapesByTurn.{turn_or};
ghost use Rattle.p10_check.specs.private.Readings.{stale_of, stale_at, stale_or, misfit_by, misfit_at, misfit_or, lacking, misfit_at_end, AreTold, HasEnded, TextTells, IsReading};

use crate::kept::{Kept, keep, nothing_kept};
use crate::main_claims::turn_by_loops;
use crate::places::function_at;
use p10_base::{Digest, Digests};
use p10_cert::{FuncClaim, FuncRecord, LoopClaim, Records, claim, records};
use p10_core::Program;
use p10_fit::fits_function;
use std::alloc::{AllocError, Global};

/// A function whose words aren't those that a certificate speaks of.
#[derive(Clone, Copy)]
pub(crate) struct StaleAt {
    pub number: usize,
    pub kept: Digest,
    pub found: Digest,
}

/// What claims tell that were read one after the other.
#[derive(Drop)]
pub(crate) struct Told<'c> {
    /// What is kept of them.
    pub kept: Kept<'c>,
    /// The steps that are claimed of a turn of the task loop; 0 without one.
    pub turn: u64,
    /// The first function whose digests differ.
    pub stale: Option<StaleAt>,
    /// The first function of which its claim doesn't speak.
    pub unfit: Option<usize>,
}

/// What is told before anything was read.
pub(crate) fn nothing_told<'c>(alloc: Global) -> Told<'c>
    ensures { (p : PlainProgram) (digests : List (List ℕ)) → AreTold p digests [] result }
{
    Told {
        kept: nothing_kept(alloc),
        turn: 0,
        stale: None,
        unfit: None,
    }
}

/// Reads a text for a program, of whose functions these are the digests. Gives the first line that no certificate has, if there is one.
pub(crate) fn read_text<'c>(
    alloc: Global,
    program: &Program<'_>,
    found: &Digests,
    bytes: &'c [u8],
    told: &mut Told<'c>,
) -> Result<Option<u64>, AllocError>
    requires { AreTold (plain_program program.now) (digests_of found.now) [] told.old }
    ensures { IfOk result (IsReading (plain_program program.now) (digests_of found.now) bytes.now told.new) }
{
    let mut reader = records(bytes);
    loop {
        match reader.next() {
            Ok(next) => match next {
                Some(record) => tell(alloc, program, found, &record, told)?,
                None => {
                    finish(program, &reader, told);
                    return Ok(None);
                }
            },
            Err(bad) => return Ok(Some(bad.line)),
        }
    }
}

/// What one record more tells.
fn tell<'c>(
    alloc: Global,
    program: &Program<'_>,
    found: &Digests,
    lines: &FuncRecord<'c>,
    told: &mut Told<'c>,
) -> Result<(), AllocError>
    ensures { OnOk result ((given : List Entry) (e : Entry) (sealed : Bool) → AreTold (plain_program program.now) (digests_of found.now) given told.old → IsEntry sealed e → lines.now.text.now ≡ entry_text e
        → AreTold (plain_program program.now) (digests_of found.now) (given ++ e ∷ []) told.new) }
{
    let number = told.kept.certificate.funcs.as_slice().len();
    let own = claim(alloc, lines)?;
    told.stale = stale_or(told.stale, number, lines, found);
    told.turn = turn_or(program, told.turn, number, own.loops.as_slice());
    told.unfit = misfit_or(alloc, program, told.unfit, number, &own)?;
    keep(alloc, &mut told.kept, own, lines)
}

/// The first function whose digests differ: of those before it, or else that of this record.
fn stale_or(
    before: Option<StaleAt>,
    number: usize,
    lines: &FuncRecord<'_>,
    found: &Digests,
) -> Option<StaleAt>
    ensures { (e : Entry) (sealed : Bool) → IsEntry sealed e → lines.now.text.now ≡ entry_text e → option_map stale_of result ≡ stale_or (option_map stale_of before) number e (digests_of found.now) }
{
    match before {
        Some(stale) => Some(stale),
        None => stale_at(number, lines, digest_at(found, number)),
    }
}

/// The steps that are claimed of a turn of the task loop: by the functions before, or by these claims on loops, if they are of `main`.
fn turn_or(program: &Program<'_>, turn: u64, number: usize, loops: &[LoopClaim]) -> u64
    ensures { result ≡ turn_or (plain_program program.now) turn number (map loop_of loops.now) }
{
    if number == program.main as usize {
        turn_by_loops(program, loops)
    } else {
        turn
    }
}

/// The first function of which its claim doesn't speak: of those before it, or else this one.
fn misfit_or(
    alloc: Global,
    program: &Program<'_>,
    before: Option<usize>,
    number: usize,
    own: &FuncClaim,
) -> Result<Option<usize>, AllocError>
    ensures { IfOk result (λ at. at ≡ misfit_or (plain_program program.now) before number (func_of own.now)) }
{
    match before {
        Some(at) => Ok(Some(at)),
        None => misfit_at(alloc, program, number, own),
    }
}

/// Whether the claim doesn't speak of its function, which may be lacking.
fn misfit_at(
    alloc: Global,
    program: &Program<'_>,
    number: usize,
    own: &FuncClaim,
) -> Result<Option<usize>, AllocError>
    ensures { IfOk result (λ at. at ≡ misfit_at (plain_program program.now) number (func_of own.now) (slice_get (plain_program program.now).functions number)) }
{
    match function_at(program, number) {
        Some(function) => {
            let fits = fits_function(alloc, program, number, function, own)?;
            Ok(misfit_by(fits, number))
        }
        None => Ok(Some(program.main as usize)),
    }
}

/// The function with a number, if its claim doesn't speak of it.
fn misfit_by(fits: bool, number: usize) -> Option<usize>
    ensures { result ≡ misfit_by fits number }
{
    if fits { None } else { Some(number) }
}

/// The digests of one function, where they differ. A function may be lacking.
fn stale_at(number: usize, lines: &FuncRecord<'_>, own: Option<&Digest>) -> Option<StaleAt>
    ensures { (e : Entry) (sealed : Bool) → IsEntry sealed e → lines.now.text.now ≡ entry_text e → option_map stale_of result ≡ stale_at number e (option_map bytes_of (option_copied own.entry)) }
{
    match own {
        Some(found) => differing_digests(number, lines.digest(), *found),
        None => None,
    }
}

/// The digest that is kept of a function, if any, and its own, where they differ.
fn differing_digests(number: usize, kept: Option<Digest>, found: Digest) -> Option<StaleAt>
    ensures { option_map stale_of result ≡ differing_digests number (option_map bytes_of kept) (bytes_of found) }
{
    match kept {
        Some(kept) => unless_same(number, kept, found),
        None => None,
    }
}

/// Two digests of a function, where they differ.
fn unless_same(number: usize, kept: Digest, found: Digest) -> Option<StaleAt>
    ensures { option_map stale_of result ≡ differing_digests number (Some (bytes_of kept)) (bytes_of found) }
{
    if are_same(&kept, &found) {
        None
    } else {
        Some(StaleAt {
            number,
            kept,
            found,
        })
    }
}

/// Whether two digests are the same.
fn are_same(first: &Digest, second: &Digest) -> bool
    ensures { result ≡ bytes_eq (bytes_of first.now) (bytes_of second.now) }
{
    first.0.as_slice() == second.0.as_slice()
}

/// The digest of the function with a number.
fn digest_at(digests: &Digests, number: usize) -> Option<&Digest>
    ensures { option_map bytes_of (option_copied result) ≡ slice_get (digests_of digests.now) number }
{
    digests.funcs.as_slice().get(number)
}

/// What all claims tell together, once the text was read.
fn finish(program: &Program<'_>, records: &Records<'_>, told: &mut Told<'_>)
    requires { HasEnded records.now }
    ensures { (digests : List (List ℕ)) → AreTold (plain_program program.now) digests records.now.given told.old → TextTells (plain_program program.now) digests records.now.text told.new }
{
    told.kept.certificate.total = records.total().unwrap();
    let count = told.kept.certificate.funcs.as_slice().len();
    told.unfit = misfit_at_end(program, told.unfit, count);
}

/// The first function of which its claim doesn't speak, after all of them: a function may have none.
fn misfit_at_end(program: &Program<'_>, before: Option<usize>, count: usize) -> Option<usize>
    ensures { result ≡ misfit_at_end (plain_program program.now) before count }
{
    match before {
        Some(at) => Some(at),
        None => lacking(count, program.functions.as_slice().len()),
    }
}

/// The first of so many functions that has no claim, where there are this many claims.
fn lacking(count: usize, functions: usize) -> Option<usize>
    ensures { result ≡ lacking count functions }
{
    if count < functions { Some(count) } else { None }
}
