//! The evidence of differences.

ghost use Rattle.std.specs.Prelude.{◌≡◌, map, slice_get, Some, IfOk};
ghost use Rattle.std.specs.Option.{option_map, option_copied};
ghost use Rattle.p10_core.specs.Views.{plain_function, plain_program};
ghost use Rattle.p10_cert.specs.Claims.{loop_of};
ghost use Rattle.p10_diff.specs.Evidence.{rank_for, stands_in, stands_by_differences};
ghost use Rattle.p10_diff.specs.Ranked.{rank_by};
ghost use Rattle.p10_diff_evidence.specs.Reading.{ReadsSection};

use crate::fault::DiffFault;
use crate::reading::put_text;
use p10_absx::Env;
use p10_base::ListBuf;
use p10_cert::LoopClaim;
use p10_check::Evidence;
use p10_core::{Func, Program};
use p10_diff::{Rank, rank_stands};
use p10_evidence::{RangeEvidence, loop_among};
use std::alloc::{AllocError, Global};

/// Stands for the loops for which the evidence of ranges does, or their rank (`stands_by_differences` in `p10_diff`).
#[derive(Drop)]
pub struct DiffEvidence {
    pub(crate) ranks: Vec<Rank>,
}

impl DiffEvidence {
    /// The evidence that the lines of a section are.
    ///
    /// # Errors
    ///
    /// [`DiffFault::Line`] exactly for the first line with which the lines so far are those of no ranks, but for
    /// [`DiffFault::Memory`].
    #[tactic(auto, using(crate::proofs::AllLines::first_other))]
    pub fn new(alloc: Global, lines: &[ListBuf<u8>]) -> Result<DiffEvidence, DiffFault>
        ensures { ReadsSection lines.now result }
    {
        let mut ranks = Vec::new(alloc);
        let mut number: u64 = 0;
        let mut rest = lines;
        while let [text, others @ ..] = rest {
            number += 1;
            let is_read = put_text(alloc, text.as_slice(), &mut ranks)?;
            if !is_read {
                return Err(DiffFault::Line(number));
            }
            rest = others;
        }
        Ok(DiffEvidence { ranks })
    }
}

impl Evidence for DiffEvidence {
    ghost standing = { λ evidence. stands_by_differences (map rank_by evidence.ranks.items) };

    fn stands(
        &self,
        alloc: Global,
        p: &Program<'_>,
        f: u32,
        at: u32,
        entry: &Env,
        claim: &LoopClaim,
    ) -> Result<bool, AllocError> {
        if RangeEvidence.stands(alloc, p, f, at, entry, claim)? {
            return Ok(true);
        }
        let rank = rank_for(self.ranks.as_slice(), f, at);
        stands_in(alloc, function_at(p, f), at, entry, claim, rank)
    }
}

/// The function with a number.
fn function_at<'p, 's>(p: &'p Program<'s>, f: u32) -> Option<&'p Func<'s>>
    ensures { option_map plain_function (option_copied result) ≡ slice_get (plain_program p.now).functions f }
{
    p.functions.as_slice().get(f as usize)
}

/// The rank of a loop, if there is one.
fn rank_for(ranks: &[Rank], f: u32, at: u32) -> Option<&Rank>
    ensures { option_map rank_by (option_copied result) ≡ rank_for (map rank_by ranks.now) f at }
{
    let mut rest = ranks;
    while let [r, others @ ..] = rest {
        if r.function == f && r.at == at {
            return Some(r);
        }
        rest = others;
    }
    None
}

/// Whether a rank stands for the loop with number `at` of a function, if all are there.
fn stands_in(
    alloc: Global,
    function: Option<&Func<'_>>,
    at: u32,
    entry: &Env,
    claim: &LoopClaim,
    rank: Option<&Rank>,
) -> Result<bool, AllocError>
    ensures { IfOk result (λ b. b ≡ stands_in (option_map plain_function (option_copied function.entry)) at entry.now.values (loop_of claim.now) (option_map rank_by (option_copied rank.entry))) }
{
    match function {
        Some(function) => match rank {
            Some(rank) => stands_among(alloc, function, at, entry, claim, rank),
            None => Ok(false),
        },
        None => Ok(false),
    }
}

/// The same where function and rank are there.
fn stands_among(
    alloc: Global,
    function: &Func<'_>,
    at: u32,
    entry: &Env,
    claim: &LoopClaim,
    rank: &Rank,
) -> Result<bool, AllocError>
    ensures { IfOk result (λ b. b ≡ stands_in (Some (plain_function function.now)) at entry.now.values (loop_of claim.now) (Some (rank_by rank.now))) }
{
    match loop_among(function.body.as_slice(), at) {
        Some(s) => rank_stands(alloc, function, s, entry, claim, rank),
        None => Ok(false),
    }
}
