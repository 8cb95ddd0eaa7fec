//! The ranks that a section says.

ghost use Rattle.std.specs.Prelude.{◌≡◌, map, Some, None, IfOk, if◌then◌else◌};
ghost use Rattle.std.specs.Option.{option_map, option_copied};
ghost use Rattle.p10_diff.specs.Ranked.{fact_by, rank_by};
ghost use Rattle.p10_diff_evidence.specs.private.Reading.{a_rank, a_fact, line_by, comes_after, and_fact, with_line, with_text};

use crate::lines::{Line, read_line};
use p10_diff::{Fact, Rank};
use std::alloc::{AllocError, Global};

/// Puts what a line says after other ranks, and answers whether it has the form of one that may stand there.
pub(crate) fn put_text(
    alloc: Global,
    text: &[u8],
    ranks: &mut Vec<Rank>,
) -> Result<bool, AllocError>
    ensures { IfOk result (λ b. with_text text.now (map rank_by ranks.old.items) ≡ (if b then Some (map rank_by ranks.new.items) else None)) }
{
    match read_line(text) {
        Some(found) => put(alloc, found, ranks),
        None => Ok(false),
    }
}

/// The same of what a line says.
fn put(alloc: Global, found: Line, ranks: &mut Vec<Rank>) -> Result<bool, AllocError>
    ensures { IfOk result (λ b. with_line (line_by found) (map rank_by ranks.old.items) ≡ (if b then Some (map rank_by ranks.new.items) else None)) }
{
    match found {
        Line::Rank(function, at, below, above, more) => {
            let rank = Rank {
                function,
                at,
                below,
                above,
                more,
                facts: Vec::new(alloc),
            };
            put_rank(rank, ranks)
        }
        Line::Fact(greater, lesser, by) => {
            let fact = Fact {
                greater,
                lesser,
                by,
            };
            put_fact(fact, ranks)
        }
    }
}

/// Puts a rank after others, if it may stand there.
#[tactic(auto, using(crate::proofs::Puts::rank_comes, crate::proofs::Puts::rank_more))]
fn put_rank(rank: Rank, ranks: &mut Vec<Rank>) -> Result<bool, AllocError>
    ensures { IfOk result (λ b. with_line (a_rank (rank_by rank)) (map rank_by ranks.old.items) ≡ (if b then Some (map rank_by ranks.new.items) else None)) }
{
    if comes_after(rank.function, rank.at, ranks.last()) {
        ranks.push(rank)?;
        Ok(true)
    } else {
        Ok(false)
    }
}

/// Puts a fact after those of the last rank, if there is one.
#[tactic(auto, using(crate::proofs::Puts::fact_comes, crate::proofs::Puts::fact_alone))]
fn put_fact(fact: Fact, ranks: &mut Vec<Rank>) -> Result<bool, AllocError>
    ensures { IfOk result (λ b. with_line (a_fact (fact_by fact)) (map rank_by ranks.old.items) ≡ (if b then Some (map rank_by ranks.new.items) else None)) }
{
    match ranks.pop() {
        Some(last) => {
            ranks.push(with_fact(last, fact)?)?;
            Ok(true)
        }
        None => Ok(false),
    }
}

/// Whether a rank with these numbers comes after another one, if there is one.
fn comes_after(function: u32, at: u32, last: Option<&Rank>) -> bool
    ensures { result ≡ comes_after function at (option_map rank_by (option_copied last.entry)) }
{
    match last {
        Some(r) => r.function < function || (r.function == function && r.at < at),
        None => true,
    }
}

/// A rank with one more fact.
fn with_fact(rank: Rank, fact: Fact) -> Result<Rank, AllocError>
    ensures { IfOk result (λ r. rank_by r ≡ and_fact (fact_by fact) (rank_by rank)) }
{
    let mut rank = rank;
    rank.facts.push(fact)?;
    Ok(rank)
}
