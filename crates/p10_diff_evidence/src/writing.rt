//! The lines of a section of ranks.

ghost use Rattle.std.specs.Prelude.{◌≡◌, ◌∷◌, ◌++◌, [], decimal, map, IfOk, OnOk};
ghost use Rattle.std.specs.Fmt.{signed_decimal};
ghost use Rattle.p10_diff.specs.Ranked.{fact_by, rank_by};
ghost use Rattle.p10_diff_evidence.specs.Sections.{fact_line, rank_line, section_lines};

use itoa::Buffer;
use p10_base::ListBuf;
use p10_diff::{Fact, Rank};
use std::alloc::{AllocError, Global};

/// The lines of ranks, after each those of its facts.
///
/// # Errors
///
/// Out of memory.
pub fn section_lines(alloc: Global, ranks: &[Rank]) -> Result<ListBuf<ListBuf<u8>>, AllocError>
    ensures { IfOk result (λ lines. lines ≡ section_lines (map rank_by ranks.now)) }
{
    let mut lines = ListBuf::of(Vec::new(alloc));
    let mut rest = ranks;
    while let [rank, others @ ..] = rest {
        push_rank(alloc, rank, &mut lines)?;
        rest = others;
    }
    Ok(lines)
}

/// Puts the line of a rank and those of its facts at the end of lines.
fn push_rank(alloc: Global, rank: &Rank, lines: &mut ListBuf<ListBuf<u8>>) -> Result<(), AllocError>
    ensures { OnOk result (lines.new ≡ lines.old ++ (rank_line (rank_by rank.now) ∷ map fact_line (rank_by rank.now).facts)) }
{
    lines.push(rank_line(alloc, rank)?)?;
    push_facts(alloc, rank.facts.as_slice(), lines)
}

/// Puts the lines of facts at the end of lines.
fn push_facts(
    alloc: Global,
    facts: &[Fact],
    lines: &mut ListBuf<ListBuf<u8>>,
) -> Result<(), AllocError>
    ensures { OnOk result (lines.new ≡ lines.old ++ map fact_line (map fact_by facts.now)) }
{
    let mut rest = facts;
    while let [fact, others @ ..] = rest {
        lines.push(fact_line(alloc, fact)?)?;
        rest = others;
    }
    Ok(())
}

/// The line of a rank.
fn rank_line(alloc: Global, rank: &Rank) -> Result<ListBuf<u8>, AllocError>
    ensures { IfOk result (λ line. line ≡ rank_line (rank_by rank.now)) }
{
    let mut line = Vec::new(alloc);
    put_index(b"rank ", rank.function, &mut line)?;
    put_index(b" ", rank.at, &mut line)?;
    put_index(b" ", rank.below, &mut line)?;
    put_index(b" ", rank.above, &mut line)?;
    put_signed(b" ", rank.more, &mut line)?;
    Ok(ListBuf::of(line))
}

/// The line of a fact.
fn fact_line(alloc: Global, fact: &Fact) -> Result<ListBuf<u8>, AllocError>
    ensures { IfOk result (λ line. line ≡ fact_line (fact_by fact.now)) }
{
    let mut line = Vec::new(alloc);
    put_index(b"fact ", fact.greater, &mut line)?;
    put_index(b" ", fact.lesser, &mut line)?;
    put_signed(b" ", fact.by, &mut line)?;
    Ok(ListBuf::of(line))
}

/// Puts a label and a number at the end of a line.
fn put_index(label: &[u8], number: u32, line: &mut Vec<u8>) -> Result<(), AllocError>
    ensures { OnOk result (line.new.items ≡ line.old.items ++ (label.now ++ decimal number)) }
{
    line.extend_from_slice(label)?;
    line.extend_from_slice(Buffer::new().format(number).as_bytes())
}

/// The same of a number with a sign.
fn put_signed(label: &[u8], number: i128, line: &mut Vec<u8>) -> Result<(), AllocError>
    ensures { OnOk result (line.new.items ≡ line.old.items ++ (label.now ++ signed_decimal number)) }
{
    line.extend_from_slice(label)?;
    line.extend_from_slice(Buffer::new().format(number).as_bytes())
}
