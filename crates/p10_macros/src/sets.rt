//! Sets of numbers that share what they have in common.
//!
//! A set is a list of parts, each with the numbers of one block of 64 that follow one another, as bits; the part with the
//! highest block comes first. A set is known by the number of its first part, which is one more than its place among all
//! parts, and 0 is the empty set. Parts are never changed: one more number needs new parts from its block up alone.

ghost use Rattle.std.specs.Prelude.{◌≡◌, ◌==◌, ◌%◌, ◌^◌, ◌<◌, ◌≤◌, ℕ, false, length, IfOk, IfSome, IfNone};
ghost use Rattle.std.specs.Int.{bit_at};
ghost use Rattle.p10_macros.specs.private.Sets.{has, Grows, IsPart, HasOneMore, HasAll, AreBelow, BitsAreBelow};

use std::alloc::AllocError;

/// Some numbers of a set: those of one block of 64 that follow one another, and the set of those in lower blocks.
#[derive(Clone, Copy)]
pub struct Part {
    pub block: usize,
    pub bits: u64,
    pub lower: usize,
}

/// Whether the number is in the set.
pub fn contains(parts: &[Part], set: usize, number: usize) -> bool
    ensures { result ≡ has parts.now set number }
{
    let block = number / 64;
    let mut at = set;
    while let Some(part) = part_at(parts, at) {
        if part.block == block {
            return has_bit(part.bits, number);
        }
        if part.block < block {
            return false;
        }
        at = part.lower;
    }
    false
}

/// The set that has one more number.
pub fn with_number(parts: &mut Vec<Part>, set: usize, number: usize) -> Result<usize, AllocError>
    ensures grown { Grows parts.old.items parts.new.items }
    ensures one { IfOk result (HasOneMore parts.old.items set number parts.new.items) }
    ensures below { (bound : ℕ) → AreBelow bound parts.old.items → number < bound → AreBelow bound parts.new.items }
{
    let block = number / 64;
    let Some(part) = part_at(parts.as_slice(), set) else {
        return put(parts, block, bit(number), 0);
    };
    if part.block < block {
        return put(parts, block, bit(number), set);
    }
    if part.block == block {
        return put_over(parts, set, part, part.bits | bit(number), part.lower);
    }
    let lower = with_number(parts, part.lower, number)?;
    put_over(parts, set, part, part.bits, lower)
}

/// The set that has the numbers of two others.
pub fn unite(parts: &mut Vec<Part>, these: usize, those: usize) -> Result<usize, AllocError>
    ensures grown { Grows parts.old.items parts.new.items }
    ensures both { IfOk result (λ set. these ≤ length parts.old.items → those ≤ length parts.old.items → HasAll parts.old.items these those parts.new.items set) }
    ensures below { (bound : ℕ) → AreBelow bound parts.old.items → AreBelow bound parts.new.items }
{
    if these == those {
        return Ok(these);
    }
    let Some(this) = part_at(parts.as_slice(), these) else {
        return Ok(those);
    };
    let Some(that) = part_at(parts.as_slice(), those) else {
        return Ok(these);
    };
    if that.block < this.block {
        let lower = unite(parts, this.lower, those)?;
        return put_over(parts, these, this, this.bits, lower);
    }
    if this.block < that.block {
        let lower = unite(parts, these, that.lower)?;
        return put_over(parts, those, that, that.bits, lower);
    }
    let bits = this.bits | that.bits;
    let lower = unite(parts, this.lower, that.lower)?;
    if bits == that.bits && lower == that.lower {
        return Ok(those);
    }
    put_over(parts, these, this, bits, lower)
}

/// A part with the block of this one: this one itself where it has these bits and this set under it.
fn put_over(
    parts: &mut Vec<Part>,
    set: usize,
    part: Part,
    bits: u64,
    lower: usize,
) -> Result<usize, AllocError>
    ensures grown { Grows parts.old.items parts.new.items }
    ensures part { IfOk result (λ set'. IsPart parts.old.items set part.block part.bits part.lower → lower ≤ length parts.old.items → IsPart parts.new.items set' part.block bits lower) }
    ensures below { (bound : ℕ) → AreBelow bound parts.old.items → BitsAreBelow bound part.block bits → AreBelow bound parts.new.items }
{
    if bits == part.bits && lower == part.lower {
        return Ok(set);
    }
    put(parts, part.block, bits, lower)
}

/// A new part over a set.
fn put(parts: &mut Vec<Part>, block: usize, bits: u64, lower: usize) -> Result<usize, AllocError>
    ensures grown { Grows parts.old.items parts.new.items }
    ensures part { IfOk result (λ set. lower ≤ length parts.old.items → IsPart parts.new.items set block bits lower) }
    ensures below { (bound : ℕ) → AreBelow bound parts.old.items → BitsAreBelow bound block bits → AreBelow bound parts.new.items }
{
    parts.push(Part { block, bits, lower })?;
    Ok(parts.len())
}

/// The first part of the set with this number.
fn part_at(parts: &[Part], set: usize) -> Option<Part>
    ensures some { IfSome result (λ part. IsPart parts.now set part.block part.bits part.lower) }
    ensures none { IfNone result ((number : ℕ) → has parts.now set number ≡ false) }
{
    if set == 0 || set > parts.len() {
        return None;
    }
    let part = parts[set - 1];
    Some(Part {
        block: part.block,
        bits: part.bits,
        lower: older(part.lower, set),
    })
}

/// The set with this number if it is older than the part over it, as it always is, or the empty set. To look here spares
/// the proof that it always is.
fn older(lower: usize, set: usize) -> usize
    ensures within { lower < set → result ≡ lower }
    ensures beyond { set ≤ lower → result ≡ 0 }
{
    if lower < set { lower } else { 0 }
}

/// Whether the bits of a block have the one of a number.
fn has_bit(bits: u64, number: usize) -> bool
    ensures { result ≡ (bit_at bits (number % 64) == 1) }
{
    bits >> (number % 64) & 1 == 1
}

/// The bit of a number in its block.
fn bit(number: usize) -> u64
    ensures { result ≡ 2 ^ (number % 64) }
{
    1 << (number % 64)
}
