//! Variables at the head of a loop as bytes: numbers of 7 bits a byte, the highest bits first, each byte but a number's
//! last with 128 more.
//!
//! A variable takes 3 bytes where its number follows the last one and its ends are small, about a quarter of its line
//! in a text.

ghost use Rattle.std.specs.Prelude.{◌≡◌, ◌++◌, ◌-ℤ◌, ◌≤ℤ◌, unsigned_abs, IfOk, OnOk};
ghost use Rattle.p10_cert.specs.Vars.{var_of};
ghost use Rattle.p10_cert.specs.private.Packing.{IsPacked, end_above, folded, high_bytes, number_bytes, number_from, step_by, step_to, unfolded, unpacked_at, with_bits};

use crate::claims::VarRange;
use p10_range::Range;
use std::alloc::{AllocError, Global};

/// The most bytes of a number that come before its last one.
const MOST_HIGH: u32 = 18;

/// 2^121: a number below it has room for 7 bits more.
const ROOM: u128 = 0x0200_0000_0000_0000_0000_0000_0000_0000;

/// 2^32: one more than the greatest number of a variable.
const NUMBERS: u128 = 0x1_0000_0000;

/// The bytes of a variable, after one with the number `last`.
pub(crate) fn packed(alloc: Global, last: u32, line: VarRange) -> Result<Vec<u8>, AllocError>
    ensures { IfOk result (λ bytes. IsPacked last (var_of line) bytes.items) }
{
    let mut bytes = Vec::new(alloc);
    put_number(u128::from(step_to(last, line.var)), &mut bytes)?;
    put_number(folded(&line.range.lo), &mut bytes)?;
    put_number(width_of(&line.range), &mut bytes)?;
    Ok(bytes)
}

/// The variable that the bytes begin with, after one with the number `last`, and what stands after it.
#[tactic(auto, unfolding(crate::specs::private::Packing::unpacked_at))]
pub(crate) fn unpacked(last: u32, bytes: &[u8]) -> (VarRange, &[u8])
    ensures line { var_of result.0 ≡ (unpacked_at last bytes.now).0 }
    ensures rest { result.1.now ≡ (unpacked_at last bytes.now).1 }
{
    let (step, bytes) = number_in(bytes);
    let (low, bytes) = number_in(bytes);
    let (width, bytes) = number_in(bytes);
    let line = VarRange {
        var: step_by(last, step),
        range: range_of(low, width),
    };
    (line, bytes)
}

/// Puts the bytes of a number at the end of others.
#[tactic(auto, unfolding(crate::specs::private::Packing::number_bytes))]
fn put_number(number: u128, bytes: &mut Vec<u8>) -> Result<(), AllocError>
    ensures { OnOk result (bytes.new.items ≡ bytes.old.items ++ number_bytes number) }
{
    put_high(MOST_HIGH, number / 128, bytes)?;
    bytes.push((number % 128) as u8)?;
    Ok(())
}

/// Puts the bytes of a number that come before its last one, at most `most` of them.
fn put_high(most: u32, number: u128, bytes: &mut Vec<u8>) -> Result<(), AllocError>
    ensures { OnOk result (bytes.new.items ≡ bytes.old.items ++ high_bytes most number) }
{
    if most == 0 {
        return Ok(());
    }
    if number == 0 {
        return Ok(());
    }
    put_high(most - 1, number / 128, bytes)?;
    bytes.push(128 + (number % 128) as u8)?;
    Ok(())
}

/// The number that the bytes begin with, and what stands after it.
fn number_in(bytes: &[u8]) -> (u128, &[u8])
    ensures number { result.0 ≡ (number_from 0 bytes.now).0 }
    ensures rest { result.1.now ≡ (number_from 0 bytes.now).1 }
{
    let mut number = 0;
    let mut rest = bytes;
    while let [byte, others @ ..] = rest {
        number = with_bits(number, *byte);
        if *byte < 128 {
            return (number, others);
        }
        rest = others;
    }
    (number, rest)
}

/// A number with 7 bits more, of which the highest are lost where there is no room for them.
fn with_bits(number: u128, byte: u8) -> u128
    ensures { result ≡ with_bits number byte }
{
    128 * (number % ROOM) + u128::from(byte % 128)
}

/// A whole number as a natural one: twice its size, and odd where it is negative.
fn folded(end: &i128) -> u128
    ensures { result ≡ folded end.now }
{
    if 0 <= *end {
        2 * end.unsigned_abs()
    } else {
        2 * (end.unsigned_abs() - 1) + 1
    }
}

/// The whole number that was folded to this one.
fn unfolded(number: u128) -> i128
    ensures { result ≡ unfolded number }
{
    let half = (number / 2) as i128;
    if number % 2 == 0 { half } else { -half - 1 }
}

/// How far the greatest number of a range lies above the least.
fn width_of(range: &Range) -> u128
    ensures { result ≡ unsigned_abs (range.now.hi -ℤ range.now.lo) }
{
    range.hi.abs_diff(range.lo)
}

/// The range whose least number was folded and which is so wide.
fn range_of(low: u128, width: u128) -> Range
    ensures low { result.lo ≡ unfolded low }
    ensures high { result.hi ≡ end_above (unfolded low) width }
{
    let lo = unfolded(low);
    let hi = end_above(lo, width);
    Range { lo, hi }
}

/// The end that lies so far above another, or the greatest of 128 bits.
fn end_above(low: i128, width: u128) -> i128
    ensures end { result ≡ end_above low width }
    ensures ordered { low ≤ℤ result }
{
    low.saturating_add_unsigned(width)
}

/// How far a variable's number comes after that of another, where numbers go round.
fn step_to(last: u32, var: u32) -> u32
    ensures { result ≡ step_to last var }
{
    var.wrapping_sub(last)
}

/// The number of the variable that comes so far after another.
fn step_by(last: u32, step: u128) -> u32
    ensures { result ≡ step_by last step }
{
    last.wrapping_add((step % NUMBERS) as u32)
}
