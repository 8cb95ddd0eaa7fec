//! The bits of a value, and shifts (C99 6.2.6.2, 6.5.7).

ghost use Rattle.std.specs.Prelude.{◌≡◌, ◌+◌, ◌^◌, ◌<◌, pos, ◌≤ℤ◌, ◌<ℤ◌, unsigned_abs, IsTrue};
ghost use Rattle.p10_int.specs.Types.{InRange, modulus_of};
ghost use Rattle.p10_int.specs.Conversion.{pattern_of, value_of};
ghost use Rattle.p10_int.specs.Operators.{is_shift_count, shifted_left, shifted_right};

use crate::arithmetic::fit;
use crate::operators::Stop;
use crate::types::{IntType, modulus, promote, range, width};

/// The pattern that has all bits of the type set.
pub fn most_bits(t: IntType) -> u64
    ensures { result + 1 ≡ modulus_of t }
{
    (modulus(t) - 1) as u64
}

/// The bits of a value, in two's complement.
pub fn bits(t: IntType, a: i128) -> u64
    requires { InRange t a }
    ensures value { result ≡ pattern_of t a }
    ensures below { result < modulus_of t }
{
    if a < 0 {
        (a + modulus(t)) as u64
    } else {
        a as u64
    }
}

/// The value that has the bits.
#[tactic(auto, unfolding(crate::specs::Conversion::reduced))]
pub fn value(t: IntType, bits: u64) -> i128
    requires { bits < modulus_of t }
    ensures { result ≡ value_of t bits }
{
    let value = i128::from(bits);
    let (_, greatest) = range(t);
    if value <= greatest {
        value
    } else {
        value - modulus(t)
    }
}

/// Whether `n` may be a shift count at the type.
fn is_count(t: IntType, n: i128) -> bool
    ensures value { result ≡ is_shift_count t n }
    ensures small { IsTrue result → (pos 0 ≤ℤ n) × (n <ℤ pos 64) }
{
    0 <= n && n < i128::from(width(promote(t)))
}

/// 2 to the power of `n`.
fn power(n: i128) -> i128
    requires low { pos 0 ≤ℤ n }
    requires high { n <ℤ pos 64 }
    ensures value { result ≡ pos (2 ^ unsigned_abs n) }
    ensures small { result ≤ℤ pos (2 ^ 63) }
{
    i128::from(1u64 << n as u32)
}

/// `a << n`; `t` is the type of the result.
#[tactic(auto, using(crate::proofs::Carried::carried), unfolding(crate::specs::Operators::shifted_left))]
pub fn shift_left(t: IntType, a: i128, n: i128) -> Result<i128, Stop>
    requires { InRange t a }
    ensures { result ≡ shifted_left t a n }
{
    if !is_count(t, n) {
        return Err(Stop::U3);
    }
    if a < 0 {
        return Err(Stop::U4);
    }
    fit(t, Stop::U4, a * power(n))
}

/// `a >> n`, rounded toward minus infinity; `t` is the type of the result.
#[tactic(auto, unfolding(crate::specs::Operators::shifted_right))]
pub fn shift_right(t: IntType, a: i128, n: i128) -> Result<i128, Stop>
    requires { InRange t a }
    ensures { result ≡ shifted_right t a n }
{
    if !is_count(t, n) {
        return Err(Stop::U3);
    }
    Ok(a.div_euclid(power(n)))
}
