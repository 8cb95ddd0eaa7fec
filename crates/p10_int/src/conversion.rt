//! Conversion of a number to a type (C99 6.3.1.2, 6.3.1.3).

ghost use Rattle.std.specs.Prelude.{◌≡◌, ◌-◌, ◌^◌, pos, neg_ℤ, ◌≤ℤ◌};
ghost use Rattle.p10_int.specs.Types.{InRange};
ghost use Rattle.p10_int.specs.Conversion.{converted, reduced};

use crate::types::{IntType, modulus, range};

/// The value `v` converted to the type: for `_Bool` whether it isn't 0, else reduced modulo 2^w into
/// the range, also for a signed type that doesn't hold it. `v` is a value of any integer type.
pub fn convert(t: IntType, v: i128) -> i128
    requires low { neg_ℤ (pos (2 ^ 63)) ≤ℤ v }
    requires high { v ≤ℤ pos (2 ^ 64 - 1) }
    ensures value { result ≡ converted t v }
    ensures within { InRange t result }
{
    match t {
        IntType::Bool => i128::from(v != 0),
        _ => reduce(t, v),
    }
}

/// The number in the type's range that differs from `v` by a multiple of 2^w.
#[tactic(auto, unfolding(crate::specs::Conversion::reduced))]
fn reduce(t: IntType, v: i128) -> i128
    requires low { neg_ℤ (pos (2 ^ 63)) ≤ℤ v }
    requires high { v ≤ℤ pos (2 ^ 64 - 1) }
    ensures { result ≡ reduced t v }
{
    let (least, _) = range(t);
    least + (v - least).rem_euclid(modulus(t))
}
