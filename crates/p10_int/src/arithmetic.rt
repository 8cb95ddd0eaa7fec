//! Sums, products and quotients at a type (C99 6.5.5, 6.5.6).

ghost use Rattle.std.specs.Prelude.{◌≡◌, ◌*ℤ◌};
ghost use Rattle.p10_int.specs.Types.{InRange};
ghost use Rattle.p10_int.specs.Operators.{fitted, quotient, remainder};
ghost use Rattle.p10_int.specs.declared.operators.Stop.TheVariants.{U1};

use crate::operators::Stop;
use crate::types::{IntType, is_signed, modulus, range};

/// The exact result `z` at the type: reduced modulo 2^w for an unsigned type, else `z` or the stop.
#[tactic(auto, unfolding(crate::specs::Operators::fitted, crate::specs::Conversion::reduced))]
pub fn fit(t: IntType, stop: Stop, z: i128) -> Result<i128, Stop>
    ensures { result ≡ fitted t stop z }
{
    if is_signed(t) {
        let (least, greatest) = range(t);
        if least <= z && z <= greatest {
            Ok(z)
        } else {
            Err(stop)
        }
    } else {
        Ok(z.rem_euclid(modulus(t)))
    }
}

/// `a * b`, whose exact value may need 128 bits and no sign.
pub fn multiply(t: IntType, a: i128, b: i128) -> Result<i128, Stop>
    requires left { InRange t a }
    requires right { InRange t b }
    ensures { result ≡ fitted t U1 (a *ℤ b) }
{
    if is_signed(t) {
        fit(t, Stop::U1, a * b)
    } else {
        Ok((a as u128 * b as u128 % modulus(t) as u128) as i128)
    }
}

/// `a / b`, rounded toward zero.
#[tactic(auto, using(crate::proofs::Carried::carried), unfolding(crate::specs::Operators::quotient))]
pub fn divide(t: IntType, a: i128, b: i128) -> Result<i128, Stop>
    requires left { InRange t a }
    requires right { InRange t b }
    ensures { result ≡ quotient t a b }
{
    if b == 0 {
        Err(Stop::U2)
    } else {
        fit(t, Stop::U1, a / b)
    }
}

/// `a % b`, which stops where `a / b` does.
#[tactic(auto, using(crate::proofs::Carried::carried), unfolding(crate::specs::Operators::remainder, crate::specs::Operators::quotient))]
pub fn remain(t: IntType, a: i128, b: i128) -> Result<i128, Stop>
    requires left { InRange t a }
    requires right { InRange t b }
    ensures { result ≡ remainder t a b }
{
    if b == 0 {
        return Err(Stop::U2);
    }
    let rest = a % b;
    divide(t, a, b)?;
    Ok(rest)
}
