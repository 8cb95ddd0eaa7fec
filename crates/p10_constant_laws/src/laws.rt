//! Laws of abstract values: each is the contract of a function without a body.

ghost use Rattle.p10_constant_laws.specs.Constants.{ConstantsAreKnown, RemaindersAreRanges};

/// Of an expression of constants with `+`, `-`, `*`, `/` by positive numbers, shifts, signs, `~` and conversions its one value is known, where nothing stops or
/// wraps. Of one with `%` it needn't be.
pub fn constants_are_known()
    ensures known { ConstantsAreKnown }
    ensures remainders { RemaindersAreRanges }
{}
