//! What holds of the definitions for all types, operators and values. Nothing runs here: each
//! function stands for the law that its contract states.

ghost use Rattle.p10_int.specs.Laws.{
  PromotionIsIdempotent,
  UsualIsCommutative,
  ReducesToRange,
  ConvertsToRange,
  ConversionKeepsValues,
  ResultsAreInRange,
  UnaryResultsAreInRange,
  QuotientAndRemainder,
  RemaindersAreSmall,
  ComparisonsGiveTruthValues,
  NegationGivesTruthValues,
  OperatesOnBits,
  ComplementIsDifference,
};

/// Promotion changes nothing the second time (C99 6.3.1.1).
pub fn promotion_is_idempotent()
    ensures { PromotionIsIdempotent }
{}

/// The usual conversions don't depend on the order of their two types (C99 6.3.1.8).
pub fn usual_is_commutative()
    ensures { UsualIsCommutative }
{}

/// A reduced number is in the type's range, and differs by a multiple of 2^w (C99 6.3.1.3).
pub fn reduces_to_range()
    ensures { ReducesToRange }
{}

/// Conversion gives values of the type, and keeps those that it holds (C99 6.3.1.2, 6.3.1.3).
pub fn conversion_keeps_values()
    ensures range { ConvertsToRange }
    ensures keeps { ConversionKeepsValues }
{}

/// What an operator gives is a value of the type.
pub fn results_are_in_range()
    ensures binary { ResultsAreInRange }
    ensures unary { UnaryResultsAreInRange }
{}

/// A quotient and its remainder give the dividend back (C99 6.5.5).
pub fn quotient_and_remainder()
    ensures { QuotientAndRemainder }
{}

/// A remainder is smaller than its divisor in size, and has the sign of the dividend or is 0 (C99 6.5.5).
pub fn remainders_are_small()
    ensures { RemaindersAreSmall }
{}

/// Comparisons and `!` give 1 or 0, as values of `int` (C99 6.5.8, 6.5.9, 6.5.3.3).
pub fn comparisons_give_truth_values()
    ensures binary { ComparisonsGiveTruthValues }
    ensures unary { NegationGivesTruthValues }
{}

/// The bitwise operators meet their tables on each bit (C99 6.5.10 to 6.5.12, 6.5.3.3).
pub fn operates_on_bits()
    ensures { OperatesOnBits }
{}

/// The complement is `-a - 1` in a signed type, and the greatest value less `a` in an unsigned one (C99 6.5.3.3).
pub fn complement_is_difference()
    ensures { ComplementIsDifference }
{}
