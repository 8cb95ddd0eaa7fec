//! Laws of the rows: each is the contract of a function without a body.

ghost use Rattle.p10_range_laws.specs.Constants.{ConstantsGiveConstants};
ghost use Rattle.p10_range_laws.specs.OtherConstants.{ConstantsGiveRanges, OtherConstantsGiveConstants};
ghost use Rattle.p10_range_laws.specs.Tight.{
  SumsAreTight,
  DifferencesAreTight,
  NegationsAreTight,
  ProductsAreTight,
  QuotientsAreTight,
  RightShiftsAreTight,
  TestsAreTight,
  NegatedTestsAreTight,
};

/// Each number of a row of `+`, `-` or unary `-` is a result, where nothing wraps.
pub fn sums_are_tight()
    ensures sums { SumsAreTight }
    ensures differences { DifferencesAreTight }
    ensures negations { NegationsAreTight }
{}

/// The ends of a row of `*` are results where nothing wraps, but for an end of a signed type that a product exceeds.
pub fn products_are_tight()
    ensures { ProductsAreTight }
{}

/// The ends of a row of `>>`, and of `/` by divisors that aren't negative, are results.
pub fn quotients_are_tight()
    ensures shifts { RightShiftsAreTight }
    ensures quotients { QuotientsAreTight }
{}

/// The ends of a row of a comparison or of `!` are results.
pub fn tests_are_tight()
    ensures comparisons { TestsAreTight }
    ensures negations { NegatedTestsAreTight }
{}

/// One number each has a row of one number, where nothing wraps.
pub fn constants_give_constants()
    ensures { ConstantsGiveConstants }
{}

/// So have `/` by a positive number, `<<` where nothing wraps, `~` and `!`. It is false of `%`, of `/` by a negative number, of `&`, `|` and `^`, and of unsigned
/// results that wrap: of each one pair of numbers whose row has more than the result.
pub fn other_constants_are_told()
    ensures constants { OtherConstantsGiveConstants }
    ensures ranges { ConstantsGiveRanges }
{}
