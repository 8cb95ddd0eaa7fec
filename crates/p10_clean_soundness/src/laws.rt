//! What holds of clean certificates: each law is the contract of a function without a body.

ghost use Rattle.p10_clean_soundness.specs.Laws.{CleanCertificatesExcludeUndefined, CleanCertificatesAcceptedByRangesExcludeUndefined};
ghost use Rattle.p10_clean_soundness.specs.Operators.{NoneStops, NoUnaryStops};

/// Operators that stop at no ends of the ranges of their operands stop at none of their numbers.
pub fn operators_are_defined()
    ensures binary { NoneStops }
    ensures unary { NoUnaryStops }
{}

/// No run of a whole program ends in an operation that C99 leaves undefined, where a certificate is accepted for it and is clean:
/// in every world, and for each number of turns of the task loop.
pub fn clean_certificates_exclude_undefined_operations()
    ensures any_evidence { CleanCertificatesExcludeUndefined }
    ensures ranges { CleanCertificatesAcceptedByRangesExcludeUndefined }
{}
