//! What holds of the texts of derived certificates: each law is the contract of a function without a body.

ghost use Rattle.p10_derived_texts.specs.Laws.{ClaimsHaveText, DerivedCertificatesHaveText, DerivedNumbersAreSmall, DerivedTextsAreReadBack};

/// The claims of a whole program whose functions have names of C, with `main` at the one where it begins, are those of a certificate,
/// where no sum exceeds its limit and the text isn't too long; so is a certificate that is derived, and reading its text gives its claims.
pub fn derived_certificates_have_texts()
    ensures claims { ClaimsHaveText }
    ensures derived { DerivedCertificatesHaveText }
    ensures read { DerivedTextsAreReadBack }
    ensures small { DerivedNumbersAreSmall }
{}
