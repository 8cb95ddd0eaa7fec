//! What holds of derived certificates: each law is the contract of a function without a body.

ghost use Rattle.p10_acceptance.specs.Laws.{DerivedCertificatesAreAccepted, DerivedCertificatesBoundRuns, DerivedCertificatesHold, DerivedTextsAreAccepted, SupportedCertificatesHold};

/// A certificate that derivation answers for a whole program is accepted for it, with its total, by the evidence of ranges, or by that of
/// differences where variables that approach each other bound turns: each condition on certificates (K1 to K14) holds of it. So it bounds
/// every run of the program.
pub fn derived_certificates_are_accepted()
    ensures supported { SupportedCertificatesHold }
    ensures hold { DerivedCertificatesHold }
    ensures accepted { DerivedCertificatesAreAccepted }
    ensures bounds { DerivedCertificatesBoundRuns }
{}

/// Where the functions of the program have names of C, the certificate has a text, and what is read of that text is accepted, with the
/// certificate's total.
pub fn texts_of_derived_certificates_are_accepted()
    ensures { DerivedTextsAreAccepted }
{}
