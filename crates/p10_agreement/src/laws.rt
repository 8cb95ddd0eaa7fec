//! What both commands come to for one program: each law is the contract of a function that only calls other laws.

ghost use Rattle.p10_agreement.specs.Laws.{DerivedCertificatesAreVerified, DerivedTextsAreVerified, GatheringGoesByWhatItLooksFor, OneOtherFileMayDiffer, OnlyCandidatesAreLookedFor};

use p10_acceptance::laws::derived_certificates_are_accepted;
use p10_derive_command::laws::success_is_a_certificate;
use p10_derived_ranks::laws::derived_ranks_have_sections;
use p10_diff_evidence::laws::rank_sections_say;
use p10_names::laws::{programs_are_named, readings_are_programs};
use p10_seal::laws::{
    reading_digests_are_sized, sealed_says_the_same, sealed_with_is_a_certificate,
};
use p10_verify_command::laws::one_answer_is_right;

/// Files that hold the same at each name at which the files of a program are looked for are gathered alike; so are files that differ at one
/// other name, as that of a certificate.
pub fn gathering_goes_by_what_it_looks_for()
    ensures gathered { GatheringGoesByWhatItLooksFor }
    ensures other { OneOtherFileMayDiffer }
{}

/// Where files are told, one is looked for only at the names of the roots and at the candidates of the gathered files' include lines.
pub fn only_candidates_are_looked_for()
    ensures { OnlyCandidatesAreLookedFor }
{}

/// A certificate that is derived of sources has a text in each version, and while the sources stay as they were, that it is accepted is the
/// one right answer to `verify` with a file of this text, unless a read fails or memory runs out. So it is with what `derive` writes: with
/// status 0 the text on its output is such a one.
pub fn derived_certificates_are_verified()
    ensures certificates { DerivedCertificatesAreVerified }
    ensures texts { DerivedTextsAreVerified }
{
    reading_digests_are_sized();
    sealed_says_the_same();
    sealed_with_is_a_certificate();
    rank_sections_say();
    derived_ranks_have_sections();
    success_is_a_certificate();
    readings_are_programs();
    programs_are_named();
    derived_certificates_are_accepted();
    one_answer_is_right();
}
