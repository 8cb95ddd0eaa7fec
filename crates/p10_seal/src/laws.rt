//! What holds of claims with digests: each function does nothing, and its contract is the law.

ghost use Rattle.p10_seal.specs.Laws.{ReadingDigestsAreSized, SealedSaysTheSame, SealedIsCertificate, SealedWithIsCertificate, SealedTellsAll};

use p10_cert::laws::a_text_tells_its_statement;

/// The digests of the words that are read have the size of digests.
pub fn reading_digests_are_sized()
    ensures { ReadingDigestsAreSized }
{}

/// What claims with digests say are these claims, these digests, and nothing else.
pub fn sealed_says_the_same()
    ensures { SealedSaysTheSame }
{}

/// Where the claims are a certificate's, they are one with digests, too.
pub fn sealed_is_a_certificate()
    ensures { SealedIsCertificate }
{}

/// They are one with sections, too, that a certificate may have.
pub fn sealed_with_is_a_certificate()
    ensures { SealedWithIsCertificate }
{}

/// The text of claims with digests determines both.
pub fn sealed_tells_all()
    ensures { SealedTellsAll }
{
    a_text_tells_its_statement();
}
