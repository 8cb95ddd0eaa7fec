//! What holds of the ranks of derived certificates: the law is the contract of a function without a body.

ghost use Rattle.p10_derived_ranks.specs.Laws.{DerivedRanksHaveSections};

use p10_derived_texts::laws::derived_certificates_have_texts;

/// The ranks of the loops of a derived certificate are those of a section: they rise, and each number is one that a line may say.
pub fn derived_ranks_have_sections()
    ensures { DerivedRanksHaveSections }
{
    derived_certificates_have_texts();
}
