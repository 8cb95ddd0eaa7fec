//! Laws of the preprocessor: each is the contract of a function without a body.

ghost use Rattle.p10_expansion_laws.specs.Existing.{GatheringEnds, ProgramsExpand, WordsEnd};
ghost use Rattle.p10_expansion_laws.specs.Placed.{WordsStandAtUses};
ghost use Rattle.p10_expansion_laws.specs.Samples.{SmallConditionalsByHand};
ghost use Rattle.p10_expansion_laws.specs.Staying.{NamesStayUncalled};

/// What small conditionals stand for, by hand: one with three groups, and one with others in it, for all truths of their
/// conditions.
pub fn small_conditionals_by_hand()
    ensures { SmallConditionalsByHand }
{}

/// A run of words ends in some way: in words, in a refused use, or with too many words made.
pub fn words_end()
    ensures { WordsEnd }
{}

/// The program of files that have words expands to something: to words, perhaps with a refusal, or it exceeds a limit.
pub fn programs_expand()
    ensures { ProgramsExpand }
{}

/// Where files are told, gathering ends in some way: in files, or in a fault that has its cause in them.
pub fn gathering_ends()
    ensures { GatheringEnds }
{}

/// Where the name of a function-like macro is left by a replacement, no `(` followed it when it was met (C99 6.10.3p10).
pub fn names_stay_uncalled()
    ensures { NamesStayUncalled }
{}

/// Each word of the replacement of a run of words is one of the run, or stands at the place of an outermost use: of a name in the
/// run that began a use when it was met.
pub fn words_stand_at_uses()
    ensures { WordsStandAtUses }
{}
