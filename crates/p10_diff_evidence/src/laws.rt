//! What holds of sections of ranks and facts: each function does nothing, and its contract is the law.

ghost use Rattle.p10_diff_evidence.specs.Laws.{SectionTellsRanks, OneFirstOther, SectionHasNoOther, OneListOfRanks, OneBadLine, RankedHasNoBadLine, RankSectionsSay, StandingIsLawful, SmallSection};

use p10_diff::laws::differences_are_lawful;
use p10_turns::laws::ranges_are_lawful;

/// Lines are those of one list of ranks at most.
pub fn a_section_tells_its_ranks()
    ensures { SectionTellsRanks }
{}

/// Lines have one first line of another form at most.
pub fn one_first_other()
    ensures { OneFirstOther }
{}

/// The lines of ranks have no line of another form.
pub fn a_section_has_no_other()
    ensures { SectionHasNoOther }
{}

/// A certificate says one list of ranks at most.
pub fn one_list_of_ranks()
    ensures { OneListOfRanks }
{}

/// A text has one first bad line at most.
pub fn one_bad_line()
    ensures { OneBadLine }
{}

/// The text of a certificate whose section of ranks has its form has no bad line.
pub fn a_ranked_certificate_has_no_bad_line()
    ensures { RankedHasNoBadLine }
{}

/// Ranks have a section that says them.
pub fn rank_sections_say()
    ensures { RankSectionsSay }
{}

/// What stands for loops, whatever ranks a certificate has, keeps their claims on turns.
pub fn standing_is_lawful()
    ensures { StandingIsLawful }
{
    ranges_are_lawful();
    differences_are_lawful();
}

/// The lines of two ranks, written out.
pub fn small_section()
    ensures { SmallSection }
{}
