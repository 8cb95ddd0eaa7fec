//! Laws of what a program expands to, each the contract of a function that does nothing.

ghost use Rattle.p10_expand.specs.Before.{WordsBeforeGive};
ghost use Rattle.p10_expand.specs.Expands.{ExpandsToOnce};

use p10_direct::{one_condition, one_cut, one_outcome};
use p10_macros::{front_gives, one_ending};

/// A program expands to one thing at most: its words and refusal, or a limit that is exceeded.
pub fn expands_to_once()
    ensures { ExpandsToOnce }
{
    one_ending();
    one_cut();
    one_outcome();
    one_condition();
}

/// Where a run of words, which come in order as those of a file do, is refused for a use of a macro, the words before that
/// use have a replacement.
pub fn words_before_give()
    ensures { WordsBeforeGive }
{
    front_gives();
}
