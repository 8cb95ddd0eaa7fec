//! The words of a root, and the places of rows of them.

use p10_base::{At, Span, Word};

/// The words of a root, and how many words the roots before it have.
#[derive(Clone, Copy, Debug)]
pub struct Root<'w, 's> {
    pub words: &'w [Word<'s>],
    pub before: usize,
}

impl<'w, 's> Root<'w, 's> {
    ghost use Rattle.std.specs.Prelude.{◌≡◌, ◌-◌, ◌≤◌, option_map, option_copied, slice_get};
    ghost use Rattle.p10_base.specs.Words.{plain_word};
    ghost use Rattle.p10_syn.specs.Places.{place_at, number_at, span_at};
    ghost use Rattle.p10_place.specs.Roots.{source_of};

    /// The place of the words from word `first` of the root on, up to but not including word `past`.
    #[tactic(auto, unfolding(p10_syn::specs::Places::place_at))]
    pub(crate) fn place_between(&self, first: usize, past: usize) -> At
        requires { first ≤ past }
        ensures { result ≡ place_at (source_of self.now) first (past - first) }
    {
        At {
            first: self.number_at(first),
            past: self.number_at(past),
            span: self.span_between(first, past),
        }
    }

    /// The same words, counted by themselves: as if no root stood before this one.
    pub(crate) fn alone(&self) -> Root<'w, 's>
        ensures { source_of result ≡ record { words = (source_of self.now).words; before = 0 } }
    {
        Root {
            words: self.words,
            before: 0,
        }
    }

    /// The number of a word, counted through all roots; it stands still at the end of its type.
    fn number_at(&self, place: usize) -> u32
        ensures { result ≡ number_at (source_of self.now) place }
    {
        let number = self.before.saturating_add(place);
        number.min(4294967295) as u32
    }

    /// A word of the root, if there is one of this number.
    fn word(&self, place: usize) -> Option<&Word<'s>>
        ensures { option_map plain_word (option_copied result) ≡ slice_get (source_of self.now).words place }
    {
        self.words.get(place)
    }

    /// The bytes of the words from word `first` on, up to but not including word `past`.
    fn span_between(&self, first: usize, past: usize) -> Span
        requires { first ≤ past }
        ensures { result ≡ span_at (source_of self.now).words first (past - first) }
    {
        if first == past {
            NO_SPAN
        } else {
            span_to(self.word(first), self.word(past - 1))
        }
    }
}

ghost use Rattle.std.specs.Prelude.{◌≡◌, option_map, option_copied};
ghost use Rattle.p10_base.specs.Words.{plain_word};
ghost use Rattle.p10_syn.specs.Places.{joined as joined_span, span_between as between};

/// The bytes of no word.
const NO_SPAN: Span = Span {
    file: 0,
    start: 0,
    end: 0,
};

/// The place of a tree whose place isn't set yet.
pub(crate) const NOWHERE: At = At {
    first: 0,
    past: 0,
    span: NO_SPAN,
};

/// The bytes from the first of two words to the last, where both are there.
fn span_to(first: Option<&Word<'_>>, last: Option<&Word<'_>>) -> Span
    ensures { result ≡ between (option_map plain_word (option_copied first.entry)) (option_map plain_word (option_copied last.entry)) }
{
    match (first, last) {
        (Some(first), Some(last)) => joined(first.at, last.at),
        _ => NO_SPAN,
    }
}

/// The bytes from the first of two words to the last, where they stand in one file in this order; else those
/// of the first.
fn joined(first: Span, last: Span) -> Span
    ensures { result ≡ joined_span first last }
{
    if first.file == last.file && first.end <= last.end {
        first.to(last)
    } else {
        first
    }
}
