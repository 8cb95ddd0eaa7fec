//! An entry of the table.

ghost use Rattle.std.specs.Prelude.{◌≡◌, length};
ghost use Rattle.p10_direct.specs.Form.{plain_macro};
ghost use Rattle.p10_macros.specs.private.Places.{places_of};
ghost use Rattle.p10_macros.specs.Uses.{texts_of};

use crate::pending::Traced;
use crate::places::Places;
use crate::values::have_words;
use p10_direct::Macro;
use std::alloc::AllocError;

/// A macro that is defined.
#[derive(Drop)]
pub struct Known<'w, 's> {
    pub made: Macro<'w, 's>,
    /// Whether a built-in header defined it.
    pub builtin: bool,
    /// Where the words of the replacement list name parameters.
    pub places: Places,
    ghost placed: { places.all.items ≡ places_of (plain_macro made).parameters (plain_macro made).body },
    ghost counted: { length places.named.items ≡ length (texts_of (plain_macro made).parameters) },
}

impl<'w, 's> Known<'w, 's> {
    ghost use Rattle.std.specs.Prelude.{◌≡◌, ◌<◌, [], List, length, get_or, false, IfOk, IfSome, IfNone};
    ghost use Rattle.std.specs.List.{All, flat_map};
    ghost use Rattle.p10_base.specs.declared.word.Word.{Word as BodyWord};
    ghost use Rattle.p10_base.specs.Words.{plain_word};
    ghost use Rattle.p10_macros.specs.declared.pending.Traced.{Traced as TracedWord};
    ghost use Rattle.p10_macros.specs.private.KnownMacros.{plain_known};
    ghost use Rattle.p10_macros.specs.private.Places.{place_named, places_of, places_that, at_place, gives, is_put, HaveWords, chosen_parts};
    ghost use Rattle.p10_macros.specs.private.Traces.{lists_of};
    ghost use Rattle.p10_macros.specs.Uses.{texts_of};

    /// The place of the parameter that a word of the replacement list names, where the word stands at `place`.
    pub fn parameter(&self, place: usize) -> Option<usize>
        requires { place < length self.now.made.body.now }
        ensures { (none : BodyWord) → result ≡ place_named (texts_of (plain_known self.now).parameters) (plain_word (get_or self.now.made.body.now place none)) }
    {
        match self.places.all.get(place) {
            None => None,
            Some(parameter) => *parameter,
        }
    }

    /// The places, in order, of the words of the replacement list for which a use puts something, where the parameters
    /// have these values: all but those of parameters whose values have no words. None stands for all of them, where no
    /// value is without words.
    pub fn chosen(&self, values: &[Vec<Traced<'_>>]) -> Result<Option<Vec<usize>>, AllocError>
        ensures some { IfOk result (λ chosen. IfSome chosen (λ places. places.items ≡ places_that (is_put (lists_of values.now)) 0 (places_of (plain_known self.now).parameters (plain_known self.now).body))) }
        ensures none { IfOk result (λ chosen. IfNone chosen (HaveWords (texts_of (plain_known self.now).parameters) (lists_of values.now))) }
        ensures within { IfOk result (λ chosen. IfSome chosen (λ places. All (λ place. place < length self.now.made.body.now) places.items)) }
        ensures whole { IfOk result (λ chosen. (part : BodyWord → List TracedWord) → ((word : BodyWord) → gives (at_place (place_named (texts_of (plain_known self.now).parameters) (plain_word word)) (lists_of values.now)) ≡ false → part word ≡ []) → chosen_parts part self.now.made.body.now chosen ≡ flat_map part self.now.made.body.now) }
    {
        if self.places.named.is_empty() || have_words(values) {
            return Ok(None);
        }
        let chosen = self.places.chosen(values)?;
        Ok(Some(chosen))
    }
}
