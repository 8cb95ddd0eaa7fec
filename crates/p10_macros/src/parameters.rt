//! The places of the parameters that the words of a replacement list name.
//!
//! They are found once, when a macro is defined, so that no use of it compares words with parameters.

ghost use Rattle.std.specs.Prelude.{◌≡◌, map, IfOk};
ghost use Rattle.p10_direct.specs.Form.{plain_macro};
ghost use Rattle.p10_base.specs.Names.{place_in};
ghost use Rattle.p10_base.specs.Words.{Text, plain_word};
ghost use Rattle.p10_macros.specs.private.Places.{places_of, at_text, at_word};

use p10_base::{Kind, Word};
use p10_direct::Macro;
use std::alloc::{AllocError, Global};
use std::collections::HashMap;

/// For each word of the replacement list the place of the parameter that it names; none for an object-like macro.
pub fn places_in(alloc: Global, made: &Macro<'_, '_>) -> Result<Vec<Option<usize>>, AllocError>
    ensures { IfOk result (λ places. places.items ≡ places_of (plain_macro made.now).parameters (plain_macro made.now).body) }
{
    match &made.params {
        None => Ok(Vec::new(alloc)),
        Some(params) => {
            let found = by_text(alloc, params.as_slice())?;
            places_by_text(alloc, &found, made.body)
        }
    }
}

/// The place of each parameter, by its text.
fn by_text<'s>(alloc: Global, params: &[&'s [u8]]) -> Result<HashMap<&'s [u8], usize>, AllocError>
    ensures { IfOk result (λ by_text. (text : Text) → at_text by_text text ≡ place_in (map (λ param. param.now) params.now) text) }
{
    let mut by_text = HashMap::with_capacity(alloc, params.len())?;
    // From the last one to the first: of parameters with one text the first counts.
    let mut place = params.len();
    while place > 0 {
        place -= 1;
        by_text.insert(params[place], place)?;
    }
    Ok(by_text)
}

/// The place that each word has by its text.
fn places_by_text<'s>(
    alloc: Global,
    by_text: &HashMap<&'s [u8], usize>,
    words: &[Word<'s>],
) -> Result<Vec<Option<usize>>, AllocError>
    ensures { IfOk result (λ places. places.items ≡ map (at_word by_text.now) (map plain_word words.now)) }
{
    let mut places = Vec::with_capacity(alloc, words.len())?;
    for word in words {
        places.push(place_by_text(by_text, word))?;
    }
    Ok(places)
}

/// The place that a word has by its text, where it is a name.
fn place_by_text<'s>(by_text: &HashMap<&'s [u8], usize>, word: &Word<'s>) -> Option<usize>
    ensures { result ≡ at_word by_text.now (plain_word word.now) }
{
    if !matches!(word.kind, Kind::Name) {
        return None;
    }
    match by_text.get(word.text) {
        None => None,
        Some(place) => Some(*place),
    }
}
