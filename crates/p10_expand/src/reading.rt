//! What is read of a file's text when it is gathered: where its words stand, and its include lines.

ghost use Rattle.std.specs.Prelude.{◌≡◌, map, IfOk, IfErr};
ghost use Rattle.p10_base.specs.Words.{place_of_word, plain_words};
ghost use Rattle.p10_expand.specs.Includes.{HasIncludes};
ghost use Rattle.p10_expand.specs.private.Standing.{FailsToRead};

use crate::fault::Trouble;
use crate::includes::includes_of;
use crate::place::Include;
use p10_base::{Word, WordPlace};
use p10_lex::{LexFault, lex};
use std::alloc::{AllocError, Global};

/// What is read of a file's text.
#[derive(Drop)]
pub struct Reading {
    /// Where its words stand.
    pub words: Vec<WordPlace>,
    /// Its include lines in their order.
    pub includes: Vec<Include>,
}

/// Cuts the text of the file with this number into words, and reads its include lines.
pub fn read_text(alloc: Global, number: u32, text: &[u8]) -> Result<Reading, Trouble>
    ensures read { IfOk result (λ reading. HasIncludes number text.now reading.words.items reading.includes.items) }
    ensures fault { IfErr result (FailsToRead number text.now) }
{
    let words = match lex(alloc, number, text) {
        Ok(words) => words,
        Err(LexFault::Refused(refusal)) => return Err(Trouble::Refused(refusal)),
        Err(LexFault::Over(limit)) => return Err(Trouble::Over(limit)),
        Err(LexFault::Memory) => return Err(Trouble::Memory),
    };
    let includes = includes_of(alloc, &words)?;
    let words = word_places(alloc, &words)?;
    Ok(Reading { words, includes })
}

/// Where words stand.
fn word_places(alloc: Global, words: &[Word<'_>]) -> Result<Vec<WordPlace>, AllocError>
    ensures { IfOk result (λ places. places.items ≡ map place_of_word (plain_words words.now)) }
{
    let mut places = Vec::with_capacity(alloc, words.len())?;
    for word in words {
        places.push(word.place())?;
    }
    Ok(places)
}
