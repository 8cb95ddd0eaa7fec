//! The digest of the words outside bodies.

ghost use Rattle.std.specs.Prelude.{◌≡◌, ◌+◌, ◌≤◌, ◌^◌, ◌<◌, ◌++◌, drop, map, length, IfOk, OnOk};
ghost use Rattle.sha2.specs.Sha256.{sha256};
ghost use Rattle.p10_base.specs.Words.{plain_word, plain_words};
ghost use Rattle.p10_digests.specs.Lines.{bodies_from, line_about, line_before, lines_outside, roots_outside};

use crate::words::put_word;
use p10_base::{At, Digest, Word};
use sha2::{Digest as Hasher, Sha256};
use std::alloc::{AllocError, Global};

/// The digest of the words of roots outside these bodies.
///
/// # Errors
///
/// Out of memory, as which 2^64 words count too.
pub(crate) fn outside(
    alloc: Global,
    roots: &[Vec<Word<'_>>],
    bodies: &[At],
) -> Result<Digest, AllocError>
    ensures { IfOk result (λ found. found.0 ≡ sha256 (roots_outside bodies.now 0 (map (λ words. plain_words words.items) roots.now))) }
{
    let mut text = Vec::new(alloc);
    put_roots(roots, bodies, &mut text)?;
    Ok(Digest(Sha256::digest(text.as_slice())))
}

/// Puts the lines of roots outside bodies after a text.
fn put_roots(roots: &[Vec<Word<'_>>], bodies: &[At], text: &mut Vec<u8>) -> Result<(), AllocError>
    ensures { OnOk result (text.new.items ≡ text.old.items ++ roots_outside bodies.now 0 (map (λ words. plain_words words.items) roots.now)) }
{
    let mut number: usize = 0;
    let mut rest = roots;
    while let [root, others @ ..] = rest {
        let words = root.as_slice();
        let Some(next) = number.checked_add(words.len()) else {
            return Err(AllocError);
        };
        text.extend_from_slice(b"@@\n")?;
        put_root(bodies, number, words, text)?;
        number = next;
        rest = others;
    }
    Ok(())
}

/// Puts the lines of a root outside bodies after a text, where the words of the root are numbered from `first` on.
fn put_root(
    bodies: &[At],
    first: usize,
    words: &[Word<'_>],
    text: &mut Vec<u8>,
) -> Result<(), AllocError>
    requires { first + length words.now < 2 ^ 64 }
    ensures { OnOk result (text.new.items ≡ text.old.items ++ lines_outside bodies.now first (plain_words words.now)) }
{
    let mut number = first;
    let mut place = 0;
    let mut rest = words;
    while let [word, others @ ..] = rest {
        place = advance(bodies, place, number);
        put_line(&bodies[place..], number, word, text)?;
        number += 1;
        rest = others;
    }
    Ok(())
}

/// The place of the first body from `place` on that isn't over before the word of this number.
fn advance(bodies: &[At], place: usize, number: usize) -> usize
    requires { place ≤ length bodies.now }
    ensures from { drop result bodies.now ≡ bodies_from number (drop place bodies.now) }
    ensures inside { result ≤ length bodies.now }
{
    let mut next = place;
    while next < bodies.len() && bodies[next].past as usize <= number {
        next += 1;
    }
    next
}

/// Puts the line of the word of this number after a text, where these bodies aren't over.
fn put_line(
    bodies: &[At],
    number: usize,
    word: &Word<'_>,
    text: &mut Vec<u8>,
) -> Result<(), AllocError>
    ensures { OnOk result (text.new.items ≡ text.old.items ++ line_before number (plain_word word.now) bodies.now) }
{
    match bodies {
        [body, ..] => put_about(body.first as usize, number, word, text),
        [] => put_word(word, text),
    }
}

/// Puts the line of the word of this number after a text, where a body that isn't over begins at the number `first`.
fn put_about(
    first: usize,
    number: usize,
    word: &Word<'_>,
    text: &mut Vec<u8>,
) -> Result<(), AllocError>
    ensures { OnOk result (text.new.items ≡ text.old.items ++ line_about first number (plain_word word.now)) }
{
    if number < first {
        put_word(word, text)?;
    } else if number == first {
        text.extend_from_slice(b"@\n")?;
    }
    Ok(())
}
