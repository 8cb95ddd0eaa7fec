//! The digests of functions.

ghost use Rattle.std.specs.Prelude.{◌≡◌, ◌≤◌, [], ◌∷◌, ◌++◌, map, OnOk};
ghost use Rattle.sha2.specs.Sha256.{sha256};
ghost use Rattle.p10_base.specs.Words.{plain_words};
ghost use Rattle.p10_digests.specs.Lines.{hashed_lines, tree_words};

use crate::words::put_words;
use p10_base::{At, Digest, ListBuf, Word};
use sha2::{Digest as Hasher, Sha256};
use std::alloc::{AllocError, Global};

/// Puts the digest of the words of a tree at the end of the digests.
pub(crate) fn push_digest(
    alloc: Global,
    roots: &[Vec<Word<'_>>],
    digests: &mut ListBuf<Digest>,
    at: At,
) -> Result<(), AllocError>
    ensures { OnOk result (map (λ d. d.0) digests.new ≡ map (λ d. d.0) digests.old ++ sha256 (hashed_lines (tree_words (map (λ words. plain_words words.items) roots.now) at)) ∷ []) }
{
    let mut text = Vec::new(alloc);
    put_tree(roots, at, &mut text)?;
    digests.push(Digest(Sha256::digest(text.as_slice())))?;
    Ok(())
}

/// Puts the words of a tree after a text, each on a line of its own.
fn put_tree(roots: &[Vec<Word<'_>>], at: At, text: &mut Vec<u8>) -> Result<(), AllocError>
    ensures { OnOk result (text.new.items ≡ text.old.items ++ hashed_lines (tree_words (map (λ words. plain_words words.items) roots.now) at)) }
{
    // what is left to skip and to take, before each root
    let mut skip = at.first as usize;
    let mut left = (at.past as usize).saturating_sub(skip);
    let mut rest = roots;
    while let [root, others @ ..] = rest {
        let words = root.as_slice();
        let first = smaller(skip, words.len());
        let count = smaller(left, words.len() - first);
        put_words(&words[first..first + count], text)?;
        skip -= first;
        left -= count;
        rest = others;
    }
    Ok(())
}

/// The smaller of two numbers.
fn smaller(first: usize, second: usize) -> usize
    ensures first { first ≤ second → result ≡ first }
    ensures second { second ≤ first → result ≡ second }
    ensures below { (result ≤ first) × (result ≤ second) }
{
    if first <= second { first } else { second }
}
