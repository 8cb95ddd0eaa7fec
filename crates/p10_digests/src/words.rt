//! Words, each on a line of its own.

ghost use Rattle.std.specs.Prelude.{◌≡◌, ◌++◌, OnOk};
ghost use Rattle.p10_base.specs.Words.{plain_word, plain_words};
ghost use Rattle.p10_digests.specs.Lines.{prefix_of, word_line, hashed_lines};

use p10_base::{Kind, Word};
use std::alloc::AllocError;

/// Puts words after a text, each on a line of its own.
pub(crate) fn put_words(words: &[Word<'_>], text: &mut Vec<u8>) -> Result<(), AllocError>
    ensures { OnOk result (text.new.items ≡ text.old.items ++ hashed_lines (plain_words words.now)) }
{
    let mut words = words;
    while let [word, others @ ..] = words {
        put_word(word, text)?;
        words = others;
    }
    Ok(())
}

/// Puts a word after a text, on a line of its own.
pub(crate) fn put_word(word: &Word<'_>, text: &mut Vec<u8>) -> Result<(), AllocError>
    ensures { OnOk result (text.new.items ≡ text.old.items ++ word_line (plain_word word.now)) }
{
    text.extend_from_slice(prefix(word.kind))?;
    text.extend_from_slice(word.text)?;
    text.extend_from_slice(b"\n")?;
    Ok(())
}

/// What stands before the text of a word of this kind.
fn prefix(kind: Kind) -> &'static [u8]
    ensures { result.now ≡ prefix_of kind }
{
    match kind {
        Kind::Mark => b"#".as_slice(),
        Kind::Name => b"".as_slice(),
        Kind::Number => b"".as_slice(),
        Kind::Char => b"".as_slice(),
        Kind::Str => b"".as_slice(),
        Kind::Punct => b"".as_slice(),
    }
}
