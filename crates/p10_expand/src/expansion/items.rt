//! The items of built-in headers.

ghost use Rattle.std.specs.Prelude.{◌≡◌, ◌<◌, length, map, IfOk, OnOk};
ghost use Rattle.p10_base.specs.Words.{plain_word};
ghost use Rattle.p10_expand.specs.Items.{lines_of, item_name, is_among, given_after, new_words};
ghost use Rattle.p10_expand.specs.private.Steps.{texts_in};
ghost use Rattle.p10_expand.specs.private.Running.{PutsItem};

use p10_base::Word;
use p10_direct::split_line;
use std::alloc::{AllocError, Global};

/// The words of those lines of a run whose items weren't given; they are given now.
pub fn new_items<'s>(
    alloc: Global,
    given: &mut Vec<&'s [u8]>,
    words: &[Word<'s>],
) -> Result<Vec<Word<'s>>, AllocError>
    ensures words { IfOk result (λ out. map plain_word out.items ≡ new_words (texts_in given.old.items) (lines_of (map plain_word words.now))) }
    ensures given { OnOk result (texts_in given.new.items ≡ given_after (texts_in given.old.items) (lines_of (map plain_word words.now))) }
{
    let mut out = Vec::new(alloc);
    let mut place = 0;
    while place < words.len() {
        let (line, after) = split_line(&words[place..]);
        put_item(&mut out, given, line)?;
        place = words.len() - after.len();
    }
    Ok(out)
}

/// Puts a line after the words, unless its item was given.
fn put_item<'s>(
    out: &mut Vec<Word<'s>>,
    given: &mut Vec<&'s [u8]>,
    line: &[Word<'s>],
) -> Result<(), AllocError>
    requires { 0 < length line.now }
    ensures { OnOk result (PutsItem (map plain_word out.old.items) (texts_in given.old.items) (map plain_word line.now) (map plain_word out.new.items) (texts_in given.new.items)) }
{
    let name = name_of_item(line);
    if !among(given, name) {
        given.push(name)?;
        out.extend_from_slice(line)?;
    }
    Ok(())
}

/// Whether the name is one of these.
pub fn among(names: &[&[u8]], name: &[u8]) -> bool
    ensures { result ≡ is_among (texts_in names.now) name.now }
{
    for other in names {
        if name == *other {
            return true;
        }
    }
    false
}

/// The name of the item of a line: its last word but one.
fn name_of_item<'s>(line: &[Word<'s>]) -> &'s [u8]
    requires { 0 < length line.now }
    ensures { result.now ≡ item_name (map plain_word line.now) }
{
    line[line.len().saturating_sub(2)].text
}
