//! Groups of words in brackets.

ghost use Rattle.std.specs.Prelude.{◌≡◌, [], ◌∷◌, map, IfOk, reverse, option_map};
ghost use Rattle.p10_base.specs.Words.{plain_word};
ghost use Rattle.p10_pprules.specs.private.Scanning.{behind_open, behind_group, is_one_group, Opens};

use crate::bracket::{Bracket, Side, begins, is_same_kind, side_of_word};
use p10_base::Word;
use std::alloc::{AllocError, Global};

/// The words after the group in these brackets with which the words begin; `None` where they begin
/// with none, or its brackets don't nest properly.
pub fn after_group<'w, 's>(
    alloc: Global,
    bracket: Bracket,
    words: &'w [Word<'s>],
) -> Result<Option<&'w [Word<'s>]>, AllocError>
    ensures { IfOk result (λ rest. option_map (λ words. map plain_word words.now) rest ≡ behind_group bracket (map plain_word words.now)) }
{
    match words {
        [opening, others @ ..] if begins(bracket, opening) => after_open(alloc, bracket, others),
        _ => Ok(None),
    }
}

/// The words after the end of a group in these brackets that was opened before the words.
fn after_open<'w, 's>(
    alloc: Global,
    bracket: Bracket,
    words: &'w [Word<'s>],
) -> Result<Option<&'w [Word<'s>]>, AllocError>
    ensures { IfOk result (λ rest. option_map (λ words. map plain_word words.now) rest ≡ behind_open (bracket ∷ []) (map plain_word words.now)) }
{
    let mut pending = Vec::new(alloc);
    pending.push(bracket)?;
    let mut place = 0;
    while place < words.len() {
        let fits = take(&mut pending, side_of_word(&words[place]))?;
        place += 1;
        if !fits {
            return Ok(None);
        }
        if pending.is_empty() {
            return Ok(Some(&words[place..]));
        }
    }
    Ok(None)
}

/// Takes one word, or answers that it closes another group than the innermost open one, which is the last
/// of `pending`.
fn take(pending: &mut Vec<Bracket>, side: Side) -> Result<bool, AllocError>
    ensures { IfOk result (λ fits. Opens side fits (reverse pending.old.items) (reverse pending.new.items)) }
{
    match side {
        Side::Opening(bracket) => {
            pending.push(bracket)?;
            Ok(true)
        }
        Side::Closing(bracket) => match pending.pop() {
            Some(innermost) => Ok(is_same_kind(bracket, innermost)),
            None => Ok(false),
        },
        Side::Neither => Ok(true),
    }
}

/// Whether the words are one group in these brackets.
pub fn is_group(alloc: Global, bracket: Bracket, words: &[Word<'_>]) -> Result<bool, AllocError>
    ensures { IfOk result (λ is. is ≡ is_one_group bracket (map plain_word words.now)) }
{
    match after_group(alloc, bracket, words)? {
        Some(rest) => Ok(rest.is_empty()),
        None => Ok(false),
    }
}
