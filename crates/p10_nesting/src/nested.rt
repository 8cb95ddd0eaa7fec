//! Whether words are too nested, in one pass.

ghost use Rattle.std.specs.Prelude.{◌<◌, ◌↔◌, IsTrue, IfOk};
ghost use Rattle.p10_base.specs.Words.{plain_words};
ghost use Rattle.p10_nesting.specs.Nesting.{nesting_of};

use crate::open::Open;
use crate::role::{goes_on, role_of};
use p10_base::{Limit, Word};
use std::alloc::{AllocError, Global};

/// Whether the nesting of the words is over the limit M5, which is [`Limit::MOST_NESTING`].
///
/// It takes each word once, and keeps no more rows than that limit. It fails only where memory runs out.
pub fn is_too_nested(alloc: Global, words: &[Word<'_>]) -> Result<bool, AllocError>
    ensures { IfOk result (λ over. IsTrue over ↔ (Limit.MOST_NESTING < nesting_of (plain_words words.now))) }
{
    let mut open = Open::new(alloc);
    let mut after_string = false;
    let mut rest = words;
    while let [word, others @ ..] = rest {
        let role = role_of(word);
        let inside = open.is_inside();
        if open.meet(role, after_string)? {
            return Ok(true);
        }
        open.settle(role, inside, goes_on(others));
        after_string = role.is_string();
        rest = others;
    }
    Ok(false)
}
