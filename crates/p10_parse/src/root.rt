//! The declarations and functions of one root.

ghost use Rattle.std.specs.Prelude.{◌≡◌, ◌<◌, ◌≤◌, length, map, Some, None, IfOk, IfErr};
ghost use Rattle.p10_base.specs.Words.{plain_words};
ghost use Rattle.p10_syn.specs.Declaring.{after_external};
ghost use Rattle.p10_syn.specs.BuiltStatements.{bare_external_of};
ghost use Rattle.p10_parse.specs.Roots.{next_external};
ghost use Rattle.p10_parse.specs.private.Root.{AreRead, IsStuck, IsUnread};

use crate::external::external;
use crate::stopping::push_one;
use p10_base::{Refusal, Word};
use p10_pexpr::{Cursor, ParseFault, Scope, Trouble, tokens_of};
use p10_syn::Unit;
use std::alloc::Global;

/// The declarations and functions that spell the words of a root, without their places.
pub fn read_root<'s>(alloc: Global, words: &[Word<'s>]) -> Result<Vec<Unit<'s>>, ParseFault>
    ensures read { IfOk result (λ all. AreRead (plain_words words.now) (map bare_external_of all.items)) }
    ensures fault { IfErr result (IsUnread (plain_words words.now)) }
{
    let tokens = tokens_of(alloc, words)?;
    let mut cursor = Cursor::new(tokens.as_slice());
    let mut scope = Scope::new(alloc);
    let mut all = Vec::new(alloc);
    while !cursor.is_at_end() {
        let unit = match next_unit(alloc, words, &mut scope, &mut cursor) {
            Ok(unit) => unit,
            Err(fault) => return Err(fault),
        };
        push_one(&mut all, unit)?;
    }
    Ok(all)
}

/// Reads the declaration or function that stands next in a root with these words.
fn next_unit<'s>(
    alloc: Global,
    words: &[Word<'s>],
    scope: &mut Scope<'s>,
    cursor: &mut Cursor<'_, 's>,
) -> Result<Unit<'s>, ParseFault>
    requires some { 0 < length cursor.old }
    requires within { length cursor.old ≤ length words.now }
    ensures ok { IfOk result (λ u. next_external scope.old cursor.old ≡ Some (bare_external_of u, cursor.new)) }
    ensures scope { IfOk result (λ u. scope.new ≡ after_external scope.old (bare_external_of u)) }
    ensures fault { IfErr result (IsStuck (plain_words words.now) scope.old cursor.old) }
{
    let left = cursor.left();
    let Some(budget) = left.checked_mul(8) else {
        return Err(ParseFault::Memory);
    };
    match external(alloc, budget, scope, cursor) {
        Ok(unit) => Ok(unit),
        Err(Trouble::Refused) => Err(ParseFault::Refused(Refusal::syntax(
            words[words.len() - left].at,
        ))),
        Err(Trouble::Memory) => Err(ParseFault::Memory),
    }
}
