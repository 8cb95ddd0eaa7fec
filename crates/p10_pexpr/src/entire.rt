//! Expressions that take all the words.

ghost use Rattle.std.specs.Prelude.{◌≡◌, ◌+◌, ◌*◌, ◌≤◌, ◌^◌, length, map, IfOk, IfErr, IfNone, IfSome};
ghost use Rattle.std.specs.Result.{IsErrOf};
ghost use Rattle.p10_base.specs.Words.{plain_words};
ghost use Rattle.p10_syn.specs.Symbols.{symbols_of};
ghost use Rattle.p10_syn.specs.Tokens.{symbol_at};
ghost use Rattle.p10_syn.specs.Scopes.{typedefs};
ghost use Rattle.p10_syn.specs.Built.{bare_of, expression_of};
ghost use Rattle.p10_syn.specs.Counts.{count};
ghost use Rattle.p10_syn.specs.Places.{locate};
ghost use Rattle.p10_pexpr.specs.declared.trouble.Trouble.TheVariants.{Refused};
ghost use Rattle.p10_pexpr.specs.Parses.{first_span, NoneSpells, IsSpelled, IsTreeOf, IsFaultOf};

use crate::cursor::Cursor;
use crate::expression::expression;
use crate::fault::ParseFault;
use crate::names::Names;
use crate::scope::Scope;
use crate::stopping::stopped;
use crate::tokens::tokens_of;
use crate::trouble::Trouble;
use p10_base::{Limit, Refusal, Span, Word};
use p10_nesting::{is_too_high, is_too_nested};
use p10_place::{Root, place_expr};
use p10_syn::{Expr, Token};
use std::alloc::{AllocError, Global};

/// The one tree that spells all the words, where `types` are the typedef names in scope (C99 6.5).
///
/// Words whose nesting is over the limit M5 are `Over`; words whose tree may be too high for walks on the native stack are `Memory`.
/// Other words that no tree spells are `Refused` with G1, at the first word; where there is no word, at bytes 0 to 0 of file 0. It
/// takes time linear in the words.
pub fn expr<'s>(
    alloc: Global,
    words: &[Word<'s>],
    types: &Names<'s>,
) -> Result<Expr<'s>, ParseFault>
    ensures found { IfOk result (λ t. IsTreeOf types.now (plain_words words.now) (expression_of t)) }
    ensures fault { IfErr result (IsFaultOf types.now (plain_words words.now)) }
{
    let is_over = is_too_nested(alloc, words)?;
    if is_over {
        return Err(ParseFault::Over(Limit::NESTING));
    }
    if is_too_high(alloc, words)? {
        return Err(ParseFault::Memory);
    }
    match entire(alloc, words, types) {
        Ok(tree) => Ok(placed(words, tree)),
        Err(Trouble::Refused) => Err(ParseFault::Refused(Refusal::syntax(place_of(words)))),
        Err(Trouble::Memory) => Err(ParseFault::Memory),
    }
}

/// The bytes of the first word.
fn place_of(words: &[Word<'_>]) -> Span
    ensures { result ≡ first_span (plain_words words.now) }
{
    match words {
        [first, ..] => first.at,
        [] => Span {
            file: 0,
            start: 0,
            end: 0,
        },
    }
}

/// The tree that spells all the words, before its parts get their places.
fn entire<'s>(alloc: Global, words: &[Word<'s>], types: &Names<'s>) -> Result<Expr<'s>, Trouble>
    ensures found { IfOk result (λ t. IsSpelled (typedefs types.now) (symbols_of (plain_words words.now)) (bare_of t)) }
    ensures refused { IsErrOf result Refused → NoneSpells (typedefs types.now) (symbols_of (plain_words words.now)) }
{
    let tokens = tokens_of(alloc, words)?;
    let mut scope = scope_of(alloc, types)?;
    read_all(alloc, &mut scope, tokens.as_slice())
}

/// The scope in which exactly these names are typedef names.
fn scope_of<'s>(alloc: Global, types: &Names<'s>) -> Result<Scope<'s>, AllocError>
    ensures { IfOk result (λ scope. scope ≡ typedefs types.now) }
{
    let mut scope = Scope::new(alloc);
    let names = types.as_slice();
    for name in names {
        scope.add(name, true)?;
    }
    Ok(scope)
}

/// Reads an expression that takes all the words.
#[tactic(auto, using(crate::proofs::AllWords::never_at, crate::proofs::AllWords::more_at))]
fn read_all<'s>(
    alloc: Global,
    scope: &mut Scope<'s>,
    tokens: &[Token<'s>],
) -> Result<Expr<'s>, Trouble>
    ensures found { IfOk result (λ t. IsSpelled scope.old (map symbol_at tokens.now) (bare_of t)) }
    ensures refused { IsErrOf result Refused → NoneSpells scope.old (map symbol_at tokens.now) }
{
    let Some(budget) = budget_of(tokens.len()) else {
        return Err(Trouble::Memory);
    };
    let mut cursor = Cursor::new(tokens);
    match expression(alloc, budget, scope, 1, &mut cursor) {
        Err(trouble) => Err(trouble),
        Ok(tree) => {
            if cursor.is_at_end() {
                Ok(tree)
            } else {
                stopped(tree, Trouble::Refused)
            }
        }
    }
}

/// How deep readers must go for this many words; `None` where memory holds no tree of this many.
pub fn budget_of(words: usize) -> Option<usize>
    ensures some { IfSome result (λ budget. budget ≡ 8 * words + 1) }
    ensures none { IfNone result (2 ^ 64 ≤ 8 * words + 1) }
{
    words.checked_mul(8)?.checked_add(1)
}

/// The tree with the places of its parts.
fn placed<'s>(words: &[Word<'s>], tree: Expr<'s>) -> Expr<'s>
    requires { count (bare_of tree) ≤ length words.now }
    ensures placed { expression_of result ≡ locate (record { words = plain_words words.now; before = 0 }) 0 (bare_of tree.entry) }
    ensures same { bare_of result ≡ bare_of tree.entry }
{
    let mut tree = tree;
    place_expr(&Root { words, before: 0 }, 0, &mut tree);
    tree
}
