//! Initialisers (C99 6.7.8).

ghost use Rattle.std.specs.Prelude.{◌≡◌, [], map, Some, None, IfOk, OnOk};
ghost use Rattle.std.specs.Result.{IsErrOf};
ghost use Rattle.p10_syn.specs.BuiltStatements.{bare_initializer_of};
ghost use Rattle.p10_pexpr.specs.declared.trouble.Trouble.TheVariants.{Refused};
ghost use Rattle.p10_pexpr.specs.Reading.{readers};
ghost use Rattle.p10_parse.specs.private.Cut.{no_initializer, initializers_end};
ghost use Rattle.p10_parse.specs.DeclarationReading.{braced_at, value_of};
ghost use Rattle.p10_parse.specs.ExternalReading.{builders};

use crate::stopping::{push_one, stopped};
use p10_pexpr::expression::expression;
use p10_pexpr::{Cursor, Scope, Trouble};
use p10_syn::{Init, Sign};
use std::alloc::Global;

/// Reads an initialiser.
#[cycle(initialising)]
#[tactic(auto, using(crate::proofs::ReadingSteps::initializer_nothing, crate::proofs::ReadingSteps::initializer_braced, crate::proofs::ReadingSteps::initializer_value))]
pub fn initializer<'s>(
    alloc: Global,
    budget: usize,
    scope: &mut Scope<'s>,
    cursor: &mut Cursor<'_, 's>,
) -> Result<Init<'s>, Trouble>
    ensures ok { IfOk result (λ t. (builders budget).initializer scope.old cursor.old ≡ Some (bare_initializer_of t, cursor.new)) }
    ensures refused { IsErrOf result Refused → (builders budget).initializer scope.old cursor.old ≡ None }
    ensures scope { OnOk result (scope.new ≡ scope.old) }
{
    if budget == 0 {
        return Err(Trouble::Refused);
    }
    if cursor.heads(Sign::OpenBrace) {
        cursor.advance();
        braced(alloc, budget - 1, scope, cursor)
    } else {
        value(alloc, budget - 1, scope, cursor)
    }
}

/// Reads a value as an initialiser.
fn value<'s>(
    alloc: Global,
    budget: usize,
    scope: &mut Scope<'s>,
    cursor: &mut Cursor<'_, 's>,
) -> Result<Init<'s>, Trouble>
    ensures ok { IfOk result (λ t. value_of (readers budget) (builders budget) scope.old cursor.old ≡ Some (bare_initializer_of t, cursor.new)) }
    ensures refused { IsErrOf result Refused → value_of (readers budget) (builders budget) scope.old cursor.old ≡ None }
    ensures scope { OnOk result (scope.new ≡ scope.old) }
{
    let value = expression(alloc, budget, scope, 2, cursor)?;
    Ok(p10_make::value(value))
}

/// Reads initialisers after `{`, and the `}`.
#[cycle(initialising)]
fn braced<'s>(
    alloc: Global,
    budget: usize,
    scope: &mut Scope<'s>,
    cursor: &mut Cursor<'_, 's>,
) -> Result<Init<'s>, Trouble>
    ensures ok { IfOk result (λ t. braced_at (readers budget) (builders budget) scope.old cursor.old ≡ Some (bare_initializer_of t, cursor.new)) }
    ensures refused { IsErrOf result Refused → braced_at (readers budget) (builders budget) scope.old cursor.old ≡ None }
    ensures scope { OnOk result (scope.new ≡ scope.old) }
{
    let (all, ends_with_comma) = initializers(alloc, budget, scope, cursor)?;
    Ok(p10_make::braced(all, ends_with_comma))
}

/// Reads initialisers with commas between them, whether a comma stands after the last, and the `}`.
#[cycle(initialising)]
fn initializers<'s>(
    alloc: Global,
    budget: usize,
    scope: &mut Scope<'s>,
    cursor: &mut Cursor<'_, 's>,
) -> Result<(Vec<Init<'s>>, bool), Trouble>
    ensures ok { IfOk result (λ t. (builders budget).initializers scope.old [] cursor.old ≡ Some ((map bare_initializer_of t.0.items, t.1), cursor.new)) }
    ensures refused { IsErrOf result Refused → (builders budget).initializers scope.old [] cursor.old ≡ None }
    ensures scope { OnOk result (scope.new ≡ scope.old) }
{
    let mut all = Vec::new(alloc);
    match all_initializers(alloc, budget, scope, &mut all, cursor) {
        Ok(ends_with_comma) => Ok((all, ends_with_comma)),
        Err(trouble) => stopped(all, trouble),
    }
}

/// Reads initialisers after those that were read, whether a comma stands after the last, and the `}`.
#[cycle(initialising)]
#[tactic(auto, using(crate::proofs::ListSteps::initializers_fail))]
fn all_initializers<'s>(
    alloc: Global,
    budget: usize,
    scope: &mut Scope<'s>,
    all: &mut Vec<Init<'s>>,
    cursor: &mut Cursor<'_, 's>,
) -> Result<bool, Trouble>
    ensures ok { IfOk result (λ comma. (builders budget).initializers scope.old (map bare_initializer_of all.old.items) cursor.old ≡ Some ((map bare_initializer_of all.new.items, comma), cursor.new)) }
    ensures refused { IsErrOf result Refused → (builders budget).initializers scope.old (map bare_initializer_of all.old.items) cursor.old ≡ None }
    ensures scope { OnOk result (scope.new ≡ scope.old) }
{
    let mut fuel = budget;
    while fuel > 0 {
        fuel -= 1;
        let next = initializer(alloc, fuel, scope, cursor)?;
        push_one(all, next)?;
        if ends_initializers(cursor) {
            let ends_with_comma = end_of_initializers(cursor)?;
            return Ok(ends_with_comma);
        }
        cursor.advance();
    }
    Err(Trouble::Refused)
}

/// Whether no further initialiser stands next: no comma, or one and `}`.
fn ends_initializers(cursor: &Cursor<'_, '_>) -> bool
    ensures { result ≡ no_initializer cursor.now }
{
    !cursor.heads(Sign::Comma) || cursor.second_is(Sign::CloseBrace)
}

/// Reads `}`, or `,` and `}`, and gives which it was.
fn end_of_initializers(cursor: &mut Cursor<'_, '_>) -> Result<bool, Trouble>
    ensures ok { IfOk result (λ comma. initializers_end cursor.old ≡ Some (comma, cursor.new)) }
    ensures refused { IsErrOf result Refused → initializers_end cursor.old ≡ None }
{
    if cursor.heads(Sign::Comma) {
        cursor.advance();
        cursor.expect(Sign::CloseBrace)?;
        Ok(true)
    } else {
        cursor.expect(Sign::CloseBrace)?;
        Ok(false)
    }
}
