//! Declarations outside of functions, and functions (C99 6.9).

ghost use Rattle.std.specs.Prelude.{◌≡◌, [], map, Some, None, IfOk, OnOk};
ghost use Rattle.std.specs.Result.{IsErrOf};
ghost use Rattle.p10_syn.specs.Scopes.{Scope as Names};
ghost use Rattle.p10_syn.specs.Declaring.{after_specifiers, after_declarator, after_external, in_body};
ghost use Rattle.p10_syn.specs.Trees.{specifier_row};
ghost use Rattle.p10_syn.specs.Built.{bare_specifier_of, bare_declarator_of};
ghost use Rattle.p10_syn.specs.BuiltStatements.{bare_statement_of, bare_external_of};
ghost use Rattle.p10_pexpr.specs.declared.trouble.Trouble.TheVariants.{Refused};
ghost use Rattle.p10_pexpr.specs.Reading.{readers};
ghost use Rattle.p10_parse.specs.ExternalReading.{builders, external_at, external_after as after_at, external_with as with_at, definition_at, outer_at};

use crate::declaration::{further, initial};
use crate::parameters::declare_parameters;
use crate::statement::items;
use crate::stopping::{stopped, stopped_after_two};
use p10_pexpr::declarator::declarator;
use p10_pexpr::specifier::specifiers;
use p10_pexpr::{Cursor, Scope, Trouble};
use p10_syn::{Declarator, Naming, Setting, Sign, Spec, Stmt, Unit};
use std::alloc::Global;

/// Reads a declaration or a function. Its names are in scope after it.
pub fn external<'s>(
    alloc: Global,
    budget: usize,
    scope: &mut Scope<'s>,
    cursor: &mut Cursor<'_, 's>,
) -> Result<Unit<'s>, Trouble>
    ensures ok { IfOk result (λ u. external_at (readers budget) (builders budget) scope.old cursor.old ≡ Some (bare_external_of u, cursor.new)) }
    ensures refused { IsErrOf result Refused → external_at (readers budget) (builders budget) scope.old cursor.old ≡ None }
    ensures scope { IfOk result (λ u. scope.new ≡ after_external scope.old (bare_external_of u)) }
{
    let specs = specifiers(alloc, budget, scope, Setting::Outside, cursor)?;
    external_after(alloc, budget, scope, specs, cursor)
}

/// Reads what stands after specifiers.
fn external_after<'s>(
    alloc: Global,
    budget: usize,
    scope: &mut Scope<'s>,
    specs: Vec<Spec<'s>>,
    cursor: &mut Cursor<'_, 's>,
) -> Result<Unit<'s>, Trouble>
    ensures ok { IfOk result (λ u. after_at (readers budget) (builders budget) scope.old (specifier_row (map bare_specifier_of specs.entry.items)) cursor.old ≡ Some (bare_external_of u, cursor.new)) }
    ensures refused { IsErrOf result Refused → after_at (readers budget) (builders budget) scope.old (specifier_row (map bare_specifier_of specs.entry.items)) cursor.old ≡ None }
    ensures scope { IfOk result (λ u. (names : Names) → scope.old ≡ after_specifiers names (specifier_row (map bare_specifier_of specs.entry.items)) → scope.new ≡ after_external names (bare_external_of u)) }
{
    if cursor.heads(Sign::Semicolon) {
        cursor.advance();
        let all = p10_make::declaration(specs, Vec::new(alloc));
        return Ok(p10_make::outer(all));
    }
    match declarator(
        alloc,
        budget,
        scope,
        Setting::Outside,
        Naming::Required,
        cursor,
    ) {
        Ok(declarator) => external_with(alloc, budget, scope, specs, declarator, cursor),
        Err(trouble) => stopped(specs, trouble),
    }
}

/// Reads what stands after a first declarator.
fn external_with<'s>(
    alloc: Global,
    budget: usize,
    scope: &mut Scope<'s>,
    specs: Vec<Spec<'s>>,
    declarator: Declarator<'s>,
    cursor: &mut Cursor<'_, 's>,
) -> Result<Unit<'s>, Trouble>
    ensures ok { IfOk result (λ u. with_at (readers budget) (builders budget) scope.old (specifier_row (map bare_specifier_of specs.entry.items)) (bare_declarator_of declarator.entry) cursor.old ≡ Some (bare_external_of u, cursor.new)) }
    ensures refused { IsErrOf result Refused → with_at (readers budget) (builders budget) scope.old (specifier_row (map bare_specifier_of specs.entry.items)) (bare_declarator_of declarator.entry) cursor.old ≡ None }
    ensures scope { IfOk result (λ u. (names : Names) → scope.old ≡ after_specifiers names (specifier_row (map bare_specifier_of specs.entry.items)) → scope.new ≡ after_external names (bare_external_of u)) }
{
    if cursor.heads(Sign::OpenBrace) {
        cursor.advance();
        definition(alloc, budget, scope, specs, declarator, cursor)
    } else {
        outer(alloc, budget, scope, specs, declarator, cursor)
    }
}

/// Reads the rest of a declaration after its first declarator.
fn outer<'s>(
    alloc: Global,
    budget: usize,
    scope: &mut Scope<'s>,
    specs: Vec<Spec<'s>>,
    declarator: Declarator<'s>,
    cursor: &mut Cursor<'_, 's>,
) -> Result<Unit<'s>, Trouble>
    ensures ok { IfOk result (λ u. outer_at (readers budget) (builders budget) scope.old (specifier_row (map bare_specifier_of specs.entry.items)) (bare_declarator_of declarator.entry) cursor.old ≡ Some (bare_external_of u, cursor.new)) }
    ensures refused { IsErrOf result Refused → outer_at (readers budget) (builders budget) scope.old (specifier_row (map bare_specifier_of specs.entry.items)) (bare_declarator_of declarator.entry) cursor.old ≡ None }
    ensures scope { IfOk result (λ u. (names : Names) → scope.old ≡ after_specifiers names (specifier_row (map bare_specifier_of specs.entry.items)) → scope.new ≡ after_external names (bare_external_of u)) }
{
    let first = match initial(alloc, budget, scope, specs.as_slice(), declarator, cursor) {
        Ok(first) => first,
        Err(trouble) => return stopped(specs, trouble),
    };
    match further(alloc, budget, scope, specs.as_slice(), first, cursor) {
        Ok(all) => Ok(p10_make::outer(p10_make::declaration(specs, all))),
        Err(trouble) => stopped(specs, trouble),
    }
}

/// Reads the body of a function after its `{`. The parameters are in scope in it, and the function also after it.
fn definition<'s>(
    alloc: Global,
    budget: usize,
    scope: &mut Scope<'s>,
    specs: Vec<Spec<'s>>,
    declarator: Declarator<'s>,
    cursor: &mut Cursor<'_, 's>,
) -> Result<Unit<'s>, Trouble>
    ensures ok { IfOk result (λ u. definition_at (readers budget) (builders budget) scope.old (specifier_row (map bare_specifier_of specs.entry.items)) (bare_declarator_of declarator.entry) cursor.old ≡ Some (bare_external_of u, cursor.new)) }
    ensures refused { IsErrOf result Refused → definition_at (readers budget) (builders budget) scope.old (specifier_row (map bare_specifier_of specs.entry.items)) (bare_declarator_of declarator.entry) cursor.old ≡ None }
    ensures scope { IfOk result (λ u. (names : Names) → scope.old ≡ after_specifiers names (specifier_row (map bare_specifier_of specs.entry.items)) → scope.new ≡ after_external names (bare_external_of u)) }
{
    match body(alloc, budget, scope, specs.as_slice(), &declarator, cursor) {
        Ok(body) => Ok(p10_make::definition(specs, declarator, body)),
        Err(trouble) => stopped_after_two(specs, declarator, trouble),
    }
}

/// Declares a function, and reads its body.
fn body<'s>(
    alloc: Global,
    budget: usize,
    scope: &mut Scope<'s>,
    specs: &[Spec<'s>],
    declarator: &Declarator<'s>,
    cursor: &mut Cursor<'_, 's>,
) -> Result<Vec<Stmt<'s>>, Trouble>
    ensures ok { IfOk result (λ t. (builders budget).items (in_body (after_declarator scope.old (specifier_row (map bare_specifier_of specs.now)) (bare_declarator_of declarator.now)) (bare_declarator_of declarator.now)) [] cursor.old ≡ Some (map bare_statement_of t.items, cursor.new)) }
    ensures refused { IsErrOf result Refused → (builders budget).items (in_body (after_declarator scope.old (specifier_row (map bare_specifier_of specs.now)) (bare_declarator_of declarator.now)) (bare_declarator_of declarator.now)) [] cursor.old ≡ None }
    ensures scope { OnOk result (scope.new ≡ after_declarator scope.old (specifier_row (map bare_specifier_of specs.now)) (bare_declarator_of declarator.now)) }
{
    scope.declare(specs, declarator)?;
    let count = scope.count();
    declare_parameters(scope, declarator)?;
    let all = items(alloc, budget, scope, cursor)?;
    scope.forget(count);
    Ok(all)
}
