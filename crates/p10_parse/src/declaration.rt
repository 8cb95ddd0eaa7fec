//! Initialisers and declarations (C99 6.7, 6.7.8).

ghost use Rattle.std.specs.Prelude.{◌≡◌, ◌∷◌, [], map, Some, None, IfOk, OnOk};
ghost use Rattle.std.specs.Result.{IsErrOf};
ghost use Rattle.p10_syn.specs.Scopes.{Scope as Names};
ghost use Rattle.p10_syn.specs.Declaring.{after_specifiers, after_declarator, after_init_declarators, after_declaration};
ghost use Rattle.p10_syn.specs.Trees.{specifier_row};
ghost use Rattle.p10_syn.specs.Built.{bare_specifier_of, bare_declarator_of};
ghost use Rattle.p10_syn.specs.BuiltStatements.{bare_initializer_of, bare_init_declarator_of, bare_declaration_of};
ghost use Rattle.p10_pexpr.specs.declared.trouble.Trouble.TheVariants.{Refused};
ghost use Rattle.p10_pexpr.specs.Reading.{readers};
ghost use Rattle.p10_parse.specs.private.Cut.{no_initializer, initializers_end};
ghost use Rattle.p10_parse.specs.DeclarationReading.{braced_at, value_of, initial_at, init_declarator_at, declarators_at, declaration_at};
ghost use Rattle.p10_parse.specs.ExternalReading.{builders};

use crate::initializer::initializer;
use crate::stopping::{push_one, stopped};
use p10_pexpr::declarator::declarator;
use p10_pexpr::specifier::specifiers;
use p10_pexpr::{Cursor, Scope, Trouble};
use p10_syn::{Decl, Declarator, InitDeclarator, Naming, Setting, Sign, Spec};
use std::alloc::Global;

/// Reads a declaration, whose names are in scope after it.
pub fn declaration<'s>(
    alloc: Global,
    budget: usize,
    scope: &mut Scope<'s>,
    cursor: &mut Cursor<'_, 's>,
) -> Result<Decl<'s>, Trouble>
    ensures ok { IfOk result (λ d. declaration_at (readers budget) (builders budget) scope.old cursor.old ≡ Some (bare_declaration_of d, cursor.new)) }
    ensures refused { IsErrOf result Refused → declaration_at (readers budget) (builders budget) scope.old cursor.old ≡ None }
    ensures scope { IfOk result (λ d. scope.new ≡ after_declaration scope.old (bare_declaration_of d)) }
{
    let specs = specifiers(alloc, budget, scope, Setting::Outside, cursor)?;
    match declarators(alloc, budget, scope, specs.as_slice(), cursor) {
        Ok(all) => Ok(p10_make::declaration(specs, all)),
        Err(trouble) => stopped(specs, trouble),
    }
}

/// Reads all declarators of a declaration after its specifiers, and the `;`.
fn declarators<'s>(
    alloc: Global,
    budget: usize,
    scope: &mut Scope<'s>,
    specs: &[Spec<'s>],
    cursor: &mut Cursor<'_, 's>,
) -> Result<Vec<InitDeclarator<'s>>, Trouble>
    ensures ok { IfOk result (λ t. declarators_at (readers budget) (builders budget) scope.old (specifier_row (map bare_specifier_of specs.now)) cursor.old ≡ Some (map bare_init_declarator_of t.items, cursor.new)) }
    ensures refused { IsErrOf result Refused → declarators_at (readers budget) (builders budget) scope.old (specifier_row (map bare_specifier_of specs.now)) cursor.old ≡ None }
    ensures scope { IfOk result (λ t. scope.new ≡ after_init_declarators scope.old (specifier_row (map bare_specifier_of specs.now)) (map bare_init_declarator_of t.items)) }
{
    if cursor.heads(Sign::Semicolon) {
        cursor.advance();
        return Ok(Vec::new(alloc));
    }
    let first = init_declarator(alloc, budget, scope, specs, cursor)?;
    further(alloc, budget, scope, specs, first, cursor)
}

/// Reads further declarators after a first one, and the `;`.
pub fn further<'s>(
    alloc: Global,
    budget: usize,
    scope: &mut Scope<'s>,
    specs: &[Spec<'s>],
    first: InitDeclarator<'s>,
    cursor: &mut Cursor<'_, 's>,
) -> Result<Vec<InitDeclarator<'s>>, Trouble>
    ensures ok { IfOk result (λ t. (builders budget).declarators scope.old (specifier_row (map bare_specifier_of specs.now)) (bare_init_declarator_of first.entry ∷ []) cursor.old ≡ Some (map bare_init_declarator_of t.items, cursor.new)) }
    ensures refused { IsErrOf result Refused → (builders budget).declarators scope.old (specifier_row (map bare_specifier_of specs.now)) (bare_init_declarator_of first.entry ∷ []) cursor.old ≡ None }
    ensures scope { IfOk result (λ t. (names : Names) → scope.old ≡ after_declarator names (specifier_row (map bare_specifier_of specs.now)) (bare_init_declarator_of first.entry).declarator → scope.new ≡ after_init_declarators names (specifier_row (map bare_specifier_of specs.now)) (map bare_init_declarator_of t.items)) }
{
    let mut all = Vec::new(alloc);
    if push_one(&mut all, first).is_err() {
        return stopped(all, Trouble::Memory);
    }
    match all_further(alloc, budget, scope, specs, &mut all, cursor) {
        Ok(()) => Ok(all),
        Err(trouble) => stopped(all, trouble),
    }
}

/// Reads further declarators after those that were read, and the `;`.
#[tactic(auto, using(crate::proofs::ListSteps::declarators_done, crate::proofs::ListSteps::declarators_open, crate::proofs::ListSteps::declarators_fail))]
fn all_further<'s>(
    alloc: Global,
    budget: usize,
    scope: &mut Scope<'s>,
    specs: &[Spec<'s>],
    all: &mut Vec<InitDeclarator<'s>>,
    cursor: &mut Cursor<'_, 's>,
) -> Result<(), Trouble>
    ensures ok { OnOk result ((builders budget).declarators scope.old (specifier_row (map bare_specifier_of specs.now)) (map bare_init_declarator_of all.old.items) cursor.old ≡ Some (map bare_init_declarator_of all.new.items, cursor.new)) }
    ensures refused { IsErrOf result Refused → (builders budget).declarators scope.old (specifier_row (map bare_specifier_of specs.now)) (map bare_init_declarator_of all.old.items) cursor.old ≡ None }
    ensures scope { OnOk result ((names : Names) → scope.old ≡ after_init_declarators names (specifier_row (map bare_specifier_of specs.now)) (map bare_init_declarator_of all.old.items) → scope.new ≡ after_init_declarators names (specifier_row (map bare_specifier_of specs.now)) (map bare_init_declarator_of all.new.items)) }
{
    let mut fuel = budget;
    while fuel > 0 {
        fuel -= 1;
        if !cursor.heads(Sign::Comma) {
            cursor.expect(Sign::Semicolon)?;
            return Ok(());
        }
        cursor.advance();
        let next = init_declarator(alloc, fuel, scope, specs, cursor)?;
        push_one(all, next)?;
    }
    Err(Trouble::Refused)
}

/// Reads a declarator with its initialiser.
fn init_declarator<'s>(
    alloc: Global,
    budget: usize,
    scope: &mut Scope<'s>,
    specs: &[Spec<'s>],
    cursor: &mut Cursor<'_, 's>,
) -> Result<InitDeclarator<'s>, Trouble>
    ensures ok { IfOk result (λ d. init_declarator_at (readers budget) (builders budget) scope.old (specifier_row (map bare_specifier_of specs.now)) cursor.old ≡ Some (bare_init_declarator_of d, cursor.new)) }
    ensures refused { IsErrOf result Refused → init_declarator_at (readers budget) (builders budget) scope.old (specifier_row (map bare_specifier_of specs.now)) cursor.old ≡ None }
    ensures scope { IfOk result (λ d. scope.new ≡ after_declarator scope.old (specifier_row (map bare_specifier_of specs.now)) (bare_init_declarator_of d).declarator) }
{
    let declarator = declarator(
        alloc,
        budget,
        scope,
        Setting::Outside,
        Naming::Required,
        cursor,
    )?;
    initial(alloc, budget, scope, specs, declarator, cursor)
}

/// Declares a declarator, and reads its initialiser if it has one.
pub fn initial<'s>(
    alloc: Global,
    budget: usize,
    scope: &mut Scope<'s>,
    specs: &[Spec<'s>],
    declarator: Declarator<'s>,
    cursor: &mut Cursor<'_, 's>,
) -> Result<InitDeclarator<'s>, Trouble>
    ensures ok { IfOk result (λ d. initial_at (readers budget) (builders budget) (after_declarator scope.old (specifier_row (map bare_specifier_of specs.now)) (bare_declarator_of declarator.entry)) (bare_declarator_of declarator.entry) cursor.old ≡ Some (bare_init_declarator_of d, cursor.new)) }
    ensures refused { IsErrOf result Refused → initial_at (readers budget) (builders budget) (after_declarator scope.old (specifier_row (map bare_specifier_of specs.now)) (bare_declarator_of declarator.entry)) (bare_declarator_of declarator.entry) cursor.old ≡ None }
    ensures scope { OnOk result (scope.new ≡ after_declarator scope.old (specifier_row (map bare_specifier_of specs.now)) (bare_declarator_of declarator.entry)) }
    ensures same { IfOk result (λ d. (bare_init_declarator_of d).declarator ≡ bare_declarator_of declarator.entry) }
{
    if scope.declare(specs, &declarator).is_err() {
        return stopped(declarator, Trouble::Memory);
    }
    if cursor.heads(Sign::Assign) {
        cursor.advance();
        match initializer(alloc, budget, scope, cursor) {
            Ok(init) => Ok(p10_make::init_declarator(declarator, Some(init))),
            Err(trouble) => stopped(declarator, trouble),
        }
    } else {
        Ok(p10_make::init_declarator(declarator, None))
    }
}
