//! The names of types, declarators and parameters (C99 6.7.5, 6.7.6).

ghost use Rattle.std.specs.Prelude.{◌≡◌, ◌+◌, ◌≤◌, ◌<◌, ◌^◌, ◌∷◌, ◌&&◌, ◌||◌, [], drop, map, Some, None, IfOk, OnOk};
ghost use Rattle.std.specs.Result.{IsErrOf};
ghost use Rattle.p10_syn.specs.Declaring.{after_parameter};
ghost use Rattle.p10_syn.specs.Forms.{may_be_named as can_be_named, may_be_nameless as can_be_nameless};
ghost use Rattle.p10_syn.specs.Built.{bare_of, bare_kind_of, bare_declarator_of, bare_parameter_of, bare_qualifier_of};
ghost use Rattle.p10_pexpr.specs.declared.trouble.Trouble.TheVariants.{Refused};
ghost use Rattle.p10_syn.specs.declared.sign.Sign.TheVariants.{Open, OpenSquare};
ghost use Rattle.p10_pexpr.specs.Heads.{heads};
ghost use Rattle.p10_pexpr.specs.Reading.{readers};
ghost use Rattle.p10_pexpr.specs.Cut.{suffix_at, no_parameter, parameters_end};
ghost use Rattle.p10_pexpr.specs.DeclaratorReading.{qualifiers_from, nameless_at, type_name_at, pointer_at, wrapped_at, open_at, atom_at, sized_at, array_at, with_parameters_at, function_at, parameter_at};

use crate::cursor::Cursor;
use crate::expression::expression;
use crate::next::{is_qualifier, opens_parameters};
use crate::scope::Scope;
use crate::specifier::specifiers;
use crate::stopping::{push_one, stopped, stopped_after_two};
use crate::trouble::Trouble;
use p10_syn::{Declarator, Naming, Parameter, Qualifier, Setting, Sign, Token, TypeName};
use std::alloc::Global;

/// Reads the name of a type.
#[cycle(reading)]
#[tactic(auto, using(crate::proofs::Extending::forgotten))]
pub fn type_name<'s>(
    alloc: Global,
    budget: usize,
    scope: &mut Scope<'s>,
    cursor: &mut Cursor<'_, 's>,
) -> Result<TypeName<'s>, Trouble>
    ensures ok { IfOk result (λ t. type_name_at (readers budget) scope.old cursor.old ≡ Some (bare_kind_of t, cursor.new)) }
    ensures refused { IsErrOf result Refused → type_name_at (readers budget) scope.old cursor.old ≡ None }
    ensures scope { OnOk result (scope.new ≡ scope.old) }
{
    let count = scope.count();
    let specs = specifiers(alloc, budget, scope, Setting::Type, cursor)?;
    let declarator = declarator(
        alloc,
        budget,
        scope,
        Setting::Inside,
        Naming::Forbidden,
        cursor,
    )?;
    scope.forget(count);
    Ok(p10_make::type_name(specs, declarator))
}

/// Reads a declarator.
#[cycle(reading)]
#[tactic(auto, using(crate::proofs::ReadingSteps::declarator_nothing, crate::proofs::ReadingSteps::declarator_pointer, crate::proofs::ReadingSteps::declarator_no_atom, crate::proofs::ReadingSteps::declarator_suffixes))]
pub fn declarator<'s>(
    alloc: Global,
    budget: usize,
    scope: &mut Scope<'s>,
    setting: Setting,
    naming: Naming,
    cursor: &mut Cursor<'_, 's>,
) -> Result<Declarator<'s>, Trouble>
    ensures ok { IfOk result (λ t. (readers budget).declarator scope.old setting naming cursor.old ≡ Some (bare_declarator_of t, cursor.new)) }
    ensures refused { IsErrOf result Refused → (readers budget).declarator scope.old setting naming cursor.old ≡ None }
    ensures scope { OnOk result (scope.new ≡ scope.old) }
{
    if budget == 0 {
        return Err(Trouble::Refused);
    }
    if cursor.heads(Sign::Star) {
        cursor.advance();
        pointer(alloc, budget - 1, scope, setting, naming, cursor)
    } else {
        let first = atom(alloc, budget - 1, scope, setting, naming, cursor)?;
        suffixes(alloc, budget - 1, scope, setting, first, cursor)
    }
}

/// Reads what stands after `*`.
#[cycle(reading)]
fn pointer<'s>(
    alloc: Global,
    budget: usize,
    scope: &mut Scope<'s>,
    setting: Setting,
    naming: Naming,
    cursor: &mut Cursor<'_, 's>,
) -> Result<Declarator<'s>, Trouble>
    ensures ok { IfOk result (λ t. pointer_at (readers budget) scope.old setting naming cursor.old ≡ Some (bare_declarator_of t, cursor.new)) }
    ensures refused { IsErrOf result Refused → pointer_at (readers budget) scope.old setting naming cursor.old ≡ None }
    ensures scope { OnOk result (scope.new ≡ scope.old) }
{
    let qualifiers = qualifiers(alloc, cursor)?;
    let inner = declarator(alloc, budget, scope, setting, naming, cursor)?;
    Ok(p10_make::pointer(alloc, qualifiers, inner)?)
}

/// Reads qualifiers.
#[tactic(auto, using(crate::proofs::Runs::qualifiers_more, crate::proofs::Runs::qualifiers_end, crate::proofs::Runs::qualifiers_shorter))]
fn qualifiers(alloc: Global, cursor: &mut Cursor<'_, '_>) -> Result<Vec<Qualifier>, Trouble>
    ensures ok { IfOk result (λ v. qualifiers_from [] cursor.old ≡ (map bare_qualifier_of v.items, cursor.new)) }
    ensures refused { IsErrOf result Refused → ⊥ }
{
    let mut all = Vec::new(alloc);
    while let Some(sign) = cursor.next_qualifier() {
        all.push(p10_make::qualifier(sign))?;
        cursor.advance();
    }
    Ok(all)
}

/// Reads what stands where a name may stand.
#[cycle(reading)]
#[tactic(auto, using(crate::proofs::ReadingSteps::atom_named, crate::proofs::ReadingSteps::atom_unnamed, crate::proofs::ReadingSteps::atom_nameless, crate::proofs::ReadingSteps::atom_open, crate::proofs::ReadingSteps::atom_wrapped))]
fn atom<'s>(
    alloc: Global,
    budget: usize,
    scope: &mut Scope<'s>,
    setting: Setting,
    naming: Naming,
    cursor: &mut Cursor<'_, 's>,
) -> Result<Declarator<'s>, Trouble>
    ensures ok { IfOk result (λ t. atom_at (readers budget) scope.old setting naming cursor.old ≡ Some (bare_declarator_of t, cursor.new)) }
    ensures refused { IsErrOf result Refused → atom_at (readers budget) scope.old setting naming cursor.old ≡ None }
    ensures scope { OnOk result (scope.new ≡ scope.old) }
{
    if let Some(name) = cursor.next_name() {
        if may_be_named(naming) {
            cursor.advance();
            return Ok(p10_make::declared(name));
        }
        return nameless(naming, cursor);
    }
    if !cursor.heads(Sign::Open) {
        return nameless(naming, cursor);
    }
    if may_be_nameless(naming) && opens_parameters(scope, cursor) {
        return Ok(p10_make::nameless());
    }
    cursor.advance();
    wrapped(alloc, budget, scope, setting, naming, cursor)
}

/// A declarator without a name, where it may lack it.
fn nameless<'s>(naming: Naming, cursor: &Cursor<'_, '_>) -> Result<Declarator<'s>, Trouble>
    ensures ok { IfOk result (λ d. nameless_at naming cursor.now ≡ Some (bare_declarator_of d, cursor.now)) }
    ensures refused { IsErrOf result Refused → nameless_at naming cursor.now ≡ None }
{
    if may_be_nameless(naming) {
        Ok(p10_make::nameless())
    } else {
        Err(Trouble::Refused)
    }
}

fn may_be_named(naming: Naming) -> bool
    ensures { result ≡ can_be_named naming }
{
    !matches!(naming, Naming::Forbidden)
}

fn may_be_nameless(naming: Naming) -> bool
    ensures { result ≡ can_be_nameless naming }
{
    !matches!(naming, Naming::Required)
}

/// Reads a declarator and the `)` after it.
#[cycle(reading)]
fn wrapped<'s>(
    alloc: Global,
    budget: usize,
    scope: &mut Scope<'s>,
    setting: Setting,
    naming: Naming,
    cursor: &mut Cursor<'_, 's>,
) -> Result<Declarator<'s>, Trouble>
    ensures ok { IfOk result (λ t. wrapped_at (readers budget) scope.old setting naming cursor.old ≡ Some (bare_declarator_of t, cursor.new)) }
    ensures refused { IsErrOf result Refused → wrapped_at (readers budget) scope.old setting naming cursor.old ≡ None }
    ensures scope { OnOk result (scope.new ≡ scope.old) }
{
    let inner = declarator(alloc, budget, scope, setting, naming, cursor)?;
    match cursor.expect(Sign::Close) {
        Ok(()) => Ok(p10_make::parenthesised(alloc, inner)?),
        Err(trouble) => stopped(inner, trouble),
    }
}

/// Reads the brackets and parameters after a declarator.
#[cycle(reading)]
#[tactic(auto, using(crate::proofs::ReadingSteps::suffixes_nothing, crate::proofs::ReadingSteps::suffixes_stop, crate::proofs::ReadingSteps::suffixes_fail, crate::proofs::ReadingSteps::suffixes_next))]
fn suffixes<'s>(
    alloc: Global,
    budget: usize,
    scope: &mut Scope<'s>,
    setting: Setting,
    inner: Declarator<'s>,
    cursor: &mut Cursor<'_, 's>,
) -> Result<Declarator<'s>, Trouble>
    ensures ok { IfOk result (λ t. (readers budget).suffixes scope.old setting (bare_declarator_of inner.entry) cursor.old ≡ Some (bare_declarator_of t, cursor.new)) }
    ensures refused { IsErrOf result Refused → (readers budget).suffixes scope.old setting (bare_declarator_of inner.entry) cursor.old ≡ None }
    ensures scope { OnOk result (scope.new ≡ scope.old) }
{
    let mut whole = inner;
    let mut fuel = budget;
    while fuel > 0 {
        if !begins_suffix(cursor) {
            return Ok(whole);
        }
        fuel -= 1;
        whole = suffix(alloc, fuel, scope, setting, whole, cursor)?;
    }
    stopped(whole, Trouble::Refused)
}

/// Whether `[` or `(` stands next.
fn begins_suffix(cursor: &Cursor<'_, '_>) -> bool
    ensures { result ≡ (heads OpenSquare cursor.now || heads Open cursor.now) }
{
    cursor.heads(Sign::OpenSquare) || cursor.heads(Sign::Open)
}

/// Reads one pair of brackets, or one list of parameters.
#[cycle(reading)]
fn suffix<'s>(
    alloc: Global,
    budget: usize,
    scope: &mut Scope<'s>,
    setting: Setting,
    inner: Declarator<'s>,
    cursor: &mut Cursor<'_, 's>,
) -> Result<Declarator<'s>, Trouble>
    ensures ok { IfOk result (λ t. suffix_at (readers budget) scope.old setting (bare_declarator_of inner.entry) cursor.old ≡ Some (bare_declarator_of t, cursor.new)) }
    ensures refused { IsErrOf result Refused → suffix_at (readers budget) scope.old setting (bare_declarator_of inner.entry) cursor.old ≡ None }
    ensures scope { OnOk result (scope.new ≡ scope.old) }
{
    if cursor.heads(Sign::OpenSquare) {
        cursor.advance();
        array(alloc, budget, scope, inner, cursor)
    } else {
        cursor.advance();
        function(alloc, budget, scope, setting, inner, cursor)
    }
}

/// Reads what stands after `[`.
#[cycle(reading)]
fn array<'s>(
    alloc: Global,
    budget: usize,
    scope: &mut Scope<'s>,
    inner: Declarator<'s>,
    cursor: &mut Cursor<'_, 's>,
) -> Result<Declarator<'s>, Trouble>
    ensures ok { IfOk result (λ t. array_at (readers budget) scope.old (bare_declarator_of inner.entry) cursor.old ≡ Some (bare_declarator_of t, cursor.new)) }
    ensures refused { IsErrOf result Refused → array_at (readers budget) scope.old (bare_declarator_of inner.entry) cursor.old ≡ None }
    ensures scope { OnOk result (scope.new ≡ scope.old) }
{
    if cursor.heads(Sign::CloseSquare) {
        cursor.advance();
        Ok(p10_make::array(alloc, inner, None)?)
    } else {
        sized(alloc, budget, scope, inner, cursor)
    }
}

/// Reads the length of an array.
#[cycle(reading)]
fn sized<'s>(
    alloc: Global,
    budget: usize,
    scope: &mut Scope<'s>,
    inner: Declarator<'s>,
    cursor: &mut Cursor<'_, 's>,
) -> Result<Declarator<'s>, Trouble>
    ensures ok { IfOk result (λ t. sized_at (readers budget) scope.old (bare_declarator_of inner.entry) cursor.old ≡ Some (bare_declarator_of t, cursor.new)) }
    ensures refused { IsErrOf result Refused → sized_at (readers budget) scope.old (bare_declarator_of inner.entry) cursor.old ≡ None }
    ensures scope { OnOk result (scope.new ≡ scope.old) }
{
    let length = match expression(alloc, budget, scope, 3, cursor) {
        Ok(length) => length,
        Err(trouble) => return stopped(inner, trouble),
    };
    match cursor.expect(Sign::CloseSquare) {
        Ok(()) => Ok(p10_make::array(alloc, inner, Some(length))?),
        Err(trouble) => stopped_after_two(inner, length, trouble),
    }
}

/// Reads what stands after the `(` of a function.
#[cycle(reading)]
fn function<'s>(
    alloc: Global,
    budget: usize,
    scope: &mut Scope<'s>,
    setting: Setting,
    inner: Declarator<'s>,
    cursor: &mut Cursor<'_, 's>,
) -> Result<Declarator<'s>, Trouble>
    ensures ok { IfOk result (λ t. function_at (readers budget) scope.old setting (bare_declarator_of inner.entry) cursor.old ≡ Some (bare_declarator_of t, cursor.new)) }
    ensures refused { IsErrOf result Refused → function_at (readers budget) scope.old setting (bare_declarator_of inner.entry) cursor.old ≡ None }
    ensures scope { OnOk result (scope.new ≡ scope.old) }
{
    if cursor.heads(Sign::Close) {
        cursor.advance();
        Ok(p10_make::function(alloc, inner, Vec::new(alloc), false)?)
    } else {
        with_parameters(alloc, budget, scope, setting, inner, cursor)
    }
}

/// Reads the parameters of a function, of which there is one at least.
#[cycle(reading)]
fn with_parameters<'s>(
    alloc: Global,
    budget: usize,
    scope: &mut Scope<'s>,
    setting: Setting,
    inner: Declarator<'s>,
    cursor: &mut Cursor<'_, 's>,
) -> Result<Declarator<'s>, Trouble>
    ensures ok { IfOk result (λ t. with_parameters_at (readers budget) scope.old setting (bare_declarator_of inner.entry) cursor.old ≡ Some (bare_declarator_of t, cursor.new)) }
    ensures refused { IsErrOf result Refused → with_parameters_at (readers budget) scope.old setting (bare_declarator_of inner.entry) cursor.old ≡ None }
    ensures scope { OnOk result (scope.new ≡ scope.old) }
{
    match parameters(alloc, budget, scope, setting, cursor) {
        Ok((all, has_ellipsis)) => Ok(p10_make::function(alloc, inner, all, has_ellipsis)?),
        Err(trouble) => stopped(inner, trouble),
    }
}

/// Reads parameters, whether `...` stands after the last, and the `)`. Their names are in scope up to it.
#[cycle(reading)]
#[tactic(auto, using(crate::proofs::ListSteps::parameters_fail))]
fn parameters<'s>(
    alloc: Global,
    budget: usize,
    scope: &mut Scope<'s>,
    setting: Setting,
    cursor: &mut Cursor<'_, 's>,
) -> Result<(Vec<Parameter<'s>>, bool), Trouble>
    ensures ok { IfOk result (λ t. (readers budget).parameters scope.old setting [] cursor.old ≡ Some ((map bare_parameter_of t.0.items, t.1), cursor.new)) }
    ensures refused { IsErrOf result Refused → (readers budget).parameters scope.old setting [] cursor.old ≡ None }
    ensures scope { OnOk result (scope.new ≡ scope.old) }
{
    let count = scope.count();
    let mut all = Vec::new(alloc);
    let mut fuel = budget;
    while fuel > 0 {
        fuel -= 1;
        let next = parameter(alloc, fuel, scope, setting, cursor)?;
        push_one(&mut all, next)?;
        if ends_parameters(cursor) {
            let has_ellipsis = end_of_parameters(cursor)?;
            scope.forget(count);
            return Ok((all, has_ellipsis));
        }
        cursor.advance();
    }
    Err(Trouble::Refused)
}

/// Whether no further parameter stands next: no comma, or one and `...`.
fn ends_parameters(cursor: &Cursor<'_, '_>) -> bool
    ensures { result ≡ no_parameter cursor.now }
{
    !cursor.heads(Sign::Comma) || cursor.second_is(Sign::Ellipsis)
}

/// Reads `)`, or `, ...` and `)`, and gives which it was.
fn end_of_parameters(cursor: &mut Cursor<'_, '_>) -> Result<bool, Trouble>
    ensures ok { IfOk result (λ ellipsis. parameters_end cursor.old ≡ Some (ellipsis, cursor.new)) }
    ensures refused { IsErrOf result Refused → parameters_end cursor.old ≡ None }
{
    if cursor.heads(Sign::Comma) {
        cursor.advance();
        cursor.advance();
        cursor.expect(Sign::Close)?;
        Ok(true)
    } else {
        cursor.expect(Sign::Close)?;
        Ok(false)
    }
}

/// Reads a parameter, and declares it.
#[cycle(reading)]
fn parameter<'s>(
    alloc: Global,
    budget: usize,
    scope: &mut Scope<'s>,
    setting: Setting,
    cursor: &mut Cursor<'_, 's>,
) -> Result<Parameter<'s>, Trouble>
    ensures ok { IfOk result (λ t. parameter_at (readers budget) scope.old setting cursor.old ≡ Some (bare_parameter_of t, cursor.new)) }
    ensures refused { IsErrOf result Refused → parameter_at (readers budget) scope.old setting cursor.old ≡ None }
    ensures scope { IfOk result (λ t. scope.new ≡ after_parameter scope.old (bare_parameter_of t)) }
{
    let specs = specifiers(alloc, budget, scope, setting, cursor)?;
    let declarator = declarator(alloc, budget, scope, setting, Naming::Allowed, cursor)?;
    match scope.declare(specs.as_slice(), &declarator) {
        Ok(()) => Ok(p10_make::parameter(specs, declarator)),
        Err(_) => stopped_after_two(specs, declarator, Trouble::Memory),
    }
}
