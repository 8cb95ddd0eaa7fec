//! Specifiers: structures, unions, enumerations, and keywords (C99 6.7).

ghost use Rattle.std.specs.Prelude.{◌≡◌, ◌∷◌, [], drop, map, option_map, Some, None, IfOk, OnOk};
ghost use Rattle.std.specs.Result.{IsErrOf};
ghost use Rattle.p10_syn.specs.declared.setting.Said.TheVariants.{Nothing};
ghost use Rattle.p10_syn.specs.Trees.{specifier_row, member_row, enumerator_row};
ghost use Rattle.p10_syn.specs.Declaring.{after_specifiers, after_specifier, after_members, after_member, after_enumerators, after_enumerator};
ghost use Rattle.p10_syn.specs.Built.{bare_of, bare_specifier_of, bare_member_of, bare_field_of, bare_enumerator_of, bare_optional_of, named_tag};
ghost use Rattle.p10_pexpr.specs.declared.trouble.Trouble.TheVariants.{Refused};
ghost use Rattle.p10_pexpr.specs.Reading.{readers};
ghost use Rattle.p10_pexpr.specs.DeclaratorReading.{specifiers_at};
ghost use Rattle.p10_pexpr.specs.SpecifierReading.{tag_at, valued_at, field_at, member_at, structure_at, enumerator_at, enumeration_at, specifier_by};
ghost use Rattle.p10_pexpr.specs.Cut.{no_enumerator, enumerators_end};

use crate::cursor::Cursor;
use crate::declarator::declarator;
use crate::expression::expression;
use crate::next::{Specifying, may_have_body};
use crate::scope::Scope;
use crate::stopping::{push_one, stopped};
use crate::trouble::Trouble;
use p10_syn::{Enumerator, Expr, Field, Member, Naming, Said, Setting, Sign, Spec, said_after};
use std::alloc::Global;

/// Reads specifiers, at least one.
#[cycle(reading)]
#[tactic(auto, using(crate::proofs::ListSteps::specifiers_some, crate::proofs::ListSteps::specifiers_empty))]
pub fn specifiers<'s>(
    alloc: Global,
    budget: usize,
    scope: &mut Scope<'s>,
    setting: Setting,
    cursor: &mut Cursor<'_, 's>,
) -> Result<Vec<Spec<'s>>, Trouble>
    ensures ok { IfOk result (λ t. specifiers_at (readers budget) scope.old setting cursor.old ≡ Some (specifier_row (map bare_specifier_of t.items), cursor.new)) }
    ensures refused { IsErrOf result Refused → specifiers_at (readers budget) scope.old setting cursor.old ≡ None }
    ensures scope { IfOk result (λ t. scope.new ≡ after_specifiers scope.old (specifier_row (map bare_specifier_of t.items))) }
{
    let all = all_specifiers(alloc, budget, scope, setting, cursor)?;
    if all.is_empty() {
        Err(Trouble::Refused)
    } else {
        Ok(all)
    }
}

/// Reads the specifiers that stand next.
#[cycle(reading)]
#[tactic(auto, using(crate::proofs::ListSteps::specifiers_nothing, crate::proofs::ListSteps::specifiers_stop, crate::proofs::ListSteps::specifiers_fail))]
fn all_specifiers<'s>(
    alloc: Global,
    budget: usize,
    scope: &mut Scope<'s>,
    setting: Setting,
    cursor: &mut Cursor<'_, 's>,
) -> Result<Vec<Spec<'s>>, Trouble>
    ensures ok { IfOk result (λ t. (readers budget).specifiers scope.old setting Nothing [] cursor.old ≡ Some (map bare_specifier_of t.items, cursor.new)) }
    ensures refused { IsErrOf result Refused → (readers budget).specifiers scope.old setting Nothing [] cursor.old ≡ None }
    ensures scope { IfOk result (λ t. scope.new ≡ after_specifiers scope.old (specifier_row (map bare_specifier_of t.items))) }
{
    let mut all = Vec::new(alloc);
    let mut said = Said::Nothing;
    let mut fuel = budget;
    while fuel > 0 {
        let next = Specifying::at(scope, setting, said, cursor);
        if next.is_other() {
            return Ok(all);
        }
        fuel -= 1;
        let spec = specifier(alloc, fuel, scope, setting, next, cursor)?;
        said = said_after(said, &spec);
        push_one(&mut all, spec)?;
    }
    Err(Trouble::Refused)
}

/// Reads the specifier that the next word begins.
#[cycle(reading)]
fn specifier<'s>(
    alloc: Global,
    budget: usize,
    scope: &mut Scope<'s>,
    setting: Setting,
    next: Specifying,
    cursor: &mut Cursor<'_, 's>,
) -> Result<Spec<'s>, Trouble>
    ensures ok { IfOk result (λ t. specifier_by (readers budget) scope.old setting next cursor.old ≡ Some (bare_specifier_of t, cursor.new)) }
    ensures refused { IsErrOf result Refused → specifier_by (readers budget) scope.old setting next cursor.old ≡ None }
    ensures scope { IfOk result (λ t. scope.new ≡ after_specifier scope.old (bare_specifier_of t)) }
{
    match next {
        Specifying::Word(sign) => {
            cursor.advance();
            Ok(p10_make::keyword(sign))
        }
        Specifying::Structured(sign) => {
            cursor.advance();
            structure(alloc, budget, scope, setting, sign, cursor)
        }
        Specifying::Enumerated => {
            cursor.advance();
            enumeration(alloc, budget, scope, setting, cursor)
        }
        Specifying::Renamed => {
            let name = cursor.name()?;
            Ok(p10_make::typedef(name))
        }
        Specifying::Other => Err(Trouble::Refused),
    }
}

/// Reads the own name of a structure or enumeration, if it has one.
fn tag<'s>(cursor: &mut Cursor<'_, 's>) -> Option<&'s [u8]>
    ensures { tag_at cursor.old ≡ (named_tag (option_map (λ name. name.now) result), cursor.new) }
{
    let name = cursor.next_name()?;
    cursor.advance();
    Some(name)
}

/// Reads what stands after `struct` or `union`.
#[cycle(reading)]
#[tactic(auto, using(crate::proofs::ListSteps::structure_body, crate::proofs::ListSteps::structure_tagged))]
fn structure<'s>(
    alloc: Global,
    budget: usize,
    scope: &mut Scope<'s>,
    setting: Setting,
    sign: Sign,
    cursor: &mut Cursor<'_, 's>,
) -> Result<Spec<'s>, Trouble>
    ensures ok { IfOk result (λ t. structure_at (readers budget) scope.old setting sign cursor.old ≡ Some (bare_specifier_of t, cursor.new)) }
    ensures refused { IsErrOf result Refused → structure_at (readers budget) scope.old setting sign cursor.old ≡ None }
    ensures scope { IfOk result (λ t. scope.new ≡ after_specifier scope.old (bare_specifier_of t)) }
{
    let tag = tag(cursor);
    if may_have_body(setting) && cursor.heads(Sign::OpenBrace) {
        cursor.advance();
        let all = members(alloc, budget, scope, cursor)?;
        Ok(p10_make::structure(sign, tag, all))
    } else if tag.is_some() {
        Ok(p10_make::structure(sign, tag, Vec::new(alloc)))
    } else {
        Err(Trouble::Refused)
    }
}

/// Reads the members of a structure, and the `}`.
#[cycle(reading)]
#[tactic(auto, using(crate::proofs::ListSteps::members_fail))]
fn members<'s>(
    alloc: Global,
    budget: usize,
    scope: &mut Scope<'s>,
    cursor: &mut Cursor<'_, 's>,
) -> Result<Vec<Member<'s>>, Trouble>
    ensures ok { IfOk result (λ t. (readers budget).members scope.old [] cursor.old ≡ Some (map bare_member_of t.items, cursor.new)) }
    ensures refused { IsErrOf result Refused → (readers budget).members scope.old [] cursor.old ≡ None }
    ensures scope { IfOk result (λ t. scope.new ≡ after_members scope.old (member_row (map bare_member_of t.items))) }
{
    let mut all = Vec::new(alloc);
    let mut fuel = budget;
    while fuel > 0 {
        fuel -= 1;
        let next = member(alloc, fuel, scope, cursor)?;
        push_one(&mut all, next)?;
        if cursor.heads(Sign::CloseBrace) {
            cursor.advance();
            return Ok(all);
        }
    }
    Err(Trouble::Refused)
}

/// Reads one declaration of members.
#[cycle(reading)]
fn member<'s>(
    alloc: Global,
    budget: usize,
    scope: &mut Scope<'s>,
    cursor: &mut Cursor<'_, 's>,
) -> Result<Member<'s>, Trouble>
    ensures ok { IfOk result (λ t. member_at (readers budget) scope.old cursor.old ≡ Some (bare_member_of t, cursor.new)) }
    ensures refused { IsErrOf result Refused → member_at (readers budget) scope.old cursor.old ≡ None }
    ensures scope { IfOk result (λ t. scope.new ≡ after_member scope.old (bare_member_of t)) }
{
    let specs = specifiers(alloc, budget, scope, Setting::Outside, cursor)?;
    let fields = fields(alloc, budget, scope, cursor)?;
    Ok(p10_make::member_declaration(specs, fields))
}

/// Reads declarators of members with commas between them, and the `;`.
#[cycle(reading)]
#[tactic(auto, using(crate::proofs::ListSteps::fields_fail))]
fn fields<'s>(
    alloc: Global,
    budget: usize,
    scope: &mut Scope<'s>,
    cursor: &mut Cursor<'_, 's>,
) -> Result<Vec<Field<'s>>, Trouble>
    ensures ok { IfOk result (λ t. (readers budget).fields scope.old [] cursor.old ≡ Some (map bare_field_of t.items, cursor.new)) }
    ensures refused { IsErrOf result Refused → (readers budget).fields scope.old [] cursor.old ≡ None }
    ensures scope { OnOk result (scope.new ≡ scope.old) }
{
    let mut all = Vec::new(alloc);
    let mut fuel = budget;
    while fuel > 0 {
        fuel -= 1;
        let next = field(alloc, fuel, scope, cursor)?;
        push_one(&mut all, next)?;
        if !cursor.heads(Sign::Comma) {
            cursor.expect(Sign::Semicolon)?;
            return Ok(all);
        }
        cursor.advance();
    }
    Err(Trouble::Refused)
}

/// Reads a declarator of a member, and its width.
#[cycle(reading)]
fn field<'s>(
    alloc: Global,
    budget: usize,
    scope: &mut Scope<'s>,
    cursor: &mut Cursor<'_, 's>,
) -> Result<Field<'s>, Trouble>
    ensures ok { IfOk result (λ t. field_at (readers budget) scope.old cursor.old ≡ Some (bare_field_of t, cursor.new)) }
    ensures refused { IsErrOf result Refused → field_at (readers budget) scope.old cursor.old ≡ None }
    ensures scope { OnOk result (scope.new ≡ scope.old) }
{
    let declarator = declarator(
        alloc,
        budget,
        scope,
        Setting::Outside,
        Naming::Required,
        cursor,
    )?;
    match valued(alloc, budget, scope, Sign::Colon, cursor) {
        Ok(width) => Ok(p10_make::field(alloc, declarator, width)?),
        Err(trouble) => stopped(declarator, trouble),
    }
}

/// Reads a sign and the value after it, if the sign stands next.
#[cycle(reading)]
fn valued<'s>(
    alloc: Global,
    budget: usize,
    scope: &mut Scope<'s>,
    sign: Sign,
    cursor: &mut Cursor<'_, 's>,
) -> Result<Option<Expr<'s>>, Trouble>
    ensures ok { IfOk result (λ t. valued_at (readers budget) scope.old sign cursor.old ≡ Some (bare_optional_of t, cursor.new)) }
    ensures refused { IsErrOf result Refused → valued_at (readers budget) scope.old sign cursor.old ≡ None }
    ensures scope { OnOk result (scope.new ≡ scope.old) }
{
    if cursor.heads(sign) {
        cursor.advance();
        let value = expression(alloc, budget, scope, 3, cursor)?;
        Ok(Some(value))
    } else {
        Ok(None)
    }
}

/// Reads what stands after `enum`.
#[cycle(reading)]
#[tactic(auto, using(crate::proofs::ListSteps::enumeration_body, crate::proofs::ListSteps::enumeration_tagged))]
fn enumeration<'s>(
    alloc: Global,
    budget: usize,
    scope: &mut Scope<'s>,
    setting: Setting,
    cursor: &mut Cursor<'_, 's>,
) -> Result<Spec<'s>, Trouble>
    ensures ok { IfOk result (λ t. enumeration_at (readers budget) scope.old setting cursor.old ≡ Some (bare_specifier_of t, cursor.new)) }
    ensures refused { IsErrOf result Refused → enumeration_at (readers budget) scope.old setting cursor.old ≡ None }
    ensures scope { IfOk result (λ t. scope.new ≡ after_specifier scope.old (bare_specifier_of t)) }
{
    let tag = tag(cursor);
    if may_have_body(setting) && cursor.heads(Sign::OpenBrace) {
        cursor.advance();
        let (all, ends_with_comma) = enumerators(alloc, budget, scope, cursor)?;
        Ok(p10_make::enumeration(tag, all, ends_with_comma))
    } else if tag.is_some() {
        Ok(p10_make::enumeration(tag, Vec::new(alloc), false))
    } else {
        Err(Trouble::Refused)
    }
}

/// Reads the constants of an enumeration, whether a comma stands after the last, and the `}`.
#[cycle(reading)]
#[tactic(auto, using(crate::proofs::ListSteps::enumerators_fail))]
fn enumerators<'s>(
    alloc: Global,
    budget: usize,
    scope: &mut Scope<'s>,
    cursor: &mut Cursor<'_, 's>,
) -> Result<(Vec<Enumerator<'s>>, bool), Trouble>
    ensures ok { IfOk result (λ t. (readers budget).enumerators scope.old [] cursor.old ≡ Some ((map bare_enumerator_of t.0.items, t.1), cursor.new)) }
    ensures refused { IsErrOf result Refused → (readers budget).enumerators scope.old [] cursor.old ≡ None }
    ensures scope { IfOk result (λ t. scope.new ≡ after_enumerators scope.old (enumerator_row (map bare_enumerator_of t.0.items))) }
{
    let mut all = Vec::new(alloc);
    let mut fuel = budget;
    while fuel > 0 {
        fuel -= 1;
        let next = enumerator(alloc, fuel, scope, cursor)?;
        push_one(&mut all, next)?;
        if ends_enumerators(cursor) {
            let ends_with_comma = end_of_enumerators(cursor)?;
            return Ok((all, ends_with_comma));
        }
        cursor.advance();
    }
    Err(Trouble::Refused)
}

/// Whether no further constant stands next: no comma, or one and `}`.
fn ends_enumerators(cursor: &Cursor<'_, '_>) -> bool
    ensures { result ≡ no_enumerator cursor.now }
{
    !cursor.heads(Sign::Comma) || cursor.second_is(Sign::CloseBrace)
}

/// Reads `}`, or `,` and `}`, and gives which it was.
fn end_of_enumerators(cursor: &mut Cursor<'_, '_>) -> Result<bool, Trouble>
    ensures ok { IfOk result (λ comma. enumerators_end cursor.old ≡ Some (comma, cursor.new)) }
    ensures refused { IsErrOf result Refused → enumerators_end cursor.old ≡ None }
{
    if cursor.heads(Sign::Comma) {
        cursor.advance();
        cursor.expect(Sign::CloseBrace)?;
        Ok(true)
    } else {
        cursor.expect(Sign::CloseBrace)?;
        Ok(false)
    }
}

/// Reads a constant of an enumeration, and declares it.
#[cycle(reading)]
fn enumerator<'s>(
    alloc: Global,
    budget: usize,
    scope: &mut Scope<'s>,
    cursor: &mut Cursor<'_, 's>,
) -> Result<Enumerator<'s>, Trouble>
    ensures ok { IfOk result (λ t. enumerator_at (readers budget) scope.old cursor.old ≡ Some (bare_enumerator_of t, cursor.new)) }
    ensures refused { IsErrOf result Refused → enumerator_at (readers budget) scope.old cursor.old ≡ None }
    ensures scope { IfOk result (λ t. scope.new ≡ after_enumerator scope.old (bare_enumerator_of t)) }
{
    let name = cursor.name()?;
    let value = valued(alloc, budget, scope, Sign::Assign, cursor)?;
    match scope.add(name, false) {
        Ok(()) => Ok(p10_make::enumerator(alloc, name, value)?),
        Err(_) => stopped(value, Trouble::Memory),
    }
}
