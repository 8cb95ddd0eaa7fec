//! Functions as far as they are known, and how their parameters are listed (C99 6.7.5.3p15).

ghost use Rattle.std.specs.Prelude.{◌≡◌, length, map, None, option_map, option_copied, slice_get};
ghost use Rattle.std.specs.Option.{unwrap_or};
ghost use Rattle.p10_core.specs.Types.{plain_type};
ghost use Rattle.p10_linkage.specs.LinkedViews.{plain_kind, linked_of_name};
ghost use Rattle.p10_linkage.specs.Linkage.{parameters_of, list_form, known_result, same_known, same_parameters, is_left_alone, are_left_alone, goes_with_none, lists_agree, is_empty_list, is_none_listed, same_functions};

use crate::linked::{LinkedKind, LinkedName};
use p10_core::{CType, TypeForm};
use p10_elabd::ParameterList;
use p10_int::promote;

/// How many parameters a function has.
pub(crate) fn count_of(kind: &LinkedKind) -> usize
    ensures { result ≡ length (parameters_of (plain_kind kind.now)) }
{
    match kind {
        LinkedKind::Function(types, _) => types.len(),
        LinkedKind::Refused(part) => part.parameters.len(),
        LinkedKind::Object(_) | LinkedKind::UnknownObject => 0,
    }
}

/// The type of a function's parameter, where it is known.
pub(crate) fn parameter_at(kind: &LinkedKind, place: usize) -> Option<&CType>
    ensures { option_map plain_type (option_copied result) ≡ unwrap_or (slice_get (parameters_of (plain_kind kind.now)) place) None }
{
    match kind {
        LinkedKind::Function(types, _) => type_at(types.as_slice(), place),
        LinkedKind::Refused(part) => if_known(entry_at(part.parameters.as_slice(), place)),
        LinkedKind::Object(_) | LinkedKind::UnknownObject => None,
    }
}

/// The type at a place.
fn type_at(types: &[CType], place: usize) -> Option<&CType>
    ensures { option_map plain_type (option_copied result) ≡ slice_get (map plain_type types.now) place }
{
    types.get(place)
}

/// The type at a place, if there is one, which may not be known.
fn entry_at(types: &[Option<CType>], place: usize) -> Option<&Option<CType>>
    ensures { option_map (option_map plain_type) (option_copied result) ≡ slice_get (map (option_map plain_type) types.now) place }
{
    types.get(place)
}

/// A type that may not be there or not be known.
fn if_known(entry: Option<&Option<CType>>) -> Option<&CType>
    ensures { option_map plain_type (option_copied result) ≡ unwrap_or (option_map (option_map plain_type) (option_copied entry.entry)) None }
{
    match entry {
        Some(ty) => ty.as_ref(),
        None => None,
    }
}

/// In which form a function's parameters are listed.
fn list_form(kind: &LinkedKind) -> ParameterList
    ensures { result ≡ list_form (plain_kind kind.now) }
{
    match kind {
        LinkedKind::Function(_, _) => ParameterList::Fixed,
        LinkedKind::Refused(part) => part.list,
        LinkedKind::Object(_) | LinkedKind::UnknownObject => ParameterList::Empty,
    }
}

/// The type of a function's result, where it is known.
pub(crate) fn known_result(kind: &LinkedKind) -> Option<&CType>
    ensures { option_map plain_type (option_copied result) ≡ known_result (plain_kind kind.now) }
{
    match kind {
        LinkedKind::Function(_, result) => Some(result),
        LinkedKind::Refused(part) => part.result.as_ref(),
        LinkedKind::Object(_) | LinkedKind::UnknownObject => None,
    }
}

/// Whether two types are the same, as far as both are known.
fn same_known(one: Option<&CType>, other: Option<&CType>) -> bool
    ensures { result ≡ same_known (option_map plain_type (option_copied one.entry)) (option_map plain_type (option_copied other.entry)) }
{
    match (one, other) {
        (Some(t), Some(u)) => t.is_same(u),
        (_, _) => true,
    }
}

/// Whether types of parameters are the same, as far as they are known.
fn same_parameters(one: &LinkedKind, other: &LinkedKind) -> bool
    ensures { result ≡ same_parameters (parameters_of (plain_kind one.now)) (parameters_of (plain_kind other.now)) }
{
    let count = count_of(one);
    if count != count_of(other) {
        return false;
    }
    for place in 0..count {
        if !same_known(parameter_at(one, place), parameter_at(other, place)) {
            return false;
        }
    }
    true
}

/// Whether a type is left as it is by the promotions of arguments, as far as it is known.
fn is_left_alone(ty: Option<&CType>) -> bool
    ensures { result ≡ is_left_alone (option_map plain_type (option_copied ty.entry)) }
{
    match ty {
        Some(ty) => match &ty.form {
            TypeForm::Int(kind) => promote(*kind) == *kind,
            TypeForm::Void | TypeForm::Pointer(_) | TypeForm::Array(_, _) | TypeForm::Struct(_) =>
                true,
        },
        None => true,
    }
}

/// Whether the types of all parameters are.
fn are_left_alone(kind: &LinkedKind) -> bool
    ensures { result ≡ are_left_alone (parameters_of (plain_kind kind.now)) }
{
    for place in 0..count_of(kind) {
        if !is_left_alone(parameter_at(kind, place)) {
            return false;
        }
    }
    true
}

/// Whether a function's parameters may be listed so where another declaration has `()`, which may be a definition.
fn goes_with_none(defines: bool, kind: &LinkedKind) -> bool
    ensures { result ≡ goes_with_none defines (list_form (plain_kind kind.now)) (parameters_of (plain_kind kind.now)) }
{
    match list_form(kind) {
        ParameterList::Fixed => {
            if defines {
                count_of(kind) == 0
            } else {
                are_left_alone(kind)
            }
        }
        ParameterList::Variadic => false,
        ParameterList::Empty => true,
    }
}

/// Whether two declarations of a function list their parameters in forms that go together: `...` stands in both or in none.
pub(crate) fn lists_agree(
    defines: bool,
    defining: bool,
    one: &LinkedKind,
    other: &LinkedKind,
) -> bool
    ensures { result ≡ lists_agree defines defining (plain_kind one.now) (plain_kind other.now) }
{
    match (list_form(one), list_form(other)) {
        (ParameterList::Empty, _) => goes_with_none(defines, other),
        (_, ParameterList::Empty) => goes_with_none(defining, one),
        (ParameterList::Variadic, ParameterList::Variadic) => true,
        (ParameterList::Fixed, ParameterList::Fixed) => true,
        (_, _) => false,
    }
}

/// Whether `()` stands.
fn is_empty_list(list: ParameterList) -> bool
    ensures { result ≡ is_empty_list list }
{
    matches!(list, ParameterList::Empty)
}

/// Whether one of two declarations of a function has `()`.
pub(crate) fn is_none_listed(one: &LinkedKind, other: &LinkedKind) -> bool
    ensures { result ≡ is_none_listed (plain_kind one.now) (plain_kind other.now) }
{
    is_empty_list(list_form(one)) || is_empty_list(list_form(other))
}

/// Whether two declarations of functions declare the same, as far as that is known.
pub(crate) fn same_functions(before: &LinkedName<'_>, now: &LinkedName<'_>) -> bool
    ensures { result ≡ same_functions (linked_of_name before.now) (linked_of_name now.now) }
{
    let one = &before.kind;
    let other = &now.kind;
    lists_agree(before.defines, now.defines, one, other)
        && (same_known(known_result(one), known_result(other))
            && (is_none_listed(one, other) || same_parameters(one, other)))
}
