//! Declarations of different roots that name one function or object: what they declare becomes one (C99 6.2.7).

ghost use Rattle.std.specs.Prelude.{◌≡◌, true, false, map, length, IfOk, Some, option_map, option_copied, slice_get};
ghost use Rattle.std.specs.Bool.{beq};
ghost use Rattle.p10_core.specs.Types.{plain_type};
ghost use Rattle.p10_core.specs.Views.{plain_types};
ghost use Rattle.p10_core.specs.Representing.{represented};
ghost use Rattle.p10_linkage.specs.LinkedViews.{plain_kind, linked_of_name};
ghost use Rattle.p10_linkage.specs.Uniting.{united};
ghost use Rattle.p10_linkage.specs.Linkage.{parameters_of};
ghost use Rattle.p10_linkage.specs.Between.{known_united, parameters_united, listed_united, functions_united, objects_united, linked_united, unless_compatible, is_other, agreed_with, agreed};
ghost use Rattle.p10_linkage.specs.private.Meetings.{given};
ghost use Rattle.p10_linkage.specs.private.Grouping.{rows_at};
ghost use Rattle.p10_linkage.specs.private.Agreeing.{agreed_row};

use crate::compatible::are_compatible;
use crate::linkage::is_function;
use crate::linked::{LinkedKind, LinkedName};
use crate::listing::{count_of, is_none_listed, known_result, lists_agree, parameter_at};
use crate::stands::Stands;
use crate::uniting::unite_types;
use p10_core::{CType, Types};
use std::alloc::{AllocError, Global};

/// A declaration with those of roots before it, by their places: whether they agree. Where they don't, what stands for structures stays
/// as it was.
pub fn agree(
    alloc: Global,
    types: &Types<'_>,
    stands: &mut Stands,
    linked: &[LinkedName<'_>],
    before: &[usize],
    now: &LinkedName<'_>,
) -> Result<bool, AllocError>
    requires as_many { length stands.old.numbers.items ≡ length (plain_types types.now) }
    ensures agreed { IfOk result (λ agrees. given agrees (represented (plain_types types.now) stands.new.numbers.items) ≡ agreed (rows_at before.now (map linked_of_name linked.now)) (linked_of_name now.now) (represented (plain_types types.now) stands.old.numbers.items)) }
    ensures kept { IfOk result (λ agrees. agrees ≡ false → stands.new.numbers.items ≡ stands.old.numbers.items) }
    ensures as_many { length stands.new.numbers.items ≡ length stands.old.numbers.items }
{
    if before.is_empty() {
        return Ok(true);
    }
    let mut joined = stands.copied()?;
    if unite_with_all(types, &mut joined, linked, before, now) {
        *stands = joined;
        return Ok(true);
    }
    agree_or_not(alloc, types, stands, linked, before, now)
}

/// The same where not all of them can be one: each of them may still be compatible.
fn agree_or_not(
    alloc: Global,
    types: &Types<'_>,
    stands: &mut Stands,
    linked: &[LinkedName<'_>],
    before: &[usize],
    now: &LinkedName<'_>,
) -> Result<bool, AllocError>
    requires as_many { length stands.old.numbers.items ≡ length (plain_types types.now) }
    ensures agreed { IfOk result (λ agrees. given agrees (represented (plain_types types.now) stands.new.numbers.items) ≡ agreed (rows_at before.now (map linked_of_name linked.now)) (linked_of_name now.now) (represented (plain_types types.now) stands.old.numbers.items)) }
    ensures kept { IfOk result (λ agrees. agrees ≡ false → stands.new.numbers.items ≡ stands.old.numbers.items) }
    ensures as_many { length stands.new.numbers.items ≡ length stands.old.numbers.items }
{
    let mut joined = stands.copied()?;
    let agrees = agree_with_all(alloc, types, &mut joined, linked, before, now)?;
    if agrees {
        *stands = joined;
    }
    Ok(agrees)
}

/// Makes a declaration one with those at places; where that can't be, what stands for structures then is of no use. Nothing is copied,
/// as it is for types that may still be compatible.
pub(crate) fn unite_with_all(
    types: &Types<'_>,
    stands: &mut Stands,
    linked: &[LinkedName<'_>],
    before: &[usize],
    now: &LinkedName<'_>,
) -> bool
    requires as_many { length stands.old.numbers.items ≡ length (plain_types types.now) }
    ensures agreed { result ≡ true → agreed (rows_at before.now (map linked_of_name linked.now)) (linked_of_name now.now) (represented (plain_types types.now) stands.old.numbers.items) ≡ Some (represented (plain_types types.now) stands.new.numbers.items) }
    ensures as_many { length stands.new.numbers.items ≡ length stands.old.numbers.items }
{
    for place in before {
        if !unite_with_row(types, stands, row_at(linked, *place), now) {
            return false;
        }
    }
    true
}

/// Makes a declaration one with another one, if there is one.
fn unite_with_row(
    types: &Types<'_>,
    stands: &mut Stands,
    before: Option<&LinkedName<'_>>,
    now: &LinkedName<'_>,
) -> bool
    requires as_many { length stands.old.numbers.items ≡ length (plain_types types.now) }
    ensures agreed { result ≡ true → agreed_row (option_map linked_of_name (option_copied before.entry)) (linked_of_name now.now) (represented (plain_types types.now) stands.old.numbers.items) ≡ Some (represented (plain_types types.now) stands.new.numbers.items) }
    ensures as_many { length stands.new.numbers.items ≡ length stands.old.numbers.items }
{
    match before {
        Some(before) => unite_with(types, stands, before, now),
        None => true,
    }
}

/// Makes a declaration one with another one.
fn unite_with(
    types: &Types<'_>,
    stands: &mut Stands,
    before: &LinkedName<'_>,
    now: &LinkedName<'_>,
) -> bool
    requires as_many { length stands.old.numbers.items ≡ length (plain_types types.now) }
    ensures agreed { result ≡ true → agreed_with (linked_of_name before.now) (linked_of_name now.now) (represented (plain_types types.now) stands.old.numbers.items) ≡ Some (represented (plain_types types.now) stands.new.numbers.items) }
    ensures as_many { length stands.new.numbers.items ≡ length stands.old.numbers.items }
{
    if !is_other(before, now) {
        return true;
    }
    if !are_marked_alike(before, now) {
        return false;
    }
    unite_linked(types, stands, before, now)
}

/// Whether two declarations have the mark for sensors, or neither has it.
fn are_marked_alike(before: &LinkedName<'_>, now: &LinkedName<'_>) -> bool
    ensures { result ≡ beq before.now.sensor now.now.sensor }
{
    before.sensor == now.sensor
}

/// A declaration with those at places.
#[tactic(auto, using(crate::proofs::Turns::row_agreed))]
fn agree_with_all(
    alloc: Global,
    types: &Types<'_>,
    stands: &mut Stands,
    linked: &[LinkedName<'_>],
    before: &[usize],
    now: &LinkedName<'_>,
) -> Result<bool, AllocError>
    requires as_many { length stands.old.numbers.items ≡ length (plain_types types.now) }
    ensures agreed { IfOk result (λ agrees. given agrees (represented (plain_types types.now) stands.new.numbers.items) ≡ agreed (rows_at before.now (map linked_of_name linked.now)) (linked_of_name now.now) (represented (plain_types types.now) stands.old.numbers.items)) }
    ensures as_many { length stands.new.numbers.items ≡ length stands.old.numbers.items }
{
    for place in before {
        let agrees = agree_with_row(alloc, types, stands, row_at(linked, *place), now)?;
        if !agrees {
            return Ok(false);
        }
    }
    Ok(true)
}

/// The declaration at a place.
pub(crate) fn row_at<'a, 's>(
    linked: &'a [LinkedName<'s>],
    place: usize,
) -> Option<&'a LinkedName<'s>>
    ensures { option_map linked_of_name (option_copied result) ≡ slice_get (map linked_of_name linked.now) place }
{
    linked.get(place)
}

/// A declaration with another one, if there is one.
fn agree_with_row(
    alloc: Global,
    types: &Types<'_>,
    stands: &mut Stands,
    before: Option<&LinkedName<'_>>,
    now: &LinkedName<'_>,
) -> Result<bool, AllocError>
    requires as_many { length stands.old.numbers.items ≡ length (plain_types types.now) }
    ensures agreed { IfOk result (λ agrees. given agrees (represented (plain_types types.now) stands.new.numbers.items) ≡ agreed_row (option_map linked_of_name (option_copied before.entry)) (linked_of_name now.now) (represented (plain_types types.now) stands.old.numbers.items)) }
    ensures as_many { length stands.new.numbers.items ≡ length stands.old.numbers.items }
{
    match before {
        Some(before) => agree_with(alloc, types, stands, before, now),
        None => Ok(true),
    }
}

/// A declaration with another one.
fn agree_with(
    alloc: Global,
    types: &Types<'_>,
    stands: &mut Stands,
    before: &LinkedName<'_>,
    now: &LinkedName<'_>,
) -> Result<bool, AllocError>
    requires as_many { length stands.old.numbers.items ≡ length (plain_types types.now) }
    ensures agreed { IfOk result (λ agrees. given agrees (represented (plain_types types.now) stands.new.numbers.items) ≡ agreed_with (linked_of_name before.now) (linked_of_name now.now) (represented (plain_types types.now) stands.old.numbers.items)) }
    ensures as_many { length stands.new.numbers.items ≡ length stands.old.numbers.items }
{
    if !is_other(before, now) {
        return Ok(true);
    }
    if before.sensor != now.sensor {
        return Ok(false);
    }
    unite_or_compare(alloc, types, stands, before, now)
}

/// Two declarations as one, or else compared: where they can't be one, what stands for structures stays as it was.
fn unite_or_compare(
    alloc: Global,
    types: &Types<'_>,
    stands: &mut Stands,
    before: &LinkedName<'_>,
    now: &LinkedName<'_>,
) -> Result<bool, AllocError>
    requires as_many { length stands.old.numbers.items ≡ length (plain_types types.now) }
    ensures agreed { IfOk result (λ agrees. given agrees (represented (plain_types types.now) stands.new.numbers.items) ≡ unless_compatible (linked_of_name before.now) (linked_of_name now.now) (represented (plain_types types.now) stands.old.numbers.items) (linked_united (linked_of_name before.now) (linked_of_name now.now) (represented (plain_types types.now) stands.old.numbers.items))) }
    ensures as_many { length stands.new.numbers.items ≡ length stands.old.numbers.items }
{
    let mut joined = stands.copied()?;
    if unite_linked(types, &mut joined, before, now) {
        *stands = joined;
        return Ok(true);
    }
    let alike = are_compatible(alloc, types, before, now)?;
    Ok(alike)
}

/// Whether a declaration of another root names the same function or object.
fn is_other(before: &LinkedName<'_>, now: &LinkedName<'_>) -> bool
    ensures { result ≡ is_other (linked_of_name before.now) (linked_of_name now.now) }
{
    before.root != now.root && (before.name == now.name && !(before.internal || now.internal))
}

/// What two declarations declare, as one.
fn unite_linked(
    types: &Types<'_>,
    stands: &mut Stands,
    before: &LinkedName<'_>,
    now: &LinkedName<'_>,
) -> bool
    requires as_many { length stands.old.numbers.items ≡ length (plain_types types.now) }
    ensures united { given result (represented (plain_types types.now) stands.new.numbers.items) ≡ linked_united (linked_of_name before.now) (linked_of_name now.now) (represented (plain_types types.now) stands.old.numbers.items) }
    ensures as_many { length stands.new.numbers.items ≡ length stands.old.numbers.items }
{
    let functions = is_function(&before.kind) && is_function(&now.kind);
    if functions {
        unite_functions(types, stands, before, now)
    } else {
        unite_objects(types, stands, &before.kind, &now.kind)
    }
}

/// Two declarations as one, of which one is of no function.
fn unite_objects(
    types: &Types<'_>,
    stands: &mut Stands,
    one: &LinkedKind,
    other: &LinkedKind,
) -> bool
    requires as_many { length stands.old.numbers.items ≡ length (plain_types types.now) }
    ensures united { given result (represented (plain_types types.now) stands.new.numbers.items) ≡ objects_united (plain_kind one.now) (plain_kind other.now) (represented (plain_types types.now) stands.old.numbers.items) }
    ensures as_many { length stands.new.numbers.items ≡ length stands.old.numbers.items }
{
    match (one, other) {
        (LinkedKind::Object(t), LinkedKind::Object(u)) => unite(types, stands, t, u),
        _ => is_function(one) == is_function(other),
    }
}

/// Two declarations of a function as one.
fn unite_functions(
    types: &Types<'_>,
    stands: &mut Stands,
    before: &LinkedName<'_>,
    now: &LinkedName<'_>,
) -> bool
    requires as_many { length stands.old.numbers.items ≡ length (plain_types types.now) }
    ensures united { given result (represented (plain_types types.now) stands.new.numbers.items) ≡ functions_united (linked_of_name before.now) (linked_of_name now.now) (represented (plain_types types.now) stands.old.numbers.items) }
    ensures as_many { length stands.new.numbers.items ≡ length stands.old.numbers.items }
{
    let one = &before.kind;
    let other = &now.kind;
    lists_agree(before.defines, now.defines, one, other)
        && (unite_known(types, stands, known_result(one), known_result(other))
            && unite_listed(types, stands, one, other))
}

/// The parameters of two declarations of a function as one, unless one has `()`.
fn unite_listed(
    types: &Types<'_>,
    stands: &mut Stands,
    one: &LinkedKind,
    other: &LinkedKind,
) -> bool
    requires as_many { length stands.old.numbers.items ≡ length (plain_types types.now) }
    ensures united { given result (represented (plain_types types.now) stands.new.numbers.items) ≡ listed_united (plain_kind one.now) (plain_kind other.now) (represented (plain_types types.now) stands.old.numbers.items) }
    ensures as_many { length stands.new.numbers.items ≡ length stands.old.numbers.items }
{
    if is_none_listed(one, other) {
        return true;
    }
    unite_parameters(types, stands, one, other)
}

/// Types of parameters as one, in order.
fn unite_parameters(
    types: &Types<'_>,
    stands: &mut Stands,
    one: &LinkedKind,
    other: &LinkedKind,
) -> bool
    requires as_many { length stands.old.numbers.items ≡ length (plain_types types.now) }
    ensures united { given result (represented (plain_types types.now) stands.new.numbers.items) ≡ parameters_united (parameters_of (plain_kind one.now)) (parameters_of (plain_kind other.now)) (represented (plain_types types.now) stands.old.numbers.items) }
    ensures as_many { length stands.new.numbers.items ≡ length stands.old.numbers.items }
{
    let count = count_of(one);
    if count != count_of(other) {
        return false;
    }
    for place in 0..count {
        let these = parameter_at(one, place);
        let those = parameter_at(other, place);
        if !unite_known(types, stands, these, those) {
            return false;
        }
    }
    true
}

/// Two types as one, as far as both are known.
fn unite_known(
    types: &Types<'_>,
    stands: &mut Stands,
    one: Option<&CType>,
    other: Option<&CType>,
) -> bool
    requires as_many { length stands.old.numbers.items ≡ length (plain_types types.now) }
    ensures united { given result (represented (plain_types types.now) stands.new.numbers.items) ≡ known_united (option_map plain_type (option_copied one.entry)) (option_map plain_type (option_copied other.entry)) (represented (plain_types types.now) stands.old.numbers.items) }
    ensures as_many { length stands.new.numbers.items ≡ length stands.old.numbers.items }
{
    match (one, other) {
        (Some(t), Some(u)) => unite(types, stands, t, u),
        (_, _) => true,
    }
}

/// Two types as one.
fn unite(types: &Types<'_>, stands: &mut Stands, t: &CType, u: &CType) -> bool
    requires as_many { length stands.old.numbers.items ≡ length (plain_types types.now) }
    ensures united { given result (represented (plain_types types.now) stands.new.numbers.items) ≡ united (plain_type t.now) (plain_type u.now) (represented (plain_types types.now) stands.old.numbers.items) }
    ensures as_many { length stands.new.numbers.items ≡ length stands.old.numbers.items }
{
    let pairs = stands.numbers.len();
    unite_types(types, stands, pairs, t, u)
}
