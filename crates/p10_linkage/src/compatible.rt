//! Compatible types of two roots (C99 6.2.7).

ghost use Rattle.std.specs.Prelude.{◌≡◌, ◌*◌, length, map, IfOk, Some, None, option_map, option_copied};
ghost use Rattle.p10_core.specs.Types.{plain_type, plain_member, body_of};
ghost use Rattle.p10_core.specs.Views.{plain_types};
ghost use Rattle.p10_linkage.specs.LinkedViews.{plain_kind, linked_of_name};
ghost use Rattle.p10_linkage.specs.Linkage.{parameters_of};
ghost use Rattle.p10_linkage.specs.Compatible.{were_met, is_settled, members_compatible, bodies_compatible, types_compatible, compatible_within, is_compatible, known_compatible, parameters_compatible, functions_compatible, objects_compatible, are_compatible};
ghost use Rattle.p10_linkage.specs.private.Comparing.{compared};

use crate::linkage::is_function;
use crate::linked::{LinkedKind, LinkedName};
use crate::listing::{count_of, is_none_listed, known_result, lists_agree, parameter_at};
use crate::meeting::{Meeting, meeting_of};
use crate::uniting::same_tags;
use p10_core::{CType, Member, Types};
use std::alloc::{AllocError, Global};

/// The pairs of structures that were compared, by their numbers.
type Pairs = Vec<(u32, u32)>;

/// Whether two structures were compared.
fn were_met(pairs: &[(u32, u32)], m: u32, n: u32) -> bool
    ensures { result ≡ were_met m n pairs.now }
{
    for pair in pairs {
        if pair.0 == m && pair.1 == n {
            return true;
        }
    }
    false
}

/// Whether two structures are one, or were compared.
fn is_settled(pairs: &[(u32, u32)], m: u32, n: u32) -> bool
    ensures { result ≡ is_settled m n pairs.now }
{
    m == n || were_met(pairs, m, n)
}

/// Compares two types.
#[cycle(compare)]
fn compare_types(
    types: &Types<'_>,
    pairs: &mut Pairs,
    more: u64,
    t: &CType,
    u: &CType,
) -> Result<bool, AllocError>
    ensures { IfOk result (λ alike. compared alike pairs.new ≡ types_compatible (compatible_within more (plain_types types.now)) (plain_type t.now) (plain_type u.now) pairs.old.items) }
{
    match meeting_of(t, u) {
        Meeting::Never => Ok(false),
        Meeting::Always => Ok(true),
        Meeting::Where(m, n) => {
            let alike = compare_structures(types, pairs, more, m, n)?;
            Ok(alike)
        }
    }
}

/// Compares two structures.
#[cycle(compare)]
fn compare_structures(
    types: &Types<'_>,
    pairs: &mut Pairs,
    more: u64,
    m: u32,
    n: u32,
) -> Result<bool, AllocError>
    ensures { IfOk result (λ alike. compared alike pairs.new ≡ compatible_within more (plain_types types.now) m n pairs.old.items) }
{
    if is_settled(pairs.as_slice(), m, n) {
        return Ok(true);
    }
    if more == 0 {
        return Ok(false);
    }
    match (types.structure(m), types.structure(n)) {
        (Some(one), Some(other)) => {
            if !same_tags(one.tag, other.tag) {
                return Ok(false);
            }
            pairs.push((m, n))?;
            let alike = compare_bodies(types, pairs, more - 1, m, n)?;
            Ok(alike)
        }
        _ => Ok(false),
    }
}

/// Compares the bodies of two structures: one that isn't complete goes with any.
#[cycle(compare)]
fn compare_bodies(
    types: &Types<'_>,
    pairs: &mut Pairs,
    more: u64,
    m: u32,
    n: u32,
) -> Result<bool, AllocError>
    ensures { IfOk result (λ alike. compared alike pairs.new ≡ bodies_compatible (types_compatible (compatible_within more (plain_types types.now))) (body_of (plain_types types.now) m) (body_of (plain_types types.now) n) pairs.old.items) }
{
    match (types.body(m), types.body(n)) {
        (Some(one), Some(other)) => {
            let alike = compare_members(
                types,
                pairs,
                more,
                one.members.as_slice(),
                other.members.as_slice(),
            )?;
            Ok(alike)
        }
        _ => Ok(true),
    }
}

/// Compares members, in pairs that have the same names.
#[cycle(compare)]
fn compare_members(
    types: &Types<'_>,
    pairs: &mut Pairs,
    more: u64,
    members: &[Member<'_>],
    others: &[Member<'_>],
) -> Result<bool, AllocError>
    ensures { IfOk result (λ alike. compared alike pairs.new ≡ members_compatible (types_compatible (compatible_within more (plain_types types.now))) (map plain_member members.now) (map plain_member others.now) pairs.old.items) }
{
    if members.len() != others.len() {
        return Ok(false);
    }
    for place in 0..members.len() {
        if members[place].name != others[place].name {
            return Ok(false);
        }
        let alike = compare_types(types, pairs, more, &members[place].ty, &others[place].ty)?;
        if !alike {
            return Ok(false);
        }
    }
    Ok(true)
}

/// How many pairs of structures there are.
fn pair_count(types: &Types<'_>) -> Result<u64, AllocError>
    ensures { IfOk result (λ n. n ≡ length (plain_types types.now) * length (plain_types types.now)) }
{
    let count = types.count() as u64;
    match count.checked_mul(count) {
        Some(pairs) => Ok(pairs),
        None => Err(AllocError),
    }
}

/// Whether two types are compatible.
fn is_compatible(alloc: Global, types: &Types<'_>, t: &CType, u: &CType) -> Result<bool, AllocError>
    ensures { IfOk result (λ alike. alike ≡ is_compatible (plain_types types.now) (plain_type t.now) (plain_type u.now)) }
{
    let mut pairs = Vec::new(alloc);
    let more = pair_count(types)?;
    let alike = compare_types(types, &mut pairs, more, t, u)?;
    Ok(alike)
}

/// Whether two types are compatible, as far as both are known.
fn known_compatible(
    alloc: Global,
    types: &Types<'_>,
    one: Option<&CType>,
    other: Option<&CType>,
) -> Result<bool, AllocError>
    ensures { IfOk result (λ alike. alike ≡ known_compatible (plain_types types.now) (option_map plain_type (option_copied one.entry)) (option_map plain_type (option_copied other.entry))) }
{
    match (one, other) {
        (Some(t), Some(u)) => is_compatible(alloc, types, t, u),
        (_, _) => Ok(true),
    }
}

/// Whether the types of parameters are compatible, in order.
fn parameters_compatible(
    alloc: Global,
    types: &Types<'_>,
    one: &LinkedKind,
    other: &LinkedKind,
) -> Result<bool, AllocError>
    ensures { IfOk result (λ alike. alike ≡ parameters_compatible (plain_types types.now) (parameters_of (plain_kind one.now)) (parameters_of (plain_kind other.now))) }
{
    let count = count_of(one);
    if count != count_of(other) {
        return Ok(false);
    }
    for place in 0..count {
        let these = parameter_at(one, place);
        let those = parameter_at(other, place);
        let alike = known_compatible(alloc, types, these, those)?;
        if !alike {
            return Ok(false);
        }
    }
    Ok(true)
}

/// Whether two declarations of functions are compatible (C99 6.7.5.3p15).
fn functions_compatible(
    alloc: Global,
    types: &Types<'_>,
    before: &LinkedName<'_>,
    now: &LinkedName<'_>,
) -> Result<bool, AllocError>
    ensures { IfOk result (λ alike. alike ≡ functions_compatible (plain_types types.now) (linked_of_name before.now) (linked_of_name now.now)) }
{
    let one = &before.kind;
    let other = &now.kind;
    if !lists_agree(before.defines, now.defines, one, other) {
        return Ok(false);
    }
    if !known_compatible(alloc, types, known_result(one), known_result(other))? {
        return Ok(false);
    }
    if is_none_listed(one, other) {
        return Ok(true);
    }
    parameters_compatible(alloc, types, one, other)
}

/// Whether two declarations are compatible, of which one is of no function.
fn objects_compatible(
    alloc: Global,
    types: &Types<'_>,
    one: &LinkedKind,
    other: &LinkedKind,
) -> Result<bool, AllocError>
    ensures { IfOk result (λ alike. alike ≡ objects_compatible (plain_types types.now) (plain_kind one.now) (plain_kind other.now)) }
{
    match (one, other) {
        (LinkedKind::Object(t), LinkedKind::Object(u)) => is_compatible(alloc, types, t, u),
        _ => Ok(is_function(one) == is_function(other)),
    }
}

/// Whether the types of two declarations are compatible.
pub(crate) fn are_compatible(
    alloc: Global,
    types: &Types<'_>,
    before: &LinkedName<'_>,
    now: &LinkedName<'_>,
) -> Result<bool, AllocError>
    ensures { IfOk result (λ alike. alike ≡ are_compatible (plain_types types.now) (linked_of_name before.now) (linked_of_name now.now)) }
{
    let functions = is_function(&before.kind) && is_function(&now.kind);
    if functions {
        functions_compatible(alloc, types, before, now)
    } else {
        objects_compatible(alloc, types, &before.kind, &now.kind)
    }
}
