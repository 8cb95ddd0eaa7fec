//! The places of specifiers, with the bodies of structures and enumerations.

ghost use Rattle.std.specs.Prelude.{◌≡◌, ◌+◌, ◌<◌, ◌^◌};
ghost use Rattle.p10_syn.specs.Bare.{bare_tag, bare_optional, bare_specifiers, bare_specifier, bare_members, bare_member, bare_fields, bare_field, bare_enumerators, bare_enumerator};
ghost use Rattle.p10_syn.specs.Built.{tag_of, specifiers_in, specifier_of, structure_of, member_of, field_of, enumeration_of, enumerator_of};
ghost use Rattle.p10_syn.specs.Counts.{count_tag, count_valued, count_specifiers, count_specifier, count_members, count_member, count_fields, count_field, count_enumerators, count_enumerator};
ghost use Rattle.p10_syn.specs.Places.{locate_tag, locate_optional, locate_specifiers, locate_specifier, locate_members, locate_member, locate_fields, locate_field, locate_enumerators, locate_enumerator};
ghost use Rattle.p10_place.specs.Roots.{source_of};
ghost use Rattle.p10_place.specs.private.Lists.{boxed_of, members_in, fields_in, enumerators_in};

use crate::declarator::set_declarator;
use crate::expression::{comma_before, set_expression, set_name};
use crate::root::Root;
use p10_syn::{Enumeration, Enumerator, Expr, Field, Identifier, Member, Spec, Structure};

/// Sets the places in specifiers one after the other.
#[cycle(setting)]
pub(crate) fn set_specifiers(root: &Root<'_, '_>, first: usize, specs: &mut Vec<Spec<'_>>) -> usize
    requires { first + count_specifiers (bare_specifiers (specifiers_in specs.old)) < 2 ^ 64 }
    ensures placed { specifiers_in specs.new ≡ locate_specifiers (source_of root.now) first (bare_specifiers (specifiers_in specs.old)) }
    ensures past { result ≡ first + count_specifiers (bare_specifiers (specifiers_in specs.old)) }
{
    let mut past = first;
    for i in 0..specs.len() {
        past = set_specifier(root, past, &mut specs[i]);
    }
    past
}

/// Sets the places in a specifier.
#[cycle(setting)]
fn set_specifier(root: &Root<'_, '_>, first: usize, spec: &mut Spec<'_>) -> usize
    requires { first + count_specifier (bare_specifier (specifier_of spec.old)) < 2 ^ 64 }
    ensures placed { specifier_of spec.new ≡ locate_specifier (source_of root.now) first (bare_specifier (specifier_of spec.old)) }
    ensures past { result ≡ first + count_specifier (bare_specifier (specifier_of spec.old)) }
{
    match spec {
        Spec::Keyword(at, _) => {
            *at = root.place_between(first, first + 1);
            first + 1
        }
        Spec::Typedef(name) => set_name(root, first, name),
        Spec::Structure(structure) => set_structure(root, first, structure),
        Spec::Enumeration(enumeration) => set_enumeration(root, first, enumeration),
    }
}

/// Sets the place of the own name of a structure or enumeration, if it has one.
fn set_tag(root: &Root<'_, '_>, first: usize, tag: &mut Option<Identifier<'_>>) -> usize
    requires { first + count_tag (bare_tag (tag_of tag.old)) < 2 ^ 64 }
    ensures placed { tag_of tag.new ≡ locate_tag (source_of root.now) first (bare_tag (tag_of tag.old)) }
    ensures past { result ≡ first + count_tag (bare_tag (tag_of tag.old)) }
{
    match tag {
        None => first,
        Some(name) => set_name(root, first, name),
    }
}

/// Sets the places in a structure or union.
#[cycle(setting)]
fn set_structure(root: &Root<'_, '_>, first: usize, structure: &mut Structure<'_>) -> usize
    requires { first + count_specifier (bare_specifier (structure_of structure.old)) < 2 ^ 64 }
    ensures placed { structure_of structure.new ≡ locate_specifier (source_of root.now) first (bare_specifier (structure_of structure.old)) }
    ensures past { result ≡ first + count_specifier (bare_specifier (structure_of structure.old)) }
{
    let past = set_tag(root, first + 1, &mut structure.tag);
    let past = set_members(root, past, &mut structure.members);
    structure.at = root.place_between(first, past);
    past
}

/// Sets the places in the body of a structure from its `{` on, if it has one.
#[cycle(setting)]
fn set_members(root: &Root<'_, '_>, first: usize, members: &mut Vec<Member<'_>>) -> usize
    requires { first + count_members (bare_members (members_in members.old)) < 2 ^ 64 }
    ensures placed { members_in members.new ≡ locate_members (source_of root.now) (first + 1) (bare_members (members_in members.old)) }
    ensures past { result ≡ first + count_members (bare_members (members_in members.old)) }
{
    let count = members.len();
    if count == 0 {
        return first;
    }
    let mut past = first + 1;
    for i in 0..count {
        past = set_member(root, past, &mut members[i]);
    }
    past + 1
}

/// Sets the places in a declaration of members.
#[cycle(setting)]
fn set_member(root: &Root<'_, '_>, first: usize, member: &mut Member<'_>) -> usize
    requires { first + count_member (bare_member (member_of member.old)) < 2 ^ 64 }
    ensures placed { member_of member.new ≡ locate_member (source_of root.now) first (bare_member (member_of member.old)) }
    ensures past { result ≡ first + count_member (bare_member (member_of member.old)) }
{
    let past = set_specifiers(root, first, &mut member.specs);
    let past = set_fields(root, past, &mut member.fields);
    member.at = root.place_between(first, past);
    past
}

/// Sets the places in what a declaration of members declares, and gives the word past its `;`.
#[cycle(setting)]
fn set_fields(root: &Root<'_, '_>, first: usize, fields: &mut Vec<Field<'_>>) -> usize
    requires { first + count_fields (bare_fields (fields_in fields.old)) < 2 ^ 64 }
    ensures placed { fields_in fields.new ≡ locate_fields (source_of root.now) first (bare_fields (fields_in fields.old)) }
    ensures past { result ≡ first + count_fields (bare_fields (fields_in fields.old)) }
{
    let mut past = first;
    for i in 0..fields.len() {
        past = set_field(root, past + comma_before(i), &mut fields[i]);
    }
    past + 1
}

/// Sets the places in a declarator of a member, with its width.
#[cycle(setting)]
fn set_field(root: &Root<'_, '_>, first: usize, field: &mut Field<'_>) -> usize
    requires { first + count_field (bare_field (field_of field.old)) < 2 ^ 64 }
    ensures placed { field_of field.new ≡ locate_field (source_of root.now) first (bare_field (field_of field.old)) }
    ensures past { result ≡ first + count_field (bare_field (field_of field.old)) }
{
    let past = set_declarator(root, first, &mut field.declarator);
    let past = set_valued(root, past, &mut field.width);
    field.at = root.place_between(first, past);
    past
}

/// Sets the places in an expression after the sign at word `first`, if it is there.
#[cycle(setting)]
fn set_valued(root: &Root<'_, '_>, first: usize, value: &mut Option<Box<Expr<'_>>>) -> usize
    requires { first + count_valued (bare_optional (boxed_of value.old)) < 2 ^ 64 }
    ensures placed { boxed_of value.new ≡ locate_optional (source_of root.now) (first + 1) (bare_optional (boxed_of value.old)) }
    ensures past { result ≡ first + count_valued (bare_optional (boxed_of value.old)) }
{
    match value {
        None => first,
        Some(e) => set_expression(root, first + 1, e),
    }
}

/// Sets the places in an enumeration.
#[cycle(setting)]
fn set_enumeration(root: &Root<'_, '_>, first: usize, enumeration: &mut Enumeration<'_>) -> usize
    requires { first + count_specifier (bare_specifier (enumeration_of enumeration.old)) < 2 ^ 64 }
    ensures placed { enumeration_of enumeration.new ≡ locate_specifier (source_of root.now) first (bare_specifier (enumeration_of enumeration.old)) }
    ensures past { result ≡ first + count_specifier (bare_specifier (enumeration_of enumeration.old)) }
{
    let past = set_tag(root, first + 1, &mut enumeration.tag);
    let past = set_enumerators(
        root,
        past,
        &mut enumeration.enumerators,
        enumeration.ends_with_comma,
    );
    enumeration.at = root.place_between(first, past);
    past
}

/// Sets the places in the body of an enumeration from its `{` on, if it has one.
#[cycle(setting)]
fn set_enumerators(
    root: &Root<'_, '_>,
    first: usize,
    enumerators: &mut Vec<Enumerator<'_>>,
    ends_with_comma: bool,
) -> usize
    requires { first + count_enumerators (bare_enumerators (enumerators_in enumerators.old)) ends_with_comma < 2 ^ 64 }
    ensures placed { enumerators_in enumerators.new ≡ locate_enumerators (source_of root.now) (first + 1) (bare_enumerators (enumerators_in enumerators.old)) }
    ensures past { result ≡ first + count_enumerators (bare_enumerators (enumerators_in enumerators.old)) ends_with_comma }
{
    let count = enumerators.len();
    if count == 0 {
        return first;
    }
    let mut past = first + 1;
    for i in 0..count {
        past = set_enumerator(root, past + comma_before(i), &mut enumerators[i]);
    }
    if ends_with_comma { past + 2 } else { past + 1 }
}

/// Sets the places in a constant of an enumeration, with its value.
#[cycle(setting)]
fn set_enumerator(root: &Root<'_, '_>, first: usize, enumerator: &mut Enumerator<'_>) -> usize
    requires { first + count_enumerator (bare_enumerator (enumerator_of enumerator.old)) < 2 ^ 64 }
    ensures placed { enumerator_of enumerator.new ≡ locate_enumerator (source_of root.now) first (bare_enumerator (enumerator_of enumerator.old)) }
    ensures past { result ≡ first + count_enumerator (bare_enumerator (enumerator_of enumerator.old)) }
{
    let past = set_name(root, first, &mut enumerator.name);
    let past = set_valued(root, past, &mut enumerator.value);
    enumerator.at = root.place_between(first, past);
    past
}
