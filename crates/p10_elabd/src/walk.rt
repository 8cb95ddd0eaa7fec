//! What specifiers and declarators declare: the walk over their trees (C99 6.7).

ghost use Rattle.std.specs.Prelude.{◌≡◌, ◌+◌, IfOk, false, Some, None, [], map, option_map};
ghost use Rattle.p10_syn.specs.declared.tree.Structure.{out-Structure};
ghost use Rattle.p10_syn.specs.Trees.{specifier_row, member_row, field_row, parameter_row};
ghost use Rattle.p10_syn.specs.Built.{specifier_of, tag_of, member_of, field_of, declarator_of, parameter_of};
ghost use Rattle.p10_core.specs.Types.{plain_type};
ghost use Rattle.p10_elabx.specs.First.{only_first};
ghost use Rattle.p10_elabd.specs.Standing.{passed};
ghost use Rattle.p10_elabd.specs.Declaring.{specifiers_passed, specifier_passed, structure_passed, members_passed, member_passed, fields_passed, field_passed, declarator_passed, function_passed, all_parameters_passed, only_parameter_passed, parameters_passed, one_parameter_passed, typed_parameter_passed, none_listed, specified};
ghost use Rattle.p10_elabd.specs.Views.{plain_standing, plain_named, plain_declared, plain_parameters, lists, told};
ghost use Rattle.p10_elabd.specs.private.NamedMembers.{named_members};

use crate::arrays::{array_declared, array_inside, open_declared};
use crate::bases::{as_named, based, based_on, next_number, none_allowed, structure_ended};
use crate::declaration::{Declared, PlacedParameter};
use crate::enumerations::enumeration_passed;
use crate::functions::{function_inside, result_declared};
use crate::members::{judge_width, member_declared, with_member};
use crate::named_members::NamedMembers;
use crate::parameters::{
    ParameterSite, function_declared, is_no_parameter, list_of, with_declared_parameter,
};
use crate::pointers::{element_declared, pointer_declared};
use crate::shapes::{declares_function, declares_open_array, name_in, place_or};
use crate::site::{Allowed, Site};
use crate::specifiers::{
    Manner, both_named, stored_by, tag_passed, type_specified, typedef_passed, word_passed,
};
use crate::standing::Standing;
use crate::structures::begin;
use p10_base::{At, SubsetCode};
use p10_core::CType;
use p10_elabx::declarator_place;
use p10_syn::{Declarator, Field, Member as MemberTree, Parameter, Spec, Structure};
use std::alloc::{AllocError, Global};

/// The type that the specifiers `specs` name where something is declared (C99 6.7): at a site, where some words are allowed. `alone` says
/// that they are a whole declaration. `None` where it is refused, and a row that holds is noted.
///
/// # Errors
///
/// Out of memory.
#[cycle(declare)]
pub fn specified<'s>(
    alloc: Global,
    standing: &mut Standing<'s>,
    site: Site,
    allowed: Allowed,
    alone: bool,
    specs: &[Spec<'s>],
) -> Result<Option<CType>, AllocError>
    ensures { IfOk result (λ made. told (option_map plain_type made) standing.new ≡ specified only_first site allowed alone (plain_standing standing.old) (specifier_row (map specifier_of specs.now))) }
{
    let manner = Manner {
        site,
        allowed,
        alone,
    };
    let named = specifiers_passed(alloc, standing, manner, specs)?;
    let ty = type_specified(alloc, standing, specs, named)?;
    Ok(ty)
}

/// What specifiers name.
#[cycle(declare)]
fn specifiers_passed<'s>(
    alloc: Global,
    standing: &mut Standing<'s>,
    manner: Manner,
    specs: &[Spec<'s>],
) -> Result<Option<Option<CType>>, AllocError>
    ensures { IfOk result (λ made. told (plain_named made) standing.new ≡ specifiers_passed only_first manner.site manner.allowed manner.alone false (passed None (plain_standing standing.old)) (specifier_row (map specifier_of specs.now))) }
{
    let mut named = Some(None);
    let mut stored = false;
    for spec in specs {
        let one = specifier_passed(alloc, standing, manner, stored, spec)?;
        stored = stored_by(stored, spec);
        named = both_named(named, one);
    }
    Ok(named)
}

/// What one specifier names, where it is known whether a storage word stands before it.
#[cycle(declare)]
#[tactic(auto, using(crate::proofs::SpecifierTrees::structure_passes, crate::proofs::SpecifierTrees::enumeration_passes))]
fn specifier_passed<'s>(
    alloc: Global,
    standing: &mut Standing<'s>,
    manner: Manner,
    stored: bool,
    spec: &Spec<'s>,
) -> Result<Option<Option<CType>>, AllocError>
    ensures { IfOk result (λ made. told (plain_named made) standing.new ≡ specifier_passed only_first manner.site manner.allowed manner.alone stored (plain_standing standing.old) (specifier_of spec.now)) }
{
    match spec {
        Spec::Keyword(at, word) => Ok(word_passed(standing, manner, stored, *at, *word)),
        Spec::Typedef(name) => {
            let named = typedef_passed(alloc, standing, *name)?;
            Ok(named)
        }
        Spec::Structure(structure) => {
            let ty = structure_passed(alloc, standing, manner.alone, structure)?;
            Ok(as_named(ty))
        }
        Spec::Enumeration(one) => {
            let ty = enumeration_passed(alloc, standing, one.at, one.tag, &one.enumerators)?;
            Ok(as_named(ty))
        }
    }
}

/// A structure or a union with its members, or by its tag alone.
#[cycle(declare)]
fn structure_passed<'s>(
    alloc: Global,
    standing: &mut Standing<'s>,
    alone: bool,
    one: &Structure<'s>,
) -> Result<Option<CType>, AllocError>
    ensures { IfOk result (λ made. told (option_map plain_type made) standing.new ≡ structure_passed only_first alone (out-Structure one.now).at (out-Structure one.now).sign (tag_of (out-Structure one.now).tag) (plain_standing standing.old) (member_row (map member_of (out-Structure one.now).members.items))) }
{
    let count = one.members.len();
    if count == 0 {
        let named = tag_passed(standing, alone, one.at, one.sign, one.tag)?;
        return Ok(named);
    }
    let number = begin(standing, one.sign, one.tag)?;
    let members = members_passed(alloc, standing, &one.members)?;
    let ty = structure_ended(standing, one.at, one.sign, one.tag, number, members)?;
    Ok(ty)
}

/// The members of a structure.
#[cycle(declare)]
fn members_passed<'s>(
    alloc: Global,
    standing: &mut Standing<'s>,
    all: &[MemberTree<'s>],
) -> Result<Option<NamedMembers<'s>>, AllocError>
    ensures { IfOk result (λ made. told (option_map named_members made) standing.new ≡ members_passed only_first (passed [] (plain_standing standing.old)) (member_row (map member_of all.now))) }
{
    let mut members = Some(NamedMembers::new(alloc));
    for one in all {
        members = member_passed(alloc, standing, members, one)?;
    }
    Ok(members)
}

/// One declaration of members, after those before.
#[cycle(declare)]
#[tactic(auto, using(crate::proofs::TreeRows::member_is))]
fn member_passed<'s>(
    alloc: Global,
    standing: &mut Standing<'s>,
    members: Option<NamedMembers<'s>>,
    one: &MemberTree<'s>,
) -> Result<Option<NamedMembers<'s>>, AllocError>
    ensures { IfOk result (λ made. told (option_map named_members made) standing.new ≡ member_passed only_first (told (option_map named_members members.entry) standing.old) (member_of one.now)) }
{
    let ty = specified(
        alloc,
        standing,
        Site::OfMembers,
        none_allowed(),
        false,
        &one.specs,
    )?;
    let members = fields_passed(alloc, standing, &ty, members, &one.fields)?;
    Ok(members)
}

/// What a declaration of members declares, with the type of its specifiers.
#[cycle(declare)]
fn fields_passed<'s>(
    alloc: Global,
    standing: &mut Standing<'s>,
    ty: &Option<CType>,
    members: Option<NamedMembers<'s>>,
    fields: &[Field<'s>],
) -> Result<Option<NamedMembers<'s>>, AllocError>
    ensures { IfOk result (λ made. told (option_map named_members made) standing.new ≡ fields_passed only_first (option_map plain_type ty.now) (told (option_map named_members members.entry) standing.old) (field_row (map field_of fields.now))) }
{
    let mut members = members;
    for field in fields {
        members = field_passed(alloc, standing, ty, members, field)?;
    }
    Ok(members)
}

/// One member.
#[cycle(declare)]
#[tactic(auto, using(crate::proofs::TreeRows::field_is))]
fn field_passed<'s>(
    alloc: Global,
    standing: &mut Standing<'s>,
    ty: &Option<CType>,
    members: Option<NamedMembers<'s>>,
    field: &Field<'s>,
) -> Result<Option<NamedMembers<'s>>, AllocError>
    ensures { IfOk result (λ made. told (option_map named_members made) standing.new ≡ field_passed only_first (option_map plain_type ty.now) (told (option_map named_members members.entry) standing.old) (field_of field.now)) }
{
    let place = declarator_place(&field.declarator);
    let name = name_in(&field.declarator);
    let name_at = place_or(place, name);
    judge_width(alloc, standing, place, &field.width)?;
    let given = based_on(alloc, ty)?;
    let declared = declarator_passed(alloc, standing, name_at, given, &field.declarator)?;
    let sizeless = declares_function(&field.declarator) || declares_open_array(&field.declarator);
    standing.refuse_where(sizeless, SubsetCode::IncompleteType, name_at);
    let ty = member_declared(standing, name_at, declared);
    let members = with_member(standing, name_at, members, name, ty)?;
    Ok(members)
}

/// What the declarator `d` makes of a given type, from its specifiers to its name (C99 6.7.5); `name_at` is the place at which an
/// incomplete type is refused. `None` where it is refused, or where there is no type; a row that holds is noted.
///
/// # Errors
///
/// Out of memory.
#[cycle(declare)]
pub fn declarator_passed<'s>(
    alloc: Global,
    standing: &mut Standing<'s>,
    name_at: At,
    given: Option<Declared<'s>>,
    d: &Declarator<'s>,
) -> Result<Option<Declared<'s>>, AllocError>
    ensures { IfOk result (λ made. told (option_map plain_declared made) standing.new ≡ declarator_passed only_first name_at (told (option_map plain_declared given.entry) standing.old) (declarator_of d.now)) }
{
    match d {
        Declarator::Named(_) | Declarator::Unnamed(_) => Ok(given),
        Declarator::Pointer(at, qualifiers, inner) => {
            let given = pointer_declared(alloc, standing, *at, name_at, qualifiers, given)?;
            let made = declarator_passed(alloc, standing, name_at, given, inner)?;
            Ok(made)
        }
        Declarator::Parenthesised(_, inner) => {
            let made = declarator_passed(alloc, standing, name_at, given, inner)?;
            Ok(made)
        }
        Declarator::Array(_, inner, _, None) => {
            array_inside(standing, name_at, true, inner);
            let given = open_declared(element_declared(standing, name_at, given));
            let made = declarator_passed(alloc, standing, name_at, given, inner)?;
            Ok(made)
        }
        Declarator::Array(_, inner, _, Some(length)) => {
            array_inside(standing, name_at, false, inner);
            let element = element_declared(standing, name_at, given);
            let given = array_declared(alloc, standing, element, length)?;
            let made = declarator_passed(alloc, standing, name_at, given, inner)?;
            Ok(made)
        }
        Declarator::Function(at, inner, parentheses, all, more) => {
            let gives = result_declared(standing, *at, name_at, given);
            standing.refuse_where(*more, SubsetCode::NoPrototype, *parentheses);
            function_inside(standing, name_at, inner);
            let site = ParameterSite {
                parentheses: *parentheses,
                more: *more,
            };
            let given = function_passed(alloc, standing, site, gives, all)?;
            let made = declarator_passed(alloc, standing, name_at, Some(given), inner)?;
            Ok(made)
        }
    }
}

/// A function with a result and these parameters.
#[cycle(declare)]
fn function_passed<'s>(
    alloc: Global,
    standing: &mut Standing<'s>,
    site: ParameterSite,
    gives: Option<CType>,
    all: &[Parameter<'s>],
) -> Result<Declared<'s>, AllocError>
    ensures { IfOk result (λ made. told (Some (plain_declared made)) standing.new ≡ function_passed only_first site.parentheses site.more (option_map plain_type gives) (plain_standing standing.old) (parameter_row (map parameter_of all.now))) }
{
    standing.scope.enter()?;
    let parameters = all_parameters_passed(alloc, standing, site.parentheses, all)?;
    let list = list_of(all, site.more);
    let made = function_declared(alloc, standing, list, gives, parameters)?;
    Ok(made)
}

/// The parameters of a function: there are some, or the word `void` (C99 6.7.5.3p10, p14).
#[cycle(declare)]
fn all_parameters_passed<'s>(
    alloc: Global,
    standing: &mut Standing<'s>,
    at: At,
    all: &[Parameter<'s>],
) -> Result<Vec<PlacedParameter<'s>>, AllocError>
    ensures { IfOk result (λ listed. lists listed standing.new ≡ all_parameters_passed only_first (plain_standing standing.old) at (parameter_row (map parameter_of all.now))) }
{
    match all.first() {
        None => {
            standing.refuse(SubsetCode::NoPrototype, at);
            Ok(Vec::new(alloc))
        }
        Some(one) => {
            if all.len() == 1 {
                let only = only_parameter_passed(alloc, standing, one)?;
                Ok(only)
            } else {
                let parameters = parameters_passed(alloc, standing, all)?;
                Ok(parameters)
            }
        }
    }
}

/// A parameter that stands alone.
#[cycle(declare)]
fn only_parameter_passed<'s>(
    alloc: Global,
    standing: &mut Standing<'s>,
    one: &Parameter<'s>,
) -> Result<Vec<PlacedParameter<'s>>, AllocError>
    ensures { IfOk result (λ listed. lists listed standing.new ≡ only_parameter_passed only_first (plain_standing standing.old) (parameter_of one.now)) }
{
    let ty = specified(
        alloc,
        standing,
        Site::OfParameter,
        none_allowed(),
        false,
        &one.specs,
    )?;
    if is_no_parameter(&one.declarator, &ty) {
        return Ok(Vec::new(alloc));
    }
    let before = Vec::new(alloc);
    let parameters = typed_parameter_passed(alloc, standing, 0, before, ty, one)?;
    Ok(parameters)
}

/// Parameters where there are several.
#[cycle(declare)]
fn parameters_passed<'s>(
    alloc: Global,
    standing: &mut Standing<'s>,
    all: &[Parameter<'s>],
) -> Result<Vec<PlacedParameter<'s>>, AllocError>
    ensures { IfOk result (λ listed. lists listed standing.new ≡ parameters_passed only_first 0 (none_listed (plain_standing standing.old)) (parameter_row (map parameter_of all.now))) }
{
    let mut parameters = Vec::new(alloc);
    let mut number = 0;
    for one in all {
        parameters = one_parameter_passed(alloc, standing, number, parameters, one)?;
        number = next_number(number)?;
    }
    Ok(parameters)
}

/// One parameter, after those before.
#[cycle(declare)]
fn one_parameter_passed<'s>(
    alloc: Global,
    standing: &mut Standing<'s>,
    number: u32,
    before: Vec<PlacedParameter<'s>>,
    one: &Parameter<'s>,
) -> Result<Vec<PlacedParameter<'s>>, AllocError>
    ensures { IfOk result (λ listed. lists listed standing.new ≡ one_parameter_passed only_first number (lists before.entry standing.old) (parameter_of one.now)) }
{
    let ty = specified(
        alloc,
        standing,
        Site::OfParameter,
        none_allowed(),
        false,
        &one.specs,
    )?;
    let parameters = typed_parameter_passed(alloc, standing, number, before, ty, one)?;
    Ok(parameters)
}

/// One parameter with the type of its specifiers.
#[cycle(declare)]
fn typed_parameter_passed<'s>(
    alloc: Global,
    standing: &mut Standing<'s>,
    number: u32,
    before: Vec<PlacedParameter<'s>>,
    ty: Option<CType>,
    one: &Parameter<'s>,
) -> Result<Vec<PlacedParameter<'s>>, AllocError>
    ensures { IfOk result (λ listed. lists listed standing.new ≡ typed_parameter_passed only_first number (plain_parameters before.entry) (told (option_map plain_type ty) standing.old) one.now.at (declarator_of one.now.declarator)) }
{
    let name_at = place_or(one.at, name_in(&one.declarator));
    let given = based(ty);
    let declared = declarator_passed(alloc, standing, name_at, given, &one.declarator)?;
    let parameters = with_declared_parameter(alloc, standing, before, number, one, declared)?;
    Ok(parameters)
}
