//! The places of declarators.

ghost use Rattle.std.specs.Prelude.{◌≡◌, ◌+◌, ◌*◌, ◌<◌, ◌^◌, length, map};
ghost use Rattle.p10_syn.specs.Bare.{bare_qualifier, bare_qualifiers, bare_declarator, bare_parameters, bare_parameter};
ghost use Rattle.p10_syn.specs.Built.{qualifier_of, declarator_of, parameter_of};
ghost use Rattle.p10_syn.specs.Counts.{count_bool, count_declarator, count_parameters, count_parameter};
ghost use Rattle.p10_syn.specs.Places.{locate_qualifier, locate_qualifiers, locate_declarator, locate_parameters, locate_parameter};
ghost use Rattle.p10_place.specs.Roots.{source_of};
ghost use Rattle.p10_place.specs.private.Lists.{parameters_in};

use crate::expression::{comma_before, set_name, set_optional};
use crate::put::put;
use crate::root::{NOWHERE, Root};
use crate::specifier::set_specifiers;
use p10_syn::{Declarator, Parameter, Qualifier};
use std::mem::replace;

/// Sets the places in a declarator; a name that is left out stands before word `first`.
#[cycle(setting)]
pub(crate) fn set_declarator(
    root: &Root<'_, '_>,
    first: usize,
    declarator: &mut Declarator<'_>,
) -> usize
    requires { first + count_declarator (bare_declarator (declarator_of declarator.old)) < 2 ^ 64 }
    ensures placed { declarator_of declarator.new ≡ locate_declarator (source_of root.now) first (bare_declarator (declarator_of declarator.old)) }
    ensures past { result ≡ first + count_declarator (bare_declarator (declarator_of declarator.old)) }
{
    let taken = replace(declarator, Declarator::Unnamed(NOWHERE));
    let (placed, past) = set_parts(root, first, taken);
    put(declarator, placed);
    past
}

/// A declarator with its places set, and the number of the word past it.
#[cycle(setting)]
fn set_parts<'s>(
    root: &Root<'_, '_>,
    first: usize,
    declarator: Declarator<'s>,
) -> (Declarator<'s>, usize)
    requires { first + count_declarator (bare_declarator (declarator_of declarator)) < 2 ^ 64 }
    ensures placed { declarator_of result.0 ≡ locate_declarator (source_of root.now) first (bare_declarator (declarator_of declarator.entry)) }
    ensures past { result.1 ≡ first + count_declarator (bare_declarator (declarator_of declarator.entry)) }
{
    match declarator {
        Declarator::Named(mut name) => {
            let past = set_name(root, first, &mut name);
            (Declarator::Named(name), past)
        }
        Declarator::Unnamed(_) => (Declarator::Unnamed(root.place_between(first, first)), first),
        Declarator::Pointer(_, mut qualifiers, mut inner) => {
            let past = set_qualifiers(root, first + 1, &mut qualifiers);
            let past = set_declarator(root, past, &mut inner);
            let at = root.place_between(first, past);
            (Declarator::Pointer(at, qualifiers, inner), past)
        }
        Declarator::Parenthesised(_, mut inner) => {
            let past = set_declarator(root, first + 1, &mut inner) + 1;
            let at = root.place_between(first, past);
            (Declarator::Parenthesised(at, inner), past)
        }
        Declarator::Array(_, mut inner, _, mut length) => {
            let bracket = set_declarator(root, first, &mut inner);
            let past = set_optional(root, bracket + 1, &mut length) + 1;
            let at = root.place_between(first, past);
            let brackets = root.place_between(bracket, past);
            (Declarator::Array(at, inner, brackets, length), past)
        }
        Declarator::Function(_, mut inner, _, mut parameters, has_ellipsis) => {
            let open = set_declarator(root, first, &mut inner);
            let past = set_parameters(root, open + 1, &mut parameters) + ellipsis(has_ellipsis) + 1;
            let at = root.place_between(first, past);
            let list = root.place_between(open, past);
            (
                Declarator::Function(at, inner, list, parameters, has_ellipsis),
                past,
            )
        }
    }
}

/// Sets the places of qualifiers one after the other.
fn set_qualifiers(root: &Root<'_, '_>, first: usize, qualifiers: &mut Vec<Qualifier>) -> usize
    requires { first + length (bare_qualifiers (map qualifier_of qualifiers.old.items)) < 2 ^ 64 }
    ensures placed { map qualifier_of qualifiers.new.items ≡ locate_qualifiers (source_of root.now) first (bare_qualifiers (map qualifier_of qualifiers.old.items)) }
    ensures past { result ≡ first + length (bare_qualifiers (map qualifier_of qualifiers.old.items)) }
{
    let mut past = first;
    for i in 0..qualifiers.len() {
        past = set_qualifier(root, past, &mut qualifiers[i]);
    }
    past
}

/// Sets the place of a qualifier.
fn set_qualifier(root: &Root<'_, '_>, first: usize, qualifier: &mut Qualifier) -> usize
    requires { first + 1 < 2 ^ 64 }
    ensures placed { qualifier_of qualifier.new ≡ locate_qualifier (source_of root.now) first (bare_qualifier (qualifier_of qualifier.old)) }
    ensures past { result ≡ first + 1 }
{
    qualifier.at = root.place_between(first, first + 1);
    first + 1
}

/// How many words `, ...` has, if it is there.
fn ellipsis(is_there: bool) -> usize
    ensures { result ≡ 2 * count_bool is_there }
{
    if is_there { 2 } else { 0 }
}

/// Sets the places in the parameters of a function.
#[cycle(setting)]
fn set_parameters(root: &Root<'_, '_>, first: usize, parameters: &mut Vec<Parameter<'_>>) -> usize
    requires { first + count_parameters (bare_parameters (parameters_in parameters.old)) < 2 ^ 64 }
    ensures placed { parameters_in parameters.new ≡ locate_parameters (source_of root.now) first (bare_parameters (parameters_in parameters.old)) }
    ensures past { result ≡ first + count_parameters (bare_parameters (parameters_in parameters.old)) }
{
    let mut past = first;
    for i in 0..parameters.len() {
        past = set_parameter(root, past + comma_before(i), &mut parameters[i]);
    }
    past
}

/// Sets the places in a parameter.
#[cycle(setting)]
fn set_parameter(root: &Root<'_, '_>, first: usize, parameter: &mut Parameter<'_>) -> usize
    requires { first + count_parameter (bare_parameter (parameter_of parameter.old)) < 2 ^ 64 }
    ensures placed { parameter_of parameter.new ≡ locate_parameter (source_of root.now) first (bare_parameter (parameter_of parameter.old)) }
    ensures past { result ≡ first + count_parameter (bare_parameter (parameter_of parameter.old)) }
{
    let past = set_specifiers(root, first, &mut parameter.specs);
    let past = set_declarator(root, past, &mut parameter.declarator);
    parameter.at = root.place_between(first, past);
    past
}
