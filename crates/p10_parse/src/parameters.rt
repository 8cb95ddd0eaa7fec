//! The parameters of a function, in scope in its body (C99 6.2.1).

ghost use Rattle.std.specs.Prelude.{◌≡◌, map, OnOk};
ghost use Rattle.p10_syn.specs.Trees.{specifier_row, member_row, enumerator_row, parameter_row};
ghost use Rattle.p10_syn.specs.Declaring.{is_only_name as only_names, in_body, after_parameters, after_specifiers, after_specifier, after_members, after_enumerators};
ghost use Rattle.p10_syn.specs.Built.{bare_specifier_of, bare_member_of, bare_enumerator_of, bare_declarator_of, bare_parameter_of};

use p10_pexpr::Scope;
use p10_syn::{Declarator, Enumerator, Member, Parameter, Spec};
use std::alloc::AllocError;

/// Puts into the scope the parameters that a declarator says first of its name.
#[tactic(auto, unfolding(p10_syn::specs::Built::bare_declarator_of))]
pub fn declare_parameters<'s>(
    scope: &mut Scope<'s>,
    declarator: &Declarator<'s>,
) -> Result<(), AllocError>
    ensures { OnOk result (scope.new ≡ in_body scope.old (bare_declarator_of declarator.now)) }
{
    match declarator {
        Declarator::Named(_) => Ok(()),
        Declarator::Unnamed(_) => Ok(()),
        Declarator::Pointer(_, _, inner) => declare_parameters(scope, inner),
        Declarator::Parenthesised(_, inner) => declare_parameters(scope, inner),
        Declarator::Array(_, inner, _, _) => declare_parameters(scope, inner),
        Declarator::Function(_, inner, _, parameters, _) => {
            if is_only_name(inner) {
                declare_each(scope, parameters.as_slice())
            } else {
                declare_parameters(scope, inner)
            }
        }
    }
}

/// Whether a declarator is a name alone, also in parentheses.
#[tactic(auto, unfolding(p10_syn::specs::Built::bare_declarator_of))]
fn is_only_name(declarator: &Declarator<'_>) -> bool
    ensures { result ≡ only_names (bare_declarator_of declarator.now) }
{
    match declarator {
        Declarator::Named(_) => true,
        Declarator::Parenthesised(_, inner) => is_only_name(inner),
        Declarator::Unnamed(_) => false,
        Declarator::Pointer(_, _, _) => false,
        Declarator::Array(_, _, _, _) => false,
        Declarator::Function(_, _, _, _, _) => false,
    }
}

/// Puts parameters into the scope, one after the other.
fn declare_each<'s>(scope: &mut Scope<'s>, parameters: &[Parameter<'s>]) -> Result<(), AllocError>
    ensures { OnOk result (scope.new ≡ after_parameters scope.old (parameter_row (map bare_parameter_of parameters.now))) }
{
    let mut rest = parameters;
    while let [first, others @ ..] = rest {
        declare_specifiers(scope, first.specs.as_slice())?;
        scope.declare(first.specs.as_slice(), &first.declarator)?;
        rest = others;
    }
    Ok(())
}

/// Puts the constants of enumerations in specifiers into the scope.
#[cycle(declaring)]
fn declare_specifiers<'s>(scope: &mut Scope<'s>, specs: &[Spec<'s>]) -> Result<(), AllocError>
    ensures { OnOk result (scope.new ≡ after_specifiers scope.old (specifier_row (map bare_specifier_of specs.now))) }
{
    let mut rest = specs;
    while let [first, others @ ..] = rest {
        declare_specifier(scope, first)?;
        rest = others;
    }
    Ok(())
}

#[cycle(declaring)]
#[tactic(auto, unfolding(p10_syn::specs::Built::bare_specifier_of), using(crate::proofs::ParameterSteps::structure_scope, crate::proofs::ParameterSteps::enumeration_scope, crate::proofs::ParameterSteps::structure_smaller))]
fn declare_specifier<'s>(scope: &mut Scope<'s>, spec: &Spec<'s>) -> Result<(), AllocError>
    ensures { OnOk result (scope.new ≡ after_specifier scope.old (bare_specifier_of spec.now)) }
{
    match spec {
        Spec::Keyword(_, _) => Ok(()),
        Spec::Typedef(_) => Ok(()),
        Spec::Structure(structure) => declare_members(scope, structure.members.as_slice()),
        Spec::Enumeration(enumeration) => declare_enumerators(
            scope,
            enumeration.enumerators.as_slice(),
        ),
    }
}

#[cycle(declaring)]
fn declare_members<'s>(scope: &mut Scope<'s>, members: &[Member<'s>]) -> Result<(), AllocError>
    ensures { OnOk result (scope.new ≡ after_members scope.old (member_row (map bare_member_of members.now))) }
{
    let mut rest = members;
    while let [first, others @ ..] = rest {
        declare_specifiers(scope, first.specs.as_slice())?;
        rest = others;
    }
    Ok(())
}

fn declare_enumerators<'s>(
    scope: &mut Scope<'s>,
    enumerators: &[Enumerator<'s>],
) -> Result<(), AllocError>
    ensures { OnOk result (scope.new ≡ after_enumerators scope.old (enumerator_row (map bare_enumerator_of enumerators.now))) }
{
    let mut rest = enumerators;
    while let [first, others @ ..] = rest {
        scope.add(first.name.text, false)?;
        rest = others;
    }
    Ok(())
}
