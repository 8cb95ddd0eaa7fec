//! What declarators declare, by their form (C99 6.7.5).

ghost use Rattle.std.specs.Prelude.{◌≡◌, option_map};
ghost use Rattle.p10_syn.specs.Built.{identifier_of, declarator_of};
ghost use Rattle.p10_elabd.specs.Shapes.{name_in, place_or, function_from, declares_function, declares_open_array, has_parameters, is_plain_name};

use p10_base::At;
use p10_elabx::{Made, is_of_open_array, made_by};
use p10_syn::{Declarator, Identifier};

/// The name that a declarator declares.
pub fn name_in<'s>(d: &Declarator<'s>) -> Option<Identifier<'s>>
    ensures { option_map identifier_of result ≡ name_in (declarator_of d.now) }
{
    match d {
        Declarator::Named(name) => Some(*name),
        Declarator::Unnamed(_) => None,
        Declarator::Pointer(_, _, inner) => name_in(inner),
        Declarator::Parenthesised(_, inner) => name_in(inner),
        Declarator::Array(_, inner, _, _) => name_in(inner),
        Declarator::Function(_, inner, _, _, _) => name_in(inner),
    }
}

/// Where a name stands; where there is none, a given tree.
pub fn place_or(at: At, name: Option<Identifier<'_>>) -> At
    ensures { result ≡ place_or at (option_map identifier_of name.entry) }
{
    match name {
        None => at,
        Some(name) => name.at,
    }
}

/// Whether a declarator declares a function: what stands directly after its name are parameters.
pub fn declares_function(d: &Declarator<'_>) -> bool
    ensures { result ≡ declares_function (declarator_of d.now) }
{
    function_from(false, d)
}

/// Whether a declarator declares a function, where it is known whether parameters stand directly round it.
fn function_from(found: bool, d: &Declarator<'_>) -> bool
    ensures { result ≡ function_from found (declarator_of d.now) }
{
    match d {
        Declarator::Named(_) | Declarator::Unnamed(_) => found,
        Declarator::Pointer(_, _, inner) => function_from(false, inner),
        Declarator::Parenthesised(_, inner) => function_from(found, inner),
        Declarator::Array(_, inner, _, _) => function_from(false, inner),
        Declarator::Function(_, inner, _, _, _) => function_from(true, inner),
    }
}

/// Whether a declarator declares an array without a length.
pub fn declares_open_array(d: &Declarator<'_>) -> bool
    ensures { result ≡ declares_open_array (declarator_of d.now) }
{
    is_of_open_array(made_by(Made::Nothing, d))
}

/// Whether a function's parameters stand anywhere in a declarator.
pub fn has_parameters(d: &Declarator<'_>) -> bool
    ensures { result ≡ has_parameters (declarator_of d.now) }
{
    match d {
        Declarator::Named(_) | Declarator::Unnamed(_) => false,
        Declarator::Pointer(_, _, inner) => has_parameters(inner),
        Declarator::Parenthesised(_, inner) => has_parameters(inner),
        Declarator::Array(_, inner, _, _) => has_parameters(inner),
        Declarator::Function(_, _, _, _, _) => true,
    }
}

/// Whether a declarator is a name alone, perhaps in parentheses.
pub fn is_plain_name(d: &Declarator<'_>) -> bool
    ensures { result ≡ is_plain_name (declarator_of d.now) }
{
    match d {
        Declarator::Named(_) => true,
        Declarator::Parenthesised(_, inner) => is_plain_name(inner),
        Declarator::Unnamed(_)
        | Declarator::Pointer(_, _, _)
        | Declarator::Array(_, _, _, _)
        | Declarator::Function(_, _, _, _, _) => false,
    }
}
