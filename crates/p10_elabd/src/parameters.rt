//! Parameters of functions, one at a time, and functions with them (C99 6.7.5.3).

ghost use Rattle.std.specs.Prelude.{◌≡◌, IfOk, Some, map, option_map};
ghost use Rattle.p10_syn.specs.Trees.{parameter_row};
ghost use Rattle.p10_syn.specs.Built.{identifier_of, declarator_of, parameter_of};
ghost use Rattle.p10_core.specs.Types.{plain_type};
ghost use Rattle.p10_elabx.specs.First.{only_first};
ghost use Rattle.p10_elabd.specs.Shapes.{among_parameters, list_of, known_parameters, function_declared};
ghost use Rattle.p10_elabd.specs.Declaring.{with_parameter, is_plain_void, is_no_parameter, with_declared_parameter};
ghost use Rattle.p10_elabd.specs.Views.{plain_standing, plain_declared, plain_known, plain_placed, plain_parameters, lists, told};

use crate::declaration::{
    Declared, DeclaredFunction, DeclaredParameter, ParameterList, PlacedParameter, RefusedFunction,
};
use crate::functions::parameter_declared;
use crate::shapes::{declares_function, name_in, place_or};
use crate::standing::Standing;
use p10_base::{At, SubsetCode};
use p10_core::{CType, TypeForm};
use p10_elabx::{Block, Named, declarator_place};
use p10_syn::{Declarator, Identifier, Parameter};
use std::alloc::{AllocError, Global};

/// Where the parameters of a function stand.
#[derive(Clone, Copy)]
pub struct ParameterSite {
    /// The parentheses round them.
    pub parentheses: At,
    /// Whether `...` stands after them.
    pub more: bool,
}

/// Declares the name of a parameter: it hides others up to the end of the declarator.
fn declare_parameter<'s>(
    alloc: Global,
    standing: &mut Standing<'s>,
    number: u32,
    name: Option<Identifier<'s>>,
    ty: &Option<CType>,
) -> Result<(), AllocError>
    ensures { IfOk result (λ _. plain_standing standing.new ≡ with_parameter only_first number (option_map identifier_of name.entry) (option_map plain_type ty.now) (plain_standing standing.old)) }
{
    match name {
        None => Ok(()),
        Some(name) => match ty {
            None => standing.declare(name, Named::Unknown),
            Some(ty) => {
                let ty = ty.copy(alloc)?;
                standing.declare(
                    name,
                    Named::Var {
                        number,
                        ty,
                        frame: false,
                    },
                )
            }
        },
    }
}

/// Whether what is declared is `void` without a name: as the only parameter it says that there are none (C99 6.7.5.3p10).
pub fn is_no_parameter(d: &Declarator<'_>, ty: &Option<CType>) -> bool
    ensures { result ≡ is_no_parameter (declarator_of d.now) (option_map plain_type ty.now) }
{
    match d {
        Declarator::Unnamed(_) => match ty {
            Some(ty) => is_plain_void(ty),
            None => false,
        },
        _ => false,
    }
}

/// Whether a type is `void` without a mark.
fn is_plain_void(ty: &CType) -> bool
    ensures { result ≡ is_plain_void (plain_type ty.now) }
{
    match &ty.form {
        TypeForm::Void => !ty.is_const,
        TypeForm::Int(_) | TypeForm::Pointer(_) | TypeForm::Array(_, _) | TypeForm::Struct(_) =>
            false,
    }
}

/// A parameter after others, by what its declarator made of the type of its specifiers.
pub fn with_declared_parameter<'s>(
    alloc: Global,
    standing: &mut Standing<'s>,
    before: Vec<PlacedParameter<'s>>,
    number: u32,
    parameter: &Parameter<'s>,
    given: Option<Declared<'s>>,
) -> Result<Vec<PlacedParameter<'s>>, AllocError>
    ensures { IfOk result (λ all. lists all standing.new ≡ with_declared_parameter only_first number (plain_parameters before.entry) parameter.now.at (declarator_of parameter.now.declarator) (told (option_map plain_declared given.entry) standing.old)) }
{
    let at = parameter.at;
    let declarator = &parameter.declarator;
    let name = name_in(declarator);
    let name_at = place_or(at, name);
    let place = declarator_place(declarator);
    standing.refuse_where(declares_function(declarator), SubsetCode::BadPointer, place);
    let ty = parameter_declared(alloc, standing, at, name_at, given)?;
    declare_parameter(alloc, standing, number, name, &ty)?;
    let mut all = before;
    all.push(PlacedParameter { at, name, ty })?;
    Ok(all)
}

/// In which form parameters are listed.
pub fn list_of(all: &[Parameter<'_>], more: bool) -> ParameterList
    ensures { result ≡ list_of (parameter_row (map parameter_of all.now)) more }
{
    match all.first() {
        None => ParameterList::Empty,
        Some(_) => {
            if more {
                ParameterList::Variadic
            } else {
                ParameterList::Fixed
            }
        }
    }
}

/// Parameters with their types, if each type is known.
fn known_parameters<'s>(
    alloc: Global,
    all: &[PlacedParameter<'s>],
) -> Result<Option<Vec<DeclaredParameter<'s>>>, AllocError>
    ensures { IfOk result (λ known. option_map plain_known known ≡ known_parameters (map plain_placed all.now)) }
{
    let mut known = Vec::new(alloc);
    for one in all {
        match &one.ty {
            Some(ty) => {
                let ty = ty.copy(alloc)?;
                known.push(DeclaredParameter {
                    at: one.at,
                    name: one.name,
                    ty,
                })?;
            }
            None => return Ok(None),
        }
    }
    Ok(Some(known))
}

/// A function with its parameters, whose names end with its declarator.
pub fn function_declared<'s>(
    alloc: Global,
    standing: &mut Standing<'s>,
    list: ParameterList,
    gives: Option<CType>,
    parameters: Vec<PlacedParameter<'s>>,
) -> Result<Declared<'s>, AllocError>
    ensures { IfOk result (λ made. told (Some (plain_declared made)) standing.new ≡ function_declared list (option_map plain_type gives) (plain_parameters parameters.entry) (plain_standing standing.old)) }
{
    let block = standing.scope.close(alloc)?;
    match list {
        ParameterList::Fixed => {
            let known = known_parameters(alloc, parameters.as_slice())?;
            let Block { names, tags } = block;
            match (gives, known) {
                (Some(result), Some(parameters)) => Ok(Declared::Function(DeclaredFunction {
                    parameters,
                    result,
                    names,
                    tags,
                })),
                (result, _) => Ok(Declared::Refused(RefusedFunction {
                    parameters,
                    list: ParameterList::Fixed,
                    result,
                })),
            }
        }
        ParameterList::Variadic | ParameterList::Empty => Ok(Declared::Refused(RefusedFunction {
            parameters,
            list,
            result: gives,
        })),
    }
}
