//! Results and parameters of functions in declarators, one at a time (C99 6.7.5.3).

ghost use Rattle.std.specs.Prelude.{◌≡◌, IfOk, option_map};
ghost use Rattle.p10_syn.specs.Built.{declarator_of};
ghost use Rattle.p10_core.specs.Types.{plain_type};
ghost use Rattle.p10_elabx.specs.First.{only_first};
ghost use Rattle.p10_elabd.specs.Shapes.{function_inside, result_type, result_declared, plain_parameter_type, parameter_type, parameter_declared};
ghost use Rattle.p10_elabd.specs.Views.{plain_standing, plain_declared, told};

use crate::declaration::Declared;
use crate::standing::Standing;
use p10_base::{At, SubsetCode};
use p10_core::{CType, TypeForm};
use p10_syn::Declarator;
use std::alloc::{AllocError, Global};

/// Notes what the declarator inside that of a function may not be by its form: a pointer to the function, an array of such
/// functions, or a function that gives one (C99 6.7.5.2p1, 6.7.5.3p1).
pub fn function_inside(standing: &mut Standing<'_>, name_at: At, d: &Declarator<'_>)
    ensures { plain_standing standing.new ≡ function_inside only_first name_at (declarator_of d.now) (plain_standing standing.old) }
{
    match d {
        Declarator::Named(_) | Declarator::Unnamed(_) => {}
        Declarator::Pointer(at, _, _) => standing.refuse(SubsetCode::BadPointer, *at),
        Declarator::Parenthesised(_, inner) => function_inside(standing, name_at, inner),
        Declarator::Array(_, _, _, _) | Declarator::Function(_, _, _, _, _) => standing.refuse(
            SubsetCode::IncompleteType,
            name_at,
        ),
    }
}

/// The result of a function: no structure and no array (C99 6.7.5.3p1); a function is refused by its form.
fn result_type<'s>(
    standing: &mut Standing<'s>,
    at: At,
    name_at: At,
    given: Declared<'s>,
) -> Option<CType>
    ensures { told (option_map plain_type result) standing.new ≡ result_type only_first at name_at (plain_declared given.entry) (plain_standing standing.old) }
{
    match given {
        Declared::Plain(ty) => match &ty.form {
            TypeForm::Struct(_) => {
                standing.refuse(SubsetCode::StructurePassed, at);
                None
            }
            TypeForm::Array(_, _) => {
                standing.refuse(SubsetCode::IncompleteType, name_at);
                None
            }
            TypeForm::Void | TypeForm::Int(_) | TypeForm::Pointer(_) => Some(ty),
        },
        Declared::OpenArray(_) => {
            standing.refuse(SubsetCode::IncompleteType, name_at);
            None
        }
        Declared::Function(_) | Declared::Refused(_) => None,
    }
}

/// A result whose type may be refused.
pub fn result_declared<'s>(
    standing: &mut Standing<'s>,
    at: At,
    name_at: At,
    given: Option<Declared<'s>>,
) -> Option<CType>
    ensures { told (option_map plain_type result) standing.new ≡ result_declared only_first at name_at (option_map plain_declared given.entry) (plain_standing standing.old) }
{
    match given {
        None => None,
        Some(given) => result_type(standing, at, name_at, given),
    }
}

/// The type of a parameter that is no function and no array without a length: that of an array is a pointer to its elements
/// (C99 6.7.5.3p7); a structure isn't passed, and `void` is no type of a parameter.
fn plain_parameter_type(
    standing: &mut Standing<'_>,
    at: At,
    name_at: At,
    ty: CType,
) -> Option<CType>
    ensures { told (option_map plain_type result) standing.new ≡ plain_parameter_type only_first at name_at (plain_type ty) (plain_standing standing.old) }
{
    let CType { is_const, form } = ty;
    match form {
        TypeForm::Struct(_) => {
            standing.refuse(SubsetCode::StructurePassed, at);
            None
        }
        TypeForm::Array(element, _) => Some(CType {
            is_const: false,
            form: TypeForm::Pointer(element),
        }),
        TypeForm::Void => {
            standing.refuse(SubsetCode::IncompleteType, name_at);
            None
        }
        TypeForm::Int(_) | TypeForm::Pointer(_) => Some(CType { is_const, form }),
    }
}

/// The type of a parameter; a function is refused by its form.
fn parameter_type<'s>(
    alloc: Global,
    standing: &mut Standing<'s>,
    at: At,
    name_at: At,
    given: Declared<'s>,
) -> Result<Option<CType>, AllocError>
    ensures { IfOk result (λ made. told (option_map plain_type made) standing.new ≡ parameter_type only_first at name_at (plain_declared given.entry) (plain_standing standing.old)) }
{
    match given {
        Declared::Plain(ty) => Ok(plain_parameter_type(standing, at, name_at, ty)),
        Declared::OpenArray(element) => Ok(Some(CType::pointer(alloc, element)?)),
        Declared::Function(_) | Declared::Refused(_) => Ok(None),
    }
}

/// The type of a parameter that may be refused.
pub fn parameter_declared<'s>(
    alloc: Global,
    standing: &mut Standing<'s>,
    at: At,
    name_at: At,
    given: Option<Declared<'s>>,
) -> Result<Option<CType>, AllocError>
    ensures { IfOk result (λ made. told (option_map plain_type made) standing.new ≡ parameter_declared only_first at name_at (option_map plain_declared given.entry) (plain_standing standing.old)) }
{
    match given {
        None => Ok(None),
        Some(given) => parameter_type(alloc, standing, at, name_at, given),
    }
}
