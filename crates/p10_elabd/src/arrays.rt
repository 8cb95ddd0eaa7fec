//! Arrays in declarators, one at a time (C99 6.7.5.2).

ghost use Rattle.std.specs.Prelude.{◌≡◌, IfOk, Ok, option_map};
ghost use Rattle.p10_syn.specs.Built.{expression_of, declarator_of};
ghost use Rattle.p10_core.specs.Types.{plain_type};
ghost use Rattle.p10_elabx.specs.First.{only_first, ruled, lift};
ghost use Rattle.p10_elabx.specs.TypeNames.{length_found};
ghost use Rattle.p10_elabx.specs.Built.{ruled_type};
ghost use Rattle.p10_elabd.specs.Standing.{noted};
ghost use Rattle.p10_elabd.specs.Expressions.{value_by};
ghost use Rattle.p10_elabd.specs.Shapes.{of_type, array_inside, array_with, array_declared, open_declared};
ghost use Rattle.p10_elabd.specs.Views.{plain_standing, plain_declared, ruled_declared, told};
ghost use Rattle.p10_elabd.specs.declared.standing.Standing.{Standing};

use crate::declaration::Declared;
use crate::expressions::{expression_value, noted};
use crate::standing::Standing;
use p10_base::{At, SubsetCode};
use p10_core::CType;
use p10_elabx::{Length, Problem, length_found, sized_array};
use p10_syn::{Declarator, Expr};
use std::alloc::{AllocError, Global};

/// Notes what the declarator inside that of an array may not be by its form: a function that gives it, or, where its length is lacking,
/// an array of it or a pointer to it (C99 6.7.5.2p1, 6.7.5.3p1).
pub fn array_inside(standing: &mut Standing<'_>, name_at: At, lacking: bool, d: &Declarator<'_>)
    ensures { plain_standing standing.new ≡ array_inside only_first name_at lacking (declarator_of d.now) (plain_standing standing.old) }
{
    match d {
        Declarator::Named(_) | Declarator::Unnamed(_) => {}
        Declarator::Parenthesised(_, inner) => array_inside(standing, name_at, lacking, inner),
        Declarator::Pointer(_, _, _) | Declarator::Array(_, _, _, _) => {
            standing.refuse_where(lacking, SubsetCode::IncompleteType, name_at);
        }
        Declarator::Function(_, _, _, _, _) => {
            standing.refuse(SubsetCode::IncompleteType, name_at);
        }
    }
}

/// A type as what is declared.
fn as_declared<'s>(found: Result<CType, Option<Problem>>) -> Result<Declared<'s>, Option<Problem>>
    ensures { ruled_declared result ≡ ruled (ruled_type found) (λ u. Ok (of_type u)) }
{
    match found {
        Ok(ty) => Ok(Declared::Plain(ty)),
        Err(problem) => Err(problem),
    }
}

/// What is found in a declarator, where a problem is noted.
fn declared_noted<'s>(
    standing: &mut Standing<'s>,
    found: Result<Declared<'s>, Option<Problem>>,
) -> Option<Declared<'s>>
    ensures { told (option_map plain_declared result) standing.new ≡ noted only_first (lift (ruled_declared found.entry)) (plain_standing standing.old) }
{
    match found {
        Ok(made) => Some(made),
        Err(problem) => {
            standing.note(problem);
            None
        }
    }
}

/// The length of an array; a problem is noted.
fn length_noted<'s>(
    alloc: Global,
    standing: &mut Standing<'s>,
    length: &Expr<'s>,
) -> Result<Option<Length>, AllocError>
    ensures { IfOk result (λ made. told made standing.new ≡ value_by only_first (plain_standing standing.old) (expression_of length.now) length_found) }
{
    match expression_value(alloc, standing, length)? {
        Ok(v) => Ok(noted(standing, length_found(&v))),
        Err(problem) => {
            standing.note(problem);
            Ok(None)
        }
    }
}

/// An array of elements with a length, where neither is refused: it is no larger than a type may be.
fn array_with<'s>(
    alloc: Global,
    standing: &mut Standing<'s>,
    element: Option<CType>,
    length: Option<Length>,
) -> Result<Option<Declared<'s>>, AllocError>
    ensures { IfOk result (λ made. told (option_map plain_declared made) standing.new ≡ array_with only_first (option_map plain_type element) length (plain_standing standing.old)) }
{
    match (element, length) {
        (Some(ty), Some(length)) => {
            standing.scope.types.are_whole();
            let found = sized_array(alloc, &standing.scope.types, ty, length)?;
            Ok(declared_noted(standing, as_declared(found)))
        }
        (_, _) => Ok(None),
    }
}

/// An array with a length, which is a constant of at least 1 whatever its elements are.
pub fn array_declared<'s>(
    alloc: Global,
    standing: &mut Standing<'s>,
    element: Option<CType>,
    length: &Expr<'s>,
) -> Result<Option<Declared<'s>>, AllocError>
    ensures { IfOk result (λ made. told (option_map plain_declared made) standing.new ≡ array_declared only_first (expression_of length.now) (told (option_map plain_type element) standing.old)) }
{
    let length = length_noted(alloc, standing, length)?;
    array_with(alloc, standing, element, length)
}

/// An array without a length.
pub fn open_declared<'s>(element: Option<CType>) -> Option<Declared<'s>>
    ensures { (s : Standing) → told (option_map plain_declared result) s ≡ open_declared (told (option_map plain_type element) s) }
{
    match element {
        None => None,
        Some(ty) => Some(Declared::OpenArray(ty)),
    }
}
