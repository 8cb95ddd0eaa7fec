//! What declarators make of types (C99 6.7.5).

ghost use Rattle.std.specs.Prelude.{◌≡◌, IfOk, map};
ghost use Rattle.p10_core.specs.Types.{plain_type};
ghost use Rattle.p10_base.specs.declared.codes.SubsetCode.TheVariants as subset;
ghost use Rattle.p10_syn.specs.Built.{declarator_of, qualifier_of};
ghost use Rattle.p10_elabx.specs.TypeNames.{declarator_place, name_place, made_by, is_const_word, has_const_word, other_word, is_of_function, is_of_open_array, lacks_size, is_of_aggregate, pointed, pointer_judged, also_word};
ghost use Rattle.p10_elabx.specs.First.{only_first, on, lift};
ghost use Rattle.p10_elabx.specs.Built.{ruled_shape, judged_shape, plain_shape};

use crate::judged::shape_refused;
use crate::problem::Problem;
use crate::shape::{Made, Shape};
use p10_base::{At, SubsetCode};
use p10_core::{CType, TypeForm};
use p10_syn::{Declarator, Qualifier, Sign};
use std::alloc::{AllocError, Global};

/// The place of a declarator.
pub fn declarator_place(d: &Declarator<'_>) -> At
    ensures { result ≡ declarator_place (declarator_of d.now) }
{
    match d {
        Declarator::Named(name) => name.at,
        Declarator::Unnamed(at) => *at,
        Declarator::Pointer(at, _, _) => *at,
        Declarator::Parenthesised(at, _) => *at,
        Declarator::Array(at, _, _, _) => *at,
        Declarator::Function(at, _, _, _, _) => *at,
    }
}

/// Where an incomplete type is refused: at the declared name; where nothing is named, at a tree that is given.
pub fn name_place(otherwise: At, d: &Declarator<'_>) -> At
    ensures { result ≡ name_place otherwise (declarator_of d.now) }
{
    match d {
        Declarator::Named(name) => name.at,
        Declarator::Unnamed(_) => otherwise,
        Declarator::Pointer(_, _, inner) => name_place(otherwise, inner),
        Declarator::Parenthesised(_, inner) => name_place(otherwise, inner),
        Declarator::Array(_, inner, _, _) => name_place(otherwise, inner),
        Declarator::Function(_, inner, _, _, _) => name_place(otherwise, inner),
    }
}

/// What a declarator makes by its form, if it stands in one that makes something.
pub fn made_by(made: Made, d: &Declarator<'_>) -> Made
    ensures { result ≡ made_by made (declarator_of d.now) }
{
    match d {
        Declarator::Named(_) | Declarator::Unnamed(_) => made,
        Declarator::Pointer(_, _, inner) => made_by(Made::Pointer, inner),
        Declarator::Parenthesised(_, inner) => made_by(made, inner),
        Declarator::Array(_, inner, _, None) => made_by(Made::OpenArray, inner),
        Declarator::Array(_, inner, _, Some(_)) => made_by(Made::Array, inner),
        Declarator::Function(_, inner, _, _, _) => made_by(Made::Function, inner),
    }
}

/// Whether a qualifier is `const`.
fn is_const_word(sign: Sign) -> bool
    ensures { result ≡ is_const_word sign }
{
    matches!(sign, Sign::Const)
}

/// Whether `const` stands among the qualifiers of a pointer.
pub fn has_const_word(qualifiers: &[Qualifier]) -> bool
    ensures { result ≡ has_const_word (map qualifier_of qualifiers.now) }
{
    for qualifier in qualifiers {
        if is_const_word(qualifier.sign) {
            return true;
        }
    }
    false
}

/// Where the first qualifier of a pointer stands that isn't `const`.
pub fn other_word(qualifiers: &[Qualifier]) -> Option<At>
    ensures { result ≡ other_word (map qualifier_of qualifiers.now) }
{
    for qualifier in qualifiers {
        if !is_const_word(qualifier.sign) {
            return Some(qualifier.at);
        }
    }
    None
}

/// Whether a function stands round.
pub fn is_of_function(made: Made) -> bool
    ensures { result ≡ is_of_function made }
{
    matches!(made, Made::Function)
}

/// Whether an array without a length stands round.
pub fn is_of_open_array(made: Made) -> bool
    ensures { result ≡ is_of_open_array made }
{
    matches!(made, Made::OpenArray)
}

/// Whether what stands round has no size: a function, or an array without a length.
pub fn lacks_size(made: Made) -> bool
    ensures { result ≡ lacks_size made }
{
    matches!(made, Made::Function | Made::OpenArray)
}

/// Whether a function or an array stands round.
pub fn is_of_aggregate(made: Made) -> bool
    ensures { result ≡ is_of_aggregate made }
{
    matches!(made, Made::Function | Made::Array | Made::OpenArray)
}

/// A pointer to a type.
fn pointed(
    alloc: Global,
    at: At,
    name_at: At,
    qualifiers: &[Qualifier],
    shape: Shape,
) -> Result<Result<Shape, Option<Problem>>, AllocError>
    ensures { IfOk result (λ r. ruled_shape r ≡ pointed at name_at (map qualifier_of qualifiers.now) (plain_shape shape)) }
{
    match shape {
        Shape::Plain(ty) => {
            if ty.is_void() {
                Ok(Err(Some(Problem {
                    code: SubsetCode::BadPointer,
                    at,
                })))
            } else {
                let form = TypeForm::Pointer(Box::new(alloc, ty)?);
                Ok(Ok(Shape::Plain(CType {
                    is_const: has_const_word(qualifiers),
                    form,
                })))
            }
        }
        Shape::OpenArray(_) => Ok(Err(Some(Problem {
            code: SubsetCode::IncompleteType,
            at: name_at,
        }))),
        Shape::Function(_, _) => Ok(Err(Some(Problem {
            code: SubsetCode::BadPointer,
            at,
        }))),
    }
}

/// A pointer, if its type is found.
fn pointer_found(
    alloc: Global,
    at: At,
    name_at: At,
    qualifiers: &[Qualifier],
    found: Result<Shape, Option<Problem>>,
) -> Result<Result<Shape, Option<Problem>>, AllocError>
    ensures { IfOk result (λ r. lift (ruled_shape r) ≡ on (lift (ruled_shape found)) (pointed at name_at (map qualifier_of qualifiers.now))) }
{
    match found {
        Ok(shape) => {
            let found = pointed(alloc, at, name_at, qualifiers, shape)?;
            Ok(found)
        }
        Err(r) => Ok(Err(r)),
    }
}

/// What is found in a pointer.
#[tactic(auto, unfolding(crate::specs::TypeNames::pointer_judged))]
pub fn pointer_judged(
    alloc: Global,
    at: At,
    name_at: At,
    qualifiers: &[Qualifier],
    made: Made,
    found: Result<Shape, Option<Problem>>,
) -> Result<Result<Shape, Option<Problem>>, AllocError>
    ensures { IfOk result (λ r. judged_shape r ≡ pointer_judged only_first at name_at (map qualifier_of qualifiers.now) made (judged_shape found)) }
{
    let found = pointer_found(alloc, at, name_at, qualifiers, found)?;
    let found = word_refused(other_word(qualifiers), found);
    let incomplete = Problem {
        code: SubsetCode::IncompleteType,
        at: name_at,
    };
    let found = shape_refused(is_of_open_array(made), incomplete, found);
    let own = Problem {
        code: SubsetCode::BadPointer,
        at,
    };
    Ok(shape_refused(is_of_function(made), own, found))
}

/// A type, where a word of its declarator may be refused.
fn word_refused(
    word: Option<At>,
    found: Result<Shape, Option<Problem>>,
) -> Result<Shape, Option<Problem>>
    ensures { judged_shape result ≡ also_word only_first word subset.BadSpecifier (judged_shape found) }
{
    match word {
        None => found,
        Some(at) => {
            let own = Problem {
                code: SubsetCode::BadSpecifier,
                at,
            };
            shape_refused(true, own, found)
        }
    }
}
