//! Functions' declarators with their parameters (C99 6.7.5.3).

ghost use Rattle.std.specs.Prelude.{◌≡◌, IfOk, Ok, map, option_map};
ghost use Rattle.p10_core.specs.Types.{plain_type};
ghost use Rattle.p10_syn.specs.Trees.{parameter_row};
ghost use Rattle.p10_syn.specs.Built.{declarator_of, parameter_of};
ghost use Rattle.p10_elabx.specs.First.{only_first, on, pair, lift, refused_where};
ghost use Rattle.p10_elabx.specs.TypeNames.{plain_parameter, name_place, declarator_place, is_of_aggregate, given_type, is_unnamed, is_alone, parameter_type, with_type, parameter_judged, with_parameter, no_parameters, lacks_prototype, function_judged, a_function_type};
ghost use Rattle.p10_elabx.specs.Built.{ruled_shape, ruled_type, ruled_named, ruled_types, judged_shape, plain_shape};

use crate::declarators::{declarator_place, is_of_aggregate, is_of_function, made_by, name_place};
use crate::judged::{joined, refusal, shape_refused};
use crate::problem::Problem;
use crate::shape::{Made, Shape};
use p10_base::{At, SubsetCode};
use p10_core::{CType, TypeForm};
use p10_syn::{Declarator, Parameter};
use std::alloc::{AllocError, Global};

/// Whether a declarator names nothing and adds nothing.
fn is_unnamed(d: &Declarator<'_>) -> bool
    ensures { result ≡ is_unnamed (declarator_of d.now) }
{
    matches!(d, Declarator::Unnamed(_))
}

/// Whether there is one parameter alone, whose declarator names nothing.
pub fn is_alone(parameters: &[Parameter<'_>]) -> bool
    ensures { result ≡ is_alone (parameter_row (map parameter_of parameters.now)) }
{
    match parameters.first() {
        Some(parameter) => parameters.len() == 1 && is_unnamed(&parameter.declarator),
        None => false,
    }
}

/// Whether a function's declarator is `()`, or has `...`.
pub fn lacks_prototype(parameters: &[Parameter<'_>], dots: bool) -> bool
    ensures { result ≡ lacks_prototype (parameter_row (map parameter_of parameters.now)) dots }
{
    match parameters.first() {
        Some(_) => dots,
        None => true,
    }
}

/// The type of a parameter; none of an unnamed `void` that stands alone.
fn parameter_type(
    alloc: Global,
    alone: bool,
    at: At,
    d: &Declarator<'_>,
    shape: Shape,
) -> Result<Result<Option<CType>, Option<Problem>>, AllocError>
    ensures { IfOk result (λ r. ruled_named r ≡ parameter_type alone at (name_place at (declarator_of d.now)) (declarator_place (declarator_of d.now)) (plain_shape shape)) }
{
    match shape {
        Shape::Plain(ty) => {
            let name_at = name_place(at, d);
            let found = plain_parameter(alloc, alone, at, name_at, ty)?;
            Ok(found)
        }
        Shape::OpenArray(ty) => Ok(Ok(Some(CType::pointer(alloc, ty)?))),
        Shape::Function(_, _) => Ok(Err(Some(Problem {
            code: SubsetCode::BadPointer,
            at: declarator_place(d),
        }))),
    }
}

/// The type of a parameter that has a type.
fn plain_parameter(
    alloc: Global,
    alone: bool,
    at: At,
    name_at: At,
    ty: CType,
) -> Result<Result<Option<CType>, Option<Problem>>, AllocError>
    ensures { IfOk result (λ r. ruled_named r ≡ plain_parameter alone at name_at (plain_type ty)) }
{
    let CType { is_const, form } = ty;
    match form {
        TypeForm::Void => {
            if alone {
                Ok(Ok(None))
            } else {
                Ok(Err(Some(Problem {
                    code: SubsetCode::IncompleteType,
                    at: name_at,
                })))
            }
        }
        TypeForm::Array(element, _) => {
            let ty = CType::pointer(alloc, Box::into_inner(element))?;
            Ok(Ok(Some(ty)))
        }
        TypeForm::Struct(_) => Ok(Err(Some(Problem {
            code: SubsetCode::StructurePassed,
            at,
        }))),
        TypeForm::Int(kind) => Ok(Ok(Some(CType {
            is_const,
            form: TypeForm::Int(kind),
        }))),
        TypeForm::Pointer(target) => Ok(Ok(Some(CType {
            is_const,
            form: TypeForm::Pointer(target),
        }))),
    }
}

/// The type of a parameter, if what its declarator makes is found.
fn type_found(
    alloc: Global,
    alone: bool,
    at: At,
    d: &Declarator<'_>,
    found: Result<Shape, Option<Problem>>,
) -> Result<Result<Option<CType>, Option<Problem>>, AllocError>
    ensures { IfOk result (λ r. lift (ruled_named r) ≡ on (lift (ruled_shape found)) (parameter_type alone at (name_place at (declarator_of d.now)) (declarator_place (declarator_of d.now)))) }
{
    match found {
        Ok(shape) => {
            let found = parameter_type(alloc, alone, at, d, shape)?;
            Ok(found)
        }
        Err(r) => Ok(Err(r)),
    }
}

/// What is found in a parameter.
#[tactic(auto, unfolding(crate::specs::TypeNames::parameter_judged))]
pub fn parameter_judged(
    alloc: Global,
    alone: bool,
    at: At,
    d: &Declarator<'_>,
    found: Result<Shape, Option<Problem>>,
) -> Result<Result<Option<CType>, Option<Problem>>, AllocError>
    ensures { IfOk result (λ r. lift (ruled_named r) ≡ parameter_judged only_first alone at (declarator_of d.now) (judged_shape found)) }
{
    let found = type_found(alloc, alone, at, d, found)?;
    let own = Problem {
        code: SubsetCode::BadPointer,
        at: declarator_place(d),
    };
    Ok(type_refused(is_of_function(made_by(Made::Nothing, d)), own, found))
}

/// A type that may be lacking, where a row on its form may hold.
fn type_refused(
    holds: bool,
    own: Problem,
    found: Result<Option<CType>, Option<Problem>>,
) -> Result<Option<CType>, Option<Problem>>
    ensures { lift (ruled_named result) ≡ refused_where only_first holds own.code own.at (lift (ruled_named found)) }
{
    match found {
        Ok(ty) => { if holds { Err(Some(own)) } else { Ok(ty) } }
        Err(r) => Err(refusal(holds, own, r)),
    }
}

/// One parameter more.
pub fn with_parameter(
    a: Result<Vec<CType>, Option<Problem>>,
    b: Result<Option<CType>, Option<Problem>>,
) -> Result<Result<Vec<CType>, Option<Problem>>, AllocError>
    ensures { IfOk result (λ r. lift (ruled_types r) ≡ with_parameter only_first (lift (ruled_types a)) (lift (ruled_named b))) }
{
    match (a, b) {
        (Ok(types), Ok(one)) => Ok(Ok(with_type(types, one)?)),
        (Ok(_), Err(q)) => Ok(Err(q)),
        (Err(r), Ok(_)) => Ok(Err(r)),
        (Err(r), Err(q)) => Ok(Err(joined(r, q))),
    }
}

/// Types with one more at the end, if there is one.
#[tactic(auto, using(crate::proofs::TreeRows::types_more))]
fn with_type(types: Vec<CType>, one: Option<CType>) -> Result<Vec<CType>, AllocError>
    ensures { IfOk result (λ ts. map plain_type ts.items ≡ with_type (map plain_type types.items) (option_map plain_type one)) }
{
    let mut types = types;
    if let Some(ty) = one {
        types.push(ty)?;
    }
    Ok(types)
}

/// The type that a function gives.
fn given_type(at: At, name_at: At, shape: Shape) -> Result<CType, Option<Problem>>
    ensures { ruled_type result ≡ given_type at name_at (plain_shape shape) }
{
    let incomplete = Problem {
        code: SubsetCode::IncompleteType,
        at: name_at,
    };
    match shape {
        Shape::Plain(ty) => match &ty.form {
            TypeForm::Void | TypeForm::Int(_) | TypeForm::Pointer(_) => Ok(ty),
            TypeForm::Array(_, _) => Err(Some(incomplete)),
            TypeForm::Struct(_) => Err(Some(Problem {
                code: SubsetCode::StructurePassed,
                at,
            })),
        },
        Shape::OpenArray(_) | Shape::Function(_, _) => Err(Some(incomplete)),
    }
}

/// The type that a function gives, if it is found.
fn given_found(
    at: At,
    name_at: At,
    found: Result<Shape, Option<Problem>>,
) -> Result<CType, Option<Problem>>
    ensures { lift (ruled_type result) ≡ on (lift (ruled_shape found)) (given_type at name_at) }
{
    match found {
        Ok(shape) => given_type(at, name_at, shape),
        Err(r) => Err(r),
    }
}

/// A function, if the types of its parameters and of its result are found.
fn function_found(
    a: Result<Vec<CType>, Option<Problem>>,
    b: Result<CType, Option<Problem>>,
) -> Result<Shape, Option<Problem>>
    ensures { lift (ruled_shape result) ≡ on (pair only_first (lift (ruled_types a)) (lift (ruled_type b))) (λ (ts, t). Ok (a_function_type ts t)) }
{
    match (a, b) {
        (Ok(parameters), Ok(ty)) => Ok(Shape::Function(parameters, ty)),
        (Ok(_), Err(q)) => Err(q),
        (Err(r), Ok(_)) => Err(r),
        (Err(r), Err(q)) => Err(joined(r, q)),
    }
}

/// What stands round a function's declarator, and where its parts stand.
#[derive(Clone, Copy, Debug)]
pub struct FunctionSite {
    pub at: At,
    /// Where an incomplete type is refused.
    pub name_at: At,
    /// The parentheses.
    pub parentheses: At,
    /// Whether it is `()`, or has `...`.
    pub lacking: bool,
    pub made: Made,
}

/// What is found in a function's declarator.
#[tactic(auto, unfolding(crate::specs::TypeNames::function_judged))]
pub fn function_judged(
    site: FunctionSite,
    parameters: Result<Vec<CType>, Option<Problem>>,
    found: Result<Shape, Option<Problem>>,
) -> Result<Shape, Option<Problem>>
    ensures { judged_shape result ≡ function_judged only_first site.at site.name_at site.parentheses site.lacking site.made (lift (ruled_types parameters)) (judged_shape found) }
{
    let given = given_found(site.at, site.name_at, found);
    let found = function_found(parameters, given);
    let incomplete = Problem {
        code: SubsetCode::IncompleteType,
        at: site.name_at,
    };
    let found = shape_refused(is_of_aggregate(site.made), incomplete, found);
    let unfinished = Problem {
        code: SubsetCode::NoPrototype,
        at: site.parentheses,
    };
    shape_refused(site.lacking, unfinished, found)
}
