//! What is found in allocations under casts, whose parts are judged (C99 7.20.3).

ghost use Rattle.std.specs.Prelude.{◌≡◌, IfOk, Ok, Some, None, option_map};
ghost use Rattle.p10_core.specs.Types.{plain_type, unqualified};
ghost use Rattle.p10_core.specs.Typed.{value, cast, built_in};
ghost use Rattle.p10_core.specs.Views.{plain_types, plain_value, plain_values};
ghost use Rattle.p10_core.specs.WholePrograms.{AreWholeStructures};
ghost use Rattle.p10_core.specs.declared.typed.Library.TheVariants.{Malloc};
ghost use Rattle.p10_elabx.specs.First.{refused, only_first, on, pair, lift};
ghost use Rattle.p10_elabx.specs.Calls.{points_to, count_arguments, allocation, element_count};
ghost use Rattle.p10_elabx.specs.Judging.{sized_shape, size_shape, shape_allocation, one_element, counted_elements, either_size, either_shape, two_sizes, other_allocation};
ghost use Rattle.p10_elabx.specs.Built.{plain_shape, ruled_operand, ruled_value, ruled_shape, ruled_type, ruled_size, plain_size, judged_operand, judged_value, judged_shape};

use crate::judged::{Judged, also_operand, joined};
use crate::operand::Operand;
use crate::parts::{both, stopped_after_two, without};
use crate::problem::Problem;
use crate::shape::Shape;
use crate::sizes::known_size;
use crate::values::converted;
use p10_base::{At, SubsetCode};
use p10_core::{CType, Library, TypeForm, Types, Value};
use p10_int::IntType;
use std::alloc::{AllocError, Global};

/// Where an allocation stands.
#[derive(Clone, Copy, Debug)]
pub struct Site {
    pub cast_at: At,
    pub call_at: At,
    pub name_at: At,
}

/// The type in an allocation: one that has a size, at its `sizeof`.
fn sized_shape(types: &Types<'_>, at: At, shape: Shape) -> Result<CType, Option<Problem>>
    requires { AreWholeStructures (plain_types types.now) }
    ensures { ruled_type result ≡ sized_shape (plain_types types.now) at (plain_shape shape) }
{
    let own = Problem {
        code: SubsetCode::NoSize,
        at,
    };
    match shape {
        Shape::Plain(ty) => {
            if known_size(types, &ty).is_some() {
                Ok(ty)
            } else {
                Err(Some(own))
            }
        }
        Shape::OpenArray(_) | Shape::Function(_, _) => Err(Some(own)),
    }
}

/// The type in an allocation, if it is found.
fn sized_found(
    types: &Types<'_>,
    at: At,
    found: Result<Shape, Option<Problem>>,
) -> Result<CType, Option<Problem>>
    requires { AreWholeStructures (plain_types types.now) }
    ensures { lift (ruled_type result) ≡ on (lift (ruled_shape found)) (sized_shape (plain_types types.now) at) }
{
    match found {
        Ok(shape) => sized_shape(types, at, shape),
        Err(r) => Err(r),
    }
}

/// Whether a cast's type is a pointer to a type, marks included.
fn points_to(ty: &CType, element: &CType) -> bool
    ensures { result ≡ points_to (plain_type ty.now) (plain_type element.now) }
{
    match &ty.form {
        TypeForm::Pointer(target) => target.is_same(element),
        _ => false,
    }
}

/// The number of elements as the only argument, or none.
fn count_arguments(alloc: Global, count: Option<Value>) -> Result<Vec<Value>, AllocError>
    ensures { IfOk result (λ vs. plain_values vs.items ≡ count_arguments (option_map plain_value count)) }
{
    let mut arguments = Vec::new(alloc);
    if let Some(v) = count {
        arguments.push(v)?;
    }
    Ok(arguments)
}

/// A call of an allocator under its cast, both of a type.
fn cast_call(
    alloc: Global,
    site: Site,
    ty: CType,
    function: Library,
    arguments: Vec<Value>,
) -> Result<Value, AllocError>
    ensures { IfOk result (λ v. plain_value v ≡ value site.cast_at (plain_type ty) (cast (value site.call_at (plain_type ty) (built_in site.name_at.span function (plain_values arguments.items))))) }
{
    let given = ty.copy(alloc)?;
    let call = Value::built_in(site.call_at, given, site.name_at.span, function, arguments);
    Value::cast(alloc, site.cast_at, ty, call)
}

/// An allocation of a number of elements, or of one, under a cast to a type.
fn allocated(
    alloc: Global,
    site: Site,
    ty: CType,
    function: Library,
    count: Option<Value>,
) -> Result<Value, AllocError>
    ensures { IfOk result (λ v. plain_value v ≡ value site.cast_at (unqualified (plain_type ty)) (cast (value site.call_at (unqualified (plain_type ty)) (built_in site.name_at.span function (count_arguments (option_map plain_value count)))))) }
{
    let arguments = count_arguments(alloc, count)?;
    let v = cast_call(alloc, site, ty.unqualified(), function, arguments)?;
    Ok(v)
}

/// An allocation of elements of a type under a cast.
fn allocation(
    alloc: Global,
    site: Site,
    ty: CType,
    function: Library,
    element: &CType,
    count: Option<Value>,
) -> Result<Result<Operand, Option<Problem>>, AllocError>
    ensures { IfOk result (λ r. ruled_operand r ≡ allocation site.cast_at (plain_type ty) site.call_at site.name_at function (plain_type element.now) (option_map plain_value count)) }
{
    if points_to(&ty, element) {
        let v = allocated(alloc, site, ty, function, count)?;
        Ok(Ok(Operand::Value(v)))
    } else {
        Ok(Err(Some(Problem {
            code: SubsetCode::BadAllocation,
            at: site.call_at,
        })))
    }
}

/// An allocation under a cast to what may be no type.
fn shape_allocation(
    alloc: Global,
    site: Site,
    function: Library,
    shape: Shape,
    element: &CType,
    count: Option<Value>,
) -> Result<Result<Operand, Option<Problem>>, AllocError>
    ensures { IfOk result (λ r. ruled_operand r ≡ shape_allocation site function (plain_shape shape) (plain_type element.now) (option_map plain_value count)) }
{
    match shape {
        Shape::Plain(ty) => {
            let found = allocation(alloc, site, ty, function, element, count)?;
            Ok(found)
        }
        Shape::OpenArray(_) | Shape::Function(_, _) => Ok(Err(Some(Problem {
            code: SubsetCode::BadAllocation,
            at: site.call_at,
        }))),
    }
}

/// An allocation of one element, if both types are found.
fn one_found(
    alloc: Global,
    site: Site,
    a: Result<Shape, Option<Problem>>,
    b: Result<CType, Option<Problem>>,
) -> Result<Result<Operand, Option<Problem>>, AllocError>
    ensures { IfOk result (λ r. lift (ruled_operand r) ≡ on (pair only_first (lift (ruled_shape a)) (lift (ruled_type b))) (λ (s, e). shape_allocation site Malloc s e None)) }
{
    match (a, b) {
        (Ok(shape), Ok(element)) => {
            let found = shape_allocation(alloc, site, Library::Malloc, shape, &element, None)?;
            Ok(found)
        }
        (Ok(_), Err(q)) => Ok(Err(q)),
        (Err(r), Ok(_)) => Ok(Err(r)),
        (Err(r), Err(q)) => Ok(Err(joined(r, q))),
    }
}

/// What is found in an allocation of `sizeof(T)` bytes.
#[tactic(auto, unfolding(crate::specs::Judging::one_element))]
pub fn one_element(
    alloc: Global,
    types: &Types<'_>,
    site: Site,
    found: Result<Shape, Option<Problem>>,
    at: At,
    element: Result<Shape, Option<Problem>>,
) -> Result<Judged<Operand>, AllocError>
    requires { AreWholeStructures (plain_types types.now) }
    ensures { IfOk result (λ j. judged_operand j ≡ one_element only_first (plain_types types.now) site (judged_shape found) at (judged_shape element)) }
{
    let element = sized_found(types, at, element);
    let found = one_found(alloc, site, found, element)?;
    Ok(Judged {
        found,
        acts: true,
        reads: false,
    })
}

/// The number of elements, as `unsigned long`; the row by which another type is refused is given.
fn element_count(
    alloc: Global,
    otherwise: Problem,
    v: Value,
) -> Result<Result<Value, Option<Problem>>, AllocError>
    ensures { IfOk result (λ r. ruled_value r ≡ element_count (refused otherwise.code otherwise.at) (plain_value v)) }
{
    if v.ty.is_integer() {
        Ok(Ok(converted(alloc, v, CType::integer(IntType::ULong))?))
    } else {
        Ok(Err(Some(otherwise)))
    }
}

/// The number of elements, if it is found.
fn count_found(
    alloc: Global,
    otherwise: Problem,
    found: Result<Value, Option<Problem>>,
) -> Result<Result<Value, Option<Problem>>, AllocError>
    ensures { IfOk result (λ r. lift (ruled_value r) ≡ on (lift (ruled_value found)) (element_count (refused otherwise.code otherwise.at))) }
{
    match found {
        Ok(v) => {
            let found = element_count(alloc, otherwise, v)?;
            Ok(found)
        }
        Err(r) => Ok(Err(r)),
    }
}

/// An allocation of elements, if both types and their number are found.
fn counted_found(
    alloc: Global,
    site: Site,
    function: Library,
    found: Result<Shape, Option<Problem>>,
    a: Result<CType, Option<Problem>>,
    b: Result<Value, Option<Problem>>,
) -> Result<Result<Operand, Option<Problem>>, AllocError>
    ensures { IfOk result (λ r. lift (ruled_operand r) ≡ on (pair only_first (lift (ruled_shape found)) (pair only_first (lift (ruled_type a)) (lift (ruled_value b)))) (λ (s, (e, n)). shape_allocation site function s e (Some n))) }
{
    match both(found, both(a, b)) {
        Ok(parts) => {
            let (shape, (element, count)) = parts;
            let found = shape_allocation(alloc, site, function, shape, &element, Some(count))?;
            Ok(found)
        }
        Err(r) => Ok(Err(r)),
    }
}

/// What is found in an allocation of elements: where it stands, its function and the row by which a number of another type is
/// refused.
#[derive(Clone, Copy, Debug)]
pub struct Elements {
    pub site: Site,
    pub function: Library,
    pub otherwise: Problem,
    /// The `sizeof` of the element.
    pub size_at: At,
}

/// What is found in an allocation of a number of elements.
#[tactic(auto, unfolding(crate::specs::Judging::counted_elements))]
pub fn counted_elements(
    alloc: Global,
    types: &Types<'_>,
    elements: Elements,
    found: Result<Shape, Option<Problem>>,
    element: Result<Shape, Option<Problem>>,
    count: Judged<Value>,
) -> Result<Judged<Operand>, AllocError>
    requires { AreWholeStructures (plain_types types.now) }
    ensures { IfOk result (λ j. judged_operand j ≡ counted_elements only_first (plain_types types.now) elements.site elements.function (refused elements.otherwise.code elements.otherwise.at) (judged_shape found) elements.size_at (judged_shape element) (judged_value count)) }
{
    let reads = count.reads;
    let element = sized_found(types, elements.size_at, element);
    let count = count_found(alloc, elements.otherwise, count.found)?;
    let found = counted_found(
        alloc,
        elements.site,
        elements.function,
        found,
        element,
        count,
    )?;
    Ok(Judged {
        found,
        acts: true,
        reads,
    })
}

/// The type in a `sizeof`, with its size as a number of elements.
fn size_shape(types: &Types<'_>, at: At, shape: Shape) -> Result<(CType, Value), Option<Problem>>
    requires { AreWholeStructures (plain_types types.now) }
    ensures { ruled_size result ≡ size_shape (plain_types types.now) at (plain_shape shape) }
{
    let own = Problem {
        code: SubsetCode::NoSize,
        at,
    };
    match shape {
        Shape::Plain(ty) => match known_size(types, &ty) {
            Some(size) => {
                let count = Value::constant(at, CType::integer(IntType::ULong), i128::from(size));
                Ok((ty, count))
            }
            None => Err(Some(own)),
        },
        Shape::OpenArray(_) | Shape::Function(_, _) => Err(Some(own)),
    }
}

/// The type in a `sizeof` with its size, if it is found.
fn size_found(
    types: &Types<'_>,
    at: At,
    found: Result<Shape, Option<Problem>>,
) -> Result<(CType, Value), Option<Problem>>
    requires { AreWholeStructures (plain_types types.now) }
    ensures { lift (ruled_size result) ≡ on (lift (ruled_shape found)) (size_shape (plain_types types.now) at) }
{
    match found {
        Ok(shape) => size_shape(types, at, shape),
        Err(r) => Err(r),
    }
}

/// Of two sizes the one of the cast's type counts as `sizeof(T)`, the right one if both are.
fn either_size(
    alloc: Global,
    site: Site,
    ty: CType,
    left: (CType, Value),
    right: (CType, Value),
) -> Result<Result<Operand, Option<Problem>>, AllocError>
    ensures { IfOk result (λ r. ruled_operand r ≡ either_size site (plain_type ty) (plain_size left) (plain_size right)) }
{
    let (left_type, left_size) = left;
    let (right_type, right_size) = right;
    if points_to(&ty, &right_type) {
        let found = allocation(
            alloc,
            site,
            ty,
            Library::Malloc,
            &right_type,
            Some(left_size),
        );
        without(right_size, found)
    } else {
        let found = allocation(
            alloc,
            site,
            ty,
            Library::Malloc,
            &left_type,
            Some(right_size),
        );
        without(left_size, found)
    }
}

/// The same under a cast to what may be no type.
fn either_shape(
    alloc: Global,
    site: Site,
    shape: Shape,
    left: (CType, Value),
    right: (CType, Value),
) -> Result<Result<Operand, Option<Problem>>, AllocError>
    ensures { IfOk result (λ r. ruled_operand r ≡ either_shape site (plain_shape shape) (plain_size left) (plain_size right)) }
{
    match shape {
        Shape::Plain(ty) => {
            let found = either_size(alloc, site, ty, left, right)?;
            Ok(found)
        }
        Shape::OpenArray(_) | Shape::Function(_, _) => {
            let own = Problem {
                code: SubsetCode::BadAllocation,
                at: site.call_at,
            };
            Ok(stopped_after_two(left, right, Some(own)))
        }
    }
}

/// An allocation by two sizes, if all types are found.
fn two_found(
    alloc: Global,
    site: Site,
    found: Result<Shape, Option<Problem>>,
    a: Result<(CType, Value), Option<Problem>>,
    b: Result<(CType, Value), Option<Problem>>,
) -> Result<Result<Operand, Option<Problem>>, AllocError>
    ensures { IfOk result (λ r. lift (ruled_operand r) ≡ on (pair only_first (lift (ruled_shape found)) (pair only_first (lift (ruled_size a)) (lift (ruled_size b)))) (λ (s, (a, b)). either_shape site s a b)) }
{
    match both(found, both(a, b)) {
        Ok(parts) => {
            let (shape, (left, right)) = parts;
            let found = either_shape(alloc, site, shape, left, right)?;
            Ok(found)
        }
        Err(r) => Ok(Err(r)),
    }
}

/// The type in a `sizeof`, and where that stands.
#[derive(Drop)]
pub struct SizeOf {
    pub at: At,
    pub found: Result<Shape, Option<Problem>>,
}

/// What is found in an allocation of `sizeof(A) * sizeof(B)` bytes.
#[tactic(auto, unfolding(crate::specs::Judging::two_sizes))]
pub fn two_sizes(
    alloc: Global,
    types: &Types<'_>,
    site: Site,
    found: Result<Shape, Option<Problem>>,
    left: SizeOf,
    right: SizeOf,
) -> Result<Judged<Operand>, AllocError>
    requires { AreWholeStructures (plain_types types.now) }
    ensures { IfOk result (λ j. judged_operand j ≡ two_sizes only_first (plain_types types.now) site (judged_shape found) left.at (judged_shape left.found) right.at (judged_shape right.found)) }
{
    let left = size_found(types, left.at, left.found);
    let right = size_found(types, right.at, right.found);
    let found = two_found(alloc, site, found, left, right)?;
    Ok(Judged {
        found,
        acts: true,
        reads: false,
    })
}

/// The rows that hold in a cast's type and in an allocation of another form.
fn other_found(
    found: Result<Shape, Option<Problem>>,
    call: Result<Operand, Option<Problem>>,
) -> Result<Operand, Option<Problem>>
    ensures { lift (ruled_operand result) ≡ on (pair only_first (lift (ruled_shape found)) (lift (ruled_operand call))) (λ both. Ok both.1) }
{
    match both(found, call) {
        Ok(parts) => {
            let (shape, operand) = parts;
            without(shape, Ok(operand))
        }
        Err(r) => Err(r),
    }
}

/// What is found in an allocation of another form.
#[tactic(auto, unfolding(crate::specs::Judging::other_allocation))]
pub fn other_allocation(
    site: Site,
    found: Result<Shape, Option<Problem>>,
    j: Judged<Operand>,
) -> Judged<Operand>
    ensures { judged_operand result ≡ other_allocation only_first site (judged_shape found) (judged_operand j) }
{
    let seen = also_operand(true, SubsetCode::BadAllocation, site.call_at, j);
    Judged {
        found: other_found(found, seen.found),
        acts: seen.acts,
        reads: seen.reads,
    }
}
