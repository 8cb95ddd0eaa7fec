//! What is found in calls whose arguments are judged (C99 6.5.2.2).

ghost use Rattle.std.specs.Prelude.{◌≡◌, IfOk, option_map, option_copied, map, length, slice_get};
ghost use Rattle.p10_core.specs.Types.{plain_type};
ghost use Rattle.p10_core.specs.Typed.{PlainValues};
ghost use Rattle.p10_core.specs.Views.{plain_value, plain_values};
ghost use Rattle.p10_elabx.specs.First.{only_first, on, pair, lift, nothing_said};
ghost use Rattle.p10_syn.specs.Built.{identifier_of};
ghost use Rattle.p10_elabx.specs.Views.{meaning_of};
ghost use Rattle.p10_elabx.specs.PlainScopes.{scope_in};
ghost use Rattle.p10_elabx.specs.Judging.{memory_called, is_memory};
ghost use Rattle.p10_elabx.specs.Calls.{of_type, no_arguments, callee_of, undeclared, wants_of, wanted_of, library_wants, library_result, pointer_value, wanted_value, argument_judged, with_value, with_argument, call_problem, call_value, is_assert, is_allocator, is_counted, with_problem, call_judged, operand_call, other_call};
ghost use Rattle.p10_elabx.specs.Built.{plain_callee, plain_wanted, plain_wants, plain_listed, ruled_operand, ruled_value, ruled_values, judged_operand, judged_value};

use crate::callee::{Callee, Wanted, Wants};
use crate::judged::{Judged, Listed, also_operand, joined};
use crate::named::Named;
use crate::names::library_named;
use crate::operand::Operand;
use crate::operators::fitted;
use crate::parts::{both, stopped, unused};
use crate::problem::Problem;
use crate::situation::Situation;
use crate::values::converted;
use p10_base::{At, SubsetCode};
use p10_core::{CType, Library, Value, is_null};
use p10_int::IntType;
use p10_syn::Identifier;
use std::alloc::{AllocError, Global};

/// What a name stands for where it is called.
pub fn callee_of<'c>(what: Option<&'c Named>, name: &[u8]) -> Callee<'c>
    ensures { plain_callee result ≡ callee_of (option_map meaning_of (option_copied what.entry)) name.now }
{
    match what {
        None => match library_named(name) {
            None => Callee::NotDeclared,
            Some(function) => Callee::Library(function),
        },
        Some(
            Named::Function {
                number,
                params,
                result,
            },
        ) => Callee::Program {
            number: *number,
            params: params.as_slice(),
            result,
        },
        Some(Named::Unknown) => Callee::Refused,
        Some(_) => Callee::NoFunction,
    }
}

/// How many arguments a library function takes.
fn library_count(function: Library) -> usize
    ensures { result ≡ length (library_wants function) }
{
    match function {
        Library::Getchar => 0,
        Library::Assert | Library::CAssert | Library::Putchar | Library::Malloc | Library::Free =>
            1,
        Library::Calloc => 2,
    }
}

/// What is asked of the arguments of a call, where their number is right; else nothing.
pub fn wanted_of<'c>(callee: &Callee<'c>, count: usize) -> Wants<'c>
    ensures { plain_wants result ≡ wanted_of (wants_of (plain_callee callee.now)) count }
{
    match callee {
        Callee::Program {
            number: _,
            params,
            result: _,
        } => {
            if params.len() == count {
                Wants::Types(*params)
            } else {
                Wants::Nothing
            }
        }
        Callee::Library(function) => {
            if library_count(*function) == count {
                Wants::Library(*function)
            } else {
                Wants::Nothing
            }
        }
        Callee::NotDeclared | Callee::NoFunction | Callee::Refused => Wants::Nothing,
    }
}

/// What is asked of one of the arguments.
pub fn wanted_at<'c>(wants: Wants<'c>, i: usize) -> Option<Wanted<'c>>
    ensures { option_map plain_wanted result ≡ slice_get (plain_wants wants.entry) i }
{
    match wants {
        Wants::Nothing => None,
        Wants::Types(types) => type_wanted(types, i),
        Wants::Library(function) => library_wanted(function, i),
    }
}

/// That an argument fits the type of its parameter.
fn type_wanted(types: &[CType], i: usize) -> Option<Wanted<'_>>
    ensures { option_map plain_wanted result ≡ slice_get (map of_type (map plain_type types.now)) i }
{
    match type_at(types, i) {
        Some(ty) => Some(Wanted::Plain(ty)),
        None => None,
    }
}

/// The type of a parameter.
#[tactic(auto, using(crate::proofs::Asked::type_at_is))]
fn type_at(types: &[CType], i: usize) -> Option<&CType>
    ensures { option_map plain_type (option_copied result) ≡ slice_get (map plain_type types.now) i }
{
    types.get(i)
}

/// What a library function asks of one of its arguments.
fn library_wanted<'c>(function: Library, i: usize) -> Option<Wanted<'c>>
    ensures { option_map plain_wanted result ≡ slice_get (library_wants function) i }
{
    match (function, i) {
        (Library::Assert | Library::CAssert, 0) => Some(Wanted::Scalar),
        (Library::Putchar, 0) => Some(Wanted::Integer),
        (Library::Malloc, 0) => Some(Wanted::Anything),
        (Library::Calloc, 0 | 1) => Some(Wanted::Anything),
        (Library::Free, 0) => Some(Wanted::Pointer),
        _ => None,
    }
}

/// A pointer, or a null constant as a pointer.
fn pointer_value(alloc: Global, v: Value) -> Result<Result<Value, Option<Problem>>, AllocError>
    ensures { IfOk result (λ r. ruled_value r ≡ pointer_value (plain_value v)) }
{
    if v.ty.is_pointer() {
        return Ok(Ok(v));
    }
    if is_null(&v) {
        match CType::pointer(alloc, CType::integer(IntType::Char)) {
            Ok(ty) => Ok(Ok(converted(alloc, v, ty)?)),
            Err(trouble) => stopped(v, trouble),
        }
    } else {
        let own = Problem {
            code: SubsetCode::TypesDiffer,
            at: v.at,
        };
        Ok(stopped(v, Some(own)))
    }
}

/// An argument of which something is asked.
fn wanted_value(
    alloc: Global,
    wanted: Option<Wanted<'_>>,
    v: Value,
) -> Result<Result<Value, Option<Problem>>, AllocError>
    ensures { IfOk result (λ r. ruled_value r ≡ wanted_value (option_map plain_wanted wanted.entry) (plain_value v)) }
{
    match wanted {
        None | Some(Wanted::Anything) => Ok(Ok(v)),
        Some(Wanted::Plain(ty)) => {
            let found = fitted(alloc, v.at, v, ty)?;
            Ok(found)
        }
        Some(Wanted::Integer) => {
            let found = fitted(alloc, v.at, v, &CType::integer(IntType::Int))?;
            Ok(found)
        }
        Some(Wanted::Scalar) => {
            if v.ty.is_scalar() {
                Ok(Ok(v))
            } else {
                let own = Problem {
                    code: SubsetCode::TypesDiffer,
                    at: v.at,
                };
                Ok(stopped(v, Some(own)))
            }
        }
        Some(Wanted::Pointer) => {
            let found = pointer_value(alloc, v)?;
            Ok(found)
        }
    }
}

/// What is found in an argument of which something is asked.
#[tactic(auto, unfolding(crate::specs::Calls::argument_judged))]
pub fn argument_judged(
    alloc: Global,
    wanted: Option<Wanted<'_>>,
    j: Judged<Value>,
) -> Result<Judged<Value>, AllocError>
    ensures { IfOk result (λ r. judged_value r ≡ argument_judged (option_map plain_wanted wanted.entry) (judged_value j)) }
{
    let Judged { found, acts, reads } = j;
    let found = match found {
        Ok(v) => wanted_value(alloc, wanted, v)?,
        Err(r) => Err(r),
    };
    Ok(Judged { found, acts, reads })
}

/// One value more, if all are found.
#[tactic(auto, using(crate::proofs::TreeRows::values_more))]
fn value_added(
    a: Result<Vec<Value>, Option<Problem>>,
    b: Result<Value, Option<Problem>>,
) -> Result<Result<Vec<Value>, Option<Problem>>, AllocError>
    ensures { IfOk result (λ r. lift (ruled_values r) ≡ on (pair only_first (lift (ruled_values a)) (lift (ruled_value b))) (λ (vs, v). Ok (with_value vs v))) }
{
    match (a, b) {
        (Ok(mut values), Ok(v)) => {
            values.push(v)?;
            Ok(Ok(values))
        }
        (Ok(_), Err(q)) => Ok(Err(q)),
        (Err(r), Ok(_)) => Ok(Err(r)),
        (Err(r), Err(q)) => Ok(Err(joined(r, q))),
    }
}

/// Before the first argument.
pub fn no_arguments(alloc: Global) -> Listed
    ensures { plain_listed result ≡ no_arguments }
{
    Listed {
        found: Ok(Vec::new(alloc)),
        acts: false,
        reads: false,
        unordered: false,
    }
}

/// One argument more.
#[tactic(auto, unfolding(crate::specs::Calls::with_argument))]
pub fn with_argument(list: Listed, j: Judged<Value>) -> Result<Listed, AllocError>
    ensures { IfOk result (λ k. plain_listed k ≡ with_argument only_first (plain_listed list) (judged_value j)) }
{
    let unordered = list.unordered
        || ((list.acts && (j.acts || j.reads)) || ((list.acts || list.reads) && j.acts));
    let acts = list.acts || j.acts;
    let reads = list.reads || j.reads;
    let found = value_added(list.found, j.found)?;
    Ok(Listed {
        found,
        acts,
        reads,
        unordered,
    })
}

/// The row on the form of a call, if one holds: an unknown name, a wrong number of arguments, or no function.
fn call_problem(at: At, name_at: At, callee: &Callee<'_>, count: usize) -> Option<Problem>
    ensures { result ≡ call_problem at name_at (plain_callee callee.now) count }
{
    match callee {
        Callee::NotDeclared => Some(Problem {
            code: SubsetCode::UnknownName,
            at: name_at,
        }),
        Callee::NoFunction => Some(Problem {
            code: SubsetCode::BadCallee,
            at,
        }),
        Callee::Refused => None,
        Callee::Program {
            number: _,
            params,
            result: _,
        } => {
            if params.len() == count {
                None
            } else {
                Some(Problem {
                    code: SubsetCode::WrongArguments,
                    at,
                })
            }
        }
        Callee::Library(function) => {
            if library_count(*function) == count {
                None
            } else {
                Some(Problem {
                    code: SubsetCode::WrongArguments,
                    at,
                })
            }
        }
    }
}

/// An operand, where a row on its form may hold.
fn with_problem(problem: Option<Problem>, j: Judged<Operand>) -> Judged<Operand>
    ensures { judged_operand result ≡ with_problem only_first problem (judged_operand j) }
{
    match problem {
        None => j,
        Some(r) => also_operand(true, r.code, r.at, j),
    }
}

/// The type of what a library function gives; an allocation's is that of its cast.
fn library_result(function: Library) -> CType
    ensures { plain_type result ≡ library_result function }
{
    match function {
        Library::CAssert | Library::Getchar | Library::Putchar => CType::integer(IntType::Int),
        Library::Assert | Library::Malloc | Library::Calloc | Library::Free => CType::void(),
    }
}

/// A call whose arguments may be found.
fn call_value(
    alloc: Global,
    at: At,
    name_at: At,
    callee: &Callee<'_>,
    arguments: Result<Vec<Value>, Option<Problem>>,
) -> Result<Result<Operand, Option<Problem>>, AllocError>
    ensures { IfOk result (λ r. lift (ruled_operand r) ≡ on (lift (ruled_values arguments)) (call_value at name_at (plain_callee callee.now))) }
{
    match arguments {
        Ok(arguments) => match callee {
            Callee::Program {
                number,
                params: _,
                result,
            } => {
                let ty = result.copy(alloc)?.unqualified();
                Ok(Ok(Operand::Value(Value::call(at, ty, name_at.span, *number, arguments))))
            }
            Callee::Library(function) => {
                let ty = library_result(*function);
                Ok(Ok(Operand::Value(Value::built_in(at, ty, name_at.span, *function, arguments))))
            }
            Callee::NotDeclared | Callee::NoFunction | Callee::Refused => Ok(Err(None)),
        },
        Err(r) => Ok(Err(r)),
    }
}

/// Whether the called name is that of `assert`, which has no value.
fn is_assert(callee: &Callee<'_>) -> bool
    ensures { result ≡ is_assert (plain_callee callee.now) }
{
    matches!(callee, Callee::Library(Library::Assert))
}

/// Whether the called name is that of an allocator.
fn is_allocator(callee: &Callee<'_>) -> bool
    ensures { result ≡ is_allocator (plain_callee callee.now) }
{
    matches!(callee, Callee::Library(Library::Malloc | Library::Calloc))
}

/// Whether a call counts for the order of evaluation.
fn is_counted(callee: &Callee<'_>) -> bool
    ensures { result ≡ is_counted (plain_callee callee.now) }
{
    !matches!(callee, Callee::Library(Library::CAssert))
}

/// What is found in a call of a name, as a statement may have it.
#[tactic(auto, unfolding(crate::specs::Calls::call_judged))]
pub fn call_judged(
    alloc: Global,
    at: At,
    name_at: At,
    callee: &Callee<'_>,
    count: usize,
    list: Listed,
) -> Result<Judged<Operand>, AllocError>
    ensures { IfOk result (λ j. judged_operand j ≡ call_judged only_first at name_at (plain_callee callee.now) count (plain_listed list)) }
{
    let Listed {
        found,
        acts,
        reads,
        unordered,
    } = list;
    let acts = is_counted(callee) || acts;
    let problem = call_problem(at, name_at, callee, count);
    let found = call_value(alloc, at, name_at, callee, found)?;
    let seen = with_problem(problem, Judged { found, acts, reads });
    Ok(also_operand(unordered, SubsetCode::UnspecifiedOrder, at, seen))
}

/// What is found in a call where an operand is needed.
#[tactic(auto, unfolding(crate::specs::Calls::operand_call))]
pub fn operand_call(at: At, callee: &Callee<'_>, j: Judged<Operand>) -> Judged<Operand>
    ensures { judged_operand result ≡ operand_call only_first at (plain_callee callee.now) (judged_operand j) }
{
    let seen = also_operand(is_allocator(callee), SubsetCode::BadAllocation, at, j);
    also_operand(is_assert(callee), SubsetCode::VoidValue, at, seen)
}

/// What is found in a call of what is no name.
#[tactic(auto, unfolding(crate::specs::Calls::other_call))]
pub fn other_call(at: At, j: Judged<Operand>, list: Listed) -> Judged<Operand>
    ensures { judged_operand result ≡ other_call only_first at (judged_operand j) (plain_listed list) }
{
    let reads = j.reads || list.reads;
    let unordered = list.unordered;
    let found = both_refused(j.found, list.found);
    let seen = also_operand(
        true,
        SubsetCode::BadCallee,
        at,
        Judged {
            found,
            acts: true,
            reads,
        },
    );
    also_operand(unordered, SubsetCode::UnspecifiedOrder, at, seen)
}

/// The rows that hold in what is called and in its arguments.
fn both_refused(
    called: Result<Operand, Option<Problem>>,
    arguments: Result<Vec<Value>, Option<Problem>>,
) -> Result<Operand, Option<Problem>>
    ensures { lift (ruled_operand result) ≡ on (pair only_first (lift (ruled_operand called)) (lift (ruled_values arguments))) (λ both. nothing_said) }
{
    unused(both(called, arguments))
}

/// The library function for memory that is called by a name, if it is one, and the place of the name.
pub fn memory_called(
    situation: Situation<'_, '_>,
    name: Option<Identifier<'_>>,
) -> Option<(Library, At)>
    ensures { result ≡ memory_called (scope_in situation.entry) (option_map identifier_of name.entry) }
{
    match name {
        None => None,
        Some(name) => match memory_function(&callee_of(
            situation.scope.named(name.text),
            name.text,
        )) {
            Some(function) => Some((function, name.at)),
            None => None,
        },
    }
}

/// The library function for memory that is called, if it is one.
fn memory_function(callee: &Callee<'_>) -> Option<Library>
    ensures { result ≡ is_memory (plain_callee callee.now) }
{
    match callee {
        Callee::Library(Library::Malloc) => Some(Library::Malloc),
        Callee::Library(Library::Calloc) => Some(Library::Calloc),
        _ => None,
    }
}
