//! Calls that are made at once, without work on the stack: of functions whose variables are all frame variables, and whose bodies
//! return a number that is found at once. Where anything stands in the way no step is left, and the call is made by acts.

ghost use Rattle.std.specs.Prelude.{◌≡◌, ◌∷◌, ◌++◌, ◌<◌, [], ℕ, map, IsTrue, Some, slice_get, option_map};
ghost use Rattle.p10_base.specs.declared.at.At.{At};
ghost use Rattle.p10_base.specs.declared.span.Span.{Span};
ghost use Rattle.p10_core.specs.Typed.{PlainStatements, more_statements, statement, return};
ghost use Rattle.p10_core.specs.Views.{plain_program, plain_types, plain_function, plain_value, plain_values, plain_statement, plain_statements, plain_variable};
ghost use Rattle.p10_core.specs.WholePrograms.{AreWholeStructures};
ghost use Rattle.p10_interp.specs.private.Standing.{held_of};
ghost use Rattle.p10_interp.specs.private.OpenCalls.{calls_in, calls_deep};
ghost use Rattle.p10_interp.specs.private.CallingAtOnce.{Fills, AreAbsent, Returns, IsCalled, IsValueOfCall};

use crate::base::Depth;
use crate::calls::Calls;
use crate::cells_at_once::holding_number;
use crate::entering::{deeper, function_at};
use crate::held::Held;
use crate::numbers_at_once::pays;
use crate::surroundings::{DEPTH, Surroundings};
use crate::values_at_once::number_at_once;
use p10_core::{Func, Program, Stmt, StmtForm, Value, Variable};
use p10_store::Store;

/// What calls are made in: the program, the open calls and the objects.
#[derive(Clone, Copy)]
pub struct Caller<'a> {
    pub p: &'a Program<'a>,
    pub calls: &'a Calls<'a>,
    pub store: &'a Store,
}

/// The number that a call comes to, with a step for its tree. `reached` is then its depth. The frame is made in `frame`, whose
/// items are let go.
pub fn value_of_call(
    caller: &Caller<'_>,
    made: (u32, &[Value]),
    frame: &mut Vec<Held>,
    reached: &mut Depth,
    left: &mut u64,
) -> i128
    requires structures { AreWholeStructures (plain_types caller.now.p.now.types) }
    ensures { IsValueOfCall (plain_program caller.now.p.now) made.entry.0 (plain_values made.entry.1.now) (calls_in caller.now.calls.now) caller.now.store.now.objects left.old (calls_deep reached.new) result left.new }
{
    if !pays(left) {
        return 0;
    }
    let (function, arguments) = made;
    call_at_once(caller, function, arguments, frame, reached, left)
}

/// Calls a function, by its number.
fn call_at_once(
    caller: &Caller<'_>,
    function: u32,
    arguments: &[Value],
    frame: &mut Vec<Held>,
    reached: &mut Depth,
    left: &mut u64,
) -> i128
    requires structures { AreWholeStructures (plain_types caller.now.p.now.types) }
    ensures { IsCalled (plain_program caller.now.p.now) function (plain_values arguments.now) (calls_in caller.now.calls.now) caller.now.store.now.objects left.old (calls_deep reached.new) result left.new }
{
    match function_at(caller.p.functions.as_slice(), function) {
        Some(called) => enter_at_once(caller, called, arguments, frame, reached, left),
        None => {
            *left = 0;
            0
        }
    }
}

/// Calls a function that is known.
fn enter_at_once(
    caller: &Caller<'_>,
    called: &Func<'_>,
    arguments: &[Value],
    frame: &mut Vec<Held>,
    reached: &mut Depth,
    left: &mut u64,
) -> i128
    requires structures { AreWholeStructures (plain_types caller.now.p.now.types) }
    ensures { (g : ℕ) → slice_get (plain_program caller.now.p.now).functions g ≡ Some (plain_function called.now) → IsCalled (plain_program caller.now.p.now) g (plain_values arguments.now) (calls_in caller.now.calls.now) caller.now.store.now.objects left.old (calls_deep reached.new) result left.new }
{
    let Some(depth) = deeper(called, caller.calls.depth()) else {
        *left = 0;
        return 0;
    };
    *reached = depth;
    frame.clear();
    let around = Surroundings {
        p: caller.p,
        held: caller.calls.standing(),
        store: caller.store,
    };
    fill_frame(&around, called.vars.as_slice(), arguments, frame, left);
    if !pays(left) {
        return 0;
    }
    let inside = Surroundings {
        p: caller.p,
        held: frame.as_slice(),
        store: caller.store,
    };
    returned_at_once(&inside, called.body.as_slice(), left)
}

/// Puts down what stands for variables at the beginning of a call with these arguments: numbers in frame variables, and nothing
/// yet for the variables after them (C99 6.5.2.2p4).
fn fill_frame(
    around: &Surroundings<'_>,
    variables: &[Variable<'_>],
    arguments: &[Value],
    frame: &mut Vec<Held>,
    left: &mut u64,
)
    requires structures { AreWholeStructures (plain_types around.now.p.now.types) }
    ensures { Fills (plain_program around.now.p.now) (map held_of around.now.held.now) around.now.store.now.objects (map plain_variable variables.now) (plain_values arguments.now) left.old (map held_of frame.old.items) (map held_of frame.new.items) left.new }
{
    match arguments {
        [] => leave_absent(variables, frame, left),
        [argument, more @ ..] => match variables {
            [] => {
                *left = 0;
            }
            [variable, others @ ..] => {
                if !variable.frame {
                    *left = 0;
                    return;
                }
                let number = number_at_once(around, argument, left, DEPTH);
                if *left == 0 {
                    return;
                }
                if !put_held(holding_number(number), frame) {
                    *left = 0;
                    return;
                }
                fill_frame(around, others, more, frame, left);
            }
        },
    }
}

/// Puts what stands for a variable after the others, if there is memory.
fn put_held(held: Held, frame: &mut Vec<Held>) -> bool
    ensures { IsTrue result → frame.new.items ≡ frame.old.items ++ held ∷ [] }
{
    match frame.push(held) {
        Ok(()) => true,
        Err(_) => false,
    }
}

/// Nothing stands yet for these variables.
fn leave_absent(variables: &[Variable<'_>], frame: &mut Vec<Held>, left: &mut u64)
    ensures { 0 < left.new → (left.new ≡ left.old) × AreAbsent (map plain_variable variables.now) (map held_of frame.old.items) (map held_of frame.new.items) }
{
    match variables {
        [] => {}
        [_, others @ ..] => {
            if frame.push(Held::Absent).is_err() {
                *left = 0;
                return;
            }
            leave_absent(others, frame, left);
        }
    }
}

/// The number that a body returns by its first statement.
fn returned_at_once(inside: &Surroundings<'_>, statements: &[Stmt], left: &mut u64) -> i128
    requires structures { AreWholeStructures (plain_types inside.now.p.now.types) }
    ensures { Returns (plain_program inside.now.p.now) (map held_of inside.now.held.now) inside.now.store.now.objects (plain_statements statements.now) left.old result left.new }
{
    match statements {
        [] => {
            *left = 0;
            0
        }
        [first, ..] => returned_by(inside, first, left),
    }
}

/// The number that a statement returns.
fn returned_by(inside: &Surroundings<'_>, statement: &Stmt, left: &mut u64) -> i128
    requires structures { AreWholeStructures (plain_types inside.now.p.now.types) }
    ensures { (rest : PlainStatements) → Returns (plain_program inside.now.p.now) (map held_of inside.now.held.now) inside.now.store.now.objects (more_statements (plain_statement statement.now) rest) left.old result left.new }
{
    match &statement.form {
        StmtForm::Return(_, given) => returned_value(inside, given, left),
        _ => {
            *left = 0;
            0
        }
    }
}

/// The number of a `return` (C99 6.8.6.4).
fn returned_value(inside: &Surroundings<'_>, given: &Option<Value>, left: &mut u64) -> i128
    requires structures { AreWholeStructures (plain_types inside.now.p.now.types) }
    ensures { (at : At) (keyword : Span) (rest : PlainStatements) → Returns (plain_program inside.now.p.now) (map held_of inside.now.held.now) inside.now.store.now.objects (more_statements (statement at (return keyword (option_map plain_value given.now))) rest) left.old result left.new }
{
    match given {
        Some(value) => {
            if !pays(left) {
                return 0;
            }
            number_at_once(inside, value, left, DEPTH)
        }
        None => {
            *left = 0;
            0
        }
    }
}
