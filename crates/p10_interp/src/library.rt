//! Library functions (C99 7.2, 7.19.7, 7.20.3).

ghost use Rattle.std.specs.Prelude.{◌≡◌};
ghost use Rattle.p10_core.specs.Types.{plain_type};
ghost use Rattle.p10_core.specs.Views.{plain_program, plain_types};
ghost use Rattle.p10_core.specs.WholePrograms.{AreWholeStructures};
ghost use Rattle.p10_int.specs.Conversion.{residue};
ghost use Rattle.p10_meaning.specs.States.{counted};
ghost use Rattle.p10_meaning.specs.Scalars.{number_of, pointer_of};
ghost use Rattle.p10_meaning.specs.Values.{first_argument, asserted, elements, natural, next_byte, put_byte, library};
ghost use Rattle.p10_interp.specs.private.Tasks.{call_library};
ghost use Rattle.p10_interp.specs.private.Operations.{done_by};
ghost use Rattle.p10_interp.specs.private.Views.{Answers, Gives, left_with, tasks_in};
ghost use Rattle.p10_interp.specs.private.OpenCalls.{calls_in};
ghost use Rattle.p10_interp.specs.private.Machines.{Around, state_of};
ghost use Rattle.p10_interp.specs.private.Releasing.{released};

use crate::allocating::{allocate, count_call};
use crate::arguments::take_arguments;
use crate::outside::Outside;
use crate::queue::Queue;
use crate::scalars::{is_true, number_of, pointer_of, truth_value};
use crate::stacks::Stacks;
use crate::work::{Halt, Operand};
use p10_base::Span;
use p10_core::{CType, Library, Program};
use p10_meaning::Scalar;

/// Calls a library function on its arguments, which are on top.
pub fn call_library(
    p: &Program<'_>,
    called: (Library, Span, &CType),
    count: usize,
    stacks: &mut Stacks<'_>,
    outside: &mut Outside,
) -> Result<(), Halt>
    requires structures { AreWholeStructures (plain_types p.now.types) }
    ensures done { (io : Around) → Answers (done_by (plain_program p.now) (call_library called.entry.0 called.entry.1 (plain_type called.entry.2.now) count) stacks.old.operands (calls_in stacks.old.calls) (state_of outside.old io)) result (left_with stacks.new.operands (calls_in stacks.new.calls)) (state_of outside.new io) }
    ensures tasks { tasks_in stacks.new.tasks ≡ tasks_in stacks.old.tasks }
{
    take_arguments(count, &mut stacks.operands, &mut stacks.arguments)?;
    let given = library_value(p, called, &stacks.arguments, outside)?;
    stacks.operands.push(Operand::Evaluated(given))
}

/// What a library function gives on its arguments.
fn library_value(
    p: &Program<'_>,
    called: (Library, Span, &CType),
    arguments: &Queue<Scalar>,
    outside: &mut Outside,
) -> Result<Option<Scalar>, Halt>
    requires structures { AreWholeStructures (plain_types p.now.types) }
    ensures { (io : Around) → Gives (library (plain_program p.now) called.entry.0 called.entry.1 (plain_type called.entry.2.now) arguments.now (state_of outside.old io)) result (state_of outside.new io) }
{
    let (function, span, t) = called;
    let first = first_argument(arguments);
    match function {
        Library::Assert => assert_first(first, span, outside),
        Library::CAssert => Ok(Some(truth_value(is_true(first)))),
        Library::Getchar => get_byte(outside),
        Library::Putchar => put_byte(first, outside),
        Library::Malloc => allocate(p, t, elements(arguments), false, outside),
        Library::Calloc => allocate(p, t, elements(arguments), true, outside),
        Library::Free => free(first, span, outside),
    }
}

/// The first of the arguments: 0 where there is none.
fn first_argument(arguments: &Queue<Scalar>) -> Scalar
    ensures { result ≡ first_argument arguments.now }
{
    match arguments.get(0) {
        Some(x) => x,
        None => Scalar::Int(0),
    }
}

/// How many elements an allocation asks for: one where no number is written.
fn elements(arguments: &Queue<Scalar>) -> u128
    ensures { result ≡ elements arguments.now }
{
    match arguments.get(0) {
        Some(x) => natural(number_of(x)),
        None => 1,
    }
}

/// A number as a count: no count is below zero.
fn natural(number: i128) -> u128
    ensures { result ≡ natural number }
{
    if number < 0 { 0 } else { number as u128 }
}

/// `assert` of a scalar (C99 7.2.1.1p2).
fn assert_first(x: Scalar, span: Span, outside: &Outside) -> Result<Option<Scalar>, Halt>
    ensures { (io : Around) → Gives (asserted span x (state_of outside.now io)) result (state_of outside.now io) }
{
    if is_true(x) {
        Ok(None)
    } else {
        Err(Halt::Failed(span))
    }
}

/// `getchar`: the next byte of the input (C99 7.19.7.6). Where no byte is pending it is answered as out of memory: the source is
/// asked before, and its end is noted by whoever asks it.
fn get_byte(outside: &mut Outside) -> Result<Option<Scalar>, Halt>
    ensures { (io : Around) → Gives (next_byte (state_of outside.old io).input (state_of outside.old io)) result (state_of outside.new io) }
{
    match outside.pending.next() {
        Some(byte) => Ok(Some(Scalar::Int(i128::from(byte)))),
        None => Err(Halt::Memory),
    }
}

/// `putchar`: a byte is written, the number modulo 256 (C99 7.19.7.9).
fn put_byte(x: Scalar, outside: &mut Outside) -> Result<Option<Scalar>, Halt>
    ensures { (io : Around) → Gives (put_byte (residue (number_of x) 256) (state_of outside.old io)) result (state_of outside.new io) }
{
    let byte = number_of(x).rem_euclid(256) as u8;
    match outside.waiting.push(byte) {
        Ok(()) => Ok(Some(Scalar::Int(i128::from(byte)))),
        Err(_) => Err(Halt::Memory),
    }
}

/// `free`: U11 (C99 7.20.3.2).
fn free(x: Scalar, span: Span, outside: &mut Outside) -> Result<Option<Scalar>, Halt>
    ensures { (io : Around) → Gives (released span (pointer_of x) (counted (state_of outside.old io))) result (state_of outside.new io) }
{
    count_call(outside)?;
    match outside.store.release(pointer_of(x)) {
        Ok(()) => Ok(None),
        Err(stop) => Err(Halt::Undefined(stop, span)),
    }
}
