//! Library functions (C99 7.2, 7.19.7, 7.20.3).

ghost use Rattle.std.specs.Prelude.{◌≡◌, false, IfOk, map};
ghost use Rattle.p10_int.specs.Conversion.{residue};
ghost use Rattle.p10_core.specs.declared.typed.Library.TheVariants.{Getchar};
ghost use Rattle.p10_core.specs.Types.{plain_type};
ghost use Rattle.p10_core.specs.Views.{plain_program, plain_types};
ghost use Rattle.p10_core.specs.WholePrograms.{AreWholeStructures};
ghost use Rattle.p10_meaning.specs.Scalars.{number_of, pointer_of};
ghost use Rattle.p10_meaning.specs.States.{counted};
ghost use Rattle.p10_meaning.specs.Values.{first_argument, asserted, elements, natural, next_byte, put_byte, pointee, requested};
ghost use Rattle.p10_code.specs.Operations.{library};
ghost use Rattle.p10_code.specs.Machine.{gathered, turned, act};
ghost use Rattle.p10_compile.specs.Views.{plain_entry};
ghost use Rattle.p10_machine.specs.Ready.{IsServed, IsReady};
ghost use Rattle.p10_machine.specs.Releasing.{cells_by, released};
ghost use Rattle.p10_machine.specs.Turns.{given_to, IsDone};
ghost use Rattle.p10_machine.specs.Views.{Around, IsLeft, slot_of, config_of};

use crate::allocating::{allocate, count_call};
use crate::machine::{Machine, Spot};
use crate::outside::Outside;
use crate::running::Loaded;
use crate::scalars::{byte_value, is_true, number_of, pointer_of, truth_value};
use crate::turned::{Ending, Full, Turned};
use crate::turning::stopped;
use p10_base::Span;
use p10_compile::{Action, Operand};
use p10_core::{CType, Library, Program};
use p10_meaning::Scalar;

/// How many bytes wait at most before they are written to a sink.
pub const PIECE: usize = 4096;

/// Whether the outside is needed before an operation: it takes a byte of input and none is pending, or a piece of output waits. What
/// comes of a run doesn't depend on where it pauses, so no clause says where.
#[inline(always)]
pub fn is_held(action: &Action<'_>, ended: bool, outside: &Outside) -> bool
    ensures { result ≡ false → IsReady action.now ended outside.now }
{
    match action {
        Action::Library(_, function, _, _, _) => match function {
            Library::Getchar => outside.pending.is_empty() && !ended,
            Library::Putchar => outside.waiting.len() >= PIECE,
            _ => false,
        },
        _ => false,
    }
}

/// Calls a library function on the values in slots; what it gives goes to slot `k`.
pub fn call_library(
    code: Loaded<'_>,
    called: (Library, Span, &CType),
    arguments: (u32, u32),
    k: u32,
    s: Spot,
    m: &mut Machine,
) -> Result<Turned, Full>
    requires structures { AreWholeStructures (plain_types code.program.now.types) }
    requires served { IsServed called.0 code.ended m.old.outside }
    ensures { IfOk result (λ t. (io : Around) → IsLeft code.entry.ended io → IsDone (act (plain_program code.entry.program.now) (map plain_entry code.entry.entries.now) called.entry.1 (library k called.entry.0 (plain_type called.entry.2.now) arguments.0 arguments.1) (config_of s m.old io)) t m.new io) }
{
    let (function, span, t) = called;
    let first = first_argument(arguments, m);
    match function {
        Library::Assert => assert_first(first, span, k, s, m),
        Library::CAssert => m.put(s, k, truth_value(is_true(first))),
        Library::Getchar => get_byte(code.ended, s, k, m),
        Library::Putchar => put_byte(first, s, k, m),
        Library::Malloc => {
            let asked = count_asked(arguments, m);
            give_memory(code.program, (t, asked, false), k, s, m)
        }
        Library::Calloc => {
            let asked = count_asked(arguments, m);
            give_memory(code.program, (t, asked, true), k, s, m)
        }
        Library::Free => free(first, span, k, s, m),
    }
}

/// The first of the arguments, which stand in slots: 0 where there is none.
fn first_argument(arguments: (u32, u32), m: &Machine) -> Scalar
    ensures { result ≡ first_argument (gathered arguments.0 arguments.1 (slot_of m.now)) }
{
    let (from, count) = arguments;
    if count == 0 {
        Scalar::Int(0)
    } else {
        m.value(Operand::Slot(from))
    }
}

/// How many elements an allocation asks for: one where no number is written.
fn count_asked(arguments: (u32, u32), m: &Machine) -> u128
    ensures { result ≡ elements (gathered arguments.0 arguments.1 (slot_of m.now)) }
{
    let (from, count) = arguments;
    if count == 0 {
        1
    } else {
        natural(number_of(m.value(Operand::Slot(from))))
    }
}

/// `assert` of a scalar (C99 7.2.1.1p2).
fn assert_first(x: Scalar, span: Span, k: u32, s: Spot, m: &mut Machine) -> Result<Turned, Full>
    ensures { IfOk result (λ t. (io : Around) → IsDone (turned (asserted span x (config_of s m.old io).state) (given_to k (config_of s m.old io))) t m.new io) }
{
    if is_true(x) {
        m.put_none(s, k)
    } else {
        Ok(Turned::Off(s.left, Ending::Failed(span)))
    }
}

/// `getchar`: the next byte of the input, or -1 at its end (C99 7.19.7.6).
fn get_byte(ended: bool, s: Spot, k: u32, m: &mut Machine) -> Result<Turned, Full>
    requires served { IsServed Getchar ended m.old.outside }
    ensures { IfOk result (λ t. (io : Around) → IsLeft ended io → IsDone (turned (next_byte (config_of s m.old io).state.input (config_of s m.old io).state) (given_to k (config_of s m.old io))) t m.new io) }
{
    match m.outside.pending.next() {
        Some(byte) => m.put(s, k, byte_value(byte)),
        None => m.put(s, k, Scalar::Int(-1)),
    }
}

/// `putchar`: a byte is written, the number modulo 256 (C99 7.19.7.9).
fn put_byte(x: Scalar, s: Spot, k: u32, m: &mut Machine) -> Result<Turned, Full>
    ensures { IfOk result (λ t. (io : Around) → IsDone (turned (put_byte (residue (number_of x) 256) (config_of s m.old io).state) (given_to k (config_of s m.old io))) t m.new io) }
{
    let byte = byte_of(x);
    match m.outside.waiting.push(byte) {
        Ok(()) => m.put(s, k, byte_value(byte)),
        Err(_) => Err(Full),
    }
}

/// The byte that `putchar` writes for a scalar: the number modulo 256.
fn byte_of(x: Scalar) -> u8
    ensures { result ≡ residue (number_of x) 256 }
{
    number_of(x).rem_euclid(256) as u8
}

/// `malloc` or `calloc`: memory for so many elements of what a type points to, whose scalars are unset or zero.
fn give_memory(
    p: &Program<'_>,
    wanted: (&CType, u128, bool),
    k: u32,
    s: Spot,
    m: &mut Machine,
) -> Result<Turned, Full>
    requires structures { AreWholeStructures (plain_types p.now.types) }
    ensures { IfOk result (λ t. (io : Around) → IsDone (turned (requested (plain_program p.now) (pointee (plain_type wanted.entry.0.now)) wanted.entry.1 (cells_by wanted.entry.2) (counted (config_of s m.old io).state)) (given_to k (config_of s m.old io))) t m.new io) }
{
    let (t, asked, zero) = wanted;
    let x = allocate(p, t, asked, zero, &mut m.outside)?;
    m.put(s, k, x)
}

/// `free`: U11 (C99 7.20.3.2).
fn free(x: Scalar, span: Span, k: u32, s: Spot, m: &mut Machine) -> Result<Turned, Full>
    ensures { IfOk result (λ t. (io : Around) → IsDone (turned (released span (pointer_of x) (counted (config_of s m.old io).state)) (given_to k (config_of s m.old io))) t m.new io) }
{
    count_call(&mut m.outside)?;
    match m.outside.store.release(pointer_of(x)) {
        Ok(()) => m.put_none(s, k),
        Err(stop) => Ok(stopped(stop, s, span)),
    }
}

/// A number as a count: no count is below zero.
fn natural(number: i128) -> u128
    ensures { result ≡ natural number }
{
    if number < 0 { 0 } else { number as u128 }
}
