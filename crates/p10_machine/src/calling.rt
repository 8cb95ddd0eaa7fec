//! Calls of functions (C99 6.5.2.2). Each of these functions fails only where memory runs out.

ghost use Rattle.std.specs.Prelude.{◌≡◌, ◌+◌, ◌-◌, ◌∷◌, ℕ, OnOk, IfOk, IfSome, Some, map, option_map, sum, take, get_or, slice_get};
ghost use Rattle.p10_core.specs.Views.{plain_program, plain_function, plain_variable};
ghost use Rattle.p10_core.specs.WholePrograms.{numbers_from};
ghost use Rattle.p10_meaning.specs.Values.{absent};
ghost use Rattle.p10_meaning.specs.Calling.{deeper, raised, entered};
ghost use Rattle.p10_code.specs.Machine.{scalar_in, look, gathered, enter, with_block};
ghost use Rattle.p10_compile.specs.Views.{plain_entry};
ghost use Rattle.p10_machine.specs.Frames.{scalars_from, with_argument, with_next, with_variables, with_all};
ghost use Rattle.p10_machine.specs.Slots.{held_in};
ghost use Rattle.p10_machine.specs.Turns.{IsDone};
ghost use Rattle.p10_machine.specs.Views.{Around, plain_depth, config_of, state_of};

use crate::frames::or_zero;
use crate::machine::{Caller, Depth, Machine, Spot};
use crate::outside::Outside;
use crate::running::Loaded;
use crate::slots::Slot;
use crate::turned::{Full, Turned};
use p10_compile::Entry;
use p10_core::{Func, Variable};
use p10_meaning::{Cell, Scalar};
use p10_store::{Origin, Shape};

/// A call of a function by an entry of the table, with the arguments in slots, whose value goes to slot `k`. A function that isn't there
/// gives nothing.
pub fn call(
    code: Loaded<'_>,
    called: (u32, u32),
    arguments: (u32, u32),
    k: u32,
    s: Spot,
    m: &mut Machine,
) -> Result<Turned, Full>
    ensures { IfOk result (λ t. (io : Around) → IsDone (enter (slice_get (plain_program code.entry.program.now).functions called.0) (slice_get (map plain_entry code.entry.entries.now) called.1) k (gathered arguments.0 arguments.1 (look (config_of s m.old io))) (config_of s m.old io)) t m.new io) }
{
    let Some(function) = function_at(code.program.functions.as_slice(), called.0) else {
        return m.put_none(s, k);
    };
    match entry_at(code.entries, called.1) {
        Some(entry) => enter(function, *entry, arguments, k, s, m),
        None => Ok(Turned::On(s)),
    }
}

/// The function with a number.
fn function_at<'p>(functions: &'p [Func<'p>], number: u32) -> Option<&'p Func<'p>>
    ensures { option_map (λ f. plain_function f.now) result ≡ slice_get (map plain_function functions.now) number }
{
    functions.get(number as usize)
}

/// The entry with a number.
fn entry_at(entries: &[Entry], number: u32) -> Option<&Entry>
    ensures { option_map (λ e. plain_entry e.now) result ≡ slice_get (map plain_entry entries.now) number }
{
    entries.get(number as usize)
}

/// Enters a function: its frame stands after all slots, and its outermost block begins.
fn enter(
    f: &Func<'_>,
    entry: Entry,
    arguments: (u32, u32),
    k: u32,
    s: Spot,
    m: &mut Machine,
) -> Result<Turned, Full>
    ensures { IfOk result (λ t. (io : Around) → IsDone (enter (Some (plain_function f.now)) (Some (plain_entry entry)) k (gathered arguments.0 arguments.1 (look (config_of s m.old io))) (config_of s m.old io)) t m.new io) }
{
    let Some(there) = deeper(f, m.depth) else {
        return Err(Full);
    };
    let Ok(base) = u32::try_from(m.slots.len()) else {
        return Err(Full);
    };
    let first = m.outside.store.opened();
    let from = m.place(arguments.0);
    raise(there, &mut m.outside);
    note_caller(k, s, m)?;
    hold_variables(f.vars.as_slice(), (from, arguments.1), m)?;
    note_block(entry.tracked, first, m)?;
    m.add_absent(entry.room)?;
    m.base = base;
    m.depth = there;
    Ok(Turned::On(Spot {
        pc: entry.at,
        left: s.left,
    }))
}

/// Notes what a call goes back to: to the operation after it, with its value for slot `k`.
fn note_caller(k: u32, s: Spot, m: &mut Machine) -> Result<(), Full>
    ensures { OnOk result ((there : Spot) (io : Around) → config_of there m.new io ≡ record (config_of there m.old io) { callers = record { pc = s.pc + 1; base = m.old.base; to = k; depth = plain_depth m.old.depth } ∷ (config_of there m.old io).callers }) }
{
    let Some(pc) = s.pc.checked_add(1) else {
        return Err(Full);
    };
    let caller = Caller {
        pc,
        base: m.base,
        to: k,
        depth: m.depth,
    };
    match m.callers.push(caller) {
        Ok(()) => Ok(()),
        Err(_) => Err(Full),
    }
}

/// The depth with one more call of a function, whose frame has the bytes of all its variables.
fn deeper(f: &Func<'_>, depth: Depth) -> Option<Depth>
    ensures { IfSome result (λ d. plain_depth d ≡ deeper (plain_function f.now) (plain_depth depth)) }
{
    let calls = depth.calls.checked_add(1)?;
    let bytes = bytes_with(f.vars.as_slice(), depth.bytes)?;
    Some(Depth { calls, bytes })
}

/// The bytes of variables, after those before them.
fn bytes_with(variables: &[Variable<'_>], before: u128) -> Option<u128>
    ensures { IfSome result (λ all. all ≡ before + sum (map (λ v. v.bytes) (map plain_variable variables.now))) }
{
    let mut all = before;
    for variable in variables {
        all = all.checked_add(variable.bytes as u128)?;
    }
    Some(all)
}

/// The greatest depths rise to a depth.
fn raise(depth: Depth, outside: &mut Outside)
    ensures { (left : ℕ) (io : Around) → state_of left outside.new io ≡ raised (plain_depth depth) (state_of left outside.old io) }
{
    outside.calls = outside.calls.max(depth.calls);
    outside.bytes = outside.bytes.max(depth.bytes);
}

/// Each variable stands for its argument, in its slot or in a new object, and for nothing where there is none (C99 6.5.2.2p4). The
/// arguments stand in so many slots from one on, by its number among all.
fn hold_variables(
    variables: &[Variable<'_>],
    arguments: (usize, u32),
    m: &mut Machine,
) -> Result<(), Full>
    ensures { OnOk result ((s : Spot) (io : Around) → config_of s m.new io ≡ with_variables (entered (map plain_variable variables.now) (scalars_from arguments.0 arguments.1 (config_of s m.old io)) (config_of s m.old io).state) (config_of s m.old io)) }
{
    let end = m.slots.len();
    for (i, variable) in variables.iter().enumerate() {
        let x = argument(end, arguments, i, m);
        hold_next(variable.frame, x, m)?;
    }
    Ok(())
}

/// Argument i, if there is one, of those that stand in so many slots from one on; a slot past the first `end` holds none of them.
fn argument(end: usize, arguments: (usize, u32), i: usize, m: &Machine) -> Option<Scalar>
    ensures { result ≡ slice_get (gathered arguments.0 arguments.1 (λ k. get_or (take end (held_in m.now.targets.items m.now.slots.items)) k absent)) i }
{
    let (from, count) = arguments;
    if i >= count as usize {
        return None;
    }
    match from.checked_add(i) {
        Some(place) => Some(or_zero(scalar_below(end, place, m))),
        None => Some(Scalar::Int(0)),
    }
}

/// The scalar in one of the first slots, if it has one.
fn scalar_below(end: usize, place: usize, m: &Machine) -> Option<Scalar>
    ensures { result ≡ scalar_in (get_or (take end (held_in m.now.targets.items m.now.slots.items)) place absent) }
{
    if place < end {
        m.scalar_at(place)
    } else {
        None
    }
}

/// The next variable stands for its argument, or for nothing where there is none.
fn hold_next(frame: bool, x: Option<Scalar>, m: &mut Machine) -> Result<(), Full>
    ensures { OnOk result ((s : Spot) (io : Around) → config_of s m.new io ≡ with_next frame x (config_of s m.old io)) }
{
    match x {
        Some(x) => hold_argument(frame, x, m),
        None => m.add(Slot::Absent),
    }
}

/// The next variable stands for its argument.
fn hold_argument(frame: bool, x: Scalar, m: &mut Machine) -> Result<(), Full>
    ensures { OnOk result ((s : Spot) (io : Around) → config_of s m.new io ≡ with_argument frame x (config_of s m.old io)) }
{
    if frame {
        return m.add_scalar(x);
    }
    let number = m.outside.store.opened();
    let Ok(object) = u64::try_from(number) else {
        return Err(Full);
    };
    let cells = [Cell { value: Some(x) }];
    match m
        .outside
        .store
        .open(&Shape { scalars: 1 }, 1, Origin::DeclaredWith(&cells))
    {
        Ok(_) => m.add(Slot::Object(object)),
        Err(_) => Err(Full),
    }
}

/// Where the outermost block of a call opens objects it begins, and has opened those from a number on.
fn note_block(tracked: bool, first: u128, m: &mut Machine) -> Result<(), Full>
    ensures { OnOk result ((s : Spot) (io : Around) → config_of s m.new io ≡ record (config_of s m.old io) { blocks = with_block tracked (numbers_from first (m.old.outside.store.opened - first)) (config_of s m.old io).blocks }) }
{
    if !tracked {
        return Ok(());
    }
    let past = m.outside.store.opened();
    m.begin()?;
    note_all(first, past, m)
}

/// The innermost block has opened the objects with these numbers, of which the first is to die first.
fn note_all(first: u128, past: u128, m: &mut Machine) -> Result<(), Full>
    ensures { OnOk result ((s : Spot) (io : Around) → config_of s m.new io ≡ record (config_of s m.old io) { blocks = with_all (numbers_from first (past - first)) (config_of s m.old io).blocks }) }
{
    let mut object = past;
    'objects: while first < object {
        object -= 1;
        m.note_opened(object)?;
    }
    Ok(())
}
