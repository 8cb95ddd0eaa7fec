//! The list of an initialiser fills an object (C99 6.7.8). Each of these functions fails only where memory runs out.

ghost use Rattle.std.specs.Prelude.{◌≡◌, true, IfOk, length, map};
ghost use Rattle.p10_core.specs.Types.{plain_type, bare};
ghost use Rattle.p10_core.specs.Sizes.{scalars_of};
ghost use Rattle.p10_core.specs.Views.{plain_program, plain_types, plain_item};
ghost use Rattle.p10_core.specs.WholePrograms.{AreWholeStructures};
ghost use Rattle.p10_meaning.specs.Pointers.{holding};
ghost use Rattle.p10_meaning.specs.States.{State, Progress, step, or_undefined};
ghost use Rattle.p10_meaning.specs.Statements.{Frame, Done, write_part, goes, fill};
ghost use Rattle.p10_code.specs.Operations.{fill as fills};
ghost use Rattle.p10_code.specs.Machine.{act, listed_in};
ghost use Rattle.p10_compile.specs.Views.{plain_entry, plain_operand};
ghost use Rattle.p10_machine.specs.Listing.{InOrder};
ghost use Rattle.p10_machine.specs.Turns.{IsDone};
ghost use Rattle.p10_machine.specs.Views.{Around, slot_of, config_of, state_of};
ghost use Rattle.p10_machine.specs.Writing.{Continues};

use crate::listed::{Cursor, Listed, list, passed, scalar_for};
use crate::machine::{Machine, Spot};
use crate::objects::{cut_off, write_part};
use crate::outside::Outside;
use crate::running::Loaded;
use crate::scalars::pointer_of;
use crate::turned::{Cut, Full, Turned};
use crate::turning::next;
use crate::widths::width_of;
use p10_base::Span;
use p10_compile::Operand;
use p10_core::{CType, Item, Types};
use p10_meaning::{Cell, Ptr, Scalar};

/// The scalars of an object of a type are written, for each a step: what the list gives, whose values stand in slots, and 0 or null for
/// all others.
pub fn fill(
    code: Loaded<'_>,
    to: Operand,
    t: &CType,
    values: (&[Item], u32),
    here: (Spot, Span),
    m: &mut Machine,
) -> Result<Turned, Full>
    requires structures { AreWholeStructures (plain_types code.program.now.types) }
    ensures { IfOk result (λ turned. (io : Around) → IsDone (act (plain_program code.entry.program.now) (map plain_entry code.entry.entries.now) here.1 (fills (plain_operand to) (plain_type t.now) (map plain_item values.entry.0.now) values.entry.1) (config_of here.0 m.old io)) turned m.new io) }
{
    let (s, span) = here;
    let Some(count) = width_of(&code.program.types, t) else {
        return Err(Full);
    };
    let place = (span, pointer_of(m.value(to)));
    let listed = list(values.0, values.1);
    match fill_scalars((&code.program.types, t), listed, place, count, s.left, m) {
        Ok(left) => next(Spot { pc: s.pc, left }),
        Err(cut) => cut_off(cut),
    }
}

/// All scalars of an object of a type, `count` in number, are written, from the first on; gives the steps that are left.
fn fill_scalars(
    types: (&Types<'_>, &CType),
    listed: Listed<'_>,
    place: (Span, Ptr),
    count: u64,
    steps: u64,
    m: &mut Machine,
) -> Result<u64, Cut>
    requires structures { AreWholeStructures (plain_types types.0.now) }
    requires order { listed.ordered ≡ true → InOrder 0 (map plain_item listed.items.now) }
    requires width { count ≡ length (scalars_of (plain_types types.0.now) (bare (plain_types types.0.now) (plain_type types.1.now))) }
    ensures filled { (io : Around) (frame : Frame) → Continues (fill place.0 (listed_in listed.entry.slot (map plain_item listed.entry.items.now) (slot_of m.old)) (scalars_of (plain_types types.entry.0.now) (bare (plain_types types.entry.0.now) (plain_type types.entry.1.now))) 0 place.1 frame (state_of steps m.old.outside io)) (λ left. goes frame (state_of left m.new.outside io)) result m.new.outside io }
    ensures same { m.new ≡ record m.old { outside = m.new.outside } }
{
    let mut cursor = Cursor {
        place: 0,
        slot: listed.slot,
    };
    let mut left = steps;
    for i in 0..count {
        let Some(at) = passed(listed, cursor, i) else {
            return Err(Cut::Full);
        };
        cursor = at;
        match scalar_for(types, listed, cursor, i, m) {
            Ok(x) => left = fill_scalar(place, i, x, left, &mut m.outside)?,
            Err(_) => return Err(Cut::Full),
        }
    }
    Ok(left)
}

/// A scalar is written, with a step; gives the steps that are left.
fn fill_scalar(
    place: (Span, Ptr),
    i: u64,
    x: Scalar,
    steps: u64,
    outside: &mut Outside,
) -> Result<u64, Cut>
    ensures { (io : Around) (go : State → Progress Done) → Continues (step (state_of steps outside.old io) (λ w. or_undefined (write_part w.objects place.1 i (holding x)) place.0 w (λ objects. go (record w { objects = objects })))) (λ left. go (state_of left outside.new io)) result outside.new io }
{
    let Some(left) = steps.checked_sub(1) else {
        return Err(Cut::StepsSpent);
    };
    match write_part(&mut outside.store, place.1, i, Cell { value: Some(x) }) {
        Ok(()) => Ok(left),
        Err(stop) => Err(Cut::Undefined(left, stop, place.0)),
    }
}
