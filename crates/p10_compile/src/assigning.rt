//! The code of assignments and copies. Each of these functions fails only where memory runs out.

ghost use Rattle.std.specs.Prelude.{◌≡◌, ◌+◌, ◌++◌, ◌∷◌, [], map, IfOk};
ghost use Rattle.p10_base.specs.declared.span.Span.{Span};
ghost use Rattle.p10_base.specs.declared.at.At.{At};
ghost use Rattle.p10_core.specs.Types.{plain_type};
ghost use Rattle.p10_core.specs.Typed.{copy};
ghost use Rattle.p10_core.specs.Views.{plain_value, plain_place};
ghost use Rattle.p10_meaning.specs.Scalars.{integer_type};
ghost use Rattle.p10_code.specs.Operations.{slot, class_of, update, compute};
ghost use Rattle.p10_code.specs.ValueCode.{op, in_frame, at_sensor, in_object, spot_of};
ghost use Rattle.p10_code.specs.StatementCode.{Exits as PlainExits, free, set_code, update_code, form_code};
ghost use Rattle.p10_compile.specs.Views.{plain_op, plain_operand, plain_site};

use crate::classes::{class_of, integer_type};
use crate::code::{Part, both_ended, ended, joined, led, one, op, past};
use crate::counts::{place_after, slot_after, step_more};
use crate::exits::Around;
use crate::operations::{Action, Computation, Op, Operand};
use crate::site::Site;
use crate::spots::Spot;
use crate::start::Start;
use crate::widths::width;
use p10_base::Span;
use p10_core::{CType, Place, Value};
use p10_int::{BinOp, Stop};
use std::alloc::AllocError;

/// The operator of an update, with the type to which its left operand is converted, and the span of its statement.
#[derive(Clone, Copy)]
struct Operator<'p> {
    span: Span,
    op: BinOp,
    ty: &'p CType,
}

impl<'p> Site<'p, '_> {
    /// The first free slot. There is no memory for more variables than a number of 32 bits counts.
    pub fn free(&self) -> Result<u32, AllocError>
        ensures { IfOk result (λ n. n ≡ free (plain_site self.now)) }
    {
        let count = self.variables.len();
        if count > 4_294_967_295 {
            return Err(AllocError);
        }
        Ok(count as u32)
    }

    /// Where a statement begins: all slots after the variables are free.
    pub fn statement_start(&self, at: usize) -> Result<Start, AllocError>
        ensures { IfOk result (λ s. s ≡ record { slot = free (plain_site self.now); free = free (plain_site self.now); debt = 0; at = at }) }
    {
        let free = self.free()?;
        Ok(Start {
            slot: free,
            free,
            debt: 0,
            at,
        })
    }

    /// `P = e;`
    pub fn set_code(
        &self,
        place: &'p Place,
        v: &'p Value,
        at: usize,
    ) -> Result<Vec<Op<'p>>, AllocError>
        ensures { IfOk result (λ code. (span : Span) → map plain_op code.items ≡ set_code (plain_site self.now) (spot_of (plain_site self.now) (plain_place place.now)) span place.now.at.span at (plain_place place.now) (plain_value v.now)) }
    {
        match self.spot_of(place) {
            Spot::InFrame(number) => self.variable_set(number, place, v, at),
            Spot::AtSensor => self.into_code(v, self.statement_start(at)?.part()?),
            Spot::InObject => self.object_set(place, v, at),
            Spot::Nowhere => one(self.alloc, op(1, place.at.span, Action::Halt(Stop::U8))),
        }
    }

    /// An assignment to a frame variable.
    fn variable_set(
        &self,
        number: u32,
        place: &Place,
        v: &'p Value,
        at: usize,
    ) -> Result<Vec<Op<'p>>, AllocError>
        ensures { IfOk result (λ code. (span : Span) → map plain_op code.items ≡ set_code (plain_site self.now) (in_frame number) span place.now.at.span at (plain_place place.now) (plain_value v.now)) }
    {
        let start = Start {
            slot: number,
            ..self.statement_start(place_after(at, 1)?)?
        };
        let present = op(1, place.at.span, Action::Present(number));
        led(self.alloc, present, self.into_code(v, start)?)
    }

    /// An assignment to a place in an object.
    fn object_set(
        &self,
        place: &'p Place,
        v: &'p Value,
        at: usize,
    ) -> Result<Vec<Op<'p>>, AllocError>
        ensures { IfOk result (λ code. (span : Span) → map plain_op code.items ≡ set_code (plain_site self.now) in_object span place.now.at.span at (plain_place place.now) (plain_value v.now)) }
    {
        let start = self.statement_start(at)?;
        let first = start.part()?;
        let code = self.place_code(place, first)?;
        let next = past(at, code.as_slice())?;
        let Part {
            code: value,
            debt,
            operand,
        } = self.part(v, start.second(0, next)?)?;
        let store = Action::Store(Operand::Slot(first.slot), operand);
        joined(code, ended(value, op(debt, place.at.span, store))?)
    }

    /// `P op= e;`: the value is read before e is evaluated.
    pub fn update_code(
        &self,
        o: BinOp,
        t: &'p CType,
        place: &'p Place,
        v: &'p Value,
        around: Around,
    ) -> Result<Vec<Op<'p>>, AllocError>
        ensures { IfOk result (λ code. map plain_op code.items ≡ update_code (plain_site self.now) (spot_of (plain_site self.now) (plain_place place.now)) around.here.span place.now.at.span around.at o (plain_type t.now) (plain_place place.now) (plain_value v.now)) }
    {
        let at = around.at;
        let o = Operator {
            span: around.here.span,
            op: o,
            ty: t,
        };
        match self.spot_of(place) {
            Spot::InFrame(number) => self.variable_updated(o, number, place, v, at),
            Spot::AtSensor => self.sensor_updated(o, place, v, at),
            Spot::InObject => self.object_updated(o, place, v, at),
            Spot::Nowhere => one(self.alloc, op(1, place.at.span, Action::Halt(Stop::U8))),
        }
    }

    /// An update of a frame variable.
    fn variable_updated(
        &self,
        o: Operator<'p>,
        number: u32,
        place: &Place,
        v: &'p Value,
        at: usize,
    ) -> Result<Vec<Op<'p>>, AllocError>
        ensures { IfOk result (λ code. map plain_op code.items ≡ update_code (plain_site self.now) (in_frame number) o.entry.span place.now.at.span at o.entry.op (plain_type o.entry.ty.now) (plain_place place.now) (plain_value v.now)) }
    {
        let start = Start::at_slot(self.free()?, 0, place_after(at, 2)?)?;
        let part = self.part(v, start)?;
        let code = updated_code(part, o, place, number)?;
        let check = op(1, place.at.span, Action::Check(number));
        let present = op(1, place.at.span, Action::Present(number));
        led(self.alloc, present, led(self.alloc, check, code)?)
    }

    /// An update of a sensor: the value is read, and nothing is written.
    fn sensor_updated(
        &self,
        o: Operator<'p>,
        place: &Place,
        v: &'p Value,
        at: usize,
    ) -> Result<Vec<Op<'p>>, AllocError>
        ensures { IfOk result (λ code. map plain_op code.items ≡ update_code (plain_site self.now) at_sensor o.entry.span place.now.at.span at o.entry.op (plain_type o.entry.ty.now) (plain_place place.now) (plain_value v.now)) }
    {
        let free = self.free()?;
        let start = Start::at_slot(slot_after(free, 1)?, 0, place_after(at, 1)?)?;
        let part = self.part(v, start)?;
        let code = updated_code(part, o, place, free)?;
        let sense = op(2, place.at.span, Action::Sense(free, class_of(&place.ty)));
        led(self.alloc, sense, code)
    }

    /// An update of a place in an object.
    fn object_updated(
        &self,
        o: Operator<'p>,
        place: &'p Place,
        v: &'p Value,
        at: usize,
    ) -> Result<Vec<Op<'p>>, AllocError>
        ensures { IfOk result (λ code. map plain_op code.items ≡ update_code (plain_site self.now) in_object o.entry.span place.now.at.span at o.entry.op (plain_type o.entry.ty.now) (plain_place place.now) (plain_value v.now)) }
    {
        let first = self.statement_start(at)?.part()?;
        let held = slot_after(first.slot, 1)?;
        let code = self.place_code(place, first)?;
        let next = place_after(past(at, code.as_slice())?, 1)?;
        let start = Start::at_slot(slot_after(first.slot, 2)?, 0, next)?;
        let value = updated_code(self.part(v, start)?, o, place, held)?;
        let store = Action::Store(Operand::Slot(first.slot), Operand::Slot(held));
        let rest = ended(value, op(0, place.at.span, store))?;
        let content = Computation::Content(Operand::Slot(first.slot));
        let content = op(1, place.at.span, Action::Compute(held, content));
        joined(code, led(self.alloc, content, rest)?)
    }

    /// The copy of a structure.
    pub fn copy_code(
        &self,
        target: &'p Place,
        source: &'p Place,
        at: usize,
    ) -> Result<Vec<Op<'p>>, AllocError>
        ensures { IfOk result (λ code. (j : PlainExits) (here : At) → map plain_op code.items ≡ form_code (plain_site self.now) j at here (copy (plain_place target.now) (plain_place source.now))) }
    {
        let start = self.statement_start(at)?;
        let width = width(self.program, &target.ty)?;
        let to = self.place_part(target, start.part()?)?;
        let next = past(at, to.code.as_slice())?;
        let from = self.place_part(source, start.second(to.debt, next)?)?;
        let action = Action::Copy(to.operand, from.operand, source.at.span, width);
        both_ended(to, from, target.at.span, action)
    }
}

/// The value of an update, and the operator, which takes the scalar in a slot and leaves its result there.
fn updated_code<'p>(
    part: Part<'p>,
    o: Operator<'_>,
    place: &Place,
    held: u32,
) -> Result<Vec<Op<'p>>, AllocError>
    ensures { IfOk result (λ code. map plain_op code.items ≡ map plain_op part.entry.code.items ++ op (part.entry.debt + 1) o.entry.span (compute held (update o.entry.op (integer_type (plain_type o.entry.ty.now)) (class_of (plain_type o.entry.ty.now)) (class_of (plain_type place.now.ty)) (slot held) (plain_operand part.entry.operand))) ∷ []) }
{
    let Part {
        code,
        debt,
        operand,
    } = part;
    let cost = step_more(debt)?;
    let before = class_of(o.ty);
    let after = class_of(&place.ty);
    let left = Operand::Slot(held);
    let x = Computation::Update(o.op, integer_type(o.ty), before, after, left, operand);
    ended(code, op(cost, o.span, Action::Compute(held, x)))
}
