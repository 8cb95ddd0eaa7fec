//! The code of declarations. Each of these functions fails only where memory runs out.

ghost use Rattle.std.specs.Prelude.{◌≡◌, ◌+◌, ◌++◌, ◌∷◌, [], map, slice_get, IfOk};
ghost use Rattle.p10_base.specs.declared.span.Span.{Span};
ghost use Rattle.p10_core.specs.Types.{plain_type};
ghost use Rattle.p10_core.specs.Views.{plain_value, plain_place, plain_written, plain_item, plain_initializer};
ghost use Rattle.p10_code.specs.Operations.{compute, object, store, slot};
ghost use Rattle.p10_meaning.specs.Values.{width};
ghost use Rattle.p10_code.specs.ValueCode.{op, value_code, debt, operand};
ghost use Rattle.p10_code.specs.StatementCode.{free, written_code, items_code, copied_code, listed_code, frame_initializer, object_initializer, declare_code};
ghost use Rattle.p10_code.specs.Machine.{item_slots};
ghost use Rattle.p10_compile.specs.Views.{plain_op, plain_operand, plain_site};

use crate::code::{Part, ended, joined, led, none, one, op, past};
use crate::counts::{place_after, slot_after};
use crate::operations::{Action, Computation, Op, Operand};
use crate::site::Site;
use crate::start::Start;
use crate::widths::width;
use p10_base::Span;
use p10_core::{CType, Initializer, Item, Place, Value, Written};
use std::alloc::AllocError;

impl<'p> Site<'p, '_> {
    /// The declaration of a variable.
    pub fn declare_code(
        &self,
        number: u32,
        initializer: &'p Initializer,
        span: Span,
        at: usize,
    ) -> Result<Vec<Op<'p>>, AllocError>
        ensures { IfOk result (λ code. map plain_op code.items ≡ declare_code (plain_site self.now) span number at (slice_get (plain_site self.now).variables number) (plain_initializer initializer.now)) }
    {
        let next = place_after(at, 1)?;
        match self.variables.get(number as usize) {
            Some(variable) => {
                let t = &variable.ty;
                if variable.frame {
                    let code = self.frame_initializer(initializer, t, number, span, next)?;
                    led(self.alloc, op(1, span, Action::Unset(number)), code)
                } else {
                    let code = self.object_initializer(initializer, t, number, span, next)?;
                    led(self.alloc, op(1, span, Action::Opens(number, t)), code)
                }
            }
            None => one(self.alloc, op(1, span, Action::Jump(next))),
        }
    }

    /// An initialiser of a frame variable.
    fn frame_initializer(
        &self,
        initializer: &'p Initializer,
        t: &'p CType,
        number: u32,
        span: Span,
        at: usize,
    ) -> Result<Vec<Op<'p>>, AllocError>
        ensures { IfOk result (λ code. map plain_op code.items ≡ frame_initializer (plain_site self.now) span (plain_type t.now) number at (plain_initializer initializer.now)) }
    {
        match initializer {
            Initializer::Absent => Ok(none(self.alloc)),
            Initializer::Single(v) => {
                let start = Start {
                    slot: number,
                    ..self.statement_start(at)?
                };
                self.into_code(v, start)
            }
            Initializer::Copied(place) => self.copied_code(place, t, Operand::Null, span, at),
            Initializer::Listed(_, items) => {
                self.listed_code(items.as_slice(), t, Operand::Null, span, at)
            }
        }
    }

    /// An initialiser of an object that stands for a variable.
    fn object_initializer(
        &self,
        initializer: &'p Initializer,
        t: &'p CType,
        number: u32,
        span: Span,
        at: usize,
    ) -> Result<Vec<Op<'p>>, AllocError>
        ensures { IfOk result (λ code. map plain_op code.items ≡ object_initializer (plain_site self.now) span (plain_type t.now) number at (plain_initializer initializer.now)) }
    {
        let next = place_after(at, 1)?;
        let to = Operand::Slot(self.free()?);
        match initializer {
            Initializer::Absent => Ok(none(self.alloc)),
            Initializer::Single(v) => {
                let code = self.stored_code(v, span, next)?;
                led(self.alloc, self.object_op(number, t, span)?, code)
            }
            Initializer::Copied(place) => {
                let code = self.copied_code(place, t, to, span, next)?;
                led(self.alloc, self.object_op(number, t, span)?, code)
            }
            Initializer::Listed(_, items) => {
                let code = self.listed_code(items.as_slice(), t, to, span, next)?;
                led(self.alloc, self.object_op(number, t, span)?, code)
            }
        }
    }

    /// The address of the object that stands for a variable.
    fn object_op(&self, number: u32, t: &CType, span: Span) -> Result<Op<'p>, AllocError>
        ensures { IfOk result (λ o. plain_op o ≡ op 0 span (compute (free (plain_site self.now)) (object number (width (plain_site self.now).program (plain_type t.now))))) }
    {
        let free = self.free()?;
        let x = Computation::Object(number, width(self.program, t)?);
        Ok(op(0, span, Action::Compute(free, x)))
    }

    /// A value that is stored in the object whose address stands in the first free slot.
    fn stored_code(&self, v: &'p Value, span: Span, at: usize) -> Result<Vec<Op<'p>>, AllocError>
        ensures { IfOk result (λ code. map plain_op code.items ≡ value_code (plain_site self.now) (free (plain_site self.now) + 1) (free (plain_site self.now) + 2) 0 at (plain_value v.now) ++ op (debt 0 (plain_value v.now)) span (store (slot (free (plain_site self.now))) (operand (plain_site self.now) (free (plain_site self.now) + 1) (plain_value v.now))) ∷ []) }
    {
        let start = self.statement_start(at)?;
        let Part {
            code,
            debt,
            operand,
        } = self.part(v, start.second(0, at)?)?;
        let store = Action::Store(Operand::Slot(start.slot), operand);
        ended(code, op(debt, span, store))
    }

    /// A structure is copied to the object at a pointer.
    fn copied_code(
        &self,
        place: &'p Place,
        t: &CType,
        to: Operand,
        span: Span,
        at: usize,
    ) -> Result<Vec<Op<'p>>, AllocError>
        ensures { IfOk result (λ code. map plain_op code.items ≡ copied_code (plain_site self.now) span (plain_type t.now) (plain_operand to) at (plain_place place.now)) }
    {
        let width = width(self.program, t)?;
        let start = self.statement_start(at)?;
        let Part {
            code,
            debt,
            operand,
        } = self.place_part(place, start.second(1, at)?)?;
        let copy = Action::Copy(to, operand, place.at.span, width);
        ended(code, op(debt, span, copy))
    }

    /// A list is written to the object at a pointer.
    fn listed_code(
        &self,
        items: &'p [Item],
        t: &'p CType,
        to: Operand,
        span: Span,
        at: usize,
    ) -> Result<Vec<Op<'p>>, AllocError>
        ensures { IfOk result (λ code. map plain_op code.items ≡ listed_code (plain_site self.now) span (plain_type t.now) (plain_operand to) at (map plain_item items.now)) }
    {
        let start = self.statement_start(at)?.second(0, at)?;
        let code = self.items_code(items, start.slot, at)?;
        ended(code, op(0, span, Action::Fill(to, t, items, start.slot)))
    }

    /// The values of a list's items, in slots one after the other.
    fn items_code(&self, items: &'p [Item], slot: u32, at: usize) -> Result<Vec<Op<'p>>, AllocError>
        ensures { IfOk result (λ code. map plain_op code.items ≡ items_code (plain_site self.now) slot at (map plain_item items.now)) }
    {
        let mut code = none(self.alloc);
        let mut next = slot;
        for item in items {
            let begins = past(at, code.as_slice())?;
            let more = self.written_code(&item.written, next, begins)?;
            code = joined(code, more)?;
            next = slot_after(next, item_slots(&item.written))?;
        }
        Ok(code)
    }

    /// The value of an item, in a slot; bytes have no code.
    fn written_code(
        &self,
        written: &'p Written,
        slot: u32,
        at: usize,
    ) -> Result<Vec<Op<'p>>, AllocError>
        ensures { IfOk result (λ code. map plain_op code.items ≡ written_code (plain_site self.now) slot at (plain_written written.now)) }
    {
        match written {
            Written::Scalar(v) => self.into_code(v, Start::at_slot(slot, 0, at)?),
            Written::Text(_) => Ok(none(self.alloc)),
        }
    }
}

/// How many slots an item has.
fn item_slots(written: &Written) -> u32
    ensures { result ≡ item_slots (plain_written written.now) }
{
    match written {
        Written::Scalar(_) => 1,
        Written::Text(_) => 0,
    }
}
