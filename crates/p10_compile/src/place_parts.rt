//! The code of names. Each of these functions fails only where memory runs out.

ghost use Rattle.std.specs.Prelude.{◌≡◌, ◌+◌, length, map, IfOk, slice_get};
ghost use Rattle.std.specs.Option.{option_map};
ghost use Rattle.p10_core.specs.Types.{plain_type};
ghost use Rattle.p10_int.specs.declared.operators.Stop.TheVariants.{U8};
ghost use Rattle.p10_meaning.specs.Values.{width, literal_number};
ghost use Rattle.p10_code.specs.Operations.{compute, object, static_object, present, halt};
ghost use Rattle.p10_code.specs.ValueCode.{spot_of_variable, spot_of_global, name_code, literal_code};
ghost use Rattle.p10_compile.specs.Views.{plain_op, plain_site};

use crate::code::{none, one, op};
use crate::operations::{Action, Computation, Op};
use crate::site::Site;
use crate::spots::{Spot, literal_place, spot_of_global, spot_of_variable};
use crate::start::Start;
use crate::widths::width;
use p10_core::Place;
use p10_int::Stop;
use std::alloc::AllocError;

impl Site<'_, '_> {
    /// The name of a variable.
    pub fn variable_code<'p>(
        &self,
        number: u32,
        place: &Place,
        start: Start,
    ) -> Result<Vec<Op<'p>>, AllocError>
        ensures { IfOk result (λ code. map plain_op code.items ≡ name_code (spot_of_variable number (slice_get (plain_site self.now).variables number)) start.debt place.now.at.span (present number) (compute start.slot (object number (width (plain_site self.now).program (plain_type place.now.ty))))) }
    {
        let span = place.at.span;
        match spot_of_variable(self.variables, number) {
            Spot::InFrame(_) => one(self.alloc, op(start.debt, span, Action::Present(number))),
            Spot::AtSensor => Ok(none(self.alloc)),
            Spot::InObject => {
                let x = Computation::Object(number, width(self.program, &place.ty)?);
                one(
                    self.alloc,
                    op(start.debt, span, Action::Compute(start.slot, x)),
                )
            }
            Spot::Nowhere => one(self.alloc, op(start.debt, span, Action::Halt(Stop::U8))),
        }
    }

    /// The name of an object of static lifetime.
    pub fn global_code<'p>(
        &self,
        number: u32,
        place: &Place,
        start: Start,
    ) -> Result<Vec<Op<'p>>, AllocError>
        ensures { IfOk result (λ code. map plain_op code.items ≡ name_code (spot_of_global (slice_get (plain_site self.now).program.objects number)) start.debt place.now.at.span (halt U8) (compute start.slot (static_object number (width (plain_site self.now).program (plain_type place.now.ty))))) }
    {
        let span = place.at.span;
        match spot_of_global(self.program.globals.as_slice(), number) {
            Spot::AtSensor => Ok(none(self.alloc)),
            Spot::InObject => {
                let width = width(self.program, &place.ty)?;
                let x = Computation::StaticObject(number as u64, width);
                one(
                    self.alloc,
                    op(start.debt, span, Action::Compute(start.slot, x)),
                )
            }
            Spot::InFrame(_) => one(self.alloc, op(start.debt, span, Action::Halt(Stop::U8))),
            Spot::Nowhere => one(self.alloc, op(start.debt, span, Action::Halt(Stop::U8))),
        }
    }

    /// A string literal.
    pub fn literal_code<'p>(
        &self,
        number: u32,
        place: &Place,
        start: Start,
    ) -> Result<Vec<Op<'p>>, AllocError>
        ensures { IfOk result (λ code. map plain_op code.items ≡ literal_code (literal_number number (length (plain_site self.now).program.objects) (plain_site self.now).program.literals) start.debt place.now.at.span start.slot (width (plain_site self.now).program (plain_type place.now.ty))) }
    {
        let span = place.at.span;
        match self.literal_object(number)? {
            Some(object) => {
                let x = Computation::StaticObject(object, width(self.program, &place.ty)?);
                one(
                    self.alloc,
                    op(start.debt, span, Action::Compute(start.slot, x)),
                )
            }
            None => one(self.alloc, op(start.debt, span, Action::Halt(Stop::U8))),
        }
    }

    /// The number of the object that a string literal is, if there is one: the objects of static lifetime come first.
    fn literal_object(&self, number: u32) -> Result<Option<u64>, AllocError>
        ensures { IfOk result (λ o. o ≡ literal_number number (length (plain_site self.now).program.objects) (plain_site self.now).program.literals) }
    {
        let objects = self.program.globals.as_slice().len();
        object_after(
            objects,
            literal_place(self.program.literals.as_slice(), number),
        )
    }
}

/// The number of an object, so many after others.
fn object_after(objects: usize, place: Option<usize>) -> Result<Option<u64>, AllocError>
    ensures { IfOk result (λ o. o ≡ option_map (λ j. objects + j) place) }
{
    match place {
        Some(place) => match objects.checked_add(place) {
            Some(object) => Ok(Some(object as u64)),
            None => Err(AllocError),
        },
        None => Ok(None),
    }
}
