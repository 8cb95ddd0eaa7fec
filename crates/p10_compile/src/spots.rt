//! What places are.

ghost use Rattle.std.specs.Prelude.{◌≡◌, ℕ, map, eqb, slice_get};
ghost use Rattle.std.specs.List.{position_from};
ghost use Rattle.p10_core.specs.Typed.{PlainLiteral};
ghost use Rattle.p10_core.specs.Views.{plain_variable, plain_place, plain_literal, plain_object};
ghost use Rattle.p10_meaning.specs.Values.{literal_number};
ghost use Rattle.p10_code.specs.ValueCode.{spot_of_variable, spot_of_global, spot_of_literal};
ghost use Rattle.p10_compile.specs.Views.{plain_spot};

use crate::operations::Operand;
use crate::site::Site;
use p10_core::{Global, Literal, Place, PlaceForm, Variable};

/// What a place is: a frame variable, a sensor, a place in an object, or none, so the run stops there.
#[derive(Clone, Copy, Debug, PartialEq, Eq)]
pub enum Spot {
    InFrame(u32),
    AtSensor,
    InObject,
    Nowhere,
}

/// What the variable with a number is.
pub fn spot_of_variable(variables: &[Variable<'_>], number: u32) -> Spot
    ensures { plain_spot result ≡ spot_of_variable number (slice_get (map plain_variable variables.now) number) }
{
    match variables.get(number as usize) {
        Some(variable) => {
            if variable.frame {
                Spot::InFrame(number)
            } else {
                Spot::InObject
            }
        }
        None => Spot::Nowhere,
    }
}

/// What the object of static lifetime with a number is.
pub fn spot_of_global(globals: &[Global<'_>], number: u32) -> Spot
    ensures { plain_spot result ≡ spot_of_global (slice_get (map plain_object globals.now) number) }
{
    match globals.get(number as usize) {
        Some(object) => {
            if object.sensor {
                Spot::AtSensor
            } else {
                Spot::InObject
            }
        }
        None => Spot::Nowhere,
    }
}

/// What the string literal with a number is.
pub fn spot_of_literal(literals: &[Literal], number: u32) -> Spot
    ensures { (from : ℕ) → plain_spot result ≡ spot_of_literal (literal_number number from (map plain_literal literals.now)) }
{
    match literal_place(literals, number) {
        Some(_) => Spot::InObject,
        None => Spot::Nowhere,
    }
}

/// The place of a string literal among those of the program.
pub fn literal_place(literals: &[Literal], number: u32) -> Option<usize>
    ensures { result ≡ position_from (λ (l : PlainLiteral). eqb l.number number) 0 (map plain_literal literals.now) }
{
    for (place, literal) in literals.iter().enumerate() {
        if literal.number == number {
            return Some(place);
        }
    }
    None
}

impl Site<'_, '_> {
    ghost use Rattle.p10_code.specs.ValueCode.{spot_of};
    ghost use Rattle.p10_compile.specs.Views.{plain_site};

    /// What a place is.
    pub fn spot_of(&self, place: &Place) -> Spot
        ensures { plain_spot result ≡ spot_of (plain_site self.now) (plain_place place.now) }
    {
        match &place.form {
            PlaceForm::Var(number) => spot_of_variable(self.variables, *number),
            PlaceForm::Global(number) => {
                spot_of_global(self.program.globals.as_slice(), *number)
            }
            PlaceForm::Literal(number, _) => {
                spot_of_literal(self.program.literals.as_slice(), *number)
            }
            PlaceForm::Index(_, _) | PlaceForm::Member(_, _) | PlaceForm::Deref(_) => {
                Spot::InObject
            }
        }
    }
}

impl Spot {
    ghost use Rattle.p10_code.specs.ValueCode.{pointer_by, read_operand, debt_by};
    ghost use Rattle.p10_compile.specs.Views.{plain_operand};

    /// The pointer to a place of this kind, where that of an object stands in slot `k`.
    pub fn pointer(self, k: u32) -> Operand
        ensures { plain_operand result ≡ pointer_by (plain_spot self) k }
    {
        match self {
            Spot::InObject => Operand::Slot(k),
            _ => Operand::Null,
        }
    }

    /// The operand that is read from a place of this kind.
    pub fn read(self, k: u32) -> Operand
        ensures { plain_operand result ≡ read_operand (plain_spot self) k }
    {
        match self {
            Spot::InFrame(number) => Operand::Slot(number),
            _ => Operand::Slot(k),
        }
    }

    /// The debt after a place of this kind.
    pub fn debt(self, d: u64) -> u64
        ensures { result ≡ debt_by (plain_spot self) d }
    {
        match self {
            Spot::AtSensor => d,
            _ => 0,
        }
    }
}
