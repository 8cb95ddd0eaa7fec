//! What names stand for.

ghost use Rattle.std.specs.Prelude.{◌≡◌, slice_get, option_map, map, length, eqb};
ghost use Rattle.std.specs.Result.{result_map_both};
ghost use Rattle.p10_core.specs.Types.{plain_type};
ghost use Rattle.p10_core.specs.Views.{plain_program, plain_types, plain_literal, plain_object};
ghost use Rattle.p10_core.specs.Typed.{PlainLiteral};
ghost use Rattle.std.specs.List.{position_from};
ghost use Rattle.p10_core.specs.WholePrograms.{AreWholeStructures};
ghost use Rattle.p10_meaning.specs.Pointers.{first_of};
ghost use Rattle.p10_meaning.specs.Values.{width, variable_target, global_target, literal_number, literal_target};
ghost use Rattle.p10_interp.specs.private.Views.{Finds, target_of};
ghost use Rattle.p10_interp.specs.private.Standing.{held_of};

use crate::held::Held;
use crate::widths::width_of;
use crate::work::{Halt, Target};
use p10_base::Span;
use p10_core::{CType, Global, Literal, Program};
use p10_meaning::{Ptr, Window};
use p10_store::Stop;

/// The pointer to a single object of `scalars` scalars.
pub fn single(object: u128, scalars: u64) -> Ptr
    ensures { result ≡ first_of object scalars 1 }
{
    Ptr::To {
        object,
        window: Window {
            start: 0,
            stride: scalars,
            count: 1,
            inside: true,
            whole: true,
        },
        position: 0,
    }
}

/// The place that a variable is: U8 where its declaration wasn't executed.
pub fn variable_target(
    p: &Program<'_>,
    t: &CType,
    number: u32,
    held: Option<Held>,
    span: Span,
) -> Result<Target, Halt>
    requires structures { AreWholeStructures (plain_types p.now.types) }
    ensures { Finds (variable_target number (width (plain_program p.now) (plain_type t.now)) (option_map held_of held)) span (result_map_both (λ t. target_of t) (λ e. e) result) }
{
    match held {
        Some(Held::Holds(_)) => Ok(Target::Variable(number)),
        Some(Held::Stands(object)) => match width_of(&p.types, t) {
            Some(scalars) => Ok(Target::Element(single(object, scalars))),
            None => Err(Halt::Memory),
        },
        Some(Held::Absent) | None => Err(Halt::Undefined(Stop::U8, span)),
    }
}

/// The place that an object of static lifetime is, or a sensor.
pub fn global_target(p: &Program<'_>, t: &CType, number: u32, span: Span) -> Result<Target, Halt>
    requires structures { AreWholeStructures (plain_types p.now.types) }
    ensures { Finds (global_target number (width (plain_program p.now) (plain_type t.now)) (slice_get (plain_program p.now).objects number)) span (result_map_both (λ t. target_of t) (λ e. e) result) }
{
    match p.globals.as_slice().get(number as usize) {
        Some(object) => {
            if object.sensor {
                return Ok(Target::Sensor);
            }
            match width_of(&p.types, t) {
                Some(scalars) => Ok(Target::Element(single(number as u128, scalars))),
                None => Err(Halt::Memory),
            }
        }
        None => Err(Halt::Undefined(Stop::U8, span)),
    }
}

/// The place of a string literal among those of the program.
fn literal_place(literals: &[Literal], number: u32) -> Option<usize>
    ensures { result ≡ position_from (λ (l : PlainLiteral). eqb l.number number) 0 (map plain_literal literals.now) }
{
    for (place, literal) in literals.iter().enumerate() {
        if literal.number == number {
            return Some(place);
        }
    }
    None
}

/// The number of the object of a string literal: they come after those of static lifetime.
fn literal_object(globals: usize, literals: &[Literal], number: u32) -> Option<u128>
    ensures { result ≡ literal_number number globals (map plain_literal literals.now) }
{
    match literal_place(literals, number) {
        Some(place) => Some(globals as u128 + place as u128),
        None => None,
    }
}

/// The place that a string literal is (C99 6.4.5p5).
pub fn literal_target(p: &Program<'_>, t: &CType, number: u32, span: Span) -> Result<Target, Halt>
    requires structures { AreWholeStructures (plain_types p.now.types) }
    ensures { Finds (literal_target (width (plain_program p.now) (plain_type t.now)) (literal_number number (length (plain_program p.now).objects) (plain_program p.now).literals)) span (result_map_both (λ t. target_of t) (λ e. e) result) }
{
    let globals = objects_in(p.globals.as_slice());
    match literal_object(globals, p.literals.as_slice(), number) {
        Some(object) => match width_of(&p.types, t) {
            Some(scalars) => Ok(Target::Element(single(object, scalars))),
            None => Err(Halt::Memory),
        },
        None => Err(Halt::Undefined(Stop::U8, span)),
    }
}

/// How many objects of static lifetime there are.
fn objects_in(globals: &[Global<'_>]) -> usize
    ensures { result ≡ length (map plain_object globals.now) }
{
    globals.len()
}
