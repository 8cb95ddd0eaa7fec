//! What an object is made of, and where it comes from.

ghost use Rattle.std.specs.Prelude.{◌≡◌, false, length, IfOk, IfSome};
ghost use Rattle.p10_core.specs.Types.{plain_type, structure};
ghost use Rattle.p10_core.specs.Views.{plain_program, plain_types};
ghost use Rattle.p10_core.specs.Sizes.{scalars_of};
ghost use Rattle.p10_core.specs.WholePrograms.{AreWholeStructures, IsWholeProgram, IsWholeType};

use p10_core::{CType, Program, TypeForm, Types};
use p10_meaning::Cell;
use std::alloc::{AllocError, Global};

/// What an element of an object is made of.
#[derive(Clone, Copy, Debug, Drop)]
pub struct Shape {
    /// How many scalars it has.
    pub scalars: u64,
}

impl Shape {
    /// The shape of a type of a whole program: as many scalars as the type lists. It takes no memory; where their number
    /// exceeds that of all addresses, no memory has room for such an object.
    pub fn of(alloc: Global, p: &Program<'_>, t: &CType) -> Result<Shape, AllocError>
        requires program { IsWholeProgram (plain_program p.now) }
        requires of_program { IsWholeType (plain_program p.now).structures (plain_type t.now) }
        ensures { IfOk result (λ shape. shape.scalars ≡ length (scalars_of (plain_program p.now).structures (plain_type t.now))) }
    {
        let _ = alloc;
        match scalars(&p.types, t) {
            Some(scalars) => Ok(Shape { scalars }),
            None => Err(AllocError),
        }
    }
}

/// How many scalars a type has.
#[tactic(auto, unfolding(p10_core::specs::Sizes::layout_of))]
fn scalars(types: &Types<'_>, t: &CType) -> Option<u64>
    requires structures { AreWholeStructures (plain_types types.now) }
    ensures { IfSome result (λ n. n ≡ length (scalars_of (plain_types types.now) (plain_type t.now))) }
{
    match &t.form {
        TypeForm::Void => Some(0),
        TypeForm::Int(_) | TypeForm::Pointer(_) => Some(1),
        TypeForm::Array(element, length) => (*length).checked_mul(scalars(types, element)?),
        TypeForm::Struct(number) => Some(structure_scalars(types, *number)),
    }
}

/// How many scalars a structure has; 0 where it isn't complete.
fn structure_scalars(types: &Types<'_>, number: u32) -> u64
    requires structures { AreWholeStructures (plain_types types.now) }
    ensures { result ≡ length (scalars_of (plain_types types.now) (structure false number)) }
{
    match types.body(number) {
        Some(body) => body.scalars,
        None => 0,
    }
}

/// Where an object comes from (C99 6.2.4).
#[derive(Clone, Copy, Debug, Drop)]
pub enum Origin<'b> {
    /// A declaration: its scalars are unset.
    Declared,
    /// `malloc`: its scalars are unset. Only what was allocated is freed.
    Allocated,
    /// A string literal with these bytes: its scalars are the bytes as values of `char`, and may not be written.
    Literal(&'b [u8]),
    /// A declaration with an initial value: its scalars are these cells.
    DeclaredWith(&'b [Cell]),
    /// `calloc`: its scalars are these cells.
    AllocatedWith(&'b [Cell]),
}
