//! Whether objects of static lifetime and string literals are whole (C99 6.2.4p3, 6.4.5p5, 6.7.8p4).

ghost use Rattle.std.specs.Prelude.{◌≡◌, ◌≤◌, All, length, map, sum};
ghost use Rattle.p10_core.specs.Views.{plain_program, plain_object, plain_literal};
ghost use Rattle.p10_core.specs.WholePrograms.{AreRising, IsExtent, IsWholeObject};
ghost use Rattle.p10_whole.specs.private.Shows.{Shows};

use crate::around::Around;
use crate::functions::has_size;
use crate::initializers::{is_static_initializer, is_whole_initializer};
use crate::switches::is_below;
use p10_base::Limit;
use p10_core::{Extent, Global, Literal, Program};

/// Whether each object is whole in a program.
pub(crate) fn are_whole_objects(program: &Program<'_>, all: &[Global<'_>]) -> bool
    ensures { Shows result (All (IsWholeObject (plain_program program.now)) (map plain_object all.now)) }
{
    for object in all {
        if !is_whole_object(program, object) {
            return false;
        }
    }
    true
}

/// Whether an object of a program is whole.
fn is_whole_object(program: &Program<'_>, object: &Global<'_>) -> bool
    ensures { Shows result (IsWholeObject (plain_program program.now) (plain_object object.now)) }
{
    let around = Around {
        program,
        variables: &[],
        parameters: 0,
        scope: &[],
    };
    let size = has_size(&program.types, &object.ty, object.bytes)
        & (object.bytes <= Limit::MOST_OBJECT_BYTES);
    let initializer = is_whole_initializer(&around, &object.ty, &object.init)
        & is_static_initializer(&object.init);
    let owner = is_below(object.owner, program.functions.as_slice().len());
    let sensor = !object.sensor | object.ty.is_integer();
    let visible = are_extents(program, object.visible.as_slice());
    (size & initializer) & (owner & (sensor & visible))
}

/// Whether each extent is one of a program's functions.
fn are_extents(program: &Program<'_>, all: &[Extent]) -> bool
    ensures { Shows result (All (IsExtent (plain_program program.now)) all.now) }
{
    for extent in all {
        if !is_extent(program, extent) {
            return false;
        }
    }
    true
}

/// Whether an extent is one of a program's functions.
fn is_extent(program: &Program<'_>, extent: &Extent) -> bool
    ensures { Shows result (IsExtent (plain_program program.now) extent.now) }
{
    let count = program.functions.as_slice().len();
    (extent.from <= extent.to) & ((extent.to as usize) <= count)
}

/// Whether the bytes of all objects are no more than a program may have.
pub(crate) fn are_few_bytes(all: &[Global<'_>]) -> bool
    ensures { Shows result (sum (map (λ o. o.bytes) (map plain_object all.now)) ≤ Limit.MOST_STATIC_BYTES) }
{
    let mut total = 0;
    for object in all {
        if object.bytes > Limit::MOST_STATIC_BYTES - total {
            return false;
        }
        total += object.bytes;
    }
    true
}

/// Whether the numbers of string literals rise.
pub(crate) fn are_rising(all: &[Literal]) -> bool
    ensures { Shows result (AreRising 0 (map plain_literal all.now)) }
{
    let mut from = 0;
    for literal in all {
        let number = u64::from(literal.number);
        if number < from {
            return false;
        }
        from = number + 1;
    }
    true
}

/// Whether no string literal is larger than an object may be.
pub(crate) fn are_small_literals(all: &[Literal]) -> bool
    ensures { Shows result (All (λ l. length l.bytes ≤ Limit.MOST_OBJECT_BYTES) (map plain_literal all.now)) }
{
    for literal in all {
        if literal.bytes.as_slice().len() as u64 > Limit::MOST_OBJECT_BYTES {
            return false;
        }
    }
    true
}
