//! Rule 6: objects and variables that are used in one part of their scope alone.

ghost use Rattle.std.specs.Prelude.{◌≡◌, ◌≤◌, ◌++◌, ◌&&◌, All, IfOk, length, map, option_map, option_copied, slice_get};
ghost use Rattle.std.specs.List.{flat_map};
ghost use Rattle.p10_core.specs.Views.{plain_function, plain_object, plain_variable};
ghost use Rattle.p10_userules.specs.Violations.{row};
ghost use Rattle.p10_userules.specs.private.Spreads.{StretchesRise, HasRising, lies_in_one};
ghost use Rattle.p10_userules.specs.private.Knowing.{function_uses_of};
ghost use Rattle.p10_userules.specs.private.Listing.{violation_where, violation_at, is_at_file_scope, wide_objects, flattened, spread_for, name_of, wide_in, wide_in_block};

use crate::listing::put_if;
use crate::occurrences::Referent;
use crate::parts::{BlockParts, Stretch};
use crate::spreads::{Spread, lies_in_one};
use p10_base::{Span, Sub, Violation};
use p10_core::{Func, Global as StaticObject, Variable};
use std::alloc::AllocError;

/// A function, the objects of its program, and where the occurrences of its variables and of the objects lie.
#[derive(Clone, Copy)]
pub(crate) struct FunctionUses<'a, 's> {
    pub function: &'a Func<'s>,
    pub variables: &'a [Option<Spread>],
    pub objects: &'a [StaticObject<'s>],
    pub object_spreads: &'a [Option<Spread>],
}

/// Where the occurrences of what has a number lie, if it is there.
fn spread_among(spreads: &[Option<Spread>], number: u32) -> Option<Spread>
    ensures { result ≡ flattened (slice_get spreads.now number) }
{
    match spreads.get(number as usize) {
        Some(spread) => *spread,
        None => None,
    }
}

/// Where the occurrences of something lie.
fn spread_for(known: &FunctionUses<'_, '_>, x: Referent) -> Option<Spread>
    ensures { result ≡ spread_for known.now.variables.now known.now.object_spreads.now x }
{
    match x {
        Referent::Variable(number) => spread_among(known.variables, number),
        Referent::Object(number) => spread_among(known.object_spreads, number),
    }
}

/// Where the name of a variable stands, if it is there.
fn variable_name(variables: &[Variable<'_>], number: u32) -> Option<Span>
    ensures { result ≡ option_map (λ v. v.span) (slice_get (map plain_variable variables.now) number) }
{
    match variables.get(number as usize) {
        Some(variable) => Some(variable.span),
        None => None,
    }
}

/// Where the name of an object stands, if it is there.
fn object_name(objects: &[StaticObject<'_>], number: u32) -> Option<Span>
    ensures { result ≡ option_map (λ o. o.span) (slice_get (map plain_object objects.now) number) }
{
    match objects.get(number as usize) {
        Some(object) => Some(object.span),
        None => None,
    }
}

/// Where the name of something stands, if it is there.
fn name_of(known: &FunctionUses<'_, '_>, x: Referent) -> Option<Span>
    ensures { result ≡ name_of (plain_function known.now.function.now) (map plain_object known.now.objects.now) x }
{
    match x {
        Referent::Variable(number) => variable_name(known.function.vars.as_slice(), number),
        Referent::Object(number) => object_name(known.objects, number),
    }
}

/// Puts a violation of a row after the others, where the row holds and there is a place.
fn put_at(
    sub: Sub,
    holds: bool,
    at: Option<Span>,
    found: &mut Vec<Violation>,
) -> Result<(), AllocError>
    ensures { IfOk result (λ _. found.new.items ≡ found.old.items ++ violation_at sub holds at) }
{
    match at {
        Some(span) => put_if(sub, holds, span, found),
        None => Ok(()),
    }
}

/// Puts the violations of 6.2 by something that a block declares after the others.
fn put_wide(
    known: &FunctionUses<'_, '_>,
    nested: &[Stretch],
    x: Referent,
    found: &mut Vec<Violation>,
) -> Result<(), AllocError>
    requires { StretchesRise nested.now }
    ensures { IfOk result (λ _. found.new.items ≡ found.old.items ++ wide_in (function_uses_of known.now) nested.now x) }
{
    let holds = lies_in_one(spread_for(known, x), nested);
    put_at(Sub { rule: 6, sub: 2 }, holds, name_of(known, x), found)
}

/// Puts the violations of 6.2 by what a block declares after the others.
fn put_block(
    known: &FunctionUses<'_, '_>,
    declared: &[Referent],
    nested: &[Stretch],
    found: &mut Vec<Violation>,
) -> Result<(), AllocError>
    requires { StretchesRise nested.now }
    ensures { IfOk result (λ _. found.new.items ≡ found.old.items ++ flat_map (wide_in (function_uses_of known.now) nested.now) declared.now) }
{
    for x in declared {
        put_wide(known, nested, *x, found)?;
    }
    Ok(())
}

/// Puts the violations of 6.2 by what blocks of a function declare after the others.
pub(crate) fn put_blocks(
    known: &FunctionUses<'_, '_>,
    blocks: &[BlockParts],
    found: &mut Vec<Violation>,
) -> Result<(), AllocError>
    requires { All HasRising blocks.now }
    ensures { IfOk result (λ _. found.new.items ≡ found.old.items ++ flat_map (wide_in_block (function_uses_of known.now)) blocks.now) }
{
    for block in blocks {
        put_block(
            known,
            block.declared.as_slice(),
            block.nested.as_slice(),
            found,
        )?;
    }
    Ok(())
}

/// Whether an object stands at file scope.
fn is_at_file_scope(o: &StaticObject<'_>) -> bool
    ensures { result ≡ is_at_file_scope (plain_object o.now).owner }
{
    match o.owner {
        None => true,
        Some(_) => false,
    }
}

/// Puts the violations of 6.1 by an object after the others.
fn put_object(
    o: &StaticObject<'_>,
    spread: Option<Spread>,
    functions: &[Stretch],
    found: &mut Vec<Violation>,
) -> Result<(), AllocError>
    requires { StretchesRise functions.now }
    ensures { IfOk result (λ _. found.new.items ≡ found.old.items ++ violation_where (row 6 1) (is_at_file_scope (plain_object o.now).owner && lies_in_one spread functions.now) (plain_object o.now).span) }
{
    let holds = is_at_file_scope(o) && lies_in_one(spread, functions);
    put_if(Sub { rule: 6, sub: 1 }, holds, o.span, found)
}

/// Puts the violations of 6.1 by objects after the others, where the occurrences of each lie as is said, and the functions
/// have these stretches.
pub(crate) fn put_objects(
    objects: &[StaticObject<'_>],
    spreads: &[Option<Spread>],
    functions: &[Stretch],
    found: &mut Vec<Violation>,
) -> Result<(), AllocError>
    requires spreads { length objects.now ≤ length spreads.now }
    requires rising { StretchesRise functions.now }
    ensures { IfOk result (λ _. found.new.items ≡ found.old.items ++ wide_objects functions.now (map plain_object objects.now) spreads.now) }
{
    let mut place = 0;
    while place < objects.len() {
        put_object(&objects[place], spreads[place], functions, found)?;
        place += 1;
    }
    Ok(())
}
