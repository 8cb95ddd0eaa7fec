//! Initialisers (C99 6.7.8). Braces aren't left out, except that `{0}` may stand for any aggregate.

ghost use Rattle.std.specs.Prelude.{◌≡◌, IfOk, map, option_map};
ghost use Rattle.p10_syn.specs.Trees.{initializer_row};
ghost use Rattle.p10_syn.specs.Built.{expression_of};
ghost use Rattle.p10_syn.specs.BuiltStatements.{initializer_of};
ghost use Rattle.p10_core.specs.Types.{plain_type};
ghost use Rattle.p10_core.specs.Typed.{listed};
ghost use Rattle.p10_core.specs.Views.{plain_value, plain_place, plain_item, plain_initializer};
ghost use Rattle.p10_elabx.specs.First.{only_first, lift, on};
ghost use Rattle.p10_elabx.specs.Built.{ruled_value};
ghost use Rattle.p10_elabd.specs.Standing.{noted};
ghost use Rattle.p10_elabd.specs.Initializers.{length_of, by_string, item_passed, items_passed, as_value, only_value, copied_place, copied_value, value_for, expression_passed, unbraced, initialized};
ghost use Rattle.p10_elabd.specs.ItemViews.{plain_items, plain_slots, plain_text, list_written, braced, ruled_initializer};
ghost use Rattle.p10_elabd.specs.Views.{plain_standing, told};

use crate::expressions::expression_value;
use crate::items::{
    Part, braced_scalar, expression_item, item_added, no_surplus, scalar_value, text_item,
};
use crate::lifetime::Lifetime;
use crate::slots::{Slots, place_after, scalar_count, slots_of, zero_item};
use crate::standing::Standing;
use crate::strings::{Text, holds_characters, is_zero_list, string_alone, string_by};
use p10_base::{At, SubsetCode};
use p10_core::{CType, Initializer, Item, Place, TypeForm, Value, ValueForm, Written};
use p10_elabx::Problem;
use p10_syn::{Expr, Init};
use std::alloc::{AllocError, Global};

/// The length of an array; 0 of another type.
fn length_of(ty: &CType) -> u64
    ensures { result ≡ length_of (plain_type ty.now) }
{
    match &ty.form {
        TypeForm::Array(_, length) => *length,
        TypeForm::Void | TypeForm::Int(_) | TypeForm::Pointer(_) | TypeForm::Struct(_) => 0,
    }
}

/// An expression as an item, which may be a string for an array of characters.
fn by_string<'s>(
    alloc: Global,
    standing: &mut Standing<'s>,
    part: Part<'_>,
    e: &Expr<'s>,
    text: Option<Text>,
) -> Result<Option<Item>, AllocError>
    ensures { IfOk result (λ made. told (option_map plain_item made) standing.new ≡ by_string only_first part.entry.life (plain_type part.entry.ty.now) part.entry.scalar (plain_standing standing.old) (expression_of e.now) (option_map plain_text text)) }
{
    match text {
        None => {
            let item = expression_item(alloc, standing, part, e)?;
            Ok(item)
        }
        Some(text) => Ok(text_item(
            standing,
            length_of(part.ty),
            part.scalar,
            text.at,
            text.bytes,
        )),
    }
}

/// What is written for the scalars of a part, after the items before.
#[cycle(items)]
fn item_passed<'s>(
    alloc: Global,
    standing: &mut Standing<'s>,
    part: Part<'_>,
    items: Option<Vec<Item>>,
    one: &Init<'s>,
) -> Result<Option<Vec<Item>>, AllocError>
    ensures { IfOk result (λ made. told (plain_items made) standing.new ≡ item_passed only_first part.entry.life (plain_type part.entry.ty.now) part.entry.scalar (told (plain_items items) standing.old) (initializer_of one.now)) }
{
    match one {
        Init::Value(e) => {
            let text = string_by(alloc, holds_characters(part.ty), one)?;
            let item = by_string(alloc, standing, part, e, text)?;
            let items = item_added(items, item)?;
            Ok(items)
        }
        Init::Braced(at, all, _) => {
            let items = list_passed(alloc, standing, part, items, *at, all)?;
            Ok(items)
        }
    }
}

/// What is written in braces for the scalars of a part.
#[cycle(items)]
fn list_passed<'s>(
    alloc: Global,
    standing: &mut Standing<'s>,
    part: Part<'_>,
    items: Option<Vec<Item>>,
    at: At,
    all: &[Init<'s>],
) -> Result<Option<Vec<Item>>, AllocError>
    ensures { IfOk result (λ made. told (plain_items made) standing.new ≡ list_written part.entry.life (plain_type part.entry.ty.now) part.entry.scalar (told (plain_items items) standing.old) at (initializer_row (map initializer_of all.now))) }
{
    if part.ty.is_scalar() {
        let items = braced_scalar(alloc, standing, part, items, all)?;
        return Ok(items);
    }
    if is_zero_list(all) {
        let item = zero_item(alloc, &standing.scope.types, at, part.ty, part.scalar)?;
        let items = item_added(items, item)?;
        return Ok(items);
    }
    match string_alone(alloc, holds_characters(part.ty), all)? {
        Some(text) => {
            let length = length_of(part.ty);
            let item = text_item(standing, length, part.scalar, text.at, text.bytes);
            let items = item_added(items, item)?;
            Ok(items)
        }
        None => {
            let slots = slots_of(alloc, &standing.scope.types, part.ty)?;
            let items = items_passed(alloc, standing, part, &slots, items, all)?;
            Ok(items)
        }
    }
}

/// Items for the parts of an aggregate.
#[cycle(items)]
fn items_passed<'s>(
    alloc: Global,
    standing: &mut Standing<'s>,
    part: Part<'_>,
    slots: &Slots,
    items: Option<Vec<Item>>,
    all: &[Init<'s>],
) -> Result<Option<Vec<Item>>, AllocError>
    ensures { IfOk result (λ made. told (plain_items made) standing.new ≡ items_passed only_first part.entry.life (plain_slots slots.now) part.entry.scalar (told (plain_items items) standing.old) (initializer_row (map initializer_of all.now))) }
{
    let mut items = items;
    let mut scalar = part.scalar;
    for (i, one) in all.iter().enumerate() {
        match slots.get(i) {
            None => {
                let items = no_surplus(alloc, standing, items, &all[i..])?;
                return Ok(items);
            }
            Some(ty) => {
                let count = scalar_count(&standing.scope.types, ty);
                let next = Part {
                    life: part.life,
                    ty,
                    scalar,
                };
                items = item_passed(alloc, standing, next, items, one)?;
                scalar = place_after(scalar, count)?;
            }
        }
    }
    Ok(items)
}

/// What is written, as a value.
fn as_value(item: Item) -> Option<Initializer>
    ensures { option_map plain_initializer result ≡ as_value (plain_item item).written }
{
    match item.written {
        Written::Scalar(v) => Some(Initializer::single(v)),
        Written::Text(_) => None,
    }
}

/// The only item of a scalar's braces as its value.
fn only_value(items: Option<Vec<Item>>) -> Option<Initializer>
    ensures { option_map plain_initializer result ≡ only_value (plain_items items) }
{
    match items {
        None => None,
        Some(items) => {
            if items.len() == 1 {
                let mut items = items;
                match items.pop() {
                    Some(item) => as_value(item),
                    None => None,
                }
            } else {
                None
            }
        }
    }
}

/// Items as a list with its place.
fn as_listed(at: At, items: Option<Vec<Item>>) -> Option<Initializer>
    ensures { option_map plain_initializer result ≡ option_map (listed at) (plain_items items) }
{
    match items {
        None => None,
        Some(items) => Some(Initializer::listed(at, items)),
    }
}

/// The copy of a structure, which is no constant.
fn copied_value(life: Lifetime, ty: CType, v: Value) -> Result<Initializer, Option<Problem>>
    ensures { ruled_initializer result ≡ copied_value life (plain_type ty) (plain_value v) }
{
    let Value { at, ty: of, form } = v;
    let differ = Problem {
        code: SubsetCode::TypesDiffer,
        at,
    };
    match form {
        ValueForm::Read(place) => {
            if ty.unqualified().is_same(&of) {
                copied_place(life, at, Box::into_inner(place))
            } else {
                Err(Some(differ))
            }
        }
        _ => Err(Some(differ)),
    }
}

/// A copy of a place, which is no constant.
fn copied_place(life: Lifetime, at: At, place: Place) -> Result<Initializer, Option<Problem>>
    ensures { ruled_initializer result ≡ copied_place life at (plain_place place) }
{
    match life {
        Lifetime::Automatic => Ok(Initializer::copied(place)),
        Lifetime::Static => Err(Some(Problem {
            code: SubsetCode::NotConstant,
            at,
        })),
    }
}

/// A value for an object of a type: of a structure it is copied.
fn value_for(
    alloc: Global,
    life: Lifetime,
    ty: &CType,
    v: Value,
) -> Result<Result<Initializer, Option<Problem>>, AllocError>
    ensures { IfOk result (λ r. ruled_initializer r ≡ value_for life (plain_type ty.now) (plain_value v)) }
{
    match &ty.form {
        TypeForm::Struct(_) => {
            let ty = ty.copy(alloc)?;
            Ok(copied_value(life, ty, v))
        }
        TypeForm::Array(_, _) => Ok(Err(Some(Problem {
            code: SubsetCode::TypesDiffer,
            at: v.at,
        }))),
        TypeForm::Void | TypeForm::Int(_) | TypeForm::Pointer(_) => {
            match scalar_value(alloc, life, ty, v)? {
                Ok(v) => Ok(Ok(Initializer::single(v))),
                Err(problem) => Ok(Err(problem)),
            }
        }
    }
}

/// The same, if the value is found.
fn value_found(
    alloc: Global,
    life: Lifetime,
    ty: &CType,
    found: Result<Value, Option<Problem>>,
) -> Result<Result<Initializer, Option<Problem>>, AllocError>
    ensures { IfOk result (λ r. lift (ruled_initializer r) ≡ on (lift (ruled_value found)) (value_for life (plain_type ty.now))) }
{
    match found {
        Ok(v) => {
            let made = value_for(alloc, life, ty, v)?;
            Ok(made)
        }
        Err(problem) => Ok(Err(problem)),
    }
}

/// An initialiser that is found; a problem is noted.
fn initializer_noted(
    standing: &mut Standing<'_>,
    found: Result<Initializer, Option<Problem>>,
) -> Option<Initializer>
    ensures { told (option_map plain_initializer result) standing.new ≡ noted only_first (lift (ruled_initializer found)) (plain_standing standing.old) }
{
    match found {
        Ok(made) => Some(made),
        Err(problem) => {
            standing.note(problem);
            None
        }
    }
}

/// An expression for an object of a type.
fn expression_passed<'s>(
    alloc: Global,
    standing: &mut Standing<'s>,
    life: Lifetime,
    ty: &CType,
    e: &Expr<'s>,
) -> Result<Option<Initializer>, AllocError>
    ensures { IfOk result (λ made. told (option_map plain_initializer made) standing.new ≡ expression_passed only_first life (plain_type ty.now) (plain_standing standing.old) (expression_of e.now)) }
{
    let value = expression_value(alloc, standing, e)?;
    let found = value_found(alloc, life, ty, value)?;
    Ok(initializer_noted(standing, found))
}

/// An initialiser that isn't in braces, which may be a string.
fn unbraced<'s>(
    alloc: Global,
    standing: &mut Standing<'s>,
    life: Lifetime,
    ty: &CType,
    e: &Expr<'s>,
    text: Option<Text>,
) -> Result<Option<Initializer>, AllocError>
    ensures { IfOk result (λ made. told (option_map plain_initializer made) standing.new ≡ unbraced only_first life (plain_type ty.now) (plain_standing standing.old) (expression_of e.now) (option_map plain_text text)) }
{
    match text {
        None => {
            let made = expression_passed(alloc, standing, life, ty, e)?;
            Ok(made)
        }
        Some(text) => {
            let at = text.at;
            let item = text_item(standing, length_of(ty), 0, at, text.bytes);
            let items = item_added(Some(Vec::new(alloc)), item)?;
            Ok(as_listed(at, items))
        }
    }
}

/// An initialiser in braces.
fn braced<'s>(
    alloc: Global,
    standing: &mut Standing<'s>,
    life: Lifetime,
    ty: &CType,
    at: At,
    all: &[Init<'s>],
) -> Result<Option<Initializer>, AllocError>
    ensures { IfOk result (λ made. told (option_map plain_initializer made) standing.new ≡ braced life (plain_type ty.now) (plain_standing standing.old) at (initializer_row (map initializer_of all.now))) }
{
    let part = Part {
        life,
        ty,
        scalar: 0,
    };
    let before = Some(Vec::new(alloc));
    let items = list_passed(alloc, standing, part, before, at, all)?;
    let single = ty.is_scalar();
    if single {
        Ok(only_value(items))
    } else {
        Ok(as_listed(at, items))
    }
}

/// The initialiser `i` of an object of the type `ty` and the lifetime `life` (C99 6.7.8); `None` where it is refused, and a row that
/// holds is noted.
///
/// # Errors
///
/// Out of memory.
pub fn initialized<'s>(
    alloc: Global,
    standing: &mut Standing<'s>,
    life: Lifetime,
    ty: &CType,
    i: &Init<'s>,
) -> Result<Option<Initializer>, AllocError>
    ensures { IfOk result (λ made. told (option_map plain_initializer made) standing.new ≡ initialized only_first life (plain_type ty.now) (plain_standing standing.old) (initializer_of i.now)) }
{
    match i {
        Init::Value(e) => {
            let text = string_by(alloc, holds_characters(ty), i)?;
            let made = unbraced(alloc, standing, life, ty, e, text)?;
            Ok(made)
        }
        Init::Braced(at, all, _) => {
            let made = braced(alloc, standing, life, ty, *at, all)?;
            Ok(made)
        }
    }
}
