//! Items of initialisers, one at a time (C99 6.7.8).

ghost use Rattle.std.specs.Prelude.{◌≡◌, IfOk, None, map, option_map};
ghost use Rattle.p10_syn.specs.Trees.{initializer_row};
ghost use Rattle.p10_syn.specs.Built.{expression_of};
ghost use Rattle.p10_syn.specs.BuiltStatements.{initializer_of};
ghost use Rattle.p10_core.specs.Types.{plain_type};
ghost use Rattle.p10_core.specs.Views.{plain_value, plain_item};
ghost use Rattle.p10_elabx.specs.First.{only_first, lift, on};
ghost use Rattle.p10_elabx.specs.Built.{ruled_value};
ghost use Rattle.p10_elabd.specs.Standing.{noted};
ghost use Rattle.p10_elabd.specs.Initializers.{living, scalar_value, scalar_item, expression_ruled, expression_item, text_item, item_added, no_surplus, braced_first, braced_scalar};
ghost use Rattle.p10_elabd.specs.ItemViews.{plain_items, ruled_item};
ghost use Rattle.p10_elabd.specs.Views.{plain_standing, told};

use crate::expressions::expression_value;
use crate::lifetime::Lifetime;
use crate::standing::Standing;
use crate::static_values::static_value;
use crate::surplus::surplus_item;
use p10_base::{At, SubsetCode};
use p10_core::{CType, Item, Value};
use p10_elabx::{Problem, fitted};
use p10_syn::{Expr, Init};
use std::alloc::{AllocError, Global};

/// A part of an object that is initialised.
#[derive(Clone, Copy)]
pub struct Part<'t> {
    /// The lifetime of the object.
    pub life: Lifetime,
    /// The type of the part.
    pub ty: &'t CType,
    /// The place of its first scalar among those of the object.
    pub scalar: u64,
}

/// A value for an object of a lifetime.
fn living(life: Lifetime, v: Value) -> Result<Value, Option<Problem>>
    ensures { ruled_value result ≡ living life (plain_value v) }
{
    match life {
        Lifetime::Automatic => Ok(v),
        Lifetime::Static => static_value(v),
    }
}

/// A value for a scalar of a type.
pub fn scalar_value(
    alloc: Global,
    life: Lifetime,
    ty: &CType,
    v: Value,
) -> Result<Result<Value, Option<Problem>>, AllocError>
    ensures { IfOk result (λ r. ruled_value r ≡ scalar_value life (plain_type ty.now) (plain_value v)) }
{
    let at = v.at;
    match fitted(alloc, at, v, ty)? {
        Ok(v) => Ok(living(life, v)),
        Err(problem) => Ok(Err(problem)),
    }
}

/// A value as an item for the scalar at a place.
fn scalar_item(
    alloc: Global,
    part: Part<'_>,
    v: Value,
) -> Result<Result<Item, Option<Problem>>, AllocError>
    ensures { IfOk result (λ r. ruled_item r ≡ scalar_item part.entry.life (plain_type part.entry.ty.now) part.entry.scalar (plain_value v)) }
{
    match scalar_value(alloc, part.life, part.ty, v)? {
        Ok(v) => Ok(Ok(Item::value(part.scalar, v))),
        Err(problem) => Ok(Err(problem)),
    }
}

/// A value as an item: for a scalar; an aggregate needs braces.
fn expression_ruled(
    alloc: Global,
    part: Part<'_>,
    v: Value,
) -> Result<Result<Item, Option<Problem>>, AllocError>
    ensures { IfOk result (λ r. ruled_item r ≡ expression_ruled part.entry.life (plain_type part.entry.ty.now) part.entry.scalar (plain_value v)) }
{
    if part.ty.is_scalar() {
        let item = scalar_item(alloc, part, v)?;
        Ok(item)
    } else {
        Ok(Err(Some(Problem {
            code: SubsetCode::TypesDiffer,
            at: v.at,
        })))
    }
}

/// The same, if the value is found.
fn item_found(
    alloc: Global,
    part: Part<'_>,
    found: Result<Value, Option<Problem>>,
) -> Result<Result<Item, Option<Problem>>, AllocError>
    ensures { IfOk result (λ r. lift (ruled_item r) ≡ on (lift (ruled_value found)) (expression_ruled part.entry.life (plain_type part.entry.ty.now) part.entry.scalar)) }
{
    match found {
        Ok(v) => {
            let item = expression_ruled(alloc, part, v)?;
            Ok(item)
        }
        Err(problem) => Ok(Err(problem)),
    }
}

/// An item that is found; a problem is noted.
fn item_noted(standing: &mut Standing<'_>, found: Result<Item, Option<Problem>>) -> Option<Item>
    ensures { told (option_map plain_item result) standing.new ≡ noted only_first (lift (ruled_item found)) (plain_standing standing.old) }
{
    match found {
        Ok(item) => Some(item),
        Err(problem) => {
            standing.note(problem);
            None
        }
    }
}

/// An expression as an item.
pub fn expression_item<'s>(
    alloc: Global,
    standing: &mut Standing<'s>,
    part: Part<'_>,
    e: &Expr<'s>,
) -> Result<Option<Item>, AllocError>
    ensures { IfOk result (λ made. told (option_map plain_item made) standing.new ≡ expression_item only_first part.entry.life (plain_type part.entry.ty.now) part.entry.scalar (plain_standing standing.old) (expression_of e.now)) }
{
    let value = expression_value(alloc, standing, e)?;
    let found = item_found(alloc, part, value)?;
    Ok(item_noted(standing, found))
}

/// A string as an item: it is no longer than the array, except for the 0 at its end.
pub fn text_item(
    standing: &mut Standing<'_>,
    length: u64,
    scalar: u64,
    at: At,
    bytes: Vec<u8>,
) -> Option<Item>
    ensures { told (option_map plain_item result) standing.new ≡ text_item only_first length scalar (plain_standing standing.old) (at, bytes.items) }
{
    if bytes.len() as u64 <= length {
        Some(Item::text(scalar, bytes))
    } else {
        standing.refuse(SubsetCode::TypesDiffer, at);
        None
    }
}

/// The items so far with one more, that was made or not.
pub fn item_added(
    items: Option<Vec<Item>>,
    item: Option<Item>,
) -> Result<Option<Vec<Item>>, AllocError>
    ensures { IfOk result (λ made. plain_items made ≡ item_added (plain_items items) (option_map plain_item item)) }
{
    match (items, item) {
        (Some(items), Some(item)) => {
            let mut items = items;
            items.push(item)?;
            Ok(Some(items))
        }
        (_, _) => Ok(None),
    }
}

/// Items after the last: the first of them is one too many.
pub fn no_surplus<'s>(
    alloc: Global,
    standing: &mut Standing<'s>,
    items: Option<Vec<Item>>,
    rest: &[Init<'s>],
) -> Result<Option<Vec<Item>>, AllocError>
    ensures { IfOk result (λ made. told (plain_items made) standing.new ≡ no_surplus only_first (told (plain_items items) standing.old) (initializer_row (map initializer_of rest.now))) }
{
    match rest.first() {
        None => Ok(items),
        Some(one) => {
            surplus_item(alloc, standing, one)?;
            Ok(None)
        }
    }
}

/// The first expression in the braces of a scalar.
fn braced_first<'s>(
    alloc: Global,
    standing: &mut Standing<'s>,
    part: Part<'_>,
    items: Option<Vec<Item>>,
    one: &Init<'s>,
) -> Result<Option<Vec<Item>>, AllocError>
    ensures { IfOk result (λ made. told (plain_items made) standing.new ≡ braced_first only_first part.entry.life (plain_type part.entry.ty.now) part.entry.scalar (told (plain_items items) standing.old) (initializer_of one.now)) }
{
    match one {
        Init::Value(e) => {
            let item = expression_item(alloc, standing, part, e)?;
            let items = item_added(items, item)?;
            Ok(items)
        }
        Init::Braced(_, _, _) => {
            surplus_item(alloc, standing, one)?;
            Ok(None)
        }
    }
}

/// The braces of a scalar hold one expression (C99 6.7.8p11).
pub fn braced_scalar<'s>(
    alloc: Global,
    standing: &mut Standing<'s>,
    part: Part<'_>,
    items: Option<Vec<Item>>,
    all: &[Init<'s>],
) -> Result<Option<Vec<Item>>, AllocError>
    ensures { IfOk result (λ made. told (plain_items made) standing.new ≡ braced_scalar only_first part.entry.life (plain_type part.entry.ty.now) part.entry.scalar (told (plain_items items) standing.old) (initializer_row (map initializer_of all.now))) }
{
    match all.split_first() {
        None => Ok(items),
        Some((one, rest)) => {
            let items = braced_first(alloc, standing, part, items, one)?;
            let items = no_surplus(alloc, standing, items, rest)?;
            Ok(items)
        }
    }
}
