//! Items of initialisers for which there is nothing left to initialise.

ghost use Rattle.std.specs.Prelude.{◌≡◌, IfOk, Some, None, is_some, Ok, if◌then◌else◌, map};
ghost use Rattle.p10_syn.specs.Trees.{initializer_row};
ghost use Rattle.p10_syn.specs.Built.{expression_of};
ghost use Rattle.p10_syn.specs.BuiltStatements.{initializer_of};
ghost use Rattle.p10_core.specs.Typed.{at_of};
ghost use Rattle.p10_elabx.specs.First.{only_first};
ghost use Rattle.p10_elabd.specs.Expressions.{value_by};
ghost use Rattle.p10_elabd.specs.Initializers.{unplaced, unplaced_items, surplus_item};
ghost use Rattle.p10_elabd.specs.Views.{plain_standing, told};

use crate::expressions::expression_value;
use crate::standing::Standing;
use p10_base::{At, SubsetCode};
use p10_syn::{Expr, Init};
use std::alloc::{AllocError, Global};

/// The place of an expression's value, if it isn't refused; a problem is noted.
fn value_place<'s>(
    alloc: Global,
    standing: &mut Standing<'s>,
    e: &Expr<'s>,
) -> Result<Option<At>, AllocError>
    ensures { IfOk result (λ made. told made standing.new ≡ value_by only_first (plain_standing standing.old) (expression_of e.now) (λ v. Ok (at_of v))) }
{
    match expression_value(alloc, standing, e)? {
        Ok(v) => Ok(Some(v.at)),
        Err(problem) => {
            standing.note(problem);
            Ok(None)
        }
    }
}

/// The place of an item for which there is nothing left to initialise, if no part of it is refused.
#[cycle(surplus)]
fn unplaced<'s>(
    alloc: Global,
    standing: &mut Standing<'s>,
    one: &Init<'s>,
) -> Result<Option<At>, AllocError>
    ensures { IfOk result (λ made. told made standing.new ≡ unplaced only_first (plain_standing standing.old) (initializer_of one.now)) }
{
    match one {
        Init::Value(e) => {
            let place = value_place(alloc, standing, e)?;
            Ok(place)
        }
        Init::Braced(at, all, _) => {
            let place = unplaced_items(alloc, standing, *at, all)?;
            Ok(place)
        }
    }
}

/// The place of a list for which there is nothing left to initialise, if no part of it is refused.
#[cycle(surplus)]
fn unplaced_items<'s>(
    alloc: Global,
    standing: &mut Standing<'s>,
    at: At,
    all: &[Init<'s>],
) -> Result<Option<At>, AllocError>
    ensures { IfOk result (λ made. told made standing.new ≡ unplaced_items only_first (told (Some at) standing.old) (initializer_row (map initializer_of all.now))) }
{
    let mut place = Some(at);
    for one in all {
        let part = unplaced(alloc, standing, one)?;
        place = place_if_made(place, part);
    }
    Ok(place)
}

/// A place, if a part after it isn't refused either.
fn place_if_made(place: Option<At>, part: Option<At>) -> Option<At>
    ensures { result ≡ (if is_some part then place else None) }
{
    match part {
        Some(_) => place,
        None => None,
    }
}

/// Judges an item for which there is nothing left to initialise.
pub fn surplus_item<'s>(
    alloc: Global,
    standing: &mut Standing<'s>,
    one: &Init<'s>,
) -> Result<(), AllocError>
    ensures { IfOk result (λ _. told None standing.new ≡ surplus_item only_first (plain_standing standing.old) (initializer_of one.now)) }
{
    match unplaced(alloc, standing, one)? {
        Some(at) => {
            standing.refuse(SubsetCode::TypesDiffer, at);
            Ok(())
        }
        None => Ok(()),
    }
}
