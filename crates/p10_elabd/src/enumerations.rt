//! Constants of enumerations where they are declared (C99 6.7.2.2).

ghost use Rattle.std.specs.Prelude.{◌≡◌, IfOk, map, option_map};
ghost use Rattle.p10_syn.specs.Trees.{enumerator_row};
ghost use Rattle.p10_syn.specs.Built.{identifier_of, tag_of, enumerator_of};
ghost use Rattle.p10_core.specs.Types.{plain_type};
ghost use Rattle.p10_elabx.specs.First.{only_first};
ghost use Rattle.p10_elabd.specs.Members.{enumerator_value, enumerator_passed};
ghost use Rattle.p10_elabd.specs.Declaring.{enumeration_by_name, enumerators_passed, one_enumerator_passed, first_constant, enumeration_passed};
ghost use Rattle.p10_elabd.specs.Views.{plain_standing, optional_boxed, told};

use crate::constants::{enumerator_meaning, int_value, value_after};
use crate::expressions::constant_value;
use crate::standing::Standing;
use crate::tagged::{begin_enumeration, enumeration_named, set_enumeration};
use p10_base::At;
use p10_core::CType;
use p10_int::IntType;
use p10_syn::{Enumerator, Expr, Identifier};
use std::alloc::{AllocError, Global};

/// The value of a constant: that which is written, or one more than the constant before it.
fn enumerator_value<'s>(
    alloc: Global,
    standing: &mut Standing<'s>,
    next: Option<i128>,
    value: &Option<Box<Expr<'s>>>,
) -> Result<Option<i128>, AllocError>
    ensures { IfOk result (λ made. told made standing.new ≡ enumerator_value only_first next (optional_boxed value.now) (plain_standing standing.old)) }
{
    match value {
        None => Ok(next),
        Some(e) => {
            let number = constant_value(alloc, standing, e)?;
            Ok(number)
        }
    }
}

/// Declares a constant, and gives the value of the next one.
fn enumerator_passed<'s>(
    alloc: Global,
    standing: &mut Standing<'s>,
    next: Option<i128>,
    name: Identifier<'s>,
    value: &Option<Box<Expr<'s>>>,
) -> Result<Option<i128>, AllocError>
    ensures { IfOk result (λ made. told made standing.new ≡ enumerator_passed only_first next (identifier_of name.entry) (optional_boxed value.now) (plain_standing standing.old)) }
{
    let written = enumerator_value(alloc, standing, next, value)?;
    let found = int_value(standing, name.at, written);
    standing.declare(name, enumerator_meaning(found))?;
    Ok(value_after(found))
}

/// One constant of an enumeration.
#[tactic(auto, using(crate::proofs::TreeRows::enumerator_is))]
fn one_enumerator_passed<'s>(
    alloc: Global,
    standing: &mut Standing<'s>,
    next: Option<i128>,
    one: &Enumerator<'s>,
) -> Result<Option<i128>, AllocError>
    ensures { IfOk result (λ made. told made standing.new ≡ one_enumerator_passed only_first (told next standing.old) (enumerator_of one.now)) }
{
    let made = enumerator_passed(alloc, standing, next, one.name, &one.value)?;
    Ok(made)
}

/// Constants of an enumeration, each with the value of the next one.
fn enumerators_passed<'s>(
    alloc: Global,
    standing: &mut Standing<'s>,
    all: &[Enumerator<'s>],
) -> Result<(), AllocError>
    ensures { IfOk result (λ _. plain_standing standing.new ≡ (enumerators_passed only_first (first_constant (plain_standing standing.old)) (enumerator_row (map enumerator_of all.now))).after) }
{
    let mut next = Some(0);
    for one in all {
        next = one_enumerator_passed(alloc, standing, next, one)?;
    }
    Ok(())
}

/// An enumeration's name, where it has no constants.
fn enumeration_by_name<'s>(
    standing: &mut Standing<'s>,
    at: At,
    tag: Option<Identifier<'s>>,
) -> Option<CType>
    ensures { told (option_map plain_type result) standing.new ≡ enumeration_by_name only_first at (tag_of tag.entry) (plain_standing standing.old) }
{
    match tag {
        None => None,
        Some(tag) => enumeration_named(standing, at, tag),
    }
}

/// An enumeration with its constants, or by its tag alone.
pub fn enumeration_passed<'s>(
    alloc: Global,
    standing: &mut Standing<'s>,
    at: At,
    tag: Option<Identifier<'s>>,
    all: &[Enumerator<'s>],
) -> Result<Option<CType>, AllocError>
    ensures { IfOk result (λ made. told (option_map plain_type made) standing.new ≡ enumeration_passed only_first at (tag_of tag.entry) (plain_standing standing.old) (enumerator_row (map enumerator_of all.now))) }
{
    let count = all.len();
    if count == 0 {
        return Ok(enumeration_by_name(standing, at, tag));
    }
    begin_enumeration(standing, tag)?;
    enumerators_passed(alloc, standing, all)?;
    set_enumeration(standing, tag)?;
    Ok(Some(CType::integer(IntType::Int)))
}
