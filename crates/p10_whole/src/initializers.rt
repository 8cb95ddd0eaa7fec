//! Whether initialisers are whole (C99 6.7.8).

ghost use Rattle.std.specs.Prelude.{◌≡◌, true, All, map};
ghost use Rattle.p10_core.specs.Types.{plain_type};
ghost use Rattle.p10_core.specs.Typed.{PlainItem};
ghost use Rattle.p10_core.specs.Addresses.{is_static_value};
ghost use Rattle.p10_core.specs.Views.{plain_value, plain_place, plain_item, plain_written, plain_initializer};
ghost use Rattle.p10_core.specs.WholePrograms.{CopiesStructure, IsSingle, ListsScalars, IsWholeInitializer, IsStaticInitializer, IsStaticWritten};
ghost use Rattle.p10_whole.specs.private.Agreeing.{structure_number};
ghost use Rattle.p10_whole.specs.private.Shows.{Shows};
ghost use Rattle.p10_whole.specs.private.Surroundings.{surroundings_in};

use crate::addresses::is_static_value;
use crate::around::Around;
use crate::items::are_whole_items;
use crate::types::is_unqualified_of;
use crate::values::{is_whole_place, is_whole_value};
use p10_core::{CType, Initializer, Item, Place, TypeForm, Value, Written};

/// Whether an initialiser of an object of a type is whole.
pub(crate) fn is_whole_initializer(around: &Around<'_, '_>, t: &CType, i: &Initializer) -> bool
    ensures { Shows result (IsWholeInitializer (surroundings_in around.now) (plain_type t.now) (plain_initializer i.now)) }
{
    match i {
        Initializer::Absent => true,
        Initializer::Single(v) => is_single(around, t, v),
        Initializer::Copied(p) => copies_structure(around, t, p),
        Initializer::Listed(_, items) => lists_scalars(around, t, items.as_slice()),
    }
}

/// Whether an object of a type may have a copy of a place.
#[tactic(auto, using(crate::proofs::Showing::shows_none))]
pub(crate) fn copies_structure(around: &Around<'_, '_>, t: &CType, p: &Place) -> bool
    ensures { Shows result (CopiesStructure (surroundings_in around.now) (plain_type t.now) (plain_place p.now)) }
{
    match (structure_number(t), structure_number(&p.ty)) {
        (Some(number), Some(source)) => {
            is_whole_place(around, p) & ((number == source) & around.program.types.is_complete(t))
        }
        _ => false,
    }
}

/// The number of the structure that a type is, if it is one.
fn structure_number(t: &CType) -> Option<u32>
    ensures { result ≡ structure_number (plain_type t.now) }
{
    match &t.form {
        TypeForm::Struct(number) => Some(*number),
        _ => None,
    }
}

/// Whether a value may initialise a scalar of a type.
fn is_single(around: &Around<'_, '_>, t: &CType, v: &Value) -> bool
    ensures { Shows result (IsSingle (surroundings_in around.now) (plain_type t.now) (plain_value v.now)) }
{
    is_whole_value(around, v) & (t.is_scalar() & is_unqualified_of(&v.ty, t))
}

/// Whether items may initialise an array or a structure.
#[tactic(auto, using(crate::proofs::Showing::shows_none))]
fn lists_scalars(around: &Around<'_, '_>, t: &CType, items: &[Item]) -> bool
    ensures { Shows result (ListsScalars (surroundings_in around.now) (plain_type t.now) (map plain_item items.now)) }
{
    if around.program.types.is_object(t) {
        !t.is_scalar() & are_whole_items(around, t, items)
    } else {
        false
    }
}

/// Whether an initialiser consists of constants, as one of an object of static lifetime does (C99 6.7.8p4).
#[tactic(auto, using(crate::proofs::Showing::shows_none))]
pub(crate) fn is_static_initializer(i: &Initializer) -> bool
    ensures { Shows result (IsStaticInitializer (plain_initializer i.now)) }
{
    match i {
        Initializer::Absent => true,
        Initializer::Single(v) => is_static(v),
        Initializer::Copied(_) => false,
        Initializer::Listed(_, items) => are_static_items(items.as_slice()),
    }
}

/// Whether each of some items is a constant.
#[tactic(auto, using(crate::proofs::Showing::shows_none))]
fn are_static_items(items: &[Item]) -> bool
    ensures { Shows result (All (λ (i : PlainItem). IsStaticWritten i.written) (map plain_item items.now)) }
{
    for item in items {
        if !is_static_written(&item.written) {
            return false;
        }
    }
    true
}

/// Whether what is written is a constant.
fn is_static_written(written: &Written) -> bool
    ensures { Shows result (IsStaticWritten (plain_written written.now)) }
{
    match written {
        Written::Scalar(v) => is_static(v),
        Written::Text(_) => true,
    }
}

/// Whether a value is a constant that may initialise a scalar of static lifetime.
#[tactic(auto, using(crate::proofs::Showing::shows_test))]
fn is_static(v: &Value) -> bool
    ensures { Shows result (is_static_value (plain_value v.now) ≡ true) }
{
    is_static_value(v)
}
