//! Requests for memory (C99 7.20.3).

ghost use Rattle.std.specs.Prelude.{◌≡◌, ℕ, ◌++◌, ◌∷◌, ◌*◌, ◌<◌, ◌-◌, ◌^◌, [], List, true, false, length, MatchOption, OnOk};
ghost use Rattle.p10_core.specs.Types.{PlainType, plain_type, bare};
ghost use Rattle.p10_core.specs.Sizes.{repeated, scalars_of};
ghost use Rattle.p10_core.specs.Views.{plain_program, plain_types};
ghost use Rattle.p10_core.specs.WholePrograms.{AreWholeStructures};
ghost use Rattle.p10_meaning.specs.Objects.{allocated};
ghost use Rattle.p10_meaning.specs.Pointers.{first_of, holding};
ghost use Rattle.p10_meaning.specs.States.{counted};
ghost use Rattle.p10_meaning.specs.Scalars.{zero_cells, unset_cells};
ghost use Rattle.p10_meaning.specs.Values.{scalars, width, pointee, is_denied, granted, requested, open_object};
ghost use Rattle.p10_machine.specs.Releasing.{Gives};
ghost use Rattle.p10_machine.specs.Views.{Around, state_of};
ghost use Rattle.p10_machine.specs.Releasing.{is_served, cells_by, PutsAt};

use crate::kinds::{kind_at, zero_of_kind};
use crate::outside::Outside;
use crate::turned::Full;
use crate::widths::width_of;
use p10_core::{CType, Program, TypeForm, Types};
use p10_meaning::{Cell, Ptr, Scalar, Window};
use p10_store::{Origin, Shape};

/// The greatest request for memory, in bytes.
const MOST_REQUEST: u128 = 1_048_576;

/// `malloc`, or `calloc`: memory for a number of elements, whose scalars are unset or zero. The type is
/// that of a pointer to an element.
pub fn allocate(
    p: &Program<'_>,
    t: &CType,
    asked: u128,
    zero: bool,
    outside: &mut Outside,
) -> Result<Scalar, Full>
    requires structures { AreWholeStructures (plain_types p.now.types) }
    ensures { (left : ℕ) (io : Around) → Gives (requested (plain_program p.now) (pointee (plain_type t.now)) asked (cells_by zero) (counted (state_of left outside.old io))) result (state_of left outside.new io) }
{
    count_call(outside)?;
    request(p, pointee_of(t), asked, zero, outside)
}

/// An executed allocation or `free` counts after the mark.
pub fn count_call(outside: &mut Outside) -> Result<(), Full>
    ensures { OnOk result ((left : ℕ) (io : Around) → state_of left outside.new io ≡ counted (state_of left outside.old io)) }
{
    if !outside.marked {
        return Ok(());
    }
    match outside.after.checked_add(1) {
        Some(after) => {
            outside.after = after;
            Ok(())
        }
        None => Err(Full),
    }
}

/// What a pointer type points to.
fn pointee_of(t: &CType) -> &CType
    ensures { plain_type result.now ≡ pointee (plain_type t.now) }
{
    match &t.form {
        TypeForm::Pointer(target) => target,
        _ => t,
    }
}

/// A request: one of 0 bytes or of more than 2^20 gives null and isn't counted. An element of a type without a size is answered
/// as out of memory; whole programs have none.
fn request(
    p: &Program<'_>,
    t: &CType,
    asked: u128,
    zero: bool,
    outside: &mut Outside,
) -> Result<Scalar, Full>
    requires structures { AreWholeStructures (plain_types p.now.types) }
    ensures { (left : ℕ) (io : Around) → Gives (requested (plain_program p.now) (plain_type t.now) asked (cells_by zero) (state_of left outside.old io)) result (state_of left outside.new io) }
{
    if !p.types.is_object(t) {
        return Err(Full);
    }
    let Some(count) = count_served(asked, p.types.size(t)) else {
        return Ok(Scalar::Pointer(Ptr::Null));
    };
    match outside.requests.checked_add(1) {
        Some(requests) => {
            outside.requests = requests;
            grant(p, t, count, zero, outside)
        }
        None => Err(Full),
    }
}

/// The number of elements, where a request for them is served.
fn count_served(count: u128, size: u64) -> Option<u64>
    ensures { MatchOption result (is_served count size ≡ false) (λ n. (n ≡ count) × (is_served count size ≡ true)) }
{
    match count.checked_mul(size as u128) {
        Some(bytes) => {
            if 0 < bytes && bytes <= MOST_REQUEST {
                Some(count as u64)
            } else {
                None
            }
        }
        None => None,
    }
}

/// A request that was counted: it is denied, or opens an object.
fn grant(
    p: &Program<'_>,
    t: &CType,
    count: u64,
    zero: bool,
    outside: &mut Outside,
) -> Result<Scalar, Full>
    requires structures { AreWholeStructures (plain_types p.now.types) }
    ensures { (left : ℕ) (io : Around) → Gives (granted (width (plain_program p.now) (plain_type t.now)) count (cells_by zero (repeated count (scalars (plain_program p.now) (plain_type t.now)))) (state_of left outside.old io)) result (state_of left outside.new io) }
{
    if is_denied(outside.denied.as_slice(), outside.requests) {
        return Ok(Scalar::Pointer(Ptr::Null));
    }
    let Some(scalars) = width_of(&p.types, t) else {
        return Err(Full);
    };
    let object = outside.store.opened();
    open_allocated(p, t, scalars, count, zero, outside)?;
    Ok(Scalar::Pointer(first_of(object, scalars, count)))
}

/// Whether a request is denied.
fn is_denied(denied: &[u64], number: u128) -> bool
    ensures { result ≡ is_denied denied.now number }
{
    for (place, other) in denied.iter().enumerate() {
        if *other as u128 == number {
            return true;
        }
    }
    false
}

/// The pointer to the first of `count` elements of `scalars` scalars.
fn first_of(object: u128, scalars: u64, count: u64) -> Ptr
    ensures { result ≡ first_of object scalars count }
{
    Ptr::To {
        object,
        window: Window {
            start: 0,
            stride: scalars,
            count,
            inside: true,
            whole: true,
        },
        position: 0,
    }
}

/// Opens an allocation of a number of elements, each of a number of scalars, which are zero or unset.
fn open_allocated(
    p: &Program<'_>,
    t: &CType,
    stride: u64,
    count: u64,
    zero: bool,
    outside: &mut Outside,
) -> Result<(), Full>
    requires structures { AreWholeStructures (plain_types p.now.types) }
    requires width { stride ≡ width (plain_program p.now) (plain_type t.now) }
    ensures { OnOk result ((left : ℕ) (io : Around) → state_of left outside.new io ≡ open_object allocated (cells_by zero (repeated count (scalars (plain_program p.now) (plain_type t.now)))) (state_of left outside.old io)) }
{
    if outside.store.opened() == u128::MAX {
        return Err(Full);
    }
    if zero {
        put_zeros(&p.types, t, stride, count, &mut outside.cells)?;
        open_zeroed(stride, count, outside)
    } else {
        open_unset(stride, count, outside)
    }
}

/// Opens an allocation whose scalars are unset.
fn open_unset(stride: u64, count: u64, outside: &mut Outside) -> Result<(), Full>
    requires opened { outside.old.store.opened < 2 ^ 128 - 1 }
    ensures { OnOk result ((types : List PlainType) (left : ℕ) (io : Around) → stride ≡ length types → state_of left outside.new io ≡ open_object allocated (unset_cells (repeated count types)) (state_of left outside.old io)) }
{
    let shape = Shape { scalars: stride };
    match outside.store.open(&shape, count, Origin::Allocated) {
        Ok(_) => Ok(()),
        Err(_) => Err(Full),
    }
}

/// Opens an allocation with the cells that were put for it.
fn open_zeroed(stride: u64, count: u64, outside: &mut Outside) -> Result<(), Full>
    requires opened { outside.old.store.opened < 2 ^ 128 - 1 }
    requires cells { length outside.old.cells.items ≡ count * stride }
    ensures { OnOk result ((left : ℕ) (io : Around) → state_of left outside.new io ≡ open_object allocated outside.old.cells.items (state_of left outside.old io)) }
{
    let shape = Shape { scalars: stride };
    let cells = outside.cells.as_slice();
    match outside
        .store
        .open(&shape, count, Origin::AllocatedWith(cells))
    {
        Ok(_) => Ok(()),
        Err(_) => Err(Full),
    }
}

/// The cells of `count` elements of a type are zero or null, and nothing else.
fn put_zeros(
    types: &Types<'_>,
    t: &CType,
    scalars: u64,
    count: u64,
    cells: &mut Vec<Cell>,
) -> Result<(), Full>
    requires structures { AreWholeStructures (plain_types types.now) }
    requires width { scalars ≡ length (scalars_of (plain_types types.now) (bare (plain_types types.now) (plain_type t.now))) }
    ensures { OnOk result (cells.new.items ≡ zero_cells (repeated count (scalars_of (plain_types types.now) (bare (plain_types types.now) (plain_type t.now))))) }
{
    cells.clear();
    for i in 0..count {
        put_zeros_of_one(types, t, scalars, cells)?;
    }
    Ok(())
}

/// The cells of one element of a type are put after others, zero or null.
pub fn put_zeros_of_one(
    types: &Types<'_>,
    t: &CType,
    scalars: u64,
    cells: &mut Vec<Cell>,
) -> Result<(), Full>
    requires structures { AreWholeStructures (plain_types types.now) }
    requires width { scalars ≡ length (scalars_of (plain_types types.now) (bare (plain_types types.now) (plain_type t.now))) }
    ensures { OnOk result (cells.new.items ≡ cells.old.items ++ zero_cells (scalars_of (plain_types types.now) (bare (plain_types types.now) (plain_type t.now)))) }
{
    for i in 0..scalars {
        put_zero(types, t, i, cells)?;
    }
    Ok(())
}

/// The cell of a scalar of a type is put after others, zero or null.
fn put_zero(types: &Types<'_>, t: &CType, number: u64, cells: &mut Vec<Cell>) -> Result<(), Full>
    requires structures { AreWholeStructures (plain_types types.now) }
    ensures { OnOk result (PutsAt cells.old.items (zero_cells (scalars_of (plain_types types.now) (bare (plain_types types.now) (plain_type t.now)))) number cells.new.items) }
{
    match kind_at(types, t, number) {
        Some(kind) => put_cell(zero_of_kind(kind), cells),
        None => Err(Full),
    }
}

/// A cell that holds a scalar is put after others.
pub fn put_cell(x: Scalar, cells: &mut Vec<Cell>) -> Result<(), Full>
    ensures { OnOk result (cells.new.items ≡ cells.old.items ++ holding x ∷ []) }
{
    match cells.push(Cell { value: Some(x) }) {
        Ok(()) => Ok(()),
        Err(_) => Err(Full),
    }
}
