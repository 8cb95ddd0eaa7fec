//! Cells that are found at once, and what they hold.

ghost use Rattle.std.specs.Prelude.{◌≡◌, ℕ, Ok, option_map};
ghost use Rattle.p10_meaning.specs.declared.pointers.Scalar.TheVariants.{Int, Pointer};
ghost use Rattle.p10_meaning.specs.declared.pointers.Cell.{Cell};
ghost use Rattle.p10_meaning.specs.Objects.{cell_at};
ghost use Rattle.p10_core.specs.Types.{PlainType};
ghost use Rattle.p10_core.specs.Views.{plain_place};
ghost use Rattle.p10_meaning.specs.declared.pointers.Scalar.{Scalar};
ghost use Rattle.p10_interp.specs.private.AtOnce.{Settles, IsTaken, IsHolding, IsElement, IsMoved, read_at_place};
ghost use Rattle.std.specs.Prelude.{IfSome};
ghost use Rattle.p10_meaning.specs.Pointers.{holding};
ghost use Rattle.p10_meaning.specs.Values.{holds};
ghost use Rattle.p10_interp.specs.private.Standing.{held_of};

use crate::held::Held;
use crate::surroundings::Surroundings;
use p10_core::{Place, PlaceForm};
use p10_meaning::{Cell, Ptr, Scalar};
use p10_store::Store;

/// The cell at a pointer, if there is one.
#[inline(always)]
pub fn cell_in(store: &Store, pointer: Ptr) -> Option<&Cell>
    ensures { IfSome result (λ c. cell_at store.now.objects pointer ≡ Ok c.now) }
{
    match store.place(pointer) {
        Ok(cell) => Some(cell),
        Err(_) => None,
    }
}

/// The cell of an element, by a number from the first one on.
#[inline(always)]
pub fn cell_from(store: &Store, start: Ptr, by: i128) -> Option<&Cell>
    ensures { IfSome result (λ c. IsElement store.now.objects start by c.now) }
{
    match pointer_from(start, by) {
        Some(there) => cell_in(store, there),
        None => None,
    }
}

/// The pointer that stands `by` elements after this one in its array, whether their object is live or not.
#[inline(always)]
pub fn pointer_from(start: Ptr, by: i128) -> Option<Ptr>
    ensures { IfSome result (λ there. IsMoved start by there) }
{
    match start {
        Ptr::Null => None,
        Ptr::To {
            object,
            window,
            position,
        } => match (position as i128).checked_add(by) {
            Some(to) if 0 <= to && to <= window.count as i128 => Some(Ptr::To {
                object,
                window,
                position: to as u64,
            }),
            _ => None,
        },
    }
}

/// The cell of a frame variable, where a place is one.
#[inline(always)]
pub fn variable_cell<'a>(around: &Surroundings<'a>, place: &Place) -> Option<&'a Cell>
    ensures { (t : PlainType) (x : Scalar) (left : ℕ) → IsHolding (option_map (λ c. c.now) result) x → Settles around.now (read_at_place (plain_place place.now) t) left x left }
{
    match &place.form {
        PlaceForm::Var(number) => match around.held.get(*number as usize) {
            Some(Held::Holds(cell)) => Some(cell),
            _ => None,
        },
        _ => None,
    }
}

/// The number in a cell.
#[inline(always)]
pub fn number_in(cell: Option<&Cell>, left: &mut u64) -> i128
    ensures { IsTaken (option_map (λ c. c.now) cell.entry) left.old (Int result) left.new }
{
    match cell {
        Some(cell) => match &cell.value {
            Some(Scalar::Int(number)) => *number,
            _ => {
                *left = 0;
                0
            }
        },
        None => {
            *left = 0;
            0
        }
    }
}

/// The pointer in a cell.
pub fn pointer_in(cell: Option<&Cell>, left: &mut u64) -> Ptr
    ensures { IsTaken (option_map (λ c. c.now) cell.entry) left.old (Pointer result) left.new }
{
    match cell {
        Some(cell) => match &cell.value {
            Some(Scalar::Pointer(pointer)) => *pointer,
            _ => {
                *left = 0;
                Ptr::Null
            }
        },
        None => {
            *left = 0;
            Ptr::Null
        }
    }
}

/// What stands for a frame variable that holds a number.
pub fn holding_number(number: i128) -> Held
    ensures { held_of result ≡ holds (holding (Int number)) }
{
    Held::Holds(Cell {
        value: Some(Scalar::Int(number)),
    })
}
