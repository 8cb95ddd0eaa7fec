//! Objects and cells, found by number and by pointer.

ghost use Rattle.std.specs.Prelude.{◌≡◌, option_map, is_some, is_ok, length, IfSome};
ghost use Rattle.p10_meaning.specs.Objects.{find, may_write, positions};
ghost use Rattle.p10_meaning.specs.Pointers.{window_in, same_window};
ghost use Rattle.p10_store.specs.Ranges.{AreGrowing, AreTiled, kind_of, objects_of};
ghost use Rattle.p10_store.specs.Places.{slot_at, place_in, Places, Targets, HasSlot, HasPlace, HasLivePlace, FreesAt, frees};

use crate::slots::{Provenance, Slot};
use p10_int::Stop;
use p10_meaning::{Cell, Ptr, Window};

/// The place of a pointer's cell among all cells, and what its object is: U5, U7, U6.
#[inline(always)]
pub fn cell_place(cells: &[Cell], slots: &[Slot], pointer: Ptr) -> Result<(usize, Provenance), Stop>
    requires tiled { AreTiled 0 slots.now (length cells.now) }
    requires growing { AreGrowing 0 slots.now }
    ensures { Places cells.now slots.now pointer result }
{
    let most = cells.len();
    match place_in(slots, pointer) {
        Ok((place, provenance)) => {
            let below = place < most as u128;
            prove!(below);
            Ok((place as usize, provenance))
        }
        Err(stop) => Err(stop),
    }
}

/// The place among all cells of a pointer's cell that is to be written: U5, U7, U6, U12.
#[inline(always)]
pub fn target_place(cells: &[Cell], slots: &[Slot], pointer: Ptr) -> Result<usize, Stop>
    requires tiled { AreTiled 0 slots.now (length cells.now) }
    requires growing { AreGrowing 0 slots.now }
    ensures { Targets cells.now slots.now pointer result }
{
    match cell_place(cells, slots, pointer) {
        Ok((place, provenance)) => {
            if is_writable(provenance) {
                Ok(place)
            } else {
                Err(Stop::U12)
            }
        }
        Err(stop) => Err(stop),
    }
}

/// Whether an object may be written: a string literal may not (C99 6.4.5p6).
fn is_writable(provenance: Provenance) -> bool
    ensures { result ≡ is_ok (may_write (kind_of provenance)) }
{
    match provenance {
        Provenance::Declared | Provenance::Allocated => true,
        Provenance::Literal => false,
    }
}

/// That place, by the slots alone.
#[inline(always)]
fn place_in(slots: &[Slot], pointer: Ptr) -> Result<(u128, Provenance), Stop>
    requires growing { AreGrowing 0 slots.now }
    ensures { result ≡ place_in slots.now pointer }
{
    match pointer {
        Ptr::Null => Err(Stop::U5),
        Ptr::To {
            object,
            window,
            position,
        } => {
            let Some(slot) = slot_of(slots, object) else {
                return Err(Stop::U7);
            };
            if !(window.inside && position < window.count) {
                return Err(Stop::U6);
            }
            let offset = window.start as u128 + position as u128;
            if offset >= slot.len as u128 {
                return Err(Stop::U6);
            }
            Ok((slot.start as u128 + offset, slot.provenance))
        }
    }
}

/// The slot of the live object with a number.
#[inline(always)]
pub fn slot_of(slots: &[Slot], number: u128) -> Option<&Slot>
    requires growing { AreGrowing 0 slots.now }
    ensures { option_map (λ s. s.now) result ≡ slot_at number slots.now }
{
    match live_place(slots, number) {
        Some(place) => Some(&slots[place]),
        None => None,
    }
}

/// The place of the slot of the live object with a number.
#[inline(always)]
pub fn live_place(slots: &[Slot], number: u128) -> Option<usize>
    requires growing { AreGrowing 0 slots.now }
    ensures { HasLivePlace slots.now number result }
{
    match place_of(slots, number) {
        Some(place) => { if slots[place].live { Some(place) } else { None } }
        None => None,
    }
}

/// The place of the slot of the object with a number, live or dead: its own number where no slot before it was let go, else by a search.
#[inline(always)]
pub fn place_of(slots: &[Slot], number: u128) -> Option<usize>
    requires growing { AreGrowing 0 slots.now }
    ensures { HasPlace slots.now number result }
{
    match own_place(slots, number) {
        Some(place) => Some(place),
        None => searched_place(slots, number),
    }
}

/// The place of the slot of the object with a number, if that number is its place.
#[inline(always)]
fn own_place(slots: &[Slot], number: u128) -> Option<usize>
    ensures { IfSome result (λ place. HasSlot slots.now number place) }
{
    if number >= slots.len() as u128 {
        return None;
    }
    let place = number as usize;
    if slots[place].number == number {
        Some(place)
    } else {
        None
    }
}

/// The place of the slot of the object with a number, live or dead: a binary search.
#[inline(never)]
fn searched_place(slots: &[Slot], number: u128) -> Option<usize>
    requires growing { AreGrowing 0 slots.now }
    ensures { HasPlace slots.now number result }
{
    let mut low = 0;
    let mut high = slots.len();
    while low < high {
        let middle = low + (high - low) / 2;
        let found = slots[middle].number;
        if found == number {
            return Some(middle);
        }
        if found < number {
            low = middle + 1;
        } else {
            high = middle;
        }
    }
    None
}

/// Whether the object with a number is live.
pub fn is_live(cells: &[Cell], slots: &[Slot], number: u128) -> bool
    requires growing { AreGrowing 0 slots.now }
    ensures { result ≡ is_some (find number (objects_of cells.now slots.now)) }
{
    slot_of(slots, number).is_some()
}

/// The positions of two pointers into one array: U5, U7, U9.
pub fn positions(cells: &[Cell], slots: &[Slot], left: Ptr, right: Ptr) -> Result<(u64, u64), Stop>
    requires growing { AreGrowing 0 slots.now }
    ensures { result ≡ positions (objects_of cells.now slots.now) left right }
{
    match (left, right) {
        (
            Ptr::To {
                object,
                window,
                position,
            },
            Ptr::To {
                object: other,
                window: second,
                position: to,
            },
        ) => {
            if !is_live(cells, slots, object) || !is_live(cells, slots, other) {
                return Err(Stop::U7);
            }
            if object == other && is_same(window, second) {
                Ok((position, to))
            } else {
                Err(Stop::U9)
            }
        }
        _ => Err(Stop::U5),
    }
}

/// Whether two arrays of one object are the same array.
fn is_same(left: Window, right: Window) -> bool
    ensures { result ≡ same_window left right }
{
    left.start == right.start
        && left.stride == right.stride
        && left.count == right.count
        && left.inside == right.inside
        && left.whole == right.whole
}

/// The array that begins at scalar `at` of the element at a position.
pub fn window_in(window: Window, position: u64, at: u64, stride: u64, count: u64) -> Window
    ensures { result ≡ window_in window position at stride count }
{
    let start = window.start as u128 + position as u128 * window.stride as u128 + at as u128;
    Window {
        start: start.min(u64::MAX as u128) as u64,
        stride,
        count,
        inside: window.inside && position < window.count,
        whole: false,
    }
}

/// The place of the slot that `free` of a pointer empties: none for null, and U11 for all but the first place of a live
/// allocation (C99 7.20.3.2).
pub fn freed_place(cells: &[Cell], slots: &[Slot], pointer: Ptr) -> Result<Option<usize>, Stop>
    requires growing { AreGrowing 0 slots.now }
    ensures { FreesAt cells.now slots.now pointer result }
{
    match pointer {
        Ptr::Null => Ok(None),
        Ptr::To {
            object,
            window,
            position,
        } => match place_of(slots, object) {
            Some(place) => {
                if is_freed(&slots[place], window, position) {
                    Ok(Some(place))
                } else {
                    Err(Stop::U11)
                }
            }
            None => Err(Stop::U11),
        },
    }
}

/// Whether `free` of a pointer to the object of a slot ends that object.
fn is_freed(slot: &Slot, window: Window, position: u64) -> bool
    ensures { result ≡ frees slot.now window position }
{
    slot.live
        && (matches!(slot.provenance, Provenance::Allocated) && (window.whole && position == 0))
}
