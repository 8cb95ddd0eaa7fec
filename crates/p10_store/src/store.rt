//! The store.

ghost use Rattle.std.specs.Prelude.{◌≡◌, ◌+◌, ◌-◌, ◌*◌, ◌^◌, ◌<◌, ◌≤◌, [], length, slice_get, Some, None, OnOk, OnErr, IfOk, IsOk};
ghost use Rattle.std.specs.Result.{result_map_both};
ghost use Rattle.std.specs.Borrow.{sem};
ghost use Rattle.p10_meaning.specs.Objects.{cell_at, target_at, shift, inner, less, distance, closed, find, release};
ghost use Rattle.p10_store.specs.Lending.{LendsCell};

use crate::filling::{provenance_of, put_cells, trim};
use crate::finding::{
    cell_place, freed_place, is_live, live_place, positions, target_place, window_in,
};
use crate::shape::{Origin, Shape};
use crate::slots::Slot;
use p10_int::Stop;
use p10_meaning::{Cell, Ptr, Window};
use std::alloc::{AllocError, Global};
use std::marker::Model;

/// Objects, as ranges of one list of cells.
#[derive(Drop)]
pub struct Store {
    cells: Vec<Cell>,
    /// Live objects, and dead ones that have a younger one after them.
    slots: Vec<Slot>,
    opened: u128,
}

impl Model for Store {
    ghost use Rattle.std.specs.Prelude.{map, ◌-◌, vec_len, vec_capacity};
    ghost use Rattle.p10_store.specs.Stores.{Held};

    ghost Value = { Held };

    ghost use Rattle.p10_store.specs.Ranges.{IsStore, objects_of, handle_of};

    ghost view = { λ s. record { opened = s.opened; objects = objects_of s.cells.items s.slots.items; slots = map handle_of s.slots.items; spare_objects = vec_capacity s.slots - vec_len s.slots; spare_cells = vec_capacity s.cells - vec_len s.cells } };

    ghost invariant = { λ s. IsStore s.cells.items s.slots.items s.opened };
}

impl Store {
    ghost use Rattle.p10_store.specs.Stores.{IsLiveIn, first_in, StaysWithRoom, Opens, Closes, Ends, IsYoungest, BringsBack, Handle, Releases};
    ghost use Rattle.p10_store.specs.Origins.{Fills};

    /// A store without objects. It takes no memory.
    pub fn new(alloc: Global) -> Store
        ensures { (result.opened ≡ 0) × (result.objects ≡ []) × (result.slots ≡ []) }
    {
        Store {
            cells: Vec::new(alloc),
            slots: Vec::new(alloc),
            opened: 0,
        }
    }

    /// How many objects were opened.
    pub fn opened(&self) -> u128
        ensures { result ≡ self.now.opened }
    {
        self.opened
    }

    /// No live object has the number of the next one. Nothing runs here: a caller stands on the contract.
    pub fn next_is_new(&self)
        ensures { find self.now.opened self.now.objects ≡ None }
    {
        let _opened = self.opened;
    }

    /// The cell at a pointer: U5, U7, U6 (C99 6.5.3.2p4). The elements of the pointer's array are scalars.
    #[inline(always)]
    pub fn place(&self, pointer: Ptr) -> Result<&Cell, Stop>
        ensures { result_map_both (λ c. c.now) (λ e. e) result ≡ cell_at self.now.objects pointer }
    {
        match cell_place(&self.cells, &self.slots, pointer) {
            Ok((index, _)) => Ok(&self.cells[index]),
            Err(stop) => Err(stop),
        }
    }

    /// Lends the cell at a pointer, to be written: U5, U7, U6, U12. All other cells stay.
    #[inline(always)]
    pub fn place_mut(&mut self, pointer: Ptr) -> Result<&mut Cell, Stop>
        ensures* lends { sem 𝓛 (LendsCell self.entry pointer result) }
        ensures value { result_map_both (λ c. c.now) (λ e. e) result ≡ target_at self.old.objects pointer }
    {
        match target_place(&self.cells, &self.slots, pointer) {
            Ok(index) => Ok(&mut self.cells[index]),
            Err(stop) => Err(stop),
        }
    }

    /// The pointer moved by a number of elements: U5, U7, U6 (C99 6.5.6p8).
    pub fn shift(&self, pointer: Ptr, by: i128) -> Result<Ptr, Stop>
        ensures { result ≡ shift self.now.objects pointer by }
    {
        match pointer {
            Ptr::Null => Err(Stop::U5),
            Ptr::To {
                object,
                window,
                position,
            } => {
                if !is_live(&self.cells, &self.slots, object) {
                    return Err(Stop::U7);
                }
                match (position as i128).checked_add(by) {
                    Some(to) if 0 <= to && to <= window.count as i128 => Ok(Ptr::To {
                        object,
                        window,
                        position: to as u64,
                    }),
                    _ => Err(Stop::U6),
                }
            }
        }
    }

    /// The pointer to the first element of the array of `count` elements of a shape that begins at scalar `at` of the element
    /// at a pointer: U5, U7.
    pub fn inner(&self, pointer: Ptr, at: u64, shape: &Shape, count: u64) -> Result<Ptr, Stop>
        ensures { result ≡ inner self.now.objects pointer at shape.now.scalars count }
    {
        match pointer {
            Ptr::Null => Err(Stop::U5),
            Ptr::To {
                object,
                window,
                position,
            } => {
                if !is_live(&self.cells, &self.slots, object) {
                    return Err(Stop::U7);
                }
                Ok(Ptr::To {
                    object,
                    window: window_in(window, position, at, shape.scalars, count),
                    position: 0,
                })
            }
        }
    }

    /// Whether the first pointer stands before the second in their array: U5, U7, U9 (C99 6.5.8p5).
    pub fn less(&self, left: Ptr, right: Ptr) -> Result<bool, Stop>
        ensures { result ≡ less self.now.objects left right }
    {
        let (first, second) = positions(&self.cells, &self.slots, left, right)?;
        Ok(first < second)
    }

    /// How many elements the first pointer stands after the second in their array: U5, U7, U9 (C99 6.5.6p9).
    pub fn distance(&self, left: Ptr, right: Ptr) -> Result<i128, Stop>
        ensures { result ≡ distance self.now.objects left right }
    {
        let (first, second) = positions(&self.cells, &self.slots, left, right)?;
        Ok(first as i128 - second as i128)
    }

    /// The pointer to the first element of the live object in a slot; null where there is none.
    pub fn first(&self, slot: usize) -> Ptr
        ensures { result ≡ first_in (slice_get self.now.slots slot) }
    {
        match self.slots.get(slot) {
            Some(found) if found.live => Ptr::To {
                object: found.number,
                window: Window {
                    start: 0,
                    stride: found.stride,
                    count: found.count,
                    inside: true,
                    whole: true,
                },
                position: 0,
            },
            _ => Ptr::Null,
        }
    }

    /// Opens an object of `count` elements of a shape, and gives its slot.
    ///
    /// # Errors
    ///
    /// Out of memory, which doesn't come within the room that [`Store::reserve`] made; the objects are then as before.
    pub fn open(
        &mut self,
        shape: &Shape,
        count: u64,
        origin: Origin<'_>,
    ) -> Result<usize, AllocError>
        requires opened { self.old.opened < 2 ^ 128 - 1 }
        requires literal { Fills origin (count * shape.now.scalars) }
        ensures ok { OnOk result (Opens self.old self.new shape.now.scalars count origin.entry) }
        ensures slot { IfOk result (λ slot. slot ≡ length self.old.slots) }
        ensures refused { OnErr result (StaysWithRoom self.old self.new) }
        ensures room { 1 ≤ self.old.spare_objects → count * shape.now.scalars ≤ self.old.spare_cells → IsOk result }
    {
        let slot = self.slots.len();
        let Some(len) = count.checked_mul(shape.scalars) else {
            return Err(AllocError);
        };
        let made = Slot {
            number: self.opened,
            start: self.cells.len(),
            len: len as usize,
            stride: shape.scalars,
            count,
            live: true,
            provenance: provenance_of(origin),
        };
        if self.slots.push(made).is_err() {
            return Err(AllocError);
        }
        match put_cells(&mut self.cells, origin, len as usize) {
            Ok(()) => {
                self.opened += 1;
                Ok(slot)
            }
            Err(error) => {
                self.slots.truncate(slot);
                Err(error)
            }
        }
    }

    /// A number is passed over: no object has it.
    pub fn skip(&mut self)
        requires opened { self.old.opened < 2 ^ 128 - 1 }
        ensures { self.new ≡ record self.old { opened = self.old.opened + 1 } }
    {
        self.opened += 1;
    }

    /// The live object in a slot dies.
    pub fn close(&mut self, slot: usize)
        requires { IsLiveIn self.old.slots slot }
        ensures closes { (h : Handle) → slice_get self.old.slots slot ≡ Some (Some h) → Closes h.number self.old self.new }
        ensures youngest { (h : Handle) → slice_get self.old.slots slot ≡ Some (Some h) → IsYoungest self.old.slots slot → BringsBack h self.old self.new }
    {
        self.slots[slot].live = false;
        trim(&mut self.cells, &mut self.slots);
    }

    /// The object with a number dies, if it is live.
    pub fn end(&mut self, number: u128)
        ensures objects { self.new.objects ≡ closed number self.old.objects }
        ensures effect { Ends number (find number self.old.objects) self.old self.new }
    {
        match live_place(&self.slots, number) {
            Some(place) => self.close(place),
            None => {}
        }
    }

    /// `free`: the object of a pointer dies, and null is freed without effect. U11 for all but null and the first place of a
    /// live allocation (C99 7.20.3.2).
    pub fn release(&mut self, pointer: Ptr) -> Result<(), Stop>
        ensures value { result_map_both (λ _. self.new.objects) (λ e. e) result ≡ release self.old.objects pointer }
        ensures effect { Releases pointer self.old self.new result }
    {
        match freed_place(&self.cells, &self.slots, pointer) {
            Ok(Some(place)) => {
                self.close(place);
                Ok(())
            }
            Ok(None) => Ok(()),
            Err(stop) => Err(stop),
        }
    }

    /// Makes room for further objects and further cells, within which opens need no memory.
    pub fn reserve(&mut self, objects: u64, cells: u64) -> Result<(), AllocError>
        ensures ok { OnOk result ((objects ≤ self.new.spare_objects) × (cells ≤ self.new.spare_cells)) }
        ensures stays { StaysWithRoom self.old self.new }
    {
        self.slots.reserve(objects as usize)?;
        self.cells.reserve(cells as usize)
    }
}
