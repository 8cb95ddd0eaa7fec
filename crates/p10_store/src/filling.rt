//! New cells, and cells that are let go.

ghost use Rattle.std.specs.Prelude.{◌≡◌, ◌+◌, ◌≤◌, ◌++◌, map, length, vec_len, vec_capacity, replicate, take, OnOk, OnErr, IsOk, is_ok, if◌then◌else◌};
ghost use Rattle.p10_meaning.specs.Pointers.{unset};
ghost use Rattle.p10_store.specs.Origins.{origin_of, character, first_cells, Fills};
ghost use Rattle.p10_store.specs.Ranges.{AreTiled, kind_of, kept_slots, width};
ghost use Rattle.p10_store.specs.Places.{IsLastDead};

use crate::shape::Origin;
use crate::slots::{Provenance, Slot};
use p10_int::{IntType, convert};
use p10_meaning::{Cell, Scalar};
use std::alloc::AllocError;

/// Puts the cells of a new object of `len` scalars after all others.
pub fn put_cells(cells: &mut Vec<Cell>, origin: Origin<'_>, len: usize) -> Result<(), AllocError>
    requires { Fills origin len }
    ensures items { cells.new.items ≡ (if is_ok result then cells.old.items ++ (first_cells origin.entry len) else cells.old.items) }
    ensures capacity { vec_capacity cells.old ≤ vec_capacity cells.new }
    ensures len { OnOk result (vec_len cells.new ≡ vec_len cells.old + len) }
    ensures room { vec_len cells.old + len ≤ vec_capacity cells.old → IsOk result }
{
    match origin {
        Origin::Declared | Origin::Allocated => put_unset(cells, len),
        Origin::Literal(bytes) => put_characters(cells, bytes),
        Origin::DeclaredWith(given) => put_given(cells, given),
        Origin::AllocatedWith(given) => put_given(cells, given),
    }
}

/// Puts cells after all others.
fn put_given(cells: &mut Vec<Cell>, given: &[Cell]) -> Result<(), AllocError>
    ensures items { cells.new.items ≡ (if is_ok result then cells.old.items ++ given.now else cells.old.items) }
    ensures capacity { vec_capacity cells.old ≤ vec_capacity cells.new }
    ensures len { OnOk result (vec_len cells.new ≡ vec_len cells.old + length given.now) }
    ensures room { vec_len cells.old + length given.now ≤ vec_capacity cells.old → IsOk result }
{
    cells.extend_from_slice(given)
}

/// Puts unset cells after all others.
fn put_unset(cells: &mut Vec<Cell>, len: usize) -> Result<(), AllocError>
    ensures items { cells.new.items ≡ (if is_ok result then cells.old.items ++ (replicate len unset) else cells.old.items) }
    ensures capacity { vec_capacity cells.old ≤ vec_capacity cells.new }
    ensures len { OnOk result (vec_len cells.new ≡ vec_len cells.old + len) }
    ensures room { vec_len cells.old + len ≤ vec_capacity cells.old → IsOk result }
{
    let start = cells.len();
    cells.reserve(len)?;
    cells.resize(start + len, Cell { value: None })
}

/// Puts the cells of bytes of a string literal after all others.
fn put_characters(cells: &mut Vec<Cell>, bytes: &[u8]) -> Result<(), AllocError>
    ensures items { cells.new.items ≡ (if is_ok result then cells.old.items ++ (map character bytes.now) else cells.old.items) }
    ensures capacity { vec_capacity cells.old ≤ vec_capacity cells.new }
    ensures len { OnOk result (vec_len cells.new ≡ vec_len cells.old + length bytes.now) }
    ensures room { vec_len cells.old + length bytes.now ≤ vec_capacity cells.old → IsOk result }
{
    let start = cells.len();
    cells.reserve(bytes.len())?;
    for byte in bytes {
        if cells.push(character(*byte)).is_err() {
            cells.truncate(start);
            return Err(AllocError);
        }
    }
    Ok(())
}

/// A byte of a string literal as a value of `char` (C99 6.4.5p5).
fn character(byte: u8) -> Cell
    ensures { result ≡ character byte }
{
    Cell {
        value: Some(Scalar::Int(convert(IntType::Char, byte as i128))),
    }
}

/// Lets go of the dead slots at the end, with their cells.
pub fn trim(cells: &mut Vec<Cell>, slots: &mut Vec<Slot>)
    requires { AreTiled 0 slots.old.items (length cells.old.items) }
    ensures slots { slots.new.items ≡ kept_slots slots.old.items }
    ensures cells { cells.new.items ≡ take (width (kept_slots slots.old.items)) cells.old.items }
    ensures room { (vec_capacity slots.new ≡ vec_capacity slots.old) × (vec_capacity cells.new ≡ vec_capacity cells.old) }
{
    while let Some(slot) = take_dead(slots) {
        cells.truncate(slot.start);
    }
}

/// Takes the slot at the end, if it is dead.
fn take_dead(slots: &mut Vec<Slot>) -> Option<Slot>
    ensures last { IsLastDead slots.old.items slots.new.items result }
    ensures room { vec_capacity slots.new ≡ vec_capacity slots.old }
{
    match slots.last() {
        Some(slot) => { if slot.live { None } else { slots.pop() } }
        None => None,
    }
}

/// What an object of an origin is.
pub fn provenance_of(origin: Origin<'_>) -> Provenance
    ensures { kind_of result ≡ origin_of origin.entry }
{
    match origin {
        Origin::Declared => Provenance::Declared,
        Origin::Allocated => Provenance::Allocated,
        Origin::Literal(_) => Provenance::Literal,
        Origin::DeclaredWith(_) => Provenance::Declared,
        Origin::AllocatedWith(_) => Provenance::Allocated,
    }
}
