//! What lists of initialisers give (C99 6.7.8), where their values stand in slots.

ghost use Rattle.std.specs.Prelude.{◌≡◌, ℕ, ◌+◌, ◌<◌, List, true, false, IfOk, IfSome, length, map, option_map, pos, slice_get};
ghost use Rattle.p10_core.specs.Types.{PlainType, plain_type, bare};
ghost use Rattle.p10_core.specs.Sizes.{scalars_of};
ghost use Rattle.p10_core.specs.Views.{plain_types, plain_item, plain_written};
ghost use Rattle.p10_core.specs.WholePrograms.{AreWholeStructures};
ghost use Rattle.p10_meaning.specs.declared.pointers.Scalar.TheVariants.{Int};
ghost use Rattle.p10_meaning.specs.Values.{Held};
ghost use Rattle.p10_code.specs.Machine.{item_slots, listed_in};
ghost use Rattle.p10_machine.specs.Kinds.{HasKind};
ghost use Rattle.p10_machine.specs.Listing.{first_listed, given_for, byte_for, LooksAt, past_item, InOrder, EndsBefore, IsAhead, ArePassed, IsListed};
ghost use Rattle.p10_machine.specs.Views.{slot_of};

use crate::kinds::{Kind, convert_to_kind, kind_at, zero_of_kind};
use crate::machine::Machine;
use crate::turned::Full;
use p10_compile::Operand;
use p10_core::{CType, Item, Types, Written};
use p10_meaning::Scalar;

/// The items of a list, the slot of their first value, and whether no item begins before the one before it has ended.
#[derive(Clone, Copy)]
pub struct Listed<'l> {
    pub items: &'l [Item],
    pub slot: u32,
    pub ordered: bool,
}

/// How many items of a list are passed, and the slot of the next value.
#[derive(Clone, Copy, Debug)]
pub struct Cursor {
    pub place: usize,
    pub slot: u32,
}

/// A list whose values stand from a slot on.
pub fn list(items: &[Item], slot: u32) -> Listed<'_>
    ensures order { result.ordered ≡ true → InOrder 0 (map plain_item result.items.now) }
    ensures items { result.items.now ≡ items.now }
    ensures slot { result.slot ≡ slot }
{
    Listed {
        items,
        slot,
        ordered: are_in_order(items),
    }
}

/// Whether no item begins before the one before it has ended.
fn are_in_order(items: &[Item]) -> bool
    ensures { result ≡ true → InOrder 0 (map plain_item items.now) }
{
    let mut from: u128 = 0;
    for (place, item) in items.iter().enumerate() {
        if (item.scalar as u128) < from {
            return false;
        }
        from = past_item(item);
    }
    true
}

/// The number past the scalars that an item gives.
fn past_item(item: &Item) -> u128
    ensures { result ≡ past_item item.now.scalar (plain_written item.now.written) }
{
    match &item.written {
        Written::Scalar(_) => item.scalar as u128 + 1,
        Written::Text(bytes) => item.scalar as u128 + bytes.as_slice().len() as u128,
    }
}

/// The slot after the value of an item, which a text has not: none where it has no number of 32 bits.
fn slot_past(item: &Item, slot: u32) -> Option<u32>
    ensures { IfSome result (λ next. next ≡ slot + item_slots (plain_written item.now.written)) }
{
    match &item.written {
        Written::Scalar(_) => slot.checked_add(1),
        Written::Text(_) => Some(slot),
    }
}

/// All items are passed that end before a number; none where a value has no slot.
pub fn passed(listed: Listed<'_>, cursor: Cursor, number: u64) -> Option<Cursor>
    ensures passed { IfSome result (λ next. (look : ℕ → Held) (from : ℕ) → ArePassed number (map plain_item listed.entry.items.now) look from cursor.place cursor.slot → ArePassed number (map plain_item listed.entry.items.now) look from next.place next.slot) }
    ensures ahead { IfSome result (λ next. IsAhead number (slice_get (map plain_item listed.entry.items.now) next.place)) }
{
    let items = listed.items;
    let mut place = cursor.place;
    let mut slot = cursor.slot;
    'passing: while ends_before(items, place, number) {
        slot = slot_past(&items[place], slot)?;
        place += 1;
    }
    Some(Cursor { place, slot })
}

/// Whether there is an item at a place that ends before a number.
fn ends_before(items: &[Item], place: usize, number: u64) -> bool
    ensures there { result ≡ true → place < length items.now }
    ensures ends { result ≡ true → EndsBefore number (slice_get (map plain_item items.now) place) }
    ensures ahead { result ≡ false → IsAhead number (slice_get (map plain_item items.now) place) }
{
    if place >= items.len() {
        return false;
    }
    if (number as u128) < past_item(&items[place]) {
        return false;
    }
    true
}

/// What a list gives for a scalar of an object of a type, converted to its type: 0 or null where it gives nothing (C99 6.7.8p21).
pub fn scalar_for(
    types: (&Types<'_>, &CType),
    listed: Listed<'_>,
    cursor: Cursor,
    number: u64,
    m: &Machine,
) -> Result<Scalar, Full>
    requires structures { AreWholeStructures (plain_types types.0.now) }
    requires order { listed.ordered ≡ true → InOrder 0 (map plain_item listed.items.now) }
    requires passed { ArePassed number (map plain_item listed.items.now) (slot_of m.now) listed.slot cursor.place cursor.slot }
    requires ahead { IsAhead number (slice_get (map plain_item listed.items.now) cursor.place) }
    ensures { IfOk result (IsListed (scalars_of (plain_types types.entry.0.now) (bare (plain_types types.entry.0.now) (plain_type types.entry.1.now))) number (listed_in listed.entry.slot (map plain_item listed.entry.items.now) (slot_of m.now))) }
{
    let Some(kind) = kind_at(types.0, types.1, number) else {
        return Err(Full);
    };
    let found = find_listed(listed, cursor, number, m)?;
    convert_or_zero(kind, found)
}

/// A scalar converted to the type of another, or 0 or null where there is none.
fn convert_or_zero(kind: Kind, x: Option<Scalar>) -> Result<Scalar, Full>
    ensures { IfOk result (λ y. (t : PlainType) → HasKind t kind → y ≡ given_for t x) }
{
    match x {
        Some(x) => convert_to_kind(kind, x),
        None => Ok(zero_of_kind(kind)),
    }
}

/// The first scalar that a list gives for a number. Where its items are in order, only the next one can give it.
fn find_listed(
    listed: Listed<'_>,
    cursor: Cursor,
    number: u64,
    m: &Machine,
) -> Result<Option<Scalar>, Full>
    requires order { listed.ordered ≡ true → InOrder 0 (map plain_item listed.items.now) }
    requires passed { ArePassed number (map plain_item listed.items.now) (slot_of m.now) listed.slot cursor.place cursor.slot }
    requires ahead { IsAhead number (slice_get (map plain_item listed.items.now) cursor.place) }
    ensures { IfOk result (λ x. x ≡ first_listed number (listed_in listed.entry.slot (map plain_item listed.entry.items.now) (slot_of m.now))) }
{
    if !listed.ordered {
        return find_among(listed, number, m);
    }
    let place = cursor.place;
    if place >= listed.items.len() {
        return Ok(None);
    }
    Ok(scalar_in(&listed.items[place], cursor.slot, number, m))
}

/// The first scalar that a list gives for a number, among all its items.
fn find_among(listed: Listed<'_>, number: u64, m: &Machine) -> Result<Option<Scalar>, Full>
    ensures { IfOk result (λ x. x ≡ first_listed number (listed_in listed.entry.slot (map plain_item listed.entry.items.now) (slot_of m.now))) }
{
    let items = listed.items;
    let mut slot = listed.slot;
    for (place, item) in items.iter().enumerate() {
        match scalar_in(item, slot, number, m) {
            Some(x) => return Ok(Some(x)),
            None => match slot_past(item, slot) {
                Some(next) => slot = next,
                None => return Err(Full),
            },
        }
    }
    Ok(None)
}

/// The scalar that an item gives for a number, if it gives one, where its value stands in a slot.
fn scalar_in(item: &Item, slot: u32, number: u64, m: &Machine) -> Option<Scalar>
    ensures { (more : List (ℕ × Scalar)) → LooksAt number item.now.scalar (plain_written item.now.written) (slot_of m.now) slot more result }
{
    match &item.written {
        Written::Scalar(_) => {
            if item.scalar == number {
                Some(m.value(Operand::Slot(slot)))
            } else {
                None
            }
        }
        Written::Text(bytes) => byte_value(byte_for(bytes.as_slice(), item.scalar, number)),
    }
}

/// The scalar that a byte of a text is.
fn byte_value(byte: Option<u8>) -> Option<Scalar>
    ensures { result ≡ option_map (λ b. Int (pos b)) byte }
{
    match byte {
        Some(byte) => Some(Scalar::Int(i128::from(byte))),
        None => None,
    }
}

/// The byte of a text for a scalar, where its first byte is that for another.
fn byte_for(bytes: &[u8], first: u64, number: u64) -> Option<u8>
    ensures { result ≡ byte_for bytes.now first number }
{
    if number < first {
        return None;
    }
    let place = number - first;
    if place < bytes.len() as u64 {
        Some(bytes[place as usize])
    } else {
        None
    }
}
