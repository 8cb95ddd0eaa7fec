//! What lists of initialisers give (C99 6.7.8).

ghost use Rattle.std.specs.Prelude.{◌≡◌, ℕ, ◌+◌, ◌≤◌, List, true, MatchOption, IfOk, IfErr, map, option_map, pos, slice_get};
ghost use Rattle.p10_core.specs.Types.{PlainType};
ghost use Rattle.p10_core.specs.Views.{plain_item, plain_written};
ghost use Rattle.p10_meaning.specs.declared.pointers.Scalar.TheVariants.{Int};
ghost use Rattle.p10_meaning.specs.Statements.{listed_scalar};
ghost use Rattle.p10_interp.specs.private.Operations.{count_written, count_of_items, scalars_of_items};
ghost use Rattle.p10_interp.specs.private.Kinds.{HasKind};
ghost use Rattle.p10_interp.specs.private.Listing.{first_listed, byte_for, taken_by, LooksAt, past_item, InOrder, IsAhead, IsListedFrom, PassesOne};

use crate::kinds::{Kind, convert_to_kind, zero_of_kind};
use crate::queue::Queue;
use crate::work::Halt;
use p10_core::{Item, Written};
use p10_meaning::Scalar;

/// The items of a list, and the values that are written in them, in order; whether no item begins before the one before it has
/// ended; and how many items have ended, with how many values these take.
#[derive(Clone, Copy)]
pub struct Listed<'l> {
    pub items: &'l [Item],
    pub values: &'l Queue<Scalar>,
    pub ordered: bool,
    pub place: usize,
    pub used: usize,
}

/// A list before its first item.
pub fn list<'l>(items: &'l [Item], values: &'l Queue<Scalar>) -> Listed<'l>
    ensures list { IsListedFrom 0 (map plain_item result.items.now) result.values.now result.ordered result.place result.used }
    ensures items { result.items.now ≡ items.now }
    ensures values { result.values.now ≡ values.now }
{
    Listed {
        items,
        values,
        ordered: are_in_order(items),
        place: 0,
        used: 0,
    }
}

/// Whether no item begins before the one before it has ended.
fn are_in_order(items: &[Item]) -> bool
    ensures { result ≡ true → InOrder 0 (map plain_item items.now) }
{
    let mut from: u128 = 0;
    for (place, item) in items.iter().enumerate() {
        if (item.scalar as u128) < from {
            return false;
        }
        from = past_item(item);
    }
    true
}

/// The number past the scalars that an item gives.
fn past_item(item: &Item) -> u128
    ensures { result ≡ past_item item.now.scalar (plain_written item.now.written) }
{
    match &item.written {
        Written::Scalar(_) => item.scalar as u128 + 1,
        Written::Text(bytes) => item.scalar as u128 + bytes.as_slice().len() as u128,
    }
}

/// The list with all items passed that end before a number.
pub fn passed<'l>(listed: Listed<'l>, number: u64) -> Listed<'l>
    requires { IsListedFrom number (map plain_item listed.items.now) listed.values.now listed.ordered listed.place listed.used }
    ensures list { IsListedFrom number (map plain_item result.items.now) result.values.now result.ordered result.place result.used }
    ensures ahead { IsAhead number (slice_get (map plain_item result.items.now) result.place) }
    ensures items { result.items.now ≡ listed.entry.items.now }
    ensures values { result.values.now ≡ listed.entry.values.now }
{
    let mut place = listed.place;
    let mut used = listed.used;
    while let Some(next) = next_past(listed, place, used, number) {
        place = next.0;
        used = next.1;
    }
    Listed {
        items: listed.items,
        values: listed.values,
        ordered: listed.ordered,
        place,
        used,
    }
}

/// The place past the item at a place, and how many values are used there, if the item ends before a number.
fn next_past(listed: Listed<'_>, place: usize, used: usize, number: u64) -> Option<(usize, usize)>
    requires { used ≤ place }
    ensures { MatchOption result (IsAhead number (slice_get (map plain_item listed.entry.items.now) place)) (λ next. PassesOne number (map plain_item listed.entry.items.now) listed.entry.values.now place used next.0 next.1) }
{
    if place >= listed.items.len() {
        return None;
    }
    let item = &listed.items[place];
    if (number as u128) < past_item(item) {
        return None;
    }
    let taken = count_taken(item, listed.values, used);
    Some((place + 1, used + taken))
}

/// How many values are written in items.
pub fn count_of_items(items: &[Item]) -> usize
    ensures { result ≡ count_of_items (map plain_item items.now) }
{
    let mut count: usize = 0;
    for (place, item) in items.iter().enumerate() {
        count += count_written(&item.written);
    }
    count
}

/// How many values are written in an item: none where it has a text.
fn count_written(written: &Written) -> usize
    ensures adds { (n : ℕ) → count_written (plain_written written.now) n ≡ result + n }
    ensures most { result ≤ 1 }
{
    match written {
        Written::Scalar(_) => 1,
        Written::Text(_) => 0,
    }
}

/// What a list gives for a scalar whose type is of a kind: 0 or null where it gives nothing (C99 6.7.8p21).
pub fn scalar_for(listed: Listed<'_>, kind: Kind, number: u64) -> Result<Scalar, Halt>
    requires list { IsListedFrom number (map plain_item listed.items.now) listed.values.now listed.ordered listed.place listed.used }
    requires ahead { IsAhead number (slice_get (map plain_item listed.items.now) listed.place) }
    ensures value { (t : PlainType) → HasKind t kind → IfOk result (λ x. x ≡ listed_scalar number t (scalars_of_items (map plain_item listed.entry.items.now) listed.entry.values.now)) }
    ensures memory { IfErr result (λ halt. halt ≡ Halt.Memory) }
{
    match find_listed(listed, number) {
        Some(x) => convert_to_kind(kind, x),
        None => Ok(zero_of_kind(kind)),
    }
}

/// The first scalar that a list gives for a number. Where its items are in order, only the next one can give it.
fn find_listed(listed: Listed<'_>, number: u64) -> Option<Scalar>
    requires list { IsListedFrom number (map plain_item listed.items.now) listed.values.now listed.ordered listed.place listed.used }
    requires ahead { IsAhead number (slice_get (map plain_item listed.items.now) listed.place) }
    ensures { result ≡ first_listed number (scalars_of_items (map plain_item listed.entry.items.now) listed.entry.values.now) }
{
    if !listed.ordered {
        return find_among(listed, number);
    }
    let place = listed.place;
    if place >= listed.items.len() {
        return None;
    }
    scalar_in(&listed.items[place], listed.values, listed.used, number)
}

/// The first scalar that a list gives for a number, among all its items.
fn find_among(listed: Listed<'_>, number: u64) -> Option<Scalar>
    ensures { result ≡ first_listed number (scalars_of_items (map plain_item listed.entry.items.now) listed.entry.values.now) }
{
    let items = listed.items;
    let mut used: usize = 0;
    for (place, item) in items.iter().enumerate() {
        match scalar_in(item, listed.values, used, number) {
            Some(x) => return Some(x),
            None => used += count_taken(item, listed.values, used),
        }
    }
    None
}

/// The scalar that an item gives for a number, if it gives one, where `used` values were used before.
fn scalar_in(item: &Item, values: &Queue<Scalar>, used: usize, number: u64) -> Option<Scalar>
    ensures { (more : List Scalar → List (ℕ × Scalar)) → LooksAt number item.now.scalar (plain_written item.now.written) values.now used more result }
{
    match &item.written {
        Written::Scalar(_) => match values.get(used) {
            Some(x) => if item.scalar == number { Some(x) } else { None },
            None => None,
        },
        Written::Text(bytes) => byte_value(byte_for(bytes.as_slice(), item.scalar, number)),
    }
}

/// The scalar that a byte of a text is.
fn byte_value(byte: Option<u8>) -> Option<Scalar>
    ensures { result ≡ option_map (λ b. Int (pos b)) byte }
{
    match byte {
        Some(byte) => Some(Scalar::Int(i128::from(byte))),
        None => None,
    }
}

/// How many values an item takes, where `used` were used before: one where a value is written and is there.
fn count_taken(item: &Item, values: &Queue<Scalar>, used: usize) -> usize
    ensures taken { result ≡ taken_by (plain_written item.now.written) (slice_get values.now used) }
    ensures most { result ≤ 1 }
{
    match &item.written {
        Written::Scalar(_) => match values.get(used) {
            Some(_) => 1,
            None => 0,
        },
        Written::Text(_) => 0,
    }
}

/// The byte of a text for a scalar, where its first byte is that for another.
fn byte_for(bytes: &[u8], first: u64, number: u64) -> Option<u8>
    ensures { result ≡ byte_for bytes.now first number }
{
    if number < first {
        return None;
    }
    let place = number - first;
    if place < bytes.len() as u64 {
        Some(bytes[place as usize])
    } else {
        None
    }
}
