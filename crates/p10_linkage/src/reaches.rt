//! Between which places of a list each number stands.

ghost use Rattle.std.specs.Prelude.{◌≡◌, ℕ, nat_eq, nat_le, map, length, option_map, if◌then◌else◌, slice_get, Some, IfOk};
ghost use Rattle.p10_linkage.specs.private.Meetings.{swapped};
ghost use Rattle.p10_linkage.specs.private.Reaching.{AreReached, IsWithin, hull, part_of, swapped_at};

use std::alloc::{AllocError, Global};

/// From which place on, and up to which, a number stands.
#[derive(Clone, Copy)]
pub(crate) struct Reach {
    pub first: usize,
    pub past: usize,
}

/// Between which places each number of a list stands.
pub(crate) fn reaches_of(alloc: Global, numbers: &[u32]) -> Result<Vec<Reach>, AllocError>
    ensures { IfOk result (λ reaches. AreReached numbers.now reaches.items) }
{
    let nowhere = Reach {
        first: numbers.len(),
        past: 0,
    };
    let mut reaches = vec![in alloc; nowhere; numbers.len()]?;
    for place in 0..numbers.len() {
        let here = Reach {
            first: place,
            past: place + 1,
        };
        widen(&mut reaches, numbers[place], here);
    }
    Ok(reaches)
}

/// Between which places a number of a list stands; for one that isn't known, all of them.
pub(crate) fn part_of(numbers: &Vec<u32>, reaches: &Vec<Reach>, number: u32) -> Reach
    ensures { result ≡ part_of reaches.now.items number (length numbers.now.items) }
{
    match reaches.get(number as usize) {
        Some(reach) => *reach,
        None => Reach {
            first: 0,
            past: numbers.len(),
        },
    }
}

/// A number may stand in a part too.
#[tactic(auto, using(crate::proofs::Reaching::widened, crate::proofs::Reaching::not_widened))]
pub(crate) fn widen(reaches: &mut Vec<Reach>, number: u32, part: Reach)
    ensures { (n : ℕ) → slice_get reaches.new.items n ≡ (if nat_eq n number then option_map (hull part) (slice_get reaches.old.items n) else slice_get reaches.old.items n) }
{
    let place = number as usize;
    if place < reaches.len() {
        reaches[place] = hull(part, reaches[place]);
    }
}

/// The least part in which two lie.
fn hull(one: Reach, other: Reach) -> Reach
    ensures { result ≡ hull one other }
{
    Reach {
        first: lesser(one.first, other.first),
        past: greater(one.past, other.past),
    }
}

/// The lesser of two places.
fn lesser(one: usize, other: usize) -> usize
    ensures { result ≡ (if nat_le one other then one else other) }
{
    if one <= other { one } else { other }
}

/// The greater of two places.
fn greater(one: usize, other: usize) -> usize
    ensures { result ≡ (if nat_le other one then one else other) }
{
    if other <= one { one } else { other }
}

/// Where an old number stands, a new one comes to stand; the old one stands in a part alone.
pub(crate) fn swap_within(numbers: &mut Vec<u32>, part: Reach, old: u32, new: u32)
    requires { (place : ℕ) → slice_get numbers.old.items place ≡ Some old → IsWithin part place }
    ensures { numbers.new.items ≡ map (swapped old new) numbers.old.items }
{
    for place in part.first..part.past {
        swap_at(numbers, place, old, new);
    }
}

/// The same at one place.
#[tactic(auto, using(crate::proofs::Reaching::set_one, crate::proofs::Reaching::none_there))]
fn swap_at(numbers: &mut Vec<u32>, place: usize, old: u32, new: u32)
    ensures { numbers.new.items ≡ swapped_at old new place numbers.old.items }
{
    if place < numbers.len() {
        numbers[place] = swapped(numbers[place], old, new);
    }
}

/// The number that stands where a new one comes to stand for an old one.
fn swapped(number: u32, old: u32, new: u32) -> u32
    ensures { result ≡ swapped old new number }
{
    if number == old { new } else { number }
}
