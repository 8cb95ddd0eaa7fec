//! Where the occurrences of one thing lie: from the first to the last, and in which stretches.

ghost use Rattle.std.specs.Prelude.{◌≡◌, ◌+◌, ◌<◌, ◌^◌, IfOk, length, drop, Some, None, ℕ, slice_get};
ghost use Rattle.std.specs.List.{list_any};
ghost use Rattle.p10_userules.specs.private.Spreads.{StretchesRise, joined, spreads_from, lies_in, lies_in_one, number_of_kind, note_first};

use crate::occurrences::{Occurrence, Referent};
use crate::parts::Stretch;
use std::alloc::{AllocError, Global};

/// Where the occurrences of one thing lie among all.
#[derive(Clone, Copy, Debug)]
pub struct Spread {
    /// The place of the first one.
    pub start: usize,
    /// The place past the last one.
    pub end: usize,
    /// Whether the first one is checked.
    pub checked: bool,
}

/// Which things are looked at.
#[derive(Clone, Copy, Debug)]
pub enum Kind {
    Variables,
    Objects,
}

/// The number of a thing of a kind.
fn number_of_kind(kind: Kind, referent: Referent) -> Option<u32>
    ensures { result ≡ number_of_kind kind referent }
{
    match (kind, referent) {
        (Kind::Variables, Referent::Variable(number)) => Some(number),
        (Kind::Objects, Referent::Object(number)) => Some(number),
        (Kind::Variables, Referent::Object(_)) | (Kind::Objects, Referent::Variable(_)) => None,
    }
}

/// Where occurrences lie, the first of which is known.
fn with_first(first: Spread, later: Option<Spread>) -> Spread
    ensures { Some result ≡ joined (Some first) later }
{
    match later {
        Some(later) => Spread {
            start: first.start,
            end: later.end,
            checked: first.checked,
        },
        None => first,
    }
}

/// Notes an occurrence of the thing with a number, if it is there.
fn put_first(spreads: &mut Vec<Option<Spread>>, number: Option<u32>, first: Spread)
    ensures { spreads.new.items ≡ note_first spreads.old.items number first }
{
    if let Some(number) = number {
        let place = number as usize;
        if place < spreads.len() {
            spreads[place] = Some(with_first(first, spreads[place]));
        }
    }
}

/// Notes an occurrence that stands at a place, before all that were noted.
fn note(spreads: &mut Vec<Option<Spread>>, kind: Kind, occurrence: Occurrence, at: usize)
    requires { at + 1 < 2 ^ 64 }
    ensures { spreads.new.items ≡ note_first spreads.old.items (number_of_kind kind occurrence.referent) (record { start = at; end = at + 1; checked = occurrence.checked }) }
{
    let first = Spread {
        start: at,
        end: at + 1,
        checked: occurrence.checked,
    };
    put_first(spreads, number_of_kind(kind, occurrence.referent), first);
}

/// No occurrences of `count` things.
fn no_spreads(alloc: Global, count: usize) -> Result<Vec<Option<Spread>>, AllocError>
    ensures length { IfOk result (λ spreads. length spreads.items ≡ count) }
    ensures none { IfOk result (λ spreads. (n : ℕ) → n < length spreads.items → slice_get spreads.items n ≡ Some None) }
{
    vec![in alloc; None; count]
}

/// Where the occurrences of the things of a kind with numbers below `count` lie, among those from the place `start` on.
pub(crate) fn spreads_of(
    alloc: Global,
    count: usize,
    kind: Kind,
    start: usize,
    occurrences: &[Occurrence],
) -> Result<Vec<Option<Spread>>, AllocError>
    requires { start + length occurrences.now < 2 ^ 64 }
    ensures { IfOk result (λ spreads. spreads.items ≡ spreads_from 0 kind start occurrences.now count) }
{
    let mut spreads = no_spreads(alloc, count)?;
    let mut left = occurrences.len();
    while left > 0 {
        left -= 1;
        note(&mut spreads, kind, occurrences[left], start + left);
    }
    Ok(spreads)
}

/// Whether there are occurrences, and all lie in one of the stretches.
pub(crate) fn lies_in_one(spread: Option<Spread>, stretches: &[Stretch]) -> bool
    requires { StretchesRise stretches.now }
    ensures { result ≡ lies_in_one spread stretches.now }
{
    match spread {
        Some(spread) => some_lie_in_one(spread, stretches),
        None => false,
    }
}

/// Whether some occurrences all lie in one of the stretches.
fn some_lie_in_one(spread: Spread, stretches: &[Stretch]) -> bool
    requires { StretchesRise stretches.now }
    ensures { result ≡ list_any (lies_in (Some spread)) stretches.now }
{
    let mut low = 0;
    let mut high = stretches.len();
    while low < high {
        let middle = low + (high - low) / 2;
        let here = stretches[middle];
        if here.end < spread.end {
            low = middle + 1;
        } else if spread.start < here.start {
            high = middle;
        } else {
            return true;
        }
    }
    false
}
