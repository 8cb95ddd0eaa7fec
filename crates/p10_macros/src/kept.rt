//! The macros that are kept: each at a place, in the order of their definitions, and None where one was undefined.

ghost use Rattle.std.specs.Prelude.{◌≡◌, ◌<◌, None, Some, length, option_copied, slice_set};
ghost use Rattle.p10_macros.specs.Known as specified;

use crate::known::Known;
use std::mem;

/// The macro at a place, if there is one.
pub fn kept_at<'k, 'w, 's>(
    kept: &'k [Option<Known<'w, 's>>],
    place: usize,
) -> Option<&'k Known<'w, 's>>
    ensures { option_copied result ≡ specified.kept_at kept.now place }
{
    match kept.get(place) {
        None => None,
        Some(entry) => entry.as_ref(),
    }
}

/// Puts a macro, or none, at a place, and gives what was there.
pub fn put_at<'w, 's>(
    kept: &mut Vec<Option<Known<'w, 's>>>,
    place: usize,
    entry: Option<Known<'w, 's>>,
) -> Option<Known<'w, 's>>
    requires { place < length kept.old.items }
    ensures put { kept.new.items ≡ slice_set kept.old.items place entry.entry }
    ensures taken { result ≡ specified.kept_at kept.old.items place }
{
    mem::replace(&mut kept[place], entry)
}
