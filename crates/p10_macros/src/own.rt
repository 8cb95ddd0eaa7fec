//! How many macros no built-in header defined.

ghost use Rattle.std.specs.Prelude.{◌≡◌};
ghost use Rattle.p10_macros.specs.private.KnownMacros as specified;

use crate::known::Known;

/// How many of one macro.
pub fn own_if(builtin: bool) -> usize
    ensures { result ≡ specified.own_if builtin }
{
    if builtin { 0 } else { 1 }
}

/// How many of one macro or none.
pub fn own_in(known: &Option<Known<'_, '_>>) -> usize
    ensures { result ≡ specified.own_of_one known.now }
{
    match known {
        None => 0,
        Some(known) => own_if(known.builtin),
    }
}
