//! What is said of a certificate.

ghost use Rattle.std.specs.Prelude.{◌≡◌, ◌++◌, OnOk};
ghost use Rattle.p10_clean.specs.Values.{flaw_if};

use p10_base::Span;
use std::alloc::AllocError;

/// A condition that doesn't hold.
#[derive(Clone, Copy, Debug, PartialEq, Eq)]
pub struct Flaw {
    /// Its number, from 1 to 8.
    pub c: u8,
    /// Its place.
    pub at: Span,
}

/// Whether a certificate is clean.
#[derive(Clone, Copy, Debug, PartialEq, Eq)]
pub enum Clean {
    /// All conditions hold.
    Yes,
    /// The first condition that doesn't hold.
    No {
        /// Its number.
        c: u8,
        /// Its place.
        at: Span,
    },
}

/// Puts a condition after the others at a place, if it doesn't hold there.
pub(crate) fn push_if(fails: bool, c: u8, at: Span, flaws: &mut Vec<Flaw>) -> Result<(), AllocError>
    ensures { OnOk result (flaws.new.items ≡ flaws.old.items ++ flaw_if fails c at) }
{
    if fails {
        flaws.push(Flaw { c, at })?;
    }
    Ok(())
}
