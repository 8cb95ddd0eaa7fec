//! Violations, one after the other.

ghost use Rattle.std.specs.Prelude.{◌≡◌, ◌++◌, OnOk};
ghost use Rattle.p10_warn.specs.private.Listing.{listed_if};

use p10_base::{Span, Sub, Violation};
use std::alloc::AllocError;

/// Puts a violation of a row of rule 10 after the others, where the row holds.
pub(crate) fn push_if(
    sub: u8,
    holds: bool,
    span: Span,
    violations: &mut Vec<Violation>,
) -> Result<(), AllocError>
    ensures { OnOk result (violations.new.items ≡ violations.old.items ++ listed_if sub holds span) }
{
    if holds {
        violations.push(Violation {
            sub: Sub { rule: 10, sub },
            span,
        })?;
    }
    Ok(())
}
