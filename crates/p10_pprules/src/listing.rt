//! Violations, one after the other.

ghost use Rattle.std.specs.Prelude.{◌≡◌, ◌++◌, OnOk};
ghost use Rattle.p10_pprules.specs.private.Listing.{violation_if};

use p10_base::{Span, Sub, Violation};
use std::alloc::AllocError;

/// Puts a violation of the row after the others, where the row holds.
pub fn push_if(
    sub: Sub,
    holds: bool,
    span: Span,
    violations: &mut Vec<Violation>,
) -> Result<(), AllocError>
    ensures { OnOk result (violations.new.items ≡ violations.old.items ++ violation_if sub holds span) }
{
    if holds {
        violations.push(Violation { sub, span })?;
    }
    Ok(())
}
