//! Violations, one after the other.

ghost use Rattle.std.specs.Prelude.{◌≡◌, ◌++◌, OnOk, option_map};
ghost use Rattle.p10_syn.specs.Built.{identifier_of};
ghost use Rattle.p10_synrules.specs.private.Listing.{violation_if, violation_at};

use p10_base::{Span, Sub, Violation};
use p10_syn::Identifier;
use std::alloc::AllocError;

/// Puts down a violation of the row, where the row holds.
pub(crate) fn put_if(
    sub: Sub,
    holds: bool,
    span: Span,
    violations: &mut Vec<Violation>,
) -> Result<(), AllocError>
    ensures { OnOk result (violations.new.items ≡ violations.old.items ++ violation_if sub holds span) }
{
    if holds {
        violations.push(Violation { sub, span })?;
    }
    Ok(())
}

/// Puts down a violation of the row at a name, where there is one and the row holds.
pub(crate) fn put_at(
    sub: Sub,
    holds: bool,
    name: Option<Identifier<'_>>,
    violations: &mut Vec<Violation>,
) -> Result<(), AllocError>
    ensures { OnOk result (violations.new.items ≡ violations.old.items ++ violation_at sub holds (option_map identifier_of name.entry)) }
{
    match name {
        None => Ok(()),
        Some(name) => put_if(sub, holds, name.at.span, violations),
    }
}
