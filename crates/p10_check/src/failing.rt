//! Failing conditions, one after the other.

ghost use Rattle.std.specs.Prelude.{◌≡◌, ◌++◌, OnOk};
ghost use Rattle.p10_check.specs.Places.{place_if};
ghost use Rattle.p10_check.specs.Conditions.{failing_at_each};
ghost use Rattle.p10_check.specs.Fails.{failures_of};

use p10_base::Span;
use p10_pass::Fail;
use std::alloc::AllocError;

/// Puts a condition after the others at a place, if it fails there.
pub(crate) fn push_if(
    fails: bool,
    k: u8,
    at: Span,
    failing: &mut Vec<Fail>,
) -> Result<(), AllocError>
    ensures { OnOk result (failures_of failing.new.items ≡ failures_of failing.old.items ++ failing_at_each k (place_if fails at)) }
{
    if fails {
        failing.push(Fail { k, at })?;
    }
    Ok(())
}

/// Puts conditions after the others.
pub(crate) fn push_all(fails: &[Fail], failing: &mut Vec<Fail>) -> Result<(), AllocError>
    ensures { OnOk result (failures_of failing.new.items ≡ failures_of failing.old.items ++ failures_of fails.now) }
{
    failing.extend_from_slice(fails)
}
