//! The condition on ranks, K2.

ghost use Rattle.std.specs.Prelude.{◌≡◌, ◌++◌, OnOk, map, not};
ghost use Rattle.std.specs.List.{filter};
ghost use Rattle.p10_cert.specs.Claims.{func_of};
ghost use Rattle.p10_check.specs.Shapes.{goes_down};
ghost use Rattle.p10_check.specs.Conditions.{failing_at_each};
ghost use Rattle.p10_check.specs.Fails.{failures_of};

use crate::claimed::numbers_claimed;
use crate::failing::push_if;
use p10_calls::CallSite;
use p10_cert::FuncClaim;
use p10_pass::Fail;
use std::alloc::AllocError;

/// Puts down each of some calls whose callee doesn't have a lower rank than its caller.
pub(crate) fn push_rising(
    functions: &[FuncClaim],
    sites: &[CallSite],
    failing: &mut Vec<Fail>,
) -> Result<(), AllocError>
    ensures { OnOk result (failures_of failing.new.items ≡ failures_of failing.old.items ++ failing_at_each 2 (map (λ s. s.call.name) (filter (λ s. not (goes_down (map func_of functions.now) s)) sites.now))) }
{
    let mut sites = sites;
    while let [site, others @ ..] = sites {
        push_if(!goes_down(functions, *site), 2, site.call.name, failing)?;
        sites = others;
    }
    Ok(())
}

/// Whether the callee of a call has a lower rank than the caller.
fn goes_down(functions: &[FuncClaim], site: CallSite) -> bool
    ensures { result ≡ goes_down (map func_of functions.now) site }
{
    let callee = numbers_claimed(functions, site.call.function as usize);
    let caller = numbers_claimed(functions, site.caller as usize);
    callee.rank < caller.rank
}
