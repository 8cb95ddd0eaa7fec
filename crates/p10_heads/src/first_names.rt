//! Tables of names that know the first thing that stands for each.

ghost use Rattle.std.specs.Prelude.{◌≡◌, IfOk};
ghost use Rattle.p10_bindings.specs.Bound.{bound_in};
ghost use Rattle.p10_heads.specs.private.Firsts.{with_first};

use p10_bindings::Bindings;
use std::alloc::AllocError;

/// Declares a name that isn't declared yet.
pub(crate) fn declare_first<'s, T: Drop>(
    table: &mut Bindings<'s, T>,
    name: &'s [u8],
    what: T,
) -> Result<(), AllocError>
    ensures { IfOk result (λ done. bound_in table.new ≡ with_first (bound_in table.old) name.now what) }
{
    if table.find(name).is_some() {
        return Ok(());
    }
    table.declare(name, what)
}
