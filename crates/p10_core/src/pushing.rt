//! Parts of trees in lists. Where memory runs out they are dropped here, once for all kinds: each step of a proof writes out the type of
//! what it moves or drops, which is long for a tree.

ghost use Rattle.std.specs.Prelude.{◌≡◌, [], ◌∷◌, ◌++◌, OnOk};

use std::alloc::AllocError;

/// Puts a part at the end of a list.
pub(crate) fn push_one<T: Drop>(all: &mut Vec<T>, part: T) -> Result<(), AllocError>
    ensures { OnOk result (all.new.items ≡ all.old.items ++ part ∷ []) }
{
    all.push(part)?;
    Ok(())
}
