//! What all roots define.

ghost use Rattle.std.specs.Prelude.{◌≡◌, IfOk, map};
ghost use Rattle.p10_syn.specs.BuiltStatements.{external_of};
ghost use Rattle.p10_heads.specs.Heads.{heads_of_roots};
ghost use Rattle.p10_heads.specs.PlainHeads.{plain_heads};
ghost use Rattle.p10_heads.specs.Roots.{roots_of};

use crate::heads::Heads;
use crate::numbers::next_number;
use crate::root_heads::put_root;
use crate::roots::{rest_from, root_length};
use p10_syn::Unit;
use std::alloc::{AllocError, Global};

/// What the roots define, whose declarations and functions follow one another in `units`: functions, objects outside of functions, and
/// objects of static lifetime in blocks. It fails only where memory runs out; 2^32 of them count as that, too.
pub fn heads_of_units<'s>(alloc: Global, units: &[Unit<'s>]) -> Result<Heads<'s>, AllocError>
    ensures { IfOk result (λ h. plain_heads h ≡ heads_of_roots 0 (roots_of (map external_of units.now))) }
{
    let mut functions = Vec::new(alloc);
    let mut objects = Vec::new(alloc);
    let mut number: u32 = 0;
    let mut place = 0;
    while place < units.len() {
        let rest = rest_from(units, place);
        let count = root_length(rest);
        put_root(alloc, number, &rest[..count], &mut functions, &mut objects)?;
        number = next_number(number)?;
        place += count;
    }
    let heads = Heads::of(alloc, functions, objects)?;
    Ok(heads)
}
