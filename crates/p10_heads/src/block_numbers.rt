//! The numbers of objects in blocks, found by where their names stand.

ghost use Rattle.std.specs.Prelude.{◌≡◌, ℕ, nat_eq, map, IfOk};
ghost use Rattle.indexmap.specs.IndexMap.{get};
ghost use Rattle.p10_heads.specs.HeadViews.{plain_head};
ghost use Rattle.p10_heads.specs.private.Numbering.{stands_at, block_place, or_at};

use crate::head::Head;
use crate::numbers::next_number;
use indexmap::IndexMap;
use std::alloc::{AllocError, Global};

/// The numbers of the objects in blocks, by the first words of their names.
pub(crate) fn block_numbers(
    alloc: Global,
    heads: &[Head<'_>],
) -> Result<IndexMap<u32, u32>, AllocError>
    ensures { IfOk result (λ table. (first : ℕ) → get nat_eq table first ≡ block_place first (map plain_head heads.now)) }
{
    let mut table = IndexMap::new(alloc);
    let mut number: u32 = 0;
    for head in heads {
        note(&mut table, head, number)?;
        number = next_number(number)?;
    }
    Ok(table)
}

/// Notes the number of a definition, if it stands in a block and is the first one there.
fn note(table: &mut IndexMap<u32, u32>, head: &Head<'_>, number: u32) -> Result<(), AllocError>
    ensures { IfOk result (λ _. (first : ℕ) → get nat_eq table.new first ≡ or_at (get nat_eq table.old first) (stands_at first (plain_head head.now)) number) }
{
    let first = head.at.first;
    let in_block = head.in_block;
    if !in_block {
        return Ok(());
    }
    if table.contains_key(&first) {
        return Ok(());
    }
    table.insert(first, number)?;
    Ok(())
}
