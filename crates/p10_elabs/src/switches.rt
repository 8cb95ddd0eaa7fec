//! Items of the block of a `switch`, with the labels before them (C99 6.8.4.2).

ghost use Rattle.std.specs.Prelude.{◌≡◌, [], Some, None, IfOk, length};
ghost use Rattle.p10_elabs.specs.Locals.{Local as PlainLocal};
ghost use Rattle.p10_elabs.specs.LocalViews.{plain_labelled};
ghost use Rattle.p10_elabs.specs.Statements.{nothing_switched};
ghost use Rattle.p10_elabs.specs.private.StepViews.{plain_switched};

use crate::case_labels::CaseLabels;
use crate::items::{Items, no_items};
use crate::labels::Labelled;
use std::alloc::{AllocError, Global};

/// The items of the block of a `switch` so far, and their labels.
#[derive(Drop)]
pub(crate) struct Switched {
    pub items: Items,
    pub labels: Labelled,
}

/// No labels.
pub(crate) fn no_labels(alloc: Global) -> Labelled
    ensures { (l : PlainLocal) → plain_labelled result l ≡ record { cases = Some []; otherwise = None; after = l } }
{
    Labelled {
        cases: Some(CaseLabels::new(alloc)),
        otherwise: None,
    }
}

/// Before the first item.
pub(crate) fn nothing_switched(alloc: Global) -> Switched
    ensures { (l : PlainLocal) → plain_switched result l ≡ nothing_switched l }
{
    Switched {
        items: no_items(alloc),
        labels: no_labels(alloc),
    }
}

/// The place of the next item among those of a block.
pub(crate) fn next_place(items: &Items) -> Result<u32, AllocError>
    ensures { IfOk result (λ place. place ≡ length items.now.kinds.items) }
{
    let count = items.kinds.len();
    if count > u32::MAX as usize {
        return Err(AllocError);
    }
    Ok(count as u32)
}
