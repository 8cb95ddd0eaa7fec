//! The body of `main`.

ghost use Rattle.std.specs.Prelude.{◌≡◌, ◌+◌, drop, slice_get};
ghost use Rattle.p10_core.specs.Typed.{statements_list, statements_of_list};
ghost use Rattle.p10_core.specs.Views.{plain_program, plain_statements};
ghost use Rattle.p10_flowrules.specs.Allocating.{late_statements};
ghost use Rattle.p10_flowrules.specs.TaskExits.{items_of_main};

use p10_core::{Program, Stmt};

/// The items of the body of `main`, none where it isn't there.
pub(crate) fn main_body<'p>(program: &'p Program<'_>) -> &'p [Stmt]
    ensures { statements_list (plain_statements result.now) ≡ items_of_main (slice_get (plain_program program.now).functions program.now.main) }
{
    match program.functions.as_slice().get(program.main as usize) {
        Some(main) => main.body.as_slice(),
        None => &[],
    }
}

/// The items of `main` after its mark, all where it has none.
pub(crate) fn late_items<'p>(program: &'p Program<'_>) -> &'p [Stmt]
    ensures { plain_statements result.now ≡ late_statements (plain_program program.now) }
{
    let items = main_body(program);
    match program.mark {
        Some(mark) => items_past(items, mark as usize),
        None => items,
    }
}

/// The items after the one at a place.
fn items_past(items: &[Stmt], place: usize) -> &[Stmt]
    ensures { result.now ≡ drop (place + 1) items.now }
{
    if place < items.len() {
        &items[place + 1..]
    } else {
        &items[items.len()..]
    }
}
