//! `main` and its task loop.

ghost use Rattle.std.specs.Prelude.{◌≡◌, true, Some, IfSome, is_some, map, option_map, slice_get, take};
ghost use Rattle.p10_core.specs.Typed.{statements_list, statements_of_list};
ghost use Rattle.p10_core.specs.Views.{plain_program, plain_function, plain_statement, plain_statements};
ghost use Rattle.p10_meaning.specs.Runs.{task_in};
ghost use Rattle.p10_interp.specs.Stages.{task_of_main};

use crate::entering::function_at;
use p10_core::{Func, Program, Stmt, StmtForm};

/// The function `main`.
pub fn main_of<'p>(p: &'p Program<'p>) -> Option<&'p Func<'p>>
    ensures { option_map (λ f. plain_function f.now) result ≡ slice_get (plain_program p.now).functions (plain_program p.now).main }
{
    function_at(p.functions.as_slice(), p.main)
}

/// The task loop of `main`, if it has one.
pub fn task_item<'p>(p: &'p Program<'p>) -> Option<&'p Stmt>
    ensures task { task_of_main (slice_get (plain_program p.now).functions (plain_program p.now).main) (plain_program p.now).task ≡ task_in (option_map (λ x. plain_statement x.now) result) }
    ensures there { IfSome result (λ x. is_some (task_in (Some (plain_statement x.now))) ≡ true) }
{
    match main_of(p) {
        Some(function) => match p.task {
            Some(place) => loop_at(function.body.as_slice(), place),
            None => None,
        },
        None => None,
    }
}

/// The item at a place, if it is a loop.
fn loop_at(items: &[Stmt], place: u32) -> Option<&Stmt>
    ensures task { task_in (slice_get (map plain_statement items.now) place) ≡ task_in (option_map (λ x. plain_statement x.now) result) }
    ensures there { IfSome result (λ x. is_some (task_in (Some (plain_statement x.now))) ≡ true) }
{
    match item_at(items, place) {
        Some(item) => loop_in(item),
        None => None,
    }
}

/// The item at a place.
fn item_at(items: &[Stmt], place: u32) -> Option<&Stmt>
    ensures { option_map (λ x. plain_statement x.now) result ≡ slice_get (map plain_statement items.now) place }
{
    items.get(place as usize)
}

/// An item, if it is a loop.
fn loop_in(item: &Stmt) -> Option<&Stmt>
    ensures task { task_in (Some (plain_statement item.now)) ≡ task_in (option_map (λ x. plain_statement x.now) result) }
    ensures there { IfSome result (λ x. is_some (task_in (Some (plain_statement x.now))) ≡ true) }
{
    match &item.form {
        StmtForm::Loop(_, _, _, _, _) => Some(item),
        _ => None,
    }
}

/// The items before a place, or all where there are fewer.
pub fn items_before(items: &[Stmt], place: u32) -> &[Stmt]
    ensures { plain_statements result.now ≡ statements_of_list (take place (statements_list (plain_statements items.now))) }
{
    let place = place as usize;
    if place < items.len() {
        &items[..place]
    } else {
        items
    }
}
