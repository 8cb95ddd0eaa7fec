//! Whether `main` is as it has to be, and the places of its pragmas.

ghost use Rattle.std.specs.Prelude.{◌≡◌, ◌<◌, IfSome, Some, is_some, map, option_map, option_copied, slice_get};
ghost use Rattle.p10_base.specs.declared.at.At.{At};
ghost use Rattle.p10_core.specs.Typed.{PlainStatement, statement, loop};
ghost use Rattle.p10_core.specs.Constants.{fold};
ghost use Rattle.p10_core.specs.Views.{plain_program, plain_function, plain_statement, plain_statements, plain_value};
ghost use Rattle.p10_core.specs.WholePrograms.{HasMain, IsInitDone, IsMain, IsMaybeReturn, IsTask, is_marked, is_return, gives_other_than_zero, is_for, is_true_test, is_while, may_be_task};
ghost use Rattle.p10_whole.specs.private.Shows.{Shows};

use crate::around::function_at;
use crate::order::is_in_order;
use crate::parts::rest_after;
use crate::shapes::is_integer_of;
use p10_core::{
    Func, LoopHead, LoopKeyword, MarkKind, Program, Stmt, StmtForm, Value, fold, inconstant_part,
};
use p10_int::IntType;

/// Whether `main` is there, and is as it has to be.
pub(crate) fn has_main(program: &Program<'_>) -> bool
    ensures { Shows result (HasMain (plain_program program.now)) }
{
    match function_at(program, program.main) {
        Some(function) => is_main(program, function),
        None => false,
    }
}

/// Whether a function is `int main(void)` with its pragmas.
fn is_main(program: &Program<'_>, function: &Func<'_>) -> bool
    ensures { Shows result (IsMain (plain_program program.now) (plain_function function.now)) }
{
    let heading = is_integer_of(IntType::Int, &function.result)
        & ((function.params == 0) & !function.is_static);
    let marked = is_there(program.mark);
    let has_task = is_there(program.task);
    let ordered = is_in_order(function, marked, has_task);
    let items = function.body.as_slice();
    let init_done = is_maybe_init_done(items, program.task, program.mark);
    heading & (ordered & (init_done & is_maybe_task(items, program.task)))
}

/// Whether a number is there.
fn is_there(number: Option<u32>) -> bool
    ensures { result ≡ is_some number }
{
    match number {
        Some(_) => true,
        None => false,
    }
}

/// Whether the pragma `init_done` stands at a place among the items of `main`, if it has one.
fn is_maybe_init_done(items: &[Stmt], task: Option<u32>, mark: Option<u32>) -> bool
    ensures { Shows result (IfSome mark (IsInitDone (map plain_statement items.now) task)) }
{
    match mark {
        Some(place) => is_init_done(items, task, place),
        None => true,
    }
}

/// Whether the pragma `init_done` stands at a place among the items of `main`, before the task loop.
fn is_init_done(items: &[Stmt], task: Option<u32>, n: u32) -> bool
    ensures { Shows result (IsInitDone (map plain_statement items.now) task n) }
{
    is_marked(MarkKind::InitDone, item_at(items, n as usize)) & is_before(n, task)
}

/// The item at a place.
fn item_at(items: &[Stmt], place: usize) -> Option<&Stmt>
    ensures { option_map plain_statement (option_copied result) ≡ slice_get (map plain_statement items.now) place }
{
    items.get(place)
}

/// Whether a place is before another one, if there is one.
fn is_before(n: u32, other: Option<u32>) -> bool
    ensures { Shows result (IfSome other (λ t. n < t)) }
{
    match other {
        Some(other) => n < other,
        None => true,
    }
}

/// Whether the task loop stands at a place among the items of `main`, if it has one.
fn is_maybe_task(items: &[Stmt], task: Option<u32>) -> bool
    ensures { Shows result (IfSome task (IsTask (map plain_statement items.now))) }
{
    match task {
        Some(place) => is_task(items, place),
        None => true,
    }
}

/// Whether the task loop stands at a place among the items of `main`, directly after its pragma, and after it at most one
/// `return`.
fn is_task(items: &[Stmt], n: u32) -> bool
    ensures { Shows result (IsTask (map plain_statement items.now) n) }
{
    let place = n as usize;
    if place == 0 || place >= items.len() {
        return false;
    }
    let marked = is_marked(MarkKind::TaskLoop, item_at(items, place - 1));
    marked & (may_be_task(item_at(items, place)) & is_maybe_return(rest_after(items, place)))
}

/// Whether there is at most one statement, which is a `return`.
fn is_maybe_return(all: &[Stmt]) -> bool
    ensures { Shows result (IsMaybeReturn (map plain_statement all.now)) }
{
    match all {
        [] => true,
        [s] => is_return(s),
        _ => false,
    }
}

/// Whether a statement is `return`.
fn is_return(s: &Stmt) -> bool
    ensures { result ≡ is_return (plain_statement s.now) }
{
    matches!(&s.form, StmtForm::Return(_, _))
}

/// Whether an item is a pragma of a kind.
fn is_marked(kind: MarkKind, item: Option<&Stmt>) -> bool
    ensures { result ≡ is_marked kind (option_map plain_statement (option_copied item.entry)) }
{
    match item {
        Some(s) => match &s.form {
            StmtForm::Mark(found) => kind == *found,
            _ => false,
        },
        None => false,
    }
}

/// Whether an item is a loop that the task loop may be.
fn may_be_task(item: Option<&Stmt>) -> bool
    ensures { result ≡ may_be_task (option_map plain_statement (option_copied item.entry)) }
{
    match item {
        Some(s) => is_endless_loop(s),
        None => false,
    }
}

/// Whether a statement is a loop that the task loop may be.
fn is_endless_loop(s: &Stmt) -> bool
    ensures { result ≡ may_be_task (Some (plain_statement s.now)) }
{
    match &s.form {
        StmtForm::Loop(head, first, test, third, _) => {
            is_endless(*head, first.as_slice(), test, third.as_slice())
        }
        _ => false,
    }
}

/// Whether the clauses of a loop are those of `for (;;)`, or of a `while` whose condition is a constant other than 0.
fn is_endless(head: LoopHead, first: &[Stmt], test: &Option<Value>, third: &[Stmt]) -> bool
    ensures { (at : At) (body : PlainStatement) → result ≡ may_be_task (Some (statement at (loop head (plain_statements first.now) (option_map plain_value test.now) (plain_statements third.now) body))) }
{
    let bare = first.is_empty() & third.is_empty();
    match test {
        None => bare & is_for(head.keyword),
        Some(v) => bare & (is_while(head.keyword) & is_true_test(v)),
    }
}

/// Whether a keyword is `for`.
fn is_for(keyword: LoopKeyword) -> bool
    ensures { result ≡ is_for keyword }
{
    matches!(keyword, LoopKeyword::For)
}

/// Whether a keyword is `while`.
fn is_while(keyword: LoopKeyword) -> bool
    ensures { result ≡ is_while keyword }
{
    matches!(keyword, LoopKeyword::While)
}

/// Whether a condition is an integer constant expression other than 0 (C99 6.6).
fn is_true_test(v: &Value) -> bool
    ensures { result ≡ is_true_test (plain_value v.now) }
{
    v.ty.is_integer() && (inconstant_part(v).is_none() && gives_other_than_zero(v))
}

/// Whether a value of constant form gives a number other than 0.
fn gives_other_than_zero(v: &Value) -> bool
    ensures { result ≡ gives_other_than_zero (fold (plain_value v.now)) }
{
    match fold(v) {
        Ok(number) => number != 0,
        Err(_) => false,
    }
}
