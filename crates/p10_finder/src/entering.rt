//! A loop that the walk comes to.

ghost use Rattle.std.specs.Prelude.{◌≡◌, ◌&&◌, nat_lt, map, IfOk, OnOk, if◌then◌else◌};
ghost use Rattle.std.specs.Option.{option_map, option_copied};
ghost use Rattle.p10_core.specs.Views.{plain_value, plain_variable, plain_statement};
ghost use Rattle.p10_fit.specs.Fits.{is_task as is_task_of};
ghost use Rattle.p10_pass.specs.Leaving.{values_in};
ghost use Rattle.p10_pass.specs.Marks.{is_marked};
ghost use Rattle.p10_finder.specs.Finding.{loops_by};
ghost use Rattle.p10_candidates.specs.Offering.{entry_by, rounds_by, loop_found_by};
ghost use Rattle.p10_candidates.specs.Trials.{loop_found as loop_found_of};
ghost use Rattle.p10_approach.specs.Approaching.{approached_of};
ghost use Rattle.p10_finder.specs.Loops.{found_with};
ghost use Rattle.p10_finder.specs.private.Looking.{search_by, offered_in, assigned_below, entered_in_parts, found_in_parts, passed_parts, passed_statement};

use crate::search::{LoopsFound, Search, known_at_entry, known_under};
use p10_absx::Env;
use p10_approach::{Approached, Site, first_approach};
use p10_candidates::{LoopEntry, LoopFound, Rounds, loop_found, task_found, unreached_found};
use p10_cert::Rank;
use p10_core::{LoopHead, Stmt, StmtForm, Value};
use p10_pass::assigned_marks;
use std::alloc::{AllocError, Global};

/// A loop: how it begins, its test, and its whole statement.
#[derive(Clone, Copy)]
pub(crate) struct LoopParts<'a> {
    pub head: LoopHead,
    pub tested: &'a Option<Value>,
    pub looped: &'a Stmt,
}

/// Finds what a loop counts with, and gives what is known where its body is entered under its claim. A statement that is no loop
/// has no body to enter.
pub(crate) fn enter_loop(
    alloc: Global,
    s: &Search<'_, '_>,
    x: &Stmt,
    env: &Option<Env>,
    found: &mut LoopsFound,
) -> Result<Option<Env>, AllocError>
    ensures found { OnOk result (loops_by found.new ≡ (passed_statement (search_by s.now) s.now.depth (plain_statement x.now) (values_in env.now) (loops_by found.old)).found) }
    ensures inside { IfOk result (λ inside. values_in inside ≡ (passed_statement (search_by s.now) s.now.depth (plain_statement x.now) (values_in env.now) (loops_by found.old)).inside) }
{
    match &x.form {
        StmtForm::Loop(head, first, tested, _, _) => {
            let entry = known_at_entry(alloc, s, found, first.as_slice(), env)?;
            let parts = LoopParts {
                head: *head,
                tested,
                looped: x,
            };
            put_loop(alloc, s, &parts, &entry, found)
        }
        StmtForm::Set(_, _)
        | StmtForm::Update(_, _, _, _, _)
        | StmtForm::Copy(_, _)
        | StmtForm::Value(_)
        | StmtForm::Assert(_, _)
        | StmtForm::Declare(_, _)
        | StmtForm::Static(_)
        | StmtForm::Block(_)
        | StmtForm::If(_, _, None)
        | StmtForm::If(_, _, Some(_))
        | StmtForm::Switch(_, _, _, _)
        | StmtForm::Break
        | StmtForm::Continue
        | StmtForm::Return(_, _)
        | StmtForm::Empty
        | StmtForm::Mark(_) => Ok(None),
    }
}

/// The same for a loop, by what is known at its entry.
fn put_loop(
    alloc: Global,
    s: &Search<'_, '_>,
    parts: &LoopParts<'_>,
    entry: &Option<Env>,
    found: &mut LoopsFound,
) -> Result<Option<Env>, AllocError>
    ensures found { OnOk result (loops_by found.new ≡ (passed_parts (search_by s.now) s.now.depth parts.now.head (option_map plain_value parts.now.tested.now) (plain_statement parts.now.looped.now) (values_in entry.now) (loops_by found.old)).found) }
    ensures inside { IfOk result (λ inside. values_in inside ≡ (passed_parts (search_by s.now) s.now.depth parts.now.head (option_map plain_value parts.now.tested.now) (plain_statement parts.now.looped.now) (values_in entry.now) (loops_by found.old)).inside) }
{
    let l = reached_found(alloc, s, parts, entry)?;
    let inside = known_under(alloc, s, parts, &l.claim, entry)?;
    found.add(l)?;
    Ok(inside)
}

/// What a loop counts with to whose entry a state may not come.
fn reached_found(
    alloc: Global,
    s: &Search<'_, '_>,
    parts: &LoopParts<'_>,
    entry: &Option<Env>,
) -> Result<LoopFound, AllocError>
    ensures { IfOk result (λ l. loop_found_by l ≡ found_in_parts (search_by s.now) s.now.depth parts.now.head (option_map plain_value parts.now.tested.now) (plain_statement parts.now.looped.now) (values_in entry.now)) }
{
    let task = is_task(s.task, parts.head.number);
    match entry {
        Some(entry) => entered_found(alloc, s, parts, task, entry),
        None => Ok(unreached_found(alloc, s.depth, if task { Rank::Task } else { Rank::One })),
    }
}

/// What a loop counts with that is entered.
fn entered_found(
    alloc: Global,
    s: &Search<'_, '_>,
    parts: &LoopParts<'_>,
    task: bool,
    entry: &Env,
) -> Result<LoopFound, AllocError>
    ensures { IfOk result (λ l. loop_found_by l ≡ entered_in_parts (search_by s.now) s.now.depth parts.now.head (option_map plain_value parts.now.tested.now) (plain_statement parts.now.looped.now) task entry.now.values) }
{
    let marks = assigned_of(alloc, parts.looped, s.variables.len())?;
    let l = LoopEntry {
        variables: s.variables,
        assigned: marks.as_slice(),
        guard: guard_of(parts.tested),
        entry,
    };
    let rounds = Rounds {
        variables: s.variables,
        looped: parts.looped,
    };
    if task {
        task_found(alloc, &l, &rounds, s.depth)
    } else {
        untasked_found(alloc, s, parts, &l, &rounds)
    }
}

/// What a loop that isn't the task counts with: by what is offered for it, or else by its candidates.
fn untasked_found(
    alloc: Global,
    s: &Search<'_, '_>,
    parts: &LoopParts<'_>,
    l: &LoopEntry<'_, '_>,
    rounds: &Rounds<'_, '_>,
) -> Result<LoopFound, AllocError>
    ensures { IfOk result (λ found. loop_found_by found ≡ found_with (offered_in (search_by s.now) s.now.depth parts.now.head (plain_statement parts.now.looped.now) (entry_by l.now)) (loop_found_of parts.now.head.span (rounds_by rounds.now) (entry_by l.now) s.now.depth)) }
{
    match offered(alloc, s, parts, l)? {
        Some(a) => Ok(LoopFound {
            claim: a.claim,
            unbounded: None,
            approach: Some(a.approach),
        }),
        None => loop_found(alloc, l, rounds, parts.head.span, s.depth),
    }
}

/// What is offered for a loop.
fn offered(
    alloc: Global,
    s: &Search<'_, '_>,
    parts: &LoopParts<'_>,
    l: &LoopEntry<'_, '_>,
) -> Result<Option<Approached>, AllocError>
    ensures { IfOk result (λ a. option_map approached_of a ≡ offered_in (search_by s.now) s.now.depth parts.now.head (plain_statement parts.now.looped.now) (entry_by l.now)) }
{
    if s.approaching {
        let site = Site {
            function: s.number,
            at: parts.head.number,
            depth: s.depth,
        };
        first_approach(alloc, s.function, parts.looped, site, l)
    } else {
        Ok(None)
    }
}

/// The test of a loop, if it has one.
fn guard_of(tested: &Option<Value>) -> Option<&Value>
    ensures { option_copied result ≡ tested.now }
{
    match tested {
        Some(v) => Some(v),
        None => None,
    }
}

/// Whether a loop's number is that of the task.
fn is_task(task: Option<u32>, n: u32) -> bool
    ensures { result ≡ is_task_of task n }
{
    match task {
        Some(task) => task == n,
        None => false,
    }
}

/// Marks of the variables that a statement assigns, of the first `count`.
fn assigned_of(alloc: Global, x: &Stmt, count: usize) -> Result<Vec<bool>, AllocError>
    ensures { IfOk result (λ marks. is_marked marks.items ≡ assigned_below count (plain_statement x.now)) }
{
    let mut marks = assigned_marks(alloc, x, count)?;
    marks.truncate(count);
    Ok(marks)
}
