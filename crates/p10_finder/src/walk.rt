//! The walk that finds the loops in statements, one after the other in text order.

ghost use Rattle.std.specs.Prelude.{◌≡◌, IfOk, OnOk, None, if◌then◌else◌};
ghost use Rattle.p10_core.specs.Views.{plain_labels, plain_statement, plain_statements};
ghost use Rattle.p10_absx.specs.Environments.{hull_reached};
ghost use Rattle.p10_pass.specs.Leaving.{values_in};
ghost use Rattle.p10_pass.specs.Marks.{is_marked};
ghost use Rattle.p10_finder.specs.Finding.{loops_by};
ghost use Rattle.p10_finder.specs.Loops.{known_after_statement as after_statement, loops_in as loops_of_statement, loops_in_all as loops_of_all, loops_in_switch as loops_of_body, loops_from as loops_of_cases};
ghost use Rattle.p10_finder.specs.private.Looking.{search_by, loops_in_if as loops_of_if, loops_in_loop as loops_of_loop, loops_in_chosen as loops_of_switch};

use crate::entering::enter_loop;
use crate::looping::has_loop;
use crate::search::{
    LoopsFound, Search, known_after_statement, known_after_value, known_where_value,
};
use p10_absx::Env;
use p10_core::{Labels, Stmt, StmtForm};
use p10_pass::{is_marked, label_marks};
use std::alloc::{AllocError, Global};

/// Finds the loops in a statement, which stands in `depth` loops, after those found so far; no state may come to it.
#[cycle(looking)]
pub fn loops_in(
    alloc: Global,
    s: &Search<'_, '_>,
    x: &Stmt,
    env: &Option<Env>,
    found: &mut LoopsFound,
) -> Result<(), AllocError>
    ensures { OnOk result (loops_by found.new ≡ loops_of_statement (search_by s.now) s.now.depth (plain_statement x.now) (values_in env.now) (loops_by found.old)) }
{
    if !has_loop(x) {
        return Ok(());
    }
    match &x.form {
        StmtForm::Block(items) => loops_in_all(alloc, s, items.as_slice(), env, found),
        StmtForm::If(_, _, None) => loops_in_if(alloc, s, x, env, found),
        StmtForm::If(_, _, Some(_)) => loops_in_if(alloc, s, x, env, found),
        StmtForm::Loop(_, _, _, _, _) => loops_in_loop(alloc, s, x, env, found),
        StmtForm::Switch(_, _, _, _) => loops_in_switch(alloc, s, x, env, found),
        StmtForm::Set(_, _)
        | StmtForm::Update(_, _, _, _, _)
        | StmtForm::Copy(_, _)
        | StmtForm::Value(_)
        | StmtForm::Assert(_, _)
        | StmtForm::Declare(_, _)
        | StmtForm::Static(_)
        | StmtForm::Break
        | StmtForm::Continue
        | StmtForm::Return(_, _)
        | StmtForm::Empty
        | StmtForm::Mark(_) => Ok(()),
    }
}

/// Finds the loops in statements, one after the other.
#[cycle(looking)]
pub fn loops_in_all(
    alloc: Global,
    s: &Search<'_, '_>,
    items: &[Stmt],
    env: &Option<Env>,
    found: &mut LoopsFound,
) -> Result<(), AllocError>
    ensures { OnOk result (loops_by found.new ≡ loops_of_all (search_by s.now) s.now.depth (plain_statements items.now) (values_in env.now) (loops_by found.old)) }
{
    let mut now = copied(alloc, env)?;
    for x in items {
        step(alloc, s, x, &mut now, found)?;
    }
    Ok(())
}

/// Finds the loops in a statement, and goes on to what is known after it.
#[cycle(looking)]
fn step(
    alloc: Global,
    s: &Search<'_, '_>,
    x: &Stmt,
    now: &mut Option<Env>,
    found: &mut LoopsFound,
) -> Result<(), AllocError>
    ensures found { OnOk result (loops_by found.new ≡ loops_of_statement (search_by s.now) s.now.depth (plain_statement x.now) (values_in now.old) (loops_by found.old)) }
    ensures now { OnOk result (values_in now.new ≡ after_statement (search_by s.now) (loops_by found.new) (plain_statement x.now) (values_in now.old)) }
{
    loops_in(alloc, s, x, now, found)?;
    let before = now.take();
    let after = known_after_statement(alloc, s, found, x, before)?;
    *now = after;
    Ok(())
}

/// Finds the loops in the branches of an `if`.
#[cycle(looking)]
fn loops_in_if(
    alloc: Global,
    s: &Search<'_, '_>,
    x: &Stmt,
    env: &Option<Env>,
    found: &mut LoopsFound,
) -> Result<(), AllocError>
    ensures { OnOk result (loops_by found.new ≡ loops_of_if (search_by s.now) s.now.depth (plain_statement x.now) (values_in env.now) (loops_by found.old)) }
{
    match &x.form {
        StmtForm::If(v, then, None) => {
            let inside = known_where_value(alloc, s, v, true, env)?;
            loops_in(alloc, s, then, &inside, found)?;
            Ok(())
        }
        StmtForm::If(v, then, Some(other)) => {
            let inside = known_where_value(alloc, s, v, true, env)?;
            let outside = known_where_value(alloc, s, v, false, env)?;
            loops_in(alloc, s, then, &inside, found)?;
            loops_in(alloc, s, other, &outside, found)?;
            Ok(())
        }
        StmtForm::Set(_, _)
        | StmtForm::Update(_, _, _, _, _)
        | StmtForm::Copy(_, _)
        | StmtForm::Value(_)
        | StmtForm::Assert(_, _)
        | StmtForm::Declare(_, _)
        | StmtForm::Static(_)
        | StmtForm::Block(_)
        | StmtForm::Loop(_, _, _, _, _)
        | StmtForm::Switch(_, _, _, _)
        | StmtForm::Break
        | StmtForm::Continue
        | StmtForm::Return(_, _)
        | StmtForm::Empty
        | StmtForm::Mark(_) => Ok(()),
    }
}

/// Finds a loop, and the loops in its body under its claim. Loops that nest so deep that 32 bits don't count them never fit memory,
/// and are answered as out of memory.
#[cycle(looking)]
fn loops_in_loop(
    alloc: Global,
    s: &Search<'_, '_>,
    x: &Stmt,
    env: &Option<Env>,
    found: &mut LoopsFound,
) -> Result<(), AllocError>
    ensures { OnOk result (loops_by found.new ≡ loops_of_loop (search_by s.now) s.now.depth (plain_statement x.now) (values_in env.now) (loops_by found.old)) }
{
    match &x.form {
        StmtForm::Loop(_, _, _, _, body) => {
            if s.depth == u32::MAX {
                return Err(AllocError);
            }
            let deeper = Search {
                calls: s.calls,
                function: s.function,
                number: s.number,
                variables: s.variables,
                task: s.task,
                approaching: s.approaching,
                depth: s.depth + 1,
            };
            let inside = enter_loop(alloc, s, x, env, found)?;
            loops_in(alloc, &deeper, body, &inside, found)?;
            Ok(())
        }
        StmtForm::Set(_, _)
        | StmtForm::Update(_, _, _, _, _)
        | StmtForm::Copy(_, _)
        | StmtForm::Value(_)
        | StmtForm::Assert(_, _)
        | StmtForm::Declare(_, _)
        | StmtForm::Static(_)
        | StmtForm::Block(_)
        | StmtForm::If(_, _, None)
        | StmtForm::If(_, _, Some(_))
        | StmtForm::Switch(_, _, _, _)
        | StmtForm::Break
        | StmtForm::Continue
        | StmtForm::Return(_, _)
        | StmtForm::Empty
        | StmtForm::Mark(_) => Ok(()),
    }
}

/// Finds the loops in the body of a `switch`: one that is no block has no labels, so no state comes to it.
#[cycle(looking)]
fn loops_in_switch(
    alloc: Global,
    s: &Search<'_, '_>,
    x: &Stmt,
    env: &Option<Env>,
    found: &mut LoopsFound,
) -> Result<(), AllocError>
    ensures { OnOk result (loops_by found.new ≡ loops_of_switch (search_by s.now) s.now.depth (plain_statement x.now) (values_in env.now) (loops_by found.old)) }
{
    match &x.form {
        StmtForm::Switch(_, v, labels, body) => {
            let inside = known_after_value(alloc, s, v, env)?;
            loops_in_body(alloc, s, body, labels, &inside, found)?;
            Ok(())
        }
        StmtForm::Set(_, _)
        | StmtForm::Update(_, _, _, _, _)
        | StmtForm::Copy(_, _)
        | StmtForm::Value(_)
        | StmtForm::Assert(_, _)
        | StmtForm::Declare(_, _)
        | StmtForm::Static(_)
        | StmtForm::Block(_)
        | StmtForm::If(_, _, None)
        | StmtForm::If(_, _, Some(_))
        | StmtForm::Loop(_, _, _, _, _)
        | StmtForm::Break
        | StmtForm::Continue
        | StmtForm::Return(_, _)
        | StmtForm::Empty
        | StmtForm::Mark(_) => Ok(()),
    }
}

/// The same for the body and the labels, where the value was evaluated.
#[cycle(looking)]
fn loops_in_body(
    alloc: Global,
    s: &Search<'_, '_>,
    body: &Stmt,
    labels: &Labels,
    env: &Option<Env>,
    found: &mut LoopsFound,
) -> Result<(), AllocError>
    ensures { OnOk result (loops_by found.new ≡ loops_of_body (search_by s.now) s.now.depth (plain_labels labels.now) (plain_statement body.now) (values_in env.now) (loops_by found.old)) }
{
    match &body.form {
        StmtForm::Block(items) => { loops_from(alloc, s, items.as_slice(), labels, env, found) }
        StmtForm::Set(_, _)
        | StmtForm::Update(_, _, _, _, _)
        | StmtForm::Copy(_, _)
        | StmtForm::Value(_)
        | StmtForm::Assert(_, _)
        | StmtForm::Declare(_, _)
        | StmtForm::Static(_)
        | StmtForm::If(_, _, None)
        | StmtForm::If(_, _, Some(_))
        | StmtForm::Loop(_, _, _, _, _)
        | StmtForm::Switch(_, _, _, _)
        | StmtForm::Break
        | StmtForm::Continue
        | StmtForm::Return(_, _)
        | StmtForm::Empty
        | StmtForm::Mark(_) => loops_in(alloc, s, body, &None, found),
    }
}

/// Finds the loops in the items of the body of a `switch` that is entered with an environment.
#[cycle(looking)]
fn loops_from(
    alloc: Global,
    s: &Search<'_, '_>,
    items: &[Stmt],
    labels: &Labels,
    env: &Option<Env>,
    found: &mut LoopsFound,
) -> Result<(), AllocError>
    ensures { OnOk result (loops_by found.new ≡ loops_of_cases (search_by s.now) s.now.depth (plain_labels labels.now) 0 (plain_statements items.now) (values_in env.now) None (loops_by found.old)) }
{
    let marks = label_marks(alloc, labels, items.len())?;
    let mut before = None;
    for (k, x) in items.iter().enumerate() {
        let labelled = is_marked(marks.as_slice(), k);
        enter_case(alloc, labelled, env, &mut before)?;
        step(alloc, s, x, &mut before, found)?;
    }
    Ok(())
}

/// Where a label stands before an item, the `switch` comes to it too.
fn enter_case(
    alloc: Global,
    labelled: bool,
    env: &Option<Env>,
    before: &mut Option<Env>,
) -> Result<(), AllocError>
    ensures { OnOk result (values_in before.new ≡ (if labelled then hull_reached (values_in before.old) (values_in env.now) else values_in before.old)) }
{
    if labelled {
        let joined = hull_apart(alloc, before, env)?;
        *before = joined;
    }
    Ok(())
}

/// The hull of two environments to which a state may not come, apart from both.
fn hull_apart(
    alloc: Global,
    first: &Option<Env>,
    second: &Option<Env>,
) -> Result<Option<Env>, AllocError>
    ensures { IfOk result (λ hull. values_in hull ≡ hull_reached (values_in first.now) (values_in second.now)) }
{
    match first {
        Some(a) => match second {
            Some(b) => Ok(Some(a.hull_with(alloc, b)?)),
            None => Ok(Some(a.copy(alloc)?)),
        },
        None => copied(alloc, second),
    }
}

/// Another environment with the same entries, if there is one.
fn copied(alloc: Global, env: &Option<Env>) -> Result<Option<Env>, AllocError>
    ensures { IfOk result (λ other. values_in other ≡ values_in env.now) }
{
    match env {
        Some(env) => Ok(Some(env.copy(alloc)?)),
        None => Ok(None),
    }
}
