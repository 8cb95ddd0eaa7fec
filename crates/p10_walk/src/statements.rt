//! The walk over statements.

ghost use Rattle.std.specs.Prelude.{◌≡◌, if◌then◌else◌, IfOk, OnOk, Some, None};
ghost use Rattle.std.specs.Option.{option_map};
ghost use Rattle.p10_core.specs.Views.{plain_value, plain_labels, plain_statement, plain_statement_form, plain_statements};
ghost use Rattle.p10_walk.specs.Walking.{nowhere, reached, hull_reached, where_going, followed, switch_left, walk, walk_form, walk_all, walk_switch, walk_from};
ghost use Rattle.p10_walk.specs.Leaving.{ends_of, round_by, round_at};
ghost use Rattle.p10_walk.specs.private.Forms.{block_walked, if_walked, else_walked, loop_walked};

use crate::ends::{Ends, end_block, follow, goes_on, join, reached, unite};
use crate::rounds::{Round, closed_by, copied, test_holds, test_reached};
use crate::rules::Rules;
use p10_core::{Labels, LoopKeyword, Stmt, StmtForm, Value};
use p10_pass::{is_marked, label_marks};
use std::alloc::{AllocError, Global};

/// What a statement leaves.
#[cycle(walking)]
pub fn walk<R: Rules>(
    alloc: Global,
    rules: &R,
    s: &Stmt,
    e: R::Env,
) -> Result<Ends<R::Env>, AllocError>
    ensures { IfOk result (λ a. ends_of R.known a ≡ walk (R.operations rules.now) (plain_statement s.now) (R.known e)) }
{
    match &s.form {
        StmtForm::Block(items) => walk_block(alloc, rules, items.as_slice(), e),
        StmtForm::If(_, _, None) | StmtForm::If(_, _, Some(_)) => walk_if(alloc, rules, s, e),
        StmtForm::Loop(_, _, _, _, _) => forgotten(alloc, rules, s, e),
        StmtForm::Switch(_, v, labels, body) => walk_switch(alloc, rules, body, labels, v, e),
        StmtForm::Break => Ok(Ends {
            normal: None,
            breaks: Some(e),
            continues: None,
        }),
        StmtForm::Continue => Ok(Ends {
            normal: None,
            breaks: None,
            continues: Some(e),
        }),
        StmtForm::Return(_, _) => Ok(reached::<R>(None)),
        StmtForm::Set(_, _)
        | StmtForm::Update(_, _, _, _, _)
        | StmtForm::Copy(_, _)
        | StmtForm::Value(_)
        | StmtForm::Assert(_, _)
        | StmtForm::Declare(_, _)
        | StmtForm::Static(_)
        | StmtForm::Empty
        | StmtForm::Mark(_) => simple(alloc, rules, s, e),
    }
}

/// What a statement without parts leaves.
fn simple<R: Rules>(
    alloc: Global,
    rules: &R,
    s: &Stmt,
    e: R::Env,
) -> Result<Ends<R::Env>, AllocError>
    ensures { IfOk result (λ a. ends_of R.known a ≡ reached ((R.operations rules.now).after (plain_statement_form s.now.form) (R.known e))) }
{
    Ok(reached::<R>(rules.after(alloc, s, e)?))
}

/// After a loop what it may change is forgotten.
fn forgotten<R: Rules>(
    alloc: Global,
    rules: &R,
    s: &Stmt,
    e: R::Env,
) -> Result<Ends<R::Env>, AllocError>
    ensures { IfOk result (λ a. ends_of R.known a ≡ loop_walked (R.operations rules.now) (plain_statement s.now) (R.known e)) }
{
    let mut e = e;
    rules.forget(alloc, s, &mut e)?;
    Ok(reached::<R>(Some(e)))
}

/// The same where a state may not come.
#[cycle(walking)]
fn walk_reached<R: Rules>(
    alloc: Global,
    rules: &R,
    s: &Stmt,
    e: Option<R::Env>,
) -> Result<Ends<R::Env>, AllocError>
    ensures { IfOk result (λ a. ends_of R.known a ≡ where_going (option_map R.known e) (walk (R.operations rules.now) (plain_statement s.now))) }
{
    match e {
        Some(e) => walk(alloc, rules, s, e),
        None => Ok(reached::<R>(None)),
    }
}

/// What statements leave, one after the other, where states may not come.
#[cycle(walking)]
pub fn walk_all<R: Rules>(
    alloc: Global,
    rules: &R,
    items: &[Stmt],
    e: Option<R::Env>,
) -> Result<Ends<R::Env>, AllocError>
    ensures { IfOk result (λ a. ends_of R.known a ≡ walk_all (R.operations rules.now) (plain_statements items.now) (reached (option_map R.known e))) }
{
    let mut total = reached::<R>(e);
    for s in items {
        go_on_with(alloc, rules, s, &mut total)?;
    }
    Ok(total)
}

/// Goes on with a statement.
#[cycle(walking)]
fn go_on_with<R: Rules>(
    alloc: Global,
    rules: &R,
    s: &Stmt,
    total: &mut Ends<R::Env>,
) -> Result<(), AllocError>
    ensures { OnOk result (ends_of R.known total.new ≡ followed (R.operations rules.now) (ends_of R.known total.old) (where_going (ends_of R.known total.old).normal (walk (R.operations rules.now) (plain_statement s.now)))) }
{
    let next = total.normal.take();
    let more = walk_reached(alloc, rules, s, next)?;
    follow(alloc, rules, total, more)
}

/// What a block leaves: the variables that it declares go out of scope at its end.
#[cycle(walking)]
fn walk_block<R: Rules>(
    alloc: Global,
    rules: &R,
    items: &[Stmt],
    e: R::Env,
) -> Result<Ends<R::Env>, AllocError>
    ensures { IfOk result (λ a. ends_of R.known a ≡ block_walked (R.operations rules.now) (plain_statements items.now) (R.known e)) }
{
    let mut ends = walk_all(alloc, rules, items, Some(e))?;
    end_block(rules, &mut ends, items);
    Ok(ends)
}

/// What an `if` leaves.
#[cycle(walking)]
fn walk_if<R: Rules>(
    alloc: Global,
    rules: &R,
    s: &Stmt,
    e: R::Env,
) -> Result<Ends<R::Env>, AllocError>
    ensures { IfOk result (λ a. ends_of R.known a ≡ if_walked (R.operations rules.now) (plain_statement s.now) (R.known e)) }
{
    match &s.form {
        StmtForm::If(v, then, otherwise) => {
            let other = rules.copy(alloc, &e)?;
            let truth = rules.assume(alloc, true, v, e)?;
            let contrary = rules.assume(alloc, false, v, other)?;
            let mut ends = walk_reached(alloc, rules, then, truth)?;
            let more = walk_else(alloc, rules, otherwise, contrary)?;
            join(alloc, rules, &mut ends, more)?;
            Ok(ends)
        }
        StmtForm::Set(_, _)
        | StmtForm::Update(_, _, _, _, _)
        | StmtForm::Copy(_, _)
        | StmtForm::Value(_)
        | StmtForm::Assert(_, _)
        | StmtForm::Declare(_, _)
        | StmtForm::Static(_)
        | StmtForm::Block(_)
        | StmtForm::Loop(_, _, _, _, _)
        | StmtForm::Switch(_, _, _, _)
        | StmtForm::Break
        | StmtForm::Continue
        | StmtForm::Return(_, _)
        | StmtForm::Empty
        | StmtForm::Mark(_) => Ok(reached::<R>(None)),
    }
}

/// What the second branch of an `if` leaves; without one, what comes to it.
#[cycle(walking)]
fn walk_else<R: Rules>(
    alloc: Global,
    rules: &R,
    otherwise: &Option<Box<Stmt>>,
    e: Option<R::Env>,
) -> Result<Ends<R::Env>, AllocError>
    ensures { IfOk result (λ a. ends_of R.known a ≡ else_walked (R.operations rules.now) (option_map (λ x. plain_statement x.value) otherwise.now) (option_map R.known e)) }
{
    match otherwise {
        Some(s) => walk_reached(alloc, rules, s, e),
        None => Ok(reached::<R>(e)),
    }
}

/// One round of a loop from what is known at its head; a statement that is no loop has none.
pub fn one_round<R: Rules>(
    alloc: Global,
    rules: &R,
    s: &Stmt,
    head: R::Env,
) -> Result<Option<Round<R::Env>>, AllocError>
    ensures { IfOk result (λ r. option_map (round_by R.known) r ≡ round_at (R.operations rules.now) (plain_statement s.now) (R.known head)) }
{
    match &s.form {
        StmtForm::Loop(loop_head, _, test, third, body) => match loop_head.keyword {
            LoopKeyword::Do => {
                let enters = rules.copy(alloc, &head)?;
                let ends = walk(alloc, rules, body, head)?;
                let on = goes_on(alloc, rules, ends)?;
                let back = test_reached(alloc, rules, test, on)?;
                Ok(Some(Round {
                    enters: Some(enters),
                    back,
                }))
            }
            LoopKeyword::While | LoopKeyword::For => {
                let enters = test_holds(alloc, rules, test, head)?;
                let entering = copied(alloc, rules, &enters)?;
                let ends = walk_reached(alloc, rules, body, entering)?;
                let on = goes_on(alloc, rules, ends)?;
                let closed = walk_all(alloc, rules, third.as_slice(), on)?;
                Ok(Some(closed_by::<R>(enters, closed)))
            }
        },
        StmtForm::Set(_, _)
        | StmtForm::Update(_, _, _, _, _)
        | StmtForm::Copy(_, _)
        | StmtForm::Value(_)
        | StmtForm::Assert(_, _)
        | StmtForm::Declare(_, _)
        | StmtForm::Static(_)
        | StmtForm::Block(_)
        | StmtForm::If(_, _, None)
        | StmtForm::If(_, _, Some(_))
        | StmtForm::Switch(_, _, _, _)
        | StmtForm::Break
        | StmtForm::Continue
        | StmtForm::Return(_, _)
        | StmtForm::Empty
        | StmtForm::Mark(_) => Ok(None),
    }
}

/// What a `switch` leaves.
#[cycle(walking)]
fn walk_switch<R: Rules>(
    alloc: Global,
    rules: &R,
    body: &Stmt,
    labels: &Labels,
    v: &Value,
    e: R::Env,
) -> Result<Ends<R::Env>, AllocError>
    ensures { IfOk result (λ a. ends_of R.known a ≡ (if (R.operations rules.now).has_value (plain_value v.now) (R.known e) then walk_switch (R.operations rules.now) (plain_labels labels.now) (plain_statement body.now) (R.known e) else nowhere)) }
{
    match rules.evaluated(alloc, v, e)? {
        Some(e) => walk_body(alloc, rules, body, labels, e),
        None => Ok(reached::<R>(None)),
    }
}

/// What the body of a `switch` leaves: one that is no block has no labels.
#[cycle(walking)]
fn walk_body<R: Rules>(
    alloc: Global,
    rules: &R,
    body: &Stmt,
    labels: &Labels,
    e: R::Env,
) -> Result<Ends<R::Env>, AllocError>
    ensures { IfOk result (λ a. ends_of R.known a ≡ walk_switch (R.operations rules.now) (plain_labels labels.now) (plain_statement body.now) (R.known e)) }
{
    match &body.form {
        StmtForm::Block(items) => {
            let mut ends = walk_cases(alloc, rules, items.as_slice(), labels, &e)?;
            end_block(rules, &mut ends, items.as_slice());
            end_switch(alloc, rules, &mut ends, labels, e)?;
            Ok(ends)
        }
        StmtForm::Set(_, _)
        | StmtForm::Update(_, _, _, _, _)
        | StmtForm::Copy(_, _)
        | StmtForm::Value(_)
        | StmtForm::Assert(_, _)
        | StmtForm::Declare(_, _)
        | StmtForm::Static(_)
        | StmtForm::If(_, _, None)
        | StmtForm::If(_, _, Some(_))
        | StmtForm::Loop(_, _, _, _, _)
        | StmtForm::Switch(_, _, _, _)
        | StmtForm::Break
        | StmtForm::Continue
        | StmtForm::Return(_, _)
        | StmtForm::Empty
        | StmtForm::Mark(_) => Ok(reached::<R>(Some(e))),
    }
}

/// Ends a `switch`: its breaks end normally, and without `default` there is a way past its body.
fn end_switch<R: Rules>(
    alloc: Global,
    rules: &R,
    ends: &mut Ends<R::Env>,
    labels: &Labels,
    e: R::Env,
) -> Result<(), AllocError>
    ensures { OnOk result (ends_of R.known ends.new ≡ switch_left (R.operations rules.now) (plain_labels labels.now) (R.known e) (ends_of R.known ends.old)) }
{
    unite(alloc, rules, &mut ends.normal, ends.breaks.take())?;
    match labels.otherwise {
        Some(_) => Ok(()),
        None => unite(alloc, rules, &mut ends.normal, Some(e)),
    }
}

/// The items of a `switch`'s body, each of which may be entered from the `switch` or from the one before.
#[cycle(walking)]
fn walk_cases<R: Rules>(
    alloc: Global,
    rules: &R,
    items: &[Stmt],
    labels: &Labels,
    e: &R::Env,
) -> Result<Ends<R::Env>, AllocError>
    ensures { IfOk result (λ a. ends_of R.known a ≡ walk_from (R.operations rules.now) (plain_labels labels.now) 0 (plain_statements items.now) (R.known e.now) nowhere) }
{
    let marks = label_marks(alloc, labels, items.len())?;
    let mut total = reached::<R>(None);
    for (k, s) in items.iter().enumerate() {
        walk_case(
            alloc,
            rules,
            s,
            is_marked(marks.as_slice(), k),
            e,
            &mut total,
        )?;
    }
    Ok(total)
}

/// What is known where an item of a `switch`'s body is entered.
fn case_entry<R: Rules>(
    alloc: Global,
    rules: &R,
    labelled: bool,
    e: &R::Env,
    before: Option<R::Env>,
) -> Result<Option<R::Env>, AllocError>
    ensures { IfOk result (λ r. option_map R.known r ≡ (if labelled then hull_reached (R.operations rules.now) (option_map R.known before) (Some (R.known e.now)) else option_map R.known before)) }
{
    if !labelled {
        return Ok(before);
    }
    let mut entry = before;
    let here = rules.copy(alloc, e)?;
    unite(alloc, rules, &mut entry, Some(here))?;
    Ok(entry)
}

/// Goes on with an item of a `switch`'s body.
#[cycle(walking)]
fn walk_case<R: Rules>(
    alloc: Global,
    rules: &R,
    s: &Stmt,
    labelled: bool,
    e: &R::Env,
    total: &mut Ends<R::Env>,
) -> Result<(), AllocError>
    ensures { OnOk result (ends_of R.known total.new ≡ followed (R.operations rules.now) (ends_of R.known total.old) (where_going (if labelled then hull_reached (R.operations rules.now) (ends_of R.known total.old).normal (Some (R.known e.now)) else (ends_of R.known total.old).normal) (walk (R.operations rules.now) (plain_statement s.now)))) }
{
    let entry = case_entry(alloc, rules, labelled, e, total.normal.take())?;
    let more = walk_reached(alloc, rules, s, entry)?;
    follow(alloc, rules, total, more)
}
