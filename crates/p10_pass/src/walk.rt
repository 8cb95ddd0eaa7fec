//! The pass over statements.

ghost use Rattle.std.specs.Prelude.{◌≡◌, map, slice_get, if◌then◌else◌, IfOk, OnOk, Some, None};
ghost use Rattle.std.specs.Option.{option_map, option_copied};
ghost use Rattle.p10_core.specs.Views.{plain_value, plain_labels, plain_statement, plain_statements};
ghost use Rattle.p10_cert.specs.Claims.{loop_of};
ghost use Rattle.p10_absx.specs.Environments.{hull_reached};
ghost use Rattle.p10_pass.specs.Scopes.{assigns};
ghost use Rattle.p10_pass.specs.Claiming.{claim_or_none};
ghost use Rattle.p10_pass.specs.Arguments.{has_value, failing_in};
ghost use Rattle.p10_pass.specs.Passing.{nowhere, where_going, followed, and_then_pass, with_calls, as_block, switch_left, pass_statement, pass_statements, pass_switch, pass_from};
ghost use Rattle.p10_pass.specs.Rounds.{round_at, round_by};
ghost use Rattle.p10_pass.specs.Leaving.{values_in, left_of};
ghost use Rattle.p10_pass.specs.Manners.{manner_by};
ghost use Rattle.p10_pass.specs.private.Walking.{head_in, if_passed, loop_passed, loop_under, entered, left_after};

use crate::arguments::{has_value, put_failing};
use crate::assigning::{
    assert_passed, copy_passed, declared, env_if, set_passed, update_passed, value_passed,
};
use crate::claiming::head_under;
use crate::left::{Left, unite};
use crate::loops::{forgotten, loop_left, no_claim};
use crate::manner::Manner;
use crate::marks::{is_marked, label_marks};
use crate::returning::returned;
use crate::rounds::{
    Round, Tested, branched, copied, hull_apart, round_after, round_before, test_passed,
    value_tested,
};
use p10_absx::Env;
use p10_cert::LoopClaim;
use p10_core::{Labels, LoopHead, LoopKeyword, Stmt, StmtForm, Value};
use std::alloc::{AllocError, Global};

/// What a statement leaves.
#[cycle(passing)]
pub fn pass_statement(
    alloc: Global,
    m: &Manner<'_, '_>,
    s: &Stmt,
    env: Env,
) -> Result<Left, AllocError>
    ensures { IfOk result (λ l. left_of l ≡ pass_statement (manner_by m.now) (plain_statement s.now) env.values) }
{
    match &s.form {
        StmtForm::Set(target, v) => set_passed(alloc, m, target, v, env),
        StmtForm::Update(_, op, t, target, v) => update_passed(alloc, m, *op, t, target, v, env),
        StmtForm::Copy(target, source) => copy_passed(alloc, m, target, source, env),
        StmtForm::Value(v) => value_passed(alloc, m, v, env),
        StmtForm::Assert(_, v) => assert_passed(alloc, m, v, env),
        StmtForm::Declare(n, initial) => declared(alloc, m, *n, initial, env),
        StmtForm::Block(items) => pass_block(alloc, m, items.as_slice(), env),
        StmtForm::If(_, _, None) => pass_if(alloc, m, s, env),
        StmtForm::If(_, _, Some(_)) => pass_if(alloc, m, s, env),
        StmtForm::Loop(_, _, _, _, _) => pass_loop(alloc, m, s, env),
        StmtForm::Switch(_, v, labels, body) => pass_switch(alloc, m, body, labels, v, env),
        StmtForm::Break => Ok(Left::broken(alloc, env)),
        StmtForm::Continue => Ok(Left::continued(alloc, env)),
        StmtForm::Return(keyword, v) => returned(alloc, m, *keyword, v, env),
        StmtForm::Static(_) | StmtForm::Empty | StmtForm::Mark(_) => {
            Ok(Left::reached(alloc, Some(env)))
        }
    }
}

/// The same where a state may not come.
#[cycle(passing)]
fn pass_reached(
    alloc: Global,
    m: &Manner<'_, '_>,
    s: &Stmt,
    env: Option<Env>,
) -> Result<Left, AllocError>
    ensures { IfOk result (λ l. left_of l ≡ where_going (values_in env) (pass_statement (manner_by m.now) (plain_statement s.now))) }
{
    match env {
        Some(env) => pass_statement(alloc, m, s, env),
        None => Ok(Left::nowhere(alloc)),
    }
}

/// What statements leave, one after the other.
#[cycle(passing)]
pub fn pass_statements(
    alloc: Global,
    m: &Manner<'_, '_>,
    items: &[Stmt],
    env: Env,
) -> Result<Left, AllocError>
    ensures { IfOk result (λ l. left_of l ≡ pass_statements (manner_by m.now) (plain_statements items.now) env.values) }
{
    let mut total = Left::reached(alloc, Some(env));
    for s in items {
        go_on_with(alloc, m, s, &mut total)?;
    }
    Ok(total)
}

/// The same where a state may not come.
#[cycle(passing)]
fn pass_all_reached(
    alloc: Global,
    m: &Manner<'_, '_>,
    items: &[Stmt],
    env: Option<Env>,
) -> Result<Left, AllocError>
    ensures { IfOk result (λ l. left_of l ≡ where_going (values_in env) (pass_statements (manner_by m.now) (plain_statements items.now))) }
{
    match env {
        Some(env) => pass_statements(alloc, m, items, env),
        None => Ok(Left::nowhere(alloc)),
    }
}

/// Goes on with a statement.
#[cycle(passing)]
fn go_on_with(
    alloc: Global,
    m: &Manner<'_, '_>,
    s: &Stmt,
    total: &mut Left,
) -> Result<(), AllocError>
    ensures { OnOk result (left_of total.new ≡ and_then_pass (left_of total.old) (pass_statement (manner_by m.now) (plain_statement s.now))) }
{
    match total.normal.take() {
        Some(env) => {
            let mut more = pass_statement(alloc, m, s, env)?;
            total.follow(alloc, &mut more)
        }
        None => Ok(()),
    }
}

/// What a block leaves: the variables that it declares go out of scope at its end.
#[cycle(passing)]
pub(crate) fn pass_block(
    alloc: Global,
    m: &Manner<'_, '_>,
    items: &[Stmt],
    env: Env,
) -> Result<Left, AllocError>
    ensures { IfOk result (λ l. left_of l ≡ as_block (plain_statements items.now) (pass_statements (manner_by m.now) (plain_statements items.now) env.values)) }
{
    let mut left = pass_statements(alloc, m, items, env)?;
    left.end_block(items);
    Ok(left)
}

/// What an `if` leaves.
#[cycle(passing)]
fn pass_if(alloc: Global, m: &Manner<'_, '_>, s: &Stmt, env: Env) -> Result<Left, AllocError>
    ensures { IfOk result (λ l. left_of l ≡ if_passed (manner_by m.now) (plain_statement s.now) env.values) }
{
    match &s.form {
        StmtForm::If(v, then, None) => {
            let tested = value_tested(alloc, m, v, env)?;
            let Tested {
                truth,
                contrary,
                names,
            } = tested;
            let first = pass_reached(alloc, m, then, truth)?;
            branched(alloc, names, first, Left::reached(alloc, contrary))
        }
        StmtForm::If(v, then, Some(other)) => {
            let tested = value_tested(alloc, m, v, env)?;
            let Tested {
                truth,
                contrary,
                names,
            } = tested;
            let first = pass_reached(alloc, m, then, truth)?;
            let second = pass_reached(alloc, m, other, contrary)?;
            branched(alloc, names, first, second)
        }
        StmtForm::Set(_, _)
        | StmtForm::Update(_, _, _, _, _)
        | StmtForm::Copy(_, _)
        | StmtForm::Value(_)
        | StmtForm::Assert(_, _)
        | StmtForm::Declare(_, _)
        | StmtForm::Static(_)
        | StmtForm::Block(_)
        | StmtForm::Loop(_, _, _, _, _)
        | StmtForm::Switch(_, _, _, _)
        | StmtForm::Break
        | StmtForm::Continue
        | StmtForm::Return(_, _)
        | StmtForm::Empty
        | StmtForm::Mark(_) => Ok(Left::nowhere(alloc)),
    }
}

/// The head of a loop.
fn head_in(s: &Stmt) -> Option<LoopHead>
    ensures { result ≡ head_in (plain_statement s.now) }
{
    match &s.form {
        StmtForm::Loop(head, _, _, _, _) => Some(*head),
        StmtForm::Set(_, _)
        | StmtForm::Update(_, _, _, _, _)
        | StmtForm::Copy(_, _)
        | StmtForm::Value(_)
        | StmtForm::Assert(_, _)
        | StmtForm::Declare(_, _)
        | StmtForm::Static(_)
        | StmtForm::Block(_)
        | StmtForm::If(_, _, None)
        | StmtForm::If(_, _, Some(_))
        | StmtForm::Switch(_, _, _, _)
        | StmtForm::Break
        | StmtForm::Continue
        | StmtForm::Return(_, _)
        | StmtForm::Empty
        | StmtForm::Mark(_) => None,
    }
}

/// What a loop leaves, by its claim, or without claims of inner loops.
#[cycle(passing)]
fn pass_loop(alloc: Global, m: &Manner<'_, '_>, s: &Stmt, env: Env) -> Result<Left, AllocError>
    ensures { IfOk result (λ l. left_of l ≡ loop_passed (manner_by m.now) (plain_statement s.now) env.values) }
{
    match head_in(s) {
        Some(head) => match m.loops {
            Some(loops) => pass_claimed(alloc, m, s, claim_at(loops, head.number), env),
            None => forgotten(alloc, m, s, env),
        },
        None => Ok(Left::nowhere(alloc)),
    }
}

/// The claim with a number.
pub(crate) fn claim_at(loops: &[LoopClaim], n: u32) -> Option<&LoopClaim>
    ensures { option_map loop_of (option_copied result) ≡ slice_get (map loop_of loops.now) n }
{
    loops.get(n as usize)
}

/// What a loop leaves under its claim, if it has one.
#[cycle(passing)]
fn pass_claimed(
    alloc: Global,
    m: &Manner<'_, '_>,
    s: &Stmt,
    claim: Option<&LoopClaim>,
    env: Env,
) -> Result<Left, AllocError>
    ensures { IfOk result (λ l. left_of l ≡ loop_under (manner_by m.now) (claim_or_none (option_map loop_of (option_copied claim.entry))) (plain_statement s.now) env.values) }
{
    match claim {
        Some(claim) => pass_under(alloc, m, s, claim, env),
        None => {
            let claim = no_claim(alloc);
            let left = pass_under(alloc, m, s, &claim, env)?;
            Ok(left)
        }
    }
}

/// What a loop leaves under a claim.
#[cycle(passing)]
fn pass_under(
    alloc: Global,
    m: &Manner<'_, '_>,
    s: &Stmt,
    claim: &LoopClaim,
    env: Env,
) -> Result<Left, AllocError>
    ensures { IfOk result (λ l. left_of l ≡ loop_under (manner_by m.now) (loop_of claim.now) (plain_statement s.now) env.values) }
{
    match &s.form {
        StmtForm::Loop(_, first, _, _, _) => {
            let mut opened = pass_statements(alloc, m, first.as_slice(), env)?;
            enter_loop(alloc, m, s, claim, &mut opened)?;
            opened.end_block(first.as_slice());
            Ok(opened)
        }
        StmtForm::Set(_, _)
        | StmtForm::Update(_, _, _, _, _)
        | StmtForm::Copy(_, _)
        | StmtForm::Value(_)
        | StmtForm::Assert(_, _)
        | StmtForm::Declare(_, _)
        | StmtForm::Static(_)
        | StmtForm::Block(_)
        | StmtForm::If(_, _, None)
        | StmtForm::If(_, _, Some(_))
        | StmtForm::Switch(_, _, _, _)
        | StmtForm::Break
        | StmtForm::Continue
        | StmtForm::Return(_, _)
        | StmtForm::Empty
        | StmtForm::Mark(_) => Ok(Left::nowhere(alloc)),
    }
}

/// Goes on with a loop after its first clause.
#[cycle(passing)]
fn enter_loop(
    alloc: Global,
    m: &Manner<'_, '_>,
    s: &Stmt,
    claim: &LoopClaim,
    total: &mut Left,
) -> Result<(), AllocError>
    ensures { OnOk result (left_of total.new ≡ and_then_pass (left_of total.old) (entered (manner_by m.now) (loop_of claim.now) (plain_statement s.now))) }
{
    match total.normal.take() {
        Some(entry) => {
            let mut more = entered(alloc, m, s, claim, entry)?;
            total.follow(alloc, &mut more)
        }
        None => Ok(()),
    }
}

/// What a loop leaves that is entered under a claim.
#[cycle(passing)]
fn entered(
    alloc: Global,
    m: &Manner<'_, '_>,
    s: &Stmt,
    claim: &LoopClaim,
    entry: Env,
) -> Result<Left, AllocError>
    ensures { IfOk result (λ l. left_of l ≡ entered (manner_by m.now) (loop_of claim.now) (plain_statement s.now) entry.values) }
{
    let at_head = head_under(alloc, claim, m.variables, &entry)?;
    match one_round(alloc, m, s, at_head)? {
        Some(round) => left_after(alloc, m, s, claim, entry, round),
        None => Ok(Left::nowhere(alloc)),
    }
}

/// What a round of a loop under a claim leaves after the loop, if it is one.
fn left_after(
    alloc: Global,
    m: &Manner<'_, '_>,
    s: &Stmt,
    claim: &LoopClaim,
    entry: Env,
    round: Round,
) -> Result<Left, AllocError>
    ensures { IfOk result (λ l. left_of l ≡ left_after (manner_by m.now) (loop_of claim.now) (head_in (plain_statement s.now)) (λ n. assigns n (plain_statement s.now)) entry.values (round_by round)) }
{
    match head_in(s) {
        Some(head) => loop_left(alloc, m, claim, head, s, entry, round),
        None => Ok(Left::nowhere(alloc)),
    }
}

/// One round of the loop `s` from the environment `env` at its head; a statement that is no loop has none.
///
/// # Errors
///
/// Out of memory.
#[cycle(passing)]
pub fn one_round(
    alloc: Global,
    m: &Manner<'_, '_>,
    s: &Stmt,
    env: Env,
) -> Result<Option<Round>, AllocError>
    ensures { IfOk result (λ r. option_map round_by r ≡ round_at (manner_by m.now) (plain_statement s.now) env.values) }
{
    match &s.form {
        StmtForm::Loop(head, _, test, third, body) => match head.keyword {
            LoopKeyword::Do => {
                let at_head = env.copy(alloc)?;
                let passed = pass_statement(alloc, m, body, env)?;
                Ok(Some(round_after(alloc, m, test, at_head, passed)?))
            }
            LoopKeyword::While | LoopKeyword::For => {
                let mut tested = test_passed(alloc, m, test, env)?;
                let entering = copied(alloc, &tested.truth)?;
                let passed = pass_reached(alloc, m, body, entering)?;
                let next = hull_apart(alloc, &passed.normal, &passed.continues)?;
                let mut closed = pass_all_reached(alloc, m, third.as_slice(), next)?;
                Ok(Some(round_before(alloc, &mut tested, passed, &mut closed)?))
            }
        },
        StmtForm::Set(_, _)
        | StmtForm::Update(_, _, _, _, _)
        | StmtForm::Copy(_, _)
        | StmtForm::Value(_)
        | StmtForm::Assert(_, _)
        | StmtForm::Declare(_, _)
        | StmtForm::Static(_)
        | StmtForm::Block(_)
        | StmtForm::If(_, _, None)
        | StmtForm::If(_, _, Some(_))
        | StmtForm::Switch(_, _, _, _)
        | StmtForm::Break
        | StmtForm::Continue
        | StmtForm::Return(_, _)
        | StmtForm::Empty
        | StmtForm::Mark(_) => Ok(None),
    }
}

/// What a `switch` leaves.
#[cycle(passing)]
fn pass_switch(
    alloc: Global,
    m: &Manner<'_, '_>,
    body: &Stmt,
    labels: &Labels,
    v: &Value,
    env: Env,
) -> Result<Left, AllocError>
    ensures { IfOk result (λ l. left_of l ≡ with_calls (failing_in (manner_by m.now).calls (plain_value v.now) env.values) (if has_value (manner_by m.now).calls (plain_value v.now) env.values then pass_switch (manner_by m.now) (plain_labels labels.now) (plain_statement body.now) env.values else nowhere)) }
{
    let mut env = env;
    let mut names = Vec::new(alloc);
    put_failing(alloc, m.calls, v, &mut env, &mut names)?;
    let left = has_value(alloc, m.calls, v, &mut env)?;
    let mut passed = pass_entered(alloc, m, body, labels, env_if(left, env))?;
    passed.put_calls(&mut names)?;
    Ok(passed)
}

/// What the body of a `switch` leaves, where a state may not come.
#[cycle(passing)]
fn pass_entered(
    alloc: Global,
    m: &Manner<'_, '_>,
    body: &Stmt,
    labels: &Labels,
    env: Option<Env>,
) -> Result<Left, AllocError>
    ensures { IfOk result (λ l. left_of l ≡ where_going (values_in env) (pass_switch (manner_by m.now) (plain_labels labels.now) (plain_statement body.now))) }
{
    match env {
        Some(env) => pass_body(alloc, m, body, labels, env),
        None => Ok(Left::nowhere(alloc)),
    }
}

/// What the body of a `switch` leaves: one that is no block has no labels.
#[cycle(passing)]
fn pass_body(
    alloc: Global,
    m: &Manner<'_, '_>,
    body: &Stmt,
    labels: &Labels,
    env: Env,
) -> Result<Left, AllocError>
    ensures { IfOk result (λ l. left_of l ≡ pass_switch (manner_by m.now) (plain_labels labels.now) (plain_statement body.now) env.values) }
{
    match &body.form {
        StmtForm::Block(items) => {
            let mut left = pass_cases(alloc, m, items.as_slice(), labels, &env)?;
            left.end_block(items.as_slice());
            left.end_switch(alloc, labels, env)?;
            Ok(left)
        }
        StmtForm::Set(_, _)
        | StmtForm::Update(_, _, _, _, _)
        | StmtForm::Copy(_, _)
        | StmtForm::Value(_)
        | StmtForm::Assert(_, _)
        | StmtForm::Declare(_, _)
        | StmtForm::Static(_)
        | StmtForm::If(_, _, None)
        | StmtForm::If(_, _, Some(_))
        | StmtForm::Loop(_, _, _, _, _)
        | StmtForm::Switch(_, _, _, _)
        | StmtForm::Break
        | StmtForm::Continue
        | StmtForm::Return(_, _)
        | StmtForm::Empty
        | StmtForm::Mark(_) => Ok(Left::reached(alloc, Some(env))),
    }
}

impl Left {
    /// Ends a `switch`: its breaks end normally, and without `default` there is a way past its body.
    fn end_switch(&mut self, alloc: Global, labels: &Labels, env: Env) -> Result<(), AllocError>
        ensures { OnOk result (left_of self.new ≡ switch_left (plain_labels labels.now) env.values (left_of self.old)) }
    {
        let mut broken = self.breaks.take();
        unite(alloc, &mut self.normal, &mut broken)?;
        let mut past = env_if(labels.otherwise.is_none(), env);
        unite(alloc, &mut self.normal, &mut past)?;
        Ok(())
    }
}

/// The items of a `switch`'s body, each of which may be entered from the `switch` or from the one before.
#[cycle(passing)]
fn pass_cases(
    alloc: Global,
    m: &Manner<'_, '_>,
    items: &[Stmt],
    labels: &Labels,
    env: &Env,
) -> Result<Left, AllocError>
    ensures { IfOk result (λ l. left_of l ≡ pass_from (manner_by m.now) (plain_labels labels.now) 0 (plain_statements items.now) env.now.values None) }
{
    let marks = label_marks(alloc, labels, items.len())?;
    let mut total = Left::nowhere(alloc);
    for (k, s) in items.iter().enumerate() {
        pass_case(alloc, m, s, is_marked(marks.as_slice(), k), env, &mut total)?;
    }
    Ok(total)
}

/// What is known where an item of a `switch`'s body is entered.
fn case_entry(
    alloc: Global,
    labelled: bool,
    env: &Env,
    before: Option<Env>,
) -> Result<Option<Env>, AllocError>
    ensures { IfOk result (λ e. values_in e ≡ (if labelled then hull_reached (values_in before) (Some env.now.values) else values_in before)) }
{
    if !labelled {
        return Ok(before);
    }
    let mut entry = before;
    let mut here = Some(env.copy(alloc)?);
    unite(alloc, &mut entry, &mut here)?;
    Ok(entry)
}

/// Goes on with an item of a `switch`'s body.
#[cycle(passing)]
fn pass_case(
    alloc: Global,
    m: &Manner<'_, '_>,
    s: &Stmt,
    labelled: bool,
    env: &Env,
    total: &mut Left,
) -> Result<(), AllocError>
    ensures { OnOk result (left_of total.new ≡ followed (left_of total.old) (where_going (if labelled then hull_reached (left_of total.old).normal (Some env.now.values) else (left_of total.old).normal) (pass_statement (manner_by m.now) (plain_statement s.now)))) }
{
    let entry = case_entry(alloc, labelled, env, total.normal.take())?;
    let mut more = pass_reached(alloc, m, s, entry)?;
    total.follow(alloc, &mut more)
}
