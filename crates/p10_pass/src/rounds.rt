//! Tests, and rounds of loops.

ghost use Rattle.std.specs.Prelude.{◌≡◌, ◌++◌, Some, OnOk, IfOk};
ghost use Rattle.std.specs.Option.{option_map};
ghost use Rattle.p10_core.specs.Views.{plain_value};
ghost use Rattle.p10_absx.specs.Environments.{hull_reached};
ghost use Rattle.p10_pass.specs.Passing.{with_calls, beside, tested_in, tested_reached};
ghost use Rattle.p10_pass.specs.Leaving.{values_in, left_of};
ghost use Rattle.p10_pass.specs.Manners.{manner_by};
ghost use Rattle.p10_pass.specs.Rounds.{round_by};
ghost use Rattle.p10_pass.specs.private.Walking.{tested_by, tested_after, tested_before};

use crate::arguments::put_failing;
use crate::left::{Left, unite};
use crate::manner::Manner;
use p10_absx::Env;
use p10_base::Span;
use p10_core::Value;
use std::alloc::{AllocError, Global};

/// What is known where a test is true and where it is false, and its failing calls.
#[derive(Drop)]
pub(crate) struct Tested {
    pub truth: Option<Env>,
    pub contrary: Option<Env>,
    pub names: Vec<Span>,
}

/// One round of a loop from its head: what is known where its body is entered, where it goes back and where it ends, what its
/// body leaves, and the failing calls of all its parts, in text order.
#[derive(Drop)]
pub struct Round {
    pub enters: Option<Env>,
    pub back: Option<Env>,
    pub exits: Option<Env>,
    pub body: Left,
    pub names: Vec<Span>,
}

/// A value that is tested.
pub(crate) fn value_tested(
    alloc: Global,
    m: &Manner<'_, '_>,
    v: &Value,
    env: Env,
) -> Result<Tested, AllocError>
    ensures { IfOk result (λ t. tested_by t ≡ tested_in (manner_by m.now) (Some (plain_value v.now)) env.values) }
{
    let mut env = env;
    let mut names = Vec::new(alloc);
    put_failing(alloc, m.calls, v, &mut env, &mut names)?;
    let truth = env.assumed(alloc, m.calls, v, true)?;
    let contrary = env.assumed(alloc, m.calls, v, false)?;
    Ok(Tested {
        truth,
        contrary,
        names,
    })
}

/// The test of a loop: where it has none it is true.
pub(crate) fn test_passed(
    alloc: Global,
    m: &Manner<'_, '_>,
    test: &Option<Value>,
    env: Env,
) -> Result<Tested, AllocError>
    ensures { IfOk result (λ t. tested_by t ≡ tested_in (manner_by m.now) (option_map plain_value test.now) env.values) }
{
    match test {
        Some(v) => value_tested(alloc, m, v, env),
        None => Ok(Tested {
            truth: Some(env),
            contrary: None,
            names: Vec::new(alloc),
        }),
    }
}

/// The same where a state may not come.
fn tested_reached(
    alloc: Global,
    m: &Manner<'_, '_>,
    test: &Option<Value>,
    env: Option<Env>,
) -> Result<Tested, AllocError>
    ensures { IfOk result (λ t. tested_by t ≡ tested_reached (manner_by m.now) (option_map plain_value test.now) (values_in env)) }
{
    match env {
        Some(env) => test_passed(alloc, m, test, env),
        None => Ok(Tested {
            truth: None,
            contrary: None,
            names: Vec::new(alloc),
        }),
    }
}

/// Another environment with the same entries, if there is one.
pub(crate) fn copied(alloc: Global, env: &Option<Env>) -> Result<Option<Env>, AllocError>
    ensures { IfOk result (λ other. values_in other ≡ values_in env.now) }
{
    match env {
        Some(env) => Ok(Some(env.copy(alloc)?)),
        None => Ok(None),
    }
}

/// The hull of two environments that may be lacking, apart from both.
pub(crate) fn hull_apart(
    alloc: Global,
    first: &Option<Env>,
    second: &Option<Env>,
) -> Result<Option<Env>, AllocError>
    ensures { IfOk result (λ hull. values_in hull ≡ hull_reached (values_in first.now) (values_in second.now)) }
{
    let mut hull = copied(alloc, first)?;
    let mut more = copied(alloc, second)?;
    unite(alloc, &mut hull, &mut more)?;
    Ok(hull)
}

/// Names after one another.
fn names_of(alloc: Global, first: &[Span], second: &[Span]) -> Result<Vec<Span>, AllocError>
    ensures { IfOk result (λ names. names.items ≡ first.now ++ second.now) }
{
    let mut names = Vec::new(alloc);
    names.extend_from_slice(first)?;
    names.extend_from_slice(second)?;
    Ok(names)
}

/// The round of a `do`: its body, and then its test.
pub(crate) fn round_after(
    alloc: Global,
    m: &Manner<'_, '_>,
    test: &Option<Value>,
    head: Env,
    body: Left,
) -> Result<Round, AllocError>
    ensures { IfOk result (λ r. round_by r ≡ tested_after (manner_by m.now) (option_map plain_value test.now) head.values (left_of body)) }
{
    let next = hull_apart(alloc, &body.normal, &body.continues)?;
    let mut tested = tested_reached(alloc, m, test, next)?;
    let exits = hull_apart(alloc, &tested.contrary, &body.breaks)?;
    let names = names_of(alloc, body.arguments.as_slice(), tested.names.as_slice())?;
    Ok(Round {
        enters: Some(head),
        back: tested.truth.take(),
        exits,
        body,
        names,
    })
}

/// The round of a `while` or a `for`: its test, its body, and its third clause.
pub(crate) fn round_before(
    alloc: Global,
    tested: &mut Tested,
    body: Left,
    third: &mut Left,
) -> Result<Round, AllocError>
    ensures { IfOk result (λ r. round_by r ≡ tested_before (tested_by tested.old) (left_of body) (left_of third.old)) }
{
    let exits = hull_apart(alloc, &tested.contrary, &body.breaks)?;
    let parts = names_of(alloc, third.arguments.as_slice(), body.arguments.as_slice())?;
    let names = names_of(alloc, tested.names.as_slice(), parts.as_slice())?;
    Ok(Round {
        enters: tested.truth.take(),
        back: third.normal.take(),
        exits,
        body,
        names,
    })
}

impl Left {
    /// Adds the ends of another branch.
    fn add_beside(&mut self, alloc: Global, other: &mut Left) -> Result<(), AllocError>
        ensures { OnOk result (left_of self.new ≡ beside (left_of self.old) (left_of other.old)) }
    {
        let mut normal = self.normal.take();
        unite(alloc, &mut normal, &mut other.normal)?;
        self.follow(alloc, other)?;
        self.normal = normal;
        Ok(())
    }
}

/// One of two branches, after the calls of a test.
pub(crate) fn branched(
    alloc: Global,
    names: Vec<Span>,
    first: Left,
    second: Left,
) -> Result<Left, AllocError>
    ensures { IfOk result (λ l. left_of l ≡ with_calls names.items (beside (left_of first) (left_of second))) }
{
    let mut left = first;
    let mut other = second;
    let mut names = names;
    left.add_beside(alloc, &mut other)?;
    left.put_calls(&mut names)?;
    Ok(left)
}
