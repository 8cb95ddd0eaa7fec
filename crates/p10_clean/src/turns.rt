//! What is known and set where the parts of statements begin.

ghost use Rattle.std.specs.Prelude.{◌≡◌, ◌++◌, map, slice_get, OnOk, IfOk};
ghost use Rattle.std.specs.Option.{option_map, option_copied};
ghost use Rattle.p10_core.specs.Views.{plain_value, plain_variable, plain_statement};
ghost use Rattle.p10_cert.specs.Claims.{loop_of};
ghost use Rattle.p10_absx.specs.Assessing.{assess, known_where};
ghost use Rattle.p10_absx.specs.Branches.{unbranched};
ghost use Rattle.p10_absx.specs.Environments.{hull_reached};
ghost use Rattle.p10_pass.specs.Arguments.{where_reached};
ghost use Rattle.p10_pass.specs.Claiming.{claim_or_none, head_of, no_claim};
ghost use Rattle.p10_pass.specs.Passing.{where_going, tested_in, pass_statement};
ghost use Rattle.p10_pass.specs.Leaving.{values_in, left_of};
ghost use Rattle.p10_pass.specs.Manners.{manner_by};
ghost use Rattle.p10_clean.specs.Settings.{ways_of};
ghost use Rattle.p10_clean.specs.Values.{flaws_in_maybe};
ghost use Rattle.p10_clean.specs.Statements.{loops_among, head_env, next_turn, next_settings};
ghost use Rattle.p10_clean.specs.private.Code.{settings_of};

use crate::flaw::Flaw;
use crate::settings::Settings;
use crate::standing::{Standing, hull_with};
use crate::statements::Walk;
use crate::values::Look;
use crate::ways::ways_of;
use p10_absx::Env;
use p10_cert::{LoopClaim, Rank, VarRanges};
use p10_core::{LoopHead, Stmt, Value, Variable};
use p10_pass::{Left, head_under, pass_statement};
use std::alloc::{AllocError, Global};

impl Walk<'_, '_> {
    /// The environment at the head of a loop that is entered.
    pub fn head_env(&self, head: LoopHead, entry: &Env) -> Result<Env, AllocError>
        ensures { IfOk result (λ env. env.values ≡ head_env (manner_by self.now.m.now) head entry.now.values) }
    {
        let claim = claim_at(self.m.loops, head.number);
        headed(self.alloc, claim, self.m.variables, entry)
    }

    /// What is known where a value is true, or false.
    pub fn known_where(&self, v: &Value, truth: bool, env: &Env) -> Result<Option<Env>, AllocError>
        ensures { IfOk result (λ e. values_in e ≡ known_where truth env.now.values (assess (manner_by self.now.m.now).calls (plain_value v.now) env.now.values)) }
    {
        env.assumed(self.alloc, self.m.calls, v, truth)
    }

    /// What is known where a test is true; where there is none it is.
    pub fn truth(&self, test: &Option<Value>, env: &Env) -> Result<Option<Env>, AllocError>
        ensures { IfOk result (λ e. values_in e ≡ (tested_in (manner_by self.now.m.now) (option_map plain_value test.now) env.now.values).truth) }
    {
        match test {
            Some(v) => self.known_where(v, true, env),
            None => Ok(Some(env.copy(self.alloc)?)),
        }
    }

    /// Where a loop comes after its body, before its third clause or its test.
    pub fn after_body(
        &self,
        body: &Stmt,
        set: &Settings,
        known: Option<Env>,
    ) -> Result<Standing, AllocError>
        ensures known { IfOk result (λ at. values_in at.known ≡ next_turn (where_going (values_in known) (pass_statement (manner_by self.now.m.now) (plain_statement body.now)))) }
        ensures set { IfOk result (λ at. settings_of at.set ≡ next_settings (ways_of (plain_statement body.now) (settings_of set.now))) }
    {
        let known = self.next_known(body, known)?;
        let before = set.copy(self.alloc)?;
        let ways = ways_of(self.alloc, body, before)?;
        let set = ways.next(self.alloc)?;
        Ok(Standing { known, set })
    }

    /// What is known there.
    fn next_known(&self, body: &Stmt, known: Option<Env>) -> Result<Option<Env>, AllocError>
        ensures { IfOk result (λ e. values_in e ≡ next_turn (where_going (values_in known) (pass_statement (manner_by self.now.m.now) (plain_statement body.now)))) }
    {
        match known {
            Some(env) => {
                let mut left = pass_statement(self.alloc, self.m, body, env)?;
                let next = next_turn(self.alloc, &mut left)?;
                Ok(next)
            }
            None => Ok(None),
        }
    }

    /// Puts the flaws in a test where a walk has come.
    pub fn put_test(
        &self,
        test: &Option<Value>,
        at: Standing,
        flaws: &mut Vec<Flaw>,
    ) -> Result<(), AllocError>
        ensures { OnOk result (flaws.new.items ≡ flaws.old.items ++ where_reached (values_in at.known) (λ env. flaws_in_maybe (manner_by self.now.m.now) (settings_of at.set) (option_map plain_value test.now) env)) }
    {
        let Standing { known, set } = at;
        match known {
            Some(env) => {
                let mut here = env;
                let look = Look {
                    alloc: self.alloc,
                    m: self.m,
                    set: &set,
                };
                look.put_maybe(test, &mut here, flaws)?;
                Ok(())
            }
            None => Ok(()),
        }
    }
}

/// The hull of two environments that may be lacking.
fn hull_of(
    alloc: Global,
    first: Option<Env>,
    second: Option<Env>,
) -> Result<Option<Env>, AllocError>
    ensures { IfOk result (λ e. values_in e ≡ hull_reached (values_in first) (values_in second)) }
{
    match second {
        Some(env) => Ok(Some(hull_with(alloc, first, env)?)),
        None => Ok(first),
    }
}

/// What is known after a body, where it ends and where it goes on with the next turn.
fn next_turn(alloc: Global, body: &mut Left) -> Result<Option<Env>, AllocError>
    ensures { IfOk result (λ e. values_in e ≡ next_turn (left_of body.old)) }
{
    hull_of(alloc, body.normal.take(), body.continues.take())
}

/// The claim of the loop with a number, if there is one.
fn claim_at<'a>(loops: Option<&'a [LoopClaim]>, n: u32) -> Option<&'a LoopClaim>
    ensures { option_map loop_of (option_copied result) ≡ slice_get (loops_among (option_map (map loop_of) (option_copied loops.entry))) n }
{
    match loops {
        Some(loops) => loops.get(n as usize),
        None => None,
    }
}

/// The environment at the head of a loop under its claim, if it has one.
fn headed(
    alloc: Global,
    claim: Option<&LoopClaim>,
    variables: &[Variable<'_>],
    entry: &Env,
) -> Result<Env, AllocError>
    ensures { IfOk result (λ env. env ≡ unbranched (head_of (claim_or_none (option_map loop_of (option_copied claim.entry))) (map plain_variable variables.now) entry.now.values)) }
{
    match claim {
        Some(claim) => head_under(alloc, claim, variables, entry),
        None => {
            let claim = no_claim(alloc);
            let env = head_under(alloc, &claim, variables, entry)?;
            Ok(env)
        }
    }
}

/// The claim of a loop of which nothing is claimed.
fn no_claim(alloc: Global) -> LoopClaim
    ensures { loop_of result ≡ no_claim }
{
    LoopClaim {
        depth: 0,
        rank: Rank::One,
        turns: 0,
        inv: VarRanges::new(alloc),
    }
}
