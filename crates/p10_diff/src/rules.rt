//! The domain of ranges with differences in the code.

ghost use Rattle.std.specs.Prelude.{◌≡◌, length, OnOk, IfOk, None};
ghost use Rattle.p10_core.specs.Views.{plain_value, plain_statement};
ghost use Rattle.p10_meaning.specs.Variables.{may_change};
ghost use Rattle.p10_pass.specs.Arguments.{has_value};
ghost use Rattle.p10_pass.specs.Marks.{AreMarks};
ghost use Rattle.p10_diff.specs.Differences.{Differences, unmarked_fall};
ghost use Rattle.p10_diff.specs.Domain.{differences};
ghost use Rattle.p10_diff.specs.Knowing.{pair_by, differences_of};

use crate::changes::Changes;
use crate::conditions::assume;
use crate::executing::execute;
use crate::hulls::hull;
use crate::known::{Diff, Pair};
use crate::scopes::{forget_marked, leave_scope};
use crate::tables::unchanged;
use p10_absx::Env;
use p10_core::{Stmt, Value};
use p10_walk::{Rules, changed_marks};
use std::alloc::{AllocError, Global};

/// The domain of ranges with differences, for two variables of a function and what is known at the loop's head.
#[derive(Clone, Copy)]
pub struct Differing<'a, 's> {
    pub pair: Pair<'a, 's>,
}

/// The fall after a statement that may change variables: nothing is known of it any more where one of the two may change.
fn fall_after(p: &Pair<'_, '_>, c: &Changes<'_>, fall: Option<i128>) -> Option<i128>
    requires { AreMarks (λ n. may_change n (plain_statement c.now.by.now)) c.now.count c.now.marks.now }
    ensures { result ≡ unmarked_fall (pair_by p.now) (λ n. may_change n (plain_statement c.now.by.now)) fall }
{
    if c.may_change(p.below) || c.may_change(p.above) {
        None
    } else {
        fall
    }
}

/// Whether a value has any number at all: one that is no integer does.
fn has_value(alloc: Global, v: &Value, env: &mut Env) -> Result<bool, AllocError>
    ensures same { OnOk result (env.new ≡ env.old) }
    ensures has { IfOk result (λ b. b ≡ has_value None (plain_value v.now) env.old.values) }
{
    if v.ty.is_pointer() {
        return Ok(true);
    }
    let value = env.value(alloc, None, v)?;
    Ok(value.is_some())
}

/// Forgets what a statement may change, by marks of all variables.
fn forget_marks(
    alloc: Global,
    p: &Pair<'_, '_>,
    s: &Stmt,
    marks: &[bool],
    e: &mut Diff,
) -> Result<(), AllocError>
    requires { AreMarks (λ n. may_change n (plain_statement s.now)) (length p.now.variables.now) marks.now }
    ensures { OnOk result (differences_of e.new ≡ (differences (pair_by p.now)).forget (λ n. may_change n (plain_statement s.now)) (differences_of e.old)) }
{
    let c = Changes {
        by: s,
        count: p.variables.len(),
        marks,
    };
    forget_changes(alloc, p, &c, e)
}

/// Forgets what a statement may change.
fn forget_changes(
    alloc: Global,
    p: &Pair<'_, '_>,
    c: &Changes<'_>,
    e: &mut Diff,
) -> Result<(), AllocError>
    requires count { c.now.count ≡ length p.now.variables.now }
    requires marks { AreMarks (λ n. may_change n (plain_statement c.now.by.now)) c.now.count c.now.marks.now }
    ensures { OnOk result (differences_of e.new ≡ (differences (pair_by p.now)).forget (λ n. may_change n (plain_statement c.now.by.now)) (differences_of e.old)) }
{
    let bounds = unchanged(alloc, c, e.bounds.as_slice())?;
    forget_marked(c.marks, p.variables, &mut e.ranges)?;
    e.bounds = bounds;
    e.fall = fall_after(p, c, e.fall);
    Ok(())
}

impl Rules for Differing<'_, '_> {
    type Env = Diff;

    ghost Known = { Differences };

    ghost known = { differences_of };

    ghost operations = { λ d. differences (pair_by d.pair) };

    fn copy(&self, alloc: Global, e: &Diff) -> Result<Diff, AllocError> {
        e.copy(alloc)
    }

    fn after(&self, alloc: Global, s: &Stmt, e: Diff) -> Result<Option<Diff>, AllocError> {
        execute(alloc, &self.pair, s, e)
    }

    fn assume(
        &self,
        alloc: Global,
        truth: bool,
        v: &Value,
        e: Diff,
    ) -> Result<Option<Diff>, AllocError> {
        assume(alloc, &self.pair, v, truth, e)
    }

    fn evaluated(&self, alloc: Global, v: &Value, e: Diff) -> Result<Option<Diff>, AllocError> {
        let mut e = e;
        if has_value(alloc, v, &mut e.ranges)? {
            Ok(Some(e))
        } else {
            Ok(None)
        }
    }

    fn hull_with(&self, alloc: Global, e: &mut Diff, other: Diff) -> Result<(), AllocError> {
        let both = hull(alloc, &self.pair, e, &other)?;
        *e = both;
        Ok(())
    }

    fn leave_scope(&self, items: &[Stmt], e: &mut Diff) {
        leave_scope(&mut e.ranges, items);
    }

    fn forget(&self, alloc: Global, s: &Stmt, e: &mut Diff) -> Result<(), AllocError> {
        let marks = changed_marks(alloc, s, self.pair.variables.len())?;
        forget_marks(alloc, &self.pair, s, marks.as_slice(), e)
    }
}
