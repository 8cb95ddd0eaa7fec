//! What a comparison that holds changes in an environment.

ghost use Rattle.std.specs.Prelude.{◌≡◌, Some, IfOk, IfSome};
ghost use Rattle.std.specs.Option.{option_map, option_and_then};
ghost use Rattle.p10_range.specs.Ranges.{interval_of};
ghost use Rattle.p10_absx.specs.Abstract.{abstract_of};
ghost use Rattle.p10_absx.specs.Comparing.{compared as compared_of, compared_values as compared_values_of, side_met as side_met_of};
ghost use Rattle.p10_absx.specs.private.Changes.{replaced_in, change_met, known_side as known_side_of, known_after as known_after_of};
ghost use Rattle.p10_absx.specs.private.Found.{met_of, both_met, side_of, state_of};

use crate::abs::Abs;
use crate::changes::{Change, Side};
use crate::comparing::{allowed, turned};
use crate::env::Env;
use p10_int::BinOp;
use p10_range::{Range, meet};
use std::alloc::{AllocError, Global};

/// What it changes that a side of a comparison lies in a range too.
#[derive(Clone, Copy)]
pub enum Met {
    /// It can't.
    Never,
    /// Nothing.
    Same,
    /// A variable's range.
    Narrowed(Change),
}

/// What it changes that a side, of whose variable this is known, lies in a range too.
fn side_met(variable: Option<u32>, r: Range, known: Option<Abs>) -> Met
    ensures { met_of result ≡ change_met variable (interval_of r) (option_map abstract_of known) }
{
    match (variable, known) {
        (Some(variable), Some(a)) => narrowed(variable, r, a),
        _ => Met::Same,
    }
}

/// A variable lies in a range too.
fn narrowed(variable: u32, r: Range, a: Abs) -> Met
    ensures { met_of result ≡ change_met (Some variable) (interval_of r) (Some (abstract_of a)) }
{
    match meet(a.range, r) {
        Some(range) => Met::Narrowed(Change {
            variable,
            known: Some(Abs {
                range,
                offset: a.offset,
            }),
        }),
        None => Met::Never,
    }
}

/// The changes of both sides.
fn listed(alloc: Global, first: Met, second: Met) -> Result<Option<Vec<Change>>, AllocError>
    ensures { IfOk result (λ r. option_map (λ v. replaced_in v.items) r ≡ both_met (met_of first) (met_of second)) }
{
    let mut changes = Vec::new(alloc);
    match first {
        Met::Never => return Ok(None),
        Met::Same => {}
        Met::Narrowed(change) => changes.push(change)?,
    }
    match second {
        Met::Never => return Ok(None),
        Met::Same => {}
        Met::Narrowed(change) => changes.push(change)?,
    }
    Ok(Some(changes))
}

impl Env {
    /// What is known of the variable of a side, if it is one.
    fn known_side(&self, variable: Option<u32>) -> Option<Abs>
        ensures { option_map abstract_of result ≡ known_side_of variable self.now.values }
    {
        match variable {
            Some(variable) => self.get(variable),
            None => None,
        }
    }

    /// What is known of the variable of the right side after the left one's change.
    fn known_after(&self, left: Option<u32>, right: Option<u32>, first: Met) -> Option<Abs>
        ensures { IfSome (met_of first) (λ changes. option_map abstract_of result ≡ known_after_of left right changes self.now.values) }
    {
        match (first, left, right) {
            (Met::Narrowed(change), Some(left), Some(right)) => {
                if left == right {
                    change.known
                } else {
                    self.get(right)
                }
            }
            _ => self.known_side(right),
        }
    }

    /// What it changes that both sides of a comparison lie in ranges too.
    fn both_met(
        &self,
        alloc: Global,
        left: Option<u32>,
        r: Range,
        right: Option<u32>,
        s: Range,
    ) -> Result<Option<Vec<Change>>, AllocError>
        ensures { IfOk result (λ q. state_of self.now.values q ≡ option_and_then (side_met_of right (interval_of s)) (side_met_of left (interval_of r) self.now.values)) }
    {
        let first = side_met(left, r, self.known_side(left));
        let second = side_met(right, s, self.known_after(left, right, first));
        listed(alloc, first, second)
    }

    /// What a comparison that holds changes, where both sides have values; `None` where it can't hold.
    fn compared_values(
        &self,
        alloc: Global,
        op: BinOp,
        left: Option<u32>,
        a: Abs,
        right: Option<u32>,
        b: Abs,
    ) -> Result<Option<Vec<Change>>, AllocError>
        ensures { IfOk result (λ q. state_of self.now.values q ≡ compared_values_of op left (abstract_of a) right (abstract_of b) self.now.values) }
    {
        let first = allowed(op, a.range, b.range);
        let second = allowed(turned(op), b.range, a.range);
        match (first, second) {
            (Some(r), Some(s)) => self.both_met(alloc, left, r, right, s),
            _ => Ok(None),
        }
    }

    /// What a comparison of integers that holds changes; `None` where it can't hold, or a side has no value.
    pub(crate) fn compared(
        &self,
        alloc: Global,
        op: BinOp,
        left: Side,
        right: Side,
    ) -> Result<Option<Vec<Change>>, AllocError>
        ensures { IfOk result (λ r. state_of self.now.values r ≡ compared_of op (side_of left) (side_of right) self.now.values) }
    {
        match (left.value, right.value) {
            (Some(a), Some(b)) => {
                self.compared_values(alloc, op, left.variable, a, right.variable, b)
            }
            _ => Ok(None),
        }
    }
}
