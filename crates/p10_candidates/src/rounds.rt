//! One round of a loop in a trial, where no loop in it has a claim.

ghost use Rattle.std.specs.Prelude.{◌≡◌, IfOk};
ghost use Rattle.p10_pass.specs.Leaving.{values_in};
ghost use Rattle.p10_candidates.specs.Offering.{rounds_by};

use p10_absx::Env;
use p10_core::{Stmt, Variable};
use p10_pass::{Manner, one_round};
use std::alloc::{AllocError, Global};

/// A loop of which rounds are made.
#[derive(Clone, Copy)]
pub struct Rounds<'a, 's> {
    /// The variables of its function.
    pub variables: &'a [Variable<'s>],
    /// The loop.
    pub looped: &'a Stmt,
}

/// What a round gives: what is known where the body is entered, and on the ways back; `None` where no state comes.
#[derive(Drop)]
pub struct Turn {
    pub enters: Option<Env>,
    pub back: Option<Env>,
}

impl Rounds<'_, '_> {
    /// What a round gives from a head.
    pub fn turn(&self, alloc: Global, head: Env) -> Result<Turn, AllocError>
        ensures enters { IfOk result (λ t. values_in t.enters ≡ (rounds_by self.now head.values).enters) }
        ensures back { IfOk result (λ t. values_in t.back ≡ (rounds_by self.now head.values).back) }
    {
        let manner = Manner {
            calls: None,
            loops: None,
            result: None,
            variables: self.variables,
        };
        match one_round(alloc, &manner, self.looped, head)? {
            Some(round) => Ok(Turn {
                enters: round.enters,
                back: round.back,
            }),
            None => Ok(Turn {
                enters: None,
                back: None,
            }),
        }
    }
}
