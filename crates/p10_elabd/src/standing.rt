//! Where declarations stand: what names stand for, and the first row of the subset that was found to hold so far.

use p10_base::{At, SubsetCode};
use p10_elabx::{Problem, Scope, joined};
use std::alloc::Global;

/// What stands round a declaration.
#[derive(Drop)]
pub struct Standing<'s> {
    /// The names in scope, and the structures.
    pub scope: Scope<'s>,
    /// The numbers of the structures whose members are being declared, the innermost last.
    pub open_structures: Vec<u32>,
    /// The first row of the subset that was found to hold.
    pub problem: Option<Problem>,
}

impl<'s> Standing<'s> {
    ghost use Rattle.std.specs.Prelude.{◌≡◌, true};
    ghost use Rattle.p10_elabx.specs.First.{only_first, problems};
    ghost use Rattle.p10_elabd.specs.Standing.{nothing_stands, with_problems, refusing};
    ghost use Rattle.p10_elabd.specs.Views.{plain_standing};

    /// No names, and no row that holds.
    pub fn new(alloc: Global) -> Standing<'s>
        ensures { plain_standing result ≡ nothing_stands }
    {
        Standing {
            scope: Scope::new(alloc),
            open_structures: Vec::new(alloc),
            problem: None,
        }
    }

    /// Notes a problem, if there is one.
    pub fn note(&mut self, found: Option<Problem>)
        ensures { plain_standing self.new ≡ with_problems only_first (problems found) (plain_standing self.old) }
    {
        self.problem = joined(self.problem, found);
    }

    /// Notes that a row holds at a tree.
    pub fn refuse(&mut self, code: SubsetCode, at: At)
        ensures { plain_standing self.new ≡ refusing only_first true code at (plain_standing self.old) }
    {
        self.note(Some(Problem { code, at }));
    }

    /// Notes that a row holds at a tree, where a condition is met.
    pub fn refuse_where(&mut self, holds: bool, code: SubsetCode, at: At)
        ensures { plain_standing self.new ≡ refusing only_first holds code at (plain_standing self.old) }
    {
        if holds {
            self.refuse(code, at);
        }
    }
}
