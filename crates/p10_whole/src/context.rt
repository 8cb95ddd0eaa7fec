//! Where a statement stands.

ghost use Rattle.std.specs.Prelude.{◌≡◌, true, ℕ, List};
ghost use Rattle.p10_core.specs.WholePrograms.{around};
ghost use Rattle.p10_whole.specs.private.Regions.{region_in};
ghost use Rattle.p10_whole.specs.private.Surroundings.{surroundings_in};

use crate::around::Around;
use p10_core::{Func, Program};

/// What stands round a statement, the variables in scope aside: its function, and whether a loop and a `switch`
/// stand round it.
#[derive(Clone, Copy)]
pub(crate) struct Context<'a, 's> {
    pub program: &'a Program<'s>,
    /// The number of the function.
    pub number: usize,
    pub function: &'a Func<'s>,
    pub in_loop: bool,
    pub in_switch: bool,
}

impl<'a, 's> Context<'a, 's> {
    /// What stands round the values of a statement, where variables with these numbers are in scope besides the
    /// parameters.
    pub fn around<'b>(&'b self, scope: &'b [u32]) -> Around<'b, 's>
        ensures { surroundings_in result ≡ around (region_in self.now scope.now) }
    {
        Around {
            program: self.program,
            variables: self.function.vars.as_slice(),
            parameters: self.function.params,
            scope,
        }
    }

    /// The same in the body of a loop.
    pub fn in_loop(&self) -> Context<'a, 's>
        ensures { (numbers : List ℕ) → region_in result numbers ≡ record (region_in self.now numbers) { in_loop = true } }
    {
        Context {
            in_loop: true,
            ..*self
        }
    }

    /// The same in the body of a `switch`.
    pub fn in_switch(&self) -> Context<'a, 's>
        ensures { (numbers : List ℕ) → region_in result numbers ≡ record (region_in self.now numbers) { in_switch = true } }
    {
        Context {
            in_switch: true,
            ..*self
        }
    }
}
