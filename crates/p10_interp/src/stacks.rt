//! The stacks of the machine.

ghost use Rattle.std.specs.Prelude.{◌≡◌, []};

use crate::calls::Calls;
use crate::held::Held;
use crate::queue::Queue;
use crate::tasks::{Operands, Tasks};
use p10_meaning::Scalar;
use std::alloc::Global;

/// The work that is left, the operands, and the open calls.
#[derive(Drop)]
pub struct Stacks<'p> {
    pub tasks: Tasks<'p>,
    pub operands: Operands,
    pub calls: Calls<'p>,
    /// Room for the arguments of a call while it is entered.
    pub arguments: Queue<Scalar>,
    /// Room for the frame of a call that is made at once.
    pub frame: Vec<Held>,
}

impl<'p> Stacks<'p> {
    ghost use Rattle.p10_interp.specs.private.Views.{tasks_in};
    ghost use Rattle.p10_interp.specs.private.OpenCalls.{calls_in};

    /// No work, no operands and no open call.
    pub fn new(alloc: Global) -> Stacks<'p>
        ensures tasks { tasks_in result.tasks ≡ [] }
        ensures operands { result.operands ≡ [] }
        ensures calls { calls_in result.calls ≡ [] }
    {
        Stacks {
            tasks: Tasks::new(alloc),
            operands: Operands::new(alloc),
            calls: Calls::new(alloc),
            arguments: Queue::new(alloc),
            frame: Vec::new(alloc),
        }
    }
}
