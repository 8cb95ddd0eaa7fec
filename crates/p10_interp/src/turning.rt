//! One turn of the loops of the machine: a piece of work is done at once, where it can be, or by an act, and then whatever can be
//! done at once.

ghost use Rattle.std.specs.Prelude.{◌≡◌, ◌∷◌, IsTrue};
ghost use Rattle.p10_core.specs.Views.{plain_program, plain_types};
ghost use Rattle.p10_core.specs.WholePrograms.{AreWholeStructures};
ghost use Rattle.p10_meaning.specs.Statements.{normal};
ghost use Rattle.p10_interp.specs.private.Views.{flow_of, task_of, tasks_in};
ghost use Rattle.p10_interp.specs.private.OpenCalls.{calls_in};
ghost use Rattle.p10_interp.specs.private.Machines.{Around, state_of};
ghost use Rattle.p10_meaning.specs.States.{State};
ghost use Rattle.p10_interp.specs.private.Tasks.{Rig};
ghost use Rattle.p10_interp.specs.private.Turning.{IsTurned, Turns};

use crate::acting::next_act;
use crate::hastening::hasten;
use crate::outside::Outside;
use crate::stacks::Stacks;
use crate::work::{Flow, Halt, Work};
use p10_core::Program;

/// A piece of work that was taken from the stack is done, or passed on the way back to where the flow leads; and then what can be
/// done at once.
pub fn turn<'p>(
    p: &'p Program<'p>,
    flow: Flow,
    work: Work<'p>,
    stacks: &mut Stacks<'p>,
    outside: &mut Outside,
) -> Result<Flow, Halt>
    requires structures { AreWholeStructures (plain_types p.now.types) }
    ensures { (io : Around) → Turns (plain_program p.now) (record { flow = flow_of flow; tasks = task_of work.entry ∷ tasks_in stacks.old.tasks; operands = stacks.old.operands; calls = calls_in stacks.old.calls }) (state_of outside.old io) result stacks.new (state_of outside.new io) }
{
    match next_act(p, flow, work, stacks, outside) {
        Ok(next) => {
            if is_normal(next) {
                go_on(p, next, stacks, outside)
            } else {
                Ok(next)
            }
        }
        Err(halt) => Err(halt),
    }
}

/// After a turn execution goes on with the next work: what can be done at once is done.
fn go_on<'p>(
    p: &'p Program<'p>,
    next: Flow,
    stacks: &mut Stacks<'p>,
    outside: &mut Outside,
) -> Result<Flow, Halt>
    requires structures { AreWholeStructures (plain_types p.now.types) }
    ensures { (io : Around) (r : Rig) (w : State) → flow_of next ≡ normal → IsTurned (plain_program p.now) r w next stacks.old (state_of outside.old io) → Turns (plain_program p.now) r w result stacks.new (state_of outside.new io) }
{
    match hasten(p, stacks, outside) {
        Ok(()) => Ok(next),
        Err(halt) => Err(halt),
    }
}

/// Whether execution goes on with the next work.
fn is_normal(flow: Flow) -> bool
    ensures { IsTrue result → flow_of flow ≡ normal }
{
    match flow {
        Flow::Normal => true,
        _ => false,
    }
}
