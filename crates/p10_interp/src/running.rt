//! The loops of the machine.

ghost use Rattle.std.specs.Prelude.{◌≤◌, ℕ, IfOk};
ghost use Rattle.p10_core.specs.Views.{plain_program, plain_types};
ghost use Rattle.p10_core.specs.WholePrograms.{AreWholeStructures};
ghost use Rattle.p10_interp.specs.private.Views.{flow_of, tasks_in};
ghost use Rattle.p10_interp.specs.private.Weights.{weights};
ghost use Rattle.p10_interp.specs.private.Machines.{Around, state_of, rig_of};
ghost use Rattle.p10_interp.specs.private.Resuming.{proceed};
ghost use Rattle.p10_interp.specs.private.Arriving.{Arrives, Falls};
ghost use Rattle.p10_interp.specs.private.Running.{Comes};

use crate::holding::is_held;
use crate::outside::Outside;
use crate::stacks::Stacks;
use crate::turning::turn;
use crate::work::{Flow, Halt, Pause};
use p10_core::Program;

/// Does all work that is left. Where the outside is needed, it is answered as out of memory.
pub fn run<'p>(
    p: &'p Program<'p>,
    flow: Flow,
    stacks: &mut Stacks<'p>,
    outside: &mut Outside,
) -> Result<Flow, Halt>
    requires structures { AreWholeStructures (plain_types p.now.types) }
    ensures { (io : Around) (n : ℕ) → outside.old.left ≤ n → Comes (proceed (plain_program p.now) n (rig_of (flow_of flow) stacks.old) (state_of outside.old io)) result stacks.new (state_of outside.new io) }
{
    let mut flow = flow;
    loop {
        let left = outside.left;
        match advance(p, flow, stacks, outside)? {
            Pause::Over(end) => return Ok(end),
            Pause::Held(next) => flow = next,
        }
        if left <= outside.left {
            return Err(Halt::Memory);
        }
    }
}

/// Acts until all work is done, or the outside is needed before the next act.
pub fn work_on<'p>(
    p: &'p Program<'p>,
    flow: Flow,
    stacks: &mut Stacks<'p>,
    outside: &mut Outside,
) -> Result<Pause, Halt>
    requires structures { AreWholeStructures (plain_types p.now.types) }
    ensures comes { (io : Around) (n : ℕ) → outside.old.left ≤ n → Arrives (plain_program p.now) n (proceed (plain_program p.now) n (rig_of (flow_of flow) stacks.old) (state_of outside.old io)) result stacks.new (state_of outside.new io) }
    ensures falls { IfOk result (λ pause. Falls pause outside.old.left (weights (tasks_in stacks.old.tasks)) outside.new.left (weights (tasks_in stacks.new.tasks))) }
{
    let mut flow = flow;
    'stretches: loop {
        let left = outside.left;
        match advance(p, flow, stacks, outside) {
            Ok(pause) => match pause {
                Pause::Over(end) => return Ok(Pause::Over(end)),
                Pause::Held(next) => {
                    if left <= outside.left || is_held(stacks, outside) {
                        return Ok(Pause::Held(next));
                    }
                    flow = next;
                }
            },
            Err(halt) => return Err(halt),
        }
    }
}

/// Acts until all work is done, or a step was taken, or the outside is needed before the next act.
pub fn advance<'p>(
    p: &'p Program<'p>,
    flow: Flow,
    stacks: &mut Stacks<'p>,
    outside: &mut Outside,
) -> Result<Pause, Halt>
    requires structures { AreWholeStructures (plain_types p.now.types) }
    ensures comes { (io : Around) (n : ℕ) → outside.old.left ≤ n → Arrives (plain_program p.now) n (proceed (plain_program p.now) n (rig_of (flow_of flow) stacks.old) (state_of outside.old io)) result stacks.new (state_of outside.new io) }
    ensures falls { IfOk result (λ pause. Falls pause outside.old.left (weights (tasks_in stacks.old.tasks)) outside.new.left (weights (tasks_in stacks.new.tasks))) }
{
    let left = outside.left;
    let mut flow = flow;
    while let Some(work) = stacks.tasks.pop() {
        flow = turn(p, flow, work, stacks, outside)?;
        if outside.left < left || is_held(stacks, outside) {
            return Ok(Pause::Held(flow));
        }
    }
    Ok(Pause::Over(flow))
}
