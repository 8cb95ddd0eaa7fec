//! The ends of blocks and of calls: their objects die (C99 6.2.4p5).

ghost use Rattle.std.specs.Prelude.{◌≡◌, ◌∷◌, List};
ghost use Rattle.p10_meaning.specs.Statements.{Flow, normal};
ghost use Rattle.p10_interp.specs.private.Tasks.{Open, evaluated};
ghost use Rattle.p10_interp.specs.private.Operations.{after_block, block_closed};
ghost use Rattle.p10_interp.specs.private.Views.{Answers, tasks_in};
ghost use Rattle.p10_interp.specs.private.OpenCalls.{calls_in};
ghost use Rattle.p10_interp.specs.private.Machines.{Around, state_of, rig_of};
ghost use Rattle.p10_interp.specs.private.Acts.{goes_on, goes_back};
ghost use Rattle.p10_meaning.specs.States.{gives};
ghost use Rattle.p10_interp.specs.private.Leaving.{ClosesOwn};

use crate::calls::Calls;
use crate::outside::Outside;
use crate::stacks::Stacks;
use crate::work::{Halt, Operand};
use p10_meaning::Scalar;
use p10_store::Store;

/// The objects of the innermost block die, the last first.
#[inline(always)]
fn close_own(calls: &mut Calls<'_>, store: &mut Store)
    ensures { (f : Open) (around : List Open) → calls_in calls.old ≡ f ∷ around → ClosesOwn f around (calls_in calls.new) store.old store.new }
{
    while let Some(object) = calls.take_own() {
        store.end(object);
    }
}

/// The end of a block, after which execution goes on in any way.
#[inline(always)]
pub fn end_block(stacks: &mut Stacks<'_>, outside: &mut Outside)
    ensures { (io : Around) (flow : Flow) (f : Open) (calls : List Open) → calls_in stacks.old.calls ≡ f ∷ calls → goes_back flow (tasks_in stacks.old.tasks) stacks.old.operands (after_block f ∷ calls) (block_closed f (state_of outside.old io)) ≡ gives (rig_of flow stacks.new) (state_of outside.new io) }
{
    close_own(&mut stacks.calls, &mut outside.store);
    stacks.calls.leave_block();
}

/// The end of a call, which gives a value or none.
pub fn end_call(
    given: Option<Scalar>,
    stacks: &mut Stacks<'_>,
    outside: &mut Outside,
) -> Result<(), Halt>
    ensures { (io : Around) (f : Open) (calls : List Open) → calls_in stacks.old.calls ≡ f ∷ calls → Answers (goes_on (tasks_in stacks.old.tasks) (evaluated given ∷ stacks.old.operands) calls (block_closed f (state_of outside.old io))) result (rig_of normal stacks.new) (state_of outside.new io) }
{
    close_own(&mut stacks.calls, &mut outside.store);
    stacks.calls.leave();
    stacks.operands.push(Operand::Evaluated(given))
}
