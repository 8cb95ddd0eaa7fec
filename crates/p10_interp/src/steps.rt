//! Steps that go on with further work.

ghost use Rattle.std.specs.Prelude.{◌≡◌, ◌∷◌, List};
ghost use Rattle.p10_meaning.specs.States.{step};
ghost use Rattle.p10_meaning.specs.Statements.{normal};
ghost use Rattle.p10_interp.specs.private.Tasks.{Open};
ghost use Rattle.p10_interp.specs.private.Views.{Answers, task_of, tasks_in};
ghost use Rattle.p10_interp.specs.private.OpenCalls.{calls_in};
ghost use Rattle.p10_interp.specs.private.Machines.{Around, state_of, rig_of};
ghost use Rattle.p10_interp.specs.private.Acts.{goes_on};

use crate::outside::Outside;
use crate::stacks::Stacks;
use crate::work::{Halt, Work};

/// Takes a step, and goes on with a piece of work.
pub fn go_on<'p>(
    first: Work<'p>,
    stacks: &mut Stacks<'p>,
    outside: &mut Outside,
) -> Result<(), Halt>
    ensures { (io : Around) (f : Open) (calls : List Open) → calls_in stacks.old.calls ≡ f ∷ calls → Answers (step (state_of outside.old io) (λ w. goes_on (task_of first.entry ∷ tasks_in stacks.old.tasks) stacks.old.operands (f ∷ calls) w)) result (rig_of normal stacks.new) (state_of outside.new io) }
{
    if outside.left == 0 {
        return Err(Halt::Spent);
    }
    outside.left -= 1;
    stacks.tasks.push(first)
}

/// Takes a step, and goes on with two pieces of work.
pub fn go_on_with_two<'p>(
    first: Work<'p>,
    second: Work<'p>,
    stacks: &mut Stacks<'p>,
    outside: &mut Outside,
) -> Result<(), Halt>
    ensures { (io : Around) (f : Open) (calls : List Open) → calls_in stacks.old.calls ≡ f ∷ calls → Answers (step (state_of outside.old io) (λ w. goes_on (task_of first.entry ∷ (task_of second.entry ∷ tasks_in stacks.old.tasks)) stacks.old.operands (f ∷ calls) w)) result (rig_of normal stacks.new) (state_of outside.new io) }
{
    if outside.left == 0 {
        return Err(Halt::Spent);
    }
    outside.left -= 1;
    stacks.tasks.push(second)?;
    stacks.tasks.push(first)
}

/// Takes a step, and goes on with three pieces of work.
pub fn go_on_with_three<'p>(
    first: Work<'p>,
    second: Work<'p>,
    third: Work<'p>,
    stacks: &mut Stacks<'p>,
    outside: &mut Outside,
) -> Result<(), Halt>
    ensures { (io : Around) (f : Open) (calls : List Open) → calls_in stacks.old.calls ≡ f ∷ calls → Answers (step (state_of outside.old io) (λ w. goes_on (task_of first.entry ∷ (task_of second.entry ∷ (task_of third.entry ∷ tasks_in stacks.old.tasks))) stacks.old.operands (f ∷ calls) w)) result (rig_of normal stacks.new) (state_of outside.new io) }
{
    if outside.left == 0 {
        return Err(Halt::Spent);
    }
    outside.left -= 1;
    stacks.tasks.push(third)?;
    stacks.tasks.push(second)?;
    stacks.tasks.push(first)
}
