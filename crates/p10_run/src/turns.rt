//! The turns of the task loop.

ghost use Rattle.std.specs.Prelude.{◌≡◌, ◌≤◌, ◌^◌, ℕ, true, ℤ, List, Option, IfOk, OnOk, OnErr, IsErrOf};
ghost use Rattle.p10_world.specs.Faults.{Rose};
ghost use Rattle.p10_core.specs.Typed.{PlainProgram};
ghost use Rattle.p10_interp.specs.Resting.{is_paused};
ghost use Rattle.p10_interp.specs.Machines.{resting_of};
ghost use Rattle.p10_run.specs.private.Standing.{Stands, GivenUp};

use crate::budget::Budget;
use p10_interp::{Ended, Machine, RunFault};
use p10_world::{Sink, Source};

/// Makes turns of the task loop, each with a fresh budget, until the run ends or all are made. `first` is the answer to the call
/// of the machine before, and the last answer is given.
pub fn make_turns<I: Source, O: Sink>(
    machine: &mut Machine<'_>,
    first: Ended,
    budget: &Budget,
    input: &mut I,
    out: &mut O,
) -> Result<Ended, RunFault>
    requires turns { budget.now.turns ≤ 10 ^ 18 }
    ensures stands { IfOk result (λ last. (p : PlainProgram) (sensors : List ℤ) (left taken : Option (List ℕ)) → Stands p budget.now sensors first (resting_of machine.old) left (I.left input.old) taken (O.taken out.old) → Stands p budget.now sensors last (resting_of machine.new) left (I.left input.new) taken (O.taken out.new)) }
    ensures all { OnOk result (is_paused (resting_of machine.new).position ≡ true → budget.now.turns ≤ (resting_of machine.new).turns) }
    ensures given_up { OnErr result ((p : PlainProgram) (sensors : List ℤ) (left taken : Option (List ℕ)) → Stands p budget.now sensors first (resting_of machine.old) left (I.left input.old) taken (O.taken out.old) → GivenUp p budget.now sensors left (I.left input.new) taken (O.taken out.new)) }
    ensures read { IsErrOf result RunFault.Read → Rose (I.faults input.old) (I.faults input.new) }
    ensures write { IsErrOf result RunFault.Write → Rose (O.faults out.old) (O.faults out.new) }
    ensures source { I.faults input.old ≤ I.faults input.new }
    ensures sink { O.faults out.old ≤ O.faults out.new }
{
    let mut answer = first;
    'turns: while machine.at_loop() && machine.turns() < budget.turns {
        match machine.turn(input, out, budget.turn) {
            Ok(next) => answer = next,
            Err(fault) => return Err(fault),
        }
    }
    Ok(answer)
}
