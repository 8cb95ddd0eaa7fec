//! The whole run.

ghost use Rattle.std.specs.Prelude.{◌≡◌, ◌≤◌, ◌^◌, ℕ, List, Option, IfOk, OnErr, IsErrOf, IfSome};
ghost use Rattle.p10_world.specs.Faults.{Rose};
ghost use Rattle.p10_world.specs.Sink.{TakesFront};
ghost use Rattle.p10_core.specs.Typed.{PlainProgram};
ghost use Rattle.p10_core.specs.WholePrograms.{IsWholeProgram};
ghost use Rattle.p10_core.specs.Views.{plain_program};
ghost use Rattle.p10_interp.specs.Resting.{fresh, is_paused};
ghost use Rattle.p10_interp.specs.Machines.{resting_of};
ghost use Rattle.p10_run.specs.WholeRuns.{run_with, denied_requests, IsRun, ForEachInput};
ghost use Rattle.p10_run.specs.private.Standing.{new_machine, run_from, outcome_after, Stands, GivenUp};

use crate::budget::Budget;
use crate::finished::{FinishedRun, RunOutcome};
use crate::turns::make_turns;
use p10_base::Bounds;
use p10_core::Program;
use p10_interp::{Ended, Machine, RunFault};
use p10_world::{Sink, Source};
use std::alloc::{AllocError, Global};

/// Runs a whole program: `main` with `budget.prefix` steps, up to its task loop where it has one, and then at most
/// `budget.turns` turns of that loop, each with `budget.turn` steps. The program's sensors give the values `sensors`, one after
/// the other, and then 0. What the program reads is taken from `input`, and what it writes is put into `out`, before the answer
/// all of it. Where the budget has bounds, room for them is made before.
///
/// # Errors
///
/// [`RunFault::Read`] and [`RunFault::Write`] only where the count of faults of `input` or `out` rose, and [`RunFault::Memory`]
/// where memory is out. `out` has then taken a prefix of the output.
pub fn run<'p, I: Source, O: Sink>(
    alloc: Global,
    p: &'p Program<'p>,
    budget: &Budget,
    sensors: Vec<i128>,
    input: &mut I,
    out: &mut O,
) -> Result<FinishedRun, RunFault>
    requires whole { IsWholeProgram (plain_program p.now) }
    requires turns { budget.now.turns ≤ 10 ^ 18 }

    // Where the source tells its bytes, they are the input of the run; in any case what holds, holds for each input that it may
    // have held.
    ensures told { IfOk result (λ done. IfSome (I.left input.old) (λ bytes. IsRun done (O.taken out.old) (O.taken out.new) (run_with (plain_program p.now) budget.now sensors.items bytes))) }
    ensures run { IfOk result (λ done. ForEachInput (I.left input.old) (I.left input.new) (λ bytes. IsRun done (O.taken out.old) (O.taken out.new) (run_with (plain_program p.now) budget.now sensors.items bytes))) }

    // The same for a run that was given up.
    ensures told_prefix { OnErr result (IfSome (I.left input.old) (λ bytes. TakesFront (O.taken out.old) (O.taken out.new) (run_with (plain_program p.now) budget.now sensors.items bytes).output)) }
    ensures prefix { OnErr result (ForEachInput (I.left input.old) (I.left input.new) (λ bytes. TakesFront (O.taken out.old) (O.taken out.new) (run_with (plain_program p.now) budget.now sensors.items bytes).output)) }

    ensures read { IsErrOf result RunFault.Read → Rose (I.faults input.old) (I.faults input.new) }
    ensures write { IsErrOf result RunFault.Write → Rose (O.faults out.old) (O.faults out.new) }
    ensures source { I.faults input.old ≤ I.faults input.new }
    ensures sink { O.faults out.old ≤ O.faults out.new }
{
    match denied_requests(alloc, budget.denied) {
        Ok(denied) => match machine_for(alloc, p, denied, sensors, budget.room) {
            Ok(mut machine) => run_on(&mut machine, budget, input, out),
            Err(_) => Err(RunFault::Memory),
        },
        Err(_) => Err(RunFault::Memory),
    }
}

/// The numbers of the denied requests: one, or none at 0.
fn denied_requests(alloc: Global, number: u64) -> Result<Vec<u64>, AllocError>
    ensures { IfOk result (λ denied. denied.items ≡ denied_requests number) }
{
    let mut denied = Vec::new(alloc);
    if number != 0 {
        denied.push(number)?;
    }
    Ok(denied)
}

/// A machine that has run nothing yet, whose sensors give these values, with room for a run that stays within bounds, where
/// there are some.
fn machine_for<'p>(
    alloc: Global,
    p: &'p Program<'p>,
    denied: Vec<u64>,
    sensors: Vec<i128>,
    room: Option<Bounds>,
) -> Result<Machine<'p>, AllocError>
    requires whole { IsWholeProgram (plain_program p.now) }
    ensures { IfOk result (λ machine. resting_of machine ≡ new_machine (plain_program p.now) denied.items sensors.items) }
{
    let mut machine = Machine::new(alloc, p, denied)?;
    make_room(&mut machine, room)?;
    machine.sense(sensors);
    Ok(machine)
}

/// Makes room for a run that stays within bounds, where there are some.
fn make_room(machine: &mut Machine<'_>, room: Option<Bounds>) -> Result<(), AllocError>
    ensures { resting_of machine.new ≡ resting_of machine.old }
{
    match room {
        Some(bounds) => machine.reserve_for(&bounds),
        None => Ok(()),
    }
}

/// Runs a machine that has run nothing yet.
fn run_on<I: Source, O: Sink>(
    machine: &mut Machine<'_>,
    budget: &Budget,
    input: &mut I,
    out: &mut O,
) -> Result<FinishedRun, RunFault>
    requires fresh { resting_of machine.old ≡ new_machine (resting_of machine.old).program (denied_requests budget.now.denied) (resting_of machine.old).state.sensors }
    requires turns { budget.now.turns ≤ 10 ^ 18 }
    ensures run { IfOk result (λ done. ForEachInput (I.left input.old) (I.left input.new) (λ bytes. IsRun done (O.taken out.old) (O.taken out.new) (run_from (resting_of machine.old) budget.now bytes))) }
    ensures given_up { OnErr result (GivenUp (resting_of machine.old).program budget.now (resting_of machine.old).state.sensors (I.left input.old) (I.left input.new) (O.taken out.old) (O.taken out.new)) }
    ensures read { IsErrOf result RunFault.Read → Rose (I.faults input.old) (I.faults input.new) }
    ensures write { IsErrOf result RunFault.Write → Rose (O.faults out.old) (O.faults out.new) }
    ensures source { I.faults input.old ≤ I.faults input.new }
    ensures sink { O.faults out.old ≤ O.faults out.new }
{
    match machine.run_main(input, out, budget.prefix) {
        Ok(first) => match make_turns(machine, first, budget, input, out) {
            Ok(last) => Ok(finished(machine, last)),
            Err(fault) => Err(fault),
        },
        Err(fault) => Err(fault),
    }
}

/// The run of a machine whose last call was answered so.
fn finished(machine: &Machine<'_>, last: Ended) -> FinishedRun
    ensures { result ≡ record { outcome = outcome_after last (resting_of machine.now).turns; calls = (resting_of machine.now).state.calls; bytes = (resting_of machine.now).state.bytes } }
{
    FinishedRun {
        outcome: outcome_after(last, machine.turns()),
        calls: machine.calls(),
        bytes: machine.bytes(),
    }
}

/// The outcome of a run whose last call of the machine was answered so, after `made` turns.
fn outcome_after(last: Ended, made: u64) -> RunOutcome
    ensures { result ≡ outcome_after last made }
{
    match last {
        Ended::AtLoop => RunOutcome::Turns(made),
        Ended::TurnDone => RunOutcome::Turns(made),
        Ended::Returned(value) => RunOutcome::Returned(value),
        Ended::AssertionFailed(span) => RunOutcome::AssertionFailed(span),
        Ended::Undefined(stop, span) => RunOutcome::Undefined(stop, span),
        Ended::StepsSpent => RunOutcome::StepsSpent,
    }
}
