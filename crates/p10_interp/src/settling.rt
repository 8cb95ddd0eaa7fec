//! The end of a part of a run: what waits is put, and the answer is given.

ghost use Rattle.std.specs.Prelude.{◌≡◌, ◌≤◌, ◌⊎◌, ℕ, List, Option, IfOk, IfErr, IsErrOf};
ghost use Rattle.p10_world.specs.Faults.{Rose};
ghost use Rattle.p10_core.specs.Views.{plain_program, plain_types};
ghost use Rattle.p10_core.specs.WholePrograms.{AreWholeStructures};
ghost use Rattle.p10_meaning.specs.States.{State, Progress};
ghost use Rattle.p10_meaning.specs.Statements.{Frame};
ghost use Rattle.p10_interp.specs.Stages.{Stage};
ghost use Rattle.p10_interp.specs.private.Settling.{settled, answered_by};

use crate::broken::Broken;
use crate::ended::{Ended, RunFault};
use crate::engine::Engine;
use crate::trading::put_waiting;
use p10_core::Program;
use p10_world::{Sink, Source};

impl<'p> Engine<'p> {
    ghost use Rattle.p10_interp.specs.Stages.{first_stage, turn_stage};
    ghost use Rattle.p10_interp.specs.private.OpenCalls.{calls_in};
    ghost use Rattle.p10_interp.specs.private.Serving.{Moment, moment_of, Serves, Comes};
    ghost use Rattle.p10_interp.specs.private.Parts.{frame_in, stage_of};
    ghost use Rattle.p10_interp.specs.private.Placing.{IsAnswer};
    ghost use Rattle.p10_interp.specs.private.Settling.{Settles};

    /// Runs `main` up to its task loop, or all of it where it has none, and puts what waits.
    pub fn first<I: Source, O: Sink>(
        &mut self,
        p: &'p Program<'p>,
        input: &mut I,
        out: &mut O,
    ) -> Result<Ended, RunFault>
        requires structures { AreWholeStructures (plain_types p.now.types) }
        ensures settles { (n : ℕ) → self.old.outside.left ≤ n → Settles (first_stage (plain_program p.now) n) (moment_of self.old (I.left input.old) (O.taken out.old)) result (frame_in (calls_in self.new.stacks.calls)) (moment_of self.new (I.left input.new) (O.taken out.new)) }
        ensures answer { IfOk result (IsAnswer Ended.AtLoop) }
        ensures read { IsErrOf result RunFault.Read → Rose (I.faults input.old) (I.faults input.new) }
        ensures write { IsErrOf result RunFault.Write → Rose (O.faults out.old) (O.faults out.new) }
        ensures source { I.faults input.old ≤ I.faults input.new }
        ensures sink { O.faults out.old ≤ O.faults out.new }
    {
        let came = self.run_first(p, input, out);
        self.settle(came, out)
    }

    /// Runs one turn of the task loop, and puts what waits.
    pub fn turn<I: Source, O: Sink>(
        &mut self,
        p: &'p Program<'p>,
        input: &mut I,
        out: &mut O,
    ) -> Result<Ended, RunFault>
        requires structures { AreWholeStructures (plain_types p.now.types) }
        ensures settles { (n : ℕ) → self.old.outside.left ≤ n → Settles (turn_stage (plain_program p.now) n (frame_in (calls_in self.old.stacks.calls))) (moment_of self.old (I.left input.old) (O.taken out.old)) result (frame_in (calls_in self.new.stacks.calls)) (moment_of self.new (I.left input.new) (O.taken out.new)) }
        ensures answer { IfOk result (IsAnswer Ended.TurnDone) }
        ensures read { IsErrOf result RunFault.Read → Rose (I.faults input.old) (I.faults input.new) }
        ensures write { IsErrOf result RunFault.Write → Rose (O.faults out.old) (O.faults out.new) }
        ensures source { I.faults input.old ≤ I.faults input.new }
        ensures sink { O.faults out.old ≤ O.faults out.new }
    {
        let came = self.run_turn(p, input, out);
        self.settle(came, out)
    }

    /// Puts what waits after a part of a run, and gives the answer.
    fn settle<O: Sink>(
        &mut self,
        came: Result<Ended, Broken>,
        out: &mut O,
    ) -> Result<Ended, RunFault>
        ensures settles { (from : State → Progress Stage) (old : Moment) (left : Option (List ℕ)) (frame : Frame) → Comes from old came (λ ended. stage_of ended frame) (moment_of self.old left (O.taken out.old)) → Settles from old result frame (moment_of self.new left (O.taken out.new)) }
        ensures stacks { self.new.stacks ≡ self.old.stacks }
        ensures answer { (loop : Ended) → IfOk came (IsAnswer loop) → IfOk result (IsAnswer loop) }
        ensures read { IsErrOf result RunFault.Read → IsErrOf came Broken.Read }
        ensures write { IsErrOf result RunFault.Write → (IsErrOf came Broken.Write) ⊎ Rose (O.faults out.old) (O.faults out.new) }
        ensures sink { O.faults out.old ≤ O.faults out.new }
    {
        match settled(came) {
            Ok(ended) => self.put_last(ended, out),
            Err(fault) => Err(fault),
        }
    }

    /// Puts what waits before an answer.
    fn put_last<O: Sink>(&mut self, ended: Ended, out: &mut O) -> Result<Ended, RunFault>
        ensures settles { (from : State → Progress Stage) (old : Moment) (left : Option (List ℕ)) (frame : Frame) → Serves from old (stage_of ended frame) (moment_of self.old left (O.taken out.old)) → Settles from old result frame (moment_of self.new left (O.taken out.new)) }
        ensures stacks { self.new.stacks ≡ self.old.stacks }
        ensures answer { IfOk result (λ answer. answer ≡ ended) }
        ensures write { IfErr result (λ e. (e ≡ RunFault.Write) × Rose (O.faults out.old) (O.faults out.new)) }
        ensures sink { O.faults out.old ≤ O.faults out.new }
    {
        match put_waiting(&mut self.outside.waiting, out) {
            Ok(()) => Ok(ended),
            Err(_) => Err(RunFault::Write),
        }
    }
}

/// The answer of a call, where a part of a run came to this.
fn settled(came: Result<Ended, Broken>) -> Result<Ended, RunFault>
    ensures { result ≡ settled came }
{
    match came {
        Ok(ended) => Ok(ended),
        Err(broken) => answer_by(broken),
    }
}

/// The answer of a call, where a part of a run broke off.
fn answer_by(broken: Broken) -> Result<Ended, RunFault>
    ensures { result ≡ answered_by broken }
{
    match broken {
        Broken::Failed(span) => Ok(Ended::AssertionFailed(span)),
        Broken::Undefined(stop, span) => Ok(Ended::Undefined(stop, span)),
        Broken::Spent => Ok(Ended::StepsSpent),
        Broken::Read => Err(RunFault::Read),
        Broken::Write => Err(RunFault::Write),
        Broken::Memory => Err(RunFault::Memory),
    }
}
