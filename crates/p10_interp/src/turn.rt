//! One turn of the task loop of `main`.

ghost use Rattle.std.specs.Prelude.{◌≡◌, ◌≤◌, ◌∷◌, ℕ, [], IfOk, IfErr, IsErrOf, Some, is_some, option_map, slice_get, true};
ghost use Rattle.p10_world.specs.Faults.{Rose};
ghost use Rattle.p10_core.specs.Views.{plain_program, plain_types, plain_statement, plain_value};
ghost use Rattle.p10_core.specs.WholePrograms.{AreWholeStructures};
ghost use Rattle.p10_meaning.specs.States.{State};
ghost use Rattle.p10_meaning.specs.Statements.{Frame};
ghost use Rattle.p10_interp.specs.Stages.{turn_by};
ghost use Rattle.p10_interp.specs.private.Views.{flow_of};
ghost use Rattle.p10_interp.specs.private.Serving.{Yields};
ghost use Rattle.p10_interp.specs.private.Parts.{stage_of};
ghost use Rattle.p10_interp.specs.private.Placing.{IsAnswer};

use crate::broken::Broken;
use crate::ended::Ended;
use crate::engine::Engine;
use crate::main_function::main_of;
use crate::returning::returned_with;
use crate::scalars::is_true;
use crate::standing::stand_in;
use crate::trading::put_on;
use crate::work::{Flow, StatementStep, ValueStep, Work};
use p10_core::{Program, Stmt, StmtForm, Value};
use p10_world::{Sink, Source};

impl<'p> Engine<'p> {
    ghost use Rattle.p10_meaning.specs.States.{and_then};
    ghost use Rattle.p10_meaning.specs.Statements.{normal};
    ghost use Rattle.p10_meaning.specs.Runs.{task_in};
    ghost use Rattle.p10_interp.specs.Stages.{turn_stage, task_of_main};
    ghost use Rattle.p10_interp.specs.private.Tasks.{evaluate_value};
    ghost use Rattle.p10_interp.specs.private.Operations.{first_value, below};
    ghost use Rattle.p10_interp.specs.private.Views.{tasks_in};
    ghost use Rattle.p10_interp.specs.private.OpenCalls.{calls_in};
    ghost use Rattle.p10_interp.specs.private.Machines.{rig_of};
    ghost use Rattle.p10_interp.specs.private.Resuming.{proceed};
    ghost use Rattle.p10_interp.specs.private.Serving.{moment_of, Comes};
    ghost use Rattle.p10_interp.specs.private.Parts.{frame_in, after_turn, after_test, body_stage, tested_stage, part_of_turn};

    /// Runs a turn of a loop, which is the task loop of `main`.
    pub fn run_loop<I: Source, O: Sink>(
        &mut self,
        p: &'p Program<'p>,
        item: &'p Stmt,
        input: &mut I,
        out: &mut O,
    ) -> Result<Ended, Broken>
        requires structures { AreWholeStructures (plain_types p.now.types) }
        requires tasks { tasks_in self.old.stacks.tasks ≡ [] }
        requires operands { self.old.stacks.operands ≡ [] }
        requires task { task_of_main (slice_get (plain_program p.now).functions (plain_program p.now).main) (plain_program p.now).task ≡ task_in (Some (plain_statement item.now)) }
        requires there { is_some (task_in (Some (plain_statement item.now))) ≡ true }
        ensures comes { (n : ℕ) → self.old.outside.left ≤ n → Comes (turn_stage (plain_program p.now) n (frame_in (calls_in self.old.stacks.calls))) (moment_of self.old (I.left input.old) (O.taken out.old)) result (λ ended. stage_of ended (frame_in (calls_in self.new.stacks.calls))) (moment_of self.new (I.left input.new) (O.taken out.new)) }
        ensures answer { IfOk result (IsAnswer Ended.TurnDone) }
        ensures read { IsErrOf result Broken.Read → Rose (I.faults input.old) (I.faults input.new) }
        ensures write { IsErrOf result Broken.Write → Rose (O.faults out.old) (O.faults out.new) }
        ensures source { I.faults input.old ≤ I.faults input.new }
        ensures sink { O.faults out.old ≤ O.faults out.new }
    {
        match main_of(p) {
            Some(function) => match stand_in(function, &mut self.stacks.calls) {
                Ok(()) => self.run_in(p, item, input, out),
                Err(broken) => Err(broken),
            },
            None => Err(Broken::Memory),
        }
    }

    /// Runs a turn of a loop in the innermost call.
    fn run_in<I: Source, O: Sink>(
        &mut self,
        p: &'p Program<'p>,
        item: &'p Stmt,
        input: &mut I,
        out: &mut O,
    ) -> Result<Ended, Broken>
        requires structures { AreWholeStructures (plain_types p.now.types) }
        requires tasks { tasks_in self.old.stacks.tasks ≡ [] }
        requires operands { self.old.stacks.operands ≡ [] }
        ensures comes { (n : ℕ) → self.old.outside.left ≤ n → Comes (part_of_turn (plain_program p.now) n (task_in (Some (plain_statement item.now))) (calls_in self.old.stacks.calls)) (moment_of self.old (I.left input.old) (O.taken out.old)) result (λ ended. stage_of ended (frame_in (calls_in self.new.stacks.calls))) (moment_of self.new (I.left input.new) (O.taken out.new)) }
        ensures answer { IfOk result (IsAnswer Ended.TurnDone) }
        ensures read { IsErrOf result Broken.Read → Rose (I.faults input.old) (I.faults input.new) }
        ensures write { IsErrOf result Broken.Write → Rose (O.faults out.old) (O.faults out.new) }
        ensures source { I.faults input.old ≤ I.faults input.new }
        ensures sink { O.faults out.old ≤ O.faults out.new }
    {
        match &item.form {
            StmtForm::Loop(_, _, tested, _, body) => self.run_with(p, tested, body, input, out),
            _ => Err(Broken::Memory),
        }
    }

    /// Runs a turn of a loop with these parts in the innermost call.
    fn run_with<I: Source, O: Sink>(
        &mut self,
        p: &'p Program<'p>,
        tested: &'p Option<Value>,
        body: &'p Stmt,
        input: &mut I,
        out: &mut O,
    ) -> Result<Ended, Broken>
        requires structures { AreWholeStructures (plain_types p.now.types) }
        requires tasks { tasks_in self.old.stacks.tasks ≡ [] }
        requires operands { self.old.stacks.operands ≡ [] }
        ensures comes { (n : ℕ) → self.old.outside.left ≤ n → Comes (part_of_turn (plain_program p.now) n (Some (record { tested = option_map plain_value tested.now; body = plain_statement body.now })) (calls_in self.old.stacks.calls)) (moment_of self.old (I.left input.old) (O.taken out.old)) result (λ ended. stage_of ended (frame_in (calls_in self.new.stacks.calls))) (moment_of self.new (I.left input.new) (O.taken out.new)) }
        ensures answer { IfOk result (IsAnswer Ended.TurnDone) }
        ensures read { IsErrOf result Broken.Read → Rose (I.faults input.old) (I.faults input.new) }
        ensures write { IsErrOf result Broken.Write → Rose (O.faults out.old) (O.faults out.new) }
        ensures source { I.faults input.old ≤ I.faults input.new }
        ensures sink { O.faults out.old ≤ O.faults out.new }
    {
        match tested {
            Some(value) => self.run_test(p, value, body, input, out),
            None => self.run_body(p, body, input, out),
        }
    }

    /// Runs a turn, its test first.
    fn run_test<I: Source, O: Sink>(
        &mut self,
        p: &'p Program<'p>,
        test: &'p Value,
        body: &'p Stmt,
        input: &mut I,
        out: &mut O,
    ) -> Result<Ended, Broken>
        requires structures { AreWholeStructures (plain_types p.now.types) }
        requires tasks { tasks_in self.old.stacks.tasks ≡ [] }
        ensures comes { (n : ℕ) → self.old.outside.left ≤ n → Comes (λ w. and_then (proceed (plain_program p.now) n (record { flow = normal; tasks = evaluate_value (plain_value test.now) ∷ []; operands = self.old.stacks.operands; calls = calls_in self.old.stacks.calls }) w) (after_test (plain_program p.now) n (plain_statement body.now))) (moment_of self.old (I.left input.old) (O.taken out.old)) result (λ ended. stage_of ended (frame_in (calls_in self.new.stacks.calls))) (moment_of self.new (I.left input.new) (O.taken out.new)) }
        ensures answer { IfOk result (IsAnswer Ended.TurnDone) }
        ensures read { IsErrOf result Broken.Read → Rose (I.faults input.old) (I.faults input.new) }
        ensures write { IsErrOf result Broken.Write → Rose (O.faults out.old) (O.faults out.new) }
        ensures source { I.faults input.old ≤ I.faults input.new }
        ensures sink { O.faults out.old ≤ O.faults out.new }
    {
        match put_on(Work::Value(ValueStep::Evaluate, test), &mut self.stacks) {
            Ok(()) => self.work_to_test(p, body, input, out),
            Err(broken) => Err(broken),
        }
    }

    /// Does the work of the test, and runs the body if it is true.
    fn work_to_test<I: Source, O: Sink>(
        &mut self,
        p: &'p Program<'p>,
        body: &'p Stmt,
        input: &mut I,
        out: &mut O,
    ) -> Result<Ended, Broken>
        requires structures { AreWholeStructures (plain_types p.now.types) }
        ensures comes { (n : ℕ) → self.old.outside.left ≤ n → Comes (λ w. and_then (proceed (plain_program p.now) n (rig_of normal self.old.stacks) w) (after_test (plain_program p.now) n (plain_statement body.now))) (moment_of self.old (I.left input.old) (O.taken out.old)) result (λ ended. stage_of ended (frame_in (calls_in self.new.stacks.calls))) (moment_of self.new (I.left input.new) (O.taken out.new)) }
        ensures answer { IfOk result (IsAnswer Ended.TurnDone) }
        ensures read { IsErrOf result Broken.Read → Rose (I.faults input.old) (I.faults input.new) }
        ensures write { IsErrOf result Broken.Write → Rose (O.faults out.old) (O.faults out.new) }
        ensures source { I.faults input.old ≤ I.faults input.new }
        ensures sink { O.faults out.old ≤ O.faults out.new }
    {
        match self.work_off(p, input, out) {
            Ok(_) => self.run_tested(p, body, input, out),
            Err(broken) => Err(broken),
        }
    }

    /// Runs the body if the value on top is true; else the loop is left.
    fn run_tested<I: Source, O: Sink>(
        &mut self,
        p: &'p Program<'p>,
        body: &'p Stmt,
        input: &mut I,
        out: &mut O,
    ) -> Result<Ended, Broken>
        requires structures { AreWholeStructures (plain_types p.now.types) }
        ensures comes { (n : ℕ) → self.old.outside.left ≤ n → Comes (tested_stage (plain_program p.now) n (plain_statement body.now) (first_value self.old.stacks.operands) (below self.old.stacks.operands) (calls_in self.old.stacks.calls)) (moment_of self.old (I.left input.old) (O.taken out.old)) result (λ ended. stage_of ended (frame_in (calls_in self.new.stacks.calls))) (moment_of self.new (I.left input.new) (O.taken out.new)) }
        ensures answer { IfOk result (IsAnswer Ended.TurnDone) }
        ensures read { IsErrOf result Broken.Read → Rose (I.faults input.old) (I.faults input.new) }
        ensures write { IsErrOf result Broken.Write → Rose (O.faults out.old) (O.faults out.new) }
        ensures source { I.faults input.old ≤ I.faults input.new }
        ensures sink { O.faults out.old ≤ O.faults out.new }
    {
        self.stacks.tasks.clear();
        match self.stacks.operands.pop_value() {
            Some(x) => {
                if is_true(x) {
                    self.run_body(p, body, input, out)
                } else {
                    Ok(Ended::Returned(0))
                }
            }
            None => Err(Broken::Memory),
        }
    }

    /// Runs the body of the loop.
    fn run_body<I: Source, O: Sink>(
        &mut self,
        p: &'p Program<'p>,
        body: &'p Stmt,
        input: &mut I,
        out: &mut O,
    ) -> Result<Ended, Broken>
        requires structures { AreWholeStructures (plain_types p.now.types) }
        requires tasks { tasks_in self.old.stacks.tasks ≡ [] }
        ensures comes { (n : ℕ) → self.old.outside.left ≤ n → Comes (body_stage (plain_program p.now) n (plain_statement body.now) self.old.stacks.operands (calls_in self.old.stacks.calls)) (moment_of self.old (I.left input.old) (O.taken out.old)) result (λ ended. stage_of ended (frame_in (calls_in self.new.stacks.calls))) (moment_of self.new (I.left input.new) (O.taken out.new)) }
        ensures answer { IfOk result (IsAnswer Ended.TurnDone) }
        ensures read { IsErrOf result Broken.Read → Rose (I.faults input.old) (I.faults input.new) }
        ensures write { IsErrOf result Broken.Write → Rose (O.faults out.old) (O.faults out.new) }
        ensures source { I.faults input.old ≤ I.faults input.new }
        ensures sink { O.faults out.old ≤ O.faults out.new }
    {
        match put_on(
            Work::Statement(StatementStep::Execute, body),
            &mut self.stacks,
        ) {
            Ok(()) => self.work_to_end(p, input, out),
            Err(broken) => Err(broken),
        }
    }

    /// Does the work of the body, and ends the turn.
    fn work_to_end<I: Source, O: Sink>(
        &mut self,
        p: &'p Program<'p>,
        input: &mut I,
        out: &mut O,
    ) -> Result<Ended, Broken>
        requires structures { AreWholeStructures (plain_types p.now.types) }
        ensures comes { (n : ℕ) → self.old.outside.left ≤ n → Comes (λ w. and_then (proceed (plain_program p.now) n (rig_of normal self.old.stacks) w) after_turn) (moment_of self.old (I.left input.old) (O.taken out.old)) result (λ ended. stage_of ended (frame_in (calls_in self.new.stacks.calls))) (moment_of self.new (I.left input.new) (O.taken out.new)) }
        ensures answer { IfOk result (IsAnswer Ended.TurnDone) }
        ensures read { IsErrOf result Broken.Read → Rose (I.faults input.old) (I.faults input.new) }
        ensures write { IsErrOf result Broken.Write → Rose (O.faults out.old) (O.faults out.new) }
        ensures source { I.faults input.old ≤ I.faults input.new }
        ensures sink { O.faults out.old ≤ O.faults out.new }
    {
        match self.work_off(p, input, out) {
            Ok(flow) => end_turn(flow),
            Err(broken) => Err(broken),
        }
    }
}

/// A turn ends: another may come, or `main` returns.
fn end_turn(flow: Flow) -> Result<Ended, Broken>
    ensures yields { (frame : Frame) (w : State) → Yields (turn_by (flow_of flow) frame w) result (λ ended. stage_of ended frame) w }
    ensures answer { IfOk result (IsAnswer Ended.TurnDone) }
    ensures memory { IfErr result (λ e. e ≡ Broken.Memory) }
{
    match flow {
        Flow::Normal => Ok(Ended::TurnDone),
        Flow::Continued => Ok(Ended::TurnDone),
        Flow::Broken => Ok(Ended::Returned(0)),
        Flow::Returned(given) => returned_with(given),
    }
}
