//! The parts of a run: `main` up to its task loop, or all of it where it has none, and one turn of the loop.

ghost use Rattle.std.specs.Prelude.{◌≡◌, ◌≤◌, ℕ, [], List, true, OnOk, IfOk, IfErr, IsErrOf, is_some, slice_get};
ghost use Rattle.p10_world.specs.Faults.{Rose};
ghost use Rattle.p10_core.specs.Typed.{PlainProgram};
ghost use Rattle.p10_core.specs.Views.{plain_program, plain_types, plain_function};
ghost use Rattle.p10_core.specs.WholePrograms.{AreWholeStructures};

use crate::broken::Broken;
use crate::ended::Ended;
use crate::engine::Engine;
use crate::entering::open_frame;
use crate::main_function::{items_before, main_of, task_item};
use crate::returning::{returned, returned_with};
use crate::standing::clear;
use crate::trading::put_on;
use crate::work::{Flow, Work};
use p10_core::{Func, Program};
use p10_world::{Sink, Source};

impl<'p> Engine<'p> {
    ghost use Rattle.p10_meaning.specs.States.{step, and_then};
    ghost use Rattle.p10_meaning.specs.Statements.{normal};
    ghost use Rattle.p10_meaning.specs.Calling.{no_depth, call_at};
    ghost use Rattle.p10_interp.specs.Stages.{over_with, task_of_main, first_stage, turn_stage};
    ghost use Rattle.p10_interp.specs.private.Views.{flow_of, tasks_in};
    ghost use Rattle.p10_interp.specs.private.OpenCalls.{calls_in};
    ghost use Rattle.p10_interp.specs.private.Machines.{rig_of};
    ghost use Rattle.p10_interp.specs.private.Resuming.{proceed};
    ghost use Rattle.p10_interp.specs.private.Serving.{moment_of, state_at, Comes, Yields};
    ghost use Rattle.p10_interp.specs.private.Parts.{frame_in, after_main, after_items, entered_stage, stage_of};
    ghost use Rattle.p10_interp.specs.private.Placing.{IsAnswer};

    /// Runs `main` up to its task loop, or all of it where it has none.
    pub fn run_first<I: Source, O: Sink>(
        &mut self,
        p: &'p Program<'p>,
        input: &mut I,
        out: &mut O,
    ) -> Result<Ended, Broken>
        requires structures { AreWholeStructures (plain_types p.now.types) }
        ensures comes { (n : ℕ) → self.old.outside.left ≤ n → Comes (first_stage (plain_program p.now) n) (moment_of self.old (I.left input.old) (O.taken out.old)) result (λ ended. stage_of ended (frame_in (calls_in self.new.stacks.calls))) (moment_of self.new (I.left input.new) (O.taken out.new)) }
        ensures answer { IfOk result (IsAnswer Ended.AtLoop) }
        ensures read { IsErrOf result Broken.Read → Rose (I.faults input.old) (I.faults input.new) }
        ensures write { IsErrOf result Broken.Write → Rose (O.faults out.old) (O.faults out.new) }
        ensures source { I.faults input.old ≤ I.faults input.new }
        ensures sink { O.faults out.old ≤ O.faults out.new }
    {
        clear(&mut self.stacks);
        match task_item(p) {
            Some(_) => self.run_items(p, input, out),
            None => self.run_main(p, input, out),
        }
    }

    /// Runs one turn of the task loop. Where there is no loop, the run is over.
    pub fn run_turn<I: Source, O: Sink>(
        &mut self,
        p: &'p Program<'p>,
        input: &mut I,
        out: &mut O,
    ) -> Result<Ended, Broken>
        requires structures { AreWholeStructures (plain_types p.now.types) }
        ensures comes { (n : ℕ) → self.old.outside.left ≤ n → Comes (turn_stage (plain_program p.now) n (frame_in (calls_in self.old.stacks.calls))) (moment_of self.old (I.left input.old) (O.taken out.old)) result (λ ended. stage_of ended (frame_in (calls_in self.new.stacks.calls))) (moment_of self.new (I.left input.new) (O.taken out.new)) }
        ensures answer { IfOk result (IsAnswer Ended.TurnDone) }
        ensures read { IsErrOf result Broken.Read → Rose (I.faults input.old) (I.faults input.new) }
        ensures write { IsErrOf result Broken.Write → Rose (O.faults out.old) (O.faults out.new) }
        ensures source { I.faults input.old ≤ I.faults input.new }
        ensures sink { O.faults out.old ≤ O.faults out.new }
    {
        self.stacks.tasks.clear();
        self.stacks.operands.clear();
        match task_item(p) {
            Some(item) => self.run_loop(p, item, input, out),
            None => Ok(Ended::Returned(0)),
        }
    }

    /// Calls `main`.
    fn run_main<I: Source, O: Sink>(
        &mut self,
        p: &'p Program<'p>,
        input: &mut I,
        out: &mut O,
    ) -> Result<Ended, Broken>
        requires structures { AreWholeStructures (plain_types p.now.types) }
        requires tasks { tasks_in self.old.stacks.tasks ≡ [] }
        requires operands { self.old.stacks.operands ≡ [] }
        requires calls { calls_in self.old.stacks.calls ≡ [] }
        ensures comes { (n : ℕ) → self.old.outside.left ≤ n → Comes (λ w. over_with (call_at n (plain_program p.now) no_depth (plain_program p.now).main [] w)) (moment_of self.old (I.left input.old) (O.taken out.old)) result (λ ended. stage_of ended (frame_in (calls_in self.new.stacks.calls))) (moment_of self.new (I.left input.new) (O.taken out.new)) }
        ensures answer { IfOk result (IsAnswer Ended.AtLoop) }
        ensures read { IsErrOf result Broken.Read → Rose (I.faults input.old) (I.faults input.new) }
        ensures write { IsErrOf result Broken.Write → Rose (O.faults out.old) (O.faults out.new) }
        ensures source { I.faults input.old ≤ I.faults input.new }
        ensures sink { O.faults out.old ≤ O.faults out.new }
    {
        match put_on(Work::CallFunction(p.main, 0), &mut self.stacks) {
            Ok(()) => self.work_to_return(p, input, out),
            Err(broken) => Err(broken),
        }
    }

    /// Does the work of the call of `main`, and ends with what it gives.
    fn work_to_return<I: Source, O: Sink>(
        &mut self,
        p: &'p Program<'p>,
        input: &mut I,
        out: &mut O,
    ) -> Result<Ended, Broken>
        requires structures { AreWholeStructures (plain_types p.now.types) }
        ensures comes { (n : ℕ) → self.old.outside.left ≤ n → Comes (λ w. and_then (proceed (plain_program p.now) n (rig_of normal self.old.stacks) w) after_main) (moment_of self.old (I.left input.old) (O.taken out.old)) result (λ ended. stage_of ended (frame_in (calls_in self.new.stacks.calls))) (moment_of self.new (I.left input.new) (O.taken out.new)) }
        ensures answer { IfOk result (IsAnswer Ended.AtLoop) }
        ensures read { IsErrOf result Broken.Read → Rose (I.faults input.old) (I.faults input.new) }
        ensures write { IsErrOf result Broken.Write → Rose (O.faults out.old) (O.faults out.new) }
        ensures source { I.faults input.old ≤ I.faults input.new }
        ensures sink { O.faults out.old ≤ O.faults out.new }
    {
        match self.work_off(p, input, out) {
            Ok(_) => returned(&mut self.stacks.operands),
            Err(broken) => Err(broken),
        }
    }

    /// Enters `main`, and runs its items before the task loop.
    fn run_items<I: Source, O: Sink>(
        &mut self,
        p: &'p Program<'p>,
        input: &mut I,
        out: &mut O,
    ) -> Result<Ended, Broken>
        requires structures { AreWholeStructures (plain_types p.now.types) }
        requires tasks { tasks_in self.old.stacks.tasks ≡ [] }
        requires operands { self.old.stacks.operands ≡ [] }
        requires calls { calls_in self.old.stacks.calls ≡ [] }
        requires arguments { self.old.stacks.arguments ≡ [] }
        requires task { is_some (task_of_main (slice_get (plain_program p.now).functions (plain_program p.now).main) (plain_program p.now).task) ≡ true }
        ensures comes { (n : ℕ) → self.old.outside.left ≤ n → Comes (first_stage (plain_program p.now) n) (moment_of self.old (I.left input.old) (O.taken out.old)) result (λ ended. stage_of ended (frame_in (calls_in self.new.stacks.calls))) (moment_of self.new (I.left input.new) (O.taken out.new)) }
        ensures answer { IfOk result (IsAnswer Ended.AtLoop) }
        ensures read { IsErrOf result Broken.Read → Rose (I.faults input.old) (I.faults input.new) }
        ensures write { IsErrOf result Broken.Write → Rose (O.faults out.old) (O.faults out.new) }
        ensures source { I.faults input.old ≤ I.faults input.new }
        ensures sink { O.faults out.old ≤ O.faults out.new }
    {
        match main_of(p) {
            Some(function) => match p.task {
                Some(place) => self.run_before(p, (function, place), input, out),
                None => Err(Broken::Memory),
            },
            None => Err(Broken::Memory),
        }
    }

    /// Takes the step of entry, enters a function, and runs its items before a place.
    fn run_before<I: Source, O: Sink>(
        &mut self,
        p: &'p Program<'p>,
        main: (&'p Func<'p>, u32),
        input: &mut I,
        out: &mut O,
    ) -> Result<Ended, Broken>
        requires structures { AreWholeStructures (plain_types p.now.types) }
        requires tasks { tasks_in self.old.stacks.tasks ≡ [] }
        requires operands { self.old.stacks.operands ≡ [] }
        requires calls { calls_in self.old.stacks.calls ≡ [] }
        requires arguments { self.old.stacks.arguments ≡ [] }
        ensures comes { (n : ℕ) → self.old.outside.left ≤ n → Comes (λ w. step w (entered_stage (plain_program p.now) n (plain_function main.entry.0.now) main.entry.1)) (moment_of self.old (I.left input.old) (O.taken out.old)) result (λ ended. stage_of ended (frame_in (calls_in self.new.stacks.calls))) (moment_of self.new (I.left input.new) (O.taken out.new)) }
        ensures answer { IfOk result (IsAnswer Ended.AtLoop) }
        ensures read { IsErrOf result Broken.Read → Rose (I.faults input.old) (I.faults input.new) }
        ensures write { IsErrOf result Broken.Write → Rose (O.faults out.old) (O.faults out.new) }
        ensures source { I.faults input.old ≤ I.faults input.new }
        ensures sink { O.faults out.old ≤ O.faults out.new }
    {
        if self.outside.left == 0 {
            Err(Broken::Spent)
        } else {
            self.outside.left -= 1;
            self.run_entered(p, main, input, out)
        }
    }

    /// Enters a function after the step of entry, and runs its items before a place.
    fn run_entered<I: Source, O: Sink>(
        &mut self,
        p: &'p Program<'p>,
        main: (&'p Func<'p>, u32),
        input: &mut I,
        out: &mut O,
    ) -> Result<Ended, Broken>
        requires structures { AreWholeStructures (plain_types p.now.types) }
        requires tasks { tasks_in self.old.stacks.tasks ≡ [] }
        requires operands { self.old.stacks.operands ≡ [] }
        requires calls { calls_in self.old.stacks.calls ≡ [] }
        requires arguments { self.old.stacks.arguments ≡ [] }
        ensures comes { (n : ℕ) → self.old.outside.left ≤ n → Comes (entered_stage (plain_program p.now) n (plain_function main.entry.0.now) main.entry.1) (moment_of self.old (I.left input.old) (O.taken out.old)) result (λ ended. stage_of ended (frame_in (calls_in self.new.stacks.calls))) (moment_of self.new (I.left input.new) (O.taken out.new)) }
        ensures answer { IfOk result (IsAnswer Ended.AtLoop) }
        ensures read { IsErrOf result Broken.Read → Rose (I.faults input.old) (I.faults input.new) }
        ensures write { IsErrOf result Broken.Write → Rose (O.faults out.old) (O.faults out.new) }
        ensures source { I.faults input.old ≤ I.faults input.new }
        ensures sink { O.faults out.old ≤ O.faults out.new }
    {
        let (function, place) = main;
        match self.enter_main(function, place) {
            Ok(()) => self.work_to_loop(p, input, out),
            Err(broken) => Err(broken),
        }
    }

    /// Opens the call of `main`, whose items before a place come next.
    fn enter_main(&mut self, function: &'p Func<'p>, place: u32) -> Result<(), Broken>
        requires tasks { tasks_in self.old.stacks.tasks ≡ [] }
        requires operands { self.old.stacks.operands ≡ [] }
        requires calls { calls_in self.old.stacks.calls ≡ [] }
        requires arguments { self.old.stacks.arguments ≡ [] }
        ensures ok { OnOk result ((p : PlainProgram) (n : ℕ) (rest earlier : List ℕ) → entered_stage p n (plain_function function.now) place (state_at self.old.outside rest earlier) ≡ and_then (proceed p n (rig_of normal self.new.stacks) (state_at self.new.outside rest earlier)) after_items) }
        ensures left { OnOk result (self.new.outside.left ≡ self.old.outside.left) }
        ensures err { IfErr result (λ e. e ≡ Broken.Memory) }
        ensures ended { self.new.ended ≡ self.old.ended }
    {
        let items = items_before(function.body.as_slice(), place);
        let stacks = &mut self.stacks;
        match open_frame(
            function,
            &mut stacks.arguments,
            &mut stacks.calls,
            &mut self.outside,
        ) {
            Ok(()) => put_on(Work::ExecuteStatements(items), stacks),
            Err(_) => Err(Broken::Memory),
        }
    }

    /// Does the work of the items before the task loop, and takes the step of its statement.
    fn work_to_loop<I: Source, O: Sink>(
        &mut self,
        p: &'p Program<'p>,
        input: &mut I,
        out: &mut O,
    ) -> Result<Ended, Broken>
        requires structures { AreWholeStructures (plain_types p.now.types) }
        ensures comes { (n : ℕ) → self.old.outside.left ≤ n → Comes (λ w. and_then (proceed (plain_program p.now) n (rig_of normal self.old.stacks) w) after_items) (moment_of self.old (I.left input.old) (O.taken out.old)) result (λ ended. stage_of ended (frame_in (calls_in self.new.stacks.calls))) (moment_of self.new (I.left input.new) (O.taken out.new)) }
        ensures answer { IfOk result (IsAnswer Ended.AtLoop) }
        ensures read { IsErrOf result Broken.Read → Rose (I.faults input.old) (I.faults input.new) }
        ensures write { IsErrOf result Broken.Write → Rose (O.faults out.old) (O.faults out.new) }
        ensures source { I.faults input.old ≤ I.faults input.new }
        ensures sink { O.faults out.old ≤ O.faults out.new }
    {
        match self.work_off(p, input, out) {
            Ok(flow) => self.reach_loop(flow),
            Err(broken) => Err(broken),
        }
    }

    /// The task loop is reached, or `main` has returned.
    fn reach_loop(&mut self, flow: Flow) -> Result<Ended, Broken>
        ensures yields { (rest earlier : List ℕ) → Yields (after_items (record { flow = flow_of flow; operands = self.old.stacks.operands; calls = calls_in self.old.stacks.calls }) (state_at self.old.outside rest earlier)) result (λ ended. stage_of ended (frame_in (calls_in self.new.stacks.calls))) (state_at self.new.outside rest earlier) }
        ensures ended { self.new.ended ≡ self.old.ended }
        ensures answer { IfOk result (IsAnswer Ended.AtLoop) }
        ensures read { ¬ (IsErrOf result Broken.Read) }
        ensures write { ¬ (IsErrOf result Broken.Write) }
    {
        match flow {
            Flow::Normal => {
                if self.outside.left == 0 {
                    return Err(Broken::Spent);
                }
                self.outside.left -= 1;
                Ok(Ended::AtLoop)
            }
            Flow::Returned(given) => returned_with(given),
            Flow::Broken => Ok(Ended::Returned(0)),
            Flow::Continued => Ok(Ended::Returned(0)),
        }
    }
}
