//! The moving parts of a machine, with the source that they take input from and the sink that they put output into.

ghost use Rattle.std.specs.Prelude.{◌≡◌, ◌≢◌, ◌≤◌, ℕ, List, [], Option, true, false, OnOk, IfOk, IfErr, IsErrOf};
ghost use Rattle.p10_world.specs.Faults.{Rose};
ghost use Rattle.p10_core.specs.Typed.{PlainProgram};
ghost use Rattle.p10_core.specs.Views.{plain_program, plain_types};
ghost use Rattle.p10_core.specs.WholePrograms.{AreWholeStructures};

use crate::broken::Broken;
use crate::holding::{is_full, is_starved};
use crate::outside::Outside;
use crate::running::work_on;
use crate::stacks::Stacks;
use crate::trading::{broken_by, give_end_in, put_waiting, take_piece};
use crate::work::{Flow, Pause};
use p10_core::Program;
use p10_world::{Sink, Source};

/// The stacks of a machine, what its run holds besides, and whether a source has ended.
#[derive(Drop)]
pub struct Engine<'p> {
    pub stacks: Stacks<'p>,
    pub outside: Outside,
    pub ended: bool,
}

impl<'p> Engine<'p> {
    ghost use Rattle.p10_interp.specs.private.Tasks.{Rig};
    ghost use Rattle.p10_interp.specs.private.Views.{flow_of, tasks_in};
    ghost use Rattle.p10_interp.specs.private.Weights.{weights};
    ghost use Rattle.p10_interp.specs.private.Machines.{rig_of};
    ghost use Rattle.p10_interp.specs.private.Resuming.{proceed};
    ghost use Rattle.p10_interp.specs.private.Arriving.{paused_at, Falls, IsHeldBelow};
    ghost use Rattle.p10_interp.specs.private.Serving.{moment_of, Comes};

    /// Does all the work on the stacks; the source is asked and the sink is given output on the way.
    pub fn work_off<I: Source, O: Sink>(
        &mut self,
        p: &'p Program<'p>,
        input: &mut I,
        out: &mut O,
    ) -> Result<Flow, Broken>
        requires structures { AreWholeStructures (plain_types p.now.types) }
        ensures comes { (n : ℕ) → self.old.outside.left ≤ n → Comes (proceed (plain_program p.now) n (rig_of (flow_of Flow.Normal) self.old.stacks)) (moment_of self.old (I.left input.old) (O.taken out.old)) result (λ flow. paused_at (plain_program p.now) n self.new.stacks (Pause.Over flow)) (moment_of self.new (I.left input.new) (O.taken out.new)) }
        ensures left { OnOk result (self.new.outside.left ≤ self.old.outside.left) }
        ensures read { IsErrOf result Broken.Read → Rose (I.faults input.old) (I.faults input.new) }
        ensures write { IsErrOf result Broken.Write → Rose (O.faults out.old) (O.faults out.new) }
        ensures source { I.faults input.old ≤ I.faults input.new }
        ensures sink { O.faults out.old ≤ O.faults out.new }
    {
        let mut flow = Flow::Normal;
        'steps: loop {
            match self.take_step(p, flow, input, out) {
                Ok(pause) => match pause {
                    Pause::Over(last) => return Ok(last),
                    Pause::Held(next) => flow = next,
                },
                Err(broken) => return Err(broken),
            }
        }
    }

    /// Works until a step was taken, or all work is done.
    fn take_step<I: Source, O: Sink>(
        &mut self,
        p: &'p Program<'p>,
        flow: Flow,
        input: &mut I,
        out: &mut O,
    ) -> Result<Pause, Broken>
        requires structures { AreWholeStructures (plain_types p.now.types) }
        ensures comes { (n : ℕ) → self.old.outside.left ≤ n → Comes (proceed (plain_program p.now) n (rig_of (flow_of flow) self.old.stacks)) (moment_of self.old (I.left input.old) (O.taken out.old)) result (paused_at (plain_program p.now) n self.new.stacks) (moment_of self.new (I.left input.new) (O.taken out.new)) }
        ensures falls { IfOk result (λ pause. IsHeldBelow pause self.old.outside.left self.new.outside.left) }
        ensures read { IsErrOf result Broken.Read → Rose (I.faults input.old) (I.faults input.new) }
        ensures write { IsErrOf result Broken.Write → Rose (O.faults out.old) (O.faults out.new) }
        ensures source { I.faults input.old ≤ I.faults input.new }
        ensures sink { O.faults out.old ≤ O.faults out.new }
    {
        let left = self.outside.left;
        let mut flow = flow;
        'acts: loop {
            match self.act_and_serve(p, flow, input, out) {
                Ok(pause) => match pause {
                    Pause::Over(last) => return Ok(Pause::Over(last)),
                    Pause::Held(next) => {
                        if self.outside.left < left {
                            return Ok(Pause::Held(next));
                        }
                        flow = next;
                    }
                },
                Err(broken) => return Err(broken),
            }
        }
    }

    /// Acts until a pause, and does there what is needed of the outside.
    fn act_and_serve<I: Source, O: Sink>(
        &mut self,
        p: &'p Program<'p>,
        flow: Flow,
        input: &mut I,
        out: &mut O,
    ) -> Result<Pause, Broken>
        requires structures { AreWholeStructures (plain_types p.now.types) }
        ensures comes { (n : ℕ) → self.old.outside.left ≤ n → Comes (proceed (plain_program p.now) n (rig_of (flow_of flow) self.old.stacks)) (moment_of self.old (I.left input.old) (O.taken out.old)) result (paused_at (plain_program p.now) n self.new.stacks) (moment_of self.new (I.left input.new) (O.taken out.new)) }
        ensures falls { IfOk result (λ pause. Falls pause self.old.outside.left (weights (tasks_in self.old.stacks.tasks)) self.new.outside.left (weights (tasks_in self.new.stacks.tasks))) }
        ensures read { IsErrOf result Broken.Read → Rose (I.faults input.old) (I.faults input.new) }
        ensures write { IsErrOf result Broken.Write → Rose (O.faults out.old) (O.faults out.new) }
        ensures source { I.faults input.old ≤ I.faults input.new }
        ensures sink { O.faults out.old ≤ O.faults out.new }
    {
        match self.act(p, flow) {
            Ok(pause) => self.serve_at(pause, input, out),
            Err(broken) => Err(broken),
        }
    }

    /// Does at a pause what is needed of the outside.
    fn serve_at<I: Source, O: Sink>(
        &mut self,
        pause: Pause,
        input: &mut I,
        out: &mut O,
    ) -> Result<Pause, Broken>
        ensures comes { (p : PlainProgram) (n : ℕ) → self.old.outside.left ≤ n → Comes (paused_at p n self.old.stacks pause) (moment_of self.old (I.left input.old) (O.taken out.old)) result (paused_at p n self.new.stacks) (moment_of self.new (I.left input.new) (O.taken out.new)) }
        ensures same { IfOk result (λ pause_now. pause_now ≡ pause) }
        ensures left { self.new.outside.left ≡ self.old.outside.left }
        ensures work { OnOk result (weights (tasks_in self.new.stacks.tasks) ≤ weights (tasks_in self.old.stacks.tasks)) }
        ensures read { IsErrOf result Broken.Read → Rose (I.faults input.old) (I.faults input.new) }
        ensures write { IsErrOf result Broken.Write → Rose (O.faults out.old) (O.faults out.new) }
        ensures source { I.faults input.old ≤ I.faults input.new }
        ensures sink { O.faults out.old ≤ O.faults out.new }
    {
        match pause {
            Pause::Over(last) => Ok(Pause::Over(last)),
            Pause::Held(next) => match self.serve(next, input, out) {
                Ok(()) => Ok(Pause::Held(next)),
                Err(broken) => Err(broken),
            },
        }
    }

    /// Acts until a pause.
    fn act(&mut self, p: &'p Program<'p>, flow: Flow) -> Result<Pause, Broken>
        requires structures { AreWholeStructures (plain_types p.now.types) }
        ensures comes { (n : ℕ) (left taken : Option (List ℕ)) → self.old.outside.left ≤ n → Comes (proceed (plain_program p.now) n (rig_of (flow_of flow) self.old.stacks)) (moment_of self.old left taken) result (paused_at (plain_program p.now) n self.new.stacks) (moment_of self.new left taken) }
        ensures falls { IfOk result (λ pause. Falls pause self.old.outside.left (weights (tasks_in self.old.stacks.tasks)) self.new.outside.left (weights (tasks_in self.new.stacks.tasks))) }
        ensures quiet { IfErr result (λ e. e ≢ Broken.Read × e ≢ Broken.Write) }
    {
        match work_on(p, flow, &mut self.stacks, &mut self.outside) {
            Ok(pause) => Ok(pause),
            Err(halt) => Err(broken_by(halt)),
        }
    }

    /// Does what is needed of the outside before the next act.
    fn serve<I: Source, O: Sink>(
        &mut self,
        flow: Flow,
        input: &mut I,
        out: &mut O,
    ) -> Result<(), Broken>
        ensures comes { (p : PlainProgram) (n : ℕ) → self.old.outside.left ≤ n → Comes (proceed p n (rig_of (flow_of flow) self.old.stacks)) (moment_of self.old (I.left input.old) (O.taken out.old)) result (λ done. proceed p n (rig_of (flow_of flow) self.new.stacks)) (moment_of self.new (I.left input.new) (O.taken out.new)) }
        ensures left { self.new.outside.left ≡ self.old.outside.left }
        ensures work { OnOk result (weights (tasks_in self.new.stacks.tasks) ≤ weights (tasks_in self.old.stacks.tasks)) }
        ensures read { IsErrOf result Broken.Read → Rose (I.faults input.old) (I.faults input.new) }
        ensures write { IsErrOf result Broken.Write → Rose (O.faults out.old) (O.faults out.new) }
        ensures source { I.faults input.old ≤ I.faults input.new }
        ensures sink { O.faults out.old ≤ O.faults out.new }
    {
        match self.put_piece(out) {
            Ok(()) => self.feed(flow, input),
            Err(broken) => Err(broken),
        }
    }

    /// Puts a piece of output, if one waits.
    fn put_piece<O: Sink>(&mut self, out: &mut O) -> Result<(), Broken>
        ensures comes { (p : PlainProgram) (n : ℕ) (r : Rig) (left : Option (List ℕ)) → self.old.outside.left ≤ n → Comes (proceed p n r) (moment_of self.old left (O.taken out.old)) result (λ done. proceed p n r) (moment_of self.new left (O.taken out.new)) }
        ensures stacks { self.new.stacks ≡ self.old.stacks }
        ensures left { self.new.outside.left ≡ self.old.outside.left }
        ensures write { IfErr result (λ e. (e ≡ Broken.Write) × Rose (O.faults out.old) (O.faults out.new)) }
        ensures sink { O.faults out.old ≤ O.faults out.new }
    {
        if is_full(&self.outside) {
            put_waiting(&mut self.outside.waiting, out)
        } else {
            Ok(())
        }
    }

    /// Sees to the next act, if it takes a byte of input and none is pending: asks the source, or at its end does the act.
    fn feed<I: Source>(&mut self, flow: Flow, input: &mut I) -> Result<(), Broken>
        ensures comes { (p : PlainProgram) (n : ℕ) (taken : Option (List ℕ)) → self.old.outside.left ≤ n → Comes (proceed p n (rig_of (flow_of flow) self.old.stacks)) (moment_of self.old (I.left input.old) taken) result (λ done. proceed p n (rig_of (flow_of flow) self.new.stacks)) (moment_of self.new (I.left input.new) taken) }
        ensures left { self.new.outside.left ≡ self.old.outside.left }
        ensures work { OnOk result (weights (tasks_in self.new.stacks.tasks) ≤ weights (tasks_in self.old.stacks.tasks)) }
        ensures read { IsErrOf result Broken.Read → Rose (I.faults input.old) (I.faults input.new) }
        ensures write { ¬ (IsErrOf result Broken.Write) }
        ensures source { I.faults input.old ≤ I.faults input.new }
    {
        if is_starved(&self.stacks, &self.outside) {
            self.ask_and_read(flow, input)
        } else {
            Ok(())
        }
    }

    /// Asks the source for a piece, and where it has ended does the act that takes a byte.
    fn ask_and_read<I: Source>(&mut self, flow: Flow, input: &mut I) -> Result<(), Broken>
        ensures comes { (p : PlainProgram) (n : ℕ) (taken : Option (List ℕ)) → self.old.outside.left ≤ n → Comes (proceed p n (rig_of (flow_of flow) self.old.stacks)) (moment_of self.old (I.left input.old) taken) result (λ done. proceed p n (rig_of (flow_of flow) self.new.stacks)) (moment_of self.new (I.left input.new) taken) }
        ensures left { self.new.outside.left ≡ self.old.outside.left }
        ensures work { OnOk result (weights (tasks_in self.new.stacks.tasks) ≤ weights (tasks_in self.old.stacks.tasks)) }
        ensures read { IsErrOf result Broken.Read → Rose (I.faults input.old) (I.faults input.new) }
        ensures write { ¬ (IsErrOf result Broken.Write) }
        ensures source { I.faults input.old ≤ I.faults input.new }
    {
        match self.ask(input) {
            Ok(()) => self.read_end(flow),
            Err(broken) => Err(broken),
        }
    }

    /// Asks the source for a piece, where nothing is pending and it hasn't ended.
    fn ask<I: Source>(&mut self, input: &mut I) -> Result<(), Broken>
        ensures comes { (p : PlainProgram) (n : ℕ) (r : Rig) (taken : Option (List ℕ)) → self.old.outside.left ≤ n → Comes (proceed p n r) (moment_of self.old (I.left input.old) taken) result (λ done. proceed p n r) (moment_of self.new (I.left input.new) taken) }
        ensures stacks { self.new.stacks ≡ self.old.stacks }
        ensures left { self.new.outside.left ≡ self.old.outside.left }
        ensures read { IsErrOf result Broken.Read → Rose (I.faults input.old) (I.faults input.new) }
        ensures write { ¬ (IsErrOf result Broken.Write) }
        ensures source { I.faults input.old ≤ I.faults input.new }
        ensures noted { OnOk result (self.new.outside.pending ≡ [] → self.new.ended ≡ true) }
        ensures ended { self.old.ended ≡ true → input.new ≡ input.old }
    {
        if self.ended {
            Ok(())
        } else if self.outside.pending.is_empty() {
            self.ask_once(input)
        } else {
            Ok(())
        }
    }

    /// Asks the source, which hasn't ended, for a piece.
    fn ask_once<I: Source>(&mut self, input: &mut I) -> Result<(), Broken>
        requires ended { self.old.ended ≡ false }
        requires pending { self.old.outside.pending ≡ [] }
        ensures comes { (p : PlainProgram) (n : ℕ) (r : Rig) (taken : Option (List ℕ)) → self.old.outside.left ≤ n → Comes (proceed p n r) (moment_of self.old (I.left input.old) taken) result (λ done. proceed p n r) (moment_of self.new (I.left input.new) taken) }
        ensures noted { OnOk result (self.new.outside.pending ≡ [] → self.new.ended ≡ true) }
        ensures stacks { self.new.stacks ≡ self.old.stacks }
        ensures left { self.new.outside.left ≡ self.old.outside.left }
        ensures read { IsErrOf result Broken.Read → Rose (I.faults input.old) (I.faults input.new) }
        ensures write { ¬ (IsErrOf result Broken.Write) }
        ensures source { I.faults input.old ≤ I.faults input.new }
    {
        match take_piece(&mut self.outside.pending, input) {
            Ok(ended) => {
                self.ended = ended;
                Ok(())
            }
            Err(broken) => Err(broken),
        }
    }

    /// Where the source has ended and nothing is pending, an act that takes a byte of input gives -1 (C99 7.19.7.6).
    fn read_end(&mut self, flow: Flow) -> Result<(), Broken>
        ensures comes { (p : PlainProgram) (n : ℕ) (left taken : Option (List ℕ)) → self.old.outside.left ≤ n → Comes (proceed p n (rig_of (flow_of flow) self.old.stacks)) (moment_of self.old left taken) result (λ done. proceed p n (rig_of (flow_of flow) self.new.stacks)) (moment_of self.new left taken) }
        ensures left { self.new.outside.left ≡ self.old.outside.left }
        ensures work { OnOk result (weights (tasks_in self.new.stacks.tasks) ≤ weights (tasks_in self.old.stacks.tasks)) }
        ensures memory { IfErr result (λ e. e ≡ Broken.Memory) }
    {
        if self.ended {
            self.read_none(flow)
        } else {
            Ok(())
        }
    }

    /// The source has ended: where nothing is pending, an act that takes a byte gives -1.
    fn read_none(&mut self, flow: Flow) -> Result<(), Broken>
        requires ended { self.old.ended ≡ true }
        ensures comes { (p : PlainProgram) (n : ℕ) (left taken : Option (List ℕ)) → self.old.outside.left ≤ n → Comes (proceed p n (rig_of (flow_of flow) self.old.stacks)) (moment_of self.old left taken) result (λ done. proceed p n (rig_of (flow_of flow) self.new.stacks)) (moment_of self.new left taken) }
        ensures left { self.new.outside.left ≡ self.old.outside.left }
        ensures work { OnOk result (weights (tasks_in self.new.stacks.tasks) ≤ weights (tasks_in self.old.stacks.tasks)) }
        ensures memory { IfErr result (λ e. e ≡ Broken.Memory) }
    {
        if self.outside.pending.is_empty() {
            give_end_in(flow, &mut self.stacks)
        } else {
            Ok(())
        }
    }
}
