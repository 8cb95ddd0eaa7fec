//! The machine.

ghost use Rattle.std.specs.Prelude.{◌≡◌, ◌≤◌, ◌<◌, ◌+◌, ◌^◌, ℕ, [], true, false, IfOk, OnErr, IsErrOf};
ghost use Rattle.p10_world.specs.Faults.{Rose};
ghost use Rattle.p10_core.specs.WholePrograms.{IsWholeProgram};
ghost use Rattle.p10_core.specs.Views.{plain_program};
ghost use Rattle.p10_meaning.specs.Statements.{Frame};
ghost use Rattle.p10_meaning.specs.Opening.{opening};
ghost use Rattle.p10_interp.specs.Resting.{fresh, paused, is_paused, Runs, GivesUp};
ghost use Rattle.p10_interp.specs.Stages.{first_stage, turn_stage};

use crate::ended::{Ended, RunFault};
use crate::engine::Engine;
use crate::opening::opened;
use crate::place::Place;
use crate::queue::Queue;
use crate::room::{frames_bytes, most_room};
use crate::stacks::Stacks;
use p10_base::Bounds;
use p10_core::Program;
use p10_world::{Sink, Source};
use std::alloc::{AllocError, Global};

/// A machine that runs a program: first [`Machine::run_main`], and where that comes to a task loop, one [`Machine::turn`] after
/// the other.
#[derive(Drop)]
pub struct Machine<'p> {
    p: &'p Program<'p>,
    engine: Engine<'p>,
    place: Place,
    /// How many turns began.
    turns: u64,
}

impl<'p> Machine<'p> {
    ghost use Rattle.p10_interp.specs.Machines.{resting_of};

    /// A machine for a program, in its opening state: static objects have their initial values (C99 5.1.2), and nothing was run.
    /// `denied` has the numbers, from 1, of the requests for memory that the program's `malloc` and `calloc` are denied.
    ///
    /// # Errors
    ///
    /// Out of memory.
    pub fn new(
        alloc: Global,
        p: &'p Program<'p>,
        denied: Vec<u64>,
    ) -> Result<Machine<'p>, AllocError>
        requires whole { IsWholeProgram (plain_program p.now) }
        ensures { IfOk result (λ m. resting_of m ≡ record { program = plain_program p.now; position = fresh; state = opening (plain_program p.now) (record { input = []; denied = denied.items; sensors = [] }) 0; ended = false; turns = 0 }) }
    {
        let outside = opened(alloc, p, denied)?;
        let stacks = Stacks::new(alloc);
        let engine = Engine {
            stacks,
            outside,
            ended: false,
        };
        Ok(Machine {
            p,
            engine,
            place: Place::Fresh,
            turns: 0,
        })
    }

    /// The program's sensors give these values, in order. They are given before the run; without them there are none.
    pub fn sense(&mut self, values: Vec<i128>)
        ensures { resting_of self.new ≡ record (resting_of self.old) { state = record (resting_of self.old).state { sensors = values.items } } }
    {
        self.engine.outside.sensors = Queue::of(values);
    }

    /// Makes room on the stacks and among the objects for a turn that stays within bounds, and for no more than the program can use where
    /// no function calls itself, as bounds may be loose: then one call of each function is open at once at most. The machine is as
    /// before except for room.
    ///
    /// # Errors
    ///
    /// Out of memory.
    pub fn reserve_for(&mut self, b: &Bounds) -> Result<(), AllocError>
        ensures { resting_of self.new ≡ resting_of self.old }
    {
        let functions = self.p.functions.as_slice();
        let calls = b.calls.min(functions.len() as u64);
        let bytes = b.bytes.min(frames_bytes(functions));
        self.engine.reserve(calls, bytes, most_room(functions))
    }

    /// Whether a turn of the task loop comes next.
    pub fn at_loop(&self) -> bool
        ensures { result ≡ is_paused (resting_of self.now).position }
    {
        self.place.is_at_loop()
    }

    /// How many turns began.
    pub fn turns(&self) -> u64
        ensures { result ≡ (resting_of self.now).turns }
    {
        self.turns
    }

    /// The greatest number of open calls so far, `main` included.
    pub fn calls(&self) -> u64
        ensures { result ≡ (resting_of self.now).state.calls }
    {
        self.engine.outside.calls
    }

    /// The greatest number of bytes in the frames of open calls so far.
    pub fn bytes(&self) -> u128
        ensures { result ≡ (resting_of self.now).state.bytes }
    {
        self.engine.outside.bytes
    }

    /// Runs `main` with `steps` steps: up to its task loop, whose statement step it takes ([`Ended::AtLoop`]), or all of it where
    /// it has none. Input is taken from the source in pieces of at most 4,096 bytes, none after its end was noted; output is put
    /// when 4,096 bytes wait, and before each answer.
    ///
    /// # Errors
    ///
    /// [`RunFault::Read`] and [`RunFault::Write`] only where the count of faults of the source or the sink rose, and
    /// [`RunFault::Memory`] where memory is out. No turn comes after that, and what went out is a prefix of the output.
    pub fn run_main<I: Source, O: Sink>(
        &mut self,
        input: &mut I,
        out: &mut O,
        steps: u64,
    ) -> Result<Ended, RunFault>
        requires fresh { (resting_of self.old).position ≡ fresh }
        ensures ended { IfOk result (λ answer. Runs (first_stage (resting_of self.old).program steps) Ended.AtLoop answer steps (resting_of self.old) (resting_of self.new) (I.left input.old) (I.left input.new) (O.taken out.old) (O.taken out.new)) }
        ensures given_up { OnErr result (GivesUp (first_stage (resting_of self.old).program steps) steps (resting_of self.old) (I.left input.old) (I.left input.new) (O.taken out.old) (O.taken out.new)) }
        ensures stops { OnErr result (is_paused (resting_of self.new).position ≡ false) }
        ensures read { IsErrOf result RunFault.Read → Rose (I.faults input.old) (I.faults input.new) }
        ensures write { IsErrOf result RunFault.Write → Rose (O.faults out.old) (O.faults out.new) }
        ensures source { I.faults input.old ≤ I.faults input.new }
        ensures sink { O.faults out.old ≤ O.faults out.new }
        ensures program { (resting_of self.new).program ≡ (resting_of self.old).program }
        ensures turns { (resting_of self.new).turns ≡ (resting_of self.old).turns }
    {
        self.place = Place::Finished;
        self.engine.outside.left = steps;
        match self.engine.first(self.p, input, out) {
            Ok(ended) => {
                self.place = Place::after(ended);
                Ok(ended)
            }
            Err(fault) => Err(fault),
        }
    }

    /// Runs one turn of the task loop with `steps` steps: its test and its body. It is [`Ended::TurnDone`] where another may come;
    /// a turn that leaves the loop ends the run as a return of 0. Input and output are as in [`Machine::run_main`].
    ///
    /// # Errors
    ///
    /// As those of [`Machine::run_main`].
    pub fn turn<I: Source, O: Sink>(
        &mut self,
        input: &mut I,
        out: &mut O,
        steps: u64,
    ) -> Result<Ended, RunFault>
        requires at_loop { is_paused (resting_of self.old).position ≡ true }
        requires turns { (resting_of self.old).turns < 2 ^ 63 }
        ensures ended { IfOk result (λ answer. (frame : Frame) → (resting_of self.old).position ≡ paused frame → Runs (turn_stage (resting_of self.old).program steps frame) Ended.TurnDone answer steps (resting_of self.old) (resting_of self.new) (I.left input.old) (I.left input.new) (O.taken out.old) (O.taken out.new)) }
        ensures given_up { OnErr result ((frame : Frame) → (resting_of self.old).position ≡ paused frame → GivesUp (turn_stage (resting_of self.old).program steps frame) steps (resting_of self.old) (I.left input.old) (I.left input.new) (O.taken out.old) (O.taken out.new)) }
        ensures stops { OnErr result (is_paused (resting_of self.new).position ≡ false) }
        ensures read { IsErrOf result RunFault.Read → Rose (I.faults input.old) (I.faults input.new) }
        ensures write { IsErrOf result RunFault.Write → Rose (O.faults out.old) (O.faults out.new) }
        ensures source { I.faults input.old ≤ I.faults input.new }
        ensures sink { O.faults out.old ≤ O.faults out.new }
        ensures program { (resting_of self.new).program ≡ (resting_of self.old).program }
        ensures made { (resting_of self.new).turns ≡ (resting_of self.old).turns + 1 }
    {
        self.place = Place::Finished;
        self.turns += 1;
        self.engine.outside.left = steps;
        match self.engine.turn(self.p, input, out) {
            Ok(ended) => {
                self.place = Place::after(ended);
                Ok(ended)
            }
            Err(fault) => Err(fault),
        }
    }
}
