//! The state before `main` is entered, as a value of its own (C99 5.1.2).

ghost use Rattle.std.specs.Prelude.{◌≡◌, IfOk};
ghost use Rattle.p10_core.specs.WholePrograms.{IsWholeProgram};
ghost use Rattle.p10_core.specs.Views.{plain_program};
ghost use Rattle.p10_meaning.specs.Opening.{opening};
ghost use Rattle.p10_interp.specs.States.{state_at_start};

use crate::opening::opened;
use crate::outside::Outside;
use crate::queue::Queue;
use p10_core::Program;
use p10_meaning::World;
use std::alloc::{AllocError, Global};

/// The state of a program's run, with all of its world. Contracts see it as a state of the meaning.
#[derive(Drop)]
pub struct State<'p> {
    program: &'p Program<'p>,
    outside: Outside,
}

impl<'p> State<'p> {
    /// The program that is run.
    pub fn program(&self) -> &'p Program<'p>
        ensures { result.now ≡ self.now.program.now }
    {
        self.program
    }
}

/// The state before `main` is entered: objects of static lifetime have their initial values, string literals are there, and
/// nothing was executed. All of the world lies ahead.
///
/// # Errors
///
/// Out of memory.
pub fn start<'p>(alloc: Global, p: &'p Program<'p>, world: World) -> Result<State<'p>, AllocError>
    requires { IsWholeProgram (plain_program p.now) }
    ensures program { IfOk result (λ s. s.program.now ≡ p.now) }
    ensures state { IfOk result (λ s. state_at_start s ≡ opening (plain_program p.now) world 0) }
{
    let denied = list_of(alloc, world.denied.as_slice())?;
    let input = list_of(alloc, world.input.as_slice())?;
    let sensors = list_of(alloc, world.sensors.as_slice())?;
    let outside = opened(alloc, p, denied)?;
    Ok(State {
        program: p,
        outside: with_world(outside, input, sensors),
    })
}

/// The state in which this input and these values of sensors lie ahead.
fn with_world(outside: Outside, input: Vec<u8>, sensors: Vec<i128>) -> Outside
    ensures { result ≡ record outside { pending = input.items; sensors = sensors.items } }
{
    let mut outside = outside;
    outside.pending = Queue::of(input);
    outside.sensors = Queue::of(sensors);
    outside
}

/// A list of these items.
fn list_of<T: Copy>(alloc: Global, items: &[T]) -> Result<Vec<T>, AllocError>
    ensures { IfOk result (λ v. v.items ≡ items.now) }
{
    let mut list = Vec::new(alloc);
    list.extend_from_slice(items)?;
    Ok(list)
}
