//! The sources of a command are read.

ghost use Rattle.std.specs.Prelude.{◌≡◌, ◌≤◌, ◌↔◌, IfOk, IfSome, IsNone, IsSome, Ok, OnErr, OnOk};
ghost use Rattle.std.specs.Io.KnownBytes.{Appends};
ghost use Rattle.p10_world.specs.Faults.{Rose};
ghost use Rattle.p10_core.specs.Views.{plain_program};
ghost use Rattle.p10_core.specs.WholePrograms.{IsWholeProgram};
ghost use Rattle.p10_expand.specs.Gathering.{HaveWords};
ghost use Rattle.p10_front.specs.Readings.{Reads};
ghost use Rattle.p10_front.specs.Answers.{reading_of, CanBePrinted};
ghost use Rattle.p10_report.specs.Stops.{StopsWithin};
ghost use Rattle.p10_command.specs.Reading.{AreRead, HasCode};
ghost use Rattle.p10_command.specs.Saying.{unread_line};

use p10_base::{Limit, Refusal, Sources};
use p10_front::{FrontFault, Reading, read};
use p10_report::{put_limit, put_refusal};
use p10_world::{Sink, SinkFault};
use std::alloc::{AllocError, Global};

/// Why gathered sources are no program.
#[derive(Clone, Copy, Debug)]
pub enum Unread {
    /// They are refused: by D1 to D8, G1, or S1 to S30.
    Refused(Refusal),
    /// They exceed a limit before a refusal: M3 to M6, or M8.
    Over(Limit),
}

impl Unread {
    ghost use Rattle.p10_command.specs.Saying.{unread_status};

    /// The status with which the program exits.
    pub fn status(&self) -> u8
        ensures { result ≡ unread_status self.now }
    {
        match self {
            Unread::Refused(_) => 3,
            Unread::Over(_) => 8,
        }
    }
}

/// What gathered sources are read as.
#[derive(Drop)]
pub enum ReadSources<'s> {
    /// A program, with its words and trees.
    Program(Reading<'s>),
    /// Why they are none.
    Unread(Unread),
}

/// Reads the sources of a command. Each file has words, as in what [`crate::gather_roots`] gives.
///
/// # Errors
///
/// Out of memory.
pub fn read_sources<'s>(alloc: Global, sources: &'s Sources) -> Result<ReadSources<'s>, AllocError>
    requires { HaveWords sources.now }
    ensures { IfOk result (AreRead sources.now) }
{
    match read(alloc, sources) {
        Ok(reading) => Ok(unless_refused(sources, reading)),
        Err(fault) => match fault {
            FrontFault::Over(limit) => Ok(ReadSources::Unread(Unread::Over(limit))),
            FrontFault::Memory => Err(AllocError),
        },
    }
}

/// A reading is a program, unless something refuses it.
fn unless_refused<'s>(sources: &Sources, reading: Reading<'s>) -> ReadSources<'s>
    requires read { Reads sources.now (Ok (reading_of reading)) }
    requires refusal { IfSome reading.refusal CanBePrinted }
    requires program { IsSome reading.program ↔ IsNone reading.refusal }
    requires whole { IfSome reading.program (λ p. IsWholeProgram (plain_program p)) }
    ensures { AreRead sources.now result }
{
    match reading.refusal {
        Some(refusal) => {
            release(reading);
            ReadSources::Unread(Unread::Refused(refusal))
        }
        None => ReadSources::Program(reading),
    }
}

/// Lets go of a reading. That all of its trees are freed is so proved once, and not in each crate above.
pub fn release(_reading: Reading<'_>) {}

/// Writes the line that says why gathered sources are no program.
///
/// The sink took the whole line at `Ok`.
///
/// # Errors
///
/// A fault only where the sink's count of faults rose; it then took a prefix of the line.
pub fn put_unread<E: Sink>(err: &mut E, sources: &Sources, why: &Unread) -> Result<(), SinkFault>
    requires { HasCode why.now }
    ensures ok { OnOk result (Appends (E.taken err.old) (E.taken err.new) (unread_line sources.now why.now)) }
    ensures stopped { OnErr result (StopsWithin (E.taken err.old) (E.taken err.new) (unread_line sources.now why.now)) }
    ensures failed { OnErr result (Rose (E.faults err.old) (E.faults err.new)) }
    ensures count { E.faults err.old ≤ E.faults err.new }
{
    match why {
        Unread::Refused(refusal) => put_refusal(err, sources, refusal),
        Unread::Over(limit) => put_limit(err, *limit),
    }
}
