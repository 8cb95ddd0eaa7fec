//! Gathered sources are read, and their program runs.

ghost use Rattle.std.specs.Prelude.{◌≡◌, ◌≢◌, ◌⊎◌, ◌≤◌, ◌^◌, IsSomeAnd, Err};
ghost use Rattle.p10_world.specs.Faults.{Rose};
ghost use Rattle.p10_core.specs.Views.{plain_program};
ghost use Rattle.p10_core.specs.WholePrograms.{IsWholeProgram};
ghost use Rattle.p10_expand.specs.Gathering.{Gathers, HaveWords};
ghost use Rattle.p10_front.specs.Answers.{reading_of};
ghost use Rattle.p10_front.specs.Digests.{reading_digests};
ghost use Rattle.p10_command.specs.Seen.{Seen, input_seen};
ghost use Rattle.p10_command.specs.Told.{Told, Stopped};
ghost use Rattle.p10_run_command.specs.declared.command.RunCommand.{RunCommand};
ghost use Rattle.p10_run_command.specs.Answers.{setting_of, SaysRight};
ghost use Rattle.p10_run_command.specs.private.Granting.{IsRequest};
ghost use Rattle.p10_run_command.specs.private.Telling.{Comes, ComesWithin};

use crate::granting::{Permission, RunRequest, grant};
use crate::sensors::{NoValues, Recorded, recorded_in_file};
use crate::tell::tell_end;
use p10_base::{ListBuf, Sources};
use p10_command::{ReadSources, Trouble, read_sources, release, tell_trouble, tell_unread};
use p10_core::Program;
use p10_front::Reading;
use p10_judge::Judgement;
use p10_run::{Budget, FinishedRun, RunFault};
use p10_world::{Sink, Source};
use std::alloc::Global;

/// What has come of a program that was to run.
#[derive(Drop)]
pub enum RunEnd {
    /// It ran, to an end or until the run was given up.
    Ran(Result<FinishedRun, RunFault>),
    /// It didn't run: the certificate isn't accepted for it.
    Refused(Judgement),
    /// It didn't run: the file of sensor values gives none.
    NoValues(NoValues),
    /// It didn't run: memory was out.
    OutOfMemory,
}

/// Runs the program of gathered sources, and reports how it has ended, or why there is none. Gives the status of the program.
pub fn run_sources<I: Source, O: Sink, E: Sink>(
    alloc: Global,
    request: &RunRequest,
    sources: &Sources,
    input: &mut I,
    out: &mut O,
    err: &mut E,
) -> u8
    requires words { HaveWords sources.now }
    requires turns { request.now.turns ≤ 10 ^ 18 }
    ensures told { result ≢ 6 → (command : RunCommand) (seen : Seen) → IsRequest seen.held command request.now → Gathers (setting_of seen command) sources.now → Told (SaysRight command seen
        (input_seen (I.left input.old) (I.faults input.old) (I.faults input.new)))
        (O.taken out.old) (O.taken out.new) (E.taken err.old) (E.taken err.new) result }
    ensures stopped { result ≡ 6 → (command : RunCommand) (seen : Seen) → IsRequest seen.held command request.now → Gathers (setting_of seen command) sources.now → Stopped (SaysRight command seen
        (input_seen (I.left input.old) (I.faults input.old) (I.faults input.new)))
        (O.taken out.old) (O.taken out.new) (E.taken err.old) (E.taken err.new) }
    ensures write { result ≡ 6 → Rose (O.faults out.old) (O.faults out.new) ⊎ Rose (E.faults err.old) (E.faults err.new) }
{
    match read_sources(alloc, sources) {
        Ok(ReadSources::Program(reading)) => {
            let end = run_reading(alloc, &reading, request, input, out);
            release(reading);
            tell_end(sources, end, err)
        }
        Ok(ReadSources::Unread(why)) => tell_unread(sources, &why, err),
        Err(_) => tell_trouble(Trouble::Memory, err),
    }
}

/// Runs the program of a reading, where it may.
fn run_reading<I: Source, O: Sink>(
    alloc: Global,
    reading: &Reading<'_>,
    request: &RunRequest,
    input: &mut I,
    out: &mut O,
) -> RunEnd
    requires program { IsSomeAnd reading.now.program (λ p. IsWholeProgram (plain_program p)) }
    requires turns { request.now.turns ≤ 10 ^ 18 }
    ensures comes { IsSomeAnd reading.now.program (λ p. Comes (reading_digests (reading_of reading.now)).funcs (plain_program p) request.now (I.left input.old) (O.taken out.old) (O.taken out.new) result) }
    ensures read { result ≡ RunEnd.Ran (Err RunFault.Read) → Rose (I.faults input.old) (I.faults input.new) }
    ensures write { result ≡ RunEnd.Ran (Err RunFault.Write) → Rose (O.faults out.old) (O.faults out.new) }
{
    match &reading.program {
        Some(program) => match grant(alloc, reading, program, request) {
            Ok(Permission::Budget(budget)) => {
                run_within(alloc, program, &budget, &request.sensors, input, out)
            }
            Ok(Permission::Refused(judgement)) => RunEnd::Refused(judgement),
            Err(_) => RunEnd::OutOfMemory,
        },
        None => unreachable!(),
    }
}

/// Runs a program within a budget, with the values of the file of sensor values, where it gives some.
fn run_within<I: Source, O: Sink>(
    alloc: Global,
    program: &Program<'_>,
    budget: &Budget,
    file: &Option<ListBuf<u8>>,
    input: &mut I,
    out: &mut O,
) -> RunEnd
    requires program { IsWholeProgram (plain_program program.now) }
    requires turns { budget.now.turns ≤ 10 ^ 18 }
    ensures comes { ComesWithin (plain_program program.now) budget.now file.now (I.left input.old) (O.taken out.old) (O.taken out.new) result }
    ensures read { result ≡ RunEnd.Ran (Err RunFault.Read) → Rose (I.faults input.old) (I.faults input.new) }
    ensures write { result ≡ RunEnd.Ran (Err RunFault.Write) → Rose (O.faults out.old) (O.faults out.new) }
{
    match recorded_in_file(alloc, file) {
        Ok(Recorded::Values(values)) => {
            let ran = p10_run::run(alloc, program, budget, values, input, out);
            RunEnd::Ran(ran)
        }
        Ok(Recorded::Nothing(why)) => RunEnd::NoValues(why),
        Err(_) => RunEnd::OutOfMemory,
    }
}
