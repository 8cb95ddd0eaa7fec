//! What is written to the error output, and the status of the program.

ghost use Rattle.std.specs.Prelude.{◌≡◌, ◌≢◌, ◌⊎◌, ◌≤◌, OnErr, OnOk, Err};
ghost use Rattle.std.specs.Io.KnownBytes.{Appends};
ghost use Rattle.p10_world.specs.Faults.{Rose};
ghost use Rattle.p10_world.specs.Sink.{TakesFront};
ghost use Rattle.p10_judge.specs.Saying.{judgement_line, judgement_status};
ghost use Rattle.p10_report.specs.Messages.{absent_line};
ghost use Rattle.p10_report.specs.Stops.{StopsWithin};
ghost use Rattle.p10_run.specs.WholeRuns.{outcome_of};
ghost use Rattle.p10_command.specs.Told.{IsTold};
ghost use Rattle.p10_run_command.specs.Endings.{ended_line, ended_status, number_of_stop};
ghost use Rattle.p10_run_command.specs.Sensors.{no_values_line, no_values_status};
ghost use Rattle.p10_run_command.specs.private.Telling.{end_line, end_status, ran_line, ran_status};

use crate::program::RunEnd;
use crate::sensors::{NoValues, put_no_values};
use p10_base::{Sources, TextBuf};
use p10_command::{Trouble, tell_trouble};
use p10_int::Stop;
use p10_judge::{Judgement, put_judgement};
use p10_report::{
    put_absent, put_assertion_failed, put_returned, put_steps_spent, put_turns, put_undefined,
};
use p10_run::{FinishedRun, RunFault, RunOutcome};
use p10_world::{Sink, SinkFault};

/// Reports that there is no file of this name, and gives the status of the program.
pub fn tell_absent<E: Sink>(name: &TextBuf, err: &mut E) -> u8
    ensures told { result ≢ 6 → IsTold 9 (absent_line name.now) (E.taken err.old) (E.taken err.new) result }
    ensures stopped { result ≡ 6 → StopsWithin (E.taken err.old) (E.taken err.new) (absent_line name.now) }
    ensures write { result ≡ 6 → Rose (E.faults err.old) (E.faults err.new) }
{
    match put_absent(err, name.as_str()) {
        Ok(()) => 9,
        Err(_) => 6,
    }
}

/// Reports what has come of a program that was to run, and gives the status of the program. After a failed write nothing more is
/// written.
pub fn tell_end<E: Sink>(sources: &Sources, end: RunEnd, err: &mut E) -> u8
    ensures told { result ≢ 6 → IsTold (end_status end) (end_line sources.now end) (E.taken err.old) (E.taken err.new) result }
    ensures stopped { result ≡ 6 → TakesFront (E.taken err.old) (E.taken err.new) (end_line sources.now end) }
    ensures write { result ≡ 6 → (end ≡ RunEnd.Ran (Err RunFault.Write)) ⊎ Rose (E.faults err.old) (E.faults err.new) }
{
    match end {
        RunEnd::Ran(end) => tell_ran(sources, end, err),
        RunEnd::Refused(judgement) => tell_judgement(sources, &judgement, err),
        RunEnd::NoValues(why) => tell_no_values(why, err),
        RunEnd::OutOfMemory => tell_trouble(Trouble::Memory, err),
    }
}

/// Reports what has come of a run, and gives the status of the program. After a failed write nothing more is written.
fn tell_ran<E: Sink>(sources: &Sources, end: Result<FinishedRun, RunFault>, err: &mut E) -> u8
    ensures told { result ≢ 6 → IsTold (ran_status end) (ran_line sources.now end) (E.taken err.old) (E.taken err.new) result }
    ensures stopped { result ≡ 6 → TakesFront (E.taken err.old) (E.taken err.new) (ran_line sources.now end) }
    ensures write { result ≡ 6 → (end ≡ Err RunFault.Write) ⊎ Rose (E.faults err.old) (E.faults err.new) }
{
    match end {
        Ok(done) => tell_finished(sources, &done, err),
        Err(RunFault::Read) => tell_trouble(Trouble::Read, err),
        Err(RunFault::Memory) => tell_trouble(Trouble::Memory, err),
        Err(RunFault::Write) => 6,
    }
}

/// Reports what the certificate has come to, and gives the status of the program.
fn tell_judgement<E: Sink>(sources: &Sources, judgement: &Judgement, err: &mut E) -> u8
    ensures told { result ≢ 6 → IsTold (judgement_status judgement.now) (judgement_line sources.now judgement.now) (E.taken err.old) (E.taken err.new) result }
    ensures stopped { result ≡ 6 → StopsWithin (E.taken err.old) (E.taken err.new) (judgement_line sources.now judgement.now) }
    ensures write { result ≡ 6 → Rose (E.faults err.old) (E.faults err.new) }
{
    match put_judgement(err, sources, judgement) {
        Ok(()) => judgement.status(),
        Err(_) => 6,
    }
}

/// Reports why the file of sensor values gives none, and gives the status of the program.
fn tell_no_values<E: Sink>(why: NoValues, err: &mut E) -> u8
    ensures told { result ≢ 6 → IsTold (no_values_status why) (no_values_line why) (E.taken err.old) (E.taken err.new) result }
    ensures stopped { result ≡ 6 → StopsWithin (E.taken err.old) (E.taken err.new) (no_values_line why) }
    ensures write { result ≡ 6 → Rose (E.faults err.old) (E.faults err.new) }
{
    match put_no_values(err, why) {
        Ok(()) => why.status(),
        Err(_) => 6,
    }
}

/// Reports how a run has ended, and gives the status of the program.
fn tell_finished<E: Sink>(sources: &Sources, done: &FinishedRun, err: &mut E) -> u8
    ensures told { result ≢ 6 → IsTold (ended_status (outcome_of done.now.outcome)) (ended_line sources.now (outcome_of done.now.outcome) done.now.calls done.now.bytes) (E.taken err.old) (E.taken err.new) result }
    ensures stopped { result ≡ 6 → StopsWithin (E.taken err.old) (E.taken err.new) (ended_line sources.now (outcome_of done.now.outcome) done.now.calls done.now.bytes) }
    ensures write { result ≡ 6 → Rose (E.faults err.old) (E.faults err.new) }
{
    match put_end(err, sources, done) {
        Ok(()) => status(done.outcome),
        Err(_) => 6,
    }
}

/// Writes the line of a run that has ended.
///
/// # Errors
///
/// A fault only where the sink's count of faults rose; it then took a prefix of the line.
fn put_end<E: Sink>(err: &mut E, sources: &Sources, done: &FinishedRun) -> Result<(), SinkFault>
    ensures ok { OnOk result (Appends (E.taken err.old) (E.taken err.new) (ended_line sources.now (outcome_of done.now.outcome) done.now.calls done.now.bytes)) }
    ensures stopped { OnErr result (StopsWithin (E.taken err.old) (E.taken err.new) (ended_line sources.now (outcome_of done.now.outcome) done.now.calls done.now.bytes)) }
    ensures failed { OnErr result (Rose (E.faults err.old) (E.faults err.new)) }
    ensures count { E.faults err.old ≤ E.faults err.new }
{
    match done.outcome {
        RunOutcome::Returned(value) => put_returned(err, i128::from(value), done.calls, done.bytes),
        RunOutcome::Turns(turns) => put_turns(err, turns, done.calls, done.bytes),
        RunOutcome::AssertionFailed(at) => put_assertion_failed(err, sources, at),
        RunOutcome::Undefined(stop, at) => put_undefined(err, sources, number(stop), at),
        RunOutcome::StepsSpent => put_steps_spent(err),
    }
}

/// The status of the program, by how its run has ended.
fn status(outcome: RunOutcome) -> u8
    ensures { result ≡ ended_status (outcome_of outcome) }
{
    match outcome {
        RunOutcome::Returned(_) => 0,
        RunOutcome::Turns(_) => 0,
        RunOutcome::AssertionFailed(_) => 10,
        RunOutcome::Undefined(..) => 11,
        RunOutcome::StepsSpent => 12,
    }
}

/// The number of an undefined operation, as its code has it.
fn number(stop: Stop) -> u8
    ensures { result ≡ number_of_stop stop }
{
    match stop {
        Stop::U1 => 1,
        Stop::U2 => 2,
        Stop::U3 => 3,
        Stop::U4 => 4,
        Stop::U5 => 5,
        Stop::U6 => 6,
        Stop::U7 => 7,
        Stop::U8 => 8,
        Stop::U9 => 9,
        Stop::U10 => 10,
        Stop::U11 => 11,
        Stop::U12 => 12,
    }
}
