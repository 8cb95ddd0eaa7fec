//! Gathered sources are read, and reported.

ghost use Rattle.std.specs.Prelude.{◌≡◌, ◌≢◌, ◌⊎◌, IfOk, IfErr, IfSome, Ok};
ghost use Rattle.p10_world.specs.Faults.{Rose};
ghost use Rattle.p10_expand.specs.Gathering.{Gathers, HaveWords};
ghost use Rattle.p10_front.specs.Answers.{reading_of, CanBePrinted, IsFault};
ghost use Rattle.p10_front.specs.Readings.{Reads};
ghost use Rattle.p10_report.specs.Json.{IsPrintable};
ghost use Rattle.p10_report.specs.Stops.{StopsWithin};
ghost use Rattle.p10_command.specs.Seen.{Seen};
ghost use Rattle.p10_command.specs.Told.{IsTold, Told, Stopped};
ghost use Rattle.p10_check_command.specs.Answers.{setting_of, SaysRight};
ghost use Rattle.p10_check_command.specs.Reports.{IsReport};
ghost use Rattle.p10_check_command.specs.private.Telling.{fault_saying};

use crate::command::CheckCommand;
use crate::report::Report;
use crate::tell::tell_report;
use crate::violations::violations;
use p10_base::{ListBuf, Sources};
use p10_command::{Trouble, release, tell_limit, tell_trouble};
use p10_front::{FrontFault, Reading, read};
use p10_world::Sink;
use std::alloc::Global;

/// Reports gathered sources, or the limit that they exceed. Gives the status of the program.
pub fn check_sources<O: Sink, E: Sink>(
    alloc: Global,
    command: &CheckCommand,
    sources: &Sources,
    out: &mut O,
    err: &mut E,
) -> u8
    requires { HaveWords sources.now }
    ensures told { result ≢ 6 → (seen : Seen) → Gathers (setting_of seen command.now) sources.now → Told (SaysRight command.now seen)
        (O.taken out.old) (O.taken out.new) (E.taken err.old) (E.taken err.new) result }
    ensures stopped { result ≡ 6 → (seen : Seen) → Gathers (setting_of seen command.now) sources.now → Stopped (SaysRight command.now seen)
        (O.taken out.old) (O.taken out.new) (E.taken err.old) (E.taken err.new) }
    ensures write { result ≡ 6 → Rose (O.faults out.old) (O.faults out.new) ⊎ Rose (E.faults err.old) (E.faults err.new) }
{
    match report(alloc, sources) {
        Ok(report) => tell_report(alloc, command, sources, &report, out, err),
        Err(fault) => tell_fault(fault, err),
    }
}

/// Writes why there is no report, and gives the status of the program.
fn tell_fault<E: Sink>(fault: FrontFault, err: &mut E) -> u8
    ensures told { result ≢ 6 → IsTold (fault_saying fault).status (fault_saying fault).err (E.taken err.old) (E.taken err.new) result }
    ensures stopped { result ≡ 6 → StopsWithin (E.taken err.old) (E.taken err.new) (fault_saying fault).err }
    ensures write { result ≡ 6 → Rose (E.faults err.old) (E.faults err.new) }
{
    match fault {
        FrontFault::Over(limit) => tell_limit(limit, err),
        FrontFault::Memory => tell_trouble(Trouble::Memory, err),
    }
}

/// The report of gathered sources.
///
/// # Errors
///
/// The sources exceed a limit before a refusal, or out of memory.
fn report(alloc: Global, sources: &Sources) -> Result<Report, FrontFault>
    requires { HaveWords sources.now }
    ensures report { IfOk result (IsReport sources.now) }
    ensures refusal { IfOk result (λ report. IsPrintable report.refusal) }
    ensures fault { IfErr result (IsFault sources.now) }
{
    match read(alloc, sources) {
        Ok(reading) => report_of(alloc, sources, reading),
        Err(fault) => Err(fault),
    }
}

/// The report of a reading of gathered sources.
///
/// # Errors
///
/// Out of memory.
fn report_of(alloc: Global, sources: &Sources, reading: Reading<'_>) -> Result<Report, FrontFault>
    requires read { Reads sources.now (Ok (reading_of reading)) }
    requires refusal { IfSome reading.refusal CanBePrinted }
    ensures report { IfOk result (IsReport sources.now) }
    ensures refusal { IfOk result (λ report. IsPrintable report.refusal) }
    ensures fault { IfErr result (λ fault. fault ≡ FrontFault.Memory) }
{
    let refusal = reading.refusal;
    let found = violations(alloc, sources, &reading);
    release(reading);
    match found {
        Ok(violations) => Ok(Report {
            violations: ListBuf::of(violations),
            refusal,
        }),
        Err(_) => Err(FrontFault::Memory),
    }
}
