//! What is reported, and the status of the program.

ghost use Rattle.std.specs.Prelude.{◌≡◌, ◌≢◌, ◌⊎◌, ◌≤◌, ◌++◌, codes, OnErr, OnOk};
ghost use Rattle.std.specs.Io.KnownBytes.{Appends};
ghost use Rattle.p10_world.specs.Faults.{Rose};
ghost use Rattle.p10_world.specs.Sink.{TakesFront};
ghost use Rattle.p10_report.specs.Json.{IsPrintable};
ghost use Rattle.p10_command.specs.Gathering.{CanBeTold};
ghost use Rattle.p10_command.specs.Told.{Told, Stopped};
ghost use Rattle.p10_check_command.specs.Answers.{report_saying, gathering_saying};
ghost use Rattle.p10_check_command.specs.Texts.{json_line, refusal_lines, report_lines, report_status};
ghost use Rattle.p10_check_command.specs.private.Telling.{IsOrNoMemory};

use crate::command::CheckCommand;
use crate::report::Report;
use p10_base::{Refusal, Sources};
use p10_command::{Trouble, Ungathered, tell_trouble, tell_ungathered};
use p10_report::{json, put_refusal, put_violations};
use p10_world::{Sink, SinkFault};
use std::alloc::Global;

/// Reports why the sources of the command aren't gathered, and gives the status of the program. A refusal is reported.
pub fn tell_gathering<O: Sink, E: Sink>(
    alloc: Global,
    command: &CheckCommand,
    sources: &Sources,
    why: &Ungathered,
    out: &mut O,
    err: &mut E,
) -> u8
    requires { CanBeTold command.now.sources why.now }
    ensures told { result ≢ 6 → Told (IsOrNoMemory (gathering_saying command.now sources.now why.now))
        (O.taken out.old) (O.taken out.new) (E.taken err.old) (E.taken err.new) result }
    ensures stopped { result ≡ 6 → Stopped (IsOrNoMemory (gathering_saying command.now sources.now why.now))
        (O.taken out.old) (O.taken out.new) (E.taken err.old) (E.taken err.new) }
    ensures write { result ≡ 6 → Rose (O.faults out.old) (O.faults out.new) ⊎ Rose (E.faults err.old) (E.faults err.new) }
{
    let roots = command.sources.as_slice();
    match why {
        Ungathered::Refused(refusal) => {
            let report = Report::of_refusal(alloc, *refusal);
            tell_report(alloc, command, sources, &report, out, err)
        }
        Ungathered::AbsentRoot(_) => tell_ungathered(roots, sources, why, err),
        Ungathered::Over(_) => tell_ungathered(roots, sources, why, err),
    }
}

/// Writes a report in the form that is asked for, and gives the status of the program.
pub fn tell_report<O: Sink, E: Sink>(
    alloc: Global,
    command: &CheckCommand,
    sources: &Sources,
    report: &Report,
    out: &mut O,
    err: &mut E,
) -> u8
    requires { IsPrintable report.now.refusal }
    ensures told { result ≢ 6 → Told (IsOrNoMemory (report_saying command.now sources.now report.now))
        (O.taken out.old) (O.taken out.new) (E.taken err.old) (E.taken err.new) result }
    ensures stopped { result ≡ 6 → Stopped (IsOrNoMemory (report_saying command.now sources.now report.now))
        (O.taken out.old) (O.taken out.new) (E.taken err.old) (E.taken err.new) }
    ensures write { result ≡ 6 → Rose (O.faults out.old) (O.faults out.new) ⊎ Rose (E.faults err.old) (E.faults err.new) }
{
    if !command.json {
        return tell_lines(sources, report, out);
    }
    let violations = report.violations.as_slice();
    match json(alloc, sources, violations, report.refusal) {
        Ok(text) => tell_json(text.as_str(), report, out),
        Err(_) => tell_trouble(Trouble::Memory, err),
    }
}

/// Writes a report as lines, and gives the status of the program.
fn tell_lines<O: Sink>(sources: &Sources, report: &Report, out: &mut O) -> u8
    requires { IsPrintable report.now.refusal }
    ensures status { result ≢ 6 → result ≡ report_status report.now }
    ensures told { result ≢ 6 → Appends (O.taken out.old) (O.taken out.new) (report_lines sources.now report.now) }
    ensures stopped { result ≡ 6 → TakesFront (O.taken out.old) (O.taken out.new) (report_lines sources.now report.now) }
    ensures write { result ≡ 6 → Rose (O.faults out.old) (O.faults out.new) }
{
    match put_report(out, sources, report) {
        Ok(()) => report.status(),
        Err(_) => 6,
    }
}

/// Writes a report as JSON, whose text this is, and gives the status of the program.
fn tell_json<O: Sink>(text: &str, report: &Report, out: &mut O) -> u8
    ensures status { result ≢ 6 → result ≡ report_status report.now }
    ensures told { result ≢ 6 → Appends (O.taken out.old) (O.taken out.new) (text.now ++ codes "\n") }
    ensures stopped { result ≡ 6 → TakesFront (O.taken out.old) (O.taken out.new) (text.now ++ codes "\n") }
    ensures write { result ≡ 6 → Rose (O.faults out.old) (O.faults out.new) }
{
    match put_line(out, text) {
        Ok(()) => report.status(),
        Err(_) => 6,
    }
}

/// Writes a report as lines.
///
/// # Errors
///
/// A fault only where the sink's count of faults rose; it then took a prefix of the lines.
fn put_report<O: Sink>(out: &mut O, sources: &Sources, report: &Report) -> Result<(), SinkFault>
    requires { IsPrintable report.now.refusal }
    ensures ok { OnOk result (Appends (O.taken out.old) (O.taken out.new) (report_lines sources.now report.now)) }
    ensures front { OnErr result (TakesFront (O.taken out.old) (O.taken out.new) (report_lines sources.now report.now)) }
    ensures failed { OnErr result (Rose (O.faults out.old) (O.faults out.new)) }
    ensures count { O.faults out.old ≤ O.faults out.new }
{
    put_violations(out, sources, report.violations.as_slice())?;
    put_refusal_line(out, sources, report.refusal)
}

/// Writes the line of a refusal, if there is one.
///
/// # Errors
///
/// A fault only where the sink's count of faults rose; it then took a prefix of the line.
fn put_refusal_line<O: Sink>(
    out: &mut O,
    sources: &Sources,
    refusal: Option<Refusal>,
) -> Result<(), SinkFault>
    requires { IsPrintable refusal }
    ensures ok { OnOk result (Appends (O.taken out.old) (O.taken out.new) (refusal_lines sources.now refusal)) }
    ensures front { OnErr result (TakesFront (O.taken out.old) (O.taken out.new) (refusal_lines sources.now refusal)) }
    ensures failed { OnErr result (Rose (O.faults out.old) (O.faults out.new)) }
    ensures count { O.faults out.old ≤ O.faults out.new }
{
    match refusal {
        Some(refusal) => put_refusal(out, sources, &refusal),
        None => Ok(()),
    }
}

/// Writes a text and ends its line.
///
/// # Errors
///
/// A fault only where the sink's count of faults rose; it then took a prefix of the line.
fn put_line<O: Sink>(out: &mut O, text: &str) -> Result<(), SinkFault>
    ensures ok { OnOk result (Appends (O.taken out.old) (O.taken out.new) (text.now ++ codes "\n")) }
    ensures front { OnErr result (TakesFront (O.taken out.old) (O.taken out.new) (text.now ++ codes "\n")) }
    ensures failed { OnErr result (Rose (O.faults out.old) (O.faults out.new)) }
    ensures count { O.faults out.old ≤ O.faults out.new }
{
    out.put(text.as_bytes())?;
    out.put(b"\n")
}
