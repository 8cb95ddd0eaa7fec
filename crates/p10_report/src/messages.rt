//! The lines that report why nothing can be said of the sources.

ghost use Rattle.std.specs.Prelude.{◌≡◌, ◌≤◌, OnErr, OnOk};
ghost use Rattle.std.specs.Io.KnownBytes.{Appends};
ghost use Rattle.p10_world.specs.Faults.{Rose};
ghost use Rattle.p10_report.specs.Messages.{usage_line, absent_line, bad_certificate_line, bad_old_certificate_line, bad_sensors_line, read_fault_line, out_of_memory_line, absent_label, refused_at_label, old_refused_label, sensors_refused_label};
ghost use Rattle.p10_report.specs.Stops.{StopsWithin};

use crate::pieces::{put_bytes, put_labelled};
use p10_world::{Sink, SinkFault};

/// Writes the line of a command line of no command, `p10: usage: ..`.
///
/// # Errors
///
/// A fault only where the sink's count of faults rose; it then took a prefix of the line.
#[tactic(auto, unfolding(crate::specs::Messages::usage_line))]
pub fn put_usage<O: Sink>(out: &mut O) -> Result<(), SinkFault>
    ensures ok { OnOk result (Appends (O.taken out.old) (O.taken out.new) usage_line) }
    ensures stopped { OnErr result (StopsWithin (O.taken out.old) (O.taken out.new) usage_line) }
    ensures failed { OnErr result (Rose (O.faults out.old) (O.faults out.new)) }
    ensures count { O.faults out.old ≤ O.faults out.new }
{
    put_bytes(
        out,
        b"p10: usage: p10 (check|derive|verify|run|gen|migrate|recheck) [options] FILE..\n",
    )
}

/// Writes the line of a file that isn't there, `p10: absent: NAME`, with the name by which it was asked for.
///
/// # Errors
///
/// A fault only where the sink's count of faults rose; it then took a prefix of the line.
#[tactic(auto, using(crate::proofs::Stopping::stops), unfolding(crate::specs::Messages::absent_line))]
pub fn put_absent<O: Sink>(out: &mut O, name: &str) -> Result<(), SinkFault>
    ensures ok { OnOk result (Appends (O.taken out.old) (O.taken out.new) (absent_line name.now)) }
    ensures stopped { OnErr result (StopsWithin (O.taken out.old) (O.taken out.new) (absent_line name.now)) }
    ensures failed { OnErr result (Rose (O.faults out.old) (O.faults out.new)) }
    ensures count { O.faults out.old ≤ O.faults out.new }
{
    put_bytes(out, absent())?;
    put_bytes(out, name.as_bytes())?;
    put_bytes(out, b"\n")
}

/// Writes the line of a text that is no certificate's, `p10: certificate refused at line N`, where `line`,
/// counted from 1, is N.
///
/// # Errors
///
/// A fault only where the sink's count of faults rose; it then took a prefix of the line.
#[tactic(auto, using(crate::proofs::Stopping::stops), unfolding(crate::specs::Messages::bad_certificate_line))]
pub fn put_bad_certificate<O: Sink>(out: &mut O, line: u64) -> Result<(), SinkFault>
    ensures ok { OnOk result (Appends (O.taken out.old) (O.taken out.new) (bad_certificate_line line)) }
    ensures stopped { OnErr result (StopsWithin (O.taken out.old) (O.taken out.new) (bad_certificate_line line)) }
    ensures failed { OnErr result (Rose (O.faults out.old) (O.faults out.new)) }
    ensures count { O.faults out.old ≤ O.faults out.new }
{
    put_labelled(out, refused_at(), u128::from(line))?;
    put_bytes(out, b"\n")
}

/// Writes the line of a text that is no certificate's from before an edit, `p10: old certificate refused at line N`, where `line`,
/// counted from 1, is N.
///
/// # Errors
///
/// A fault only where the sink's count of faults rose; it then took a prefix of the line.
#[tactic(auto, using(crate::proofs::Stopping::stops), unfolding(crate::specs::Messages::bad_old_certificate_line))]
pub fn put_bad_old_certificate<O: Sink>(out: &mut O, line: u64) -> Result<(), SinkFault>
    ensures ok { OnOk result (Appends (O.taken out.old) (O.taken out.new) (bad_old_certificate_line line)) }
    ensures stopped { OnErr result (StopsWithin (O.taken out.old) (O.taken out.new) (bad_old_certificate_line line)) }
    ensures failed { OnErr result (Rose (O.faults out.old) (O.faults out.new)) }
    ensures count { O.faults out.old ≤ O.faults out.new }
{
    put_labelled(out, old_refused(), u128::from(line))?;
    put_bytes(out, b"\n")
}

/// Writes the line of a text that isn't that of sensor values, `p10: sensor file refused at line N`, where `line`,
/// counted from 1, is N.
///
/// # Errors
///
/// A fault only where the sink's count of faults rose; it then took a prefix of the line.
#[tactic(auto, using(crate::proofs::Stopping::stops), unfolding(crate::specs::Messages::bad_sensors_line))]
pub fn put_bad_sensors<O: Sink>(out: &mut O, line: u64) -> Result<(), SinkFault>
    ensures ok { OnOk result (Appends (O.taken out.old) (O.taken out.new) (bad_sensors_line line)) }
    ensures stopped { OnErr result (StopsWithin (O.taken out.old) (O.taken out.new) (bad_sensors_line line)) }
    ensures failed { OnErr result (Rose (O.faults out.old) (O.faults out.new)) }
    ensures count { O.faults out.old ≤ O.faults out.new }
{
    put_labelled(out, sensors_refused(), u128::from(line))?;
    put_bytes(out, b"\n")
}

/// Writes the line of a read that failed, `p10: read fault`.
///
/// # Errors
///
/// A fault only where the sink's count of faults rose; it then took a prefix of the line.
#[tactic(auto, unfolding(crate::specs::Messages::read_fault_line))]
pub fn put_read_fault<O: Sink>(out: &mut O) -> Result<(), SinkFault>
    ensures ok { OnOk result (Appends (O.taken out.old) (O.taken out.new) read_fault_line) }
    ensures stopped { OnErr result (StopsWithin (O.taken out.old) (O.taken out.new) read_fault_line) }
    ensures failed { OnErr result (Rose (O.faults out.old) (O.faults out.new)) }
    ensures count { O.faults out.old ≤ O.faults out.new }
{
    put_bytes(out, b"p10: read fault\n")
}

/// Writes the line for running out of memory, `p10: out of memory`.
///
/// # Errors
///
/// A fault only where the sink's count of faults rose; it then took a prefix of the line.
#[tactic(auto, unfolding(crate::specs::Messages::out_of_memory_line))]
pub fn put_out_of_memory<O: Sink>(out: &mut O) -> Result<(), SinkFault>
    ensures ok { OnOk result (Appends (O.taken out.old) (O.taken out.new) out_of_memory_line) }
    ensures stopped { OnErr result (StopsWithin (O.taken out.old) (O.taken out.new) out_of_memory_line) }
    ensures failed { OnErr result (Rose (O.faults out.old) (O.faults out.new)) }
    ensures count { O.faults out.old ≤ O.faults out.new }
{
    put_bytes(out, b"p10: out of memory\n")
}

/// What stands before the name of a file that isn't there.
#[tactic(auto, unfolding(crate::specs::Messages::absent_label))]
fn absent() -> &'static [u8]
    ensures { result.now ≡ absent_label }
{
    b"p10: absent: "
}

/// What stands before the number of the line at which a certificate is refused.
#[tactic(auto, unfolding(crate::specs::Messages::refused_at_label))]
fn refused_at() -> &'static [u8]
    ensures { result.now ≡ refused_at_label }
{
    b"p10: certificate refused at line "
}

/// What stands before the number of the line at which the certificate from before an edit is refused.
#[tactic(auto, unfolding(crate::specs::Messages::old_refused_label))]
fn old_refused() -> &'static [u8]
    ensures { result.now ≡ old_refused_label }
{
    b"p10: old certificate refused at line "
}

/// What stands before the number of the line at which a file of sensor values is refused.
#[tactic(auto, unfolding(crate::specs::Messages::sensors_refused_label))]
fn sensors_refused() -> &'static [u8]
    ensures { result.now ≡ sensors_refused_label }
{
    b"p10: sensor file refused at line "
}
