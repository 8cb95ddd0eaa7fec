//! The lines that report how a run has ended.

ghost use Rattle.std.specs.Prelude.{◌≡◌, ◌≤◌, OnErr, OnOk};
ghost use Rattle.std.specs.Io.KnownBytes.{Appends};
ghost use Rattle.p10_world.specs.Faults.{Rose};
ghost use Rattle.p10_report.specs.Endings.{returned_line, turns_line, assertion_failed_line, undefined_line, steps_spent_line, returned_label, assertion_label, undefined_label};
ghost use Rattle.p10_report.specs.Stops.{StopsWithin};

use crate::pieces::{put_bytes, put_depths, put_labelled, put_placed, put_signed};
use p10_base::{Sources, Span};
use p10_world::{Sink, SinkFault};

/// Writes the line of a run that has returned, `p10: returned V calls C bytes B`: the value that `main` returned, and the
/// greatest depths in calls and in bytes.
///
/// # Errors
///
/// A fault only where the sink's count of faults rose; it then took a prefix of the line.
pub fn put_returned<O: Sink>(
    out: &mut O,
    value: i128,
    calls: u64,
    bytes: u128,
) -> Result<(), SinkFault>
    ensures ok { OnOk result (Appends (O.taken out.old) (O.taken out.new) (returned_line value calls bytes)) }
    ensures stopped { OnErr result (StopsWithin (O.taken out.old) (O.taken out.new) (returned_line value calls bytes)) }
    ensures failed { OnErr result (Rose (O.faults out.old) (O.faults out.new)) }
    ensures count { O.faults out.old ≤ O.faults out.new }
{
    put_signed(out, returned(), value)?;
    put_depths(out, calls, bytes)
}

/// Writes the line of a run that was left at its task loop, `p10: turns N calls C bytes B`: how many turns were made, and the
/// greatest depths in calls and in bytes.
///
/// # Errors
///
/// A fault only where the sink's count of faults rose; it then took a prefix of the line.
pub fn put_turns<O: Sink>(out: &mut O, turns: u64, calls: u64, bytes: u128) -> Result<(), SinkFault>
    ensures ok { OnOk result (Appends (O.taken out.old) (O.taken out.new) (turns_line turns calls bytes)) }
    ensures stopped { OnErr result (StopsWithin (O.taken out.old) (O.taken out.new) (turns_line turns calls bytes)) }
    ensures failed { OnErr result (Rose (O.faults out.old) (O.faults out.new)) }
    ensures count { O.faults out.old ≤ O.faults out.new }
{
    put_labelled(out, b"p10: turns ", u128::from(turns))?;
    put_depths(out, calls, bytes)
}

/// Writes the line of a run in which an assertion has failed, `p10: assertion failed at FILE:LINE:COLUMN`, where `at` is the
/// assertion's place in the sources `s`.
///
/// # Errors
///
/// A fault only where the sink's count of faults rose; it then took a prefix of the line.
pub fn put_assertion_failed<O: Sink>(out: &mut O, s: &Sources, at: Span) -> Result<(), SinkFault>
    ensures ok { OnOk result (Appends (O.taken out.old) (O.taken out.new) (assertion_failed_line s.now at)) }
    ensures stopped { OnErr result (StopsWithin (O.taken out.old) (O.taken out.new) (assertion_failed_line s.now at)) }
    ensures failed { OnErr result (Rose (O.faults out.old) (O.faults out.new)) }
    ensures count { O.faults out.old ≤ O.faults out.new }
{
    put_bytes(out, assertion())?;
    put_placed(out, s, at)
}

/// Writes the line of a run that has come to an undefined operation, `p10: undefined UN at FILE:LINE:COLUMN`, where `stop` is N,
/// and `at` is the operation's place in the sources `s`.
///
/// # Errors
///
/// A fault only where the sink's count of faults rose; it then took a prefix of the line.
pub fn put_undefined<O: Sink>(out: &mut O, s: &Sources, stop: u8, at: Span) -> Result<(), SinkFault>
    ensures ok { OnOk result (Appends (O.taken out.old) (O.taken out.new) (undefined_line s.now stop at)) }
    ensures stopped { OnErr result (StopsWithin (O.taken out.old) (O.taken out.new) (undefined_line s.now stop at)) }
    ensures failed { OnErr result (Rose (O.faults out.old) (O.faults out.new)) }
    ensures count { O.faults out.old ≤ O.faults out.new }
{
    put_labelled(out, undefined(), u128::from(stop))?;
    put_placed(out, s, at)
}

/// Writes the line of a run that has taken all of its steps, `p10: steps spent`.
///
/// # Errors
///
/// A fault only where the sink's count of faults rose; it then took a prefix of the line.
#[tactic(auto, unfolding(crate::specs::Endings::steps_spent_line))]
pub fn put_steps_spent<O: Sink>(out: &mut O) -> Result<(), SinkFault>
    ensures ok { OnOk result (Appends (O.taken out.old) (O.taken out.new) steps_spent_line) }
    ensures stopped { OnErr result (StopsWithin (O.taken out.old) (O.taken out.new) steps_spent_line) }
    ensures failed { OnErr result (Rose (O.faults out.old) (O.faults out.new)) }
    ensures count { O.faults out.old ≤ O.faults out.new }
{
    put_bytes(out, b"p10: steps spent\n")
}

/// What stands before the value that `main` has returned.
#[tactic(auto, unfolding(crate::specs::Endings::returned_label))]
fn returned() -> &'static [u8]
    ensures { result.now ≡ returned_label }
{
    b"p10: returned "
}

/// What stands before the number of an undefined operation.
#[tactic(auto, unfolding(crate::specs::Endings::undefined_label))]
fn undefined() -> &'static [u8]
    ensures { result.now ≡ undefined_label }
{
    b"p10: undefined U"
}

/// What stands before the place of an assertion that has failed.
#[tactic(auto, unfolding(crate::specs::Endings::assertion_label))]
fn assertion() -> &'static [u8]
    ensures { result.now ≡ assertion_label }
{
    b"p10: assertion failed"
}
