//! The lines that report a generated program.

ghost use Rattle.std.specs.Prelude.{◌≡◌, ◌+◌, ◌≤◌, OnErr, OnOk, codes};
ghost use Rattle.std.specs.Io.KnownBytes.{Appends};
ghost use Rattle.p10_world.specs.Faults.{Rose};
ghost use Rattle.p10_report.specs.Lines.{depths_part, labelled, labelled_signed};
ghost use Rattle.p10_report.specs.Stops.{StopsWithin};
ghost use Rattle.p10_gen_command.specs.Lines.{certified_part, derived_label, derived_line, failing_line, functions_label, functions_part, generated_line, shown_text, used_part, value_line, verified_line};

use crate::answer::Stage;
use itoa::Buffer;
use p10_base::Bounds;
use p10_world::{Sink, SinkFault};

/// Writes that the program of `functions` functions and `main` has a certificate with these bounds, and returns this value.
///
/// # Errors
///
/// A fault only where the sink's count of faults rose; it then took a prefix of the lines.
#[tactic(auto, using(p10_report::proofs::Stopping::stops), unfolding(crate::specs::Lines::shown_text))]
pub fn put_shown<O: Sink>(
    out: &mut O,
    functions: u64,
    bounds: &Bounds,
    value: i64,
) -> Result<(), SinkFault>
    ensures ok { OnOk result (Appends (O.taken out.old) (O.taken out.new) (shown_text functions bounds.now value)) }
    ensures stopped { OnErr result (StopsWithin (O.taken out.old) (O.taken out.new) (shown_text functions bounds.now value)) }
    ensures failed { OnErr result (Rose (O.faults out.old) (O.faults out.new)) }
    ensures count { O.faults out.old ≤ O.faults out.new }
{
    put_generated(out, functions)?;
    put_certified(out, bounds, value)
}

/// Writes at which stage the program fails.
///
/// # Errors
///
/// A fault only where the sink's count of faults rose; it then took a prefix of the line.
#[tactic(auto, unfolding(crate::specs::Lines::failing_line))]
pub fn put_failing<E: Sink>(err: &mut E, stage: Stage) -> Result<(), SinkFault>
    ensures ok { OnOk result (Appends (E.taken err.old) (E.taken err.new) (failing_line stage)) }
    ensures stopped { OnErr result (StopsWithin (E.taken err.old) (E.taken err.new) (failing_line stage)) }
    ensures failed { OnErr result (Rose (E.faults err.old) (E.faults err.new)) }
    ensures count { E.faults err.old ≤ E.faults err.new }
{
    put_bytes(
        err,
        match stage {
            Stage::Reading => b"p10: gen.c is no program\n".as_slice(),
            Stage::Deriving => b"p10: gen.c has no certificate\n".as_slice(),
            Stage::Verifying => b"p10: the certificate of gen.c is refused\n".as_slice(),
            Stage::Running => b"p10: gen.c doesn't return\n".as_slice(),
        },
    )
}

/// Writes how many functions there are, `main` included.
#[tactic(auto, using(p10_report::proofs::Stopping::stops), unfolding(crate::specs::Lines::generated_line))]
fn put_generated<O: Sink>(out: &mut O, functions: u64) -> Result<(), SinkFault>
    ensures ok { OnOk result (Appends (O.taken out.old) (O.taken out.new) (generated_line functions)) }
    ensures stopped { OnErr result (StopsWithin (O.taken out.old) (O.taken out.new) (generated_line functions)) }
    ensures failed { OnErr result (Rose (O.faults out.old) (O.faults out.new)) }
    ensures count { O.faults out.old ≤ O.faults out.new }
{
    put_labelled(out, b"gen ", u128::from(functions))?;
    put_count(out, u128::from(functions) + 1)
}

/// Writes how many functions there are, and ends the line.
#[tactic(auto, using(p10_report::proofs::Stopping::stops), unfolding(crate::specs::Lines::functions_part))]
fn put_count<O: Sink>(out: &mut O, count: u128) -> Result<(), SinkFault>
    ensures ok { OnOk result (Appends (O.taken out.old) (O.taken out.new) (functions_part count)) }
    ensures stopped { OnErr result (StopsWithin (O.taken out.old) (O.taken out.new) (functions_part count)) }
    ensures failed { OnErr result (Rose (O.faults out.old) (O.faults out.new)) }
    ensures count { O.faults out.old ≤ O.faults out.new }
{
    put_labelled(out, functions_label(), count)?;
    put_bytes(out, b"\n")
}

/// Writes the total of the derived certificate.
#[tactic(auto, using(p10_report::proofs::Stopping::stops), unfolding(crate::specs::Lines::derived_line))]
fn put_derived<O: Sink>(out: &mut O, bounds: &Bounds) -> Result<(), SinkFault>
    ensures ok { OnOk result (Appends (O.taken out.old) (O.taken out.new) (derived_line bounds.now)) }
    ensures stopped { OnErr result (StopsWithin (O.taken out.old) (O.taken out.new) (derived_line bounds.now)) }
    ensures failed { OnErr result (Rose (O.faults out.old) (O.faults out.new)) }
    ensures count { O.faults out.old ≤ O.faults out.new }
{
    put_labelled(out, derived_label(), u128::from(bounds.prefix))?;
    put_depths(out, bounds.calls, bounds.bytes)
}

/// Writes the greatest depths in calls and in bytes, and ends the line.
#[tactic(auto, using(p10_report::proofs::Stopping::stops), unfolding(p10_report::specs::Lines::depths_part))]
fn put_depths<O: Sink>(out: &mut O, calls: u64, bytes: u64) -> Result<(), SinkFault>
    ensures ok { OnOk result (Appends (O.taken out.old) (O.taken out.new) (depths_part calls bytes)) }
    ensures stopped { OnErr result (StopsWithin (O.taken out.old) (O.taken out.new) (depths_part calls bytes)) }
    ensures failed { OnErr result (Rose (O.faults out.old) (O.faults out.new)) }
    ensures count { O.faults out.old ≤ O.faults out.new }
{
    put_labelled(out, b" calls ", u128::from(calls))?;
    put_labelled(out, b" bytes ", u128::from(bytes))?;
    put_bytes(out, b"\n")
}

/// Writes the total of the derived certificate, and what came of it.
#[tactic(auto, using(p10_report::proofs::Stopping::stops), unfolding(crate::specs::Lines::certified_part))]
fn put_certified<O: Sink>(out: &mut O, bounds: &Bounds, value: i64) -> Result<(), SinkFault>
    ensures ok { OnOk result (Appends (O.taken out.old) (O.taken out.new) (certified_part bounds.now value)) }
    ensures stopped { OnErr result (StopsWithin (O.taken out.old) (O.taken out.new) (certified_part bounds.now value)) }
    ensures failed { OnErr result (Rose (O.faults out.old) (O.faults out.new)) }
    ensures count { O.faults out.old ≤ O.faults out.new }
{
    put_derived(out, bounds)?;
    put_used(out, value)
}

/// Writes what came of the certificate.
#[tactic(auto, using(p10_report::proofs::Stopping::stops), unfolding(crate::specs::Lines::used_part))]
fn put_used<O: Sink>(out: &mut O, value: i64) -> Result<(), SinkFault>
    ensures ok { OnOk result (Appends (O.taken out.old) (O.taken out.new) (used_part value)) }
    ensures stopped { OnErr result (StopsWithin (O.taken out.old) (O.taken out.new) (used_part value)) }
    ensures failed { OnErr result (Rose (O.faults out.old) (O.faults out.new)) }
    ensures count { O.faults out.old ≤ O.faults out.new }
{
    put_verified(out)?;
    put_value(out, value)
}

/// Writes that the certificate was accepted.
#[tactic(auto, unfolding(crate::specs::Lines::verified_line))]
fn put_verified<O: Sink>(out: &mut O) -> Result<(), SinkFault>
    ensures ok { OnOk result (Appends (O.taken out.old) (O.taken out.new) verified_line) }
    ensures stopped { OnErr result (StopsWithin (O.taken out.old) (O.taken out.new) verified_line) }
    ensures failed { OnErr result (Rose (O.faults out.old) (O.faults out.new)) }
    ensures count { O.faults out.old ≤ O.faults out.new }
{
    put_bytes(out, b"verified: accepted\n")
}

/// Writes what `main` has returned.
#[tactic(auto, using(p10_report::proofs::Stopping::stops), unfolding(crate::specs::Lines::value_line))]
fn put_value<O: Sink>(out: &mut O, value: i64) -> Result<(), SinkFault>
    ensures ok { OnOk result (Appends (O.taken out.old) (O.taken out.new) (value_line value)) }
    ensures stopped { OnErr result (StopsWithin (O.taken out.old) (O.taken out.new) (value_line value)) }
    ensures failed { OnErr result (Rose (O.faults out.old) (O.faults out.new)) }
    ensures count { O.faults out.old ≤ O.faults out.new }
{
    put_signed(out, b"returned ", i128::from(value))?;
    put_bytes(out, b"\n")
}

/// Writes a number in decimal after the text that says which it is.
#[tactic(auto, using(p10_report::proofs::Stopping::stops), unfolding(p10_report::specs::Lines::labelled))]
fn put_labelled<O: Sink>(out: &mut O, label: &[u8], number: u128) -> Result<(), SinkFault>
    ensures ok { OnOk result (Appends (O.taken out.old) (O.taken out.new) (labelled label.now number)) }
    ensures stopped { OnErr result (StopsWithin (O.taken out.old) (O.taken out.new) (labelled label.now number)) }
    ensures failed { OnErr result (Rose (O.faults out.old) (O.faults out.new)) }
    ensures count { O.faults out.old ≤ O.faults out.new }
{
    put_bytes(out, label)?;
    put_bytes(out, Buffer::new().format(number).as_bytes())
}

/// Writes a number in decimal, with its sign, after the text that says which it is.
#[tactic(auto, using(p10_report::proofs::Stopping::stops), unfolding(p10_report::specs::Lines::labelled_signed))]
fn put_signed<O: Sink>(out: &mut O, label: &[u8], number: i128) -> Result<(), SinkFault>
    ensures ok { OnOk result (Appends (O.taken out.old) (O.taken out.new) (labelled_signed label.now number)) }
    ensures stopped { OnErr result (StopsWithin (O.taken out.old) (O.taken out.new) (labelled_signed label.now number)) }
    ensures failed { OnErr result (Rose (O.faults out.old) (O.faults out.new)) }
    ensures count { O.faults out.old ≤ O.faults out.new }
{
    put_bytes(out, label)?;
    put_bytes(out, Buffer::new().format(number).as_bytes())
}

/// Writes bytes.
fn put_bytes<O: Sink>(out: &mut O, bytes: &[u8]) -> Result<(), SinkFault>
    ensures ok { OnOk result (Appends (O.taken out.old) (O.taken out.new) bytes.now) }
    ensures stopped { OnErr result (StopsWithin (O.taken out.old) (O.taken out.new) bytes.now) }
    ensures failed { OnErr result (Rose (O.faults out.old) (O.faults out.new)) }
    ensures count { O.faults out.old ≤ O.faults out.new }
{
    out.put(bytes)
}

/// What stands before the steps of a derived certificate.
#[tactic(auto, unfolding(crate::specs::Lines::derived_label))]
fn derived_label() -> &'static [u8]
    ensures { result.now ≡ derived_label }
{
    b"derived: prefix "
}

/// What stands before the number of functions.
#[tactic(auto, unfolding(crate::specs::Lines::functions_label))]
fn functions_label() -> &'static [u8]
    ensures { result.now ≡ functions_label }
{
    b": functions "
}
