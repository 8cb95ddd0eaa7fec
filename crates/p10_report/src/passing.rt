//! The line of how many functions were passed.

ghost use Rattle.std.specs.Prelude.{◌≤◌, OnErr, OnOk};
ghost use Rattle.std.specs.Io.KnownBytes.{Appends};
ghost use Rattle.p10_world.specs.Faults.{Rose};
ghost use Rattle.p10_report.specs.Lines.{passed_line};
ghost use Rattle.p10_report.specs.Stops.{StopsWithin};

use crate::pieces::{put_bytes, put_labelled};
use p10_world::{Sink, SinkFault};

/// Writes the line of how many functions were passed, `passed N of M`: `passed` of `functions`.
///
/// The sink took the whole line at `Ok`.
///
/// # Errors
///
/// A fault only where the sink's count of faults rose; it then took a prefix of the line.
#[tactic(auto, using(crate::proofs::Stopping::stops), unfolding(crate::specs::Lines::passed_line))]
pub fn put_passed<O: Sink>(out: &mut O, passed: u64, functions: u64) -> Result<(), SinkFault>
    ensures ok { OnOk result (Appends (O.taken out.old) (O.taken out.new) (passed_line passed functions)) }
    ensures stopped { OnErr result (StopsWithin (O.taken out.old) (O.taken out.new) (passed_line passed functions)) }
    ensures failed { OnErr result (Rose (O.faults out.old) (O.faults out.new)) }
    ensures count { O.faults out.old ≤ O.faults out.new }
{
    put_labelled(out, b"passed ", u128::from(passed))?;
    put_labelled(out, b" of ", u128::from(functions))?;
    put_bytes(out, b"\n")
}
