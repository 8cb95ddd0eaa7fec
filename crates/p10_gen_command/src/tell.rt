//! What is said for an answer.

ghost use Rattle.std.specs.Prelude.{◌⊎◌, ◌≤◌, OnErr, OnOk};
ghost use Rattle.p10_world.specs.Faults.{Rose};
ghost use Rattle.p10_command.specs.Told.{BothTake, BothTakeFronts};
ghost use Rattle.p10_gen_command.specs.Told.{err_text, out_text};

use crate::answer::Answer;
use crate::lines::{put_failing, put_shown};
use p10_report::{put_limit, put_out_of_memory};
use p10_world::{Sink, SinkFault};

/// Writes both texts of an answer for the program of `functions` functions.
///
/// # Errors
///
/// A fault only where the count of faults of an output rose; each has then taken a prefix of its text.
pub fn tell<O: Sink, E: Sink>(
    functions: u64,
    answer: &Answer,
    out: &mut O,
    err: &mut E,
) -> Result<(), SinkFault>
    ensures ok { OnOk result (BothTake (O.taken out.old) (O.taken out.new) (E.taken err.old) (E.taken err.new) (out_text functions answer.now) (err_text answer.now)) }
    ensures stopped { OnErr result (BothTakeFronts (O.taken out.old) (O.taken out.new) (E.taken err.old) (E.taken err.new) (out_text functions answer.now) (err_text answer.now)) }
    ensures failed { OnErr result (Rose (O.faults out.old) (O.faults out.new) ⊎ Rose (E.faults err.old) (E.faults err.new)) }
{
    match answer {
        Answer::Over(limit) => put_limit(err, *limit),
        Answer::Fails(stage) => put_failing(err, *stage),
        Answer::Returns(bounds, value) => put_shown(out, functions, bounds, *value),
        Answer::OutOfMemory => put_out_of_memory(err),
    }
}
