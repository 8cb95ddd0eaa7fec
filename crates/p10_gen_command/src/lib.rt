//! The command `gen` of `p10`: a program of any size is made, and a certificate for it is derived, verified and run with.
//!
//!     gen 2                          gen 2: functions 3
//!                                    derived: prefix 106 calls 2 bytes 16
//!                                    verified: accepted
//!                                    returned 3
//!
//!     gen 10000                      p10: limit M1
//!
//! Entry point: [`generate`]. The text of the program is that of `p10_gen`, in a file `gen.c` which is the only one. It is gathered,
//! read, derived and verified as by the other commands, and run within the certificate; the first limit that is exceeded on the
//! way is what is reported, and else the certificate's total and what `main` returns. A program that failed at a stage would be
//! reported so, with status 1: no number of functions is known for which it does. Invariant: the status and both texts are those of
//! a right answer, and at most one is right, unless memory runs out. Which words are this command is left to the crate above.
#![tactic(auto)]

ghost use Rattle.std.specs.Prelude.{◌≡◌, ◌≢◌, ◌⊎◌};
ghost use Rattle.p10_world.specs.Faults.{Rose};
ghost use Rattle.p10_command.specs.Told.{Told, Stopped};
ghost use Rattle.p10_gen_command.specs.Told.{SaysRight};

mod answer;
mod decide;
pub mod laws;
mod lines;
mod program;
mod tell;
mod text;

pub use answer::{Answer, Stage};
use decide::answer_to;
use p10_world::Sink;
use std::alloc::Global;
use tell::tell;

/// Obeys the command for the program of `functions` functions and `main`: reports on `out` that it has a certificate, and what it
/// returns, and all else on `err`. Gives the status with which the program exits.
///
/// The statuses: 0 derived, verified and run; 1 the program fails at one of these stages; 6 a write failed; 7 out of memory; 8 a limit
/// is exceeded.
pub fn generate<O: Sink, E: Sink>(alloc: Global, functions: u64, out: &mut O, err: &mut E) -> u8
    // The status and both texts are those of a right answer.
    ensures told { result ≢ 6 → Told (SaysRight functions) (O.taken out.old) (O.taken out.new) (E.taken err.old) (E.taken err.new) result }

    // Where a write failed, each output has taken a prefix of its text.
    ensures stopped { result ≡ 6 → Stopped (SaysRight functions) (O.taken out.old) (O.taken out.new) (E.taken err.old) (E.taken err.new) }
    ensures write { result ≡ 6 → Rose (O.faults out.old) (O.faults out.new) ⊎ Rose (E.faults err.old) (E.faults err.new) }
{
    let answer = answer_to(alloc, functions);
    match tell(functions, &answer, out, err) {
        Ok(()) => answer.status(),
        Err(_) => 6,
    }
}
