//! The command `run` of `p10`: a program runs, and how it has ended is reported.
//!
//!     run a.c                        p10: returned 0 calls 1 bytes 4
//!                                    p10: undefined U1 at a.c:4:12
//!     run --cert a.p10 a.c           refused: K11 a.c:1:5
//!     run --sensors v.txt a.c        p10: sensor file refused at line 1
//!
//! Entry point: [`run`]. The sources are gathered, the certificate and the file of sensor values are loaded where the command names
//! them, the sources are read as a program, the certificate is judged for it, the values are read, and the program runs: it takes its
//! input from the source, and its output goes to the sink as it comes. The first of these that gives nothing to run with is what is
//! reported, and else the end of the run. Invariant: the status and both texts are those of a right answer, and where files and input
//! are told at most one is right, unless a read fails or memory runs out. Which words are this command is left to the crate above.
#![tactic(auto)]

ghost use Rattle.std.specs.Prelude.{◌≡◌, ◌≢◌, ◌⊎◌, ◌≤◌, ◌^◌, length};
ghost use Rattle.p10_world.specs.Faults.{Rose};
ghost use Rattle.p10_command.specs.Seen.{files_seen, input_seen};
ghost use Rattle.p10_command.specs.Told.{Told, Stopped};
ghost use Rattle.p10_run_command.specs.Answers.{SaysRight};

mod command;
mod granting;
pub mod laws;
mod loading;
mod program;
mod sensors;
mod tell;

pub use command::RunCommand;
use loading::{Loaded, load_files};
use p10_command::{GatheredRoots, gather_roots, tell_trouble, tell_ungathered};
use p10_world::{Files, Sink, Source};
use program::run_sources;
pub use sensors::NoValues;
use std::alloc::Global;
use tell::tell_absent;

/// Obeys the command: runs the sources' program on `input` and `out`, and reports on `err` how it has ended, or why there is none.
/// Gives the status with which the program exits.
///
/// The statuses: 0 returned or left after its turns, 1 a condition of the certificate doesn't hold, 3 the sources are refused, 4 no
/// certificate, 5 a read failed, 6 a write failed, 7 out of memory, 8 a limit is exceeded, 9 a file is absent, 10 an assertion has
/// failed, 11 an undefined operation, 12 no step is left, 13 a line of the file of sensor values has another form.
pub fn run<F: Files, I: Source, O: Sink, E: Sink>(
    alloc: Global,
    command: &RunCommand,
    files: &mut F,
    input: &mut I,
    out: &mut O,
    err: &mut E,
) -> u8
    requires few { length command.now.sources ≤ 65536 }
    requires turns { command.now.turns ≤ 10 ^ 18 }

    // The status and both texts are those of a right answer.
    ensures told { result ≢ 6 → Told (SaysRight command.now
        (files_seen (F.held files.old) (F.faults files.old) (F.faults files.new))
        (input_seen (I.left input.old) (I.faults input.old) (I.faults input.new)))
        (O.taken out.old) (O.taken out.new) (E.taken err.old) (E.taken err.new) result }

    // Where a write failed, each output has taken a prefix of its text.
    ensures stopped { result ≡ 6 → Stopped (SaysRight command.now
        (files_seen (F.held files.old) (F.faults files.old) (F.faults files.new))
        (input_seen (I.left input.old) (I.faults input.old) (I.faults input.new)))
        (O.taken out.old) (O.taken out.new) (E.taken err.old) (E.taken err.new) }
    ensures write { result ≡ 6 → Rose (O.faults out.old) (O.faults out.new) ⊎ Rose (E.faults err.old) (E.faults err.new) }

    ensures held { F.held files.new ≡ F.held files.old }
{
    let roots = command.sources.as_slice();
    let gathered = gather_roots(alloc, files, roots, command.directories.as_slice());
    match gathered {
        Ok(GatheredRoots::All(sources)) => match load_files(alloc, files, command) {
            Ok(Loaded::Request(request)) => {
                run_sources(alloc, &request, &sources, input, out, err)
            }
            Ok(Loaded::Absent(name)) => tell_absent(name, err),
            Err(trouble) => tell_trouble(trouble, err),
        },
        Ok(GatheredRoots::Stopped(why, sources)) => tell_ungathered(roots, &sources, &why, err),
        Err(trouble) => tell_trouble(trouble, err),
    }
}
