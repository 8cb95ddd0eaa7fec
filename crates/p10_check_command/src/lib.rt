//! The command `check` of `p10`: what breaks Holzmann's rules in a program is reported.
//!
//!     check a.c                  a.c:1:5: rule 5.1: fewer than two assertions per function
//!     check --format json a.c    {"refusal":null,"violations":[{"col":5,"file":"a.c","line":1,"rule":"5.1","text":..}]}
//!
//! Entry point: [`check`]. The sources are gathered and read, and the rules are tried on all that was read: those on directives
//! on the directives that were obeyed, those on trees where the words have trees, and those on programs where these are a
//! program. So a refusal is reported after the violations that still stand. Invariant: the status and both texts are those of a
//! right answer, and where the files are told at most one is right, unless a read fails or memory runs out. Which words are this
//! command is left to the crate above, and what breaks a rule to the crates of the rules.
#![tactic(auto)]

ghost use Rattle.std.specs.Prelude.{◌≡◌, ◌≢◌, ◌⊎◌, ◌≤◌, length};
ghost use Rattle.p10_world.specs.Faults.{Rose};
ghost use Rattle.p10_command.specs.Seen.{files_seen};
ghost use Rattle.p10_command.specs.Told.{Told, Stopped};
ghost use Rattle.p10_check_command.specs.Answers.{SaysRight};

mod command;
pub mod laws;
mod report;
mod sources;
mod tell;
mod violations;

pub use command::CheckCommand;
use p10_command::{GatheredRoots, gather_roots, tell_trouble};
use p10_world::{Files, Sink};
pub use report::Report;
use sources::check_sources;
use std::alloc::Global;
use tell::tell_gathering;

/// Obeys the command: reports on `out` what breaks a rule and why the sources are refused, and all else on `err`. Gives the status
/// with which the program exits.
///
/// The statuses: 0 nothing breaks a rule, 1 something does, 3 the sources are refused, 5 a read failed, 6 a write failed, 7 out
/// of memory, 8 a limit is exceeded, 9 a file is absent.
pub fn check<F: Files, O: Sink, E: Sink>(
    alloc: Global,
    command: &CheckCommand,
    files: &mut F,
    out: &mut O,
    err: &mut E,
) -> u8
    requires { length command.now.sources ≤ 65536 }

    // The status and both texts are those of a right answer.
    ensures told { result ≢ 6 → Told (SaysRight command.now
        (files_seen (F.held files.old) (F.faults files.old) (F.faults files.new)))
        (O.taken out.old) (O.taken out.new) (E.taken err.old) (E.taken err.new) result }

    // Where a write failed, each output has taken a prefix of its text.
    ensures stopped { result ≡ 6 → Stopped (SaysRight command.now
        (files_seen (F.held files.old) (F.faults files.old) (F.faults files.new)))
        (O.taken out.old) (O.taken out.new) (E.taken err.old) (E.taken err.new) }
    ensures write { result ≡ 6 → Rose (O.faults out.old) (O.faults out.new) ⊎ Rose (E.faults err.old) (E.faults err.new) }

    ensures held { F.held files.new ≡ F.held files.old }
{
    let gathered = gather_roots(
        alloc,
        files,
        command.sources.as_slice(),
        command.directories.as_slice(),
    );
    match gathered {
        Ok(GatheredRoots::All(sources)) => check_sources(alloc, command, &sources, out, err),
        Ok(GatheredRoots::Stopped(why, sources)) => {
            tell_gathering(alloc, command, &sources, &why, out, err)
        }
        Err(trouble) => tell_trouble(trouble, err),
    }
}
