//! The command `derive` of `p10`: a certificate for a program is found, or why there is none.
//!
//!     derive a.c                     p10cert 1
//!                                    func main rank 0 steps 3 calls 1 bytes 0 alloc 0
//!                                    result 0 0
//!                                    total prefix 3 turn 0 calls 1 bytes 0
//!                                    end
//!
//!     derive --cert-version 2 a.c    the same claims in version 2, with the digests of the words of a.c
//!
//!     derive --diff a.c              the same, where variables that approach each other may bound turns, with the ranks that say so
//!
//!     derive b.c                     b.c:3:5: rule 2.1: loop without a proved bound
//!
//! Entry point: [`derive`]. The sources are gathered and read as a program, and what derivation answers of it is reported: the text
//! of its certificate on the output, and else on the error output the violations for which there is none, or the limit that is
//! exceeded. Invariant: the status and both texts are those of a right answer, and where the files are told at most one is right,
//! unless a read fails or memory runs out. Which words are this command is left to the crate above, and what is derived to
//! `p10_finder`.
#![tactic(auto)]

ghost use Rattle.std.specs.Prelude.{◌≡◌, ◌≢◌, ◌⊎◌, ◌≤◌, length};
ghost use Rattle.p10_world.specs.Faults.{Rose};
ghost use Rattle.p10_command.specs.Seen.{files_seen};
ghost use Rattle.p10_command.specs.Told.{Told, Stopped};
ghost use Rattle.p10_derive_command.specs.Answers.{SaysRight};

mod command;
mod derivation;
pub mod laws;
mod program;
mod tell;

pub use command::DeriveCommand;
use p10_command::{GatheredRoots, gather_roots, tell_trouble, tell_ungathered};
use p10_world::{Files, Sink};
use program::derive_sources;
use std::alloc::Global;

/// Obeys the command: writes to `out` the certificate that is derived of the sources' program, and all else to `err`. Gives the
/// status with which the program exits.
///
/// The statuses: 0 a certificate, 1 violations for which there is none, 3 the sources are refused, 5 a read failed, 6 a write
/// failed, 7 out of memory, 8 a limit is exceeded, 9 a file is absent.
pub fn derive<F: Files, O: Sink, E: Sink>(
    alloc: Global,
    command: &DeriveCommand,
    files: &mut F,
    out: &mut O,
    err: &mut E,
) -> u8
    requires { length command.now.sources ≤ 65536 }

    // The status and both texts are those of a right answer.
    ensures told { result ≢ 6 → Told (SaysRight command.now
        (files_seen (F.held files.old) (F.faults files.old) (F.faults files.new)))
        (O.taken out.old) (O.taken out.new) (E.taken err.old) (E.taken err.new) result }

    // Where a write failed, each output has taken a prefix of its text.
    ensures stopped { result ≡ 6 → Stopped (SaysRight command.now
        (files_seen (F.held files.old) (F.faults files.old) (F.faults files.new)))
        (O.taken out.old) (O.taken out.new) (E.taken err.old) (E.taken err.new) }
    ensures write { result ≡ 6 → Rose (O.faults out.old) (O.faults out.new) ⊎ Rose (E.faults err.old) (E.faults err.new) }

    ensures held { F.held files.new ≡ F.held files.old }
{
    let roots = command.sources.as_slice();
    match gather_roots(alloc, files, roots, command.directories.as_slice()) {
        Ok(GatheredRoots::All(sources)) => derive_sources(
            alloc,
            &sources,
            command.version,
            command.diff,
            out,
            err,
        ),
        Ok(GatheredRoots::Stopped(why, sources)) => tell_ungathered(roots, &sources, &why, err),
        Err(trouble) => tell_trouble(trouble, err),
    }
}
