//! The command as a whole.

ghost use Rattle.std.specs.Prelude.{◌≡◌, ◌≢◌, ◌⊎◌, ◌≤◌, length};
ghost use Rattle.p10_world.specs.Faults.{Rose};
ghost use Rattle.p10_command.specs.Seen.{files_seen};
ghost use Rattle.p10_command.specs.Told.{Told, Stopped};
ghost use Rattle.p10_recheck_command.specs.Told.{SaysRight};
ghost use Rattle.p10_recheck_command.specs.private.Deciding.{Answered};

use crate::answer::Answer;
use crate::decide::{Decision, decide};
use crate::tell::tell;
use p10_base::{ListBuf, Sources, TextBuf};
use p10_world::{Files, Sink};
use std::alloc::Global;

/// `recheck [--include DIRECTORIES] --since OLD --cert CERTIFICATE SOURCE..`
#[derive(Drop)]
pub struct RecheckCommand {
    /// The directories in which included files are looked for, in their order.
    pub directories: ListBuf<TextBuf>,
    /// The name of the file of the certificate from before the edit.
    pub since: TextBuf,
    /// The name of the file of the certificate from after it.
    pub certificate: TextBuf,
    /// The names of the source files.
    pub sources: ListBuf<TextBuf>,
}

/// Obeys the command: reports on `out` whether the certificate from after the edit bounds every run of the sources' program, by passing those
/// functions alone that the edit can have touched, and how many these are; all else is written to `err`. Gives the status with which the
/// program exits.
///
/// The statuses: 0 accepted, 1 a condition doesn't hold, 3 the sources are refused, 4 no certificate of version 2, 5 a read failed, 6 a
/// write failed, 7 out of memory, 8 a limit is exceeded, 9 a file is absent.
pub fn recheck<F: Files, O: Sink, E: Sink>(
    alloc: Global,
    command: &RecheckCommand,
    files: &mut F,
    out: &mut O,
    err: &mut E,
) -> u8
    requires { length command.now.sources ≤ 65536 }
    // The status and both texts are those of a right answer.
    ensures told { result ≢ 6 → Told (SaysRight command.now
        (files_seen (F.held files.old) (F.faults files.old) (F.faults files.new)))
        (O.taken out.old) (O.taken out.new) (E.taken err.old) (E.taken err.new) result }

    // Where a write failed, each output has taken a prefix of its text.
    ensures stopped { result ≡ 6 → Stopped (SaysRight command.now
        (files_seen (F.held files.old) (F.faults files.old) (F.faults files.new)))
        (O.taken out.old) (O.taken out.new) (E.taken err.old) (E.taken err.new) }
    ensures write { result ≡ 6 → Rose (O.faults out.old) (O.faults out.new) ⊎ Rose (E.faults err.old) (E.faults err.new) }

    ensures held { F.held files.new ≡ F.held files.old }
{
    let decision = answer_to(alloc, command, files);
    match tell(command, &decision.answer, &decision.sources, out, err) {
        Ok(()) => decision.answer.status(),
        Err(_) => 6,
    }
}

/// The answer to the command, with the sources in which its places lie.
fn answer_to<F: Files>(alloc: Global, command: &RecheckCommand, files: &mut F) -> Decision
    requires { length command.now.sources ≤ 65536 }
    ensures right { Answered
        (files_seen (F.held files.old) (F.faults files.old) (F.faults files.new))
        command.now result.sources result.answer }
    ensures held { F.held files.new ≡ F.held files.old }
{
    match decide(alloc, command, files) {
        Ok(decision) => decision,
        Err(trouble) => Decision {
            answer: Answer::Trouble(trouble),
            sources: Sources::new(alloc),
        },
    }
}
