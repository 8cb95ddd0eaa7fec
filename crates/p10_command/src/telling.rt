//! Why a command has no answer, reported with the status of the program.

ghost use Rattle.std.specs.Prelude.{◌≡◌, ◌≢◌};
ghost use Rattle.p10_world.specs.Faults.{Rose};
ghost use Rattle.p10_report.specs.Lines.{limit_line};
ghost use Rattle.p10_report.specs.Stops.{StopsWithin};
ghost use Rattle.p10_command.specs.Gathering.{CanBeTold};
ghost use Rattle.p10_command.specs.Reading.{HasCode};
ghost use Rattle.p10_command.specs.Saying.{trouble_line, trouble_status, ungathered_line, ungathered_status, unread_line, unread_status};
ghost use Rattle.p10_command.specs.Told.{IsTold};

use crate::gathering::{Ungathered, put_ungathered};
use crate::reading::{Unread, put_unread};
use crate::trouble::{Trouble, put_trouble};
use p10_base::{Limit, Sources, TextBuf};
use p10_report::put_limit;
use p10_world::Sink;

/// Reports why sources aren't gathered, as [`put_ungathered`], and gives the status of the program; 6 where the write failed.
pub fn tell_ungathered<E: Sink>(
    roots: &[TextBuf],
    sources: &Sources,
    why: &Ungathered,
    err: &mut E,
) -> u8
    requires { CanBeTold roots.now why.now }
    ensures told { result ≢ 6 → IsTold (ungathered_status why.now) (ungathered_line roots.now sources.now why.now) (E.taken err.old) (E.taken err.new) result }
    ensures stopped { result ≡ 6 → StopsWithin (E.taken err.old) (E.taken err.new) (ungathered_line roots.now sources.now why.now) }
    ensures write { result ≡ 6 → Rose (E.faults err.old) (E.faults err.new) }
{
    match put_ungathered(err, roots, sources, why) {
        Ok(()) => why.status(),
        Err(_) => 6,
    }
}

/// Reports why gathered sources are no program, as [`put_unread`], and gives the status of the program; 6 where the write failed.
pub fn tell_unread<E: Sink>(sources: &Sources, why: &Unread, err: &mut E) -> u8
    requires { HasCode why.now }
    ensures told { result ≢ 6 → IsTold (unread_status why.now) (unread_line sources.now why.now) (E.taken err.old) (E.taken err.new) result }
    ensures stopped { result ≡ 6 → StopsWithin (E.taken err.old) (E.taken err.new) (unread_line sources.now why.now) }
    ensures write { result ≡ 6 → Rose (E.faults err.old) (E.faults err.new) }
{
    match put_unread(err, sources, why) {
        Ok(()) => why.status(),
        Err(_) => 6,
    }
}

/// Reports that a read has failed or memory is out, as [`put_trouble`], and gives the status of the program; 6 where the write failed.
pub fn tell_trouble<E: Sink>(trouble: Trouble, err: &mut E) -> u8
    ensures told { result ≢ 6 → IsTold (trouble_status trouble) (trouble_line trouble) (E.taken err.old) (E.taken err.new) result }
    ensures stopped { result ≡ 6 → StopsWithin (E.taken err.old) (E.taken err.new) (trouble_line trouble) }
    ensures write { result ≡ 6 → Rose (E.faults err.old) (E.faults err.new) }
{
    match put_trouble(err, trouble) {
        Ok(()) => trouble.status(),
        Err(_) => 6,
    }
}

/// Reports that a limit is exceeded, and gives the status of the program; 6 where the write failed.
pub fn tell_limit<E: Sink>(limit: Limit, err: &mut E) -> u8
    ensures told { result ≢ 6 → IsTold 8 (limit_line limit) (E.taken err.old) (E.taken err.new) result }
    ensures stopped { result ≡ 6 → StopsWithin (E.taken err.old) (E.taken err.new) (limit_line limit) }
    ensures write { result ≡ 6 → Rose (E.faults err.old) (E.faults err.new) }
{
    match put_limit(err, limit) {
        Ok(()) => 8,
        Err(_) => 6,
    }
}
