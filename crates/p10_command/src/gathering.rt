//! The sources of a command are gathered.

ghost use Rattle.std.specs.Prelude.{◌≡◌, ◌≤◌, IfOk, IsErrOf, OnErr, OnOk, length};
ghost use Rattle.std.specs.Io.KnownBytes.{Appends};
ghost use Rattle.p10_world.specs.Faults.{Rose};
ghost use Rattle.p10_expand.specs.Setting.{setting};
ghost use Rattle.p10_report.specs.Stops.{StopsWithin};
ghost use Rattle.p10_command.specs.Gathering.{AreGathered, CanBeTold};
ghost use Rattle.p10_command.specs.Saying.{ungathered_line};
ghost use Rattle.p10_command.specs.private.Stopping.{roots_without};

use crate::texts::strings;
use crate::trouble::Trouble;
use p10_base::{Limit, Refusal, Sources, TextBuf};
use p10_expand::{GatherFault, gather};
use p10_report::{put_absent, put_limit, put_refusal};
use p10_world::{Files, Sink, SinkFault};
use std::alloc::Global;

/// Why the sources of a command aren't gathered.
#[derive(Clone, Copy, Debug)]
pub enum Ungathered {
    /// There is no file with the name of the root at this place.
    AbsentRoot(u32),
    /// A file is refused: X1 to X6.
    Refused(Refusal),
    /// A file exceeds M1 or M2, or all files together exceed M7.
    Over(Limit),
}

impl Ungathered {
    ghost use Rattle.p10_command.specs.Saying.{ungathered_status};

    /// The status with which the program exits.
    pub fn status(&self) -> u8
        ensures { result ≡ ungathered_status self.now }
    {
        match self {
            Ungathered::AbsentRoot(_) => 9,
            Ungathered::Refused(_) => 3,
            Ungathered::Over(_) => 8,
        }
    }
}

/// What the roots of a command come to.
#[derive(Drop)]
pub enum GatheredRoots {
    /// All files are gathered.
    All(Sources),
    /// Why they aren't, and the files in which a refusal lies.
    Stopped(Ungathered, Sources),
}

/// Gathers the files of a command: its roots by their names, and what they include, which is looked for in the directories.
///
/// # Errors
///
/// `Read` only where the count of faults of `files` rose. `Memory` may come at any files.
pub fn gather_roots<F: Files>(
    alloc: Global,
    files: &mut F,
    roots: &[TextBuf],
    directories: &[TextBuf],
) -> Result<GatheredRoots, Trouble>
    requires { length roots.now ≤ 65536 }
    ensures gathered { IfOk result (AreGathered (setting (F.held files.old) roots.now directories.now)) }
    ensures failed { IsErrOf result Trouble.Read → Rose (F.faults files.old) (F.faults files.new) }
    ensures count { F.faults files.old ≤ F.faults files.new }
    ensures held { F.held files.new ≡ F.held files.old }
{
    let named_roots = strings(alloc, roots)?;
    let named_directories = strings(alloc, directories)?;
    match gather(alloc, files, &named_roots, &named_directories) {
        Ok(sources) => Ok(GatheredRoots::All(sources)),
        Err(fault) => without_sources(alloc, fault),
    }
}

/// What roots come to that aren't gathered.
fn without_sources(alloc: Global, fault: GatherFault) -> Result<GatheredRoots, Trouble>
    ensures { result ≡ roots_without fault }
{
    let nothing = Sources::new(alloc);
    match fault {
        GatherFault::RootAbsent(place) => Ok(GatheredRoots::Stopped(
            Ungathered::AbsentRoot(place),
            nothing,
        )),
        GatherFault::Refused(refusal, sources) => {
            Ok(GatheredRoots::Stopped(Ungathered::Refused(refusal), sources))
        }
        GatherFault::Over(limit) => { Ok(GatheredRoots::Stopped(Ungathered::Over(limit), nothing)) }
        GatherFault::Read => Err(Trouble::Read),
        GatherFault::Memory => Err(Trouble::Memory),
    }
}

/// Writes the line that says why sources aren't gathered, where `roots` are the names of the command, and `sources` the files
/// in which a refusal lies.
///
/// The sink took the whole line at `Ok`.
///
/// # Errors
///
/// A fault only where the sink's count of faults rose; it then took a prefix of the line.
pub fn put_ungathered<E: Sink>(
    err: &mut E,
    roots: &[TextBuf],
    sources: &Sources,
    why: &Ungathered,
) -> Result<(), SinkFault>
    requires { CanBeTold roots.now why.now }
    ensures ok { OnOk result (Appends (E.taken err.old) (E.taken err.new) (ungathered_line roots.now sources.now why.now)) }
    ensures stopped { OnErr result (StopsWithin (E.taken err.old) (E.taken err.new) (ungathered_line roots.now sources.now why.now)) }
    ensures failed { OnErr result (Rose (E.faults err.old) (E.faults err.new)) }
    ensures count { E.faults err.old ≤ E.faults err.new }
{
    match why {
        Ungathered::AbsentRoot(place) => put_absent(err, roots[*place as usize].as_str()),
        Ungathered::Refused(refusal) => put_refusal(err, sources, refusal),
        Ungathered::Over(limit) => put_limit(err, *limit),
    }
}
