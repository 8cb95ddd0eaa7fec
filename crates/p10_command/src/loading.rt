//! A file that a command names is read.

ghost use Rattle.std.specs.Prelude.{◌≡◌, ◌≤◌, ◌<◌, ◌^◌, IfOk, IfSome, IfNone, IsErrOf};
ghost use Rattle.p10_world.specs.Faults.{Rose};
ghost use Rattle.p10_world.specs.Files.{Lacks};
ghost use Rattle.p10_command.specs.Loading.{IsLoaded};

use crate::trouble::Trouble;
use p10_world::{FileFault, Files};
use std::alloc::Global;

/// The bytes of a file: all of it where it has at most `limit`, else its first bytes, one more than that. `None` where there is no
/// such file.
///
/// # Errors
///
/// `Read` only where the count of faults of `files` rose. `Memory` may come at any file.
pub fn load<F: Files>(
    alloc: Global,
    files: &mut F,
    name: &str,
    limit: u64,
) -> Result<Option<Vec<u8>>, Trouble>
    requires { limit < 2 ^ 32 }
    ensures present { IfOk result (λ found. IfSome found (λ bytes. IsLoaded (F.held files.old) name.now limit bytes.items)) }
    ensures absent { IfOk result (λ found. IfNone found (Lacks (F.held files.old) name.now)) }
    ensures failed { IsErrOf result Trouble.Read → Rose (F.faults files.old) (F.faults files.new) }
    ensures count { F.faults files.old ≤ F.faults files.new }
    ensures held { F.held files.new ≡ F.held files.old }
{
    let mut bytes = Vec::new(alloc);
    match files.read(alloc, name, limit + 1, &mut bytes) {
        Ok(()) => Ok(Some(bytes)),
        Err(FileFault::Absent) => Ok(None),
        Err(FileFault::Failed) => Err(Trouble::Read),
        Err(FileFault::Memory) => Err(Trouble::Memory),
    }
}
