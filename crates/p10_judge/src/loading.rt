//! The file of a certificate is read.

ghost use Rattle.std.specs.Prelude.{◌≡◌, ◌≤◌, IfOk, IfSome, IfNone, IsErrOf};
ghost use Rattle.p10_world.specs.Faults.{Rose};
ghost use Rattle.p10_world.specs.Files.{Lacks};
ghost use Rattle.p10_judge.specs.Loading.{IsLoaded};

use p10_base::Limit;
use p10_command::{Trouble, load};
use p10_world::Files;
use std::alloc::Global;

/// The bytes of a certificate's file: all of it where it is within the limit M10, else its first bytes, one more than the
/// limit. `None` where there is no such file.
///
/// # Errors
///
/// `Read` only where the count of faults of `files` rose. `Memory` may come at any file.
pub fn load_certificate<F: Files>(
    alloc: Global,
    files: &mut F,
    name: &str,
) -> Result<Option<Vec<u8>>, Trouble>
    ensures present { IfOk result (λ found. IfSome found (λ bytes. IsLoaded (F.held files.old) name.now bytes.items)) }
    ensures absent { IfOk result (λ found. IfNone found (Lacks (F.held files.old) name.now)) }
    ensures failed { IsErrOf result Trouble.Read → Rose (F.faults files.old) (F.faults files.new) }
    ensures count { F.faults files.old ≤ F.faults files.new }
    ensures held { F.held files.new ≡ F.held files.old }
{
    load(alloc, files, name, Limit::MOST_CERTIFICATE_BYTES)
}
