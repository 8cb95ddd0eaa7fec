//! What `migrate` answers.

ghost use Rattle.std.specs.Prelude.{◌≡◌};

use crate::migration::Migration;
use p10_command::{Trouble, Ungathered, Unread};

/// An answer to `migrate`, in the order in which they are tried; trouble may come before any.
#[derive(Drop)]
pub enum Answer {
    /// The sources aren't gathered.
    Ungathered(Ungathered),
    /// There is no such certificate.
    AbsentCertificate,
    /// The sources are no program.
    Unread(Unread),
    /// What the certificate is migrated to, for their program.
    Migrated(Migration),
    /// A read failed, or memory is out.
    Trouble(Trouble),
}

impl Answer {
    ghost use Rattle.p10_migrate_command.specs.Told.{status_of};

    /// The status with which the program exits.
    pub fn status(&self) -> u8
        ensures { result ≡ status_of self.now }
    {
        match self {
            Answer::Ungathered(why) => why.status(),
            Answer::AbsentCertificate => 9,
            Answer::Unread(why) => why.status(),
            Answer::Migrated(migration) => migration.status(),
            Answer::Trouble(trouble) => trouble.status(),
        }
    }
}
