//! What `recheck` answers.

ghost use Rattle.std.specs.Prelude.{◌≡◌};

use crate::rechecking::Rechecking;
use p10_command::{Trouble, Ungathered, Unread};

/// An answer to `recheck`, in the order in which they are tried; trouble may come before any.
#[derive(Clone, Copy, Debug)]
pub enum Answer {
    /// The sources aren't gathered.
    Ungathered(Ungathered),
    /// There is no such certificate.
    AbsentCertificate,
    /// There is no such certificate from before the edit.
    AbsentOld,
    /// The sources are no program.
    Unread(Unread),
    /// What both certificates come to, for their program.
    Rechecked(Rechecking),
    /// A read failed, or memory is out.
    Trouble(Trouble),
}

impl Answer {
    ghost use Rattle.p10_recheck_command.specs.Told.{status_of};

    /// The status with which the program exits.
    pub fn status(&self) -> u8
        ensures { result ≡ status_of self.now }
    {
        match self {
            Answer::Ungathered(why) => why.status(),
            Answer::AbsentCertificate => 9,
            Answer::AbsentOld => 9,
            Answer::Unread(why) => why.status(),
            Answer::Rechecked(rechecking) => rechecking.status(),
            Answer::Trouble(trouble) => trouble.status(),
        }
    }
}
