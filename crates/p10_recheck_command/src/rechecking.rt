//! What both certificates come to.

ghost use Rattle.std.specs.Prelude.{◌≡◌};

use p10_judge::Judgement;
use p10_rejudge::Passed;

/// What the bytes of the certificates from after and from before an edit come to, in the order in which it is tried.
#[derive(Clone, Copy, Debug)]
pub enum Rechecking {
    /// There are more bytes than a certificate may have: M10.
    TooLong,
    /// The text is no certificate's of version 2, from this line on, or this line isn't one of ranks in their section.
    BadCertificate(u64),
    /// The old certificate has more bytes than it may: M10.
    OldTooLong,
    /// The old text is no certificate's of version 2, from this line on.
    BadOld(u64),
    /// What the new certificate comes to, and how many functions were passed for it.
    Judged(Judgement, Passed),
}

impl Rechecking {
    ghost use Rattle.p10_recheck_command.specs.Told.{rechecked_status};

    /// The status with which the program exits, where this is its answer.
    pub fn status(&self) -> u8
        ensures { result ≡ rechecked_status self.now }
    {
        match self {
            Rechecking::TooLong => 8,
            Rechecking::BadCertificate(_) => 4,
            Rechecking::OldTooLong => 8,
            Rechecking::BadOld(_) => 4,
            Rechecking::Judged(judgement, _) => judgement.status(),
        }
    }
}
