//! What `verify` answers.

ghost use Rattle.std.specs.Prelude.{◌≡◌};

use p10_base::{Bounds, Span};
use p10_command::{Trouble, Ungathered, Unread};
use p10_judge::Judgement;

/// An answer to `verify`, in the order in which they are tried; trouble may come before any.
#[derive(Clone, Copy, Debug)]
pub enum Answer {
    /// The sources aren't gathered.
    Ungathered(Ungathered),
    /// There is no such certificate.
    AbsentCertificate,
    /// The sources are no program.
    Unread(Unread),
    /// What the certificate comes to for their program, where it isn't accepted or need not be clean.
    Judged(Judgement),
    /// The certificate is accepted, and this is the first condition of clean ones that doesn't hold; it is reported at this place.
    Unclean(u8, Span),
    /// The certificate is accepted and clean, and these are the bounds of every run.
    Clean(Bounds),
    /// A read failed, or memory is out.
    Trouble(Trouble),
}

impl Answer {
    ghost use Rattle.p10_verify_command.specs.Told.{status_of};

    /// The status with which the program exits.
    pub fn status(&self) -> u8
        ensures { result ≡ status_of self.now }
    {
        match self {
            Answer::Ungathered(why) => why.status(),
            Answer::AbsentCertificate => 9,
            Answer::Unread(why) => why.status(),
            Answer::Judged(judgement) => judgement.status(),
            Answer::Unclean(..) => 1,
            Answer::Clean(_) => 0,
            Answer::Trouble(trouble) => trouble.status(),
        }
    }
}
