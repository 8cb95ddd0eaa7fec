//! What `gen` answers.

ghost use Rattle.std.specs.Prelude.{◌≡◌};

use p10_base::{Bounds, Limit};

/// A stage at which a generated program may fail.
#[derive(Clone, Copy, Debug, PartialEq, Eq)]
pub enum Stage {
    /// Its file is gathered and read as a program.
    Reading,
    /// A certificate is derived.
    Deriving,
    /// The text of the certificate is verified.
    Verifying,
    /// The program runs within the certificate.
    Running,
}

/// An answer to `gen`.
#[derive(Clone, Copy, Debug)]
pub enum Answer {
    /// A limit is exceeded.
    Over(Limit),
    /// The program fails at a stage.
    Fails(Stage),
    /// A certificate with this total is derived and accepted, and within it the program has returned this value.
    Returns(Bounds, i64),
    /// Out of memory.
    OutOfMemory,
}

impl Answer {
    ghost use Rattle.p10_gen_command.specs.Told.{status_of};

    /// The status with which the program exits.
    pub fn status(&self) -> u8
        ensures { result ≡ status_of self.now }
    {
        match self {
            Answer::Over(_) => 8,
            Answer::Fails(_) => 1,
            Answer::Returns(..) => 0,
            Answer::OutOfMemory => 7,
        }
    }
}
