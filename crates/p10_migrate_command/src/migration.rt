//! What comes of a certificate that is migrated.

ghost use Rattle.std.specs.Prelude.{◌≡◌};

use p10_base::{Digest, ListBuf, Span};

/// What comes of the bytes of a certificate for a program, in the order in which it is tried.
#[derive(Drop)]
pub enum Migration {
    /// There are more bytes than a certificate may have, or its text of version 2 would have more: M10.
    TooLong,
    /// The text is no certificate's, from this line on.
    BadCertificate(u64),
    /// K0: the words of the function at this place have another digest than the certificate keeps.
    Stale {
        at: Span,
        kept: Digest,
        found: Digest,
    },
    /// K1: the certificate doesn't speak of the function at this place.
    Unfit(Span),
    /// Its text of version 2 is this.
    Text(ListBuf<u8>),
}

impl Migration {
    ghost use Rattle.p10_migrate_command.specs.Migrating.{migrated_of};
    ghost use Rattle.p10_migrate_command.specs.Told.{migrated_status};

    /// The status with which the program exits, where this is its answer.
    pub fn status(&self) -> u8
        ensures { result ≡ migrated_status (migrated_of self.now) }
    {
        match self {
            Migration::TooLong => 8,
            Migration::BadCertificate(_) => 4,
            Migration::Stale { .. } => 1,
            Migration::Unfit(_) => 1,
            Migration::Text(_) => 0,
        }
    }
}
