//! What a certificate comes to.

ghost use Rattle.std.specs.Prelude.{◌≡◌, ◌≤◌, OnErr, OnOk};
ghost use Rattle.std.specs.Io.KnownBytes.{Appends};
ghost use Rattle.p10_world.specs.Faults.{Rose};
ghost use Rattle.p10_report.specs.Stops.{StopsWithin};
ghost use Rattle.p10_judge.specs.Saying.{judgement_line};

use p10_base::{Bounds, Digest, Limit, Sources, Span};
use p10_report::{put_accepted, put_bad_certificate, put_failing, put_limit, put_stale};
use p10_world::{Sink, SinkFault};

/// What the bytes of a certificate come to for a program, in the order in which it is tried.
#[derive(Clone, Copy, Debug)]
pub enum Judgement {
    /// There are more bytes than a certificate may have: M10.
    TooLong,
    /// The text is no certificate's, from this line on.
    BadCertificate(u64),
    /// K0: the words of the function at this place have another digest than the certificate keeps.
    Stale {
        at: Span,
        kept: Digest,
        found: Digest,
    },
    /// The condition with this number doesn't hold, and it is the first; it is reported at this place.
    Failing(u8, Span),
    /// All conditions hold, and these are the bounds of every run.
    Accepted(Bounds),
}

impl Judgement {
    ghost use Rattle.p10_judge.specs.Saying.{judgement_status};

    /// The status with which the program exits, where this is its answer.
    pub fn status(&self) -> u8
        ensures { result ≡ judgement_status self.now }
    {
        match self {
            Judgement::TooLong => 8,
            Judgement::BadCertificate(_) => 4,
            Judgement::Stale { .. } => 1,
            Judgement::Failing(..) => 1,
            Judgement::Accepted(_) => 0,
        }
    }
}

/// Writes the line of a judgement, whose place lies in `sources`.
///
/// The sink took the whole line at `Ok`.
///
/// # Errors
///
/// A fault only where the sink's count of faults rose; it then took a prefix of the line.
pub fn put_judgement<O: Sink>(
    out: &mut O,
    sources: &Sources,
    judgement: &Judgement,
) -> Result<(), SinkFault>
    ensures ok { OnOk result (Appends (O.taken out.old) (O.taken out.new) (judgement_line sources.now judgement.now)) }
    ensures stopped { OnErr result (StopsWithin (O.taken out.old) (O.taken out.new) (judgement_line sources.now judgement.now)) }
    ensures failed { OnErr result (Rose (O.faults out.old) (O.faults out.new)) }
    ensures count { O.faults out.old ≤ O.faults out.new }
{
    match judgement {
        Judgement::TooLong => put_limit(out, Limit::CERTIFICATE_BYTES),
        Judgement::BadCertificate(line) => put_bad_certificate(out, *line),
        Judgement::Stale { at, kept, found } => put_stale(out, sources, *at, kept, found),
        Judgement::Failing(condition, at) => put_failing(out, sources, *condition, *at),
        Judgement::Accepted(bounds) => put_accepted(out, bounds),
    }
}
