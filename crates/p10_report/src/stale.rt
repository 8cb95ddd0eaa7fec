//! The line of a function of whose words a certificate doesn't speak.

ghost use Rattle.std.specs.Prelude.{◌≡◌, ◌≤◌, OnErr, OnOk};
ghost use Rattle.std.specs.Io.KnownBytes.{Appends};
ghost use Rattle.p10_world.specs.Faults.{Rose};
ghost use Rattle.p10_report.specs.Lines.{digests_part, labelled_digest, stale_label, stale_line};
ghost use Rattle.p10_report.specs.Stops.{StopsWithin};

use crate::pieces::{put_bytes, put_place};
use p10_base::{Digest, Sources, Span, hex};
use p10_world::{Sink, SinkFault};

/// Writes the line of a function of whose words a certificate doesn't speak,
/// `refused: K0 FILE:LINE:COLUMN kept DIGEST found DIGEST`, where `at` is its place in the sources `s`, and the digests are that of
/// the certificate and that of its words.
///
/// The sink took the whole line at `Ok`.
///
/// # Errors
///
/// A fault only where the sink's count of faults rose; it then took a prefix of the line.
pub fn put_stale<O: Sink>(
    out: &mut O,
    s: &Sources,
    at: Span,
    kept: &Digest,
    found: &Digest,
) -> Result<(), SinkFault>
    ensures ok { OnOk result (Appends (O.taken out.old) (O.taken out.new) (stale_line s.now at kept.now.0 found.now.0)) }
    ensures stopped { OnErr result (StopsWithin (O.taken out.old) (O.taken out.new) (stale_line s.now at kept.now.0 found.now.0)) }
    ensures failed { OnErr result (Rose (O.faults out.old) (O.faults out.new)) }
    ensures count { O.faults out.old ≤ O.faults out.new }
{
    put_bytes(out, stale_label())?;
    put_place(out, s, at)?;
    put_digests(out, kept, found)
}

/// What stands before the place of a function of whose words a certificate doesn't speak.
#[tactic(auto, unfolding(crate::specs::Lines::stale_label))]
fn stale_label() -> &'static [u8]
    ensures { result.now ≡ stale_label }
{
    b"refused: K0 "
}

/// Writes the digest that a certificate has of a function, and that of its words, and ends the line.
fn put_digests<O: Sink>(out: &mut O, kept: &Digest, found: &Digest) -> Result<(), SinkFault>
    ensures ok { OnOk result (Appends (O.taken out.old) (O.taken out.new) (digests_part kept.now.0 found.now.0)) }
    ensures stopped { OnErr result (StopsWithin (O.taken out.old) (O.taken out.new) (digests_part kept.now.0 found.now.0)) }
    ensures failed { OnErr result (Rose (O.faults out.old) (O.faults out.new)) }
    ensures count { O.faults out.old ≤ O.faults out.new }
{
    put_digest(out, b" kept ", kept)?;
    put_digest(out, b" found ", found)?;
    put_bytes(out, b"\n")
}

/// Writes a digest after the text that says whose it is.
fn put_digest<O: Sink>(out: &mut O, label: &[u8], digest: &Digest) -> Result<(), SinkFault>
    ensures ok { OnOk result (Appends (O.taken out.old) (O.taken out.new) (labelled_digest label.now digest.now.0)) }
    ensures stopped { OnErr result (StopsWithin (O.taken out.old) (O.taken out.new) (labelled_digest label.now digest.now.0)) }
    ensures failed { OnErr result (Rose (O.faults out.old) (O.faults out.new)) }
    ensures count { O.faults out.old ≤ O.faults out.new }
{
    put_bytes(out, label)?;
    put_bytes(out, hex(&digest.0).as_slice())
}
