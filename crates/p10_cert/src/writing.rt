//! A certificate's text is written, piece by piece and without memory.

ghost use Rattle.std.specs.Prelude.{◌≤◌, [], ◌∷◌, OnErr, OnOk};
ghost use Rattle.std.specs.Io.KnownBytes.{Appends};
ghost use Rattle.std.specs.List.{flat_map};
ghost use Rattle.p10_world.specs.Faults.{Rose};
ghost use Rattle.p10_world.specs.Sink.{TakesFront};
ghost use Rattle.p10_cert.specs.Claims.{claims_of};
ghost use Rattle.p10_cert.specs.Certificate.{certificate_text};
ghost use Rattle.p10_cert.specs.Lines.{TotalLine, text_of};

use crate::claims::Cert;
use crate::pieces::Piece;
use p10_base::Bounds;
use p10_world::{Sink, SinkFault};

/// Writes the text of a certificate of version 1. It takes no memory.
///
/// # Errors
///
/// A fault only where the sink's count of faults rose; it then took a prefix of the text. The text is written in
/// several pieces, so the `wrote` of a fault counts bytes of the last piece alone.
pub fn write<O: Sink>(cert: &Cert, out: &mut O) -> Result<(), SinkFault>
    ensures ok { OnOk result (Appends (O.taken out.old) (O.taken out.new) (certificate_text (claims_of cert.now))) }
    ensures front { OnErr result (TakesFront (O.taken out.old) (O.taken out.new) (certificate_text (claims_of cert.now))) }
    ensures failed { OnErr result (Rose (O.faults out.old) (O.faults out.new)) }
    ensures count { O.faults out.old ≤ O.faults out.new }
{
    out.put(b"p10cert 1\n")?;
    put_all(out, cert.funcs.as_slice())?;
    put_total(out, &cert.total)?;
    out.put(b"end\n")
}

/// Writes the line of the whole program.
pub(crate) fn put_total<O: Sink>(out: &mut O, total: &Bounds) -> Result<(), SinkFault>
    ensures ok { OnOk result (Appends (O.taken out.old) (O.taken out.new) (text_of (TotalLine total.now ∷ []))) }
    ensures front { OnErr result (TakesFront (O.taken out.old) (O.taken out.new) (text_of (TotalLine total.now ∷ []))) }
    ensures failed { OnErr result (Rose (O.faults out.old) (O.faults out.new)) }
    ensures count { O.faults out.old ≤ O.faults out.new }
{
    put_all(
        out,
        &[
            Piece::Bytes(b"total prefix "),
            Piece::Number(total.prefix),
            Piece::Bytes(b" turn "),
            Piece::Number(total.turn),
            Piece::Bytes(b" calls "),
            Piece::Number(total.calls),
            Piece::Bytes(b" bytes "),
            Piece::Number(total.bytes),
            Piece::Bytes(b"\n"),
        ],
    )
}

/// What has a text that can be written.
pub(crate) trait Text {
    ghost use Rattle.std.specs.Prelude.{ℕ, List};

    // The text.
    ghost text: { Self → List ℕ };

    /// Writes the text.
    fn put<O: Sink>(&self, out: &mut O) -> Result<(), SinkFault>
        ensures ok { OnOk result (Appends (O.taken out.old) (O.taken out.new) (text self.now)) }
        ensures front { OnErr result (TakesFront (O.taken out.old) (O.taken out.new) (text self.now)) }
        ensures failed { OnErr result (Rose (O.faults out.old) (O.faults out.new)) }
        ensures count { O.faults out.old ≤ O.faults out.new };
}

/// Writes the texts of items, one after the other.
pub(crate) fn put_all<O: Sink, T: Text>(out: &mut O, items: &[T]) -> Result<(), SinkFault>
    ensures ok { OnOk result (Appends (O.taken out.old) (O.taken out.new) (flat_map T.text items.now)) }
    ensures front { OnErr result (TakesFront (O.taken out.old) (O.taken out.new) (flat_map T.text items.now)) }
    ensures failed { OnErr result (Rose (O.faults out.old) (O.faults out.new)) }
    ensures count { O.faults out.old ≤ O.faults out.new }
{
    for item in items {
        item.put(out)?;
    }
    Ok(())
}
