//! What is said of a certificate's text.

ghost use Rattle.std.specs.Prelude.{◌≡◌, ◌≢◌, ◌⊎◌};
ghost use Rattle.std.specs.Io.KnownBytes.{Appends};
ghost use Rattle.p10_world.specs.Faults.{Rose};
ghost use Rattle.p10_world.specs.Sink.{TakesFront};
ghost use Rattle.p10_command.specs.Saying.{IsSaid};
ghost use Rattle.p10_command.specs.Told.{Told, Stopped};
ghost use Rattle.p10_seal.specs.Saying.{sealed_saying};

use p10_base::{Limit, ListBuf};
use p10_command::tell_limit;
use p10_world::Sink;

/// Writes the text of a certificate, or that it is longer than limit M10 allows, and gives the status of the program; 6 where the write
/// failed.
pub fn tell_sealed<O: Sink, E: Sink>(text: &Option<ListBuf<u8>>, out: &mut O, err: &mut E) -> u8
    ensures told { result ≢ 6 → Told (IsSaid (sealed_saying text.now)) (O.taken out.old) (O.taken out.new) (E.taken err.old) (E.taken err.new) result }
    ensures stopped { result ≡ 6 → Stopped (IsSaid (sealed_saying text.now)) (O.taken out.old) (O.taken out.new) (E.taken err.old) (E.taken err.new) }
    ensures write { result ≡ 6 → Rose (O.faults out.old) (O.faults out.new) ⊎ Rose (E.faults err.old) (E.faults err.new) }
{
    match text {
        Some(text) => tell_text(text.as_slice(), out),
        None => tell_limit(Limit::CERTIFICATE_BYTES, err),
    }
}

/// Writes the text of a certificate, and gives the status of the program; 6 where the write failed.
pub fn tell_text<O: Sink>(text: &[u8], out: &mut O) -> u8
    ensures status { result ≢ 6 → result ≡ 0 }
    ensures told { result ≢ 6 → Appends (O.taken out.old) (O.taken out.new) text.now }
    ensures stopped { result ≡ 6 → TakesFront (O.taken out.old) (O.taken out.new) text.now }
    ensures write { result ≡ 6 → Rose (O.faults out.old) (O.faults out.new) }
{
    match out.put(text) {
        Ok(()) => 0,
        Err(_) => 6,
    }
}
