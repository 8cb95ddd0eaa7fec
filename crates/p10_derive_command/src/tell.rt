//! What is reported, and the status of the program.

ghost use Rattle.std.specs.Prelude.{◌≡◌, ◌≢◌, ◌⊎◌};
ghost use Rattle.std.specs.Io.KnownBytes.{Appends};
ghost use Rattle.p10_world.specs.Faults.{Rose};
ghost use Rattle.p10_world.specs.Sink.{TakesFront};
ghost use Rattle.p10_report.specs.Stops.{StopsWithin};
ghost use Rattle.p10_report.specs.Violations.{violation_lines};
ghost use Rattle.p10_cert.specs.Certificate.{certificate_text};
ghost use Rattle.p10_cert.specs.Claims.{claims_of};
ghost use Rattle.p10_command.specs.Saying.{IsSaid};
ghost use Rattle.p10_command.specs.Told.{IsTold, Told, Stopped};
ghost use Rattle.p10_derive_command.specs.private.Telling.{derivation_saying, end_saying, fault_saying};

use crate::derivation::Derivation;
use p10_base::{Sources, Violation};
use p10_cert::{Cert, write};
use p10_command::{Trouble, tell_limit, tell_trouble};
use p10_finder::FinderFault;
use p10_report::put_violations;
use p10_seal::tell_sealed;
use p10_world::Sink;

/// Reports what has come of derivation, and gives the status of the program.
pub fn tell_end<O: Sink, E: Sink>(
    sources: &Sources,
    end: Result<Derivation, FinderFault>,
    out: &mut O,
    err: &mut E,
) -> u8
    ensures told { result ≢ 6 → Told (IsSaid (end_saying sources.now end)) (O.taken out.old) (O.taken out.new) (E.taken err.old) (E.taken err.new) result }
    ensures stopped { result ≡ 6 → Stopped (IsSaid (end_saying sources.now end)) (O.taken out.old) (O.taken out.new) (E.taken err.old) (E.taken err.new) }
    ensures write { result ≡ 6 → Rose (O.faults out.old) (O.faults out.new) ⊎ Rose (E.faults err.old) (E.faults err.new) }
{
    match end {
        Ok(derivation) => tell_derivation(sources, &derivation, out, err),
        Err(fault) => tell_fault(fault, err),
    }
}

/// Writes what is derived, and gives the status of the program: a certificate on `out`, and violations on `err`.
fn tell_derivation<O: Sink, E: Sink>(
    sources: &Sources,
    derivation: &Derivation,
    out: &mut O,
    err: &mut E,
) -> u8
    ensures told { result ≢ 6 → Told (IsSaid (derivation_saying sources.now derivation.now)) (O.taken out.old) (O.taken out.new) (E.taken err.old) (E.taken err.new) result }
    ensures stopped { result ≡ 6 → Stopped (IsSaid (derivation_saying sources.now derivation.now)) (O.taken out.old) (O.taken out.new) (E.taken err.old) (E.taken err.new) }
    ensures write { result ≡ 6 → Rose (O.faults out.old) (O.faults out.new) ⊎ Rose (E.faults err.old) (E.faults err.new) }
{
    match derivation {
        Derivation::Certificate(certificate) => tell_certificate(certificate, out),
        Derivation::Sealed(text) => tell_sealed(text, out, err),
        Derivation::Violations(violations) => {
            tell_violations(sources, violations.as_slice(), err)
        }
    }
}

/// Writes a certificate, and gives the status of the program.
fn tell_certificate<O: Sink>(certificate: &Cert, out: &mut O) -> u8
    ensures status { result ≢ 6 → result ≡ 0 }
    ensures told { result ≢ 6 → Appends (O.taken out.old) (O.taken out.new) (certificate_text (claims_of certificate.now)) }
    ensures stopped { result ≡ 6 → TakesFront (O.taken out.old) (O.taken out.new) (certificate_text (claims_of certificate.now)) }
    ensures write { result ≡ 6 → Rose (O.faults out.old) (O.faults out.new) }
{
    match write(certificate, out) {
        Ok(()) => 0,
        Err(_) => 6,
    }
}

/// Writes violations, and gives the status of the program.
fn tell_violations<E: Sink>(sources: &Sources, violations: &[Violation], err: &mut E) -> u8
    ensures status { result ≢ 6 → result ≡ 1 }
    ensures told { result ≢ 6 → Appends (E.taken err.old) (E.taken err.new) (violation_lines sources.now violations.now) }
    ensures stopped { result ≡ 6 → StopsWithin (E.taken err.old) (E.taken err.new) (violation_lines sources.now violations.now) }
    ensures write { result ≡ 6 → Rose (E.faults err.old) (E.faults err.new) }
{
    match put_violations(err, sources, violations) {
        Ok(()) => 1,
        Err(_) => 6,
    }
}

/// Reports why nothing is derived, and gives the status of the program.
fn tell_fault<E: Sink>(fault: FinderFault, err: &mut E) -> u8
    ensures told { result ≢ 6 → IsTold (fault_saying fault).status (fault_saying fault).err (E.taken err.old) (E.taken err.new) result }
    ensures stopped { result ≡ 6 → StopsWithin (E.taken err.old) (E.taken err.new) (fault_saying fault).err }
    ensures write { result ≡ 6 → Rose (E.faults err.old) (E.faults err.new) }
{
    match fault {
        FinderFault::Over(limit) => tell_limit(limit, err),
        FinderFault::Memory => tell_trouble(Trouble::Memory, err),
    }
}
