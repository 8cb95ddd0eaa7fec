//! The text of a certificate of version 2 is written, piece by piece and without memory.

ghost use Rattle.std.specs.Prelude.{◌≡◌, ◌≤◌, [], ◌∷◌, flat_map, length, OnErr, OnOk};
ghost use Rattle.std.specs.Io.KnownBytes.{Appends};
ghost use Rattle.p10_world.specs.Faults.{Rose};
ghost use Rattle.p10_world.specs.Sink.{TakesFront};
ghost use Rattle.p10_cert.specs.Claims.{func_of};
ghost use Rattle.p10_cert.specs.Lines.{SectionLine, text_of};
ghost use Rattle.p10_cert.specs.Sealed.{HasDigests, bytes_of, entry_of, entries_of, section_of, statement_of};
ghost use Rattle.p10_cert.specs.Statements.{inner_lines, ending_lines, entry_text, section_head, statement_text};
ghost use Rattle.p10_cert.specs.private.Pieces.{digest_text};

use crate::claims::FuncClaim;
use crate::pieces::Piece;
use crate::sealed::{Cert2, Section};
use crate::texts::{put_head, put_result};
use crate::writing::{Text, put_all, put_total};
use p10_base::{Digest, ListBuf};
use p10_world::{Sink, SinkFault};

/// Writes the text of a certificate of version 2 that has one digest for each function. It takes no memory.
///
/// # Errors
///
/// A fault only where the sink's count of faults rose; it then took a prefix of the text. The text is written in
/// several pieces, so the `wrote` of a fault counts bytes of the last piece alone.
pub fn write2<O: Sink>(cert: &Cert2, out: &mut O) -> Result<(), SinkFault>
    requires { HasDigests cert.now }
    ensures ok { OnOk result (Appends (O.taken out.old) (O.taken out.new) (statement_text (statement_of cert.now))) }
    ensures front { OnErr result (TakesFront (O.taken out.old) (O.taken out.new) (statement_text (statement_of cert.now))) }
    ensures failed { OnErr result (Rose (O.faults out.old) (O.faults out.new)) }
    ensures count { O.faults out.old ≤ O.faults out.new }
{
    out.put(b"p10cert 2\n")?;
    put_entries(out, cert.base.funcs.as_slice(), cert.digests.as_slice())?;
    put_ending(out, cert)
}

/// Writes the lines of functions, each with its digest.
fn put_entries<O: Sink>(
    out: &mut O,
    funcs: &[FuncClaim],
    digests: &[Digest],
) -> Result<(), SinkFault>
    requires { length digests.now ≡ length funcs.now }
    ensures ok { OnOk result (Appends (O.taken out.old) (O.taken out.new) (flat_map entry_text (entries_of funcs.now digests.now))) }
    ensures front { OnErr result (TakesFront (O.taken out.old) (O.taken out.new) (flat_map entry_text (entries_of funcs.now digests.now))) }
    ensures failed { OnErr result (Rose (O.faults out.old) (O.faults out.new)) }
    ensures count { O.faults out.old ≤ O.faults out.new }
{
    for i in 0..funcs.len() {
        put_entry(out, &funcs[i], &digests[i])?;
    }
    Ok(())
}

/// Writes the lines of a function with its digest.
fn put_entry<O: Sink>(out: &mut O, func: &FuncClaim, digest: &Digest) -> Result<(), SinkFault>
    ensures ok { OnOk result (Appends (O.taken out.old) (O.taken out.new) (entry_text (entry_of func.now digest.now))) }
    ensures front { OnErr result (TakesFront (O.taken out.old) (O.taken out.new) (entry_text (entry_of func.now digest.now))) }
    ensures failed { OnErr result (Rose (O.faults out.old) (O.faults out.new)) }
    ensures count { O.faults out.old ≤ O.faults out.new }
{
    put_head(out, func)?;
    put_digest(out, b"digest ", digest)?;
    put_inner(out, func)
}

/// Writes the lines of a function after its first and its digest.
fn put_inner<O: Sink>(out: &mut O, func: &FuncClaim) -> Result<(), SinkFault>
    ensures ok { OnOk result (Appends (O.taken out.old) (O.taken out.new) (text_of (inner_lines (func_of func.now)))) }
    ensures front { OnErr result (TakesFront (O.taken out.old) (O.taken out.new) (text_of (inner_lines (func_of func.now)))) }
    ensures failed { OnErr result (Rose (O.faults out.old) (O.faults out.new)) }
    ensures count { O.faults out.old ≤ O.faults out.new }
{
    put_all(out, func.params.as_slice())?;
    put_result(out, &func.result)?;
    put_all(out, func.loops.as_slice())
}

/// Writes a line of a digest, after its first word.
fn put_digest<'t, O: Sink>(out: &mut O, word: &'t [u8], digest: &'t Digest) -> Result<(), SinkFault>
    ensures ok { OnOk result (Appends (O.taken out.old) (O.taken out.new) (digest_text word.now (bytes_of digest.now))) }
    ensures front { OnErr result (TakesFront (O.taken out.old) (O.taken out.new) (digest_text word.now (bytes_of digest.now))) }
    ensures failed { OnErr result (Rose (O.faults out.old) (O.faults out.new)) }
    ensures count { O.faults out.old ≤ O.faults out.new }
{
    put_all(
        out,
        &[
            Piece::Bytes(word),
            Piece::Digest(digest),
            Piece::Bytes(b"\n"),
        ],
    )
}

/// Writes what stands after the functions.
fn put_ending<O: Sink>(out: &mut O, cert: &Cert2) -> Result<(), SinkFault>
    ensures ok { OnOk result (Appends (O.taken out.old) (O.taken out.new) (text_of (ending_lines (statement_of cert.now).ending))) }
    ensures front { OnErr result (TakesFront (O.taken out.old) (O.taken out.new) (text_of (ending_lines (statement_of cert.now).ending))) }
    ensures failed { OnErr result (Rose (O.faults out.old) (O.faults out.new)) }
    ensures count { O.faults out.old ≤ O.faults out.new }
{
    put_digest(out, b"outside ", &cert.outside)?;
    put_total(out, &cert.base.total)?;
    put_all(out, cert.sections.as_slice())?;
    out.put(b"end\n")
}

// A section: its lines.
impl Text for Section {
    ghost use Rattle.p10_cert.specs.Lines.{text_of};
    ghost use Rattle.p10_cert.specs.Sealed.{section_of};
    ghost use Rattle.p10_cert.specs.Statements.{section_lines};

    ghost text = { λ s. text_of (section_lines (section_of s)) };

    fn put<O: Sink>(&self, out: &mut O) -> Result<(), SinkFault> {
        put_section(out, self)?;
        put_all(out, self.lines.as_slice())
    }
}

/// Writes the first line of a section.
fn put_section<O: Sink>(out: &mut O, section: &Section) -> Result<(), SinkFault>
    ensures ok { OnOk result (Appends (O.taken out.old) (O.taken out.new) (text_of (SectionLine (section_head (section_of section.now)) ∷ []))) }
    ensures front { OnErr result (TakesFront (O.taken out.old) (O.taken out.new) (text_of (SectionLine (section_head (section_of section.now)) ∷ []))) }
    ensures failed { OnErr result (Rose (O.faults out.old) (O.faults out.new)) }
    ensures count { O.faults out.old ≤ O.faults out.new }
{
    put_all(
        out,
        &[
            Piece::Bytes(b"section "),
            Piece::Name(&section.name),
            Piece::Bytes(b" "),
            Piece::Number(section.lines.as_slice().len() as u64),
            Piece::Bytes(b"\n"),
        ],
    )
}

// A line of a section.
impl Text for ListBuf<u8> {
    ghost use Rattle.std.specs.Prelude.{[], ◌∷◌};
    ghost use Rattle.p10_cert.specs.Lines.{BodyLine, text_of};

    ghost text = { λ b. text_of (BodyLine b ∷ []) };

    fn put<O: Sink>(&self, out: &mut O) -> Result<(), SinkFault> {
        out.put(self.as_slice())?;
        out.put(b"\n")
    }
}
