//! The ranks that a certificate says in its section `diff`.

ghost use Rattle.std.specs.Prelude.{◌≡◌, ◌<◌, ◌≤◌, ◌^◌, bytes_eq, codes, length, map, IfOk};
ghost use Rattle.p10_cert.specs.Sealed.{section_of};
ghost use Rattle.p10_judge.specs.Ranks.{AreFound, HasSections};
ghost use Rattle.p10_judge.specs.private.Ranks.{HasSectionAt, IsOver, line_count, lines_from, place_of_diff};

use p10_base::ListBuf;
use p10_cert::{Records, Section, records, version};
use p10_diff_evidence::{DiffEvidence, DiffFault};
use std::alloc::{AllocError, Global};

/// What is found of ranks in the bytes of a certificate.
#[derive(Drop)]
pub enum Ranks {
    /// The bytes are no certificate's text, or its section of ranks has a line of another form: the first such line.
    Bad(u64),
    /// There is no such section.
    Absent,
    /// The ranks of the section.
    Listed(DiffEvidence),
}

/// The ranks that the bytes of a certificate say. A text of version 1 has no sections, and isn't read.
///
/// # Errors
///
/// Out of memory.
#[tactic(auto, using(crate::proofs::Ranked::first_absent))]
pub(crate) fn ranks_of(alloc: Global, bytes: &[u8]) -> Result<Ranks, AllocError>
    ensures { IfOk result (AreFound bytes.now) }
{
    match version(bytes) {
        Some(1) => Ok(Ranks::Absent),
        _ => ranks_sealed(alloc, bytes),
    }
}

/// The same of a text that doesn't begin as one of version 1.
fn ranks_sealed(alloc: Global, bytes: &[u8]) -> Result<Ranks, AllocError>
    ensures { IfOk result (AreFound bytes.now) }
{
    let mut reader = records(bytes);
    loop {
        match reader.next() {
            Ok(next) => match next {
                Some(_) => {}
                None => return ranks_at_end(alloc, &reader, bytes),
            },
            Err(bad) => return Ok(Ranks::Bad(bad.line)),
        }
    }
}

/// The same where all functions of the text were given.
pub(crate) fn ranks_at_end(
    alloc: Global,
    reader: &Records<'_>,
    bytes: &[u8],
) -> Result<Ranks, AllocError>
    requires { IsOver reader.now bytes.now }
    ensures { IfOk result (AreFound bytes.now) }
{
    let found = reader.sections(alloc)?;
    let sections = found.unwrap();
    ranks_among(alloc, bytes, sections.as_slice())
}

/// The ranks that the text of a certificate says, which has these sections.
///
/// # Errors
///
/// Out of memory.
pub fn ranks_among(alloc: Global, bytes: &[u8], sections: &[Section]) -> Result<Ranks, AllocError>
    requires { HasSections bytes.now (map section_of sections.now) }
    ensures { IfOk result (AreFound bytes.now) }
{
    match place_of_diff(sections) {
        Some(place) => ranks_there(alloc, bytes, sections, place),
        None => Ok(Ranks::Absent),
    }
}

/// The place of the section of ranks among sections, if it is there.
#[tactic(auto, using(crate::proofs::Ranked::place_start, crate::proofs::Ranked::place_here, crate::proofs::Ranked::place_on))]
fn place_of_diff(sections: &[Section]) -> Option<usize>
    ensures { result ≡ place_of_diff (map section_of sections.now) }
{
    let mut place = 0;
    let mut rest = sections;
    while let [section, others @ ..] = rest {
        if is_diff(section.name.as_slice()) {
            return Some(place);
        }
        place += 1;
        rest = others;
    }
    None
}

/// Whether this is the name of the section of ranks.
fn is_diff(name: &[u8]) -> bool
    ensures { result ≡ bytes_eq name.now (codes "diff") }
{
    name == b"diff".as_slice()
}

/// The ranks of the section of ranks, which stands at this place among the sections of the text.
fn ranks_there(
    alloc: Global,
    bytes: &[u8],
    sections: &[Section],
    place: usize,
) -> Result<Ranks, AllocError>
    requires section { HasSectionAt bytes.now (map section_of sections.now) place }
    requires place { place < length sections.now }
    ensures { IfOk result (AreFound bytes.now) }
{
    match DiffEvidence::new(alloc, sections[place].lines.as_slice()) {
        Ok(evidence) => Ok(Ranks::Listed(evidence)),
        Err(DiffFault::Line(number)) => {
            let before = line_count(bytes) - lines_from(sections, place);
            Ok(Ranks::Bad(before + number))
        }
        Err(DiffFault::Memory) => Err(AllocError),
    }
}

/// How many lines a text has, by their LF.
fn line_count(bytes: &[u8]) -> u64
    ensures exact { result ≡ line_count bytes.now }
    ensures small { result < 2 ^ 64 }
{
    let mut count = 0;
    let mut rest = bytes;
    while let [byte, others @ ..] = rest {
        if *byte == b'\n' {
            count += 1;
        }
        rest = others;
    }
    count
}

/// How many lines stand from the first line of the section at this place on, the last line of the text left aside.
fn lines_from(sections: &[Section], place: usize) -> u64
    requires place { place ≤ length sections.now }
    requires few { lines_from (map section_of sections.now) place < 2 ^ 64 }
    ensures { result ≡ lines_from (map section_of sections.now) place }
{
    let mut count: u64 = 0;
    let mut rest = &sections[place..];
    while let [section, others @ ..] = rest {
        count += 1 + section.lines.as_slice().len() as u64;
        rest = others;
    }
    count
}
