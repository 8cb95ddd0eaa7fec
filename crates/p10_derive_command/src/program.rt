//! Gathered sources are read, and what is derived of their program is reported.

ghost use Rattle.std.specs.Prelude.{◌≡◌, ◌≢◌, ◌⊎◌, length, map, true, false, IfOk, IsSomeAnd};
ghost use Rattle.p10_world.specs.Faults.{Rose};
ghost use Rattle.p10_core.specs.Views.{plain_program};
ghost use Rattle.p10_core.specs.WholePrograms.{IsWholeProgram};
ghost use Rattle.p10_cert.specs.Claims.{claims_of};
ghost use Rattle.p10_expand.specs.Gathering.{Gathers, HaveWords};
ghost use Rattle.p10_cert.specs.Sealed.{section_of};
ghost use Rattle.p10_diff.specs.Ranked.{rank_by};
ghost use Rattle.p10_diff_evidence.specs.Placing.{rank_sections};
ghost use Rattle.p10_approach.specs.Offers.{offers_if};
ghost use Rattle.p10_finder.specs.Answers.{Certified, IsDerived};
ghost use Rattle.p10_finder.specs.Finding.{derived_of};
ghost use Rattle.p10_front.specs.Answers.{reading_of};
ghost use Rattle.p10_command.specs.Seen.{Seen};
ghost use Rattle.p10_command.specs.Told.{Told, Stopped};
ghost use Rattle.p10_derive_command.specs.declared.command.DeriveCommand.{DeriveCommand};
ghost use Rattle.p10_derive_command.specs.Answers.{setting_of, SaysRight};
ghost use Rattle.p10_derive_command.specs.Ranks.{ranks_if};
ghost use Rattle.p10_derive_command.specs.private.Telling.{Comes, Finds, HasRanksIf, IsSealed};

use crate::derivation::Derivation;
use crate::tell::tell_end;
use p10_base::{ListBuf, Sources};
use p10_cert::{Cert, Section};
use p10_command::{ReadSources, Trouble, read_sources, release, tell_trouble, tell_unread};
use p10_core::Program;
use p10_diff::Rank;
use p10_diff_evidence::section_lines;
use p10_finder::{FinderFault, Found, RankedFound};
use p10_front::{Reading, digests};
use p10_seal::sealed_text_with;
use p10_world::Sink;
use std::alloc::{AllocError, Global};

/// Writes what is derived of the program of gathered sources, with a certificate's text in this version and with ranks, if such are asked
/// for, or why there is none. Gives the status of the program.
///
/// It is right to say to each command that gathers these sources and asks for this version and for ranks or not.
pub fn derive_sources<O: Sink, E: Sink>(
    alloc: Global,
    sources: &Sources,
    version: u8,
    diff: bool,
    out: &mut O,
    err: &mut E,
) -> u8
    requires { HaveWords sources.now }
    ensures told { result ≢ 6 → (derive : DeriveCommand) (seen : Seen) → derive.version ≡ version → derive.diff ≡ diff → Gathers (setting_of seen derive) sources.now → Told (SaysRight derive seen)
        (O.taken out.old) (O.taken out.new) (E.taken err.old) (E.taken err.new) result }
    ensures stopped { result ≡ 6 → (derive : DeriveCommand) (seen : Seen) → derive.version ≡ version → derive.diff ≡ diff → Gathers (setting_of seen derive) sources.now → Stopped (SaysRight derive seen)
        (O.taken out.old) (O.taken out.new) (E.taken err.old) (E.taken err.new) }
    ensures write { result ≡ 6 → Rose (O.faults out.old) (O.faults out.new) ⊎ Rose (E.faults err.old) (E.faults err.new) }
{
    match read_sources(alloc, sources) {
        Ok(ReadSources::Program(reading)) => {
            let end = derive_reading(alloc, &reading, version, diff);
            release(reading);
            tell_end(sources, end, out, err)
        }
        Ok(ReadSources::Unread(why)) => tell_unread(sources, &why, err),
        Err(_) => tell_trouble(Trouble::Memory, err),
    }
}

/// What is derived of the program of a reading, with its certificate in this version and with ranks, if such are asked for.
///
/// # Errors
///
/// As those of [`p10_finder::derive`].
fn derive_reading(
    alloc: Global,
    reading: &Reading<'_>,
    version: u8,
    diff: bool,
) -> Result<Derivation, FinderFault>
    requires { IsSomeAnd reading.now.program (λ p. IsWholeProgram (plain_program p)) }
    ensures { IsSomeAnd reading.now.program (λ p. Comes (reading_of reading.now) (plain_program p) version diff result) }
{
    match find(alloc, reading, diff) {
        Ok(ranked) => answer(alloc, reading, version, diff, ranked.found, ranked.ranks),
        Err(fault) => Err(fault),
    }
}

/// What is found of the program of a reading.
///
/// # Errors
///
/// As those of [`p10_finder::derive`].
fn find(alloc: Global, reading: &Reading<'_>, diff: bool) -> Result<RankedFound, FinderFault>
    requires { IsSomeAnd reading.now.program (λ p. IsWholeProgram (plain_program p)) }
    ensures { IsSomeAnd reading.now.program (λ p. Finds (plain_program p) diff result) }
{
    match &reading.program {
        Some(program) => find_if(alloc, program, diff),
        None => unreachable!(),
    }
}

/// What is found of a program, with ranks or without.
///
/// # Errors
///
/// As those of [`p10_finder::derive`].
fn find_if(alloc: Global, program: &Program<'_>, diff: bool) -> Result<RankedFound, FinderFault>
    requires { IsWholeProgram (plain_program program.now) }
    ensures { Finds (plain_program program.now) diff result }
{
    if diff {
        p10_finder::derive_diff(alloc, program)
    } else {
        match p10_finder::derive(alloc, program) {
            Ok(found) => Ok(RankedFound {
                found,
                ranks: Vec::new(alloc),
            }),
            Err(fault) => Err(fault),
        }
    }
}

/// What is found of the program of a reading, with its certificate in this version and with these ranks.
///
/// # Errors
///
/// Out of memory.
fn answer(
    alloc: Global,
    reading: &Reading<'_>,
    version: u8,
    diff: bool,
    found: Found,
    ranks: Vec<Rank>,
) -> Result<Derivation, FinderFault>
    requires { IsSomeAnd reading.now.program (λ p. IsDerived (offers_if diff) (plain_program p) (derived_of found) × HasRanksIf diff (plain_program p) found (map rank_by ranks.items)) }
    ensures { IsSomeAnd reading.now.program (λ p. Comes (reading_of reading.now) (plain_program p) version diff result) }
{
    match found {
        Found::Certificate(claims) => in_version(alloc, reading, version, diff, claims, ranks),
        Found::Violations(violations) => Ok(Derivation::Violations(violations)),
    }
}

/// The claims that are derived of the program of a reading, in this version.
///
/// # Errors
///
/// Out of memory.
fn in_version(
    alloc: Global,
    reading: &Reading<'_>,
    version: u8,
    diff: bool,
    claims: Cert,
    ranks: Vec<Rank>,
) -> Result<Derivation, FinderFault>
    requires derived { IsSomeAnd reading.now.program (λ p. IsDerived (offers_if diff) (plain_program p) (Certified (claims_of claims))) }
    requires ranks { IsSomeAnd reading.now.program (λ p. map rank_by ranks.items ≡ ranks_if diff (plain_program p) (claims_of claims)) }
    ensures { IsSomeAnd reading.now.program (λ p. Comes (reading_of reading.now) (plain_program p) version diff result) }
{
    if is_second(version) {
        match seal(alloc, reading, claims, ranks.as_slice()) {
            Ok(text) => Ok(Derivation::Sealed(text)),
            Err(_) => Err(FinderFault::Memory),
        }
    } else {
        Ok(Derivation::Certificate(claims))
    }
}

/// Whether a version is the second.
fn is_second(version: u8) -> bool
    ensures yes { result ≡ true → version ≡ 2 }
    ensures no { result ≡ false → version ≢ 2 }
{
    version == 2
}

/// The text of version 2 of claims on the program of a reading, with these ranks, unless it is longer than limit M10 allows.
///
/// # Errors
///
/// Out of memory.
fn seal(
    alloc: Global,
    reading: &Reading<'_>,
    claims: Cert,
    ranks: &[Rank],
) -> Result<Option<ListBuf<u8>>, AllocError>
    requires { IsSomeAnd reading.now.program (λ p. length claims.funcs ≡ length (plain_program p).functions) }
    ensures { IfOk result (λ text. IsSomeAnd reading.now.program (λ p. IsSealed (reading_of reading.now) (plain_program p) (claims_of claims) (map rank_by ranks.now) text)) }
{
    let found = digests(alloc, reading)?;
    let sections = sections_of(alloc, ranks)?;
    sealed_text_with(alloc, claims, found, sections)
}

/// The section of ranks, if there are any.
fn sections_of(alloc: Global, ranks: &[Rank]) -> Result<ListBuf<Section>, AllocError>
    ensures { IfOk result (λ sections. map section_of sections ≡ rank_sections (map rank_by ranks.now)) }
{
    let mut sections = Vec::new(alloc);
    if !ranks.is_empty() {
        let name = Vec::from_slice(alloc, b"diff".as_slice())?;
        let lines = section_lines(alloc, ranks)?;
        sections.push(Section {
            name: ListBuf::of(name),
            lines,
        })?;
    }
    Ok(ListBuf::of(sections))
}
