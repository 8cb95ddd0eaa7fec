//! The files of a program are read, stage by stage.

ghost use Rattle.std.specs.Prelude.{◌≡◌, ◌↔◌, IfOk, IfErr, IfSome, IsSome, IsNone, Ok, Some, None};
ghost use Rattle.p10_core.specs.Views.{plain_program};
ghost use Rattle.p10_core.specs.WholePrograms.{IsWholeProgram};
ghost use Rattle.p10_expand.specs.Gathering.{HaveWords};
ghost use Rattle.p10_front.specs.Readings.{Reads};
ghost use Rattle.p10_front.specs.Answers.{reading_of, CanBePrinted, IsFault};
ghost use Rattle.p10_front.specs.private.Parsing.{reading_without, fault_of, IsParsed, IsUnparsed};

use crate::fault::FrontFault;
use crate::typing::typed;
use p10_base::{ListBuf, Refusal, Sources};
use p10_core::Program;
use p10_expand::{ExpandFault, Expanded, expand};
use p10_parse::units;
use p10_pexpr::ParseFault;
use p10_syn::Unit;
use std::alloc::Global;

/// What the files of a program are read as.
#[derive(Drop)]
pub struct Reading<'s> {
    /// The words of the roots, and the directives that were obeyed.
    pub expanded: Expanded<'s>,
    /// The declarations and functions of all roots, in their order; none where a directive, a macro or the grammar refuses them.
    pub units: Option<ListBuf<Unit<'s>>>,
    /// The typed program; none where there is a refusal.
    pub program: Option<Program<'s>>,
    /// The first refusal, if there is one: of D1 to D8, G1, or S1 to S30.
    pub refusal: Option<Refusal>,
}

/// Reads the files of a program. Each of them lexes within its limits, as in what `p10_expand::gather` gives.
///
/// # Errors
/// A limit is exceeded before a refusal, or memory is out.
pub fn read<'s>(alloc: Global, sources: &'s Sources) -> Result<Reading<'s>, FrontFault>
    requires { HaveWords sources.now }
    ensures read { IfOk result (λ reading. Reads sources.now (Ok (reading_of reading))) }
    ensures fault { IfErr result (IsFault sources.now) }
    // What follows: a refusal can be printed.
    ensures refusal { IfOk result (λ reading. IfSome reading.refusal CanBePrinted) }
    ensures program { IfOk result (λ reading. IsSome reading.program ↔ IsNone reading.refusal) }
    ensures whole { IfOk result (λ reading. IfSome reading.program (λ p. IsWholeProgram (plain_program p))) }
{
    match expand(alloc, sources) {
        Ok(expanded) => parse(alloc, expanded),
        Err(fault) => Err(unexpanded(fault)),
    }
}

/// Why files aren't read that don't expand.
fn unexpanded(fault: ExpandFault) -> FrontFault
    ensures { result ≡ fault_of fault }
{
    match fault {
        ExpandFault::Over(limit) => FrontFault::Over(limit),
        ExpandFault::Memory => FrontFault::Memory,
    }
}

/// The trees of expanded words and their program, unless they are refused.
fn parse<'s>(alloc: Global, expanded: Expanded<'s>) -> Result<Reading<'s>, FrontFault>
    ensures parsed { IfOk result (IsParsed expanded.entry) }
    ensures fault { IfErr result (IsUnparsed expanded.entry) }
    ensures whole { IfOk result (λ reading. IfSome reading.program (λ p. IsWholeProgram (plain_program p))) }
{
    if let Some(refusal) = expanded.refusal {
        return Ok(refused(expanded, refusal));
    }
    match units(alloc, expanded.roots.as_slice()) {
        Ok(all) => typed(alloc, expanded, ListBuf::of(all)),
        Err(fault) => without_trees(expanded, fault),
    }
}

/// What words are read as that have no trees.
fn without_trees<'s>(expanded: Expanded<'s>, fault: ParseFault) -> Result<Reading<'s>, FrontFault>
    ensures { result ≡ reading_without expanded.entry fault }
{
    match fault {
        ParseFault::Refused(refusal) => Ok(refused(expanded, refusal)),
        ParseFault::Over(limit) => Err(FrontFault::Over(limit)),
        ParseFault::Memory => Err(FrontFault::Memory),
    }
}

/// Words that are refused have no trees.
fn refused<'s>(expanded: Expanded<'s>, refusal: Refusal) -> Reading<'s>
    ensures { result ≡ record { expanded = expanded.entry; units = None; program = None; refusal = Some refusal } }
{
    Reading {
        expanded,
        units: None,
        program: None,
        refusal: Some(refusal),
    }
}
