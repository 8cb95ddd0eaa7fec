//! The certificate of a whole program.

ghost use Rattle.std.specs.Prelude.{◌≡◌, [], map, IfOk, IfErr};
ghost use Rattle.p10_core.specs.Views.{plain_program};
ghost use Rattle.p10_core.specs.WholePrograms.{IsWholeProgram};
ghost use Rattle.p10_calls.specs.CallGraphs.{call_graph};
ghost use Rattle.p10_calls.specs.Ranks.{AreRanks};
ghost use Rattle.p10_cert.specs.Claims.{claims_of};
ghost use Rattle.p10_diff.specs.Ranked.{rank_by};
ghost use Rattle.p10_approach.specs.Offers.{no_offers, approach_offers, offers_if};
ghost use Rattle.p10_finder.specs.Answers.{HaveResults, AreViolations, AreClaims, Claiming, IsDerived};
ghost use Rattle.p10_finder.specs.Finding.{derived_of, HasRanks, IsFault};
ghost use Rattle.p10_finder.specs.Ranking.{ranks_of};

use crate::calls::Calls;
use crate::counting::Ranked;
use crate::found::{FinderFault, Found, RankedFound};
use crate::limits::keep_limits;
use crate::unsummed::unsummed_claims;
use crate::violations::{Judgement, judged};
use p10_calls::{CallFault, call_graph, order};
use p10_cert::Cert;
use p10_core::Program;
use p10_graph::components;
use std::alloc::{AllocError, Global};

/// The certificate of a program, or its violations of rows 1.3, 2.1, 2.2 and 3.1.
///
/// # Errors
///
/// M9 where a sum or a number of turns of the certificate exceeds 10^18, M10 where its text is longer than 8 MiB, or out of memory.
pub fn derive(alloc: Global, program: &Program<'_>) -> Result<Found, FinderFault>
    requires { IsWholeProgram (plain_program program.now) }
    ensures found { IfOk result (λ found. IsDerived no_offers (plain_program program.now) (derived_of found)) }
    ensures fault { IfErr result (IsFault no_offers (plain_program program.now)) }
{
    match derive_if(alloc, program, false) {
        Ok(ranked) => Ok(without_ranks(ranked)),
        Err(fault) => Err(fault),
    }
}

/// The same where variables that approach each other bound turns, with the ranks that stand for the loops of the certificate.
///
/// # Errors
///
/// As those of [`derive`].
pub fn derive_diff(alloc: Global, program: &Program<'_>) -> Result<RankedFound, FinderFault>
    requires { IsWholeProgram (plain_program program.now) }
    ensures found { IfOk result (λ ranked. IsDerived approach_offers (plain_program program.now) (derived_of ranked.found)) }
    ensures ranks { IfOk result (λ ranked. HasRanks approach_offers (plain_program program.now) ranked.found (map rank_by ranked.ranks.items)) }
    ensures fault { IfErr result (IsFault approach_offers (plain_program program.now)) }
{
    derive_if(alloc, program, true)
}

/// What is found, without the ranks.
fn without_ranks(ranked: RankedFound) -> Found
    ensures { result ≡ ranked.found }
{
    ranked.found
}

/// What is found of a program where variables that approach each other may bound turns, or may not.
fn derive_if(
    alloc: Global,
    program: &Program<'_>,
    approaching: bool,
) -> Result<RankedFound, FinderFault>
    requires { IsWholeProgram (plain_program program.now) }
    ensures found { IfOk result (λ ranked. IsDerived (offers_if approaching) (plain_program program.now) (derived_of ranked.found)) }
    ensures ranks { IfOk result (λ ranked. HasRanks (offers_if approaching) (plain_program program.now) ranked.found (map rank_by ranked.ranks.items)) }
    ensures fault { IfErr result (IsFault (offers_if approaching) (plain_program program.now)) }
{
    match judged(alloc, program, approaching) {
        Ok(judgement) => answer(alloc, program, approaching, judgement),
        Err(_) => Err(FinderFault::Memory),
    }
}

/// What is answered where these are the violations: they themselves, or the certificate if there are none.
fn answer(
    alloc: Global,
    program: &Program<'_>,
    approaching: bool,
    judgement: Judgement,
) -> Result<RankedFound, FinderFault>
    requires program { IsWholeProgram (plain_program program.now) }
    requires right { HaveResults (offers_if approaching) (plain_program program.now) (claims_of judgement.claims) }
    requires all { AreViolations (offers_if approaching) (plain_program program.now) (claims_of judgement.claims) judgement.bounds.violations.items }
    requires ranks { map rank_by judgement.bounds.ranks.items ≡ ranks_of (offers_if approaching) (plain_program program.now) (claims_of judgement.claims) }
    ensures found { IfOk result (λ ranked. IsDerived (offers_if approaching) (plain_program program.now) (derived_of ranked.found)) }
    ensures ranks { IfOk result (λ ranked. HasRanks (offers_if approaching) (plain_program program.now) ranked.found (map rank_by ranked.ranks.items)) }
    ensures fault { IfErr result (IsFault (offers_if approaching) (plain_program program.now)) }
{
    let bounds = judgement.bounds;
    if bounds.violations.is_empty() {
        match certified(alloc, program, approaching, &judgement.claims) {
            Ok(found) => Ok(RankedFound {
                found,
                ranks: bounds.ranks,
            }),
            Err(fault) => Err(fault),
        }
    } else {
        Ok(RankedFound {
            found: Found::Violations(bounds.violations),
            ranks: bounds.ranks,
        })
    }
}

/// The certificate of a program without violations, by claims with its results.
fn certified(
    alloc: Global,
    program: &Program<'_>,
    approaching: bool,
    results: &Cert,
) -> Result<Found, FinderFault>
    requires program { IsWholeProgram (plain_program program.now) }
    requires right { HaveResults (offers_if approaching) (plain_program program.now) (claims_of results.now) }
    requires lawful { AreViolations (offers_if approaching) (plain_program program.now) (claims_of results.now) [] }
    ensures found { IfOk result (λ found. IsDerived (offers_if approaching) (plain_program program.now) (derived_of found)) }
    ensures fault { IfErr result (IsFault (offers_if approaching) (plain_program program.now)) }
{
    match order(alloc, program) {
        Ok(order) => { within_limits(alloc, program, approaching, results, order.ranks.as_slice()) }
        Err(CallFault::Cycle(_)) => unreachable!(),
        Err(CallFault::Memory) => Err(FinderFault::Memory),
    }
}

/// The certificate, if it keeps within all limits, by claims with the program's results and by its ranks.
fn within_limits(
    alloc: Global,
    program: &Program<'_>,
    approaching: bool,
    results: &Cert,
    ranks: &[u32],
) -> Result<Found, FinderFault>
    requires program { IsWholeProgram (plain_program program.now) }
    requires right { HaveResults (offers_if approaching) (plain_program program.now) (claims_of results.now) }
    requires lawful { AreViolations (offers_if approaching) (plain_program program.now) (claims_of results.now) [] }
    requires ranks { AreRanks (call_graph (plain_program program.now)) ranks.now }
    ensures found { IfOk result (λ found. IsDerived (offers_if approaching) (plain_program program.now) (derived_of found)) }
    ensures fault { IfErr result (IsFault (offers_if approaching) (plain_program program.now)) }
{
    match certificate(alloc, program, approaching, results, ranks) {
        Ok(certificate) => limited(alloc, program, approaching, certificate),
        Err(_) => Err(FinderFault::Memory),
    }
}

/// The certificate, whether it keeps within the limits or not.
fn certificate<'a>(
    alloc: Global,
    program: &'a Program<'_>,
    approaching: bool,
    results: &Cert,
    ranks: &'a [u32],
) -> Result<Cert, AllocError>
    requires program { IsWholeProgram (plain_program program.now) }
    requires right { HaveResults (offers_if approaching) (plain_program program.now) (claims_of results.now) }
    requires ranks { AreRanks (call_graph (plain_program program.now)) ranks.now }
    ensures { IfOk result (λ certificate. AreClaims (offers_if approaching) (plain_program program.now) (claims_of certificate)) }
{
    let claims = unsummed_claims(alloc, program, results, ranks, approaching)?;
    let graph = call_graph(alloc, program)?;
    let numbers = components(alloc, &graph)?;
    let ranked = Ranked {
        calls: Calls {
            program,
            graph: &graph,
            numbers: numbers.as_slice(),
            approaching,
        },
        claims: &claims,
        ranks,
    };
    ranked.certificate(alloc)
}

/// The certificate of a program without violations, if it keeps within all limits.
fn limited(
    alloc: Global,
    program: &Program<'_>,
    approaching: bool,
    certificate: Cert,
) -> Result<Found, FinderFault>
    requires program { IsWholeProgram (plain_program program.now) }
    requires claiming { Claiming (offers_if approaching) (plain_program program.now) (claims_of certificate) }
    ensures found { IfOk result (λ found. IsDerived (offers_if approaching) (plain_program program.now) (derived_of found)) }
    ensures fault { IfErr result (IsFault (offers_if approaching) (plain_program program.now)) }
{
    match keep_limits(alloc, program, &certificate) {
        Ok(()) => Ok(Found::Certificate(certificate)),
        Err(fault) => Err(fault),
    }
}
