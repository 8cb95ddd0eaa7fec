//! The violations of the rows for which there is no certificate, and the ranks of loops.

ghost use Rattle.std.specs.Prelude.{◌≡◌, ◌++◌, map, IfOk, OnOk};
ghost use Rattle.std.specs.Option.{option_map};
ghost use Rattle.p10_core.specs.Views.{plain_program};
ghost use Rattle.p10_cert.specs.Claims.{claims_of};
ghost use Rattle.p10_diff.specs.Ranked.{rank_by};
ghost use Rattle.p10_candidates.specs.Offering.{approach_by};
ghost use Rattle.p10_approach.specs.Offers.{no_offers, offers_if};
ghost use Rattle.p10_finder.specs.Finding.{loops_by};
ghost use Rattle.p10_finder.specs.Answers.{HaveResults, AreViolations, HasViolations};
ghost use Rattle.p10_finder.specs.Ranking.{rank_for_loop, ranks_by, ranks_of};
ghost use Rattle.p10_finder.specs.private.Judging.{lacking_from, unbounded_at};

use crate::calls::Calls;
use crate::functions::loops_of;
use crate::search::LoopsFound;
use p10_approach::rank_of;
use p10_base::{Span, Sub, Violation};
use p10_calls::call_graph;
use p10_candidates::Approach;
use p10_cert::Cert;
use p10_core::Program;
use p10_diff::Rank;
use p10_flowrules::flow_rules;
use p10_graph::components;
use std::alloc::{AllocError, Global};

/// The violations of rows 1.3, 2.1, 2.2 and 3.1 by a program, in the order of violations, each once. It fails only where memory runs
/// out; 2^32 functions, variables or nested loops count as that, too.
pub fn bound_rules(alloc: Global, program: &Program<'_>) -> Result<Vec<Violation>, AllocError>
    ensures { IfOk result (λ found. HasViolations no_offers (plain_program program.now) found.items) }
{
    let claims = results(alloc, program, false)?;
    let bounds = bounds_under(alloc, program, &claims, false)?;
    Ok(bounds.violations)
}

/// A program's violations of these rows, and the ranks of its loops.
#[derive(Drop)]
pub(crate) struct Bounding {
    pub violations: Vec<Violation>,
    pub ranks: Vec<Rank>,
}

/// The same, and claims with the program's results.
#[derive(Drop)]
pub(crate) struct Judgement {
    pub claims: Cert,
    pub bounds: Bounding,
}

/// The violations of a program and its ranks, and the claims under which they were found.
pub(crate) fn judged(
    alloc: Global,
    program: &Program<'_>,
    approaching: bool,
) -> Result<Judgement, AllocError>
    ensures right { IfOk result (λ found. HaveResults (offers_if approaching) (plain_program program.now) (claims_of found.claims)) }
    ensures all { IfOk result (λ found. AreViolations (offers_if approaching) (plain_program program.now) (claims_of found.claims) found.bounds.violations.items) }
    ensures ranks { IfOk result (λ found. map rank_by found.bounds.ranks.items ≡ ranks_of (offers_if approaching) (plain_program program.now) (claims_of found.claims)) }
{
    let claims = results(alloc, program, approaching)?;
    let bounds = bounds_under(alloc, program, &claims, approaching)?;
    Ok(Judgement { claims, bounds })
}

/// Claims with the results of a program.
fn results(alloc: Global, program: &Program<'_>, approaching: bool) -> Result<Cert, AllocError>
    ensures { IfOk result (λ claims. HaveResults (offers_if approaching) (plain_program program.now) (claims_of claims)) }
{
    let graph = call_graph(alloc, program)?;
    let numbers = components(alloc, &graph)?;
    let calls = Calls {
        program,
        graph: &graph,
        numbers: numbers.as_slice(),
        approaching,
    };
    calls.results(alloc)
}

/// The violations of a program and its ranks, where these claims stand.
fn bounds_under(
    alloc: Global,
    program: &Program<'_>,
    claims: &Cert,
    approaching: bool,
) -> Result<Bounding, AllocError>
    ensures all { IfOk result (λ found. AreViolations (offers_if approaching) (plain_program program.now) (claims_of claims.now) found.violations.items) }
    ensures ranks { IfOk result (λ found. map rank_by found.ranks.items ≡ ranks_of (offers_if approaching) (plain_program program.now) (claims_of claims.now)) }
{
    let looked = looked_through(alloc, program, claims, approaching)?;
    let mut violations = flow_rules(alloc, program)?;
    push_unbounded(looked.spans.as_slice(), &mut violations)?;
    violations.sort()?;
    violations.dedup();
    Ok(Bounding {
        violations,
        ranks: looked.ranks,
    })
}

/// The keywords of loops without a bound, and the ranks of loops.
#[derive(Drop)]
struct Looked {
    spans: Vec<Span>,
    ranks: Vec<Rank>,
}

/// The keywords of the loops without a bound, and the ranks. It fails only where memory runs out; 2^32 functions count as that, too.
fn looked_through(
    alloc: Global,
    program: &Program<'_>,
    claims: &Cert,
    approaching: bool,
) -> Result<Looked, AllocError>
    ensures spans { IfOk result (λ looked. looked.spans.items ≡ lacking_from (offers_if approaching) (plain_program program.now) (claims_of claims.now) 0 (plain_program program.now).functions) }
    ensures ranks { IfOk result (λ looked. map rank_by looked.ranks.items ≡ ranks_of (offers_if approaching) (plain_program program.now) (claims_of claims.now)) }
{
    let functions = program.functions.as_slice();
    if functions.len() > u32::MAX as usize {
        return Err(AllocError);
    }
    let mut spans = Vec::new(alloc);
    let mut ranks = Vec::new(alloc);
    for (n, function) in functions.iter().enumerate() {
        let found = loops_of(alloc, program, claims, n as u32, function, approaching)?;
        put_lacking(&found, &mut spans)?;
        put_ranks(alloc, n as u32, &found, &mut ranks)?;
    }
    Ok(Looked { spans, ranks })
}

/// Puts the keywords of a function's loops without a bound after others.
fn put_lacking(loops: &LoopsFound, spans: &mut Vec<Span>) -> Result<(), AllocError>
    ensures { OnOk result (spans.new.items ≡ spans.old.items ++ (loops_by loops.now).unbounded) }
{
    spans.extend_from_slice(loops.unbounded.as_slice())?;
    Ok(())
}

/// Puts the ranks of a function's loops after others. It fails only where memory runs out; 2^32 loops count as that, too.
fn put_ranks(
    alloc: Global,
    number: u32,
    loops: &LoopsFound,
    ranks: &mut Vec<Rank>,
) -> Result<(), AllocError>
    ensures { OnOk result (map rank_by ranks.new.items ≡ map rank_by ranks.old.items ++ ranks_by number 0 (loops_by loops.now).approaches) }
{
    let approaches = loops.approaches.as_slice();
    if approaches.len() > u32::MAX as usize {
        return Err(AllocError);
    }
    for (k, a) in approaches.iter().enumerate() {
        put_rank(alloc, number, k as u32, *a, ranks)?;
    }
    Ok(())
}

/// Puts the rank of a loop after others, if it has one.
fn put_rank(
    alloc: Global,
    number: u32,
    at: u32,
    a: Option<Approach>,
    ranks: &mut Vec<Rank>,
) -> Result<(), AllocError>
    ensures { OnOk result (map rank_by ranks.new.items ≡ map rank_by ranks.old.items ++ rank_for_loop number at (option_map approach_by a)) }
{
    if let Some(a) = a {
        ranks.push(rank_of(alloc, number, at, a))?;
    }
    Ok(())
}

/// Puts violations of row 2.1 after the others.
fn push_unbounded(spans: &[Span], violations: &mut Vec<Violation>) -> Result<(), AllocError>
    ensures { OnOk result (violations.new.items ≡ violations.old.items ++ map unbounded_at spans.now) }
{
    for span in spans {
        let sub = Sub { rule: 2, sub: 1 };
        violations.push(Violation { sub, span: *span })?;
    }
    Ok(())
}
