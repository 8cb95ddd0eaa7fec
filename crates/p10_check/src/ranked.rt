//! The conditions on the ranks of loops, K8 to K10, where evidence may stand in.

ghost use Rattle.std.specs.Prelude.{◌≡◌, ◌++◌, [], if◌then◌else◌, OnOk, IfOk, map};
ghost use Rattle.p10_core.specs.Views.{plain_program};
ghost use Rattle.p10_cert.specs.Claims.{claims_of, loop_of};
ghost use Rattle.p10_pass.specs.Claiming.{no_claim};
ghost use Rattle.p10_pass.specs.Leaving.{weakness_by};
ghost use Rattle.p10_check.specs.Passes.{places_of};
ghost use Rattle.p10_check.specs.Conditions.{failing_at_each};
ghost use Rattle.p10_check.specs.Fails.{failures_of};
ghost use Rattle.p10_check.specs.private.Ranked.{stands_for, unranked_by};

use crate::claimed::{loop_at, loops_claimed};
use crate::evidence::Evidence;
use crate::failing::push_if;
use p10_cert::{Cert, LoopClaim, Rank, VarRanges};
use p10_core::Program;
use p10_pass::{Fail, Weak};
use std::alloc::{AllocError, Global};

/// A function by its number, with the program and the certificate by which it is judged.
#[derive(Clone, Copy)]
pub(crate) struct Judged<'a, 's> {
    pub program: &'a Program<'s>,
    pub certificate: &'a Cert,
    pub number: u32,
}

/// For which of these loops of a function evidence stands.
pub(crate) fn stood_for<E: Evidence>(
    alloc: Global,
    judged: &Judged<'_, '_>,
    evidence: &E,
    weak: &[Weak],
) -> Result<Vec<bool>, AllocError>
    ensures { IfOk result (λ stood. stood.items ≡ map (stands_for (E.standing evidence.now (plain_program judged.now.program.now)) (claims_of judged.now.certificate.now) judged.now.number) (map weakness_by weak.now)) }
{
    let mut stood = Vec::new(alloc);
    for w in weak {
        let stands = stands_for(alloc, judged, evidence, w)?;
        stood.push(stands)?;
    }
    Ok(stood)
}

/// Whether evidence stands for a loop of a function.
fn stands_for<E: Evidence>(
    alloc: Global,
    judged: &Judged<'_, '_>,
    evidence: &E,
    w: &Weak,
) -> Result<bool, AllocError>
    ensures { IfOk result (λ b. b ≡ stands_for (E.standing evidence.now (plain_program judged.now.program.now)) (claims_of judged.now.certificate.now) judged.now.number (weakness_by w.now)) }
{
    let claims = judged.certificate.funcs.as_slice();
    let loops = loops_claimed(claims, judged.number as usize);
    match loop_at(loops, w.at) {
        Some(claim) => evidence.stands(alloc, judged.program, judged.number, w.at, &w.entry, claim),
        None => {
            let claim = no_claim(alloc);
            evidence.stands(alloc, judged.program, judged.number, w.at, &w.entry, &claim)
        }
    }
}

/// What is taken for the claim on a loop that has none.
fn no_claim(alloc: Global) -> LoopClaim
    ensures { loop_of result ≡ no_claim }
{
    LoopClaim {
        depth: 0,
        rank: Rank::One,
        turns: 0,
        inv: VarRanges::new(alloc),
    }
}

/// Puts down where a condition on ranks fails in loops, of which it is given for which evidence stands.
pub(crate) fn push_unranked(
    k: u8,
    stood: &[bool],
    weak: &[Weak],
    failing: &mut Vec<Fail>,
) -> Result<(), AllocError>
    ensures { OnOk result (failures_of failing.new.items ≡ failures_of failing.old.items ++ failing_at_each k (unranked_by k stood.now (map weakness_by weak.now))) }
{
    let mut stood = stood;
    let mut weak = weak;
    while let [w, others @ ..] = weak {
        match stood {
            [stands, further @ ..] => {
                push_unless(*stands, k, w.fails.as_slice(), failing)?;
                weak = others;
                stood = further;
            }
            [] => return Ok(()),
        }
    }
    Ok(())
}

/// The same for one loop.
fn push_unless(
    stands: bool,
    k: u8,
    fails: &[Fail],
    failing: &mut Vec<Fail>,
) -> Result<(), AllocError>
    ensures { OnOk result (failures_of failing.new.items ≡ failures_of failing.old.items ++ failing_at_each k (if stands then [] else places_of k (failures_of fails.now))) }
{
    if !stands {
        push_of(k, fails, failing)?;
    }
    Ok(())
}

/// Puts down those failing conditions that have a number.
fn push_of(k: u8, fails: &[Fail], failing: &mut Vec<Fail>) -> Result<(), AllocError>
    ensures { OnOk result (failures_of failing.new.items ≡ failures_of failing.old.items ++ failing_at_each k (places_of k (failures_of fails.now))) }
{
    let mut fails = fails;
    while let [fail, others @ ..] = fails {
        push_if(fail.k == k, k, fail.at, failing)?;
        fails = others;
    }
    Ok(())
}
