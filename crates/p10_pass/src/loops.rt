//! What a loop under a claim leaves.

ghost use Rattle.std.specs.Prelude.{◌≡◌, ◌++◌, map, Some, None, OnOk, IfOk};
ghost use Rattle.std.specs.Option.{option_map};
ghost use Rattle.p10_core.specs.Views.{plain_statement, plain_variable};
ghost use Rattle.p10_cert.specs.Claims.{loop_of};
ghost use Rattle.p10_pass.specs.Scopes.{assigns, changed_each, assigned_forgotten, offsets_restored};
ghost use Rattle.p10_pass.specs.Claiming.{ranges_hold, ranges_hold_reached, no_claim};
ghost use Rattle.p10_pass.specs.Passing.{reached, failing_if, rank_fails, weakness_of, place_unless, loop_left};
ghost use Rattle.p10_pass.specs.Leaving.{values_in, failing_of, weakness_by, left_of};
ghost use Rattle.p10_pass.specs.Manners.{manner_by};
ghost use Rattle.p10_pass.specs.private.Renewing.{renewal};
ghost use Rattle.p10_pass.specs.Rounds.{round_by};
ghost use Rattle.p10_pass.specs.private.Walking.{after_loop, ends_changed};

use crate::claiming::{enters_ranked, goes_back_ranked, is_enough, ranges_hold, ranges_hold_in};
use crate::left::{Fail, Left, Weak};
use crate::manner::Manner;
use crate::marks::assigned_marks;
use crate::renewal::{Renewal, renew_each};
use crate::rounds::Round;
use p10_absx::Env;
use p10_base::Span;
use p10_cert::{LoopClaim, Rank, VarRanges};
use p10_core::{LoopHead, Stmt, Variable};
use std::alloc::{AllocError, Global};

/// A loop without claims of inner loops: each variable that it assigns has any value of its type.
pub(crate) fn forgotten(
    alloc: Global,
    m: &Manner<'_, '_>,
    s: &Stmt,
    env: Env,
) -> Result<Left, AllocError>
    ensures { IfOk result (λ l. left_of l ≡ reached (Some (assigned_forgotten (λ n. assigns n (plain_statement s.now)) (manner_by m.now).variables env.values))) }
{
    let marks = assigned_marks(alloc, s, m.variables.len())?;
    let mut env = env;
    renew_each(&mut env, &Renewal::Forgotten(marks.as_slice()), m.variables)?;
    Ok(Left::reached(alloc, Some(env)))
}

/// The claim of a loop of which nothing is claimed.
pub(crate) fn no_claim(alloc: Global) -> LoopClaim
    ensures { loop_of result ≡ no_claim }
{
    LoopClaim {
        depth: 0,
        rank: Rank::One,
        turns: 0,
        inv: VarRanges::new(alloc),
    }
}

/// What of a claim holds of a round: its ranges at entry and on the way back, and what of its rank fails.
#[derive(Drop)]
struct Judged {
    enters: bool,
    goes_back: bool,
    fails: Vec<Fail>,
}

/// Judges the claim of a loop by a round.
fn judge(
    alloc: Global,
    m: &Manner<'_, '_>,
    claim: &LoopClaim,
    at: Span,
    entry: &Env,
    round: &Round,
) -> Result<Judged, AllocError>
    ensures enters { IfOk result (λ j. j.enters ≡ ranges_hold (loop_of claim.now) 0 (manner_by m.now).variables entry.now.values) }
    ensures goes_back { IfOk result (λ j. j.goes_back ≡ ranges_hold_reached (loop_of claim.now) (manner_by m.now).variables (round_by round.now).back) }
    ensures fails { IfOk result (λ j. map failing_of j.fails.items ≡ rank_fails (loop_of claim.now) at entry.now.values (round_by round.now)) }
{
    let enters = ranges_hold_in(alloc, claim, m.variables, entry)?;
    let goes_back = ranges_hold(alloc, claim, m.variables, &round.back)?;
    let fails = rank_fails(alloc, claim, at, entry, round)?;
    Ok(Judged {
        enters,
        goes_back,
        fails,
    })
}

/// Which of K8 to K10 of a loop fail by the pass; the task has none of them.
fn rank_fails(
    alloc: Global,
    claim: &LoopClaim,
    at: Span,
    entry: &Env,
    round: &Round,
) -> Result<Vec<Fail>, AllocError>
    ensures { IfOk result (λ fails. map failing_of fails.items ≡ rank_fails (loop_of claim.now) at entry.now.values (round_by round.now)) }
{
    let mut fails = Vec::new(alloc);
    match claim.rank {
        Rank::Task => Ok(fails),
        Rank::Up { var: _, bound: _ } | Rank::Down { var: _, bound: _ } | Rank::One => {
            put_if(!enters_ranked(claim.rank, &round.enters), 8, at, &mut fails)?;
            put_if(
                !goes_back_ranked(claim.rank, &round.back),
                9,
                at,
                &mut fails,
            )?;
            put_if(
                !is_enough(claim.turns, claim.rank, entry),
                10,
                at,
                &mut fails,
            )?;
            Ok(fails)
        }
    }
}

/// Puts a condition that fails, if it does.
fn put_if(fails: bool, k: u8, at: Span, into: &mut Vec<Fail>) -> Result<(), AllocError>
    ensures { OnOk result (map failing_of into.new.items ≡ map failing_of into.old.items ++ failing_if fails k at) }
{
    if fails {
        into.push(Fail { k, at })?;
    }
    Ok(())
}

/// Gives what is known after a loop the offsets that its entry has, except for the variables that it assigns.
fn restore_end(
    marks: &[bool],
    entry: &Env,
    variables: &[Variable<'_>],
    end: &mut Option<Env>,
) -> Result<(), AllocError>
    ensures { OnOk result (values_in end.new ≡ option_map (changed_each (renewal (Renewal.Restored marks.entry entry.entry)) 0 (map plain_variable variables.now)) (values_in end.old)) }
{
    match end {
        Some(env) => renew_each(env, &Renewal::Restored(marks, entry), variables),
        None => Ok(()),
    }
}

/// The same for the ends of a round that go past its loop.
fn restore(
    alloc: Global,
    m: &Manner<'_, '_>,
    s: &Stmt,
    entry: &Env,
    round: &mut Round,
) -> Result<(), AllocError>
    ensures { OnOk result (round_by round.new ≡ ends_changed (offsets_restored (λ n. assigns n (plain_statement s.now)) entry.now.values (manner_by m.now).variables) (round_by round.old)) }
{
    let marks = assigned_marks(alloc, s, m.variables.len())?;
    restore_end(marks.as_slice(), entry, m.variables, &mut round.exits)?;
    restore_end(
        marks.as_slice(),
        entry,
        m.variables,
        &mut round.body.returns,
    )?;
    Ok(())
}

/// Puts a place before others where a condition doesn't hold there.
fn put_unless(holds: bool, at: Span, places: &mut Vec<Span>) -> Result<(), AllocError>
    ensures { OnOk result (places.new.items ≡ place_unless holds at ++ places.old.items) }
{
    if !holds {
        places.insert(0, at)?;
    }
    Ok(())
}

/// Puts the weakness of a loop before others, if it has one.
fn put_weakness(
    n: u32,
    entry: Env,
    fails: Vec<Fail>,
    weak: &mut Vec<Weak>,
) -> Result<(), AllocError>
    ensures { OnOk result (map weakness_by weak.new.items ≡ weakness_of n entry.values (map failing_of fails.items) ++ map weakness_by weak.old.items) }
{
    if !fails.is_empty() {
        weak.insert(
            0,
            Weak {
                at: n,
                entry,
                fails,
            },
        )?;
    }
    Ok(())
}

/// What a round leaves after its loop.
fn closed(round: Round) -> Left
    ensures { left_of result ≡ record { normal = (round_by round).exits; breaks = None; continues = None; returns = (round_by round).body.returns; returned = (round_by round).body.returned; arguments = (round_by round).names; results = (round_by round).body.results; entries = (round_by round).body.entries; backs = (round_by round).body.backs; weak = (round_by round).body.weak } }
{
    let mut round = round;
    let mut left = round.body;
    left.normal = round.exits.take();
    left.breaks = None;
    left.continues = None;
    left.arguments = round.names;
    left
}

/// What is left after a loop whose offsets are restored and whose claim is judged.
fn after_loop(head: LoopHead, judged: Judged, entry: Env, round: Round) -> Result<Left, AllocError>
    ensures { IfOk result (λ l. left_of l ≡ after_loop head judged.enters judged.goes_back (map failing_of judged.fails.items) entry.values (round_by round)) }
{
    let mut left = closed(round);
    put_unless(judged.enters, head.span, &mut left.entries)?;
    put_unless(judged.goes_back, head.span, &mut left.backs)?;
    put_weakness(head.number, entry, judged.fails, &mut left.weak)?;
    Ok(left)
}

/// What a round of a loop under a claim leaves after the loop.
pub(crate) fn loop_left(
    alloc: Global,
    m: &Manner<'_, '_>,
    claim: &LoopClaim,
    head: LoopHead,
    s: &Stmt,
    entry: Env,
    round: Round,
) -> Result<Left, AllocError>
    ensures { IfOk result (λ l. left_of l ≡ loop_left (manner_by m.now) (loop_of claim.now) head (λ n. assigns n (plain_statement s.now)) entry.values (round_by round)) }
{
    let judged = judge(alloc, m, claim, head.span, &entry, &round)?;
    let mut round = round;
    restore(alloc, m, s, &entry, &mut round)?;
    after_loop(head, judged, entry, round)
}
