//! What a walk over trees keeps of them.

ghost use Rattle.std.specs.Prelude.{◌≡◌, ◌+◌, ◌*◌, option_map, option_copied};
ghost use Rattle.p10_cert.specs.Claims.{func_of};
ghost use Rattle.p10_sums.specs.private.Tallies.{capped, no_tally, some_steps, in_turn, one_of, as_often, of_callee, of_library};

use p10_base::Limit;
use p10_cert::FuncClaim;
use p10_core::{Library, manages_memory};

/// Steps, up to one more than the greatest sum that is allowed; and the greatest depths that are claimed of callees, and
/// whether memory may be allocated or freed.
#[derive(Clone, Copy)]
pub(crate) struct Tally {
    pub steps: u64,
    pub calls: u64,
    pub bytes: u64,
    pub alloc: bool,
}

/// Nothing.
#[tactic(auto, unfolding(crate::specs::private::Tallies::no_tally))]
pub(crate) fn no_tally() -> Tally
    ensures { result ≡ no_tally }
{
    Tally {
        steps: 0,
        calls: 0,
        bytes: 0,
        alloc: false,
    }
}

/// A number, or the least that is too great.
#[tactic(auto, unfolding(crate::specs::private::Tallies::capped))]
pub(crate) fn capped(number: u64) -> u64
    ensures { result ≡ capped number }
{
    number.min(Limit::MOST_SUM + 1)
}

/// The sum of two numbers, or the least number that is too great.
#[tactic(auto, unfolding(crate::specs::private::Tallies::capped))]
pub(crate) fn plus(a: u64, b: u64) -> u64
    ensures { result ≡ capped (a + b) }
{
    match a.checked_add(b) {
        Some(sum) => sum.min(Limit::MOST_SUM + 1),
        None => Limit::MOST_SUM + 1,
    }
}

/// The product of two numbers, or the least number that is too great.
#[tactic(auto, unfolding(crate::specs::private::Tallies::capped))]
pub(crate) fn times(a: u64, b: u64) -> u64
    ensures { result ≡ capped (a * b) }
{
    match a.checked_mul(b) {
        Some(product) => product.min(Limit::MOST_SUM + 1),
        None => Limit::MOST_SUM + 1,
    }
}

/// Steps alone.
#[tactic(auto, unfolding(crate::specs::private::Tallies::some_steps))]
pub(crate) fn some_steps(number: u64) -> Tally
    ensures { result ≡ some_steps number }
{
    Tally {
        steps: capped(number),
        calls: 0,
        bytes: 0,
        alloc: false,
    }
}

/// One after the other.
#[tactic(auto, unfolding(crate::specs::private::Tallies::in_turn))]
pub(crate) fn in_turn(a: Tally, b: Tally) -> Tally
    ensures { result ≡ in_turn a b }
{
    Tally {
        steps: plus(a.steps, b.steps),
        calls: a.calls.max(b.calls),
        bytes: a.bytes.max(b.bytes),
        alloc: a.alloc || b.alloc,
    }
}

/// One or the other.
#[tactic(auto, unfolding(crate::specs::private::Tallies::one_of))]
pub(crate) fn one_of(a: Tally, b: Tally) -> Tally
    ensures { result ≡ one_of a b }
{
    Tally {
        steps: a.steps.max(b.steps),
        calls: a.calls.max(b.calls),
        bytes: a.bytes.max(b.bytes),
        alloc: a.alloc || b.alloc,
    }
}

/// The same a number of times.
#[tactic(auto, unfolding(crate::specs::private::Tallies::as_often))]
pub(crate) fn as_often(number: u64, a: Tally) -> Tally
    ensures { result ≡ as_often number a }
{
    Tally {
        steps: times(number, a.steps),
        ..a
    }
}

/// A step and what it pays for.
pub(crate) fn paying(a: Tally) -> Tally
    ensures { result ≡ in_turn (some_steps 1) a }
{
    in_turn(some_steps(1), a)
}

/// A callee, by what is claimed of it.
#[tactic(auto, unfolding(crate::specs::private::Tallies::of_callee))]
pub(crate) fn of_callee(claim: Option<&FuncClaim>) -> Tally
    ensures { result ≡ of_callee (option_map func_of (option_copied claim.entry)) }
{
    match claim {
        Some(claim) => Tally {
            steps: capped(claim.steps),
            calls: claim.calls,
            bytes: claim.bytes,
            alloc: claim.alloc,
        },
        None => Tally {
            steps: capped(0),
            calls: 0,
            bytes: 0,
            alloc: false,
        },
    }
}

/// The step of a call of a library function.
#[tactic(auto, unfolding(crate::specs::private::Tallies::of_library))]
pub(crate) fn of_library(library: Library) -> Tally
    ensures { result ≡ of_library library }
{
    Tally {
        steps: 1,
        calls: 0,
        bytes: 0,
        alloc: manages_memory(library),
    }
}
