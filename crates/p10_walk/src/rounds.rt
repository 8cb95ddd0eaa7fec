//! One round of a loop.

ghost use Rattle.std.specs.Prelude.{◌≡◌, IfOk, OnOk, Some, None};
ghost use Rattle.std.specs.Option.{option_map, option_and_then};
ghost use Rattle.p10_core.specs.Views.{plain_value};
ghost use Rattle.p10_walk.specs.Walking.{test_holds};
ghost use Rattle.p10_walk.specs.Leaving.{ends_of, round_by};
ghost use Rattle.p10_walk.specs.private.Forms.{closed_by};

use crate::ends::Ends;
use crate::rules::Rules;
use p10_core::Value;
use std::alloc::{AllocError, Global};

/// One round of a loop from its head: what is known where its body is entered, and where it goes back to the head.
#[derive(Drop)]
pub struct Round<E> {
    pub enters: Option<E>,
    pub back: Option<E>,
}

/// What is known where the test of a loop is true; one without a test goes on.
pub(crate) fn test_holds<R: Rules>(
    alloc: Global,
    rules: &R,
    test: &Option<Value>,
    e: R::Env,
) -> Result<Option<R::Env>, AllocError>
    ensures { IfOk result (λ r. option_map R.known r ≡ test_holds (R.operations rules.now) (option_map plain_value test.now) (R.known e)) }
{
    match test {
        Some(v) => rules.assume(alloc, true, v, e),
        None => Ok(Some(e)),
    }
}

/// The same where a state may not come.
pub(crate) fn test_reached<R: Rules>(
    alloc: Global,
    rules: &R,
    test: &Option<Value>,
    e: Option<R::Env>,
) -> Result<Option<R::Env>, AllocError>
    ensures { IfOk result (λ r. option_map R.known r ≡ option_and_then (test_holds (R.operations rules.now) (option_map plain_value test.now)) (option_map R.known e)) }
{
    match e {
        Some(e) => test_holds(alloc, rules, test, e),
        None => Ok(None),
    }
}

/// A copy of what may be known.
pub(crate) fn copied<R: Rules>(
    alloc: Global,
    rules: &R,
    e: &Option<R::Env>,
) -> Result<Option<R::Env>, AllocError>
    ensures { IfOk result (λ r. option_map R.known r ≡ option_map R.known e.now) }
{
    match e {
        Some(e) => Ok(Some(rules.copy(alloc, e)?)),
        None => Ok(None),
    }
}

/// A round, by where its body is entered and what its third clause leaves.
pub(crate) fn closed_by<R: Rules>(enters: Option<R::Env>, closed: Ends<R::Env>) -> Round<R::Env>
    ensures { round_by R.known result ≡ closed_by (option_map R.known enters) (ends_of R.known closed) }
{
    Round {
        enters,
        back: closed.normal,
    }
}
