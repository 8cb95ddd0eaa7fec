//! The first of failing conditions.

ghost use Rattle.std.specs.Prelude.{◌≡◌, Some, option_map};
ghost use Rattle.p10_pass.specs.Leaving.{failing_of};
ghost use Rattle.p10_check.specs.Fails.{failures_of};
ghost use Rattle.p10_incr.specs.Rechecking.{first_of, first_from};

use p10_pass::Fail;

/// The first of one failing condition and of others that follow, by number and then in their order.
pub(crate) fn first_from(first: Option<Fail>, fails: &[Fail]) -> Option<Fail>
    ensures { option_map failing_of result ≡ first_from (option_map failing_of first) (failures_of fails.now) }
{
    let mut found = first;
    let mut fails = fails;
    while let [fail, others @ ..] = fails {
        found = Some(first_of(found, *fail));
        fails = others;
    }
    found
}

/// The first of two, of which the first may be lacking.
fn first_of(first: Option<Fail>, next: Fail) -> Fail
    ensures { failing_of result ≡ first_of (option_map failing_of first) (failing_of next) }
{
    match first {
        Some(fail) => { if next.k < fail.k { next } else { fail } }
        None => next,
    }
}
