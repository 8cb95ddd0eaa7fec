//! Parts of any kind. What isn't used of them is dropped here, once for all kinds: a drop of a tree makes the proof of the function
//! that it stands in long.

ghost use Rattle.std.specs.Prelude.{◌≡◌, Err};
ghost use Rattle.p10_elabx.specs.First.{only_first, refused_where, on, pair, lift, nothing_said};

use crate::judged::{joined, refusal};
use crate::problem::Problem;

/// The trouble, without what was found before it.
pub(crate) fn stopped<T: Drop, U, E>(_part: T, trouble: E) -> Result<U, E>
    ensures { result ≡ Err trouble }
{
    Err(trouble)
}

/// What is found, without a part that isn't needed any more.
pub(crate) fn without<T: Drop, R>(_part: T, found: R) -> R
    ensures { result ≡ found }
{
    found
}

/// The trouble, without the two parts that were found before it.
pub(crate) fn stopped_after_two<T: Drop, U: Drop, V, E>(
    _first: T,
    _second: U,
    trouble: E,
) -> Result<V, E>
    ensures { result ≡ Err trouble }
{
    Err(trouble)
}

/// The trouble, without the three parts that were found before it.
pub(crate) fn stopped_after_three<T: Drop, U, E>(
    _first: T,
    _second: T,
    _third: T,
    trouble: E,
) -> Result<U, E>
    ensures { result ≡ Err trouble }
{
    Err(trouble)
}

/// A part, where a row on its form may hold.
pub(crate) fn refused<T: Drop>(
    holds: bool,
    own: Problem,
    found: Result<T, Option<Problem>>,
) -> Result<T, Option<Problem>>
    ensures { lift result ≡ refused_where only_first holds own.code own.at (lift found) }
{
    match found {
        Ok(part) => { if holds { Err(Some(own)) } else { Ok(part) } }
        Err(r) => Err(refusal(holds, own, r)),
    }
}

/// The rows that hold in a part of which nothing is made.
pub(crate) fn unused<T: Drop, U>(found: Result<T, Option<Problem>>) -> Result<U, Option<Problem>>
    ensures { lift result ≡ on (lift found) (λ part. nothing_said) }
{
    match found {
        Ok(_) => Err(None),
        Err(r) => Err(r),
    }
}

/// Both parts, or the rows that hold in them.
pub(crate) fn both<T: Drop, U: Drop>(
    first: Result<T, Option<Problem>>,
    second: Result<U, Option<Problem>>,
) -> Result<(T, U), Option<Problem>>
    ensures { lift result ≡ pair only_first (lift first) (lift second) }
{
    match (first, second) {
        (Ok(a), Ok(b)) => Ok((a, b)),
        (Ok(_), Err(q)) => Err(q),
        (Err(r), Ok(_)) => Err(r),
        (Err(r), Err(q)) => Err(joined(r, q)),
    }
}
