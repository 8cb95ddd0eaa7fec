//! Parts that may be lacking.

ghost use Rattle.std.specs.Prelude.{◌≡◌, None, if◌then◌else◌};
ghost use Rattle.p10_elabs.specs.private.Parts.{both, unless_refused};

/// Both parts, if they are there.
pub(crate) fn both<A: Drop, B: Drop>(a: Option<A>, b: Option<B>) -> Option<(A, B)>
    ensures { result ≡ both a b }
{
    match a {
        Some(a) => match b {
            Some(b) => Some((a, b)),
            None => None,
        },
        None => None,
    }
}

/// A part, unless it is refused.
pub(crate) fn kept<T: Drop>(may: bool, part: Option<T>) -> Option<T>
    ensures { result ≡ (if may then part else None) }
{
    if may { part } else { None }
}

/// What is found in a part, unless what is found before is refused.
pub(crate) fn unless_refused<A: Drop, B: Drop, P: Drop>(
    before: Result<A, P>,
    part: Result<B, P>,
) -> Result<B, P>
    ensures { result ≡ unless_refused before part }
{
    match before {
        Ok(_) => part,
        Err(problem) => Err(problem),
    }
}
