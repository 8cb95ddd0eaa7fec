//! Whether a certificate speaks of the program's words: condition K0.

ghost use Rattle.std.specs.Prelude.{◌≡◌, Some, map, option_map, bytes_eq};
ghost use Rattle.p10_cert.specs.Sealed.{bytes_of, entries_of};
ghost use Rattle.p10_check.specs.Texts.{differing_digests, first_stale};
ghost use Rattle.p10_incr.specs.private.Entries.{stale_of};

use p10_base::Digest;
use p10_cert::FuncClaim;

/// A function whose words aren't those that a certificate speaks of.
#[derive(Clone, Copy)]
pub(crate) struct Stale {
    pub number: usize,
    pub kept: Digest,
    pub found: Digest,
}

/// The first function whose digest isn't the one that is kept of it: as many are compared as there are claims with digests, and functions.
pub(crate) fn first_stale(funcs: &[FuncClaim], kept: &[Digest], found: &[Digest]) -> Option<Stale>
    ensures { option_map stale_of result ≡ first_stale 0 (entries_of funcs.now kept.now) (map bytes_of found.now) }
{
    let mut funcs = funcs;
    let mut kept = kept;
    let mut found = found;
    let mut number = 0;
    while let [_, other_funcs @ ..] = funcs {
        match kept {
            [digest, others @ ..] => match found {
                [own, further @ ..] => match differing_digests(number, digest, own) {
                    Some(stale) => return Some(stale),
                    None => {
                        funcs = other_funcs;
                        kept = others;
                        found = further;
                        number += 1;
                    }
                },
                [] => return None,
            },
            [] => return None,
        }
    }
    None
}

/// A function with this number, if its digest isn't the one that is kept of it.
fn differing_digests(number: usize, kept: &Digest, found: &Digest) -> Option<Stale>
    ensures { option_map stale_of result ≡ differing_digests number (Some (bytes_of kept.now)) (bytes_of found.now) }
{
    if are_same(kept, found) {
        None
    } else {
        Some(Stale {
            number,
            kept: *kept,
            found: *found,
        })
    }
}

/// Whether two digests are the same.
pub(crate) fn are_same(first: &Digest, second: &Digest) -> bool
    ensures { result ≡ bytes_eq (bytes_of first.now) (bytes_of second.now) }
{
    first.0.as_slice() == second.0.as_slice()
}
