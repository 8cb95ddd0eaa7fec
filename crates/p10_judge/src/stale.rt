//! Whether the digests that a certificate keeps are those of the program's words: condition K0.

ghost use Rattle.std.specs.Prelude.{◌≡◌, Some, map, option_map};
ghost use Rattle.p10_cert.specs.Sealed.{bytes_of};
ghost use Rattle.p10_check.specs.Texts.{differing_digests};
ghost use Rattle.p10_judge.specs.Kept.{kept_of, stale_among, stale_head, stale_of};

use p10_base::Digest;

/// A function whose words aren't those that a certificate speaks of: its number, the digest that is kept of it, and its own.
#[derive(Clone, Copy)]
pub struct Stale {
    pub number: usize,
    pub kept: Digest,
    pub found: Digest,
}

/// The first function whose digest isn't the one that is kept of it: as many are compared as both lists have.
pub fn first_stale(kept: &[Option<Digest>], found: &[Digest]) -> Option<Stale>
    ensures { option_map stale_of result ≡ stale_among 0 (map kept_of kept.now) (map bytes_of found.now) }
{
    let mut digests = kept;
    let mut others = found;
    let mut number = 0;
    while let [_, rest @ ..] = digests {
        match others {
            [_, further @ ..] => match stale_head(number, digests, others) {
                Some(stale) => return Some(stale),
                None => {
                    digests = rest;
                    others = further;
                    number += 1;
                }
            },
            [] => return None,
        }
    }
    None
}

/// The first function of some, which has this number, if its digest isn't the one that is kept of it.
fn stale_head(number: usize, kept: &[Option<Digest>], found: &[Digest]) -> Option<Stale>
    ensures { option_map stale_of result ≡ stale_head number (map kept_of kept.now) (map bytes_of found.now) }
{
    match kept {
        [digest, ..] => match found {
            [own, ..] => differing_digests(number, digest, own),
            [] => None,
        },
        [] => None,
    }
}

/// A function with this number, if its digest isn't the one that is kept of it. Where none is kept there is nothing to differ from.
fn differing_digests(number: usize, kept: &Option<Digest>, found: &Digest) -> Option<Stale>
    ensures { option_map stale_of result ≡ differing_digests number (kept_of kept.now) (bytes_of found.now) }
{
    match kept {
        Some(kept) => unless_same(number, kept, found),
        None => None,
    }
}

/// A function with this number, if its digest isn't this one.
fn unless_same(number: usize, kept: &Digest, found: &Digest) -> Option<Stale>
    ensures { option_map stale_of result ≡ differing_digests number (Some (bytes_of kept.now)) (bytes_of found.now) }
{
    if kept.0.as_slice() == found.0.as_slice() {
        None
    } else {
        Some(Stale {
            number,
            kept: *kept,
            found: *found,
        })
    }
}
