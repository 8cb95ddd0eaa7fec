//! An edit, and whether it touches a function.

ghost use Rattle.std.specs.Prelude.{◌≡◌, option_copied, option_map, slice_get};
ghost use Rattle.p10_cert.specs.Sealed.{bytes_of, statement_of};
ghost use Rattle.p10_check.specs.Texts.{digests_of};
ghost use Rattle.p10_incr.specs.Edits.{edit_of, touches_all, is_kept, is_touched};
ghost use Rattle.p10_incr.specs.private.Entries.{entry_at, known_entry, known_edit};

use crate::alike::same_func;
use crate::sections::same_evidence;
use crate::stale::are_same;
use p10_base::{Digest, Digests};
use p10_cert::{Cert2, FuncClaim};

/// The digests of a program's words after an edit, and certificates from before and after it.
#[derive(Clone, Copy)]
pub(crate) struct Edit<'a> {
    pub found: &'a Digests,
    pub old: &'a Cert2,
    pub new: &'a Cert2,
}

/// What a certificate says of a function.
#[derive(Clone, Copy)]
struct Entry<'a> {
    func: &'a FuncClaim,
    digest: &'a Digest,
}

/// Whether every function is touched.
pub(crate) fn touches_all(edit: Edit<'_>) -> bool
    ensures { result ≡ touches_all (known_edit edit.entry) }
{
    let outside = &edit.found.outside;
    !((are_same(&edit.old.outside, outside) && are_same(&edit.new.outside, outside))
        && same_evidence(edit.old.sections.as_slice(), edit.new.sections.as_slice()))
}

/// Whether the function with a number is touched, where it is given whether every function is.
pub(crate) fn is_touched(all: bool, edit: Edit<'_>, number: usize) -> bool
    requires { all ≡ touches_all (known_edit edit) }
    ensures { result ≡ is_touched (known_edit edit.entry) number }
{
    all || !is_kept(edit, number)
}

/// Whether what is said of a function is what was said of it, and both certificates speak of its words.
fn is_kept(edit: Edit<'_>, number: usize) -> bool
    ensures { result ≡ is_kept (slice_get (known_edit edit.entry).old.entries number) (slice_get (known_edit edit.entry).new.entries number) (slice_get (known_edit edit.entry).digests number) }
{
    let old = entry_at(edit.old, number);
    let new = entry_at(edit.new, number);
    let found = digest_at(edit.found, number);
    is_kept_by(old, new, found)
}

/// The same by what is said of the function and was said of it, and by the digest of its words, if these are there.
fn is_kept_by(old: Option<Entry<'_>>, new: Option<Entry<'_>>, found: Option<&Digest>) -> bool
    ensures { result ≡ is_kept (option_map known_entry old.entry) (option_map known_entry new.entry) (option_map bytes_of (option_copied found.entry)) }
{
    match old {
        Some(old) => match new {
            Some(new) => match found {
                Some(found) => are_same(old.digest, found) && same_func(old.func, new.func),
                None => false,
            },
            None => false,
        },
        None => false,
    }
}

/// What a certificate says of the function with a number.
fn entry_at(certificate: &Cert2, number: usize) -> Option<Entry<'_>>
    ensures { option_map known_entry result ≡ slice_get (statement_of certificate.now).entries number }
{
    let func = func_at(certificate, number);
    let digest = kept_at(certificate, number);
    entry_of(func, digest)
}

/// A claim with its digest, where both are there.
fn entry_of<'a>(func: Option<&'a FuncClaim>, digest: Option<&'a Digest>) -> Option<Entry<'a>>
    ensures { option_map known_entry result ≡ entry_at (option_copied func.entry) (option_copied digest.entry) }
{
    match func {
        Some(func) => match digest {
            Some(digest) => Some(Entry { func, digest }),
            None => None,
        },
        None => None,
    }
}

/// What a certificate claims of the function with a number.
fn func_at(certificate: &Cert2, number: usize) -> Option<&FuncClaim>
    ensures { option_copied result ≡ slice_get certificate.now.base.funcs number }
{
    certificate.base.funcs.as_slice().get(number)
}

/// The digest that a certificate keeps of the function with a number.
fn kept_at(certificate: &Cert2, number: usize) -> Option<&Digest>
    ensures { option_copied result ≡ slice_get certificate.now.digests number }
{
    certificate.digests.as_slice().get(number)
}

/// The digest of the function with a number.
fn digest_at(digests: &Digests, number: usize) -> Option<&Digest>
    ensures { option_map bytes_of (option_copied result) ≡ slice_get (digests_of digests.now) number }
{
    digests.funcs.as_slice().get(number)
}
