//! Words of specifiers: storage, qualifiers and words that aren't in the subset (C99 6.7.1 to 6.7.4).

ghost use Rattle.std.specs.Prelude.{◌≡◌, map};
ghost use Rattle.p10_syn.specs.Trees.{specifier_row};
ghost use Rattle.p10_syn.specs.Built.{specifier_of};
ghost use Rattle.p10_elabd.specs.Words.{is_storage, may_store, word_row, storage_by, storage_with, storage_of, is_volatile};

use crate::site::{Allowed, Site, Storage};
use p10_base::SubsetCode;
use p10_syn::{Sign, Spec};

/// Whether a word is one of storage.
pub fn is_storage(word: Sign) -> bool
    ensures { result ≡ is_storage word }
{
    matches!(
        word,
        Sign::Typedef | Sign::Extern | Sign::Static | Sign::Auto | Sign::Register
    )
}

/// Whether a word may stand at a site as one of storage.
fn may_store(site: Site, word: Sign) -> bool
    ensures { result ≡ may_store site word }
{
    match site {
        Site::Outside => matches!(word, Sign::Typedef | Sign::Extern | Sign::Static),
        Site::OfDefinition => matches!(word, Sign::Extern | Sign::Static),
        Site::InBlock => matches!(word, Sign::Typedef | Sign::Static),
        Site::InFor | Site::OfMembers | Site::OfParameter => false,
    }
}

/// The row that a word breaks, where a storage word stands before it or none does.
pub fn word_row(site: Site, allowed: Allowed, stored: bool, word: Sign) -> Option<SubsetCode>
    ensures { result ≡ word_row site allowed stored word }
{
    match word {
        Sign::Float | Sign::Double | Sign::Complex | Sign::Imaginary => {
            Some(SubsetCode::FloatingType)
        }
        Sign::Restrict => Some(SubsetCode::BadSpecifier),
        Sign::Volatile => {
            if allowed.volatile {
                None
            } else {
                Some(SubsetCode::BadSpecifier)
            }
        }
        Sign::Inline => {
            if allowed.inline {
                None
            } else {
                Some(SubsetCode::BadSpecifier)
            }
        }
        _ => {
            if is_storage(word) && (stored || !may_store(site, word)) {
                Some(SubsetCode::BadSpecifier)
            } else {
                None
            }
        }
    }
}

/// The storage that specifiers name with a word more: the first one counts.
fn storage_by(found: Storage, word: Sign) -> Storage
    ensures { result ≡ storage_by found word }
{
    match found {
        Storage::Unnamed => match word {
            Sign::Typedef => Storage::Typedef,
            Sign::Extern => Storage::Extern,
            Sign::Static => Storage::Static,
            _ => Storage::Unnamed,
        },
        Storage::Typedef | Storage::Extern | Storage::Static => found,
    }
}

/// The storage that specifiers name with one more.
#[tactic(auto, using(crate::proofs::SpecifierTrees::structure_stores, crate::proofs::SpecifierTrees::enumeration_stores))]
fn storage_with(found: Storage, spec: &Spec<'_>) -> Storage
    ensures { result ≡ storage_with found (specifier_of spec.now) }
{
    match spec {
        Spec::Keyword(_, word) => storage_by(found, *word),
        Spec::Typedef(_) => found,
        Spec::Structure(_) => found,
        Spec::Enumeration(_) => found,
    }
}

/// The storage that specifiers name.
pub fn storage_of(specs: &[Spec<'_>]) -> Storage
    ensures { result ≡ storage_of (specifier_row (map specifier_of specs.now)) }
{
    let mut found = Storage::Unnamed;
    for spec in specs {
        found = storage_with(found, spec);
    }
    found
}

/// Whether a word is `volatile`.
pub fn is_volatile(word: Sign) -> bool
    ensures { result ≡ is_volatile word }
{
    matches!(word, Sign::Volatile)
}
