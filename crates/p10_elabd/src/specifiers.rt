//! Specifiers of declarations, one at a time, and the type that they name (C99 6.7.2).

ghost use Rattle.std.specs.Prelude.{◌≡◌, IfOk, map, option_map};
ghost use Rattle.p10_syn.specs.Trees.{specifier_row};
ghost use Rattle.p10_syn.specs.Built.{identifier_of, tag_of, specifier_of};
ghost use Rattle.p10_core.specs.Types.{plain_type};
ghost use Rattle.p10_elabx.specs.First.{only_first, lift};
ghost use Rattle.p10_elabx.specs.Scopes.{named};
ghost use Rattle.p10_elabx.specs.Built.{ruled_named};
ghost use Rattle.p10_elabx.specs.TypeNames.{typedef_rule};
ghost use Rattle.p10_elabd.specs.Standing.{noted};
ghost use Rattle.p10_elabd.specs.Words.{by_row};
ghost use Rattle.p10_elabd.specs.Declaring.{both_named, word_passed, stored_by, type_specified, unless_union, tag_passed};
ghost use Rattle.p10_elabd.specs.Views.{plain_standing, plain_named, told};

use crate::site::{Allowed, Site};
use crate::standing::Standing;
use crate::tagged::structure_named;
use crate::words::{is_storage, word_row};
use p10_base::{At, SubsetCode};
use p10_core::CType;
use p10_elabx::{Problem, is_bad_mixture, said_of, specified_type, specifiers_at, typedef_rule};
use p10_syn::{Identifier, Sign, Spec, nowhere};
use std::alloc::{AllocError, Global};

/// Where specifiers stand, and what may stand among them.
#[derive(Clone, Copy, Debug)]
pub struct Manner {
    pub site: Site,
    pub allowed: Allowed,
    /// Whether they are a whole declaration.
    pub alone: bool,
}

/// The types that specifiers named so far, with those of one more.
pub fn both_named(a: Option<Option<CType>>, b: Option<Option<CType>>) -> Option<Option<CType>>
    ensures { plain_named result ≡ both_named (plain_named a) (plain_named b) }
{
    match (a, b) {
        (Some(before), Some(None)) => Some(before),
        (Some(_), Some(Some(ty))) => Some(Some(ty)),
        (Some(_), None) => None,
        (None, _) => None,
    }
}

/// A word as a specifier.
pub fn word_passed(
    standing: &mut Standing<'_>,
    manner: Manner,
    stored: bool,
    at: At,
    word: Sign,
) -> Option<Option<CType>>
    ensures { told (plain_named result) standing.new ≡ word_passed only_first manner.site manner.allowed stored at word (plain_standing standing.old) }
{
    match word_row(manner.site, manner.allowed, stored, word) {
        Some(code) => {
            standing.refuse(code, at);
            None
        }
        None => Some(None),
    }
}

/// Whether a storage word stands among specifiers, one more included.
#[tactic(auto, using(crate::proofs::SpecifierTrees::structure_stored, crate::proofs::SpecifierTrees::enumeration_stored))]
pub fn stored_by(stored: bool, spec: &Spec<'_>) -> bool
    ensures { result ≡ stored_by stored (specifier_of spec.now) }
{
    match spec {
        Spec::Keyword(_, word) => stored || is_storage(*word),
        Spec::Typedef(_) => stored,
        Spec::Structure(_) => stored,
        Spec::Enumeration(_) => stored,
    }
}

/// What a specifier names, where a problem is noted.
fn named_noted(
    standing: &mut Standing<'_>,
    found: Result<Option<CType>, Option<Problem>>,
) -> Option<Option<CType>>
    ensures { told (plain_named result) standing.new ≡ noted only_first (lift (ruled_named found)) (plain_standing standing.old) }
{
    match found {
        Ok(made) => Some(made),
        Err(problem) => {
            standing.note(problem);
            None
        }
    }
}

/// A typedef name as a specifier.
pub fn typedef_passed(
    alloc: Global,
    standing: &mut Standing<'_>,
    name: Identifier<'_>,
) -> Result<Option<Option<CType>>, AllocError>
    ensures { IfOk result (λ made. told (plain_named made) standing.new ≡ noted only_first (lift (typedef_rule name.entry.at (named (plain_standing standing.old).scope name.entry.text.now))) (plain_standing standing.old)) }
{
    let found = typedef_rule(alloc, name.at, standing.scope.named(name.text))?;
    Ok(named_noted(standing, found))
}

/// The type that a list of specifiers names, by its mixture of words.
pub fn type_specified(
    alloc: Global,
    standing: &mut Standing<'_>,
    specs: &[Spec<'_>],
    named: Option<Option<CType>>,
) -> Result<Option<CType>, AllocError>
    ensures { IfOk result (λ made. told (option_map plain_type made) standing.new ≡ type_specified only_first (specifier_row (map specifier_of specs.now)) (told (plain_named named) standing.old)) }
{
    let said = said_of(specs);
    let bad = is_bad_mixture(&said);
    standing.refuse_where(
        bad,
        SubsetCode::BadSpecifier,
        specifiers_at(nowhere(), specs),
    );
    match named {
        None => Ok(None),
        Some(named) => {
            if bad {
                return Ok(None);
            }
            match specified_type(alloc, &said, named)? {
                Ok(ty) => Ok(Some(ty)),
                Err(_) => Ok(None),
            }
        }
    }
}

/// A union isn't in the subset.
pub fn unless_union(
    standing: &mut Standing<'_>,
    at: At,
    word: Sign,
    made: Option<CType>,
) -> Option<CType>
    ensures { told (option_map plain_type result) standing.new ≡ unless_union only_first at word (told (option_map plain_type made) standing.old) }
{
    match word {
        Sign::Union => {
            standing.refuse(SubsetCode::UnionOrBitField, at);
            None
        }
        _ => made,
    }
}

/// A union's name or a structure's, where it has no body.
pub fn tag_passed<'s>(
    standing: &mut Standing<'s>,
    alone: bool,
    at: At,
    word: Sign,
    tag: Option<Identifier<'s>>,
) -> Result<Option<CType>, AllocError>
    ensures { IfOk result (λ made. told (option_map plain_type made) standing.new ≡ tag_passed only_first alone at word (tag_of tag.entry) (plain_standing standing.old)) }
{
    match word {
        Sign::Union => {
            standing.refuse(SubsetCode::UnionOrBitField, at);
            Ok(None)
        }
        _ => match tag {
            None => Ok(None),
            Some(tag) => structure_named(standing, alone, tag),
        },
    }
}
