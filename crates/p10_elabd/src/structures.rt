//! Structures with bodies (C99 6.7.2.1, 6.7.2.3).

ghost use Rattle.std.specs.Prelude.{◌≡◌, IfOk, map, option_map};
ghost use Rattle.p10_syn.specs.Built.{identifier_of, tag_of};
ghost use Rattle.p10_core.specs.Types.{plain_type, plain_member};
ghost use Rattle.p10_core.specs.WholePrograms.{is_among};
ghost use Rattle.p10_elabx.specs.First.{only_first};
ghost use Rattle.p10_elabd.specs.Tagged.{begun_anew, begun_with_tag, begun_twice, begun_known, may_complete, begun_by_tag, begun_for, begun, ended, completed_by, structure_made};
ghost use Rattle.p10_elabd.specs.Declaring.{begun_with};
ghost use Rattle.p10_elabd.specs.Views.{plain_standing, begins, told};
ghost use Rattle.p10_elabd.specs.private.NamedMembers.{named_members};

use crate::known_tag::{KnownTag, known_tag};
use crate::named_members::NamedMembers;
use crate::standing::Standing;
use crate::tagged::set_unknown_tag;
use crate::tags::add_tag;
use p10_base::{At, SubsetCode};
use p10_core::{CType, Member};
use p10_syn::{Identifier, Sign};
use std::alloc::AllocError;

/// Whether a number stands among others.
fn is_among(number: u32, numbers: &[u32]) -> bool
    ensures { result ≡ is_among number numbers.now }
{
    for other in numbers {
        if number == *other {
            return true;
        }
    }
    false
}

/// Whether the structure with a number may get its members: it isn't complete, nor is it being completed.
fn may_complete(standing: &Standing<'_>, number: u32) -> bool
    ensures { result ≡ may_complete (plain_standing standing.now) number }
{
    standing.scope.types.body(number).is_none()
        && !is_among(number, standing.open_structures.as_slice())
}

/// Declares a structure more, that no tag stands for, and gives its number.
fn begin_anew<'s>(standing: &mut Standing<'s>, tag: Option<&'s [u8]>) -> Result<u32, AllocError>
    ensures { IfOk result (λ n. begins n standing.new ≡ begun_anew (option_map (λ t. t.now) tag.entry) (plain_standing standing.old)) }
{
    let number = standing.scope.types.add(tag)?;
    Ok(number)
}

/// Declares a structure more, with its tag.
fn begin_with_tag<'s>(standing: &mut Standing<'s>, tag: &'s [u8]) -> Result<u32, AllocError>
    ensures { IfOk result (λ n. begins n standing.new ≡ begun_with_tag tag.now (plain_standing standing.old)) }
{
    let number = add_tag(&mut standing.scope, tag)?;
    Ok(number)
}

/// A body after a tag that stands for something else in this block, or for a structure that has a body.
fn begin_twice<'s>(standing: &mut Standing<'s>, tag: Identifier<'s>) -> Result<u32, AllocError>
    ensures { IfOk result (λ n. begins n standing.new ≡ begun_twice only_first (identifier_of tag.entry) (plain_standing standing.old)) }
{
    standing.refuse(SubsetCode::DefinedTwice, tag.at);
    begin_anew(standing, Some(tag.text))
}

/// A body by what its tag stands for in this block.
fn begin_by_tag<'s>(
    standing: &mut Standing<'s>,
    known: KnownTag,
    tag: Identifier<'s>,
) -> Result<u32, AllocError>
    ensures { IfOk result (λ n. begins n standing.new ≡ begun_by_tag only_first known (identifier_of tag.entry) (plain_standing standing.old)) }
{
    match known {
        KnownTag::Structure(_, number) => {
            if may_complete(standing, number) {
                Ok(number)
            } else {
                begin_twice(standing, tag)
            }
        }
        KnownTag::Nothing => begin_with_tag(standing, tag.text),
        KnownTag::Enumeration | KnownTag::OtherType | KnownTag::Refused | KnownTag::NoTag => {
            begin_twice(standing, tag)
        }
    }
}

/// Where the members of a structure with a body stand: its number.
fn begin_for<'s>(
    standing: &mut Standing<'s>,
    tag: Option<Identifier<'s>>,
) -> Result<u32, AllocError>
    ensures { IfOk result (λ n. begins n standing.new ≡ begun_for only_first (tag_of tag.entry) (plain_standing standing.old)) }
{
    match tag {
        None => begin_anew(standing, None),
        Some(tag) => {
            let known = known_tag(standing.scope.tagged_here(tag.text));
            begin_by_tag(standing, known, tag)
        }
    }
}

/// The same; a structure is noted as one whose members are being declared, and a union isn't.
pub fn begin<'s>(
    standing: &mut Standing<'s>,
    sign: Sign,
    tag: Option<Identifier<'s>>,
) -> Result<u32, AllocError>
    ensures { IfOk result (λ n. begins n standing.new ≡ begun_with only_first sign (tag_of tag.entry) (plain_standing standing.old)) }
{
    match sign {
        Sign::Union => begin_anew(standing, None),
        _ => {
            let number = begin_for(standing, tag)?;
            standing.open_structures.push(number)?;
            Ok(number)
        }
    }
}

/// The members of the innermost of the structures whose members are being declared are there.
pub fn end(standing: &mut Standing<'_>)
    ensures { plain_standing standing.new ≡ ended (plain_standing standing.old) }
{
    standing.open_structures.pop();
}

/// Completes a structure, unless its members make it larger than a type may be (C99 6.7.2.1).
fn completed_by<'s>(
    standing: &mut Standing<'s>,
    at: At,
    number: u32,
    members: Vec<Member<'s>>,
) -> Option<CType>
    ensures { told (option_map plain_type result) standing.new ≡ completed_by only_first at number (map plain_member members.entry.items) (plain_standing standing.old) }
{
    if !standing
        .scope
        .types
        .takes_members(number, members.as_slice())
    {
        return None;
    }
    if standing.scope.types.complete(number, members) {
        Some(CType::structure(number))
    } else {
        standing.refuse(SubsetCode::BadLength, at);
        None
    }
}

/// A structure with the members that were made.
pub fn structure_made<'s>(
    standing: &mut Standing<'s>,
    at: At,
    tag: Option<Identifier<'s>>,
    number: u32,
    members: Option<NamedMembers<'s>>,
) -> Result<Option<CType>, AllocError>
    ensures { IfOk result (λ made. told (option_map plain_type made) standing.new ≡ structure_made only_first at (tag_of tag.entry) number (option_map named_members members.entry) (plain_standing standing.old)) }
{
    match members {
        None => {
            set_unknown_tag(standing, tag)?;
            Ok(None)
        }
        Some(members) => Ok(completed_by(standing, at, number, members.into_list())),
    }
}
