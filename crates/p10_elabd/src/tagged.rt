//! Tags of structures and enumerations (C99 6.7.2.3).

ghost use Rattle.std.specs.Prelude.{◌≡◌, IfOk, map, option_map};
ghost use Rattle.p10_syn.specs.Built.{identifier_of, tag_of};
ghost use Rattle.p10_core.specs.Types.{plain_type};
ghost use Rattle.p10_elabx.specs.First.{only_first};
ghost use Rattle.p10_elabd.specs.Tagged.{structure_by_tag, structure_named, enumeration_by_tag, enumeration_named, enumeration_begun, with_unknown_tag, with_hidden_tag, with_enumeration};
ghost use Rattle.p10_elabd.specs.Views.{plain_standing, told};

use crate::known_tag::{KnownTag, known_tag};
use crate::standing::Standing;
use crate::tags::add_tag;
use p10_base::{At, SubsetCode};
use p10_core::{CType, TypeForm};
use p10_elabx::Named;
use p10_int::IntType;
use p10_syn::Identifier;
use std::alloc::AllocError;

/// The type of a structure by what its tag stands for: another kind of type has this tag, or it is declared here.
fn structure_by_tag<'s>(
    standing: &mut Standing<'s>,
    known: KnownTag,
    tag: Identifier<'s>,
) -> Result<Option<CType>, AllocError>
    ensures { IfOk result (λ made. told (option_map plain_type made) standing.new ≡ structure_by_tag only_first known (identifier_of tag.entry) (plain_standing standing.old)) }
{
    match known {
        KnownTag::Structure(is_const, number) => Ok(Some(CType {
            is_const,
            form: TypeForm::Struct(number),
        })),
        KnownTag::Refused => Ok(None),
        KnownTag::Nothing => {
            let number = add_tag(&mut standing.scope, tag.text)?;
            Ok(Some(CType::structure(number)))
        }
        KnownTag::Enumeration | KnownTag::OtherType | KnownTag::NoTag => {
            standing.refuse(SubsetCode::DefinedTwice, tag.at);
            Ok(None)
        }
    }
}

/// `struct` with a tag and no body: as the whole of a declaration it declares the tag in its block (C99 6.7.2.3p7).
pub fn structure_named<'s>(
    standing: &mut Standing<'s>,
    alone: bool,
    tag: Identifier<'s>,
) -> Result<Option<CType>, AllocError>
    ensures { IfOk result (λ made. told (option_map plain_type made) standing.new ≡ structure_named only_first alone (identifier_of tag.entry) (plain_standing standing.old)) }
{
    let known = if alone {
        known_tag(standing.scope.tagged_here(tag.text))
    } else {
        known_tag(standing.scope.tagged(tag.text))
    };
    structure_by_tag(standing, known, tag)
}

/// The type of an enumeration by what its tag stands for: `int`, where its constants are known.
fn enumeration_by_tag(
    standing: &mut Standing<'_>,
    at: At,
    known: KnownTag,
    tag: Identifier<'_>,
) -> Option<CType>
    ensures { told (option_map plain_type result) standing.new ≡ enumeration_by_tag only_first at known (identifier_of tag.entry) (plain_standing standing.old) }
{
    match known {
        KnownTag::Enumeration => Some(CType::integer(IntType::Int)),
        KnownTag::Structure(_, _) | KnownTag::OtherType => {
            standing.refuse(SubsetCode::DefinedTwice, tag.at);
            None
        }
        KnownTag::Refused => None,
        KnownTag::Nothing | KnownTag::NoTag => {
            standing.refuse(SubsetCode::UnknownName, at);
            None
        }
    }
}

/// `enum` with a tag and no constants.
pub fn enumeration_named(standing: &mut Standing<'_>, at: At, tag: Identifier<'_>) -> Option<CType>
    ensures { told (option_map plain_type result) standing.new ≡ enumeration_named only_first at (identifier_of tag.entry) (plain_standing standing.old) }
{
    let known = known_tag(standing.scope.tagged(tag.text));
    enumeration_by_tag(standing, at, known, tag)
}

/// A tag whose structure is refused.
pub fn set_unknown_tag<'s>(
    standing: &mut Standing<'s>,
    tag: Option<Identifier<'s>>,
) -> Result<(), AllocError>
    ensures { IfOk result (λ _. plain_standing standing.new ≡ with_unknown_tag (tag_of tag.entry) (plain_standing standing.old)) }
{
    match tag {
        None => Ok(()),
        Some(tag) => standing.set_name(tag.text, Named::UnknownTag),
    }
}

/// The tag of an enumeration that has its constants.
pub fn set_enumeration<'s>(
    standing: &mut Standing<'s>,
    tag: Option<Identifier<'s>>,
) -> Result<(), AllocError>
    ensures { IfOk result (λ _. plain_standing standing.new ≡ with_enumeration (tag_of tag.entry) (plain_standing standing.old)) }
{
    match tag {
        None => Ok(()),
        Some(tag) => standing.set_name(tag.text, Named::Tag(CType::integer(IntType::Int))),
    }
}

/// The tag of an enumeration with constants: it stands for nothing in this block yet, and names nothing before its end.
pub fn begin_enumeration<'s>(
    standing: &mut Standing<'s>,
    tag: Option<Identifier<'s>>,
) -> Result<(), AllocError>
    ensures { IfOk result (λ _. plain_standing standing.new ≡ enumeration_begun only_first (tag_of tag.entry) (plain_standing standing.old)) }
{
    match tag {
        None => Ok(()),
        Some(tag) => {
            let taken = standing.scope.tagged_here(tag.text).is_some();
            standing.refuse_where(taken, SubsetCode::DefinedTwice, tag.at);
            standing.scope.hide_tag(tag.text)
        }
    }
}
