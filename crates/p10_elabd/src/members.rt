//! Members of structures, one at a time (C99 6.7.2.1).

ghost use Rattle.std.specs.Prelude.{◌≡◌, IfOk, option_map};
ghost use Rattle.p10_syn.specs.Built.{identifier_of};
ghost use Rattle.p10_core.specs.Types.{plain_type};
ghost use Rattle.p10_elabx.specs.First.{only_first};
ghost use Rattle.p10_elabd.specs.Members.{member_type, member_declared, with_width, member_added, is_member, with_member};
ghost use Rattle.p10_elabd.specs.Views.{plain_standing, plain_declared, optional_boxed, told};
ghost use Rattle.p10_elabd.specs.private.NamedMembers.{named_members};

use crate::declaration::Declared;
use crate::expressions::constant_value;
use crate::named_members::NamedMembers;
use crate::standing::Standing;
use p10_base::{At, SubsetCode};
use p10_core::{CType, Member};
use p10_syn::{Expr, Identifier};
use std::alloc::{AllocError, Global};

/// The type of a member: it has a size (C99 6.7.2.1p2); a function, or an array without a length, is
/// refused by its form.
fn member_type<'s>(standing: &mut Standing<'s>, name_at: At, given: Declared<'s>) -> Option<CType>
    ensures { told (option_map plain_type result) standing.new ≡ member_type only_first name_at (plain_declared given.entry) (plain_standing standing.old) }
{
    match given {
        Declared::Plain(ty) => {
            if standing.scope.types.is_complete(&ty) {
                Some(ty)
            } else {
                standing.refuse(SubsetCode::IncompleteType, name_at);
                None
            }
        }
        Declared::OpenArray(_) | Declared::Function(_) | Declared::Refused(_) => None,
    }
}

/// The type of a member that may be refused.
pub fn member_declared<'s>(
    standing: &mut Standing<'s>,
    name_at: At,
    given: Option<Declared<'s>>,
) -> Option<CType>
    ensures { told (option_map plain_type result) standing.new ≡ member_declared only_first name_at (option_map plain_declared given.entry) (plain_standing standing.old) }
{
    match given {
        None => None,
        Some(given) => member_type(standing, name_at, given),
    }
}

/// A bit-field isn't in the subset; its width is judged all the same.
pub fn judge_width<'s>(
    alloc: Global,
    standing: &mut Standing<'s>,
    at: At,
    width: &Option<Box<Expr<'s>>>,
) -> Result<(), AllocError>
    ensures { IfOk result (λ _. plain_standing standing.new ≡ with_width only_first at (optional_boxed width.now) (plain_standing standing.old)) }
{
    match width {
        None => Ok(()),
        Some(e) => {
            standing.refuse(SubsetCode::UnionOrBitField, at);
            constant_value(alloc, standing, e)?;
            Ok(())
        }
    }
}

/// Whether a member has this name already.
fn is_member(members: &Option<NamedMembers<'_>>, name: Option<Identifier<'_>>) -> bool
    ensures { result ≡ is_member (option_map named_members members.now) (option_map identifier_of name.entry) }
{
    match members {
        None => false,
        Some(members) => match name {
            None => false,
            Some(name) => members.has(name.text),
        },
    }
}

/// The members so far with one more.
fn member_added<'s>(
    members: Option<NamedMembers<'s>>,
    name: Option<Identifier<'s>>,
    ty: Option<CType>,
) -> Result<Option<NamedMembers<'s>>, AllocError>
    ensures { IfOk result (λ made. option_map named_members made ≡ member_added (option_map named_members members.entry) (option_map identifier_of name.entry) (option_map plain_type ty)) }
{
    match (members, name, ty) {
        (Some(members), Some(name), Some(ty)) => {
            let members = members.with(Member {
                name: name.text,
                ty,
            })?;
            Ok(Some(members))
        }
        (_, _, _) => Ok(None),
    }
}

/// A member after others: its name is another one (C99 6.7p3).
pub fn with_member<'s>(
    standing: &mut Standing<'s>,
    name_at: At,
    members: Option<NamedMembers<'s>>,
    name: Option<Identifier<'s>>,
    ty: Option<CType>,
) -> Result<Option<NamedMembers<'s>>, AllocError>
    ensures { IfOk result (λ made. told (option_map named_members made) standing.new ≡ with_member only_first name_at (option_map named_members members.entry) (option_map identifier_of name.entry) (told (option_map plain_type ty) standing.old)) }
{
    standing.refuse_where(is_member(&members, name), SubsetCode::DefinedTwice, name_at);
    member_added(members, name, ty)
}
