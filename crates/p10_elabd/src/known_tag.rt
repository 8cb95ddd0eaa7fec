//! What tags stand for (C99 6.7.2.3).

ghost use Rattle.std.specs.Prelude.{◌≡◌, option_map, option_copied};
ghost use Rattle.p10_elabx.specs.Views.{meaning_of};
ghost use Rattle.p10_elabd.specs.Tagged.{known_tag};

use p10_core::TypeForm;
use p10_elabx::Named;

/// What a tag stands for, as far as it counts where it is named.
#[derive(Clone, Copy, Debug)]
pub enum KnownTag {
    /// Nothing is declared by this name.
    Nothing,
    /// A structure by its number, and whether it is marked `const`.
    Structure(bool, u32),
    /// An enumeration, whose type is an integer type.
    Enumeration,
    /// Another type.
    OtherType,
    /// A tag whose declaration was refused.
    Refused,
    /// Something that is no tag, or no type yet.
    NoTag,
}

/// What a tag stands for.
pub fn known_tag(what: Option<&Named>) -> KnownTag
    ensures { result ≡ known_tag (option_map meaning_of (option_copied what.entry)) }
{
    match what {
        None => KnownTag::Nothing,
        Some(Named::Tag(ty)) => match &ty.form {
            TypeForm::Struct(number) => KnownTag::Structure(ty.is_const, *number),
            TypeForm::Int(_) => KnownTag::Enumeration,
            TypeForm::Void | TypeForm::Pointer(_) | TypeForm::Array(_, _) => KnownTag::OtherType,
        },
        Some(Named::UnknownTag) => KnownTag::Refused,
        Some(_) => KnownTag::NoTag,
    }
}
