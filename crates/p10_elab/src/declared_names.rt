//! Names with linkage, declared where they stand.

ghost use Rattle.std.specs.Prelude.{◌≡◌, IfOk};
ghost use Rattle.p10_syn.specs.Built.{identifier_of};
ghost use Rattle.p10_elabx.specs.First.{only_first};
ghost use Rattle.p10_heads.specs.PlainHeads.{plain_heads};
ghost use Rattle.p10_linkage.specs.LinkedViews.{plain_kind, linked_of_name};
ghost use Rattle.p10_elab.specs.Knowledge.{linked_number, with_linked, linked_of};
ghost use Rattle.p10_elab.specs.KnownViews.{plain_known};

use crate::known::{Known, add_linked};
use crate::linking::{Linking, linked_of};
use crate::setting::Setting;
use p10_heads::Heads;
use p10_linkage::{LinkedKind, LinkedName};
use p10_syn::Identifier;
use std::alloc::AllocError;

/// Declares a name with linkage by its storage and the declarations before it.
pub(crate) fn declare_name<'s>(
    setting: &Setting<'_, 's>,
    known: &mut Known<'s>,
    name: Identifier<'s>,
    kind: LinkedKind,
    says: Linking,
) -> Result<(), AllocError>
    ensures { IfOk result (λ _. plain_known known.new ≡ with_linked only_first (plain_heads setting.now.heads.now) (linked_of (plain_known known.old) (identifier_of name.entry) (plain_kind kind) says.storage says.defines says.sensor) (plain_known known.old)) }
{
    let linked = linked_of(&known.linked, known.root, name, kind, says);
    declare_linked(setting, known, linked)?;
    Ok(())
}

/// Declares a name with linkage after the declarations before it.
pub(crate) fn declare_linked<'s>(
    setting: &Setting<'_, 's>,
    known: &mut Known<'s>,
    linked: LinkedName<'s>,
) -> Result<(), AllocError>
    ensures { IfOk result (λ _. plain_known known.new ≡ with_linked only_first (plain_heads setting.now.heads.now) (linked_of_name linked.entry) (plain_known known.old)) }
{
    let number = linked_number(setting.heads, &linked);
    let taken = known.standing.is_taken(linked.name);
    let count = setting.heads.objects().len();
    add_linked(setting.alloc, known, linked, number, count, taken)?;
    Ok(())
}

/// The number of the function or object that a declared name stands for.
fn linked_number(heads: &Heads<'_>, linked: &LinkedName<'_>) -> u32
    ensures { result ≡ linked_number (plain_heads heads.now) (linked_of_name linked.now) }
{
    match &linked.kind {
        LinkedKind::Function(_, _) => {
            heads.function_number(linked.root, linked.internal, linked.name)
        }
        LinkedKind::Refused(_) => {
            heads.function_number(linked.root, linked.internal, linked.name)
        }
        LinkedKind::Object(_) => heads.object_number(linked.root, linked.internal, linked.name),
        LinkedKind::UnknownObject => {
            heads.object_number(linked.root, linked.internal, linked.name)
        }
    }
}
