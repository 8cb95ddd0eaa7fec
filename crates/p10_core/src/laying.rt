//! How members lie, one after the other, each at the first place that its alignment allows (C99 6.7.2.1p13 to p15).

ghost use Rattle.std.specs.Prelude.{◌≡◌, ◌≤◌, true, map, Some};
ghost use Rattle.p10_core.specs.Types.{plain_type, plain_member};
ghost use Rattle.p10_core.specs.Views.{plain_types};
ghost use Rattle.p10_core.specs.Sizes.{aligned, layout_of};
ghost use Rattle.p10_core.specs.WholePrograms.{IsObjectType};
ghost use Rattle.p10_core.specs.Completing.{are_objects, member_layout};
ghost use Rattle.p10_core.specs.private.Partials.{with_layout, partial_of, IsSmall, GoesOn, IsPadded, LiesAs};

use crate::c_type::CType;
use crate::lay::Lay;
use crate::structures::Member;
use crate::table::{MOST_BYTES, Types};

/// The least multiple of an alignment that is at least `place`.
fn aligned(place: u64, alignment: u64) -> u64
    requires place { place ≤ 1099511627776 }
    requires low { 1 ≤ alignment }
    requires high { alignment ≤ 8 }
    ensures { result ≡ aligned place alignment }
{
    (place + (alignment - 1)) / alignment * alignment
}

/// Members with one of a type more, unless they are larger than a type may be.
fn with_type(types: &Types<'_>, lay: &Lay, ty: &CType) -> Option<Lay>
    requires object { IsObjectType (plain_types types.now) (plain_type ty.now) }
    requires small { IsSmall (partial_of lay.now) }
    ensures { GoesOn result (with_layout (partial_of lay.now) (layout_of (plain_types types.now) (plain_type ty.now))) }
{
    let alignment = types.alignment(ty);
    let bytes = aligned(lay.bytes, alignment) + types.size(ty);
    if MOST_BYTES < bytes {
        return None;
    }
    Some(Lay {
        bytes,
        alignment: lay.alignment.max(alignment),
        scalars: lay.scalars + types.scalars(ty),
        has_const: lay.has_const | types.has_const(ty),
    })
}

/// A structure with these members, padded to its alignment, unless it is larger than a type may be.
fn padded(lay: &Lay) -> Option<Lay>
    requires small { IsSmall (partial_of lay.now) }
    ensures { IsPadded result lay.now }
{
    let bytes = aligned(lay.bytes, lay.alignment);
    if MOST_BYTES < bytes {
        return None;
    }
    Some(Lay {
        bytes,
        alignment: lay.alignment,
        scalars: lay.scalars,
        has_const: lay.has_const,
    })
}

/// How a structure with these members lies, unless it is larger than a type may be.
pub fn lay_members(types: &Types<'_>, members: &[Member<'_>]) -> Option<Lay>
    requires objects { are_objects (plain_types types.now) (map plain_member members.now) ≡ true }
    ensures { LiesAs result (member_layout (plain_types types.now) (map plain_member members.now)) }
{
    let mut lay = Lay {
        bytes: 0,
        alignment: 1,
        scalars: 0,
        has_const: false,
    };
    for member in members {
        match with_type(types, &lay, &member.ty) {
            Some(next) => lay = next,
            None => return None,
        }
    }
    padded(&lay)
}
