//! Types of two roots as one type: structures that lie in them become one (C99 6.2.7).

ghost use Rattle.std.specs.Prelude.{◌≡◌, map, length, nat_eq, if◌then◌else◌, option_map, option_copied, is_some};
ghost use Rattle.p10_core.specs.Types.{plain_type, plain_body, plain_member, body_of, representative_of};
ghost use Rattle.p10_core.specs.Views.{plain_types};
ghost use Rattle.p10_core.specs.Representing.{represented};
ghost use Rattle.p10_linkage.specs.Uniting.{same_tags, stands_for_both, types_united, members_united, bodies_united, united_within};
ghost use Rattle.p10_linkage.specs.private.Meetings.{met, given};

use crate::meeting::{Meeting, meeting_of};
use crate::stands::Stands;
use p10_core::{Body, CType, Member, Types};

/// The structure that stands for one, by its number.
pub(crate) fn standing(stands: &[u32], number: u32) -> u32
    ensures { result ≡ slice_or stands.now number }
{
    match stands.get(number as usize) {
        Some(other) => *other,
        None => number,
    }
}

ghost use Rattle.p10_linkage.specs.private.Meetings.{slice_or, swapped};

/// Whether two tags are the same, or there is none.
pub(crate) fn same_tags(one: Option<&[u8]>, other: Option<&[u8]>) -> bool
    ensures { result ≡ same_tags (option_map (λ t. t.now) one.entry) (option_map (λ t. t.now) other.entry) }
{
    match (one, other) {
        (Some(one), Some(other)) => one == other,
        (None, None) => true,
        _ => false,
    }
}

/// Makes two types one: the structures that lie in them become one. Where they can't be, what stands for structures then is of no
/// use.
#[cycle(unite)]
pub fn unite_types(
    types: &Types<'_>,
    stands: &mut Stands,
    pairs: usize,
    t: &CType,
    u: &CType,
) -> bool
    requires as_many { length stands.old.numbers.items ≡ length (plain_types types.now) }
    ensures united { given result (represented (plain_types types.now) stands.new.numbers.items) ≡ types_united (united_within pairs) (plain_type t.now) (plain_type u.now) (represented (plain_types types.now) stands.old.numbers.items) }
    ensures as_many { length stands.new.numbers.items ≡ length stands.old.numbers.items }
{
    match meeting_of(t, u) {
        Meeting::Never => false,
        Meeting::Always => true,
        Meeting::Where(m, n) => {
            let one = standing(&stands.numbers, m);
            let other = standing(&stands.numbers, n);
            unite_structures(types, stands, pairs, one, other)
        }
    }
}

/// Makes two structures one that stand for themselves.
#[cycle(unite)]
fn unite_structures(types: &Types<'_>, stands: &mut Stands, pairs: usize, m: u32, n: u32) -> bool
    requires as_many { length stands.old.numbers.items ≡ length (plain_types types.now) }
    ensures united { given result (represented (plain_types types.now) stands.new.numbers.items) ≡ united_within pairs m n (represented (plain_types types.now) stands.old.numbers.items) }
    ensures as_many { length stands.new.numbers.items ≡ length stands.old.numbers.items }
{
    if m == n {
        return true;
    }
    if pairs == 0 {
        return false;
    }
    match (types.structure(m), types.structure(n)) {
        (Some(one), Some(other)) => {
            if !same_tags(one.tag, other.tag) {
                return false;
            }
            unite_bodies(types, stands, pairs - 1, m, n)
        }
        _ => false,
    }
}

/// Makes two structures one that have the same tag, where their bodies allow it.
#[cycle(unite)]
fn unite_bodies(types: &Types<'_>, stands: &mut Stands, pairs: usize, m: u32, n: u32) -> bool
    requires as_many { length stands.old.numbers.items ≡ length (plain_types types.now) }
    ensures united { given result (represented (plain_types types.now) stands.new.numbers.items) ≡ bodies_united (types_united (united_within pairs)) (body_of (plain_types types.now) m) (body_of (plain_types types.now) n) (stands_for_both (represented (plain_types types.now) stands.old.numbers.items) m n) }
    ensures as_many { length stands.new.numbers.items ≡ length stands.old.numbers.items }
{
    let one = types.body(m);
    let other = types.body(n);
    stand_for_both(stands, one.is_some(), m, n);
    match (one, other) {
        (Some(one), Some(other)) => {
            unite_members(
                types,
                stands,
                pairs,
                one.members.as_slice(),
                other.members.as_slice(),
            )
        }
        _ => true,
    }
}

/// Lets one of two structures stand for both: the first, if it is complete.
fn stand_for_both(stands: &mut Stands, complete: bool, m: u32, n: u32)
    ensures { stands.new.numbers.items ≡ (if complete then map (swapped n m) stands.old.numbers.items else map (swapped m n) stands.old.numbers.items) }
{
    if complete {
        stands.stand_for(n, m);
    } else {
        stands.stand_for(m, n);
    }
}

/// Makes the types of members one, in pairs that have the same names.
#[cycle(unite)]
fn unite_members(
    types: &Types<'_>,
    stands: &mut Stands,
    pairs: usize,
    members: &[Member<'_>],
    others: &[Member<'_>],
) -> bool
    requires as_many { length stands.old.numbers.items ≡ length (plain_types types.now) }
    ensures united { given result (represented (plain_types types.now) stands.new.numbers.items) ≡ members_united (types_united (united_within pairs)) (map plain_member members.now) (map plain_member others.now) (represented (plain_types types.now) stands.old.numbers.items) }
    ensures as_many { length stands.new.numbers.items ≡ length stands.old.numbers.items }
{
    if members.len() != others.len() {
        return false;
    }
    for place in 0..members.len() {
        if members[place].name != others[place].name {
            return false;
        }
        if !unite_types(types, stands, pairs, &members[place].ty, &others[place].ty) {
            return false;
        }
    }
    true
}
