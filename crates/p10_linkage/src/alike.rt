//! Declarations that are alike: they declare the same, apart from structures that are one already.

ghost use Rattle.std.specs.Prelude.{◌≡◌, map, option_map, option_copied};
ghost use Rattle.p10_core.specs.Types.{plain_type};
ghost use Rattle.p10_linkage.specs.LinkedViews.{plain_kind, linked_of_name};
ghost use Rattle.p10_linkage.specs.private.Grouping.{rows_at};
ghost use Rattle.p10_linkage.specs.private.Meetings.{meeting_of};
ghost use Rattle.p10_linkage.specs.private.Covering.{is_met, all_met, kinds_met, are_alike, row_alike, all_alike, has_alike};

use crate::agreeing::row_at;
use crate::linked::{LinkedKind, LinkedName};
use crate::meeting::{Meeting, meeting_of};
use crate::uniting::standing;
use p10_core::CType;

/// Whether two types are one already, where structures with these numbers stand for others.
fn is_met(stands: &[u32], t: &CType, u: &CType) -> bool
    ensures { result ≡ is_met stands.now (meeting_of (plain_type t.now) (plain_type u.now)) }
{
    match meeting_of(t, u) {
        Meeting::Never => false,
        Meeting::Always => true,
        Meeting::Where(m, n) => standing(stands, m) == standing(stands, n),
    }
}

/// Whether types are, in order.
fn all_met(stands: &[u32], these: &[CType], those: &[CType]) -> bool
    ensures { result ≡ all_met stands.now (map plain_type these.now) (map plain_type those.now) }
{
    if these.len() != those.len() {
        return false;
    }
    for place in 0..these.len() {
        if !is_met(stands, &these[place], &those[place]) {
            return false;
        }
    }
    true
}

/// Whether all types of what is declared are known and one.
fn kinds_met(stands: &[u32], one: &LinkedKind, other: &LinkedKind) -> bool
    ensures { result ≡ kinds_met stands.now (plain_kind one.now) (plain_kind other.now) }
{
    match (one, other) {
        (LinkedKind::Function(these, result), LinkedKind::Function(those, given)) => {
            is_met(stands, result, given) && all_met(stands, these.as_slice(), those.as_slice())
        }
        (LinkedKind::Object(t), LinkedKind::Object(u)) => is_met(stands, t, u),
        _ => false,
    }
}

/// Whether two declarations are alike.
fn are_alike(stands: &[u32], one: &LinkedName<'_>, other: &LinkedName<'_>) -> bool
    ensures { result ≡ are_alike stands.now (linked_of_name one.now) (linked_of_name other.now) }
{
    one.sensor == other.sensor && kinds_met(stands, &one.kind, &other.kind)
}

/// Whether a declaration, if there is one, is like another one; `otherwise` where there is none.
fn row_alike(
    stands: &[u32],
    otherwise: bool,
    row: Option<&LinkedName<'_>>,
    now: &LinkedName<'_>,
) -> bool
    ensures { result ≡ row_alike stands.now otherwise (option_map linked_of_name (option_copied row.entry)) (linked_of_name now.now) }
{
    match row {
        Some(row) => are_alike(stands, row, now),
        None => otherwise,
    }
}

/// Whether each of the declarations at places is like another one.
pub(crate) fn all_alike(
    stands: &[u32],
    linked: &[LinkedName<'_>],
    places: &[usize],
    now: &LinkedName<'_>,
) -> bool
    ensures { result ≡ all_alike stands.now (rows_at places.now (map linked_of_name linked.now)) (linked_of_name now.now) }
{
    for place in places {
        if !row_alike(stands, true, row_at(linked, *place), now) {
            return false;
        }
    }
    true
}

/// Whether one of the declarations at places is like another one.
pub(crate) fn has_alike(
    stands: &[u32],
    linked: &[LinkedName<'_>],
    places: &[usize],
    now: &LinkedName<'_>,
) -> bool
    ensures { result ≡ has_alike stands.now (rows_at places.now (map linked_of_name linked.now)) (linked_of_name now.now) }
{
    for place in places {
        if row_alike(stands, false, row_at(linked, *place), now) {
            return true;
        }
    }
    false
}
