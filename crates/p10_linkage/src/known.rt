//! The declarations so far, by their places, and those of them with which it is enough to compare another one.

ghost use Rattle.std.specs.Prelude.{◌≡◌, ◌++◌, ◌∷◌, [], ◌||◌, true, false, not, if◌then◌else◌, bytes_eq, map, length, Some, IfOk, List, ℕ};
ghost use Rattle.p10_core.specs.Representing.{represented};
ghost use Rattle.p10_core.specs.Views.{plain_types};
ghost use Rattle.p10_linkage.specs.LinkedViews.{linked_of_name};
ghost use Rattle.p10_linkage.specs.Between.{agreed};
ghost use Rattle.p10_linkage.specs.private.Covering.{all_alike, has_alike, AreCovered};
ghost use Rattle.p10_linkage.specs.private.Grouping.{group_of, grouped_after, rows_at};
ghost use Rattle.p10_linkage.specs.private.Meetings.{given};

use crate::agreeing::{agree, unite_with_all};
use crate::alike::{all_alike, has_alike};
use crate::groups::Groups;
use crate::linked::LinkedName;
use crate::linked_names::note_where;
use crate::stands::Stands;
use p10_core::Types;
use std::alloc::{AllocError, Global};

/// The places of declarations by their names.
#[derive(Drop)]
pub struct Known<'s> {
    /// Of all of them.
    pub all: Groups<'s>,
    /// Of those that are kept: each one with external linkage is one of these, or like one.
    pub kept: Groups<'s>,
}

/// No declarations.
pub fn none_known<'s>(alloc: Global) -> Known<'s>
    ensures all { (name : List ℕ) → group_of result.all name ≡ [] }
    ensures kept { (name : List ℕ) → group_of result.kept name ≡ [] }
{
    Known {
        all: Groups::new(alloc),
        kept: Groups::new(alloc),
    }
}

/// Whether a declaration says no more than those of its name before it: it is internal to its root, or like each that is kept.
fn says_no_more(
    stands: &[u32],
    linked: &[LinkedName<'_>],
    kept: &[usize],
    now: &LinkedName<'_>,
) -> bool
    ensures { result ≡ (now.now.internal || all_alike stands.now (rows_at kept.now (map linked_of_name linked.now)) (linked_of_name now.now)) }
{
    now.internal || all_alike(stands, linked, kept, now)
}

/// A declaration with those of roots before it: whether they agree. Where they don't, what stands for structures stays as it was. What
/// says no more than those before it isn't compared with each.
pub fn agree_with_known(
    alloc: Global,
    types: &Types<'_>,
    stands: &mut Stands,
    linked: &[LinkedName<'_>],
    known: &Known<'_>,
    now: &LinkedName<'_>,
) -> Result<bool, AllocError>
    requires as_many { length stands.old.numbers.items ≡ length (plain_types types.now) }
    requires covered { AreCovered (represented (plain_types types.now) stands.old.numbers.items) (rows_at (group_of known.now.kept now.now.name.now) (map linked_of_name linked.now)) (rows_at (group_of known.now.all now.now.name.now) (map linked_of_name linked.now)) }
    ensures agreed { IfOk result (λ agrees. given agrees (represented (plain_types types.now) stands.new.numbers.items) ≡ agreed (rows_at (group_of known.now.all now.now.name.now) (map linked_of_name linked.now)) (linked_of_name now.now) (represented (plain_types types.now) stands.old.numbers.items)) }
    ensures kept { IfOk result (λ agrees. agrees ≡ false → stands.new.numbers.items ≡ stands.old.numbers.items) }
    ensures as_many { length stands.new.numbers.items ≡ length stands.old.numbers.items }
{
    let kept = known.kept.of(now.name);
    if says_no_more(stands.numbers.as_slice(), linked, kept, now) {
        return Ok(true);
    }
    let all = known.all.of(now.name);
    let agrees = agree(alloc, types, stands, linked, all, now)?;
    Ok(agrees)
}

/// Makes a declaration one with those of roots before it, unless it says no more than these: whether it can be one with all of them.
/// Where it can't, what stands for structures then is of no use.
pub fn unite_with_known(
    types: &Types<'_>,
    stands: &mut Stands,
    linked: &[LinkedName<'_>],
    known: &Known<'_>,
    now: &LinkedName<'_>,
) -> bool
    requires as_many { length stands.old.numbers.items ≡ length (plain_types types.now) }
    requires covered { AreCovered (represented (plain_types types.now) stands.old.numbers.items) (rows_at (group_of known.now.kept now.now.name.now) (map linked_of_name linked.now)) (rows_at (group_of known.now.all now.now.name.now) (map linked_of_name linked.now)) }
    ensures agreed { result ≡ true → agreed (rows_at (group_of known.now.all now.now.name.now) (map linked_of_name linked.now)) (linked_of_name now.now) (represented (plain_types types.now) stands.old.numbers.items) ≡ Some (represented (plain_types types.now) stands.new.numbers.items) }
    ensures as_many { length stands.new.numbers.items ≡ length stands.old.numbers.items }
{
    let kept = known.kept.of(now.name);
    if says_no_more(stands.numbers.as_slice(), linked, kept, now) {
        return true;
    }
    let all = known.all.of(now.name);
    unite_with_all(types, stands, linked, all, now)
}

/// Whether a declaration needn't be kept: it is internal to its root, or like one that is kept.
fn is_covered(
    stands: &[u32],
    linked: &[LinkedName<'_>],
    kept: &[usize],
    now: &LinkedName<'_>,
) -> bool
    ensures { result ≡ (now.now.internal || has_alike stands.now (rows_at kept.now (map linked_of_name linked.now)) (linked_of_name now.now)) }
{
    now.internal || has_alike(stands, linked, kept, now)
}

/// Notes the place of a declaration, also among those that are kept, unless these have one that is like it.
pub fn note<'s>(
    alloc: Global,
    known: &mut Known<'s>,
    stands: &[u32],
    linked: &[LinkedName<'s>],
    place: usize,
    now: &LinkedName<'s>,
) -> Result<(), AllocError>
    ensures all { IfOk result (λ _. (other : List ℕ) → group_of known.new.all other ≡ (if bytes_eq now.now.name.now other then group_of known.old.all other ++ place ∷ [] else group_of known.old.all other)) }
    ensures kept { IfOk result (λ _. (other : List ℕ) → group_of known.new.kept other ≡ grouped_after (not (now.now.internal || has_alike stands.now (rows_at (group_of known.old.kept now.now.name.now) (map linked_of_name linked.now)) (linked_of_name now.now))) now.now.name.now place other (group_of known.old.kept other)) }
{
    let covered = is_covered(stands, linked, known.kept.of(now.name), now);
    known.all.add(alloc, now.name, place)?;
    note_where(alloc, &mut known.kept, !covered, now.name, place)?;
    Ok(())
}
