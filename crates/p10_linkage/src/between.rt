//! Declarations with those of roots before them, and definitions with those of other roots, one after the other (C99 6.2.7, 6.9p5).

ghost use Rattle.std.specs.Prelude.{◌≡◌, ◌||◌, ◌&&◌, List, ◌∷◌, [], true, map, length, if◌then◌else◌, IfOk, option_map, option_copied, slice_get};
ghost use Rattle.p10_base.specs.declared.codes.SubsetCode.TheVariants.{DefinedTwice};
ghost use Rattle.p10_core.specs.Completing.{AreBuilt};
ghost use Rattle.p10_core.specs.Representing.{represented};
ghost use Rattle.p10_core.specs.Views.{plain_types};
ghost use Rattle.p10_elabx.specs.declared.problem.Problem.{Problem};
ghost use Rattle.p10_elabx.specs.First.{only_first, joined, problems};
ghost use Rattle.p10_elabd.specs.Standing.{PlainStanding};
ghost use Rattle.p10_heads.specs.HeadViews.{plain_head};
ghost use Rattle.p10_linkage.specs.LinkedViews.{linked_of_name};
ghost use Rattle.p10_linkage.specs.Between.{all_agreeing, is_defined_before, definitions_noted};
ghost use Rattle.p10_linkage.specs.private.Grouping.{rows_at};
ghost use Rattle.p10_linkage.specs.private.Agreeing.{stood, is_defined_row, is_shared, noted_where};

use crate::groups::Groups;
use crate::known::{agree_with_known, none_known, note, unite_with_known};
use crate::linked::LinkedName;
use crate::linked_names::note_where;
use crate::stands::Stands;
use p10_base::{At, SubsetCode};
use p10_core::Types;
use p10_elabx::{Problem, joined};
use p10_heads::Head;
use std::alloc::{AllocError, Global};

/// Makes each declaration one with those before it: whether all can be one. Where they can't, what stands for structures then is of no
/// use. Nothing is copied, as it is where some may only be compatible.
pub fn unite_in_turn<'s>(
    alloc: Global,
    types: &Types<'s>,
    stands: &mut Stands,
    linked: &[LinkedName<'s>],
) -> Result<bool, AllocError>
    requires as_many { length stands.old.numbers.items ≡ length (plain_types types.now) }
    requires built { AreBuilt (represented (plain_types types.now) stands.old.numbers.items) }
    ensures told { IfOk result (λ all. all ≡ true → (s : PlainStanding) (found : List Problem) → all_agreeing only_first [] (map linked_of_name linked.now) (stood s (represented (plain_types types.now) stands.old.numbers.items) found) ≡ stood s (represented (plain_types types.now) stands.new.numbers.items) found) }
    ensures as_many { IfOk result (λ _. length stands.new.numbers.items ≡ length stands.old.numbers.items) }
    ensures built { IfOk result (λ all. all ≡ true → AreBuilt (represented (plain_types types.now) stands.new.numbers.items)) }
{
    let mut known = none_known(alloc);
    for place in 0..linked.len() {
        let now = &linked[place];
        if !unite_with_known(types, stands, linked, &known, now) {
            return Ok(false);
        }
        note(
            alloc,
            &mut known,
            stands.numbers.as_slice(),
            linked,
            place,
            now,
        )?;
    }
    Ok(true)
}

/// Declarations with those before them: the first problem then.
pub fn agree_in_turn<'s>(
    alloc: Global,
    types: &Types<'s>,
    stands: &mut Stands,
    linked: &[LinkedName<'s>],
    problem: Option<Problem>,
) -> Result<Option<Problem>, AllocError>
    requires as_many { length stands.old.numbers.items ≡ length (plain_types types.now) }
    requires built { AreBuilt (represented (plain_types types.now) stands.old.numbers.items) }
    ensures told { IfOk result (λ found. (s : PlainStanding) → all_agreeing only_first [] (map linked_of_name linked.now) (stood s (represented (plain_types types.now) stands.old.numbers.items) (problems problem)) ≡ stood s (represented (plain_types types.now) stands.new.numbers.items) (problems found)) }
    ensures as_many { IfOk result (λ _. length stands.new.numbers.items ≡ length stands.old.numbers.items) }
    ensures built { IfOk result (λ _. AreBuilt (represented (plain_types types.now) stands.new.numbers.items)) }
{
    let mut known = none_known(alloc);
    let mut found = problem;
    for place in 0..linked.len() {
        let now = &linked[place];
        let agrees = agree_with_known(alloc, types, stands, linked, &known, now)?;
        found = with_problem_where(!agrees, found, now.at);
        note(
            alloc,
            &mut known,
            stands.numbers.as_slice(),
            linked,
            place,
            now,
        )?;
    }
    Ok(found)
}

/// The first of a problem and of another one at a tree, where that holds.
fn with_problem_where(holds: bool, found: Option<Problem>, at: At) -> Option<Problem>
    ensures { problems result ≡ noted_where only_first holds DefinedTwice at (problems found) }
{
    if holds {
        joined(
            found,
            Some(Problem {
                code: SubsetCode::DefinedTwice,
                at,
            }),
        )
    } else {
        found
    }
}

/// Notes names with external linkage that are defined in two roots: the first problem then.
pub fn note_definitions<'s>(
    alloc: Global,
    heads: &[Head<'s>],
    problem: Option<Problem>,
) -> Result<Option<Problem>, AllocError>
    ensures { IfOk result (λ found. (s : PlainStanding) → definitions_noted only_first [] (map plain_head heads.now) (record s { problems = problems problem }) ≡ record s { problems = problems found }) }
{
    let mut groups = Groups::new(alloc);
    let mut found = problem;
    for place in 0..heads.len() {
        let head = &heads[place];
        let twice = is_defined_before(heads, groups.of(head.name), head);
        found = with_problem_where(twice, found, head.at);
        note_where(alloc, &mut groups, is_shared(head), head.name, place)?;
    }
    Ok(found)
}

/// Whether roots share a definition: it isn't internal to its root, nor in a block.
fn is_shared(head: &Head<'_>) -> bool
    ensures { result ≡ is_shared (plain_head head.now) }
{
    !(head.internal || head.in_block)
}

/// Whether a definition that roots share is one of a name that another root defines, at one of these places.
fn is_defined_before(heads: &[Head<'_>], before: &[usize], head: &Head<'_>) -> bool
    ensures { result ≡ (is_shared (plain_head head.now) && is_defined_before (rows_at before.now (map plain_head heads.now)) (plain_head head.now)) }
{
    is_shared(head) && is_defined_among(heads, before, head)
}

/// Whether a definition of another root, at one of these places, has the same name.
#[tactic(auto, using(crate::proofs::Turns::row_defined))]
fn is_defined_among(heads: &[Head<'_>], before: &[usize], head: &Head<'_>) -> bool
    ensures { result ≡ is_defined_before (rows_at before.now (map plain_head heads.now)) (plain_head head.now) }
{
    for place in before {
        if is_defined_row(head_at(heads, *place), head) {
            return true;
        }
    }
    false
}

/// The definition at a place.
fn head_at<'a, 's>(heads: &'a [Head<'s>], place: usize) -> Option<&'a Head<'s>>
    ensures { option_map plain_head (option_copied result) ≡ slice_get (map plain_head heads.now) place }
{
    heads.get(place)
}

/// Whether a definition, if there is one, is one of another root with the same name.
fn is_defined_row(other: Option<&Head<'_>>, head: &Head<'_>) -> bool
    ensures { result ≡ is_defined_row (option_map plain_head (option_copied other.entry)) (plain_head head.now) }
{
    match other {
        Some(other) => {
            other.name == head.name
                && (!(other.internal || head.internal)
                    && (!(other.in_block || head.in_block) && other.root != head.root))
        }
        None => false,
    }
}
