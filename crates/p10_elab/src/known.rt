//! What is known of the program after some declarations and functions of the roots.

ghost use Rattle.std.specs.Prelude.{◌≡◌, IfOk, length};
ghost use Rattle.p10_elabx.specs.First.{only_first};
ghost use Rattle.p10_elabd.specs.Blocks.{is_taken};
ghost use Rattle.p10_heads.specs.Heads.{Heads};
ghost use Rattle.p10_linkage.specs.LinkedViews.{plain_kind, linked_of_name};
ghost use Rattle.p10_elab.specs.SightingViews.{sightings_in};
ghost use Rattle.p10_elab.specs.Knowledge.{linked_number, is_object, sighted_where, undefined_where, with_linked};
ghost use Rattle.p10_elab.specs.RootEnds.{nothing_known};
ghost use Rattle.p10_elab.specs.KnownViews.{plain_undefined, plain_known};

use crate::linking::is_refused;
use crate::mains::push_problem;
use crate::naming::named_by;
use crate::outer_object::{OuterObject, Sighting, Tentative};
use crate::sightings::Sightings;
use p10_base::SubsetCode;
use p10_core::{Extent, Func, Global as StaticObject, Seen};
use p10_elabd::Standing;
use p10_elabx::Problem;
use p10_linkage::{LinkedKind, LinkedName, LinkedNames, is_main, main_problem};
use std::alloc::{AllocError, Global};

/// What is known after some declarations and functions of the roots.
#[derive(Drop)]
pub struct Known<'s> {
    /// What stands where the next one does.
    pub standing: Standing<'s>,
    /// The number of the root.
    pub root: u32,
    /// All declarations with linkage.
    pub linked: LinkedNames<'s>,
    pub functions: Vec<Func<'s>>,
    /// The objects of static lifetime in blocks, with their numbers.
    pub block_objects: Vec<(u32, StaticObject<'s>)>,
    /// The objects that are defined outside of functions.
    pub objects: Vec<OuterObject<'s>>,
    /// The objects that are declared in the root.
    pub sightings: Sightings,
    /// At which functions of the roots before each object is in scope.
    pub visible: Vec<(u32, Extent)>,
    /// What is wrong with declarations of `main`.
    pub mains: Vec<Problem>,
    /// The tentative definitions of the root (C99 6.9.2p2).
    pub tentative: Vec<Tentative<'s>>,
    /// The names of the objects that the root declares and no root defines, each with how many functions stand before.
    pub undefined: Vec<(&'s [u8], u32)>,
    /// Those of the roots before, with the functions at which they are in scope.
    pub outside: Vec<Seen<'s>>,
}

/// Nothing is known before the first root.
pub fn nothing_known<'s>(alloc: Global) -> Known<'s>
    ensures { plain_known result ≡ nothing_known }
{
    Known {
        standing: Standing::new(alloc),
        root: 0,
        linked: LinkedNames::new(alloc),
        functions: Vec::new(alloc),
        block_objects: Vec::new(alloc),
        objects: Vec::new(alloc),
        sightings: Sightings::new(alloc),
        visible: Vec::new(alloc),
        mains: Vec::new(alloc),
        tentative: Vec::new(alloc),
        undefined: Vec::new(alloc),
        outside: Vec::new(alloc),
    }
}

/// A declaration with linkage after those before it, by the number of what it names, which is past those of `count` objects where no root
/// defines it; `taken` says whether its name is taken by something else. Out of memory nothing is said of what is known.
pub fn add_linked<'s>(
    alloc: Global,
    known: &mut Known<'s>,
    linked: LinkedName<'s>,
    number: u32,
    count: usize,
    taken: bool,
) -> Result<(), AllocError>
    ensures { IfOk result (λ _. (heads : Heads) → linked_number heads (linked_of_name linked.entry) ≡ number → length heads.objects ≡ count → is_taken (plain_known known.old).standing.scope linked.entry.name.now ≡ taken → plain_known known.new ≡ with_linked only_first heads (linked_of_name linked.entry) (plain_known known.old)) }
{
    let refused = is_refused(&known.linked, &linked, taken);
    known
        .standing
        .refuse_where(refused, SubsetCode::DefinedTwice, linked.at);
    let named = named_by(alloc, &linked.kind, number, linked.sensor)?;
    known.standing.scope.declare(linked.name, named)?;
    let problem = main_problem(is_main(&linked), linked.name, linked.at);
    push_problem(&mut known.mains, problem)?;
    let from = known.functions.len();
    let object = is_object(&linked.kind);
    sight_where(&mut known.sightings, object, number, from)?;
    let undefined = object & (count <= number as usize);
    add_undefined_where(&mut known.undefined, undefined, linked.name, from)?;
    known.linked.add(alloc, linked)?;
    Ok(())
}

/// Whether an object of a known type is declared.
fn is_object(kind: &LinkedKind) -> bool
    ensures { result ≡ is_object (plain_kind kind.now) }
{
    matches!(kind, LinkedKind::Object(_))
}

/// Notes an object that is declared after the first `from` functions, where that is asked for.
fn sight_where(
    sightings: &mut Sightings,
    wanted: bool,
    number: u32,
    from: usize,
) -> Result<(), AllocError>
    ensures { IfOk result (λ _. sightings_in sightings.new ≡ sighted_where wanted number from (sightings_in sightings.old)) }
{
    if wanted {
        let from = number_of(from)?;
        sightings.add(Sighting { number, from })
    } else {
        Ok(())
    }
}

/// Notes the name of an object that no root defines and that is declared after so many functions, where that is wanted.
fn add_undefined_where<'s>(
    all: &mut Vec<(&'s [u8], u32)>,
    wanted: bool,
    name: &'s [u8],
    from: usize,
) -> Result<(), AllocError>
    ensures { IfOk result (λ _. plain_undefined all.new.items ≡ undefined_where wanted name.now from (plain_undefined all.old.items)) }
{
    if wanted {
        let from = number_of(from)?;
        all.push((name, from))?;
        Ok(())
    } else {
        Ok(())
    }
}

/// A count as a number; there is none where it is over 2^32 - 1.
pub(crate) fn number_of(count: usize) -> Result<u32, AllocError>
    ensures { IfOk result (λ n. n ≡ count) }
{
    if count > 4_294_967_295 {
        return Err(AllocError);
    }
    Ok(count as u32)
}
