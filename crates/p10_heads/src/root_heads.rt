//! What one root defines.

ghost use Rattle.std.specs.Prelude.{◌≡◌, ◌++◌, ◌&&◌, true, false, not, if◌then◌else◌, IfOk, map};
ghost use Rattle.p10_syn.specs.BuiltStatements.{external_of};
ghost use Rattle.p10_heads.specs.Heads.{begins_at, outlines_in, outlines, heads_from, object_heads_of};
ghost use Rattle.p10_heads.specs.HeadViews.{plain_outline, plain_head};
ghost use Rattle.p10_heads.specs.private.Sites.{plain_sites, site_in, head_among, heads_among, objects_in, objects_among};

use crate::head::Head;
use crate::outline::Outline;
use crate::outlines::{outlines, put_outlines_in};
use crate::sites::Sites;
use crate::statics::put_all_statics;
use p10_base::At;
use p10_syn::Unit;
use std::alloc::{AllocError, Global};

/// Whether a tree begins at a place that is known.
fn begins_at(at: At, found: Option<At>) -> bool
    ensures { result ≡ begins_at at found }
{
    match found {
        None => false,
        Some(place) => at.first == place.first,
    }
}

/// Whether an outline is one of a function, or else of an object.
fn is_of(functions: bool, o: &Outline<'_>) -> bool
    ensures { result ≡ (if functions then o.now.function else not o.now.function) }
{
    if functions { o.function } else { !o.function }
}

/// Whether an outline is where a function, or an object, is defined.
fn is_head(functions: bool, sites: &Sites<'_>, o: &Outline<'_>) -> bool
    ensures { result ≡ (begins_at o.now.at (site_in (plain_sites sites.now) (plain_outline o.now).name) && (if functions then o.now.function else not o.now.function)) }
{
    begins_at(o.at, sites.site(o.name)) && is_of(functions, o)
}

/// Puts down the head of an outline, if it is where its name is defined.
#[tactic(auto, using(crate::proofs::ListRows::mapped_more))]
fn put_head<'s>(
    functions: bool,
    root: u32,
    sites: &Sites<'s>,
    o: &Outline<'s>,
    into: &mut Vec<Head<'s>>,
) -> Result<(), AllocError>
    ensures { IfOk result (λ done. map plain_head into.new.items ≡ map plain_head into.old.items ++ head_among functions root (plain_sites sites.now) (plain_outline o.now)) }
{
    if is_head(functions, sites, o) {
        into.push(Head {
            root,
            name: o.name,
            at: o.at,
            internal: sites.is_internal(o.name),
            in_block: false,
        })?;
    }
    Ok(())
}

/// Puts down the heads of outlines.
fn put_heads<'s>(
    functions: bool,
    root: u32,
    sites: &Sites<'s>,
    all: &[Outline<'s>],
    into: &mut Vec<Head<'s>>,
) -> Result<(), AllocError>
    ensures { IfOk result (λ done. map plain_head into.new.items ≡ map plain_head into.old.items ++ heads_among functions root (plain_sites sites.now) (map plain_outline all.now)) }
{
    for o in all {
        put_head(functions, root, sites, o, into)?;
    }
    Ok(())
}

/// Puts down the heads of the objects of a declaration or function.
fn put_objects_in<'s>(
    alloc: Global,
    root: u32,
    sites: &Sites<'s>,
    unit: &Unit<'s>,
    into: &mut Vec<Head<'s>>,
) -> Result<(), AllocError>
    ensures { IfOk result (λ done. map plain_head into.new.items ≡ map plain_head into.old.items ++ objects_in root (plain_sites sites.now) (external_of unit.now)) }
{
    match unit {
        Unit::Decl(_, _) => put_declared_objects(alloc, root, sites, unit, into),
        Unit::Function(f) => put_all_statics(&f.body, root, into),
    }
}

/// Puts down the heads of the objects that declarators outside of functions define.
fn put_declared_objects<'s>(
    alloc: Global,
    root: u32,
    sites: &Sites<'s>,
    unit: &Unit<'s>,
    into: &mut Vec<Head<'s>>,
) -> Result<(), AllocError>
    ensures { IfOk result (λ done. map plain_head into.new.items ≡ map plain_head into.old.items ++ heads_among false root (plain_sites sites.now) (outlines_in (external_of unit.now))) }
{
    let mut all = Vec::new(alloc);
    put_outlines_in(unit, &mut all)?;
    put_heads(false, root, sites, &all, into)
}

/// Puts down the heads of the objects of a root.
fn put_objects<'s>(
    alloc: Global,
    number: u32,
    sites: &Sites<'s>,
    root: &[Unit<'s>],
    into: &mut Vec<Head<'s>>,
) -> Result<(), AllocError>
    ensures { IfOk result (λ done. map plain_head into.new.items ≡ map plain_head into.old.items ++ objects_among number (plain_sites sites.now) (map external_of root.now)) }
{
    for unit in root {
        put_objects_in(alloc, number, sites, unit, into)?;
    }
    Ok(())
}

/// Puts down the heads of the functions and of the objects of a root with a number.
pub(crate) fn put_root<'s>(
    alloc: Global,
    number: u32,
    root: &[Unit<'s>],
    functions: &mut Vec<Head<'s>>,
    objects: &mut Vec<Head<'s>>,
) -> Result<(), AllocError>
    ensures functions { IfOk result (λ done. map plain_head functions.new.items ≡ map plain_head functions.old.items ++ heads_from true number (outlines (map external_of root.now)) (outlines (map external_of root.now))) }
    ensures objects { IfOk result (λ done. map plain_head objects.new.items ≡ map plain_head objects.old.items ++ object_heads_of number (outlines (map external_of root.now)) (map external_of root.now)) }
{
    let all = outlines(alloc, root)?;
    let sites = Sites::of(alloc, &all)?;
    put_heads(true, number, &sites, &all, functions)?;
    put_objects(alloc, number, &sites, root, objects)?;
    Ok(())
}
