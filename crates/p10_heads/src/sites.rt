//! Where the names of a root are defined.

ghost use Rattle.std.specs.Prelude.{◌≡◌, [], map, IfOk, is_some};
ghost use Rattle.p10_bindings.specs.Bound.{bound_in};
ghost use Rattle.p10_heads.specs.HeadViews.{plain_outline};
ghost use Rattle.p10_heads.specs.private.Firsts.{firsts};
ghost use Rattle.p10_heads.specs.private.Sites.{passes, site_among, sites_among};

use crate::first_names::declare_first;
use crate::outline::{Defining, Outline};
use p10_base::At;
use p10_bindings::Bindings;
use std::alloc::{AllocError, Global};

/// What is asked of the outlines of a name.
#[derive(Clone, Copy, Debug, PartialEq, Eq)]
pub(crate) enum Asked {
    /// It has a body or an initialiser.
    Full,
    /// It defines an object tentatively (C99 6.9.2p2).
    Tentative,
    /// `static` stands before it.
    Internal,
}

/// Where the names of a root are defined: the first places of each name at which that holds.
#[derive(Drop)]
pub(crate) struct Sites<'s> {
    full: Bindings<'s, At>,
    tentative: Bindings<'s, At>,
    internal: Bindings<'s, At>,
}

impl<'s> Sites<'s> {
    ghost use Rattle.p10_heads.specs.private.Sites.{plain_sites, sites_of, site_in, internal_in};

    /// Where the names with these outlines are defined.
    pub(crate) fn of(alloc: Global, all: &[Outline<'s>]) -> Result<Sites<'s>, AllocError>
        ensures { IfOk result (λ s. plain_sites s ≡ sites_of (map plain_outline all.now)) }
    {
        let full = table(alloc, Asked::Full, all)?;
        let tentative = table(alloc, Asked::Tentative, all)?;
        let internal = table(alloc, Asked::Internal, all)?;
        Ok(Sites {
            full,
            tentative,
            internal,
        })
    }

    /// Where a name is defined.
    pub(crate) fn site(&self, name: &[u8]) -> Option<At>
        ensures { result ≡ site_in (plain_sites self.now) name.now }
    {
        match self.full.find(name) {
            Some(at) => Some(*at),
            None => match self.tentative.find(name) {
                Some(at) => Some(*at),
                None => None,
            },
        }
    }

    /// Whether a name is internal to its root.
    pub(crate) fn is_internal(&self, name: &[u8]) -> bool
        ensures { result ≡ internal_in (plain_sites self.now) name.now }
    {
        self.internal.find(name).is_some()
    }
}

/// Whether that holds for an outline.
fn passes(asked: Asked, outline: &Outline<'_>) -> bool
    ensures { result ≡ passes asked (plain_outline outline.now) }
{
    match asked {
        Asked::Full => matches!(outline.defining, Defining::Fully),
        Asked::Tentative => matches!(outline.defining, Defining::Tentatively),
        Asked::Internal => outline.internal,
    }
}

/// Puts down the name of an outline for which that holds.
fn put_site<'s>(
    asked: Asked,
    outline: &Outline<'s>,
    into: &mut Bindings<'s, At>,
) -> Result<(), AllocError>
    ensures { IfOk result (λ done. bound_in into.new ≡ firsts (bound_in into.old) (site_among (passes asked) (plain_outline outline.now))) }
{
    if passes(asked, outline) {
        declare_first(into, outline.name, outline.at)
    } else {
        Ok(())
    }
}

/// The names of outlines for which that holds, each with the first place.
fn table<'s>(
    alloc: Global,
    asked: Asked,
    all: &[Outline<'s>],
) -> Result<Bindings<'s, At>, AllocError>
    ensures { IfOk result (λ t. bound_in t ≡ firsts [] (sites_among (passes asked) (map plain_outline all.now))) }
{
    let mut into = Bindings::new(alloc);
    for outline in all {
        put_site(asked, outline, &mut into)?;
    }
    Ok(into)
}
