//! The walk over the roots of a program.

ghost use Rattle.std.specs.Prelude.{◌≡◌, IfOk, map};
ghost use Rattle.p10_syn.specs.BuiltStatements.{external_of};
ghost use Rattle.p10_elabx.specs.First.{only_first};
ghost use Rattle.p10_heads.specs.PlainHeads.{plain_heads};
ghost use Rattle.p10_heads.specs.Roots.{roots_of};
ghost use Rattle.p10_elab.specs.RootEnds.{known_after, known_after_all, root_begun, root_ended, root_passed, roots_passed};
ghost use Rattle.p10_elab.specs.KnownViews.{plain_known};

use crate::definitions::defined_outside;
use crate::known::{Known, number_of};
use crate::outer_declarations::declared_outside;
use crate::root_end::{extents_of, note_sizes, put_outside};
use crate::setting::Setting;
use crate::sightings::Sightings;
use p10_heads::{Heads, rest_from, root_length};
use p10_syn::Unit;
use std::alloc::{AllocError, Global};

/// Goes over the roots, whose declarations and functions follow one another. Out of memory nothing is said of what is known.
pub(crate) fn roots_passed<'s>(
    alloc: Global,
    heads: &Heads<'s>,
    known: &mut Known<'s>,
    units: &[Unit<'s>],
) -> Result<(), AllocError>
    ensures { IfOk result (λ _. plain_known known.new ≡ roots_passed only_first (plain_heads heads.now) (plain_known known.old) (roots_of (map external_of units.now))) }
{
    let setting = Setting { alloc, heads };
    let mut place = 0;
    while place < units.len() {
        let rest = rest_from(units, place);
        let count = root_length(rest);
        root_passed(&setting, known, &rest[..count])?;
        place += count;
    }
    Ok(())
}

/// Goes over a root.
fn root_passed<'s>(
    setting: &Setting<'_, 's>,
    known: &mut Known<'s>,
    root: &[Unit<'s>],
) -> Result<(), AllocError>
    ensures { IfOk result (λ _. plain_known known.new ≡ root_passed only_first (plain_heads setting.now.heads.now) (plain_known known.old) (map external_of root.now)) }
{
    begin_root(setting.alloc, known);
    known_after_all(setting, known, root)?;
    end_root(setting.alloc, known)?;
    Ok(())
}

/// Begins a root: it has no names.
fn begin_root(alloc: Global, known: &mut Known<'_>)
    ensures { plain_known known.new ≡ root_begun (plain_known known.old) }
{
    known.standing.scope.forget_names();
    known.sightings = Sightings::new(alloc);
    known.tentative = Vec::new(alloc);
    known.undefined = Vec::new(alloc);
}

/// Goes over the declarations and functions of a root, one after the other.
fn known_after_all<'s>(
    setting: &Setting<'_, 's>,
    known: &mut Known<'s>,
    root: &[Unit<'s>],
) -> Result<(), AllocError>
    ensures { IfOk result (λ _. plain_known known.new ≡ known_after_all only_first (plain_heads setting.now.heads.now) (plain_known known.old) (map external_of root.now)) }
{
    for unit in root {
        known_after(setting, known, unit)?;
    }
    Ok(())
}

/// Goes over a declaration or a function.
fn known_after<'s>(
    setting: &Setting<'_, 's>,
    known: &mut Known<'s>,
    unit: &Unit<'s>,
) -> Result<(), AllocError>
    ensures { IfOk result (λ _. plain_known known.new ≡ known_after only_first (plain_heads setting.now.heads.now) (plain_known known.old) (external_of unit.now)) }
{
    match unit {
        Unit::Decl(_, d) => {
            declared_outside(setting, known, d)?;
            Ok(())
        }
        Unit::Function(f) => {
            defined_outside(setting, known, f)?;
            Ok(())
        }
    }
}

/// Ends a root: its tentative definitions have sizes.
fn end_root(alloc: Global, known: &mut Known<'_>) -> Result<(), AllocError>
    ensures { IfOk result (λ _. plain_known known.new ≡ root_ended only_first (plain_known known.old)) }
{
    note_sizes(&known.tentative, &mut known.standing);
    let to = number_of(known.functions.len())?;
    let mut extents = extents_of(alloc, to, known.sightings.rows())?;
    known.visible.append(&mut extents)?;
    put_outside(to, &known.undefined, &mut known.outside)?;
    known.root = number_of(known.root as usize + 1)?;
    Ok(())
}
