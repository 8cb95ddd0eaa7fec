//! The places of whole expressions, of declarations and functions, and of roots.

ghost use Rattle.std.specs.Prelude.{◌≡◌, ◌+◌, ◌<◌, ◌^◌, map};
ghost use Rattle.p10_syn.specs.Bare.{bare_external, bare_externals};
ghost use Rattle.p10_syn.specs.Built.{bare_of, expression_of};
ghost use Rattle.p10_syn.specs.BuiltStatements.{external_of};
ghost use Rattle.p10_syn.specs.Counts.{count, count_external};
ghost use Rattle.p10_syn.specs.Places.{locate, locate_external, locate_externals};
ghost use Rattle.p10_place.specs.Roots.{source_of, count_externals};

use crate::expression::set_expression;
use crate::external::{set_unit, set_units};
use crate::root::Root;
use p10_syn::{Expr, Unit};

/// Sets the places in an expression that begins with word `first` of the root, and gives the number of the
/// word past it. The tree stays as it is except for its places.
#[tactic(auto, unfolding(p10_syn::specs::Built::bare_of))]
pub fn place_expr(root: &Root<'_, '_>, first: usize, e: &mut Expr<'_>) -> usize
    requires { first + count (bare_of e.old) < 2 ^ 64 }
    ensures placed { expression_of e.new ≡ locate (source_of root.now) first (bare_of e.old) }
    ensures same { bare_of e.new ≡ bare_of e.old }
    ensures past { result ≡ first + count (bare_of e.old) }
{
    set_expression(root, first, e)
}

/// Sets the places in a declaration outside of functions, or in a function, that begins with word `first` of the
/// root, and gives the number of the word past it. The tree stays as it is except for its places.
pub fn place_unit(root: &Root<'_, '_>, first: usize, unit: &mut Unit<'_>) -> usize
    requires { first + count_external (bare_external (external_of unit.old)) < 2 ^ 64 }
    ensures placed { external_of unit.new ≡ locate_external (source_of root.now) first (bare_external (external_of unit.old)) }
    ensures same { bare_external (external_of unit.new) ≡ bare_external (external_of unit.old) }
    ensures past { result ≡ first + count_external (bare_external (external_of unit.old)) }
{
    set_unit(root, first, unit)
}

/// Sets the places in the declarations and functions of a root, which spell its words from word `first` on, and gives
/// the number of the word past them. The trees stay as they are except for their places.
pub fn place_units(root: &Root<'_, '_>, first: usize, units: &mut Vec<Unit<'_>>) -> usize
    requires { first + count_externals (bare_externals (map external_of units.old.items)) < 2 ^ 64 }
    ensures placed { map external_of units.new.items ≡ locate_externals (source_of root.now) first (bare_externals (map external_of units.old.items)) }
    ensures same { bare_externals (map external_of units.new.items) ≡ bare_externals (map external_of units.old.items) }
    ensures past { result ≡ first + count_externals (bare_externals (map external_of units.old.items)) }
{
    set_units(root, first, units)
}
