//! Roots among the declarations and functions of a program, which follow one another.

ghost use Rattle.std.specs.Prelude.{◌≡◌, ◌<◌, ◌≤◌, map, length, drop};
ghost use Rattle.p10_syn.specs.BuiltStatements.{external_of};
ghost use Rattle.p10_heads.specs.Roots.{begins_root};
ghost use Rattle.p10_heads.specs.private.Cut.{inside_length, root_length};

use p10_syn::Unit;

/// Whether a declaration or function begins its root: its first word is the root's first.
fn begins_root(unit: &Unit<'_>) -> bool
    ensures { result ≡ begins_root (external_of unit.now) }
{
    match unit {
        Unit::Decl(at, _) => at.first == 0,
        Unit::Function(f) => f.landmarks.whole.first == 0,
    }
}

/// How many declarations and functions come before the next root.
fn inside_length(units: &[Unit<'_>]) -> usize
    ensures value { result ≡ inside_length (map external_of units.now) }
    ensures within { result ≤ length units.now }
{
    let mut count = 0;
    for unit in units {
        if begins_root(unit) {
            return count;
        }
        count += 1;
    }
    count
}

/// How many declarations and functions the first root has.
pub fn root_length(units: &[Unit<'_>]) -> usize
    requires { 0 < length units.now }
    ensures value { result ≡ root_length (map external_of units.now) }
    ensures within { result ≤ length units.now }
{
    inside_length(rest_from(units, 1)) + 1
}

/// The declarations and functions from a place on.
pub fn rest_from<'w, 's>(units: &'w [Unit<'s>], place: usize) -> &'w [Unit<'s>]
    requires { place ≤ length units.now }
    ensures { result.now ≡ drop place units.now }
{
    &units[place..]
}
