//! The places of functions and of declarations outside of them.

ghost use Rattle.std.specs.Prelude.{◌≡◌, ◌+◌, ◌<◌, ◌≤◌, ◌^◌, map};
ghost use Rattle.p10_syn.specs.Bare.{bare_definition, bare_external, bare_externals};
ghost use Rattle.p10_syn.specs.BuiltStatements.{landmarks_of, definition_of, external_of};
ghost use Rattle.p10_syn.specs.Counts.{count_definition, count_external};
ghost use Rattle.p10_syn.specs.Places.{locate_definition, locate_external, locate_externals};
ghost use Rattle.p10_place.specs.Roots.{source_of, count_externals};
ghost use Rattle.p10_place.specs.private.Marks.{landmarks_between, with_own_place};

use crate::declaration::set_declaration;
use crate::declarator::set_declarator;
use crate::root::Root;
use crate::specifier::set_specifiers;
use crate::statement::set_statements;
use p10_base::At;
use p10_syn::{Function, Landmarks, Unit};

/// Sets the places in a declaration outside of functions, or in a function.
pub(crate) fn set_unit(root: &Root<'_, '_>, first: usize, unit: &mut Unit<'_>) -> usize
    requires { first + count_external (bare_external (external_of unit.old)) < 2 ^ 64 }
    ensures placed { external_of unit.new ≡ locate_external (source_of root.now) first (bare_external (external_of unit.old)) }
    ensures past { result ≡ first + count_external (bare_external (external_of unit.old)) }
{
    match unit {
        Unit::Decl(_, declaration) => {
            let past = set_declaration(root, first, declaration);
            set_own_place(unit, root.alone().place_between(first, past));
            past
        }
        Unit::Function(function) => set_function(root, first, function),
    }
}

/// Sets where a declaration stands in its root; of a function its landmarks say it.
fn set_own_place(unit: &mut Unit<'_>, place: At)
    ensures { external_of unit.new ≡ with_own_place place (external_of unit.old) }
{
    match unit {
        Unit::Decl(at, _) => *at = place,
        Unit::Function(_) => {}
    }
}

/// Sets the places in a function.
fn set_function(root: &Root<'_, '_>, first: usize, function: &mut Function<'_>) -> usize
    requires { first + count_definition (bare_definition (definition_of function.old)) < 2 ^ 64 }
    ensures placed { definition_of function.new ≡ locate_definition (source_of root.now) first (bare_definition (definition_of function.old)) }
    ensures past { result ≡ first + count_definition (bare_definition (definition_of function.old)) }
{
    let brace = set_specifiers(root, first, &mut function.specs);
    let brace = set_declarator(root, brace, &mut function.declarator);
    let past = set_statements(root, brace + 1, &mut function.body) + 1;
    function.at = root.place_between(first, past);
    function.body_at = root.place_between(brace, past);
    function.landmarks = landmarks(root, first, brace, past);
    past
}

/// Where the words of a function stand that rules on functions ask for, counted in its root.
fn landmarks(root: &Root<'_, '_>, first: usize, brace: usize, past: usize) -> Landmarks
    requires ends { brace + 1 < past }
    requires begins { first ≤ brace }
    ensures { landmarks_of result ≡ landmarks_between (source_of root.now) first brace past }
{
    let own = root.alone();
    Landmarks {
        whole: own.place_between(first, past),
        first_word: own.place_between(first, first + 1),
        brace: own.place_between(brace, brace + 1),
        last_word: own.place_between(past - 1, past),
    }
}

/// Sets the places in declarations and functions one after the other.
pub(crate) fn set_units(root: &Root<'_, '_>, first: usize, units: &mut Vec<Unit<'_>>) -> usize
    requires { first + count_externals (bare_externals (map external_of units.old.items)) < 2 ^ 64 }
    ensures placed { map external_of units.new.items ≡ locate_externals (source_of root.now) first (bare_externals (map external_of units.old.items)) }
    ensures past { result ≡ first + count_externals (bare_externals (map external_of units.old.items)) }
{
    let mut past = first;
    for i in 0..units.len() {
        past = set_unit(root, past, &mut units[i]);
    }
    past
}
