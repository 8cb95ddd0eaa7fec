//! The places of initialisers and declarations.

ghost use Rattle.std.specs.Prelude.{◌≡◌, ◌+◌, ◌<◌, ◌^◌, map};
ghost use Rattle.p10_syn.specs.Bare.{bare_initializer, bare_initializers, bare_initial, bare_init_declarator, bare_init_declarators, bare_declaration};
ghost use Rattle.p10_syn.specs.BuiltStatements.{initializer_of, initial_of, init_declarator_of, declaration_of};
ghost use Rattle.p10_syn.specs.Counts.{count_bool, count_initializer, count_initializers, count_initial, count_init_declarator, count_declarators, count_declaration};
ghost use Rattle.p10_syn.specs.Places.{locate_initializer, locate_initializers, locate_initial, locate_init_declarator, locate_init_declarators, locate_declaration};
ghost use Rattle.p10_place.specs.Roots.{source_of};
ghost use Rattle.p10_place.specs.private.Lists.{initializers_in};

use crate::declarator::set_declarator;
use crate::expression::{comma_before, set_expression};
use crate::put::put;
use crate::root::{NOWHERE, Root};
use crate::specifier::set_specifiers;
use p10_syn::{Decl, Expr, Form, Init, InitDeclarator};
use std::mem::replace;

/// Sets the places in an initialiser.
#[cycle(initialising)]
fn set_initializer(root: &Root<'_, '_>, first: usize, init: &mut Init<'_>) -> usize
    requires { first + count_initializer (bare_initializer (initializer_of init.old)) < 2 ^ 64 }
    ensures placed { initializer_of init.new ≡ locate_initializer (source_of root.now) first (bare_initializer (initializer_of init.old)) }
    ensures past { result ≡ first + count_initializer (bare_initializer (initializer_of init.old)) }
{
    let taken = replace(init, Init::Value(nothing()));
    let (placed, past) = set_parts(root, first, taken);
    put(init, placed);
    past
}

/// An initialiser with its places set, and the number of the word past it.
#[cycle(initialising)]
fn set_parts<'s>(root: &Root<'_, '_>, first: usize, init: Init<'s>) -> (Init<'s>, usize)
    requires { first + count_initializer (bare_initializer (initializer_of init)) < 2 ^ 64 }
    ensures placed { initializer_of result.0 ≡ locate_initializer (source_of root.now) first (bare_initializer (initializer_of init.entry)) }
    ensures past { result.1 ≡ first + count_initializer (bare_initializer (initializer_of init.entry)) }
{
    match init {
        Init::Value(mut value) => {
            let past = set_expression(root, first, &mut value);
            (Init::Value(value), past)
        }
        Init::Braced(_, mut all, ends_with_comma) => {
            let past = set_initializers(root, first + 1, &mut all)
                + last_comma(ends_with_comma)
                + 1;
            (
                Init::Braced(root.place_between(first, past), all, ends_with_comma),
                past,
            )
        }
    }
}

/// An expression to stand in the place of one that is taken out.
fn nothing<'s>() -> Expr<'s> {
    Expr {
        at: NOWHERE,
        parens: 0,
        form: Form::Number(&[]),
    }
}

/// How many words a last comma has, if it is there.
fn last_comma(is_there: bool) -> usize
    ensures { result ≡ count_bool is_there }
{
    if is_there { 1 } else { 0 }
}

/// Sets the places in initialisers with commas between them.
#[cycle(initialising)]
fn set_initializers(root: &Root<'_, '_>, first: usize, all: &mut Vec<Init<'_>>) -> usize
    requires { first + count_initializers (bare_initializers (initializers_in all.old)) < 2 ^ 64 }
    ensures placed { initializers_in all.new ≡ locate_initializers (source_of root.now) first (bare_initializers (initializers_in all.old)) }
    ensures past { result ≡ first + count_initializers (bare_initializers (initializers_in all.old)) }
{
    let mut past = first;
    for i in 0..all.len() {
        past = set_initializer(root, past + comma_before(i), &mut all[i]);
    }
    past
}

/// Sets the places in an initialiser after the `=` at word `first`, if it is there.
fn set_initial(root: &Root<'_, '_>, first: usize, init: &mut Option<Init<'_>>) -> usize
    requires { first + count_initial (bare_initial (initial_of init.old)) < 2 ^ 64 }
    ensures placed { initial_of init.new ≡ locate_initial (source_of root.now) (first + 1) (bare_initial (initial_of init.old)) }
    ensures past { result ≡ first + count_initial (bare_initial (initial_of init.old)) }
{
    match init {
        None => first,
        Some(init) => set_initializer(root, first + 1, init),
    }
}

/// Sets the places in a declarator with its initialiser.
fn set_init_declarator(
    root: &Root<'_, '_>,
    first: usize,
    declarator: &mut InitDeclarator<'_>,
) -> usize
    requires { first + count_init_declarator (bare_init_declarator (init_declarator_of declarator.old)) < 2 ^ 64 }
    ensures placed { init_declarator_of declarator.new ≡ locate_init_declarator (source_of root.now) first (bare_init_declarator (init_declarator_of declarator.old)) }
    ensures past { result ≡ first + count_init_declarator (bare_init_declarator (init_declarator_of declarator.old)) }
{
    let past = set_declarator(root, first, &mut declarator.declarator);
    let past = set_initial(root, past, &mut declarator.init);
    declarator.at = root.place_between(first, past);
    past
}

/// Sets the places in what a declaration declares, and gives the word past its `;`.
fn set_init_declarators(
    root: &Root<'_, '_>,
    first: usize,
    all: &mut Vec<InitDeclarator<'_>>,
) -> usize
    requires { first + count_declarators (bare_init_declarators (map init_declarator_of all.old.items)) < 2 ^ 64 }
    ensures placed { map init_declarator_of all.new.items ≡ locate_init_declarators (source_of root.now) first (bare_init_declarators (map init_declarator_of all.old.items)) }
    ensures past { result ≡ first + count_declarators (bare_init_declarators (map init_declarator_of all.old.items)) }
{
    let mut past = first;
    for i in 0..all.len() {
        past = set_init_declarator(root, past + comma_before(i), &mut all[i]);
    }
    past + 1
}

/// Sets the places in a declaration.
pub(crate) fn set_declaration(
    root: &Root<'_, '_>,
    first: usize,
    declaration: &mut Decl<'_>,
) -> usize
    requires { first + count_declaration (bare_declaration (declaration_of declaration.old)) < 2 ^ 64 }
    ensures placed { declaration_of declaration.new ≡ locate_declaration (source_of root.now) first (bare_declaration (declaration_of declaration.old)) }
    ensures past { result ≡ first + count_declaration (bare_declaration (declaration_of declaration.old)) }
{
    let past = set_specifiers(root, first, &mut declaration.specs);
    let past = set_init_declarators(root, past, &mut declaration.declarators);
    declaration.at = root.place_between(first, past);
    past
}
