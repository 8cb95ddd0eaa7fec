//! What the declarators of a declaration allow among its specifiers.

ghost use Rattle.std.specs.Prelude.{◌≡◌, map, option_map, option_copied};
ghost use Rattle.p10_core.specs.Types.{plain_type};
ghost use Rattle.p10_syn.specs.Trees.{specifier_row};
ghost use Rattle.p10_syn.specs.Built.{specifier_of, declarator_of};
ghost use Rattle.p10_syn.specs.BuiltStatements.{init_declarator_of, declaration_of};
ghost use Rattle.p10_elabx.specs.First.{only_first};
ghost use Rattle.p10_elabd.specs.Words.{is_volatile, is_other_word, has_word};
ghost use Rattle.p10_elabd.specs.Views.{plain_standing};
ghost use Rattle.p10_elabs.specs.Locals.{is_lasting, names_other, names_integer, declares_sensors, volatile_noted, allowed_by, makes_sensors, are_none, is_one, is_none, is_alone, brackets_from, brackets_of};
ghost use Rattle.p10_elabs.specs.LocalDeclarations.{is_typedef};
ghost use Rattle.p10_elabs.specs.private.Specifying.{passes_declarator, all_pass, are_so, names_other_one, has_volatile, volatile_one};

use p10_base::{At, SubsetCode};
use p10_core::CType;
use p10_elabd::{
    Allowed, Standing, Storage, declares_function, is_plain_name, is_volatile, storage_of,
};
use p10_elabx::declarator_place;
use p10_heads::is_static;
use p10_syn::{Decl, Declarator, InitDeclarator, Sign, Spec};

/// What is asked of declarators.
#[derive(Clone, Copy, Debug, PartialEq, Eq)]
pub(crate) enum Declares {
    /// Each is a name alone.
    Plainly,
    /// Each declares a function.
    Functions,
}

/// Whether that holds for a declarator.
fn passes_declarator(asked: Declares, d: &InitDeclarator<'_>) -> bool
    ensures { result ≡ passes_declarator asked (init_declarator_of d.now) }
{
    match asked {
        Declares::Plainly => is_plain_name(&d.declarator),
        Declares::Functions => declares_function(&d.declarator),
    }
}

/// Whether that holds for each declarator.
fn all_pass(asked: Declares, all: &[InitDeclarator<'_>]) -> bool
    ensures { result ≡ all_pass asked (map init_declarator_of all.now) }
{
    let mut rest = all;
    while let [first, others @ ..] = rest {
        if !passes_declarator(asked, first) {
            return false;
        }
        rest = others;
    }
    true
}

/// Whether that holds for each declarator, and there is one.
fn are_so(asked: Declares, all: &[InitDeclarator<'_>]) -> bool
    ensures { result ≡ are_so asked (map init_declarator_of all.now) }
{
    match all {
        [] => false,
        [_, ..] => all_pass(asked, all),
    }
}

/// Whether storage gives a static lifetime to objects.
fn is_lasting(outside: bool, storage: Storage) -> bool
    ensures { result ≡ is_lasting outside storage }
{
    match storage {
        Storage::Static => true,
        Storage::Extern | Storage::Unnamed => outside,
        Storage::Typedef => false,
    }
}

/// Whether storage is that of a typedef.
pub fn is_typedef(storage: Storage) -> bool
    ensures { result ≡ is_typedef storage }
{
    matches!(storage, Storage::Typedef)
}

/// Whether a word names a type that is no integer type.
fn is_other_word(word: Sign) -> bool
    ensures { result ≡ is_other_word word }
{
    matches!(
        word,
        Sign::Void | Sign::Float | Sign::Double | Sign::Complex | Sign::Imaginary
    )
}

/// Whether a specifier names a type that is no integer type.
#[tactic(auto, using(crate::proofs::Specified::structure_names_other, crate::proofs::Specified::enumeration_names_none))]
fn names_other_one(spec: &Spec<'_>) -> bool
    ensures { result ≡ names_other_one (specifier_of spec.now) }
{
    match spec {
        Spec::Keyword(_, word) => is_other_word(*word),
        Spec::Typedef(_) => false,
        Spec::Structure(_) => true,
        Spec::Enumeration(_) => false,
    }
}

/// Whether a specifier names a type that is no integer type, whatever its parts are.
#[tactic(auto, using(crate::proofs::Specified::other_first))]
fn names_other(specs: &[Spec<'_>]) -> bool
    ensures { result ≡ names_other (specifier_row (map specifier_of specs.now)) }
{
    let mut rest = specs;
    while let [first, others @ ..] = rest {
        if names_other_one(first) {
            return true;
        }
        rest = others;
    }
    false
}

/// Whether the type that specifiers name is an integer type; where it is refused, by their forms alone.
fn names_integer(ty: Option<&CType>, specs: &[Spec<'_>]) -> bool
    ensures { result ≡ names_integer (option_map plain_type (option_copied ty.entry)) (specifier_row (map specifier_of specs.now)) }
{
    match ty {
        Some(ty) => ty.is_integer(),
        None => !names_other(specs),
    }
}

/// Whether a declaration declares sensors alone: each declarator is an object of integer type and of static lifetime.
#[tactic(auto, using(crate::proofs::Specified::are_plain))]
pub(crate) fn declares_sensors(outside: bool, ty: Option<&CType>, d: &Decl<'_>) -> bool
    ensures { result ≡ declares_sensors outside (option_map plain_type (option_copied ty.entry)) (declaration_of d.now) }
{
    is_lasting(outside, storage_of(&d.specs))
        && (names_integer(ty, &d.specs) && are_so(Declares::Plainly, &d.declarators))
}

/// What the declarators of a declaration allow among its specifiers.
#[tactic(auto, using(crate::proofs::Specified::are_functions))]
pub(crate) fn allowed_by(d: &Decl<'_>) -> Allowed
    ensures { result ≡ allowed_by (declaration_of d.now) }
{
    let inline = is_static(storage_of(&d.specs)) && are_so(Declares::Functions, &d.declarators);
    Allowed {
        inline,
        volatile: true,
    }
}

/// Whether a specifier is `volatile`.
#[tactic(auto, using(crate::proofs::Specified::structure_is_none, crate::proofs::Specified::enumeration_is_none))]
fn has_volatile(spec: &Spec<'_>) -> bool
    ensures { result ≡ has_volatile (specifier_of spec.now) }
{
    match spec {
        Spec::Keyword(_, word) => is_volatile(*word),
        Spec::Typedef(_) => false,
        Spec::Structure(_) => false,
        Spec::Enumeration(_) => false,
    }
}

/// Whether the objects of a declaration are sensors.
#[tactic(auto, using(crate::proofs::Specified::volatile_first))]
pub fn makes_sensors(d: &Decl<'_>) -> bool
    ensures { result ≡ makes_sensors (declaration_of d.now) }
{
    let mut rest = d.specs.as_slice();
    while let [first, others @ ..] = rest {
        if has_volatile(first) {
            return true;
        }
        rest = others;
    }
    false
}

/// Notes `volatile` on anything but sensors, at the word, if a specifier is that.
#[tactic(auto, using(crate::proofs::Specified::structure_notes_none, crate::proofs::Specified::enumeration_notes_none))]
fn note_volatile(may: bool, spec: &Spec<'_>, standing: &mut Standing<'_>)
    ensures { plain_standing standing.new ≡ volatile_one only_first may (specifier_of spec.now) (plain_standing standing.old) }
{
    match spec {
        Spec::Keyword(at, word) => {
            let holds = is_volatile(*word) && !may;
            standing.refuse_where(holds, SubsetCode::BadSpecifier, *at);
        }
        Spec::Typedef(_) => {}
        Spec::Structure(_) => {}
        Spec::Enumeration(_) => {}
    }
}

/// Notes `volatile` on anything but sensors, at the word (C99 6.7.3).
pub(crate) fn volatile_noted(may: bool, specs: &[Spec<'_>], standing: &mut Standing<'_>)
    ensures { plain_standing standing.new ≡ volatile_noted only_first may (specifier_row (map specifier_of specs.now)) (plain_standing standing.old) }
{
    for spec in specs {
        note_volatile(may, spec, standing);
    }
}

/// Whether there are no specifiers.
fn are_none(specs: &[Spec<'_>]) -> bool
    ensures { result ≡ are_none (specifier_row (map specifier_of specs.now)) }
{
    match specs.first() {
        None => true,
        Some(_) => false,
    }
}

/// Whether there is one specifier.
fn is_one(specs: &[Spec<'_>]) -> bool
    ensures { result ≡ is_one (specifier_row (map specifier_of specs.now)) }
{
    match specs.split_first() {
        None => false,
        Some((_, rest)) => are_none(rest),
    }
}

/// Whether there are no declarators.
fn is_none(all: &[InitDeclarator<'_>]) -> bool
    ensures { result ≡ is_none (map init_declarator_of all.now) }
{
    match all {
        [] => true,
        [_, ..] => false,
    }
}

/// Whether specifiers are the only one of a declaration that declares nothing else.
pub(crate) fn is_alone(d: &Decl<'_>) -> bool
    ensures { result ≡ is_alone (declaration_of d.now) }
{
    is_one(&d.specs) && is_none(&d.declarators)
}

/// Where the brackets next to the name of a declarator of an array stand; where it is of none, the place that is given.
fn brackets_from(at: At, d: &Declarator<'_>) -> At
    ensures { result ≡ brackets_from at (declarator_of d.now) }
{
    match d {
        Declarator::Array(_, inner, brackets, _) => brackets_from(*brackets, inner),
        Declarator::Parenthesised(_, inner) => brackets_from(at, inner),
        Declarator::Function(_, inner, _, _, _) => brackets_from(at, inner),
        Declarator::Pointer(_, _, inner) => brackets_from(at, inner),
        Declarator::Named(_) | Declarator::Unnamed(_) => at,
    }
}

/// Where the brackets of an array stand whose length is lacking: those next to its name. Where the declarator is of no array, it is
/// where the declarator stands.
pub fn brackets_of(d: &Declarator<'_>) -> At
    ensures { result ≡ brackets_of (declarator_of d.now) }
{
    brackets_from(declarator_place(d), d)
}
