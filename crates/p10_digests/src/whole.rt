//! All digests of a program.

ghost use Rattle.std.specs.Prelude.{◌≡◌, [], ◌∷◌, ◌++◌, map, IfOk, OnOk};
ghost use Rattle.p10_base.specs.Words.{plain_words};
ghost use Rattle.p10_syn.specs.BuiltStatements.{external_of};
ghost use Rattle.p10_digests.specs.Digests.{body_places, function_digests, outside_digest};

use crate::functions::push_digest;
use crate::outside::outside;
use p10_base::{At, Digest, Digests, ListBuf, Word};
use p10_syn::Unit;
use std::alloc::{AllocError, Global};

/// The digests of the words of roots, of which these are the declarations and functions.
///
/// # Errors
///
/// Out of memory, as which 2^64 words count too.
pub fn digests(
    alloc: Global,
    roots: &[Vec<Word<'_>>],
    units: &[Unit<'_>],
) -> Result<Digests, AllocError>
    ensures funcs { IfOk result (λ found. map (λ d. d.0) found.funcs ≡ function_digests (map (λ words. plain_words words.items) roots.now) (map external_of units.now)) }
    ensures outside { IfOk result (λ found. found.outside.0 ≡ outside_digest (map (λ words. plain_words words.items) roots.now) (map external_of units.now)) }
{
    let mut funcs = ListBuf::of(Vec::new(alloc));
    let mut bodies = Vec::new(alloc);
    push_units(alloc, roots, &mut funcs, &mut bodies, units)?;
    let outside = outside(alloc, roots, bodies.as_slice())?;
    Ok(Digests { funcs, outside })
}

/// Puts the digests of functions at the end of the digests, and where their bodies stand at the end of the bodies.
fn push_units(
    alloc: Global,
    roots: &[Vec<Word<'_>>],
    funcs: &mut ListBuf<Digest>,
    bodies: &mut Vec<At>,
    units: &[Unit<'_>],
) -> Result<(), AllocError>
    ensures funcs { OnOk result (map (λ d. d.0) funcs.new ≡ map (λ d. d.0) funcs.old ++ function_digests (map (λ words. plain_words words.items) roots.now) (map external_of units.now)) }
    ensures bodies { OnOk result (bodies.new.items ≡ bodies.old.items ++ body_places (map external_of units.now)) }
{
    let mut units = units;
    while let [unit, others @ ..] = units {
        push_unit(alloc, roots, funcs, bodies, unit)?;
        units = others;
    }
    Ok(())
}

/// Puts the digest of a function at the end of the digests, and where its body stands at the end of the bodies.
fn push_unit(
    alloc: Global,
    roots: &[Vec<Word<'_>>],
    funcs: &mut ListBuf<Digest>,
    bodies: &mut Vec<At>,
    unit: &Unit<'_>,
) -> Result<(), AllocError>
    ensures funcs { OnOk result (map (λ d. d.0) funcs.new ≡ map (λ d. d.0) funcs.old ++ function_digests (map (λ words. plain_words words.items) roots.now) (external_of unit.now ∷ [])) }
    ensures bodies { OnOk result (bodies.new.items ≡ bodies.old.items ++ body_places (external_of unit.now ∷ [])) }
{
    match unit {
        Unit::Function(function) => {
            push_digest(alloc, roots, funcs, function.at)?;
            bodies.push(function.body_at)?;
            Ok(())
        }
        Unit::Decl(..) => Ok(()),
    }
}
