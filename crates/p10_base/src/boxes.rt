//! Parts of trees in boxes. Where memory runs out they are dropped here, once for all kinds: each step of a proof writes out the type of
//! what it moves or drops, which is long for a tree.

ghost use Rattle.std.specs.Prelude.{◌≡◌, IfOk};

use std::alloc::{AllocError, Global};

/// A part of a tree in a box.
///
/// # Errors
///
/// Out of memory.
pub fn boxed<T: Drop>(alloc: Global, part: T) -> Result<Box<T>, AllocError>
    ensures { IfOk result (λ b. b.value ≡ part) }
{
    Ok(Box::new(alloc, part)?)
}

/// Two parts of a tree in boxes.
///
/// # Errors
///
/// Out of memory.
pub fn boxed_pair<T: Drop, U: Drop>(
    alloc: Global,
    first: T,
    second: U,
) -> Result<(Box<T>, Box<U>), AllocError>
    ensures first { IfOk result (λ p. p.0.value ≡ first) }
    ensures second { IfOk result (λ p. p.1.value ≡ second) }
{
    let first = boxed(alloc, first)?;
    let second = boxed(alloc, second)?;
    Ok((first, second))
}

/// Three parts of a tree in boxes.
///
/// # Errors
///
/// Out of memory.
pub fn boxed_triple<T: Drop>(
    alloc: Global,
    first: T,
    second: T,
    third: T,
) -> Result<(Box<T>, Box<T>, Box<T>), AllocError>
    ensures first { IfOk result (λ p. p.0.value ≡ first) }
    ensures second { IfOk result (λ p. p.1.value ≡ second) }
    ensures third { IfOk result (λ p. p.2.value ≡ third) }
{
    let first = boxed(alloc, first)?;
    let (second, third) = boxed_pair(alloc, second, third)?;
    Ok((first, second, third))
}
