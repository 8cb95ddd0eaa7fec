//! Limit M8: how large the objects, frames and string literals of a program may be.

ghost use Rattle.std.specs.Prelude.{◌≡◌, nat_le, sum, map, length};
ghost use Rattle.p10_core.specs.Views.{plain_variable, plain_function, plain_object, plain_literal, plain_program};
ghost use Rattle.p10_core.specs.WholePrograms.{frame_bytes};
ghost use Rattle.p10_program.specs.Limits.{is_over, is_too_large};

use p10_base::Limit;
use p10_core::{Func, Global, Literal, Program, Variable};

/// Whether something of a program is larger than limit M8 allows: an object of static lifetime, a function's frame, a string literal,
/// or all objects together. It takes time linear in how many there are, and no memory.
pub fn is_too_large(program: &Program<'_>) -> bool
    ensures { result ≡ is_too_large (plain_program program.now) }
{
    !fit_together(program.globals.as_slice(), Limit::MOST_STATIC_BYTES)
        || (has_large_object(program.globals.as_slice())
            || (has_large_frame(program.functions.as_slice())
                || has_large_literal(program.literals.as_slice())))
}

/// Whether objects have no more bytes together than a number.
#[tactic(auto, using(crate::proofs::Fits::fits_rest, crate::proofs::Fits::fits_not))]
fn fit_together(objects: &[Global<'_>], most: u64) -> bool
    ensures { result ≡ nat_le (sum (map (λ o. o.bytes) (map plain_object objects.now))) most }
{
    let mut left = most;
    for object in objects {
        if object.bytes > left {
            return false;
        }
        left -= object.bytes;
    }
    true
}

/// Whether variables have no more bytes together than a number.
#[tactic(auto, using(crate::proofs::Fits::fits_rest, crate::proofs::Fits::fits_not))]
fn fit_in_frame(variables: &[Variable<'_>], most: u64) -> bool
    ensures { result ≡ nat_le (sum (map (λ v. v.bytes) (map plain_variable variables.now))) most }
{
    let mut left = most;
    for variable in variables {
        if variable.bytes > left {
            return false;
        }
        left -= variable.bytes;
    }
    true
}

/// Whether an object is larger than limit M8 allows.
fn has_large_object(objects: &[Global<'_>]) -> bool
    ensures { result ≡ is_over (map (λ o. o.bytes) (map plain_object objects.now)) }
{
    for object in objects {
        if object.bytes > Limit::MOST_OBJECT_BYTES {
            return true;
        }
    }
    false
}

/// Whether the frame of a function is larger than limit M8 allows.
fn has_large_frame(functions: &[Func<'_>]) -> bool
    ensures { result ≡ is_over (map frame_bytes (map plain_function functions.now)) }
{
    for function in functions {
        if !fit_in_frame(function.vars.as_slice(), Limit::MOST_OBJECT_BYTES) {
            return true;
        }
    }
    false
}

/// Whether a string literal is larger than limit M8 allows.
fn has_large_literal(literals: &[Literal]) -> bool
    ensures { result ≡ is_over (map (λ l. length l.bytes) (map plain_literal literals.now)) }
{
    for literal in literals {
        if literal.bytes.as_slice().len() as u64 > Limit::MOST_OBJECT_BYTES {
            return true;
        }
    }
    false
}
