//! Stacks of places: vectors whose last element is the top.

ghost use Rattle.std.specs.Prelude.{◌≡◌, ◌∷◌, OnOk, slice_get, drop};
ghost use Rattle.p10_graph.specs.private.Searching.{stack_of};

use std::alloc::AllocError;

/// The last place of a stack.
pub fn top(stack: &Vec<usize>) -> Option<usize>
    ensures { result ≡ slice_get (stack_of stack.now.items) 0 }
{
    stack.last().copied()
}

/// Puts a place on a stack.
pub fn push(stack: &mut Vec<usize>, place: usize) -> Result<(), AllocError>
    ensures { OnOk result (stack_of stack.new.items ≡ place ∷ stack_of stack.old.items) }
{
    stack.push(place)?;
    Ok(())
}

/// Takes the last place off a stack.
pub fn pop(stack: &mut Vec<usize>)
    ensures { stack_of stack.new.items ≡ drop 1 (stack_of stack.old.items) }
{
    let _ = stack.pop();
}
