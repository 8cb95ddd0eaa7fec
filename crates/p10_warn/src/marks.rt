//! Marks for numbers.

ghost use Rattle.std.specs.Prelude.{◌≡◌, ◌<◌, ◌||◌, ℕ, nat_eq, length, IfOk};
ghost use Rattle.p10_core.specs.WholePrograms.{is_among};
ghost use Rattle.p10_warn.specs.private.Marked.{is_marked};

use std::alloc::{AllocError, Global};

/// Makes room for the mark of a number.
fn make_room(number: usize, marks: &mut Vec<bool>) -> Result<(), AllocError>
    ensures same { IfOk result (λ done. (n : ℕ) → is_marked marks.new.items n ≡ is_marked marks.old.items n) }
    ensures room { IfOk result (λ done. number < length marks.new.items) }
{
    while marks.len() <= number {
        marks.push(false)?;
    }
    Ok(())
}

/// Marks a number.
fn mark(number: u32, marks: &mut Vec<bool>) -> Result<(), AllocError>
    ensures { IfOk result (λ done. (n : ℕ) → is_marked marks.new.items n ≡ (is_marked marks.old.items n || nat_eq n number)) }
{
    make_room(number as usize, marks)?;
    marks[number as usize] = true;
    Ok(())
}

/// Marks for all numbers of a list.
pub(crate) fn marks_of(alloc: Global, list: &[u32]) -> Result<Vec<bool>, AllocError>
    ensures { IfOk result (λ marks. (n : ℕ) → is_marked marks.items n ≡ is_among n list.now) }
{
    let mut marks = Vec::new(alloc);
    for number in list {
        mark(*number, &mut marks)?;
    }
    Ok(marks)
}
