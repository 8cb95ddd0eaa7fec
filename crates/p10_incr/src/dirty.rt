//! The functions that an edit touches, and those that call one.

ghost use Rattle.std.specs.Prelude.{◌≡◌, ◌≤◌, IfOk, true, length, map, slice_set};
ghost use Rattle.p10_core.specs.Views.{plain_program};
ghost use Rattle.p10_core.specs.WholePrograms.{numbers_from};
ghost use Rattle.p10_calls.specs.CallSites.{call_sites};
ghost use Rattle.p10_incr.specs.Edits.{touches_all, is_touched, dirty};
ghost use Rattle.p10_incr.specs.private.Entries.{known_edit};
ghost use Rattle.p10_incr.specs.private.Marks.{marked_or, with_callers, numbers_marked};

use crate::edit::{Edit, is_touched, touches_all};
use p10_calls::CallSite;
use p10_core::Program;
use std::alloc::{AllocError, Global};

/// The numbers of the dirty functions of a program, of which the calls are given, in program order. 2^32 functions count as want of memory.
pub(crate) fn dirty(
    alloc: Global,
    program: &Program<'_>,
    edit: Edit<'_>,
    sites: &[CallSite],
) -> Result<Vec<u32>, AllocError>
    requires { sites.now ≡ call_sites (plain_program program.now) }
    ensures { IfOk result (λ numbers. numbers.items ≡ dirty (plain_program program.now) (known_edit edit.entry)) }
{
    let count = program.functions.as_slice().len();
    if count > u32::MAX as usize {
        return Err(AllocError);
    }
    let all = touches_all(edit);
    let touched = all_touched(alloc, all, edit, count)?;
    let marks = with_callers(alloc, all, edit, touched.as_slice(), sites)?;
    numbers_marked(alloc, marks.as_slice())
}

/// Whether each of so many functions is touched.
fn all_touched(
    alloc: Global,
    all: bool,
    edit: Edit<'_>,
    count: usize,
) -> Result<Vec<bool>, AllocError>
    requires { all ≡ touches_all (known_edit edit) }
    ensures { IfOk result (λ marks. marks.items ≡ map (is_touched (known_edit edit.entry)) (numbers_from 0 count)) }
{
    let mut marks = Vec::new(alloc);
    for number in 0..count {
        marks.push(is_touched(all, edit, number))?;
    }
    Ok(marks)
}

/// These marks, and one for each caller of a function that is touched.
fn with_callers(
    alloc: Global,
    all: bool,
    edit: Edit<'_>,
    touched: &[bool],
    sites: &[CallSite],
) -> Result<Vec<bool>, AllocError>
    requires { all ≡ touches_all (known_edit edit) }
    ensures { IfOk result (λ marks. marks.items ≡ with_callers (λ n. marked_or touched.now n (is_touched (known_edit edit.entry) n)) sites.now touched.now) }
{
    let mut marks = Vec::from_slice(alloc, touched)?;
    let mut sites = sites;
    while let [site, others @ ..] = sites {
        if touched_at(all, edit, touched, site.call.function as usize) {
            mark(&mut marks, site.caller as usize);
        }
        sites = others;
    }
    Ok(marks)
}

/// Whether the function with a number is touched, by the mark that it has, if it has one.
fn touched_at(all: bool, edit: Edit<'_>, touched: &[bool], number: usize) -> bool
    requires { all ≡ touches_all (known_edit edit) }
    ensures { result ≡ marked_or touched.now number (is_touched (known_edit edit.entry) number) }
{
    match touched.get(number) {
        Some(marked) => *marked,
        None => is_touched(all, edit, number),
    }
}

/// Sets the mark with a number, if there is one.
fn mark(marks: &mut Vec<bool>, number: usize)
    ensures { marks.new.items ≡ slice_set marks.old.items number true }
{
    if number < marks.len() {
        marks[number] = true;
    }
}

/// The numbers of the marks that are set.
fn numbers_marked(alloc: Global, marks: &[bool]) -> Result<Vec<u32>, AllocError>
    requires { length marks.now ≤ 4294967295 }
    ensures { IfOk result (λ numbers. numbers.items ≡ numbers_marked 0 marks.now) }
{
    let mut numbers = Vec::new(alloc);
    for number in 0..marks.len() {
        if marks[number] {
            numbers.push(number as u32)?;
        }
    }
    Ok(numbers)
}
