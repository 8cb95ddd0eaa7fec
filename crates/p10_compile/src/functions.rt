//! The code of functions. Each of these functions fails only where memory runs out.

ghost use Rattle.std.specs.Prelude.{◌≡◌, map, IfOk};
ghost use Rattle.p10_core.specs.Views.{plain_program, plain_function};
ghost use Rattle.p10_code.specs.ProgramCode.{no_span, site_of, function_exits, no_return, function_code, entry_of};
ghost use Rattle.p10_compile.specs.Views.{plain_op, plain_entry, plain_exits, plain_site};

use crate::code::{ended, led, op};
use crate::counts::place_after;
use crate::exits::{Exits, has_objects, one_more};
use crate::needs::statements_need;
use crate::operations::{Action, Entry, Op};
use crate::site::Site;
use p10_base::Span;
use p10_core::{Func, Program};
use std::alloc::{AllocError, Global};

/// The span of an operation that has no tree.
pub fn no_span() -> Span
    ensures { result ≡ no_span }
{
    Span {
        file: 0,
        start: 0,
        end: 0,
    }
}

/// Where the trees of a function stand.
pub fn site_of<'p, 's>(alloc: Global, program: &'p Program<'s>, f: &'p Func<'s>) -> Site<'p, 's>
    ensures { plain_site result ≡ site_of (plain_program program.now) (plain_function f.now) }
{
    Site {
        alloc,
        program,
        variables: f.vars.as_slice(),
    }
}

/// The exits of a function's body: a stray `break` or `continue` ends it.
fn function_exits(f: &Func<'_>, at: usize) -> Result<Exits, AllocError>
    ensures { IfOk result (λ exits. plain_exits exits ≡ function_exits (plain_function f.now) at) }
{
    Ok(Exits {
        over: at,
        over_close: 0,
        again: at,
        again_close: 0,
        all_close: one_more(has_objects(f.vars.as_slice()), 0)?,
    })
}

/// A function ends without a value.
fn no_return<'p>(f: &Func<'_>) -> Result<Op<'p>, AllocError>
    ensures { IfOk result (λ o. plain_op o ≡ no_return (plain_function f.now)) }
{
    let close = one_more(has_objects(f.vars.as_slice()), 0)?;
    Ok(op(0, no_span(), Action::Return(close, None)))
}

/// The operations of a function.
pub fn function_code<'p, 's>(
    alloc: Global,
    program: &'p Program<'s>,
    f: &'p Func<'s>,
    at: usize,
) -> Result<Vec<Op<'p>>, AllocError>
    ensures { IfOk result (λ code. map plain_op code.items ≡ function_code (plain_program program.now) (plain_function f.now) at) }
{
    let site = site_of(alloc, program, f);
    let exits = function_exits(f, at)?;
    let body = site.statements_code(f.body.as_slice(), exits, place_after(at, 1)?)?;
    led(alloc, no_return(f)?, ended(body, no_return(f)?)?)
}

/// Where the code of a function begins, and what its frame needs.
pub fn entry_of(f: &Func<'_>, at: usize) -> Result<Entry, AllocError>
    ensures { IfOk result (λ e. plain_entry e ≡ entry_of (plain_function f.now) at) }
{
    Ok(Entry {
        at: place_after(at, 1)?,
        room: statements_need(f.body.as_slice())?,
        tracked: has_objects(f.vars.as_slice()),
    })
}
