//! The code of programs. Each of these functions fails only where memory runs out.

ghost use Rattle.std.specs.Prelude.{◌≡◌, map, IfOk};
ghost use Rattle.p10_core.specs.Views.{plain_program, plain_function};
ghost use Rattle.p10_code.specs.ProgramCode.{functions_code, functions_entries, code_of, entries_of};
ghost use Rattle.p10_compile.specs.Views.{plain_op, plain_entry};

use crate::code::{joined, led, none, op, past};
use crate::functions::{entry_of, function_code, no_span};
use crate::operations::{Action, Entry, Op, Operand};
use p10_core::{Func, Program};
use std::alloc::{AllocError, Global};

/// The code of a program: its operations, and the table of its functions.
#[derive(Drop)]
pub struct Code<'p> {
    pub ops: Vec<Op<'p>>,
    pub entries: Vec<Entry>,
}

/// Compiles a program: its code begins with a call of `main`. It fails only where memory runs out.
pub fn compile<'p>(alloc: Global, program: &'p Program<'_>) -> Result<Code<'p>, AllocError>
    ensures ops { IfOk result (λ code. map plain_op code.ops.items ≡ code_of (plain_program program.now)) }
    ensures entries { IfOk result (λ code. map plain_entry code.entries.items ≡ entries_of (plain_program program.now)) }
{
    let Code { ops, entries } = functions_code(alloc, program, program.functions.as_slice(), 2)?;
    let over = op(0, no_span(), Action::Return(0, Some(Operand::Slot(0))));
    let call = op(
        1,
        no_span(),
        Action::Call(0, program.main, program.main, 0, 0),
    );
    Ok(Code {
        ops: led(alloc, call, led(alloc, over, ops)?)?,
        entries,
    })
}

/// The code of functions one after the other, from a place on.
fn functions_code<'p, 's>(
    alloc: Global,
    program: &'p Program<'s>,
    functions: &'p [Func<'s>],
    at: usize,
) -> Result<Code<'p>, AllocError>
    ensures ops { IfOk result (λ code. map plain_op code.ops.items ≡ functions_code (plain_program program.now) at (map plain_function functions.now)) }
    ensures entries { IfOk result (λ code. map plain_entry code.entries.items ≡ functions_entries (plain_program program.now) at (map plain_function functions.now)) }
{
    let mut ops = none(alloc);
    let mut entries = Vec::new(alloc);
    for f in functions {
        let next = past(at, ops.as_slice())?;
        entries.push(entry_of(f, next)?)?;
        let more = function_code(alloc, program, f, next)?;
        ops = joined(ops, more)?;
    }
    Ok(Code { ops, entries })
}
