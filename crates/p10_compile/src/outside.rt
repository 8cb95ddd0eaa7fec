//! The code of constant expressions outside functions.

ghost use Rattle.std.specs.Prelude.{◌≡◌, ◌+◌, [], IfOk, map};
ghost use Rattle.p10_core.specs.Views.{plain_program, plain_variable, plain_value};
ghost use Rattle.p10_code.specs.ValueCode.{height};
ghost use Rattle.p10_code.specs.ConstantCode.{constant_code};
ghost use Rattle.p10_compile.specs.Views.{plain_op, plain_site};

use crate::code::{ended, op};
use crate::counts::slot_after;
use crate::functions::no_span;
use crate::heights::height;
use crate::operations::{Action, Op, Operand};
use crate::site::Site;
use crate::start::Start;
use p10_core::{Program, Value, Variable};
use std::alloc::{AllocError, Global};

/// The code of a constant expression, and how many slots it needs.
#[derive(Drop)]
pub struct ConstantCode<'p> {
    pub ops: Vec<Op<'p>>,
    pub room: u32,
}

/// Compiles a constant expression outside functions, whose code stands from a place on: its value goes to the first slot, and the run
/// is over with it. It fails only where memory runs out.
pub fn compile_constant<'p, 's>(
    alloc: Global,
    program: &'p Program<'s>,
    value: &'p Value,
    at: usize,
) -> Result<ConstantCode<'p>, AllocError>
    ensures ops { IfOk result (λ c. map plain_op c.ops.items ≡ constant_code (plain_program program.now) at (plain_value value.now)) }
    ensures room { IfOk result (λ c. c.room ≡ 1 + height (plain_value value.now)) }
{
    let site = site_outside(alloc, program);
    let code = site.into_code(value, Start::at_slot(0, 0, at)?)?;
    let over = op(0, no_span(), Action::Return(0, Some(Operand::Slot(0))));
    Ok(ConstantCode {
        ops: ended(code, over)?,
        room: slot_after(1, height(value)?)?,
    })
}

/// Where trees outside functions stand: among no variables.
fn site_outside<'p, 's>(alloc: Global, program: &'p Program<'s>) -> Site<'p, 's>
    ensures { plain_site result ≡ record { program = plain_program program.now; variables = [] } }
{
    Site {
        alloc,
        program,
        variables: no_variables(),
    }
}

/// No variables.
fn no_variables<'p, 's>() -> &'p [Variable<'s>]
    ensures { map plain_variable result.now ≡ [] }
{
    &[]
}
