//! The arguments of a call.

ghost use Rattle.std.specs.Prelude.{[]};
ghost use Rattle.p10_interp.specs.private.Operations.{taken_before};
ghost use Rattle.p10_interp.specs.private.Entering.{Takes};

use crate::queue::Queue;
use crate::tasks::Operands;
use crate::work::Halt;
use p10_meaning::Scalar;

/// Takes `count` values from the top. The last was on top, and the first is the next argument.
pub fn take_arguments(
    count: usize,
    operands: &mut Operands,
    arguments: &mut Queue<Scalar>,
) -> Result<(), Halt>
    ensures { Takes (taken_before count [] operands.old) result arguments.new operands.new }
{
    arguments.clear();
    for _ in 0..count {
        let Some(x) = operands.pop_value() else {
            return Err(Halt::Spent);
        };
        arguments.put_first(x)?;
    }
    Ok(())
}
