//! The stacks where a part of a run begins.

ghost use Rattle.std.specs.Prelude.{◌≡◌, [], OnOk, IfErr};
ghost use Rattle.p10_core.specs.Views.{plain_function};
ghost use Rattle.p10_interp.specs.private.Views.{tasks_in};
ghost use Rattle.p10_interp.specs.private.OpenCalls.{calls_deep, calls_in};
ghost use Rattle.p10_interp.specs.private.Parts.{StandsAt, StandsIn};

use crate::base::{Base, Depth};
use crate::broken::Broken;
use crate::calls::Calls;
use crate::entering::deeper;
use crate::stacks::Stacks;
use p10_core::Func;

/// Nothing is left of what was before.
pub fn clear(stacks: &mut Stacks<'_>)
    ensures tasks { tasks_in stacks.new.tasks ≡ [] }
    ensures operands { stacks.new.operands ≡ [] }
    ensures calls { calls_in stacks.new.calls ≡ [] }
    ensures arguments { stacks.new.arguments ≡ [] }
{
    stacks.tasks.clear();
    stacks.operands.clear();
    clear_calls(&mut stacks.calls);
    stacks.arguments.clear();
}

/// No call is open.
fn clear_calls(calls: &mut Calls<'_>)
    ensures { calls_in calls.new ≡ [] }
{
    calls.bases.clear();
    calls.held.clear();
    calls.marks.clear();
}

/// The innermost call is one of a function, called where no other call is open.
pub fn stand_in<'p>(function: &'p Func<'p>, calls: &mut Calls<'p>) -> Result<(), Broken>
    ensures ok { OnOk result (StandsIn (plain_function function.now) (calls_in calls.old) (calls_in calls.new)) }
    ensures err { IfErr result (λ e. e ≡ Broken.Memory) }
{
    let nothing = Depth { calls: 0, bytes: 0 };
    match deeper(function, nothing) {
        Some(depth) => set_base(function, depth, calls),
        None => Err(Broken::Memory),
    }
}

/// The innermost call is one of a function, at a depth.
fn set_base<'p>(function: &'p Func<'p>, depth: Depth, calls: &mut Calls<'p>) -> Result<(), Broken>
    ensures ok { OnOk result (StandsAt (plain_function function.now) (calls_deep depth) (calls_in calls.old) (calls_in calls.new)) }
    ensures err { IfErr result (λ e. e ≡ Broken.Memory) }
{
    let Some(base) = calls.bases.pop() else {
        return Err(Broken::Memory);
    };
    let base = Base {
        function,
        calls: depth.calls,
        bytes: depth.bytes,
        held: base.held,
        marks: base.marks,
    };
    match calls.bases.push(base) {
        Ok(()) => Ok(()),
        Err(_) => Err(Broken::Memory),
    }
}
