//! The act for places.

ghost use Rattle.std.specs.Prelude.{◌≡◌, ◌∷◌, List};
ghost use Rattle.p10_core.specs.Views.{plain_program, plain_types, plain_place};
ghost use Rattle.p10_core.specs.WholePrograms.{AreWholeStructures};
ghost use Rattle.p10_meaning.specs.Statements.{normal};
ghost use Rattle.p10_interp.specs.private.Tasks.{Open};
ghost use Rattle.p10_interp.specs.private.Views.{Answers, tasks_in};
ghost use Rattle.p10_interp.specs.private.OpenCalls.{calls_in};
ghost use Rattle.p10_interp.specs.private.Machines.{Around, state_of, rig_of};
ghost use Rattle.p10_interp.specs.private.Acts.{sought};

use crate::outside::Outside;
use crate::places::{global_target, literal_target, variable_target};
use crate::stacks::Stacks;
use crate::steps::{go_on_with_three, go_on_with_two};
use crate::work::{Halt, Operand, Operation, ValueStep, Work};
use p10_core::{Place, PlaceForm, Program};

/// Looks for a place: its value on top of the operands is what it is.
pub fn seek<'p>(
    p: &'p Program<'p>,
    place: &'p Place,
    stacks: &mut Stacks<'p>,
    outside: &mut Outside,
) -> Result<(), Halt>
    requires structures { AreWholeStructures (plain_types p.now.types) }
    ensures { (io : Around) (f : Open) (calls : List Open) → calls_in stacks.old.calls ≡ f ∷ calls → Answers (sought (plain_program p.now) (plain_place place.now) (tasks_in stacks.old.tasks) stacks.old.operands f calls (state_of outside.old io)) result (rig_of normal stacks.new) (state_of outside.new io) }
{
    let span = place.at.span;
    match &place.form {
        PlaceForm::Var(number) => {
            let held = stacks.calls.held(*number);
            let target = variable_target(p, &place.ty, *number, held, span)?;
            stacks.operands.push(Operand::Located(target))
        }
        PlaceForm::Global(number) => {
            let target = global_target(p, &place.ty, *number, span)?;
            stacks.operands.push(Operand::Located(target))
        }
        PlaceForm::Literal(number, _) => {
            let target = literal_target(p, &place.ty, *number, span)?;
            stacks.operands.push(Operand::Located(target))
        }
        PlaceForm::Index(array, index) => {
            let first = Work::Value(ValueStep::Evaluate, array);
            let second = Work::Value(ValueStep::Evaluate, index);
            let after = Work::Operate(Operation::IndexAt(span));
            go_on_with_three(first, second, after, stacks, outside)
        }
        PlaceForm::Member(whole, number) => {
            let after = Operation::MemberAt(span, &whole.ty, *number, &place.ty);
            let first = Work::LocatePlace(whole);
            go_on_with_two(first, Work::Operate(after), stacks, outside)
        }
        PlaceForm::Deref(pointer) => {
            let first = Work::Value(ValueStep::Evaluate, pointer);
            let after = Work::Operate(Operation::DereferenceAt(span));
            go_on_with_two(first, after, stacks, outside)
        }
    }
}
