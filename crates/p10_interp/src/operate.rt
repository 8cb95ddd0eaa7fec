//! The act for operations.

ghost use Rattle.std.specs.Prelude.{◌≡◌, ◌∷◌, List};
ghost use Rattle.p10_core.specs.Views.{plain_program, plain_types};
ghost use Rattle.p10_core.specs.Typed.{PlainProgram};
ghost use Rattle.p10_core.specs.WholePrograms.{AreWholeStructures};
ghost use Rattle.p10_meaning.specs.States.{State};
ghost use Rattle.p10_interp.specs.private.Tasks.{Open, operate, give_back};
ghost use Rattle.p10_interp.specs.private.Operations.{done_by};
ghost use Rattle.p10_interp.specs.private.Views.{Answers, left_with, operation_of, tasks_in};
ghost use Rattle.p10_interp.specs.private.OpenCalls.{calls_in};
ghost use Rattle.p10_interp.specs.private.Machines.{Around, state_of, Moves};
ghost use Rattle.p10_interp.specs.private.Acts.{act};

use crate::assignments::{Applied, read, read_old, write, write_new};
use crate::copying::copy;
use crate::filling::fill;
use crate::library::call_library;
use crate::members::member;
use crate::operations::{
    apply_binary_to, apply_unary_to, assert_value, convert, drop_value, give_none, read_none,
    take_address, take_truth, use_value,
};
use crate::outside::Outside;
use crate::pointing::{decay, dereference, index};
use crate::stacks::Stacks;
use crate::statements::normally;
use crate::work::{Flow, Halt, Operation};
use p10_core::Program;

/// Does an operation on the operands that are there. `return` of a value leads back.
pub fn operate<'p>(
    p: &'p Program<'p>,
    operation: Operation<'p>,
    stacks: &mut Stacks<'p>,
    outside: &mut Outside,
) -> Result<Flow, Halt>
    requires structures { AreWholeStructures (plain_types p.now.types) }
    ensures { (io : Around) (f : Open) (calls : List Open) → calls_in stacks.old.calls ≡ f ∷ calls → Moves (act (plain_program p.now) (operate (operation_of operation.entry)) (tasks_in stacks.old.tasks) stacks.old.operands (f ∷ calls) (state_of outside.old io)) result stacks.new (state_of outside.new io) }
{
    match operation {
        Operation::GiveBack => give_back(stacks),
        _ => normally(operate_on(p, operation, stacks, outside)),
    }
}

/// `return` of the value on top (C99 6.8.6.4).
fn give_back(stacks: &mut Stacks<'_>) -> Result<Flow, Halt>
    ensures { (p : PlainProgram) (w : State) (f : Open) (calls : List Open) → calls_in stacks.old.calls ≡ f ∷ calls → Moves (act p (operate give_back) (tasks_in stacks.old.tasks) stacks.old.operands (f ∷ calls) w) result stacks.new w }
{
    match stacks.operands.pop_value() {
        Some(x) => Ok(Flow::Returned(Some(x))),
        None => Err(Halt::Spent),
    }
}

/// Does an operation after which execution goes on with the next work.
fn operate_on<'p>(
    p: &'p Program<'p>,
    operation: Operation<'p>,
    stacks: &mut Stacks<'p>,
    outside: &mut Outside,
) -> Result<(), Halt>
    requires structures { AreWholeStructures (plain_types p.now.types) }
    ensures done { (io : Around) (f : Open) (calls : List Open) → calls_in stacks.old.calls ≡ f ∷ calls → Answers (done_by (plain_program p.now) (operation_of operation.entry) stacks.old.operands (f ∷ calls) (state_of outside.old io)) result (left_with stacks.new.operands (calls_in stacks.new.calls)) (state_of outside.new io) }
    ensures tasks { tasks_in stacks.new.tasks ≡ tasks_in stacks.old.tasks }
{
    match operation {
        Operation::UseValue(span) => use_value(span, &mut stacks.operands),
        Operation::DropValue => drop_value(&mut stacks.operands),
        Operation::GiveNone => give_none(&mut stacks.operands),
        Operation::ConvertTo(t) => convert(t, &mut stacks.operands),
        Operation::ApplyUnary(op, t, span) => apply_unary_to(op, t, span, &mut stacks.operands),
        Operation::ApplyBinary(op, t, span) => {
            apply_binary_to(op, t, span, &mut stacks.operands, outside)
        }
        Operation::TakeTruth => take_truth(&mut stacks.operands),
        Operation::ReadNone => read_none(&mut stacks.operands),
        Operation::TakeAddress => take_address(&mut stacks.operands),
        Operation::AssertAt(span) => assert_value(span, &mut stacks.operands),
        _ => operate_at(p, operation, stacks, outside),
    }
}

/// Does an operation on places.
fn operate_at<'p>(
    p: &'p Program<'p>,
    operation: Operation<'p>,
    stacks: &mut Stacks<'p>,
    outside: &mut Outside,
) -> Result<(), Halt>
    requires structures { AreWholeStructures (plain_types p.now.types) }
    ensures done { (io : Around) (f : Open) (calls : List Open) → calls_in stacks.old.calls ≡ f ∷ calls → Answers (done_by (plain_program p.now) (operation_of operation.entry) stacks.old.operands (f ∷ calls) (state_of outside.old io)) result (left_with stacks.new.operands (calls_in stacks.new.calls)) (state_of outside.new io) }
    ensures tasks { tasks_in stacks.new.tasks ≡ tasks_in stacks.old.tasks }
{
    match operation {
        Operation::ReadAt(span, t) => read(span, t, stacks, outside),
        Operation::DecayAt(span, t) => decay(p, span, t, &mut stacks.operands, outside),
        Operation::IndexAt(span) => index(span, &mut stacks.operands, outside),
        Operation::DereferenceAt(span) => dereference(span, &mut stacks.operands, outside),
        Operation::WriteAt(span) => write(span, stacks, outside),
        Operation::ReadOld(span, t, converted) => read_old(span, t, converted, stacks, outside),
        Operation::WriteNew(op, at, converted, span, t) => {
            let applied = Applied {
                op,
                t: converted,
                span: at,
            };
            write_new(applied, span, t, stacks, outside)
        }
        Operation::CopyBetween(to, from, t) => copy(p, to, from, t, stacks, outside),
        Operation::CallLibrary(function, span, t, count) => {
            call_library(p, (function, span, t), count, stacks, outside)
        }
        Operation::MemberAt(span, whole, number, t) => {
            member(p, span, (whole, number, t), &mut stacks.operands, outside)
        }
        Operation::FillFrom(span, t, items) => fill(p, span, t, items, stacks, outside),
        _ => Err(Halt::Memory),
    }
}
