//! Bytes from a source and to a sink, in pieces.

ghost use Rattle.std.specs.Prelude.{◌≡◌, ◌≤◌, ◌<◌, ◌++◌, ◌∷◌, ◌⊎◌, ℕ, [], Some, neg_ℤ, pos, IfOk, IfErr, OnOk, OnErr};
ghost use Rattle.std.specs.List.{All};
ghost use Rattle.std.specs.Io.KnownBytes.{Appends};
ghost use Rattle.p10_world.specs.Faults.{Rose};
ghost use Rattle.p10_world.specs.Sink.{TakesFront};
ghost use Rattle.p10_core.specs.Typed.{PlainProgram};
ghost use Rattle.p10_meaning.specs.States.{State};
ghost use Rattle.p10_meaning.specs.Statements.{normal};
ghost use Rattle.p10_meaning.specs.declared.pointers.Scalar.TheVariants.{Int};
ghost use Rattle.p10_interp.specs.private.Tasks.{operate, evaluated};
ghost use Rattle.p10_interp.specs.private.OpenCalls.{calls_in};
ghost use Rattle.p10_interp.specs.private.Views.{flow_of, operation_of, task_of, tasks_in};
ghost use Rattle.p10_interp.specs.private.Weights.{weights};
ghost use Rattle.p10_interp.specs.private.Machines.{rig_of};
ghost use Rattle.p10_interp.specs.private.Resuming.{resume, proceed};
ghost use Rattle.p10_interp.specs.private.Trading.{TakesPiece, Consumed, breaks_by};

use crate::broken::Broken;
use crate::holding::PIECE;
use crate::queue::Queue;
use crate::stacks::Stacks;
use crate::tasks::Operands;
use crate::work::{Flow, Halt, Operand, Operation, Work};
use p10_core::Library;
use p10_meaning::Scalar;
use p10_world::{Sink, Source};

/// Puts all output that waits.
pub fn put_waiting<O: Sink>(waiting: &mut Vec<u8>, out: &mut O) -> Result<(), Broken>
    ensures ok { OnOk result ((waiting.new.items ≡ []) × Appends (O.taken out.old) (O.taken out.new) waiting.old.items) }
    ensures err { IfErr result (λ e. (e ≡ Broken.Write) × Rose (O.faults out.old) (O.faults out.new)) }
    ensures front { OnErr result (TakesFront (O.taken out.old) (O.taken out.new) waiting.old.items) }
    ensures sink { O.faults out.old ≤ O.faults out.new }
{
    match out.put(waiting.as_slice()) {
        Ok(()) => {
            waiting.clear();
            Ok(())
        }
        Err(_) => Err(Broken::Write),
    }
}

/// Asks a source for a piece, which is put before what is pending; answers whether the source has ended.
pub fn take_piece<I: Source>(pending: &mut Queue<u8>, input: &mut I) -> Result<bool, Broken>
    ensures ok { IfOk result (λ ended. TakesPiece (I.left input.old) (I.left input.new) pending.old pending.new ended) }
    ensures err { OnErr result (Consumed (I.left input.old) (I.left input.new)) }
    ensures read { IfErr result (λ e. (e ≡ Broken.Memory) ⊎ ((e ≡ Broken.Read) × Rose (I.faults input.old) (I.faults input.new))) }
    ensures source { I.faults input.old ≤ I.faults input.new }
{
    let mut piece = [0u8; PIECE];
    match input.piece(&mut piece) {
        Ok(count) => {
            let bytes = &piece[..count];
            are_bytes(bytes);
            put_before(bytes, pending)?;
            Ok(count == 0)
        }
        Err(_) => Err(Broken::Read),
    }
}

/// Each byte is a number below 256.
fn are_bytes(bytes: &[u8])
    ensures { All (λ byte. byte < 256) bytes.now }
{}

/// Puts bytes before those that are pending.
fn put_before(bytes: &[u8], pending: &mut Queue<u8>) -> Result<(), Broken>
    ensures ok { OnOk result (pending.new ≡ bytes.now ++ pending.old) }
    ensures err { IfErr result (λ e. e ≡ Broken.Memory) }
{
    let mut left = bytes.len();
    'bytes: while left > 0 {
        left -= 1;
        if pending.put_first(bytes[left]).is_err() {
            return Err(Broken::Memory);
        }
    }
    Ok(())
}

/// Where execution goes on, the next act gives -1, if it takes a byte.
pub fn give_end_in(flow: Flow, stacks: &mut Stacks<'_>) -> Result<(), Broken>
    ensures ok { OnOk result ((p : PlainProgram) (n : ℕ) (w : State) → w.input ≡ [] → proceed p n (rig_of (flow_of flow) stacks.old) w ≡ proceed p n (rig_of (flow_of flow) stacks.new) w) }
    ensures work { OnOk result (weights (tasks_in stacks.new.tasks) ≤ weights (tasks_in stacks.old.tasks)) }
    ensures err { IfErr result (λ e. e ≡ Broken.Memory) }
{
    match flow {
        Flow::Normal => give_end(stacks),
        Flow::Broken => Ok(()),
        Flow::Continued => Ok(()),
        Flow::Returned(_) => Ok(()),
    }
}

/// The next act takes a byte where the input has ended: it gives -1 (C99 7.19.7.6). Where it takes none, nothing is done.
fn give_end(stacks: &mut Stacks<'_>) -> Result<(), Broken>
    ensures ok { OnOk result ((p : PlainProgram) (n : ℕ) (w : State) → w.input ≡ [] → proceed p n (rig_of normal stacks.old) w ≡ proceed p n (rig_of normal stacks.new) w) }
    ensures work { OnOk result (weights (tasks_in stacks.new.tasks) ≤ weights (tasks_in stacks.old.tasks)) }
    ensures err { IfErr result (λ e. e ≡ Broken.Memory) }
{
    match stacks.tasks.pop() {
        Some(work) => give_for(work, stacks),
        None => Err(Broken::Memory),
    }
}

/// The byte that a piece of work takes at the end of the input; any other piece is put back.
fn give_for<'p>(work: Work<'p>, stacks: &mut Stacks<'p>) -> Result<(), Broken>
    ensures ok { OnOk result ((p : PlainProgram) (n : ℕ) (w : State) → w.input ≡ [] → resume p n (task_of work.entry ∷ tasks_in stacks.old.tasks) stacks.old.operands (calls_in stacks.old.calls) w ≡ proceed p n (rig_of normal stacks.new) w) }
    ensures work { OnOk result (weights (tasks_in stacks.new.tasks) ≤ weights (task_of work.entry ∷ tasks_in stacks.old.tasks)) }
    ensures err { IfErr result (λ e. e ≡ Broken.Memory) }
{
    match work {
        Work::Operate(operation) => give_or_put_on(operation, stacks),
        _ => put_on(work, stacks),
    }
}

/// The byte that an operation takes at the end of the input; any other operation is put back.
fn give_or_put_on<'p>(operation: Operation<'p>, stacks: &mut Stacks<'p>) -> Result<(), Broken>
    ensures ok { OnOk result ((p : PlainProgram) (n : ℕ) (w : State) → w.input ≡ [] → resume p n (operate (operation_of operation.entry) ∷ tasks_in stacks.old.tasks) stacks.old.operands (calls_in stacks.old.calls) w ≡ proceed p n (rig_of normal stacks.new) w) }
    ensures work { OnOk result (weights (tasks_in stacks.new.tasks) ≤ weights (operate (operation_of operation.entry) ∷ tasks_in stacks.old.tasks)) }
    ensures err { IfErr result (λ e. e ≡ Broken.Memory) }
{
    match operation {
        Operation::CallLibrary(function, _, _, count) => {
            if function == Library::Getchar && count == 0 {
                put_end(&mut stacks.operands)
            } else {
                put_on(Work::Operate(operation), stacks)
            }
        }
        _ => put_on(Work::Operate(operation), stacks),
    }
}

/// -1 is put on top.
fn put_end(operands: &mut Operands) -> Result<(), Broken>
    ensures ok { OnOk result (operands.new ≡ evaluated (Some (Int (neg_ℤ (pos 1)))) ∷ operands.old) }
    ensures err { IfErr result (λ e. e ≡ Broken.Memory) }
{
    match operands.push(Operand::Evaluated(Some(Scalar::Int(-1)))) {
        Ok(()) => Ok(()),
        Err(_) => Err(Broken::Memory),
    }
}

/// Puts a piece of work on top.
pub fn put_on<'p>(work: Work<'p>, stacks: &mut Stacks<'p>) -> Result<(), Broken>
    ensures ok { OnOk result (rig_of normal stacks.new ≡ record { flow = normal; tasks = task_of work.entry ∷ tasks_in stacks.old.tasks; operands = stacks.old.operands; calls = calls_in stacks.old.calls }) }
    ensures err { IfErr result (λ e. e ≡ Broken.Memory) }
{
    match stacks.tasks.push(work) {
        Ok(()) => Ok(()),
        Err(_) => Err(Broken::Memory),
    }
}

/// How a part of a run breaks off where an act halts.
pub fn broken_by(halt: Halt) -> Broken
    ensures { result ≡ breaks_by halt }
{
    match halt {
        Halt::Failed(span) => Broken::Failed(span),
        Halt::Undefined(stop, span) => Broken::Undefined(stop, span),
        Halt::Spent => Broken::Spent,
        Halt::Memory => Broken::Memory,
    }
}
