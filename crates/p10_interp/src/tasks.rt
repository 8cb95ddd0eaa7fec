//! The stack of work and the stack of operands.

ghost use Rattle.std.specs.Prelude.{◌≡◌, ◌∷◌, [], OnOk, IfErr, MatchOption, option_map};
ghost use Rattle.p10_interp.specs.private.Views.{task_of, operand_of, target_of};
ghost use Rattle.p10_interp.specs.private.Operations.{first_result, first_value, first_target, below};

use crate::work::{Halt, Operand, StatementStep, Target, Work};
use p10_meaning::Scalar;
use std::alloc::{AllocError, Global};
use std::marker::Model;

/// The work that is left, the next piece on top.
#[derive(Drop)]
pub struct Tasks<'p> {
    items: Vec<Work<'p>>,
}

impl<'p> Tasks<'p> {
    ghost use Rattle.p10_interp.specs.private.Views.{tasks_in};

    /// No work.
    pub fn new(alloc: Global) -> Tasks<'p>
        ensures { tasks_in result ≡ [] }
    {
        Tasks {
            items: Vec::new(alloc),
        }
    }

    /// Takes all work away.
    pub fn clear(&mut self)
        ensures { tasks_in self.new ≡ [] }
    {
        self.items.clear();
    }

    /// Puts a piece of work on top.
    pub fn push(&mut self, work: Work<'p>) -> Result<(), Halt>
        ensures ok { OnOk result (tasks_in self.new ≡ task_of work.entry ∷ tasks_in self.old) }
        ensures err { IfErr result (λ e. e ≡ Halt.Memory) }
    {
        match self.items.push(work) {
            Ok(()) => Ok(()),
            Err(_) => Err(Halt::Memory),
        }
    }

    /// Whether no work is left.
    pub fn is_empty(&self) -> bool {
        self.items.is_empty()
    }

    /// Whether the piece on top may be one that takes no step.
    pub fn may_settle(&self) -> bool {
        match self.items.last() {
            Some(Work::EndBlock) => true,
            Some(Work::ExecuteStatements(statements)) => statements.is_empty(),
            Some(Work::Statement(step, _)) => {
                matches!(step, StatementStep::EndTurn | StatementStep::Execute)
            }
            _ => false,
        }
    }

    /// Takes the piece on top.
    pub fn pop(&mut self) -> Option<Work<'p>>
        ensures { MatchOption result (tasks_in self.old ≡ []) (λ work. tasks_in self.old ≡ task_of work ∷ tasks_in self.new) }
    {
        self.items.pop()
    }

    /// Makes room for `count` further pieces of work.
    pub fn reserve(&mut self, count: u64) -> Result<(), AllocError>
        ensures { tasks_in self.new ≡ tasks_in self.old }
    {
        self.items.reserve(count as usize)
    }

    /// The piece on top.
    pub fn top(&self) -> Option<Work<'p>> {
        self.items.last().copied()
    }
}

/// Operands, the last on top.
#[derive(Drop)]
pub struct Operands {
    items: Vec<Operand>,
}

impl Model for Operands {
    ghost use Rattle.std.specs.Prelude.{List};
    ghost use Rattle.p10_interp.specs.private.Tasks.{Operand};
    ghost use Rattle.p10_interp.specs.private.Views.{operands_of};

    ghost Value = { List Operand };

    ghost view = { λ t. operands_of t.items.items };
}

impl Operands {
    /// No operands.
    pub fn new(alloc: Global) -> Operands
        ensures { result ≡ [] }
    {
        Operands {
            items: Vec::new(alloc),
        }
    }

    /// Takes all operands away.
    pub fn clear(&mut self)
        ensures { self.new ≡ [] }
    {
        self.items.clear();
    }

    /// Makes room for `count` further operands.
    pub fn reserve(&mut self, count: u64) -> Result<(), AllocError>
        ensures { self.new ≡ self.old }
    {
        self.items.reserve(count as usize)
    }

    /// Puts an operand on top.
    pub fn push(&mut self, operand: Operand) -> Result<(), Halt>
        ensures ok { OnOk result (self.new ≡ operand_of operand ∷ self.old) }
        ensures err { IfErr result (λ e. e ≡ Halt.Memory) }
    {
        match self.items.push(operand) {
            Ok(()) => Ok(()),
            Err(_) => Err(Halt::Memory),
        }
    }

    /// Takes the operand on top.
    fn pop(&mut self) -> Option<Operand>
        ensures found { MatchOption result (self.old ≡ []) (λ operand. self.old ≡ operand_of operand ∷ self.new) }
        ensures rest { self.new ≡ below self.old }
    {
        self.items.pop()
    }

    /// Takes what the tree on top gave; none where a place is on top, or nothing.
    pub fn pop_result(&mut self) -> Option<Option<Scalar>>
        ensures found { result ≡ first_result self.old }
        ensures rest { self.new ≡ below self.old }
    {
        match self.pop() {
            Some(operand) => result_in(operand),
            None => None,
        }
    }

    /// Takes the value on top; none where no value is on top.
    pub fn pop_value(&mut self) -> Option<Scalar>
        ensures found { result ≡ first_value self.old }
        ensures rest { self.new ≡ below self.old }
    {
        match self.pop() {
            Some(operand) => value_in(operand),
            None => None,
        }
    }

    /// Takes the place on top; none where no place is on top.
    pub fn pop_target(&mut self) -> Option<Target>
        ensures found { option_map target_of result ≡ first_target self.old }
        ensures rest { self.new ≡ below self.old }
    {
        match self.pop() {
            Some(operand) => target_in(operand),
            None => None,
        }
    }
}

/// What an evaluated tree gave.
fn result_in(operand: Operand) -> Option<Option<Scalar>>
    ensures { result ≡ first_result (operand_of operand ∷ []) }
{
    match operand {
        Operand::Evaluated(given) => Some(given),
        Operand::Located(_) => None,
    }
}

/// The value that an evaluated tree gave.
fn value_in(operand: Operand) -> Option<Scalar>
    ensures { result ≡ first_value (operand_of operand ∷ []) }
{
    match operand {
        Operand::Evaluated(given) => given,
        Operand::Located(_) => None,
    }
}

/// The place that a tree stands for.
fn target_in(operand: Operand) -> Option<Target>
    ensures { option_map target_of result ≡ first_target (operand_of operand ∷ []) }
{
    match operand {
        Operand::Evaluated(_) => None,
        Operand::Located(target) => Some(target),
    }
}
