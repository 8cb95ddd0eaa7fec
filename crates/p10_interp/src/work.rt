//! What the machine has to do, and what it holds meanwhile.

use p10_base::Span;
use p10_core::{CType, Item, Library, LogicOp, Place, Stmt, Value};
use p10_int::{BinOp, Stop, UnOp};
use p10_meaning::{Ptr, Scalar};

/// Why the machine stops.
#[derive(Clone, Copy, Debug, PartialEq, Eq)]
pub enum Halt {
    /// An `assert` failed.
    Failed(Span),
    /// An undefined operation, at the span of a tree.
    Undefined(Stop, Span),
    /// No step is left.
    Spent,
    /// Out of memory.
    Memory,
}

/// How execution goes on after a statement.
#[derive(Clone, Copy, Debug)]
pub enum Flow {
    Normal,
    Broken,
    Continued,
    Returned(Option<Scalar>),
}

/// Where the acts of the machine pause.
#[derive(Clone, Copy, Debug)]
pub enum Pause {
    /// All work is done.
    Over(Flow),
    /// The outside is needed before the next act.
    Held(Flow),
}

/// What a place is.
#[derive(Clone, Copy, Debug)]
pub enum Target {
    /// A frame variable, by its number.
    Variable(u32),
    Sensor,
    /// A place in an object.
    Element(Ptr),
}

/// What an evaluated tree gave, or the place that a tree stands for.
#[derive(Clone, Copy, Debug)]
pub enum Operand {
    Evaluated(Option<Scalar>),
    Located(Target),
}

/// What is done at once with the operands on top.
#[derive(Clone, Copy)]
pub enum Operation<'p> {
    UseValue(Span),
    DropValue,
    GiveNone,
    ConvertTo(&'p CType),
    ApplyUnary(UnOp, &'p CType, Span),
    ApplyBinary(BinOp, &'p CType, Span),
    TakeTruth,
    CallLibrary(Library, Span, &'p CType, usize),
    ReadAt(Span, &'p CType),
    ReadNone,
    TakeAddress,
    DecayAt(Span, &'p CType),
    IndexAt(Span),
    MemberAt(Span, &'p CType, u32, &'p CType),
    DereferenceAt(Span),
    WriteAt(Span),
    ReadOld(Span, &'p CType, &'p CType),
    WriteNew(BinOp, Span, &'p CType, Span, &'p CType),
    CopyBetween(Span, Span, &'p CType),
    FillFrom(Span, &'p CType, &'p [Item]),
    AssertAt(Span),
    GiveBack,
}

/// What is to be done with a value.
#[derive(Clone, Copy)]
pub enum ValueStep {
    /// It is evaluated and used.
    Evaluate,
    /// It is evaluated.
    Discard,
    /// It is the right operand of `&&` or `||`, whose left one is on top.
    Decide(LogicOp),
    /// It is a `?:`, whose condition is on top.
    Choose,
}

/// What is to be done with a statement.
#[derive(Clone, Copy)]
pub enum StatementStep {
    Execute,
    /// The condition of the `if` is on top.
    Branch,
    /// The first clause of the loop was executed.
    BeginLoop,
    TestLoop,
    /// The test of the loop is on top.
    EnterTurn,
    /// The body of the loop was executed.
    EndTurn,
    /// The value of the `switch` is on top.
    Select,
}

/// A piece of work.
#[derive(Clone, Copy)]
pub enum Work<'p> {
    Value(ValueStep, &'p Value),
    LocatePlace(&'p Place),
    EvaluateValues(&'p [Value]),
    EvaluateItems(&'p [Item]),
    CallFunction(u32, usize),
    Statement(StatementStep, &'p Stmt),
    ExecuteStatements(&'p [Stmt]),
    CopyInto(Span, &'p CType, &'p Place),
    EndBlock,
    EndSwitch,
    EndCall,
    Operate(Operation<'p>),
}
