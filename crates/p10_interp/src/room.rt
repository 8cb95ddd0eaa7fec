//! How much room the trees of a function ask for on the stacks of a machine. These numbers say only how much is reserved, so no
//! clause speaks of them.

use p10_core::{
    Func, Initializer, Item, Place, PlaceForm, Stmt, StmtForm, Value, ValueForm, Written,
};

/// What a tree has on a stack itself at most, besides what one of its parts has there.
const OWN: u64 = 4;

/// The most pieces of work, operands or blocks that one call of a function has on a stack at once.
pub fn most_room(functions: &[Func<'_>]) -> u64 {
    let mut most = 0;
    for function in functions {
        most = most.max(statements_room(function.body.as_slice()));
    }
    most
}

/// The bytes of one frame of each function together.
pub fn frames_bytes(functions: &[Func<'_>]) -> u64 {
    let mut all: u64 = 0;
    for function in functions {
        all = all.saturating_add(frame_bytes(function));
    }
    all
}

/// The bytes of a function's frame.
fn frame_bytes(function: &Func<'_>) -> u64 {
    let mut all: u64 = 0;
    for variable in function.vars.as_slice() {
        all = all.saturating_add(variable.bytes);
    }
    all
}

/// Statements in order.
#[cycle(statements)]
fn statements_room(statements: &[Stmt]) -> u64 {
    let mut most = OWN;
    for statement in statements {
        most = most.max(statement_room(statement));
    }
    most
}

/// A statement.
#[cycle(statements)]
fn statement_room(statement: &Stmt) -> u64 {
    match &statement.form {
        StmtForm::Set(place, value) => with_own(place_room(place).max(value_room(value))),
        StmtForm::Update(_, _, _, place, value) => {
            with_own(place_room(place).max(value_room(value)))
        }
        StmtForm::Copy(target, source) => with_own(place_room(target).max(place_room(source))),
        StmtForm::Value(value) => with_own(value_room(value)),
        StmtForm::Assert(_, value) => with_own(value_room(value)),
        StmtForm::Declare(_, initializer) => with_own(initializer_room(initializer)),
        StmtForm::Block(all) => with_own(statements_room(all.as_slice())),
        StmtForm::If(test, first, second) => {
            let branches = statement_room(first).max(other_room(second));
            with_own(value_room(test).max(branches))
        }
        StmtForm::Loop(_, first, test, third, body) => {
            let clauses = statements_room(first.as_slice()).max(statements_room(third.as_slice()));
            with_own(given_room(test).max(clauses).max(statement_room(body)))
        }
        StmtForm::Switch(_, value, _, body) => {
            with_own(value_room(value).max(statement_room(body)))
        }
        StmtForm::Return(_, value) => with_own(given_room(value)),
        _ => OWN,
    }
}

/// The second branch of an `if`, if there is one.
#[cycle(statements)]
fn other_room(branch: &Option<Box<Stmt>>) -> u64 {
    match branch {
        Some(statement) => statement_room(statement),
        None => 0,
    }
}

/// An initialiser.
fn initializer_room(initializer: &Initializer) -> u64 {
    match initializer {
        Initializer::Absent => 0,
        Initializer::Single(value) => value_room(value),
        Initializer::Copied(place) => place_room(place),
        Initializer::Listed(_, items) => items_room(items.as_slice()),
    }
}

/// The items of an initialiser's list, all of whose values stand on a stack before they are written.
fn items_room(items: &[Item]) -> u64 {
    let mut most = 0;
    for item in items {
        most = most.max(item_room(item));
    }
    most.saturating_add(items.len() as u64)
}

/// An item of an initialiser's list.
fn item_room(item: &Item) -> u64 {
    match &item.written {
        Written::Scalar(value) => value_room(value),
        Written::Text(_) => 0,
    }
}

/// A value, if there is one.
fn given_room(value: &Option<Value>) -> u64 {
    match value {
        Some(value) => value_room(value),
        None => 0,
    }
}

/// A value.
#[cycle(values)]
fn value_room(value: &Value) -> u64 {
    match &value.form {
        ValueForm::Const(_) => OWN,
        ValueForm::Sense(_) => OWN,
        ValueForm::Read(place) => with_own(place_room(place)),
        ValueForm::Addr(place) => with_own(place_room(place)),
        ValueForm::Decay(place) => with_own(place_room(place)),
        ValueForm::Convert(part) => with_own(value_room(part)),
        ValueForm::Cast(part) => with_own(value_room(part)),
        ValueForm::Unary(_, part) => with_own(value_room(part)),
        ValueForm::Binary(_, left, right) => with_own(value_room(left).max(value_room(right))),
        ValueForm::Logic(_, left, right) => with_own(value_room(left).max(value_room(right))),
        ValueForm::Cond(test, first, second) => {
            with_own(
                value_room(test)
                    .max(value_room(first))
                    .max(value_room(second)),
            )
        }
        ValueForm::Call(_, _, arguments) => {
            let most = values_room(arguments.as_slice());
            with_own(most.saturating_add(arguments.as_slice().len() as u64))
        }
        ValueForm::Builtin(_, _, arguments) => {
            let most = values_room(arguments.as_slice());
            with_own(most.saturating_add(arguments.as_slice().len() as u64))
        }
    }
}

/// Values in order.
#[cycle(values)]
fn values_room(values: &[Value]) -> u64 {
    let mut most = 0;
    for value in values {
        most = most.max(value_room(value));
    }
    most
}

/// A place.
#[cycle(values)]
fn place_room(place: &Place) -> u64 {
    match &place.form {
        PlaceForm::Var(_) => OWN,
        PlaceForm::Global(_) => OWN,
        PlaceForm::Literal(_, _) => OWN,
        PlaceForm::Index(array, index) => with_own(value_room(array).max(value_room(index))),
        PlaceForm::Member(whole, _) => with_own(place_room(whole)),
        PlaceForm::Deref(pointer) => with_own(value_room(pointer)),
    }
}

/// A part's room, and what the tree has itself.
fn with_own(part: u64) -> u64 {
    part.saturating_add(OWN)
}
