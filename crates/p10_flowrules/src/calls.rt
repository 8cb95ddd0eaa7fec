//! Calls of any function, of the program or of the library.

ghost use Rattle.std.specs.Prelude.{◌≡◌, IfOk};
ghost use Rattle.p10_core.specs.Nodes.{nodes_of_statements};
ghost use Rattle.p10_core.specs.Views.{plain_form, plain_statements};
ghost use Rattle.p10_core.specs.Walks.{plain_node};
ghost use Rattle.p10_flowrules.specs.Allocating.{calls_memory, has_memory_call, is_memory_call};
ghost use Rattle.p10_flowrules.specs.AnyCalls.{call_made, call_of_form};

use p10_base::{At, Span};
use p10_core::{Library, Node, Nodes, Stmt, ValueForm, manages_memory};
use std::alloc::{AllocError, Global};

/// What a call calls.
#[derive(Clone, Copy, Debug)]
pub enum Called {
    /// A function of the program, by its number.
    Function(u32),
    Library(Library),
}

/// A call of a function of the program or of the library.
#[derive(Clone, Copy, Debug)]
pub struct AnyCall {
    /// Where the call stands.
    pub at: At,
    /// The span of the name in it.
    pub name: Span,
    pub called: Called,
}

/// The call that a node is, if it is one.
pub(crate) fn call_made(node: Node<'_>) -> Option<AnyCall>
    ensures { result ≡ call_made (plain_node node.entry) }
{
    match node {
        Node::Value(value) => call_of_form(value.at, &value.form),
        Node::Stmt(_) | Node::Place(_) => None,
    }
}

/// The call that a form of value is, if it is one.
fn call_of_form(at: At, form: &ValueForm) -> Option<AnyCall>
    ensures { result ≡ call_of_form at (plain_form form.now) }
{
    match form {
        ValueForm::Call(name, function, _) => Some(AnyCall {
            at,
            name: *name,
            called: Called::Function(*function),
        }),
        ValueForm::Builtin(name, function, _) => Some(AnyCall {
            at,
            name: *name,
            called: Called::Library(*function),
        }),
        ValueForm::Const(_)
        | ValueForm::Sense(_)
        | ValueForm::Read(_)
        | ValueForm::Addr(_)
        | ValueForm::Decay(_)
        | ValueForm::Convert(_)
        | ValueForm::Cast(_)
        | ValueForm::Unary(_, _)
        | ValueForm::Binary(_, _, _)
        | ValueForm::Logic(_, _, _)
        | ValueForm::Cond(_, _, _) => None,
    }
}

/// Whether statements have an allocation or a `free`.
pub(crate) fn has_memory_call(alloc: Global, body: &[Stmt]) -> Result<bool, AllocError>
    ensures { IfOk result (λ has. has ≡ has_memory_call (nodes_of_statements (plain_statements body.now))) }
{
    let mut nodes = Nodes::of_statements(alloc, body)?;
    while let Some(node) = nodes.next()? {
        if is_memory_call(call_made(node)) {
            return Ok(true);
        }
    }
    Ok(false)
}

/// Whether a call, if there is one, is of an allocation or `free`.
fn is_memory_call(call: Option<AnyCall>) -> bool
    ensures { result ≡ is_memory_call call }
{
    match call {
        Some(call) => calls_memory(call.called),
        None => false,
    }
}

/// Whether what is called is an allocation or `free`.
fn calls_memory(called: Called) -> bool
    ensures { result ≡ calls_memory called }
{
    match called {
        Called::Function(_) => false,
        Called::Library(function) => manages_memory(function),
    }
}
