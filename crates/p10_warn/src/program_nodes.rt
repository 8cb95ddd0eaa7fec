//! The nodes of a program.

ghost use Rattle.std.specs.Prelude.{◌≡◌, ◌++◌, IfOk, map};
ghost use Rattle.p10_core.specs.Views.{plain_function, plain_object};
ghost use Rattle.p10_core.specs.Walks.{left_in};
ghost use Rattle.p10_warn.specs.AllNodes.{nodes_in_bodies, nodes_in_initializers};

use p10_core::{Func, Global as StaticObject, Nodes};
use std::alloc::{AllocError, Global};

/// The nodes of functions and then of the initialisers of objects, in order. It takes memory linear in how many statements and items
/// stand outermost in them.
pub(crate) fn nodes_of_program<'p, 's>(
    alloc: Global,
    functions: &'p [Func<'s>],
    objects: &'p [StaticObject<'s>],
) -> Result<Nodes<'p>, AllocError>
    ensures { IfOk result (λ w. left_in w ≡ nodes_in_bodies (map plain_function functions.now) ++ nodes_in_initializers (map plain_object objects.now)) }
{
    let mut nodes = Nodes::new(alloc);
    put_objects(&mut nodes, objects)?;
    put_functions(&mut nodes, functions)?;
    Ok(nodes)
}

/// Puts the nodes of functions before those that are left.
fn put_functions<'p, 's>(nodes: &mut Nodes<'p>, functions: &'p [Func<'s>]) -> Result<(), AllocError>
    ensures { IfOk result (λ _. left_in nodes.new ≡ nodes_in_bodies (map plain_function functions.now) ++ left_in nodes.old) }
{
    let mut left = functions.len();
    while left > 0 {
        left -= 1;
        nodes.put_statements(functions[left].body.as_slice())?;
    }
    Ok(())
}

/// Puts the nodes of the initialisers of objects before those that are left.
fn put_objects<'p, 's>(
    nodes: &mut Nodes<'p>,
    objects: &'p [StaticObject<'s>],
) -> Result<(), AllocError>
    ensures { IfOk result (λ _. left_in nodes.new ≡ nodes_in_initializers (map plain_object objects.now) ++ left_in nodes.old) }
{
    let mut left = objects.len();
    while left > 0 {
        left -= 1;
        nodes.put_initializer(&objects[left].init)?;
    }
    Ok(())
}
