//! Bodies of functions (C99 6.9.1).

ghost use Rattle.std.specs.Prelude.{◌≡◌, ◌++◌, ◌∷◌, [], Some, map, IfOk};
ghost use Rattle.p10_syn.specs.Trees.{statement_row};
ghost use Rattle.p10_syn.specs.BuiltStatements.{statement_of};
ghost use Rattle.p10_core.specs.Views.{plain_variable, plain_statement, plain_function as plain_func};
ghost use Rattle.p10_elabx.specs.First.{only_first};
ghost use Rattle.p10_elabd.specs.Views.{plain_standing, plain_parameter, plain_function};
ghost use Rattle.p10_heads.specs.PlainHeads.{plain_heads};
ghost use Rattle.p10_elabs.specs.Marks.{marks_noted};
ghost use Rattle.p10_elabs.specs.FrameViews.{plain_frame};
ghost use Rattle.p10_elabs.specs.LocalViews.{plain_local, plain_items};
ghost use Rattle.p10_elabs.specs.ItemViews.{plain_block};
ghost use Rattle.p10_elab.specs.Outer.{body_begun};
ghost use Rattle.p10_elab.specs.KnownViews.{plain_known};
ghost use Rattle.p10_elab.specs.private.BodyHeads.{plain_body_head};
ghost use Rattle.p10_elab.specs.private.Bodies.{frame_for, items_of_body, marks_where, made_of, body_ended, body_by};

use crate::body_parameters::parameter_variables;
use crate::body_scopes::open_body;
use crate::known::{Known, number_of};
use crate::root_end::note_names;
use crate::setting::Setting;
use p10_base::ListBuf;
use p10_core::{CType, Func, Stmt, Variable};
use p10_elabd::{DeclaredFunction, DeclaredParameter, Standing};
use p10_elabs::{
    Frame, Items, Kind, Local, Round, TakenSet, addresses_taken, items_done, marks_noted, no_items,
};
use p10_linkage::is_main_name;
use p10_syn::{Identifier, Stmt as Statement};
use std::alloc::{AllocError, Global};
use std::mem;

/// What is known of a function before its body.
#[derive(Drop)]
pub(crate) struct BodyHead<'s> {
    pub name: Identifier<'s>,
    /// Its number among all functions.
    pub number: u32,
    /// Whether it is internal to its root.
    pub internal: bool,
    /// How many parameters it has.
    pub parameters: u32,
    /// The type of its result.
    pub result: CType,
}

/// Goes over the body of a function, after its declaration.
pub(crate) fn body_done<'s>(
    setting: &Setting<'_, 's>,
    known: &mut Known<'s>,
    head: BodyHead<'s>,
    function: DeclaredFunction<'s>,
    body: &[Statement<'s>],
) -> Result<(), AllocError>
    ensures { IfOk result (λ _. plain_known known.new ≡ body_by only_first (plain_heads setting.now.heads.now) (plain_body_head head.entry) (plain_function function.entry) (statement_row (map statement_of body.now)) (plain_known known.old)) }
{
    let standing = mem::replace(&mut known.standing, Standing::new(setting.alloc));
    let done = body_items(setting, standing, &head, function, body)?;
    end_body(known, head, done)?;
    Ok(())
}

/// The items of a body, and what the body has then.
#[derive(Drop)]
pub(crate) struct BodyItems<'s> {
    pub items: Items,
    pub local: Local<'s>,
}

/// Goes over the items of a body, in the block of its parameters.
fn body_items<'s>(
    setting: &Setting<'_, 's>,
    standing: Standing<'s>,
    head: &BodyHead<'s>,
    function: DeclaredFunction<'s>,
    body: &[Statement<'s>],
) -> Result<BodyItems<'s>, AllocError>
    ensures { IfOk result (λ b. plain_block b.items (plain_local b.local) ≡ items_of_body only_first (plain_heads setting.now.heads.now) (plain_body_head head.now) (plain_function function.entry) (statement_row (map statement_of body.now)) (plain_standing standing.entry)) }
{
    let mut standing = standing;
    note_names(&function.parameters, &mut standing);
    let frame = frame_for(setting, head, &function.parameters, body)?;
    let mut local = body_begun(&frame, function, standing)?;
    let in_main = is_main_name(head.name.text);
    let items = items_done(
        body,
        &frame,
        in_main,
        Round::nothing(),
        &mut local,
        no_items(setting.alloc),
    )?;
    Ok(BodyItems { items, local })
}

/// What doesn't change in a function.
fn frame_for<'h, 's>(
    setting: &Setting<'h, 's>,
    head: &BodyHead<'s>,
    parameters: &[DeclaredParameter<'s>],
    body: &[Statement<'s>],
) -> Result<Frame<'h, 's>, AllocError>
    ensures { IfOk result (λ frame. plain_frame frame ≡ frame_for (plain_heads setting.now.heads.now) (plain_body_head head.now) (map plain_parameter parameters.now) (statement_row (map statement_of body.now))) }
{
    let numbers = addresses_taken(setting.alloc, parameters, body)?;
    let taken = TakenSet::of(setting.alloc, numbers)?;
    let result = head.result.copy(setting.alloc)?;
    Ok(Frame {
        alloc: setting.alloc,
        heads: setting.heads,
        taken,
        number: head.number,
        result,
    })
}

/// What a body has where it begins: the parameters are its first variables, and its names begin with theirs.
fn body_begun<'s>(
    frame: &Frame<'_, 's>,
    function: DeclaredFunction<'s>,
    standing: Standing<'s>,
) -> Result<Local<'s>, AllocError>
    ensures { IfOk result (λ l. plain_local l ≡ body_begun (plain_frame frame.now) (plain_function function.entry) (plain_standing standing.entry)) }
{
    let DeclaredFunction {
        parameters,
        names,
        tags,
        ..
    } = function;
    let variables = parameter_variables(frame, &standing, &parameters)?;
    let count = number_of(parameters.len())?;
    let mut standing = standing;
    open_body(frame, &mut standing.scope, names, tags)?;
    Ok(Local {
        standing,
        count,
        variables,
        objects: Vec::new(frame.alloc),
        loops: 0,
    })
}

/// Ends a body: its block is closed, and the function and its objects are put after those before.
fn end_body<'s>(
    known: &mut Known<'s>,
    head: BodyHead<'s>,
    done: BodyItems<'s>,
) -> Result<(), AllocError>
    ensures { IfOk result (λ _. plain_known known.new ≡ body_ended only_first (plain_body_head head.entry) (plain_block done.entry.items (plain_local done.entry.local)) (plain_known known.old)) }
{
    let BodyItems { items, local } = done;
    let Items { made, kinds } = items;
    let Local {
        mut standing,
        variables,
        mut objects,
        ..
    } = local;
    note_marks(is_main_name(head.name.text), &kinds, &mut standing);
    standing.scope.leave();
    known.standing = standing;
    put_function(&mut known.functions, head, variables, made)?;
    known.block_objects.append(&mut objects)?;
    Ok(())
}

/// Notes the pragmas that may not stand where they do, where the function is `main`.
fn note_marks(in_main: bool, kinds: &[Kind], standing: &mut Standing<'_>)
    ensures { plain_standing standing.new ≡ marks_where only_first in_main kinds.now (plain_standing standing.old) }
{
    if in_main {
        marks_noted(kinds, standing);
    }
}

/// Puts a function after others, unless its body is refused.
fn put_function<'s>(
    functions: &mut Vec<Func<'s>>,
    head: BodyHead<'s>,
    variables: Vec<Variable<'s>>,
    made: Option<Vec<Stmt>>,
) -> Result<(), AllocError>
    ensures { IfOk result (λ _. map plain_func functions.new.items ≡ map plain_func functions.old.items ++ made_of (plain_body_head head.entry) (map plain_variable variables.entry.items) (plain_items made)) }
{
    match made {
        None => Ok(()),
        Some(items) => {
            let function = function_of(head, variables, items);
            functions.push(function)?;
            Ok(())
        }
    }
}

/// A function with its body.
fn function_of<'s>(head: BodyHead<'s>, variables: Vec<Variable<'s>>, items: Vec<Stmt>) -> Func<'s>
    ensures { plain_func result ∷ [] ≡ made_of (plain_body_head head.entry) (map plain_variable variables.entry.items) (Some (map plain_statement items.items)) }
{
    Func {
        name: head.name.text,
        span: head.name.at.span,
        is_static: head.internal,
        params: head.parameters,
        result: head.result,
        vars: ListBuf::of(variables),
        body: ListBuf::of(items),
    }
}
