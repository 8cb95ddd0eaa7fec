//! Objects and parameters that hide outer ones.

ghost use Rattle.std.specs.Prelude.{◌≡◌, ◌++◌, ◌∷◌, [], IfOk, OnOk, map, take, option_map, flat_map, bytes_eq};
ghost use Rattle.std.specs.List.{list_any};
ghost use Rattle.p10_core.specs.Views.{plain_object, plain_variable, plain_function, plain_statement, plain_statements};
ghost use Rattle.p10_warn.specs.Scopes.{name_declared, scope_after, scoped_declaration, names_after, declarations_in, declarations_among, declarations_of_parameters, declarations_of_function};
ghost use Rattle.p10_warn.specs.private.Branches.{declarations_in_branch};
ghost use Rattle.p10_warn.specs.private.Contexts.{names_at, objects_known, file_known, variables_known, listed_by};
ghost use Rattle.p10_warn.specs.private.ScopeNames.{names_in};
ghost use Rattle.p10_warn.specs.private.Listing.{declaration_violations};

use crate::context::Context;
use crate::file_scope::FileScope;
use crate::listing::push_if;
use p10_base::{Span, Violation};
use p10_bindings::Bindings;
use p10_core::{Func, Stmt, StmtForm, Variable};
use std::alloc::{AllocError, Global};

/// The names that a function declared and that are in scope.
type Names<'s> = Bindings<'s, bool>;

/// Puts the violations in the function with a number after the others.
pub(crate) fn push_hidden<'s>(
    alloc: Global,
    file: &FileScope<'_, 's>,
    number: usize,
    function: &Func<'s>,
    violations: &mut Vec<Violation>,
) -> Result<(), AllocError>
    ensures { IfOk result (λ _. violations.new.items ≡ violations.old.items ++ flat_map (declaration_violations (names_at file.now) number) (declarations_of_function (map plain_object file.now.objects.now) (plain_function function.now))) }
{
    let variables = function.vars.as_slice();
    let context = Context {
        file,
        variables,
        function: number,
    };
    let mut names = Names::new(alloc);
    let parameters = first_of(variables, function.params as usize);
    push_all(
        &context,
        parameters,
        function.body.as_slice(),
        &mut names,
        violations,
    )
}

/// Puts the violations by parameters and in a body after the others.
fn push_all<'s>(
    context: &Context<'_, 's>,
    parameters: &[Variable<'s>],
    body: &[Stmt],
    names: &mut Names<'s>,
    violations: &mut Vec<Violation>,
) -> Result<(), AllocError>
    ensures { IfOk result (λ _. violations.new.items ≡ violations.old.items ++ listed_by context.now (declarations_of_parameters (names_in names.old) (map plain_variable parameters.now) ++ declarations_among (objects_known context.now) (variables_known context.now) (names_in names.old ++ map (λ v. v.name) (map plain_variable parameters.now)) (plain_statements body.now))) }
{
    push_parameters(context, parameters, names, violations)?;
    push_among(body, context, names, violations)
}

/// The first variables, `count` of them, or all where there are fewer.
fn first_of<'w, 's>(variables: &'w [Variable<'s>], count: usize) -> &'w [Variable<'s>]
    ensures { result.now ≡ take count variables.now }
{
    if count < variables.len() {
        &variables[..count]
    } else {
        variables
    }
}

/// Declares parameters, and puts the violations by them after the others.
fn push_parameters<'s>(
    context: &Context<'_, 's>,
    parameters: &[Variable<'s>],
    names: &mut Names<'s>,
    violations: &mut Vec<Violation>,
) -> Result<(), AllocError>
    ensures names { IfOk result (λ _. names_in names.new ≡ names_in names.old ++ map (λ v. v.name) (map plain_variable parameters.now)) }
    ensures violations { IfOk result (λ _. violations.new.items ≡ violations.old.items ++ listed_by context.now (declarations_of_parameters (names_in names.old) (map plain_variable parameters.now))) }
{
    for parameter in parameters {
        push_name(context, parameter.name, parameter.span, names, violations)?;
    }
    Ok(())
}

/// Declares a name, and puts the violation by it after the others, if it hides one.
fn push_name<'s>(
    context: &Context<'_, 's>,
    name: &'s [u8],
    span: Span,
    names: &mut Names<'s>,
    violations: &mut Vec<Violation>,
) -> Result<(), AllocError>
    ensures names { IfOk result (λ _. names_in names.new ≡ names_in names.old ++ name.now ∷ []) }
    ensures violations { IfOk result (λ _. violations.new.items ≡ violations.old.items ++ declaration_violations (file_known context.now) context.now.function (record { declares = record { name = name.now; span = span }; around = names_in names.old })) }
{
    let hides = is_declared(names, name) || context.file.has(name, context.function);
    push_if(5, hides, span, violations)?;
    names.declare(name, true)
}

/// Whether a name is in scope.
fn is_declared(names: &Names<'_>, name: &[u8]) -> bool
    ensures { result ≡ list_any (λ x. bytes_eq x name.now) (names_in names.now) }
{
    match names.find(name) {
        Some(_) => true,
        None => false,
    }
}

/// Puts the violations in statements after the others; what they declare is in scope afterwards.
#[cycle(scopes)]
fn push_among<'s>(
    all: &[Stmt],
    context: &Context<'_, 's>,
    names: &mut Names<'s>,
    violations: &mut Vec<Violation>,
) -> Result<(), AllocError>
    ensures names { IfOk result (λ _. names_in names.new ≡ names_after (objects_known context.now) (variables_known context.now) (names_in names.old) (plain_statements all.now)) }
    ensures violations { IfOk result (λ _. violations.new.items ≡ violations.old.items ++ listed_by context.now (declarations_among (objects_known context.now) (variables_known context.now) (names_in names.old) (plain_statements all.now))) }
{
    for statement in all {
        push_in(statement, context, names, violations)?;
    }
    Ok(())
}

/// Puts the violations in a statement after the others; what it declares is in scope afterwards.
#[cycle(scopes)]
fn push_in<'s>(
    statement: &Stmt,
    context: &Context<'_, 's>,
    names: &mut Names<'s>,
    violations: &mut Vec<Violation>,
) -> Result<(), AllocError>
    ensures names { IfOk result (λ _. names_in names.new ≡ scope_after (names_in names.old) (name_declared (objects_known context.now) (variables_known context.now) (plain_statement statement.now))) }
    ensures violations { IfOk result (λ _. violations.new.items ≡ violations.old.items ++ listed_by context.now (declarations_in (objects_known context.now) (variables_known context.now) (names_in names.old) (plain_statement statement.now))) }
{
    match &statement.form {
        StmtForm::Declare(_, _) | StmtForm::Static(_) => push_declared(
            statement, context, names, violations,
        ),
        StmtForm::Block(items) => push_block(items.as_slice(), context, names, violations),
        StmtForm::If(_, then, other) => {
            push_part(then, context, names, violations)?;
            push_branch(other, context, names, violations)
        }
        StmtForm::Loop(_, first, _, _, body) => {
            let count = names.count();
            push_among(first.as_slice(), context, names, violations)?;
            push_part(body, context, names, violations)?;
            names.keep(count);
            Ok(())
        }
        StmtForm::Switch(_, _, _, body) => push_part(body, context, names, violations),
        StmtForm::Set(_, _)
        | StmtForm::Update(_, _, _, _, _)
        | StmtForm::Copy(_, _)
        | StmtForm::Value(_)
        | StmtForm::Assert(_, _)
        | StmtForm::Break
        | StmtForm::Continue
        | StmtForm::Return(_, _)
        | StmtForm::Empty
        | StmtForm::Mark(_) => Ok(()),
    }
}

/// Declares what a statement declares, and puts the violation by it after the others, if it hides something.
fn push_declared<'s>(
    statement: &Stmt,
    context: &Context<'_, 's>,
    names: &mut Names<'s>,
    violations: &mut Vec<Violation>,
) -> Result<(), AllocError>
    ensures names { IfOk result (λ _. names_in names.new ≡ scope_after (names_in names.old) (name_declared (objects_known context.now) (variables_known context.now) (plain_statement statement.now))) }
    ensures violations { IfOk result (λ _. violations.new.items ≡ violations.old.items ++ listed_by context.now (scoped_declaration (names_in names.old) (name_declared (objects_known context.now) (variables_known context.now) (plain_statement statement.now)))) }
{
    match context.name_declared(statement) {
        Some((name, span)) => push_name(context, name, span, names, violations),
        None => Ok(()),
    }
}

/// Puts the violations in a block after the others; what it declares is out of scope at its end.
#[cycle(scopes)]
fn push_block<'s>(
    items: &[Stmt],
    context: &Context<'_, 's>,
    names: &mut Names<'s>,
    violations: &mut Vec<Violation>,
) -> Result<(), AllocError>
    ensures names { IfOk result (λ _. names_in names.new ≡ names_in names.old) }
    ensures violations { IfOk result (λ _. violations.new.items ≡ violations.old.items ++ listed_by context.now (declarations_among (objects_known context.now) (variables_known context.now) (names_in names.old) (plain_statements items.now))) }
{
    let count = names.count();
    push_among(items, context, names, violations)?;
    names.keep(count);
    Ok(())
}

/// Puts the violations in a part of a statement after the others; what it declares is out of scope at its end.
#[cycle(scopes)]
fn push_part<'s>(
    part: &Stmt,
    context: &Context<'_, 's>,
    names: &mut Names<'s>,
    violations: &mut Vec<Violation>,
) -> Result<(), AllocError>
    ensures names { IfOk result (λ _. names_in names.new ≡ names_in names.old) }
    ensures violations { IfOk result (λ _. violations.new.items ≡ violations.old.items ++ listed_by context.now (declarations_in (objects_known context.now) (variables_known context.now) (names_in names.old) (plain_statement part.now))) }
{
    let count = names.count();
    push_in(part, context, names, violations)?;
    names.keep(count);
    Ok(())
}

/// Puts the violations in the second branch of an `if` after the others, if there is one.
#[cycle(scopes)]
fn push_branch<'s>(
    branch: &Option<Box<Stmt>>,
    context: &Context<'_, 's>,
    names: &mut Names<'s>,
    violations: &mut Vec<Violation>,
) -> Result<(), AllocError>
    ensures names { IfOk result (λ _. names_in names.new ≡ names_in names.old) }
    ensures violations { IfOk result (λ _. violations.new.items ≡ violations.old.items ++ listed_by context.now (declarations_in_branch (objects_known context.now) (variables_known context.now) (names_in names.old) (option_map (λ b. plain_statement b.value) branch.now))) }
{
    match branch {
        Some(otherwise) => push_part(otherwise, context, names, violations),
        None => Ok(()),
    }
}
