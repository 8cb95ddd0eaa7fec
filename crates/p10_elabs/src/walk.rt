//! The walk over a function that finds the variables whose addresses are taken.

ghost use Rattle.std.specs.Prelude.{◌≡◌, ◌++◌, ◌∷◌, [], None, IfOk, map};
ghost use Rattle.p10_syn.specs.Trees.{statement_row};
ghost use Rattle.p10_bindings.specs.Bound.{bound_in};
ghost use Rattle.p10_syn.specs.Built.{identifier_of, expression_of};
ghost use Rattle.p10_syn.specs.BuiltStatements.{optional_expression, initial_of, init_declarator_of, declaration_of, statement_of};
ghost use Rattle.p10_elabd.specs.Views.{plain_parameter};
ghost use Rattle.p10_elabs.specs.Addresses.{with_others, walked, walked_all, walked_out, addresses_taken};
ghost use Rattle.p10_elabs.specs.private.Walking.{plain_walk};

use crate::constants::constants_of;
use crate::taken::{Names, take_in, take_in_initial, take_in_optional};
use p10_elabd::{DeclaredParameter, Storage, declares_function, name_in, storage_of};
use p10_syn::{Decl, Expr, Identifier, Init, InitDeclarator, Stmt};
use std::alloc::{AllocError, Global};

/// What a walk over a function knows.
#[derive(Drop)]
pub(crate) struct Walk<'s> {
    /// The names in scope.
    names: Names<'s>,
    /// How many variables there were.
    variables: u32,
    /// The variables whose addresses are taken.
    taken: Vec<u32>,
}

impl<'s> Walk<'s> {
    ghost use Rattle.std.specs.Prelude.{take, false};
    ghost use Rattle.p10_elabd.specs.Shapes.{name_in};
    ghost use Rattle.p10_elabd.specs.declared.site.Storage.TheVariants as storage_is;
    ghost use Rattle.p10_elabs.specs.Addresses.{taken_in, taken_in_optional, taken_in_initial, taking, walked_name, walked_parameter, walked_declarator, walked_declarators, walked_declaration, with_parameters};

    /// Before a function.
    fn new(alloc: Global) -> Walk<'s>
        ensures { plain_walk result ≡ record { names = []; variables = 0; taken = [] } }
    {
        Walk {
            names: Names::new(alloc),
            variables: 0,
            taken: Vec::new(alloc),
        }
    }

    /// Takes the addresses of an expression.
    fn take(&mut self, e: &Expr<'_>) -> Result<(), AllocError>
        ensures { IfOk result (λ done. plain_walk self.new ≡ taking (plain_walk self.old) (taken_in (plain_walk self.old).names (expression_of e.now))) }
    {
        take_in(e, &self.names, &mut self.taken)
    }

    /// Takes the addresses of an expression that may be left out.
    fn take_optional(&mut self, e: &Option<Expr<'_>>) -> Result<(), AllocError>
        ensures { IfOk result (λ done. plain_walk self.new ≡ taking (plain_walk self.old) (taken_in_optional (plain_walk self.old).names (optional_expression e.now))) }
    {
        take_in_optional(e, &self.names, &mut self.taken)
    }

    /// Takes the addresses of an initialiser that may be left out.
    fn take_initial(&mut self, i: &Option<Init<'_>>) -> Result<(), AllocError>
        ensures { IfOk result (λ done. plain_walk self.new ≡ taking (plain_walk self.old) (taken_in_initial (plain_walk self.old).names (initial_of i.now))) }
    {
        take_in_initial(i, &self.names, &mut self.taken)
    }

    /// Declares a name: without a storage word, and unless it is a function, it is the next variable.
    fn declare_name(
        &mut self,
        storage: Storage,
        function: bool,
        name: &'s [u8],
    ) -> Result<(), AllocError>
        ensures { IfOk result (λ done. plain_walk self.new ≡ walked_name (plain_walk self.old) storage function name.now) }
    {
        match storage {
            Storage::Unnamed => {
                if function {
                    self.names.declare(name, None)
                } else {
                    self.declare_variable(name)
                }
            }
            Storage::Typedef | Storage::Extern | Storage::Static => self.names.declare(name, None),
        }
    }

    /// Declares the next variable.
    fn declare_variable(&mut self, name: &'s [u8]) -> Result<(), AllocError>
        ensures { IfOk result (λ done. plain_walk self.new ≡ walked_name (plain_walk self.old) storage_is.Unnamed false name.now) }
    {
        if self.variables == u32::MAX {
            return Err(AllocError);
        }
        self.names.declare(name, Some(self.variables))?;
        self.variables += 1;
        Ok(())
    }

    /// Declares what a declarator declares.
    fn declare(&mut self, storage: Storage, d: &InitDeclarator<'s>) -> Result<(), AllocError>
        ensures { IfOk result (λ done. plain_walk self.new ≡ walked_declarator (plain_walk self.old) storage (init_declarator_of d.now) (name_in (init_declarator_of d.now).declarator)) }
    {
        match name_in(&d.declarator) {
            None => Ok(()),
            Some(name) => self.declare_name(storage, declares_function(&d.declarator), name.text),
        }
    }

    /// Declares what declarators declare, each in scope in its own initialiser.
    fn declare_all(
        &mut self,
        storage: Storage,
        all: &[InitDeclarator<'s>],
    ) -> Result<(), AllocError>
        ensures { IfOk result (λ done. plain_walk self.new ≡ walked_declarators (plain_walk self.old) storage (map init_declarator_of all.now)) }
    {
        for d in all {
            self.declare(storage, d)?;
            self.take_initial(&d.init)?;
        }
        Ok(())
    }

    /// A declaration in a block.
    fn declaration(&mut self, alloc: Global, d: &Decl<'s>) -> Result<(), AllocError>
        ensures { IfOk result (λ done. plain_walk self.new ≡ walked_declaration (plain_walk self.old) (declaration_of d.now)) }
    {
        let constants = constants_of(alloc, &d.specs)?;
        declare_others(&constants, &mut self.names)?;
        self.declare_all(storage_of(&d.specs), &d.declarators)
    }

    /// Declares a parameter.
    fn declare_parameter(&mut self, parameter: &DeclaredParameter<'s>) -> Result<(), AllocError>
        ensures { IfOk result (λ done. plain_walk self.new ≡ walked_parameter (plain_walk self.old) (plain_parameter parameter.now).name) }
    {
        match parameter.name {
            None => {
                if self.variables == u32::MAX {
                    return Err(AllocError);
                }
                self.variables += 1;
                Ok(())
            }
            Some(name) => self.declare_variable(name.text),
        }
    }

    /// Declares parameters.
    fn declare_parameters(&mut self, all: &[DeclaredParameter<'s>]) -> Result<(), AllocError>
        ensures { IfOk result (λ done. plain_walk self.new ≡ with_parameters (plain_walk self.old) (map plain_parameter all.now)) }
    {
        for parameter in all {
            self.declare_parameter(parameter)?;
        }
        Ok(())
    }

    /// Leaves a block: the names that were declared last are forgotten, until `count` are left.
    fn leave(&mut self, count: usize)
        ensures { plain_walk self.new ≡ record (plain_walk self.old) { names = take count (plain_walk self.old).names } }
    {
        self.names.keep(count);
    }
}

/// Declares a name that stands for no variable.
fn declare_other<'s>(name: &Identifier<'s>, names: &mut Names<'s>) -> Result<(), AllocError>
    ensures { IfOk result (λ done. bound_in names.new ≡ bound_in names.old ++ ((identifier_of name.now).name, None) ∷ []) }
{
    names.declare(name.text, None)
}

/// Declares names that stand for no variables.
fn declare_others<'s>(all: &[Identifier<'s>], names: &mut Names<'s>) -> Result<(), AllocError>
    ensures { IfOk result (λ done. bound_in names.new ≡ with_others (bound_in names.old) (map identifier_of all.now)) }
{
    for name in all {
        declare_other(name, names)?;
    }
    Ok(())
}

/// Walks over a statement.
#[cycle(walking)]
fn walk_statement<'s>(s: &Stmt<'s>, alloc: Global, walk: &mut Walk<'s>) -> Result<(), AllocError>
    ensures { IfOk result (λ done. plain_walk walk.new ≡ walked (plain_walk walk.old) (statement_of s.now)) }
{
    match s {
        Stmt::Empty(_) | Stmt::Goto(_, _) | Stmt::Break(_) | Stmt::Continue(_) | Stmt::Mark(_, _) =>
            Ok(()),
        Stmt::Expr(_, e) => walk.take(e),
        Stmt::Block(_, all) => {
            walk_block(all, alloc, walk)?;
            Ok(())
        }
        Stmt::If(_, e, s)
        | Stmt::Switch(_, _, e, s)
        | Stmt::While(_, _, e, s)
        | Stmt::Do(_, _, s, e) => {
            walk.take(e)?;
            walk_statement(s, alloc, walk)?;
            Ok(())
        }
        Stmt::IfElse(_, e, s, t) => {
            walk.take(e)?;
            walk_statement(s, alloc, walk)?;
            walk_statement(t, alloc, walk)?;
            Ok(())
        }
        Stmt::For(_, _, start, test, step, s) => {
            let count = walk.names.count();
            walk_statement(start, alloc, walk)?;
            walk.take_optional(test)?;
            walk.take_optional(step)?;
            walk_statement(s, alloc, walk)?;
            walk.leave(count);
            Ok(())
        }
        Stmt::Case(_, _, s) | Stmt::Default(_, s) | Stmt::Label(_, _, s) => {
            walk_statement(s, alloc, walk)?;
            Ok(())
        }
        Stmt::Return(_, _, e) => walk.take_optional(e),
        Stmt::Decl(d) => walk.declaration(alloc, d),
    }
}

/// Walks over a block.
#[cycle(walking)]
fn walk_block<'s>(all: &[Stmt<'s>], alloc: Global, walk: &mut Walk<'s>) -> Result<(), AllocError>
    ensures { IfOk result (λ done. plain_walk walk.new ≡ walked_out (plain_walk walk.old) (walked_all (plain_walk walk.old) (statement_row (map statement_of all.now)))) }
{
    let count = walk.names.count();
    walk_all(all, alloc, walk)?;
    walk.leave(count);
    Ok(())
}

/// Walks over the items of a block.
#[cycle(walking)]
fn walk_all<'s>(all: &[Stmt<'s>], alloc: Global, walk: &mut Walk<'s>) -> Result<(), AllocError>
    ensures { IfOk result (λ done. plain_walk walk.new ≡ walked_all (plain_walk walk.old) (statement_row (map statement_of all.now))) }
{
    for s in all {
        walk_statement(s, alloc, walk)?;
    }
    Ok(())
}

/// The numbers of the variables of a function whose addresses are taken in its body, in operands that are evaluated. The parameters are
/// its first variables.
///
/// # Errors
///
/// Out of memory.
pub fn addresses_taken<'s>(
    alloc: Global,
    parameters: &[DeclaredParameter<'s>],
    body: &[Stmt<'s>],
) -> Result<Vec<u32>, AllocError>
    ensures { IfOk result (λ taken. taken.items ≡ addresses_taken (map plain_parameter parameters.now) (statement_row (map statement_of body.now))) }
{
    let mut walk = Walk::new(alloc);
    walk.declare_parameters(parameters)?;
    walk_all(body, alloc, &mut walk)?;
    let Walk {
        names: _,
        variables: _,
        taken,
    } = walk;
    Ok(taken)
}
