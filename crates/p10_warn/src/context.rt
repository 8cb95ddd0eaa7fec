//! What a walk over a function for its declarations knows.

ghost use Rattle.std.specs.Prelude.{◌≡◌, option_map};
ghost use Rattle.p10_core.specs.Views.{plain_statement};
ghost use Rattle.p10_warn.specs.Scopes.{name_declared};

use crate::file_scope::FileScope;
use p10_base::Span;
use p10_core::{Stmt, StmtForm, Variable};

/// What a walk over a function for its declarations knows: the objects of static lifetime, the variables of the function,
/// and its number.
#[derive(Drop)]
pub(crate) struct Context<'w, 's> {
    pub(crate) file: &'w FileScope<'w, 's>,
    pub(crate) variables: &'w [Variable<'s>],
    pub(crate) function: usize,
}

impl<'w, 's> Context<'w, 's> {
    ghost use Rattle.p10_warn.specs.private.Contexts.{objects_known, variables_known};

    /// The name that a statement declares, with its span, if it declares one.
    pub(crate) fn name_declared(&self, statement: &Stmt) -> Option<(&'s [u8], Span)>
        ensures { option_map (λ d. record { name = d.0.now; span = d.1 }) result ≡ name_declared (objects_known self.now) (variables_known self.now) (plain_statement statement.now) }
    {
        match &statement.form {
            StmtForm::Declare(number, _) => self.variable_name(*number),
            StmtForm::Static(number) => self.object_name(*number),
            StmtForm::Set(_, _)
            | StmtForm::Update(_, _, _, _, _)
            | StmtForm::Copy(_, _)
            | StmtForm::Value(_)
            | StmtForm::Assert(_, _)
            | StmtForm::Block(_)
            | StmtForm::If(_, _, None)
            | StmtForm::If(_, _, Some(_))
            | StmtForm::Loop(_, _, _, _, _)
            | StmtForm::Switch(_, _, _, _)
            | StmtForm::Break
            | StmtForm::Continue
            | StmtForm::Return(_, _)
            | StmtForm::Empty
            | StmtForm::Mark(_) => None,
        }
    }

    ghost use Rattle.std.specs.Prelude.{slice_get};
    ghost use Rattle.p10_warn.specs.Scopes.{variable_name, object_name};

    /// The name of the variable with a number, if there is one.
    fn variable_name(&self, number: u32) -> Option<(&'s [u8], Span)>
        ensures { option_map (λ d. record { name = d.0.now; span = d.1 }) result ≡ option_map variable_name (slice_get (variables_known self.now) number) }
    {
        match self.variables.get(number as usize) {
            Some(variable) => Some((variable.name, variable.span)),
            None => None,
        }
    }

    /// The name of the object with a number, if there is one.
    fn object_name(&self, number: u32) -> Option<(&'s [u8], Span)>
        ensures { option_map (λ d. record { name = d.0.now; span = d.1 }) result ≡ option_map object_name (slice_get (objects_known self.now) number) }
    {
        match self.file.objects.get(number as usize) {
            Some(object) => Some((object.name, object.span)),
            None => None,
        }
    }
}
