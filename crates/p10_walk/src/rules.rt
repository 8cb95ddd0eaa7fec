//! Domains in the code: what may be known, and what is done with it.

ghost use Rattle.std.specs.Prelude.{◌≡◌, IfOk, OnOk, Some, None, if◌then◌else◌};
ghost use Rattle.std.specs.Option.{option_map};
ghost use Rattle.p10_core.specs.Views.{plain_value, plain_statement, plain_statement_form, plain_statements};
ghost use Rattle.p10_meaning.specs.Variables.{may_change};
ghost use Rattle.p10_walk.specs.Operations.{Operations};

use p10_core::{Stmt, Value};
use std::alloc::{AllocError, Global};

/// A domain: what is done with what is known. The operations may depend on the value that has them.
pub trait Rules {
    /// What is known.
    type Env: Drop;

    // What is known, as definitions speak of it.
    ghost Known: { Type 0 };

    ghost known: { Self.Env → Self.Known };

    ghost operations: { Self → Operations Self.Known };

    /// The same again.
    fn copy(&self, alloc: Global, e: &Self::Env) -> Result<Self::Env, AllocError>
        ensures { IfOk result (λ r. Self.known r ≡ Self.known e.now) };

    /// A statement without parts is executed: nothing where no state goes on with the next one.
    fn after(&self, alloc: Global, s: &Stmt, e: Self::Env) -> Result<Option<Self::Env>, AllocError>
        ensures { IfOk result (λ r. option_map Self.known r ≡ (Self.operations self.now).after (plain_statement_form s.now.form) (Self.known e)) };

    /// Assumes that a value is true, or that it is false: nothing where it can't be.
    fn assume(
        &self,
        alloc: Global,
        truth: bool,
        v: &Value,
        e: Self::Env,
    ) -> Result<Option<Self::Env>, AllocError>
        ensures { IfOk result (λ r. option_map Self.known r ≡ (Self.operations self.now).assume truth (plain_value v.now) (Self.known e)) };

    /// The same where a value has a number, and nothing where it has none.
    fn evaluated(
        &self,
        alloc: Global,
        v: &Value,
        e: Self::Env,
    ) -> Result<Option<Self::Env>, AllocError>
        ensures { IfOk result (λ r. option_map Self.known r ≡ (if (Self.operations self.now).has_value (plain_value v.now) (Self.known e) then Some (Self.known e) else None)) };

    /// Either of both is known.
    fn hull_with(
        &self,
        alloc: Global,
        e: &mut Self::Env,
        other: Self::Env,
    ) -> Result<(), AllocError>
        ensures { OnOk result (Self.known e.new ≡ (Self.operations self.now).hull (Self.known e.old) (Self.known other)) };

    /// The variables that statements declare themselves go out of scope.
    fn leave_scope(&self, items: &[Stmt], e: &mut Self::Env)
        ensures { Self.known e.new ≡ (Self.operations self.now).left_scope (plain_statements items.now) (Self.known e.old) };

    /// Forgets what a statement may change.
    fn forget(&self, alloc: Global, s: &Stmt, e: &mut Self::Env) -> Result<(), AllocError>
        ensures { OnOk result (Self.known e.new ≡ (Self.operations self.now).forget (λ n. may_change n (plain_statement s.now)) (Self.known e.old)) };
}
