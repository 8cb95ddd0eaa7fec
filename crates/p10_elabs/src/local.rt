//! What the body of a function has so far.

use p10_base::{At, SubsetCode};
use p10_core::{Global as Object, LoopHead, LoopKeyword, Variable};
use p10_elabd::Standing;
use std::alloc::AllocError;

/// What a body has so far.
#[derive(Drop)]
pub struct Local<'s> {
    /// What stands where the next statement does.
    pub standing: Standing<'s>,
    /// How many variables there were.
    pub count: u32,
    /// The variables, of which none was refused.
    pub variables: Vec<Variable<'s>>,
    /// The static objects, of which none was refused, with their numbers.
    pub objects: Vec<(u32, Object<'s>)>,
    /// How many loops there were.
    pub loops: u32,
}

impl<'s> Local<'s> {
    ghost use Rattle.std.specs.Prelude.{◌≡◌, IfOk};
    ghost use Rattle.p10_core.specs.Views.{plain_variable, plain_object};
    ghost use Rattle.p10_elabx.specs.First.{only_first};
    ghost use Rattle.p10_elabs.specs.Locals.{refusing_in, opened, closed};
    ghost use Rattle.p10_elabs.specs.Statements.{head_of, with_loop};
    ghost use Rattle.p10_elabs.specs.LocalDeclarations.{one_more, with_listed, with_numbered};
    ghost use Rattle.p10_elabs.specs.LocalViews.{plain_local};

    /// Notes that a row holds at a tree, where a condition is met.
    pub(crate) fn refuse_where(&mut self, holds: bool, code: SubsetCode, at: At)
        ensures { plain_local self.new ≡ refusing_in only_first holds code at (plain_local self.old) }
    {
        self.standing.refuse_where(holds, code, at);
    }

    /// Opens a block.
    pub(crate) fn open(&mut self) -> Result<(), AllocError>
        ensures { IfOk result (λ done. plain_local self.new ≡ opened (plain_local self.old)) }
    {
        self.standing.scope.enter()
    }

    /// Closes a block.
    pub(crate) fn close(&mut self)
        ensures { plain_local self.new ≡ closed (plain_local self.old) }
    {
        self.standing.scope.leave();
    }

    /// Takes the number of the next variable of the function.
    pub(crate) fn next_variable(&mut self) -> Result<u32, AllocError>
        ensures number { IfOk result (λ n. n ≡ (plain_local self.old).count) }
        ensures after { IfOk result (λ n. plain_local self.new ≡ one_more (plain_local self.old)) }
    {
        let number = self.count;
        if number == u32::MAX {
            return Err(AllocError);
        }
        self.count = number + 1;
        Ok(number)
    }

    /// Puts down a variable.
    #[tactic(auto, using(p10_heads::proofs::ListRows::mapped_more))]
    pub(crate) fn add_variable(&mut self, variable: Variable<'s>) -> Result<(), AllocError>
        ensures { IfOk result (λ _. plain_local self.new ≡ with_listed (plain_variable variable.entry) (plain_local self.old)) }
    {
        self.variables.push(variable)?;
        Ok(())
    }

    /// Puts down an object of static lifetime, with its number.
    #[tactic(auto, using(p10_heads::proofs::ListRows::mapped_more))]
    pub(crate) fn add_object(&mut self, number: u32, object: Object<'s>) -> Result<(), AllocError>
        ensures { IfOk result (λ _. plain_local self.new ≡ with_numbered number (plain_object object.entry) (plain_local self.old)) }
    {
        self.objects.push((number, object))?;
        Ok(())
    }

    /// Begins the next loop of the function, at its keyword.
    pub(crate) fn begin_loop(
        &mut self,
        keyword: LoopKeyword,
        at: At,
    ) -> Result<LoopHead, AllocError>
        ensures head { IfOk result (λ head. head ≡ head_of keyword at (plain_local self.old)) }
        ensures after { IfOk result (λ head. plain_local self.new ≡ with_loop (plain_local self.old)) }
    {
        let number = self.loops;
        if number == u32::MAX {
            return Err(AllocError);
        }
        self.loops = number + 1;
        Ok(LoopHead {
            number,
            keyword,
            span: at.span,
        })
    }
}
