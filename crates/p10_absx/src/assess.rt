//! The walk over a value: what is found of it.

ghost use Rattle.std.specs.Prelude.{◌≡◌, ◌&&◌, IfOk, OnOk, true, false};
ghost use Rattle.std.specs.Option.{option_map, option_copied, option_and_then};
ghost use Rattle.p10_core.specs.Types.{plain_type};
ghost use Rattle.p10_core.specs.Views.{plain_value, plain_values};
ghost use Rattle.p10_cert.specs.Claims.{claims_of};
ghost use Rattle.p10_absx.specs.Abstract.{abstract_of};
ghost use Rattle.p10_absx.specs.Environments.{Environment};
ghost use Rattle.p10_absx.specs.Assessing.{assess as assess_of, assess_only, known_where, value_found, unary_assessed, library_assessed, abstract_value, assume_of, binary_found as binary_found_of, comparison_found as comparison_found_of, logic_found as logic_found_of, negation_found, truth_found};
ghost use Rattle.p10_absx.specs.Assuming.{Assumes};
ghost use Rattle.p10_absx.specs.private.Changes.{replaced_in, applied};
ghost use Rattle.p10_absx.specs.private.Found.{assessed_of, state_of, side_of};

use crate::abs::Abs;
use crate::changes::{Change, Side};
use crate::comparing::{contrary, is_comparison};
use crate::env::Env;
use crate::found::Found;
use crate::rows::{
    any_of, arithmetic_found, call_found, chosen, constant, converted_found, library_found,
    unary_found,
};
use crate::states::{Sides, after};
use p10_cert::Cert;
use p10_core::{CType, Library, LogicOp, Program, Value, ValueForm};
use p10_int::{BinOp, UnOp};
use std::alloc::{AllocError, Global};

impl Env {
    /// A comparison; one of pointers teaches nothing.
    fn comparison(
        &self,
        alloc: Global,
        op: BinOp,
        integers: bool,
        left: Side,
        right: Side,
    ) -> Result<Found, AllocError>
        ensures { IfOk result (λ f. assessed_of self.now.values f ≡ comparison_found_of op integers (side_of left) (side_of right) self.now.values) }
    {
        if integers {
            Ok(Found::Test(
                self.compared(alloc, op, left, right)?,
                self.compared(alloc, contrary(op), left, right)?,
            ))
        } else {
            Ok(Found::Test(Some(Vec::new(alloc)), Some(Vec::new(alloc))))
        }
    }

    /// A binary operator (C99 6.5.5 to 6.5.12).
    fn binary(
        &self,
        alloc: Global,
        op: BinOp,
        t: &CType,
        integers: bool,
        left: Found,
        right: Found,
    ) -> Result<Found, AllocError>
        ensures { IfOk result (λ f. assessed_of self.now.values f ≡ binary_found_of op (plain_type t.now) integers (assessed_of self.now.values left) (assessed_of self.now.values right) self.now.values) }
    {
        if is_comparison(op) {
            self.comparison(alloc, op, integers, left.side(), right.side())
        } else if integers {
            Ok(arithmetic_found(op, t, left.value(), right.value()))
        } else {
            Ok(any_of(t))
        }
    }

    /// `!` of what was found (C99 6.5.3.3p5).
    fn negation(&self, alloc: Global, found: Found) -> Result<Found, AllocError>
        ensures { IfOk result (λ f. assessed_of self.now.values f ≡ negation_found self.now.values (assessed_of self.now.values found)) }
    {
        let sides = self.sides(alloc, found)?;
        let Sides { truth, contrary } = sides;
        Ok(Found::Test(contrary, truth))
    }

    /// Whether what was found is true.
    fn truth(&self, alloc: Global, found: Found) -> Result<Found, AllocError>
        ensures { IfOk result (λ f. assessed_of self.now.values f ≡ truth_found self.now.values (assessed_of self.now.values found)) }
    {
        let sides = self.sides(alloc, found)?;
        let Sides { truth, contrary } = sides;
        Ok(Found::Test(truth, contrary))
    }

    /// What is found of a value.
    #[cycle(assessing)]
    pub(crate) fn assess(
        &mut self,
        alloc: Global,
        c: Option<&Cert>,
        v: &Value,
    ) -> Result<Found, AllocError>
        ensures same { OnOk result (self.new ≡ self.old) }
        ensures found { IfOk result (λ f. assessed_of self.old.values f ≡ assess_of (option_map claims_of (option_copied c.entry)) (plain_value v.now) self.old.values) }
    {
        match &v.form {
            ValueForm::Const(number) => Ok(constant(&v.ty, *number)),
            ValueForm::Read(place) => Ok(self.place_read(&v.ty, place)),
            ValueForm::Sense(_) | ValueForm::Addr(_) | ValueForm::Decay(_) => Ok(any_of(&v.ty)),
            ValueForm::Convert(part) | ValueForm::Cast(part) => {
                let found = self.assess(alloc, c, part)?;
                Ok(converted_found(&v.ty, found.side()))
            }
            ValueForm::Unary(op, part) => {
                let found = self.assess(alloc, c, part)?;
                self.unary(alloc, *op, &v.ty, found)
            }
            ValueForm::Binary(op, left, right) => {
                let integers = left.ty.is_integer() && right.ty.is_integer();
                let first = self.assess(alloc, c, left)?;
                let second = self.assess(alloc, c, right)?;
                self.binary(alloc, *op, &v.ty, integers, first, second)
            }
            ValueForm::Logic(op, left, right) => {
                let first = self.assess(alloc, c, left)?;
                self.logic(alloc, c, *op, first, right)
            }
            ValueForm::Cond(test, left, right) => {
                let condition = self.assess(alloc, c, test)?;
                let sides = self.sides(alloc, condition)?;
                let Sides { truth, contrary } = sides;
                let first = self.value_after(alloc, c, truth, left)?;
                let second = self.value_after(alloc, c, contrary, right)?;
                Ok(chosen(&v.ty, first, second))
            }
            ValueForm::Call(_, number, _) => Ok(call_found(c, *number, &v.ty)),
            ValueForm::Builtin(_, library, arguments) => {
                let only = self.only(alloc, c, arguments.as_slice())?;
                self.library(alloc, *library, &v.ty, only)
            }
        }
    }

    /// A unary operator.
    fn unary(&self, alloc: Global, op: UnOp, t: &CType, found: Found) -> Result<Found, AllocError>
        ensures { IfOk result (λ f. assessed_of self.now.values f ≡ unary_assessed op (plain_type t.now) self.now.values (assessed_of self.now.values found)) }
    {
        match op {
            UnOp::Not => self.negation(alloc, found),
            UnOp::Plus | UnOp::Neg | UnOp::Com => Ok(unary_found(op, t, found.value())),
        }
    }

    /// What is found of a value after changes; `None` where no state is left.
    #[cycle(assessing)]
    fn assess_after(
        &mut self,
        alloc: Global,
        c: Option<&Cert>,
        changes: Option<Vec<Change>>,
        v: &Value,
    ) -> Result<Sides, AllocError>
        ensures same { OnOk result (self.new ≡ self.old) }
        ensures truth { IfOk result (λ s. state_of self.old.values s.truth ≡ option_and_then (λ e. known_where true e (assess_of (option_map claims_of (option_copied c.entry)) (plain_value v.now) e)) (state_of self.old.values changes)) }
        ensures contrary { IfOk result (λ s. state_of self.old.values s.contrary ≡ option_and_then (λ e. known_where false e (assess_of (option_map claims_of (option_copied c.entry)) (plain_value v.now) e)) (state_of self.old.values changes)) }
    {
        match changes {
            Some(changes) => {
                self.enter(&changes)?;
                let found = self.assess(alloc, c, v)?;
                let sides = self.sides(alloc, found)?;
                self.take_back();
                sides_after(alloc, &changes, sides)
            }
            None => Ok(Sides {
                truth: None,
                contrary: None,
            }),
        }
    }

    /// The value that is found after changes; `None` where no state is left.
    #[cycle(assessing)]
    fn value_after(
        &mut self,
        alloc: Global,
        c: Option<&Cert>,
        changes: Option<Vec<Change>>,
        v: &Value,
    ) -> Result<Option<Abs>, AllocError>
        ensures same { OnOk result (self.new ≡ self.old) }
        ensures value { IfOk result (λ a. option_map abstract_of a ≡ option_and_then (λ e. value_found (assess_of (option_map claims_of (option_copied c.entry)) (plain_value v.now) e)) (state_of self.old.values changes)) }
    {
        match changes {
            Some(changes) => {
                self.enter(&changes)?;
                let found = self.assess(alloc, c, v)?;
                self.take_back();
                Ok(found.value())
            }
            None => Ok(None),
        }
    }

    /// `&&` and `||` after the left operand (C99 6.5.13, 6.5.14).
    #[cycle(assessing)]
    fn logic(
        &mut self,
        alloc: Global,
        c: Option<&Cert>,
        op: LogicOp,
        left: Found,
        right: &Value,
    ) -> Result<Found, AllocError>
        ensures same { OnOk result (self.new ≡ self.old) }
        ensures found { IfOk result (λ f. assessed_of self.old.values f ≡ logic_found_of op self.old.values (assessed_of self.old.values left) (λ env. assess_of (option_map claims_of (option_copied c.entry)) (plain_value right.now) env)) }
    {
        let sides = self.sides(alloc, left)?;
        let Sides { truth, contrary } = sides;
        match op {
            LogicOp::And => {
                let rest = self.assess_after(alloc, c, truth, right)?;
                let Sides {
                    truth: both,
                    contrary: second,
                } = rest;
                Ok(Found::Test(both, self.hull(alloc, contrary, second)?))
            }
            LogicOp::Or => {
                let rest = self.assess_after(alloc, c, contrary, right)?;
                let Sides {
                    truth: second,
                    contrary: neither,
                } = rest;
                Ok(Found::Test(self.hull(alloc, truth, second)?, neither))
            }
        }
    }

    /// What is found of the only argument of a call.
    #[tactic(auto, using(crate::proofs::Walking::only_none, crate::proofs::Walking::only_many))]
    #[cycle(assessing)]
    fn only(
        &mut self,
        alloc: Global,
        c: Option<&Cert>,
        arguments: &[Value],
    ) -> Result<Option<Found>, AllocError>
        ensures same { OnOk result (self.new ≡ self.old) }
        ensures found { IfOk result (λ r. option_map (assessed_of self.old.values) r ≡ assess_only (option_map claims_of (option_copied c.entry)) (plain_values arguments.now) self.old.values) }
    {
        match arguments {
            [] => Ok(None),
            [argument] => Ok(Some(self.assess(alloc, c, argument)?)),
            [_, _, ..] => Ok(None),
        }
    }

    /// A call of a library function, by what is found of its argument, if it has only one.
    fn library(
        &self,
        alloc: Global,
        library: Library,
        t: &CType,
        only: Option<Found>,
    ) -> Result<Found, AllocError>
        ensures { IfOk result (λ f. assessed_of self.now.values f ≡ library_assessed library (plain_type t.now) self.now.values (option_map (assessed_of self.now.values) only)) }
    {
        match library {
            Library::CAssert => self.asserted(alloc, t, only),
            Library::Getchar
            | Library::Putchar
            | Library::Assert
            | Library::Malloc
            | Library::Calloc
            | Library::Free => Ok(library_found(library, t)),
        }
    }

    /// `c_assert` of what was found.
    fn asserted(&self, alloc: Global, t: &CType, only: Option<Found>) -> Result<Found, AllocError>
        ensures { IfOk result (λ f. assessed_of self.now.values f ≡ library_assessed Library.CAssert (plain_type t.now) self.now.values (option_map (assessed_of self.now.values) only)) }
    {
        match only {
            Some(found) => self.truth(alloc, found),
            None => Ok(any_of(t)),
        }
    }

    /// The value of the integer `v`: `None` where every evaluation ends. Where there is no certificate `c`, a call has all values of
    /// its type. The environment stays as it is.
    ///
    /// # Errors
    ///
    /// Out of memory.
    pub fn eval(
        &self,
        alloc: Global,
        _program: &Program<'_>,
        c: Option<&Cert>,
        v: &Value,
    ) -> Result<Option<Abs>, AllocError>
        ensures { IfOk result (λ a. option_map abstract_of a ≡ abstract_value (option_map claims_of (option_copied c.entry)) self.now.values (plain_value v.now)) }
    {
        let mut env = self.copy(alloc)?;
        let found = env.assess(alloc, c, v)?;
        Ok(found.value())
    }

    /// Assumes that a scalar is true or false, and answers whether a state is left. Where none is, and out of memory, nothing is
    /// said of what is known then.
    pub fn assume(
        &mut self,
        alloc: Global,
        _program: &Program<'_>,
        c: Option<&Cert>,
        v: &Value,
        truth: bool,
    ) -> Result<bool, AllocError>
        ensures { IfOk result (λ left. Assumes left (assume_of (option_map claims_of (option_copied c.entry)) (plain_value v.now) truth self.old.values) self.old self.new) }
    {
        let found = self.assess(alloc, c, v)?;
        let sides = self.sides(alloc, found)?;
        let Sides {
            truth: held,
            contrary,
        } = sides;
        self.reach(if truth { held } else { contrary })
    }

    /// Makes changes, if a state is left.
    fn reach(&mut self, changes: Option<Vec<Change>>) -> Result<bool, AllocError>
        ensures { IfOk result (λ left. Assumes left (state_of self.old.values changes) self.old self.new) }
    {
        match changes {
            Some(changes) => {
                self.apply(&changes);
                Ok(true)
            }
            None => Ok(false),
        }
    }
}

/// Sides after changes.
fn sides_after(alloc: Global, changes: &[Change], sides: Sides) -> Result<Sides, AllocError>
    ensures truth { IfOk result (λ s. (env : Environment) → state_of env s.truth ≡ state_of (applied (replaced_in changes.now) env) sides.truth) }
    ensures contrary { IfOk result (λ s. (env : Environment) → state_of env s.contrary ≡ state_of (applied (replaced_in changes.now) env) sides.contrary) }
{
    let Sides { truth, contrary } = sides;
    Ok(Sides {
        truth: after(alloc, changes, truth)?,
        contrary: after(alloc, changes, contrary)?,
    })
}
