//! What isn't clean in values and places: C1 to C6.

ghost use Rattle.std.specs.Prelude.{◌≡◌, ◌++◌, [], ◌&&◌, not, map, slice_get, if◌then◌else◌, OnOk, IfOk};
ghost use Rattle.std.specs.Option.{option_map, option_copied};
ghost use Rattle.p10_core.specs.Types.{plain_type};
ghost use Rattle.p10_core.specs.Views.{plain_value, plain_place, plain_values, plain_variable};
ghost use Rattle.p10_absx.specs.Abstract.{abstract_of};
ghost use Rattle.p10_absx.specs.Assessing.{assess, known_where, are_integers};
ghost use Rattle.p10_pass.specs.Arguments.{has_value, where_reached, goes_on_where};
ghost use Rattle.p10_pass.specs.Manners.{manner_by};
ghost use Rattle.p10_meaning.specs.Values.{element_count};
ghost use Rattle.p10_clean.specs.Values.{compares_equal, binary_flaws, is_frame, read_flaws, index_lies, index_flaws, flaws_in_value, flaws_in_values, flaws_in_place, flaws_in_maybe};
ghost use Rattle.p10_clean.specs.private.Code.{settings_of, own_flaws, place_own_flaws, parts_flaws, place_parts_flaws};

use crate::flaw::{Flaw, push_if};
use crate::operations::{push_operands, push_unary};
use crate::settings::Settings;
use p10_absx::{Abs, Env};
use p10_base::Span;
use p10_core::{
    CType, LogicOp, Place, PlaceForm, TypeForm, Value, ValueForm, Variable, integer_of,
    manages_memory,
};
use p10_int::{BinOp, IntType};
use p10_pass::Manner;
use std::alloc::{AllocError, Global};

/// What stands around a tree: how calls count and what is set there.
#[derive(Clone, Copy)]
pub(crate) struct Look<'a, 's> {
    pub alloc: Global,
    pub m: &'a Manner<'a, 's>,
    pub set: &'a Settings,
}

/// An operator at a tree, with its type.
#[derive(Clone, Copy)]
pub(crate) struct Operator {
    pub at: Span,
    pub op: BinOp,
    pub t: IntType,
}

impl Look<'_, '_> {
    /// Whether a value leaves a state: a pointer does, and an integer, or a cast to `void`, where it has a value.
    pub fn has_value(&self, v: &Value, env: &mut Env) -> Result<bool, AllocError>
        ensures same { OnOk result (env.new ≡ env.old) }
        ensures has { IfOk result (λ b. b ≡ has_value (manner_by self.now.m.now).calls (plain_value v.now) env.old.values) }
    {
        if v.ty.is_pointer() {
            return Ok(true);
        }
        let value = env.value(self.alloc, self.m.calls, v)?;
        Ok(value.is_some())
    }

    /// Puts the flaws in a value that may be lacking.
    pub fn put_maybe(
        &self,
        v: &Option<Value>,
        env: &mut Env,
        flaws: &mut Vec<Flaw>,
    ) -> Result<(), AllocError>
        ensures same { OnOk result (env.new ≡ env.old) }
        ensures flaws { OnOk result (flaws.new.items ≡ flaws.old.items ++ flaws_in_maybe (manner_by self.now.m.now) (settings_of self.now.set.now) (option_map plain_value v.now) env.old.values) }
    {
        match v {
            Some(v) => self.put_value(v, env, flaws),
            None => Ok(()),
        }
    }

    /// Puts the flaws in a value.
    #[cycle(looking)]
    pub fn put_value(
        &self,
        v: &Value,
        env: &mut Env,
        flaws: &mut Vec<Flaw>,
    ) -> Result<(), AllocError>
        ensures same { OnOk result (env.new ≡ env.old) }
        ensures flaws { OnOk result (flaws.new.items ≡ flaws.old.items ++ flaws_in_value (manner_by self.now.m.now) (settings_of self.now.set.now) (plain_value v.now) env.old.values) }
    {
        self.push_own(v, env, flaws)?;
        self.put_parts(v, env, flaws)
    }

    /// Puts the flaws of a value itself.
    fn push_own(&self, v: &Value, env: &mut Env, flaws: &mut Vec<Flaw>) -> Result<(), AllocError>
        ensures same { OnOk result (env.new ≡ env.old) }
        ensures flaws { OnOk result (flaws.new.items ≡ flaws.old.items ++ own_flaws (manner_by self.now.m.now) (settings_of self.now.set.now) (plain_value v.now) env.old.values) }
    {
        match &v.form {
            ValueForm::Read(p) => self.push_read(p, flaws),
            ValueForm::Unary(op, part) => {
                let value = env.value(self.alloc, self.m.calls, part)?;
                push_unary(v.at.span, *op, integer_of(&v.ty), value, flaws)
            }
            ValueForm::Binary(op, a, b) => {
                let operator = Operator {
                    at: v.at.span,
                    op: *op,
                    t: integer_of(&v.ty),
                };
                self.push_binary(operator, a, b, env, flaws)
            }
            ValueForm::Builtin(_, f, _) => push_if(manages_memory(*f), 5, v.at.span, flaws),
            ValueForm::Const(_)
            | ValueForm::Sense(_)
            | ValueForm::Addr(_)
            | ValueForm::Decay(_)
            | ValueForm::Convert(_)
            | ValueForm::Cast(_)
            | ValueForm::Logic(_, _, _)
            | ValueForm::Cond(_, _, _)
            | ValueForm::Call(_, _, _) => Ok(()),
        }
    }

    /// Puts C6 of a place that is read.
    pub fn push_read(&self, p: &Place, flaws: &mut Vec<Flaw>) -> Result<(), AllocError>
        ensures { OnOk result (flaws.new.items ≡ flaws.old.items ++ read_flaws (manner_by self.now.m.now) (settings_of self.now.set.now) (plain_place p.now)) }
    {
        match &p.form {
            PlaceForm::Var(n) => push_if(
                is_frame(variable_at(self.m.variables, *n as usize)) && !self.set.is_set(*n),
                6,
                p.at.span,
                flaws,
            ),
            PlaceForm::Global(_)
            | PlaceForm::Literal(_, _)
            | PlaceForm::Index(_, _)
            | PlaceForm::Member(_, _)
            | PlaceForm::Deref(_) => Ok(()),
        }
    }

    /// Puts the flaws of a binary operator itself.
    fn push_binary(
        &self,
        operator: Operator,
        a: &Value,
        b: &Value,
        env: &mut Env,
        flaws: &mut Vec<Flaw>,
    ) -> Result<(), AllocError>
        ensures same { OnOk result (env.new ≡ env.old) }
        ensures flaws { OnOk result (flaws.new.items ≡ flaws.old.items ++ binary_flaws (manner_by self.now.m.now) operator.at operator.op operator.t (plain_value a.now) (plain_value b.now) env.old.values) }
    {
        if !(a.ty.is_integer() && b.ty.is_integer()) {
            return push_if(!compares_equal(operator.op), 5, operator.at, flaws);
        }
        let left = env.value(self.alloc, self.m.calls, a)?;
        let right = env.value(self.alloc, self.m.calls, b)?;
        push_operands(operator.at, operator.op, operator.t, left, right, flaws)
    }

    /// Puts the flaws in the parts of a value.
    #[cycle(looking)]
    fn put_parts(&self, v: &Value, env: &mut Env, flaws: &mut Vec<Flaw>) -> Result<(), AllocError>
        ensures same { OnOk result (env.new ≡ env.old) }
        ensures flaws { OnOk result (flaws.new.items ≡ flaws.old.items ++ parts_flaws (manner_by self.now.m.now) (settings_of self.now.set.now) (plain_value v.now) env.old.values) }
    {
        match &v.form {
            ValueForm::Const(_) | ValueForm::Sense(_) => Ok(()),
            ValueForm::Read(p) | ValueForm::Addr(p) | ValueForm::Decay(p) => self.put_place(
                p, env, flaws,
            ),
            ValueForm::Convert(part) | ValueForm::Cast(part) | ValueForm::Unary(_, part) => {
                self.put_value(part, env, flaws)
            }
            ValueForm::Binary(_, a, b) => {
                self.put_value(a, env, flaws)?;
                self.put_after(b, a, env, flaws)
            }
            ValueForm::Logic(op, a, b) => {
                self.put_value(a, env, flaws)?;
                self.put_where(b, goes_on_where(*op), a, env, flaws)
            }
            ValueForm::Cond(test, a, b) => {
                self.put_value(test, env, flaws)?;
                self.put_where(a, true, test, env, flaws)?;
                self.put_where(b, false, test, env, flaws)
            }
            ValueForm::Call(_, _, arguments) => self.put_values(arguments.as_slice(), env, flaws),
            ValueForm::Builtin(_, _, arguments) => self.put_values(
                arguments.as_slice(),
                env,
                flaws,
            ),
        }
    }

    /// The same for the second one of two values, where the first one leaves a state.
    #[cycle(looking)]
    fn put_after(
        &self,
        second: &Value,
        first: &Value,
        env: &mut Env,
        flaws: &mut Vec<Flaw>,
    ) -> Result<(), AllocError>
        ensures same { OnOk result (env.new ≡ env.old) }
        ensures flaws { OnOk result (flaws.new.items ≡ flaws.old.items ++ (if has_value (manner_by self.now.m.now).calls (plain_value first.now) env.old.values then flaws_in_value (manner_by self.now.m.now) (settings_of self.now.set.now) (plain_value second.now) env.old.values else [])) }
    {
        if self.has_value(first, env)? {
            self.put_value(second, env, flaws)
        } else {
            Ok(())
        }
    }

    /// The same for a value that is evaluated where a test is true or false.
    #[cycle(looking)]
    fn put_where(
        &self,
        v: &Value,
        truth: bool,
        test: &Value,
        env: &mut Env,
        flaws: &mut Vec<Flaw>,
    ) -> Result<(), AllocError>
        ensures same { OnOk result (env.new ≡ env.old) }
        ensures flaws { OnOk result (flaws.new.items ≡ flaws.old.items ++ where_reached (known_where truth env.old.values (assess (manner_by self.now.m.now).calls (plain_value test.now) env.old.values)) (λ e. flaws_in_value (manner_by self.now.m.now) (settings_of self.now.set.now) (plain_value v.now) e)) }
    {
        if env.enter_where(self.alloc, self.m.calls, test, truth)? {
            self.put_value(v, env, flaws)?;
            env.leave();
        }
        Ok(())
    }

    /// The same for values, one after the other.
    #[cycle(looking)]
    fn put_values(
        &self,
        all: &[Value],
        env: &mut Env,
        flaws: &mut Vec<Flaw>,
    ) -> Result<(), AllocError>
        ensures same { OnOk result (env.new ≡ env.old) }
        ensures flaws { OnOk result (flaws.new.items ≡ flaws.old.items ++ flaws_in_values (manner_by self.now.m.now) (settings_of self.now.set.now) (plain_values all.now) env.old.values) }
    {
        for v in all {
            self.put_value(v, env, flaws)?;
            if !self.has_value(v, env)? {
                return Ok(());
            }
        }
        Ok(())
    }

    /// Puts the flaws in a place.
    #[cycle(looking)]
    pub fn put_place(
        &self,
        p: &Place,
        env: &mut Env,
        flaws: &mut Vec<Flaw>,
    ) -> Result<(), AllocError>
        ensures same { OnOk result (env.new ≡ env.old) }
        ensures flaws { OnOk result (flaws.new.items ≡ flaws.old.items ++ flaws_in_place (manner_by self.now.m.now) (settings_of self.now.set.now) (plain_place p.now) env.old.values) }
    {
        self.push_place(p, env, flaws)?;
        self.put_place_parts(p, env, flaws)
    }

    /// Puts the flaws of a place itself.
    fn push_place(&self, p: &Place, env: &mut Env, flaws: &mut Vec<Flaw>) -> Result<(), AllocError>
        ensures same { OnOk result (env.new ≡ env.old) }
        ensures flaws { OnOk result (flaws.new.items ≡ flaws.old.items ++ place_own_flaws (manner_by self.now.m.now) (plain_place p.now) env.old.values) }
    {
        match &p.form {
            PlaceForm::Index(pointer, by) => self.push_index(p.at.span, pointer, by, env, flaws),
            PlaceForm::Deref(_) => push_if(true, 5, p.at.span, flaws),
            PlaceForm::Var(_)
            | PlaceForm::Global(_)
            | PlaceForm::Literal(_, _)
            | PlaceForm::Member(_, _) => Ok(()),
        }
    }

    /// Puts C4 of an index into an array, and C5 of one of another pointer.
    fn push_index(
        &self,
        at: Span,
        pointer: &Value,
        by: &Value,
        env: &mut Env,
        flaws: &mut Vec<Flaw>,
    ) -> Result<(), AllocError>
        ensures same { OnOk result (env.new ≡ env.old) }
        ensures flaws { OnOk result (flaws.new.items ≡ flaws.old.items ++ index_flaws (manner_by self.now.m.now) at (plain_value pointer.now) (plain_value by.now) env.old.values) }
    {
        match &pointer.form {
            ValueForm::Decay(whole) => {
                let value = env.value(self.alloc, self.m.calls, by)?;
                push_if(!index_lies(element_count(&whole.ty), value), 4, at, flaws)
            }
            ValueForm::Const(_)
            | ValueForm::Read(_)
            | ValueForm::Sense(_)
            | ValueForm::Addr(_)
            | ValueForm::Convert(_)
            | ValueForm::Cast(_)
            | ValueForm::Unary(_, _)
            | ValueForm::Binary(_, _, _)
            | ValueForm::Logic(_, _, _)
            | ValueForm::Cond(_, _, _)
            | ValueForm::Call(_, _, _)
            | ValueForm::Builtin(_, _, _) => push_if(true, 5, at, flaws),
        }
    }

    /// Puts the flaws in the parts of a place.
    #[cycle(looking)]
    fn put_place_parts(
        &self,
        p: &Place,
        env: &mut Env,
        flaws: &mut Vec<Flaw>,
    ) -> Result<(), AllocError>
        ensures same { OnOk result (env.new ≡ env.old) }
        ensures flaws { OnOk result (flaws.new.items ≡ flaws.old.items ++ place_parts_flaws (manner_by self.now.m.now) (settings_of self.now.set.now) (plain_place p.now) env.old.values) }
    {
        match &p.form {
            PlaceForm::Var(_) | PlaceForm::Global(_) | PlaceForm::Literal(_, _) => Ok(()),
            PlaceForm::Index(a, i) => {
                self.put_value(a, env, flaws)?;
                self.put_after(i, a, env, flaws)
            }
            PlaceForm::Member(whole, _) => self.put_place(whole, env, flaws),
            PlaceForm::Deref(pointer) => self.put_value(pointer, env, flaws),
        }
    }
}

/// The truth of its left operand with which `&&` and `||` go on to the right one.
fn goes_on_where(op: LogicOp) -> bool
    ensures { result ≡ goes_on_where op }
{
    match op {
        LogicOp::And => true,
        LogicOp::Or => false,
    }
}

/// Whether pointers may be compared by an operator.
fn compares_equal(op: BinOp) -> bool
    ensures { result ≡ compares_equal op }
{
    match op {
        BinOp::Eq | BinOp::Ne => true,
        BinOp::Add
        | BinOp::Sub
        | BinOp::Mul
        | BinOp::Div
        | BinOp::Rem
        | BinOp::Shl
        | BinOp::Shr
        | BinOp::And
        | BinOp::Or
        | BinOp::Xor
        | BinOp::Lt
        | BinOp::Gt
        | BinOp::Le
        | BinOp::Ge => false,
    }
}

/// How many elements an array has; anything else is as an array of one.
fn element_count(t: &CType) -> u64
    ensures { result ≡ element_count (plain_type t.now) }
{
    match &t.form {
        TypeForm::Array(_, count) => *count,
        TypeForm::Void | TypeForm::Int(_) | TypeForm::Pointer(_) | TypeForm::Struct(_) => 1,
    }
}

/// Whether an index lies in an array, where it has a value.
fn index_lies(count: u64, value: Option<Abs>) -> bool
    ensures { result ≡ index_lies count (option_map abstract_of value) }
{
    match value {
        Some(a) => 0 <= a.range.lo && a.range.hi < i128::from(count),
        None => true,
    }
}

/// The variable with a number.
pub(crate) fn variable_at<'a, 's>(
    variables: &'a [Variable<'s>],
    n: usize,
) -> Option<&'a Variable<'s>>
    ensures { option_map plain_variable (option_copied result) ≡ slice_get (map plain_variable variables.now) n }
{
    variables.get(n)
}

/// Whether a variable is there, and is a frame variable.
fn is_frame(variable: Option<&Variable<'_>>) -> bool
    ensures { result ≡ is_frame (option_map plain_variable (option_copied variable.entry)) }
{
    match variable {
        Some(v) => v.frame,
        None => false,
    }
}
