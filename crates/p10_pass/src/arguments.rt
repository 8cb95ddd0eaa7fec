//! Which calls in values have arguments that aren't in their claimed ranges (K3).

ghost use Rattle.std.specs.Prelude.{◌≡◌, ◌++◌, ◌∷◌, [], ◌&&◌, not, true, false, map, slice_get, if◌then◌else◌, Some, OnOk, IfOk};
ghost use Rattle.std.specs.Option.{option_map, option_copied};
ghost use Rattle.p10_core.specs.Views.{plain_value, plain_place, plain_values};
ghost use Rattle.p10_range.specs.Ranges.{interval_of};
ghost use Rattle.p10_cert.specs.Claims.{value_of, func_of, claims_of};
ghost use Rattle.p10_absx.specs.Abstract.{abstract_of};
ghost use Rattle.p10_absx.specs.Assessing.{assess, known_where};
ghost use Rattle.p10_absx.specs.Entering.{claims_on};
ghost use Rattle.p10_pass.specs.Arguments.{has_value, all_have_values, lies_in, arguments_lie, where_reached, goes_on_where, failing_calls, failing_in_values, failing_in_place, failing_in, failing_at};
ghost use Rattle.p10_pass.specs.private.Lying.{argument_lies, arguments_lie_from};

use crate::calling::has_call;
use p10_absx::{Abs, Env, lies_within};
use p10_base::Span;
use p10_cert::{Cert, FuncClaim, ValueClaim};
use p10_core::{LogicOp, Place, PlaceForm, Value, ValueForm};
use p10_range::Range;
use std::alloc::{AllocError, Global};

/// Whether a value leaves a state: a pointer does, and an integer, or a cast to `void`, where it has a value.
pub(crate) fn has_value(
    alloc: Global,
    c: Option<&Cert>,
    v: &Value,
    env: &mut Env,
) -> Result<bool, AllocError>
    ensures same { OnOk result (env.new ≡ env.old) }
    ensures has { IfOk result (λ b. b ≡ has_value (option_map claims_of (option_copied c.entry)) (plain_value v.now) env.old.values) }
{
    if v.ty.is_pointer() {
        return Ok(true);
    }
    let value = env.value(alloc, c, v)?;
    Ok(value.is_some())
}

/// Puts the names of the calls in a value that fail, in text order, where a certificate stands.
pub(crate) fn put_failing(
    alloc: Global,
    c: Option<&Cert>,
    v: &Value,
    env: &mut Env,
    names: &mut Vec<Span>,
) -> Result<(), AllocError>
    ensures same { OnOk result (env.new ≡ env.old) }
    ensures names { OnOk result (names.new.items ≡ names.old.items ++ failing_in (option_map claims_of (option_copied c.entry)) (plain_value v.now) env.old.values) }
{
    match c {
        Some(cert) => Calls { alloc, cert }.put_value(v, env, names),
        None => Ok(()),
    }
}

/// The same for a place.
pub(crate) fn put_failing_at(
    alloc: Global,
    c: Option<&Cert>,
    p: &Place,
    env: &mut Env,
    names: &mut Vec<Span>,
) -> Result<(), AllocError>
    ensures same { OnOk result (env.new ≡ env.old) }
    ensures names { OnOk result (names.new.items ≡ names.old.items ++ failing_at (option_map claims_of (option_copied c.entry)) (plain_place p.now) env.old.values) }
{
    match c {
        Some(cert) => Calls { alloc, cert }.put_place(p, env, names),
        None => Ok(()),
    }
}

/// Whether a number lies in a range.
fn lies_in(known: Option<Abs>, range: Range) -> bool
    ensures { result ≡ lies_in (option_map abstract_of known) (interval_of range) }
{
    match known {
        Some(a) => lies_within(a.range, range),
        None => true,
    }
}

/// The truth of its left operand with which `&&` and `||` go on to the right one.
fn goes_on_where(op: LogicOp) -> bool
    ensures { result ≡ goes_on_where op }
{
    match op {
        LogicOp::And => true,
        LogicOp::Or => false,
    }
}

/// What is claimed of the parameters of the function with a number.
fn claims_on(functions: &[FuncClaim], number: usize) -> &[ValueClaim]
    ensures { map value_of result.now ≡ claims_on (slice_get (map func_of functions.now) number) }
{
    match functions.get(number) {
        Some(claim) => claim.params.as_slice(),
        None => &[],
    }
}

/// The claims that calls have to keep.
#[derive(Clone, Copy)]
struct Calls<'a> {
    alloc: Global,
    cert: &'a Cert,
}

impl Calls<'_> {
    /// Whether all arguments have values, one after the other.
    fn all_have_values(&self, arguments: &[Value], env: &mut Env) -> Result<bool, AllocError>
        ensures same { OnOk result (env.new ≡ env.old) }
        ensures has { IfOk result (λ b. b ≡ all_have_values (Some (claims_of self.now.cert.now)) (plain_values arguments.now) env.old.values) }
    {
        for v in arguments {
            if !has_value(self.alloc, Some(self.cert), v, env)? {
                return Ok(false);
            }
        }
        Ok(true)
    }

    /// Whether an argument lies in what is claimed of its parameter, if anything is.
    fn argument_lies(
        &self,
        claim: Option<ValueClaim>,
        v: &Value,
        env: &mut Env,
    ) -> Result<bool, AllocError>
        ensures same { OnOk result (env.new ≡ env.old) }
        ensures lies { IfOk result (λ b. b ≡ argument_lies (Some (claims_of self.now.cert.now)) (option_map value_of claim) (plain_value v.now) env.old.values) }
    {
        match claim {
            Some(ValueClaim::Ints(range)) => {
                let known = env.value(self.alloc, Some(self.cert), v)?;
                Ok(lies_in(known, range))
            }
            Some(ValueClaim::Pointer) => Ok(true),
            Some(ValueClaim::Void) => Ok(true),
            None => Ok(true),
        }
    }

    /// Whether arguments lie in the ranges that are claimed of parameters.
    fn arguments_lie(
        &self,
        claims: &[ValueClaim],
        arguments: &[Value],
        env: &mut Env,
    ) -> Result<bool, AllocError>
        ensures same { OnOk result (env.new ≡ env.old) }
        ensures lies { IfOk result (λ b. b ≡ arguments_lie_from (Some (claims_of self.now.cert.now)) (map value_of claims.now) 0 (plain_values arguments.now) env.old.values) }
    {
        for (k, v) in arguments.iter().enumerate() {
            if !self.argument_lies(claim_at(claims, k), v, env)? {
                return Ok(false);
            }
        }
        Ok(true)
    }

    /// Whether a call is reached, and an argument isn't in its claimed range.
    fn call_fails(&self, n: u32, arguments: &[Value], env: &mut Env) -> Result<bool, AllocError>
        ensures same { OnOk result (env.new ≡ env.old) }
        ensures fails { IfOk result (λ b. b ≡ (all_have_values (Some (claims_of self.now.cert.now)) (plain_values arguments.now) env.old.values && not (arguments_lie (Some (claims_of self.now.cert.now)) (claims_on (slice_get (claims_of self.now.cert.now).funcs n)) (plain_values arguments.now) env.old.values))) }
    {
        if !self.all_have_values(arguments, env)? {
            return Ok(false);
        }
        let claims = claims_on(self.cert.funcs.as_slice(), n as usize);
        let lie = self.arguments_lie(claims, arguments, env)?;
        Ok(!lie)
    }

    /// Puts the name of a call that fails.
    fn put_call(
        &self,
        name: Span,
        n: u32,
        arguments: &[Value],
        env: &mut Env,
        names: &mut Vec<Span>,
    ) -> Result<(), AllocError>
        ensures same { OnOk result (env.new ≡ env.old) }
        ensures names { OnOk result (names.new.items ≡ names.old.items ++ (if all_have_values (Some (claims_of self.now.cert.now)) (plain_values arguments.now) env.old.values && not (arguments_lie (Some (claims_of self.now.cert.now)) (claims_on (slice_get (claims_of self.now.cert.now).funcs n)) (plain_values arguments.now) env.old.values) then name ∷ [] else [])) }
    {
        if self.call_fails(n, arguments, env)? {
            names.push(name)?;
        }
        Ok(())
    }

    /// Puts the names of the calls in a value that fail, in text order.
    #[cycle(failing)]
    fn put_value(&self, v: &Value, env: &mut Env, names: &mut Vec<Span>) -> Result<(), AllocError>
        ensures same { OnOk result (env.new ≡ env.old) }
        ensures names { OnOk result (names.new.items ≡ names.old.items ++ failing_calls (claims_of self.now.cert.now) (plain_value v.now) env.old.values) }
    {
        match &v.form {
            ValueForm::Const(_) | ValueForm::Sense(_) => Ok(()),
            ValueForm::Read(p) | ValueForm::Addr(p) | ValueForm::Decay(p) => self.put_place(
                p, env, names,
            ),
            ValueForm::Convert(part) | ValueForm::Cast(part) | ValueForm::Unary(_, part) => {
                self.put_value(part, env, names)
            }
            ValueForm::Binary(_, a, b) => {
                self.put_value(a, env, names)?;
                self.put_after(b, a, env, names)
            }
            ValueForm::Logic(op, a, b) => {
                self.put_value(a, env, names)?;
                self.put_where(b, goes_on_where(*op), a, env, names)
            }
            ValueForm::Cond(test, a, b) => {
                self.put_value(test, env, names)?;
                self.put_where(a, true, test, env, names)?;
                self.put_where(b, false, test, env, names)
            }
            ValueForm::Call(name, n, arguments) => {
                self.put_call(*name, *n, arguments.as_slice(), env, names)?;
                self.put_values(arguments.as_slice(), env, names)
            }
            ValueForm::Builtin(_, _, arguments) => self.put_values(
                arguments.as_slice(),
                env,
                names,
            ),
        }
    }

    /// The same for the second one of two values, where the first one leaves a state. The first one is tried only where something is called
    /// in the second one: so a high expression isn't gone over again at each of its operators.
    #[cycle(failing)]
    fn put_after(
        &self,
        second: &Value,
        first: &Value,
        env: &mut Env,
        names: &mut Vec<Span>,
    ) -> Result<(), AllocError>
        ensures same { OnOk result (env.new ≡ env.old) }
        ensures names { OnOk result (names.new.items ≡ names.old.items ++ (if has_value (Some (claims_of self.now.cert.now)) (plain_value first.now) env.old.values then failing_calls (claims_of self.now.cert.now) (plain_value second.now) env.old.values else [])) }
    {
        if has_call(second) {
            self.put_called(second, first, env, names)
        } else {
            Ok(())
        }
    }

    /// The same where something is called in the second one.
    #[cycle(failing)]
    fn put_called(
        &self,
        second: &Value,
        first: &Value,
        env: &mut Env,
        names: &mut Vec<Span>,
    ) -> Result<(), AllocError>
        ensures same { OnOk result (env.new ≡ env.old) }
        ensures names { OnOk result (names.new.items ≡ names.old.items ++ (if has_value (Some (claims_of self.now.cert.now)) (plain_value first.now) env.old.values then failing_calls (claims_of self.now.cert.now) (plain_value second.now) env.old.values else [])) }
    {
        if has_value(self.alloc, Some(self.cert), first, env)? {
            self.put_value(second, env, names)
        } else {
            Ok(())
        }
    }

    /// The same for a value that is evaluated where a test is true or false. The test is tried only where something is called in the value.
    #[cycle(failing)]
    fn put_where(
        &self,
        v: &Value,
        truth: bool,
        test: &Value,
        env: &mut Env,
        names: &mut Vec<Span>,
    ) -> Result<(), AllocError>
        ensures same { OnOk result (env.new ≡ env.old) }
        ensures names { OnOk result (names.new.items ≡ names.old.items ++ where_reached (known_where truth env.old.values (assess (Some (claims_of self.now.cert.now)) (plain_value test.now) env.old.values)) (λ e. failing_calls (claims_of self.now.cert.now) (plain_value v.now) e)) }
    {
        if has_call(v) {
            self.put_entered(v, truth, test, env, names)
        } else {
            Ok(())
        }
    }

    /// The same for a value in which something is called.
    #[cycle(failing)]
    fn put_entered(
        &self,
        v: &Value,
        truth: bool,
        test: &Value,
        env: &mut Env,
        names: &mut Vec<Span>,
    ) -> Result<(), AllocError>
        ensures same { OnOk result (env.new ≡ env.old) }
        ensures names { OnOk result (names.new.items ≡ names.old.items ++ where_reached (known_where truth env.old.values (assess (Some (claims_of self.now.cert.now)) (plain_value test.now) env.old.values)) (λ e. failing_calls (claims_of self.now.cert.now) (plain_value v.now) e)) }
    {
        if env.enter_where(self.alloc, Some(self.cert), test, truth)? {
            self.put_value(v, env, names)?;
            env.leave();
        }
        Ok(())
    }

    /// The same for values, one after the other.
    #[cycle(failing)]
    fn put_values(
        &self,
        all: &[Value],
        env: &mut Env,
        names: &mut Vec<Span>,
    ) -> Result<(), AllocError>
        ensures same { OnOk result (env.new ≡ env.old) }
        ensures names { OnOk result (names.new.items ≡ names.old.items ++ failing_in_values (claims_of self.now.cert.now) (plain_values all.now) env.old.values) }
    {
        for v in all {
            self.put_value(v, env, names)?;
            if !has_value(self.alloc, Some(self.cert), v, env)? {
                return Ok(());
            }
        }
        Ok(())
    }

    /// The same for a place.
    #[cycle(failing)]
    fn put_place(&self, p: &Place, env: &mut Env, names: &mut Vec<Span>) -> Result<(), AllocError>
        ensures same { OnOk result (env.new ≡ env.old) }
        ensures names { OnOk result (names.new.items ≡ names.old.items ++ failing_in_place (claims_of self.now.cert.now) (plain_place p.now) env.old.values) }
    {
        match &p.form {
            PlaceForm::Var(_) | PlaceForm::Global(_) | PlaceForm::Literal(_, _) => Ok(()),
            PlaceForm::Index(a, i) => {
                self.put_value(a, env, names)?;
                self.put_after(i, a, env, names)
            }
            PlaceForm::Member(whole, _) => self.put_place(whole, env, names),
            PlaceForm::Deref(pointer) => self.put_value(pointer, env, names),
        }
    }
}

/// What is claimed of the parameter with a number.
fn claim_at(claims: &[ValueClaim], k: usize) -> Option<ValueClaim>
    ensures { option_map value_of result ≡ slice_get (map value_of claims.now) k }
{
    match claims.get(k) {
        Some(claim) => Some(*claim),
        None => None,
    }
}
