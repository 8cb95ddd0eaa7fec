//! What isn't clean in statements that hold no others: assignments, updates, copies and declarations.

ghost use Rattle.std.specs.Prelude.{◌≡◌, ◌++◌, map, slice_get, OnOk, IfOk};
ghost use Rattle.std.specs.Option.{option_map, option_copied};
ghost use Rattle.p10_core.specs.Views.{plain_value, plain_place, plain_written, plain_item, plain_initializer, plain_variable};
ghost use Rattle.p10_core.specs.Nodes.{nodes_of_initializer};
ghost use Rattle.p10_core.specs.Walks.{plain_node, left_in};
ghost use Rattle.p10_absx.specs.Abstract.{abstract_of};
ghost use Rattle.p10_absx.specs.Trails.{with_values};
ghost use Rattle.p10_pass.specs.Passing.{before_update};
ghost use Rattle.p10_pass.specs.Manners.{manner_by};
ghost use Rattle.p10_clean.specs.Statements.{is_variable, names_variable, lacks_value, written_flaws, goes_past, flaws_in_items, flaws_in_initializer, declaring, declaration_flaws};
ghost use Rattle.p10_clean.specs.private.Code.{settings_of};
ghost use Rattle.p10_clean.specs.private.Assigning.{set_flaws, update_row, copy_flaws, operator_flaws, frame_flaws, object_flaws};

use crate::flaw::{Flaw, push_if};
use crate::literals::push_target;
use crate::operations::push_operands;
use crate::values::{Look, Operator, variable_at};
use p10_absx::{Abs, Env, converted, whole_type};
use p10_core::{
    Initializer, Item, Node, Nodes, Place, PlaceForm, Value, Variable, Written, integer_of,
};
use std::alloc::{AllocError, Global};

impl Look<'_, '_> {
    /// Puts the flaws in `P = e;`.
    pub fn put_set(
        &self,
        target: &Place,
        v: &Value,
        env: &mut Env,
        flaws: &mut Vec<Flaw>,
    ) -> Result<(), AllocError>
        ensures same { OnOk result (env.new ≡ env.old) }
        ensures flaws { OnOk result (flaws.new.items ≡ flaws.old.items ++ set_flaws (manner_by self.now.m.now) (settings_of self.now.set.now) (plain_place target.now) (plain_value v.now) env.old.values) }
    {
        push_target(target, flaws)?;
        self.put_place(target, env, flaws)?;
        self.put_value(v, env, flaws)
    }

    /// Puts the flaws in a structure's copy.
    pub fn put_copy(
        &self,
        target: &Place,
        source: &Place,
        env: &mut Env,
        flaws: &mut Vec<Flaw>,
    ) -> Result<(), AllocError>
        ensures same { OnOk result (env.new ≡ env.old) }
        ensures flaws { OnOk result (flaws.new.items ≡ flaws.old.items ++ copy_flaws (manner_by self.now.m.now) (settings_of self.now.set.now) (plain_place target.now) (plain_place source.now) env.old.values) }
    {
        push_target(target, flaws)?;
        self.put_place(target, env, flaws)?;
        self.put_place(source, env, flaws)
    }

    /// Puts the flaws in `P op= e;`.
    pub fn put_update(
        &self,
        operator: Operator,
        target: &Place,
        v: &Value,
        env: &mut Env,
        flaws: &mut Vec<Flaw>,
    ) -> Result<(), AllocError>
        ensures same { OnOk result (env.new ≡ env.old) }
        ensures flaws { OnOk result (flaws.new.items ≡ flaws.old.items ++ update_row (manner_by self.now.m.now) (settings_of self.now.set.now) operator.at operator.op operator.t (plain_place target.now) (plain_value v.now) env.old.values) }
    {
        push_target(target, flaws)?;
        self.push_read(target, flaws)?;
        self.push_operator(operator, target, v, env, flaws)?;
        self.put_place(target, env, flaws)?;
        self.put_value(v, env, flaws)
    }

    /// Puts the flaws of the operator of an update.
    fn push_operator(
        &self,
        operator: Operator,
        target: &Place,
        v: &Value,
        env: &mut Env,
        flaws: &mut Vec<Flaw>,
    ) -> Result<(), AllocError>
        ensures same { OnOk result (env.new ≡ env.old) }
        ensures flaws { OnOk result (flaws.new.items ≡ flaws.old.items ++ operator_flaws (manner_by self.now.m.now) operator.at operator.op operator.t (plain_place target.now) (plain_value v.now) env.old.values) }
    {
        if !target.ty.is_integer() {
            return push_if(true, 5, operator.at, flaws);
        }
        let value = env.value(self.alloc, self.m.calls, v)?;
        let before = Some(converted(operator.t, before_update(target, env)));
        push_operands(operator.at, operator.op, operator.t, before, value, flaws)
    }

    /// Puts the flaws in the declaration of a variable.
    pub fn put_declared(
        &self,
        n: u32,
        initial: &Initializer,
        env: &Env,
        flaws: &mut Vec<Flaw>,
    ) -> Result<(), AllocError>
        ensures { OnOk result (flaws.new.items ≡ flaws.old.items ++ declaration_flaws (manner_by self.now.m.now) (settings_of self.now.set.now) n (slice_get (manner_by self.now.m.now).variables n) (plain_initializer initial.now) env.now.values) }
    {
        match variable_at(self.m.variables, n as usize) {
            Some(v) => {
                if v.frame {
                    self.put_frame(n, v, initial, env, flaws)
                } else {
                    self.put_object(n, v, initial, env, flaws)
                }
            }
            None => Ok(()),
        }
    }

    /// The same for a frame variable, which isn't set yet where its initialiser is evaluated.
    fn put_frame(
        &self,
        n: u32,
        v: &Variable<'_>,
        initial: &Initializer,
        env: &Env,
        flaws: &mut Vec<Flaw>,
    ) -> Result<(), AllocError>
        ensures { OnOk result (flaws.new.items ≡ flaws.old.items ++ frame_flaws (manner_by self.now.m.now) (settings_of self.now.set.now) n (plain_variable v.now) (plain_initializer initial.now) env.now.values) }
    {
        let mut unset = self.set.copy(self.alloc)?;
        unset.mark(false, n);
        let mut here = declaring(self.alloc, n, v, env)?;
        let look = Look {
            alloc: self.alloc,
            m: self.m,
            set: &unset,
        };
        look.put_initializer(initial, &mut here, flaws)?;
        Ok(())
    }

    /// The same for an object, which needs an initialiser without itself.
    fn put_object(
        &self,
        n: u32,
        v: &Variable<'_>,
        initial: &Initializer,
        env: &Env,
        flaws: &mut Vec<Flaw>,
    ) -> Result<(), AllocError>
        ensures { OnOk result (flaws.new.items ≡ flaws.old.items ++ object_flaws (manner_by self.now.m.now) (settings_of self.now.set.now) n (plain_variable v.now) (plain_initializer initial.now) env.now.values) }
    {
        let lacks = lacks_value(self.alloc, n, initial)?;
        push_if(lacks, 6, v.span, flaws)?;
        let mut here = env.copy(self.alloc)?;
        self.put_initializer(initial, &mut here, flaws)?;
        Ok(())
    }

    /// Puts the flaws in an initialiser.
    fn put_initializer(
        &self,
        initial: &Initializer,
        env: &mut Env,
        flaws: &mut Vec<Flaw>,
    ) -> Result<(), AllocError>
        ensures { OnOk result (flaws.new.items ≡ flaws.old.items ++ flaws_in_initializer (manner_by self.now.m.now) (settings_of self.now.set.now) (plain_initializer initial.now) env.old.values) }
    {
        match initial {
            Initializer::Absent => Ok(()),
            Initializer::Single(v) => self.put_value(v, env, flaws),
            Initializer::Copied(source) => self.put_place(source, env, flaws),
            Initializer::Listed(_, items) => self.put_items(items.as_slice(), env, flaws),
        }
    }

    /// Puts the flaws in the values of a list, one after the other.
    fn put_items(
        &self,
        items: &[Item],
        env: &mut Env,
        flaws: &mut Vec<Flaw>,
    ) -> Result<(), AllocError>
        ensures { OnOk result (flaws.new.items ≡ flaws.old.items ++ flaws_in_items (manner_by self.now.m.now) (settings_of self.now.set.now) (map plain_item items.now) env.old.values) }
    {
        for item in items {
            self.put_written(&item.written, env, flaws)?;
            if !self.goes_past(&item.written, env)? {
                return Ok(());
            }
        }
        Ok(())
    }

    /// Puts the flaws in what is written for scalars.
    fn put_written(
        &self,
        written: &Written,
        env: &mut Env,
        flaws: &mut Vec<Flaw>,
    ) -> Result<(), AllocError>
        ensures same { OnOk result (env.new ≡ env.old) }
        ensures flaws { OnOk result (flaws.new.items ≡ flaws.old.items ++ written_flaws (manner_by self.now.m.now) (settings_of self.now.set.now) (plain_written written.now) env.old.values) }
    {
        match written {
            Written::Scalar(v) => self.put_value(v, env, flaws),
            Written::Text(_) => Ok(()),
        }
    }

    /// Whether the next item of a list is reached after what is written.
    fn goes_past(&self, written: &Written, env: &mut Env) -> Result<bool, AllocError>
        ensures same { OnOk result (env.new ≡ env.old) }
        ensures goes { IfOk result (λ b. b ≡ goes_past (manner_by self.now.m.now) (plain_written written.now) env.old.values) }
    {
        match written {
            Written::Scalar(v) => self.has_value(v, env),
            Written::Text(_) => Ok(true),
        }
    }
}

/// What a place has before it is updated.
fn before_update(target: &Place, env: &Env) -> Abs
    ensures { abstract_of result ≡ before_update (plain_place target.now) env.now.values }
{
    match &target.form {
        PlaceForm::Var(n) => match env.get(*n) {
            Some(a) => a,
            None => whole_type(integer_of(&target.ty)),
        },
        PlaceForm::Global(_)
        | PlaceForm::Literal(_, _)
        | PlaceForm::Index(_, _)
        | PlaceForm::Member(_, _)
        | PlaceForm::Deref(_) => whole_type(integer_of(&target.ty)),
    }
}

/// The environment in which the initialiser of a variable is evaluated.
fn declaring(alloc: Global, n: u32, v: &Variable<'_>, env: &Env) -> Result<Env, AllocError>
    ensures { IfOk result (λ e. e.values ≡ declaring n (plain_variable v.now) env.now.values) }
{
    let mut here = env.copy(alloc)?;
    if v.ty.is_integer() {
        here.set(n, whole_type(integer_of(&v.ty)));
    }
    Ok(here)
}

/// Whether an object has no initialiser, or is named in it.
fn lacks_value(alloc: Global, n: u32, initial: &Initializer) -> Result<bool, AllocError>
    ensures { IfOk result (λ b. b ≡ lacks_value n (plain_initializer initial.now)) }
{
    match initial {
        Initializer::Absent => Ok(true),
        Initializer::Single(_) | Initializer::Copied(_) | Initializer::Listed(_, _) => {
            names_variable(alloc, n, initial)
        }
    }
}

/// Whether a variable is named in an initialiser.
fn names_variable(alloc: Global, n: u32, initial: &Initializer) -> Result<bool, AllocError>
    ensures { IfOk result (λ b. b ≡ names_variable n (nodes_of_initializer (plain_initializer initial.now))) }
{
    let mut nodes = Nodes::of_initializer(alloc, initial)?;
    while let Some(node) = nodes.next()? {
        if is_variable(n, node) {
            return Ok(true);
        }
    }
    Ok(false)
}

/// Whether a node is a variable.
fn is_variable(n: u32, node: Node<'_>) -> bool
    ensures { result ≡ is_variable n (plain_node node.entry) }
{
    match node {
        Node::Place(place) => match &place.form {
            PlaceForm::Var(k) => *k == n,
            PlaceForm::Global(_)
            | PlaceForm::Literal(_, _)
            | PlaceForm::Index(_, _)
            | PlaceForm::Member(_, _)
            | PlaceForm::Deref(_) => false,
        },
        Node::Stmt(_) | Node::Value(_) => false,
    }
}
