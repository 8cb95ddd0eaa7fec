//! What isn't clean in statements, where the pass comes to them.

ghost use Rattle.std.specs.Prelude.{◌≡◌, ◌++◌, None, OnOk, IfOk};
ghost use Rattle.std.specs.Option.{option_map};
ghost use Rattle.p10_core.specs.Views.{plain_value, plain_labels, plain_statement, plain_statements};
ghost use Rattle.p10_pass.specs.Arguments.{where_reached};
ghost use Rattle.p10_pass.specs.Passing.{where_going, pass_statement, pass_statements};
ghost use Rattle.p10_pass.specs.Leaving.{values_in};
ghost use Rattle.p10_pass.specs.Manners.{manner_by};
ghost use Rattle.p10_clean.specs.Settings.{ways_of, ways_of_all};
ghost use Rattle.p10_clean.specs.Statements.{flaws_in_statement, flaws_in_statements, flaws_in_switch, flaws_from};
ghost use Rattle.p10_clean.specs.private.Code.{settings_of};
ghost use Rattle.p10_clean.specs.private.Walking.{branch_flaws, otherwise_flaws, loop_flaws, switch_flaws, headed_flaws, entered_flaws};

use crate::flaw::Flaw;
use crate::settings::Settings;
use crate::standing::Standing;
use crate::values::{Look, Operator};
use p10_absx::Env;
use p10_core::{Labels, LoopKeyword, Stmt, StmtForm, Value, integer_of};
use p10_pass::{Manner, is_marked, label_marks, pass_statement};
use std::alloc::{AllocError, Global};

/// A walk over the statements of a function.
#[derive(Clone, Copy)]
pub(crate) struct Walk<'a, 's> {
    pub alloc: Global,
    pub m: &'a Manner<'a, 's>,
}

impl Walk<'_, '_> {
    /// Puts the flaws in a statement, where these things are set and known.
    #[cycle(walking)]
    pub fn put_statement(
        &self,
        s: &Stmt,
        set: &Settings,
        env: &mut Env,
        flaws: &mut Vec<Flaw>,
    ) -> Result<(), AllocError>
        ensures same { OnOk result (env.new ≡ env.old) }
        ensures flaws { OnOk result (flaws.new.items ≡ flaws.old.items ++ flaws_in_statement (manner_by self.now.m.now) (plain_statement s.now) (settings_of set.now) env.old.values) }
    {
        let look = Look {
            alloc: self.alloc,
            m: self.m,
            set,
        };
        match &s.form {
            StmtForm::Set(target, v) => look.put_set(target, v, env, flaws),
            StmtForm::Update(_, op, t, target, v) => {
                let operator = Operator {
                    at: s.at.span,
                    op: *op,
                    t: integer_of(t),
                };
                look.put_update(operator, target, v, env, flaws)
            }
            StmtForm::Copy(target, source) => look.put_copy(target, source, env, flaws),
            StmtForm::Value(v) => look.put_value(v, env, flaws),
            StmtForm::Assert(_, v) => look.put_value(v, env, flaws),
            StmtForm::Declare(n, initial) => look.put_declared(*n, initial, env, flaws),
            StmtForm::Block(items) => self.put_block(items.as_slice(), set, env, flaws),
            StmtForm::If(_, _, None) => self.put_branches(s, set, env, flaws),
            StmtForm::If(_, _, Some(_)) => self.put_branches(s, set, env, flaws),
            StmtForm::Loop(_, _, _, _, _) => self.put_loop(s, set, env, flaws),
            StmtForm::Switch(_, _, _, _) => self.put_switch(s, set, env, flaws),
            StmtForm::Return(_, v) => look.put_maybe(v, env, flaws),
            StmtForm::Static(_)
            | StmtForm::Break
            | StmtForm::Continue
            | StmtForm::Empty
            | StmtForm::Mark(_) => Ok(()),
        }
    }

    /// The same where a state may not come.
    #[cycle(walking)]
    fn put_there(
        &self,
        s: &Stmt,
        set: &Settings,
        known: Option<Env>,
        flaws: &mut Vec<Flaw>,
    ) -> Result<(), AllocError>
        ensures { OnOk result (flaws.new.items ≡ flaws.old.items ++ where_reached (values_in known) (λ env. flaws_in_statement (manner_by self.now.m.now) (plain_statement s.now) (settings_of set.now) env)) }
    {
        match known {
            Some(env) => {
                let mut here = env;
                self.put_statement(s, set, &mut here, flaws)?;
                Ok(())
            }
            None => Ok(()),
        }
    }

    /// Puts the flaws in the statements of a block.
    #[cycle(walking)]
    pub fn put_block(
        &self,
        items: &[Stmt],
        set: &Settings,
        env: &Env,
        flaws: &mut Vec<Flaw>,
    ) -> Result<(), AllocError>
        ensures { OnOk result (flaws.new.items ≡ flaws.old.items ++ flaws_in_statements (manner_by self.now.m.now) (plain_statements items.now) (settings_of set.now) env.now.values) }
    {
        let mut at = Standing::at(self.alloc, set, env)?;
        self.put_all(items, &mut at, flaws)?;
        Ok(())
    }

    /// Goes over statements, one after the other, and puts their flaws.
    #[cycle(walking)]
    fn put_all(
        &self,
        items: &[Stmt],
        at: &mut Standing,
        flaws: &mut Vec<Flaw>,
    ) -> Result<(), AllocError>
        ensures known { OnOk result (values_in at.new.known ≡ (where_going (values_in at.old.known) (pass_statements (manner_by self.now.m.now) (plain_statements items.now))).normal) }
        ensures set { OnOk result (settings_of at.new.set ≡ (ways_of_all (plain_statements items.now) (settings_of at.old.set)).normal) }
        ensures flaws { OnOk result (flaws.new.items ≡ flaws.old.items ++ where_reached (values_in at.old.known) (λ env. flaws_in_statements (manner_by self.now.m.now) (plain_statements items.now) (settings_of at.old.set) env)) }
    {
        for s in items {
            self.put_next(s, at, flaws)?;
        }
        Ok(())
    }

    /// Goes past one statement, and puts its flaws.
    #[cycle(walking)]
    fn put_next(&self, s: &Stmt, at: &mut Standing, flaws: &mut Vec<Flaw>) -> Result<(), AllocError>
        ensures known { OnOk result (values_in at.new.known ≡ (where_going (values_in at.old.known) (pass_statement (manner_by self.now.m.now) (plain_statement s.now))).normal) }
        ensures set { OnOk result (settings_of at.new.set ≡ (ways_of (plain_statement s.now) (settings_of at.old.set)).normal) }
        ensures flaws { OnOk result (flaws.new.items ≡ flaws.old.items ++ where_reached (values_in at.old.known) (λ env. flaws_in_statement (manner_by self.now.m.now) (plain_statement s.now) (settings_of at.old.set) env)) }
    {
        self.put_reached(s, at, flaws)?;
        at.go_past(self.alloc, s)
    }

    /// The same, except that what is set stays as it was before.
    #[cycle(walking)]
    fn put_reached(
        &self,
        s: &Stmt,
        at: &mut Standing,
        flaws: &mut Vec<Flaw>,
    ) -> Result<(), AllocError>
        ensures known { OnOk result (values_in at.new.known ≡ (where_going (values_in at.old.known) (pass_statement (manner_by self.now.m.now) (plain_statement s.now))).normal) }
        ensures set { OnOk result (settings_of at.new.set ≡ settings_of at.old.set) }
        ensures flaws { OnOk result (flaws.new.items ≡ flaws.old.items ++ where_reached (values_in at.old.known) (λ env. flaws_in_statement (manner_by self.now.m.now) (plain_statement s.now) (settings_of at.old.set) env)) }
    {
        match at.known.take() {
            Some(env) => {
                let mut here = env;
                self.put_statement(s, &at.set, &mut here, flaws)?;
                let mut left = pass_statement(self.alloc, self.m, s, here)?;
                at.known = left.normal.take();
                Ok(())
            }
            None => Ok(()),
        }
    }

    /// Puts the flaws in an `if`.
    #[cycle(walking)]
    fn put_branches(
        &self,
        s: &Stmt,
        set: &Settings,
        env: &mut Env,
        flaws: &mut Vec<Flaw>,
    ) -> Result<(), AllocError>
        ensures same { OnOk result (env.new ≡ env.old) }
        ensures flaws { OnOk result (flaws.new.items ≡ flaws.old.items ++ branch_flaws (manner_by self.now.m.now) (plain_statement s.now) (settings_of set.now) env.old.values) }
    {
        let look = Look {
            alloc: self.alloc,
            m: self.m,
            set,
        };
        match &s.form {
            StmtForm::If(v, then, other) => {
                look.put_value(v, env, flaws)?;
                let truth = self.known_where(v, true, env)?;
                self.put_there(then, set, truth, flaws)?;
                self.put_otherwise(other, v, set, env, flaws)
            }
            StmtForm::Set(_, _)
            | StmtForm::Update(_, _, _, _, _)
            | StmtForm::Copy(_, _)
            | StmtForm::Value(_)
            | StmtForm::Assert(_, _)
            | StmtForm::Declare(_, _)
            | StmtForm::Static(_)
            | StmtForm::Block(_)
            | StmtForm::Loop(_, _, _, _, _)
            | StmtForm::Switch(_, _, _, _)
            | StmtForm::Break
            | StmtForm::Continue
            | StmtForm::Return(_, _)
            | StmtForm::Empty
            | StmtForm::Mark(_) => Ok(()),
        }
    }

    /// Puts the flaws in the branch of an `if` that is executed where its test is false, if there is one.
    #[cycle(walking)]
    fn put_otherwise(
        &self,
        branch: &Option<Box<Stmt>>,
        test: &Value,
        set: &Settings,
        env: &Env,
        flaws: &mut Vec<Flaw>,
    ) -> Result<(), AllocError>
        ensures { OnOk result (flaws.new.items ≡ flaws.old.items ++ otherwise_flaws (manner_by self.now.m.now) (plain_value test.now) (option_map (λ b. plain_statement b.value) branch.now) (settings_of set.now) env.now.values) }
    {
        match branch {
            Some(other) => {
                let contrary = self.known_where(test, false, env)?;
                self.put_there(other, set, contrary, flaws)
            }
            None => Ok(()),
        }
    }

    /// Puts the flaws in a loop.
    #[cycle(walking)]
    fn put_loop(
        &self,
        s: &Stmt,
        set: &Settings,
        env: &Env,
        flaws: &mut Vec<Flaw>,
    ) -> Result<(), AllocError>
        ensures { OnOk result (flaws.new.items ≡ flaws.old.items ++ loop_flaws (manner_by self.now.m.now) (plain_statement s.now) (settings_of set.now) env.now.values) }
    {
        match &s.form {
            StmtForm::Loop(_, first, _, _, _) => {
                let mut at = Standing::at(self.alloc, set, env)?;
                self.put_all(first.as_slice(), &mut at, flaws)?;
                self.put_entered(s, at, flaws)
            }
            StmtForm::Set(_, _)
            | StmtForm::Update(_, _, _, _, _)
            | StmtForm::Copy(_, _)
            | StmtForm::Value(_)
            | StmtForm::Assert(_, _)
            | StmtForm::Declare(_, _)
            | StmtForm::Static(_)
            | StmtForm::Block(_)
            | StmtForm::If(_, _, None)
            | StmtForm::If(_, _, Some(_))
            | StmtForm::Switch(_, _, _, _)
            | StmtForm::Break
            | StmtForm::Continue
            | StmtForm::Return(_, _)
            | StmtForm::Empty
            | StmtForm::Mark(_) => Ok(()),
        }
    }

    /// Puts the flaws in a loop after its first clause.
    #[cycle(walking)]
    fn put_entered(&self, s: &Stmt, at: Standing, flaws: &mut Vec<Flaw>) -> Result<(), AllocError>
        ensures { OnOk result (flaws.new.items ≡ flaws.old.items ++ where_reached (values_in at.known) (λ env. entered_flaws (manner_by self.now.m.now) (plain_statement s.now) (settings_of at.set) env)) }
    {
        let Standing { known, set } = at;
        match known {
            Some(entry) => {
                self.put_from_entry(s, &set, &entry, flaws)?;
                Ok(())
            }
            None => Ok(()),
        }
    }

    /// Puts the flaws in a loop that is entered.
    #[cycle(walking)]
    fn put_from_entry(
        &self,
        s: &Stmt,
        set: &Settings,
        entry: &Env,
        flaws: &mut Vec<Flaw>,
    ) -> Result<(), AllocError>
        ensures { OnOk result (flaws.new.items ≡ flaws.old.items ++ entered_flaws (manner_by self.now.m.now) (plain_statement s.now) (settings_of set.now) entry.now.values) }
    {
        match &s.form {
            StmtForm::Loop(head, _, _, _, _) => {
                let top = self.head_env(*head, entry)?;
                self.put_round(s, set, &top, flaws)?;
                Ok(())
            }
            StmtForm::Set(_, _)
            | StmtForm::Update(_, _, _, _, _)
            | StmtForm::Copy(_, _)
            | StmtForm::Value(_)
            | StmtForm::Assert(_, _)
            | StmtForm::Declare(_, _)
            | StmtForm::Static(_)
            | StmtForm::Block(_)
            | StmtForm::If(_, _, None)
            | StmtForm::If(_, _, Some(_))
            | StmtForm::Switch(_, _, _, _)
            | StmtForm::Break
            | StmtForm::Continue
            | StmtForm::Return(_, _)
            | StmtForm::Empty
            | StmtForm::Mark(_) => Ok(()),
        }
    }

    /// Puts the flaws in a loop from its head on.
    #[cycle(walking)]
    fn put_round(
        &self,
        s: &Stmt,
        set: &Settings,
        top: &Env,
        flaws: &mut Vec<Flaw>,
    ) -> Result<(), AllocError>
        ensures { OnOk result (flaws.new.items ≡ flaws.old.items ++ headed_flaws (manner_by self.now.m.now) (plain_statement s.now) (settings_of set.now) top.now.values) }
    {
        match &s.form {
            StmtForm::Loop(head, _, test, third, body) => match head.keyword {
                LoopKeyword::Do => {
                    let begun = Some(top.copy(self.alloc)?);
                    self.put_there(body, set, begun, flaws)?;
                    let again = Some(top.copy(self.alloc)?);
                    let next = self.after_body(body, set, again)?;
                    self.put_test(test, next, flaws)
                }
                LoopKeyword::While | LoopKeyword::For => {
                    let here = Standing::at(self.alloc, set, top)?;
                    self.put_test(test, here, flaws)?;
                    let truth = self.truth(test, top)?;
                    let mut next = self.after_body(body, set, truth)?;
                    self.put_all(third.as_slice(), &mut next, flaws)?;
                    let again = self.truth(test, top)?;
                    self.put_there(body, set, again, flaws)
                }
            },
            StmtForm::Set(_, _)
            | StmtForm::Update(_, _, _, _, _)
            | StmtForm::Copy(_, _)
            | StmtForm::Value(_)
            | StmtForm::Assert(_, _)
            | StmtForm::Declare(_, _)
            | StmtForm::Static(_)
            | StmtForm::Block(_)
            | StmtForm::If(_, _, None)
            | StmtForm::If(_, _, Some(_))
            | StmtForm::Switch(_, _, _, _)
            | StmtForm::Break
            | StmtForm::Continue
            | StmtForm::Return(_, _)
            | StmtForm::Empty
            | StmtForm::Mark(_) => Ok(()),
        }
    }

    /// Puts the flaws in a `switch`.
    #[cycle(walking)]
    fn put_switch(
        &self,
        s: &Stmt,
        set: &Settings,
        env: &mut Env,
        flaws: &mut Vec<Flaw>,
    ) -> Result<(), AllocError>
        ensures same { OnOk result (env.new ≡ env.old) }
        ensures flaws { OnOk result (flaws.new.items ≡ flaws.old.items ++ switch_flaws (manner_by self.now.m.now) (plain_statement s.now) (settings_of set.now) env.old.values) }
    {
        let look = Look {
            alloc: self.alloc,
            m: self.m,
            set,
        };
        match &s.form {
            StmtForm::Switch(_, v, labels, body) => {
                look.put_value(v, env, flaws)?;
                if look.has_value(v, env)? {
                    self.put_switched(body, labels, set, env, flaws)
                } else {
                    Ok(())
                }
            }
            StmtForm::Set(_, _)
            | StmtForm::Update(_, _, _, _, _)
            | StmtForm::Copy(_, _)
            | StmtForm::Value(_)
            | StmtForm::Assert(_, _)
            | StmtForm::Declare(_, _)
            | StmtForm::Static(_)
            | StmtForm::Block(_)
            | StmtForm::If(_, _, None)
            | StmtForm::If(_, _, Some(_))
            | StmtForm::Loop(_, _, _, _, _)
            | StmtForm::Break
            | StmtForm::Continue
            | StmtForm::Return(_, _)
            | StmtForm::Empty
            | StmtForm::Mark(_) => Ok(()),
        }
    }

    /// Puts the flaws in the body of a `switch` that is entered: one that is no block has no labels.
    #[cycle(walking)]
    fn put_switched(
        &self,
        body: &Stmt,
        labels: &Labels,
        set: &Settings,
        env: &Env,
        flaws: &mut Vec<Flaw>,
    ) -> Result<(), AllocError>
        ensures { OnOk result (flaws.new.items ≡ flaws.old.items ++ flaws_in_switch (manner_by self.now.m.now) (plain_labels labels.now) (plain_statement body.now) (settings_of set.now) env.now.values) }
    {
        match &body.form {
            StmtForm::Block(items) => self.put_cases(items.as_slice(), labels, set, env, flaws),
            StmtForm::Set(_, _)
            | StmtForm::Update(_, _, _, _, _)
            | StmtForm::Copy(_, _)
            | StmtForm::Value(_)
            | StmtForm::Assert(_, _)
            | StmtForm::Declare(_, _)
            | StmtForm::Static(_)
            | StmtForm::If(_, _, None)
            | StmtForm::If(_, _, Some(_))
            | StmtForm::Loop(_, _, _, _, _)
            | StmtForm::Switch(_, _, _, _)
            | StmtForm::Break
            | StmtForm::Continue
            | StmtForm::Return(_, _)
            | StmtForm::Empty
            | StmtForm::Mark(_) => Ok(()),
        }
    }

    /// Puts the flaws in the items of a `switch`'s body, each of which may be entered from the `switch` or from the one before.
    #[cycle(walking)]
    fn put_cases(
        &self,
        items: &[Stmt],
        labels: &Labels,
        set: &Settings,
        env: &Env,
        flaws: &mut Vec<Flaw>,
    ) -> Result<(), AllocError>
        ensures { OnOk result (flaws.new.items ≡ flaws.old.items ++ flaws_from (manner_by self.now.m.now) (plain_labels labels.now) 0 (plain_statements items.now) (settings_of set.now) env.now.values None None) }
    {
        let marks = label_marks(self.alloc, labels, items.len())?;
        let mut at = Standing {
            known: None,
            set: Settings::nowhere(),
        };
        for (k, s) in items.iter().enumerate() {
            let labelled = is_marked(marks.as_slice(), k);
            at.enter_case(self.alloc, labelled, set, env)?;
            self.put_next(s, &mut at, flaws)?;
        }
        Ok(())
    }
}
