//! What statements set, on each way in which they end.

ghost use Rattle.std.specs.Prelude.{◌≡◌, is_none, if◌then◌else◌, None, IfOk, OnOk};
ghost use Rattle.p10_core.specs.Views.{plain_place, plain_initializer, plain_labels, plain_statement, plain_statements};
ghost use Rattle.p10_clean.specs.Settings.{marked_as, goes_on, then_ways, either_ways, target_set, sets, after_loop, after_switch, case_settings, ways_of, ways_of_all, ways_of_switch, ways_from};
ghost use Rattle.p10_clean.specs.Statements.{next_settings};
ghost use Rattle.p10_clean.specs.private.Code.{settings_of, ways_by, branch_ways, loop_ways, broken_ways, continued_ways, without_normal};

use crate::settings::Settings;
use p10_core::{Initializer, Labels, LoopKeyword, Place, PlaceForm, Stmt, StmtForm};
use p10_pass::{is_marked, label_marks};
use std::alloc::{AllocError, Global};

/// What is set at each end of statements.
#[derive(Drop)]
pub(crate) struct Ways {
    pub normal: Settings,
    pub breaks: Settings,
    pub continues: Settings,
}

impl Ways {
    /// The one way is the next statement.
    pub fn going(set: Settings) -> Ways
        ensures { ways_by result ≡ goes_on (settings_of set) }
    {
        Ways {
            normal: set,
            breaks: Settings::nowhere(),
            continues: Settings::nowhere(),
        }
    }

    /// The one way is out of a loop or a `switch`.
    fn broken(set: Settings) -> Ways
        ensures { ways_by result ≡ broken_ways (settings_of set) }
    {
        Ways {
            normal: Settings::nowhere(),
            breaks: set,
            continues: Settings::nowhere(),
        }
    }

    /// The one way is the next turn of a loop.
    fn continued(set: Settings) -> Ways
        ensures { ways_by result ≡ continued_ways (settings_of set) }
    {
        Ways {
            normal: Settings::nowhere(),
            breaks: Settings::nowhere(),
            continues: set,
        }
    }

    /// Adds the ends of a part that follows: it gives the normal one.
    fn follow(&mut self, alloc: Global, more: Ways) -> Result<(), AllocError>
        ensures { OnOk result (ways_by self.new ≡ then_ways (ways_by self.old) (ways_by more)) }
    {
        let Ways {
            normal,
            breaks,
            continues,
        } = more;
        self.breaks.meet(alloc, breaks)?;
        self.continues.meet(alloc, continues)?;
        self.normal = normal;
        Ok(())
    }

    /// Adds the ends of another branch.
    fn beside(&mut self, alloc: Global, other: Ways) -> Result<(), AllocError>
        ensures { OnOk result (ways_by self.new ≡ either_ways (ways_by self.old) (ways_by other)) }
    {
        let Ways {
            normal,
            breaks,
            continues,
        } = other;
        self.breaks.meet(alloc, breaks)?;
        self.continues.meet(alloc, continues)?;
        self.normal.meet(alloc, normal)?;
        Ok(())
    }

    /// What is set after a body, where it ends and where it goes on with the next turn.
    pub fn next(self, alloc: Global) -> Result<Settings, AllocError>
        ensures { IfOk result (λ s. settings_of s ≡ next_settings (ways_by self)) }
    {
        let Ways {
            normal,
            breaks: _,
            continues,
        } = self;
        let mut set = normal;
        set.meet(alloc, continues)?;
        Ok(set)
    }

    /// Takes what is set where the next statement comes.
    fn take_normal(&mut self) -> Settings
        ensures taken { settings_of result ≡ (ways_by self.old).normal }
        ensures left { ways_by self.new ≡ without_normal (ways_by self.old) }
    {
        Settings {
            marks: self.normal.marks.take(),
        }
    }
}

/// What a statement sets, after what is set before it.
#[cycle(setting)]
pub(crate) fn ways_of(alloc: Global, s: &Stmt, before: Settings) -> Result<Ways, AllocError>
    ensures { IfOk result (λ w. ways_by w ≡ ways_of (plain_statement s.now) (settings_of before)) }
{
    match &s.form {
        StmtForm::Set(target, _) => Ok(Ways::going(target_set(target, before))),
        StmtForm::Declare(n, initial) => Ok(Ways::going(declared(*n, initial, before))),
        StmtForm::Block(items) => ways_of_all(alloc, items.as_slice(), before),
        StmtForm::If(_, _, None) => ways_of_branches(alloc, s, before),
        StmtForm::If(_, _, Some(_)) => ways_of_branches(alloc, s, before),
        StmtForm::Loop(_, _, _, _, _) => ways_of_loop(alloc, s, before),
        StmtForm::Switch(_, _, labels, body) => ways_of_switch(alloc, labels, body, before),
        StmtForm::Break => Ok(Ways::broken(before)),
        StmtForm::Continue => Ok(Ways::continued(before)),
        StmtForm::Return(_, _) => Ok(Ways::going(Settings::nowhere())),
        StmtForm::Update(_, _, _, _, _)
        | StmtForm::Copy(_, _)
        | StmtForm::Value(_)
        | StmtForm::Assert(_, _)
        | StmtForm::Static(_)
        | StmtForm::Empty
        | StmtForm::Mark(_) => Ok(Ways::going(before)),
    }
}

/// What is set after an assignment.
fn target_set(target: &Place, before: Settings) -> Settings
    ensures { settings_of result ≡ target_set (plain_place target.now) (settings_of before) }
{
    let mut set = before;
    match &target.form {
        PlaceForm::Var(n) => {
            set.mark(true, *n);
            set
        }
        PlaceForm::Global(_)
        | PlaceForm::Literal(_, _)
        | PlaceForm::Index(_, _)
        | PlaceForm::Member(_, _)
        | PlaceForm::Deref(_) => set,
    }
}

/// What is set after a declaration.
fn declared(n: u32, initial: &Initializer, before: Settings) -> Settings
    ensures { settings_of result ≡ marked_as (sets (plain_initializer initial.now)) n (settings_of before) }
{
    let mut set = before;
    set.mark(sets(initial), n);
    set
}

/// Whether a declaration sets its variable.
fn sets(initial: &Initializer) -> bool
    ensures { result ≡ sets (plain_initializer initial.now) }
{
    match initial {
        Initializer::Absent => false,
        Initializer::Single(_) | Initializer::Copied(_) | Initializer::Listed(_, _) => true,
    }
}

/// What statements set, one after the other.
#[cycle(setting)]
pub(crate) fn ways_of_all(
    alloc: Global,
    items: &[Stmt],
    before: Settings,
) -> Result<Ways, AllocError>
    ensures { IfOk result (λ w. ways_by w ≡ ways_of_all (plain_statements items.now) (settings_of before)) }
{
    let mut total = Ways::going(before);
    for s in items {
        go_on(alloc, s, &mut total)?;
    }
    Ok(total)
}

/// Goes on with a statement.
#[cycle(setting)]
fn go_on(alloc: Global, s: &Stmt, total: &mut Ways) -> Result<(), AllocError>
    ensures { OnOk result (ways_by total.new ≡ then_ways (ways_by total.old) (ways_of (plain_statement s.now) (ways_by total.old).normal)) }
{
    let before = total.take_normal();
    let more = ways_of(alloc, s, before)?;
    total.follow(alloc, more)
}

/// What an `if` sets.
#[cycle(setting)]
fn ways_of_branches(alloc: Global, s: &Stmt, before: Settings) -> Result<Ways, AllocError>
    ensures { IfOk result (λ w. ways_by w ≡ branch_ways (plain_statement s.now) (settings_of before)) }
{
    match &s.form {
        StmtForm::If(_, then, None) => {
            let past = before.copy(alloc)?;
            let mut ways = ways_of(alloc, then, before)?;
            ways.beside(alloc, Ways::going(past))?;
            Ok(ways)
        }
        StmtForm::If(_, then, Some(other)) => {
            let again = before.copy(alloc)?;
            let mut ways = ways_of(alloc, then, before)?;
            let second = ways_of(alloc, other, again)?;
            ways.beside(alloc, second)?;
            Ok(ways)
        }
        StmtForm::Set(_, _)
        | StmtForm::Update(_, _, _, _, _)
        | StmtForm::Copy(_, _)
        | StmtForm::Value(_)
        | StmtForm::Assert(_, _)
        | StmtForm::Declare(_, _)
        | StmtForm::Static(_)
        | StmtForm::Block(_)
        | StmtForm::Loop(_, _, _, _, _)
        | StmtForm::Switch(_, _, _, _)
        | StmtForm::Break
        | StmtForm::Continue
        | StmtForm::Return(_, _)
        | StmtForm::Empty
        | StmtForm::Mark(_) => Ok(Ways::going(before)),
    }
}

/// What a loop sets.
#[cycle(setting)]
fn ways_of_loop(alloc: Global, s: &Stmt, before: Settings) -> Result<Ways, AllocError>
    ensures { IfOk result (λ w. ways_by w ≡ loop_ways (plain_statement s.now) (settings_of before)) }
{
    match &s.form {
        StmtForm::Loop(head, first, _, _, body) => {
            let mut opened = ways_of_all(alloc, first.as_slice(), before)?;
            let entry = opened.take_normal();
            let again = entry.copy(alloc)?;
            let ways = ways_of(alloc, body, again)?;
            after_loop(alloc, head.keyword, entry, ways)
        }
        StmtForm::Set(_, _)
        | StmtForm::Update(_, _, _, _, _)
        | StmtForm::Copy(_, _)
        | StmtForm::Value(_)
        | StmtForm::Assert(_, _)
        | StmtForm::Declare(_, _)
        | StmtForm::Static(_)
        | StmtForm::Block(_)
        | StmtForm::If(_, _, None)
        | StmtForm::If(_, _, Some(_))
        | StmtForm::Switch(_, _, _, _)
        | StmtForm::Break
        | StmtForm::Continue
        | StmtForm::Return(_, _)
        | StmtForm::Empty
        | StmtForm::Mark(_) => Ok(Ways::going(before)),
    }
}

/// What is set after a loop.
fn after_loop(
    alloc: Global,
    keyword: LoopKeyword,
    entry: Settings,
    body: Ways,
) -> Result<Ways, AllocError>
    ensures { IfOk result (λ w. ways_by w ≡ after_loop keyword (settings_of entry) (ways_by body)) }
{
    let Ways {
        normal,
        breaks,
        continues,
    } = body;
    match keyword {
        LoopKeyword::Do => {
            let mut set = normal;
            set.meet(alloc, continues)?;
            set.meet(alloc, breaks)?;
            Ok(Ways::going(set))
        }
        LoopKeyword::While | LoopKeyword::For => {
            let mut set = entry;
            set.meet(alloc, breaks)?;
            Ok(Ways::going(set))
        }
    }
}

/// What a `switch` sets.
#[cycle(setting)]
fn ways_of_switch(
    alloc: Global,
    labels: &Labels,
    body: &Stmt,
    entry: Settings,
) -> Result<Ways, AllocError>
    ensures { IfOk result (λ w. ways_by w ≡ ways_of_switch (plain_labels labels.now) (plain_statement body.now) (settings_of entry)) }
{
    match &body.form {
        StmtForm::Block(items) => {
            let ways = ways_of_cases(alloc, labels, items.as_slice(), &entry)?;
            after_switch(alloc, labels, entry, ways)
        }
        StmtForm::Set(_, _)
        | StmtForm::Update(_, _, _, _, _)
        | StmtForm::Copy(_, _)
        | StmtForm::Value(_)
        | StmtForm::Assert(_, _)
        | StmtForm::Declare(_, _)
        | StmtForm::Static(_)
        | StmtForm::If(_, _, None)
        | StmtForm::If(_, _, Some(_))
        | StmtForm::Loop(_, _, _, _, _)
        | StmtForm::Switch(_, _, _, _)
        | StmtForm::Break
        | StmtForm::Continue
        | StmtForm::Return(_, _)
        | StmtForm::Empty
        | StmtForm::Mark(_) => Ok(Ways::going(entry)),
    }
}

/// What is set after a `switch`.
fn after_switch(
    alloc: Global,
    labels: &Labels,
    entry: Settings,
    body: Ways,
) -> Result<Ways, AllocError>
    ensures { IfOk result (λ w. ways_by w ≡ after_switch (plain_labels labels.now) (settings_of entry) (ways_by body)) }
{
    let Ways {
        normal,
        breaks,
        continues,
    } = body;
    let mut set = normal;
    set.meet(alloc, breaks)?;
    set.meet(alloc, past_body(labels, entry))?;
    Ok(Ways {
        normal: set,
        breaks: Settings::nowhere(),
        continues,
    })
}

/// What is set on the way past the body of a `switch`, which is there without `default`.
fn past_body(labels: &Labels, entry: Settings) -> Settings
    ensures { settings_of result ≡ (if is_none (plain_labels labels.now).otherwise then settings_of entry else None) }
{
    if labels.otherwise.is_none() {
        entry
    } else {
        Settings::nowhere()
    }
}

/// What the items of a `switch`'s body set, each of which may be entered from the `switch` or from the one before.
#[cycle(setting)]
fn ways_of_cases(
    alloc: Global,
    labels: &Labels,
    items: &[Stmt],
    entry: &Settings,
) -> Result<Ways, AllocError>
    ensures { IfOk result (λ w. ways_by w ≡ ways_from (plain_labels labels.now) 0 (plain_statements items.now) (settings_of entry.now) None) }
{
    let marks = label_marks(alloc, labels, items.len())?;
    let mut total = Ways::going(Settings::nowhere());
    for (k, s) in items.iter().enumerate() {
        go_on_with_case(alloc, s, is_marked(marks.as_slice(), k), entry, &mut total)?;
    }
    Ok(total)
}

/// Goes on with an item of a `switch`'s body.
#[cycle(setting)]
fn go_on_with_case(
    alloc: Global,
    s: &Stmt,
    labelled: bool,
    entry: &Settings,
    total: &mut Ways,
) -> Result<(), AllocError>
    ensures { OnOk result (ways_by total.new ≡ then_ways (ways_by total.old) (ways_of (plain_statement s.now) (case_settings labelled (settings_of entry.now) (ways_by total.old).normal))) }
{
    let before = total.take_normal();
    let here = case_settings(alloc, labelled, entry, before)?;
    let more = ways_of(alloc, s, here)?;
    total.follow(alloc, more)
}

/// What is set where an item of a `switch`'s body is entered.
pub(crate) fn case_settings(
    alloc: Global,
    labelled: bool,
    entry: &Settings,
    before: Settings,
) -> Result<Settings, AllocError>
    ensures { IfOk result (λ s. settings_of s ≡ case_settings labelled (settings_of entry.now) (settings_of before)) }
{
    if !labelled {
        return Ok(before);
    }
    let mut set = before;
    let here = entry.copy(alloc)?;
    set.meet(alloc, here)?;
    Ok(set)
}
