//! Which variables are set on every path to a place, as marks.

ghost use Rattle.std.specs.Prelude.{◌≡◌, ◌++◌, map, slice_set, None, IfOk, OnOk};
ghost use Rattle.std.specs.Option.{option_map};
ghost use Rattle.p10_core.specs.Views.{plain_variable, plain_function};
ghost use Rattle.p10_clean.specs.Settings.{is_set, marked_as, common_marks, on_both, parameter_marks, set_at_entry};
ghost use Rattle.p10_clean.specs.private.Code.{settings_of};

use p10_core::{Func, Variable};
use p10_pass::is_marked;
use std::alloc::{AllocError, Global};

/// A mark for each variable of a function that is set; none where no path comes, and there every variable counts as set.
#[derive(Drop)]
pub(crate) struct Settings {
    pub marks: Option<Vec<bool>>,
}

impl Settings {
    /// No path comes.
    pub fn nowhere() -> Settings
        ensures { settings_of result ≡ None }
    {
        Settings { marks: None }
    }

    /// What is set at the entry of a function: its parameters.
    pub fn at_entry(alloc: Global, f: &Func<'_>) -> Result<Settings, AllocError>
        ensures { IfOk result (λ s. settings_of s ≡ set_at_entry (plain_function f.now)) }
    {
        let marks = parameter_marks(alloc, f.params, f.vars.as_slice())?;
        Ok(Settings { marks: Some(marks) })
    }

    /// The same settings.
    pub fn copy(&self, alloc: Global) -> Result<Settings, AllocError>
        ensures { IfOk result (λ s. settings_of s ≡ settings_of self.now) }
    {
        match &self.marks {
            Some(marks) => {
                let mut copied = Vec::new(alloc);
                copied.extend_from_slice(marks.as_slice())?;
                Ok(Settings {
                    marks: Some(copied),
                })
            }
            None => Ok(Settings { marks: None }),
        }
    }

    /// These settings, taken from where they stand.
    pub fn taken(&mut self) -> Settings
        ensures { settings_of result ≡ settings_of self.old }
    {
        Settings {
            marks: self.marks.take(),
        }
    }

    /// Whether a variable is set.
    pub fn is_set(&self, n: u32) -> bool
        ensures { result ≡ is_set (settings_of self.now) n }
    {
        match &self.marks {
            Some(marks) => is_marked(marks.as_slice(), n as usize),
            None => true,
        }
    }

    /// A variable becomes set, or unset.
    pub fn mark(&mut self, set: bool, n: u32)
        ensures { settings_of self.new ≡ marked_as set n (settings_of self.old) }
    {
        if let Some(marks) = &mut self.marks {
            put_mark(n as usize, set, marks);
        }
    }

    /// Keeps what is set on another path too.
    pub fn meet(&mut self, alloc: Global, other: Settings) -> Result<(), AllocError>
        ensures { OnOk result (settings_of self.new ≡ on_both (settings_of self.old) (settings_of other)) }
    {
        let met = met(alloc, self.marks.take(), other.marks)?;
        self.marks = met;
        Ok(())
    }
}

/// Sets or unsets one mark.
fn put_mark(n: usize, set: bool, marks: &mut Vec<bool>)
    ensures { marks.new.items ≡ slice_set marks.old.items n set }
{
    if n < marks.len() {
        marks[n] = set;
    }
}

/// The marks on both of two paths.
fn met(
    alloc: Global,
    first: Option<Vec<bool>>,
    second: Option<Vec<bool>>,
) -> Result<Option<Vec<bool>>, AllocError>
    ensures { IfOk result (λ marks. option_map (λ m. m.items) marks ≡ on_both (option_map (λ m. m.items) first) (option_map (λ m. m.items) second)) }
{
    match first {
        Some(a) => match second {
            Some(b) => Ok(Some(common_marks(alloc, a.as_slice(), b.as_slice())?)),
            None => Ok(Some(a)),
        },
        None => Ok(second),
    }
}

/// The marks that both have.
fn common_marks(alloc: Global, a: &[bool], b: &[bool]) -> Result<Vec<bool>, AllocError>
    ensures { IfOk result (λ marks. marks.items ≡ common_marks a.now b.now) }
{
    let mut common = Vec::new(alloc);
    let mut first = a;
    let mut second = b;
    while let [x, others @ ..] = first {
        match second {
            [y, further @ ..] => {
                common.push(*x && *y)?;
                first = others;
                second = further;
            }
            [] => return Ok(common),
        }
    }
    Ok(common)
}

/// Marks of variables, of which the first ones are parameters.
fn parameter_marks(
    alloc: Global,
    parameters: u32,
    variables: &[Variable<'_>],
) -> Result<Vec<bool>, AllocError>
    ensures { IfOk result (λ marks. marks.items ≡ parameter_marks 0 parameters (map plain_variable variables.now)) }
{
    let mut marks = Vec::new(alloc);
    for (n, _) in variables.iter().enumerate() {
        marks.push(n < parameters as usize)?;
    }
    Ok(marks)
}
