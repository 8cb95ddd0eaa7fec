//! The `case` labels of a `switch` so far, found by their values (C99 6.8.4.2).

ghost use Rattle.std.specs.Prelude.{ℤ, Some};
ghost use Rattle.std.specs.List.{list_any};
ghost use Rattle.std.specs.Ordering.{int_eq};
ghost use Rattle.p10_elabs.specs.Statements.{is_labelled};

use p10_core::Label;
use p10_numbers::NumberList;
use std::alloc::{AllocError, Global};

/// `case` labels in the order in which they came, found by their values.
#[derive(Drop)]
pub(crate) struct CaseLabels {
    list: Vec<Label>,
    values: NumberList,
    ghost known: { (z : ℤ) → list_any (int_eq z) values ≡ is_labelled z (Some list.items) },
}

ghost use Rattle.std.specs.Prelude.{◌≡◌};

impl CaseLabels {
    ghost use Rattle.std.specs.Prelude.{[], ◌∷◌, ◌++◌, IfOk};
    ghost use Rattle.p10_elabs.specs.private.CaseLabels.{case_labels};

    /// No labels.
    pub fn new(alloc: Global) -> CaseLabels
        ensures { case_labels result ≡ [] }
    {
        CaseLabels {
            list: Vec::new(alloc),
            values: NumberList::new(alloc),
        }
    }

    /// Whether a value is that of a label.
    pub fn has(&self, value: i128) -> bool
        ensures { result ≡ is_labelled value (Some (case_labels self.now)) }
    {
        self.values.contains(value)
    }

    /// The labels with one more after them.
    pub fn with(self, label: Label) -> Result<CaseLabels, AllocError>
        ensures { IfOk result (λ all. case_labels all ≡ case_labels self ++ label ∷ []) }
    {
        let CaseLabels { list, values } = self;
        let mut list = list;
        let mut values = values;
        values.add(label.value)?;
        list.push(label)?;
        Ok(CaseLabels { list, values })
    }

    /// The labels.
    pub fn into_list(self) -> Vec<Label>
        ensures { result.items ≡ case_labels self }
    {
        self.list
    }
}
