//! Labels of a `switch` (C99 6.8.1, 6.8.4.2).

ghost use Rattle.std.specs.Prelude.{◌≡◌, IfOk};
ghost use Rattle.p10_elabx.specs.First.{only_first};
ghost use Rattle.p10_elabs.specs.LocalViews.{plain_local, plain_cases, plain_labelled};
ghost use Rattle.p10_elabs.specs.Statements.{is_labelled, label_added, case_noted, default_done};
ghost use Rattle.p10_elabs.specs.private.CaseLabels.{known_cases};

use crate::case_labels::CaseLabels;
use crate::local::Local;
use p10_base::{At, SubsetCode};
use p10_core::Label;
use std::alloc::AllocError;

/// The labels of a `switch` so far.
#[derive(Drop)]
pub(crate) struct Labelled {
    /// The `case` labels, if none was refused.
    pub cases: Option<CaseLabels>,
    /// The place of the item that `default` stands before.
    pub otherwise: Option<u32>,
}

/// The `case` labels, if none was refused.
pub(crate) fn listed(cases: Option<CaseLabels>) -> Option<Vec<Label>>
    ensures { plain_cases result ≡ known_cases cases }
{
    match cases {
        Some(cases) => Some(cases.into_list()),
        None => None,
    }
}

/// Whether a value is that of a label, if no label was refused.
fn is_known(value: i128, cases: &Option<CaseLabels>) -> bool
    ensures { result ≡ is_labelled value (known_cases cases.now) }
{
    match cases {
        None => false,
        Some(cases) => cases.has(value),
    }
}

/// A label more, where nothing was refused.
fn label_added(
    cases: Option<CaseLabels>,
    value: i128,
    place: u32,
) -> Result<Option<CaseLabels>, AllocError>
    ensures { IfOk result (λ all. known_cases all ≡ label_added (known_cases cases) value place) }
{
    match cases {
        None => Ok(None),
        Some(cases) => {
            let cases = cases.with(Label { value, place })?;
            Ok(Some(cases))
        }
    }
}

/// A `case` before an item, by its value in the type of the `switch`, which may be refused: no value stands twice.
pub(crate) fn case_noted(
    local: &mut Local<'_>,
    at: At,
    place: u32,
    labels: Labelled,
    value: Option<i128>,
) -> Result<Labelled, AllocError>
    ensures { IfOk result (λ k. plain_labelled k (plain_local local.new) ≡ case_noted only_first at place (plain_labelled labels (plain_local local.old)) value (plain_local local.old)) }
{
    let Labelled { cases, otherwise } = labels;
    match value {
        None => Ok(Labelled {
            cases: None,
            otherwise,
        }),
        Some(value) => {
            if is_known(value, &cases) {
                local.refuse_where(true, SubsetCode::BadJump, at);
                return Ok(Labelled {
                    cases: None,
                    otherwise,
                });
            }
            let cases = label_added(cases, value, place)?;
            Ok(Labelled { cases, otherwise })
        }
    }
}

/// `default` before an item: it stands once at most.
pub(crate) fn default_done(local: &mut Local<'_>, at: At, place: u32, labels: Labelled) -> Labelled
    ensures { plain_labelled result (plain_local local.new) ≡ default_done only_first at place (plain_labelled labels (plain_local local.old)) }
{
    let Labelled { cases, otherwise } = labels;
    match otherwise {
        None => Labelled {
            cases,
            otherwise: Some(place),
        },
        Some(_) => {
            local.refuse_where(true, SubsetCode::BadJump, at);
            Labelled {
                cases: None,
                otherwise,
            }
        }
    }
}
