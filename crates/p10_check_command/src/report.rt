//! Reports.

ghost use Rattle.std.specs.Prelude.{◌≡◌, [], Some};

use p10_base::{ListBuf, Refusal, Violation};
use std::alloc::Global;

/// What is reported of sources.
#[derive(Drop)]
pub struct Report {
    /// The violations that stand, in their order, each once.
    pub violations: ListBuf<Violation>,
    /// The first refusal, if there is one.
    pub refusal: Option<Refusal>,
}

impl Report {
    ghost use Rattle.p10_check_command.specs.Texts.{report_status};
    ghost use Rattle.p10_check_command.specs.Reports.{refused_report};

    /// Of a file that isn't cut into words the refusal alone is reported.
    pub fn of_refusal(alloc: Global, refusal: Refusal) -> Report
        ensures { result ≡ refused_report refusal }
    {
        Report {
            violations: ListBuf::of(Vec::new(alloc)),
            refusal: Some(refusal),
        }
    }

    /// The status with which the program exits.
    pub fn status(&self) -> u8
        ensures { result ≡ report_status self.now }
    {
        match self.refusal {
            Some(_) => 3,
            None => {
                if self.violations.as_slice().is_empty() {
                    0
                } else {
                    1
                }
            }
        }
    }
}
