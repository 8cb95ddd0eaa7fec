//! The variable that a value is.

ghost use Rattle.std.specs.Prelude.{◌≡◌, IfOk, OnOk};
ghost use Rattle.std.specs.Option.{option_map, option_copied};
ghost use Rattle.p10_core.specs.Views.{plain_value};
ghost use Rattle.p10_cert.specs.Claims.{claims_of};
ghost use Rattle.p10_absx.specs.Assessing.{assess as assess_of, as_side};

use crate::env::Env;
use p10_cert::Cert;
use p10_core::Value;
use std::alloc::{AllocError, Global};

impl Env {
    /// The variable of which a value is the value, under conversions and casts that keep what it has here; `None` where it isn't
    /// that of an integer frame variable in scope. Out of memory nothing is said of what is known then.
    pub fn variable_of(
        &mut self,
        alloc: Global,
        c: Option<&Cert>,
        v: &Value,
    ) -> Result<Option<u32>, AllocError>
        ensures same { OnOk result (self.new ≡ self.old) }
        ensures variable { IfOk result (λ n. n ≡ (as_side (assess_of (option_map claims_of (option_copied c.entry)) (plain_value v.now) self.old.values)).variable) }
    {
        let found = self.assess(alloc, c, v)?;
        let side = found.side();
        Ok(side.variable)
    }
}
