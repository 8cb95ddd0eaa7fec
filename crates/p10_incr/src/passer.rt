//! What passes functions, one at a time.

ghost use Rattle.std.specs.Prelude.{◌≡◌, ◌++◌, ◌∷◌, ℕ, List, [], IfOk, OnOk, OnErr, length, slice_get};
ghost use Rattle.p10_core.specs.Views.{plain_program};
ghost use Rattle.p10_core.specs.WholePrograms.{IsWholeProgram};
ghost use Rattle.p10_cert.specs.Claims.{claims_of};
ghost use Rattle.p10_check.specs.Conditions.{function_failures_at};
ghost use Rattle.p10_check.specs.Fails.{failures_of};

use p10_cert::Cert;
use p10_check::{Evidence, check_one};
use p10_core::Program;
use p10_pass::Fail;
use std::alloc::{AllocError, Global};

/// What passes functions, and tells which it has passed.
pub trait Passer {
    // The numbers of the functions that were passed, in this order.
    ghost passed: { Self → List ℕ };

    /// All failing K3 and K5 to K12 of the function with a number, by number, then in text order, as [`check_one`] gives them; the
    /// function is then one that was passed.
    ///
    /// # Errors
    ///
    /// Out of memory: nothing more was passed then.
    fn pass_one<E: Evidence>(
        &mut self,
        alloc: Global,
        program: &Program<'_>,
        certificate: &Cert,
        number: u32,
        evidence: &E,
    ) -> Result<Vec<Fail>, AllocError>
        requires { IsWholeProgram (plain_program program.now) }
        ensures fails { IfOk result (λ fails. failures_of fails.items ≡ function_failures_at (E.standing evidence.now (plain_program program.now)) (plain_program program.now) (claims_of certificate.now) number (slice_get (plain_program program.now).functions number)) }
        ensures more { OnOk result (passed self.new ≡ passed self.old ++ number ∷ []) }
        ensures same { OnErr result (passed self.new ≡ passed self.old) };
}

/// Passes functions by [`check_one`], and counts them.
#[derive(Drop)]
pub struct PlainPasser {
    numbers: Vec<u32>,
}

impl PlainPasser {
    /// Nothing was passed yet.
    pub fn new(alloc: Global) -> PlainPasser
        ensures { result.numbers.items ≡ [] }
    {
        PlainPasser {
            numbers: Vec::new(alloc),
        }
    }

    /// How many functions were passed.
    pub fn count(&self) -> u64
        ensures { result ≡ length self.now.numbers.items }
    {
        self.numbers.len() as u64
    }
}

impl Passer for PlainPasser {
    ghost passed = { λ passer. passer.numbers.items };

    fn pass_one<E: Evidence>(
        &mut self,
        alloc: Global,
        program: &Program<'_>,
        certificate: &Cert,
        number: u32,
        evidence: &E,
    ) -> Result<Vec<Fail>, AllocError> {
        let fails = check_one(alloc, program, certificate, number, evidence)?;
        self.numbers.push(number)?;
        Ok(fails)
    }
}
