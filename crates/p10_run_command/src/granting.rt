//! How far the run of a program may go.

ghost use Rattle.std.specs.Prelude.{◌≡◌, IfOk};
ghost use Rattle.p10_core.specs.Views.{plain_program};
ghost use Rattle.p10_core.specs.WholePrograms.{IsWholeProgram};
ghost use Rattle.p10_front.specs.Answers.{reading_of};
ghost use Rattle.p10_front.specs.Digests.{reading_digests};
ghost use Rattle.p10_run_command.specs.private.Granting.{grant_by, IsGranted};

use p10_base::ListBuf;
use p10_core::Program;
use p10_front::{Reading, digests};
use p10_judge::{Judgement, weigh};
use p10_run::Budget;
use std::alloc::{AllocError, Global};

/// What a run is allowed.
#[derive(Drop)]
pub enum Allowance {
    /// This many steps before the task loop, and in each of its turns.
    Steps(u64),
    /// What these bytes, those of a certificate's file, claim.
    Certificate(Vec<u8>),
}

/// What is asked of a run.
#[derive(Drop)]
pub struct RunRequest {
    pub allowance: Allowance,
    /// The most turns of the task loop.
    pub turns: u64,
    /// The number of the request for memory that is denied, or 0 for none.
    pub deny: u64,
    /// The bytes of the file of sensor values, where one is named.
    pub sensors: Option<ListBuf<u8>>,
}

/// Whether a program may run.
#[derive(Clone, Copy, Debug)]
pub enum Permission {
    /// It may, with this budget.
    Budget(Budget),
    /// It may not: the certificate isn't accepted for it.
    Refused(Judgement),
}

/// Whether the program of a reading may run, and how far.
///
/// # Errors
///
/// Out of memory.
pub fn grant(
    alloc: Global,
    reading: &Reading<'_>,
    program: &Program<'_>,
    request: &RunRequest,
) -> Result<Permission, AllocError>
    requires { IsWholeProgram (plain_program program.now) }
    ensures { IfOk result (IsGranted (reading_digests (reading_of reading.now)).funcs (plain_program program.now) request.now) }
{
    match &request.allowance {
        Allowance::Steps(steps) => Ok(Permission::Budget(Budget::of_steps(
            *steps,
            request.turns,
            request.deny,
        ))),
        Allowance::Certificate(bytes) => {
            let found = digests(alloc, reading)?;
            let judgement = weigh(alloc, program, &found, bytes.as_slice())?;
            Ok(grant_by(judgement, request.turns, request.deny))
        }
    }
}

/// The grant by what the certificate comes to.
fn grant_by(judgement: Judgement, turns: u64, deny: u64) -> Permission
    ensures { result ≡ grant_by judgement turns deny }
{
    match judgement {
        Judgement::Accepted(bounds) => Permission::Budget(Budget::within(&bounds, turns, deny)),
        Judgement::TooLong => Permission::Refused(judgement),
        Judgement::BadCertificate(_) => Permission::Refused(judgement),
        Judgement::Stale { .. } => Permission::Refused(judgement),
        Judgement::Failing(..) => Permission::Refused(judgement),
    }
}
