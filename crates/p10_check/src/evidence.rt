//! What may stand in for the rank of a loop.

ghost use Rattle.std.specs.Prelude.{◌≡◌, ℕ, Bool, IfOk};
ghost use Rattle.p10_core.specs.Typed.{PlainProgram};
ghost use Rattle.p10_core.specs.Views.{plain_program};
ghost use Rattle.p10_cert.specs.Claims.{Loop, loop_of};
ghost use Rattle.p10_absx.specs.Environments.{Environment};

use p10_absx::Env;
use p10_cert::LoopClaim;
use p10_core::Program;
use std::alloc::{AllocError, Global};

/// Evidence that loops keep their claims on turns, where their ranks don't show it.
pub trait Evidence {
    // For which loops of a program it stands: by the number of the function, that of the loop in it, what is known at the loop's entry,
    // and the claim on the loop.
    ghost standing: { Self → PlainProgram → ℕ → ℕ → Environment → Loop → Bool };

    /// Whether it stands for the loop with number `at` of function `f`, entered with `entry`, under a claim.
    ///
    /// # Errors
    ///
    /// Out of memory.
    fn stands(
        &self,
        alloc: Global,
        p: &Program<'_>,
        f: u32,
        at: u32,
        entry: &Env,
        claim: &LoopClaim,
    ) -> Result<bool, AllocError>
        ensures { IfOk result (λ b. b ≡ standing self.now (plain_program p.now) f at entry.now.values (loop_of claim.now)) };
}
