//! A source in memory, some of whose calls fail.

ghost use Rattle.std.specs.Prelude.{◌≡◌, ◌↔◌, ◌≤◌, Some, min, length, IfOk, IsErr, OnErr, IsTrue};
ghost use Rattle.p10_world.specs.Faults.{Rose};
ghost use Rattle.p10_world.specs.Source.{GivesNext, EndsAtZero};

use crate::given::Given;
use crate::plan::Plan;
use crate::{Failed, Source};

/// A source in memory. The calls whose numbers, from 1, it was given fail.
#[derive(Drop)]
pub struct MemSource {
    bytes: Given,
    plan: Plan,
}

impl MemSource {
    ghost use Rattle.p10_world.specs.MemSource.{left_of, plan_of};
    ghost use Rattle.p10_world.specs.Plan.{calls_of, fails_of, faults_of};

    /// All of `bytes` are left; the calls whose numbers stand in `fails` are to fail.
    pub fn new(bytes: Vec<u8>, fails: Vec<u64>) -> MemSource
        ensures left { left_of result ≡ bytes.items }
        ensures fails { fails_of (plan_of result) ≡ fails.items }
        ensures calls { calls_of (plan_of result) ≡ 0 }
        ensures faults { faults_of (plan_of result) ≡ 0 }
    {
        MemSource {
            bytes: Given::new(bytes),
            plan: Plan::new(fails),
        }
    }

    /// How many calls of [`Source::piece`] were made.
    pub fn calls(&self) -> u64
        ensures { result ≡ calls_of (plan_of self.now) }
    {
        self.plan.calls()
    }
}

impl Source for MemSource {
    ghost use Rattle.p10_world.specs.MemSource.{left_of, plan_of};
    ghost use Rattle.p10_world.specs.Plan.{CountsCall, fails_next, faults_of};

    ghost left = { λ memory. Some (left_of memory) };

    ghost faults = { λ memory. faults_of (plan_of memory) };

    fn piece(&mut self, buf: &mut [u8]) -> Result<usize, Failed>
        ensures bound { IfOk result (λ count. count ≤ length buf.old) }
        ensures most { IfOk result (λ count. count ≡ min (length buf.old) (length (left_of self.old))) }
        ensures given { IfOk result (λ count. GivesNext (Some (left_of self.old)) (Some (left_of self.new)) count buf.new) }
        ensures end { IfOk result (λ count. EndsAtZero (Some (left_of self.new)) count buf.new) }
        ensures kept { OnErr result (left_of self.new ≡ left_of self.old) }
        ensures untouched { OnErr result (buf.new ≡ buf.old) }
        ensures planned { IsErr result ↔ IsTrue (fails_next (plan_of self.old)) }
        ensures failed { OnErr result (Rose (faults_of (plan_of self.old)) (faults_of (plan_of self.new))) }
        ensures count { faults_of (plan_of self.old) ≤ faults_of (plan_of self.new) }
        ensures counted { CountsCall (plan_of self.old) (plan_of self.new) }
    {
        if self.plan.next_fails() {
            return Err(Failed);
        }
        Ok(self.bytes.piece(buf))
    }
}
