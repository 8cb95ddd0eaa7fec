//! Files in memory, some of whose reads fail.

ghost use Rattle.std.specs.Prelude.{◌≡◌, ◌↔◌, ◌⊎◌, ◌≤◌, [], ◌∷◌, Some, OnOk, OnErr, IsErrOf, IsTrue, string_bytes};
ghost use Rattle.p10_world.specs.Faults.{Rose};
ghost use Rattle.p10_world.specs.Files.{Lacks, GrowsByFile, GrowsAtMost};

use crate::held_files::HeldFiles;
use crate::plan::Plan;
use crate::{FileFault, Files};
use std::alloc::{AllocError, Global};

/// Files in memory. The calls of [`Files::read`] whose numbers, from 1, it was given fail. Of two files
/// of one name the one added last is read.
#[derive(Drop)]
pub struct MemFiles {
    held: HeldFiles,
    plan: Plan,
}

impl MemFiles {
    ghost use Rattle.p10_world.specs.MemFiles.{held_of, plan_of};
    ghost use Rattle.p10_world.specs.Plan.{calls_of, fails_of, faults_of};

    /// No files; the calls whose numbers stand in `fails` are to fail.
    pub fn new(alloc: Global, fails: Vec<u64>) -> MemFiles
        ensures empty { held_of result ≡ [] }
        ensures fails { fails_of (plan_of result) ≡ fails.items }
        ensures calls { calls_of (plan_of result) ≡ 0 }
        ensures faults { faults_of (plan_of result) ≡ 0 }
    {
        MemFiles {
            held: HeldFiles::new(alloc),
            plan: Plan::new(fails),
        }
    }

    /// Adds a file, which stands before an older one of its name.
    ///
    /// # Errors
    ///
    /// Out of memory; the files are then as before.
    pub fn add(&mut self, name: String, bytes: Vec<u8>) -> Result<(), AllocError>
        ensures added { OnOk result (held_of self.new ≡ record { name = string_bytes name; bytes = bytes.items } ∷ held_of self.old) }
        ensures refused { OnErr result (held_of self.new ≡ held_of self.old) }
        ensures plan { plan_of self.new ≡ plan_of self.old }
    {
        self.held.add(name, bytes)
    }

    /// How many calls of [`Files::read`] were made.
    pub fn calls(&self) -> u64
        ensures { result ≡ calls_of (plan_of self.now) }
    {
        self.plan.calls()
    }
}

impl Files for MemFiles {
    ghost use Rattle.p10_world.specs.MemFiles.{held_of, plan_of};
    ghost use Rattle.p10_world.specs.Plan.{CountsCall, fails_next, faults_of};

    ghost held = { λ memory. Some (held_of memory) };

    ghost faults = { λ memory. faults_of (plan_of memory) };

    fn read(
        &mut self,
        _alloc: Global,
        name: &str,
        limit: u64,
        into: &mut Vec<u8>,
    ) -> Result<(), FileFault>
        ensures held { held_of self.new ≡ held_of self.old }
        ensures read { OnOk result (GrowsByFile (Some (held_of self.old)) name.now limit into.old.items into.new.items) }
        ensures most { OnOk result (GrowsAtMost limit into.old.items into.new.items) }
        ensures absent { IsErrOf result FileFault.Absent → Lacks (Some (held_of self.old)) name.now }
        ensures lacking { Lacks (Some (held_of self.old)) name.now → IsErrOf result FileFault.Failed ⊎ IsErrOf result FileFault.Absent }
        ensures planned { IsErrOf result FileFault.Failed ↔ IsTrue (fails_next (plan_of self.old)) }
        ensures failed { IsErrOf result FileFault.Failed → Rose (faults_of (plan_of self.old)) (faults_of (plan_of self.new)) }
        ensures count { faults_of (plan_of self.old) ≤ faults_of (plan_of self.new) }
        ensures counted { CountsCall (plan_of self.old) (plan_of self.new) }
        ensures refused { OnErr result (into.new.items ≡ into.old.items) }
    {
        if self.plan.next_fails() {
            return Err(FileFault::Failed);
        }
        self.held.read(name, limit, into)
    }
}
