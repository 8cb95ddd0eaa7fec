//! Which calls of a form in memory are to fail, and how many were made and failed.

ghost use Rattle.std.specs.Prelude.{◌≡◌, ◌≤◌, IsTrue};
ghost use Rattle.p10_world.specs.Faults.{Rose};

/// A plan of failures. Calls are counted from 1, and a count stands still at the last `u64`.
#[derive(Drop)]
pub struct Plan {
    fails: Vec<u64>,
    calls: u64,
    faults: u64,
}

impl Plan {
    ghost use Rattle.p10_world.specs.Plan.{CountsCall, calls_of, fails_next, fails_of, faults_of};

    /// No call made yet; those whose numbers stand in `fails` are to fail.
    pub fn new(fails: Vec<u64>) -> Plan
        ensures fails { fails_of result ≡ fails.items }
        ensures calls { calls_of result ≡ 0 }
        ensures faults { faults_of result ≡ 0 }
    {
        Plan {
            fails,
            calls: 0,
            faults: 0,
        }
    }

    /// How many calls were made.
    pub fn calls(&self) -> u64
        ensures { result ≡ calls_of self.now }
    {
        self.calls
    }

    /// Counts a call, and its fault where it is to fail; answers whether it is.
    pub fn next_fails(&mut self) -> bool
        ensures fails { result ≡ fails_next self.old }
        ensures counted { CountsCall self.old self.new }
        ensures rose { IsTrue result → Rose (faults_of self.old) (faults_of self.new) }
        ensures count { faults_of self.old ≤ faults_of self.new }
    {
        self.calls = self.calls.saturating_add(1);
        let fails = self.fails.contains(&self.calls);
        if fails {
            self.faults = self.faults.saturating_add(1);
        }
        fails
    }
}
