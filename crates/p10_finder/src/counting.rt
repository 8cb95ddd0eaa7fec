//! The sums of functions, each counted after those of the functions that it calls.

ghost use Rattle.std.specs.Prelude.{◌≡◌, ◌+◌, ◌<◌, length, IfOk, OnOk};
ghost use Rattle.p10_core.specs.Views.{plain_program};
ghost use Rattle.p10_graph.specs.Graphs.{IsGraph};
ghost use Rattle.p10_cert.specs.Claims.{claims_of};
ghost use Rattle.p10_approach.specs.Offers.{offers_if};
ghost use Rattle.p10_finder.specs.Functions.{total_of as total_by};
ghost use Rattle.p10_finder.specs.Answers.{AreClaims};
ghost use Rattle.p10_finder.specs.private.Counting.{first_sum as sum_at_first, with_sums as claims_with_sums, counted_once, IsRanked, IsCounting, IsCountedTwice, IsCounted, AreSumsBelow};
ghost use Rattle.p10_finder.specs.private.Visiting.{IsLoneAt};

use crate::calls::{Calls, nodes_by_number};
use crate::summed::{with_sum, with_sums};
use p10_base::{Bounds, Limit, ListBuf};
use p10_cert::Cert;
use p10_sums::{FuncSum, capped_sum_of};
use std::alloc::{AllocError, Global};

/// The functions of a program with their ranks, and what is claimed of them before their sums are counted.
#[derive(Clone, Copy)]
pub(crate) struct Ranked<'a, 's> {
    pub calls: Calls<'a, 's>,
    pub claims: &'a Cert,
    pub ranks: &'a [u32],
}

impl Ranked<'_, '_> {
    /// The claims with their sums, and with the total of `main`.
    pub(crate) fn certificate(&self, alloc: Global) -> Result<Cert, AllocError>
        requires { IsRanked self.now }
        ensures { IfOk result (λ certificate. AreClaims (offers_if self.now.calls.approaching) (plain_program self.now.calls.program.now) (claims_of certificate)) }
    {
        let count = self.claims.funcs.as_slice().len();
        let mut sums = vec![in alloc; first_sum(); count]?;
        let funcs = with_sums(alloc, self.claims.funcs.as_slice(), sums.as_slice())?;
        let bare = total_of(first_sum());
        let mut claims = Cert {
            funcs: ListBuf::of(funcs),
            total: bare,
        };
        self.count_all(alloc, &mut claims, &mut sums)?;
        let total = total_of(sums[self.calls.program.main as usize]);
        claims.total = total;
        Ok(claims)
    }

    /// Counts the sums of all functions.
    fn count_all(
        &self,
        alloc: Global,
        claims: &mut Cert,
        sums: &mut Vec<FuncSum>,
    ) -> Result<(), AllocError>
        requires ranked { IsRanked self.now }
        requires claims { (claims_of claims.old).funcs ≡ claims_with_sums (claims_of self.now.claims.now).funcs sums.old.items }
        requires sums { AreSumsBelow (plain_program self.now.calls.program.now) (claims_of self.now.claims.now) self.now.calls.numbers.now 0 sums.old.items }
        ensures { OnOk result (IsCounted self.now (claims_of claims.new).funcs sums.new.items) }
    {
        let end = self.calls.graph.count();
        let nodes = nodes_by_number(alloc, self.calls.numbers)?;
        for number in 0..end {
            self.count(alloc, nodes[number as usize], number, claims, sums)?;
        }
        Ok(())
    }

    /// Counts the sum of a function, if it has the number before which all are counted.
    fn count(
        &self,
        alloc: Global,
        node: u32,
        number: u32,
        claims: &mut Cert,
        sums: &mut Vec<FuncSum>,
    ) -> Result<(), AllocError>
        requires ranked { IsRanked self.now }
        requires graph { IsGraph self.now.calls.graph.now }
        requires there { node < length self.now.calls.graph.now }
        requires lone { IsLoneAt self.now.calls.graph.now self.now.calls.numbers.now number node }
        requires counting { IsCounting self.now number (claims_of claims.old).funcs sums.old.items }
        ensures { OnOk result (IsCounting self.now (number + 1) (claims_of claims.new).funcs sums.new.items) }
    {
        if self.calls.numbers[node as usize] == number {
            self.count_twice(alloc, node, claims, sums)
        } else {
            Ok(())
        }
    }

    /// Counts the sum of a function: first the steps of a turn of the task, and then all under the claim of these.
    fn count_twice(
        &self,
        alloc: Global,
        node: u32,
        claims: &mut Cert,
        sums: &mut Vec<FuncSum>,
    ) -> Result<(), AllocError>
        requires ranked { IsRanked self.now }
        requires there { node < length self.now.calls.program.now.functions }
        requires each { length sums.old.items ≡ length self.now.calls.program.now.functions }
        requires claims { (claims_of claims.old).funcs ≡ claims_with_sums (claims_of self.now.claims.now).funcs sums.old.items }
        ensures { OnOk result (IsCountedTwice self.now node sums.old.items (claims_of claims.new).funcs sums.new.items) }
    {
        self.count_once(alloc, node, claims, sums)?;
        self.count_once(alloc, node, claims, sums)?;
        Ok(())
    }

    /// Counts the sum of a function where the others stand.
    fn count_once(
        &self,
        alloc: Global,
        node: u32,
        claims: &mut Cert,
        sums: &mut Vec<FuncSum>,
    ) -> Result<(), AllocError>
        requires ranked { IsRanked self.now }
        requires there { node < length self.now.calls.program.now.functions }
        requires each { length sums.old.items ≡ length self.now.calls.program.now.functions }
        requires claims { (claims_of claims.old).funcs ≡ claims_with_sums (claims_of self.now.claims.now).funcs sums.old.items }
        ensures sums { OnOk result (sums.new.items ≡ counted_once (plain_program self.now.calls.program.now) (claims_of self.now.claims.now).funcs node sums.old.items) }
        ensures each { OnOk result (length sums.new.items ≡ length self.now.calls.program.now.functions) }
        ensures claims { OnOk result ((claims_of claims.new).funcs ≡ claims_with_sums (claims_of self.now.claims.now).funcs sums.new.items) }
    {
        let unsummed = self.claims.funcs.as_slice();
        let sum = capped_sum_of(self.calls.program, claims, node as usize);
        let own = &unsummed[node as usize];
        let mut claim = with_sum(alloc, own, sum)?;
        claims.funcs.exchange(node as usize, &mut claim);
        sums[node as usize] = sum;
        Ok(())
    }
}

/// The sum of a function before it is counted: a turn of the task takes more steps than the limit allows, so that what is counted first
/// is right, whether it counts itself or not.
fn first_sum() -> FuncSum
    ensures { result ≡ sum_at_first }
{
    FuncSum {
        steps: 0,
        calls: 0,
        bytes: 0,
        alloc: false,
        turn: Limit::MOST_SUM + 1,
    }
}

/// The bounds of a program by the sum of `main`.
fn total_of(sum: FuncSum) -> Bounds
    ensures { result ≡ total_by sum }
{
    Bounds {
        prefix: sum.steps,
        turn: sum.turn,
        calls: sum.calls,
        bytes: sum.bytes,
    }
}
