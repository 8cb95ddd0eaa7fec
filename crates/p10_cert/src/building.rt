//! What is claimed of a function, and its digest, built from its lines one after the other.

ghost use Rattle.std.specs.Prelude.{◌≡◌, [], ◌∷◌, ◌++◌, map, IfOk, OnOk};
ghost use Rattle.std.specs.Option.{option_map};
ghost use Rattle.p10_cert.specs.Claims.{func_of, loop_of, var_of};
ghost use Rattle.p10_cert.specs.private.Building.{bare_loop, closed};
ghost use Rattle.p10_cert.specs.private.Plain.{plain_start};

use crate::claims::{FuncClaim, LoopClaim, ValueClaim, VarRange};
use crate::line::{Head, LoopStart, Row};
use crate::var_ranges::VarRanges;
use p10_base::{Digest, ListBuf};
use std::alloc::{AllocError, Global};

/// What was read of a function. The loop that was read last is kept apart, since variables may still come.
#[derive(Drop)]
pub(crate) struct Partial<'c> {
    head: Head<'c>,
    digest: Option<Digest>,
    params: ListBuf<ValueClaim>,
    result: ValueClaim,
    loops: ListBuf<LoopClaim>,
    last: Option<LoopClaim>,
}

impl<'c> Partial<'c> {
    ghost use Rattle.std.specs.Option.{option_map};
    ghost use Rattle.p10_cert.specs.Lines.{LoopLine, VarLine};
    ghost use Rattle.p10_cert.specs.Sealed.{bytes_of};
    ghost use Rattle.p10_cert.specs.private.Plain.{plain_line};
    ghost use Rattle.p10_cert.specs.private.Building.{no_part, build, finish};
    ghost use Rattle.p10_cert.specs.private.Partials.{part_of};

    /// Before the first line.
    pub(crate) fn new(alloc: Global) -> Partial<'c>
        ensures { part_of result ≡ no_part }
    {
        Partial {
            head: Head {
                name: b"",
                rank: 0,
                steps: 0,
                calls: 0,
                bytes: 0,
                alloc: false,
            },
            digest: None,
            params: ListBuf::of(Vec::new(alloc)),
            result: ValueClaim::Void,
            loops: ListBuf::of(Vec::new(alloc)),
            last: None,
        }
    }

    /// Takes a line more.
    pub(crate) fn take(&mut self, alloc: Global, line: Row<'c>) -> Result<(), AllocError>
        ensures { OnOk result (part_of self.new ≡ build (part_of self.old) (plain_line line.entry)) }
    {
        match line {
            Row::Func(head) => {
                self.head = head;
                Ok(())
            }
            Row::Digest(digest) => {
                self.digest = Some(digest);
                Ok(())
            }
            Row::Param(value) => self.params.push(value),
            Row::Result(value) => {
                self.result = value;
                Ok(())
            }
            Row::Loop(start) => self.take_loop(alloc, start),
            Row::Var(found) => self.take_var(alloc, found),
            _ => Ok(()),
        }
    }

    /// Takes the first line of a loop.
    fn take_loop(&mut self, alloc: Global, start: LoopStart) -> Result<(), AllocError>
        ensures { OnOk result (part_of self.new ≡ build (part_of self.old) (LoopLine (plain_start start))) }
    {
        let last = std::mem::replace(&mut self.last, Some(bare(alloc, start)));
        match last {
            Some(item) => self.loops.push(fitted(item)),
            None => Ok(()),
        }
    }

    /// Takes a variable of the last loop.
    fn take_var(&mut self, alloc: Global, found: VarRange) -> Result<(), AllocError>
        ensures { OnOk result (part_of self.new ≡ build (part_of self.old) (VarLine (var_of found))) }
    {
        match &mut self.last {
            Some(item) => item.inv.push(alloc, found),
            None => Ok(()),
        }
    }

    /// The digest, where a line told one.
    pub(crate) fn digest(&self) -> Option<Digest>
        ensures { option_map bytes_of result ≡ (part_of self.now).digest }
    {
        self.digest
    }

    /// The claim, after the last line.
    pub(crate) fn finish(self, alloc: Global) -> Result<FuncClaim, AllocError>
        ensures { IfOk result (λ f. func_of f ≡ finish (part_of self.entry)) }
    {
        let Partial {
            head,
            digest: _,
            params,
            result,
            loops,
            last,
        } = self;
        let loops = close(loops, last)?;
        Ok(FuncClaim {
            name: ListBuf::of(Vec::from_slice(alloc, head.name)?),
            rank: head.rank,
            steps: head.steps,
            calls: head.calls,
            bytes: head.bytes,
            alloc: head.alloc,
            params,
            result,
            loops,
        })
    }
}

/// The loops so far.
fn close(
    mut loops: ListBuf<LoopClaim>,
    last: Option<LoopClaim>,
) -> Result<ListBuf<LoopClaim>, AllocError>
    ensures { IfOk result (λ all. map loop_of all ≡ closed (map loop_of loops) (option_map loop_of last)) }
{
    if let Some(item) = last {
        loops.push(fitted(item))?;
    }
    Ok(loops)
}

/// A loop whose ranges take no more memory than they fill.
fn fitted(claim: LoopClaim) -> LoopClaim
    ensures { loop_of result ≡ loop_of claim }
{
    let mut claim = claim;
    claim.inv.shrink_to_fit();
    claim
}

/// A loop of which no variables were read.
fn bare(alloc: Global, start: LoopStart) -> LoopClaim
    ensures { loop_of result ≡ bare_loop (plain_start start) }
{
    LoopClaim {
        depth: start.depth,
        rank: start.rank,
        turns: start.turns,
        inv: VarRanges::new(alloc),
    }
}
