//! The ranges of variables at the head of a loop, packed.
//!
//! A function of many variables and loops has a range for nearly each of both, so they stand in memory as bytes
//! (`packing`), and are read one after the other.

use crate::claims::VarRange;
use crate::packing::{packed, unpacked};
use std::alloc::{AllocError, Global};
use std::marker::Model;

/// The ranges of variables at the head of a loop, in the order in which they came. Contracts see the list of them.
#[derive(Debug, Drop)]
pub struct VarRanges {
    /// The ranges, packed.
    bytes: Vec<u8>,
    /// How many there are.
    count: u32,
    /// The number of the last one's variable, and 0 before the first.
    last: u32,
}

impl Model for VarRanges {
    ghost use Rattle.std.specs.Prelude.{List};
    ghost use Rattle.p10_cert.specs.Vars.{Var};
    ghost use Rattle.p10_cert.specs.private.Packing.{vars_from, ArePacked};

    ghost Value = { List Var };

    ghost view = { λ r. vars_from r.count 0 r.bytes.items };

    ghost invariant = { λ r. ArePacked r.count r.last r.bytes.items };
}

impl VarRanges {
    ghost use Rattle.std.specs.Prelude.{◌≡◌, [], ◌∷◌, ◌++◌, map, IfOk, OnErr, OnOk};
    ghost use Rattle.p10_cert.specs.Vars.{var_of};

    /// No ranges.
    pub fn new(alloc: Global) -> VarRanges
        ensures { result ≡ [] }
    {
        VarRanges {
            bytes: Vec::new(alloc),
            count: 0,
            last: 0,
        }
    }

    /// Puts a range at the end, or leaves the ranges as they were where it is out of memory.
    pub fn push(&mut self, alloc: Global, line: VarRange) -> Result<(), AllocError>
        ensures ok { OnOk result (self.new ≡ self.old ++ var_of line ∷ []) }
        ensures err { OnErr result (self.new ≡ self.old) }
    {
        let count = match self.count.checked_add(1) {
            Some(count) => count,
            None => return Err(AllocError),
        };
        let bytes = packed(alloc, self.last, line)?;
        self.bytes.extend_from_slice(bytes.as_slice())?;
        self.count = count;
        self.last = line.var;
        Ok(())
    }

    /// Gives back the memory that the ranges don't fill.
    pub fn shrink_to_fit(&mut self)
        ensures { self.new ≡ self.old }
    {
        self.bytes.shrink_to_fit();
    }

    /// The same ranges once more.
    pub fn copy(&self, alloc: Global) -> Result<VarRanges, AllocError>
        ensures { IfOk result (λ copy. copy ≡ self.now) }
    {
        Ok(VarRanges {
            bytes: Vec::from_slice(alloc, self.bytes.as_slice())?,
            count: self.count,
            last: self.last,
        })
    }

    /// A reader of the ranges that has given none.
    pub fn reader(&self) -> VarRangeReader<'_>
        ensures { result ≡ self.now }
    {
        VarRangeReader {
            bytes: self.bytes.as_slice(),
            left: self.count,
            last: 0,
        }
    }

    /// The ranges, each by itself.
    pub fn list(&self, alloc: Global) -> Result<Vec<VarRange>, AllocError>
        ensures { IfOk result (λ list. map var_of list.items ≡ self.now) }
    {
        let mut list = Vec::with_capacity(alloc, self.count as usize)?;
        let mut left = self.reader();
        while let Some(line) = left.next() {
            list.push(line)?;
        }
        Ok(list)
    }
}

/// A reader of ranges, one after the other, without memory. Contracts see the ranges that it has yet to give.
#[derive(Drop)]
pub struct VarRangeReader<'r> {
    bytes: &'r [u8],
    left: u32,
    last: u32,
}

impl<'r> Model for VarRangeReader<'r> {
    ghost use Rattle.std.specs.Prelude.{List};
    ghost use Rattle.p10_cert.specs.Vars.{Var};
    ghost use Rattle.p10_cert.specs.private.Packing.{vars_from};

    ghost Value = { List Var };

    ghost view = { λ r. vars_from r.left r.last r.bytes.now };
}

impl<'r> VarRangeReader<'r> {
    ghost use Rattle.std.specs.Prelude.{◌≡◌, [], ◌∷◌, MatchOption};
    ghost use Rattle.p10_cert.specs.Vars.{var_of};

    /// The next range, if there is one.
    pub fn next(&mut self) -> Option<VarRange>
        ensures { MatchOption result ((self.old ≡ []) × (self.new ≡ [])) (λ line. self.old ≡ var_of line ∷ self.new) }
    {
        if self.left == 0 {
            return None;
        }
        let (line, rest) = unpacked(self.last, self.bytes);
        self.bytes = rest;
        self.left -= 1;
        self.last = line.var;
        Some(line)
    }
}
