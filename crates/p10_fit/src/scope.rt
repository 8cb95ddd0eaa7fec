//! The variables in scope, as a walk over statements declares and leaves them (C99 6.2.1p4).

ghost use Rattle.p10_fit.specs.private.Scoping.{AreCounts};

use std::alloc::{AllocError, Global};

/// The numbers of the variables in scope, in the order in which they were declared, and how often each variable of the function is
/// among them.
#[derive(Drop)]
pub(crate) struct Scope {
    counts: Vec<usize>,
    numbers: Vec<u32>,
    ghost counted: { AreCounts counts.items numbers.items },
}

impl Scope {
    ghost use Rattle.std.specs.Prelude.{◌≡◌, ◌≤◌, ◌<◌, ◌++◌, ◌∷◌, [], ◌↔◌, IsTrue, OnOk, OnErr, IfOk, length, take, true, slice_get, None};
    ghost use Rattle.p10_core.specs.WholePrograms.{is_among, numbers_from};

    /// No variable in scope of a function with this many.
    pub(crate) fn new(alloc: Global, variables: usize) -> Result<Scope, AllocError>
        ensures empty { IfOk result (λ s. s.numbers.items ≡ []) }
        ensures counts { IfOk result (λ s. length s.counts.items ≡ variables) }
    {
        let mut counts = Vec::new(alloc);
        counts.resize(variables, 0)?;
        Ok(Scope {
            counts,
            numbers: Vec::new(alloc),
        })
    }

    /// The first `count` variables of the function are declared: its parameters.
    pub(crate) fn declare_first(&mut self, count: u32) -> Result<(), AllocError>
        requires { self.old.numbers.items ≡ [] }
        ensures ok { OnOk result (self.new.numbers.items ≡ numbers_from 0 count) }
        ensures same { length self.new.counts.items ≡ length self.old.counts.items }
    {
        for number in 0..count {
            self.declare(number)?;
        }
        Ok(())
    }

    /// How many numbers are in scope.
    pub(crate) fn len(&self) -> usize
        ensures { result ≡ length self.now.numbers.items }
    {
        self.numbers.len()
    }

    /// A variable is declared.
    pub(crate) fn declare(&mut self, number: u32) -> Result<(), AllocError>
        ensures ok { OnOk result (self.new.numbers.items ≡ self.old.numbers.items ++ number ∷ []) }
        ensures same { length self.new.counts.items ≡ length self.old.counts.items }
    {
        self.numbers.push(number)?;
        if let Some(count) = self.counts.get_mut(number as usize) {
            *count += 1;
        }
        Ok(())
    }

    /// The variables that were declared after the first `count` are in scope no longer.
    pub(crate) fn leave(&mut self, count: usize)
        requires { count ≤ length self.old.numbers.items }
        ensures left { self.new.numbers.items ≡ take count self.old.numbers.items }
        ensures same { length self.new.counts.items ≡ length self.old.counts.items }
    {
        while self.numbers.len() > count {
            if let Some(number) = self.numbers.pop() {
                if let Some(seen) = self.counts.get_mut(number as usize) {
                    *seen -= 1;
                }
            }
        }
    }

    /// Whether a variable of the function is in scope.
    pub(crate) fn has(&self, number: u32) -> bool
        requires { number < length self.now.counts.items }
        ensures { IsTrue result ↔ (is_among number self.now.numbers.items ≡ true) }
    {
        self.counts[number as usize] > 0
    }
}
