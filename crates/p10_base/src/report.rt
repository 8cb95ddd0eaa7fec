//! What a check reports: violations of rules, refusals of sources, exceeded limits, and bounds.

ghost use Rattle.std.proofs.Common.{rules};
ghost use Rattle.std.specs.Cmp.{partial_order_from_own_ties};
ghost use Rattle.std.specs.Cmp.Rules.{comparing};
ghost use Rattle.std.specs.Ordering.{as_partial_cmp};

use crate::Span;
use std::cmp::Ordering;

/// A row of a rule: `Sub { rule: 8, sub: 4 }` is printed `8.4`.
#[derive(Clone, Copy, Debug, PartialEq, Eq, PartialOrd, Ord)]
pub struct Sub {
    /// The number of the rule, from 1 to 10.
    pub rule: u8,
    /// The number of the row in its rule, from 1.
    pub sub: u8,
}

/// A breach of a rule at a place. Violations are ordered by their places, and at one place by their
/// rows.
#[derive(Clone, Copy, Debug, PartialEq, Eq)]
pub struct Violation {
    pub sub: Sub,
    pub span: Span,
}

impl Ord for Violation {
    ghost use Rattle.p10_base.specs.Order.{violation_cmp};

    ghost cmp = { violation_cmp };

    ghost total = { Prim.search (comparing, rules) depth 9 };

    ghost matches_partial_cmp = { Prim.search (comparing, rules) depth 9 };

    ghost matches_eq = { Prim.search (comparing, rules) depth 9 };

    fn cmp(&self, other: &Violation) -> Ordering {
        self.span.cmp(&other.span).then(self.sub.cmp(&other.sub))
    }
}

impl PartialOrd for Violation {
    ghost use Rattle.p10_base.specs.Order.{violation_cmp};

    ghost partial_cmp = { as_partial_cmp violation_cmp };

    ghost laws = { partial_order_from_own_ties (Prim.search (comparing, rules) depth 9) (Prim.search (comparing, rules) depth 9) };

    fn partial_cmp(&self, other: &Violation) -> Option<Ordering> {
        Some(self.cmp(other))
    }
}

/// The stage that refuses a source.
#[derive(Clone, Copy, Debug, PartialEq, Eq)]
pub enum Family {
    /// Cutting a file into words.
    X,
    /// Directives and macros.
    D,
    /// The grammar.
    G,
    /// The subset of the language.
    S,
}

/// A source that isn't in the language: `Refusal { family: Family::X, number: 2, .. }` is printed `X2`.
#[derive(Clone, Copy, Debug, PartialEq, Eq)]
pub struct Refusal {
    pub family: Family,
    pub number: u8,
    pub span: Span,
}

/// A limit that was exceeded: `Limit::FILE_BYTES`, whose number is 1, is printed `M1`.
///
/// The greatest count that a limit allows is the constant of its name with `MOST_` before it, as
/// [`Limit::MOST_FILE_BYTES`]. [`Limit::OBJECT_BYTES`] has two.
#[derive(Clone, Copy, Debug, PartialEq, Eq)]
pub struct Limit {
    /// From 1 to 10.
    pub number: u8,
}

impl Limit {
    /// M1: the bytes of a source file.
    pub const FILE_BYTES: Limit = Limit { number: 1 };

    /// The most bytes of a source file.
    pub const MOST_FILE_BYTES: u64 = 1_048_576;

    /// M2: the words of a file.
    pub const FILE_WORDS: Limit = Limit { number: 2 };

    /// The most words of a file.
    pub const MOST_FILE_WORDS: u64 = 262_144;

    /// M3: the nested includes; a root has 0.
    pub const NESTED_INCLUDES: Limit = Limit { number: 3 };

    /// The most nested includes.
    pub const MOST_NESTED_INCLUDES: u64 = 64;

    /// M4: over all roots together, the words of files, each time that they are included, and of replacements.
    pub const EXPANDED_WORDS: Limit = Limit { number: 4 };

    /// The most words of files and replacements.
    pub const MOST_EXPANDED_WORDS: u64 = 1_048_576;

    /// M5: the nesting of the expanded words of a root.
    pub const NESTING: Limit = Limit { number: 5 };

    /// The greatest nesting.
    pub const MOST_NESTING: u64 = 512;

    /// M6: the macros that are defined at once, without those of built-in headers.
    pub const MACROS: Limit = Limit { number: 6 };

    /// The most macros that are defined at once.
    pub const MOST_MACROS: u64 = 8_192;

    /// M7: the gathered files that are there.
    pub const FILES: Limit = Limit { number: 7 };

    /// The most gathered files.
    pub const MOST_FILES: u64 = 256;

    /// M8: the bytes of an object or of a frame, and those of all static objects together.
    pub const OBJECT_BYTES: Limit = Limit { number: 8 };

    /// The most bytes of an object or of a frame.
    pub const MOST_OBJECT_BYTES: u64 = 1_048_576;
    /// The most bytes of all static objects together, without string literals; M8 too.
    pub const MOST_STATIC_BYTES: u64 = 16_777_216;

    /// M9: a sum of steps, calls or bytes, or a number of turns, where a certificate is derived.
    pub const SUM: Limit = Limit { number: 9 };

    /// The greatest sum, and the most turns.
    pub const MOST_SUM: u64 = 1_000_000_000_000_000_000;

    /// M10: the bytes of a certificate.
    pub const CERTIFICATE_BYTES: Limit = Limit { number: 10 };

    /// The most bytes of a certificate.
    pub const MOST_CERTIFICATE_BYTES: u64 = 8_388_608;
}

/// The bounds of a program, from the total line of its certificate.
#[derive(Clone, Copy, Debug, PartialEq, Eq)]
pub struct Bounds {
    /// Steps of `main`, or of the part before its task loop.
    pub prefix: u64,
    /// Steps of each turn of the task loop.
    pub turn: u64,
    /// Greatest number of open calls.
    pub calls: u64,
    /// Greatest depth of the stack, in bytes.
    pub bytes: u64,
}
