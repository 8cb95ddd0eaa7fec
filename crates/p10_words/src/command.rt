//! The commands.

use p10_base::{ListBuf, TextBuf};

/// A command with its options and files.
#[derive(Debug, Drop)]
pub enum Command {
    /// `check [--include D] [--format text|json] FILE..`
    Check {
        /// The directories of `--include`, in their order.
        dirs: ListBuf<TextBuf>,
        /// Whether the report is asked for as JSON; lines of text where no format is given.
        json: bool,
        /// The source files; there is one at least.
        files: ListBuf<TextBuf>,
    },
    /// `derive [--include D] [--cert-version 1|2 | --diff] FILE..`
    Derive {
        /// The directories of `--include`, in their order.
        dirs: ListBuf<TextBuf>,
        /// The version of the certificate's text, 1 or 2; 1 where neither option is given, and 2 with `--diff`.
        version: u8,
        /// Whether ranks by differences of two variables are looked for.
        diff: bool,
        /// The source files; there is one at least.
        files: ListBuf<TextBuf>,
    },
    /// `migrate [--include D] --cert C FILE..`
    Migrate {
        /// The directories of `--include`, in their order.
        dirs: ListBuf<TextBuf>,
        /// The name of the certificate's file.
        cert: TextBuf,
        /// The source files; there is one at least.
        files: ListBuf<TextBuf>,
    },
    /// `verify [--include D] [--clean] --cert C FILE..`
    Verify {
        /// The directories of `--include`, in their order.
        dirs: ListBuf<TextBuf>,
        /// Whether the certificate has to be clean, too.
        clean: bool,
        /// The name of the certificate's file.
        cert: TextBuf,
        /// The source files; there is one at least.
        files: ListBuf<TextBuf>,
    },
    /// `recheck [--include D] --since OLD --cert C FILE..`
    Recheck {
        /// The directories of `--include`, in their order.
        dirs: ListBuf<TextBuf>,
        /// The name of the file of the certificate from before the edit.
        since: TextBuf,
        /// The name of the file of the certificate from after it.
        cert: TextBuf,
        /// The source files; there is one at least.
        files: ListBuf<TextBuf>,
    },
    /// `run [--include D] [--steps N | --cert C] [--turns N] [--deny N] [--sensors V] FILE..`
    Run {
        /// The directories of `--include`, in their order.
        dirs: ListBuf<TextBuf>,
        /// What bounds the steps; 10,000,000 of them where neither option is given.
        budget: Budget,
        /// The number of turns of the task loop; 1 where it isn't given.
        turns: u64,
        /// The number of the denied request, or 0 for none.
        deny: u64,
        /// The name of the file of sensor values, where it is given.
        sensors: Option<TextBuf>,
        /// The source files; there is one at least.
        files: ListBuf<TextBuf>,
    },
    /// `gen N`
    Generate {
        /// The number of functions beside `main` in the program that is made.
        functions: u64,
    },
}

/// What bounds the steps of a run.
#[derive(Debug, Drop)]
pub enum Budget {
    /// `--steps N`: N before the task loop, and in each of its turns.
    Steps(u64),
    /// `--cert C`: those that the certificate in the file of this name claims.
    Certificate(TextBuf),
}

/// Why there is no command.
#[derive(Debug, PartialEq, Eq, Drop)]
pub enum Usage {
    /// The words are no command line.
    Refused,
    /// Out of memory.
    Memory,
}
