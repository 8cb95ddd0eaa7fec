//! The command.

use p10_base::{ListBuf, TextBuf};
use p10_words::Budget;

/// `run [--include DIRECTORIES] [--steps N | --cert CERTIFICATE] [--turns N] [--deny N] [--sensors VALUES] SOURCE..`
#[derive(Drop)]
pub struct RunCommand {
    /// The directories in which included files are looked for, in their order.
    pub directories: ListBuf<TextBuf>,
    /// The steps of the part before the task loop, and those of each turn; or the name of the certificate that claims them.
    pub budget: Budget,
    /// The most turns of the task loop.
    pub turns: u64,
    /// The number of the request for memory that is denied, or 0 for none.
    pub deny: u64,
    /// The name of the file of sensor values; without one there are none.
    pub sensors: Option<TextBuf>,
    /// The names of the source files.
    pub sources: ListBuf<TextBuf>,
}
