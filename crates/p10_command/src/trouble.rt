//! What ends a command whatever its sources are.

ghost use Rattle.std.specs.Prelude.{◌≡◌, ◌≤◌, OnErr, OnOk};
ghost use Rattle.std.specs.Io.KnownBytes.{Appends};
ghost use Rattle.p10_world.specs.Faults.{Rose};
ghost use Rattle.p10_report.specs.Stops.{StopsWithin};
ghost use Rattle.p10_command.specs.Saying.{trouble_line};

use p10_report::{put_out_of_memory, put_read_fault};
use p10_world::{Sink, SinkFault};
use std::alloc::AllocError;

/// Why there is no answer.
#[derive(Clone, Copy, Debug)]
pub enum Trouble {
    /// A read failed.
    Read,
    /// Out of memory.
    Memory,
}

impl Trouble {
    ghost use Rattle.p10_command.specs.Saying.{trouble_status};

    /// The status with which the program exits.
    pub fn status(self) -> u8
        ensures { result ≡ trouble_status self }
    {
        match self {
            Trouble::Read => 5,
            Trouble::Memory => 7,
        }
    }
}

impl From<AllocError> for Trouble {
    ghost use Rattle.p10_command.specs.declared.trouble.Trouble.TheVariants.{Memory};

    ghost from_gives = { λ _ trouble. trouble ≡ Memory };

    fn from(_error: AllocError) -> Trouble {
        Trouble::Memory
    }
}

/// Writes the line of a trouble.
///
/// The sink took the whole line at `Ok`.
///
/// # Errors
///
/// A fault only where the sink's count of faults rose; it then took a prefix of the line.
pub fn put_trouble<E: Sink>(err: &mut E, trouble: Trouble) -> Result<(), SinkFault>
    ensures ok { OnOk result (Appends (E.taken err.old) (E.taken err.new) (trouble_line trouble)) }
    ensures stopped { OnErr result (StopsWithin (E.taken err.old) (E.taken err.new) (trouble_line trouble)) }
    ensures failed { OnErr result (Rose (E.faults err.old) (E.faults err.new)) }
    ensures count { E.faults err.old ≤ E.faults err.new }
{
    match trouble {
        Trouble::Read => put_read_fault(err),
        Trouble::Memory => put_out_of_memory(err),
    }
}
