//! The values of sensors of a run.

ghost use Rattle.std.specs.Prelude.{◌≡◌, ◌≤◌, IfOk, OnErr, OnOk};
ghost use Rattle.std.specs.Io.KnownBytes.{Appends};
ghost use Rattle.p10_world.specs.Faults.{Rose};
ghost use Rattle.p10_report.specs.Stops.{StopsWithin};
ghost use Rattle.p10_run_command.specs.Sensors.{no_values_line};
ghost use Rattle.p10_run_command.specs.private.Recording.{IsRecorded, IsRecordedIn};

use p10_base::{Limit, ListBuf};
use p10_report::{put_bad_sensors, put_limit};
use p10_sensors::{SensorFault, sensor_values};
use p10_world::{Sink, SinkFault};
use std::alloc::{AllocError, Global};

/// M11: the bytes of a file of sensor values.
const SENSOR_BYTES: Limit = Limit { number: 11 };

/// The most bytes of a file of sensor values.
pub const MOST_SENSOR_BYTES: u64 = 8_388_608;

/// Why a file gives no values of sensors.
#[derive(Clone, Copy, Debug)]
pub enum NoValues {
    /// It has more bytes than it may: M11.
    TooLong,
    /// Its line with this number, from 1, is the first of another form.
    OtherLine(u64),
}

impl NoValues {
    ghost use Rattle.p10_run_command.specs.Sensors.{no_values_status};

    /// The status with which the program exits.
    pub fn status(self) -> u8
        ensures { result ≡ no_values_status self }
    {
        match self {
            NoValues::TooLong => 8,
            NoValues::OtherLine(_) => 13,
        }
    }
}

/// What a file of sensor values comes to.
#[derive(Drop)]
pub enum Recorded {
    /// It has these values.
    Values(Vec<i128>),
    /// It has none, for this reason.
    Nothing(NoValues),
}

/// What the bytes of the file of sensor values come to; where there is no such file there are no values. Of a file that is over
/// the limit, the first bytes are enough.
///
/// # Errors
///
/// Out of memory.
pub fn recorded_in_file(alloc: Global, file: &Option<ListBuf<u8>>) -> Result<Recorded, AllocError>
    ensures { IfOk result (IsRecorded file.now) }
{
    match file {
        Some(bytes) => recorded_in(alloc, bytes.as_slice()),
        None => Ok(Recorded::Values(Vec::new(alloc))),
    }
}

/// What these bytes come to.
fn recorded_in(alloc: Global, bytes: &[u8]) -> Result<Recorded, AllocError>
    ensures { IfOk result (IsRecordedIn bytes.now) }
{
    if bytes.len() as u64 > MOST_SENSOR_BYTES {
        return Ok(Recorded::Nothing(NoValues::TooLong));
    }
    match sensor_values(alloc, bytes) {
        Ok(values) => Ok(Recorded::Values(values)),
        Err(fault) => match fault {
            SensorFault::Line(line) => Ok(Recorded::Nothing(NoValues::OtherLine(line))),
            SensorFault::Memory => Err(AllocError),
        },
    }
}

/// Writes the line that says why a file gives no values.
///
/// # Errors
///
/// A fault only where the sink's count of faults rose; it then took a prefix of the line.
pub fn put_no_values<E: Sink>(err: &mut E, why: NoValues) -> Result<(), SinkFault>
    ensures ok { OnOk result (Appends (E.taken err.old) (E.taken err.new) (no_values_line why)) }
    ensures stopped { OnErr result (StopsWithin (E.taken err.old) (E.taken err.new) (no_values_line why)) }
    ensures failed { OnErr result (Rose (E.faults err.old) (E.faults err.new)) }
    ensures count { E.faults err.old ≤ E.faults err.new }
{
    match why {
        NoValues::TooLong => put_limit(err, SENSOR_BYTES),
        NoValues::OtherLine(line) => put_bad_sensors(err, line),
    }
}
