//! The files that a command names besides its sources are loaded.

ghost use Rattle.std.specs.Prelude.{◌≡◌, ◌≤◌, IfOk, IsErrOf};
ghost use Rattle.p10_world.specs.Faults.{Rose};
ghost use Rattle.p10_run_command.specs.private.Granting.{IsAllowance, requested};
ghost use Rattle.p10_run_command.specs.private.Recording.{AreLoaded};

use crate::command::RunCommand;
use crate::granting::{Allowance, RunRequest};
use crate::sensors::MOST_SENSOR_BYTES;
use p10_base::{ListBuf, TextBuf};
use p10_command::{Trouble, load};
use p10_judge::load_certificate;
use p10_words::Budget;
use p10_world::Files;
use std::alloc::Global;

/// What the files of a command come to.
#[derive(Drop)]
pub enum Loaded<'c> {
    /// They are there, and this is asked of the run.
    Request(RunRequest),
    /// The first that isn't there has this name.
    Absent(&'c TextBuf),
}

/// Loads the files that a command names besides its sources: that of the certificate, and after it that of sensor values.
///
/// # Errors
///
/// `Read` only where the count of faults of `files` rose. `Memory` may come at any file.
pub fn load_files<'c, F: Files>(
    alloc: Global,
    files: &mut F,
    command: &'c RunCommand,
) -> Result<Loaded<'c>, Trouble>
    ensures loaded { IfOk result (AreLoaded (F.held files.old) command.now) }
    ensures failed { IsErrOf result Trouble.Read → Rose (F.faults files.old) (F.faults files.new) }
    ensures count { F.faults files.old ≤ F.faults files.new }
    ensures held { F.held files.new ≡ F.held files.old }
{
    match &command.budget {
        Budget::Steps(steps) => load_sensors(alloc, files, command, Allowance::Steps(*steps)),
        Budget::Certificate(name) => match load_certificate(alloc, files, name.as_str()) {
            Ok(Some(bytes)) => load_sensors(alloc, files, command, Allowance::Certificate(bytes)),
            Ok(None) => Ok(Loaded::Absent(name)),
            Err(trouble) => Err(trouble),
        },
    }
}

/// Loads the file of sensor values, where the command names one, once it is known what the run is allowed.
///
/// # Errors
///
/// As those of [`load_files`].
fn load_sensors<'c, F: Files>(
    alloc: Global,
    files: &mut F,
    command: &'c RunCommand,
    allowance: Allowance,
) -> Result<Loaded<'c>, Trouble>
    requires { IsAllowance (F.held files.old) command.now.budget allowance }
    ensures loaded { IfOk result (AreLoaded (F.held files.old) command.now) }
    ensures failed { IsErrOf result Trouble.Read → Rose (F.faults files.old) (F.faults files.new) }
    ensures count { F.faults files.old ≤ F.faults files.new }
    ensures held { F.held files.new ≡ F.held files.old }
{
    match &command.sensors {
        None => Ok(Loaded::Request(requested(command, allowance, None))),
        Some(name) => match load(alloc, files, name.as_str(), MOST_SENSOR_BYTES) {
            Ok(Some(bytes)) => {
                let file = Some(ListBuf::of(bytes));
                Ok(Loaded::Request(requested(command, allowance, file)))
            }
            Ok(None) => Ok(Loaded::Absent(name)),
            Err(trouble) => Err(trouble),
        },
    }
}

/// What a command asks of its run, by what bounds it and the bytes of the file of sensor values.
fn requested(command: &RunCommand, allowance: Allowance, sensors: Option<ListBuf<u8>>) -> RunRequest
    ensures { result ≡ requested command.now allowance sensors }
{
    RunRequest {
        allowance,
        turns: command.turns,
        deny: command.deny,
        sensors,
    }
}
