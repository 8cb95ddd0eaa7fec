//! The program `p10`: the host's arguments, files and streams in; what [`p10_main`] answers out.
#![tactic(auto)]

ghost use Rattle.std.specs.Prelude.{◌≡◌, ◌⊎◌};
ghost use Rattle.std.specs.Io.KnownBytes.{Appends};
ghost use Rattle.p10_world.specs.Faults.{Rose};
ghost use Rattle.p10_report.specs.Messages.{out_of_memory_line};
ghost use Rattle.p10_report.specs.Stops.{StopsWithin};

use p10_report::put_out_of_memory;
use p10_top::p10_main;
use p10_world::{HostFiles, HostSink, HostSource, Sink};
use std::alloc::AllocError;
use std::env;
use std::io::ErrorKind;
use std::process::ExitCode;
use std::rt::Env;

/// The words after the program's name. Where they can't be read, or one isn't UTF-8, there are none,
/// which is no command.
///
/// # Errors
/// Out of memory.
fn command_line(rt: &(impl Env + AllocGlobal)) -> Result<Vec<String>, AllocError> {
    let mut words = Vec::new(rt.alloc());
    let arguments = match env::args(rt) {
        Ok(arguments) => arguments,
        Err(fault) => {
            return if fault.kind() == ErrorKind::OutOfMemory {
                Err(AllocError)
            } else {
                Ok(words)
            };
        }
    };
    for word in arguments.skip(1) {
        words.push(word)?;
    }
    Ok(words)
}

/// Reports on `err` that memory is out, and gives the status: 7, or 6 where that couldn't be written.
fn tell_out_of_memory<E: Sink>(err: &mut E) -> u8
    ensures either { (result ≡ 7) ⊎ (result ≡ 6) }
    ensures told { result ≡ 7 → Appends (E.taken err.old) (E.taken err.new) out_of_memory_line }
    ensures stopped { result ≡ 6 → StopsWithin (E.taken err.old) (E.taken err.new) out_of_memory_line }
    ensures write { result ≡ 6 → Rose (E.faults err.old) (E.faults err.new) }
{
    match put_out_of_memory(err) {
        Ok(()) => 7,
        Err(_) => 6,
    }
}

fn main(rt: HostRuntime) -> ExitCode {
    let mut input = HostSource::new(rt.stdin());
    let mut out = HostSink::new(rt.stdout());
    let mut err = HostSink::new(rt.stderr());
    let runtime: Result<_, _> = rt.clone();
    let (Ok(words), Ok(runtime)) = (command_line(&rt), runtime) else {
        return ExitCode::from(tell_out_of_memory(&mut err));
    };
    let mut files = HostFiles::new(runtime);
    let status = p10_main(
        rt.alloc(),
        &words,
        &mut files,
        &mut input,
        &mut out,
        &mut err,
    );
    ExitCode::from(status)
}
