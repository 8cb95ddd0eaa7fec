//! The top of `p10`: a command line, files, an input and two outputs in; a status and two texts out.
//!
//! Entry point: [`p10_main`]. The words are read as a command, which a crate of its own obeys. Invariant: the status and both
//! texts are those of a right answer. For each command line at most one answer is right where files and input are told, unless
//! a read fails or memory runs out. What the parts of an answer mean is left to the crates below.
#![tactic(auto)]

ghost use Rattle.std.specs.Prelude.{◌≡◌, ◌≢◌, ◌⊎◌, ◌≤◌, ◌^◌, IfSome, length, map, string_bytes};
ghost use Rattle.std.specs.Io.KnownBytes.{Appends};
ghost use Rattle.p10_world.specs.Faults.{Rose};
ghost use Rattle.p10_report.specs.Stops.{StopsWithin};
ghost use Rattle.p10_command.specs.Seen.{files_seen, input_seen};
ghost use Rattle.p10_command.specs.Told.{Told, Stopped};
ghost use Rattle.p10_run_command.specs.Laws.{TellsBytes};
ghost use Rattle.p10_top.specs.Commands.{sources_of, turns_asked, IsCertifiedRunLine, IsNoRun, IsNoRunLine};
ghost use Rattle.p10_top.specs.Completeness.{AcceptsAccepted, DerivesDerived};
ghost use Rattle.p10_top.specs.Headline.{DerivesBounds, Verified};
ghost use Rattle.p10_top.specs.Told.{MaySay, SaysFor};
ghost use Rattle.p10_top.specs.private.Unread.{saying_without_command};

use commands::{
    check_command, derive_command, migrate_command, recheck_command, run_command, verify_command,
};
use p10_acceptance::laws::derived_certificates_are_accepted;
use p10_agreement::laws::derived_certificates_are_verified;
use p10_check_command::check;
use p10_clean_soundness::laws::clean_certificates_exclude_undefined_operations;
use p10_derive_command::derive;
use p10_derive_command::laws::one_answer_is_right as one_derivation_is_told;
use p10_diff_evidence::laws::standing_is_lawful;
use p10_gen_command::generate;
use p10_migrate_command::migrate;
use p10_recheck_command::recheck;
use p10_report::{put_out_of_memory, put_usage};
use p10_run_command::laws::certificates_leave_steps;
use p10_run_command::run;
use p10_soundness::laws::accepted_certificates_bound_every_run;
use p10_verify_command::laws::one_answer_is_right as one_verdict_is_told;
use p10_verify_command::verify;
use p10_words::{Command, Usage, read_words};
use p10_world::{Files, Sink, Source};
use std::alloc::Global;

mod commands;
pub mod laws;
#[cfg(test)]
mod tests;

/// Runs `p10` on the words after the program's name, and gives the status with which it exits.
///
/// `check [--include DIRECTORIES] [--format text|json] SOURCE..`, with options and sources in any order, reports on `out` what
/// breaks a rule in the sources and why they are refused; all else is written to `err`. `DIRECTORIES` are joined by `:`, and
/// included files are looked for in them. Nothing is read of `input` by this command.
///
/// `derive [--include DIRECTORIES] [--cert-version 1|2 | --diff] SOURCE..` writes to `out` the certificate that is derived of the sources' program,
/// in version 1 where none is named; the violations for which there is none, and all else, are written to `err`. Nothing is read of
/// `input`.
///
/// `migrate [--include DIRECTORIES] --cert CERTIFICATE SOURCE..` writes to `out` the text of version 2 with the claims of the certificate
/// and the digests of the sources' words; all else is written to `err`. Nothing is read of `input`.
///
/// `verify [--include DIRECTORIES] [--clean] --cert CERTIFICATE SOURCE..` reports on `out` whether the certificate bounds every run of
/// the sources' program, and with `--clean` whether it is clean, too; all else is written to `err`. Nothing is read of `input` by this
/// command either.
///
/// `recheck [--include DIRECTORIES] --since OLD --cert CERTIFICATE SOURCE..` reports on `out` what `verify` would of the certificate, where
/// that in the file `OLD` was accepted before an edit of the sources, and how many functions were passed for it: those that the edit can have
/// touched, and their callers. All else is written to `err`. Nothing is read of `input`.
///
/// `run [--include DIRECTORIES] [--steps N | --cert CERTIFICATE] [--turns N] [--deny N] [--sensors VALUES] SOURCE..` runs the sources'
/// program on `input` and `out`, and reports on `err` how it has ended, or why there is none. With a certificate it runs only where
/// that is accepted, and by its steps. The program's sensors give the values in the file `VALUES`, or none without it.
///
/// `gen N` makes a program of N functions and `main`, derives its certificate, verifies it and runs the program within it, and reports
/// on `out` what has come of it; all else is written to `err`. Nothing is read of files or input.
///
/// The statuses: 0 no rule broken, derived, migrated, accepted or run to its end, 1 a rule is broken or a condition doesn't hold,
/// 2 no command, 3 the source is refused, 4 no certificate, 5 a read failed, 6 a write failed, 7 out of memory, 8 a limit is exceeded,
/// 9 a file is absent, 10 an assertion has failed, 11 an undefined operation, 12 no step is left, 13 a line of the file of sensor values has
/// another form.
pub fn p10_main<F: Files, I: Source, O: Sink, E: Sink>(
    alloc: Global,
    words: &[String],
    files: &mut F,
    input: &mut I,
    out: &mut O,
    err: &mut E,
) -> u8
    // An accepted certificate bounds every run of the sources' program; one that is accepted as clean excludes every undefined operation.
    ensures headline { result ≡ 0 → IfSome (F.held files.old) (Verified (map string_bytes words.now)) }

    // An accepted certificate, which is clean where it has to be, is answered with 0, unless a read or a write fails or memory is out.
    ensures accepts { IfSome (F.held files.old) (λ held. AcceptsAccepted (map string_bytes words.now) held result) }

    // A run by a certificate never runs out of steps, whether or not the input tells what it has.
    ensures steps { IsCertifiedRunLine (map string_bytes words.now) → TellsBytes (I.left input.old) → result ≢ 12 }

    // A certificate that is derived is accepted, and bounds every run of the sources' program.
    ensures derived { result ≡ 0 → IfSome (F.held files.old) (λ held. DerivesBounds (map string_bytes words.now) held (O.taken out.old) (O.taken out.new)) }

    // Sources of whose program a certificate is derived are answered with 0, unless a read or a write fails or memory is out.
    ensures derives { IfSome (F.held files.old) (λ held. DerivesDerived (map string_bytes words.now) held result) }

    // The status and both texts are those of a right answer.
    ensures told { result ≢ 6 → Told (MaySay (map string_bytes words.now)
        (files_seen (F.held files.old) (F.faults files.old) (F.faults files.new))
        (input_seen (I.left input.old) (I.faults input.old) (I.faults input.new)))
        (O.taken out.old) (O.taken out.new) (E.taken err.old) (E.taken err.new) result }

    // Where a write failed, each output has taken a prefix of its text.
    ensures stopped { result ≡ 6 → Stopped (MaySay (map string_bytes words.now)
        (files_seen (F.held files.old) (F.faults files.old) (F.faults files.new))
        (input_seen (I.left input.old) (I.faults input.old) (I.faults input.new)))
        (O.taken out.old) (O.taken out.new) (E.taken err.old) (E.taken err.new) }
    ensures write { result ≡ 6 → Rose (O.faults out.old) (O.faults out.new) ⊎ Rose (E.faults err.old) (E.faults err.new) }

    // Only a run takes anything of the input.
    ensures held { F.held files.new ≡ F.held files.old }
    ensures input { IsNoRunLine (map string_bytes words.now) → input.new ≡ input.old }
{
    // The laws that the headline, and the clauses on derivation, on steps and on what succeeds, rest on.
    accepted_certificates_bound_every_run();
    standing_is_lawful();
    clean_certificates_exclude_undefined_operations();
    derived_certificates_are_accepted();
    derived_certificates_are_verified();
    certificates_leave_steps();
    one_verdict_is_told();
    one_derivation_is_told();
    match read_words(alloc, words) {
        Ok(command) => obey(alloc, command, files, input, out, err),
        Err(fault) => tell_unread(fault, err),
    }
}

/// Obeys a command, and gives the status with which the program exits.
fn obey<F: Files, I: Source, O: Sink, E: Sink>(
    alloc: Global,
    command: Command,
    files: &mut F,
    input: &mut I,
    out: &mut O,
    err: &mut E,
) -> u8
    requires few { length (sources_of command) ≤ 65536 }
    requires turns { turns_asked command ≤ 10 ^ 18 }
    ensures told { result ≢ 6 → Told (SaysFor command
        (files_seen (F.held files.old) (F.faults files.old) (F.faults files.new))
        (input_seen (I.left input.old) (I.faults input.old) (I.faults input.new)))
        (O.taken out.old) (O.taken out.new) (E.taken err.old) (E.taken err.new) result }
    ensures stopped { result ≡ 6 → Stopped (SaysFor command
        (files_seen (F.held files.old) (F.faults files.old) (F.faults files.new))
        (input_seen (I.left input.old) (I.faults input.old) (I.faults input.new)))
        (O.taken out.old) (O.taken out.new) (E.taken err.old) (E.taken err.new) }
    ensures write { result ≡ 6 → Rose (O.faults out.old) (O.faults out.new) ⊎ Rose (E.faults err.old) (E.faults err.new) }
    ensures held { F.held files.new ≡ F.held files.old }
    ensures input { IsNoRun command → input.new ≡ input.old }
{
    match command {
        Command::Check {
            dirs,
            json,
            files: sources,
        } => check(alloc, &check_command(dirs, json, sources), files, out, err),
        Command::Derive {
            dirs,
            version,
            diff,
            files: sources,
        } => {
            let command = derive_command(dirs, version, diff, sources);
            derive(alloc, &command, files, out, err)
        }
        Command::Migrate {
            dirs,
            cert,
            files: sources,
        } => {
            let command = migrate_command(dirs, cert, sources);
            migrate(alloc, &command, files, out, err)
        }
        Command::Verify {
            dirs,
            clean,
            cert,
            files: sources,
        } => {
            let command = verify_command(dirs, clean, cert, sources);
            verify(alloc, &command, files, out, err)
        }
        Command::Recheck {
            dirs,
            since,
            cert,
            files: sources,
        } => {
            let command = recheck_command(dirs, since, cert, sources);
            recheck(alloc, &command, files, out, err)
        }
        Command::Run {
            dirs,
            budget,
            turns,
            deny,
            sensors,
            files: sources,
        } => {
            let command = run_command(dirs, budget, turns, deny, sensors, sources);
            run(alloc, &command, files, input, out, err)
        }
        Command::Generate { functions } => generate(alloc, functions, out, err),
    }
}

/// Writes why no command was read, and gives the status with which the program exits.
fn tell_unread<E: Sink>(fault: Usage, err: &mut E) -> u8
    ensures status { result ≢ 6 → result ≡ (saying_without_command fault).status }
    ensures told { result ≢ 6 → Appends (E.taken err.old) (E.taken err.new) (saying_without_command fault).err }
    ensures stopped { result ≡ 6 → StopsWithin (E.taken err.old) (E.taken err.new) (saying_without_command fault).err }
    ensures write { result ≡ 6 → Rose (E.faults err.old) (E.faults err.new) }
{
    match fault {
        Usage::Refused => match put_usage(err) {
            Ok(()) => 2,
            Err(_) => 6,
        },
        Usage::Memory => match put_out_of_memory(err) {
            Ok(()) => 7,
            Err(_) => 6,
        },
    }
}
