//! What is said for an answer.

ghost use Rattle.std.specs.Prelude.{◌⊎◌, ◌≤◌, OnErr, OnOk};
ghost use Rattle.p10_world.specs.Faults.{Rose};
ghost use Rattle.p10_command.specs.Told.{BothTake, BothTakeFronts};
ghost use Rattle.p10_migrate_command.specs.Migrating.{migrated_of};
ghost use Rattle.p10_migrate_command.specs.Told.{answer_err, answer_out, migrated_err, migrated_out};
ghost use Rattle.p10_migrate_command.specs.private.Deciding.{CanBeTold};

use crate::answer::Answer;
use crate::command::MigrateCommand;
use crate::migration::Migration;
use p10_base::{Limit, Sources};
use p10_command::{put_trouble, put_ungathered, put_unread};
use p10_report::{put_absent, put_bad_certificate, put_failing, put_limit, put_stale};
use p10_world::{Sink, SinkFault};

/// Writes both texts of an answer.
///
/// # Errors
/// A fault only where the count of faults of an output rose; each has then taken a prefix of its text.
pub fn tell<O: Sink, E: Sink>(
    command: &MigrateCommand,
    answer: &Answer,
    sources: &Sources,
    out: &mut O,
    err: &mut E,
) -> Result<(), SinkFault>
    requires { CanBeTold command.now answer.now }
    ensures ok { OnOk result (BothTake (O.taken out.old) (O.taken out.new) (E.taken err.old) (E.taken err.new) (answer_out answer.now) (answer_err command.now sources.now answer.now)) }
    ensures stopped { OnErr result (BothTakeFronts (O.taken out.old) (O.taken out.new) (E.taken err.old) (E.taken err.new) (answer_out answer.now) (answer_err command.now sources.now answer.now)) }
    ensures failed { OnErr result (Rose (O.faults out.old) (O.faults out.new) ⊎ Rose (E.faults err.old) (E.faults err.new)) }
    ensures out_count { O.faults out.old ≤ O.faults out.new }
    ensures err_count { E.faults err.old ≤ E.faults err.new }
{
    match answer {
        Answer::Ungathered(why) => put_ungathered(err, command.sources.as_slice(), sources, why),
        Answer::AbsentCertificate => put_absent(err, command.certificate.as_str()),
        Answer::Unread(why) => put_unread(err, sources, why),
        Answer::Migrated(migration) => tell_migration(migration, sources, out, err),
        Answer::Trouble(trouble) => put_trouble(err, *trouble),
    }
}

/// Writes the text of version 2 of a certificate on `out`, or on `err` the line that says why there is none.
///
/// # Errors
/// A fault only where the count of faults of an output rose; each has then taken a prefix of its text.
fn tell_migration<O: Sink, E: Sink>(
    migration: &Migration,
    sources: &Sources,
    out: &mut O,
    err: &mut E,
) -> Result<(), SinkFault>
    ensures ok { OnOk result (BothTake (O.taken out.old) (O.taken out.new) (E.taken err.old) (E.taken err.new) (migrated_out (migrated_of migration.now)) (migrated_err sources.now (migrated_of migration.now))) }
    ensures stopped { OnErr result (BothTakeFronts (O.taken out.old) (O.taken out.new) (E.taken err.old) (E.taken err.new) (migrated_out (migrated_of migration.now)) (migrated_err sources.now (migrated_of migration.now))) }
    ensures failed { OnErr result (Rose (O.faults out.old) (O.faults out.new) ⊎ Rose (E.faults err.old) (E.faults err.new)) }
    ensures out_count { O.faults out.old ≤ O.faults out.new }
    ensures err_count { E.faults err.old ≤ E.faults err.new }
{
    match migration {
        Migration::TooLong => put_limit(err, Limit::CERTIFICATE_BYTES),
        Migration::BadCertificate(line) => put_bad_certificate(err, *line),
        Migration::Stale { at, kept, found } => put_stale(err, sources, *at, kept, found),
        Migration::Unfit(at) => put_failing(err, sources, 1, *at),
        Migration::Text(text) => out.put(text.as_slice()),
    }
}
