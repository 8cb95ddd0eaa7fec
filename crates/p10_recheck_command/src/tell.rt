//! What is said for an answer.

ghost use Rattle.std.specs.Prelude.{◌⊎◌, ◌≤◌, OnErr, OnOk};
ghost use Rattle.std.specs.Io.KnownBytes.{Appends};
ghost use Rattle.p10_world.specs.Faults.{Rose};
ghost use Rattle.p10_command.specs.Told.{BothTake, BothTakeFronts};
ghost use Rattle.p10_report.specs.Stops.{StopsWithin};
ghost use Rattle.p10_recheck_command.specs.Told.{answer_err, answer_out, judged_lines, rechecked_err, rechecked_out};
ghost use Rattle.p10_recheck_command.specs.private.Deciding.{CanBeTold};

use crate::answer::Answer;
use crate::command::RecheckCommand;
use crate::rechecking::Rechecking;
use p10_base::{Limit, Sources};
use p10_command::{put_trouble, put_ungathered, put_unread};
use p10_judge::{Judgement, put_judgement};
use p10_rejudge::Passed;
use p10_report::{put_absent, put_bad_certificate, put_bad_old_certificate, put_limit, put_passed};
use p10_world::{Sink, SinkFault};

/// Writes both texts of an answer.
///
/// # Errors
/// A fault only where the count of faults of an output rose; each has then taken a prefix of its text.
pub fn tell<O: Sink, E: Sink>(
    command: &RecheckCommand,
    answer: &Answer,
    sources: &Sources,
    out: &mut O,
    err: &mut E,
) -> Result<(), SinkFault>
    requires { CanBeTold command.now answer.now }
    ensures ok { OnOk result (BothTake (O.taken out.old) (O.taken out.new) (E.taken err.old) (E.taken err.new) (answer_out sources.now answer.now) (answer_err command.now sources.now answer.now)) }
    ensures stopped { OnErr result (BothTakeFronts (O.taken out.old) (O.taken out.new) (E.taken err.old) (E.taken err.new) (answer_out sources.now answer.now) (answer_err command.now sources.now answer.now)) }
    ensures failed { OnErr result (Rose (O.faults out.old) (O.faults out.new) ⊎ Rose (E.faults err.old) (E.faults err.new)) }
    ensures out_count { O.faults out.old ≤ O.faults out.new }
    ensures err_count { E.faults err.old ≤ E.faults err.new }
{
    match answer {
        Answer::Ungathered(why) => put_ungathered(err, command.sources.as_slice(), sources, why),
        Answer::AbsentCertificate => put_absent(err, command.certificate.as_str()),
        Answer::AbsentOld => put_absent(err, command.since.as_str()),
        Answer::Unread(why) => put_unread(err, sources, why),
        Answer::Rechecked(rechecking) => tell_rechecking(rechecking, sources, out, err),
        Answer::Trouble(trouble) => put_trouble(err, *trouble),
    }
}

/// Writes what both certificates come to: on `out` where it is a verdict, else on `err`.
///
/// # Errors
/// A fault only where the count of faults of an output rose; each has then taken a prefix of its text.
fn tell_rechecking<O: Sink, E: Sink>(
    rechecking: &Rechecking,
    sources: &Sources,
    out: &mut O,
    err: &mut E,
) -> Result<(), SinkFault>
    ensures ok { OnOk result (BothTake (O.taken out.old) (O.taken out.new) (E.taken err.old) (E.taken err.new) (rechecked_out sources.now rechecking.now) (rechecked_err rechecking.now)) }
    ensures stopped { OnErr result (BothTakeFronts (O.taken out.old) (O.taken out.new) (E.taken err.old) (E.taken err.new) (rechecked_out sources.now rechecking.now) (rechecked_err rechecking.now)) }
    ensures failed { OnErr result (Rose (O.faults out.old) (O.faults out.new) ⊎ Rose (E.faults err.old) (E.faults err.new)) }
    ensures out_count { O.faults out.old ≤ O.faults out.new }
    ensures err_count { E.faults err.old ≤ E.faults err.new }
{
    match rechecking {
        Rechecking::TooLong => put_limit(err, Limit::CERTIFICATE_BYTES),
        Rechecking::BadCertificate(line) => put_bad_certificate(err, *line),
        Rechecking::OldTooLong => put_limit(err, Limit::CERTIFICATE_BYTES),
        Rechecking::BadOld(line) => put_bad_old_certificate(err, *line),
        Rechecking::Judged(judgement, passed) => tell_judgement(judgement, *passed, sources, out),
    }
}

/// Writes the line of a judgement, and that of how many functions were passed for it.
///
/// # Errors
/// A fault only where the count of faults of the output rose; it has then taken a prefix of the text.
#[tactic(auto, using(p10_report::proofs::Stopping::stops), unfolding(crate::specs::Told::judged_lines))]
fn tell_judgement<O: Sink>(
    judgement: &Judgement,
    passed: Passed,
    sources: &Sources,
    out: &mut O,
) -> Result<(), SinkFault>
    ensures ok { OnOk result (Appends (O.taken out.old) (O.taken out.new) (judged_lines sources.now judgement.now passed)) }
    ensures stopped { OnErr result (StopsWithin (O.taken out.old) (O.taken out.new) (judged_lines sources.now judgement.now passed)) }
    ensures failed { OnErr result (Rose (O.faults out.old) (O.faults out.new)) }
    ensures count { O.faults out.old ≤ O.faults out.new }
{
    put_judgement(out, sources, judgement)?;
    put_passed(out, passed.passed, passed.functions)
}
