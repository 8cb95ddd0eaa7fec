//! What is said for an answer.

ghost use Rattle.std.specs.Prelude.{◌⊎◌, ◌≤◌, OnErr, OnOk};
ghost use Rattle.p10_world.specs.Faults.{Rose};
ghost use Rattle.p10_command.specs.Told.{BothTake, BothTakeFronts};
ghost use Rattle.p10_verify_command.specs.Names.{names_of};
ghost use Rattle.p10_verify_command.specs.Told.{err_text, fault_text, out_text, verdict_text};
ghost use Rattle.p10_verify_command.specs.private.Deciding.{CanBeTold};

use crate::answer::Answer;
use crate::command::VerifyCommand;
use p10_base::Sources;
use p10_command::{put_trouble, put_ungathered, put_unread};
use p10_judge::{Judgement, put_judgement};
use p10_report::{put_absent, put_clean, put_unclean};
use p10_world::{Sink, SinkFault};

/// Writes both texts of an answer.
///
/// # Errors
/// A fault only where the count of faults of an output rose; each has then taken a prefix of its text.
pub fn tell<O: Sink, E: Sink>(
    command: &VerifyCommand,
    answer: &Answer,
    sources: &Sources,
    out: &mut O,
    err: &mut E,
) -> Result<(), SinkFault>
    requires { CanBeTold (names_of command.now) answer.now }
    ensures ok { OnOk result (BothTake (O.taken out.old) (O.taken out.new) (E.taken err.old) (E.taken err.new) (out_text sources.now answer.now) (err_text (names_of command.now) sources.now answer.now)) }
    ensures stopped { OnErr result (BothTakeFronts (O.taken out.old) (O.taken out.new) (E.taken err.old) (E.taken err.new) (out_text sources.now answer.now) (err_text (names_of command.now) sources.now answer.now)) }
    ensures failed { OnErr result (Rose (O.faults out.old) (O.faults out.new) ⊎ Rose (E.faults err.old) (E.faults err.new)) }
    ensures out_count { O.faults out.old ≤ O.faults out.new }
    ensures err_count { E.faults err.old ≤ E.faults err.new }
{
    match answer {
        Answer::Ungathered(why) => put_ungathered(err, command.sources.as_slice(), sources, why),
        Answer::AbsentCertificate => put_absent(err, command.certificate.as_str()),
        Answer::Unread(why) => put_unread(err, sources, why),
        Answer::Judged(judgement) => tell_judgement(judgement, sources, out, err),
        Answer::Unclean(condition, at) => put_unclean(out, sources, *condition, *at),
        Answer::Clean(bounds) => put_clean(out, bounds),
        Answer::Trouble(trouble) => put_trouble(err, *trouble),
    }
}

/// Writes the line of a judgement: on `out` where it is a verdict, else on `err`.
///
/// # Errors
/// A fault only where the count of faults of an output rose; each has then taken a prefix of its text.
fn tell_judgement<O: Sink, E: Sink>(
    judgement: &Judgement,
    sources: &Sources,
    out: &mut O,
    err: &mut E,
) -> Result<(), SinkFault>
    ensures ok { OnOk result (BothTake (O.taken out.old) (O.taken out.new) (E.taken err.old) (E.taken err.new) (verdict_text sources.now judgement.now) (fault_text sources.now judgement.now)) }
    ensures stopped { OnErr result (BothTakeFronts (O.taken out.old) (O.taken out.new) (E.taken err.old) (E.taken err.new) (verdict_text sources.now judgement.now) (fault_text sources.now judgement.now)) }
    ensures failed { OnErr result (Rose (O.faults out.old) (O.faults out.new) ⊎ Rose (E.faults err.old) (E.faults err.new)) }
    ensures out_count { O.faults out.old ≤ O.faults out.new }
    ensures err_count { E.faults err.old ≤ E.faults err.new }
{
    match judgement {
        Judgement::TooLong => put_judgement(err, sources, judgement),
        Judgement::BadCertificate(_) => put_judgement(err, sources, judgement),
        Judgement::Stale { .. } => put_judgement(out, sources, judgement),
        Judgement::Failing(..) => put_judgement(out, sources, judgement),
        Judgement::Accepted(_) => put_judgement(out, sources, judgement),
    }
}
