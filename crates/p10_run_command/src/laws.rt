//! What holds of the answers: each function does nothing, and its contract is the law.

ghost use Rattle.p10_run_command.specs.Laws.{CertificatesLeaveSteps, SaysOneThing};

use p10_diff_evidence::laws::standing_is_lawful;
use p10_front::laws::one_reading;
use p10_judge::laws::one_judgement;
use p10_sensors::laws::{one_first_other, other_is_no_text, texts_tell_values};
use p10_soundness::laws::accepted_certificates_bound_every_run;

/// Where files and input are told, only one thing may be said to a command, unless a read fails or memory runs out.
pub fn one_thing_is_said()
    ensures { SaysOneThing }
{
    one_reading();
    one_judgement();
    texts_tell_values();
    one_first_other();
    other_is_no_text();
}

/// A run by a certificate never runs out of steps, where an input that tells what it has tells bytes.
pub fn certificates_leave_steps()
    ensures { CertificatesLeaveSteps }
{
    accepted_certificates_bound_every_run();
    standing_is_lawful();
}
