//! What holds of the stages of `gen`: each law is the contract of a function that only calls other laws.

ghost use Rattle.p10_gen_laws.specs.Stages.{TextsAreAccepted, RunsHaveSteps, NoneFailsAtVerifying};

use p10_acceptance::laws::derived_certificates_are_accepted;
use p10_judge::laws::one_judgement;
use p10_names::laws::{programs_are_named, readings_are_programs};

/// The text of a certificate that is derived of the program of sources is accepted, and a run within it doesn't end for want of steps. So
/// no answer to `gen` is that the certificate is refused.
pub fn no_certificate_is_refused()
    ensures texts { TextsAreAccepted }
    ensures steps { RunsHaveSteps }
    ensures answers { NoneFailsAtVerifying }
{
    readings_are_programs();
    programs_are_named();
    derived_certificates_are_accepted();
    one_judgement();
}
