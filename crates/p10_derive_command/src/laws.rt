//! What holds of the answers: each function does nothing, and its contract is the law.

ghost use Rattle.p10_derive_command.specs.Laws.{DeriveSaysOneThing, SuccessIsACertificate, OneIsViolations};

use p10_finder::laws::one_derivation;
use p10_front::laws::one_reading;

/// Where files are told, only one thing is right to say to `derive`, unless a read fails or memory runs out.
pub fn one_answer_is_right()
    ensures { DeriveSaysOneThing }
{
    one_reading();
    one_derivation();
}

/// With status 0 the output takes the text of the certificate that is derived of the sources' program, and no more is said.
pub fn success_is_a_certificate()
    ensures { SuccessIsACertificate }
{}

/// With status 1 the error output takes the lines of the violations for which there is no certificate, and no more is said.
pub fn one_is_violations()
    ensures { OneIsViolations }
{}
