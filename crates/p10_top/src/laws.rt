//! What holds of the answers: each function does nothing, and its contract is the law.

ghost use Rattle.p10_top.specs.Laws.{SaysOneThing, VerifyAcceptsWhatDeriveWrites};

use p10_agreement::laws::derived_certificates_are_verified;
use p10_check_command::laws::one_answer_is_right as one_report_is_told;
use p10_derive_command::laws::one_answer_is_right as one_certificate_is_told;
use p10_gen_command::laws::one_answer_is_right as one_program_is_shown;
use p10_migrate_command::laws::one_answer_is_right as one_migration_is_told;
use p10_recheck_command::laws::one_answer_is_right as one_edit_is_told;
use p10_run_command::laws::one_thing_is_said as one_run_is_said;
use p10_verify_command::laws::one_answer_is_right;

/// Where files and input are told, only one thing may be said to a command line, unless a read fails or memory runs out.
pub fn one_thing_is_said()
    ensures { SaysOneThing }
{
    one_report_is_told();
    one_certificate_is_told();
    one_answer_is_right();
    one_program_is_shown();
    one_run_is_said();
    one_migration_is_told();
    one_edit_is_told();
}

/// What `derive` has written with status 0, in either version, `verify` accepts as a certificate of the same sources, as long as at each
/// name at which these are looked for the files are as they were, unless a read fails or memory runs out.
pub fn verify_accepts_what_derive_writes()
    ensures { VerifyAcceptsWhatDeriveWrites }
{
    derived_certificates_are_verified();
}
