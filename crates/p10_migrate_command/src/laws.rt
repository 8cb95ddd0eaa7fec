//! What holds of the answers: each function does nothing, and its contract is the law.

ghost use Rattle.p10_migrate_command.specs.Laws.{MigrateSaysOneThing, MigratedIsAcceptedAlike, MigratedIsJudgedAlike, MigratedIsVerifiedAlike, MigratedStaysTheSame, SuccessIsMigrated};

use p10_cert::laws::a_text_tells_its_statement;
use p10_diff_evidence::laws::{a_ranked_certificate_has_no_bad_line, one_bad_line};
use p10_fit::laws::fit_speaks;
use p10_front::laws::one_reading;
use p10_seal::laws::{reading_digests_are_sized, sealed_is_a_certificate, sealed_says_the_same};

/// Where files are told, only one thing is right to say to `migrate`, unless a read fails or memory runs out.
pub fn one_answer_is_right()
    ensures { MigrateSaysOneThing }
{
    one_reading();
    a_text_tells_its_statement();
    one_bad_line();
    a_ranked_certificate_has_no_bad_line();
}

/// With status 0 the output takes the text of a certificate of version 2, with the claims of the one that was read.
pub fn success_is_migrated()
    ensures { SuccessIsMigrated }
{
    reading_digests_are_sized();
    sealed_is_a_certificate();
}

/// The verdict on what is written is that on the claims that were read.
pub fn migrated_is_accepted_alike()
    ensures { MigratedIsAcceptedAlike }
{
    sealed_says_the_same();
    fit_speaks();
}

/// The verdict on the text that is written is that on the text of version 1 with these claims.
pub fn migrated_is_verified_alike()
    ensures { MigratedIsVerifiedAlike }
{
    sealed_is_a_certificate();
    sealed_says_the_same();
}

/// What the bytes of the text that is written come to for `verify` is what those of the text of version 1 with these claims come to.
pub fn migrated_is_judged_alike()
    ensures { MigratedIsJudgedAlike }
{
    sealed_is_a_certificate();
    sealed_says_the_same();
}

/// What is written is migrated to itself.
pub fn migrated_stays_the_same()
    ensures { MigratedStaysTheSame }
{
    sealed_is_a_certificate();
    sealed_says_the_same();
    fit_speaks();
}
