//! What holds of the conditions. Nothing runs here: each function stands for the laws that its contract states.

ghost use Rattle.p10_check.specs.Accepting.{AcceptedHold, HoldingAccepts, OneVerdict};
ghost use Rattle.p10_check.specs.SmallChecks.{CallsChecked, LoopsChecked, MainChecked};
ghost use Rattle.p10_check.specs.Texts.{OneTextVerdict, FindsFirstStale, StaleDigestsDiffer, TextIsChecked, PlainTextIsChecked};

/// There is one verdict on a certificate.
pub fn one_verdict()
    ensures { OneVerdict }
{}

/// Where a certificate is accepted all conditions hold, and what is said is its total.
pub fn accepted_hold()
    ensures { AcceptedHold }
{}

/// Where all conditions hold the certificate is accepted.
pub fn holding_accepts()
    ensures { HoldingAccepts }
{}

/// The first condition that fails of certificates for a program of two functions.
pub fn calls_checked()
    ensures { CallsChecked }
{}

/// The same for a program with a loop, with and without evidence.
pub fn loops_checked()
    ensures { LoopsChecked }
{}

/// The same for programs with a task loop, and with a mark and allocations.
pub fn main_checked()
    ensures { MainChecked }
{}

/// There is one verdict on a text.
pub fn one_text_verdict()
    ensures { OneTextVerdict }
{}

/// What is found of digests is the first function whose digests differ.
pub fn first_stale_is_found()
    ensures { FindsFirstStale }
{}

/// Digests that are told differ.
pub fn stale_digests_differ()
    ensures { StaleDigestsDiffer }
{}

/// The verdict on the text of a certificate that speaks of these words is that on its claims.
pub fn text_is_checked()
    ensures { TextIsChecked }
{}

/// The verdict on the text of a certificate of version 1 is that on its claims.
pub fn plain_text_is_checked()
    ensures { PlainTextIsChecked }
{}
