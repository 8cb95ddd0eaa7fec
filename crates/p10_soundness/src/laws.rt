//! What holds of accepted certificates: each law is the contract of a function without a body.

ghost use Rattle.p10_soundness.specs.Calls.{AcceptedCertificatesBoundCalls};
ghost use Rattle.p10_soundness.specs.Laws.{AcceptedCertificatesBoundRuns, CertificatesAcceptedByRangesBoundRuns};

/// A certificate that is accepted for a whole program bounds every run: in every world, with the budgets of its total and for each
/// number of turns of the task loop, no run runs out of steps, calls nest no deeper than it says, in calls and in
/// bytes of their frames, and nothing is allocated or freed after initialisation.
pub fn accepted_certificates_bound_every_run()
    ensures lawful { AcceptedCertificatesBoundRuns }
    ensures ranges { CertificatesAcceptedByRangesBoundRuns }
{}

/// Under a certificate that is accepted for a whole program each call that a run makes takes at most the steps, depths and
/// allocation that are claimed of its function, and what it gives lies in the claimed range.
pub fn accepted_certificates_bound_every_call()
    ensures { AcceptedCertificatesBoundCalls }
{}
