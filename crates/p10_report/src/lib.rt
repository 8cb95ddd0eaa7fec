//! The lines in which `p10` reports what it found.
//!
//! Entry points, each of which writes one line to a sink, without memory: [`put_refusal`],
//! [`put_accepted`], [`put_clean`], [`put_failing`], [`put_stale`], [`put_unclean`], [`put_passed`] and [`put_limit`] report what was found
//! in the sources and the certificate; [`put_returned`], [`put_turns`], [`put_assertion_failed`], [`put_undefined`] and [`put_steps_spent`] how a
//! run has ended; [`put_usage`], [`put_absent`], [`put_bad_certificate`], [`put_bad_old_certificate`], [`put_bad_sensors`], [`put_read_fault`] and
//! [`put_out_of_memory`] why there is nothing to report of them. [`put_violation`] reports a violation of a rule, [`put_violations`] one on each line,
//! and [`json`] gives the text of a whole report as JSON, which takes memory. Invariant: what a sink took of a line is always
//! a prefix of the line, and all of it at `Ok`. A line is written in several pieces, so the `wrote` of a fault counts bytes of the
//! last piece alone. Which line is reported, and to which sink, is left to the crates above.
#![tactic(auto)]

ghost use Rattle.std.specs.Prelude.{◌≤◌, OnErr, OnOk};
ghost use Rattle.std.specs.Io.KnownBytes.{Appends};
ghost use Rattle.p10_world.specs.Faults.{Rose};
ghost use Rattle.p10_base.specs.Codes.{IsCode};
ghost use Rattle.p10_report.specs.Lines.{accepted_line, clean_line, failing_line, limit_line, refusal_line, unclean_line};
ghost use Rattle.p10_report.specs.Stops.{StopsWithin};

pub use endings::{put_assertion_failed, put_returned, put_steps_spent, put_turns, put_undefined};
pub use json_report::json;
pub use messages::{
    put_absent, put_bad_certificate, put_bad_old_certificate, put_bad_sensors, put_out_of_memory,
    put_read_fault, put_usage,
};
use p10_base::{Bounds, Limit, Refusal, Sources, Span};
use p10_world::{Sink, SinkFault};
pub use passing::put_passed;
use pieces::{
    put_bounds, put_bytes, put_condition, put_labelled, put_place, put_reason, put_refused,
};
pub use rows::{put_violation, put_violations};
pub use stale::put_stale;

mod counting;
mod endings;
mod json_report;
pub mod laws;
mod messages;
mod passing;
mod pieces;
mod rows;
mod stale;

/// Writes the line of a refused source, `FILE:LINE:COLUMN: refused CODE: TEXT`, with the place of the refusal `r` in the
/// sources `s`. Its code is X1 to X6, D1 to D8, G1, or S0 to S30.
///
/// The sink took the whole line at `Ok`.
///
/// # Errors
///
/// A fault only where the sink's count of faults rose; it then took a prefix of the line.
pub fn put_refusal<O: Sink>(out: &mut O, s: &Sources, r: &Refusal) -> Result<(), SinkFault>
    requires { IsCode r.now.family r.now.number }
    ensures ok { OnOk result (Appends (O.taken out.old) (O.taken out.new) (refusal_line s.now r.now)) }
    ensures stopped { OnErr result (StopsWithin (O.taken out.old) (O.taken out.new) (refusal_line s.now r.now)) }
    ensures failed { OnErr result (Rose (O.faults out.old) (O.faults out.new)) }
    ensures count { O.faults out.old ≤ O.faults out.new }
{
    put_place(out, s, r.span)?;
    put_refused(out, r)?;
    put_reason(out, r)
}

/// Writes the line of an accepted program, `accepted: prefix P turn K calls C bytes B`: its bounds `b` in
/// steps, calls and bytes.
///
/// The sink took the whole line at `Ok`.
///
/// # Errors
///
/// A fault only where the sink's count of faults rose; it then took a prefix of the line.
#[tactic(auto, unfolding(crate::specs::Lines::accepted_line))]
pub fn put_accepted<O: Sink>(out: &mut O, b: &Bounds) -> Result<(), SinkFault>
    ensures ok { OnOk result (Appends (O.taken out.old) (O.taken out.new) (accepted_line b.now)) }
    ensures stopped { OnErr result (StopsWithin (O.taken out.old) (O.taken out.new) (accepted_line b.now)) }
    ensures failed { OnErr result (Rose (O.faults out.old) (O.faults out.new)) }
    ensures count { O.faults out.old ≤ O.faults out.new }
{
    put_bounds(out, b"accepted: prefix ", b)
}

/// Writes the line of a program that is accepted with a clean certificate,
/// `accepted clean: prefix P turn K calls C bytes B`: its bounds `b` in steps, calls and bytes.
///
/// The sink took the whole line at `Ok`.
///
/// # Errors
///
/// A fault only where the sink's count of faults rose; it then took a prefix of the line.
#[tactic(auto, unfolding(crate::specs::Lines::clean_line))]
pub fn put_clean<O: Sink>(out: &mut O, b: &Bounds) -> Result<(), SinkFault>
    ensures ok { OnOk result (Appends (O.taken out.old) (O.taken out.new) (clean_line b.now)) }
    ensures stopped { OnErr result (StopsWithin (O.taken out.old) (O.taken out.new) (clean_line b.now)) }
    ensures failed { OnErr result (Rose (O.faults out.old) (O.faults out.new)) }
    ensures count { O.faults out.old ≤ O.faults out.new }
{
    put_bounds(out, b"accepted clean: prefix ", b)
}

/// Writes the line of a condition of the certificate that does not hold,
/// `refused: KN FILE:LINE:COLUMN`, where `condition` is N, and `at` is its place in the sources `s`.
///
/// The sink took the whole line at `Ok`.
///
/// # Errors
///
/// A fault only where the sink's count of faults rose; it then took a prefix of the line.
#[tactic(auto, unfolding(crate::specs::Lines::failing_line))]
pub fn put_failing<O: Sink>(
    out: &mut O,
    s: &Sources,
    condition: u8,
    at: Span,
) -> Result<(), SinkFault>
    ensures ok { OnOk result (Appends (O.taken out.old) (O.taken out.new) (failing_line s.now condition at)) }
    ensures stopped { OnErr result (StopsWithin (O.taken out.old) (O.taken out.new) (failing_line s.now condition at)) }
    ensures failed { OnErr result (Rose (O.faults out.old) (O.faults out.new)) }
    ensures count { O.faults out.old ≤ O.faults out.new }
{
    put_condition(out, b"refused: K", s, condition, at)
}

/// Writes the line of a condition of clean certificates that does not hold,
/// `refused: CN FILE:LINE:COLUMN`, where `condition` is N, and `at` is its place in the sources `s`.
///
/// The sink took the whole line at `Ok`.
///
/// # Errors
///
/// A fault only where the sink's count of faults rose; it then took a prefix of the line.
#[tactic(auto, unfolding(crate::specs::Lines::unclean_line))]
pub fn put_unclean<O: Sink>(
    out: &mut O,
    s: &Sources,
    condition: u8,
    at: Span,
) -> Result<(), SinkFault>
    ensures ok { OnOk result (Appends (O.taken out.old) (O.taken out.new) (unclean_line s.now condition at)) }
    ensures stopped { OnErr result (StopsWithin (O.taken out.old) (O.taken out.new) (unclean_line s.now condition at)) }
    ensures failed { OnErr result (Rose (O.faults out.old) (O.faults out.new)) }
    ensures count { O.faults out.old ≤ O.faults out.new }
{
    put_condition(out, b"refused: C", s, condition, at)
}

/// Writes the line of a limit that is exceeded, `p10: limit MN`, where N is the limit's number.
///
/// The sink took the whole line at `Ok`.
///
/// # Errors
///
/// A fault only where the sink's count of faults rose; it then took a prefix of the line.
pub fn put_limit<O: Sink>(out: &mut O, limit: Limit) -> Result<(), SinkFault>
    ensures ok { OnOk result (Appends (O.taken out.old) (O.taken out.new) (limit_line limit)) }
    ensures stopped { OnErr result (StopsWithin (O.taken out.old) (O.taken out.new) (limit_line limit)) }
    ensures failed { OnErr result (Rose (O.faults out.old) (O.faults out.new)) }
    ensures count { O.faults out.old ≤ O.faults out.new }
{
    put_labelled(out, b"p10: limit M", u128::from(limit.number))?;
    put_bytes(out, b"\n")
}
