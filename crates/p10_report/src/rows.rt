//! The rows of Holzmann's rules, and the line of a violation.

ghost use Rattle.std.specs.Prelude.{◌≡◌, ◌≤◌, map, OnErr, OnOk};
ghost use Rattle.std.specs.Io.KnownBytes.{Appends};
ghost use Rattle.p10_base.specs.Gathered.{text_of};
ghost use Rattle.p10_base.specs.Places.{column_of, line_of};
ghost use Rattle.p10_world.specs.Faults.{Rose};
ghost use Rattle.p10_report.specs.Stops.{StopsWithin};
ghost use Rattle.p10_report.specs.Violations.{row_number, row_text, row_text_part, row_with_text, text_among, violated_part, violation_line, violation_lines};

use crate::counting::Counted;
use crate::pieces::{line_col, put_bytes, put_counted, put_labelled};
use itoa::Buffer;
use p10_base::{Sources, Sub, Violation};
use p10_world::{Sink, SinkFault};

/// A row of a rule: the number of the rule, its own in it, and its text.
type Row = (u8, u8, &'static str);

/// Writes the line of a violation, `FILE:LINE:COLUMN: rule RULE.ROW: TEXT`, with its place in the sources `s`. A number that no
/// row has, has no text.
///
/// The sink took the whole line at `Ok`.
///
/// # Errors
///
/// A fault only where the sink's count of faults rose; it then took a prefix of the line.
pub fn put_violation<O: Sink>(out: &mut O, s: &Sources, v: &Violation) -> Result<(), SinkFault>
    ensures ok { OnOk result (Appends (O.taken out.old) (O.taken out.new) (violation_line s.now v.now)) }
    ensures stopped { OnErr result (StopsWithin (O.taken out.old) (O.taken out.new) (violation_line s.now v.now)) }
    ensures failed { OnErr result (Rose (O.faults out.old) (O.faults out.new)) }
    ensures count { O.faults out.old ≤ O.faults out.new }
{
    put_counted_violation(out, s, v, line_col(s, v.span))
}

/// Writes the line of a violation as [`put_violation`] does, from the line and the column of its place.
fn put_counted_violation<O: Sink>(
    out: &mut O,
    s: &Sources,
    v: &Violation,
    place: (u64, u64),
) -> Result<(), SinkFault>
    requires line { place.0 ≡ line_of (text_of s.now v.now.span.file) v.now.span.start }
    requires column { place.1 ≡ column_of (text_of s.now v.now.span.file) v.now.span.start }
    ensures ok { OnOk result (Appends (O.taken out.old) (O.taken out.new) (violation_line s.now v.now)) }
    ensures stopped { OnErr result (StopsWithin (O.taken out.old) (O.taken out.new) (violation_line s.now v.now)) }
    ensures failed { OnErr result (Rose (O.faults out.old) (O.faults out.new)) }
    ensures count { O.faults out.old ≤ O.faults out.new }
{
    put_counted(out, s, v.span, place)?;
    put_violated(out, v.sub)
}

/// Writes the lines of violations in their order, as [`put_violation`] writes each. Lines and columns are counted on from one violation
/// to the next, so sorted violations take one walk over each file.
///
/// The sink took all lines whole at `Ok`.
///
/// # Errors
///
/// A fault only where the sink's count of faults rose; it then took a prefix of the lines.
pub fn put_violations<O: Sink>(
    out: &mut O,
    s: &Sources,
    violations: &[Violation],
) -> Result<(), SinkFault>
    ensures ok { OnOk result (Appends (O.taken out.old) (O.taken out.new) (violation_lines s.now violations.now)) }
    ensures stopped { OnErr result (StopsWithin (O.taken out.old) (O.taken out.new) (violation_lines s.now violations.now)) }
    ensures failed { OnErr result (Rose (O.faults out.old) (O.faults out.new)) }
    ensures count { O.faults out.old ≤ O.faults out.new }
{
    let mut counted = Counted::beginning(0);
    let mut rest = violations;
    while let Some((violation, others)) = rest.split_first() {
        counted = counted.next(s, violation.span);
        put_counted_violation(out, s, violation, (counted.line, counted.column))?;
        rest = others;
    }
    Ok(())
}

/// Writes which row is violated, and ends the line.
fn put_violated<O: Sink>(out: &mut O, sub: Sub) -> Result<(), SinkFault>
    ensures ok { OnOk result (Appends (O.taken out.old) (O.taken out.new) (violated_part sub)) }
    ensures stopped { OnErr result (StopsWithin (O.taken out.old) (O.taken out.new) (violated_part sub)) }
    ensures failed { OnErr result (Rose (O.faults out.old) (O.faults out.new)) }
    ensures count { O.faults out.old ≤ O.faults out.new }
{
    put_bytes(out, b": rule ")?;
    put_row_number(out, sub)?;
    put_row_text(out, sub)
}

/// Writes the text of a row, and ends the line.
fn put_row_text<O: Sink>(out: &mut O, sub: Sub) -> Result<(), SinkFault>
    ensures ok { OnOk result (Appends (O.taken out.old) (O.taken out.new) (row_text_part sub)) }
    ensures stopped { OnErr result (StopsWithin (O.taken out.old) (O.taken out.new) (row_text_part sub)) }
    ensures failed { OnErr result (Rose (O.faults out.old) (O.faults out.new)) }
    ensures count { O.faults out.old ≤ O.faults out.new }
{
    put_bytes(out, b": ")?;
    put_bytes(out, text(sub).as_bytes())?;
    put_bytes(out, b"\n")
}

/// Writes a row as `RULE.ROW`.
fn put_row_number<O: Sink>(out: &mut O, sub: Sub) -> Result<(), SinkFault>
    ensures ok { OnOk result (Appends (O.taken out.old) (O.taken out.new) (row_number sub)) }
    ensures stopped { OnErr result (StopsWithin (O.taken out.old) (O.taken out.new) (row_number sub)) }
    ensures failed { OnErr result (Rose (O.faults out.old) (O.faults out.new)) }
    ensures count { O.faults out.old ≤ O.faults out.new }
{
    put_bytes(out, Buffer::new().format(sub.rule).as_bytes())?;
    put_labelled(out, b".", u128::from(sub.sub))
}

/// The text of a row, and none of a number that no row has.
#[tactic(auto, unfolding(crate::specs::Violations::row_text, crate::specs::Violations::row_texts))]
pub fn text(sub: Sub) -> &'static str
    ensures { result.now ≡ row_text sub }
{
    text_in(&ROWS, sub)
}

/// The text of a row among these; none where it isn't among them.
fn text_in(rows: &[Row], sub: Sub) -> &'static str
    ensures { result.now ≡ text_among (map (λ row. row_with_text row.0 row.1 row.2.now) rows.now) sub }
{
    let mut rest = rows;
    while let [row, others @ ..] = rest {
        if row.0 == sub.rule && row.1 == sub.sub {
            return row.2;
        }
        rest = others;
    }
    ""
}

const ROWS: [Row; 34] = [
    (1, 1, "goto or label"),
    (1, 2, "setjmp or longjmp"),
    (1, 3, "recursive call"),
    (2, 1, "loop without a proved bound"),
    (2, 2, "the task loop can end"),
    (3, 1, "allocation or free after initialisation"),
    (4, 1, "function over 60 lines"),
    (4, 2, "function over 60 statements"),
    (5, 1, "fewer than two assertions per function"),
    (5, 2, "assertion with a call"),
    (5, 3, "assertion is no Boolean test"),
    (5, 4, "constant assertion"),
    (5, 5, "c_assert without recovery"),
    (6, 1, "scope too large: file"),
    (6, 2, "scope too large: block"),
    (7, 1, "result not checked"),
    (7, 2, "parameter not checked"),
    (8, 1, "conditional compilation"),
    (8, 2, "token pasting or variable arguments"),
    (8, 3, "recursive macro"),
    (8, 4, "macro that is no complete unit"),
    (8, 5, "directive not allowed"),
    (9, 1, "more than one dereference"),
    (9, 2, "dereference in a macro"),
    (9, 3, "pointer typedef"),
    (9, 4, "function pointer"),
    (10, 1, "unused object"),
    (10, 2, "unused function"),
    (10, 3, "implicit narrowing"),
    (10, 4, "signed and unsigned compared"),
    (10, 5, "name shadowed"),
    (10, 6, "switch without default"),
    (10, 7, "statement after a jump"),
    (10, 8, "end without return"),
];
