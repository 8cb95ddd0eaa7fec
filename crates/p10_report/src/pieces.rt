//! The pieces of which lines are made, each with what the sink has taken when its write stops.

ghost use Rattle.std.specs.Prelude.{◌≡◌, ◌≤◌, OnErr, OnOk};
ghost use Rattle.std.specs.Io.KnownBytes.{Appends};
ghost use Rattle.p10_base.specs.Gathered.{name_of, text_of};
ghost use Rattle.p10_base.specs.Places.{column_of, line_of};
ghost use Rattle.p10_world.specs.Faults.{Rose};
ghost use Rattle.p10_base.specs.Codes.{IsCode};
ghost use Rattle.p10_report.specs.Lines.{at_part, bounds_part, condition_part, depths_part, labelled, labelled_signed, place_text, reason_part, refused_part};
ghost use Rattle.p10_report.specs.Endings.{placed_part};
ghost use Rattle.p10_report.specs.Stops.{StopsWithin};

use itoa::Buffer;
use p10_base::{Bounds, Refusal, Sources, Span};
use p10_world::{Sink, SinkFault};

/// Writes bytes.
pub fn put_bytes<O: Sink>(out: &mut O, bytes: &[u8]) -> Result<(), SinkFault>
    ensures ok { OnOk result (Appends (O.taken out.old) (O.taken out.new) bytes.now) }
    ensures stopped { OnErr result (StopsWithin (O.taken out.old) (O.taken out.new) bytes.now) }
    ensures failed { OnErr result (Rose (O.faults out.old) (O.faults out.new)) }
    ensures count { O.faults out.old ≤ O.faults out.new }
{
    out.put(bytes)
}

/// Writes a number in decimal after the text that says which it is.
pub fn put_labelled<O: Sink>(out: &mut O, label: &[u8], number: u128) -> Result<(), SinkFault>
    ensures ok { OnOk result (Appends (O.taken out.old) (O.taken out.new) (labelled label.now number)) }
    ensures stopped { OnErr result (StopsWithin (O.taken out.old) (O.taken out.new) (labelled label.now number)) }
    ensures failed { OnErr result (Rose (O.faults out.old) (O.faults out.new)) }
    ensures count { O.faults out.old ≤ O.faults out.new }
{
    put_bytes(out, label)?;
    put_bytes(out, Buffer::new().format(number).as_bytes())
}

/// Writes a number in decimal, with `-` before it where it is negative, after the text that says which it is.
pub fn put_signed<O: Sink>(out: &mut O, label: &[u8], number: i128) -> Result<(), SinkFault>
    ensures ok { OnOk result (Appends (O.taken out.old) (O.taken out.new) (labelled_signed label.now number)) }
    ensures stopped { OnErr result (StopsWithin (O.taken out.old) (O.taken out.new) (labelled_signed label.now number)) }
    ensures failed { OnErr result (Rose (O.faults out.old) (O.faults out.new)) }
    ensures count { O.faults out.old ≤ O.faults out.new }
{
    put_bytes(out, label)?;
    put_bytes(out, Buffer::new().format(number).as_bytes())
}

/// Writes a place as `FILE:LINE:COLUMN`. Past the end of a file it is that end, and where there is no such file the beginning
/// of one without a name.
pub fn put_place<O: Sink>(out: &mut O, s: &Sources, at: Span) -> Result<(), SinkFault>
    ensures ok { OnOk result (Appends (O.taken out.old) (O.taken out.new) (place_text s.now at)) }
    ensures stopped { OnErr result (StopsWithin (O.taken out.old) (O.taken out.new) (place_text s.now at)) }
    ensures failed { OnErr result (Rose (O.faults out.old) (O.faults out.new)) }
    ensures count { O.faults out.old ≤ O.faults out.new }
{
    put_counted(out, s, at, line_col(s, at))
}

/// Writes a place as [`put_place`] does, from its line and column.
pub fn put_counted<O: Sink>(
    out: &mut O,
    s: &Sources,
    at: Span,
    place: (u64, u64),
) -> Result<(), SinkFault>
    requires line { place.0 ≡ line_of (text_of s.now at.file) at.start }
    requires column { place.1 ≡ column_of (text_of s.now at.file) at.start }
    ensures ok { OnOk result (Appends (O.taken out.old) (O.taken out.new) (place_text s.now at)) }
    ensures stopped { OnErr result (StopsWithin (O.taken out.old) (O.taken out.new) (place_text s.now at)) }
    ensures failed { OnErr result (Rose (O.faults out.old) (O.faults out.new)) }
    ensures count { O.faults out.old ≤ O.faults out.new }
{
    let (line, column) = place;
    put_bytes(out, file_name(s, at.file).as_bytes())?;
    put_labelled(out, b":", u128::from(line))?;
    put_labelled(out, b":", u128::from(column))
}

/// The name of a file; there is none where the number is no file's.
pub fn file_name(s: &Sources, file: u32) -> &str
    ensures { result.now ≡ name_of s.now file }
{
    if file < s.count() { s.name(file) } else { "" }
}

/// The line and the column of a place, both from 1.
pub fn line_col(s: &Sources, at: Span) -> (u64, u64)
    ensures line { result.0 ≡ line_of (text_of s.now at.file) at.start }
    ensures column { result.1 ≡ column_of (text_of s.now at.file) at.start }
{
    if at.file >= s.count() {
        return (1, 1);
    }
    let length = s.text(at.file).len();
    if at.start as usize <= length {
        return s.line_col(at);
    }
    s.line_col(Span {
        file: at.file,
        start: length as u32,
        end: at.end,
    })
}

/// Writes which refusal it is, by its code.
pub fn put_refused<O: Sink>(out: &mut O, r: &Refusal) -> Result<(), SinkFault>
    ensures ok { OnOk result (Appends (O.taken out.old) (O.taken out.new) (refused_part r.now.family r.now.number)) }
    ensures stopped { OnErr result (StopsWithin (O.taken out.old) (O.taken out.new) (refused_part r.now.family r.now.number)) }
    ensures failed { OnErr result (Rose (O.faults out.old) (O.faults out.new)) }
    ensures count { O.faults out.old ≤ O.faults out.new }
{
    put_bytes(out, b": refused ")?;
    put_labelled(out, r.family.letter().as_bytes(), u128::from(r.number))
}

/// Writes why a source is refused, by the code's text, and ends the line.
pub fn put_reason<O: Sink>(out: &mut O, r: &Refusal) -> Result<(), SinkFault>
    requires { IsCode r.now.family r.now.number }
    ensures ok { OnOk result (Appends (O.taken out.old) (O.taken out.new) (reason_part r.now.family r.now.number)) }
    ensures stopped { OnErr result (StopsWithin (O.taken out.old) (O.taken out.new) (reason_part r.now.family r.now.number)) }
    ensures failed { OnErr result (Rose (O.faults out.old) (O.faults out.new)) }
    ensures count { O.faults out.old ≤ O.faults out.new }
{
    put_bytes(out, b": ")?;
    put_bytes(out, r.text().as_bytes())?;
    put_bytes(out, b"\n")
}

/// Writes the greatest depths in calls and in bytes, and ends the line.
pub fn put_depths<O: Sink>(out: &mut O, calls: u64, bytes: u128) -> Result<(), SinkFault>
    ensures ok { OnOk result (Appends (O.taken out.old) (O.taken out.new) (depths_part calls bytes)) }
    ensures stopped { OnErr result (StopsWithin (O.taken out.old) (O.taken out.new) (depths_part calls bytes)) }
    ensures failed { OnErr result (Rose (O.faults out.old) (O.faults out.new)) }
    ensures count { O.faults out.old ≤ O.faults out.new }
{
    put_labelled(out, b" calls ", u128::from(calls))?;
    put_labelled(out, b" bytes ", bytes)?;
    put_bytes(out, b"\n")
}

/// Writes the bounds of a program after the text that says what is accepted, and ends the line.
pub fn put_bounds<O: Sink>(out: &mut O, label: &[u8], b: &Bounds) -> Result<(), SinkFault>
    ensures ok { OnOk result (Appends (O.taken out.old) (O.taken out.new) (bounds_part label.now b.now)) }
    ensures stopped { OnErr result (StopsWithin (O.taken out.old) (O.taken out.new) (bounds_part label.now b.now)) }
    ensures failed { OnErr result (Rose (O.faults out.old) (O.faults out.new)) }
    ensures count { O.faults out.old ≤ O.faults out.new }
{
    put_labelled(out, label, u128::from(b.prefix))?;
    put_labelled(out, b" turn ", u128::from(b.turn))?;
    put_depths(out, b.calls, u128::from(b.bytes))
}

/// Writes the number of a condition after the text that says of which kind it is, and its place, and ends the line.
pub fn put_condition<O: Sink>(
    out: &mut O,
    label: &[u8],
    s: &Sources,
    condition: u8,
    at: Span,
) -> Result<(), SinkFault>
    ensures ok { OnOk result (Appends (O.taken out.old) (O.taken out.new) (condition_part label.now s.now condition at)) }
    ensures stopped { OnErr result (StopsWithin (O.taken out.old) (O.taken out.new) (condition_part label.now s.now condition at)) }
    ensures failed { OnErr result (Rose (O.faults out.old) (O.faults out.new)) }
    ensures count { O.faults out.old ≤ O.faults out.new }
{
    put_labelled(out, label, u128::from(condition))?;
    put_at(out, s, at)
}

/// Writes a place after a blank, and ends the line.
pub fn put_at<O: Sink>(out: &mut O, s: &Sources, at: Span) -> Result<(), SinkFault>
    ensures ok { OnOk result (Appends (O.taken out.old) (O.taken out.new) (at_part s.now at)) }
    ensures stopped { OnErr result (StopsWithin (O.taken out.old) (O.taken out.new) (at_part s.now at)) }
    ensures failed { OnErr result (Rose (O.faults out.old) (O.faults out.new)) }
    ensures count { O.faults out.old ≤ O.faults out.new }
{
    put_bytes(out, b" ")?;
    put_place(out, s, at)?;
    put_bytes(out, b"\n")
}

/// Writes the place of a run's end, and ends the line.
pub fn put_placed<O: Sink>(out: &mut O, s: &Sources, at: Span) -> Result<(), SinkFault>
    ensures ok { OnOk result (Appends (O.taken out.old) (O.taken out.new) (placed_part s.now at)) }
    ensures stopped { OnErr result (StopsWithin (O.taken out.old) (O.taken out.new) (placed_part s.now at)) }
    ensures failed { OnErr result (Rose (O.faults out.old) (O.faults out.new)) }
    ensures count { O.faults out.old ≤ O.faults out.new }
{
    put_bytes(out, b" at")?;
    put_at(out, s, at)
}
