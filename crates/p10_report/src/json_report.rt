//! The report as JSON.

ghost use Rattle.std.specs.Prelude.{◌≡◌, ◌∷◌, [], codes, map, string_bytes, IfOk};
ghost use Rattle.serde_json.specs.Data.{array, member, no_members, number, object, string, unsigned};
ghost use Rattle.serde_json.specs.View.{items_of, view};
ghost use Rattle.p10_base.specs.Codes.{IsCode};
ghost use Rattle.p10_base.specs.Gathered.{name_of, text_of};
ghost use Rattle.p10_base.specs.Places.{column_of, line_of};
ghost use Rattle.p10_report.specs.Json.{json_text, refusal_data, refusal_text, violation_data, IsPrintable};
ghost use Rattle.p10_report.specs.Lines.{place_text};
ghost use Rattle.p10_report.specs.Violations.{row_number};

use crate::counting::Counted;
use crate::pieces::{file_name, line_col};
use crate::rows;
use itoa::Buffer;
use p10_base::{Refusal, Sources, Span, Sub, Violation};
use serde_json::{Value, json};
use std::alloc::{AllocError, Global};

/// The report as JSON, without a line end: `{"refusal":R,"violations":V}`. `R` is null, or the line of the refusal without its
/// line end. `V` has the violations in their order, each an object with the members `col`, `file`, `line`, `rule` and
/// `text`. All places lie in the sources `s`.
///
/// # Errors
///
/// Out of memory.
pub fn json(
    alloc: Global,
    s: &Sources,
    v: &[Violation],
    r: Option<Refusal>,
) -> Result<String, AllocError>
    requires { IsPrintable r }
    ensures { IfOk result (λ text. string_bytes text ≡ json_text s.now v.now r) }
{
    let refusal = refusal_value(alloc, s, r)?;
    let violations = violation_values(alloc, s, v)?;
    let report = report_value(alloc, refusal, violations)?;
    report.to_string(alloc)
}

/// The report of these parts.
fn report_value(alloc: Global, refusal: Value, violations: Vec<Value>) -> Result<Value, AllocError>
    ensures { IfOk result (λ value. view value ≡ object (member (codes "refusal") (view refusal) (member (codes "violations") (array (items_of (map view violations.items))) no_members))) }
{
    let violations = Value::Array(violations);
    json!(in alloc; {"refusal": refusal, "violations": violations})
}

/// The refusal, or null where there is none.
fn refusal_value(alloc: Global, s: &Sources, r: Option<Refusal>) -> Result<Value, AllocError>
    requires { IsPrintable r }
    ensures { IfOk result (λ value. view value ≡ refusal_data s.now r) }
{
    match r {
        Some(refusal) => Ok(Value::String(refusal_string(alloc, s, &refusal)?)),
        None => Ok(Value::Null),
    }
}

/// The violations in their order.
fn violation_values(
    alloc: Global,
    s: &Sources,
    violations: &[Violation],
) -> Result<Vec<Value>, AllocError>
    ensures { IfOk result (λ values. map view values.items ≡ map (violation_data s.now) violations.now) }
{
    let mut values = Vec::new(alloc);
    let mut counted = Counted::beginning(0);
    for violation in violations {
        counted = counted.next(s, violation.span);
        let place = (counted.line, counted.column);
        values.push(violation_value(alloc, s, violation, place)?)?;
    }
    Ok(values)
}

/// A violation, from the line and the column of its place.
fn violation_value(
    alloc: Global,
    s: &Sources,
    violation: &Violation,
    place: (u64, u64),
) -> Result<Value, AllocError>
    requires line { place.0 ≡ line_of (text_of s.now violation.now.span.file) violation.now.span.start }
    requires column { place.1 ≡ column_of (text_of s.now violation.now.span.file) violation.now.span.start }
    ensures { IfOk result (λ value. view value ≡ violation_data s.now violation.now) }
{
    let file = file_name(s, violation.span.file);
    let rule = row_string(alloc, violation.sub)?;
    let text = rows::text(violation.sub);
    violation_object(alloc, file, place, rule, text)
}

/// A violation in this file, at this line and column, of a row with this text.
fn violation_object(
    alloc: Global,
    file: &str,
    place: (u64, u64),
    rule: String,
    text: &str,
) -> Result<Value, AllocError>
    ensures { IfOk result (λ value. view value ≡ object
        (member (codes "col") (number (unsigned place.1))
        (member (codes "file") (string file.now)
        (member (codes "line") (number (unsigned place.0))
        (member (codes "rule") (string (string_bytes rule))
        (member (codes "text") (string text.now) no_members)))))) }
{
    let (line, column) = place;
    json!(in alloc; {"col": column, "file": file, "line": line, "rule": rule, "text": text})
}

/// The line of a refusal, without its line end.
fn refusal_string(alloc: Global, s: &Sources, r: &Refusal) -> Result<String, AllocError>
    requires { IsCode r.now.family r.now.number }
    ensures { IfOk result (λ text. string_bytes text ≡ refusal_text s.now r.now) }
{
    let mut text = place_string(alloc, s, r.span)?;
    text.push_str(": refused ")?;
    text.push_str(r.family.letter())?;
    text.push_str(Buffer::new().format(r.number))?;
    text.push_str(": ")?;
    text.push_str(r.text())?;
    Ok(text)
}

/// A place as `FILE:LINE:COLUMN`.
fn place_string(alloc: Global, s: &Sources, at: Span) -> Result<String, AllocError>
    ensures { IfOk result (λ text. string_bytes text ≡ place_text s.now at) }
{
    let (line, column) = line_col(s, at);
    let mut text = String::from_str(alloc, file_name(s, at.file))?;
    text.push_str(":")?;
    text.push_str(Buffer::new().format(line))?;
    text.push_str(":")?;
    text.push_str(Buffer::new().format(column))?;
    Ok(text)
}

/// A row as `RULE.ROW`.
fn row_string(alloc: Global, sub: Sub) -> Result<String, AllocError>
    ensures { IfOk result (λ text. string_bytes text ≡ row_number sub) }
{
    let mut text = String::from_str(alloc, Buffer::new().format(sub.rule))?;
    text.push_str(".")?;
    text.push_str(Buffer::new().format(sub.sub))?;
    Ok(text)
}
