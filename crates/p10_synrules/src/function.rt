//! The functions that are defined, and how long they are.

ghost use Rattle.std.specs.Prelude.{◌≡◌, ◌<◌, ◌≤◌, ◌+◌, ◌++◌, ◌∷◌, [], IfOk, OnOk, map, option_map, nat_lt, count_by, length, take, drop};
ghost use Rattle.std.specs.List.{flat_map, find};
ghost use Rattle.p10_base.specs.Places.{is_line_end};
ghost use Rattle.p10_base.specs.Gathered.{text_of};
ghost use Rattle.p10_syn.specs.Trees.{statement_row};
ghost use Rattle.p10_syn.specs.Built.{identifier_of, declarator_of};
ghost use Rattle.p10_syn.specs.BuiltStatements.{statement_of, landmarks_of, definition_of, external_of};
ghost use Rattle.p10_synrules.specs.Parts.{StatementPart, statements_parts};
ghost use Rattle.p10_synrules.specs.Functions.{definitions_in, defined_by, function_name, function_names, is_over_60_lines, has_many_lines, is_counted, has_many_statements, is_main, first_name, chief_name};
ghost use Rattle.p10_synrules.specs.private.Views.{plain_part, plain_parts};
ghost use Rattle.p10_synrules.specs.private.Listing.{function_violations};

use crate::header::text_at;
use crate::listing::put_at;
use crate::part::Part;
use crate::pointer::name_in;
use crate::statement::put_statements;
use p10_base::{Sources, Span, Sub, Violation};
use p10_syn::{Function, Identifier, Landmarks, Stmt, Unit};
use std::alloc::{AllocError, Global};

/// Whether the lines between two places, those of both counted, are over 60. Only the bytes between
/// them are read.
fn is_over_60_lines(sources: &Sources, first: Span, last: Span) -> bool
    ensures { result ≡ is_over_60_lines sources.now first last }
{
    if first.file != last.file {
        return false;
    }
    let text = text_at(sources, first.file);
    line_ends(between(text, first.start as usize, last.start as usize)) > 59
}

/// The bytes from one place up to another; none where they don't stand in this order.
fn between(text: &[u8], first: usize, last: usize) -> &[u8]
    ensures { result.now ≡ drop first (take last text.now) }
{
    let end = last.min(text.len());
    let start = first.min(end);
    &text[start..end]
}

/// How many lines end in a text.
fn line_ends(text: &[u8]) -> usize
    ensures { result ≡ count_by is_line_end text.now }
{
    text.iter().filter(|byte| **byte == b'\n').count()
}

/// Whether a function has over 60 lines from its first word to its last one.
fn has_many_lines(sources: &Sources, landmarks: &Landmarks) -> bool
    ensures { result ≡ has_many_lines sources.now (landmarks_of landmarks.now) }
{
    is_over_60_lines(sources, landmarks.first_word.span, landmarks.last_word.span)
}

/// Whether a statement is one that counts: a block or a pragma isn't.
fn counts(s: &Stmt<'_>) -> bool
    ensures { result ≡ is_counted (StatementPart (statement_of s.now)) }
{
    match s {
        Stmt::Block(_, _) | Stmt::Mark(_, _) => false,
        _ => true,
    }
}

/// Whether a part is a declaration or a statement other than a block.
fn is_counted(part: &Part<'_, '_>) -> bool
    ensures { result ≡ is_counted (plain_part part.now) }
{
    match part {
        Part::Statement(s) => counts(s),
        _ => false,
    }
}

/// How many of the parts are declarations or statements other than blocks.
fn count_statements(parts: &Vec<Part<'_, '_>>) -> usize
    ensures { result ≡ count_by is_counted (plain_parts parts.now) }
{
    let mut count: usize = 0;
    for part in parts {
        if is_counted(part) {
            count += 1;
        }
    }
    count
}

/// Whether a function has over 60 declarations and statements other than blocks.
fn has_many_statements(alloc: Global, function: &Function<'_>) -> Result<bool, AllocError>
    ensures { IfOk result (λ has. has ≡ has_many_statements (definition_of function.now)) }
{
    let mut parts = Vec::new(alloc);
    put_statements(&function.body, &mut parts)?;
    Ok(count_statements(&parts) > 60)
}

/// Puts down the violations by functions.
pub(crate) fn put_functions(
    alloc: Global,
    sources: &Sources,
    units: &[Unit<'_>],
    violations: &mut Vec<Violation>,
) -> Result<(), AllocError>
    ensures { OnOk result (violations.new.items ≡ violations.old.items ++ flat_map (function_violations sources.now) (definitions_in (map external_of units.now))) }
{
    for unit in units {
        put_unit_violations(alloc, sources, unit, violations)?;
    }
    Ok(())
}

/// Puts down the violations by a unit, if it is a function.
fn put_unit_violations(
    alloc: Global,
    sources: &Sources,
    unit: &Unit<'_>,
    violations: &mut Vec<Violation>,
) -> Result<(), AllocError>
    ensures { OnOk result (violations.new.items ≡ violations.old.items ++ flat_map (function_violations sources.now) (defined_by (external_of unit.now))) }
{
    match unit {
        Unit::Decl(_, _) => Ok(()),
        Unit::Function(function) => put_function_violations(alloc, sources, function, violations),
    }
}

/// Puts down the violations by a function.
fn put_function_violations(
    alloc: Global,
    sources: &Sources,
    function: &Function<'_>,
    violations: &mut Vec<Violation>,
) -> Result<(), AllocError>
    ensures { OnOk result (violations.new.items ≡ violations.old.items ++ function_violations sources.now (definition_of function.now)) }
{
    let name = name_in(&function.declarator);
    let long = has_many_lines(sources, &function.landmarks);
    let many = has_many_statements(alloc, function)?;
    put_at(Sub { rule: 4, sub: 1 }, long, name, violations)?;
    put_at(Sub { rule: 4, sub: 2 }, many, name, violations)
}

/// The names of the functions that are defined, in their order.
pub(crate) fn names_of_functions<'s>(
    alloc: Global,
    units: &[Unit<'s>],
) -> Result<Vec<Identifier<'s>>, AllocError>
    ensures { IfOk result (λ names. map identifier_of names.items ≡ function_names (map external_of units.now)) }
{
    let mut names = Vec::new(alloc);
    for unit in units {
        put_unit_name(unit, &mut names)?;
    }
    Ok(names)
}

/// Puts down the name of the function that a unit defines, if it is one.
fn put_unit_name<'s>(unit: &Unit<'s>, names: &mut Vec<Identifier<'s>>) -> Result<(), AllocError>
    ensures { OnOk result (map identifier_of names.new.items ≡ map identifier_of names.old.items ++ flat_map function_name (defined_by (external_of unit.now))) }
{
    match unit {
        Unit::Decl(_, _) => Ok(()),
        Unit::Function(function) => put_function_name(function, names),
    }
}

/// Puts down the name of a function.
fn put_function_name<'s>(
    function: &Function<'s>,
    names: &mut Vec<Identifier<'s>>,
) -> Result<(), AllocError>
    ensures { OnOk result (map identifier_of names.new.items ≡ map identifier_of names.old.items ++ function_name (definition_of function.now)) }
{
    match name_in(&function.declarator) {
        None => Ok(()),
        Some(name) => {
            names.push(name)?;
            Ok(())
        }
    }
}

/// Whether a name is that of `main`.
fn is_main(name: &Identifier<'_>) -> bool
    ensures { result ≡ is_main (identifier_of name.now) }
{
    name.text == b"main".as_slice()
}

/// The first name of `main`, if there is one.
fn main_name<'s>(names: &[Identifier<'s>]) -> Option<Identifier<'s>>
    ensures { option_map identifier_of result ≡ find is_main (map identifier_of names.now) }
{
    for name in names {
        if is_main(name) {
            return Some(*name);
        }
    }
    None
}

/// The first name, if there is one.
fn first_name<'s>(names: &[Identifier<'s>]) -> Option<Identifier<'s>>
    ensures { option_map identifier_of result ≡ first_name (map identifier_of names.now) }
{
    match names {
        [first, ..] => Some(*first),
        [] => None,
    }
}

/// The first name of `main`, or else the first name.
pub(crate) fn chief_name<'s>(names: &[Identifier<'s>]) -> Option<Identifier<'s>>
    ensures { option_map identifier_of result ≡ chief_name (map identifier_of names.now) }
{
    match main_name(names) {
        Some(name) => Some(name),
        None => first_name(names),
    }
}
