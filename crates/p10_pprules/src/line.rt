//! Rows on single directives.

ghost use Rattle.std.specs.Prelude.{◌≡◌, ◌++◌, map, OnOk};
ghost use Rattle.p10_base.specs.Words.{plain_word};
ghost use Rattle.p10_expand.specs.Answers.{plain_obeyed};
ghost use Rattle.std.specs.List.{flat_map};
ghost use Rattle.p10_pprules.specs.Lines.{begins_conditional, is_barred, is_allowed_pragma, name_of, operands_of};
ghost use Rattle.p10_pprules.specs.private.Listing.{line_violations};

use crate::listing::push_if;
use p10_base::{Sub, Violation, Word};
use p10_direct::{Keyword, directive_named};
use p10_expand::Obeyed;
use std::alloc::AllocError;

/// Puts the violations of single directives after the others.
pub fn push_lines(obeyed: &[Obeyed<'_>], violations: &mut Vec<Violation>) -> Result<(), AllocError>
    ensures { OnOk result (violations.new.items ≡ violations.old.items ++ flat_map line_violations (map plain_obeyed obeyed.now)) }
{
    for line in obeyed {
        push_line(line, violations)?;
    }
    Ok(())
}

/// Puts the violations of a directive after the others.
fn push_line(line: &Obeyed<'_>, violations: &mut Vec<Violation>) -> Result<(), AllocError>
    ensures { OnOk result (violations.new.items ≡ violations.old.items ++ line_violations (plain_obeyed line.now)) }
{
    let words = line.words.as_slice();
    let name = directive_name(words);
    push_if(
        Sub { rule: 8, sub: 1 },
        is_conditional(name) && !line.guard,
        line.span,
        violations,
    )?;
    push_if(
        Sub { rule: 8, sub: 5 },
        is_not_allowed(name, operands(words)),
        line.span,
        violations,
    )
}

/// The directive that the line names.
pub fn directive_name(line: &[Word<'_>]) -> Option<Keyword>
    ensures { result ≡ name_of (map plain_word line.now) }
{
    match line {
        [_, name, ..] => directive_named(name),
        _ => None,
    }
}

/// The words after the name of the directive.
pub fn operands<'w, 's>(line: &'w [Word<'s>]) -> &'w [Word<'s>]
    ensures { map plain_word result.now ≡ operands_of (map plain_word line.now) }
{
    match line {
        [_, _, operands @ ..] => operands,
        _ => &[],
    }
}

/// Whether the directive begins a conditional.
fn is_conditional(name: Option<Keyword>) -> bool
    ensures { result ≡ begins_conditional name }
{
    matches!(name, Some(Keyword::If | Keyword::Ifdef | Keyword::Ifndef))
}

/// Whether the directive with these operands isn't allowed.
fn is_not_allowed(name: Option<Keyword>, operands: &[Word<'_>]) -> bool
    ensures { result ≡ is_barred name (map plain_word operands.now) }
{
    match name {
        Some(Keyword::Undef) => true,
        Some(Keyword::Pragma) => !is_allowed(operands),
        _ => false,
    }
}

/// Whether the operands are those of an allowed pragma.
fn is_allowed(operands: &[Word<'_>]) -> bool
    ensures { result ≡ is_allowed_pragma (map plain_word operands.now) }
{
    match operands {
        [once] => once.is_name(b"once"),
        [own, mark] => {
            own.is_name(b"p10") && (mark.is_name(b"init_done") || mark.is_name(b"task_loop"))
        }
        _ => false,
    }
}
