//! Rows on single parts.

ghost use Rattle.std.specs.Prelude.{◌≡◌, ◌++◌, OnOk, map};
ghost use Rattle.std.specs.List.{flat_map};
ghost use Rattle.p10_syn.specs.Built.{identifier_of, expression_of, declarator_of};
ghost use Rattle.p10_syn.specs.BuiltStatements.{statement_of};
ghost use Rattle.p10_synrules.specs.Violations.{jumps_far};
ghost use Rattle.p10_synrules.specs.private.Views.{plain_part, plain_parts};
ghost use Rattle.p10_synrules.specs.private.Listing.{expression_violations, declarator_violations, statement_violations, name_violations, part_violations};

use crate::assertion::{calls_c_assert, is_constant, states_call, states_no_test};
use crate::listing::{put_at, put_if};
use crate::part::Part;
use crate::pointer::{declarator_span, dereferences_twice, has_star, name_in, points_to_function};
use p10_base::{Sources, Sub, Violation};
use p10_syn::{Declarator, Expr, Identifier, Stmt};
use std::alloc::{AllocError, Global};

/// Puts down the violations by parts.
pub(crate) fn put_parts(
    alloc: Global,
    sources: &Sources,
    parts: &Vec<Part<'_, '_>>,
    violations: &mut Vec<Violation>,
) -> Result<(), AllocError>
    ensures { OnOk result (violations.new.items ≡ violations.old.items ++ flat_map (part_violations sources.now) (plain_parts parts.now)) }
{
    for part in parts {
        put_part(alloc, sources, part, violations)?;
    }
    Ok(())
}

/// Puts down the violations by a part.
fn put_part(
    alloc: Global,
    sources: &Sources,
    part: &Part<'_, '_>,
    violations: &mut Vec<Violation>,
) -> Result<(), AllocError>
    ensures { OnOk result (violations.new.items ≡ violations.old.items ++ part_violations sources.now (plain_part part.now)) }
{
    match part {
        Part::Expression(within, e) => put_expression_rows(alloc, *within, e, violations),
        Part::Declarator(typedef, d) => put_declarator_rows(sources, *typedef, d, violations),
        Part::Statement(s) => put_statement_rows(s, violations),
        Part::Name(name) => put_name_rows(name, violations),
    }
}

/// Puts down the violations by an expression.
fn put_expression_rows(
    alloc: Global,
    within: bool,
    e: &Expr<'_>,
    violations: &mut Vec<Violation>,
) -> Result<(), AllocError>
    ensures { OnOk result (violations.new.items ≡ violations.old.items ++ expression_violations within (expression_of e.now)) }
{
    let at = e.at.span;
    let call = states_call(alloc, e)?;
    let constant = is_constant(alloc, e)?;
    put_if(Sub { rule: 5, sub: 2 }, call, at, violations)?;
    put_if(Sub { rule: 5, sub: 3 }, states_no_test(e), at, violations)?;
    put_if(Sub { rule: 5, sub: 4 }, constant, at, violations)?;
    let lost = calls_c_assert(e) && !within;
    put_if(Sub { rule: 5, sub: 5 }, lost, at, violations)?;
    put_if(
        Sub { rule: 9, sub: 1 },
        dereferences_twice(e),
        at,
        violations,
    )
}

/// Puts down the violations by a declarator.
fn put_declarator_rows(
    sources: &Sources,
    typedef: bool,
    d: &Declarator<'_>,
    violations: &mut Vec<Violation>,
) -> Result<(), AllocError>
    ensures { OnOk result (violations.new.items ≡ violations.old.items ++ declarator_violations sources.now typedef (declarator_of d.now)) }
{
    let starred = typedef && has_star(d);
    put_at(Sub { rule: 9, sub: 3 }, starred, name_in(d), violations)?;
    put_if(
        Sub { rule: 9, sub: 4 },
        points_to_function(d),
        declarator_span(sources, d),
        violations,
    )
}

/// Puts down the violation by a statement.
fn put_statement_rows(s: &Stmt<'_>, violations: &mut Vec<Violation>) -> Result<(), AllocError>
    ensures { OnOk result (violations.new.items ≡ violations.old.items ++ statement_violations (statement_of s.now)) }
{
    let sub = Sub { rule: 1, sub: 1 };
    match s {
        Stmt::Goto(at, _) | Stmt::Label(at, _, _) => {
            violations.push(Violation { sub, span: at.span })?;
            Ok(())
        }
        _ => Ok(()),
    }
}

/// Whether a name is `setjmp` or `longjmp`.
fn jumps_far(name: &[u8]) -> bool
    ensures { result ≡ jumps_far name.now }
{
    name == b"setjmp".as_slice() || name == b"longjmp".as_slice()
}

/// Puts down the violation by a name.
fn put_name_rows(name: &Identifier<'_>, violations: &mut Vec<Violation>) -> Result<(), AllocError>
    ensures { OnOk result (violations.new.items ≡ violations.old.items ++ name_violations (identifier_of name.now)) }
{
    put_if(
        Sub { rule: 1, sub: 2 },
        jumps_far(name.text),
        name.at.span,
        violations,
    )
}
