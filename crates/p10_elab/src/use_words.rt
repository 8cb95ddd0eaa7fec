//! Where a use of a name is told that nothing defines: at its word, also where that stands in parentheses.

ghost use Rattle.std.specs.Prelude.{◌≡◌, None, map};
ghost use Rattle.p10_syn.specs.Trees.{expression_row, statement_row, initializer_row};
ghost use Rattle.p10_syn.specs.Built.{expression_of};
ghost use Rattle.p10_syn.specs.BuiltStatements.{optional_expression, initializer_of, initial_of, init_declarator_of, statement_of, external_of};
ghost use Rattle.p10_elab.specs.UseWords.{found_here, word_in, word_in_all, word_in_optional, word_in_initializer, word_in_items, word_in_initial, word_in_declarators, word_in_statement, word_in_statements, word_in_external, word_in_externals, middle_of, use_at_word};

use p10_base::At;
use p10_elabx::Problem;
use p10_syn::{Expr, Form, Init, InitDeclarator, Stmt, Unit};

/// What was found before, or else a name's place, if its word has the number.
fn found_here(number: u32, found: Option<At>, at: At) -> Option<At>
    ensures { result ≡ found_here number found at }
{
    match found {
        Some(word) => Some(word),
        None => { if at.first == number { Some(at) } else { None } }
    }
}

/// The place of the name in an expression whose word has a number, or what was found before.
#[cycle(word)]
fn word_in(e: &Expr<'_>, number: u32, found: Option<At>) -> Option<At>
    ensures { result ≡ word_in number found (expression_of e.now) }
{
    match &e.form {
        Form::Name(name) => found_here(number, found, name.at),
        Form::Number(_) => found,
        Form::Char(_) => found,
        Form::Str(_) => found,
        Form::Unary(_, a) => word_in(a, number, found),
        Form::Step(_, _, a) => word_in(a, number, found),
        Form::Binary(_, a, b) => word_in(b, number, word_in(a, number, found)),
        Form::Assign(_, a, b) => word_in(b, number, word_in(a, number, found)),
        Form::Cond(c, a, b) => {
            let found = word_in(c, number, found);
            word_in(b, number, word_in(a, number, found))
        }
        Form::Call(f, all) => word_in_all(all, number, word_in(f, number, found)),
        Form::Index(a, b) => word_in(b, number, word_in(a, number, found)),
        Form::Member(a, _) => word_in(a, number, found),
        Form::Arrow(a, _) => word_in(a, number, found),
        Form::Cast(_, a) => word_in(a, number, found),
        Form::SizeofExpr(_) => found,
        Form::SizeofType(_) => found,
        Form::Comma(all) => word_in_all(all, number, found),
    }
}

/// The same of expressions in a row.
#[cycle(word)]
fn word_in_all(all: &[Expr<'_>], number: u32, found: Option<At>) -> Option<At>
    ensures { result ≡ word_in_all number found (expression_row (map expression_of all.now)) }
{
    let mut found = found;
    for e in all {
        found = word_in(e, number, found);
    }
    found
}

/// The same of an expression that may be left out.
fn word_in_optional(e: &Option<Expr<'_>>, number: u32, found: Option<At>) -> Option<At>
    ensures { result ≡ word_in_optional number found (optional_expression e.now) }
{
    match e {
        None => found,
        Some(e) => word_in(e, number, found),
    }
}

/// The same of an initialiser.
#[cycle(items)]
fn word_in_initializer(i: &Init<'_>, number: u32, found: Option<At>) -> Option<At>
    ensures { result ≡ word_in_initializer number found (initializer_of i.now) }
{
    match i {
        Init::Value(e) => word_in(e, number, found),
        Init::Braced(_, all, _) => word_in_items(all, number, found),
    }
}

/// The same of the items of a list.
#[cycle(items)]
fn word_in_items(all: &[Init<'_>], number: u32, found: Option<At>) -> Option<At>
    ensures { result ≡ word_in_items number found (initializer_row (map initializer_of all.now)) }
{
    let mut found = found;
    for i in all {
        found = word_in_initializer(i, number, found);
    }
    found
}

/// The same of an initialiser that may be left out.
fn word_in_initial(i: &Option<Init<'_>>, number: u32, found: Option<At>) -> Option<At>
    ensures { result ≡ word_in_initial number found (initial_of i.now) }
{
    match i {
        None => found,
        Some(i) => word_in_initializer(i, number, found),
    }
}

/// The same of the initialisers of declarators.
fn word_in_declarators(all: &[InitDeclarator<'_>], number: u32, found: Option<At>) -> Option<At>
    ensures { result ≡ word_in_declarators number found (map init_declarator_of all.now) }
{
    let mut found = found;
    for d in all {
        found = word_in_initial(&d.init, number, found);
    }
    found
}

/// The same of a statement.
#[cycle(statements)]
fn word_in_statement(s: &Stmt<'_>, number: u32, found: Option<At>) -> Option<At>
    ensures { result ≡ word_in_statement number found (statement_of s.now) }
{
    match s {
        Stmt::Empty(_) | Stmt::Goto(_, _) | Stmt::Break(_) | Stmt::Continue(_) | Stmt::Mark(_, _) =>
            found,
        Stmt::Expr(_, e) => word_in(e, number, found),
        Stmt::Block(_, all) => word_in_statements(all, number, found),
        Stmt::If(_, e, s)
        | Stmt::Switch(_, _, e, s)
        | Stmt::While(_, _, e, s)
        | Stmt::Case(_, e, s) => word_in_statement(s, number, word_in(e, number, found)),
        Stmt::IfElse(_, e, s, t) => {
            let found = word_in(e, number, found);
            word_in_statement(t, number, word_in_statement(s, number, found))
        }
        Stmt::Do(_, _, s, e) => word_in(e, number, word_in_statement(s, number, found)),
        Stmt::For(_, _, start, test, step, s) => {
            let found = word_in_statement(start, number, found);
            let found = word_in_optional(test, number, found);
            let found = word_in_optional(step, number, found);
            word_in_statement(s, number, found)
        }
        Stmt::Default(_, s) | Stmt::Label(_, _, s) => word_in_statement(s, number, found),
        Stmt::Return(_, _, e) => word_in_optional(e, number, found),
        Stmt::Decl(d) => word_in_declarators(&d.declarators, number, found),
    }
}

/// The same of statements in a row.
#[cycle(statements)]
fn word_in_statements(all: &[Stmt<'_>], number: u32, found: Option<At>) -> Option<At>
    ensures { result ≡ word_in_statements number found (statement_row (map statement_of all.now)) }
{
    let mut found = found;
    for s in all {
        found = word_in_statement(s, number, found);
    }
    found
}

/// The same of a declaration or function.
fn word_in_external(unit: &Unit<'_>, number: u32, found: Option<At>) -> Option<At>
    ensures { result ≡ word_in_external number found (external_of unit.now) }
{
    match unit {
        Unit::Decl(_, d) => word_in_declarators(&d.declarators, number, found),
        Unit::Function(f) => word_in_statements(&f.body, number, found),
    }
}

/// The same of declarations and functions in a row.
fn word_in_externals(units: &[Unit<'_>], number: u32, found: Option<At>) -> Option<At>
    ensures { result ≡ word_in_externals number found (map external_of units.now) }
{
    let mut found = found;
    for unit in units {
        found = word_in_external(unit, number, found);
    }
    found
}

/// The number of the word in the middle of a tree: before the name in a tree of parentheses stand as many words as after it.
fn middle_of(at: At) -> u32
    ensures { result ≡ middle_of at }
{
    if at.past <= at.first {
        return at.first;
    }
    at.first + (at.past - at.first) / 2
}

/// A use of a name at its word.
pub(crate) fn use_at_word(units: &[Unit<'_>], problem: Problem) -> Problem
    ensures { result ≡ use_at_word (map external_of units.now) problem }
{
    match word_in_externals(units, middle_of(problem.at), None) {
        Some(at) => Problem {
            code: problem.code,
            at,
        },
        None => problem,
    }
}
