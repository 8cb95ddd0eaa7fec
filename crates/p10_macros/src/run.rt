//! The steps of a replacement.

ghost use Rattle.std.specs.Prelude.{◌≡◌, ◌≤◌, [], ◌∷◌, reverse, option_map, option_copied, OnOk, IfErr, None, Some, is_none, ◌||◌, ◌++◌};
ghost use Rattle.p10_base.specs.Codes.{directive_number};
ghost use Rattle.p10_base.specs.Words.{plain_word};
ghost use Rattle.p10_direct.specs.Form.{plain_macro};
ghost use Rattle.p10_macros.specs.Table.{Table};
ghost use Rattle.p10_macros.specs.private.KnownMacros.{plain_known};
ghost use Rattle.p10_macros.specs.Answers.{table_of};
ghost use Rattle.p10_macros.specs.private.Standing as roles;
ghost use Rattle.p10_macros.specs.private.Standing.{given_with, done_with, State, Advances, AdvancesBy, Fails, FailsBy, FaultComes, LeadsTo, AtUse, AtCall, IsReplacedIn, IsTooLong, IsOpenedIn, place_among, weight};
ghost use Rattle.p10_macros.specs.private.Links.{HasExits};
ghost use Rattle.p10_macros.specs.private.Traces.{lists_of};
ghost use Rattle.p10_macros.specs.private.Looking.{macro_used, opens_on_top, refusal_at};
ghost use Rattle.p10_macros.specs.declared.replaced.ReplaceFault.TheVariants as faults;
ghost use Rattle.p10_macros.specs.declared.pending.Pending.{Pending as Next};

use crate::ahead::Ahead;
use crate::known::Known;
use crate::pending::{Exits, Open, Pending, Run, Traced};
use crate::replaced::ReplaceFault;
use crate::replacement::put_replacement;
use crate::table::Macros;
use p10_base::{DirectiveCode, Kind, Refusal, Span};
use p10_direct::Macro;
use std::alloc::AllocError;
use std::mem;

/// Looks at the next word.
pub fn step<'m, 'w, 's>(
    run: &mut Run<'m, 'w, 's>,
    macros: &'m Macros<'w, 's>,
    next: Pending<'s>,
) -> Result<(), ReplaceFault>
    ensures ok { OnOk result (Advances (table_of macros.now) run.old next.entry run.new) }
    ensures err { IfErr result (Fails (table_of macros.now) run.old next.entry) }
    ensures lighter { OnOk result (weight run.new ≤ weight run.old) }
{
    // The place of the next word, which was taken, is one more than the words that are left.
    if run.pending.count() >= run.stop {
        look(run, macros, next)
    } else if next.traced.word.is_punctuator(b")") {
        end_call(run)
    } else {
        end_argument(run, next.exits.argument)
    }
}

/// Looks at a word that ends no argument: it stays, or begins a use.
fn look<'m, 'w, 's>(
    run: &mut Run<'m, 'w, 's>,
    macros: &'m Macros<'w, 's>,
    next: Pending<'s>,
) -> Result<(), ReplaceFault>
    ensures ok { OnOk result (AdvancesBy (table_of macros.now) run.old next.entry roles.NextWord run.new) }
    ensures err { IfErr result (FailsBy (table_of macros.now) run.old next.entry roles.NextWord) }
    ensures lighter { OnOk result (weight run.new ≤ weight run.old) }
{
    match used(macros, &run.pending, &next.traced) {
        None => put_done(run, next.traced),
        Some(known) => begin_use(run, known, next.traced),
    }
}

/// Puts a word that stays to those that are given, or in an argument to those that are done.
fn put_done<'s>(run: &mut Run<'_, '_, 's>, word: Traced<'s>) -> Result<(), ReplaceFault>
    ensures words { OnOk result (run.new.words.items ≡ given_with (reverse run.old.open.items) run.old.words.items word.entry.word) }
    ensures done { OnOk result (run.new.done.items ≡ done_with (reverse run.old.open.items) run.old.done.items word.entry) }
    ensures pending { run.new.pending ≡ run.old.pending }
    ensures stop { run.new.stop ≡ run.old.stop }
    ensures open { run.new.open ≡ run.old.open }
    ensures origins { run.new.origins ≡ run.old.origins }
    ensures left { run.new.left ≡ run.old.left }
    ensures err { IfErr result (λ fault. fault ≡ faults.Memory) }
{
    match run.open.as_slice() {
        [] => run.words.push(word.word)?,
        [.., _] => run.done.push(word)?,
    }
    Ok(())
}

/// The macro that the word uses, where these words are pending after it.
fn used<'m, 'w, 's>(
    macros: &'m Macros<'w, 's>,
    pending: &Ahead<'s>,
    name: &Traced<'s>,
) -> Option<&'m Known<'w, 's>>
    ensures { option_map plain_known (option_copied result) ≡ macro_used (table_of macros.now) (reverse pending.now.words.items) (plain_word name.now.word) }
{
    if !matches!(name.word.kind, Kind::Name) {
        return None;
    }
    match macros.entry(name.word.text) {
        None => None,
        Some(known) => if is_used(&known.made, pending) {
            Some(known)
        } else {
            None
        },
    }
}

/// Whether the name of this macro is a use, where these words are pending after it.
fn is_used(made: &Macro<'_, '_>, pending: &Ahead<'_>) -> bool
    ensures { result ≡ (is_none (plain_macro made.now).parameters || opens_on_top (reverse pending.now.words.items)) }
{
    made.params.is_none() || pending.opens_next()
}

/// Begins a use: an object-like macro is replaced at once, and the arguments of a function-like one are replaced first.
fn begin_use<'m, 'w, 's>(
    run: &mut Run<'m, 'w, 's>,
    known: &'m Known<'w, 's>,
    name: Traced<'s>,
) -> Result<(), ReplaceFault>
    ensures ok { OnOk result ((table : Table) (state : State) → AtUse table run.old (plain_known known.entry.now) name.entry state → LeadsTo table state run.new) }
    ensures err { IfErr result (λ fault. (table : Table) (state : State) → AtUse table run.old (plain_known known.entry.now) name.entry state → FaultComes table state fault) }
    ensures lighter { OnOk result (weight run.new ≤ weight run.old) }
{
    if run.origins.has(name.from, known.made.name) {
        return Err(refused(run, &name, DirectiveCode::RecursiveMacro));
    }
    match &known.made.params {
        None => replace_use(run, known, name, Vec::new(run.alloc)),
        Some(params) => {
            let count = params.as_slice().len();
            let exits = run.pending.skip();
            begin_call(run, known, count, name, exits)
        }
    }
}

/// Begins the use of a function-like macro, whose `(` was the next word; `exits` are the ends before which the words
/// after that one stand.
fn begin_call<'m, 'w, 's>(
    run: &mut Run<'m, 'w, 's>,
    known: &'m Known<'w, 's>,
    params: usize,
    name: Traced<'s>,
    exits: Exits,
) -> Result<(), ReplaceFault>
    requires { HasExits exits (reverse run.old.pending.words.items) }
    ensures ok { OnOk result ((table : Table) (state : State) → AtCall table run.old (plain_known known.entry.now) params name.entry state → LeadsTo table state run.new) }
    ensures err { IfErr result (λ fault. (table : Table) (state : State) → AtCall table run.old (plain_known known.entry.now) params name.entry state → FaultComes table state fault) }
    ensures lighter { OnOk result (weight run.new ≤ weight run.old) }
{
    if exits.call <= run.stop {
        return Err(refused(run, &name, DirectiveCode::CallWithoutEnd));
    }
    if params == 0 && exits.call == run.pending.count() {
        let _ = run.pending.skip();
        return replace_use(run, known, name, Vec::new(run.alloc));
    }
    if params == run.pending.arguments(exits) {
        open_use(run, known, name, exits.argument)
    } else {
        Err(refused(run, &name, DirectiveCode::WrongArguments))
    }
}

/// Opens a use, whose first argument is next and ends at the place `stop`.
fn open_use<'m, 'w, 's>(
    run: &mut Run<'m, 'w, 's>,
    known: &'m Known<'w, 's>,
    name: Traced<'s>,
    stop: usize,
) -> Result<(), ReplaceFault>
    ensures ok { OnOk result (IsOpenedIn run.old run.new known.entry name.entry stop) }
    ensures err { IfErr result (λ fault. fault ≡ faults.Memory) }
{
    let place = place_of(run.open.as_slice(), &name);
    let before = mem::replace(&mut run.done, Vec::new(run.alloc));
    let open = Open {
        known,
        name,
        place,
        stop: mem::replace(&mut run.stop, stop),
        before,
        values: Vec::new(run.alloc),
    };
    put_open(&mut run.open, open)?;
    Ok(())
}

/// Puts a use on top of the open ones.
fn put_open<'m, 'w, 's>(
    all: &mut Vec<Open<'m, 'w, 's>>,
    innermost: Open<'m, 'w, 's>,
) -> Result<(), AllocError>
    ensures { OnOk result (all.new.items ≡ all.old.items ++ innermost.entry ∷ []) }
{
    all.push(innermost)?;
    Ok(())
}

/// Puts the value of an argument after those of the arguments before it.
fn put_argument<'s>(
    values: &mut Vec<Vec<Traced<'s>>>,
    value: Vec<Traced<'s>>,
) -> Result<(), AllocError>
    ensures { OnOk result (values.new.items ≡ values.old.items ++ value.entry ∷ []) }
{
    values.push(value)?;
    Ok(())
}

/// Ends an argument before the last one of the innermost open use; the next one ends at the place `stop`.
fn end_argument<'m, 'w, 's>(run: &mut Run<'m, 'w, 's>, stop: usize) -> Result<(), ReplaceFault>
    ensures ok { OnOk result ((table : Table) (next : Next) → next.exits.argument ≡ stop → AdvancesBy table run.old next roles.EndsArgument run.new) }
    ensures err { IfErr result (λ fault. fault ≡ faults.Memory) }
    ensures lighter { OnOk result (weight run.new ≤ weight run.old) }
{
    let value = mem::replace(&mut run.done, Vec::new(run.alloc));
    run.stop = stop;
    match run.open.pop() {
        // An argument ends in an open use alone, so this doesn't come.
        None => Ok(()),
        Some(mut open) => {
            put_argument(&mut open.values, value)?;
            put_open(&mut run.open, open)?;
            Ok(())
        }
    }
}

/// Ends the last argument of the innermost open use, and replaces the use.
fn end_call<'m, 'w, 's>(run: &mut Run<'m, 'w, 's>) -> Result<(), ReplaceFault>
    ensures ok { OnOk result ((table : Table) (next : Next) → AdvancesBy table run.old next roles.EndsCall run.new) }
    ensures err { IfErr result (λ fault. (table : Table) (next : Next) → FailsBy table run.old next roles.EndsCall fault) }
    ensures lighter { OnOk result (weight run.new ≤ weight run.old) }
{
    match run.open.pop() {
        // An argument ends in an open use alone, so this doesn't come.
        None => Ok(()),
        Some(open) => {
            let Open {
                known,
                name,
                place: _,
                stop,
                before,
                values,
            } = open;
            let mut values = values;
            run.stop = stop;
            let value = mem::replace(&mut run.done, before);
            put_argument(&mut values, value)?;
            replace_use(run, known, name, values)
        }
    }
}

/// Replaces a use.
fn replace_use<'m, 'w, 's>(
    run: &mut Run<'m, 'w, 's>,
    known: &'m Known<'w, 's>,
    name: Traced<'s>,
    values: Vec<Vec<Traced<'s>>>,
) -> Result<(), ReplaceFault>
    ensures ok { OnOk result (IsReplacedIn run.old run.new (plain_known known.entry.now) name.entry (lists_of values.entry.items)) }
    ensures err { IfErr result (IsTooLong run.old (plain_known known.entry.now) name.entry (lists_of values.entry.items)) }
    ensures lighter { OnOk result (weight run.new ≤ weight run.old) }
{
    let mut values = values;
    run.left = put_replacement(
        &mut run.pending,
        &mut run.origins,
        known,
        name,
        values.as_mut_slice(),
        run.left,
    )?;
    Ok(())
}

/// A refusal of the use with this name.
fn refused(run: &Run<'_, '_, '_>, name: &Traced<'_>, code: DirectiveCode) -> ReplaceFault
    ensures { result ≡ refusal_at (directive_number code) (place_among (reverse run.now.open.items) name.now) }
{
    ReplaceFault::Refused(Refusal::directive(code, place_of(run.open.as_slice(), name)))
}

/// The name in the use of the outermost macro, where a use with this name stands in these.
fn place_of(uses: &[Open<'_, '_, '_>], name: &Traced<'_>) -> Span
    ensures { result ≡ place_among (reverse uses.now) name.now }
{
    match uses {
        [.., innermost] => innermost.place,
        [] => name.word.at,
    }
}
