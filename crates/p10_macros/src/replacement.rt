//! Puts the replacement of a use in its place.

ghost use Rattle.std.specs.Prelude.{◌≡◌, ◌+◌, ◌<◌, ◌≤◌, List, All, [], ◌∷◌, length, option_copied, IfOk, IfErr, IfSome};
ghost use Rattle.std.specs.List.{flat_map};
ghost use Rattle.p10_macros.specs.private.KnownMacros.{plain_known};
ghost use Rattle.p10_macros.specs.private.Places.{chosen_count, chosen_parts, chosen_place};
ghost use Rattle.p10_macros.specs.Uses.{Sourced, replacement};
ghost use Rattle.p10_macros.specs.private.Origins.{Extends};
ghost use Rattle.p10_macros.specs.private.Traces.{lists_of, IsTraced, AreValues};
ghost use Rattle.p10_macros.specs.private.Putting.{Short, PutsTraced, PutsReplacement, part_of, value_or_word};

use crate::ahead::Ahead;
use crate::giving::give_all;
use crate::known::Known;
use crate::origin::Origins;
use crate::pending::{Traced, UseSite};
use crate::replaced::ReplaceFault;
use crate::values::value_at;

/// Puts the replacement of a use on top of the pending words, where `left` words may still be made, and gives how many
/// are left. The words of the values are made those of the use.
pub fn put_replacement<'s>(
    pending: &mut Ahead<'s>,
    origins: &mut Origins<'s>,
    known: &Known<'_, 's>,
    name: Traced<'s>,
    values: &mut [Vec<Traced<'s>>],
    left: u64,
) -> Result<u64, ReplaceFault>
    ensures lighter { IfOk result (λ remaining. (remaining ≤ left) × (remaining + length pending.new.words.items ≡ left + length pending.old.words.items)) }
    ensures grown { Extends origins.old origins.new }
    ensures ok { IfOk result (PutsReplacement origins.old origins.new pending.old.words.items pending.new.words.items (plain_known known.now) name.entry (lists_of values.old) left) }
    ensures err { IfErr result (λ fault. (name' : Sourced) (values' : List (List Sourced)) → IsTraced origins.old name.entry name' → AreValues origins.old (lists_of values.old) values' → Short fault (left < length (replacement (plain_known known.now) name' values'))) }
{
    let from = origins.with_macro(name.from, known.made.name)?;
    give_all(origins, name, from, values)?;
    let site = UseSite {
        at: name.word.at,
        from,
    };
    put_chosen(pending, known, values, site, left)
}

/// Puts the replacement list of a use on top, whose words come from the macro and from those that its name comes from.
fn put_chosen<'s>(
    pending: &mut Ahead<'s>,
    known: &Known<'_, 's>,
    values: &[Vec<Traced<'s>>],
    site: UseSite,
    left: u64,
) -> Result<u64, ReplaceFault>
    ensures ok { IfOk result (PutsTraced pending.old.words.items pending.new.words.items (flat_map (part_of (plain_known known.now) (lists_of values.now) site.at site.from) known.now.made.body.now) left) }
    ensures err { IfErr result (λ fault. Short fault (left < length (flat_map (part_of (plain_known known.now) (lists_of values.now) site.at site.from) known.now.made.body.now))) }
{
    let chosen = known.chosen(values)?;
    put_list(pending, known, &chosen, values, site, left)
}

/// Puts what stands for the chosen words of the replacement list on top, from the last one to the first.
fn put_list<'s>(
    pending: &mut Ahead<'s>,
    known: &Known<'_, 's>,
    chosen: &Option<Vec<usize>>,
    values: &[Vec<Traced<'s>>],
    site: UseSite,
    left: u64,
) -> Result<u64, ReplaceFault>
    requires { IfSome chosen.now (λ places. All (λ place. place < length known.now.made.body.now) places.items) }
    ensures ok { IfOk result (PutsTraced pending.old.words.items pending.new.words.items (chosen_parts (part_of (plain_known known.now) (lists_of values.now) site.at site.from) known.now.made.body.now chosen.now) left) }
    ensures err { IfErr result (λ fault. Short fault (left < length (chosen_parts (part_of (plain_known known.now) (lists_of values.now) site.at site.from) known.now.made.body.now chosen.now))) }
{
    let mut left = left;
    let mut index = count_chosen(known, chosen);
    while index > 0 {
        index -= 1;
        let place = place_chosen(chosen, index);
        let word = Traced::at_use(known.made.body[place], site.at, site.from);
        left = put_part(
            pending,
            value_at(values, known.parameter(place)),
            word,
            left,
        )?;
    }
    Ok(left)
}

/// How many words of the replacement list are chosen.
fn count_chosen(known: &Known<'_, '_>, chosen: &Option<Vec<usize>>) -> usize
    ensures { result ≡ chosen_count known.now.made.body.now chosen.now }
{
    match chosen {
        None => known.made.body.len(),
        Some(places) => places.len(),
    }
}

/// The place of a chosen word in the replacement list.
fn place_chosen(chosen: &Option<Vec<usize>>, index: usize) -> usize
    requires { IfSome chosen.now (λ places. index < length places.items) }
    ensures { result ≡ chosen_place chosen.now index }
{
    match chosen {
        None => index,
        Some(places) => places[index],
    }
}

/// Puts the value of a parameter on top, or the word of the replacement list itself.
fn put_part<'s>(
    pending: &mut Ahead<'s>,
    value: Option<&[Traced<'s>]>,
    word: Traced<'s>,
    left: u64,
) -> Result<u64, ReplaceFault>
    ensures ok { IfOk result (PutsTraced pending.old.words.items pending.new.words.items (value_or_word (option_copied value.entry) word.entry) left) }
    ensures err { IfErr result (λ fault. Short fault (left < length (value_or_word (option_copied value.entry) word.entry))) }
{
    match value {
        None => put_word(pending, word, left),
        Some(value) => put_words(pending, value, left),
    }
}

/// Puts words before the pending ones, in their order.
fn put_words<'s>(
    pending: &mut Ahead<'s>,
    words: &[Traced<'s>],
    left: u64,
) -> Result<u64, ReplaceFault>
    ensures ok { IfOk result (PutsTraced pending.old.words.items pending.new.words.items words.now left) }
    ensures err { IfErr result (λ fault. Short fault (left < length words.now)) }
{
    let mut left = left;
    let mut place = words.len();
    while place > 0 {
        place -= 1;
        left = put_word(pending, words[place], left)?;
    }
    Ok(left)
}

/// Puts a word on top.
fn put_word<'s>(pending: &mut Ahead<'s>, word: Traced<'s>, left: u64) -> Result<u64, ReplaceFault>
    ensures ok { IfOk result (PutsTraced pending.old.words.items pending.new.words.items (word.entry ∷ []) left) }
    ensures err { IfErr result (λ fault. Short fault (left ≡ 0)) }
{
    if left == 0 {
        return Err(ReplaceFault::TooMany);
    }
    pending.push(word)?;
    Ok(left - 1)
}
