//! Tells the truth of a condition without memory.

ghost use Rattle.std.specs.Prelude.{◌≡◌, ◌+◌, ◌≤◌, ◌<◌, drop, map, List, option_map, IfSome, IfNone, Bool, not};
ghost use Rattle.p10_direct.specs.Conditions.{HasTruth, ConditionsAreUnique};
ghost use Rattle.p10_direct.specs.private.Climbing.{values, climb, operand, choice, heads, operator_at, if_level, start_at, start_of, both_sides, number_of, is_nil};
ghost use Rattle.p10_direct.specs.private.Parts.{from, found_of, start_read};
ghost use Rattle.p10_base.specs.declared.word.Word.{Word};
ghost use Rattle.p10_base.specs.Words.{plain_word};
ghost use Rattle.p10_direct.specs.Tokens.{token_of};
ghost use Rattle.p10_direct.specs.private.Signs.{binary_of};
ghost use Rattle.p10_direct.specs.Values.{is_zero};

use crate::constant::constant;
use crate::evaluate::{apply_sign, choose, join};
use crate::operator::{Binary, binary_operator, binding, sign_operator};
use crate::part::{Part, Start};
use crate::value::Value;
use p10_base::Word;

/// The greatest depth of a condition.
const MOST_DEPTH: u32 = 512;

/// Whether a condition holds, by the words that are left after the replacement of macros, where
/// a name is 0 (C99 6.10.1p4). None where the words are no constant expression of depth 512 at
/// most, or its value stops. Takes no memory.
pub fn truth(words: &[Word<'_>]) -> Option<bool>
    ensures holds { IfSome result (HasTruth (map plain_word words.now)) }
    ensures fails { IfNone result ((truth : Bool) → HasTruth (map plain_word words.now) truth → ⊥) }
{
    is_true(number(words))
}

/// The value of the condition that all of the words spell.
fn number(words: &[Word<'_>]) -> Option<i128>
    ensures value { result ≡ number_of (climb values 512 0 (from 0 words.now)) }
    ensures shallow { IfSome (climb values 512 0 (from 0 words.now)) (λ found. found.depth ≤ 512) }
{
    let part = read(MOST_DEPTH, 0, words, 0)?;
    if ends(words, part.place) {
        part.value.value
    } else {
        None
    }
}

/// Whether the number isn't 0.
fn is_true(number: Option<i128>) -> Option<bool>
    ensures { result ≡ option_map (λ n. not (is_zero n)) number }
{
    Some(number? != 0)
}

/// Whether no word stands at the place.
fn ends(words: &[Word<'_>], place: usize) -> bool
    ensures { result ≡ is_nil (from place words.now) }
{
    if place < words.len() { false } else { true }
}

/// Words spell one condition at most.
pub fn one_condition()
    ensures { ConditionsAreUnique }
{}

/// The place after a word, or the place itself at the end of the words.
fn behind(words: &[Word<'_>], place: usize) -> usize
    ensures { from result words.now ≡ drop 1 (from place words.now) }
{
    if place < words.len() {
        place + 1
    } else {
        place
    }
}

/// Whether the word at the place is this punctuator.
fn punctuates_at(words: &[Word<'_>], place: usize, text: &[u8]) -> bool
    ensures { result ≡ heads text.now (from place words.now) }
{
    if place < words.len() {
        words[place].is_punctuator(text)
    } else {
        false
    }
}

/// The operator at the place, where it binds at least as tightly as `level` says.
fn operator(words: &[Word<'_>], place: usize, level: u32) -> Option<Binary>
    ensures { result ≡ operator_at level (from place words.now) }
{
    if place < words.len() {
        operator_word(&words[place], level)
    } else {
        None
    }
}

/// The operator that the word is, where it binds at least as tightly as `level` says.
fn operator_word(word: &Word<'_>, level: u32) -> Option<Binary>
    ensures { result ≡ if_level level (binary_of (token_of (plain_word word.now))) }
{
    let op = binary_operator(word)?;
    if level <= binding(op) { Some(op) } else { None }
}

/// How an operand begins at the place.
fn start(words: &[Word<'_>], place: usize) -> Start
    ensures { start_read result ≡ start_at (from place words.now) }
{
    if place < words.len() {
        start_word(&words[place])
    } else {
        Start::Nothing
    }
}

/// How an operand begins with the word.
fn start_word(word: &Word<'_>) -> Start
    ensures { start_read result ≡ start_of (token_of (plain_word word.now)) }
{
    if word.is_punctuator(b"(") {
        return Start::Group;
    }
    if let Some(op) = sign_operator(word) {
        return Start::Sign(op);
    }
    match constant(word) {
        Some(constant) => Start::Lone(constant),
        None => Start::Nothing,
    }
}

/// Reads a condition of at least this level and at most this depth from a place on.
#[cycle(condition)]
fn read(budget: u32, level: u32, words: &[Word<'_>], place: usize) -> Option<Part>
    requires { budget ≤ 512 }
    ensures value { option_map (found_of words.now) result ≡
        climb values budget level (from place words.now) }
    ensures shallow { IfSome result (λ part. part.depth ≤ budget) }
{
    if budget == 0 {
        return None;
    }
    let mut left = read_operand(budget - 1, words, place)?;
    while let Some(op) = operator(words, left.place, level) {
        let right = read(
            budget - 1,
            binding(op) + 1,
            words,
            behind(words, left.place),
        )?;
        left = join_parts(op, left, right);
        if left.depth > budget {
            return None;
        }
    }
    if level == 0 {
        read_choice(budget - 1, words, left)
    } else {
        Some(left)
    }
}

/// Reads an operand whose parts have at most this depth.
#[cycle(condition)]
fn read_operand(inner: u32, words: &[Word<'_>], place: usize) -> Option<Part>
    requires { inner < 512 }
    ensures value { option_map (found_of words.now) result ≡
        operand values (climb values inner) (from place words.now) }
    ensures shallow { IfSome result (λ part. part.depth ≤ inner + 1) }
{
    let next = behind(words, place);
    match start(words, place) {
        Start::Group => {
            let part = read(inner, 0, words, next)?;
            if !punctuates_at(words, part.place, b")") {
                return None;
            }
            Some(Part {
                value: part.value,
                depth: part.depth + 1,
                place: behind(words, part.place),
            })
        }
        Start::Sign(op) => {
            let part = read(inner, 11, words, next)?;
            Some(Part {
                value: apply_sign(op, part.value),
                depth: part.depth + 1,
                place: part.place,
            })
        }
        Start::Lone(constant) => {
            Some(Part {
                value: Value {
                    unsigned: constant.unsigned,
                    value: Some(constant.value),
                },
                depth: 1,
                place: next,
            })
        }
        Start::Nothing => None,
    }
}

/// Two operands, joined by an operator.
fn join_parts(op: Binary, left: Part, right: Part) -> Part
    requires left { left.depth ≤ 512 }
    requires right { right.depth ≤ 512 }
    ensures { (words : List Word) → found_of words result ≡
        both_sides values op (found_of words left) (found_of words right) }
{
    Part {
        value: join(op, left.value, right.value),
        depth: left.depth.max(right.depth) + 1,
        place: right.place,
    }
}

/// Reads `?` and its branches, whose parts have at most this depth, after a test.
#[cycle(condition)]
fn read_choice(inner: u32, words: &[Word<'_>], test: Part) -> Option<Part>
    requires inner { inner < 512 }
    requires test { test.depth ≤ inner + 1 }
    ensures value { option_map (found_of words.now) result ≡
        choice values (inner + 1) (climb values inner) (found_of words.now test) }
    ensures shallow { IfSome result (λ part. part.depth ≤ inner + 1) }
{
    if !punctuates_at(words, test.place, b"?") {
        return Some(test);
    }
    let first = read(inner, 0, words, behind(words, test.place))?;
    if !punctuates_at(words, first.place, b":") {
        return None;
    }
    let second = read(inner, 0, words, behind(words, first.place))?;
    let depth = test.depth.max(first.depth.max(second.depth)) + 1;
    if depth > inner + 1 {
        return None;
    }
    Some(Part {
        value: choose(test.value, first.value, second.value),
        depth,
        place: second.place,
    })
}
