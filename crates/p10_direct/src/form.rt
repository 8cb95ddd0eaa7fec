//! What a directive says.

use p10_base::{ListBuf, Refusal, Word};

/// The definition of a macro (C99 6.10.3).
#[derive(Drop)]
pub struct Macro<'w, 's> {
    /// The name that it defines.
    pub name: &'s [u8],
    /// The parameters in their order, all with different names; None for an object-like macro.
    pub params: Option<ListBuf<&'s [u8]>>,
    /// The replacement list.
    pub body: &'w [Word<'s>],
}

/// The words of a macro's definition (C99 6.10.3), also of one that is refused.
#[derive(Drop)]
pub struct Definition<'w, 's> {
    /// The name that it defines.
    pub name: Word<'s>,
    /// The parameters in their order, a last `...` among them; None for an object-like macro.
    pub parameters: Option<ListBuf<Word<'s>>>,
    /// The replacement list.
    pub body: &'w [Word<'s>],
}

/// A directive (C99 6.10).
#[derive(Drop)]
pub enum Directive<'w, 's> {
    /// A line of `#` alone.
    Null,
    /// `#include`; `name` is the text between the quotes, or the angle brackets where `angle` is set.
    Include { name: &'s [u8], angle: bool },
    /// `#define`.
    Define(Macro<'w, 's>),
    /// `#undef` of a name.
    Undef(&'s [u8]),
    /// `#if` with the words of its condition.
    If(&'w [Word<'s>]),
    /// `#elif` with the words of its condition.
    Elif(&'w [Word<'s>]),
    /// `#ifdef` of a name.
    Ifdef(&'s [u8]),
    /// `#ifndef` of a name.
    Ifndef(&'s [u8]),
    /// `#else`.
    Else,
    /// `#endif`.
    Endif,
    /// `#pragma once`.
    Once,
    /// `#pragma p10 init_done`.
    InitDone,
    /// `#pragma p10 task_loop`.
    TaskLoop,
    /// Any other pragma; it has no effect.
    OtherPragma,
}

/// Why a directive isn't read.
#[derive(Clone, Copy)]
pub enum DirectFault {
    /// D1 for an unknown directive or one of another form, D4 for a bad macro definition.
    Refused(Refusal),
    /// Memory ran out.
    Memory,
}
