//! A function for each node of the trees of C's grammar, which makes it of its parts. What it makes stands nowhere until its
//! places are set. So the parsers open no box. A function that may fail does so only where memory runs out.
#![tactic(auto)]

mod boxes;
#[tactic(auto, unfolding(p10_syn::specs::Built::bare_of, p10_syn::specs::Built::bare_declarator_of))]
mod declarator;
#[tactic(auto, unfolding(p10_syn::specs::Built::bare_of))]
mod expression;
mod identifiers;
#[tactic(auto, unfolding(p10_syn::specs::Built::bare_of, p10_syn::specs::BuiltStatements::bare_statement_of))]
mod statement;

pub use declarator::{
    array, declared, enumeration, enumerator, field, function, keyword, member_declaration,
    nameless, parameter, parenthesised, pointer, qualifier, structure, type_name, typedef,
};
pub use expression::{
    arrow, assign, binary, call, cast, character, comma, conditional, grouped, index, member, name,
    number, sizeof_expr, sizeof_type, step, string, unary,
};
pub use statement::{
    block, braced, case, declaration, declares, default, definition, do_loop, empty, evaluate,
    for_loop, give_back, go_on, goto, if_else, if_then, init_declarator, label, leave, mark, outer,
    switch, value, while_loop,
};
