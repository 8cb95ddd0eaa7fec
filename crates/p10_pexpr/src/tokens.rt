//! The words of a root as the grammar sees them.

ghost use Rattle.std.specs.Prelude.{◌≡◌, map, IfOk};
ghost use Rattle.p10_base.specs.Words.{plain_words};
ghost use Rattle.p10_syn.specs.Symbols.{symbols_of};
ghost use Rattle.p10_syn.specs.Tokens.{symbol_at};

use p10_base::Word;
use p10_syn::{Token, token_of};
use std::alloc::{AllocError, Global};

/// The words as the grammar sees them, in order. It fails only where memory runs out.
pub fn tokens_of<'s>(alloc: Global, words: &[Word<'s>]) -> Result<Vec<Token<'s>>, AllocError>
    ensures { IfOk result (λ tokens. map symbol_at tokens.items ≡ symbols_of (plain_words words.now)) }
{
    let mut tokens = Vec::new(alloc);
    for word in words {
        tokens.push(token_of(word))?;
    }
    Ok(tokens)
}
