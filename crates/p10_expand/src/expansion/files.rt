//! The lines of a file, and of those that it includes.

ghost use Rattle.std.specs.Prelude.{◌<◌};
ghost use Rattle.p10_base.specs.Gathered.{count_of};
ghost use Rattle.p10_expand.specs.Expands.{FileEnds, counted};
ghost use Rattle.p10_expand.specs.private.Steps.{CountsTo, Reaches, AreTexts, state_of};

use crate::expansion::fault::ExpandFault;
use crate::expansion::line::expand_line;
use crate::expansion::stand::{Stand, after, is_followed};
use crate::expansion::state::State;
use crate::expansion::step::Step;
use crate::expansion::texts::{File, MetLine, Texts};
use p10_base::{Limit, Refusal};
use p10_direct::part_of;
use std::alloc::Global;

/// Expands a file, in which this many includes may be nested. The answer is the first refusal, or none where the end of the
/// file is reached.
pub fn expand_file<'w, 's>(
    alloc: Global,
    texts: &Texts<'w, 's>,
    state: &mut State<'w, 's>,
    number: u32,
    built_in: bool,
    nested: u32,
) -> Result<Option<Refusal>, ExpandFault>
    requires stands { AreTexts texts.now }
    requires held { number < count_of texts.now.sources.now }
    ensures { Reaches (FileEnds texts.now.sources.now nested number built_in (state_of state.old)) result state.new }
{
    count(state, built_in, texts.words[number as usize].len())?;
    let file = File {
        number,
        built_in,
        cut: &texts.cuts[number as usize],
    };
    let mut stand = Stand::Obeyed;
    for (place, line) in file.cut.lines.as_slice().iter().enumerate() {
        let part = part_of(line);
        let obeyed = is_followed(stand, part);
        let met = MetLine {
            place,
            line,
            obeyed,
        };
        match expand_line(alloc, texts.sources, &file, state, met)? {
            Step::On(holds) => stand = after(stand, part, holds),
            Step::Refused(refusal) => return Ok(Some(refusal)),
            Step::Enter { number, built_in } => {
                if nested == 0 {
                    return Err(ExpandFault::Over(Limit::NESTED_INCLUDES));
                }
                let within = expand_file(alloc, texts, state, number, built_in, nested - 1)?;
                match within {
                    Some(refusal) => return Ok(Some(refusal)),
                    None => stand = after(stand, part, true),
                }
            }
        }
    }
    Ok(None)
}

/// Counts the words of a file that begins; those of a built-in header aren't counted.
fn count<'w, 's>(state: &mut State<'w, 's>, built_in: bool, words: usize) -> Result<(), ExpandFault>
    ensures { CountsTo (counted built_in words (state_of state.old)) result state.new }
{
    if !built_in {
        let words = words as u64;
        if state.left < words {
            return Err(ExpandFault::Over(Limit::EXPANDED_WORDS));
        }
        state.left -= words;
    }
    Ok(())
}
