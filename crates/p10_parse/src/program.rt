//! The trees of all roots.

ghost use Rattle.std.specs.Prelude.{map, IfOk, IfErr, OnOk};
ghost use Rattle.p10_base.specs.Words.{plain_words};
ghost use Rattle.p10_syn.specs.Spells.{Spells, SpellsRoot};
ghost use Rattle.p10_syn.specs.BuiltStatements.{external_of};
ghost use Rattle.p10_parse.specs.Units.{AllFit, FitNesting, HasFault, HaveFault};

use crate::root::read_root;
use p10_base::{Limit, Word};
use p10_nesting::{is_too_high, is_too_nested};
use p10_pexpr::ParseFault;
use p10_place::{Root, place_units};
use p10_syn::Unit;
use std::alloc::Global;

/// The trees of the declarations and functions of all roots, which are read in their order, each by itself.
///
/// The first root that is nested over the limit M5 or that no trees spell decides; M5 is tested before
/// G1, which stands at the word at which the next declaration or function of the root would begin.
pub fn units<'s>(alloc: Global, roots: &[Vec<Word<'s>>]) -> Result<Vec<Unit<'s>>, ParseFault>
    ensures found { IfOk result (λ all. Spells (map (λ root. plain_words root.items) roots.now) (map external_of all.items)) }
    ensures within { OnOk result (AllFit (map (λ root. plain_words root.items) roots.now)) }
    ensures fault { IfErr result (HaveFault (map (λ root. plain_words root.items) roots.now)) }
{
    let mut all = Vec::new(alloc);
    let mut before: usize = 0;
    let mut rest = roots;
    while let [root, others @ ..] = rest {
        let words = root.as_slice();
        let mut these = match root_units(alloc, before, words) {
            Ok(these) => these,
            Err(fault) => return Err(fault),
        };
        all.append(&mut these)?;
        let Some(after) = before.checked_add(words.len()) else {
            return Err(ParseFault::Memory);
        };
        before = after;
        rest = others;
    }
    Ok(all)
}

/// The trees of one root, before which this many words stand.
fn root_units<'s>(
    alloc: Global,
    before: usize,
    words: &[Word<'s>],
) -> Result<Vec<Unit<'s>>, ParseFault>
    ensures found { IfOk result (λ all. SpellsRoot before (plain_words words.now) (map external_of all.items)) }
    ensures within { OnOk result (FitNesting (plain_words words.now)) }
    ensures fault { IfErr result (HasFault (plain_words words.now)) }
{
    let is_over = is_too_nested(alloc, words)?;
    if is_over {
        return Err(ParseFault::Over(Limit::NESTING));
    }
    let is_high = is_too_high(alloc, words)?;
    if is_high {
        return Err(ParseFault::Memory);
    }
    let mut all = match read_root(alloc, words) {
        Ok(all) => all,
        Err(fault) => return Err(fault),
    };
    place_units(&Root { words, before }, 0, &mut all);
    Ok(all)
}
