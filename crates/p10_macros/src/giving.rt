//! Makes the words of arguments those of the use.
//!
//! It is done once a use, and not each time that a parameter is put, since sets of macros are united for it.

ghost use Rattle.std.specs.Prelude.{◌≡◌, ◌≤◌, IfOk, OnOk};
ghost use Rattle.p10_base.specs.Words.{Text};
ghost use Rattle.p10_macros.specs.Uses.{Sourced};
ghost use Rattle.p10_macros.specs.private.Origins.{count_of, has_macro, Extends};
ghost use Rattle.p10_macros.specs.private.Traces.{lists_of, IsTraced};
ghost use Rattle.p10_macros.specs.private.Putting.{IsBase, IsJoined, IsGiven, AreGiven};

use crate::origin::Origins;
use crate::pending::Traced;
use std::alloc::AllocError;

/// A set of macros, by its number, and the set that has those of a use too.
#[derive(Clone, Copy)]
struct Joined {
    own: usize,
    all: usize,
}

/// Makes the words of arguments those of the use with this name: they stand at its place, and come from its macro and
/// from those that the name comes from, too. `from` is the number of the set of these.
pub fn give_all<'s>(
    origins: &mut Origins<'s>,
    name: Traced<'s>,
    from: usize,
    values: &mut [Vec<Traced<'s>>],
) -> Result<(), AllocError>
    ensures grown { Extends origins.old origins.new }
    ensures given { OnOk result (AreGiven origins.old origins.new name.entry from (lists_of values.old) (lists_of values.new)) }
{
    for value in values.iter_mut() {
        give(origins, name, from, value.as_mut_slice())?;
    }
    Ok(())
}

/// Makes the words of one argument those of the use.
fn give<'s>(
    origins: &mut Origins<'s>,
    name: Traced<'s>,
    from: usize,
    value: &mut [Traced<'s>],
) -> Result<(), AllocError>
    ensures grown { Extends origins.old origins.new }
    ensures given { OnOk result (IsGiven origins.old origins.new name.entry from value.old value.new) }
{
    let mut joined = Joined { own: 0, all: from };
    for part in value.iter_mut() {
        joined = join(origins, name, from, joined, part.from)?;
        *part = Traced::at_use(part.word, name.word.at, joined.all);
    }
    Ok(())
}

/// The sets of a word with the set `own`, which is often that of the word before it: then they are known.
fn join<'s>(
    origins: &mut Origins<'s>,
    name: Traced<'s>,
    from: usize,
    known: Joined,
    own: usize,
) -> Result<Joined, AllocError>
    ensures grown { Extends origins.old origins.new }
    ensures own { IfOk result (λ joined. joined.own ≡ own) }
    ensures joined { IfOk result (λ joined. (macro' : Text) (name' : Sourced) → IsTraced origins.old name.entry name' → IsBase origins.old from macro' name' → IsJoined origins.old known.own macro' name' origins.old known.all → own ≤ count_of origins.old → IsJoined origins.old own macro' name' origins.new joined.all) }
{
    if own == known.own {
        return Ok(known);
    }
    let all = joined_set(origins, name.from, from, own)?;
    Ok(Joined { own, all })
}

/// The number of the set of macros that a word of an argument comes from: those of the use, and its own.
fn joined_set<'s>(
    origins: &mut Origins<'s>,
    name: usize,
    from: usize,
    own: usize,
) -> Result<usize, AllocError>
    ensures grown { Extends origins.old origins.new }
    ensures joined { IfOk result (λ all. (macro' : Text) (name' : Sourced) → ((other : Text) → has_macro origins.old name other ≡ name'.from other) → own ≤ count_of origins.old → IsBase origins.old from macro' name' → IsJoined origins.old own macro' name' origins.new all) }
{
    if own == 0 {
        return Ok(from);
    }
    if own == name {
        return Ok(from);
    }
    origins.unite(own, from)
}
