//! The objects that a root declares outside of functions, each where it is first declared.

ghost use Rattle.std.specs.Prelude.{◌≡◌, ℕ, false, slice_index_or};
ghost use Rattle.p10_elab.specs.Knowledge.{is_sighted};

use crate::outer_object::Sighting;
use std::alloc::{AllocError, Global};

/// The objects that a root declares outside of functions, each where it is first declared. Whether one is among them is found at once,
/// however many there are.
#[derive(Drop)]
pub struct Sightings {
    rows: Vec<Sighting>,
    /// Whether the object with each number is among them, as far as that goes.
    flags: Vec<bool>,
    ghost flagged: { (n : ℕ) → slice_index_or flags.items n false ≡ is_sighted n rows.items },
}

impl Sightings {
    ghost use Rattle.std.specs.Prelude.{[], IfOk};
    ghost use Rattle.p10_elab.specs.Knowledge.{with_sighting};
    ghost use Rattle.p10_elab.specs.SightingViews.{sightings_in};

    /// No objects.
    pub fn new(alloc: Global) -> Sightings
        ensures { sightings_in result ≡ [] }
    {
        Sightings {
            rows: Vec::new(alloc),
            flags: Vec::new(alloc),
        }
    }

    /// The objects, in the order in which they are first declared.
    pub fn rows(&self) -> &[Sighting]
        ensures { result.now ≡ sightings_in self.now }
    {
        self.rows.as_slice()
    }

    /// Notes an object, unless it is noted already. Out of memory, nothing is noted.
    pub fn add(&mut self, sighting: Sighting) -> Result<(), AllocError>
        ensures { IfOk result (λ _. sightings_in self.new ≡ with_sighting sighting (sightings_in self.old)) }
    {
        if self.contains(sighting.number) {
            return Ok(());
        }
        put_sighting(&mut self.rows, &mut self.flags, sighting)?;
        Ok(())
    }

    /// Whether the object with a number is noted.
    #[tactic(auto, using(crate::proofs::Flags::flag_past))]
    pub fn contains(&self, number: u32) -> bool
        ensures { result ≡ is_sighted number (sightings_in self.now) }
    {
        if (number as usize) < self.flags.len() {
            self.flags[number as usize]
        } else {
            false
        }
    }
}

ghost use Rattle.std.specs.Prelude.{◌<◌, ◌++◌, ◌∷◌, [], ◌&&◌, ◌||◌, nat_eq, if◌then◌else◌, is_ok, IfOk, length};

/// Puts an object after others, and notes its number.
#[tactic(auto, using(crate::proofs::Flags::flag_set, crate::proofs::Flags::or_false))]
fn put_sighting(
    rows: &mut Vec<Sighting>,
    flags: &mut Vec<bool>,
    sighting: Sighting,
) -> Result<(), AllocError>
    ensures rows { rows.new.items ≡ (if is_ok result then rows.old.items ++ sighting ∷ [] else rows.old.items) }
    ensures flags { (n : ℕ) → slice_index_or flags.new.items n false ≡ (slice_index_or flags.old.items n false || (is_ok result && nat_eq sighting.number n)) }
{
    reach(flags, sighting.number)?;
    rows.push(sighting)?;
    flags[sighting.number as usize] = true;
    Ok(())
}

/// Makes room for the flag of a number.
#[tactic(auto, using(crate::proofs::Flags::flag_pushed))]
fn reach(flags: &mut Vec<bool>, number: u32) -> Result<(), AllocError>
    ensures same { (n : ℕ) → slice_index_or flags.new.items n false ≡ slice_index_or flags.old.items n false }
    ensures there { IfOk result (λ _. number < length flags.new.items) }
{
    while flags.len() <= number as usize {
        flags.push(false)?;
    }
    Ok(())
}
