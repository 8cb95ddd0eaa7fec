//! Gathering all files of a program.

ghost use Rattle.std.specs.Prelude.{◌≡◌, ◌≤◌, ◌<◌, ◌^◌, ◌+◌, ℕ, List, length, map, OnOk, IfOk, IfErr, IsErrOf, IsTrue, slice_index_or, string_bytes};
ghost use Rattle.std.specs.Bool.{IsFalse};
ghost use Rattle.p10_base.specs.Gathered.{count_of, root_count};
ghost use Rattle.p10_world.specs.Files.{Lacks};
ghost use Rattle.p10_world.specs.Faults.{Rose};
ghost use Rattle.p10_expand.specs.Gathering.{Root, Line, Gathers, HaveWords, IsFault, known_at};
ghost use Rattle.p10_expand.specs.Includes.{no_include};
ghost use Rattle.p10_expand.specs.private.Standing.{FailsFirst, FindsFirst, Follows, Grows, Keeps, Stands, Steps, Stops, StopsFollowing, fault_with};
ghost use Rattle.p10_expand.specs.Setting.{setting};

use crate::candidates::candidates;
use crate::fault::{GatherFault, Trouble};
use crate::gathering::Gathering;
use crate::includes::MOST_NESTED;
use crate::load::locate;
use crate::place::Place;
use p10_base::{Sources, TextBuf};
use p10_world::Files;
use std::alloc::{AllocError, Global};

/// The source files of a program with these roots: the roots in their order, and then, for each gathered
/// file in order, the files for which its include lines stand, also those of skipped groups.
///
/// `dirs` are the directories in which included files are looked for. No name is asked for twice. There are fewer than
/// 2^32 - 1 roots.
pub fn gather<F: Files>(
    alloc: Global,
    files: &mut F,
    roots: &[String],
    dirs: &[String],
) -> Result<Sources, GatherFault>
    requires { length roots.now + 1 < 2 ^ 32 }
    // Exactly the files that the requests ask for, in the order in which they are found, with their links.
    ensures gathered { IfOk result (Gathers (setting (F.held files.old) (map string_bytes roots.now) (map string_bytes dirs.now))) }
    // Each refusal exactly where the next request ends in it.
    ensures fault { IfErr result (IsFault (setting (F.held files.old) (map string_bytes roots.now) (map string_bytes dirs.now))) }
    // There are as many roots as names, and each gathered file has words.
    ensures roots { IfOk result (λ g. root_count g ≡ length roots.now) }
    ensures words { IfOk result HaveWords }
    ensures failed { IsErrOf result GatherFault.Read → Rose (F.faults files.old) (F.faults files.new) }
    ensures count { F.faults files.old ≤ F.faults files.new }
    ensures held { F.held files.new ≡ F.held files.old }
{
    let mut state = Gathering::new(alloc);
    let mut place: u32 = 0;
    for root in roots {
        match add_root(alloc, files, &mut state, root) {
            Ok(true) => {}
            Ok(false) => return Err(GatherFault::RootAbsent(place)),
            Err(trouble) => return Err(fault_of(trouble, state)),
        }
        place += 1;
    }
    let mut file: u32 = 0;
    while file < state.sources.count() {
        if let Err(trouble) = follow(files, dirs, &mut state, file) {
            return Err(fault_of(trouble, state));
        }
        file += 1;
    }
    Ok(state.sources)
}

/// The answer where a file isn't gathered.
fn fault_of(trouble: Trouble, state: Gathering) -> GatherFault
    ensures { result ≡ fault_with trouble state }
{
    match trouble {
        Trouble::Read => GatherFault::Read,
        Trouble::Refused(refusal) => GatherFault::Refused(refusal, state.sources),
        Trouble::Over(limit) => GatherFault::Over(limit),
        Trouble::Memory => GatherFault::Memory,
    }
}

/// Gathers the next root; `false` where there is no such file.
fn add_root<F: Files>(
    alloc: Global,
    files: &mut F,
    state: &mut Gathering,
    root: &String,
) -> Result<bool, Trouble>
    requires stands { Stands (F.held files.old) state.old }
    requires few { root_count state.old.sources + 1 < 2 ^ 32 }
    ensures stands { OnOk result (Stands (F.held files.old) state.new) }
    ensures grows { OnOk result (Grows state.old state.new) }
    ensures there { IfOk result (λ there. IsTrue there → (dirs : List (List ℕ)) → Steps (F.held files.old) dirs state.old state.new (Root (string_bytes root.now))) }
    ensures counted { IfOk result (λ there. IsTrue there → root_count state.new.sources ≡ root_count state.old.sources + 1) }
    ensures lacking { IfOk result (λ there. IsFalse there → Lacks (F.held files.old) (string_bytes root.now) × Keeps state.old state.new) }
    ensures cause { IfErr result (λ trouble. (dirs : List (List ℕ)) → Stops (F.held files.old) dirs state.old state.new (Root (string_bytes root.now)) trouble) }
    ensures failed { IsErrOf result Trouble.Read → Rose (F.faults files.old) (F.faults files.new) }
    ensures count { F.faults files.old ≤ F.faults files.new }
    ensures held { F.held files.new ≡ F.held files.old }
{
    let place = Place::File(TextBuf::of(String::from_str(alloc, root.as_str())?));
    match first_present(alloc, files, state, &[place], 0)? {
        None => Ok(false),
        Some(number) => {
            state.sources.push_root(number)?;
            Ok(true)
        }
    }
}

/// Follows the include lines of a file.
fn follow<F: Files>(
    files: &mut F,
    dirs: &[String],
    state: &mut Gathering,
    file: u32,
) -> Result<(), Trouble>
    requires stands { Stands (F.held files.old) state.old }
    requires there { file < count_of state.old.sources }
    ensures stands { OnOk result (Stands (F.held files.old) state.new) }
    ensures followed { OnOk result (Follows (F.held files.old) (map string_bytes dirs.now) state.old state.new file) }
    ensures cause { IfErr result (StopsFollowing (F.held files.old) (map string_bytes dirs.now) state.old state.new file) }
    ensures failed { IsErrOf result Trouble.Read → Rose (F.faults files.old) (F.faults files.new) }
    ensures count { F.faults files.old ≤ F.faults files.new }
    ensures held { F.held files.new ≡ F.held files.old }
{
    let known = state.known_of(file);
    if known.depth > MOST_NESTED {
        return Ok(());
    }
    let depth = known.depth + 1;
    let count = known.includes.as_slice().len();
    for at in 0..count {
        follow_line(files, dirs, state, file, at, depth)?;
    }
    Ok(())
}

/// Follows one include line of a file, by its place among the include lines; `depth` is the number of includes
/// in the chain that leads to what it includes.
fn follow_line<F: Files>(
    files: &mut F,
    dirs: &[String],
    state: &mut Gathering,
    file: u32,
    at: usize,
    depth: u32,
) -> Result<(), Trouble>
    requires stands { Stands (F.held files.old) state.old }
    requires there { file < count_of state.old.sources }
    requires at_there { at < length (known_at state.old.known.items file).includes }
    ensures stands { OnOk result (Stands (F.held files.old) state.new) }
    ensures grows { OnOk result (Grows state.old state.new) }
    ensures followed { OnOk result (Steps (F.held files.old) (map string_bytes dirs.now) state.old state.new (Line file depth (slice_index_or (known_at state.old.known.items file).includes at no_include))) }
    ensures cause { IfErr result (Stops (F.held files.old) (map string_bytes dirs.now) state.old state.new (Line file depth (slice_index_or (known_at state.old.known.items file).includes at no_include))) }
    ensures failed { IsErrOf result Trouble.Read → Rose (F.faults files.old) (F.faults files.new) }
    ensures count { F.faults files.old ≤ F.faults files.new }
    ensures held { F.held files.new ≡ F.held files.old }
{
    let alloc = state.alloc;
    let include = state.include_at(file, at);
    let from = state.sources.name(file);
    let places = candidates(alloc, dirs, from, include)?;
    if let Some(to) = first_present(alloc, files, state, &places, depth)? {
        state.link(file, at, to)?;
    }
    Ok(())
}

/// The number of the file at the first of these places at which there is one.
fn first_present<F: Files>(
    alloc: Global,
    files: &mut F,
    state: &mut Gathering,
    places: &[Place],
    depth: u32,
) -> Result<Option<u32>, Trouble>
    requires { Stands (F.held files.old) state.old }
    ensures stands { OnOk result (Stands (F.held files.old) state.new) }
    ensures found { IfOk result (FindsFirst (F.held files.old) state.old state.new places.now depth) }
    ensures cause { IfErr result (FailsFirst (F.held files.old) state.old state.new places.now) }
    ensures failed { IsErrOf result Trouble.Read → Rose (F.faults files.old) (F.faults files.new) }
    ensures count { F.faults files.old ≤ F.faults files.new }
    ensures held { F.held files.new ≡ F.held files.old }
{
    for place in places {
        if let Some(number) = locate(alloc, files, state, place, depth)? {
            return Ok(Some(number));
        }
    }
    Ok(None)
}
