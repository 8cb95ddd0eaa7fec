//! Finding the file at a place.

ghost use Rattle.std.specs.Prelude.{◌≡◌, ◌≤◌, ◌<◌, ℕ, true, Ok, None, IsOk, OnOk, IfOk, IfErr, IsErrOf, bytes_eq, length};
ghost use Rattle.std.specs.List.{list_any};
ghost use Rattle.p10_expand.specs.Gathering.{IsAt, IsNew};
ghost use Rattle.p10_expand.specs.private.Standing.{Stands, IsFound, Fails};
ghost use Rattle.p10_world.specs.Faults.{Rose};

use crate::fault::Trouble;
use crate::gathering::Gathering;
use crate::headers::built_in;
use crate::place::Place;
use p10_base::{Limit, ListBuf, TextBuf};
use p10_world::{FileFault, Files};
use std::alloc::Global;

/// The most bytes of a source file (M1), and one more, by which a longer one is known.
const ENOUGH: u64 = Limit::MOST_FILE_BYTES + 1;

/// The most gathered files that are no built-in headers (M7).
const MOST_FILES: usize = Limit::MOST_FILES as usize;

/// The number of the file at a place, which is gathered now if it wasn't before; `depth` is then the
/// length of the chain of includes that leads to it. `None` where there is no such file.
pub fn locate<F: Files>(
    alloc: Global,
    files: &mut F,
    state: &mut Gathering,
    place: &Place,
    depth: u32,
) -> Result<Option<u32>, Trouble>
    requires { Stands (F.held files.old) state.old }
    // A file that was gathered isn't asked for again, so no read of it fails.
    ensures again { (number : ℕ) → IsAt state.old.known.items place.now number → IsOk result }
    ensures stands { OnOk result (Stands (F.held files.old) state.new) }
    ensures found { IfOk result (IsFound (F.held files.old) state.old state.new place.now depth) }
    ensures cause { IfErr result (Fails (F.held files.old) state.old state.new place.now) }
    ensures failed { IsErrOf result Trouble.Read → Rose (F.faults files.old) (F.faults files.new) }
    ensures count { F.faults files.old ≤ F.faults files.new }
    ensures held { F.held files.new ≡ F.held files.old }
{
    if let Some(number) = state.number_of(place) {
        return Ok(Some(number));
    }
    match place {
        Place::File(name) => load(alloc, files, state, name.as_str(), depth),
        Place::Header(name) => match built_in(name.as_slice()) {
            None => Ok(None),
            Some(header) => {
                let place = Place::Header(ListBuf::of(Vec::from_slice(alloc, name.as_slice())?));
                let whole = String::from_str(alloc, header.name)?;
                let text = Vec::from_slice(alloc, header.text)?;
                Ok(Some(state.add(place, whole, text, depth)?))
            }
        },
    }
}

/// The number of the file with this name, which wasn't gathered before.
fn load<F: Files>(
    alloc: Global,
    files: &mut F,
    state: &mut Gathering,
    name: &str,
    depth: u32,
) -> Result<Option<u32>, Trouble>
    requires stands { Stands (F.held files.old) state.old }
    requires new { IsNew state.old.known.items (Place.File name.now) }
    // A name that was found absent isn't asked for again, so no read of it fails.
    ensures again { list_any (λ other. bytes_eq other name.now) state.old.absent ≡ true → result ≡ Ok None }
    ensures noted { IfOk result (λ found. found ≡ None → list_any (λ other. bytes_eq other name.now) state.new.absent ≡ true) }
    ensures stands { OnOk result (Stands (F.held files.old) state.new) }
    ensures found { IfOk result (IsFound (F.held files.old) state.old state.new (Place.File name.now) depth) }
    ensures cause { IfErr result (Fails (F.held files.old) state.old state.new (Place.File name.now)) }
    ensures failed { IsErrOf result Trouble.Read → Rose (F.faults files.old) (F.faults files.new) }
    ensures count { F.faults files.old ≤ F.faults files.new }
    ensures held { F.held files.new ≡ F.held files.old }
{
    if state.lacks(name) {
        return Ok(None);
    }
    let mut text = Vec::new(alloc);
    match files.read(alloc, name, ENOUGH, &mut text) {
        Ok(()) => {
            if state.present() >= MOST_FILES {
                return Err(Trouble::Over(Limit::FILES));
            }
            let place = Place::File(TextBuf::of(String::from_str(alloc, name)?));
            let whole = String::from_str(alloc, name)?;
            Ok(Some(state.add(place, whole, text, depth)?))
        }
        Err(FileFault::Absent) => {
            state.absent.add(String::from_str(alloc, name)?)?;
            Ok(None)
        }
        Err(FileFault::Failed) => Err(Trouble::Read),
        Err(FileFault::Memory) => Err(Trouble::Memory),
    }
}
