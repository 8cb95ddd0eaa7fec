//! Where the file of an include line is looked for (C99 6.10.2).

ghost use Rattle.std.specs.Prelude.{◌≡◌, [], ◌∷◌, ◌++◌, IfOk, OnOk, IfSome, IfNone, map, string_bytes, true, false};
ghost use Rattle.p10_expand.specs.Candidates.{candidates_of, directory_of, in_directories, is_no_name};

use crate::place::{Include, Place};
use p10_base::{ListBuf, TextBuf};
use std::alloc::{AllocError, Global};

/// The candidates of an include line of the file `from`, in the order in which they are looked for.
pub fn candidates(
    alloc: Global,
    dirs: &[String],
    from: &str,
    include: &Include,
) -> Result<Vec<Place>, AllocError>
    ensures { IfOk result (λ found. found.items ≡ candidates_of (map string_bytes dirs.now) from.now include.now) }
{
    let mut places = Vec::new(alloc);
    let Some(name) = name_of(include.name.as_slice()) else {
        return Ok(places);
    };
    if name.as_bytes()[0] == b'/' {
        push_file(alloc, &mut places, "", name)?;
    } else if include.angle {
        push_header(alloc, &mut places, name)?;
        push_directories(alloc, &mut places, dirs, name)?;
    } else {
        push_file(alloc, &mut places, directory(from), name)?;
        push_directories(alloc, &mut places, dirs, name)?;
        push_header(alloc, &mut places, name)?;
    }
    Ok(places)
}

/// The name that an include line has, if a place can have it.
#[tactic(auto, using(crate::proofs::Naming::naming))]
fn name_of(name: &[u8]) -> Option<&str>
    ensures some { IfSome result (λ text. text.now ≡ name.now × is_no_name name.now ≡ false) }
    ensures none { IfNone result (is_no_name name.now ≡ true) }
{
    if name.is_empty() || name.contains(&0) {
        return None;
    }
    match str::from_utf8(name) {
        Ok(text) => Some(text),
        Err(_) => None,
    }
}

/// The text of a file's name up to and including its last `/`.
fn directory(name: &str) -> &str
    ensures { result.now ≡ directory_of name.now }
{
    match name.rfind('/') {
        Some(last) => &name[..last + 1],
        None => "",
    }
}

/// Puts the places of a name in each of the directories after the others.
#[tactic(auto, using(crate::proofs::Naming::naming))]
fn push_directories(
    alloc: Global,
    places: &mut Vec<Place>,
    dirs: &[String],
    name: &str,
) -> Result<(), AllocError>
    ensures { OnOk result (places.new.items ≡ places.old.items ++ in_directories (map string_bytes dirs.now) name.now) }
{
    for dir in dirs {
        let mut front = String::from_str(alloc, dir.as_str())?;
        front.push_str("/")?;
        push_file(alloc, places, &front, name)?;
    }
    Ok(())
}

/// Puts the file whose name is these two texts, joined, after the others.
fn push_file(
    alloc: Global,
    places: &mut Vec<Place>,
    front: &str,
    name: &str,
) -> Result<(), AllocError>
    ensures { OnOk result (places.new.items ≡ places.old.items ++ Place.File (front.now ++ name.now) ∷ []) }
{
    let mut joined = String::from_str(alloc, front)?;
    joined.push_str(name)?;
    places.push(Place::File(TextBuf::of(joined)))?;
    Ok(())
}

/// Puts the built-in header with this name after the others.
fn push_header(alloc: Global, places: &mut Vec<Place>, name: &str) -> Result<(), AllocError>
    ensures { OnOk result (places.new.items ≡ places.old.items ++ Place.Header name.now ∷ []) }
{
    places.push(Place::Header(ListBuf::of(Vec::from_slice(alloc, name.as_bytes())?)))?;
    Ok(())
}
