//! The answer to `gen`: the file is made, gathered and read.

ghost use Rattle.std.specs.Prelude.{◌≡◌, IfOk};
ghost use Rattle.p10_command.specs.Gathering.{AreGathered};
ghost use Rattle.p10_expand.specs.Gathering.{HaveWords};
ghost use Rattle.p10_gen_command.specs.Answers.{IsRight, setting_of, unread_answer};
ghost use Rattle.p10_gen_command.specs.private.Deciding.{answer_by, setting_with, IsRightFor};

use crate::answer::{Answer, Stage};
use crate::program::answer_of_reading;
use p10_base::{Sources, TextBuf};
use p10_command::{
    GatheredRoots, ReadSources, Trouble, Ungathered, Unread, gather_roots, read_sources, release,
};
use p10_gen::{GenFault, generated};
use p10_world::SureFiles;
use std::alloc::{AllocError, Global};

/// The name of the generated file.
const FILE_NAME: &str = "gen.c";

/// The answer for the program of `functions` functions.
pub fn answer_to(alloc: Global, functions: u64) -> Answer
    ensures { IsRight (setting_of functions) result }
{
    match decide(alloc, functions) {
        Ok(answer) => answer,
        Err(_) => Answer::OutOfMemory,
    }
}

/// The answer for the program of `functions` functions, whose file is made first.
///
/// # Errors
///
/// Out of memory.
fn decide(alloc: Global, functions: u64) -> Result<Answer, AllocError>
    ensures { IfOk result (IsRight (setting_of functions)) }
{
    match generated(alloc, functions) {
        Ok(text) => answer_of_text(alloc, text),
        Err(fault) => match fault {
            GenFault::Over(limit) => Ok(Answer::Over(limit)),
            GenFault::Memory => Err(AllocError),
        },
    }
}

/// The answer where the file has this text.
///
/// # Errors
///
/// Out of memory.
fn answer_of_text(alloc: Global, text: Vec<u8>) -> Result<Answer, AllocError>
    ensures { IfOk result (IsRight (setting_with text.items)) }
{
    match gather_text(alloc, text)? {
        GatheredRoots::All(sources) => answer_of_sources(alloc, &sources),
        GatheredRoots::Stopped(why, _) => Ok(answer_by(why)),
    }
}

/// Gathers the sources where the only file has this text. No read of it fails.
///
/// # Errors
///
/// Out of memory.
fn gather_text(alloc: Global, text: Vec<u8>) -> Result<GatheredRoots, AllocError>
    ensures { IfOk result (AreGathered (setting_with text.items)) }
{
    let mut files = SureFiles::new(alloc);
    files.add(String::from_str(alloc, FILE_NAME)?, text)?;
    let mut roots = Vec::new(alloc);
    roots.push(TextBuf::of(String::from_str(alloc, FILE_NAME)?))?;
    match gather_roots(alloc, &mut files, &roots, &[]) {
        Ok(found) => Ok(found),
        Err(trouble) => match trouble {
            Trouble::Read => unreachable!(),
            Trouble::Memory => Err(AllocError),
        },
    }
}

/// The answer where the file isn't gathered.
fn answer_by(why: Ungathered) -> Answer
    ensures { result ≡ answer_by why }
{
    match why {
        Ungathered::Over(limit) => Answer::Over(limit),
        Ungathered::AbsentRoot(_) => Answer::Fails(Stage::Reading),
        Ungathered::Refused(_) => Answer::Fails(Stage::Reading),
    }
}

/// The answer where these are the sources.
///
/// # Errors
///
/// Out of memory.
fn answer_of_sources(alloc: Global, sources: &Sources) -> Result<Answer, AllocError>
    requires { HaveWords sources.now }
    ensures { IfOk result (IsRightFor sources.now) }
{
    match read_sources(alloc, sources)? {
        ReadSources::Program(reading) => {
            let answer = answer_of_reading(alloc, &reading);
            release(reading);
            answer
        }
        ReadSources::Unread(why) => Ok(unread_answer(why)),
    }
}

/// The answer where the sources are no program.
fn unread_answer(why: Unread) -> Answer
    ensures { result ≡ unread_answer why }
{
    match why {
        Unread::Over(limit) => Answer::Over(limit),
        Unread::Refused(_) => Answer::Fails(Stage::Reading),
    }
}
