//! What comes of all that is known of the roots.

ghost use Rattle.std.specs.Prelude.{◌≡◌, ◌++◌, [], map, length, None};
ghost use Rattle.p10_syn.specs.BuiltStatements.{external_of};
ghost use Rattle.p10_core.specs.Views.{plain_function, plain_program};
ghost use Rattle.p10_program.specs.Mains.{calls_of_main, missing_main};
ghost use Rattle.p10_program.specs.ProgramNodes.{nodes_of_program};
ghost use Rattle.p10_elab.specs.declared.fault.ElabFault.TheVariants.{Refused};
ghost use Rattle.p10_elab.specs.Answers.{refusal_of, IsElaborated};
ghost use Rattle.p10_elab.specs.KnownViews.{plain_known};
ghost use Rattle.p10_elab.specs.Programs.{main_among, program_of, names_settled, settled, unless_problem, within_sizes};

use crate::fault::ElabFault;
use crate::known::Known;
use crate::numbered::objects_of;
use crate::use_words::use_at_word;
use p10_base::{Family, Limit, Refusal};
use p10_core::{Func, Program};
use p10_elabx::Problem;
use p10_linkage::is_main_name;
use p10_program::{is_too_large, main_problem_in, program_with, undefined_in};
use p10_syn::Unit;
use std::alloc::Global;

/// What a program is made of.
#[derive(Clone, Copy)]
pub(crate) struct Ground<'u, 's> {
    pub alloc: Global,
    /// The trees of all roots.
    pub units: &'u [Unit<'s>],
}

/// What comes of all that is known of the roots, where `count` objects are defined: the first row that holds in their declarations,
/// else what comes of their program.
pub(crate) fn settle<'s>(
    ground: Ground<'_, 's>,
    count: usize,
    known: Known<'s>,
) -> Result<Program<'s>, ElabFault>
    ensures { IsElaborated (settled (map external_of ground.entry.units.now) count (plain_known known.entry).standing (plain_known known.entry)) result }
{
    match known.standing.problem {
        Some(problem) => Err(refused(problem)),
        None => settle_program(ground, count, known),
    }
}

/// What comes of the program of all that is known.
fn settle_program<'s>(
    ground: Ground<'_, 's>,
    count: usize,
    known: Known<'s>,
) -> Result<Program<'s>, ElabFault>
    ensures { IsElaborated (names_settled (map external_of ground.entry.units.now) (length (plain_known known.entry).functions) count (main_among (plain_known known.entry).functions) (plain_known known.entry).mains (program_of count (plain_known known.entry).standing (plain_known known.entry))) result }
{
    let alloc = ground.alloc;
    let standing = known.standing;
    let scope = standing.scope;
    let types = scope.types;
    let functions = known.functions;
    let visible = known.visible;
    let mains = known.mains;
    let outside = known.outside;
    let block_objects = known.block_objects;
    let defined = known.objects;
    let number = functions.as_slice().len();
    let main = main_among(functions.as_slice());
    let objects = objects_of(
        alloc,
        count,
        &types,
        visible.as_slice(),
        block_objects,
        defined,
    )?;
    let program = program_with(alloc, types, objects, functions, main, outside)?;
    settle_names(ground, number, count, main, mains.as_slice(), program)
}

/// What comes of a program, by how many functions and objects are defined, the number of `main` and what is wrong with its
/// declarations.
fn settle_names<'s>(
    ground: Ground<'_, 's>,
    functions: usize,
    objects: usize,
    main: Option<usize>,
    mains: &[Problem],
    program: Program<'s>,
) -> Result<Program<'s>, ElabFault>
    ensures { IsElaborated (names_settled (map external_of ground.entry.units.now) functions objects main mains.now (plain_program program.entry)) result }
{
    let found = undefined_in(ground.alloc, functions, objects, &program)?;
    match found {
        Some(problem) => {
            let told = use_at_word(ground.units, problem);
            Err(refused(told))
        }
        None => settle_main(ground.alloc, main, mains, program),
    }
}

/// What comes of a program that uses only what is defined.
fn settle_main<'s>(
    alloc: Global,
    main: Option<usize>,
    mains: &[Problem],
    program: Program<'s>,
) -> Result<Program<'s>, ElabFault>
    ensures { IsElaborated (unless_problem (missing_main main (mains.now ++ calls_of_main main (nodes_of_program (plain_program program.entry)))) (within_sizes (plain_program program.entry))) result }
{
    let found = main_problem_in(alloc, main, mains, &program)?;
    match found {
        Some(problem) => Err(refused(problem)),
        None => within_sizes(program),
    }
}

/// A program, unless something of it is too large.
fn within_sizes<'s>(program: Program<'s>) -> Result<Program<'s>, ElabFault>
    ensures { IsElaborated (within_sizes (plain_program program.entry)) result }
{
    if is_too_large(&program) {
        return Err(ElabFault::Over(Limit::OBJECT_BYTES));
    }
    Ok(program)
}

/// A row that holds, as a refusal.
fn refused(problem: Problem) -> ElabFault
    ensures { result ≡ Refused (refusal_of problem) }
{
    ElabFault::Refused(Refusal {
        family: Family::S,
        number: problem.code as u8,
        span: problem.at.span,
    })
}

/// The number of `main` among functions, if it is there.
fn main_among(functions: &[Func<'_>]) -> Option<usize>
    ensures { result ≡ main_among (map plain_function functions.now) }
{
    for (place, function) in functions.iter().enumerate() {
        if is_main_name(function.name) {
            return Some(place);
        }
    }
    None
}
