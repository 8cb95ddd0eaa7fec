//! What holds of allocations: each law is the contract of a function without a body.

ghost use Rattle.p10_allocation.specs.Laws.{CallsWithoutAllocationsCountNothing, NothingIsAllocatedLate, KeptRuleAllocatesNothingLate};
ghost use Rattle.p10_allocation.specs.Samples.{SmallProgramsAllocate};

/// A call of a function that neither allocates nor frees, itself or through the functions that it calls, leaves the count of
/// allocations and `free`s after the mark as it was: in every program, at each depth, on all arguments, in every state.
pub fn calls_without_allocations_count_nothing()
    ensures { CallsWithoutAllocationsCountNothing }
{}

/// In a whole program in which no call in `main` after the mark `init_done` allocates or frees, itself or through functions, no
/// run executes an allocation or a `free` after the mark: in every world, with all budgets, for each number of turns. Where there is no
/// mark, this is of all calls in `main`, and of whole runs. So a program that violates row 3.1 of the rules nowhere allocates in its initialisation alone.
pub fn nothing_is_allocated_late()
    ensures list { NothingIsAllocatedLate }
    ensures rule { KeptRuleAllocatesNothingLate }
{}

/// What small programs allocate, by hand: before the mark, after it, and through a function. One that isn't whole, since another function passes
/// the mark, allocates after it with no late allocation: so the laws ask for whole programs.
pub fn small_programs_allocate()
    ensures { SmallProgramsAllocate }
{}
