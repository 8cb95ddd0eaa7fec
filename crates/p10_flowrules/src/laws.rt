//! What holds of the end of the task loop and of calls that allocate: each law is the contract of a function without a body.

ghost use Rattle.p10_flowrules.specs.Laws.{AllocatingIsByCalls, LateAllocationsAreOneList, LoopsAreLeft};

/// What leaves a loop, on a loop with each kind of statement that might.
pub fn loops_are_left()
    ensures { LoopsAreLeft }
{}

/// A function allocates or frees exactly where its body does, or a function that it calls.
pub fn allocating_is_by_calls()
    ensures { AllocatingIsByCalls }
{}

/// The calls after the mark that allocate or free are one list.
pub fn late_allocations_are_one_list()
    ensures { LateAllocationsAreOneList }
{}
