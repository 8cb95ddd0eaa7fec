//! What holds of ranks and of recursive calls: each law is the contract of a function without a body.

ghost use Rattle.p10_calls.specs.Laws.{EachGraphIsOfCalls, NoRanksOnCycles, RanksAreUnique, RanksExist, RanksMeanNoRecursion, RecursiveCallsAreOneList};

/// A graph has at most one list of ranks.
pub fn ranks_are_unique()
    ensures { RanksAreUnique }
{}

/// A graph with ranks has no cycle.
pub fn no_ranks_on_cycles()
    ensures { NoRanksOnCycles }
{}

/// The recursive calls of a program are one list.
pub fn recursive_calls_are_one_list()
    ensures { RecursiveCallsAreOneList }
{}

/// A graph without cycles has ranks.
pub fn ranks_exist()
    ensures { RanksExist }
{}

/// Where functions have ranks, no call is recursive.
pub fn ranks_mean_no_recursion()
    ensures { RanksMeanNoRecursion }
{}

/// Every graph is that of the calls of some program.
pub fn each_graph_is_of_calls()
    ensures { EachGraphIsOfCalls }
{}
