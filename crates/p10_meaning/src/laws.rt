//! What holds of the meaning. Nothing runs here: each function stands for the laws that its contract states.

ghost use Rattle.p10_meaning.specs.Laws.{CallsHaveNoBound, StatementsHaveNoBound, LoopsHaveNoBound, ValuesHaveNoBound, RunsNeedNoMore};
ghost use Rattle.p10_meaning.specs.Sound.{CallsKeepSound, StatementsKeepSound, ValuesKeepSound, OpeningIsSound, ArraysAreSmall};
ghost use Rattle.p10_meaning.specs.SoundRuns.{FirstPartsKeepSound, TurnsKeepSound, FramesFitOn, TurnsEndAtLoop, RunsStaySound};
ghost use Rattle.p10_meaning.specs.Apart.{WritesChangeOne, ClosingEndsOne, OpeningAddsOne};
ghost use Rattle.p10_meaning.specs.Variables.{VariablesStay, ValuesLeaveFrames};
ghost use Rattle.p10_meaning.specs.Costs.{StepsAreCounted};
ghost use Rattle.p10_meaning.specs.OtherCosts.{OtherStepsAreCounted};
ghost use Rattle.p10_meaning.specs.Stopping.{RunsStop};
ghost use Rattle.p10_meaning.specs.OtherStops.{OthersStopToo};
ghost use Rattle.p10_meaning.specs.Tasks.{RunsGive};
ghost use Rattle.p10_meaning.specs.Turns.{TurnsGive};
ghost use Rattle.p10_meaning.specs.Edges.{EdgesAreSettled};

/// What comes of a call, a statement, a loop or a value doesn't depend on the bound of the recursion, as long as that is no
/// less than the steps that are left; so calls meet the plain recursion on trees and steps. More steps change no outcome except that
/// steps ran out. No step comes back, and objects, requests, greatest depths, the count after the mark and the output
/// only grow; what is executed before the mark isn't counted.
pub fn bound_never_counts()
    ensures calls { CallsHaveNoBound }
    ensures statements { StatementsHaveNoBound }
    ensures loops { LoopsHaveNoBound }
    ensures values { ValuesHaveNoBound }
{}

/// A run that doesn't run out of steps gives the same with greater budgets.
pub fn runs_need_no_more()
    ensures { RunsNeedNoMore }
{}

/// The opening state of a whole program is sound in every world, and runs keep sound states: each value stays one of its type,
/// and each pointer points into an object that was opened, where a path by its type leads. No array in an object has over
/// 2^40 elements.
pub fn sound_states_stay_sound()
    ensures opening { OpeningIsSound }
    ensures calls { CallsKeepSound }
    ensures statements { StatementsKeepSound }
    ensures values { ValuesKeepSound }
    ensures arrays { ArraysAreSmall }
{}

/// Whole runs keep sound states: the part of `main` before its task loop does, each turn of the loop does, and wherever a run comes
/// to the loop its state is sound and the frame of `main` fits it; a run that ends after a number of turns stands there. Frames of callers fit on, since objects are only added.
pub fn runs_stay_sound()
    ensures first { FirstPartsKeepSound }
    ensures turns { TurnsKeepSound }
    ensures frames { FramesFitOn }
    ensures runs { RunsStaySound }
    ensures end { TurnsEndAtLoop }
{}

/// A write changes the scalar at its pointer and no other. In a sound state an object that is closed is dead, one that is
/// opened has a number that no object had, and all others stay as they are.
pub fn objects_stay_apart()
    ensures writes { WritesChangeOne }
    ensures closing { ClosingEndsOne }
    ensures opening { OpeningAddsOne }
{}

/// No call changes a frame variable of its caller: whatever calls come to, a statement leaves each variable as it is that it
/// neither assigns nor declares, and an expression statement leaves the whole frame.
pub fn variables_stay()
    ensures statements { VariablesStay }
    ensures values { ValuesLeaveFrames }
{}

/// What each row of the table of steps costs, at small programs: with a step fewer its run runs out of steps.
pub fn steps_are_counted()
    ensures rows { StepsAreCounted }
    ensures others { OtherStepsAreCounted }
{}

/// Each of U1 to U12 at small programs, at the tree where it belongs, and which of several is tested first.
pub fn runs_stop()
    ensures each { RunsStop }
    ensures others { OthersStopToo }
{}

/// Whole runs of small programs: nested calls, worlds, marks and task loops, and how turns go on and end.
pub fn runs_give()
    ensures runs { RunsGive }
    ensures turns { TurnsGive }
{}

/// Edges that this profile settles: what is unset when, which part comes first, which pointers are equal, what a world gives, and
/// where jumps lead.
pub fn edges_are_settled()
    ensures { EdgesAreSettled }
{}
