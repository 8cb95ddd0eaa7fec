//! Where a machine stands between its calls.

ghost use Rattle.std.specs.Prelude.{◌≡◌, List};
ghost use Rattle.p10_interp.specs.private.Tasks.{Open};

use crate::ended::Ended;

/// Where a machine stands between its calls.
#[derive(Clone, Copy, Debug)]
pub enum Place {
    /// Nothing was run yet.
    Fresh,
    /// A turn of the task loop comes next.
    AtLoop,
    /// The run has ended, or was given up.
    Finished,
}

impl Place {
    ghost use Rattle.p10_interp.specs.Resting.{is_paused};
    ghost use Rattle.p10_interp.specs.private.Parts.{frame_in};
    ghost use Rattle.p10_interp.specs.private.Placing.{position_of, stands_after};

    /// Where a machine stands after an answer.
    pub fn after(ended: Ended) -> Place
        ensures { (calls : List Open) → position_of result calls ≡ stands_after ended (frame_in calls) }
    {
        match ended {
            Ended::AtLoop => Place::AtLoop,
            Ended::TurnDone => Place::AtLoop,
            Ended::Returned(_) => Place::Finished,
            Ended::AssertionFailed(_) => Place::Finished,
            Ended::Undefined(_, _) => Place::Finished,
            Ended::StepsSpent => Place::Finished,
        }
    }

    /// Whether a turn comes next.
    pub fn is_at_loop(self) -> bool
        ensures { (calls : List Open) → result ≡ is_paused (position_of self calls) }
    {
        match self {
            Place::Fresh => false,
            Place::AtLoop => true,
            Place::Finished => false,
        }
    }
}
