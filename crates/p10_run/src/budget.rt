//! How far a run may go.

ghost use Rattle.std.specs.Prelude.{◌≡◌};
ghost use Rattle.p10_run.specs.Budgets.{budget_of_steps, budget_within};

use p10_base::Bounds;

/// How many steps and turns a run may take, and which request for memory it is denied.
#[derive(Clone, Copy, Debug, PartialEq, Eq)]
pub struct Budget {
    /// The steps of `main`, or of the part before its task loop and that loop's own step.
    pub prefix: u64,
    /// The steps of each turn of the task loop; none that a turn leaves go to the next.
    pub turn: u64,
    /// The most turns of the task loop. A program without one takes none.
    pub turns: u64,
    /// The number, from 1, of the request that `malloc` or `calloc` is denied; 0 denies none.
    pub denied: u64,
    /// The bounds of an accepted certificate, for which room is made before the run; none where they aren't known.
    pub room: Option<Bounds>,
}

impl Budget {
    /// `steps` steps for the part before the task loop, and afresh as many for each turn; at most `turns` turns. The request for memory with
    /// the number `denied`, from 1, is denied, and none at 0.
    pub fn of_steps(steps: u64, turns: u64, denied: u64) -> Budget
        ensures { result ≡ budget_of_steps steps turns denied }
    {
        Budget {
            prefix: steps,
            turn: steps,
            turns,
            denied,
            room: None,
        }
    }

    /// The steps of bounds, for the part before the task loop and for each of its turns; `turns` and `denied` as in [`Budget::of_steps`]. Room
    /// for a run within the bounds is made before it.
    pub fn within(bounds: &Bounds, turns: u64, denied: u64) -> Budget
        ensures { result ≡ budget_within bounds.now turns denied }
    {
        Budget {
            prefix: bounds.prefix,
            turn: bounds.turn,
            turns,
            denied,
            room: Some(*bounds),
        }
    }
}
