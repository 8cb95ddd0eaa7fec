//! What stands for the variables of open calls.

use p10_meaning::Cell;

/// What stands for a variable in an open frame.
#[derive(Clone, Copy, Debug)]
pub enum Held {
    /// The cell of a frame variable.
    Holds(Cell),
    /// The number of the object that the variable is.
    Stands(u128),
    /// Its declaration wasn't executed yet.
    Absent,
}
