//! What the commands of `p10` share: their sources, and what is said where these are no program.
//!
//! Entry points: [`gather_roots`], which gathers the sources of a command by their names, [`load`], which reads another file that
//! it names, and [`read_sources`], which reads what was gathered. Each gives what was asked for, or why there is none, with a status
//! and one line on the error output:
//!
//! | Why | Status | Line | Told by |
//! |---|---|---|---|
//! | [`Ungathered`]: an absent root, X1 to X6, M1, M2, M7 | 9, 3, 8 | `p10: absent: a.c` | [`put_ungathered`] |
//! | [`Unread`]: D1 to D8, G1, S1 to S30; M3 to M6, M8 | 3, 8 | `a.c:1:5: refused S1: unknown name` | [`put_unread`] |
//! | [`Trouble`]: a read failed, or no memory | 5, 7 | `p10: read fault` | [`put_trouble`] |
//!
//! [`tell_ungathered`], [`tell_unread`], [`tell_trouble`] and [`tell_limit`] give the status as well.
//!
//! Invariant: where the files are told, each comes exactly where it is right, unless a read fails or memory runs out. What a command does with its
//! program is left to the crates above.
#![tactic(auto)]

mod gathering;
mod loading;
mod reading;
mod telling;
mod texts;
mod trouble;

pub use gathering::{GatheredRoots, Ungathered, gather_roots, put_ungathered};
pub use loading::load;
pub use reading::{ReadSources, Unread, put_unread, read_sources, release};
pub use telling::{tell_limit, tell_trouble, tell_ungathered, tell_unread};
pub use texts::strings;
pub use trouble::{Trouble, put_trouble};
