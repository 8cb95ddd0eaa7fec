//! What the public calls of the pass find.

use crate::left::{Fail, Weak};
use p10_absx::Env;
use p10_range::Range;

/// What a pass finds: for each way in which statements end what is known then, `None` where no state ends so.
#[derive(Drop)]
pub struct Passed {
    pub normal: Option<Env>,
    pub breaks: Option<Env>,
    pub continues: Option<Env>,
    pub returns: Option<Env>,
    /// The hull of the ranges that are returned.
    pub returned: Option<Range>,
    /// The failing K3 and K5 to K7, by number and then in text order.
    pub fails: Vec<Fail>,
    /// The loops at which K8, K9 or K10 fails by the pass, in text order.
    pub weak: Vec<Weak>,
}
