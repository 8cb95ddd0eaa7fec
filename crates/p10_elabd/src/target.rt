//! Where address constants point to (C99 6.6p9).

use p10_base::At;

/// Where an address constant points to. A single object is an array of one.
#[derive(Clone, Copy, Debug)]
pub enum Target {
    /// Nowhere: it is null.
    Nowhere,
    /// To a position of an array with a length.
    InArray(u64, u64),
}

/// What is known of an address.
#[derive(Clone, Copy, Debug)]
pub struct Weighed {
    /// The smallest part that stops, if there is one.
    pub stop: Option<At>,
    /// Where it points to, if it is an address constant that doesn't stop.
    pub target: Option<Target>,
}
