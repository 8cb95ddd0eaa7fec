//! Objects that roots define outside of functions (C99 6.9.2).

use p10_core::{CType, Initializer};
use p10_syn::Identifier;

/// An object that a root defines outside of functions.
#[derive(Drop)]
pub struct OuterObject<'s> {
    /// Its number among all objects.
    pub number: u32,
    pub name: Identifier<'s>,
    pub ty: CType,
    /// What it holds at first.
    pub initializer: Initializer,
    /// Whether it is a sensor.
    pub sensor: bool,
}

/// A declaration of an object that defines it unless another one does (C99 6.9.2p2).
#[derive(Drop)]
pub struct Tentative<'s> {
    pub name: Identifier<'s>,
    pub ty: CType,
}

/// Where an object is first declared in a root.
#[derive(Clone, Copy, Debug)]
pub struct Sighting {
    /// Its number among all objects.
    pub number: u32,
    /// How many functions stood before.
    pub from: u32,
}
