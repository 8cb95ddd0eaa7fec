//! The structures of a program (C99 6.7.2.1).

use crate::c_type::CType;
use p10_base::ListBuf;

/// A member of a structure.
#[derive(Drop)]
pub struct Member<'s> {
    pub name: &'s [u8],
    pub ty: CType,
}

/// The body of a complete structure.
#[derive(Drop)]
pub struct Body<'s> {
    pub members: ListBuf<Member<'s>>,
    /// How many bodies were completed before this one. A member has a complete type (C99 6.7.2.1p2), so the
    /// structures that a body contains come before it.
    pub order: u32,
    /// The size in bytes.
    pub bytes: u64,
    /// The alignment in bytes.
    pub alignment: u64,
    /// How many scalars it has, its members' members included.
    pub scalars: u64,
    /// Whether a part of it is `const`, so that it can't be assigned (C99 6.3.2.1p1).
    pub has_const: bool,
}

/// A structure, which is incomplete until its body was read (C99 6.2.5p22).
#[derive(Drop)]
pub struct Structure<'s> {
    pub tag: Option<&'s [u8]>,
    pub body: Option<Body<'s>>,
    /// The number of the structure that stands for this one and for those of other roots that are compatible with it
    /// (C99 6.2.7): its own where there are none.
    pub representative: u32,
}
