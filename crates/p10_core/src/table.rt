//! The structures of a program, and what is known of types by them.

ghost use Rattle.std.specs.Prelude.{◌≡◌, ◌≤◌, length, map};
ghost use Rattle.p10_core.specs.Types.{plain_structure};
ghost use Rattle.p10_core.specs.Completing.{complete_count, AreBuilt};
ghost use Rattle.p10_core.specs.private.Proofs.{built_once};

use crate::c_type::{CType, TypeForm};
use crate::lay::Lay;
use crate::laying::lay_members;
use crate::members::{has_members, integer_bytes, place_of_member};
use crate::representing::{represent_all, representatives_of};
use crate::structures::{Body, Member, Structure};
use p10_base::ListBuf;
use std::alloc::{AllocError, Global};

/// The greatest size of a type in bytes.
pub const MOST_BYTES: u64 = 1_099_511_627_776;

/// The greatest number of structures.
const MOST_STRUCTURES: usize = 4_294_967_296;

/// The structures of a program, by their numbers.
#[derive(Drop)]
pub struct Types<'s> {
    structures: Vec<Structure<'s>>,
    /// How many of them are complete.
    bodies: usize,
    ghost few: { length structures.items ≤ 4294967296 },
    ghost counted: { bodies ≡ complete_count (map plain_structure structures.items) },
    ghost built: { AreBuilt (map plain_structure structures.items) } by { built_once (map plain_structure structures.items) },
}

impl<'s> Types<'s> {
    ghost use Rattle.std.specs.Prelude.{◌≡◌, ℕ, ◌<◌, ◌≤◌, ◌++◌, ◌*◌, ◌&&◌, nat_le, [], ◌∷◌, None, Some, length, IfOk, OnOk, OnErr, slice_get, option_map, option_copied, true, false, map, if◌then◌else◌};
    ghost use Rattle.p10_core.specs.Types.{plain_type, plain_structure, plain_body, plain_member, body_of, members_of, member_named, structure, array};
    ghost use Rattle.p10_core.specs.Views.{plain_types};
    ghost use Rattle.p10_core.specs.Sizes.{size_of, alignment_of, scalars_of, has_constant};
    ghost use Rattle.p10_core.specs.Rows.{is_complete, is_modifiable};
    ghost use Rattle.p10_core.specs.WholePrograms.{AreWholeStructures, IsWholeType, IsObjectType, most_bytes};
    ghost use Rattle.p10_core.specs.Completing.{with_structure, member_layout, completed, is_whole_type, is_object_type, are_objects, is_open_in, takes_members};
    ghost use Rattle.p10_core.specs.Representing.{representatives, represented};
    ghost use Rattle.p10_core.specs.private.Partials.{IsLay};

    /// No structures.
    pub fn new(alloc: Global) -> Types<'s>
        ensures { plain_types result ≡ [] }
    {
        Types {
            structures: Vec::new(alloc),
            bodies: 0,
        }
    }

    /// Declares a structure, which isn't complete, and gives its number (C99 6.7.2.3). Out of memory, or of numbers, nothing is
    /// declared.
    pub fn add(&mut self, tag: Option<&'s [u8]>) -> Result<u32, AllocError>
        ensures number { IfOk result (λ n. n ≡ length (plain_types self.old)) }
        ensures ok { OnOk result (plain_types self.new ≡ with_structure (plain_types self.old) (option_map (λ t. t.now) tag.entry)) }
        ensures err { OnErr result (plain_types self.new ≡ plain_types self.old) }
    {
        let count = self.structures.len();
        if count >= MOST_STRUCTURES {
            return Err(AllocError);
        }
        let number = count as u32;
        self.structures.push(Structure {
            tag,
            body: None,
            representative: number,
        })?;
        Ok(number)
    }

    /// How many structures there are.
    pub fn count(&self) -> usize
        ensures { result ≡ length (plain_types self.now) }
    {
        self.structures.len()
    }

    /// The structure with a number.
    pub fn structure(&self, number: u32) -> Option<&Structure<'s>>
        ensures { option_map plain_structure (option_copied result) ≡ slice_get (plain_types self.now) number }
    {
        self.structures.get(number as usize)
    }

    /// The body of the structure with a number, if it is complete.
    pub fn body(&self, number: u32) -> Option<&Body<'s>>
        ensures { option_map plain_body (option_copied result) ≡ body_of (plain_types self.now) number }
    {
        match self.structure(number) {
            Some(structure) => structure.body.as_ref(),
            None => None,
        }
    }

    /// The place of the member with a name in the structure with a number, if it has one.
    pub fn member_named(&self, number: u32, name: &[u8]) -> Option<usize>
        ensures { result ≡ member_named name.now (members_of (plain_types self.now) number) }
    {
        let body = self.body(number)?;
        place_of_member(body.members.as_slice(), name)
    }

    /// Whether a type has a size (C99 6.2.5).
    pub fn is_complete(&self, t: &CType) -> bool
        ensures { result ≡ is_complete (plain_types self.now) (plain_type t.now) }
    {
        match &t.form {
            TypeForm::Void => false,
            TypeForm::Int(_) | TypeForm::Pointer(_) => true,
            TypeForm::Array(element, _) => self.is_complete(element),
            TypeForm::Struct(number) => self.body(*number).is_some(),
        }
    }

    /// The size of a type in bytes (C99 6.5.3.4); 0 of a type that has none. It takes no memory.
    #[tactic(auto, unfolding(crate::specs::Sizes::layout_of))]
    pub fn size(&self, t: &CType) -> u64
        requires structures { AreWholeStructures (plain_types self.now) }
        requires whole { IsWholeType (plain_types self.now) (plain_type t.now) }
        ensures { result ≡ size_of (plain_types self.now) (plain_type t.now) }
    {
        match &t.form {
            TypeForm::Void => 0,
            TypeForm::Int(kind) => integer_bytes(*kind),
            TypeForm::Pointer(_) => 8,
            TypeForm::Array(element, length) => *length * self.size(element),
            TypeForm::Struct(number) => self.structure_size(*number),
        }
    }

    /// The alignment of a type in bytes; 1 of a type that has no size.
    #[tactic(auto, unfolding(crate::specs::Sizes::layout_of))]
    pub fn alignment(&self, t: &CType) -> u64
        requires structures { AreWholeStructures (plain_types self.now) }
        ensures { result ≡ alignment_of (plain_types self.now) (plain_type t.now) }
    {
        match &t.form {
            TypeForm::Void => 1,
            TypeForm::Int(kind) => integer_bytes(*kind),
            TypeForm::Pointer(_) => 8,
            TypeForm::Array(element, _) => self.alignment(element),
            TypeForm::Struct(number) => self.structure_alignment(*number),
        }
    }

    /// How many scalars a type of objects has, those of its parts included.
    #[tactic(auto, unfolding(crate::specs::Sizes::layout_of))]
    pub fn scalars(&self, t: &CType) -> u64
        requires object { IsObjectType (plain_types self.now) (plain_type t.now) }
        ensures { result ≡ length (scalars_of (plain_types self.now) (plain_type t.now)) }
    {
        match &t.form {
            TypeForm::Void => 0,
            TypeForm::Int(_) | TypeForm::Pointer(_) => 1,
            TypeForm::Array(element, length) => *length * self.scalars(element),
            TypeForm::Struct(number) => self.structure_scalars(*number),
        }
    }

    /// Whether a type or a part of it is `const`.
    #[tactic(auto, unfolding(crate::specs::Sizes::layout_of))]
    pub fn has_const(&self, t: &CType) -> bool
        requires structures { AreWholeStructures (plain_types self.now) }
        ensures { result ≡ has_constant (plain_types self.now) (plain_type t.now) }
    {
        match &t.form {
            TypeForm::Void | TypeForm::Int(_) | TypeForm::Pointer(_) => t.is_const,
            TypeForm::Array(element, _) => t.is_const | self.has_const(element),
            TypeForm::Struct(number) => t.is_const | self.structure_has_const(*number),
        }
    }

    /// Whether a place of the type can be assigned (C99 6.3.2.1p1).
    pub fn is_modifiable(&self, t: &CType) -> bool
        requires structures { AreWholeStructures (plain_types self.now) }
        ensures { result ≡ is_modifiable (plain_types self.now) (plain_type t.now) }
    {
        !t.is_array() && (self.is_complete(t) && !self.has_const(t))
    }

    /// The size of a structure; 0 where it isn't complete.
    fn structure_size(&self, number: u32) -> u64
        requires structures { AreWholeStructures (plain_types self.now) }
        requires there { number < length (plain_types self.now) }
        ensures { result ≡ size_of (plain_types self.now) (structure false number) }
    {
        match self.body(number) {
            Some(body) => body.bytes,
            None => 0,
        }
    }

    /// The alignment of a structure; 1 where it isn't complete.
    fn structure_alignment(&self, number: u32) -> u64
        requires structures { AreWholeStructures (plain_types self.now) }
        ensures { result ≡ alignment_of (plain_types self.now) (structure false number) }
    {
        match self.body(number) {
            Some(body) => body.alignment,
            None => 1,
        }
    }

    /// Whether a part of a structure is `const`; false where it isn't complete.
    fn structure_has_const(&self, number: u32) -> bool
        requires structures { AreWholeStructures (plain_types self.now) }
        ensures { result ≡ has_constant (plain_types self.now) (structure false number) }
    {
        match self.body(number) {
            Some(body) => body.has_const,
            None => false,
        }
    }

    /// How many scalars a structure has; none where it isn't complete.
    fn structure_scalars(&self, number: u32) -> u64
        ensures { result ≡ length (scalars_of (plain_types self.now) (structure false number)) }
    {
        match self.body(number) {
            Some(body) => body.scalars,
            None => 0,
        }
    }

    /// The numbers of the structures that stand for each one and for those of other roots that are compatible with it. It fails only where
    /// memory runs out.
    pub fn representatives(&self, alloc: Global) -> Result<Vec<u32>, AllocError>
        ensures { IfOk result (λ numbers. numbers.items ≡ representatives (plain_types self.now)) }
    {
        representatives_of(alloc, self.structures.as_slice())
    }

    /// Sets which structures stand for each one, by their numbers in order (C99 6.2.7).
    pub fn represent(&mut self, numbers: &[u32])
        requires as_many { length numbers.now ≡ length (plain_types self.old) }
        requires built { AreBuilt (represented (plain_types self.old) numbers.now) }
        ensures { plain_types self.new ≡ represented (plain_types self.old) numbers.now }
    {
        represent_all(self.structures.as_mut_slice(), numbers);
    }

    /// The structures are whole at each moment: what a body says of itself is so, and none contains itself.
    pub fn are_whole(&self)
        ensures { AreWholeStructures (plain_types self.now) }
    {}

    /// Whether a type is one of C over the structures that are there: an array has elements that have a size, at least one of
    /// them; no pointer points to `void`; and nothing is larger than a type may be.
    pub fn is_whole(&self, t: &CType) -> bool
        ensures { result ≡ is_whole_type (plain_types self.now) (plain_type t.now) }
    {
        match &t.form {
            TypeForm::Void | TypeForm::Int(_) => true,
            TypeForm::Pointer(target) => !target.is_void() && self.is_whole(target),
            TypeForm::Array(element, length) => {
                let whole = self.is_whole(element);
                self.array_is_whole(element, whole, *length)
            }
            TypeForm::Struct(number) => (*number as usize) < self.structures.len(),
        }
    }

    /// Whether an array of elements is one of C's types, where it is known whether that of the elements is.
    fn array_is_whole(&self, element: &CType, whole: bool, length: u64) -> bool
        requires whole { whole ≡ is_whole_type (plain_types self.now) (plain_type element.now) }
        ensures { result ≡ is_whole_type (plain_types self.now) (array false (plain_type element.now) length) }
    {
        let holds = self.is_complete(element) & whole;
        if holds {
            self.has_room(element, length)
        } else {
            false
        }
    }

    /// Whether an array of a type of objects has an element, and is no larger than a type may be.
    fn has_room(&self, element: &CType, length: u64) -> bool
        requires object { IsObjectType (plain_types self.now) (plain_type element.now) }
        ensures { result ≡ (nat_le 1 length && nat_le (length * size_of (plain_types self.now) (plain_type element.now)) most_bytes) }
    {
        1 <= length && self.size(element) <= MOST_BYTES / length
    }

    /// Whether a type is one of objects: it has a size, and is one of C.
    pub fn is_object(&self, t: &CType) -> bool
        ensures { result ≡ is_object_type (plain_types self.now) (plain_type t.now) }
    {
        self.is_complete(t) && self.is_whole(t)
    }

    /// Whether members may complete a structure: it isn't complete, there is a member, and each has a type with a size
    /// (C99 6.7.2.1p2, p7).
    pub fn takes_members(&self, number: u32, members: &[Member<'_>]) -> bool
        ensures { result ≡ takes_members (plain_types self.now) number (map plain_member members.now) }
    {
        (self.is_open(number) & has_members(members)) && self.are_objects(members)
    }

    /// Whether a structure isn't complete, and stands for itself.
    fn is_open(&self, number: u32) -> bool
        ensures { result ≡ is_open_in number (slice_get (plain_types self.now) number) }
    {
        match self.structure(number) {
            Some(structure) => structure.body.is_none() && structure.representative == number,
            None => false,
        }
    }

    /// Whether each member has a type with a size.
    fn are_objects(&self, members: &[Member<'_>]) -> bool
        ensures { result ≡ are_objects (plain_types self.now) (map plain_member members.now) }
    {
        for member in members {
            if !self.is_object(&member.ty) {
                return false;
            }
        }
        true
    }

    /// Completes a structure by its members (C99 6.7.2.1), unless they make it larger than a type may be: then nothing is
    /// changed.
    pub fn complete(&mut self, number: u32, members: Vec<Member<'s>>) -> bool
        requires takes { takes_members (plain_types self.old) number (map plain_member members.items) ≡ true }
        ensures small { result ≡ nat_le (member_layout (plain_types self.old) (map plain_member members.entry.items)).bytes most_bytes }
        ensures types { plain_types self.new ≡ (if result then completed (plain_types self.old) number (map plain_member members.entry.items) else plain_types self.old) }
    {
        match lay_members(self, members.as_slice()) {
            Some(lay) => {
                self.put_body(number, lay, members);
                true
            }
            None => false,
        }
    }

    /// Gives a structure its body.
    fn put_body(&mut self, number: u32, lay: Lay, members: Vec<Member<'s>>)
        requires takes { takes_members (plain_types self.old) number (map plain_member members.items) ≡ true }
        requires lies { IsLay lay (member_layout (plain_types self.old) (map plain_member members.items)) }
        ensures { plain_types self.new ≡ completed (plain_types self.old) number (map plain_member members.entry.items) }
    {
        let body = Body {
            members: ListBuf::of(members),
            order: self.bodies as u32,
            bytes: lay.bytes,
            alignment: lay.alignment,
            scalars: lay.scalars,
            has_const: lay.has_const,
        };
        self.structures[number as usize].body = Some(body);
        self.bodies += 1;
    }
}
