//! The types of C (C99 6.2.5).

ghost use Rattle.std.specs.Prelude.{◌≡◌, IfOk, Bool, true, false};
ghost use Rattle.p10_core.specs.Types.{plain_type, qualified, unqualified, void, integer, pointer, array, structure};
ghost use Rattle.p10_core.specs.Rows.{same, same_form, adds_const, is_void, is_array, is_integer, is_pointer, is_scalar};

use p10_int::IntType;
use std::alloc::{AllocError, Global};

/// A type of C, with its mark for `const`.
#[derive(Drop)]
#[cycle(types)]
pub struct CType {
    /// Whether the type is `const`; that of an array stands at its elements (C99 6.7.3p8).
    pub is_const: bool,
    pub form: TypeForm,
}

/// What a type is, its mark aside.
#[derive(Drop)]
#[cycle(types)]
pub enum TypeForm {
    Void,
    Int(IntType),
    Pointer(Box<CType>),
    /// An array of a type, with its length.
    Array(Box<CType>, u64),
    /// A structure, by its number in `Types`.
    Struct(u32),
}

impl CType {
    /// The integer type `kind`, without a mark.
    pub fn integer(kind: IntType) -> CType
        ensures { plain_type result ≡ integer false kind }
    {
        CType {
            is_const: false,
            form: TypeForm::Int(kind),
        }
    }

    /// `void`, without a mark.
    pub fn void() -> CType
        ensures { plain_type result ≡ void false }
    {
        CType {
            is_const: false,
            form: TypeForm::Void,
        }
    }

    /// A pointer to `target`, without a mark. It fails only where memory runs out.
    pub fn pointer(alloc: Global, target: CType) -> Result<CType, AllocError>
        ensures { IfOk result (λ t. plain_type t ≡ pointer false (plain_type target)) }
    {
        Ok(CType {
            is_const: false,
            form: TypeForm::Pointer(Box::new(alloc, target)?),
        })
    }

    /// An array of `length` elements. It fails only where memory runs out.
    pub fn array(alloc: Global, element: CType, length: u64) -> Result<CType, AllocError>
        ensures { IfOk result (λ t. plain_type t ≡ array false (plain_type element) length) }
    {
        Ok(CType {
            is_const: false,
            form: TypeForm::Array(Box::new(alloc, element)?, length),
        })
    }

    /// The structure with a number, without a mark.
    pub fn structure(number: u32) -> CType
        ensures { plain_type result ≡ structure false number }
    {
        CType {
            is_const: false,
            form: TypeForm::Struct(number),
        }
    }

    /// An equal type. It fails only where memory runs out.
    pub fn copy(&self, alloc: Global) -> Result<CType, AllocError>
        ensures { IfOk result (λ t. plain_type t ≡ plain_type self.now) }
    {
        let form = match &self.form {
            TypeForm::Void => TypeForm::Void,
            TypeForm::Int(kind) => TypeForm::Int(*kind),
            TypeForm::Pointer(target) => TypeForm::Pointer(Box::new(alloc, target.copy(alloc)?)?),
            TypeForm::Array(element, length) => TypeForm::Array(
                Box::new(alloc, element.copy(alloc)?)?,
                *length,
            ),
            TypeForm::Struct(number) => TypeForm::Struct(*number),
        };
        Ok(CType {
            is_const: self.is_const,
            form,
        })
    }

    /// The type without its own mark, as values have it (C99 6.3.2.1p2).
    pub fn unqualified(self) -> CType
        ensures { plain_type result ≡ unqualified (plain_type self) }
    {
        let CType { is_const, form } = self;
        let is_const = is_const && matches!(&form, TypeForm::Array(_, _));
        CType { is_const, form }
    }

    /// Whether the types are the same, their marks included.
    #[tactic(auto, using(crate::proofs::TypeViews::mark_of_plain))]
    pub fn is_same(&self, other: &CType) -> bool
        ensures { result ≡ same (plain_type self.now) (plain_type other.now) }
    {
        self.is_const == other.is_const && self.has_same_form(other)
    }

    /// Whether the types are the same except for their own marks.
    #[tactic(auto, using(crate::proofs::TypeViews::mark_of_plain))]
    pub fn has_same_form(&self, other: &CType) -> bool
        ensures { result ≡ same_form (plain_type self.now) (plain_type other.now) }
    {
        match (&self.form, &other.form) {
            (TypeForm::Void, TypeForm::Void) => true,
            (TypeForm::Int(kind), TypeForm::Int(others)) => kind == others,
            (TypeForm::Pointer(target), TypeForm::Pointer(others)) => {
                (target.is_const == others.is_const) & target.has_same_form(others)
            }
            (TypeForm::Array(element, length), TypeForm::Array(others, count)) => {
                (length == count)
                    & ((element.is_const == others.is_const) & element.has_same_form(others))
            }
            (TypeForm::Struct(number), TypeForm::Struct(others)) => number == others,
            _ => false,
        }
    }

    /// Whether the type is `void`.
    pub fn is_void(&self) -> bool
        ensures { result ≡ is_void (plain_type self.now) }
    {
        matches!(&self.form, TypeForm::Void)
    }

    /// Whether the type is an array.
    pub fn is_array(&self) -> bool
        ensures { result ≡ is_array (plain_type self.now) }
    {
        matches!(&self.form, TypeForm::Array(_, _))
    }

    /// Whether the type is an integer type.
    pub fn is_integer(&self) -> bool
        ensures { result ≡ is_integer (plain_type self.now) }
    {
        matches!(&self.form, TypeForm::Int(_))
    }

    /// Whether the type is a pointer.
    pub fn is_pointer(&self) -> bool
        ensures { result ≡ is_pointer (plain_type self.now) }
    {
        matches!(&self.form, TypeForm::Pointer(_))
    }

    /// Whether the type is an integer type or a pointer (C99 6.2.5p21).
    pub fn is_scalar(&self) -> bool
        ensures { result ≡ is_scalar (plain_type self.now) }
    {
        matches!(&self.form, TypeForm::Int(_) | TypeForm::Pointer(_))
    }

    /// Whether a pointer to this type may become one to `target` without a cast: `const` may be added to what it points
    /// to (C99 6.3.2.3p2).
    #[tactic(auto, using(crate::proofs::TypeViews::mark_of_plain))]
    pub fn adds_const(&self, target: &CType) -> bool
        ensures { result ≡ adds_const (plain_type self.now) (plain_type target.now) }
    {
        self.has_same_form(target) && (!self.is_const || target.is_const)
    }
}
