//! Structures that stand for others (C99 6.2.7).

ghost use Rattle.std.specs.Prelude.{◌≡◌, length, map, IfOk};
ghost use Rattle.p10_core.specs.Types.{plain_structure};
ghost use Rattle.p10_core.specs.Representing.{representatives, represented};

use crate::structures::Structure;
use std::alloc::{AllocError, Global};

/// The numbers of the structures that stand for structures.
pub fn representatives_of(
    alloc: Global,
    structures: &[Structure<'_>],
) -> Result<Vec<u32>, AllocError>
    ensures { IfOk result (λ numbers. numbers.items ≡ representatives (map plain_structure structures.now)) }
{
    let mut numbers = Vec::new(alloc);
    for structure in structures {
        numbers.push(structure.representative)?;
    }
    Ok(numbers)
}

/// Sets which structures stand for others, in order.
pub fn represent_all(structures: &mut [Structure<'_>], numbers: &[u32])
    requires as_many { length numbers.now ≡ length structures.old }
    ensures { map plain_structure structures.new ≡ represented (map plain_structure structures.old) numbers.now }
{
    for place in 0..structures.len() {
        structures[place].representative = numbers[place];
    }
}
