//! The objects of file scope, by their names.

ghost use Rattle.std.specs.Prelude.{◌≡◌, ℕ, List, map};
ghost use Rattle.std.specs.List.{list_any};
ghost use Rattle.p10_core.specs.Views.{plain_object, plain_seen};
ghost use Rattle.p10_warn.specs.Scopes.{covers};
ghost use Rattle.p10_warn.specs.private.NamedExtents.{noted_for, is_name_in_scope};

use crate::named_extents::NamedExtents;
use p10_core::{Global as StaticObject, Seen};
use std::alloc::{AllocError, Global};

/// The objects of static lifetime of a program, of which those in scope at a function are found by their names.
#[derive(Drop)]
pub(crate) struct FileScope<'w, 's> {
    pub(crate) objects: &'w [StaticObject<'s>],
    /// Those that are declared and not defined.
    pub(crate) outside: &'w [Seen<'s>],
    extents: NamedExtents<'s>,
    ghost known: { (name : List ℕ) (n : ℕ) → list_any (covers n) (noted_for extents name) ≡ is_name_in_scope (record { objects = map plain_object objects.now; outside = map plain_seen outside.now }) n name },
}

impl<'w, 's> FileScope<'w, 's> {
    ghost use Rattle.std.specs.Prelude.{IfOk};

    /// These objects.
    pub(crate) fn of(
        alloc: Global,
        objects: &'w [StaticObject<'s>],
        outside: &'w [Seen<'s>],
    ) -> Result<FileScope<'w, 's>, AllocError>
        ensures objects { IfOk result (λ file. file.objects.now ≡ objects.now) }
        ensures outside { IfOk result (λ file. file.outside.now ≡ outside.now) }
    {
        let extents = NamedExtents::of(alloc, objects, outside)?;
        Ok(FileScope {
            objects,
            outside,
            extents,
        })
    }

    /// Whether an object with this name is in scope at the function with a number.
    pub(crate) fn has(&self, name: &[u8], function: usize) -> bool
        ensures { result ≡ is_name_in_scope (record { objects = map plain_object self.now.objects.now; outside = map plain_seen self.now.outside.now }) function name.now }
    {
        self.extents.has(name, function)
    }
}
