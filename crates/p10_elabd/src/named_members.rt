//! The members of a structure so far, found by their names (C99 6.7.2.1).

ghost use Rattle.std.specs.Prelude.{List, ℕ, bytes_eq, map};
ghost use Rattle.std.specs.List.{list_any};
ghost use Rattle.p10_core.specs.Types.{plain_member};
ghost use Rattle.p10_elabd.specs.Members.{has_name};

use p10_base::NameList;
use p10_core::Member;
use std::alloc::{AllocError, Global};

/// Members in the order in which they came, found by their names: whether a name is taken is told in the time that the name is long.
#[derive(Drop)]
pub struct NamedMembers<'s> {
    list: Vec<Member<'s>>,
    names: NameList<'s>,
    ghost named: { (name : List ℕ) → list_any (bytes_eq name) names ≡ has_name name (map plain_member list.items) },
}

ghost use Rattle.std.specs.Prelude.{◌≡◌};

impl<'s> NamedMembers<'s> {
    ghost use Rattle.std.specs.Prelude.{[], ◌∷◌, ◌++◌, IfOk};
    ghost use Rattle.p10_elabd.specs.Views.{plain_members};
    ghost use Rattle.p10_elabd.specs.private.NamedMembers.{named_members};

    /// No members.
    pub fn new(alloc: Global) -> NamedMembers<'s>
        ensures { named_members result ≡ [] }
    {
        NamedMembers {
            list: Vec::new(alloc),
            names: NameList::new(alloc),
        }
    }

    /// Whether one of the members has a name.
    pub fn has(&self, name: &[u8]) -> bool
        ensures { result ≡ has_name name.now (named_members self.now) }
    {
        self.names.contains(name)
    }

    /// The members with one more after them.
    pub fn with(self, member: Member<'s>) -> Result<NamedMembers<'s>, AllocError>
        ensures { IfOk result (λ all. named_members all ≡ named_members self.entry ++ plain_member member.entry ∷ []) }
    {
        let NamedMembers { list, names } = self;
        let mut list = list;
        let mut names = names;
        names.add(member.name)?;
        list.push(member)?;
        Ok(NamedMembers { list, names })
    }

    /// The members.
    pub fn into_list(self) -> Vec<Member<'s>>
        ensures { plain_members result ≡ named_members self.entry }
    {
        self.list
    }
}
