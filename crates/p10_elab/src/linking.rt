//! Declarations with linkage by those before them in their root (C99 6.2.2, 6.7p4).

ghost use Rattle.std.specs.Prelude.{◌≡◌, ◌&&◌, None};
ghost use Rattle.p10_syn.specs.Built.{identifier_of};
ghost use Rattle.p10_elabd.specs.Standing.{PlainStanding};
ghost use Rattle.p10_elabd.specs.Blocks.{is_taken};
ghost use Rattle.p10_linkage.specs.Linkage.{last_linked, is_defined, is_refused};
ghost use Rattle.p10_linkage.specs.LinkedViews.{plain_kind, linked_of_name};
ghost use Rattle.p10_linkage.specs.LinkedLists.{linked_in};
ghost use Rattle.p10_elab.specs.Knowledge.{Known, linked_of};

use p10_elabd::Storage;
use p10_linkage::{LinkedKind, LinkedName, LinkedNames, differs, internal_by};
use p10_syn::Identifier;

/// What a declaration says beside its name and type.
#[derive(Clone, Copy, Debug)]
pub struct Linking {
    pub storage: Storage,
    /// Whether it has a body or an initialiser.
    pub defines: bool,
    /// Whether it declares a sensor.
    pub sensor: bool,
}

/// A declaration of a root with linkage, after those before it: `extern`, or no word at a function, leaves a name as internal as it
/// was.
pub fn linked_of<'s>(
    linked: &LinkedNames<'s>,
    root: u32,
    name: Identifier<'s>,
    kind: LinkedKind,
    says: Linking,
) -> LinkedName<'s>
    ensures { (k : Known) → k.root ≡ root → k.linked ≡ linked_in linked.now → linked_of_name result ≡ linked_of k (identifier_of name.entry) (plain_kind kind) says.storage says.defines says.sensor }
{
    let internal = internal_by(says.storage, &kind, linked.last(root, name.text));
    LinkedName {
        root,
        name: name.text,
        at: name.at,
        kind,
        internal,
        defines: says.defines,
        sensor: says.sensor,
    }
}

/// Whether a declaration may not stand after those before it: it doesn't agree with the last one of its name in its root, or both define;
/// or it is the first one, and `taken` says that its name is taken by something else.
pub fn is_refused(linked: &LinkedNames<'_>, now: &LinkedName<'_>, taken: bool) -> bool
    ensures { (s : PlainStanding) → is_taken s.scope now.now.name.now ≡ taken → is_refused s (linked_in linked.now) (last_linked None now.now.root now.now.name.now (linked_in linked.now)) (linked_of_name now.now) ≡ result }
{
    match linked.last(now.root, now.name) {
        Some(before) => differs(before, now) | is_defined_twice(linked, now),
        None => taken,
    }
}

/// Whether a declaration defines a name that is defined in its root.
fn is_defined_twice(linked: &LinkedNames<'_>, now: &LinkedName<'_>) -> bool
    ensures { result ≡ (now.now.defines && is_defined now.now.root now.now.name.now (linked_in linked.now)) }
{
    if now.defines {
        linked.is_defined(now.root, now.name)
    } else {
        false
    }
}
