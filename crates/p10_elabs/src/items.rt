//! Items of a block (C99 6.8.2).

ghost use Rattle.std.specs.Prelude.{◌≡◌, ◌++◌, ◌∷◌, [], IfOk, option_map};
ghost use Rattle.p10_core.specs.Views.{plain_statement};
ghost use Rattle.p10_elabs.specs.Locals.{Local as PlainLocal};
ghost use Rattle.p10_elabs.specs.Statements.{no_items_yet, with_items, with_statement};
ghost use Rattle.p10_elabs.specs.ItemViews.{plain_block, with_made};

use crate::kind::Kind;
use crate::pieces::statement_added;
use p10_core::Stmt;
use std::alloc::{AllocError, Global};

/// The items of a block so far, if none was refused, and what they are for the pragmas.
#[derive(Drop)]
pub struct Items {
    pub made: Option<Vec<Stmt>>,
    pub kinds: Vec<Kind>,
}

/// Before the first item.
pub fn no_items(alloc: Global) -> Items
    ensures { (l : PlainLocal) → plain_block result l ≡ no_items_yet l }
{
    Items {
        made: Some(Vec::new(alloc)),
        kinds: Vec::new(alloc),
    }
}

/// What one more item of a declaration becomes.
pub(crate) fn with_item(items: Items, one: Option<Stmt>) -> Result<Items, AllocError>
    ensures { IfOk result (λ b. (l m : PlainLocal) → plain_block b m ≡ with_items (plain_block items l) (record { items = option_map plain_statement one ∷ []; after = m })) }
{
    let Items { made, kinds } = items;
    let made = statement_added(made, one)?;
    Ok(Items { made, kinds })
}

/// A declaration among the items.
pub(crate) fn with_kind(items: Items, kind: Kind) -> Result<Items, AllocError>
    ensures { IfOk result (λ b. (l : PlainLocal) → plain_block b l ≡ record (plain_block items l) { kinds = items.kinds.items ++ kind ∷ [] }) }
{
    let Items { made, kinds } = items;
    let mut kinds = kinds;
    kinds.push(kind)?;
    Ok(Items { made, kinds })
}

/// An item more.
pub(crate) fn with_statement(
    items: Items,
    kind: Kind,
    one: Option<Stmt>,
) -> Result<Items, AllocError>
    ensures { IfOk result (λ b. (l m : PlainLocal) → plain_block b m ≡ with_statement (plain_block items l) kind (with_made (option_map plain_statement one) m)) }
{
    let Items { made, kinds } = items;
    let made = statement_added(made, one)?;
    let mut kinds = kinds;
    kinds.push(kind)?;
    Ok(Items { made, kinds })
}
