//! Names of the innermost block (C99 6.2.1, 6.7p3).

use crate::standing::Standing;
use p10_base::SubsetCode;
use p10_elabx::{Named, library_named};
use p10_syn::Identifier;
use std::alloc::AllocError;

impl<'s> Standing<'s> {
    ghost use Rattle.std.specs.Prelude.{◌≡◌, IfOk};
    ghost use Rattle.p10_syn.specs.Built.{identifier_of};
    ghost use Rattle.p10_elabx.specs.First.{only_first};
    ghost use Rattle.p10_elabx.specs.Views.{meaning_of};
    ghost use Rattle.p10_elabd.specs.Blocks.{is_taken, with_name, declaring};
    ghost use Rattle.p10_elabd.specs.Views.{plain_standing};

    /// Whether a name may not be declared here: it is declared in this block already, or it is that of a library function,
    /// outside of functions.
    pub fn is_taken(&self, name: &[u8]) -> bool
        ensures { result ≡ is_taken (plain_standing self.now).scope name.now }
    {
        if self.scope.named_here(name).is_some() {
            true
        } else if self.scope.is_outermost() {
            library_named(name).is_some()
        } else {
            false
        }
    }

    /// Lets a name stand for something more.
    pub fn set_name(&mut self, name: &'s [u8], what: Named) -> Result<(), AllocError>
        ensures { IfOk result (λ _. plain_standing self.new ≡ with_name (plain_standing self.old) name.now (meaning_of what)) }
    {
        self.scope.declare(name, what)?;
        Ok(())
    }

    /// Declares a name that may be declared once.
    pub fn declare(&mut self, name: Identifier<'s>, what: Named) -> Result<(), AllocError>
        ensures { IfOk result (λ _. plain_standing self.new ≡ declaring only_first (identifier_of name.entry) (meaning_of what) (plain_standing self.old)) }
    {
        let taken = self.is_taken(name.text);
        self.refuse_where(taken, SubsetCode::DefinedTwice, name.at);
        self.set_name(name.text, what)
    }
}
