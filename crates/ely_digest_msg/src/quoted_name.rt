//! Names that a header lends, and copies of them.

ghost use Rattle.std.specs.Prelude.{◌≡◌, IfOk};
ghost use Rattle.ely_base.specs.Names.{IsName};
ghost use Rattle.ely_digest_msg.specs.Headers.{name_value_of};

use crate::fault::DigestFault;
use crate::quoted::Quoted;
use crate::values::is_name;
use ely_base::{Name, NoMemory};
use std::alloc::Global;
use std::marker::Model;

/// A text of a header that is a name, lent with its escapes and seen as its bytes without them.
#[derive(Debug, Drop)]
pub struct QuotedName<'a> {
    text: Quoted<'a>,
}

impl<'a> Model for QuotedName<'a> {
    ghost use Rattle.std.specs.Prelude.{ℕ, List};
    ghost use Rattle.ely_base.specs.Names.{IsName};

    ghost Value = { List ℕ };

    ghost view = { λ n. n.text };

    ghost invariant = { λ n. IsName n.text };
}

impl<'a> QuotedName<'a> {
    /// The name that a text is.
    pub(crate) fn read(text: Quoted<'a>) -> Result<QuotedName<'a>, DigestFault>
        ensures value { result ≡ name_value_of text.entry }
        ensures name { IfOk result (λ name. IsName name) }
    {
        if is_name(&text) {
            Ok(QuotedName { text })
        } else {
            Err(DigestFault::Name)
        }
    }

    /// The name without the escapes.
    pub fn copy(&self, alloc: Global) -> Result<Name, NoMemory>
        ensures { IfOk result (λ name. name ≡ self.now) }
    {
        Ok(Name::of(self.text.list(alloc)?))
    }
}
