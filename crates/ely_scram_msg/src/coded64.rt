//! Base64 in messages (RFC 5802 section 7): a text is looked through where it lies, and its bytes are copied when they are
//! wanted.

ghost use Rattle.std.specs.Prelude.{◌≡◌, IfOk};
ghost use Rattle.ely_scram_msg.specs.Base64Texts.{base64_at};

use crate::fault::{MsgFault, MsgKind};
use crate::field::Field;
use ely_base::{Bytes, NoMemory, is_base64, or_no_memory, read_base64};
use std::alloc::Global;
use std::marker::Model;

/// A base64 text in a message (RFC 5802 section 7), seen as the bytes that it stands for.
#[derive(Drop)]
pub struct Coded64<'a> {
    text: &'a [u8],
}

impl<'a> Model for Coded64<'a> {
    ghost use Rattle.std.specs.Prelude.{ℕ, List, IsTrue};
    ghost use Rattle.ely_base.specs.Texts.{is_base64};
    ghost use Rattle.ely_scram_msg.specs.Base64Texts.{decoded};

    ghost Value = { List ℕ };

    ghost view = { λ c. decoded c.text.now };

    ghost invariant = { λ c. IsTrue (is_base64 c.text.now) };
}

impl<'a> Coded64<'a> {
    /// The base64 text that a value is.
    pub(crate) fn read(part: &Field<'a>) -> Result<Coded64<'a>, MsgFault>
        ensures { result ≡ base64_at part.now }
    {
        let text = part.text().as_bytes();
        if text.len() == 0 || !is_base64(text) {
            return Err(MsgFault::at(MsgKind::Base64, part.offset()));
        }
        Ok(Coded64 { text })
    }

    /// The bytes that this stands for.
    pub fn copy(&self, alloc: Global) -> Result<Bytes, NoMemory>
        ensures { IfOk result (λ bytes. bytes ≡ self.now) }
    {
        or_no_memory(read_base64(alloc, self.text))
    }
}
