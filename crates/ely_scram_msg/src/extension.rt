//! Extensions in messages (RFC 5802 section 7): a letter, `=` and a value. They are taken and have no meaning here.

ghost use Rattle.std.specs.Prelude.{◌≡◌, ◌<◌, ◌==◌, IfSome};
ghost use Rattle.std.specs.List.{list_any};
ghost use Rattle.ely_base.specs.Refused.{Reads};
ghost use Rattle.ely_scram_msg.specs.Fields.{fields_left};
ghost use Rattle.ely_scram_msg.specs.Extensions.{extension_of, extensions_of, is_extension, is_letter};

use crate::fault::{MsgFault, MsgKind};
use crate::field::{Field, begins};

/// Whether the byte is an ASCII letter.
fn is_letter(b: u8) -> bool
    ensures { result ≡ is_letter b }
{
    b.is_ascii_alphabetic()
}

/// Whether there is a NUL.
fn has_nul(bytes: &[u8]) -> bool
    ensures { result ≡ list_any (λ b. b == 0) bytes.now }
{
    bytes.iter().any(|b| *b == 0)
}

/// Whether a field is a letter, `=`, and one or more bytes without NUL.
fn is_extension(text: &str) -> bool
    ensures { result ≡ is_extension text.now }
{
    let bytes = text.as_bytes();
    bytes.len() >= 3 && is_letter(bytes[0]) && bytes[1] == b'=' && !has_nul(bytes.split_at(2).1)
}

/// Passes an extension, which is due in that field.
pub(crate) fn pass_extension(field: &Field<'_>) -> Result<(), MsgFault>
    requires { 0 < field.now.offset }
    ensures { Reads (λ _. tt) result (extension_of field.now) }
{
    if begins(field.text(), b'm') {
        return Err(MsgFault::at(MsgKind::Mandatory, field.offset()));
    }
    if !is_extension(field.text()) {
        return Err(MsgFault::at(MsgKind::Trailing, field.offset() - 1));
    }
    Ok(())
}

/// Passes extensions up to the end of the message.
pub(crate) fn pass_extensions(rest: Option<Field<'_>>) -> Result<(), MsgFault>
    requires { IfSome rest (λ part. 0 < part.offset) }
    ensures { Reads (λ _. tt) result (extensions_of (fields_left rest.entry)) }
{
    let mut rest = rest;
    while let Some(part) = rest {
        let (field, behind) = part.cut();
        pass_extension(&field)?;
        rest = behind;
    }
    Ok(())
}
