//! Nonces in messages (RFC 5802 section 7): `r=` and one or more printable bytes.

ghost use Rattle.std.specs.Prelude.{◌≡◌, ◌<◌, not, length, position, IfSome};
ghost use Rattle.ely_base.specs.Refused.{Reads};
ghost use Rattle.ely_scram_msg.specs.Nonces.{is_printable, nonce_of, printable_of};

use crate::fault::{MsgFault, MsgKind};
use crate::field::Field;

/// Whether the byte may stand in a nonce.
fn is_printable(b: u8) -> bool
    ensures { result ≡ is_printable b }
{
    0x21 <= b && b <= 0x7E && b != b','
}

/// The offset of the first byte that may not stand in a nonce.
fn first_unprintable(bytes: &[u8]) -> Option<usize>
    ensures value { result ≡ position (λ b. not (is_printable b)) bytes.now }
    ensures within { IfSome result (λ i. i < length bytes.now) }
{
    bytes.iter().position(|b| !is_printable(*b))
}

/// The bytes of a part that is one or more printable bytes.
fn read_printable<'a>(part: &Field<'a>) -> Result<&'a [u8], MsgFault>
    ensures { Reads (λ x. x.now) result (printable_of part.now) }
{
    let bytes = part.text().as_bytes();
    if bytes.len() == 0 {
        return Err(MsgFault::at(MsgKind::Nonce, part.offset()));
    }
    match first_unprintable(bytes) {
        None => Ok(bytes),
        Some(i) => Err(MsgFault::at(MsgKind::Nonce, part.offset() + i)),
    }
}

/// The nonce that is due in that field.
pub(crate) fn read_nonce<'a>(field: Field<'a>) -> Result<&'a [u8], MsgFault>
    ensures { Reads (λ x. x.now) result (nonce_of field.entry) }
{
    let value = field.value(b'r')?;
    read_printable(&value)
}
