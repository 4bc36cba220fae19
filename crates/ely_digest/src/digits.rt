//! Lower-case hexadecimal digits (RFC 7616 section 3.2), written into arrays, so that they take no memory.

ghost use Rattle.std.specs.Prelude.{◌≡◌, ◌↔◌, ◌≤◌, ◌*◌, ℕ, List, ◌++◌, length, IsTrue};
ghost use Rattle.ely_base.specs.Texts.{hex_text};

use ely_hash::{HashAlg, Tag, same};

/// Writes two digits for each byte.
fn write_hex(bytes: &[u8], text: &mut [u8])
    requires { length text.old ≡ 2 * length bytes.now }
    ensures { text.new ≡ hex_text bytes.now }
{
    match hex::encode_to_slice(bytes, text) {
        Ok(()) => {}
        Err(_) => unreachable!(),
    }
}

/// Adds the digits of at most 32 bytes to a message.
pub fn add_hex<H: HashAlg>(hash: &mut H, bytes: &[u8])
    requires { length bytes.now ≤ 32 }
    ensures { (m : List ℕ) → H.stands hash.old m → H.stands hash.new (m ++ hex_text bytes.now) }
{
    let mut text = [0; 64];
    let len = 2 * bytes.len();
    write_hex(bytes, &mut text[..len]);
    hash.add(&text[..len]);
}

/// Whether the text is the tag in lower-case digits, as a header shows its response (RFC 7616 section 3.4.1).
pub fn is_hex_of(text: &[u8], tag: &Tag) -> bool
    ensures { IsTrue result ↔ (text.now ≡ hex_text tag.now) }
{
    let bytes = tag.bytes();
    let mut shown = [0; 64];
    let len = 2 * bytes.len();
    write_hex(bytes, &mut shown[..len]);
    same(text, &shown[..len])
}
