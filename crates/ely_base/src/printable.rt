//! Printable bytes (ASCII, RFC 20), as they stand in realms and nonces.

ghost use Rattle.std.specs.Prelude.{◌≡◌, ◌==◌};
ghost use Rattle.std.specs.List.{list_any, list_all};
ghost use Rattle.ely_base.specs.Printable.{is_printable_but};

/// Whether the byte is among these.
fn is_among(bytes: &[u8], b: u8) -> bool
    ensures { result ≡ list_any (λ x. x == b) bytes.now }
{
    bytes.iter().any(|x| *x == b)
}

/// Whether the byte is printable, from 0x20 to 0x7E, and none of the barred ones.
pub fn is_printable_but(barred: &[u8], b: u8) -> bool
    ensures { result ≡ is_printable_but barred.now b }
{
    0x20 <= b && b <= 0x7E && !is_among(barred, b)
}

/// Whether each byte is printable, from 0x20 to 0x7E, and none of the barred ones.
pub fn are_printable_but(barred: &[u8], bytes: &[u8]) -> bool
    ensures { result ≡ list_all (is_printable_but barred.now) bytes.now }
{
    bytes.iter().all(|b| is_printable_but(barred, *b))
}
