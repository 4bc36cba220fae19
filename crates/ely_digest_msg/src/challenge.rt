//! The challenge of Digest (RFC 7616 section 3.3), as text.

ghost use Rattle.std.specs.Prelude.{◌≡◌, IfOk};
ghost use Rattle.ely_digest_msg.specs.Challenges.{challenge_of};

use crate::header::DigestAlg;
use ely_base::{Bytes, NoMemory};
use std::alloc::Global;

/// The challenge that a header answers. The realm and the nonce are written as they are.
pub fn write_challenge(
    alloc: Global,
    realm: &[u8],
    alg: DigestAlg,
    nonce: &[u8],
) -> Result<Bytes, NoMemory>
    ensures { IfOk result (λ text. text ≡ challenge_of realm.now alg nonce.now) }
{
    let mut text = Vec::from_slice(alloc, b"Digest realm=\"")?;
    text.extend_from_slice(realm)?;
    text.extend_from_slice(b"\", qop=\"auth\", algorithm=")?;
    text.extend_from_slice(alg.text().as_bytes())?;
    text.extend_from_slice(b", nonce=\"")?;
    text.extend_from_slice(nonce)?;
    text.extend_from_slice(b"\"")?;
    Ok(Bytes::of(text))
}
