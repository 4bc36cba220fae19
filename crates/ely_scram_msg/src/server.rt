//! What the server writes (RFC 5802 sections 5.1 and 7): its first message, its verifier and the words of its errors.

ghost use Rattle.std.specs.Prelude.{◌≡◌, IfOk};
ghost use Rattle.ely_scram_msg.specs.ServerTexts.{error_code, server_first_text, verifier_text};

use ely_base::{Bytes, NoMemory, push_base64, push_number};
use ely_hash::Tag;
use std::alloc::Global;

/// Why a login fails, as the server says it (RFC 5802 section 7).
#[derive(Clone, Copy, Debug, PartialEq, Eq)]
pub enum ServerError {
    /// The client's proof doesn't fit.
    InvalidProof,
    /// The channel binding isn't the one of the first message.
    BindingsDontMatch,
    /// Anything else.
    OtherError,
}

/// The server-first-message (RFC 5802 section 7) of a whole nonce, a salt and a count of turns.
pub fn write_server_first(
    alloc: Global,
    nonce: &[u8],
    salt: &[u8],
    turns: u32,
) -> Result<Bytes, NoMemory>
    ensures { IfOk result (λ text. text ≡ server_first_text nonce.now salt.now turns) }
{
    let mut text = Vec::new(alloc);
    text.extend_from_slice(b"r=")?;
    text.extend_from_slice(nonce)?;
    text.extend_from_slice(b",s=")?;
    push_base64(&mut text, salt)?;
    text.extend_from_slice(b",i=")?;
    push_number(&mut text, u64::from(turns))?;
    Ok(Bytes::of(text))
}

/// The server-final-message (RFC 5802 section 7) of a login that is proved, of the server's signature.
pub fn write_verifier(alloc: Global, verifier: &Tag) -> Result<Bytes, NoMemory>
    ensures { IfOk result (λ text. text ≡ verifier_text verifier.now) }
{
    let mut text = Vec::new(alloc);
    text.extend_from_slice(b"v=")?;
    push_base64(&mut text, verifier.bytes())?;
    Ok(Bytes::of(text))
}

/// The server-error-value that says it (RFC 5802 section 7).
pub fn error_text(error: ServerError) -> &'static str
    ensures { result.now ≡ error_code error }
{
    match error {
        ServerError::InvalidProof => "invalid-proof",
        ServerError::BindingsDontMatch => "channel-bindings-dont-match",
        ServerError::OtherError => "other-error",
    }
}
