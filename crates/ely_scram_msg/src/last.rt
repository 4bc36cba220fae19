//! The client's last message (RFC 5802 section 7): the gs2 header once more, the whole nonce and the proof.
//! It stands on the fields and on the readers of base64, nonces and extensions.

ghost use Rattle.std.specs.Prelude.{◌≡◌, ◌↔◌, ◌<◌, ◌≤◌, ◌+◌, length, IsTrue, IfOk, IfSome};
ghost use Rattle.std.specs.Str.{IsCharBoundary};
ghost use Rattle.ely_base.specs.Refused.{Gives, Reads};
ghost use Rattle.ely_scram_msg.specs.Fields.{fields_left};
ghost use Rattle.ely_scram_msg.specs.ClientLast.{binding_of, client_last_of, ending_of, last_of, last_parts, proof_of};

use crate::coded64::Coded64;
use crate::extension::pass_extension;
use crate::fault::{MsgFault, MsgKind};
use crate::field::{Field, begins, due};
use crate::nonce::read_nonce;
use ely_base::{Bytes, NoMemory, Refused};
use ely_hash::same;
use std::alloc::Global;

/// A client-final message that lends its parts from the text (RFC 5802 section 7).
#[derive(Drop)]
pub struct LastView<'a> {
    /// The channel binding: the gs2-header of the client's first message.
    pub binding: Coded64<'a>,
    /// The whole nonce.
    pub nonce: &'a [u8],
    /// The client's proof.
    pub proof: Coded64<'a>,
    /// The client-final-message-without-proof: all that stands before the proof's comma.
    pub without_proof: &'a [u8],
}

/// A client-final message that keeps its parts (RFC 5802 section 7).
#[derive(Debug, Drop)]
pub struct ClientLast {
    /// The channel binding: the gs2-header of the client's first message.
    pub binding: Bytes,
    /// The whole nonce.
    pub nonce: Bytes,
    /// The client's proof.
    pub proof: Bytes,
    /// The client-final-message-without-proof: all that stands before the proof's comma.
    pub without_proof: Bytes,
}

impl LastView<'_> {
    /// The message whose parts this lends.
    fn copy(&self, alloc: Global) -> Result<ClientLast, NoMemory>
        ensures { IfOk result (λ message. message ≡ last_parts self.now) }
    {
        Ok(ClientLast {
            binding: self.binding.copy(alloc)?,
            nonce: Bytes::copy_of(alloc, self.nonce)?,
            proof: self.proof.copy(alloc)?,
            without_proof: Bytes::copy_of(alloc, self.without_proof)?,
        })
    }
}

impl ClientLast {
    /// An equal message.
    pub fn copy(&self, alloc: Global) -> Result<ClientLast, NoMemory>
        ensures { IfOk result (λ copy. copy ≡ self.now) }
    {
        Ok(ClientLast {
            binding: self.binding.copy(alloc)?,
            nonce: self.nonce.copy(alloc)?,
            proof: self.proof.copy(alloc)?,
            without_proof: self.without_proof.copy(alloc)?,
        })
    }

    /// Whether both are equal.
    pub fn same(&self, other: &ClientLast) -> bool
        ensures { IsTrue result ↔ (self.now ≡ other.now) }
    {
        same(self.binding.bytes(), other.binding.bytes())
            && same(self.nonce.bytes(), other.nonce.bytes())
            && same(self.proof.bytes(), other.proof.bytes())
            && same(self.without_proof.bytes(), other.without_proof.bytes())
    }
}

/// The channel binding that is due in that field.
fn read_binding<'a>(field: Field<'a>) -> Result<Coded64<'a>, MsgFault>
    ensures { result ≡ binding_of field.entry }
{
    let value = field.value(b'c')?;
    Coded64::read(&value)
}

/// The proof of a field that begins `p=`, and the offset of the comma before it. Nothing may stand behind it.
fn read_proof<'a>(
    field: Field<'a>,
    behind: Option<Field<'a>>,
) -> Result<(Coded64<'a>, usize), MsgFault>
    requires letter { IsCharBoundary field.text 2 }
    requires offset { 0 < field.offset }
    requires behind { IfSome behind (λ part. 0 < part.offset) }
    ensures read { result ≡ proof_of field.entry (fields_left behind.entry) }
    ensures within { IfOk result (λ x. x.1 ≤ field.entry.offset) }
{
    let comma = field.offset() - 1;
    let value = field.behind_letter();
    let proof = Coded64::read(&value)?;
    match behind {
        None => Ok((proof, comma)),
        Some(part) => Err(MsgFault::at(MsgKind::Trailing, part.cut().0.offset() - 1)),
    }
}

/// Passes extensions up to the proof, and gives it with the offset of the comma before it.
fn read_ending<'a>(end: usize, rest: Option<Field<'a>>) -> Result<(Coded64<'a>, usize), MsgFault>
    requires behind { IfSome rest (λ part. 0 < part.offset) }
    requires within { IfSome rest (λ part. part.offset + length part.text ≤ end) }
    ensures read { result ≡ ending_of end (fields_left rest.entry) }
    ensures within { IfOk result (λ x. x.1 ≤ end) }
{
    let mut rest = rest;
    while let Some(part) = rest {
        let (field, behind) = part.cut();
        if begins(field.text(), b'p') {
            return read_proof(field, behind);
        }
        pass_extension(&field)?;
        rest = behind;
    }
    Err(MsgFault::at(MsgKind::Trailing, end))
}

/// The parts of a message that is a text.
fn read_last<'a>(bytes: &'a [u8], text: &'a str) -> Result<LastView<'a>, MsgFault>
    requires { text.now ≡ bytes.now }
    ensures { Reads last_parts result (last_of bytes.now) }
{
    let end = bytes.len();
    let (field, rest) = due(end, Some(Field::whole(text)))?;
    let binding = read_binding(field)?;
    let (field, rest) = due(end, rest)?;
    let nonce = read_nonce(field)?;
    let (proof, comma) = read_ending(end, rest)?;
    Ok(LastView {
        binding,
        nonce,
        proof,
        without_proof: &bytes[..comma],
    })
}

/// The parts of a client-final message (RFC 5802 section 7), or the first fault of bytes that are none. It takes no
/// memory.
pub fn scan_client_last(bytes: &[u8]) -> Result<LastView<'_>, MsgFault>
    ensures { Reads last_parts result (client_last_of bytes.now) }
{
    match str::from_utf8(bytes) {
        Ok(text) => read_last(bytes, text),
        Err(error) => Err(MsgFault::at(MsgKind::Text, error.valid_up_to())),
    }
}

/// The client-final message that the bytes are (RFC 5802 section 7), or the first fault of bytes that are none.
pub fn read_client_last(alloc: Global, bytes: &[u8]) -> Result<ClientLast, Refused<MsgFault>>
    ensures { Gives result (client_last_of bytes.now) }
{
    match scan_client_last(bytes) {
        Ok(view) => Ok(view.copy(alloc)?),
        Err(fault) => Err(Refused::Fault(fault)),
    }
}
