//! Headers that are kept beyond the text that they came from.

ghost use Rattle.std.specs.Prelude.{◌≡◌, ◌↔◌, IsTrue, IfOk};
ghost use Rattle.ely_base.specs.Refused.{Gives};
ghost use Rattle.ely_digest_msg.specs.Replies.{reply_from, reply_of};

use crate::fault::DigestFault;
use crate::header::{DigestAlg, HeaderView, scan_authorization};
use ely_base::{Bytes, Name, NoMemory, Refused};
use std::alloc::Global;

/// The fields of a header, kept: what a client answers to a challenge (RFC 7616 section 3.4).
#[derive(Debug, Drop)]
pub struct DigestReply {
    /// MD5 where none is named.
    pub alg: DigestAlg,
    /// The user's name.
    pub name: Name,
    pub realm: Bytes,
    pub nonce: Bytes,
    pub uri: Bytes,
    pub response: Bytes,
    /// How often the nonce was used by the client, this time among them.
    pub nc: u32,
    pub cnonce: Bytes,
}

impl HeaderView<'_> {
    /// The same fields, kept.
    pub fn copy(&self, alloc: Global) -> Result<DigestReply, NoMemory>
        ensures { IfOk result (λ copy. copy ≡ reply_from self.now) }
    {
        Ok(DigestReply {
            alg: self.alg,
            name: self.name.copy(alloc)?,
            realm: self.realm.copy(alloc)?,
            nonce: self.nonce.copy(alloc)?,
            uri: self.uri.copy(alloc)?,
            response: self.response.copy(alloc)?,
            nc: self.nc,
            cnonce: self.cnonce.copy(alloc)?,
        })
    }
}

impl DigestReply {
    /// An equal reply.
    pub fn copy(&self, alloc: Global) -> Result<DigestReply, NoMemory>
        ensures { IfOk result (λ copy. copy ≡ self.now) }
    {
        Ok(DigestReply {
            alg: self.alg,
            name: self.name.copy(alloc)?,
            realm: self.realm.copy(alloc)?,
            nonce: self.nonce.copy(alloc)?,
            uri: self.uri.copy(alloc)?,
            response: self.response.copy(alloc)?,
            nc: self.nc,
            cnonce: self.cnonce.copy(alloc)?,
        })
    }

    /// Whether both are equal.
    pub fn same(&self, other: &DigestReply) -> bool
        ensures { IsTrue result ↔ (self.now ≡ other.now) }
    {
        self.alg == other.alg
            && self.nc == other.nc
            && self.name.bytes() == other.name.bytes()
            && self.realm.bytes() == other.realm.bytes()
            && self.nonce.bytes() == other.nonce.bytes()
            && self.uri.bytes() == other.uri.bytes()
            && self.response.bytes() == other.response.bytes()
            && self.cnonce.bytes() == other.cnonce.bytes()
    }
}

/// Reads a header and keeps its fields, or says its first fault.
pub fn read_authorization(alloc: Global, text: &[u8]) -> Result<DigestReply, Refused<DigestFault>>
    ensures { Gives result (reply_of text.now) }
{
    match scan_authorization(text) {
        Err(fault) => Err(Refused::Fault(fault)),
        Ok(header) => Ok(header.copy(alloc)?),
    }
}
