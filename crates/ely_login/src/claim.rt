//! What a login says of itself, and what it shows for that.

ghost use Rattle.std.specs.Prelude.{◌≡◌, IfOk};

use ely_base::{Bytes, Name, NoMemory};
use ely_digest_msg::{DigestAlg, DigestReply};
use ely_scram_msg::{ClientFirst, ClientLast};
use std::alloc::Global;

/// Who a login says that it is.
#[derive(Debug, Drop)]
pub enum Claim {
    /// By PLAIN: who logs in, and who that one wants to act as.
    Plain { authzid: Option<Name>, name: Name },
    /// By SCRAM: the client-first message, which names both (RFC 5802 section 5).
    Scram(ClientFirst),
    /// By Digest: the hash of the header, and the user's name there (RFC 7616 section 3.4).
    Digest { alg: DigestAlg, name: Name },
}

/// What a login shows for its claim.
#[derive(Debug, Drop)]
pub enum Evidence {
    /// By PLAIN: the password.
    Plain {
        password: Bytes,
    },
    /// By SCRAM: the client-final message with its proof (RFC 5802 section 5).
    Scram(ClientLast),
    /// By Digest: the header with its response, and the method and the target of its request (RFC 7616 section 3.4).
    Digest {
        reply: DigestReply,
        method: Bytes,
        target: Bytes,
    },
}

impl Claim {
    /// An equal claim.
    pub fn copy(&self, alloc: Global) -> Result<Claim, NoMemory>
        ensures { IfOk result (λ copy. copy ≡ self.now) }
    {
        match self {
            Claim::Plain { authzid, name } => Ok(Claim::Plain {
                authzid: Name::copy_option(alloc, authzid)?,
                name: name.copy(alloc)?,
            }),
            Claim::Scram(message) => Ok(Claim::Scram(message.copy(alloc)?)),
            Claim::Digest { alg, name } => Ok(Claim::Digest {
                alg: *alg,
                name: name.copy(alloc)?,
            }),
        }
    }
}

impl Evidence {
    /// Equal evidence.
    pub fn copy(&self, alloc: Global) -> Result<Evidence, NoMemory>
        ensures { IfOk result (λ copy. copy ≡ self.now) }
    {
        match self {
            Evidence::Plain { password } => Ok(Evidence::Plain {
                password: password.copy(alloc)?,
            }),
            Evidence::Scram(message) => Ok(Evidence::Scram(message.copy(alloc)?)),
            Evidence::Digest {
                reply,
                method,
                target,
            } => Ok(Evidence::Digest {
                reply: reply.copy(alloc)?,
                method: method.copy(alloc)?,
                target: target.copy(alloc)?,
            }),
        }
    }
}
