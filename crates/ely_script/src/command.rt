//! The commands of a script.

ghost use Rattle.std.specs.Prelude.{◌≡◌, IfOk};

use ely_base::{Bytes, CtxId, NoMemory};
use ely_digest_msg::DigestReply;
use ely_login::BadLine;
use ely_plain::PlainMsg;
use ely_row::{Edit, Mech};
use ely_scram_msg::{ClientFirst, ClientLast};
use std::alloc::Global;

/// What a line asks for.
#[derive(Debug, Drop)]
pub enum Verb {
    /// An edit of an identity, or of all that a realm has.
    Change {
        edit: Edit,
    },
    /// Opens a login, with the nonce of its server, where it is given.
    Begin {
        ctx: CtxId,
        mech: Mech,
        nonce: Option<Bytes>,
    },
    /// A message of PLAIN.
    Plain {
        ctx: CtxId,
        message: PlainMsg,
    },
    /// The client-first message of SCRAM (RFC 5802 section 7).
    First {
        ctx: CtxId,
        message: ClientFirst,
    },
    /// The client-final message of SCRAM (RFC 5802 section 7).
    Last {
        ctx: CtxId,
        message: ClientLast,
    },
    /// The Authorization header of Digest, with the method and the target of its request (RFC 7616 section 3.4).
    Digest {
        ctx: CtxId,
        method: Bytes,
        target: Bytes,
        reply: DigestReply,
    },
    /// Asks whether the identity may log in.
    Authorize {
        ctx: CtxId,
    },
    /// Establishes the identity.
    Succeed {
        ctx: CtxId,
    },
    /// Gives the login up.
    Fail {
        ctx: CtxId,
    },
    /// Closes the login.
    Close {
        ctx: CtxId,
    },
    /// Asks whether a permission is granted.
    Allows {
        ctx: CtxId,
        wanted: Bytes,
    },
}

/// A line that was read.
#[derive(Debug, Drop)]
pub struct Command {
    pub actor: u32,
    pub verb: Verb,
}

impl Verb {
    /// An equal verb.
    pub fn copy(&self, alloc: Global) -> Result<Verb, NoMemory>
        ensures { IfOk result (λ copy. copy ≡ self.now) }
    {
        match self {
            Verb::Change { edit } => Ok(Verb::Change {
                edit: edit.copy(alloc)?,
            }),
            Verb::Begin { ctx, mech, nonce } => Ok(Verb::Begin {
                ctx: *ctx,
                mech: *mech,
                nonce: Bytes::copy_option(alloc, nonce)?,
            }),
            Verb::Plain { ctx, message } => Ok(Verb::Plain {
                ctx: *ctx,
                message: message.copy(alloc)?,
            }),
            Verb::First { ctx, message } => Ok(Verb::First {
                ctx: *ctx,
                message: message.copy(alloc)?,
            }),
            Verb::Last { ctx, message } => Ok(Verb::Last {
                ctx: *ctx,
                message: message.copy(alloc)?,
            }),
            Verb::Digest {
                ctx,
                method,
                target,
                reply,
            } => Ok(Verb::Digest {
                ctx: *ctx,
                method: method.copy(alloc)?,
                target: target.copy(alloc)?,
                reply: reply.copy(alloc)?,
            }),
            Verb::Authorize { ctx } => Ok(Verb::Authorize { ctx: *ctx }),
            Verb::Succeed { ctx } => Ok(Verb::Succeed { ctx: *ctx }),
            Verb::Fail { ctx } => Ok(Verb::Fail { ctx: *ctx }),
            Verb::Close { ctx } => Ok(Verb::Close { ctx: *ctx }),
            Verb::Allows { ctx, wanted } => Ok(Verb::Allows {
                ctx: *ctx,
                wanted: wanted.copy(alloc)?,
            }),
        }
    }
}

impl Command {
    /// An equal command.
    pub fn copy(&self, alloc: Global) -> Result<Command, NoMemory>
        ensures { IfOk result (λ copy. copy ≡ self.now) }
    {
        Ok(Command {
            actor: self.actor,
            verb: self.verb.copy(alloc)?,
        })
    }
}

/// Why a line was not read, with its actor, or 0 where that can't be read.
#[derive(Clone, Copy, Debug, PartialEq, Eq)]
pub enum LineError {
    Bad { actor: u32, bad: BadLine },
}
