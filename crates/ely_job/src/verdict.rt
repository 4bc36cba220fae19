//! What comes of a job.

use ely_cred::Ready;
use ely_hash::Tag;

/// What a login's evidence is worth.
#[derive(Clone, Copy, Debug, PartialEq, Eq)]
pub enum Verdict {
    /// It proves the identity. For SCRAM with the verifier, which is ServerSignature (RFC 5802 section 3).
    Proved(Option<Tag>),
    /// The channel binding isn't that of the first message (RFC 5802 section 6).
    Binding,
    /// The nonce isn't the whole one (RFC 5802 section 5.1).
    Nonce,
    /// The client's proof is none of the key (RFC 5802 section 3).
    Proof,
    /// The password isn't that of the identity (RFC 4616).
    Password,
    /// The header's realm isn't the one that is due (RFC 7616 section 3.4.2).
    Realm,
    /// The header's uri isn't the target of the request (RFC 7616 section 3.4.6).
    Uri,
    /// The header's response isn't the one of the formula (RFC 7616 section 3.4.1).
    Response,
}

/// The result of a job: a key, or a verdict.
#[derive(Debug, Drop)]
pub enum Finished {
    Ready(Ready),
    Verdict(Verdict),
}
