//! The mechanisms by which a login proves who it is.

/// A mechanism: PLAIN (RFC 4616), SCRAM (RFC 5802 and RFC 7677) or HTTP Digest (RFC 7616).
#[derive(Clone, Copy, Debug, PartialEq, Eq)]
pub enum Mech {
    Plain,
    ScramSha1,
    ScramSha256,
    Digest,
    DigestSha256,
}
