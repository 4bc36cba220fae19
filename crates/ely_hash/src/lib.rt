//! Hash functions behind one trait, and over any of them HMAC (RFC 2104), the function Hi and the keys of SCRAM (RFC 5802),
//! and the digest of a password that Digest keeps (RFC 7616). A counter of no bytes counts the HMAC computations.
//!
//! This is the one place that names the crates of MD5, SHA-1 and SHA-256. It stands on nothing else, and none of its
//! calls takes memory.
#![tactic(auto)]

pub use alg::{HashAlg, Md5Alg, Sha1Alg, Sha256Alg, digest, digest_len};
pub use derive::{ScramKeys, ha1, hi, hmac, keys_of};
pub use lists::{same, xor};
pub use mac::Hmac;
pub use steps::Steps;
pub use tag::Tag;

mod alg;
mod block;
mod derive;
mod lists;
mod mac;
mod steps;
mod tag;
