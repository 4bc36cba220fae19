//! The server's judgement of a SCRAM login (RFC 5802 section 3): whether the client's last message proves the key of
//! which the server keeps StoredKey.
//!
//! It stands on the messages of `ely_scram_msg` and the formulas of `ely_hash`. It takes no memory, and knows no identity
//! and no conversation.
#![tactic(auto)]

pub use judgement::{Judged, judge};

mod judgement;
