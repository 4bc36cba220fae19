//! The formula of Digest authentication (RFC 7616), and the table of the nonces that a server issued. It stands on
//! `ely_digest_msg` for the fields of a header, on `ely_hash` for the hash functions, on `hex` for digits and on `lru` for
//! pairs in the order in which they came. It reads no header and knows no login.
#![tactic(auto)]

mod count;
mod digits;
mod nonce_table;
mod response;

pub use count::counts_as_read;
pub use digits::is_hex_of;
pub use ely_hash::ha1;
pub use nonce_table::{IssueFault, NonceTable, SpendFault};
pub use response::response_of;
