//! Names, bytes, numbers and texts, and the answer of a call that takes memory. It alone names the kit's `base64`, `hex` and
//! `itoa`.
#![tactic(auto)]

mod blank;
mod bytes;
mod compared;
mod copies;
mod ids;
mod items;
mod name;
mod number;
mod owned;
mod parts;
mod printable;
mod refused;
mod texts;
mod word;
mod write;

pub use blank::is_blank;
pub use bytes::Bytes;
pub use copies::{copy_names, copy_pairs};
pub use ids::{CtxId, Serial, Version};
pub use items::Items;
pub use name::{Name, NameFault, has_barred, name_fault};
pub use number::{push_number, read_number};
pub use owned::discard;
pub use parts::{count_of, cut_at, first_offset, text_len};
pub use printable::{are_printable_but, is_printable_but};
pub use refused::{NoMemory, Refused, or_fault, or_no_memory, refused_as};
pub use texts::{
    TextFault, is_base64, push_base64, read_base64, read_hex, write_base64, write_hex,
};
pub use word::{push_word, read_word, write_word};
pub use write::{push_both, push_coded, push_counted, push_text, push_worded};
