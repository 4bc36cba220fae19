//! Base64 texts (RFC 4648 section 4, padded) and hexadecimal texts (RFC 4648 section 8, either case).

ghost use Rattle.std.specs.Prelude.{◌≡◌, ◌≢◌, ◌≤◌, ◌++◌, ℕ, List, true, false, length, IfOk, OnOk, OnErr, IsErrOf};
ghost use Rattle.std.specs.Option.{option_map};
ghost use Rattle.std.specs.Result.{result_ok};
ghost use Rattle.base64.specs.GeneralPurpose.{decode_of, IsBytes};
ghost use Rattle.base64.specs.Engines.{standard};
ghost use Rattle.ely_base.specs.Appended.{Extends};
ghost use Rattle.ely_base.specs.Refused.{Gives};
ghost use Rattle.ely_base.specs.Texts.{base64_of, base64_text, is_base64, hex_of, hex_text, is_hex};

use crate::bytes::Bytes;
use crate::refused::{NoMemory, Refused};
use base64::DecodeAllocError;
use base64::engine::general_purpose::STANDARD;
use hex::FromHexError;
use std::alloc::Global;

/// The text stands for no value.
#[derive(Clone, Copy, Debug, PartialEq, Eq)]
pub enum TextFault {
    /// No bytes have this text.
    Bad,
}

/// The bytes of a padded standard base64 text (RFC 4648 section 4). `Bad` comes exactly where no bytes have it.
pub fn read_base64(alloc: Global, text: &[u8]) -> Result<Bytes, Refused<TextFault>>
    ensures exact { Gives result (base64_of text.now) }
    ensures ok { IfOk result (λ bytes. text.now ≡ base64_text bytes) }
    ensures bad { IsErrOf result (Refused.Fault TextFault.Bad)
        → (bytes : List ℕ) → IsBytes bytes → text.now ≢ base64_text bytes }
{
    match STANDARD.decode(alloc, text) {
        Ok(list) => Ok(Bytes::of(list)),
        Err(DecodeAllocError::OutOfMemory) => Err(Refused::NoMemory),
        Err(DecodeAllocError::DecodeError(_)) => Err(Refused::Fault(TextFault::Bad)),
    }
}

/// The padded standard base64 text of the bytes (RFC 4648 section 4).
pub fn write_base64(alloc: Global, bytes: &[u8]) -> Result<Bytes, NoMemory>
    ensures text { IfOk result (λ text. text ≡ base64_text bytes.now) }
    ensures read_back { IfOk result (λ text. base64_of text ≡ Ok bytes.now) }
{
    let text = STANDARD.encode(alloc, bytes)?;
    Ok(Bytes::of(text.into_bytes()))
}

/// Writes the padded standard base64 text of up to 48 bytes behind what is there.
fn push_piece(out: &mut Vec<u8>, bytes: &[u8]) -> Result<(), NoMemory>
    requires { length bytes.now ≤ 48 }
    ensures ok { OnOk result (out.new.items ≡ out.old.items ++ base64_text bytes.now) }
    ensures err { OnErr result (out.new.items ≡ out.old.items) }
{
    let mut text = [0; 64];
    match STANDARD.encode_slice(bytes, &mut text) {
        Ok(len) => {
            out.extend_from_slice(&text[..len])?;
            Ok(())
        }
        Err(_) => unreachable!(),
    }
}

/// Writes the padded standard base64 text of the bytes (RFC 4648 section 4) behind what is there. Where memory runs out, a
/// prefix of it may be written.
pub fn push_base64(out: &mut Vec<u8>, bytes: &[u8]) -> Result<(), NoMemory>
    ensures ok { OnOk result (out.new.items ≡ out.old.items ++ base64_text bytes.now) }
    ensures err { OnErr result (Extends out.old.items out.new.items) }
{
    let mut rest = bytes;
    while rest.len() > 48 {
        let (piece, after) = rest.split_at(48);
        push_piece(out, piece)?;
        rest = after;
    }
    push_piece(out, rest)?;
    Ok(())
}

/// How many bytes a text of up to 64 symbols stands for.
fn decoded_len(chunk: &[u8]) -> Option<usize>
    requires { length chunk.now ≤ 64 }
    ensures { result ≡ option_map length (result_ok (decode_of standard chunk.now)) }
{
    let mut buffer = [0; 48];
    match STANDARD.decode_slice_unchecked(chunk, &mut buffer) {
        Ok(len) => Some(len),
        Err(_) => None,
    }
}

/// Whether the text is the padded standard base64 text (RFC 4648 section 4) of any bytes. It takes no memory.
pub fn is_base64(text: &[u8]) -> bool
    ensures { result ≡ is_base64 text.now }
{
    let mut rest = text;
    while rest.len() > 64 {
        let (chunk, after) = rest.split_at(64);
        match decoded_len(chunk) {
            None => return false,
            Some(len) => {
                if len != 48 {
                    return false;
                }
            }
        }
        rest = after;
    }
    decoded_len(rest).is_some()
}

/// The bytes of an even number of hexadecimal digits of either case. `Bad` comes exactly for every other text.
pub fn read_hex(alloc: Global, text: &[u8]) -> Result<Bytes, Refused<TextFault>>
    ensures exact { Gives result (hex_of text.now) }
    ensures ok { OnOk result (is_hex text.now ≡ true) }
    ensures bad { IsErrOf result (Refused.Fault TextFault.Bad) → is_hex text.now ≡ false }
{
    match hex::decode(alloc, text) {
        Ok(list) => Ok(Bytes::of(list)),
        Err(FromHexError::OutOfMemory) => Err(Refused::NoMemory),
        Err(_) => Err(Refused::Fault(TextFault::Bad)),
    }
}

/// The lower-case hexadecimal text of the bytes (RFC 4648 section 8).
pub fn write_hex(alloc: Global, bytes: &[u8]) -> Result<Bytes, NoMemory>
    ensures { IfOk result (λ text. text ≡ hex_text bytes.now) }
{
    let text = hex::encode(alloc, bytes)?;
    Ok(Bytes::of(text.into_bytes()))
}
