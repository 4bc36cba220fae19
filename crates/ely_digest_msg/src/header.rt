//! The Authorization header of Digest (RFC 7616 section 3.4), read to the parts that it lends or to its first fault.
//! It takes no memory.

ghost use Rattle.std.specs.Prelude.{◌≡◌, ◌≤◌, IsTrue, length, IfOk};
ghost use Rattle.ely_base.specs.Names.{IsName};
ghost use Rattle.ely_digest_msg.specs.Fields.{given};
ghost use Rattle.ely_digest_msg.specs.Headers.{alg_text, needed, must, count_of, alg_of, is_plain, header_from, is_digest, header_of};

use crate::fault::{DigestFault, DigestField};
use crate::members::read_list;
use crate::parts::{same_word, starts};
use crate::quoted::Quoted;
use crate::quoted_name::QuotedName;
use crate::rest::from_offset;
use crate::table::Table;
use crate::values::{is_word, is_word_in_any_case, read_count};

/// The hash of a header (RFC 7616 section 3.4, `algorithm`).
#[derive(Clone, Copy, Debug, PartialEq, Eq)]
pub enum DigestAlg {
    Md5,
    Sha256,
}

impl DigestAlg {
    /// The name of the hash, as a header or a challenge writes it.
    pub fn text(self) -> &'static str
        ensures { result.now ≡ alg_text self }
    {
        match self {
            DigestAlg::Md5 => "MD5",
            DigestAlg::Sha256 => "SHA-256",
        }
    }
}

/// The fields of a header, lent from its text (RFC 7616 section 3.4). The values of `opaque` and of names that mean
/// nothing here are passed over; `qop` is `auth` and user names aren't hashed.
#[derive(Debug, Drop)]
pub struct HeaderView<'a> {
    /// MD5 where none is named.
    pub alg: DigestAlg,
    /// The user's name.
    pub name: QuotedName<'a>,
    pub realm: Quoted<'a>,
    pub nonce: Quoted<'a>,
    pub uri: Quoted<'a>,
    pub response: Quoted<'a>,
    /// How often the nonce was used by the client, this time among them.
    pub nc: u32,
    pub cnonce: Quoted<'a>,
}

/// The value of a field that has to be given.
fn needed<'a>(field: DigestField, table: &Table<'a>) -> Result<Quoted<'a>, DigestFault>
    ensures { result ≡ needed field table.now }
{
    match table.get(field) {
        None => Err(DigestFault::Missing(field)),
        Some(value) => Ok(value),
    }
}

/// Refused unless the test passes.
fn must(test: bool, fault: DigestFault) -> Result<(), DigestFault>
    ensures { result ≡ must test fault }
{
    if test { Ok(()) } else { Err(fault) }
}

/// The hash that is named, MD5 where none is.
fn read_alg(named: Option<Quoted<'_>>) -> Result<DigestAlg, DigestFault>
    ensures { result ≡ alg_of named.entry }
{
    match named {
        None => Ok(DigestAlg::Md5),
        Some(text) => {
            if is_word_in_any_case(&text, DigestAlg::Md5.text().as_bytes()) {
                Ok(DigestAlg::Md5)
            } else if is_word_in_any_case(&text, DigestAlg::Sha256.text().as_bytes()) {
                Ok(DigestAlg::Sha256)
            } else {
                Err(DigestFault::Algorithm)
            }
        }
    }
}

/// Whether names are given as they are.
fn is_plain(userhash: Option<Quoted<'_>>) -> bool
    ensures { result ≡ is_plain userhash.entry }
{
    match userhash {
        None => true,
        Some(text) => is_word_in_any_case(&text, b"false"),
    }
}

/// The header that the values make.
fn read_header<'a>(table: &Table<'a>) -> Result<HeaderView<'a>, DigestFault>
    ensures header { result ≡ header_from table.now }
    ensures name { IfOk result (λ h. IsName h.name) }
{
    let name = needed(DigestField::Username, table)?;
    let realm = needed(DigestField::Realm, table)?;
    let nonce = needed(DigestField::Nonce, table)?;
    let uri = needed(DigestField::Uri, table)?;
    let response = needed(DigestField::Response, table)?;
    let nc = needed(DigestField::Nc, table)?;
    let cnonce = needed(DigestField::Cnonce, table)?;
    let qop = needed(DigestField::Qop, table)?;
    let name = QuotedName::read(name)?;
    let nc = read_count(&nc)?;
    let alg = read_alg(table.get(DigestField::Algorithm))?;
    must(is_word(&qop, b"auth"), DigestFault::Qop)?;
    let userhash = table.get(DigestField::Userhash);
    must(is_plain(userhash), DigestFault::Userhash)?;
    Ok(HeaderView {
        alg,
        name,
        realm,
        nonce,
        uri,
        response,
        nc,
        cnonce,
    })
}

/// Whether the text begins with `Digest`, in any case, and a space.
fn is_digest(text: &[u8]) -> bool
    ensures value { result ≡ is_digest text.now }
    ensures long { IsTrue result → 7 ≤ length text.now }
{
    if text.len() < 7 {
        return false;
    }
    let (scheme, rest) = text.split_at(6);
    same_word(scheme, b"Digest") && starts(b' ', rest)
}

/// Reads a header to the parts of the text that it lends, or says its first fault. It takes no memory.
pub fn scan_authorization(text: &[u8]) -> Result<HeaderView<'_>, DigestFault>
    ensures header { result ≡ header_of text.now }
    ensures name { IfOk result (λ h. IsName h.name) }
{
    if !is_digest(text) {
        return Err(DigestFault::Scheme);
    }
    let table = read_list(text.len(), from_offset(text, 7))?;
    read_header(&table)
}
