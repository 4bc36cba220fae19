//! The hash that Digest keeps in place of a password, H(A1) of RFC 7616 section 3.4.2, with the realm that stands in it.

ghost use Rattle.std.specs.Prelude.{◌≡◌, ◌↔◌, ◌⊎◌, length, IsTrue, is_some, IfSome, IfOk};
ghost use Rattle.std.specs.List.{list_all};
ghost use Rattle.ely_base.specs.Refused.{Gives};
ghost use Rattle.ely_row.specs.Creds.{hex_part, mapped, sized_of, digest_realm_of, hashed_of};
ghost use Rattle.ely_row.specs.Salts.{is_realm_byte, is_realm_len, is_realm, is_hashed, is_hashed_by};

use crate::cut::cut;
use crate::fault::CredFault;
use ely_base::{Bytes, NoMemory, Refused, read_hex};
use ely_hash::{Tag, same};
use std::alloc::Global;
use std::marker::Model;

/// A hash of 16 or 32 bytes, with its realm: 1 to 255 bytes of printable ASCII without the double quote and the backslash.
#[derive(Debug, Drop)]
pub struct Ha1 {
    realm: Bytes,
    hash: Tag,
}

impl Model for Ha1 {
    ghost use Rattle.std.specs.Prelude.{IsTrue};
    ghost use Rattle.ely_row.specs.Salts.{Ha1, is_hashed};

    ghost Value = { Ha1 };

    ghost view = { λ h. record { realm = h.realm; hash = h.hash } };

    ghost invariant = { λ h. IsTrue (is_hashed (record { realm = h.realm; hash = h.hash })) };
}

fn is_realm_byte(b: u8) -> bool
    ensures { result ≡ is_realm_byte b }
{
    0x20 <= b && b <= 0x7E && !(b == b'"' || b == b'\\')
}

fn are_realm_bytes(realm: &[u8]) -> bool
    ensures { result ≡ list_all is_realm_byte realm.now }
{
    realm.iter().all(|b| is_realm_byte(*b))
}

/// The bytes of a hexadecimal text.
fn read_hex_part(alloc: Global, text: &[u8]) -> Result<Bytes, Refused<CredFault>>
    ensures { Gives result (hex_part text.now) }
{
    match read_hex(alloc, text) {
        Ok(bytes) => Ok(bytes),
        Err(Refused::NoMemory) => Err(Refused::NoMemory),
        Err(Refused::Fault(_)) => Err(Refused::Fault(CredFault::Hex)),
    }
}

/// The tag of so many bytes.
fn sized(len: usize, bytes: &[u8]) -> Result<Tag, CredFault>
    requires { (len ≡ 16) ⊎ (len ≡ 32) }
    ensures exact { result ≡ mapped (λ u. bytes.now) (sized_of len bytes.now) }
    ensures len { IfOk result (λ tag. length tag ≡ len) }
{
    if bytes.len() != len {
        return Err(CredFault::Length);
    }
    match Tag::of(bytes) {
        None => Err(CredFault::Length),
        Some(tag) => Ok(tag),
    }
}

/// The realm, or its fault.
fn read_realm(alloc: Global, realm: &[u8]) -> Result<Bytes, Refused<CredFault>>
    ensures value { Gives result (digest_realm_of realm.now) }
    ensures bounds { IfOk result (λ r. IsTrue (is_realm r)) }
{
    if realm.is_empty() || realm.len() > 255 {
        return Err(Refused::Fault(CredFault::Length));
    }
    if !are_realm_bytes(realm) {
        return Err(Refused::Fault(CredFault::Text));
    }
    Ok(Bytes::copy_of(alloc, realm)?)
}

/// Reads `HEX:REALM`, a hash of `len` bytes in hexadecimal and its realm.
#[tactic(auto, unfolding(crate::specs::Creds::hashed_of))]
pub(crate) fn read_hashed(alloc: Global, len: usize, text: &[u8]) -> Result<Ha1, Refused<CredFault>>
    requires { (len ≡ 16) ⊎ (len ≡ 32) }
    ensures value { Gives result (hashed_of len text.now) }
    ensures bounds { IfOk result (λ h. IsTrue (is_hashed_by len h)) }
{
    let Some((hash, realm)) = cut(text) else {
        return Err(Refused::Fault(CredFault::Hex));
    };
    let bytes = read_hex_part(alloc, hash)?;
    let hash = sized(len, bytes.bytes())?;
    let realm = read_realm(alloc, realm)?;
    Ok(Ha1 { realm, hash })
}

/// Whether the bytes may be a realm of Digest: 1 to 255 bytes of printable ASCII without the double quote and the backslash.
pub fn is_realm(realm: &[u8]) -> bool
    ensures { result ≡ is_realm realm.now }
{
    1 <= realm.len() && realm.len() <= 255 && are_realm_bytes(realm)
}

impl Ha1 {
    /// Keeps a hash with its realm; `None` exactly where one is out of its bounds. It takes no memory.
    pub fn of(realm: Bytes, hash: Tag) -> Option<Ha1>
        ensures bounds { is_some result ≡ is_hashed (record { realm = realm; hash = hash }) }
        ensures value { IfSome result (λ h. h ≡ record { realm = realm; hash = hash }) }
    {
        let len = hash.bytes().len();
        if !is_realm(realm.bytes()) || (len != 16 && len != 32) {
            return None;
        }
        Some(Ha1 { realm, hash })
    }

    /// Whether the hash has so many bytes.
    pub(crate) fn is_of(&self, len: usize) -> bool
        ensures { result ≡ is_hashed_by len self.now }
    {
        self.hash.bytes().len() == len
    }

    /// The realm.
    pub fn realm(&self) -> &Bytes
        ensures { result.now ≡ self.now.realm }
    {
        &self.realm
    }

    /// The hash.
    pub fn hash(&self) -> &Tag
        ensures value { result.now ≡ self.now.hash }
        ensures bounds { IsTrue (is_hashed self.now) }
    {
        &self.hash
    }

    /// An equal value.
    pub fn copy(&self, alloc: Global) -> Result<Ha1, NoMemory>
        ensures { IfOk result (λ copy. copy ≡ self.now) }
    {
        Ok(Ha1 {
            realm: self.realm.copy(alloc)?,
            hash: self.hash,
        })
    }

    /// Whether both are equal.
    pub fn same(&self, other: &Ha1) -> bool
        ensures { IsTrue result ↔ (self.now ≡ other.now) }
    {
        same(self.realm.bytes(), other.realm.bytes()) && same(self.hash.bytes(), other.hash.bytes())
    }
}
