//! What an identity proves itself with, in the five kinds in which it is stored.

ghost use Rattle.std.specs.Prelude.{◌≡◌, ◌↔◌, IsTrue, is_some, IfSome, IfOk};
ghost use Rattle.std.specs.List.{list_any};
ghost use Rattle.ely_base.specs.Names.{is_barred};
ghost use Rattle.ely_base.specs.Refused.{Gives};
ghost use Rattle.ely_row.specs.Creds.{is_kind, is_password, is_clear, clear_of, cred_of, is_stored, mapped};

use crate::fault::CredFault;
use crate::ha1::{Ha1, read_hashed};
use crate::salted::{Salted, read_salted};
use ely_base::{Bytes, NoMemory, Refused, text_len};
use ely_hash::same;
use std::alloc::Global;
use std::marker::Model;

/// A credential of one of the five kinds.
#[derive(Debug, Drop)]
pub enum Credential {
    /// A password as it is: 1 to 1,024 bytes of UTF-8 without NUL and LF.
    Clear(Bytes),
    /// A password salted with SHA-1, of 20 bytes (RFC 5802).
    ScramSha1(Salted),
    /// A password salted with SHA-256, of 32 bytes (RFC 7677).
    ScramSha256(Salted),
    /// A hash of MD5, of 16 bytes (RFC 7616).
    DigestMd5(Ha1),
    /// A hash of SHA-256, of 32 bytes (RFC 7616).
    DigestSha256(Ha1),
}

/// A stored credential, seen as what it is. It is within the bounds of its kind.
#[derive(Debug, Drop)]
pub struct StoredCred {
    credential: Credential,
}

impl Model for StoredCred {
    ghost use Rattle.ely_row.specs.declared.cred.Credential.{Credential};

    ghost Value = { Credential };

    ghost use Rattle.std.specs.Prelude.{IsTrue};
    ghost use Rattle.ely_row.specs.Creds.{is_stored};

    ghost view = { λ c. c.credential };

    ghost invariant = { λ c. IsTrue (is_stored c.credential) };
}

/// Whether a credential may have this kind.
pub fn is_kind(kind: &[u8]) -> bool
    ensures { result ≡ is_kind kind.now }
{
    kind == b"clear".as_slice()
        || kind == b"scram-sha-1".as_slice()
        || kind == b"scram-sha-256".as_slice()
        || kind == b"digest-md5".as_slice()
        || kind == b"digest-sha-256".as_slice()
}

/// Whether a NUL or LF stands in the text.
fn has_barred(text: &[u8]) -> bool
    ensures { result ≡ list_any is_barred text.now }
{
    text.iter().any(|b| *b == 0 || *b == 10)
}

/// Whether the text is UTF-8 without NUL and LF.
fn is_password(text: &[u8]) -> bool
    ensures { result ≡ is_password text.now }
{
    text_len(text) >= text.len() && !has_barred(text)
}

fn read_clear(alloc: Global, text: &[u8]) -> Result<Credential, Refused<CredFault>>
    ensures value { Gives result (clear_of text.now) }
    ensures bounds { IfOk result (λ c. IsTrue (is_stored c)) }
{
    if text.is_empty() || text.len() > 1024 {
        return Err(Refused::Fault(CredFault::Length));
    }
    if !is_password(text) {
        return Err(Refused::Fault(CredFault::Text));
    }
    Ok(Credential::Clear(Bytes::copy_of(alloc, text)?))
}

/// The credential of a kind and a text.
#[tactic(auto, unfolding(crate::specs::Creds::cred_of))]
fn read_credential(
    alloc: Global,
    kind: &[u8],
    text: &[u8],
) -> Result<Credential, Refused<CredFault>>
    ensures value { Gives result (cred_of kind.now text.now) }
    ensures bounds { IfOk result (λ c. IsTrue (is_stored c)) }
{
    if kind == b"clear".as_slice() {
        read_clear(alloc, text)
    } else if kind == b"scram-sha-1".as_slice() {
        Ok(Credential::ScramSha1(read_salted(alloc, 20, text)?))
    } else if kind == b"scram-sha-256".as_slice() {
        Ok(Credential::ScramSha256(read_salted(alloc, 32, text)?))
    } else if kind == b"digest-md5".as_slice() {
        Ok(Credential::DigestMd5(read_hashed(alloc, 16, text)?))
    } else if kind == b"digest-sha-256".as_slice() {
        Ok(Credential::DigestSha256(read_hashed(alloc, 32, text)?))
    } else {
        Err(Refused::Fault(CredFault::Kind))
    }
}

/// Whether the password is of 1 to 1,024 bytes of UTF-8 without NUL and LF.
fn is_clear(password: &[u8]) -> bool
    ensures { result ≡ is_clear password.now }
{
    !password.is_empty() && password.len() <= 1024 && is_password(password)
}

/// Whether the credential is within the bounds of its kind.
fn is_stored(credential: &Credential) -> bool
    ensures { result ≡ is_stored credential.now }
{
    match credential {
        Credential::Clear(password) => is_clear(password.bytes()),
        Credential::ScramSha1(salted) => salted.is_of(20),
        Credential::ScramSha256(salted) => salted.is_of(32),
        Credential::DigestMd5(ha1) => ha1.is_of(16),
        Credential::DigestSha256(ha1) => ha1.is_of(32),
    }
}

/// Whether both are equal.
fn same_credential(credential: &Credential, other: &Credential) -> bool
    ensures { IsTrue result ↔ (credential.now ≡ other.now) }
{
    match (credential, other) {
        (Credential::Clear(a), Credential::Clear(b)) => same(a.bytes(), b.bytes()),
        (Credential::ScramSha1(a), Credential::ScramSha1(b)) => a.same(b),
        (Credential::ScramSha256(a), Credential::ScramSha256(b)) => a.same(b),
        (Credential::DigestMd5(a), Credential::DigestMd5(b)) => a.same(b),
        (Credential::DigestSha256(a), Credential::DigestSha256(b)) => a.same(b),
        _ => false,
    }
}

impl StoredCred {
    /// Reads a credential of a kind from its text, or says its first fault. The kinds are `clear` (the password),
    /// `scram-sha-1` and `scram-sha-256` (`TURNS:SALT:KEY`, a number and two base64 texts), `digest-md5` and
    /// `digest-sha-256` (`HEX:REALM`, a hash in hexadecimal and a realm). The faults come in this order: of `clear` the
    /// length, then the text; of SCRAM the turns, also where a colon is missing, the base64 of the salt, that of the key,
    /// then a length; of Digest the hexadecimal, also where the colon is missing, the length of the hash, that of the
    /// realm, then the realm's text.
    pub fn read(alloc: Global, kind: &[u8], text: &[u8]) -> Result<StoredCred, Refused<CredFault>>
        ensures { Gives result (cred_of kind.now text.now) }
    {
        Ok(StoredCred {
            credential: read_credential(alloc, kind, text)?,
        })
    }

    /// Keeps a credential; `None` exactly where it is out of the bounds of its kind. It takes no memory.
    pub fn of(credential: Credential) -> Option<StoredCred>
        ensures bounds { is_some result ≡ is_stored credential }
        ensures value { IfSome result (λ cred. cred ≡ credential) }
    {
        if !is_stored(&credential) {
            return None;
        }
        Some(StoredCred { credential })
    }

    /// The credential by its kind.
    pub fn credential(&self) -> &Credential
        ensures value { result.now ≡ self.now }
        ensures bounds { IsTrue (is_stored self.now) }
    {
        &self.credential
    }

    /// An equal credential.
    pub fn copy(&self, alloc: Global) -> Result<StoredCred, NoMemory>
        ensures { IfOk result (λ copy. copy ≡ self.now) }
    {
        let credential = match &self.credential {
            Credential::Clear(password) => Credential::Clear(password.copy(alloc)?),
            Credential::ScramSha1(salted) => Credential::ScramSha1(salted.copy(alloc)?),
            Credential::ScramSha256(salted) => Credential::ScramSha256(salted.copy(alloc)?),
            Credential::DigestMd5(ha1) => Credential::DigestMd5(ha1.copy(alloc)?),
            Credential::DigestSha256(ha1) => Credential::DigestSha256(ha1.copy(alloc)?),
        };
        Ok(StoredCred { credential })
    }

    /// Whether both are equal.
    pub fn same(&self, other: &StoredCred) -> bool
        ensures { IsTrue result ↔ (self.now ≡ other.now) }
    {
        same_credential(&self.credential, &other.credential)
    }
}
