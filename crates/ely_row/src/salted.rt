//! A salted password with the turns and the salt that made it, which SCRAM keeps in place of a password (RFC 5802
//! section 3). It knows the bounds of its parts and no hash function.

ghost use Rattle.std.specs.Prelude.{◌≡◌, ◌↔◌, ◌⊎◌, ◌≤◌, IsTrue, is_some, IfSome, IfOk};
ghost use Rattle.ely_base.specs.Refused.{Gives};
ghost use Rattle.ely_row.specs.Creds.{turns_of, base64_part, salted_of};
ghost use Rattle.ely_row.specs.Salts.{is_turns, is_salt, is_salted, is_salted_by};

use crate::cut::cut;
use crate::fault::CredFault;
use ely_base::{Bytes, NoMemory, Refused, read_base64, read_number};
use ely_hash::{Tag, same};
use std::alloc::Global;
use std::marker::Model;

/// The most turns.
const MOST_TURNS: u64 = 1_000_000;

/// A salted password of 20 or 32 bytes, with the turns, 1 to 1,000,000, and the salt, 1 to 64 bytes, that made it.
#[derive(Debug, Drop)]
pub struct Salted {
    turns: u32,
    salt: Bytes,
    salted: Tag,
}

impl Model for Salted {
    ghost use Rattle.std.specs.Prelude.{IsTrue};
    ghost use Rattle.ely_row.specs.Salts.{Salted, is_salted};

    ghost Value = { Salted };

    ghost view = { λ s. record { turns = s.turns; salt = s.salt; salted = s.salted } };

    ghost invariant = { λ s. IsTrue (is_salted (record { turns = s.turns; salt = s.salt; salted = s.salted })) };
}

/// Whether the bytes may be a salt.
pub fn is_salt(salt: &[u8]) -> bool
    ensures { result ≡ is_salt salt.now }
{
    1 <= salt.len() && salt.len() <= 64
}

/// The turns that the text is a number of.
fn read_turns(text: &[u8]) -> Result<u32, CredFault>
    ensures value { result ≡ turns_of text.now }
    ensures bounds { IfOk result (λ turns. IsTrue (is_turns turns)) }
{
    match read_number(text, MOST_TURNS) {
        None => Err(CredFault::Turns),
        Some(0) => Err(CredFault::Turns),
        Some(turns) => Ok(turns as u32),
    }
}

/// The bytes of a base64 text.
fn read_base64_part(alloc: Global, text: &[u8]) -> Result<Bytes, Refused<CredFault>>
    ensures { Gives result (base64_part text.now) }
{
    match read_base64(alloc, text) {
        Ok(bytes) => Ok(bytes),
        Err(Refused::NoMemory) => Err(Refused::NoMemory),
        Err(Refused::Fault(_)) => Err(Refused::Fault(CredFault::Base64)),
    }
}

/// Reads `TURNS:SALT:KEY`, a number and two base64 texts, where the key has `len` bytes.
#[tactic(auto, unfolding(crate::specs::Creds::salted_of))]
pub(crate) fn read_salted(
    alloc: Global,
    len: usize,
    text: &[u8],
) -> Result<Salted, Refused<CredFault>>
    requires { (len ≡ 20) ⊎ (len ≡ 32) }
    ensures value { Gives result (salted_of len text.now) }
    ensures bounds { IfOk result (λ s. IsTrue (is_salted_by len s)) }
{
    let Some((turns, rest)) = cut(text) else {
        return Err(Refused::Fault(CredFault::Turns));
    };
    let Some((salt, key)) = cut(rest) else {
        return Err(Refused::Fault(CredFault::Turns));
    };
    let turns = read_turns(turns)?;
    let salt = read_base64_part(alloc, salt)?;
    let key = read_base64_part(alloc, key)?;
    if !is_salt(salt.bytes()) || key.bytes().len() != len {
        return Err(Refused::Fault(CredFault::Length));
    }
    match Tag::of(key.bytes()) {
        None => Err(Refused::Fault(CredFault::Length)),
        Some(salted) => Ok(Salted {
            turns,
            salt,
            salted,
        }),
    }
}

/// Whether there may be so many turns.
fn is_turns(turns: u32) -> bool
    ensures { result ≡ is_turns turns }
{
    1 <= turns && u64::from(turns) <= MOST_TURNS
}

impl Salted {
    /// Keeps the parts; `None` exactly where one is out of its bounds. It takes no memory.
    pub fn of(turns: u32, salt: Bytes, salted: Tag) -> Option<Salted>
        ensures bounds { is_some result
            ≡ is_salted (record { turns = turns; salt = salt; salted = salted }) }
        ensures value { IfSome result
            (λ s. s ≡ record { turns = turns; salt = salt; salted = salted }) }
    {
        let len = salted.bytes().len();
        if !is_turns(turns) || !is_salt(salt.bytes()) || (len != 20 && len != 32) {
            return None;
        }
        Some(Salted {
            turns,
            salt,
            salted,
        })
    }

    /// Whether the salted password has so many bytes.
    pub(crate) fn is_of(&self, len: usize) -> bool
        ensures { result ≡ is_salted_by len self.now }
    {
        self.salted.bytes().len() == len
    }

    /// How many turns made it.
    pub fn turns(&self) -> u32
        ensures value { result ≡ self.now.turns }
        ensures bounds { IsTrue (is_salted self.now) }
    {
        self.turns
    }

    /// The salt that made it.
    pub fn salt(&self) -> &Bytes
        ensures { result.now ≡ self.now.salt }
    {
        &self.salt
    }

    /// The salted password.
    pub fn salted(&self) -> &Tag
        ensures { result.now ≡ self.now.salted }
    {
        &self.salted
    }

    /// An equal value.
    pub fn copy(&self, alloc: Global) -> Result<Salted, NoMemory>
        ensures { IfOk result (λ copy. copy ≡ self.now) }
    {
        Ok(Salted {
            turns: self.turns,
            salt: self.salt.copy(alloc)?,
            salted: self.salted,
        })
    }

    /// Whether both are equal.
    pub fn same(&self, other: &Salted) -> bool
        ensures { IsTrue result ↔ (self.now ≡ other.now) }
    {
        self.turns == other.turns
            && same(self.salt.bytes(), other.salt.bytes())
            && same(self.salted.bytes(), other.salted.bytes())
    }
}
