//! What derives keys of a clear password, beside the password: the turns, the salt and the seed of derived salts.

ghost use Rattle.std.specs.Prelude.{◌≡◌, ◌↔◌, ◌≤◌, [], length, IsTrue, IfOk, None};
ghost use Rattle.ely_row.specs.Salts.{is_turns, is_salt_or_none, is_params, plain_params};

use ely_base::{Bytes, NoMemory};
use ely_hash::same;
use std::alloc::Global;
use std::marker::Model;

/// 1 to 1,000,000 turns, one salt of 1 to 64 bytes for every password or none, and a seed of 0 to 255 bytes.
#[derive(Debug, Drop)]
pub struct Params {
    turns: u32,
    salt: Option<Bytes>,
    seed: Bytes,
}

impl Model for Params {
    ghost use Rattle.std.specs.Prelude.{IsTrue};
    ghost use Rattle.ely_row.specs.Salts.{Params, is_params};

    ghost Value = { Params };

    ghost view = { λ p. record { turns = p.turns; salt = p.salt; seed = p.seed } };

    ghost invariant = { λ p. IsTrue (is_params (record { turns = p.turns; salt = p.salt; seed = p.seed })) };
}

/// An equal salt, where there is one.
fn copy_salt(alloc: Global, salt: &Option<Bytes>) -> Result<Option<Bytes>, NoMemory>
    ensures { IfOk result (λ copy. copy ≡ salt.now) }
{
    match salt {
        None => Ok(None),
        Some(salt) => Ok(Some(salt.copy(alloc)?)),
    }
}

/// Whether both are the same salt, or there is none in either.
fn same_salt(salt: &Option<Bytes>, other: &Option<Bytes>) -> bool
    ensures { IsTrue result ↔ (salt.now ≡ other.now) }
{
    match (salt, other) {
        (None, None) => true,
        (Some(salt), Some(other)) => same(salt.bytes(), other.bytes()),
        _ => false,
    }
}

impl Params {
    /// Keeps the parts, which are in their bounds. It takes no memory.
    pub fn of(turns: u32, salt: Option<Bytes>, seed: Bytes) -> Params
        requires { IsTrue (is_params (record { turns = turns; salt = salt; seed = seed })) }
        ensures { result ≡ record { turns = turns; salt = salt; seed = seed } }
    {
        Params { turns, salt, seed }
    }

    /// What holds where nothing else is said: 4,096 turns, derived salts and an empty seed.
    pub fn plain(alloc: Global) -> Params
        ensures { result ≡ plain_params }
    {
        Params {
            turns: 4096,
            salt: None,
            seed: Bytes::of(Vec::new(alloc)),
        }
    }

    /// The turns.
    pub fn turns(&self) -> u32
        ensures value { result ≡ self.now.turns }
        ensures bounds { IsTrue (is_params self.now) }
    {
        self.turns
    }

    /// The salt for every password, where there is one.
    pub fn salt(&self) -> &Option<Bytes>
        ensures { result.now ≡ self.now.salt }
    {
        &self.salt
    }

    /// The seed of derived salts.
    pub fn seed(&self) -> &Bytes
        ensures { result.now ≡ self.now.seed }
    {
        &self.seed
    }

    /// Equal parameters.
    pub fn copy(&self, alloc: Global) -> Result<Params, NoMemory>
        ensures { IfOk result (λ copy. copy ≡ self.now) }
    {
        Ok(Params {
            turns: self.turns,
            salt: copy_salt(alloc, &self.salt)?,
            seed: self.seed.copy(alloc)?,
        })
    }

    /// Whether both are equal.
    pub fn same(&self, other: &Params) -> bool
        ensures { IsTrue result ↔ (self.now ≡ other.now) }
    {
        self.turns == other.turns
            && same_salt(&self.salt, &other.salt)
            && same(self.seed.bytes(), other.seed.bytes())
    }
}
