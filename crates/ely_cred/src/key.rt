//! A key that a login is judged by, with all that it was derived of.

ghost use Rattle.std.specs.Prelude.{◌≡◌, ◌↔◌, Some, IsTrue, IfOk};
ghost use Rattle.ely_cred.specs.Keys.{ready_from, key_of};

use ely_base::{Bytes, Name, NoMemory};
use ely_hash::{ScramKeys, same};
use ely_row::{Ha1, Mech, Params, Salted, StoredCred};
use std::alloc::Global;
use std::marker::Model;

/// What a login is judged by.
#[derive(Debug, Drop)]
pub enum ReadyKey {
    /// A password as it is.
    Password(Bytes),
    /// The keys of SCRAM, with the salt and the turns that the client is told.
    Scram {
        keys: ScramKeys,
        salt: Bytes,
        turns: u32,
    },
    /// A salted password, with which a password in the clear is compared.
    Salted(Salted),
    /// A hash of Digest.
    Ha1(Ha1),
}

/// A key with the place, the mechanism, the credential and the parameters that it was derived of. It keeps in its type that
/// the key is their derivation.
#[derive(Debug, Drop)]
pub struct Ready {
    realm: Name,
    name: Name,
    mech: Mech,
    cred: StoredCred,
    params: Params,
    key: ReadyKey,
}

impl Model for Ready {
    ghost use Rattle.std.specs.Prelude.{◌≡◌, Some};
    ghost use Rattle.ely_cred.specs.Keys.{Ready, ready_from, key_of};

    ghost Value = { Ready };

    ghost view = { λ r. ready_from r.params r.realm r.name r.mech r.cred r.key };

    ghost invariant = { λ r. Some r.key ≡ key_of r.params r.realm r.name r.mech r.cred };
}

impl ReadyKey {
    /// An equal key.
    fn copy(&self, alloc: Global) -> Result<ReadyKey, NoMemory>
        ensures { IfOk result (λ copy. copy ≡ self.now) }
    {
        match self {
            ReadyKey::Password(password) => Ok(ReadyKey::Password(password.copy(alloc)?)),
            ReadyKey::Scram { keys, salt, turns } => Ok(ReadyKey::Scram {
                keys: *keys,
                salt: salt.copy(alloc)?,
                turns: *turns,
            }),
            ReadyKey::Salted(salted) => Ok(ReadyKey::Salted(salted.copy(alloc)?)),
            ReadyKey::Ha1(ha1) => Ok(ReadyKey::Ha1(ha1.copy(alloc)?)),
        }
    }
}

impl Ready {
    /// Keeps a key with all that it was derived of. It takes no memory.
    pub(crate) fn of(
        realm: Name,
        name: Name,
        mech: Mech,
        cred: StoredCred,
        params: Params,
        key: ReadyKey,
    ) -> Ready
        requires { Some key ≡ key_of params realm name mech cred }
        ensures { result ≡ ready_from params realm name mech cred key }
    {
        Ready {
            realm,
            name,
            mech,
            cred,
            params,
            key,
        }
    }

    /// The realm of the place.
    pub fn realm(&self) -> &Name
        ensures { result.now ≡ self.now.realm }
    {
        &self.realm
    }

    /// The name of the place.
    pub fn name(&self) -> &Name
        ensures { result.now ≡ self.now.name }
    {
        &self.name
    }

    /// The mechanism that it is for.
    pub fn mech(&self) -> Mech
        ensures value { result ≡ self.now.mech }
        ensures derived { Some self.now.key
            ≡ key_of self.now.params self.now.realm self.now.name self.now.mech self.now.cred }
    {
        self.mech
    }

    /// The credential that it was derived of.
    pub fn cred(&self) -> &StoredCred
        ensures { result.now ≡ self.now.cred }
    {
        &self.cred
    }

    /// What derived it, beside the credential.
    pub fn params(&self) -> &Params
        ensures { result.now ≡ self.now.params }
    {
        &self.params
    }

    /// The key.
    pub fn key(&self) -> &ReadyKey
        ensures { result.now ≡ self.now.key }
    {
        &self.key
    }

    /// An equal value.
    pub fn copy(&self, alloc: Global) -> Result<Ready, NoMemory>
        ensures { IfOk result (λ copy. copy ≡ self.now) }
    {
        Ok(Ready {
            realm: self.realm.copy(alloc)?,
            name: self.name.copy(alloc)?,
            mech: self.mech,
            cred: self.cred.copy(alloc)?,
            params: self.params.copy(alloc)?,
            key: self.key.copy(alloc)?,
        })
    }

    /// Whether both are equal. The keys are, where all is that they were derived of.
    pub fn same(&self, other: &Ready) -> bool
        ensures { IsTrue result ↔ (self.now ≡ other.now) }
    {
        self.mech == other.mech
            && same(self.realm.bytes(), other.realm.bytes())
            && same(self.name.bytes(), other.name.bytes())
            && self.cred.same(&other.cred)
            && self.params.same(&other.params)
    }
}
