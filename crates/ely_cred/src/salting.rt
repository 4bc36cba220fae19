//! The salt of a clear password: the one that is given for every password, or one that is derived of the place.

ghost use Rattle.std.specs.Prelude.{◌≡◌, IfOk};
ghost use Rattle.ely_cred.specs.Keys.{derived_salt, salt_of};

use ely_base::{Bytes, Name, NoMemory};
use ely_hash::{HashAlg, Sha256Alg};
use ely_row::Params;
use std::alloc::Global;

/// The salt of a place where none is given. Under one seed no two places give one text, since a name has no NUL.
#[tactic(auto, unfolding(crate::specs::Keys::derived_salt))]
fn derived_salt(alloc: Global, seed: &[u8], realm: &Name, name: &Name) -> Result<Bytes, NoMemory>
    ensures { IfOk result (λ salt. salt ≡ derived_salt seed.now realm.now name.now) }
{
    let mut hash = Sha256Alg::start();
    hash.add(seed);
    hash.add(&[0]);
    hash.add(b"salt");
    hash.add(&[0]);
    hash.add(realm.bytes());
    hash.add(&[0]);
    hash.add(name.bytes());
    let digest = hash.end();
    Bytes::copy_of(alloc, &digest.bytes()[..16])
}

/// The salt by which a clear password of the place is salted.
pub(crate) fn salt_of(
    alloc: Global,
    params: &Params,
    realm: &Name,
    name: &Name,
) -> Result<Bytes, NoMemory>
    ensures { IfOk result (λ salt. salt ≡ salt_of params.now realm.now name.now) }
{
    match params.salt() {
        Some(salt) => salt.copy(alloc),
        None => derived_salt(alloc, params.seed().bytes(), realm, name),
    }
}
