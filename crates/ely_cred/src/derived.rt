//! The key that an identity's credential gives for a mechanism.

ghost use Rattle.std.specs.Prelude.{◌≡◌, ℕ, ◌+◌, List, Some, IsTrue, IsSome, IfOk, MatchResult};
ghost use Rattle.std.specs.Option.{option_map};
ghost use Rattle.ely_row.specs.Salts.{Params};
ghost use Rattle.ely_cred.specs.Keys.{scram_keys, kept_key, salted_key, serves, chosen, key_of, ready_from, ready_of, key_cost, ready_cost};

use crate::choosing::chosen_entry;
use crate::key::{Ready, ReadyKey};
use crate::salting::salt_of;
use ely_base::{Bytes, Name, NoMemory};
use ely_hash::{HashAlg, Sha1Alg, Sha256Alg, Steps, Tag, hi, keys_of};
use ely_row::{Credential, Ha1, Mech, Params, Row, Salted, StoredCred};
use std::alloc::Global;
use std::sync::ledger::Ledger;

/// The keys of SCRAM of a salted password, with the salt and the turns that made it.
fn scram_key<H: HashAlg, L: Ledger>(
    salted: &Tag,
    salt: Bytes,
    turns: u32,
    steps: &mut Steps<L>,
) -> ReadyKey
    ensures value { result ≡ ReadyKey.Scram (scram_keys H.hash salted.now) salt turns }
    ensures cost { steps.new ≡ steps.old + 2 }
{
    ReadyKey::Scram {
        keys: keys_of::<H, L>(salted, steps),
        salt,
        turns,
    }
}

/// The key of a password that was salted before.
fn kept_key<H: HashAlg, L: Ledger>(
    alloc: Global,
    salted: &Salted,
    steps: &mut Steps<L>,
) -> Result<ReadyKey, NoMemory>
    ensures value { IfOk result (λ key. key ≡ kept_key H.hash salted.now) }
    ensures cost { MatchResult result
        (λ _. steps.new ≡ steps.old + 2) (λ _. steps.new ≡ steps.old) }
{
    let salt = salted.salt().copy(alloc)?;
    Ok(scram_key::<H, L>(salted.salted(), salt, salted.turns(), steps))
}

/// The key of a clear password, salted now.
fn salted_key<H: HashAlg, L: Ledger>(
    alloc: Global,
    params: &Params,
    realm: &Name,
    name: &Name,
    password: &Bytes,
    steps: &mut Steps<L>,
) -> Result<ReadyKey, NoMemory>
    ensures value { IfOk result (λ key. key
        ≡ salted_key H.hash params.now realm.now name.now password.now) }
    ensures cost { MatchResult result
        (λ _. steps.new ≡ steps.old + params.now.turns + 2) (λ _. steps.new ≡ steps.old) }
{
    let salt = salt_of(alloc, params, realm, name)?;
    let turns = params.turns();
    let salted = hi::<H, L>(password.bytes(), salt.bytes(), turns, steps);
    Ok(scram_key::<H, L>(&salted, salt, turns, steps))
}

/// The key of a credential for PLAIN: the credential itself.
#[tactic(auto, unfolding(crate::specs::Keys::key_of))]
fn plain_key(alloc: Global, cred: &StoredCred) -> Result<ReadyKey, NoMemory>
    ensures { (params : Params) (realm name : List ℕ)
        → IfOk result (λ key. Some key ≡ key_of params realm name Mech.Plain cred.now) }
{
    match cred.credential() {
        Credential::Clear(password) => Ok(ReadyKey::Password(password.copy(alloc)?)),
        Credential::ScramSha1(salted) => Ok(ReadyKey::Salted(salted.copy(alloc)?)),
        Credential::ScramSha256(salted) => Ok(ReadyKey::Salted(salted.copy(alloc)?)),
        Credential::DigestMd5(ha1) => Ok(ReadyKey::Ha1(ha1.copy(alloc)?)),
        Credential::DigestSha256(ha1) => Ok(ReadyKey::Ha1(ha1.copy(alloc)?)),
    }
}

/// The key that a credential of a place gives for a mechanism that it serves.
#[tactic(auto, unfolding(crate::specs::Keys::key_of))]
fn key_of<L: Ledger>(
    alloc: Global,
    params: &Params,
    realm: &Name,
    name: &Name,
    mech: Mech,
    cred: &StoredCred,
    steps: &mut Steps<L>,
) -> Result<ReadyKey, NoMemory>
    requires { IsTrue (serves mech cred.now) }
    ensures value { IfOk result (λ key. Some key
        ≡ key_of params.now realm.now name.now mech cred.now) }
    ensures cost { MatchResult result
        (λ _. steps.new ≡ steps.old + key_cost params.now.turns mech cred.now) (λ _. steps.new ≡ steps.old) }
{
    match (mech, cred.credential()) {
        (Mech::Plain, _) => plain_key(alloc, cred),
        (Mech::ScramSha1, Credential::Clear(password)) => {
            salted_key::<Sha1Alg, L>(alloc, params, realm, name, password, steps)
        }
        (Mech::ScramSha1, Credential::ScramSha1(salted)) => {
            kept_key::<Sha1Alg, L>(alloc, salted, steps)
        }
        (Mech::ScramSha256, Credential::Clear(password)) => {
            salted_key::<Sha256Alg, L>(alloc, params, realm, name, password, steps)
        }
        (Mech::ScramSha256, Credential::ScramSha256(salted)) => {
            kept_key::<Sha256Alg, L>(alloc, salted, steps)
        }
        (_, Credential::Clear(password)) => Ok(ReadyKey::Password(password.copy(alloc)?)),
        (Mech::Digest, Credential::DigestMd5(ha1)) => Ok(ReadyKey::Ha1(ha1.copy(alloc)?)),
        (Mech::DigestSha256, Credential::DigestSha256(ha1)) => Ok(ReadyKey::Ha1(ha1.copy(alloc)?)),
        _ => unreachable!(),
    }
}

/// The key of a credential that serves, with all that it is derived of. The copies are made first, so that no step is taken
/// where memory runs out.
fn ready_by<L: Ledger>(
    alloc: Global,
    realm: &Name,
    name: &Name,
    cred: &StoredCred,
    mech: Mech,
    params: &Params,
    steps: &mut Steps<L>,
) -> Result<Ready, NoMemory>
    requires { IsTrue (serves mech cred.now) }
    ensures value { IfOk result (λ ready. Some ready
        ≡ option_map (ready_from params.now realm.now name.now mech cred.now)
        (key_of params.now realm.now name.now mech cred.now)) }
    ensures cost { MatchResult result
        (λ _. steps.new ≡ steps.old + key_cost params.now.turns mech cred.now) (λ _. steps.new ≡ steps.old) }
{
    let kept_realm = realm.copy(alloc)?;
    let kept_name = name.copy(alloc)?;
    let kept_cred = cred.copy(alloc)?;
    let kept_params = params.copy(alloc)?;
    let key = key_of::<L>(alloc, params, realm, name, mech, cred, steps)?;
    Ok(Ready::of(kept_realm, kept_name, mech, kept_cred, kept_params, key))
}

/// The key of the credential that serves the mechanism, the one of the lowest slot, with all that it is derived of. Each
/// HMAC computation is one step: the turns and two for a clear password under SCRAM, two for a salted one, and none else;
/// none where memory runs out.
#[tactic(auto, unfolding(crate::specs::Keys::ready_of))]
pub fn derive<L: Ledger>(
    alloc: Global,
    realm: &Name,
    name: &Name,
    row: &Row,
    mech: Mech,
    params: &Params,
    steps: &mut Steps<L>,
) -> Result<Ready, NoMemory>
    requires { IsSome (chosen mech row.now) }
    ensures value { IfOk result (λ ready. Some ready
        ≡ ready_of params.now realm.now name.now mech row.now) }
    ensures cost { MatchResult result
        (λ _. steps.new ≡ steps.old + ready_cost params.now mech row.now) (λ _. steps.new ≡ steps.old) }
{
    match chosen_entry(row, mech) {
        Some((_, cred)) => ready_by::<L>(alloc, realm, name, cred, mech, params, steps),
        None => unreachable!(),
    }
}
