//! Opening a login: why it isn't opened, the challenge of Digest, and the nonce that is issued with it.

ghost use Rattle.std.specs.Prelude.{◌≡◌, ℕ, false, IfOk, OnErr, OnOk, None};
ghost use Rattle.ely_context.specs.ContextTable.{begin};
ghost use Rattle.ely_context.specs.Logins.{login_of, with_login};
ghost use Rattle.ely_domain.specs.Contexts.{seen_live};
ghost use Rattle.ely_domain.specs.Machine.{alg_of, challenge, is_used, issued, opening_fault};

use ely_base::{Bytes, CtxId, NoMemory, Refused, Serial};
use ely_config::Config;
use ely_context::{Context, Logins};
use ely_digest::NonceTable;
use ely_digest_msg::{DigestAlg, write_challenge};
use ely_login::Outcome;
use ely_row::Mech;
use std::alloc::Global;

/// The most logins that are live at once.
const LOGINS_LIMIT: usize = 4096;

/// The hash function of Digest that a mechanism names.
pub(crate) fn alg_of(mech: Mech) -> Option<DigestAlg>
    ensures { result ≡ alg_of mech }
{
    match mech {
        Mech::Digest => Some(DigestAlg::Md5),
        Mech::DigestSha256 => Some(DigestAlg::Sha256),
        _ => None,
    }
}

/// Whether the nonce, where the mechanism issues one, is known already.
fn is_used(nonces: &NonceTable, nonce: &Bytes, alg: Option<DigestAlg>) -> bool
    ensures { result ≡ is_used nonces.now nonce.now alg }
{
    match alg {
        None => false,
        Some(_) => nonces.holds(nonce.bytes()).is_some(),
    }
}

/// Why no login with this nonce can be opened under this id.
pub(crate) fn opening_fault(
    logins: &Logins,
    nonces: &NonceTable,
    id: CtxId,
    nonce: &Bytes,
    alg: Option<DigestAlg>,
) -> Option<Outcome>
    ensures { result ≡ opening_fault (seen_live logins.now nonces.now) id nonce.now alg }
{
    if logins.find(id).is_some() {
        return Some(Outcome::InUse);
    }
    if logins.len() >= LOGINS_LIMIT {
        return Some(Outcome::ContextsFull);
    }
    if is_used(nonces, nonce, alg) {
        return Some(Outcome::NonceUsed);
    }
    None
}

/// The challenge that an open answers, where the mechanism has one.
pub(crate) fn challenge(
    alloc: Global,
    config: &Config,
    nonce: &Bytes,
    alg: Option<DigestAlg>,
) -> Result<Option<Bytes>, NoMemory>
    ensures { (limit : ℕ) → IfOk result (λ text. text
        ≡ challenge (record { config = config.now; limit = limit }) nonce.now alg) }
{
    match alg {
        None => Ok(None),
        Some(alg) => {
            let realm = config.digest_realm().bytes();
            Ok(Some(write_challenge(alloc, realm, alg, nonce.bytes())?))
        }
    }
}

/// Issues a nonce that isn't known, where the mechanism issues one.
fn issue(
    alloc: Global,
    nonces: &mut NonceTable,
    nonce: &Bytes,
    alg: Option<DigestAlg>,
) -> Result<(), NoMemory>
    requires { is_used nonces.old nonce.now alg ≡ false }
    ensures issued { OnOk result (nonces.new ≡ issued nonces.old nonce.now alg) }
    ensures err { OnErr result (nonces.new ≡ nonces.old) }
{
    if alg.is_none() {
        return Ok(());
    }
    match nonces.issue(alloc, nonce.bytes()) {
        Ok(()) => Ok(()),
        Err(Refused::NoMemory) => Err(NoMemory),
        Err(Refused::Fault(_)) => unreachable!(),
    }
}

/// Opens a login under an id that isn't live, and issues its nonce; both or, where memory runs out, neither.
pub(crate) fn open(
    alloc: Global,
    logins: &mut Logins,
    nonces: &mut NonceTable,
    id: CtxId,
    serial: Serial,
    mech: Mech,
    nonce: Bytes,
) -> Result<(), NoMemory>
    requires absent { login_of logins.old id ≡ None }
    requires unused { is_used nonces.old nonce (alg_of mech) ≡ false }
    ensures opened { OnOk result (logins.new ≡ with_login logins.old id (begin serial mech nonce)) }
    ensures issued { OnOk result (nonces.new ≡ issued nonces.old nonce (alg_of mech)) }
    ensures err { OnErr result ((logins.new ≡ logins.old) × (nonces.new ≡ nonces.old)) }
{
    let kept = nonce.copy(alloc)?;
    logins.open(id, Context::begin(serial, mech, nonce))?;
    match issue(alloc, nonces, &kept, alg_of(mech)) {
        Ok(()) => Ok(()),
        Err(NoMemory) => {
            let _ = logins.close(id);
            Err(NoMemory)
        }
    }
}
