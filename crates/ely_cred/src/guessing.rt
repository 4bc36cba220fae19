//! Whether a password that is shown in the clear proves an identity (PLAIN, RFC 4616).

ghost use Rattle.std.specs.Prelude.{◌≡◌, ◌+◌};
ghost use Rattle.ely_cred.specs.Guesses.{proves_salted, proves_hashed, proves, guess_cost};

use crate::key::Ready;
use ely_base::Name;
use ely_hash::{HashAlg, Md5Alg, Sha1Alg, Sha256Alg, Steps, hi};
use ely_row::{Credential, Ha1, Mech, Salted};
use std::sync::ledger::Ledger;

/// Whether the password, salted in the same way, is the salted one.
fn proves_salted<H: HashAlg, L: Ledger>(
    salted: &Salted,
    password: &[u8],
    steps: &mut Steps<L>,
) -> bool
    ensures value { result ≡ proves_salted H.hash salted.now password.now }
    ensures cost { steps.new ≡ steps.old + salted.now.turns }
{
    let guessed = hi::<H, L>(password, salted.salt().bytes(), salted.turns(), steps);
    guessed.bytes() == salted.salted().bytes()
}

/// Whether the hash of the name, the realm and the password is the stored one.
fn proves_hashed<H: HashAlg>(ha1: &Ha1, name: &Name, password: &[u8]) -> bool
    ensures { result ≡ proves_hashed H.hash ha1.now name.now password.now }
{
    let guessed = ely_hash::ha1::<H>(name.bytes(), ha1.realm().bytes(), password);
    guessed.bytes() == ha1.hash().bytes()
}

/// Whether the password proves the identity. It takes no memory. A salted password takes as many steps as it has turns, and
/// nothing else takes one.
#[tactic(auto, unfolding(crate::specs::Guesses::proves))]
pub fn guess<L: Ledger>(ready: &Ready, password: &[u8], steps: &mut Steps<L>) -> bool
    requires { ready.now.mech ≡ Mech.Plain }
    ensures value { result ≡ proves ready.now.name ready.now.cred password.now }
    ensures cost { steps.new ≡ steps.old + guess_cost ready.now.cred }
{
    match ready.cred().credential() {
        Credential::Clear(stored) => password == stored.bytes(),
        Credential::ScramSha1(salted) => proves_salted::<Sha1Alg, L>(salted, password, steps),
        Credential::ScramSha256(salted) => proves_salted::<Sha256Alg, L>(salted, password, steps),
        Credential::DigestMd5(ha1) => proves_hashed::<Md5Alg>(ha1, ready.name(), password),
        Credential::DigestSha256(ha1) => proves_hashed::<Sha256Alg>(ha1, ready.name(), password),
    }
}
