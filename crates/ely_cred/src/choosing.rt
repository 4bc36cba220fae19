//! Which credential of an identity serves a mechanism: that of the lowest slot that may.

ghost use Rattle.std.specs.Prelude.{◌≡◌, IsTrue, IfSome};
ghost use Rattle.std.specs.Option.{option_map};
ghost use Rattle.ely_cred.specs.Keys.{serves, chosen};

use ely_row::{Credential, Mech, Row, StoredCred};

/// Whether the credential serves the mechanism.
fn serves(mech: Mech, cred: &StoredCred) -> bool
    ensures { result ≡ serves mech cred.now }
{
    match (mech, cred.credential()) {
        (Mech::Plain, _) => true,
        (_, Credential::Clear(_)) => true,
        (Mech::ScramSha1, Credential::ScramSha1(_)) => true,
        (Mech::ScramSha256, Credential::ScramSha256(_)) => true,
        (Mech::Digest, Credential::DigestMd5(_)) => true,
        (Mech::DigestSha256, Credential::DigestSha256(_)) => true,
        _ => false,
    }
}

/// The credential of the lowest slot that serves the mechanism, with its slot.
#[tactic(auto, unfolding(crate::specs::Keys::chosen))]
pub fn chosen_entry(row: &Row, mech: Mech) -> Option<(u8, &StoredCred)>
    ensures value { option_map (λ p. (p.0, p.1.now)) result ≡ chosen mech row.now }
    ensures serves { IfSome result (λ p. IsTrue (serves mech p.1.now)) }
{
    for (slot, cred) in row.creds() {
        if serves(mech, cred) {
            return Some((*slot, cred));
        }
    }
    None
}

/// The lowest slot whose credential serves the mechanism. Every kind serves PLAIN, and each other mechanism is served by its
/// own kind and by a clear password.
pub fn choose(row: &Row, mech: Mech) -> Option<u8>
    ensures { result ≡ option_map (λ p. p.0) (chosen mech row.now) }
{
    let (slot, _) = chosen_entry(row, mech)?;
    Some(slot)
}
