//! The nonce of a login: the server's part of a challenge.

ghost use Rattle.std.specs.Prelude.{◌≡◌, ℕ, IfOk};
ghost use Rattle.ely_domain.specs.Given.{derived_nonce, nonce_of};

use ely_base::{Bytes, NoMemory, write_hex};
use ely_config::Config;
use ely_hash::{HashAlg, Sha256Alg};
use ely_row::Mech;
use std::alloc::Global;

/// The nonce of an open that brings none. Under one seed no two opens have one text, since each serial is eight bytes.
#[tactic(auto, unfolding(crate::specs::Given::derived_nonce))]
fn derived_nonce(alloc: Global, seed: &[u8], serial: u64) -> Result<Bytes, NoMemory>
    ensures { IfOk result (λ nonce. nonce ≡ derived_nonce seed.now serial) }
{
    let mut hash = Sha256Alg::start();
    hash.add(seed);
    hash.add(&[0]);
    hash.add(b"nonce");
    hash.add(&[0]);
    hash.add(&serial.to_be_bytes());
    let digest = hash.end();
    write_hex(alloc, &digest.bytes()[..16])
}

/// The nonce of an open that brings this one or none.
pub(crate) fn nonce_of(
    alloc: Global,
    config: &Config,
    mech: Mech,
    serial: u64,
    brought: Option<Bytes>,
) -> Result<Bytes, NoMemory>
    ensures { (limit : ℕ) → IfOk result (λ nonce. nonce
        ≡ nonce_of (record { config = config.now; limit = limit }) mech serial brought) }
{
    match (mech, brought) {
        (_, Some(nonce)) => Ok(nonce),
        (Mech::Plain, None) => Ok(Bytes::of(Vec::new(alloc))),
        _ => derived_nonce(alloc, config.params().seed().bytes(), serial),
    }
}
