//! The nonces that a server issued and still answers for, with the counts that were spent of them (RFC 7616 section 3.4).

ghost use Rattle.std.specs.Prelude.{◌≡◌, ◌≤◌, ◌↔◌, ℕ, [], IsSome, IsNone, IfOk, OnOk, OnErr, None, Some, length};
ghost use Rattle.ely_base.specs.declared.refused.Refused.TheVariants.{Fault};
ghost use Rattle.ely_digest.specs.Nonces.{AreDistinct, last_count, with_nonce, with_count, spending};
ghost use Rattle.ely_digest.specs.Uses.{IsSpent};

use ely_base::{NoMemory, Refused};
use lru::LruCache;
use std::alloc::Global;
use std::marker::Model;
use std::num::NonZeroUsize;

/// Why a nonce isn't issued.
#[derive(Clone, Copy, Debug, PartialEq, Eq)]
pub enum IssueFault {
    /// The table has it.
    Used,
}

/// Why a count isn't accepted.
#[derive(Clone, Copy, Debug, PartialEq, Eq)]
pub enum SpendFault {
    /// The table doesn't have the nonce.
    Stale,
    /// The nonce's last count, which isn't below this one.
    Replayed(u32),
}

/// The nonces that were issued last, each with the last count that was spent of it. It is seen as how many nonces it keeps,
/// and their list, the oldest first. No call walks the list.
#[derive(Drop)]
pub struct NonceTable {
    // A pair is looked up without being promoted, so the least recently used one is the oldest.
    counts: LruCache<Vec<u8>, u32>,
}

impl Model for NonceTable {
    ghost use Rattle.ely_digest.specs.Nonces.{Nonces};
    ghost use Rattle.ely_digest.specs.Kept.{nonces_of, IsTable};

    ghost Value = { Nonces };

    ghost view = { λ t. nonces_of t.counts };

    ghost invariant = { λ t. IsTable t.counts };
}

impl NonceTable {
    /// A table without nonces, which keeps this many.
    pub fn new(alloc: Global, limit: u32) -> Result<NonceTable, NoMemory>
        requires { 1 ≤ limit }
        ensures { IfOk result (λ table. table ≡ record { limit = limit; issued = [] }) }
    {
        let limit = NonZeroUsize::new(limit as usize).unwrap();
        Ok(NonceTable {
            counts: LruCache::sparse(alloc, limit)?,
        })
    }

    /// Issues a nonce, whose last count is then 0. A full table loses the one that was issued first. Where the nonce is
    /// refused, and where memory runs out, nothing is changed.
    pub fn issue(&mut self, alloc: Global, nonce: &[u8]) -> Result<(), Refused<IssueFault>>
        ensures used { (result ≡ Err (Fault IssueFault.Used))
            ↔ IsSome (last_count self.old nonce.now) }
        ensures issued { OnOk result (self.new ≡ with_nonce self.old nonce.now) }
        ensures unused { OnOk result (last_count self.old nonce.now ≡ None) }
        ensures begins { OnOk result (last_count self.new nonce.now ≡ Some 0) }
        ensures err { OnErr result (self.new ≡ self.old) }
    {
        if self.holds(nonce).is_some() {
            return Err(Refused::Fault(IssueFault::Used));
        }
        let key = Vec::from_slice(alloc, nonce)?;
        self.counts.put(key, 0)?;
        Ok(())
    }

    /// Spends a count of a nonce (RFC 7616 section 3.4). As long as the nonce stays in the table its accepted counts only
    /// rise, so a header that is sent again is refused. Where the count is refused, nothing is changed.
    pub fn spend(&mut self, nonce: &[u8], nc: u32) -> Result<(), SpendFault>
        ensures answer { result ≡ spending (last_count self.old nonce.now) nc }
        ensures spent { OnOk result (self.new ≡ with_count self.old nonce.now nc) }
        ensures once { OnOk result (IsSpent self.new nonce.now nc) }
        ensures stale { (result ≡ Err SpendFault.Stale) ↔ IsNone (last_count self.old nonce.now) }
        ensures replayed { (last : ℕ) → (result ≡ Err (SpendFault.Replayed last))
            ↔ ((last_count self.old nonce.now ≡ Some last) × (nc ≤ last)) }
        ensures err { OnErr result (self.new ≡ self.old) }
    {
        let Some(last) = self.counts.peek_mut(nonce) else {
            return Err(SpendFault::Stale);
        };
        if nc <= *last {
            return Err(SpendFault::Replayed(*last));
        }
        *last = nc;
        Ok(())
    }

    /// The last count of a nonce, where the table has it.
    pub fn holds(&self, nonce: &[u8]) -> Option<u32>
        ensures count { result ≡ last_count self.now nonce.now }
        ensures within { length self.now.issued ≤ self.now.limit }
        ensures distinct { AreDistinct self.now.issued }
    {
        self.counts.peek(nonce).copied()
    }
}
