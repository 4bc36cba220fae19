//! The caches of all caching realms, each found by the name of its realm.

ghost use Rattle.std.specs.Prelude.{◌≡◌, ◌≤◌, ◌++◌, ◌∷◌, [], OnErr, OnOk, map, position};
ghost use Rattle.std.specs.Option.{option_copied};
ghost use Rattle.std.specs.Str.{bytes_eq};
ghost use Rattle.ely_cache.specs.Caches.{at_cache, cache_of, kept_for, peeked_key, untouched_in};
ghost use Rattle.ely_cache.specs.Codes.{key_of};
ghost use Rattle.ely_cache.specs.Entries.{offered, promoted};

use crate::cache::{Cache, Offered};
use ely_base::{Name, NoMemory};
use ely_cred::Ready;
use ely_row::{Deps, Edit, Mech};
use std::alloc::Global;
use std::marker::Model;

/// A caching realm with its cache.
#[derive(Drop)]
pub struct RealmCache {
    pub realm: Name,
    pub cache: Cache,
}

/// What the caches keep for a realm, a name and a mechanism.
#[derive(Clone, Copy)]
pub enum Peeked<'a> {
    /// The realm has no cache.
    NoCache,
    /// Its cache has no entry for them.
    Miss,
    /// The key of their entry.
    Hit(&'a Ready),
}

/// The caches of caching realms, in order.
#[derive(Drop)]
pub struct Caches {
    caches: Vec<RealmCache>,
}

impl Model for Caches {
    ghost use Rattle.std.specs.Prelude.{List};
    ghost use Rattle.ely_cache.specs.declared.caches.RealmCache.{RealmCache};

    ghost Value = { List RealmCache };

    ghost view = { λ c. c.caches.items };
}

/// The cache of the realm.
fn cache_of<'a>(caches: &'a [RealmCache], realm: &Name) -> Option<&'a RealmCache>
    ensures { option_copied result ≡ cache_of caches.now realm.now }
{
    caches.iter().find(|cache| cache.realm.is(realm))
}

/// Where the cache of the realm is.
fn place_of(caches: &[RealmCache], realm: &Name) -> Option<usize>
    ensures { result ≡ position (λ c. bytes_eq c.realm realm.now) caches.now }
{
    caches.iter().position(|cache| cache.realm.is(realm))
}

/// Drops the entries that the edit touches from each of the caches.
fn drop_in(caches: &mut [RealmCache], edit: &Edit)
    ensures { caches.new ≡ map (untouched_in edit.now) caches.old }
{
    for found in caches.iter_mut() {
        found.cache.drop_touched(edit);
    }
}

impl Caches {
    /// No caches.
    pub fn new(alloc: Global) -> Caches
        ensures { result ≡ [] }
    {
        Caches {
            caches: Vec::new(alloc),
        }
    }

    /// Adds an empty cache of at most so many entries for the realm, behind the others.
    pub fn add(&mut self, alloc: Global, realm: Name, limit: u32) -> Result<(), NoMemory>
        requires least { 1 ≤ limit }
        requires most { limit ≤ 65536 }
        ensures ok { OnOk result (self.new
            ≡ self.old ++ record { realm = realm; cache = record { limit = limit; entries = [] } } ∷ []) }
        ensures err { OnErr result (self.new ≡ self.old) }
    {
        let cache = Cache::new(alloc, limit)?;
        self.caches.push(RealmCache { realm, cache })?;
        Ok(())
    }

    /// The key that the realm's cache keeps for the name and the mechanism. The order stays.
    pub fn peek(&self, realm: &Name, name: &Name, mech: Mech) -> Peeked<'_>
        ensures { peeked_key result ≡ kept_for self.now realm.now (key_of name.now mech) }
    {
        let Some(found) = cache_of(self.caches.as_slice(), realm) else {
            return Peeked::NoCache;
        };
        match found.cache.peek(name, mech) {
            None => Peeked::Miss,
            Some(ready) => Peeked::Hit(ready),
        }
    }

    /// Brings the entry of the name and the mechanism to the front in the realm's cache, where both are there.
    pub fn use_key(&mut self, realm: &Name, name: &Name, mech: Mech)
        ensures { self.new ≡ at_cache realm.now
            (λ limit. promoted (key_of name.now mech)) self.old }
    {
        if let Some(at) = place_of(self.caches.as_slice(), realm) {
            let found = &mut self.caches[at];
            found.cache.find(name, mech);
        }
    }

    /// Offers an entry to the realm's cache. Where the realm has none, nothing is kept, and that is all right.
    pub fn offer(
        &mut self,
        alloc: Global,
        realm: &Name,
        name: Name,
        mech: Mech,
        ready: Ready,
        deps: Deps,
    ) -> Offered
        ensures kept { result ≡ Offered.Kept → self.new ≡ at_cache realm.now
            (λ limit. offered limit (record { name = name; mech = mech; ready = ready; deps = deps }))
            self.old }
        ensures unkept { result ≡ Offered.Unkept → self.new ≡ self.old }
    {
        let Some(at) = place_of(self.caches.as_slice(), realm) else {
            return Offered::Kept;
        };
        let found = &mut self.caches[at];
        found.cache.offer(alloc, name, mech, ready, deps)
    }

    /// Drops from all caches the entries that rest on a place that the edit touches. It takes no memory.
    pub fn drop_touched(&mut self, edit: &Edit)
        ensures { self.new ≡ map (untouched_in edit.now) self.old }
    {
        drop_in(self.caches.as_mut_slice(), edit);
    }
}
