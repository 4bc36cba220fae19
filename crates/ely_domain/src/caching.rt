//! Keys that caching realms keep: what a naming finds, and what its end leaves there.

ghost use Rattle.std.specs.Prelude.{◌≡◌, ◌≤◌, IfOk, IfSome, OnErr, Some, is_some, length};
ghost use Rattle.ely_table.specs.Touching.{touched_since};
ghost use Rattle.ely_domain.specs.Caches.{AreCurrent, lists_of};
ghost use Rattle.ely_domain.specs.Contexts.{IsPin, read_of};
ghost use Rattle.ely_domain.specs.Identities.{Known, deps, key_at};
ghost use Rattle.ely_domain.specs.KeptKeys.{fill_by, is_hit, is_miss, list_of, stands_for, word_after, word_in};

use crate::planned::Planned;
use ely_base::NoMemory;
use ely_cache::{Caches, Offered, Peeked};
use ely_context::Pin;
use ely_cred::Ready;
use ely_login::CacheWord;
use ely_pipeline::Place;
use ely_row::{Deps, Mech};
use ely_table::Tables;
use std::alloc::Global;

/// What a naming finds of a key: the word that it shows, and the key at a hit.
pub(crate) fn look_up(
    alloc: Global,
    caches: &Caches,
    place: &Place,
    mech: Mech,
) -> Result<(CacheWord, Option<Ready>), NoMemory>
    ensures word { IfOk result (λ found. found.0 ≡ word_in (list_of (lists_of caches.now) place.now.realm)
        (record { name = place.now.name; mech = mech })) }
    ensures hit { IfOk result (λ found. is_some found.1 ≡ is_hit found.0) }
    ensures current { (known : Known) → AreCurrent known caches.now → IfOk result (λ found.
        IfSome found.1 (λ ready. key_at known mech (length known.edits) place.now ≡ Some ready)) }
{
    match caches.peek(&place.realm, &place.name, mech) {
        Peeked::NoCache => Ok((CacheWord::Dash, None)),
        Peeked::Miss => Ok((CacheWord::Miss, None)),
        Peeked::Hit(ready) => Ok((CacheWord::Hit, Some(ready.copy(alloc)?))),
    }
}

/// Keeps a key in the cache of its realm, with the places that it rests on. Where memory runs out, all stays as it was.
fn fill(
    alloc: Global,
    caches: &mut Caches,
    place: &Place,
    mech: Mech,
    ready: &Ready,
    rests: Deps,
) -> CacheWord
    ensures word { stands_for result ≡ CacheWord.Kept }
    ensures lists { lists_of caches.new ≡ fill_by result place.now.realm
        (record { name = place.now.name; mech = mech }) (lists_of caches.old) }
    ensures current { (known : Known) → rests ≡ deps known place.now
        → key_at known mech (length known.edits) place.now ≡ Some ready.now
        → AreCurrent known caches.old → AreCurrent known caches.new }
{
    let Ok(name) = place.name.copy(alloc) else {
        return CacheWord::Unkept;
    };
    let Ok(ready) = ready.copy(alloc) else {
        return CacheWord::Unkept;
    };
    match caches.offer(alloc, &place.realm, name, mech, ready, rests) {
        Offered::Kept => CacheWord::Kept,
        Offered::Unkept => CacheWord::Unkept,
    }
}

/// Whether the word is that of a miss.
fn is_miss(word: CacheWord) -> bool
    ensures { result ≡ is_miss word }
{
    match word {
        CacheWord::Miss => true,
        _ => false,
    }
}

/// Keeps the key of a naming that missed it, unless an edit since touched a place that it rests on: that fill is late.
pub(crate) fn settle(
    alloc: Global,
    planned: &Planned,
    tables: &Tables,
    caches: &mut Caches,
    pin: &Pin,
    mech: Mech,
    ready: &Ready,
) -> Result<CacheWord, NoMemory>
    requires { pin.now.version ≤ length tables.now.journal }
    ensures word { IfOk result (λ shown. stands_for shown ≡ word_after pin.now.found
        (touched_since tables.now.journal pin.now.version (deps (read_of planned.now tables.now) pin.now.place))) }
    ensures lists { IfOk result (λ shown. lists_of caches.new ≡ fill_by shown pin.now.place.realm
        (record { name = pin.now.place.name; mech = mech }) (lists_of caches.old)) }
    ensures current { key_at (read_of planned.now tables.now) mech pin.now.version pin.now.place ≡ Some ready.now
        → AreCurrent (read_of planned.now tables.now) caches.old → AreCurrent (read_of planned.now tables.now) caches.new }
    ensures err { OnErr result (caches.new ≡ caches.old) }
{
    if !is_miss(pin.found) {
        return Ok(CacheWord::Dash);
    }
    let deps = planned.deps(alloc, &pin.place)?;
    if tables.touched_since(pin.version, &deps) {
        return Ok(CacheWord::Late);
    }
    Ok(fill(alloc, caches, &pin.place, mech, ready, deps))
}
