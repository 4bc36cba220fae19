//! The entries under numbers: their order, and what finds the number of a key and the numbers that rest on a place.

ghost use Rattle.std.specs.Prelude.{◌≡◌, ◌<◌, ◌≤◌, ℕ, List, [], Some, None, IsSome, IfOk, MatchBool, OnOk, OnErr, ◌∷◌, length, nat_eq};
ghost use Rattle.std.specs.Vec.{vec_capacity, vec_len};
ghost use Rattle.std.specs.Map.{lookup, lookup_entry, remove_entry};
ghost use Rattle.lru.specs.LruCache.{lru_cache, put_entries};
ghost use Rattle.ely_cache.specs.Codes.{key_of};
ghost use Rattle.ely_cache.specs.Entries.{entry_key};
ghost use Rattle.ely_cache.specs.Resting.{CountsLess, CountsMore, CountsSame, ReadsSame, ReadsWith, get_by_bytes, ones_at};
ghost use Rattle.ely_cache.specs.Tied.{AreDistinct, IsAtEnd, IsOffered, IsOneLess, IsTied, entries_of, not_resting_under};

use crate::codes::key_of;
use crate::entry::Entry;
use crate::resting::{Resting, add_all, first_under, remove_all};
use ely_base::{Name, NoMemory};
use ely_row::Mech;
use lru::LruCache;
use std::alloc::Global;
use std::collections::BTreeMap;
use std::num::NonZeroUsize;

/// The number of each key.
pub type Index = BTreeMap<Vec<u8>, u32>;

/// Entries under numbers below their limit. A number is copied freely, so that an entry moves while nothing of it is lent.
#[derive(Drop)]
pub struct Slots {
    /// The entries, the most recently used first.
    pub order: LruCache<u32, Entry>,
    /// The number of each key.
    pub index: Index,
    /// The numbers of the entries that rest on each place.
    pub resting: Resting,
    /// The numbers that no entry has, with room for all.
    pub free: Vec<u32>,
}

/// The number of the entry of a name and a mechanism.
pub fn number_of(index: &Index, name: &Name, mech: Mech) -> Option<u32>
    ensures { result ≡ get_by_bytes index.now (key_of name.now mech) }
{
    index.get(key_of(name, mech).as_slice()).copied()
}

/// Puts a number at a key, in place of what stood there.
fn put_number(index: &mut Index, key: Vec<u8>, slot: u32) -> Result<(), NoMemory>
    ensures ok { OnOk result (ReadsWith key.items (Some slot) index.old index.new) }
    ensures err { OnErr result (ReadsSame index.old index.new) }
{
    index.insert(key, slot)?;
    Ok(())
}

/// Notes the number of an entry under its key and at its places. Where memory runs out, nothing is noted.
fn note(
    alloc: Global,
    index: &mut Index,
    resting: &mut Resting,
    slot: u32,
    entry: &Entry,
) -> Result<(), NoMemory>
    ensures indexed { OnOk result
        (ReadsWith (entry_key entry.now) (Some slot) index.old index.new) }
    ensures rests { OnOk result (CountsMore resting.old resting.new (ones_at entry.now.deps slot)) }
    ensures err { OnErr result (ReadsSame index.old index.new) }
    ensures err_rests { OnErr result (CountsSame resting.old resting.new) }
{
    let key = Vec::from_slice(alloc, key_of(&entry.name, entry.mech).as_slice())?;
    add_all(alloc, resting, entry.deps.all(), slot)?;
    match put_number(index, key, slot) {
        Ok(()) => Ok(()),
        Err(NoMemory) => {
            remove_all(resting, entry.deps.all(), slot);
            Err(NoMemory)
        }
    }
}

/// Takes away what was noted of an entry.
fn forget(index: &mut Index, resting: &mut Resting, slot: u32, entry: &Entry)
    ensures index { ReadsWith (entry_key entry.now) None index.old index.new }
    ensures rests { CountsLess resting.old resting.new (ones_at entry.now.deps slot) }
{
    index.remove(key_of(&entry.name, entry.mech).as_slice());
    remove_all(resting, entry.deps.all(), slot);
}

/// Puts an entry in place of that of a number, in front.
fn exchange(order: &mut LruCache<u32, Entry>, slot: u32, entry: Entry) -> Option<Entry>
    requires { IsSome (lookup (nat_eq slot) order.old.entries) }
    ensures order { order.new
        ≡ lru_cache (put_entries nat_eq order.old slot entry) order.old.cap }
    ensures old { result ≡ lookup (nat_eq slot) order.old.entries }
{
    match order.put(slot, entry) {
        Ok(old) => old,
        Err(_) => unreachable!(),
    }
}

/// Puts the entry in place of the one of its key, which has this number.
fn replace(alloc: Global, slots: &mut Slots, slot: u32, entry: Entry) -> Result<(), NoMemory>
    requires tied { IsTied slots.old }
    requires there { get_by_bytes slots.old.index (entry_key entry) ≡ Some slot }
    ensures tied { IsTied slots.new }
    ensures ok { OnOk result (IsOffered entry slots.old slots.new) }
    ensures err { OnErr result (slots.new.order ≡ slots.old.order) }
    ensures cap { slots.new.order.cap ≡ slots.old.order.cap }
{
    add_all(alloc, &mut slots.resting, entry.deps.all(), slot)?;
    match exchange(&mut slots.order, slot, entry) {
        Some(old) => remove_all(&mut slots.resting, old.deps.all(), slot),
        None => unreachable!(),
    }
    Ok(())
}

/// Puts a new entry in front, under a number that no entry has. Where memory runs out, nothing is changed.
fn enter(
    alloc: Global,
    order: &mut LruCache<u32, Entry>,
    index: &mut Index,
    resting: &mut Resting,
    slot: u32,
    entry: Entry,
) -> Result<(), NoMemory>
    requires room { length order.old.entries < order.old.cap }
    requires unused { lookup_entry (nat_eq slot) order.old.entries ≡ None }
    ensures order { OnOk result (order.new
        ≡ lru_cache ((slot, entry) ∷ order.old.entries) order.old.cap) }
    ensures indexed { OnOk result (ReadsWith (entry_key entry) (Some slot) index.old index.new) }
    ensures rests { OnOk result (CountsMore resting.old resting.new (ones_at entry.deps slot)) }
    ensures err { OnErr result (order.new ≡ order.old) }
    ensures err_index { OnErr result (ReadsSame index.old index.new) }
    ensures err_rests { OnErr result (CountsSame resting.old resting.new) }
{
    order.put(slot, entry)?;
    let Some(entry) = order.peek(&slot) else {
        unreachable!()
    };
    match note(alloc, index, resting, slot, entry) {
        Ok(()) => Ok(()),
        Err(NoMemory) => {
            order.pop(&slot);
            Err(NoMemory)
        }
    }
}

/// Puts an entry of a new key in front, under a free number.
fn append(alloc: Global, slots: &mut Slots, entry: Entry) -> Result<(), NoMemory>
    requires tied { IsTied slots.old }
    requires absent { get_by_bytes slots.old.index (entry_key entry) ≡ None }
    requires free { 0 < vec_len slots.old.free }
    ensures tied { IsTied slots.new }
    ensures ok { OnOk result (IsOffered entry slots.old slots.new) }
    ensures err { OnErr result (slots.new.order ≡ slots.old.order) }
    ensures cap { slots.new.order.cap ≡ slots.old.order.cap }
{
    let Some(slot) = slots.free.pop() else {
        unreachable!()
    };
    match enter(
        alloc,
        &mut slots.order,
        &mut slots.index,
        &mut slots.resting,
        slot,
        entry,
    ) {
        Ok(()) => Ok(()),
        Err(NoMemory) => {
            drop(slots.free.push(slot));
            Err(NoMemory)
        }
    }
}

/// Puts an entry of a new key in front, under the number of the last one, which goes.
fn evict(alloc: Global, slots: &mut Slots, entry: Entry) -> Result<(), NoMemory>
    requires tied { IsTied slots.old }
    requires absent { get_by_bytes slots.old.index (entry_key entry) ≡ None }
    requires full { vec_len slots.old.free ≡ 0 }
    ensures tied { IsTied slots.new }
    ensures ok { OnOk result (IsOffered entry slots.old slots.new) }
    ensures err { OnErr result (slots.new.order ≡ slots.old.order) }
    ensures cap { slots.new.order.cap ≡ slots.old.order.cap }
{
    let Some((slot, last)) = slots.order.peek_lru() else {
        unreachable!()
    };
    let slot = *slot;
    note(alloc, &mut slots.index, &mut slots.resting, slot, &entry)?;
    forget(&mut slots.index, &mut slots.resting, slot, last);
    drop(exchange(&mut slots.order, slot, entry));
    Ok(())
}

/// Puts the entry in front. One of the same key goes, and else the last of a full list. All memory is taken first: where it
/// runs out, nothing is changed.
pub fn keep(alloc: Global, slots: &mut Slots, entry: Entry) -> Result<(), NoMemory>
    requires tied { IsTied slots.old }
    ensures tied { IsTied slots.new }
    ensures ok { OnOk result (IsOffered entry slots.old slots.new) }
    ensures err { OnErr result (slots.new.order ≡ slots.old.order) }
    ensures cap { slots.new.order.cap ≡ slots.old.order.cap }
{
    match number_of(&slots.index, &entry.name, entry.mech) {
        Some(slot) => replace(alloc, slots, slot, entry),
        None if slots.free.is_empty() => evict(alloc, slots, entry),
        None => append(alloc, slots, entry),
    }
}

/// Drops the entry of a number.
fn drop_slot(slots: &mut Slots, slot: u32)
    requires tied { IsTied slots.old }
    requires there { IsSome (lookup (nat_eq slot) slots.old.order.entries) }
    ensures tied { IsTied slots.new }
    ensures order { slots.new.order
        ≡ lru_cache (remove_entry (nat_eq slot) slots.old.order.entries) slots.old.order.cap }
{
    let Some(entry) = slots.order.pop(&slot) else {
        unreachable!()
    };
    forget(&mut slots.index, &mut slots.resting, slot, &entry);
    drop(slots.free.push(slot));
}

/// Drops an entry that rests on a place whose code begins with the start, and says whether there was one.
fn drop_one(slots: &mut Slots, start: &Vec<u8>) -> bool
    requires tied { IsTied slots.old }
    ensures tied { IsTied slots.new }
    ensures cap { slots.new.order.cap ≡ slots.old.order.cap }
    ensures step { MatchBool result
        (IsOneLess start.now.items (entries_of slots.old.order.entries) (entries_of slots.new.order.entries))
        (IsAtEnd start.now.items (entries_of slots.old.order.entries) (entries_of slots.new.order.entries)) }
{
    match first_under(&slots.resting, start) {
        None => false,
        Some(slot) => {
            drop_slot(slots, slot);
            true
        }
    }
}

/// Drops the entries that rest on a place whose code begins with the start.
pub fn drop_all(slots: &mut Slots, start: &Vec<u8>)
    requires tied { IsTied slots.old }
    ensures tied { IsTied slots.new }
    ensures cap { slots.new.order.cap ≡ slots.old.order.cap }
    ensures entries { entries_of slots.new.order.entries
        ≡ not_resting_under start.now.items (entries_of slots.old.order.entries) }
{
    while drop_one(slots, start) {}
}

/// All numbers below the limit.
fn numbers(alloc: Global, limit: u32) -> Result<Vec<u32>, NoMemory>
    ensures distinct { IfOk result (λ free. AreDistinct free.items) }
    ensures all { IfOk result (λ free. length free.items ≡ limit) }
    ensures room { IfOk result (λ free. limit ≤ vec_capacity free) }
{
    let mut free = Vec::with_capacity(alloc, limit as usize)?;
    for number in 0..limit {
        free.push(number)?;
    }
    Ok(free)
}

/// No entries, of which there may be so many.
pub fn empty(alloc: Global, limit: u32) -> Result<Slots, NoMemory>
    requires least { 1 ≤ limit }
    requires most { limit ≤ 65536 }
    ensures tied { IfOk result IsTied }
    ensures order { IfOk result (λ slots. slots.order ≡ lru_cache [] limit) }
{
    let Some(cap) = NonZeroUsize::new(limit as usize) else {
        unreachable!()
    };
    Ok(Slots {
        order: LruCache::sparse(alloc, cap)?,
        index: BTreeMap::new(alloc),
        resting: BTreeMap::new(alloc),
        free: numbers(alloc, limit)?,
    })
}
