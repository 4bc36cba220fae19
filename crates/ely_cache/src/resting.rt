//! The reverse index: at each place the numbers of the entries that rest on it. A number stands at a place as often as its
//! entry names the place.

ghost use Rattle.std.specs.Prelude.{◌≡◌, ◌-◌, ◌<◌, ℕ, None, if◌then◌else◌, MatchBool, IfOk, IfSome, IfNone, IsTrue, OnOk, OnErr, count_by, nat_eq, slice_get, Some};
ghost use Rattle.std.specs.Bool.{OnFalse};
ghost use Rattle.ely_cache.specs.Resting.{CountsLess, CountsMore, CountsSame, NoneUnder, StandsUnder, count_at, get_by_bytes, one_at, ones_at};

use crate::codes::place_code;
use ely_base::{Name, NoMemory};
use std::alloc::Global;
use std::collections::BTreeMap;

/// The numbers at each place, by the code of the place.
pub type Resting = BTreeMap<Vec<u8>, Vec<u32>>;

/// Adds the number at a place that has a list of numbers.
fn push_at(resting: &mut Resting, code: &[u8], slot: u32) -> Result<bool, NoMemory>
    ensures ok { IfOk result (λ found. MatchBool found
        (CountsMore resting.old resting.new (one_at code.now slot))
        (CountsSame resting.old resting.new)) }
    ensures absent { IfOk result (λ found.
        OnFalse found (get_by_bytes resting.new code.now ≡ None)) }
    ensures err { OnErr result (CountsSame resting.old resting.new) }
{
    match resting.get_mut(code) {
        None => Ok(false),
        Some(slots) => {
            slots.push(slot)?;
            Ok(true)
        }
    }
}

/// Adds the number at the place.
fn add_at(alloc: Global, resting: &mut Resting, code: &[u8], slot: u32) -> Result<(), NoMemory>
    ensures ok { OnOk result (CountsMore resting.old resting.new (one_at code.now slot)) }
    ensures err { OnErr result (CountsSame resting.old resting.new) }
{
    if push_at(resting, code, slot)? {
        return Ok(());
    }
    let mut slots = Vec::new(alloc);
    slots.push(slot)?;
    let key = Vec::from_slice(alloc, code)?;
    resting.insert(key, slots)?;
    Ok(())
}

/// Where the number stands in the list.
fn place_of(slots: &[u32], slot: u32) -> Option<usize>
    ensures some { IfSome result (λ i. slice_get slots.now i ≡ Some slot) }
    ensures none { IfNone result (count_by (nat_eq slot) slots.now ≡ 0) }
{
    for i in 0..slots.len() {
        if slots[i] == slot {
            return Some(i);
        }
    }
    None
}

/// Takes the number out of the list once, where it is there.
fn take_out(slots: &mut Vec<u32>, slot: u32)
    ensures { (s : ℕ) → count_by (nat_eq s) slots.new.items
        ≡ count_by (nat_eq s) slots.old.items - (if nat_eq s slot then 1 else 0) }
{
    if let Some(i) = place_of(slots.as_slice(), slot) {
        slots.swap_remove(i);
    }
}

/// Takes the number away from the place once. The answer is whether a list without numbers is left there.
fn take_from(resting: &mut Resting, code: &[u8], slot: u32) -> bool
    ensures less { CountsLess resting.old resting.new (one_at code.now slot) }
    ensures none { IsTrue result → (s : ℕ) → count_at resting.new code.now s ≡ 0 }
{
    match resting.get_mut(code) {
        None => false,
        Some(slots) => {
            take_out(slots, slot);
            slots.is_empty()
        }
    }
}

/// Takes the number away from the place once, and the place with its last number.
fn remove_at(resting: &mut Resting, code: &[u8], slot: u32)
    ensures { CountsLess resting.old resting.new (one_at code.now slot) }
{
    if take_from(resting, code, slot) {
        resting.remove(code);
    }
}

/// Takes the number away from each of the places.
pub fn remove_all(resting: &mut Resting, places: &[(Name, Name)], slot: u32)
    ensures { CountsLess resting.old resting.new (ones_at places.now slot) }
{
    for place in places {
        remove_at(resting, place_code(&place.0, &place.1).as_slice(), slot);
    }
}

/// Adds the number at each of the places. Where memory runs out, nothing is added.
pub fn add_all(
    alloc: Global,
    resting: &mut Resting,
    places: &[(Name, Name)],
    slot: u32,
) -> Result<(), NoMemory>
    ensures ok { OnOk result (CountsMore resting.old resting.new (ones_at places.now slot)) }
    ensures err { OnErr result (CountsSame resting.old resting.new) }
{
    let mut added = 0;
    for place in places {
        let code = place_code(&place.0, &place.1);
        if add_at(alloc, resting, code.as_slice(), slot).is_err() {
            remove_all(resting, &places[..added], slot);
            return Err(NoMemory);
        }
        added += 1;
    }
    Ok(())
}

/// A number that stands at a place whose code begins with the start, where there is one. Such places stand together in the
/// map from the start on, so that no other is passed over. (A range wants a whole key, and so a `Vec`.)
pub fn first_under(resting: &Resting, start: &Vec<u8>) -> Option<u32>
    ensures some { IfSome result (StandsUnder start.now.items resting.now) }
    ensures none { IfNone result (NoneUnder start.now.items resting.now) }
{
    for (code, slots) in resting.range(start..) {
        if !code.as_slice().starts_with(start.as_slice()) {
            return None;
        }
        if let Some(slot) = slots.first() {
            return Some(*slot);
        }
    }
    None
}
